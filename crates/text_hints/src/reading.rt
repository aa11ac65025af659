//! What the reader of the grammar is asked: where it stops, and what it would go on with.
//!
//! The reader tells the line of the token at which it stops. So it is asked about the same tokens with other numbers of lines:
//! each has its place among the tokens, counted from 1. After them stands one more, so that the end of the text has a number
//! of its own.
use crate::lines::between;
use crate::spellings::{kind_of, spellings};
use da_lex::{Token, Tokens};
use da_parse::{ParseFault, parse, parse_loose};
use da_values::{Buf, List, Mark, mark_of};
use std::alloc::Global;

/// Where the reader stops: at the token of this place, counted from 0, or after all tokens. With `deep` it stops since the
/// token would open one thing too many.
#[derive(Clone, Copy)]
pub struct StopPlace {
    pub place: usize,
    pub deep: bool,
}

/// A text, and whether its parameters may lack their types.
#[derive(Clone, Copy)]
pub struct Source<'t> {
    pub text: &'t [u8],
    pub loose: bool,
}

// Where the reader stops in numbered tokens, or `None` where it reads them all or memory is refused.
fn ask(alloc: Global, tokens: &Tokens<'_>, loose: bool) -> Option<StopPlace> {
    let fault = if loose {
        loose_fault(alloc, tokens)?
    } else {
        strict_fault(alloc, tokens)?
    };
    let (line, deep) = match fault {
        ParseFault::Syntax { line } => (line, false),
        ParseFault::Deep { line } => (line, true),
        ParseFault::Memory => return None,
    };
    let place = (line as usize).saturating_sub(1);
    Some(StopPlace { place, deep })
}

// Why tokens are no program.
fn strict_fault(alloc: Global, tokens: &Tokens<'_>) -> Option<ParseFault> {
    match parse(alloc, tokens) {
        Ok(_) => None,
        Err(fault) => Some(fault),
    }
}

// The same where parameters may lack their types.
fn loose_fault(alloc: Global, tokens: &Tokens<'_>) -> Option<ParseFault> {
    match parse_loose(alloc, tokens) {
        Ok(_) => None,
        Err(fault) => Some(fault),
    }
}

/// A number as one of a line.
fn short(number: usize) -> u32 {
    u32::try_from(number).unwrap_or(u32::MAX)
}

// The text of a program, and after it the spellings of all tokens.
fn with_spellings(alloc: Global, text: &[u8]) -> Option<Buf> {
    let mut whole = List::new(alloc);
    whole.append(text).ok()?;
    for entry in spellings() {
        whole.append(b" ").ok()?;
        whole.append(entry.0).ok()?;
    }
    Some(whole)
}

// Adds a token of this kind, whose spelling stands after a text of so many bytes.
fn push_mark(mark: Mark, length: usize, list: &mut List<Token>) -> Option<()> {
    let mut first = length;
    let mut spelling = b"".as_slice();
    for entry in spellings() {
        first = first.saturating_add(1);
        if entry.1 == mark {
            spelling = entry.0;
            break;
        }
        first = first.saturating_add(entry.0.len());
    }
    let token = Token {
        kind: kind_of(mark, spelling),
        first: short(first),
        length: short(spelling.len()),
        line: 0,
    };
    push_all(&[token], list)
}

// Adds tokens, each with the number of its place.
fn push_all(tokens: &[Token], list: &mut List<Token>) -> Option<()> {
    for token in tokens {
        let mut token = *token;
        token.line = short(list.len().saturating_add(1));
        list.push(token).ok()?;
    }
    Some(())
}

/// Where the reader stops in the tokens of a text, or `None` where it reads them all or memory is refused.
pub fn stop_in(alloc: Global, source: Source<'_>, tokens: &[Token]) -> Option<StopPlace> {
    let whole = with_spellings(alloc, source.text)?;
    let mut list = List::new(alloc);
    push_all(tokens, &mut list)?;
    push_mark(Mark::Channel, source.text.len(), &mut list)?;
    let text = whole.as_slice();
    ask(alloc, &Tokens { text, list }, source.loose)
}

/// The kinds of tokens with which the reader goes on after these, which it reads without a stop.
pub fn next_marks(alloc: Global, source: Source<'_>, front: &[Token]) -> Option<List<Mark>> {
    let Source { text, loose } = source;
    let whole = with_spellings(alloc, text)?;
    let mut list = List::new(alloc);
    push_front(text, front, &mut list)?;
    let place = list.len();
    let mut asked = Tokens {
        text: whole.as_slice(),
        list,
    };
    let mut found = List::new(alloc);
    for entry in spellings() {
        push_mark(entry.1, text.len(), &mut asked.list)?;
        push_mark(Mark::Channel, text.len(), &mut asked.list)?;
        let goes = match ask(alloc, &asked, loose) {
            None => true,
            Some(stop) => stop.deep || stop.place > place,
        };
        asked.list.truncate(place);
        if goes {
            found.push(entry.1).ok()?;
        }
    }
    Some(found)
}

// Adds the tokens, or what is the same for what comes next: a message, and those of the last thing at the outermost level.
fn push_front(text: &[u8], front: &[Token], list: &mut List<Token>) -> Option<()> {
    let first = last_outermost(text, front);
    if first != 0 {
        for mark in [
            Mark::Message,
            Mark::Name,
            Mark::OpenParen,
            Mark::CloseParen,
            Mark::Newline,
        ] {
            push_mark(mark, text.len(), list)?;
        }
    }
    let (_, rest) = front.split_at(first.min(front.len()));
    push_all(rest, list)
}

// The place of the first token of the last message, class or `main`.
fn last_outermost(text: &[u8], front: &[Token]) -> usize {
    let mut depth = 0usize;
    let mut fresh = true;
    let mut last = 0usize;
    for (place, token) in front.iter().enumerate() {
        let mark = mark_at(text, token);
        match mark {
            Mark::Indent => depth = depth.saturating_add(1),
            Mark::Dedent => depth = depth.saturating_sub(1),
            _ => {
                if fresh && depth == 0 {
                    last = place;
                }
            }
        }
        fresh = mark == Mark::Newline || mark == Mark::Dedent || (fresh && mark == Mark::Indent);
    }
    last
}

/// The mark of a token of a text.
pub fn mark_at(text: &[u8], token: &Token) -> Mark {
    mark_of(token.kind, slice_at(text, token))
}

/// The bytes of a token of a text.
pub fn slice_at<'t>(text: &'t [u8], token: &Token) -> &'t [u8] {
    let first = token.first as usize;
    between(text, first, first.saturating_add(token.length as usize))
}
