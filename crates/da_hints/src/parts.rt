//! Where a part of a program stands in its text.
ghost use Rattle.da_values.specs.Tokens.{tokens as cut};
ghost use Rattle.std.specs.Prelude.{◌≡◌, ◌≤◌, IfSome, Ok, length};

use crate::case::Case;
use crate::walk::{Span, Step};
use da_lang::{Expr, PatternTree};
use da_lex::{Token, TokenKind, Tokens, lex};
use da_values::List;
use std::alloc::Global;
use text_hints::{Phrase, is_one_of, slice_at};

/// The most bytes of a text that has tokens.
const MOST_BYTES: usize = 1_048_576;

/// The tokens of a text, or `None` where there are none or memory is refused.
pub fn tokens_of(alloc: Global, text: &[u8]) -> Option<Tokens<'_>>
    ensures size { IfSome result (λ tokens. length text.now ≤ 1048576) }
    ensures lexed { IfSome result (λ tokens. cut text.now ≡ Ok tokens.list) }
    ensures text { IfSome result (λ tokens. tokens.text.now ≡ text.now) }
{
    if text.len() > MOST_BYTES {
        return None;
    }
    match lex(alloc, text) {
        Ok(tokens) => Some(tokens),
        Err(_) => None,
    }
}

/// The tokens with bytes of the line of tokens that begins on this line of the text.
pub fn tokens_at(alloc: Global, text: &[u8], line: u32) -> List<Token> {
    let mut own = List::new(alloc);
    if let Some(tokens) = tokens_of(alloc, text) {
        for token in tokens.list.as_slice() {
            if token.line >= line && token.length != 0 {
                let _ = own.push(*token);
            } else if token.kind == TokenKind::Newline && own.len() != 0 {
                return own;
            }
        }
    }
    own
}

/// Whether a token is a parenthesis, a bracket or a comma.
pub fn is_passed(text: &[u8], token: &Token) -> bool {
    is_one_of(slice_at(text, token), b"(|)|[|]|,")
}

/// Blames the first token with these bytes on the line.
pub fn blame_word(word: &[u8], case: &mut Case<'_>) {
    blame_where(word, false, case);
}

/// Blames the first token with these bytes that stands after the word `in` on the line.
pub fn blame_source(name: &[u8], case: &mut Case<'_>) {
    blame_where(name, true, case);
}

fn blame_where(name: &[u8], as_source: bool, case: &mut Case<'_>) {
    let mut before = b"".as_slice();
    for token in case.tokens.as_slice() {
        let bytes = slice_at(case.text, token);
        if bytes == name && (!as_source || before == b"in".as_slice()) {
            case.hint.blame(token.first as usize, token.length as usize);
            return;
        }
        before = bytes;
    }
}

/// Blames the first place of an expression on the line.
pub fn blame_expr(x: &Expr, case: &mut Case<'_>) {
    let place = place_of(x, case);
    blame_place(place, case);
}

/// Blames what stands at a place.
pub fn blame_place(place: Span, case: &mut Case<'_>) {
    let own = tokens_in(place, case.tokens.as_slice());
    if let ([first, ..], [.., last]) = (own, own) {
        let end = (last.first as usize).saturating_add(last.length as usize);
        let first = first.first as usize;
        case.hint.blame(first, end.saturating_sub(first));
    }
}

/// What stands at a place, on one line.
pub fn written(place: Span, case: &Case<'_>) -> Phrase {
    let mut out = Phrase::new(case.alloc);
    let mut end = usize::MAX;
    for token in tokens_in(place, case.tokens.as_slice()) {
        let first = token.first as usize;
        if first > end {
            out.put(b" ");
        }
        out.put(slice_at(case.text, token));
        end = first.saturating_add(token.length as usize);
    }
    out
}

/// The first place of an expression on the line: its first token there, and the one after its last.
pub fn place_of(x: &Expr, case: &Case<'_>) -> Span {
    for step in case.steps.as_slice() {
        if let Step::Whole(found, _, span) = *step {
            if found == x {
                let mut place = counted(span, case);
                if matches!(x, Expr::Clock) {
                    place.end = place.end.saturating_add(1);
                }
                return widened(place, matches!(x, Expr::Tuple(_)), case);
            }
        }
    }
    NOWHERE
}

/// The same of a pattern.
pub fn place_of_pattern(pattern: &PatternTree, case: &Case<'_>) -> Span {
    for step in case.steps.as_slice() {
        if let Step::Pattern(found, span) = *step {
            if found == pattern {
                let is_tuple = matches!(pattern, PatternTree::Tuple(_));
                return widened(counted(span, case), is_tuple, case);
            }
        }
    }
    NOWHERE
}

const NOWHERE: Span = Span { first: 0, end: 0 };

// The tokens at a place.
fn tokens_in(place: Span, tokens: &[Token]) -> &[Token] {
    let (front, _) = tokens.split_at(place.end.min(tokens.len()));
    let (_, own) = front.split_at(place.first.min(front.len()));
    own
}

// A part of the line among all of its tokens.
fn counted(span: Span, case: &Case<'_>) -> Span {
    let mut place = NOWHERE;
    let mut number = 0usize;
    for (at, token) in case.tokens.as_slice().iter().enumerate() {
        if !is_passed(case.text, token) {
            if number == span.first {
                place.first = at;
            }
            number = number.saturating_add(1);
            if number == span.end {
                place.end = at.saturating_add(1);
            }
        }
    }
    place
}

// A place with the partners of the brackets in it; a tuple has brackets of its own round it.
fn widened(place: Span, is_tuple: bool, case: &Case<'_>) -> Span {
    let mut place = place;
    for _token in 0..case.tokens.len() {
        match bracket_missing(
            tokens_in(place, case.tokens.as_slice()),
            is_tuple,
            case.text,
        ) {
            Missing::Before => place.first = place.first.saturating_sub(1),
            Missing::After => place.end = place.end.saturating_add(1),
            Missing::Nothing => return place,
        }
    }
    place
}

/// Where a bracket is missing.
#[derive(Clone, Copy)]
enum Missing {
    Before,
    After,
    Nothing,
}

fn bracket_missing(own: &[Token], is_tuple: bool, text: &[u8]) -> Missing {
    let mut depth = 0usize;
    let mut outside = false;
    let last = own.len().saturating_sub(1);
    for (place, token) in own.iter().enumerate() {
        let bytes = slice_at(text, token);
        if bytes == b"(".as_slice() {
            depth = depth.saturating_add(1);
        } else if bytes == b")".as_slice() {
            if depth == 0 {
                return Missing::Before;
            }
            depth = depth.saturating_sub(1);
            outside = outside || (depth == 0 && place != last);
        } else {
            outside = outside || depth == 0;
        }
    }
    if is_tuple && outside {
        Missing::Before
    } else if depth != 0 {
        Missing::After
    } else {
        Missing::Nothing
    }
}
