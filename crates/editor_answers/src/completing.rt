//! What may be written at a place.

use crate::known::{Here, put_known};
use crate::objects::{Object, add};
use crate::question::Question;
use crate::uses::asked_place;
use da_lex::{Token, lex};
use da_values::{Buf, Mark, copy_bytes};
use serde_json::Value;
use std::alloc::Global;
use text_hints::{Source, all_spellings, between, next_marks, open_brackets};

/// The bytes that the text of a program has at most.
const MOST_BYTES: usize = 1_048_576;

/// The kind of reserved words among the completions of the protocol.
const KEYWORD: usize = 14;

/// What a place is in, as its line has it.
#[derive(Clone, Copy)]
enum Spot {
    /// A comment.
    Comment,
    /// A text, whose quote stands there.
    Text(usize),
    /// Neither; the name that ends at the place begins there.
    Word(usize),
}

/// The words that the grammar allows at a place, and the names that are known there. In a text these are the tags.
pub fn complete(question: &Question<'_>) -> Option<Value> {
    let place = asked_place(question)?;
    let mut items = Vec::new(question.alloc);
    match spot_at(question.text, place) {
        Spot::Comment => {}
        Spot::Text(quote) => {
            let end = end_of_text(question.text, place);
            let _ = put_at(question, quote, Some(end), &mut items);
        }
        Spot::Word(begin) => {
            let _ = put_at(question, begin, None, &mut items);
        }
    }
    Some(Value::Array(items))
}

// What a place is in. Texts and comments end with their line.
fn spot_at(text: &[u8], place: usize) -> Spot {
    let front = between(text, 0, place);
    let own = front
        .iter()
        .rev()
        .take_while(|byte| **byte != b'\n')
        .count();
    let begin = front.len().saturating_sub(own);
    let mut quote = None;
    for (passed, byte) in between(front, begin, front.len()).iter().enumerate() {
        if *byte == b'\'' {
            quote = if quote.is_some() {
                None
            } else {
                Some(begin.saturating_add(passed))
            };
        } else if *byte == b'#' && quote.is_none() {
            return Spot::Comment;
        }
    }
    match quote {
        Some(first) => Spot::Text(first),
        None => Spot::Word(begin_of_name(front)),
    }
}

// Where the name at the end of a text begins.
fn begin_of_name(front: &[u8]) -> usize {
    let count = front
        .iter()
        .rev()
        .take_while(|byte| byte.is_ascii_alphanumeric() || **byte == b'_')
        .count();
    front.len().saturating_sub(count)
}

// The end of the text that is open at a place: behind its quote, where one follows the rest of a name there.
fn end_of_text(text: &[u8], place: usize) -> usize {
    let count = between(text, place, text.len())
        .iter()
        .take_while(|byte| byte.is_ascii_alphanumeric() || **byte == b'_')
        .count();
    let end = place.saturating_add(count);
    let behind = end.saturating_add(1);
    if between(text, end, behind) == b"'".as_slice() {
        behind
    } else {
        place
    }
}

// What may stand at a place; where a text is open there up to `open`, whole texts alone.
fn put_at(
    question: &Question<'_>,
    place: usize,
    open: Option<usize>,
    items: &mut Vec<Value>,
) -> Option<()> {
    let alloc = question.alloc;
    let front = with_name(alloc, between(question.text, 0, place))?;
    if front.len() > MOST_BYTES {
        return None;
    }
    let tokens = lex(alloc, front.as_slice()).ok()?;
    let before = tokens_before(tokens.list.as_slice(), place)?;
    let source = Source {
        text: front.as_slice(),
        loose: false,
    };
    let marks = next_marks(alloc, source, before)?;
    if open.is_none() {
        put_words(alloc, marks.as_slice(), items);
    }
    let here = Here {
        text: front.as_slice(),
        before,
        marks: marks.as_slice(),
        place,
        open,
    };
    put_known(question, here, items);
    Some(())
}

// A text, a name behind it, and what closes its brackets.
fn with_name(alloc: Global, front: &[u8]) -> Option<Buf> {
    let mut text = copy_bytes(alloc, front).ok()?;
    text.append(b"x").ok()?;
    for place in open_brackets(alloc, front).as_slice().iter().rev() {
        let end = place.saturating_add(1);
        text.append(closing(between(front, *place, end))).ok()?;
    }
    Some(text)
}

fn closing(open: &[u8]) -> &'static [u8] {
    match open {
        b"(" => b")",
        b"[" => b"]",
        _ => b"}",
    }
}

// The tokens before the first one that stands at a place or behind it and has bytes.
fn tokens_before(tokens: &[Token], place: usize) -> Option<&[Token]> {
    let count = tokens
        .iter()
        .position(|token| token.length != 0 && token.first as usize >= place)?;
    let (before, _) = tokens.split_at(count.min(tokens.len()));
    Some(before)
}

// The reserved words among kinds of tokens.
fn put_words(alloc: Global, marks: &[Mark], items: &mut Vec<Value>) {
    for entry in all_spellings() {
        let is_word = match entry.0 {
            [first, ..] => first.is_ascii_alphabetic(),
            [] => false,
        };
        if is_word && entry.1 != Mark::Name && marks.contains(&entry.1) {
            put_item(alloc, entry.0, KEYWORD, items);
        }
    }
}

/// Adds a completion of one of the kinds of the protocol.
pub fn put_item(alloc: Global, label: &[u8], kind: usize, items: &mut Vec<Value>) {
    let mut object = Object::new(alloc);
    object.text("label", label);
    object.number("kind", kind);
    add(object.done(), items);
}
