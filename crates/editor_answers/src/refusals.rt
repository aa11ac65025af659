//! What a person is shown of a text that is refused.

use crate::columns::range_of;
use crate::objects::Object;
use da_front::RefusedKind;
use da_hints::{explain, why_of};
use serde_json::{Map, Value};
use std::alloc::Global;
use text_hints::{Hint, Phrase, line_of};

/// The severity of an error.
const ERROR: usize = 1;

/// The members of the diagnostic of a refusal of this kind at a line, or at 0 where no line is to blame; `told` is the line that `check`
/// answers.
pub fn shown_refusal(
    alloc: Global,
    text: &[u8],
    kind: RefusedKind,
    line: u32,
    told: &[u8],
) -> Map<String, Value> {
    let hint = hint_on(alloc, text, kind, line);
    let message = message_of(alloc, kind, &hint);
    let mut object = Object::new(alloc);
    object.put("range", place_of(alloc, text, line, &hint));
    object.number("severity", ERROR);
    object.text("source", b"dalgo");
    object.text("code", kind_in(told));
    object.text("message", message.as_slice());
    object.members()
}

/// What is known of a refusal beside its kind and its line.
pub fn hint_on(alloc: Global, text: &[u8], kind: RefusedKind, line: u32) -> Hint {
    match why_of(kind) {
        Some(why) => explain(alloc, text, why, line),
        None => Hint::new(alloc),
    }
}

// The sentence, and below it the lines that help.
fn message_of(alloc: Global, kind: RefusedKind, hint: &Hint) -> Phrase {
    let mut message = Phrase::new(alloc);
    if hint.sentence.is_empty() {
        put_kind(alloc, kind, &mut message);
    } else {
        message.put(hint.sentence.as_slice());
    }
    if !hint.notes.is_empty() {
        message.put(b"\n");
        message.put(hint.notes.as_slice().trim_ascii_end());
    }
    message
}

// The sentence of a kind.
fn put_kind(alloc: Global, kind: RefusedKind, out: &mut Phrase) {
    if let Ok(sentence) = format!(in alloc; "{kind}") {
        out.put(sentence.as_bytes());
    }
}

// The second word of a line.
fn kind_in(line: &[u8]) -> &[u8] {
    let mut words = line.split(|byte| *byte == b' ');
    words.nth(1).unwrap_or(b"".as_slice())
}

// The part to blame, or else the whole line.
fn place_of(alloc: Global, text: &[u8], number: u32, hint: &Hint) -> Value {
    if hint.length != 0 {
        return range_of(alloc, text, hint.first, hint.length);
    }
    match line_of(text, number) {
        Some(line) => range_of(alloc, text, line.first, line.bytes.len()),
        None => range_of(alloc, text, 0, 0),
    }
}
