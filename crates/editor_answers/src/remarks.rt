//! What a person is shown of a remark on a text that is accepted.

use crate::columns::range_of;
use crate::objects::Object;
use da_lint::{Remark, put_remark};
use da_values::List;
use serde_json::{Map, Value};
use std::alloc::Global;
use text_hints::{between, line_of};

/// The members of the diagnostic of a remark on a text, but for its severity.
pub fn shown_remark(alloc: Global, text: &[u8], remark: &Remark) -> Map<String, Value> {
    let mut line = List::new(alloc);
    put_remark(remark, &mut line);
    let word = line
        .as_slice()
        .iter()
        .take_while(|byte| **byte != b' ')
        .count();
    let first = place_of(text, remark);
    let mut object = Object::new(alloc);
    object.put(
        "range",
        range_of(alloc, text, first, name_length(text, first)),
    );
    object.text("source", b"dalgo");
    object.text("code", between(line.as_slice(), 0, word));
    object.text("message", remark.told.as_slice());
    object.members()
}

// The place of a remark.
fn place_of(text: &[u8], remark: &Remark) -> usize {
    match line_of(text, remark.line) {
        Some(line) => line.first.saturating_add(remark.column.saturating_sub(1)),
        None => text.len(),
    }
}

// How many bytes the name at a place has.
fn name_length(text: &[u8], place: usize) -> usize {
    between(text, place, text.len())
        .iter()
        .take_while(|byte| byte.is_ascii_alphanumeric() || **byte == b'_')
        .count()
}
