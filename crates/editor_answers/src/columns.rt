//! Places in a text: bytes, and lines with columns as the protocol counts them, in units of UTF-16.

use crate::objects::Object;
use serde_json::Value;
use std::alloc::Global;
use text_hints::{between, line_number, line_of};

// The units of the character that begins with a byte; none where none begins.
fn units_of(byte: u8) -> u64 {
    if byte >= 128 && byte < 192 {
        0
    } else if byte >= 240 {
        2
    } else {
        1
    }
}

// The units of a text.
fn units(bytes: &[u8]) -> u64 {
    let mut count = 0u64;
    for byte in bytes {
        count = count.saturating_add(units_of(*byte));
    }
    count
}

/// The place of a column on a line, both counted from 0, or the nearest one before it.
pub fn place_at(text: &[u8], line: u64, column: u64) -> usize {
    let number = u32::try_from(line.saturating_add(1)).unwrap_or(u32::MAX);
    match line_of(text, number) {
        Some(found) => found
            .first
            .saturating_add(bytes_before(found.bytes, column)),
        None => text.len(),
    }
}

// How many bytes of a line stand before a column.
fn bytes_before(line: &[u8], column: u64) -> usize {
    let mut left = column;
    for (place, byte) in line.iter().enumerate() {
        let wide = units_of(*byte);
        if wide > left || (wide != 0 && left == 0) {
            return place;
        }
        left = left.saturating_sub(wide);
    }
    line.len()
}

/// The line of a place, counted from 0.
pub fn line_at(text: &[u8], place: usize) -> usize {
    line_number(text, place).saturating_sub(1)
}

// A place as a line with a column.
fn position_of(alloc: Global, text: &[u8], place: usize) -> Value {
    let front = between(text, 0, place);
    let bytes = front
        .iter()
        .rev()
        .take_while(|byte| **byte != b'\n')
        .count();
    let begin = front.len().saturating_sub(bytes);
    let column = units(between(front, begin, front.len()));
    let mut object = Object::new(alloc);
    object.number("line", line_at(text, place));
    object.put("character", Value::from(column));
    object.done()
}

/// So many bytes from a place on, as a range.
pub fn range_of(alloc: Global, text: &[u8], first: usize, length: usize) -> Value {
    let mut object = Object::new(alloc);
    object.put("start", position_of(alloc, text, first));
    object.put(
        "end",
        position_of(alloc, text, first.saturating_add(length)),
    );
    object.done()
}
