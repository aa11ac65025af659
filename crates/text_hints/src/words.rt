//! Words that something is said of.
//!
//! A row has names with bars between them, and behind ` ~ ` what is said where a word is one of them. A name that ends with `..`
//! stands for all words that begin so, one that begins with `..` for those that end so, and one with both for those with this part.
use crate::lines::{behind, between};

/// What is said of a word, by a table of words and what is said of each, or `None` where it is none of them.
pub fn said_of(known: &[(&'static [u8], &'static [u8])], word: &[u8]) -> Option<&'static [u8]> {
    for entry in known {
        if entry.0 == word {
            return Some(entry.1);
        }
    }
    None
}

/// What the first row that has a word says of it, or nothing where none has it.
pub fn said_in(rows: &[&'static [u8]], word: &[u8]) -> &'static [u8] {
    for row in rows {
        let (names, said) = parts_of(*row);
        if is_one_of(word, names) {
            return said;
        }
    }
    b""
}

/// What stands before the sign of a row, and what is said behind it, which is nothing where there is no sign.
pub fn parts_of(row: &'static [u8]) -> (&'static [u8], &'static [u8]) {
    match behind(row, 1).iter().position(|byte| *byte == b'~') {
        Some(place) => (between(row, 0, place), behind(row, place.saturating_add(3))),
        None => (row, b""),
    }
}

/// Whether a word is one of the names of a row.
pub fn is_one_of(word: &[u8], names: &[u8]) -> bool {
    for name in names.split(|byte| *byte == b'|') {
        if is_like(word, name) {
            return true;
        }
    }
    false
}

// Whether a name stands for a word.
fn is_like(word: &[u8], name: &[u8]) -> bool {
    match name.strip_prefix(b"..".as_slice()) {
        None => match name.strip_suffix(b"..".as_slice()) {
            None => word == name,
            Some(front) => word.starts_with(front),
        },
        Some(end) => match end.strip_suffix(b"..".as_slice()) {
            None => word.ends_with(end),
            Some(part) => has_part(word, part),
        },
    }
}

// Whether bytes stand somewhere in a word.
fn has_part(word: &[u8], part: &[u8]) -> bool {
    for place in 0..word.len() {
        if behind(word, place).starts_with(part) {
            return true;
        }
    }
    false
}
