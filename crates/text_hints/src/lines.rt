//! Lines of a text.

/// A line: the place of its first byte in the text, and its bytes without the end.
#[derive(Clone, Copy)]
pub struct Line<'t> {
    pub first: usize,
    pub bytes: &'t [u8],
}

/// The line of this number, counted from 1, or `None` where there is none. A text without bytes has one line.
pub fn line_of(text: &[u8], number: u32) -> Option<Line<'_>> {
    let mut first = 0usize;
    let mut count = 1u32;
    for (place, byte) in text.iter().enumerate() {
        if *byte == b'\n' {
            if count == number {
                let whole = between(text, first, place);
                let bytes = whole.strip_suffix(b"\r".as_slice()).unwrap_or(whole);
                return Some(Line { first, bytes });
            }
            count = count.saturating_add(1);
            first = place.saturating_add(1);
        }
    }
    let bytes = behind(text, first);
    if count == number {
        Some(Line { first, bytes })
    } else {
        None
    }
}

/// The bytes from one place up to another, as far as there are such places.
pub fn between(text: &[u8], first: usize, end: usize) -> &[u8] {
    let (front, _) = text.split_at(end.min(text.len()));
    let (_, bytes) = front.split_at(first.min(front.len()));
    bytes
}

/// The bytes after a place.
pub fn behind(text: &[u8], place: usize) -> &[u8] {
    let (_, bytes) = text.split_at(place.min(text.len()));
    bytes
}

/// The column, counted from 1, of a place in the text, on the line that holds it.
pub fn column_of(text: &[u8], place: usize) -> usize {
    let front = between(text, 0, place);
    let mut column = 1usize;
    for byte in front {
        column = if *byte == b'\n' {
            1
        } else {
            column.saturating_add(1)
        };
    }
    column
}

/// The number of the line that holds a place in the text, counted from 1.
pub fn line_number(text: &[u8], place: usize) -> usize {
    let front = between(text, 0, place);
    let ends = front.iter().filter(|byte| **byte == b'\n').count();
    ends.saturating_add(1)
}
