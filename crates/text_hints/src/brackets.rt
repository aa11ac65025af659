//! The brackets that are open at a place.
use crate::lines::behind;
use crate::pieces::{is_in_name, name_length};
use da_values::List;
use std::alloc::Global;

/// The places of the brackets that are open at the end of a text, the outermost first. Texts and comments are passed over.
pub fn open_brackets(alloc: Global, text: &[u8]) -> List<usize> {
    let mut open = List::new(alloc);
    let mut place = 0usize;
    for _piece in 0..text.len() {
        let rest = behind(text, place);
        match rest {
            [] => return open,
            [b'(' | b'[' | b'{', ..] => {
                let _ = open.push(place);
            }
            [b')' | b']' | b'}', ..] => {
                let _ = open.pop();
            }
            _ => {}
        }
        place = place.saturating_add(length_of(rest));
    }
    open
}

// How many bytes are passed over at once.
fn length_of(rest: &[u8]) -> usize {
    match rest {
        [b'#', ..] => rest.iter().take_while(|byte| **byte != b'\n').count(),
        [b'\'', inside @ ..] => text_length(inside).saturating_add(2),
        [byte, ..] if is_in_name(*byte) => name_length(rest).max(1),
        _ => 1,
    }
}

// How many bytes a text literal holds; one that is not closed ends with its line.
fn text_length(inside: &[u8]) -> usize {
    inside
        .iter()
        .take_while(|byte| **byte != b'\'' && **byte != b'\n')
        .count()
}
