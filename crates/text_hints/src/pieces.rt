//! The pieces of one line, up to the first that is at fault.
use crate::lines::behind;
use da_values::{LexKind, front_symbol, read_number};

/// A piece that no program may hold: its kind, its place in the line, and how many bytes it has.
#[derive(Clone, Copy)]
pub struct Bad {
    pub kind: LexKind,
    pub place: usize,
    pub length: usize,
}

/// What stands at the front of some bytes of a line.
#[derive(Clone, Copy)]
enum Front {
    /// Bytes that are in order, so many.
    Good(usize),
    /// A comment, which reaches to the end.
    Comment,
    /// So many bytes that are in order, and then a piece at fault with a length.
    Bad(LexKind, usize, usize),
}

/// The first piece of a line that is at fault.
pub fn bad_piece(line: &[u8]) -> Option<Bad> {
    let mut place = 0usize;
    for _piece in 0..line.len() {
        match front_of(behind(line, place)) {
            Front::Good(length) => place = place.saturating_add(length),
            Front::Comment => return None,
            Front::Bad(kind, before, length) => {
                return Some(Bad {
                    kind,
                    place: place.saturating_add(before),
                    length,
                });
            }
        }
    }
    None
}

fn front_of(rest: &[u8]) -> Front {
    match rest {
        [] | [b'#', ..] => Front::Comment,
        [b' ', ..] => Front::Good(1),
        [b'\'', inside @ ..] => text_front(inside),
        [byte, ..] => {
            if byte.is_ascii_digit() {
                number_front(rest)
            } else if is_in_name(*byte) {
                Front::Good(name_length(rest))
            } else if is_plain(*byte) {
                symbol_front(rest)
            } else {
                Front::Bad(LexKind::BadByte, 0, 1)
            }
        }
    }
}

fn is_plain(byte: u8) -> bool {
    byte >= 32 && byte <= 126
}

/// Whether a name may hold the byte.
pub fn is_in_name(byte: u8) -> bool {
    byte.is_ascii_alphanumeric() || byte == b'_'
}

/// How many bytes of a name stand at the front.
pub fn name_length(rest: &[u8]) -> usize {
    rest.iter().take_while(|byte| is_in_name(**byte)).count()
}

// A text literal, after its first quote.
fn text_front(inside: &[u8]) -> Front {
    let length = inside
        .iter()
        .take_while(|byte| is_plain(**byte) && **byte != b'\'')
        .count();
    match behind(inside, length) {
        [b'\'', ..] => Front::Good(length.saturating_add(2)),
        [] => Front::Bad(LexKind::Unclosed, 0, 1),
        _ => Front::Bad(LexKind::BadByte, length.saturating_add(1), 1),
    }
}

fn number_front(rest: &[u8]) -> Front {
    let length = rest.iter().take_while(|byte| byte.is_ascii_digit()).count();
    let (digits, _) = rest.split_at(length.min(rest.len()));
    let has_zero = matches!(digits, [b'0', _, ..]);
    if has_zero || read_number(digits).is_none() {
        Front::Bad(LexKind::BadToken, 0, length)
    } else {
        Front::Good(length)
    }
}

fn symbol_front(rest: &[u8]) -> Front {
    match front_symbol(rest) {
        Some((_, length)) => Front::Good(length),
        None => Front::Bad(LexKind::BadToken, 0, 1),
    }
}
