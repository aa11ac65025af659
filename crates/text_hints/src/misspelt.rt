//! Words of the language that are nearly written.
use crate::expected::has;
use crate::hint::Hint;
use crate::nearest::Nearest;
use crate::reading::{Source, next_marks};
use crate::spellings::{Spelling, spellings};
use crate::spot::Spot;
use da_values::Mark;
use std::alloc::Global;

/// Asks whether a word is meant, where a line begins with a name that is like a word with which it could begin, and the name or
/// the token after it is at the spot, or a bracket stands behind it. Whether there is such a word.
pub fn tell_first_word(
    alloc: Global,
    spot: Spot<'_>,
    loose: bool,
    marks: &[Mark],
    hint: &mut Hint,
) -> bool {
    let begin = spot.begin;
    if !spot.is(begin, Mark::Name) {
        return false;
    }
    if spot.place == begin {
        return tell_meant(alloc, spot.bytes(begin), marks, hint);
    }
    let next = begin.saturating_add(1);
    if spot.place != next && !spot.is(next, Mark::OpenParen) {
        return false;
    }
    tell_at(alloc, spot, begin, loose, hint)
}

/// Asks whether a word is meant, where the name at the spot is like a word that could stand there. Whether there is such a word.
pub fn tell_word_here(alloc: Global, spot: Spot<'_>, marks: &[Mark], hint: &mut Hint) -> bool {
    spot.here(Mark::Name) && tell_meant(alloc, spot.bytes(spot.place), marks, hint)
}

/// Asks whether a word is meant, where the name before the spot, within a line, is like a word that could stand in its place.
/// Whether there is such a word.
pub fn tell_word_before(alloc: Global, spot: Spot<'_>, loose: bool, hint: &mut Hint) -> bool {
    let Some(place) = spot.place.checked_sub(1) else {
        return false;
    };
    let goes_on = spot.here(Mark::Name) || spot.here(Mark::OpenParen);
    if !(goes_on && place > spot.begin && spot.is(place, Mark::Name)) {
        return false;
    }
    tell_at(alloc, spot, place, loose, hint)
}

// Asks whether a word is meant, where the name at a place before the spot is like a word that could stand in its place.
fn tell_at(alloc: Global, spot: Spot<'_>, place: usize, loose: bool, hint: &mut Hint) -> bool {
    let (front, _) = spot.tokens.split_at(place.min(spot.tokens.len()));
    let text = spot.text;
    match next_marks(alloc, Source { text, loose }, front) {
        Some(marks) => tell_meant(alloc, spot.bytes(place), marks.as_slice(), hint),
        None => false,
    }
}

// Asks whether the word of these marks is meant that is most like a name.
fn tell_meant(alloc: Global, name: &[u8], marks: &[Mark], hint: &mut Hint) -> bool {
    let mut nearest = Nearest::new(alloc, name);
    for entry in spellings() {
        if is_word(entry) && has(marks, entry.1) {
            nearest.offer(entry.0);
        }
    }
    match nearest.found() {
        Some(found) => {
            hint.notes.fill(b"is @ meant?", found, b"");
            hint.note(b"");
            true
        }
        None => false,
    }
}

// Whether a kind of token is one word.
fn is_word(entry: &Spelling) -> bool {
    match entry.0 {
        [first, ..] => first.is_ascii_alphabetic() && entry.1 != Mark::Name,
        [] => false,
    }
}
