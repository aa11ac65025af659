//! Texts that are the tags of messages.

use crate::line::Line;
use da_values::Mark;

/// Whether the text at a place is the tag of a message: it is the first part of a tuple that is sent or received, or that is
/// looked for in a history.
pub fn is_tag(line: Line<'_>, place: usize) -> bool {
    if !line.is(place, Mark::Quoted) || !line.is_before(place, 1, Mark::OpenParen) {
        return false;
    }
    let Some(mark) = mark_before(line, place) else {
        return false;
    };
    match mark {
        Mark::Send => true,
        Mark::Receive => true,
        Mark::Some => is_in_history(line, place),
        Mark::Each => is_in_history(line, place),
        Mark::Comma => is_in_history(line, place),
        Mark::Colon => is_in_history(line, place),
        _ => false,
    }
}

// The mark of the token before the parenthesis that stands before a place.
fn mark_before(line: Line<'_>, place: usize) -> Option<Mark> {
    line.mark(place.checked_sub(2)?)
}

// Whether the tuple that a place is in is followed by a history.
fn is_in_history(line: Line<'_>, place: usize) -> bool {
    let mut depth = 1usize;
    let (_, rest) = line.tokens.split_at(place.min(line.tokens.len()));
    for (count, _token) in rest.iter().enumerate() {
        let here = place.saturating_add(count);
        let Some(mark) = line.mark(here) else {
            return false;
        };
        if depth == 0 && mark == Mark::In {
            return is_history(line, here.saturating_add(1));
        }
        if (depth == 0 && mark == Mark::CloseParen) || ends_tuple(mark) {
            return false;
        }
        depth = depth_after(depth, mark);
    }
    false
}

// How many parentheses are open behind a token.
fn depth_after(depth: usize, mark: Mark) -> usize {
    match mark {
        Mark::OpenParen => depth.saturating_add(1),
        Mark::CloseParen => depth.saturating_sub(1),
        _ => depth,
    }
}

// Whether no history stands behind a token.
fn ends_tuple(mark: Mark) -> bool {
    matches!(
        mark,
        Mark::Newline | Mark::Colon | Mark::Bar | Mark::CloseBrace
    )
}

// Whether a history stands at a place.
fn is_history(line: Line<'_>, place: usize) -> bool {
    line.is(place, Mark::Received) || line.is(place, Mark::Sent)
}
