//! The tokens around a token.

use da_lex::Token;
use da_values::Mark;
use text_hints::{mark_at, slice_at};

/// The tokens of a text.
#[derive(Clone, Copy)]
pub struct Line<'t> {
    pub text: &'t [u8],
    pub tokens: &'t [Token],
}

impl<'t> Line<'t> {
    /// The mark of the token at a place.
    pub fn mark(&self, place: usize) -> Option<Mark> {
        Some(mark_at(self.text, self.tokens.get(place)?))
    }

    /// Whether the token at a place has this mark.
    pub fn is(&self, place: usize, mark: Mark) -> bool {
        self.mark(place) == Some(mark)
    }

    /// Whether the token so many before a place has this mark.
    pub fn is_before(&self, place: usize, count: usize, mark: Mark) -> bool {
        match place.checked_sub(count) {
            Some(before) => self.is(before, mark),
            None => false,
        }
    }

    /// The bytes of the token at a place.
    pub fn bytes(&self, place: usize) -> &'t [u8] {
        match self.tokens.get(place) {
            Some(token) => slice_at(self.text, token),
            None => b"",
        }
    }

    /// Whether a line begins with the token at a place.
    pub fn begins(&self, place: usize) -> bool {
        place == 0
            || self.is_before(place, 1, Mark::Newline)
            || self.is_before(place, 1, Mark::Indent)
            || self.is_before(place, 1, Mark::Dedent)
    }
}
