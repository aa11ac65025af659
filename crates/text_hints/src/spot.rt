//! A place among the tokens of a text.
use crate::lines::between;
use crate::reading::{mark_at, slice_at};
use da_lex::Token;
use da_values::Mark;

/// A place among the tokens of a text: the token of this number, counted from 0, or the end after all of them. The line of tokens
/// that it is on begins at `begin`, and `opener` is the place of the innermost bracket that is open there.
#[derive(Clone, Copy)]
pub struct Spot<'t> {
    pub text: &'t [u8],
    pub tokens: &'t [Token],
    pub place: usize,
    pub begin: usize,
    pub opener: Option<usize>,
}

impl<'t> Spot<'t> {
    /// The spot at a place among the tokens of a text.
    pub fn new(text: &'t [u8], tokens: &'t [Token], place: usize) -> Spot<'t> {
        let (front, _) = tokens.split_at(place.min(tokens.len()));
        Spot {
            text,
            tokens,
            place,
            begin: begin_of(text, front),
            opener: opener_of(text, front),
        }
    }

    /// The mark of the token at a place, or `None` where there is none.
    pub fn mark(&self, place: usize) -> Option<Mark> {
        Some(mark_at(self.text, self.tokens.get(place)?))
    }

    /// Whether the token at a place has this mark.
    pub fn is(&self, place: usize, mark: Mark) -> bool {
        self.mark(place) == Some(mark)
    }

    /// Whether the token at the spot has this mark.
    pub fn here(&self, mark: Mark) -> bool {
        self.is(self.place, mark)
    }

    /// The bytes of the token before the spot, or none.
    pub fn bytes_before(&self) -> &'t [u8] {
        match self.place.checked_sub(1) {
            Some(place) => self.bytes(place),
            None => b"",
        }
    }

    /// The bytes of the token at a place, or none where there is no token.
    pub fn bytes(&self, place: usize) -> &'t [u8] {
        match self.tokens.get(place) {
            Some(token) => slice_at(self.text, token),
            None => b"",
        }
    }

    /// Whether a token of this mark stands before a name of these bytes, somewhere in the text.
    pub fn is_declared(&self, mark: Mark, name: &[u8]) -> bool {
        for place in 0..self.tokens.len() {
            let next = place.saturating_add(1);
            if self.is(place, mark) && self.is(next, Mark::Name) && self.bytes(next) == name {
                return true;
            }
        }
        false
    }

    /// Whether the token at the spot begins directly after the last one with bytes before it.
    pub fn is_joined(&self) -> bool {
        match self.tokens.get(self.place) {
            Some(token) => token.first as usize == self.end_before(),
            None => false,
        }
    }

    /// Whether there are no tokens, and carriage returns are all that ends a line of the text.
    pub fn has_returns_alone(&self) -> bool {
        self.tokens.is_empty() && self.text.contains(&b'\r') && !self.text.contains(&b'\n')
    }

    // The tokens before the spot.
    fn front(&self) -> &'t [Token] {
        let (front, _) = self.tokens.split_at(self.place.min(self.tokens.len()));
        front
    }

    /// Whether no token with bytes stands at the spot or after it.
    pub fn is_end(&self) -> bool {
        let (_, rest) = self.tokens.split_at(self.place.min(self.tokens.len()));
        rest.iter().all(|token| token.length == 0)
    }

    /// The place in the text after the last token before the spot that has bytes.
    pub fn end_before(&self) -> usize {
        match self.front().iter().rev().find(|token| token.length != 0) {
            Some(token) => (token.first as usize).saturating_add(token.length as usize),
            None => 0,
        }
    }

    /// The text before the token at the spot.
    pub fn before(&self) -> &'t [u8] {
        match self.tokens.get(self.place) {
            Some(token) => between(self.text, 0, token.first as usize),
            None => self.text,
        }
    }
}

// The place of the first token of the line of tokens that some tokens end on.
fn begin_of(text: &[u8], front: &[Token]) -> usize {
    let mut begin = 0usize;
    for (place, token) in front.iter().enumerate() {
        match mark_at(text, token) {
            Mark::Newline | Mark::Indent | Mark::Dedent => begin = place.saturating_add(1),
            _ => {}
        }
    }
    begin
}

// The place of the token that opened the innermost bracket which is open after some tokens.
fn opener_of(text: &[u8], front: &[Token]) -> Option<usize> {
    let mut depth = 0usize;
    for (back, token) in front.iter().enumerate().rev() {
        match mark_at(text, token) {
            Mark::CloseParen | Mark::CloseBrace | Mark::CloseBracket => {
                depth = depth.saturating_add(1);
            }
            Mark::OpenParen | Mark::OpenBrace | Mark::OpenBracket => {
                if depth == 0 {
                    return Some(back);
                }
                depth = depth.saturating_sub(1);
            }
            _ => {}
        }
    }
    None
}
