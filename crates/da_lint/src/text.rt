//! The text of a program, and columns in it.
use crate::remark::{Kind, Remark, put_in_order};
use da_front::read_tokens;
use da_lex::Token;
use da_values::List;
use std::alloc::Global;
use text_hints::{Phrase, line_of, slice_at};

/// A text with its tokens.
#[derive(Clone, Copy)]
pub struct Text<'t> {
    pub alloc: Global,
    pub text: &'t [u8],
    pub tokens: &'t [Token],
}

impl Text<'_> {
    /// The empty phrase.
    pub fn phrase(&self) -> Phrase {
        Phrase::new(self.alloc)
    }

    /// Adds a remark on the first token with these bytes that stands on a line, or on the beginning of the line.
    pub fn remark(&self, kind: Kind, line: u32, word: &[u8], told: Phrase, out: &mut List<Remark>) {
        let column = self.column_of(line, word);
        put_in_order(
            Remark {
                kind,
                line,
                column,
                told,
            },
            out,
        );
    }

    // The column, counted from 1, of the first token with these bytes on a line, or 1.
    fn column_of(&self, number: u32, word: &[u8]) -> usize {
        let Some(line) = line_of(self.text, number) else {
            return 1;
        };
        for token in self.tokens {
            if token.line == number && slice_at(self.text, token) == word {
                return (token.first as usize)
                    .saturating_sub(line.first)
                    .saturating_add(1);
            }
        }
        1
    }
}

/// Whether a text of a program has a token with these bytes. It is also true where the text has no tokens or memory is refused.
pub fn has_token(alloc: Global, text: &[u8], bytes: &[u8]) -> bool {
    let Ok(tokens) = read_tokens(alloc, text) else {
        return true;
    };
    tokens
        .list
        .as_slice()
        .iter()
        .any(|token| slice_at(text, token) == bytes)
}
