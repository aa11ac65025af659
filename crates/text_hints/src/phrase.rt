//! Texts for a person, which grow piece by piece.
use da_values::{Buf, List, write_number};
use std::alloc::Global;

/// The most bytes that are quoted at once.
const LONG: usize = 60;

/// A text that grows. Where memory is refused a piece is left out.
#[derive(Drop)]
pub struct Phrase {
    text: Buf,
}

impl Phrase {
    /// The empty text.
    pub fn new(alloc: Global) -> Phrase {
        Phrase {
            text: List::new(alloc),
        }
    }

    /// Adds bytes.
    pub fn put(&mut self, bytes: &[u8]) {
        let _ = self.text.append(bytes);
    }

    /// Adds one byte.
    pub fn push(&mut self, byte: u8) {
        let _ = self.text.push(byte);
    }

    /// Adds bytes, in quotes where they have none.
    pub fn quote(&mut self, bytes: &[u8]) {
        if bytes.contains(&b'\'') {
            self.put(bytes);
            return;
        }
        self.enclose(bytes);
    }

    /// Adds bytes between two quotes.
    pub fn enclose(&mut self, bytes: &[u8]) {
        self.put(b"'");
        self.put(bytes);
        self.put(b"'");
    }

    /// Adds bytes in quotes; where there are many, the first of them.
    pub fn quote_front(&mut self, bytes: &[u8]) {
        if bytes.len() <= LONG {
            self.quote(bytes);
            return;
        }
        let (front, _) = bytes.split_at(LONG.min(bytes.len()));
        self.put(front);
        self.put(b"..");
    }

    /// Adds a form, in which the first `@` or `$` stands for a part, and others for a second one: `@` in quotes, and `$` as it is.
    pub fn fill(&mut self, form: &[u8], first: &[u8], second: &[u8]) {
        let mut is_first = true;
        for byte in form {
            if *byte != b'@' && *byte != b'$' {
                self.push(*byte);
                continue;
            }
            let part = if is_first { first } else { second };
            is_first = false;
            if *byte == b'@' {
                self.quote(part);
            } else {
                self.put(part);
            }
        }
    }

    /// Adds a number.
    pub fn number(&mut self, number: u64) {
        let _ = write_number(number, &mut self.text);
    }

    /// Adds a number, and a word in the singular or the plural.
    pub fn count(&mut self, number: usize, one: &[u8], more: &[u8]) {
        self.number(number as u64);
        self.put(b" ");
        self.put(if number == 1 { one } else { more });
    }

    /// Whether nothing was added.
    pub fn is_empty(&self) -> bool {
        self.text.len() == 0
    }

    /// The text.
    pub fn as_slice(&self) -> &[u8] {
        self.text.as_slice()
    }
}
