//! What a person is told of a fault, beside its kind and its line.
use crate::phrase::Phrase;
use std::alloc::Global;

/// What a person is told of a fault, beside its kind and its line.
#[derive(Drop)]
pub struct Hint {
    /// What is wrong, in one sentence. It is empty where no more is known than the kind says.
    pub sentence: Phrase,
    /// The byte of the text at which the part to blame begins, and how many bytes it has: 0 where no part is known.
    pub first: usize,
    pub length: usize,
    /// What helps, in lines that end with LF.
    pub notes: Phrase,
}

impl Hint {
    /// Nothing is known.
    pub fn new(alloc: Global) -> Hint {
        Hint {
            sentence: Phrase::new(alloc),
            first: 0,
            length: 0,
            notes: Phrase::new(alloc),
        }
    }

    /// Adds to the sentence.
    pub fn say(&mut self, bytes: &[u8]) {
        self.sentence.put(bytes);
    }

    /// Adds a name, or other bytes of the text, to the sentence.
    pub fn quote(&mut self, bytes: &[u8]) {
        self.sentence.quote(bytes);
    }

    /// Adds a line that helps.
    pub fn note(&mut self, bytes: &[u8]) {
        self.notes.put(bytes);
        self.notes.put(b"\n");
    }

    /// Blames this part of the text.
    pub fn blame(&mut self, first: usize, length: usize) {
        self.first = first;
        self.length = length;
    }
}
