//! A remark on a program.
use da_values::{Buf, List, write_number};
use text_hints::Phrase;

/// What is remarkable.
#[derive(Clone, Copy)]
pub enum Kind {
    /// A block of an `await` that is never taken, or that no node takes.
    Never,
    /// A handler whose labels nothing reaches.
    Unreached,
    /// A message that nothing receives or reads.
    Unheard,
    /// A variable that nothing reads.
    Unread,
    /// A process that `main` does not set up, though its class asks for values.
    Unset,
    /// A query that keeps the product of what it goes through.
    Product,
}

/// The word of a kind, as it is written.
fn word_of(kind: Kind) -> &'static [u8] {
    match kind {
        Kind::Never => b"never",
        Kind::Unreached => b"unreached",
        Kind::Unheard => b"unheard",
        Kind::Unread => b"unread",
        Kind::Unset => b"unset",
        Kind::Product => b"product",
    }
}

/// A remark: its kind, its place with line and column counted from 1, and what is so and what helps, on one line.
#[derive(Drop)]
pub struct Remark {
    pub kind: Kind,
    pub line: u32,
    pub column: usize,
    pub told: Phrase,
}

impl Remark {
    /// Whether it stands before another one in the text.
    pub fn is_before(&self, other: &Remark) -> bool {
        self.line < other.line || (self.line == other.line && self.column < other.column)
    }
}

/// Adds a remark as a line: its word, its line, its column, and what is told. What memory is refused for is left out.
pub fn put_remark(remark: &Remark, out: &mut Buf) {
    let _ = out.append(word_of(remark.kind));
    let _ = out.append(b" ");
    let _ = write_number(u64::from(remark.line), out);
    let _ = out.append(b" ");
    let _ = write_number(remark.column as u64, out);
    let _ = out.append(b" ");
    let _ = out.append(remark.told.as_slice());
    let _ = out.append(b"\n");
}

/// Adds a remark at its place in the text.
pub fn put_in_order(remark: Remark, out: &mut List<Remark>) {
    let place = out
        .as_slice()
        .iter()
        .take_while(|other| !remark.is_before(other))
        .count();
    if place <= out.len() {
        let _ = out.insert(place, remark);
    }
}
