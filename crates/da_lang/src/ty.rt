//! Names, types and kinds of channels.

use da_values::{Boxed, Buf, List};

/// A name: its bytes.
pub type Name = Buf;

/// How the messages between two processes may be reordered and lost.
#[derive(Clone, Copy, PartialEq, Eq)]
pub enum ChannelKind {
    /// In order, each once.
    FifoReliable,
    /// In any order, each once.
    UnorderedReliable,
    /// In order, some never.
    FifoUnreliable,
    /// In any order, some never, some more than once.
    UnorderedUnreliable,
}

/// A type of values.
#[derive(Drop)]
pub enum Ty {
    /// Integers.
    Int,
    /// Truth values.
    Bool,
    /// Texts.
    Text,
    /// Processes.
    Proc,
    /// Tuples with parts of these types, of which there is at least one.
    Tuple(List<Ty>),
    /// Sets with elements of this type.
    Set(Boxed<Ty>),
}
