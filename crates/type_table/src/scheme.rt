//! Types that are made of unknown types.

use da_values::{Boxed, List};

/// A type that is made of unknown types.
#[derive(Drop)]
pub enum Scheme {
    /// The unknown type with this number.
    Unknown(usize),
    /// Integers.
    Int,
    /// Truth values.
    Bool,
    /// Texts.
    Text,
    /// Processes.
    Proc,
    /// Tuples with these parts.
    Tuple(List<Scheme>),
    /// Sets with these elements.
    Set(Boxed<Scheme>),
    /// The elements of a set.
    Element(Boxed<Scheme>),
    /// A part of a tuple.
    Part {
        /// The tuple.
        whole: Boxed<Scheme>,
        /// The place of the part, counted from 0.
        at: usize,
        /// How many parts the tuple has.
        count: usize,
    },
}
