//! What is demanded of types that are made of unknown types.

use type_table::Scheme;

/// What is demanded of types.
#[derive(Drop)]
pub enum Demand {
    /// What nothing meets.
    Never,
    /// The second is the same type as the first.
    Same(Scheme, Scheme),
    /// It is `int`.
    Int(Scheme),
    /// It is `bool`.
    Truth(Scheme),
    /// It is a tuple of so many parts.
    Width(Scheme, usize),
    /// It is a set.
    Elements(Scheme),
    /// It is ordered.
    Ordered(Scheme),
    /// It is `int` or a set.
    Adds(Scheme),
    /// It is no set.
    Single(Scheme),
    /// It is `proc` or a set of `proc`.
    Receives(Scheme),
    /// It has at most 32 levels.
    Flat(Scheme),
    /// All is met that the header demands which gives this slot its type.
    Uses(u16),
}

/// A demand, and the line of the statement that it comes from.
#[derive(Drop)]
pub struct LineDemand {
    pub line: u32,
    pub demand: Demand,
}
