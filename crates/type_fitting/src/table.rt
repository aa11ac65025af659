//! A table of unknown types, with equations between its numbers, and with what is asked of them.

use da_values::List;
use type_table::Form;

/// What is asked of a type.
#[derive(Clone, Copy)]
pub enum Kind {
    /// It is ordered.
    Ordered,
    /// It is `int` or a set.
    Adds,
    /// It is no set.
    Single,
    /// It is `proc` or a set of `proc`.
    Receives,
    /// It has at most 32 levels.
    Flat,
}

/// What is asked of the type of a number.
#[derive(Clone, Copy)]
pub struct Note {
    pub kind: Kind,
    pub number: usize,
}

/// A table, equations between its numbers, and what is asked of them.
#[derive(Drop)]
pub struct Table {
    pub forms: List<Form>,
    pub equations: List<(usize, usize)>,
    pub notes: List<Note>,
}
