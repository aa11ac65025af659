//! What a table tells of a number.

use da_values::List;

/// What a table tells of a number that stands for a type.
#[derive(Drop)]
pub enum Form {
    /// Nothing.
    Open,
    /// It stands for the same type as this smaller number.
    Same(usize),
    /// Integers.
    Int,
    /// Truth values.
    Bool,
    /// Texts.
    Text,
    /// Processes.
    Proc,
    /// Tuples whose parts have the types of these numbers.
    Tuple(List<usize>),
    /// Sets whose elements have the type of this number.
    Set(usize),
}
