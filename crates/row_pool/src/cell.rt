//! What a pool has under an id.
use da_values::{List, Value};

/// A value of a pool with its holders.
#[derive(Drop)]
pub struct Cell {
    /// How many hold the value. It is 0 only within a call.
    pub(crate) holders: u128,
    /// The value.
    pub(crate) value: Value,
    /// The number by which it is looked up.
    pub(crate) mark: u64,
    /// The keys of its parts, each of which it holds.
    pub(crate) parts: List<usize>,
    /// Of a cell without a holder: the next one that is to leave.
    pub(crate) next: Option<usize>,
}
