//! How a replay ends.

/// How a replay ended.
#[derive(Clone, Copy)]
pub enum Outcome {
    /// All events were carried out.
    Done,
    /// The event of this number is not allowed. Events are numbered from 1.
    Forbidden(u64),
    /// The sink failed.
    WriteFault,
    /// Memory was refused.
    Memory,
}
