//! How an answer ends.

/// How the question which events are allowed after a schedule was answered.
#[derive(Clone, Copy)]
pub enum NextOutcome {
    /// The events that are allowed were written.
    Done,
    /// The event of this number is not allowed. Events are numbered from 1.
    Forbidden(u64),
    /// The events that are allowed are no schedule: with empty remarks they have more than 16,777,216 bytes, or one has a
    /// number of more than nine digits. Nothing was written.
    Unspelled,
    /// The sink failed.
    WriteFault,
    /// Memory was refused.
    Memory,
}
