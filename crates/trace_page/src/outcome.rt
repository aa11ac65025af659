//! How a drawing ends.

/// How a drawing ended.
#[derive(Clone, Copy)]
pub enum DrawOutcome {
    /// The page was written.
    Done,
    /// The line of this number, counted from 1, is the first that is no line of an action; or, with 0, the text has more
    /// than `TRACE_LIMIT` bytes.
    BadLine(u64),
    /// The sink failed.
    WriteFault,
    /// Memory was refused.
    Memory,
}
