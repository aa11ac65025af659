//! The steps into which a trace is cut.

/// A step of a process along its trace: how many actions it tells, and whether it is a timeout.
#[derive(Clone, Copy)]
pub struct Piece {
    pub size: usize,
    pub times_out: bool,
}
