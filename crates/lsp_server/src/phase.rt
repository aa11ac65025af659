//! How far a session is.

/// How far a session is.
#[derive(Clone, Copy)]
pub enum Phase {
    /// `initialize` has not come yet.
    Fresh,
    /// Requests are answered.
    Ready,
    /// `shutdown` has come.
    Down,
}
