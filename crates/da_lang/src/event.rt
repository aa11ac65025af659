//! Events of a schedule, and the actions that they make.
use da_values::{SetVal, Value};

/// An event of a schedule. Processes are numbered from 1, and so are the messages of a channel.
#[derive(Clone, Copy)]
pub enum Event {
    /// Process `p` begins, or goes on from the label where it waits.
    Move { p: u32 },
    /// Process `p` takes alternative `k` of the `await` where it waits, counted from 1.
    Take { p: u32, k: u32 },
    /// The time runs out at the `await` where process `p` waits.
    Timeout { p: u32 },
    /// Message `i` of the channel from `p` to `q` arrives.
    Deliver { p: u32, q: u32, i: u32 },
    /// Message `i` of the channel from `p` to `q` is lost.
    Lose { p: u32, q: u32, i: u32 },
    /// Message `i` of the channel from `p` to `q` is doubled.
    Repeat { p: u32, q: u32, i: u32 },
    /// The answers of the queries of process `p` are told.
    Show { p: u32 },
    /// The number of rows that process `p` keeps is told.
    Stat { p: u32 },
}

/// Why a process ended before its statements did.
#[derive(Clone, Copy, PartialEq, Eq)]
pub enum FaultKind {
    /// A result outside an i64.
    Overflow,
    /// A zero divisor.
    Divide,
    /// A range of more than 100,000 numbers.
    Range,
    /// A message whose packet has more than 60,000 bytes.
    Message,
    /// More than 1,000,000 turns in one event.
    TooLong,
}

/// What a process does at an event, what is told of it, and where a run stops.
#[derive(Drop)]
pub enum Action {
    /// Process `p` made a move: from its opening or a label with 0, else with the number of the alternative; that of a
    /// timeout is one more than there are alternatives.
    Took { p: u16, k: u32 },
    /// Process `p` sent the message `v` to `q` at the time `t`.
    Sent { p: u16, q: u16, t: u64, v: Value },
    /// Process `q` got the message `v`, which `p` sent at the time `t`.
    Got { q: u16, p: u16, t: u64, v: Value },
    /// A message from `p` to `q` of the time `t` was lost.
    Lost { p: u16, q: u16, t: u64 },
    /// A message from `p` to `q` of the time `t` was doubled.
    Again { p: u16, q: u16, t: u64 },
    /// Process `p` printed the value.
    Out { p: u16, v: Value },
    /// Process `p` used up its statements.
    End { p: u16 },
    /// A fault ended process `p` at the line.
    Fault { p: u16, kind: FaultKind, line: u32 },
    /// The answer of the query of process `p` that is numbered `n`.
    Answer { p: u16, n: u32, rows: SetVal },
    /// How many rows process `p` keeps of its histories.
    Kept { p: u16, n: u128 },
    /// Event `i` of the schedule, counted from 1, is not allowed. Nothing follows.
    Stop { i: u64 },
}
