//! How the events of schedules are picked.
ghost use Rattle.schedule_pick.specs.Picked.{falls_by_turn as falls_by_turn_def, falls_of as falls_def};
ghost use Rattle.std.specs.Prelude.{◌≡◌};

use crate::budget::Budget;

/// How the events of a schedule are picked.
#[derive(Clone, Copy)]
pub enum Strategy {
    /// One of all.
    Uniform,
    /// One of the process or channel that goes first. At so many places the first falls to the end.
    Priorities(u8),
    /// By the number of the schedule: one of all, or by priorities with one, two or three that fall.
    Turns,
}

impl Strategy {
    /// How many fall in the schedule of a number, or `None` where there is no order.
    pub fn falls(self, number: u64) -> Option<u8>
        ensures { result ≡ falls_def self number }
    {
        match self {
            Strategy::Uniform => None,
            Strategy::Priorities(falls) => Some(falls),
            Strategy::Turns => falls_by_turn((number % 4) as u8),
        }
    }
}

// How many fall in this of four turns.
fn falls_by_turn(turn: u8) -> Option<u8>
    ensures { result ≡ falls_by_turn_def turn }
{
    if turn == 0 {
        return None;
    }
    Some(turn)
}

/// How the schedules of a hunt are generated: how many losses and repetitions each may have, and how its events are picked.
#[derive(Clone, Copy)]
pub struct Setting {
    pub budget: Budget,
    pub strategy: Strategy,
}
