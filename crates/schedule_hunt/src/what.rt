//! What a schedule may be looked for, and among which ones.
use da_core::Compiled;
use da_values::Value;
use schedule_pick::Setting;

/// What the run of a schedule may show.
#[derive(Drop)]
pub enum What {
    /// A fault ends a process.
    Fault,
    /// After the run no move, no timeout and no delivery is allowed, and some process has not used up its statements. A process
    /// that a fault has ended has not. What losses and repetitions would allow does not count.
    Stuck,
    /// A process puts out `enter` while another one has put out `enter` and not `leave` since. An output counts as one of
    /// them where it is that value, or a tuple whose first part is.
    Overlap { enter: Value, leave: Value },
    /// Two outputs are not equal.
    Differ,
    /// There are more outputs than so many.
    More(u64),
}

/// What is looked for.
#[derive(Clone, Copy)]
pub enum Goal<'g> {
    /// A run that shows this.
    Shown(&'g What),
    /// A run beside which this watch says something. Its program has as many processes as the other one, and one more, which
    /// watches.
    Watched(&'g Compiled),
}

/// Which schedules are tried: those that are generated from `count` numbers, `start` and those after it, each of at most `most`
/// events, by a setting.
#[derive(Clone, Copy)]
pub struct Trials {
    pub start: u64,
    pub count: u64,
    pub most: u64,
    pub setting: Setting,
}
