//! Schedules.
ghost use Rattle.da_lang.specs.declared.event.Event.{Event};
ghost use Rattle.sched_text.specs.Reading.{Adds, IsFaultAt, IsRead};
ghost use Rattle.sched_text.specs.ScheduleText.{HasGoodPrefix, IsBadSchedule, IsSkipped, SpellsSchedule, schedule_limit};
ghost use Rattle.std.specs.Prelude.{◌≡◌, ◌⊎◌, ◌≤◌, ℕ, List, length, IfErr, IsErrOf, MatchBool, MatchResult, OnOk};

use crate::line::split_line;
use crate::words::read_event;
use da_lang::Event;
use da_values::{List, NoMemory};
use std::alloc::Global;
use thiserror::Error;

/// The bytes that a schedule may have.
pub const SCHEDULE_LIMIT: usize = 16_777_216;

/// Why a schedule gives no events.
#[derive(Clone, Copy, Debug, Error)]
pub enum SchedFault {
    /// The line of this number, counted from 1, is the first that is no line of a schedule; or, with 0, the schedule
    /// has more than `SCHEDULE_LIMIT` bytes.
    #[error("line {0} is no line of a schedule")]
    BadLine(u64),
    /// Memory was refused.
    #[error("no memory is left")]
    Memory,
}

impl From<NoMemory> for SchedFault {
    ghost use Rattle.sched_text.specs.declared.schedule.SchedFault.TheVariants.{Memory};
    ghost use Rattle.std.specs.Prelude.{◌≡◌};

    ghost from_gives = { λ _ fault. fault ≡ Memory };

    fn from(_: NoMemory) -> SchedFault {
        SchedFault::Memory
    }
}

/// The events that a schedule spells, in its order.
///
/// A line ends with LF or with CR and LF; after the last one the LF may be missing. An empty line and one that begins
/// with `#` are passed over, but counted. Every other line is an event: its word and its numbers, which are 1 to
/// 999,999,999 in decimal without a leading 0, with one space between. Memory is wanted only for an event, and only where
/// all lines before it are good.
pub fn read_schedule(alloc: Global, text: &[u8]) -> Result<List<Event>, SchedFault>
    ensures read { IsRead text.now result }
    ensures only_events { (events : List Event) → SpellsSchedule text.now events
        → MatchResult result (λ found. found ≡ events) (λ fault. fault ≡ SchedFault.Memory) }
    ensures only_bad { (number : ℕ) → IsBadSchedule text.now number
        → MatchResult result (λ found. ⊥) (λ fault. (fault ≡ SchedFault.BadLine number) ⊎ (fault ≡ SchedFault.Memory)) }
    ensures memory { IsErrOf result SchedFault.Memory → HasGoodPrefix text.now }
{
    if text.len() > SCHEDULE_LIMIT {
        return Err(SchedFault::BadLine(0));
    }
    read_events(alloc, text)
}

// The events of a text within the limit.
fn read_events(alloc: Global, text: &[u8]) -> Result<List<Event>, SchedFault>
    requires { length text.now ≤ schedule_limit }
    ensures { IsRead text.now result }
{
    let mut events = List::new(alloc);
    let mut rest = text;
    let mut number = 1;
    'lines: while rest.len() > 0 {
        let (line, others) = split_line(rest);
        read_line(line, number, &mut events)?;
        rest = others;
        number += 1;
    }
    Ok(events)
}

// Adds the event of the line of this number, if it is not passed over.
fn read_line(line: &[u8], number: u64, events: &mut List<Event>) -> Result<(), SchedFault>
    ensures ok { OnOk result (Adds line.now events.old events.new) }
    ensures err { IfErr result (λ fault. IsFaultAt line.now number fault) }
{
    if is_skipped(line) {
        return Ok(());
    }
    match read_event(line) {
        Some(event) => {
            events.push(event)?;
            Ok(())
        }
        None => Err(SchedFault::BadLine(number)),
    }
}

/// Whether a line is passed over: it is empty, or a comment.
pub(crate) fn is_skipped(line: &[u8]) -> bool
    ensures { MatchBool result (IsSkipped line.now) (IsSkipped line.now → ⊥) }
{
    match line {
        [first, ..] => *first == b'#',
        [] => true,
    }
}
