//! Lines of a text by their numbers, and events of a schedule by theirs.
ghost use Rattle.sched_text.specs.Places.{event_lines};
ghost use Rattle.std.specs.List.{slice_get};
ghost use Rattle.std.specs.Prelude.{◌≡◌, ◌-◌, ◌≤◌, Some, None, IfNone, IfSome};
ghost use Rattle.std.specs.Str.Lines.{lines};

use crate::line::split_line;
use crate::schedule::is_skipped;

/// A line of a text: its number, counted from 1, and its bytes without the end.
#[derive(Clone, Copy)]
pub struct Place<'a> {
    pub number: u64,
    pub line: &'a [u8],
}

/// The line of this number, counted from 1, or `None` where the text has no such line.
pub fn line_of_number(text: &[u8], number: u64) -> Option<&[u8]>
    ensures some { IfSome result (λ line. (1 ≤ number) × (slice_get (lines text.now) (number - 1) ≡ Some line.now)) }
    ensures none { IfNone result (1 ≤ number → slice_get (lines text.now) (number - 1) ≡ None) }
{
    let mut before = number.checked_sub(1)?;
    let mut rest = text;
    'lines: while rest.len() > 0 {
        let (line, others) = split_line(rest);
        if before == 0 {
            return Some(line);
        }
        before -= 1;
        rest = others;
    }
    None
}

/// The line of the event of this number in a schedule, counted from 1, or `None` where it has fewer events.
pub fn line_of_event(schedule: &[u8], event: u64) -> Option<Place<'_>>
    ensures some { IfSome result (λ place. (1 ≤ event) × (slice_get (event_lines schedule.now) (event - 1) ≡ Some (place.number, place.line.now))) }
    ensures none { IfNone result (1 ≤ event → slice_get (event_lines schedule.now) (event - 1) ≡ None) }
{
    let mut before = event.checked_sub(1)?;
    let mut rest = schedule;
    let mut number = 1;
    'lines: while rest.len() > 0 {
        let (line, others) = split_line(rest);
        if !is_skipped(line) {
            if before == 0 {
                return Some(Place { number, line });
            }
            before -= 1;
        }
        number += 1;
        rest = others;
    }
    None
}
