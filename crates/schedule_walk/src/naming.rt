//! Events as the text of a schedule.
ghost use Rattle.sched_text.specs.EventText.{HasNames, IsNamed};
ghost use Rattle.sched_text.specs.ScheduleText.{SpellsSchedule};
ghost use Rattle.schedule_walk.specs.Walk.{schedule_text};
ghost use Rattle.std.specs.List.{All};
ghost use Rattle.std.specs.Prelude.{◌≡◌, ◌↔◌, ◌∷◌, [], IfOk, IsTrue};

use da_lang::Event;
use da_values::{Buf, List, NoMemory};
use sched_text::{SCHEDULE_LIMIT, write_event};
use std::alloc::Global;

/// The greatest number that a schedule can name.
const LAST_NAME: u32 = 999_999_999;

/// The lines of some events. Where they are no schedule of these events, for they have more than `SCHEDULE_LIMIT` bytes or a
/// number that no schedule can name, that counts as want of memory.
pub fn schedule_of(alloc: Global, events: &[Event]) -> Result<Buf, NoMemory>
    ensures text { IfOk result (λ text. text ≡ schedule_text events.now) }
    ensures spells { IfOk result (λ text. SpellsSchedule text events.now) }
{
    if !all_named(events) {
        return Err(NoMemory);
    }
    let mut text = List::new(alloc);
    for event in events {
        write_event(event, &mut text)?;
    }
    if text.len() > SCHEDULE_LIMIT {
        return Err(NoMemory);
    }
    Ok(text)
}

/// Whether a schedule can name all numbers of some events.
pub fn all_named(events: &[Event]) -> bool
    ensures { IsTrue result ↔ All HasNames events.now }
{
    for event in events {
        if !has_names(event) {
            return false;
        }
    }
    true
}

// Whether a schedule can name all numbers of an event.
fn has_names(event: &Event) -> bool
    ensures { IsTrue result ↔ HasNames event.now }
{
    match event {
        Event::Move { p } => is_one_named(*p),
        Event::Take { p, k } => are_two_named(*p, *k),
        Event::Timeout { p } => is_one_named(*p),
        Event::Deliver { p, q, i } => are_three_named(*p, *q, *i),
        Event::Lose { p, q, i } => are_three_named(*p, *q, *i),
        Event::Repeat { p, q, i } => are_three_named(*p, *q, *i),
        Event::Show { p } => is_one_named(*p),
        Event::Stat { p } => is_one_named(*p),
    }
}

// Whether a schedule can name these numbers.
fn are_three_named(p: u32, q: u32, i: u32) -> bool
    ensures { IsTrue result ↔ All IsNamed (p ∷ q ∷ i ∷ []) }
{
    if !is_named(p) {
        return false;
    }
    are_two_named(q, i)
}

fn are_two_named(p: u32, k: u32) -> bool
    ensures { IsTrue result ↔ All IsNamed (p ∷ k ∷ []) }
{
    if !is_named(p) {
        return false;
    }
    is_one_named(k)
}

fn is_one_named(n: u32) -> bool
    ensures { IsTrue result ↔ All IsNamed (n ∷ []) }
{
    is_named(n)
}

fn is_named(n: u32) -> bool
    ensures { IsTrue result ↔ IsNamed n }
{
    n >= 1 && n <= LAST_NAME
}
