//! Whether a watch is handed anything.
ghost use Rattle.da_core.specs.Compiled.{IsCompiled};

use crate::cover::copy_events;
use da_core::{Compiled, well_typed};
use da_front::{read_program, read_watch};
use da_lang::{Action, Event};
use da_system::System;
use da_values::{List, NoMemory};
use std::alloc::Global;

/// So many events are kept.
const MOST_EVENTS_KEPT: usize = 100_000;

/// The first schedules that were tried.
#[derive(Drop)]
pub struct Tried {
    alloc: Global,
    left: usize,
    kept: List<List<Event>>,
}

impl Tried {
    /// None of them.
    pub fn new(alloc: Global) -> Tried {
        Tried {
            alloc,
            left: MOST_EVENTS_KEPT,
            kept: List::new(alloc),
        }
    }

    /// Keeps a schedule, while they are not too long.
    pub fn keep(&mut self, events: &[Event]) {
        let Some(left) = self.left.checked_sub(events.len()) else {
            self.left = 0;
            return;
        };
        self.left = left;
        if let Ok(copy) = copy_events(self.alloc, events) {
            let _ = self.kept.push(copy);
        }
    }

    /// Whether the program of the first text puts nothing out in these schedules that is a message of the watch of the second text.
    /// It is not so where that cannot be told.
    pub fn hand_nothing(&self, program: &[u8], watch: &[u8]) -> bool {
        let Ok(compiled) = read_program(self.alloc, program) else {
            return false;
        };
        let Ok(count) = u32::try_from(compiled.program().procs.len()) else {
            return false;
        };
        let Ok(watch) = read_watch(self.alloc, watch, count) else {
            return false;
        };
        hand_none(self.alloc, &compiled, &watch, self.kept.as_slice())
    }
}

// Whether there are schedules, and none of them hands the watch anything.
fn hand_none(
    alloc: Global,
    compiled: &Compiled,
    watch: &Compiled,
    schedules: &[List<Event>],
) -> bool
    requires { IsCompiled compiled.now }
{
    for events in schedules {
        let Ok(handed) = hands(alloc, compiled, watch, events.as_slice()) else {
            return false;
        };
        if handed {
            return false;
        }
    }
    !schedules.is_empty()
}

// Whether the run of these events hands the watch anything.
fn hands(
    alloc: Global,
    compiled: &Compiled,
    watch: &Compiled,
    events: &[Event],
) -> Result<bool, NoMemory>
    requires { IsCompiled compiled.now }
{
    let mut system = System::new(alloc, compiled)?;
    for event in events {
        let mut actions = List::new(alloc);
        if system.step(event, &mut actions).is_err() {
            return Err(NoMemory);
        }
        if has_message(watch, actions.as_slice()) {
            return Ok(true);
        }
    }
    Ok(false)
}

// Whether a message of the watch is put out.
fn has_message(watch: &Compiled, actions: &[Action]) -> bool {
    for action in actions {
        if let Action::Out { v, .. } = action {
            if well_typed(watch, v) {
                return true;
            }
        }
    }
    false
}
