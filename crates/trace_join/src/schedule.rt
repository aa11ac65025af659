//! The schedule that is found.
ghost use Rattle.sched_text.specs.EventText.{IsNamed};
ghost use Rattle.std.specs.Prelude.{◌≡◌, [], ◌∷◌, ◌++◌, All, IsTrue, OnOk};
ghost use Rattle.trace_join.specs.Names.{IsNameable};

use da_lang::Event;
use da_values::{List, NoMemory};
use std::alloc::Global;
use std::marker::Model;

/// The greatest number that a line of a schedule may have.
const GREATEST: u32 = 999_999_999;

/// Events with numbers that a schedule may have.
#[derive(Drop)]
pub(crate) struct Schedule {
    events: List<Event>,
}

impl Model for Schedule {
    ghost use Rattle.da_lang.specs.contracts.event.Event as event;
    ghost use Rattle.da_lang.specs.declared.event.Event.{Event};
    ghost use Rattle.std.specs.Coded.{coded_list};
    ghost use Rattle.std.specs.Prelude.{All, List};
    ghost use Rattle.trace_join.specs.Names.{IsNameable};

    ghost Value = { List Event };

    ghost coded = { coded_list event.the_row.coded };

    ghost view = { λ schedule. schedule.events };

    ghost invariant = { λ schedule. All IsNameable schedule.events };
}

impl Schedule {
    /// No event.
    pub(crate) fn new(alloc: Global) -> Schedule
        ensures { result ≡ [] }
    {
        Schedule {
            events: List::new(alloc),
        }
    }

    /// Adds an event at the end. One that no line of a schedule can name is refused as if there was no memory for it.
    pub(crate) fn push(&mut self, event: Event) -> Result<(), NoMemory>
        ensures { OnOk result (self.new ≡ self.old ++ event ∷ []) }
    {
        if !is_nameable(&event) {
            return Err(NoMemory);
        }
        self.events.push(event)
    }

    /// The events.
    pub(crate) fn into_events(self) -> List<Event>
        ensures same { result ≡ self }
        ensures named { All IsNameable result }
    {
        let Schedule { events } = self;
        events
    }
}

// Whether a line of a schedule can name the event.
fn is_nameable(event: &Event) -> bool
    ensures { IsTrue result → IsNameable event.now }
{
    match event {
        Event::Move { p } | Event::Timeout { p } | Event::Show { p } | Event::Stat { p } =>
            is_named(*p),
        Event::Take { p, k } => is_named(*p) && is_named(*k),
        Event::Deliver { p, q, i } | Event::Lose { p, q, i } | Event::Repeat { p, q, i } => {
            is_named(*p) && is_named(*q) && is_named(*i)
        }
    }
}

// Whether a line of a schedule may have the number.
fn is_named(n: u32) -> bool
    ensures { IsTrue result → IsNamed n }
{
    n > 0 && n <= GREATEST
}
