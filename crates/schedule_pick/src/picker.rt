//! Which event is picked.
ghost use Rattle.da_lang.specs.declared.event.Event.{Event as EventOf};
ghost use Rattle.da_system.specs.State.{IsReady, Whichever, is_spent, program_of};
ghost use Rattle.schedule_pick.specs.Picked.{first_picker as first_picker_def, order_for, picked, picker_after, picker_by, with_order};
ghost use Rattle.schedule_pick.specs.Orders.{foremost};
ghost use Rattle.schedule_pick.specs.Budgets.{pickable};
ghost use Rattle.da_system.specs.StressRun.{pick as pick_def};
ghost use Rattle.std.specs.List.{list_any};
ghost use Rattle.std.specs.Prelude.{◌≡◌, ◌==◌, ◌+◌, ◌<◌, ◌^◌, ℕ, IfOk, None, OnOk, Some, false, length};

use crate::budget::{Budget, pickable_events};
use crate::order::{Actor, actors, events_of, fall, first_of, places, shuffle};
use crate::strategy::Setting;
use da_lang::Event;
use da_system::System;
use da_values::{List, NoMemory};
use replay_run::{next_number, place_in};
use std::alloc::Global;

/// How the rest of a schedule is picked: the last number, what is left of the budget, the order of processes and channels, at which
/// places the first falls to the end, and the place of the next event. Without an order one of all events is picked.
#[derive(Drop)]
pub struct Picker {
    pub number: u64,
    pub budget: Budget,
    pub order: List<Actor>,
    pub falls: List<u64>,
    pub place: u64,
}

/// How a schedule of at most `most` events of so many processes is picked from a number on.
pub fn first_picker(
    alloc: Global,
    processes: u32,
    setting: Setting,
    most: u64,
    number: u64,
) -> Result<Picker, NoMemory>
    requires { 0 < most }
    ensures { IfOk result (λ picker. picker ≡ first_picker_def processes setting most number) }
{
    let falls = setting.strategy.falls(number);
    let Some(count) = falls else {
        return Ok(plain_picker(alloc, setting.budget, number));
    };
    let picker = ordered_picker(alloc, processes, setting.budget, count, most, number)?;
    Ok(picker)
}

// The same without an order.
fn plain_picker(alloc: Global, budget: Budget, number: u64) -> Picker
    ensures { (count : ℕ) (most : ℕ) → result ≡ picker_by None count budget most number }
{
    let order = List::new(alloc);
    let falls = List::new(alloc);
    Picker {
        number,
        budget,
        order,
        falls,
        place: 0,
    }
}

// The same by an order in which so many fall.
fn ordered_picker(
    alloc: Global,
    processes: u32,
    budget: Budget,
    falls: u8,
    most: u64,
    number: u64,
) -> Result<Picker, NoMemory>
    requires { 0 < most }
    ensures { IfOk result (λ picker. picker ≡ picker_by (Some falls) processes budget most number) }
{
    let all = actors(alloc, processes, budget)?;
    let shuffled = shuffle(alloc, all, number)?;
    let chosen = places(alloc, falls, most, shuffled.last)?;
    Ok(Picker {
        number: chosen.last,
        budget,
        order: shuffled.order,
        falls: chosen.places,
        place: 0,
    })
}

impl Picker {
    /// Picks an event that may be picked in the state of a system of so many processes, or `None` where there is none.
    pub fn pick(
        &mut self,
        alloc: Global,
        system: &System<'_>,
        processes: u32,
    ) -> Result<Option<Event>, NoMemory>
        requires ready { IsReady system.now }
        requires unspent { is_spent system.now ≡ false }
        requires count { processes ≡ length (program_of system.now).procs }
        requires room { self.old.place + 1 < 2 ^ 64 }
        ensures picked { IfOk result (λ found. Whichever system.now (λ s.
            found ≡ picked self.old (pickable (program_of system.now) s self.old.budget))) }
        ensures after { IfOk result (λ found. Whichever system.now (λ s. (e : EventOf) → found ≡ Some e
            → self.new ≡ picker_after self.old (pickable (program_of system.now) s self.old.budget) e)) }
    {
        let events = pickable_events(alloc, system, processes, self.budget)?;
        let found = self.pick_from(alloc, events.as_slice())?;
        Ok(found)
    }

    // Picks one of some events.
    fn pick_from(&mut self, alloc: Global, events: &[Event]) -> Result<Option<Event>, NoMemory>
        requires { self.old.place + 1 < 2 ^ 64 }
        ensures picked { IfOk result (λ found. found ≡ picked self.old events.now) }
        ensures after { IfOk result (λ found. (e : EventOf) → found ≡ Some e → self.new ≡ picker_after self.old events.now e) }
    {
        self.settle_order(events)?;
        let number = next_number(self.number);
        let found = one_of(alloc, self.order.as_slice(), events, number)?;
        let Some(event) = found else {
            return Ok(None);
        };
        self.number = number;
        self.budget = self.budget.after(&event);
        self.place += 1;
        Ok(Some(event))
    }

    // The order before the next event: at a place where one falls, it has fallen.
    fn settle_order(&mut self, events: &[Event]) -> Result<(), NoMemory>
        ensures settled { OnOk result (self.new ≡ with_order self.old (order_for self.old events.now)) }
        ensures place { self.new.place ≡ self.old.place }
    {
        if !self.falls_here() {
            return Ok(());
        }
        fall(&mut self.order, events)?;
        Ok(())
    }

    // Whether the first falls before the next event.
    fn falls_here(&self) -> bool
        ensures { result ≡ list_any (λ place. place == self.now.place) self.now.falls }
    {
        has_place(self.falls.as_slice(), self.place)
    }
}

// Whether a place is among others.
fn has_place(places: &[u64], place: u64) -> bool
    ensures { result ≡ list_any (λ other. other == place) places.now }
{
    for other in places {
        if *other == place {
            return true;
        }
    }
    false
}

// The event that a number picks of those of the first in an order that has some, or of all where there is no such order.
fn one_of(
    alloc: Global,
    order: &[Actor],
    events: &[Event],
    number: u64,
) -> Result<Option<Event>, NoMemory>
    ensures { IfOk result (λ found. found ≡ pick_def (foremost order.now events.now) number) }
{
    let found = first_of(order, events);
    let Some(place) = found else {
        let any = one_of_all(events, number);
        return Ok(any);
    };
    let foremost = events_of(alloc, order[place], events)?;
    let event = one_of_all(foremost.as_slice(), number);
    Ok(event)
}

// The one that a number picks of all.
fn one_of_all(events: &[Event], number: u64) -> Option<Event>
    ensures { result ≡ pick_def events.now number }
{
    let count = events.len();
    if count == 0 {
        return None;
    }
    let place = place_in(count, number);
    Some(events[place])
}
