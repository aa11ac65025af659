//! Who goes before whom.
ghost use Rattle.da_core.specs.Told.{numbers_to};
ghost use Rattle.da_system.specs.StressRun.{place_in as place_in_def};
ghost use Rattle.schedule_pick.specs.Orders.{actor_of as actor_def, actors as actors_def, channel as channel_def, channels_from, channels_if, fallen, is_of as is_of_def, number_after, places as places_def, process as process_def, same_actor, shuffled as shuffled_def};
ghost use Rattle.schedule_pick.specs.OrderSteps.{HasNone, IsFirstOf};
ghost use Rattle.std.specs.List.{All, filter, flat_map, list_any};
ghost use Rattle.std.specs.Prelude.{◌≡◌, ◌∷◌, ◌++◌, ◌<◌, [], IfOk, IfSome, MatchOption, OnOk, length, map};

use crate::budget::Budget;
use da_lang::Event;
use da_values::{List, NoMemory};
use replay_run::{next_number, place_in};
use std::alloc::Global;

/// A process, with `to` 0; or one way to deal with the messages of the channel from a process to a process: to deliver, to lose or to
/// repeat them.
#[derive(Clone, Copy)]
pub struct Actor {
    pub from: u32,
    pub to: u32,
    pub way: u8,
}

/// The ways.
const DELIVERS: u8 = 0;

const LOSES: u8 = 1;

const REPEATS: u8 = 2;

// Whose event it is.
fn actor_of(event: &Event) -> Actor
    ensures { result ≡ actor_def event.now }
{
    match event {
        Event::Move { p } => process(*p),
        Event::Take { p, .. } => process(*p),
        Event::Timeout { p } => process(*p),
        Event::Deliver { p, q, .. } => channel(DELIVERS, *p, *q),
        Event::Lose { p, q, .. } => channel(LOSES, *p, *q),
        Event::Repeat { p, q, .. } => channel(REPEATS, *p, *q),
        Event::Show { p } => process(*p),
        Event::Stat { p } => process(*p),
    }
}

fn process(p: u32) -> Actor
    ensures { result ≡ process_def p }
{
    Actor {
        from: p,
        to: 0,
        way: DELIVERS,
    }
}

fn channel(way: u8, p: u32, q: u32) -> Actor
    ensures { result ≡ channel_def way p q }
{
    Actor {
        from: p,
        to: q,
        way,
    }
}

// Whether an event is one of an actor.
fn is_of(actor: Actor, event: &Event) -> bool
    ensures { result ≡ is_of_def actor event.now }
{
    are_same(actor_of(event), actor)
}

fn are_same(one: Actor, other: Actor) -> bool
    ensures { result ≡ same_actor one other }
{
    one.from == other.from && one.to == other.to && one.way == other.way
}

/// The actors of so many processes, in their order, within a budget.
pub fn actors(alloc: Global, count: u32, budget: Budget) -> Result<List<Actor>, NoMemory>
    ensures { IfOk result (λ actors. actors ≡ actors_def count budget) }
{
    let losses = budget.may_lose();
    let repetitions = budget.may_repeat();
    let mut made = List::new(alloc);
    add_processes(count, &mut made)?;
    add_channels(true, DELIVERS, count, &mut made)?;
    add_channels(losses, LOSES, count, &mut made)?;
    add_channels(repetitions, REPEATS, count, &mut made)?;
    Ok(made)
}

// Adds the processes.
fn add_processes(count: u32, out: &mut List<Actor>) -> Result<(), NoMemory>
    ensures { OnOk result (out.new ≡ out.old ++ map process_def (numbers_to count)) }
{
    for place in 0..count {
        out.push(process(place + 1))?;
    }
    Ok(())
}

// Adds one way to deal with each channel, if it is wanted.
fn add_channels(wanted: bool, way: u8, count: u32, out: &mut List<Actor>) -> Result<(), NoMemory>
    ensures { OnOk result (out.new ≡ out.old ++ channels_if wanted way count) }
{
    if !wanted {
        return Ok(());
    }
    add_way(way, count, out)?;
    Ok(())
}

// Adds it for each channel.
fn add_way(way: u8, count: u32, out: &mut List<Actor>) -> Result<(), NoMemory>
    ensures { OnOk result (out.new ≡ out.old ++ flat_map (channels_from way count) (numbers_to count)) }
{
    for place in 0..count {
        add_channels_from(way, place + 1, count, out)?;
    }
    Ok(())
}

// The same with the channels from process `p`.
fn add_channels_from(way: u8, p: u32, count: u32, out: &mut List<Actor>) -> Result<(), NoMemory>
    ensures { OnOk result (out.new ≡ out.old ++ channels_from way count p) }
{
    for place in 0..count {
        out.push(channel(way, p, place + 1))?;
    }
    Ok(())
}

/// Actors in an order, and the last number that made it.
#[derive(Drop)]
pub struct Shuffled {
    pub order: List<Actor>,
    pub last: u64,
}

/// These actors in the order that the numbers after `last` make. There is one number for each actor.
pub fn shuffle(alloc: Global, actors: List<Actor>, last: u64) -> Result<Shuffled, NoMemory>
    ensures order { IfOk result (λ found. found.order ≡ shuffled_def (length actors) last actors) }
    ensures last { IfOk result (λ found. found.last ≡ number_after (length actors) last) }
{
    let count = actors.len();
    let mut left = actors;
    let mut order = List::new(alloc);
    let mut number = last;
    for _turn in 0..count {
        let next = next_number(number);
        let size = left.len();
        let place = place_in(size, next);
        let actor = left.remove(place);
        order.push(actor)?;
        number = next;
    }
    Ok(Shuffled {
        order,
        last: number,
    })
}

/// Places in a schedule, and the last number that made them.
#[derive(Drop)]
pub struct Chosen {
    pub places: List<u64>,
    pub last: u64,
}

/// So many places in a schedule of at most `most` events by the numbers after `last`.
pub fn places(alloc: Global, count: u8, most: u64, last: u64) -> Result<Chosen, NoMemory>
    requires { 0 < most }
    ensures places { IfOk result (λ found. found.places ≡ places_def count last most) }
    ensures last { IfOk result (λ found. found.last ≡ number_after count last) }
{
    let mut made = List::new(alloc);
    let mut number = last;
    for _turn in 0..count {
        let next = next_number(number);
        let place = place_at(next, most);
        made.push(place)?;
        number = next;
    }
    Ok(Chosen {
        places: made,
        last: number,
    })
}

// The place that a number gives.
fn place_at(number: u64, most: u64) -> u64
    requires { 0 < most }
    ensures { result ≡ place_in_def most number }
{
    number / 65_536 % most
}

/// Lets the first in an order that has one of these events fall to the end.
pub fn fall(order: &mut List<Actor>, events: &[Event]) -> Result<(), NoMemory>
    ensures { OnOk result (order.new ≡ fallen order.old events.now) }
{
    let found = first_of(order.as_slice(), events);
    let Some(place) = found else {
        return Ok(());
    };
    let actor = order.remove(place);
    order.push(actor)?;
    Ok(())
}

/// The place of the first in an order that has one of these events.
pub fn first_of(order: &[Actor], events: &[Event]) -> Option<usize>
    ensures first { MatchOption result (All (HasNone events.now) order.now) (λ place. IsFirstOf events.now order.now place) }
    ensures within { IfSome result (λ place. place < length order.now) }
{
    for (place, actor) in order.iter().enumerate() {
        if has_one(*actor, events) {
            return Some(place);
        }
    }
    None
}

// Whether one of these events is of an actor.
fn has_one(actor: Actor, events: &[Event]) -> bool
    ensures { result ≡ list_any (is_of_def actor) events.now }
{
    for event in events {
        if is_of(actor, event) {
            return true;
        }
    }
    false
}

/// Those of these events that are of an actor.
pub fn events_of(alloc: Global, actor: Actor, events: &[Event]) -> Result<List<Event>, NoMemory>
    ensures { IfOk result (λ found. found ≡ filter (is_of_def actor) events.now) }
{
    let mut found = List::new(alloc);
    for event in events {
        add_of(actor, event, &mut found)?;
    }
    Ok(found)
}

// Adds an event, if it is of an actor.
fn add_of(actor: Actor, event: &Event, out: &mut List<Event>) -> Result<(), NoMemory>
    ensures { OnOk result (out.new ≡ out.old ++ filter (is_of_def actor) (event.now ∷ [])) }
{
    if !is_of(actor, event) {
        return Ok(());
    }
    out.push(*event)?;
    Ok(())
}
