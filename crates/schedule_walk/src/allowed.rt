//! The events that are allowed in the state of a system.
ghost use Rattle.da_system.specs.Choices.{is_allowed};
ghost use Rattle.da_system.specs.State.{IsReady, Whichever, is_spent, program_of};
ghost use Rattle.schedule_walk.specs.Allowed.{ListsAllowed, allowed, allowed_with as allowed_with_def, deed_event, deeds, deeds_from, deeds_if, deeds_to, is_move as is_move_def, moves};
ghost use Rattle.std.specs.List.{filter};
ghost use Rattle.std.specs.Prelude.{◌≡◌, ◌++◌, ◌∷◌, [], IfOk, OnOk, false, length};

use da_lang::Event;
use da_system::System;
use da_values::{List, NoMemory};
use std::alloc::Global;

/// The messages of a channel that are looked at, at most: as many as an event can number. A schedule can name fewer.
const MESSAGES: usize = 4_294_967_295;

/// What may be done with a message in flight.
#[derive(Clone, Copy)]
enum Deed {
    Deliver,
    Lose,
    Repeat,
}

impl Deed {
    // What is done with message `i` from process `p` to process `q`.
    fn event(self, p: u32, q: u32, i: u32) -> Event
        ensures { result ≡ deed_event self p q i }
    {
        match self {
            Deed::Deliver => Event::Deliver { p, q, i },
            Deed::Lose => Event::Lose { p, q, i },
            Deed::Repeat => Event::Repeat { p, q, i },
        }
    }
}

/// All events that are allowed in the state of a system of so many processes but for `show` and `stat`: the moves by the
/// numbers of their processes and alternatives, with the timeout of a process after them, and then the deliveries, the losses
/// and the repetitions, each by the numbers of their senders, recipients and messages.
pub fn allowed_events(
    alloc: Global,
    system: &System,
    processes: u32,
) -> Result<List<Event>, NoMemory>
    requires ready { IsReady system.now }
    requires unspent { is_spent system.now ≡ false }
    requires count { processes ≡ length (program_of system.now).procs }

    // In each state that the system stands for: the list has each event that has a step there, but for `show` and `stat`, and
    // no other one.
    ensures { IfOk result (λ events. Whichever system.now (λ s. ListsAllowed (program_of system.now) s events)) }
{
    collect(alloc, system, processes)
}

// The moves, the deliveries, the losses and the repetitions, one kind after the other.
fn collect(alloc: Global, system: &System, processes: u32) -> Result<List<Event>, NoMemory>
    requires ready { IsReady system.now }
    requires count { processes ≡ length (program_of system.now).procs }
    ensures { IfOk result (λ events. Whichever system.now (λ s. events ≡ allowed (program_of system.now) s)) }
{
    let mut events = List::new(alloc);
    add_moves(system, &mut events)?;
    add_deeds(system, Deed::Deliver, processes, &mut events)?;
    add_deeds(system, Deed::Lose, processes, &mut events)?;
    add_deeds(system, Deed::Repeat, processes, &mut events)?;
    Ok(events)
}

/// The same without the losses, and without the repetitions, unless they are wanted.
pub fn allowed_with(
    alloc: Global,
    system: &System,
    processes: u32,
    losses: bool,
    repetitions: bool,
) -> Result<List<Event>, NoMemory>
    requires ready { IsReady system.now }
    requires count { processes ≡ length (program_of system.now).procs }
    ensures { IfOk result (λ events. Whichever system.now (λ s. events ≡ allowed_with_def losses repetitions (program_of system.now) s)) }
{
    let mut events = List::new(alloc);
    add_moves(system, &mut events)?;
    add_deeds(system, Deed::Deliver, processes, &mut events)?;
    add_wanted(system, losses, Deed::Lose, processes, &mut events)?;
    add_wanted(system, repetitions, Deed::Repeat, processes, &mut events)?;
    Ok(events)
}

// Adds what may be done in this way with the messages of all channels, if it is wanted.
fn add_wanted(
    system: &System,
    wanted: bool,
    deed: Deed,
    processes: u32,
    out: &mut List<Event>,
) -> Result<(), NoMemory>
    requires { processes ≡ length (program_of system.now).procs }
    ensures { OnOk result (Whichever system.now (λ s. out.new ≡ out.old ++ filter (is_allowed (program_of system.now) s) (deeds_if wanted deed s))) }
{
    if !wanted {
        return Ok(());
    }
    add_deeds(system, deed, processes, out)?;
    Ok(())
}

// Adds the moves and timeouts that are allowed. They are the first of the events that may be picked.
fn add_moves(system: &System, out: &mut List<Event>) -> Result<(), NoMemory>
    requires { IsReady system.now }
    ensures { OnOk result (Whichever system.now (λ s. out.new ≡ out.old ++ filter (is_allowed (program_of system.now) s) (moves s))) }
{
    for place in 0..system.choices() {
        let event = system.choice(place);
        if !is_move(&event) {
            return Ok(());
        }
        out.push(event)?;
    }
    Ok(())
}

// Whether an event is a move or a timeout.
fn is_move(event: &Event) -> bool
    ensures { result ≡ is_move_def event.now }
{
    matches!(
        event,
        Event::Move { .. } | Event::Take { .. } | Event::Timeout { .. }
    )
}

// Adds what may be done in this way with the messages of all channels.
fn add_deeds(
    system: &System,
    deed: Deed,
    processes: u32,
    out: &mut List<Event>,
) -> Result<(), NoMemory>
    requires { processes ≡ length (program_of system.now).procs }
    ensures { OnOk result (Whichever system.now (λ s. out.new ≡ out.old ++ filter (is_allowed (program_of system.now) s) (deeds deed s))) }
{
    for place in 0..processes {
        add_deeds_from(system, deed, place + 1, processes, out)?;
    }
    Ok(())
}

// The same with the messages from process `p`.
fn add_deeds_from(
    system: &System,
    deed: Deed,
    p: u32,
    processes: u32,
    out: &mut List<Event>,
) -> Result<(), NoMemory>
    requires { processes ≡ length (program_of system.now).procs }
    ensures { OnOk result (Whichever system.now (λ s. out.new ≡ out.old ++ filter (is_allowed (program_of system.now) s) (deeds_from deed s p))) }
{
    for place in 0..processes {
        add_deeds_to(system, deed, p, place + 1, out)?;
    }
    Ok(())
}

// The same with the messages from process `p` to process `q`.
fn add_deeds_to(
    system: &System,
    deed: Deed,
    p: u32,
    q: u32,
    out: &mut List<Event>,
) -> Result<(), NoMemory>
    ensures { OnOk result (Whichever system.now (λ s. out.new ≡ out.old ++ filter (is_allowed (program_of system.now) s) (deeds_to deed s p q))) }
{
    let count = system.in_flight(p, q);
    if count > MESSAGES {
        return Err(NoMemory);
    }
    for place in 0..count {
        add_one(system, deed.event(p, q, place as u32 + 1), out)?;
    }
    Ok(())
}

// The same with one message.
fn add_one(system: &System, event: Event, out: &mut List<Event>) -> Result<(), NoMemory>
    ensures { OnOk result (Whichever system.now (λ s. out.new ≡ out.old ++ filter (is_allowed (program_of system.now) s) (event ∷ []))) }
{
    if !system.enabled(&event) {
        return Ok(());
    }
    out.push(event)?;
    Ok(())
}
