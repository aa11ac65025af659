//! Whether a run goes no further.
ghost use Rattle.da_core.specs.Compiled.{IsCompiled, program_of as compiled_program};
ghost use Rattle.da_system.specs.State.{IsReady, Whichever, is_spent, program_of};
ghost use Rattle.schedule_walk.specs.Rest.{IsAtRest, IsIdle, goes_on};
ghost use Rattle.std.specs.List.{All};
ghost use Rattle.std.specs.Prelude.{◌≡◌, ◌↔◌, IfOk, IsTrue, false, not};

use crate::allowed::allowed_events;
use da_core::Compiled;
use da_lang::Event;
use da_system::System;
use da_values::NoMemory;
use std::alloc::Global;

/// Whether no move, no timeout and no delivery is allowed. What losses and repetitions would allow does not count.
pub fn is_at_rest(alloc: Global, system: &System<'_>, compiled: &Compiled) -> Result<bool, NoMemory>
    requires compiled { IsCompiled compiled.now }
    requires program { program_of system.now ≡ compiled_program compiled.now }
    requires ready { IsReady system.now }
    requires unspent { is_spent system.now ≡ false }
    ensures { IfOk result (λ rests. Whichever system.now (λ s. IsTrue rests ↔ IsAtRest (program_of system.now) s)) }
{
    let choices = system.choices();
    if choices > 0 {
        return Ok(false);
    }
    let processes = compiled.program().procs.len() as u32;
    let events = allowed_events(alloc, system, processes)?;
    Ok(none_goes_on(events.as_slice()))
}

// Whether none of some events is a move, a timeout or a delivery.
fn none_goes_on(events: &[Event]) -> bool
    ensures { IsTrue result ↔ All IsIdle events.now }
{
    for event in events {
        if !is_idle(event) {
            return false;
        }
    }
    true
}

// Whether an event is no move, no timeout and no delivery.
fn is_idle(event: &Event) -> bool
    ensures { result ≡ not (goes_on event.now) }
{
    !matches!(
        event,
        Event::Move { .. } | Event::Take { .. } | Event::Timeout { .. } | Event::Deliver { .. }
    )
}
