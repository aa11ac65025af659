//! What is told of a run beside a watch, event by event.
ghost use Rattle.da_core.specs.Compiled.{IsCompiled, program_of};
ghost use Rattle.da_lang.specs.declared.program.Program.{Program};
ghost use Rattle.da_lang.specs.World.{World};
ghost use Rattle.da_outside.specs.Outside.{Appends, AppendsPrefix, HasCause};
ghost use Rattle.da_system.specs.SourceRun.{src_run};
ghost use Rattle.da_system.specs.State.{IsReady, Stands, Whichever, program_of as system_program};
ghost use Rattle.da_system.specs.SystemStep.{SystemState};
ghost use Rattle.replay_run.specs.Replay.{HasEnded, outcome_of};
ghost use Rattle.run_watch.specs.Beside.{HasCome, IsThere, IsWatchOf};
ghost use Rattle.run_watch.specs.Telling.{told, told_at_end};
ghost use Rattle.run_watch.specs.TellingSteps.{AreTold, IsEventTold, IsStep, IsTold, said_text};
ghost use Rattle.sched_text.specs.ActionText.{action_text};
ghost use Rattle.std.specs.Prelude.{◌≡◌, ◌++◌, ◌∷◌, [], IfOk, OnOk};

use crate::watcher::{Watcher, is_said};
use da_core::Compiled;
use da_lang::{Action, Event};
use da_outside::{Sink, Trouble, write_all};
use da_system::{StepFault, System};
use da_values::{Buf, List, NoMemory};
use replay_run::Outcome;
use sched_text::write_action;
use schedule_walk::is_at_rest;
use std::alloc::Global;

/// How a run ends, and what is told of it.
#[derive(Drop)]
struct Told {
    outcome: Outcome,
    lines: Buf,
}

/// Runs the events from the opening of a program, with a watch beside it, and writes after each event its actions and what the
/// watch says of them: what it puts out, and a fault of its own. What it says at its beginning comes first, and at the end what
/// it says when all is quiet. Where an event is not allowed, the line that says so is the last.
pub fn tell_watched<K: Sink>(
    alloc: Global,
    compiled: &Compiled,
    watch: &Compiled,
    events: &[Event],
    sink: &mut K,
) -> Outcome
    requires compiled { IsCompiled compiled.now }
    requires watch { IsWatchOf (program_of compiled.now) watch.now }

    // The sink gained the lines of what is told, and it is `Forbidden` where the run of the events stops, at the event of this number.
    ensures told { HasEnded result → Appends (K.taken sink.old) (K.taken sink.new) (action_text (told (program_of compiled.now) (program_of watch.now) events.now)) }
    ensures stops { HasEnded result → result ≡ outcome_of (src_run (program_of compiled.now) events.now).stop }

    // However it ended, no more was written than a prefix of these lines.
    ensures prefix { AppendsPrefix (K.taken sink.old) (K.taken sink.new) (action_text (told (program_of compiled.now) (program_of watch.now) events.now)) }

    // `WriteFault` has its cause.
    ensures write { HasCause (K.faults sink.old) (K.faults sink.new) (result ≡ Outcome.WriteFault) }
{
    match tell(alloc, compiled, watch, events) {
        Ok(answer) => say(answer.lines.as_slice(), answer.outcome, sink),
        Err(_) => Outcome::Memory,
    }
}

// Writes the lines, with which the call ends so.
fn say<K: Sink>(lines: &[u8], outcome: Outcome, sink: &mut K) -> Outcome
    requires { HasEnded outcome }
    ensures said { HasEnded result → Appends (K.taken sink.old) (K.taken sink.new) lines.now }
    ensures same { HasEnded result → result ≡ outcome }
    ensures prefix { AppendsPrefix (K.taken sink.old) (K.taken sink.new) lines.now }
    ensures write { HasCause (K.faults sink.old) (K.faults sink.new) (result ≡ Outcome.WriteFault) }
{
    match write_all(sink, lines) {
        Ok(()) => outcome,
        Err(Trouble::Failed) => Outcome::WriteFault,
        Err(Trouble::Memory) => Outcome::Memory,
    }
}

// What is told of the events.
fn tell(
    alloc: Global,
    compiled: &Compiled,
    watch: &Compiled,
    events: &[Event],
) -> Result<Told, NoMemory>
    requires compiled { IsCompiled compiled.now }
    requires watch { IsWatchOf (program_of compiled.now) watch.now }
    ensures { IfOk result (λ answer. IsTold (program_of compiled.now) (program_of watch.now) events.now answer.outcome answer.lines) }
{
    let mut system = System::new(alloc, compiled)?;
    let mut begins = List::new(alloc);
    let mut watcher = Watcher::begin(alloc, watch, &mut begins)?;
    let mut lines = List::new(alloc);
    put_said(begins.as_slice(), &mut lines)?;
    let stop = tell_events(
        alloc,
        compiled,
        &mut system,
        &mut watcher,
        events,
        &mut lines,
    )?;
    Ok(Told {
        outcome: outcome_at(stop),
        lines,
    })
}

// How a run ends that stops there.
fn outcome_at(stop: Option<u64>) -> Outcome
    ensures { result ≡ outcome_of stop }
{
    match stop {
        None => Outcome::Done,
        Some(i) => Outcome::Forbidden(i),
    }
}

// Tells the events and the end, and answers the number of the event that is not allowed, if there is one.
fn tell_events(
    alloc: Global,
    compiled: &Compiled,
    system: &mut System<'_>,
    watcher: &mut Watcher<'_>,
    events: &[Event],
    lines: &mut Buf,
) -> Result<Option<u64>, NoMemory>
    requires compiled { IsCompiled compiled.now }
    requires program { system_program system.old ≡ program_of compiled.now }
    requires stands { (s : SystemState) × Stands system.old s }
    requires there { IsThere watcher.old }
    ensures { IfOk result (λ stop. Whichever system.old (λ s. (watch : Program) (w : World) → HasCome watch w watcher.old
        → AreTold (program_of compiled.now) watch s w events.now stop lines.old lines.new)) }
{
    for (place, event) in events.iter().enumerate() {
        let told = tell_event(alloc, system, watcher, event, lines)?;
        if !told {
            let number = place as u64 + 1;
            put_actions(&[Action::Stop { i: number }], lines)?;
            return Ok(Some(number));
        }
    }
    tell_end(alloc, compiled, system, watcher, lines)?;
    Ok(None)
}

// Carries an event out, and tells its actions and what the watch says of them. Whether it is allowed.
fn tell_event(
    alloc: Global,
    system: &mut System<'_>,
    watcher: &mut Watcher<'_>,
    event: &Event,
    lines: &mut Buf,
) -> Result<bool, NoMemory>
    requires ready { IsReady system.old }
    requires there { IsThere watcher.old }
    ensures told { IfOk result (λ told. Whichever system.old (λ s. (watch : Program) (w : World) → HasCome watch w watcher.old
        → IsEventTold (system_program system.old) watch s w event.now told system.new watcher.new lines.old lines.new)) }
    ensures program { system_program system.new ≡ system_program system.old }
{
    let found = step_of(alloc, system, event)?;
    let Some(actions) = found else {
        return Ok(false);
    };
    let seen = actions.as_slice();
    let mut heard = List::new(alloc);
    watcher.hear(seen, &mut heard)?;
    put_actions(seen, lines)?;
    put_said(heard.as_slice(), lines)?;
    Ok(true)
}

// Carries out an event, and answers its actions, or `None` where it is not allowed.
fn step_of(
    alloc: Global,
    system: &mut System<'_>,
    event: &Event,
) -> Result<Option<List<Action>>, NoMemory>
    requires { IsReady system.old }
    ensures stepped { IfOk result (λ found. Whichever system.old (λ s. IsStep (system_program system.old) s event.now found system.new)) }
    ensures program { system_program system.new ≡ system_program system.old }
{
    let mut actions = List::new(alloc);
    match system.step(event, &mut actions) {
        Ok(()) => Ok(Some(actions)),
        Err(StepFault::Forbidden) => Ok(None),
        Err(StepFault::Memory | StepFault::Spent) => Err(NoMemory),
    }
}

// Tells what the watch says when all is quiet, where it is.
fn tell_end(
    alloc: Global,
    compiled: &Compiled,
    system: &System<'_>,
    watcher: &mut Watcher<'_>,
    lines: &mut Buf,
) -> Result<(), NoMemory>
    requires compiled { IsCompiled compiled.now }
    requires program { system_program system.now ≡ program_of compiled.now }
    requires stands { (s : SystemState) × Stands system.now s }
    requires there { IsThere watcher.old }
    ensures { OnOk result (Whichever system.now (λ s. (watch : Program) (w : World) → HasCome watch w watcher.old
        → lines.new ≡ lines.old ++ action_text (told_at_end (system_program system.now) watch s w))) }
{
    let rests = is_at_rest(alloc, system, compiled)?;
    if !rests {
        return Ok(());
    }
    let mut heard = List::new(alloc);
    watcher.hear_quiet(&mut heard)?;
    put_said(heard.as_slice(), lines)?;
    Ok(())
}

// Appends the lines of some actions.
fn put_actions(actions: &[Action], out: &mut Buf) -> Result<(), NoMemory>
    ensures { OnOk result (out.new ≡ out.old ++ action_text actions.now) }
{
    for action in actions {
        write_action(action, out)?;
    }
    Ok(())
}

// Appends the lines of those that say something.
fn put_said(actions: &[Action], out: &mut Buf) -> Result<(), NoMemory>
    ensures { OnOk result (out.new ≡ out.old ++ said_text actions.now) }
{
    for action in actions {
        put_if_said(action, out)?;
    }
    Ok(())
}

// Appends the line of an action, if it says something.
fn put_if_said(action: &Action, out: &mut Buf) -> Result<(), NoMemory>
    ensures { OnOk result (out.new ≡ out.old ++ said_text (action.now ∷ [])) }
{
    if !is_said(action) {
        return Ok(());
    }
    write_action(action, out)?;
    Ok(())
}
