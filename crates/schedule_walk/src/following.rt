//! The events that are allowed after a schedule.
ghost use Rattle.da_core.specs.Compiled.{IsCompiled, program_of as compiled_program};
ghost use Rattle.da_lang.specs.declared.event.Action.TheVariants as action;
ghost use Rattle.da_lang.specs.declared.event.Event.{Event as EventOf};
ghost use Rattle.da_outside.specs.Outside.{HasCause};
ghost use Rattle.da_system.specs.State.{IsReady, Stands, Whichever, is_spent, program_of};
ghost use Rattle.da_system.specs.SystemStep.{start};
ghost use Rattle.replay_run.specs.Replay.{HasEnded as HasEndedIn, IsTried};
ghost use Rattle.sched_text.specs.ActionText.{action_line};
ghost use Rattle.schedule_walk.specs.Allowed.{ListsAllowed};
ghost use Rattle.schedule_walk.specs.Next.{HasAnswered, HasCome, HasEnded, HasSaid, IsListing, NextReply};
ghost use Rattle.std.specs.Prelude.{◌≡◌, List as Seq, None, IfOk, false};

use crate::allowed::allowed_events;
use crate::outcome::NextOutcome;
use crate::remarked::listing;
use da_core::Compiled;
use da_lang::{Action, Event};
use da_outside::{Sink, Trouble, write_all};
use da_system::{StepFault, System};
use da_values::{Buf, List, NoMemory};
use replay_run::Outcome;
use run_hints::explain_events;
use sched_text::write_action;
use std::alloc::Global;
use text_hints::Phrase;

/// Runs the events from the opening of a program, and writes the events that are allowed after them, each on a line, followed
/// by a remark that says in words what it is. So what is written is a schedule of these events; where it would be too long with
/// the remarks, they are empty. Where one of the events is not allowed, only the line is written that says which.
pub fn next<K: Sink>(
    alloc: Global,
    compiled: &Compiled,
    events: &[Event],
    sink: &mut K,
) -> NextOutcome
    requires { IsCompiled compiled.now }
    ensures replies { HasAnswered (NextReply (compiled_program compiled.now) events.now) result (K.taken sink.old) (K.taken sink.new) }

    // `WriteFault` has its cause.
    ensures write { HasCause (K.faults sink.old) (K.faults sink.new) (result ≡ NextOutcome.WriteFault) }
{
    let Ok(mut system) = System::new(alloc, compiled) else {
        return NextOutcome::Memory;
    };
    match answer_to(alloc, &mut system, compiled, events) {
        Ok(answer) => say(answer.lines.as_slice(), answer.outcome, sink),
        Err(_) => NextOutcome::Memory,
    }
}

/// How the run of a schedule ended, and what is answered to it.
#[derive(Drop)]
struct Answer {
    outcome: NextOutcome,
    lines: Buf,
}

// Runs the events on a system in its opening, and answers them.
fn answer_to(
    alloc: Global,
    system: &mut System,
    compiled: &Compiled,
    events: &[Event],
) -> Result<Answer, NoMemory>
    requires ready { IsReady system.old }
    requires program { program_of system.old ≡ compiled_program compiled.now }
    requires opening { Stands system.old (start (compiled_program compiled.now)) }
    requires compiled { IsCompiled compiled.now }
    ensures { IfOk result (λ answer. NextReply (compiled_program compiled.now) events.now answer.outcome answer.lines) }
{
    match run(alloc, system, events) {
        Outcome::Done => list_allowed(alloc, system, compiled),
        Outcome::Forbidden(i) => Ok(Answer {
            outcome: NextOutcome::Forbidden(i),
            lines: stop_line(alloc, i)?,
        }),
        Outcome::WriteFault | Outcome::Memory => Err(NoMemory),
    }
}

// Carries out the events up to the first that is not allowed.
fn run(alloc: Global, system: &mut System, events: &[Event]) -> Outcome
    requires { IsReady system.old }
    ensures ran { HasEndedIn result → Whichever system.old (λ s. HasCome (program_of system.old) s events.now result system.new) }
    ensures ready { IsReady system.new }
    ensures program { program_of system.new ≡ program_of system.old }
{
    for (place, event) in events.iter().enumerate() {
        match execute(alloc, system, event) {
            Ok(true) => {}
            Ok(false) => return Outcome::Forbidden(place as u64 + 1),
            Err(_) => return Outcome::Memory,
        }
    }
    Outcome::Done
}

// Carries out an event that is allowed, and says whether it is. Where it is not, nothing has changed. Nothing is written.
fn execute(alloc: Global, system: &mut System, event: &Event) -> Result<bool, NoMemory>
    requires { IsReady system.old }
    ensures tried { IfOk result (λ allowed. Whichever system.old (λ s. IsTried (program_of system.old) s event.now allowed system.new None None)) }
    ensures ready { IsReady system.new }
    ensures program { program_of system.new ≡ program_of system.old }
{
    let mut actions = List::new(alloc);
    match system.step(event, &mut actions) {
        Ok(()) => Ok(true),
        Err(StepFault::Forbidden) => Ok(false),
        Err(StepFault::Memory | StepFault::Spent) => Err(NoMemory),
    }
}

// What is told of the events that are allowed in the state of a system.
fn list_allowed(alloc: Global, system: &System, compiled: &Compiled) -> Result<Answer, NoMemory>
    requires ready { IsReady system.now }
    requires unspent { is_spent system.now ≡ false }
    requires program { program_of system.now ≡ compiled_program compiled.now }
    requires compiled { IsCompiled compiled.now }
    ensures { IfOk result (λ answer. (list : Seq EventOf) × Whichever system.now (λ s. ListsAllowed (program_of system.now) s list)
        × IsListing list answer.outcome answer.lines) }
{
    let processes = compiled.program().procs.len() as u32;
    let list = allowed_events(alloc, system, processes)?;
    let listed = list.as_slice();
    let remarks = explain_events(alloc, compiled, system, listed);
    answer_with(alloc, listed, remarks.as_slice())
}

// What is told of these events.
fn answer_with(alloc: Global, list: &[Event], remarks: &[Phrase]) -> Result<Answer, NoMemory>
    ensures { IfOk result (λ answer. IsListing list.now answer.outcome answer.lines) }
{
    let found = listing(alloc, list, remarks)?;
    match found {
        Some(lines) => Ok(Answer {
            outcome: NextOutcome::Done,
            lines,
        }),
        None => Ok(Answer {
            outcome: NextOutcome::Unspelled,
            lines: List::new(alloc),
        }),
    }
}

// The line that the run stops at this event.
fn stop_line(alloc: Global, i: u64) -> Result<Buf, NoMemory>
    ensures { IfOk result (λ line. line ≡ action_line (action.Stop i)) }
{
    let mut line = List::new(alloc);
    write_action(&Action::Stop { i }, &mut line)?;
    Ok(line)
}

// Writes the lines, with which the call ends so.
fn say<K: Sink>(lines: &[u8], outcome: NextOutcome, sink: &mut K) -> NextOutcome
    requires { HasEnded outcome }
    ensures said { HasSaid outcome lines.now result (K.taken sink.old) (K.taken sink.new) }
    ensures write { HasCause (K.faults sink.old) (K.faults sink.new) (result ≡ NextOutcome.WriteFault) }
{
    match write_all(sink, lines) {
        Ok(()) => outcome,
        Err(Trouble::Failed) => NextOutcome::WriteFault,
        Err(Trouble::Memory) => NextOutcome::Memory,
    }
}
