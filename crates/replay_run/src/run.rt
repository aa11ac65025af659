//! The run of a schedule, event by event.
ghost use Rattle.da_lang.specs.declared.event.Action.TheVariants as action;
ghost use Rattle.da_outside.specs.Outside.{Appends, AppendsPrefix, HasCause};
ghost use Rattle.da_system.specs.SourceRun.{EndsByStop};
ghost use Rattle.da_system.specs.State.{IsReady, Whichever, is_spent, program_of};
ghost use Rattle.replay_run.specs.Replay.{HasEnded, HasRun, IsTried, run_on, run_text};
ghost use Rattle.replay_run.specs.Waiting.{Waits};
ghost use Rattle.sched_text.specs.ActionText.{action_text};
ghost use Rattle.std.specs.Prelude.{ℕ, ◌≡◌, ◌↔◌, ◌∷◌, ◌++◌, false, List as Seq, [], IfOk, IsErrOf, OnErr, OnOk, Option, Some};

use crate::outcome::Outcome;
use da_lang::{Action, Event};
use da_outside::{Sink, Trouble, write_all};
use da_system::{StepFault, System};
use da_values::{Buf, List, NoMemory};
use sched_text::write_action;
use std::alloc::Global;

/// So many bytes of text wait, and then are written together.
const PIECE: usize = 65_536;

/// Steps the system through the events, and writes the lines of each, some 64 KiB at a time, until they are used up or one is
/// not allowed. The system may have made steps before. Where the replay ends in `WriteFault` or `Memory`, it is not told how
/// far the system has come, and lines that wait are not written.
pub fn replay<K: Sink>(
    alloc: Global,
    system: &mut System,
    events: &[Event],
    sink: &mut K,
) -> Outcome
    requires ready { IsReady system.old }
    requires unspent { is_spent system.old ≡ false }

    // From each state that the system stands for: the sink gained the text of the run, and the system stands where the events
    // that were carried out lead.
    ensures ran { HasEnded result → Whichever system.old (λ s. HasRun (program_of system.old) s events.now result system.new (K.taken sink.old) (K.taken sink.new)) }
    ensures ready { IsReady system.new }
    ensures program { program_of system.new ≡ program_of system.old }

    // It is `Forbidden` exactly where the run ends by a stop, at the event of its number.
    ensures stops { HasEnded result → Whichever system.old (λ s. (i : ℕ) → (result ≡ Outcome.Forbidden i) ↔ EndsByStop (run_on (program_of system.old) s events.now).actions i) }

    // However it ended, no more was written than a prefix of that text.
    ensures prefix { Whichever system.old (λ s. AppendsPrefix (K.taken sink.old) (K.taken sink.new) (run_text (program_of system.old) s events.now)) }

    // `WriteFault` has its cause.
    ensures write { HasCause (K.faults sink.old) (K.faults sink.new) (result ≡ Outcome.WriteFault) }
{
    let mut actions = List::new(alloc);
    let mut text = List::new(alloc);
    for (place, event) in events.iter().enumerate() {
        match try_event(system, event, &mut actions, &mut text) {
            Ok(true) => {}
            Ok(false) => return stop_at(place as u64 + 1, &mut text, sink),
            Err(_) => return Outcome::Memory,
        }
        match pass_on(&mut text, sink) {
            Ok(()) => {}
            Err(Trouble::Failed) => return Outcome::WriteFault,
            Err(Trouble::Memory) => return Outcome::Memory,
        }
    }
    finish(text.as_slice(), sink)
}

// Carries out an event that is allowed, and adds its lines to the text; says whether it is. Where it is not, nothing has
// changed. The list is one for the actions of each event, of which it keeps the room.
fn try_event(
    system: &mut System,
    event: &Event,
    actions: &mut List<Action>,
    text: &mut Buf,
) -> Result<bool, NoMemory>
    requires { IsReady system.old }
    ensures tried { IfOk result (λ allowed. Whichever system.old (λ s. IsTried (program_of system.old) s event.now allowed system.new (Some text.old) (Some text.new))) }
    ensures ready { IsReady system.new }
    ensures program { program_of system.new ≡ program_of system.old }
{
    empty(actions);
    match system.step(event, actions) {
        Ok(()) => {}
        Err(StepFault::Forbidden) => return Ok(false),
        Err(StepFault::Memory | StepFault::Spent) => return Err(NoMemory),
    }
    add_lines(actions.as_slice(), text)?;
    Ok(true)
}

/// Drops the actions of a list, which keeps its room.
pub(crate) fn empty(actions: &mut List<Action>)
    ensures { actions.new ≡ [] }
{
    actions.truncate(0);
}

// Adds the lines of some actions to a text.
fn add_lines(actions: &[Action], text: &mut Buf) -> Result<(), NoMemory>
    ensures { OnOk result (text.new ≡ text.old ++ action_text actions.now) }
{
    for action in actions {
        write_action(action, text)?;
    }
    Ok(())
}

// Whether so much waits that it is to be written.
fn is_full(text: &Buf) -> bool {
    text.len() >= PIECE
}

// Writes what waits where that is a whole piece. Where it fails a prefix of it is written.
fn pass_on<K: Sink>(text: &mut Buf, sink: &mut K) -> Result<(), Trouble>
    ensures waits { OnOk result ((first : Option (Seq ℕ)) (whole : Seq ℕ) → Waits first (K.taken sink.old) text.old whole → Waits first (K.taken sink.new) text.new whole) }
    ensures prefix { OnErr result (AppendsPrefix (K.taken sink.old) (K.taken sink.new) text.old) }
    ensures cause { HasCause (K.faults sink.old) (K.faults sink.new) (IsErrOf result Trouble.Failed) }
{
    if !is_full(text) {
        return Ok(());
    }
    write_all(sink, text.as_slice())?;
    text.truncate(0);
    Ok(())
}

// Writes what waits, with which the replay ends.
fn finish<K: Sink>(text: &[u8], sink: &mut K) -> Outcome
    ensures done { HasEnded result → (result ≡ Outcome.Done) × Appends (K.taken sink.old) (K.taken sink.new) text.now }
    ensures prefix { AppendsPrefix (K.taken sink.old) (K.taken sink.new) text.now }
    ensures write { HasCause (K.faults sink.old) (K.faults sink.new) (result ≡ Outcome.WriteFault) }
{
    match write_all(sink, text) {
        Ok(()) => Outcome::Done,
        Err(Trouble::Failed) => Outcome::WriteFault,
        Err(Trouble::Memory) => Outcome::Memory,
    }
}

// The same with the line that the run stops at this event.
fn stop_at<K: Sink>(i: u64, text: &mut Buf, sink: &mut K) -> Outcome
    ensures stopped { HasEnded result → (result ≡ Outcome.Forbidden i) × Appends (K.taken sink.old) (K.taken sink.new) (text.old ++ action_text (action.Stop i ∷ [])) }
    ensures prefix { AppendsPrefix (K.taken sink.old) (K.taken sink.new) (text.old ++ action_text (action.Stop i ∷ [])) }
    ensures write { HasCause (K.faults sink.old) (K.faults sink.new) (result ≡ Outcome.WriteFault) }
{
    match write_with(&[Action::Stop { i }], text, sink) {
        Ok(()) => Outcome::Forbidden(i),
        Err(Trouble::Failed) => Outcome::WriteFault,
        Err(Trouble::Memory) => Outcome::Memory,
    }
}

// Writes what waits, and behind it the lines of some actions.
fn write_with<K: Sink>(actions: &[Action], text: &mut Buf, sink: &mut K) -> Result<(), Trouble>
    ensures written { OnOk result (Appends (K.taken sink.old) (K.taken sink.new) (text.old ++ action_text actions.now)) }
    ensures prefix { OnErr result (AppendsPrefix (K.taken sink.old) (K.taken sink.new) (text.old ++ action_text actions.now)) }
    ensures cause { HasCause (K.faults sink.old) (K.faults sink.new) (IsErrOf result Trouble.Failed) }
{
    add_lines(actions, text)?;
    write_all(sink, text.as_slice())
}
