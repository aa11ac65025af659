//! The run of a generated schedule, whose events are picked by numbers.
ghost use Rattle.da_outside.specs.Outside.{Appends, AppendsPrefix, HasCause};
ghost use Rattle.da_system.specs.State.{IsReady, Whichever, is_spent, program_of};
ghost use Rattle.da_system.specs.StressRun.{number_line, stress_text_from};
ghost use Rattle.replay_run.specs.Replay.{HasEnded, StandsAfter, run_on};
ghost use Rattle.replay_run.specs.Stress.{HasCome, HasPicked, HasRoom, IsNext, UsesRoom, lines_of, picked_on};
ghost use Rattle.std.specs.Prelude.{◌≡◌, ◌++◌, ◌<◌, ◌≤◌, ◌^◌, None, false, true, IfOk, IsErrOf, OnErr, OnOk, length};

use crate::counts::Counts;
use crate::outcome::Outcome;
use crate::picking::{next_number, place_in};
use crate::run::empty;
use da_lang::Action;
use da_outside::{Sink, Trouble, write_all};
use da_system::{StepFault, System};
use da_values::{Buf, List, NoMemory, write_number};
use std::alloc::Global;

/// Carries out at most `n` events, each of which a number picks among those that may be picked, until there are none. The
/// first number comes after `start`. Then it writes how many events there were, how many actions of each kind, and the last
/// number. The system may have made steps before.
pub fn stress<K: Sink>(
    alloc: Global,
    system: &mut System,
    start: u64,
    n: u64,
    sink: &mut K,
) -> Outcome
    requires ready { IsReady system.old }
    requires unspent { is_spent system.old ≡ false }

    // From each state that the system stands for: the sink gained the eight lines, and the system stands where the events that
    // were picked lead.
    ensures ran { HasEnded result → Whichever system.old (λ s. HasPicked (program_of system.old) s start n system.new (K.taken sink.old) (K.taken sink.new)) }
    ensures ready { IsReady system.new }
    ensures program { program_of system.new ≡ program_of system.old }

    // However it ended, even where a write failed: the system is spent, or it stands where the events that were picked lead, and
    // no further.
    ensures left { is_spent system.new ≡ false → Whichever system.old (λ s. StandsAfter (program_of system.old) s (picked_on (program_of system.old) s start n) system.new) }

    // Each event that is picked is allowed, and there are at most n of them. So the run is never `Forbidden`.
    ensures allowed { Whichever system.old (λ s. (run_on (program_of system.old) s (picked_on (program_of system.old) s start n)).stop ≡ None) }
    ensures few { Whichever system.old (λ s. length (picked_on (program_of system.old) s start n) ≤ n) }
    ensures done { HasEnded result → result ≡ Outcome.Done }

    // However it ended, no more was written than a prefix of the eight lines.
    ensures prefix { Whichever system.old (λ s. AppendsPrefix (K.taken sink.old) (K.taken sink.new) (stress_text_from (program_of system.old) s start n)) }

    // `WriteFault` has its cause.
    ensures write { HasCause (K.faults sink.old) (K.faults sink.new) (result ≡ Outcome.WriteFault) }
{
    let Ok(summary) = run_picked(alloc, system, start, n) else {
        return Outcome::Memory;
    };
    match write_summary(alloc, &summary, sink) {
        Ok(()) => Outcome::Done,
        Err(Trouble::Failed) => Outcome::WriteFault,
        Err(Trouble::Memory) => Outcome::Memory,
    }
}

/// What a run has come to: how many events there were, how many actions of each kind, and the last number.
#[derive(Clone, Copy)]
struct Summary {
    events: u64,
    counts: Counts,
    last: u64,
}

// Writes the eight lines of a summary.
fn write_summary<K: Sink>(alloc: Global, summary: &Summary, sink: &mut K) -> Result<(), Trouble>
    ensures written { OnOk result (Appends (K.taken sink.old) (K.taken sink.new) (lines_of summary.now)) }
    ensures prefix { OnErr result (AppendsPrefix (K.taken sink.old) (K.taken sink.new) (lines_of summary.now)) }
    ensures cause { HasCause (K.faults sink.old) (K.faults sink.new) (IsErrOf result Trouble.Failed) }
{
    let mut text = List::new(alloc);
    put_summary(summary, &mut text)?;
    write_all(sink, text.as_slice())
}

// Carries out at most `n` events that numbers pick after `start`.
fn run_picked(alloc: Global, system: &mut System, start: u64, n: u64) -> Result<Summary, NoMemory>
    requires { IsReady system.old }
    ensures ran { IfOk result (λ summary. Whichever system.old (λ s. HasCome (program_of system.old) s start n summary system.new)) }
    ensures spent { OnErr result (is_spent system.new ≡ true) }
    ensures ready { IsReady system.new }
    ensures program { program_of system.new ≡ program_of system.old }
{
    let mut counts = Counts::new();
    let mut actions = List::new(alloc);
    let mut last = start;
    for events in 0..n {
        let next = run_next(system, last, &mut actions, &mut counts)?;
        let Some(number) = next else {
            return Ok(Summary {
                events,
                counts,
                last,
            });
        };
        last = number;
    }
    Ok(Summary {
        events: n,
        counts,
        last,
    })
}

// Carries out the event that the number after `last` picks, and counts its actions. It answers that number, or `None` where
// there is no event to pick. The list is one for the actions of each event, of which it keeps the room.
fn run_next(
    system: &mut System,
    last: u64,
    actions: &mut List<Action>,
    counts: &mut Counts,
) -> Result<Option<u64>, NoMemory>
    requires ready { IsReady system.old }
    requires room { HasRoom counts.old (2 ^ 64) }
    ensures next { IfOk result (λ number. Whichever system.old (λ s. IsNext (program_of system.old) s last number counts.old counts.new system.new)) }
    ensures room { OnOk result (UsesRoom (2 ^ 64) counts.old counts.new) }
    ensures spent { OnErr result (is_spent system.new ≡ true) }
    ensures ready { IsReady system.new }
    ensures program { program_of system.new ≡ program_of system.old }
{
    let choices = system.choices();
    if choices == 0 {
        return Ok(None);
    }
    let number = next_number(last);
    let event = system.choice(place_in(choices, number));
    empty(actions);
    match system.step(&event, actions) {
        Ok(()) => {}
        Err(StepFault::Memory) => return Err(NoMemory),
        Err(StepFault::Forbidden | StepFault::Spent) => unreachable!(),
    }
    counts.add(actions.as_slice());
    Ok(Some(number))
}

// Appends the eight lines of a summary.
fn put_summary(summary: &Summary, out: &mut Buf) -> Result<(), NoMemory>
    ensures { OnOk result (out.new ≡ out.old ++ lines_of summary.now) }
{
    put_line(b"events", u128::from(summary.events), out)?;
    put_line(b"took", summary.counts.took, out)?;
    put_line(b"sent", summary.counts.sent, out)?;
    put_line(b"got", summary.counts.got, out)?;
    put_line(b"out", summary.counts.out, out)?;
    put_line(b"end", summary.counts.end, out)?;
    put_line(b"fault", summary.counts.fault, out)?;
    put_line(b"state", u128::from(summary.last), out)
}

// Appends the line of a word and a number.
#[tactic(auto, unfolding(da_system::specs::StressRun::number_line))]
fn put_line(word: &[u8], number: u128, out: &mut Buf) -> Result<(), NoMemory>
    ensures { OnOk result (out.new ≡ out.old ++ number_line word.now number) }
{
    out.append(word)?;
    out.append(b" ")?;
    write_number(number, out)?;
    out.append(b"\n")
}
