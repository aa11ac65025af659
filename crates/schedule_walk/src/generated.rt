//! The schedule that numbers generate.
ghost use Rattle.da_outside.specs.Outside.{AppendsPrefix, HasCause};
ghost use Rattle.da_system.specs.State.{IsReady, Whichever, is_spent, program_of};
ghost use Rattle.replay_run.specs.Replay.{HasEnded, run_on};
ghost use Rattle.replay_run.specs.Stress.{picked_on};
ghost use Rattle.sched_text.specs.ScheduleText.{SpellsSchedule};
ghost use Rattle.schedule_walk.specs.Walk.{ArePicked, HasWalked, IsNext, walk_text};
ghost use Rattle.std.specs.Prelude.{◌≡◌, ◌≤◌, None, false, IfOk, length};

use crate::naming::schedule_of;
use da_lang::Event;
use da_outside::{Sink, Trouble, write_all};
use da_system::{StepFault, System};
use da_values::{List, NoMemory};
use replay_run::{Outcome, next_number, place_in};
use std::alloc::Global;

/// Carries out at most `n` events, each of which a number picks among those that may be picked, until there are none, and
/// writes their lines. The first number comes after `start`. The system may have made steps before. Lines that are no
/// schedule, for they have more than 16,777,216 bytes or a number of more than nine digits, end as if memory had run out.
pub fn walk<K: Sink>(
    alloc: Global,
    system: &mut System,
    start: u64,
    n: u64,
    sink: &mut K,
) -> Outcome
    requires ready { IsReady system.old }
    requires unspent { is_spent system.old ≡ false }

    // From each state that the system stands for: the sink gained the lines of exactly the events that are picked, and the
    // system stands where they lead.
    ensures ran { HasEnded result → Whichever system.old (λ s. HasWalked (program_of system.old) s start n system.new (K.taken sink.old) (K.taken sink.new)) }
    ensures ready { IsReady system.new }
    ensures program { program_of system.new ≡ program_of system.old }

    // Each event is allowed, and there are at most n of them; and the lines are a schedule of these events. So a replay of them
    // is never stopped.
    ensures allowed { Whichever system.old (λ s. (run_on (program_of system.old) s (picked_on (program_of system.old) s start n)).stop ≡ None) }
    ensures few { Whichever system.old (λ s. length (picked_on (program_of system.old) s start n) ≤ n) }
    ensures spells { HasEnded result → Whichever system.old (λ s. SpellsSchedule (walk_text (program_of system.old) s start n) (picked_on (program_of system.old) s start n)) }
    ensures done { HasEnded result → result ≡ Outcome.Done }

    // However it ended, no more was written than a prefix of the lines.
    ensures prefix { Whichever system.old (λ s. AppendsPrefix (K.taken sink.old) (K.taken sink.new) (walk_text (program_of system.old) s start n)) }

    // `WriteFault` has its cause.
    ensures write { HasCause (K.faults sink.old) (K.faults sink.new) (result ≡ Outcome.WriteFault) }
{
    let Ok(events) = pick_events(alloc, system, start, n) else {
        return Outcome::Memory;
    };
    let Ok(text) = schedule_of(alloc, events.as_slice()) else {
        return Outcome::Memory;
    };
    match write_all(sink, text.as_slice()) {
        Ok(()) => Outcome::Done,
        Err(Trouble::Failed) => Outcome::WriteFault,
        Err(Trouble::Memory) => Outcome::Memory,
    }
}

/// Carries out the same events, and answers them.
pub fn pick_events(
    alloc: Global,
    system: &mut System,
    start: u64,
    n: u64,
) -> Result<List<Event>, NoMemory>
    requires ready { IsReady system.old }
    requires unspent { is_spent system.old ≡ false }
    ensures events { IfOk result (λ events. Whichever system.old (λ s. ArePicked (program_of system.old) s start n events system.new)) }
    ensures ready { IsReady system.new }
    ensures program { program_of system.new ≡ program_of system.old }
{
    let mut events = List::new(alloc);
    let mut last = start;
    for _turn in 0..n {
        let next = pick_next(alloc, system, last)?;
        let Some(pick) = next else {
            return Ok(events);
        };
        events.push(pick.event)?;
        last = pick.number;
    }
    Ok(events)
}

/// An event, and the number that picked it.
#[derive(Clone, Copy)]
struct Pick {
    event: Event,
    number: u64,
}

// Carries out the event that the number after `last` picks, and answers both, or `None` where there is no event to pick.
fn pick_next(alloc: Global, system: &mut System, last: u64) -> Result<Option<Pick>, NoMemory>
    requires { IsReady system.old }
    ensures next { IfOk result (λ found. Whichever system.old (λ s. IsNext (program_of system.old) s last found system.new)) }
    ensures ready { IsReady system.new }
    ensures program { program_of system.new ≡ program_of system.old }
{
    let choices = system.choices();
    if choices == 0 {
        return Ok(None);
    }
    let number = next_number(last);
    let event = system.choice(place_in(choices, number));
    let mut actions = List::new(alloc);
    match system.step(&event, &mut actions) {
        Ok(()) => Ok(Some(Pick { event, number })),
        Err(StepFault::Memory) => Err(NoMemory),
        Err(StepFault::Forbidden | StepFault::Spent) => unreachable!(),
    }
}
