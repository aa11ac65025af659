//! The hunt among generated schedules.
ghost use Rattle.da_core.specs.Compiled.{IsCompiled, program_of};
ghost use Rattle.da_outside.specs.Outside.{Appends, HasCause};
ghost use Rattle.schedule_hunt.specs.Hunt.{HasBegun, IsFound, IsFoundUnspelled, IsShownBy, ShowsNone, none_line};
ghost use Rattle.schedule_hunt.specs.Shown.{IsReady};
ghost use Rattle.schedule_hunt.specs.Seeking.{Answers, IsShortText, IsSought};
ghost use Rattle.std.specs.Prelude.{ℕ, ◌≡◌, ◌+◌, ◌<◌, ◌^◌, List as Seq, IfOk};

use crate::runs::try_number;
use crate::short::shorten;
use crate::told::{found_text, none_text};
use crate::what::{Goal, Trials};
use da_core::Compiled;
use da_lang::Event;
use da_outside::{Sink, Trouble, write_all};
use da_values::{Buf, List, NoMemory};
use std::alloc::Global;

/// How a hunt ended.
#[derive(Clone, Copy)]
pub enum HuntOutcome {
    /// A schedule was found and written.
    Found,
    /// None of the tried ones shows what was looked for.
    None,
    /// A schedule was found that is none as a text: with an empty remark it has more than 16,777,216 bytes, or a number of
    /// more than nine digits. Nothing was written.
    Unspelled,
    /// The sink failed.
    WriteFault,
    /// Memory was refused.
    Memory,
}

/// How the run of a generated schedule ended.
#[derive(Clone, Copy)]
pub enum End {
    /// All processes have used up their statements.
    Ended,
    /// It has as many events as it may have.
    Cut,
    /// No event may be picked any more, and some process has not used up its statements.
    Stuck,
}

/// A schedule that was tried.
#[derive(Clone, Copy)]
pub struct Attempt<'a> {
    /// The number from which it is generated.
    pub number: u64,
    pub events: &'a [Event],
    pub end: End,
    /// Whether it shows what is looked for.
    pub shown: bool,
}

/// Is told how a hunt goes.
pub trait Progress {
    /// This schedule was tried.
    fn tell_attempt(&mut self, attempt: &Attempt<'_>);

    /// So many schedules were tried, which show nothing.
    fn tell_tries(&mut self, count: u64);

    /// The schedule that was found is made short, and has so many events.
    fn tell_short(&mut self, count: usize);
}

/// Tries the schedules of `trials`, from the least number on, until one shows `what`. Of this one it leaves out events until none
/// can be left out alone, and writes the lines of those that are left, and a remark that says by which actions they show it. So
/// what is written is a schedule; where it would be too long with the remark, that is empty. Where no schedule shows it, it writes
/// how many were tried. `progress` is told of each try.
pub fn hunt<K: Sink, P: Progress>(
    alloc: Global,
    compiled: &Compiled,
    trials: Trials,
    what: &Goal<'_>,
    progress: &mut P,
    sink: &mut K,
) -> HuntOutcome
    requires compiled { IsCompiled compiled.now }
    requires goal { IsReady (program_of compiled.now) what.now }
    requires numbers { trials.start + trials.count < 2 ^ 64 }

    // The sink gained the lines of some events of the schedule of the least number that shows it. They are allowed and show
    // it, and without any one of them they stop or do not. A remark follows. The text is a schedule of exactly these events.
    ensures found { result ≡ HuntOutcome.Found → (text : Seq ℕ) × IsFound (program_of compiled.now) what.now trials text
        × Appends (K.taken sink.old) (K.taken sink.new) text }

    // It is `Unspelled` only where such events have no text that is a schedule, even with an empty remark. Nothing was written.
    ensures unspelled { result ≡ HuntOutcome.Unspelled → IsFoundUnspelled (program_of compiled.now) what.now trials
        × (K.taken sink.new ≡ K.taken sink.old) }

    // None of the schedules shows it, and the sink gained the line that says so.
    ensures none { result ≡ HuntOutcome.None → ShowsNone (program_of compiled.now) what.now trials
        × Appends (K.taken sink.old) (K.taken sink.new) (none_line trials.count) }

    // However it ended, no more was written than a prefix of such a text.
    ensures prefix { HasBegun (program_of compiled.now) what.now trials (K.taken sink.old) (K.taken sink.new) }

    // `WriteFault` has its cause.
    ensures write { HasCause (K.faults sink.old) (K.faults sink.new) (result ≡ HuntOutcome.WriteFault) }
{
    let Ok(answer) = reply_to(alloc, compiled, trials, what, progress) else {
        return HuntOutcome::Memory;
    };
    let Some(reply) = answer else {
        return HuntOutcome::Unspelled;
    };
    match write_all(sink, reply.text.as_slice()) {
        Ok(()) => {
            if reply.found {
                HuntOutcome::Found
            } else {
                HuntOutcome::None
            }
        }
        Err(Trouble::Failed) => HuntOutcome::WriteFault,
        Err(Trouble::Memory) => HuntOutcome::Memory,
    }
}

/// A text that answers, and whether it has a schedule.
#[derive(Drop)]
struct Reply {
    found: bool,
    text: Buf,
}

// Tries the schedules, and makes the text that answers; `None` where a schedule was found that has no text.
fn reply_to<P: Progress>(
    alloc: Global,
    compiled: &Compiled,
    trials: Trials,
    what: &Goal<'_>,
    progress: &mut P,
) -> Result<Option<Reply>, NoMemory>
    requires compiled { IsCompiled compiled.now }
    requires goal { IsReady (program_of compiled.now) what.now }
    requires numbers { trials.start + trials.count < 2 ^ 64 }
    ensures { IfOk result (Answers (program_of compiled.now) what.now trials) }
{
    let sought = seek(alloc, compiled, trials, what, progress)?;
    let Some(events) = sought else {
        return Ok(Some(Reply {
            found: false,
            text: none_text(alloc, trials.count)?,
        }));
    };
    let short = short_text(alloc, compiled, events, what, progress)?;
    let Some(text) = short else {
        return Ok(None);
    };
    Ok(Some(Reply { found: true, text }))
}

// The first schedule that shows this, of those that are generated from so many numbers.
fn seek<P: Progress>(
    alloc: Global,
    compiled: &Compiled,
    trials: Trials,
    what: &Goal<'_>,
    progress: &mut P,
) -> Result<Option<List<Event>>, NoMemory>
    requires compiled { IsCompiled compiled.now }
    requires goal { IsReady (program_of compiled.now) what.now }
    requires numbers { trials.start + trials.count < 2 ^ 64 }
    ensures { IfOk result (λ sought. IsSought (program_of compiled.now) what.now trials sought) }
{
    for place in 0..trials.count {
        let found = try_number(
            alloc,
            compiled,
            trials.start + place,
            trials,
            what,
            progress,
        )?;
        if let Some(events) = found {
            return Ok(Some(events));
        }
        progress.tell_tries(place + 1);
    }
    Ok(None)
}

// The text of a schedule that shows this, made short, if it has one.
fn short_text<P: Progress>(
    alloc: Global,
    compiled: &Compiled,
    events: List<Event>,
    what: &Goal<'_>,
    progress: &mut P,
) -> Result<Option<Buf>, NoMemory>
    requires compiled { IsCompiled compiled.now }
    requires goal { IsReady (program_of compiled.now) what.now }
    requires shown { IsShownBy (program_of compiled.now) what.now events }
    ensures { IfOk result (IsShortText (program_of compiled.now) what.now events) }
{
    let mut short = events;
    shorten(alloc, compiled, &mut short, what)?;
    let left = short.as_slice();
    progress.tell_short(left.len());
    found_text(alloc, compiled, left, what)
}
