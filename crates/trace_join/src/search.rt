//! The search for a schedule.
ghost use Rattle.da_core.specs.Compiled.{IsCompiled, program_of};
ghost use Rattle.std.specs.Prelude.{◌≡◌, ◌<◌, Some, All, IfOk, IsFalse, IsTrue, OnOk, false, length, map, replicate, slice_get, slice_set, true};
ghost use Rattle.trace_join.specs.Blocks.{AllCut};
ghost use Rattle.trace_join.specs.Joins.{AreTraces};
ghost use Rattle.trace_join.specs.Names.{IsNameable};
ghost use Rattle.trace_join.specs.Progress.{took_event};
ghost use Rattle.trace_join.specs.Searching.{AllRepeats, Goes, IsAsked, IsOf, Ready, StandStill, pieces_left};
ghost use Rattle.trace_join.specs.Sending.{IsOneOf};

use crate::fetch::Wanted;
use crate::piece::Piece;
use crate::queues::Queues;
use crate::schedule::Schedule;
use crate::track::{Next, Track, next_step};
use crate::wake::wake;
use da_core::Compiled;
use da_lang::{Action, Event};
use da_values::{List, NoMemory};
use std::alloc::Global;

/// How far the processes of a program have come along their traces, and the messages in flight between them.
#[derive(Drop)]
pub(crate) struct Search<'t> {
    compiled: &'t Compiled,
    traces: &'t [List<Action>],
    tracks: List<Track<'t>>,
    /// Whether a process is known to have no step left, or to wait for a message that cannot arrive.
    waits: List<bool>,
    queues: Queues<'t>,
    schedule: Schedule,
}

impl<'t> Search<'t> {
    /// What is left of each trace.
    pub(crate) fn tracks(&self) -> &[Track<'t>]
        ensures { result.now ≡ self.now.tracks }
    {
        self.tracks.as_slice()
    }

    /// The events so far.
    pub(crate) fn into_events(self) -> List<Event>
        ensures same { result ≡ self.entry.schedule }
        ensures named { All IsNameable result }
    {
        let Search { schedule, .. } = self;
        schedule.into_events()
    }

    /// Before any event. The traces are cut into the steps of their processes.
    pub(crate) fn new(
        alloc: Global,
        compiled: &'t Compiled,
        traces: &'t [List<Action>],
        cuts: &'t [List<Piece>],
        repeats: &'t [List<bool>],
    ) -> Result<Search<'t>, NoMemory>
        requires compiled { IsCompiled compiled.now }
        requires traces { AreTraces (program_of compiled.now) traces.now }
        requires cuts { length cuts.now ≡ length traces.now }
        requires cut { AllCut (program_of compiled.now) traces.now cuts.now }
        requires repeats { length repeats.now ≡ length traces.now }
        requires repeat { AllRepeats traces.now repeats.now }
        ensures ready { IfOk result Ready }
        ensures same { IfOk result (IsOf compiled.now traces.now) }
    {
        let count = traces.len();
        Ok(Search {
            compiled,
            traces,
            tracks: tracks_of(alloc, traces, cuts, repeats)?,
            waits: none_waits(alloc, count)?,
            queues: Queues::new(alloc, count)?,
            schedule: Schedule::new(alloc),
        })
    }

    /// All processes go on along their traces as far as they can: again and again the least one that can.
    pub(crate) fn exhaust(&mut self) -> Result<(), NoMemory>
        requires { Ready self.old }
        ensures ready { OnOk result (Ready self.new) }
        ensures same { IsOf self.old.compiled.now self.old.traces.now self.new }
        ensures waits { OnOk result (All (λ waits. waits ≡ true) self.new.waits) }
    {
        'steps: while self.one_goes()? {}
        Ok(())
    }

    // The least process that can goes on along its trace by one step, or the answer is `false` where none can.
    fn one_goes(&mut self) -> Result<bool, NoMemory>
        requires { Ready self.old }
        ensures ready { OnOk result (Ready self.new) }
        ensures same { IsOf self.old.compiled.now self.old.traces.now self.new }
        ensures fewer { IfOk result (λ went. IsTrue went → pieces_left self.new.tracks < pieces_left self.old.tracks) }
        ensures waits { IfOk result (λ went. IsFalse went → All (λ waits. waits ≡ true) self.new.waits) }
    {
        for place in 0..self.tracks.len() {
            if self.waits.as_slice()[place] {
                continue;
            }
            if self.advance(place)? {
                return Ok(true);
            }
        }
        Ok(false)
    }

    // The process at this place goes on along its trace by one step. Where it cannot, that is known from now on.
    fn advance(&mut self, place: usize) -> Result<bool, NoMemory>
        requires ready { Ready self.old }
        requires asked { slice_get self.old.waits place ≡ Some false }
        ensures ready { OnOk result (Ready self.new) }
        ensures same { IsOf self.old.compiled.now self.old.traces.now self.new }
        ensures fewer { IfOk result (λ went. IsTrue went → pieces_left self.new.tracks < pieces_left self.old.tracks) }
        ensures waits { IfOk result (λ went. IsFalse went
            → (self.new.waits ≡ slice_set self.old.waits place true) × (self.new.tracks ≡ self.old.tracks)) }
    {
        let Some(next) = next_step(&self.tracks.as_slice()[place]) else {
            self.waits.set(place, true);
            return Ok(false);
        };
        let me = place as u32 + 1;
        if !self.make(me, &next)? {
            self.waits.set(place, true);
            return Ok(false);
        }
        self.queues.send(me, next.told)?;
        wake(&mut self.waits, self.tracks.as_slice(), me, next.told);
        self.tracks.set(place, next.behind);
        Ok(true)
    }

    // The events of the next step of process `me` are added, or the answer is `false` where it waits for a message.
    fn make(&mut self, me: u32, next: &Next<'_>) -> Result<bool, NoMemory>
        requires me { IsOneOf (length self.old.queues) me }
        requires asked { IsAsked next.now.asked.now }
        ensures goes { IfOk result (λ went. Goes (program_of self.old.compiled.now).kind me next.now went
            self.old.queues self.new.queues self.old.schedule self.new.schedule) }
        ensures still { StandStill self.old self.new }
    {
        match next.asked {
            Action::Took { k, .. } => {
                self.schedule.push(event_of(me, *k, next.times_out))?;
                Ok(true)
            }
            Action::Got { p, .. } => {
                let wanted = Wanted {
                    from: u32::from(*p),
                    to: me,
                    got: next.asked,
                    again: next.again,
                };
                let kind = self.compiled.program().kind;
                let found = self.queues.fetch(kind, &wanted, &mut self.schedule)?;
                Ok(found)
            }
            _ => Ok(false),
        }
    }
}

// The event of a move of process `me` by the number that is told, or of a timeout.
fn event_of(me: u32, k: u32, times_out: bool) -> Event
    ensures { result ≡ took_event me k times_out }
{
    if times_out {
        Event::Timeout { p: me }
    } else if k == 0 {
        Event::Move { p: me }
    } else {
        Event::Take { p: me, k }
    }
}

// The whole traces.
fn tracks_of<'t>(
    alloc: Global,
    traces: &'t [List<Action>],
    cuts: &'t [List<Piece>],
    repeats: &'t [List<bool>],
) -> Result<List<Track<'t>>, NoMemory>
    requires cuts { length cuts.now ≡ length traces.now }
    requires repeats { length repeats.now ≡ length traces.now }
    ensures left { IfOk result (λ tracks. map (λ t. t.left.now) tracks ≡ traces.now) }
    ensures pieces { IfOk result (λ tracks. map (λ t. t.pieces.now) tracks ≡ cuts.now) }
    ensures repeats { IfOk result (λ tracks. map (λ t. t.repeats.now) tracks ≡ repeats.now) }
{
    let mut tracks = List::new(alloc);
    for place in 0..traces.len() {
        tracks.push(Track {
            left: traces[place].as_slice(),
            pieces: cuts[place].as_slice(),
            repeats: repeats[place].as_slice(),
        })?;
    }
    Ok(tracks)
}

// None of so many processes is known to wait.
fn none_waits(alloc: Global, count: usize) -> Result<List<bool>, NoMemory>
    ensures { IfOk result (λ waits. waits ≡ replicate count false) }
{
    let mut waits = List::new(alloc);
    for _place in 0..count {
        waits.push(false)?;
    }
    Ok(waits)
}
