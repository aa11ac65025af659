//! The commands `walk` and `hunt`.
ghost use Rattle.da_core.specs.Compiled.{IsCompiled, program_of};
ghost use Rattle.da_commands.specs.Replies.{MayRead};
ghost use Rattle.da_commands.specs.Told.{OfTold};
ghost use Rattle.da_front.specs.Verdict.{Accepts, IsRefused};
ghost use Rattle.da_outside.specs.Outside.{HasCause, Rose};
ghost use Rattle.schedule_hunt.specs.Shown.{IsReady};
ghost use Rattle.scout_commands.specs.Replies.{HuntReply, OfWatchTold, SearchReply, watch_of, watch_of_aim};
ghost use Rattle.scout_commands.specs.declared.options.Options.{Options as OptionsOf};
ghost use Rattle.scout_commands.specs.declared.words.Aim.{Aim as AimOf};
ghost use Rattle.scout_commands.specs.declared.words.Search.TheVariants as kind;
ghost use Rattle.scout_commands.specs.Told.{Answers};
ghost use Rattle.scout_commands.specs.Words.{HasNumbers};
ghost use Rattle.std.specs.Prelude.{ℕ, ◌≡◌, ◌⊎◌, ◌+◌, ◌<◌, ◌≤◌, ◌^◌, List, Some, take};

use crate::endings::{refuse, refuse_watch, status_of_hunt, status_of_run};
use crate::status::Status;
use crate::watching::{NoWatch, watch_from};
use crate::words::{Aim, Search};
use da_core::Compiled;
use da_front::{PROGRAM_LIMIT, ProgramFault, read_program};
use da_outside::{Files, Sink, Trouble, read_all};
use da_system::System;
use schedule_hunt::{Goal, Progress, Trials, hunt};
use schedule_walk::walk;
use std::alloc::Global;

/// Reads the program, and refuses it or searches over it. A hunt that asks for a watch reads that too.
pub fn search<F: Files, K: Sink, P: Progress>(
    alloc: Global,
    search: &Search<'_>,
    program: &str,
    files: &mut F,
    out: &mut K,
    progress: &mut P,
) -> Status
    requires { HasNumbers search.now }
    ensures replies { OfTold (F.told files.old program.now) (λ t. OfWatchTold (F.told files.old) (watch_of search.now)
        (λ w. Answers (SearchReply t w search.now) result (K.taken out.old) (K.taken out.new))) }
    ensures read { result ≡ Status.ReadFault → Rose (F.faults files.old program.now) (F.faults files.new program.now)
        ⊎ ((w : List ℕ) × (watch_of search.now ≡ Some w) × Rose (F.faults files.old w) (F.faults files.new w) × MayRead (F.told files.old program.now)) }
    ensures unread { result ≡ Status.ReadFault → K.taken out.new ≡ K.taken out.old }
    ensures told { (x : List ℕ) → F.told files.new x ≡ F.told files.old x }
    ensures later { (x : List ℕ) → F.faults files.old x ≤ F.faults files.new x }
    ensures rises { (x : List ℕ) → F.faults files.old x < F.faults files.new x → result ≡ Status.ReadFault }
    ensures write { HasCause (K.faults out.old) (K.faults out.new) (result ≡ Status.WriteFault) }
{
    match read_all(alloc, files, program, PROGRAM_LIMIT) {
        Ok(text) => answer_text(alloc, search, text.as_slice(), files, out, progress),
        Err(Trouble::Failed) => Status::ReadFault,
        Err(Trouble::Memory) => Status::Memory,
    }
}

// Refuses the program, or searches over it.
fn answer_text<F: Files, K: Sink, P: Progress>(
    alloc: Global,
    search: &Search<'_>,
    text: &[u8],
    files: &mut F,
    out: &mut K,
    progress: &mut P,
) -> Status
    requires { HasNumbers search.now }
    ensures replies { (t : List ℕ) → text.now ≡ take (PROGRAM_LIMIT + 1) t → OfWatchTold (F.told files.old) (watch_of search.now)
        (λ w. Answers (SearchReply t w search.now) result (K.taken out.old) (K.taken out.new)) }
    ensures refused { (t : List ℕ) → text.now ≡ take (PROGRAM_LIMIT + 1) t → result ≡ Status.ReadFault → IsRefused t → ⊥ }
    ensures read { result ≡ Status.ReadFault → (w : List ℕ) × (watch_of search.now ≡ Some w) × Rose (F.faults files.old w) (F.faults files.new w) }
    ensures unread { result ≡ Status.ReadFault → K.taken out.new ≡ K.taken out.old }
    ensures told { (x : List ℕ) → F.told files.new x ≡ F.told files.old x }
    ensures later { (x : List ℕ) → F.faults files.old x ≤ F.faults files.new x }
    ensures rises { (x : List ℕ) → F.faults files.old x < F.faults files.new x → result ≡ Status.ReadFault }
    ensures write { HasCause (K.faults out.old) (K.faults out.new) (result ≡ Status.WriteFault) }
{
    match read_program(alloc, text) {
        Ok(compiled) => answer_search(alloc, search, &compiled, files, out, progress),
        Err(ProgramFault::Refused { kind, line }) => refuse(alloc, out, kind, line),
        Err(ProgramFault::Memory) => Status::Memory,
    }
}

// Searches over an accepted program.
fn answer_search<F: Files, K: Sink, P: Progress>(
    alloc: Global,
    search: &Search<'_>,
    compiled: &Compiled,
    files: &mut F,
    out: &mut K,
    progress: &mut P,
) -> Status
    requires compiled { IsCompiled compiled.now }
    requires numbers { HasNumbers search.now }
    ensures replies { (t : List ℕ) → Accepts t (program_of compiled.now) → OfWatchTold (F.told files.old) (watch_of search.now)
        (λ w. Answers (SearchReply t w search.now) result (K.taken out.old) (K.taken out.new)) }
    ensures read { result ≡ Status.ReadFault → (w : List ℕ) × (watch_of search.now ≡ Some w) × Rose (F.faults files.old w) (F.faults files.new w) }
    ensures unread { result ≡ Status.ReadFault → K.taken out.new ≡ K.taken out.old }
    ensures told { (x : List ℕ) → F.told files.new x ≡ F.told files.old x }
    ensures later { (x : List ℕ) → F.faults files.old x ≤ F.faults files.new x }
    ensures rises { (x : List ℕ) → F.faults files.old x < F.faults files.new x → result ≡ Status.ReadFault }
    ensures write { HasCause (K.faults out.old) (K.faults out.new) (result ≡ Status.WriteFault) }
{
    match search {
        Search::Walk { start, most } => answer_walk(alloc, compiled, *start, *most, out),
        Search::Hunt { trials, aim, .. } => {
            answer_aim(alloc, compiled, *trials, aim, files, out, progress)
        }
    }
}

// Hunts for what the words say, or with the watch that they name.
fn answer_aim<F: Files, K: Sink, P: Progress>(
    alloc: Global,
    compiled: &Compiled,
    trials: Trials,
    aim: &Aim<'_>,
    files: &mut F,
    out: &mut K,
    progress: &mut P,
) -> Status
    requires compiled { IsCompiled compiled.now }
    requires numbers { trials.start + trials.count < 2 ^ 64 }
    ensures replies { (t : List ℕ) → Accepts t (program_of compiled.now) → OfWatchTold (F.told files.old) (watch_of_aim aim.now)
        (λ w. (options : OptionsOf) → Answers (SearchReply t w (kind.Hunt trials aim.now options)) result (K.taken out.old) (K.taken out.new)) }
    ensures read { result ≡ Status.ReadFault → (w : List ℕ) × (watch_of_aim aim.now ≡ Some w) × Rose (F.faults files.old w) (F.faults files.new w) }
    ensures unread { result ≡ Status.ReadFault → K.taken out.new ≡ K.taken out.old }
    ensures told { (x : List ℕ) → F.told files.new x ≡ F.told files.old x }
    ensures later { (x : List ℕ) → F.faults files.old x ≤ F.faults files.new x }
    ensures rises { (x : List ℕ) → F.faults files.old x < F.faults files.new x → result ≡ Status.ReadFault }
    ensures write { HasCause (K.faults out.old) (K.faults out.new) (result ≡ Status.WriteFault) }
{
    match aim {
        Aim::Shown(what) => answer_hunt(alloc, compiled, trials, &Goal::Shown(what), out, progress),
        Aim::Watched(watch) => {
            answer_watched(alloc, compiled, trials, *watch, files, out, progress)
        }
    }
}

// Writes the schedule of at most so many events that numbers generate.
fn answer_walk<K: Sink>(
    alloc: Global,
    compiled: &Compiled,
    start: u64,
    most: u64,
    out: &mut K,
) -> Status
    requires { IsCompiled compiled.now }
    ensures replies { (t w : List ℕ) → Accepts t (program_of compiled.now)
        → Answers (SearchReply t w (kind.Walk start most)) result (K.taken out.old) (K.taken out.new) }
    ensures read { result ≡ Status.ReadFault → ⊥ }
    ensures write { HasCause (K.faults out.old) (K.faults out.new) (result ≡ Status.WriteFault) }
{
    let Ok(mut system) = System::new(alloc, compiled) else {
        return Status::Memory;
    };
    status_of_run(walk(alloc, &mut system, start, most, out))
}

// Reads the watch, and refuses it or hunts with it.
fn answer_watched<F: Files, K: Sink, P: Progress>(
    alloc: Global,
    compiled: &Compiled,
    trials: Trials,
    name: &str,
    files: &mut F,
    out: &mut K,
    progress: &mut P,
) -> Status
    requires compiled { IsCompiled compiled.now }
    requires numbers { trials.start + trials.count < 2 ^ 64 }
    ensures replies { OfTold (F.told files.old name.now) (λ w. (t : List ℕ) (aim : AimOf) (options : OptionsOf) → Accepts t (program_of compiled.now)
        → watch_of_aim aim ≡ Some name.now → Answers (SearchReply t w (kind.Hunt trials aim options)) result (K.taken out.old) (K.taken out.new)) }
    ensures read { result ≡ Status.ReadFault → Rose (F.faults files.old name.now) (F.faults files.new name.now) }
    ensures unread { result ≡ Status.ReadFault → K.taken out.new ≡ K.taken out.old }
    ensures told { (x : List ℕ) → F.told files.new x ≡ F.told files.old x }
    ensures later { (x : List ℕ) → F.faults files.old x ≤ F.faults files.new x }
    ensures rises { (x : List ℕ) → F.faults files.old x < F.faults files.new x → result ≡ Status.ReadFault }
    ensures write { HasCause (K.faults out.old) (K.faults out.new) (result ≡ Status.WriteFault) }
{
    match watch_from(alloc, compiled, name, files) {
        Ok(watch) => answer_hunt(
            alloc,
            compiled,
            trials,
            &Goal::Watched(&watch),
            out,
            progress,
        ),
        Err(NoWatch::Refused { kind, line }) => refuse_watch(alloc, out, kind, line),
        Err(NoWatch::Unread) => Status::ReadFault,
        Err(NoWatch::Memory) => Status::Memory,
    }
}

// Hunts among generated schedules.
fn answer_hunt<K: Sink, P: Progress>(
    alloc: Global,
    compiled: &Compiled,
    trials: Trials,
    goal: &Goal<'_>,
    out: &mut K,
    progress: &mut P,
) -> Status
    requires compiled { IsCompiled compiled.now }
    requires numbers { trials.start + trials.count < 2 ^ 64 }
    requires goal { IsReady (program_of compiled.now) goal.now }
    ensures replies { Answers (HuntReply (program_of compiled.now) trials goal.now) result (K.taken out.old) (K.taken out.new) }
    ensures read { result ≡ Status.ReadFault → ⊥ }
    ensures write { HasCause (K.faults out.old) (K.faults out.new) (result ≡ Status.WriteFault) }
{
    status_of_hunt(hunt(alloc, compiled, trials, goal, progress, out))
}
