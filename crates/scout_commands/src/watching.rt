//! Watches that are read, and the command `watch`.
ghost use Rattle.da_core.specs.Compiled.{IsCompiled, program_of};
ghost use Rattle.da_commands.specs.Replies.{MayRead};
ghost use Rattle.da_commands.specs.Told.{OfTold};
ghost use Rattle.da_front.specs.declared.refusal.RefusedKind.{RefusedKind as RefusedKindOf};
ghost use Rattle.da_front.specs.Verdict.{Accepts, IsRefused};
ghost use Rattle.da_front.specs.WatchText.{AcceptsBeside, RefusesBeside};
ghost use Rattle.da_outside.specs.Outside.{HasCause, Rose};
ghost use Rattle.run_watch.specs.Beside.{IsWatchOf};
ghost use Rattle.sched_text.specs.ScheduleText.{SpellsSchedule};
ghost use Rattle.scout_commands.specs.Replies.{WatchReply};
ghost use Rattle.scout_commands.specs.Told.{Answers};
ghost use Rattle.std.specs.Prelude.{ℕ, ◌≡◌, ◌⊎◌, ◌+◌, ◌<◌, ◌≤◌, IfErr, IfOk, IsErrOf, List, length, take};

use crate::endings::{refuse, refuse_line, refuse_watch, status_of_run};
use crate::status::Status;
use crate::words::Names;
use da_core::Compiled;
use da_front::{PROGRAM_LIMIT, ProgramFault, RefusedKind, read_program, read_watch};
use da_lang::Event;
use da_outside::{Files, Sink, Trouble, read_all};
use run_watch::tell_watched;
use sched_text::{SCHEDULE_LIMIT, SchedFault, read_schedule};
use std::alloc::Global;
use thiserror::Error;

/// Why there is no watch.
#[derive(Clone, Copy, Debug, Error)]
pub enum NoWatch {
    /// Its text is refused so, at this line, or at 0 where no line is to blame.
    #[error("line {line} is refused")]
    Refused { kind: RefusedKind, line: u32 },
    /// A read failed.
    #[error("the watch cannot be read")]
    Unread,
    /// Memory was refused.
    #[error("no memory is left")]
    Memory,
}

/// The watch of this name, beside a program.
pub fn watch_from<F: Files>(
    alloc: Global,
    compiled: &Compiled,
    name: &str,
    files: &mut F,
) -> Result<Compiled, NoWatch>
    requires { IsCompiled compiled.now }
    ensures watch { IfOk result (IsWatchOf (program_of compiled.now)) }
    ensures read { IfOk result (λ watch. OfTold (F.told files.old name.now)
        (λ v. AcceptsBeside v (length (program_of compiled.now).procs) (program_of watch))) }
    ensures refused { IfErr result (λ why. (kind : RefusedKindOf) (line : ℕ) → why ≡ NoWatch.Refused kind line
        → OfTold (F.told files.old name.now) (λ v. RefusesBeside v (length (program_of compiled.now).procs) kind line)) }
    ensures unread { IsErrOf result NoWatch.Unread → Rose (F.faults files.old name.now) (F.faults files.new name.now) }
    ensures told { (x : List ℕ) → F.told files.new x ≡ F.told files.old x }
    ensures later { (x : List ℕ) → F.faults files.old x ≤ F.faults files.new x }
    ensures rises { (x : List ℕ) → F.faults files.old x < F.faults files.new x → IsErrOf result NoWatch.Unread }
{
    let count = compiled.program().procs.len() as u32;
    let text = match read_all(alloc, files, name, PROGRAM_LIMIT) {
        Ok(text) => text,
        Err(Trouble::Failed) => return Err(NoWatch::Unread),
        Err(Trouble::Memory) => return Err(NoWatch::Memory),
    };
    match read_watch(alloc, text.as_slice(), count) {
        Ok(watch) => Ok(watch),
        Err(ProgramFault::Refused { kind, line }) => Err(NoWatch::Refused { kind, line }),
        Err(ProgramFault::Memory) => Err(NoWatch::Memory),
    }
}

/// Reads the program, the watch and the schedule, and refuses one of them or tells the run of the schedule beside the watch.
pub fn run_beside<F: Files, K: Sink>(
    alloc: Global,
    watch: &str,
    names: Names<'_>,
    files: &mut F,
    out: &mut K,
) -> Status
    ensures replies { OfTold (F.told files.old names.entry.program.now) (λ t. OfTold (F.told files.old watch.now) (λ v.
        OfTold (F.told files.old names.entry.schedule.now) (λ s. Answers (WatchReply t v s) result (K.taken out.old) (K.taken out.new)))) }
    ensures read { result ≡ Status.ReadFault → Rose (F.faults files.old names.entry.program.now) (F.faults files.new names.entry.program.now)
        ⊎ (Rose (F.faults files.old watch.now) (F.faults files.new watch.now) × MayRead (F.told files.old names.entry.program.now))
        ⊎ (Rose (F.faults files.old names.entry.schedule.now) (F.faults files.new names.entry.schedule.now) × MayRead (F.told files.old names.entry.program.now)) }
    ensures unread { result ≡ Status.ReadFault → K.taken out.new ≡ K.taken out.old }
    ensures told { (x : List ℕ) → F.told files.new x ≡ F.told files.old x }
    ensures later { (x : List ℕ) → F.faults files.old x ≤ F.faults files.new x }
    ensures rises { (x : List ℕ) → F.faults files.old x < F.faults files.new x → result ≡ Status.ReadFault }
    ensures write { HasCause (K.faults out.old) (K.faults out.new) (result ≡ Status.WriteFault) }
{
    match read_all(alloc, files, names.program, PROGRAM_LIMIT) {
        Ok(text) => run_program(alloc, text.as_slice(), watch, names.schedule, files, out),
        Err(Trouble::Failed) => Status::ReadFault,
        Err(Trouble::Memory) => Status::Memory,
    }
}

// Refuses the program, or goes on with the watch.
fn run_program<F: Files, K: Sink>(
    alloc: Global,
    text: &[u8],
    watch: &str,
    schedule: &str,
    files: &mut F,
    out: &mut K,
) -> Status
    ensures replies { (t : List ℕ) → text.now ≡ take (PROGRAM_LIMIT + 1) t → OfTold (F.told files.old watch.now) (λ v.
        OfTold (F.told files.old schedule.now) (λ s. Answers (WatchReply t v s) result (K.taken out.old) (K.taken out.new))) }
    ensures refused { (t : List ℕ) → text.now ≡ take (PROGRAM_LIMIT + 1) t → result ≡ Status.ReadFault → IsRefused t → ⊥ }
    ensures read { result ≡ Status.ReadFault → Rose (F.faults files.old watch.now) (F.faults files.new watch.now)
        ⊎ Rose (F.faults files.old schedule.now) (F.faults files.new schedule.now) }
    ensures unread { result ≡ Status.ReadFault → K.taken out.new ≡ K.taken out.old }
    ensures told { (x : List ℕ) → F.told files.new x ≡ F.told files.old x }
    ensures later { (x : List ℕ) → F.faults files.old x ≤ F.faults files.new x }
    ensures rises { (x : List ℕ) → F.faults files.old x < F.faults files.new x → result ≡ Status.ReadFault }
    ensures write { HasCause (K.faults out.old) (K.faults out.new) (result ≡ Status.WriteFault) }
{
    match read_program(alloc, text) {
        Ok(compiled) => run_watched(alloc, &compiled, watch, schedule, files, out),
        Err(ProgramFault::Refused { kind, line }) => refuse(alloc, out, kind, line),
        Err(ProgramFault::Memory) => Status::Memory,
    }
}

// Refuses the watch, or goes on with the schedule.
fn run_watched<F: Files, K: Sink>(
    alloc: Global,
    compiled: &Compiled,
    watch: &str,
    schedule: &str,
    files: &mut F,
    out: &mut K,
) -> Status
    requires { IsCompiled compiled.now }
    ensures replies { (t : List ℕ) → Accepts t (program_of compiled.now) → OfTold (F.told files.old watch.now) (λ v.
        OfTold (F.told files.old schedule.now) (λ s. Answers (WatchReply t v s) result (K.taken out.old) (K.taken out.new))) }
    ensures read { result ≡ Status.ReadFault → Rose (F.faults files.old watch.now) (F.faults files.new watch.now)
        ⊎ Rose (F.faults files.old schedule.now) (F.faults files.new schedule.now) }
    ensures unread { result ≡ Status.ReadFault → K.taken out.new ≡ K.taken out.old }
    ensures told { (x : List ℕ) → F.told files.new x ≡ F.told files.old x }
    ensures later { (x : List ℕ) → F.faults files.old x ≤ F.faults files.new x }
    ensures rises { (x : List ℕ) → F.faults files.old x < F.faults files.new x → result ≡ Status.ReadFault }
    ensures write { HasCause (K.faults out.old) (K.faults out.new) (result ≡ Status.WriteFault) }
{
    match watch_from(alloc, compiled, watch, files) {
        Ok(watch) => run_schedule(alloc, compiled, &watch, schedule, files, out),
        Err(NoWatch::Refused { kind, line }) => refuse_watch(alloc, out, kind, line),
        Err(NoWatch::Unread) => Status::ReadFault,
        Err(NoWatch::Memory) => Status::Memory,
    }
}

// Reads the schedule, and refuses it or tells its run.
fn run_schedule<F: Files, K: Sink>(
    alloc: Global,
    compiled: &Compiled,
    watch: &Compiled,
    schedule: &str,
    files: &mut F,
    out: &mut K,
) -> Status
    requires compiled { IsCompiled compiled.now }
    requires watch { IsWatchOf (program_of compiled.now) watch.now }
    ensures replies { (t v : List ℕ) → Accepts t (program_of compiled.now) → AcceptsBeside v (length (program_of compiled.now).procs) (program_of watch.now)
        → OfTold (F.told files.old schedule.now) (λ s. Answers (WatchReply t v s) result (K.taken out.old) (K.taken out.new)) }
    ensures read { result ≡ Status.ReadFault → Rose (F.faults files.old schedule.now) (F.faults files.new schedule.now) }
    ensures unread { result ≡ Status.ReadFault → K.taken out.new ≡ K.taken out.old }
    ensures told { (x : List ℕ) → F.told files.new x ≡ F.told files.old x }
    ensures later { (x : List ℕ) → F.faults files.old x ≤ F.faults files.new x }
    ensures rises { (x : List ℕ) → F.faults files.old x < F.faults files.new x → result ≡ Status.ReadFault }
    ensures write { HasCause (K.faults out.old) (K.faults out.new) (result ≡ Status.WriteFault) }
{
    match read_all(alloc, files, schedule, SCHEDULE_LIMIT) {
        Ok(text) => run_events(alloc, compiled, watch, text.as_slice(), out),
        Err(Trouble::Failed) => Status::ReadFault,
        Err(Trouble::Memory) => Status::Memory,
    }
}

// Refuses the schedule, or tells its run.
fn run_events<K: Sink>(
    alloc: Global,
    compiled: &Compiled,
    watch: &Compiled,
    schedule: &[u8],
    out: &mut K,
) -> Status
    requires compiled { IsCompiled compiled.now }
    requires watch { IsWatchOf (program_of compiled.now) watch.now }
    ensures replies { (t v s : List ℕ) → Accepts t (program_of compiled.now) → AcceptsBeside v (length (program_of compiled.now).procs) (program_of watch.now)
        → schedule.now ≡ take (SCHEDULE_LIMIT + 1) s → Answers (WatchReply t v s) result (K.taken out.old) (K.taken out.new) }
    ensures read { result ≡ Status.ReadFault → ⊥ }
    ensures write { HasCause (K.faults out.old) (K.faults out.new) (result ≡ Status.WriteFault) }
{
    match read_schedule(alloc, schedule) {
        Ok(events) => tell_events(alloc, compiled, watch, events.as_slice(), out),
        Err(SchedFault::BadLine(line)) => refuse_line(alloc, out, line),
        Err(SchedFault::Memory) => Status::Memory,
    }
}

// Tells the run of these events.
fn tell_events<K: Sink>(
    alloc: Global,
    compiled: &Compiled,
    watch: &Compiled,
    events: &[Event],
    out: &mut K,
) -> Status
    requires compiled { IsCompiled compiled.now }
    requires watch { IsWatchOf (program_of compiled.now) watch.now }
    ensures replies { (t v s : List ℕ) → Accepts t (program_of compiled.now) → AcceptsBeside v (length (program_of compiled.now).procs) (program_of watch.now)
        → SpellsSchedule s events.now → Answers (WatchReply t v s) result (K.taken out.old) (K.taken out.new) }
    ensures read { result ≡ Status.ReadFault → ⊥ }
    ensures write { HasCause (K.faults out.old) (K.faults out.new) (result ≡ Status.WriteFault) }
{
    status_of_run(tell_watched(alloc, compiled, watch, events, out))
}
