//! The commands `next` and `show`.
ghost use Rattle.da_core.specs.Compiled.{IsCompiled, program_of};
ghost use Rattle.da_commands.specs.Replies.{MayRead};
ghost use Rattle.da_commands.specs.Told.{OfTold};
ghost use Rattle.da_front.specs.Verdict.{Accepts, IsRefused};
ghost use Rattle.da_outside.specs.Outside.{HasCause, Rose};
ghost use Rattle.sched_text.specs.ScheduleText.{SpellsSchedule};
ghost use Rattle.scout_commands.specs.Replies.{RunReply};
ghost use Rattle.scout_commands.specs.declared.words.Question.TheVariants as asked;
ghost use Rattle.scout_commands.specs.Told.{Answers};
ghost use Rattle.std.specs.Prelude.{ℕ, ◌≡◌, ◌⊎◌, ◌+◌, ◌<◌, ◌≤◌, List, take};

use crate::endings::{refuse, refuse_line, status_of_next, status_of_run};
use crate::status::Status;
use crate::words::{Names, Question};
use da_core::Compiled;
use da_front::{PROGRAM_LIMIT, ProgramFault, read_program, read_tree};
use da_lang::Event;
use da_outside::{Files, Sink, Trouble, read_all};
use run_page::show;
use sched_text::{SCHEDULE_LIMIT, SchedFault, read_schedule};
use schedule_walk::next;
use std::alloc::Global;

/// Reads the program, and refuses it, or answers the question about the run of the schedule.
pub fn follow<F: Files, K: Sink>(
    alloc: Global,
    question: Question,
    names: Names<'_>,
    files: &mut F,
    out: &mut K,
) -> Status
    ensures replies { OfTold (F.told files.old names.entry.program.now) (λ t. OfTold (F.told files.old names.entry.schedule.now)
        (λ s. Answers (RunReply t s question) result (K.taken out.old) (K.taken out.new))) }
    ensures read { result ≡ Status.ReadFault → Rose (F.faults files.old names.entry.program.now) (F.faults files.new names.entry.program.now)
        ⊎ (Rose (F.faults files.old names.entry.schedule.now) (F.faults files.new names.entry.schedule.now) × MayRead (F.told files.old names.entry.program.now)) }
    ensures unread { result ≡ Status.ReadFault → K.taken out.new ≡ K.taken out.old }
    ensures told { (x : List ℕ) → F.told files.new x ≡ F.told files.old x }
    ensures later { (x : List ℕ) → F.faults files.old x ≤ F.faults files.new x }
    ensures rises { (x : List ℕ) → F.faults files.old x < F.faults files.new x → result ≡ Status.ReadFault }
    ensures write { HasCause (K.faults out.old) (K.faults out.new) (result ≡ Status.WriteFault) }
{
    match read_all(alloc, files, names.program, PROGRAM_LIMIT) {
        Ok(text) => answer_program(alloc, question, text.as_slice(), names.schedule, files, out),
        Err(Trouble::Failed) => Status::ReadFault,
        Err(Trouble::Memory) => Status::Memory,
    }
}

// Refuses the program, or reads the schedule and answers it.
fn answer_program<F: Files, K: Sink>(
    alloc: Global,
    question: Question,
    text: &[u8],
    name: &str,
    files: &mut F,
    out: &mut K,
) -> Status
    ensures replies { (t : List ℕ) → text.now ≡ take (PROGRAM_LIMIT + 1) t → OfTold (F.told files.old name.now)
        (λ s. Answers (RunReply t s question) result (K.taken out.old) (K.taken out.new)) }
    ensures refused { (t : List ℕ) → text.now ≡ take (PROGRAM_LIMIT + 1) t → result ≡ Status.ReadFault → IsRefused t
        → ⊥ }
    ensures read { result ≡ Status.ReadFault → Rose (F.faults files.old name.now) (F.faults files.new name.now) }
    ensures unread { result ≡ Status.ReadFault → K.taken out.new ≡ K.taken out.old }
    ensures told { (x : List ℕ) → F.told files.new x ≡ F.told files.old x }
    ensures later { (x : List ℕ) → F.faults files.old x ≤ F.faults files.new x }
    ensures rises { (x : List ℕ) → F.faults files.old x < F.faults files.new x → result ≡ Status.ReadFault }
    ensures write { HasCause (K.faults out.old) (K.faults out.new) (result ≡ Status.WriteFault) }
{
    let compiled = match read_program(alloc, text) {
        Ok(compiled) => compiled,
        Err(ProgramFault::Refused { kind, line }) => return refuse(alloc, out, kind, line),
        Err(ProgramFault::Memory) => return Status::Memory,
    };
    match read_all(alloc, files, name, SCHEDULE_LIMIT) {
        Ok(schedule) => {
            answer_schedule(alloc, question, &compiled, text, schedule.as_slice(), out)
        }
        Err(Trouble::Failed) => Status::ReadFault,
        Err(Trouble::Memory) => Status::Memory,
    }
}

// Refuses the schedule, or answers the question about its run.
fn answer_schedule<K: Sink>(
    alloc: Global,
    question: Question,
    compiled: &Compiled,
    text: &[u8],
    schedule: &[u8],
    out: &mut K,
) -> Status
    requires { IsCompiled compiled.now }
    ensures replies { (t s : List ℕ) → text.now ≡ take (PROGRAM_LIMIT + 1) t → Accepts t (program_of compiled.now)
        → schedule.now ≡ take (SCHEDULE_LIMIT + 1) s
        → Answers (RunReply t s question) result (K.taken out.old) (K.taken out.new) }
    ensures read { result ≡ Status.ReadFault → ⊥ }
    ensures write { HasCause (K.faults out.old) (K.faults out.new) (result ≡ Status.WriteFault) }
{
    match read_schedule(alloc, schedule) {
        Ok(events) => answer_run(
            alloc,
            question,
            compiled,
            text,
            schedule,
            events.as_slice(),
            out,
        ),
        Err(SchedFault::BadLine(line)) => refuse_line(alloc, out, line),
        Err(SchedFault::Memory) => Status::Memory,
    }
}

// Answers the question about the run of these events, which are those of the schedule.
fn answer_run<K: Sink>(
    alloc: Global,
    question: Question,
    compiled: &Compiled,
    text: &[u8],
    schedule: &[u8],
    events: &[Event],
    out: &mut K,
) -> Status
    requires { IsCompiled compiled.now }
    ensures replies { (t s : List ℕ) → text.now ≡ take (PROGRAM_LIMIT + 1) t → Accepts t (program_of compiled.now)
        → schedule.now ≡ take (SCHEDULE_LIMIT + 1) s → SpellsSchedule schedule.now events.now
        → Answers (RunReply t s question) result (K.taken out.old) (K.taken out.new) }
    ensures read { result ≡ Status.ReadFault → ⊥ }
    ensures write { HasCause (K.faults out.old) (K.faults out.new) (result ≡ Status.WriteFault) }
{
    match question {
        Question::Next => answer_events(alloc, compiled, events, out),
        Question::Show => answer_show(alloc, compiled, text, schedule, events, out),
    }
}

// Says which events are allowed after these.
fn answer_events<K: Sink>(
    alloc: Global,
    compiled: &Compiled,
    events: &[Event],
    out: &mut K,
) -> Status
    requires { IsCompiled compiled.now }
    ensures replies { (t s : List ℕ) → Accepts t (program_of compiled.now) → SpellsSchedule s events.now
        → Answers (RunReply t s asked.Next) result (K.taken out.old) (K.taken out.new) }
    ensures read { result ≡ Status.ReadFault → ⊥ }
    ensures write { HasCause (K.faults out.old) (K.faults out.new) (result ≡ Status.WriteFault) }
{
    status_of_next(next(alloc, compiled, events, out))
}

// Writes the page of the run of these events. The tree of an accepted text is there, unless memory is refused.
fn answer_show<K: Sink>(
    alloc: Global,
    compiled: &Compiled,
    text: &[u8],
    schedule: &[u8],
    events: &[Event],
    out: &mut K,
) -> Status
    requires { IsCompiled compiled.now }
    ensures replies { Accepts text.now (program_of compiled.now) → SpellsSchedule schedule.now events.now
        → Answers (RunReply text.now schedule.now asked.Show) result (K.taken out.old) (K.taken out.new) }
    ensures read { result ≡ Status.ReadFault → ⊥ }
    ensures write { HasCause (K.faults out.old) (K.faults out.new) (result ≡ Status.WriteFault) }
{
    let Ok(tree) = read_tree(alloc, text) else {
        return Status::Memory;
    };
    status_of_run(show(alloc, compiled, &tree, text, schedule, events, out))
}
