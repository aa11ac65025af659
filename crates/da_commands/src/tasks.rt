//! What is asked of a program alone: whether it is accepted, its plans, and generated schedules.
ghost use Rattle.da_core.specs.Compiled.{IsCompiled, program_of};
ghost use Rattle.da_outside.specs.Outside.{HasCause, Rose};
ghost use Rattle.da_system.specs.StressRun.{stress_text};
ghost use Rattle.da_commands.specs.Replies.{IsEnd, TaskReply, task_text};
ghost use Rattle.da_commands.specs.Told.{HasReplied, HasSaid, OfTold};
ghost use Rattle.std.specs.Prelude.{ℕ, ◌≡◌, ◌+◌, ◌<◌, ◌≤◌, List, take};

use crate::endings::{refuse, say, status_of_run};
use crate::lines::accepted_line;
use crate::plans::plan_line;
use crate::status::Status;
use crate::words::Task;
use da_core::Compiled;
use da_front::{PROGRAM_LIMIT, ProgramFault, read_program};
use da_outside::{Files, Sink, Trouble, read_all};
use da_system::System;
use std::alloc::Global;

/// Reads the program, and refuses it or carries out the task on it.
#[tactic(auto, using(crate::proofs::ToldLemmas::none_carried))]
pub fn execute<F: Files, K: Sink>(
    alloc: Global,
    task: Task,
    program: &str,
    files: &mut F,
    out: &mut K,
) -> Status
    ensures replies { OfTold (F.told files.old program.now)
        (λ t. HasReplied (TaskReply task t) result (K.taken out.old) (K.taken out.new)) }
    ensures ends { IsEnd result }
    ensures read { result ≡ Status.ReadFault → Rose (F.faults files.old program.now) (F.faults files.new program.now) }
    ensures unread { result ≡ Status.ReadFault → K.taken out.new ≡ K.taken out.old }
    ensures told { (x : List ℕ) → F.told files.new x ≡ F.told files.old x }
    ensures later { (x : List ℕ) → F.faults files.old x ≤ F.faults files.new x }
    ensures rises { (x : List ℕ) → F.faults files.old x < F.faults files.new x → result ≡ Status.ReadFault }
    ensures write { HasCause (K.faults out.old) (K.faults out.new) (result ≡ Status.WriteFault) }
{
    match read_all(alloc, files, program, PROGRAM_LIMIT) {
        Ok(text) => answer_text(alloc, task, text.as_slice(), out),
        Err(Trouble::Failed) => Status::ReadFault,
        Err(Trouble::Memory) => Status::Memory,
    }
}

// Refuses the program, or carries out the task on it.
#[tactic(auto, using(crate::proofs::ToldLemmas::begins_nothing))]
fn answer_text<K: Sink>(alloc: Global, task: Task, text: &[u8], out: &mut K) -> Status
    ensures replies { (t : List ℕ) → text.now ≡ take (PROGRAM_LIMIT + 1) t
        → HasReplied (TaskReply task t) result (K.taken out.old) (K.taken out.new) }
    ensures ends { IsEnd result }
    ensures read { result ≡ Status.ReadFault → ⊥ }
    ensures write { HasCause (K.faults out.old) (K.faults out.new) (result ≡ Status.WriteFault) }
{
    match read_program(alloc, text) {
        Ok(compiled) => answer_task(alloc, task, &compiled, out),
        Err(ProgramFault::Refused { kind, line }) => refuse(alloc, out, kind, line),
        Err(ProgramFault::Memory) => Status::Memory,
    }
}

// Carries out the task on an accepted program.
#[tactic(auto, using(crate::proofs::ToldLemmas::memory_said, crate::proofs::ToldLemmas::said_ends, crate::proofs::ToldLemmas::said_unread))]
fn answer_task<K: Sink>(alloc: Global, task: Task, compiled: &Compiled, out: &mut K) -> Status
    requires { IsCompiled compiled.now }
    ensures said { HasSaid Status.Done (task_text task (program_of compiled.now)) result (K.taken out.old) (K.taken out.new) }
    ensures ends { IsEnd result }
    ensures read { result ≡ Status.ReadFault → ⊥ }
    ensures write { HasCause (K.faults out.old) (K.faults out.new) (result ≡ Status.WriteFault) }
{
    match task {
        Task::Check => {
            let program = compiled.program();
            match accepted_line(alloc, program.classes.len(), program.procs.len()) {
                Ok(line) => say(out, line.as_slice(), Status::Done),
                Err(_) => Status::Memory,
            }
        }
        Task::Plan => match plan_line(alloc, compiled) {
            Ok(line) => say(out, line.as_slice(), Status::Done),
            Err(_) => Status::Memory,
        },
        Task::Stress { start, most } => answer_stress(alloc, compiled, start, most, out),
    }
}

// Runs a generated schedule of at most so many events, and says what it came to.
#[tactic(auto, using(crate::proofs::ToldLemmas::memory_said, crate::proofs::ToldLemmas::said_ends, crate::proofs::ToldLemmas::said_unread))]
fn answer_stress<K: Sink>(
    alloc: Global,
    compiled: &Compiled,
    start: u64,
    most: u64,
    out: &mut K,
) -> Status
    requires { IsCompiled compiled.now }
    ensures said { HasSaid Status.Done (stress_text (program_of compiled.now) start most) result (K.taken out.old) (K.taken out.new) }
    ensures ends { IsEnd result }
    ensures read { result ≡ Status.ReadFault → ⊥ }
    ensures write { HasCause (K.faults out.old) (K.faults out.new) (result ≡ Status.WriteFault) }
{
    let Ok(mut system) = System::new(alloc, compiled) else {
        return Status::Memory;
    };
    status_of_run(replay_run::stress(alloc, &mut system, start, most, out))
}
