//! The command `replay`.
ghost use Rattle.da_front.specs.Verdict.{IsRefused};
ghost use Rattle.da_core.specs.Compiled.{IsCompiled, program_of};
ghost use Rattle.da_outside.specs.Outside.{HasCause, Rose};
ghost use Rattle.da_commands.specs.Replies.{IsEnd, ReadCause, ReplayReply, RunReply, run_status, run_text};
ghost use Rattle.da_commands.specs.Told.{HasReplied, HasSaid, OfTold};
ghost use Rattle.std.specs.Prelude.{ℕ, ◌≡◌, ◌+◌, ◌<◌, ◌≤◌, List, take};

use crate::endings::{refuse, refuse_schedule, status_of_run};
use crate::status::Status;
use da_core::Compiled;
use da_front::{PROGRAM_LIMIT, ProgramFault, read_program};
use da_lang::Event;
use da_outside::{Files, Sink, Trouble, read_all};
use da_system::System;
use sched_text::{SCHEDULE_LIMIT, SchedFault, read_schedule};
use std::alloc::Global;

/// Reads the program, refuses it or runs the schedule.
#[tactic(auto, using(crate::proofs::ToldLemmas::none_replayed))]
pub fn replay<F: Files, K: Sink>(
    alloc: Global,
    program: &str,
    schedule: &str,
    files: &mut F,
    out: &mut K,
) -> Status
    ensures replies { OfTold (F.told files.old program.now) (λ t. OfTold (F.told files.old schedule.now)
        (λ s. HasReplied (ReplayReply t s) result (K.taken out.old) (K.taken out.new))) }
    ensures ends { IsEnd result }
    ensures read { result ≡ Status.ReadFault
        → ReadCause (F.told files.old program.now) (F.faults files.old) (F.faults files.new) program.now schedule.now }
    ensures unread { result ≡ Status.ReadFault → K.taken out.new ≡ K.taken out.old }
    ensures told { (x : List ℕ) → F.told files.new x ≡ F.told files.old x }
    ensures later { (x : List ℕ) → F.faults files.old x ≤ F.faults files.new x }
    ensures rises { (x : List ℕ) → F.faults files.old x < F.faults files.new x → result ≡ Status.ReadFault }
    ensures write { HasCause (K.faults out.old) (K.faults out.new) (result ≡ Status.WriteFault) }
{
    match read_all(alloc, files, program, PROGRAM_LIMIT) {
        Ok(text) => answer_program(alloc, text.as_slice(), schedule, files, out),
        Err(Trouble::Failed) => Status::ReadFault,
        Err(Trouble::Memory) => Status::Memory,
    }
}

// Refuses the program, or reads the schedule and answers it.
#[tactic(auto, using(crate::proofs::ToldLemmas::none_begun))]
fn answer_program<F: Files, K: Sink>(
    alloc: Global,
    text: &[u8],
    name: &str,
    files: &mut F,
    out: &mut K,
) -> Status
    ensures replies { (t : List ℕ) → text.now ≡ take (PROGRAM_LIMIT + 1) t → OfTold (F.told files.old name.now)
        (λ s. HasReplied (ReplayReply t s) result (K.taken out.old) (K.taken out.new)) }
    ensures refused { (t : List ℕ) → text.now ≡ take (PROGRAM_LIMIT + 1) t → result ≡ Status.ReadFault → IsRefused t
        → ⊥ }
    ensures ends { IsEnd result }
    ensures read { result ≡ Status.ReadFault → Rose (F.faults files.old name.now) (F.faults files.new name.now) }
    ensures unread { result ≡ Status.ReadFault → K.taken out.new ≡ K.taken out.old }
    ensures told { (x : List ℕ) → F.told files.new x ≡ F.told files.old x }
    ensures later { (x : List ℕ) → F.faults files.old x ≤ F.faults files.new x }
    ensures rises { (x : List ℕ) → F.faults files.old x < F.faults files.new x → result ≡ Status.ReadFault }
    ensures write { HasCause (K.faults out.old) (K.faults out.new) (result ≡ Status.WriteFault) }
{
    let compiled = match read_program(alloc, text) {
        Ok(compiled) => compiled,
        Err(ProgramFault::Refused { kind, line }) => return refuse(alloc, out, kind, line),
        Err(ProgramFault::Memory) => return Status::Memory,
    };
    match read_all(alloc, files, name, SCHEDULE_LIMIT) {
        Ok(schedule) => answer_schedule(alloc, &compiled, schedule.as_slice(), out),
        Err(Trouble::Failed) => Status::ReadFault,
        Err(Trouble::Memory) => Status::Memory,
    }
}

// Refuses the schedule, or runs it.
#[tactic(auto, using(crate::proofs::ToldLemmas::begins_nothing))]
fn answer_schedule<K: Sink>(alloc: Global, compiled: &Compiled, text: &[u8], out: &mut K) -> Status
    requires { IsCompiled compiled.now }
    ensures replies { (whole : List ℕ) → text.now ≡ take (SCHEDULE_LIMIT + 1) whole
        → HasReplied (RunReply (program_of compiled.now) whole) result (K.taken out.old) (K.taken out.new) }
    ensures ends { IsEnd result }
    ensures read { result ≡ Status.ReadFault → ⊥ }
    ensures write { HasCause (K.faults out.old) (K.faults out.new) (result ≡ Status.WriteFault) }
{
    match read_schedule(alloc, text) {
        Ok(events) => answer_events(alloc, compiled, events.as_slice(), out),
        Err(SchedFault::BadLine(line)) => refuse_schedule(alloc, out, line),
        Err(SchedFault::Memory) => Status::Memory,
    }
}

// Runs the events, and writes their actions.
#[tactic(auto, using(crate::proofs::ToldLemmas::memory_said))]
fn answer_events<K: Sink>(
    alloc: Global,
    compiled: &Compiled,
    events: &[Event],
    out: &mut K,
) -> Status
    requires { IsCompiled compiled.now }
    ensures said { HasSaid (run_status (program_of compiled.now) events.now) (run_text (program_of compiled.now) events.now) result
        (K.taken out.old) (K.taken out.new) }
    ensures ends { IsEnd result }
    ensures read { result ≡ Status.ReadFault → ⊥ }
    ensures write { HasCause (K.faults out.old) (K.faults out.new) (result ≡ Status.WriteFault) }
{
    let Ok(mut system) = System::new(alloc, compiled) else {
        return Status::Memory;
    };
    status_of_run(replay_run::replay(alloc, &mut system, events, out))
}
