//! The lines that end a call, and the statuses of calls whose parts ended so.
ghost use Rattle.da_commands.specs.Endings.{status_of_node as status_of_node_def, status_of_run as status_of_run_def};
ghost use Rattle.da_commands.specs.Lines.{badline_text, badtrace_text, refused_text};
ghost use Rattle.da_commands.specs.Replies.{IsAnswer, IsEnd};
ghost use Rattle.da_commands.specs.Told.{HasSaid};
ghost use Rattle.da_outside.specs.Outside.{HasCause};
ghost use Rattle.std.specs.Prelude.{◌≡◌};

use crate::lines::{bad_line, refused_line, trace_line};
use crate::status::Status;
use da_front::RefusedKind;
use da_outside::{Sink, Trouble, write_all};
use node_run::NodeOutcome;
use replay_run::Outcome;
use std::alloc::Global;

/// The status of a call whose run ended so.
pub fn status_of_run(outcome: Outcome) -> Status
    ensures { result ≡ status_of_run_def outcome }
{
    match outcome {
        Outcome::Done => Status::Done,
        Outcome::Forbidden(event) => Status::Forbidden { event },
        Outcome::WriteFault => Status::WriteFault,
        Outcome::Memory => Status::Memory,
    }
}

/// The status of a call whose node ended so.
pub fn status_of_node(outcome: NodeOutcome) -> Status
    ensures { result ≡ status_of_node_def outcome }
{
    match outcome {
        NodeOutcome::Done => Status::Done,
        NodeOutcome::Faulted => Status::Faulted,
        NodeOutcome::Idle => Status::Idle,
        NodeOutcome::Spent => Status::Spent,
        NodeOutcome::LinkFault => Status::LinkFault,
        NodeOutcome::WriteFault => Status::WriteFault,
        NodeOutcome::Memory => Status::Memory,
    }
}

/// Refuses the program.
#[tactic(auto, using(crate::proofs::ToldLemmas::memory_said, crate::proofs::ToldLemmas::said_ends, crate::proofs::ToldLemmas::said_unread))]
pub fn refuse<K: Sink>(alloc: Global, out: &mut K, kind: RefusedKind, line: u32) -> Status
    ensures said { HasSaid (Status.Refused kind line) (refused_text kind line) result (K.taken out.old) (K.taken out.new) }
    ensures ends { IsEnd result }
    ensures read { result ≡ Status.ReadFault → ⊥ }
    ensures write { HasCause (K.faults out.old) (K.faults out.new) (result ≡ Status.WriteFault) }
{
    let Ok(text) = refused_line(alloc, kind, line) else {
        return Status::Memory;
    };
    say(out, text.as_slice(), Status::Refused { kind, line })
}

/// Refuses the schedule.
#[tactic(auto, using(crate::proofs::ToldLemmas::memory_said, crate::proofs::ToldLemmas::said_ends, crate::proofs::ToldLemmas::said_unread))]
pub fn refuse_schedule<K: Sink>(alloc: Global, out: &mut K, line: u64) -> Status
    ensures said { HasSaid (Status.BadSchedule line) (badline_text line) result (K.taken out.old) (K.taken out.new) }
    ensures ends { IsEnd result }
    ensures read { result ≡ Status.ReadFault → ⊥ }
    ensures write { HasCause (K.faults out.old) (K.faults out.new) (result ≡ Status.WriteFault) }
{
    let Ok(text) = bad_line(alloc, line) else {
        return Status::Memory;
    };
    say(out, text.as_slice(), Status::BadSchedule { line })
}

/// Refuses the trace of a process.
#[tactic(auto, using(crate::proofs::ToldLemmas::memory_said, crate::proofs::ToldLemmas::said_ends, crate::proofs::ToldLemmas::said_unread))]
pub fn refuse_trace<K: Sink>(alloc: Global, out: &mut K, process: u16, line: u64) -> Status
    ensures said { HasSaid (Status.BadTrace process line) (badtrace_text process line) result (K.taken out.old) (K.taken out.new) }
    ensures ends { IsEnd result }
    ensures read { result ≡ Status.ReadFault → ⊥ }
    ensures write { HasCause (K.faults out.old) (K.faults out.new) (result ≡ Status.WriteFault) }
{
    let Ok(text) = trace_line(alloc, process, line) else {
        return Status::Memory;
    };
    say(out, text.as_slice(), Status::BadTrace { process, line })
}

/// Writes the bytes, with which the call ends so.
pub fn say<K: Sink>(out: &mut K, bytes: &[u8], status: Status) -> Status
    requires { IsAnswer status }
    ensures said { HasSaid status bytes.now result (K.taken out.old) (K.taken out.new) }
    ensures write { HasCause (K.faults out.old) (K.faults out.new) (result ≡ Status.WriteFault) }
{
    match write_all(out, bytes) {
        Ok(()) => status,
        Err(Trouble::Failed) => Status::WriteFault,
        Err(Trouble::Memory) => Status::Memory,
    }
}
