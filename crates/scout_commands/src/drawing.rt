//! The command `draw`.
ghost use Rattle.da_commands.specs.Told.{OfTold};
ghost use Rattle.da_outside.specs.Outside.{HasCause, Rose};
ghost use Rattle.scout_commands.specs.Replies.{DrawReply};
ghost use Rattle.scout_commands.specs.Told.{Answers};
ghost use Rattle.std.specs.Prelude.{ℕ, ◌≡◌, ◌+◌, ◌<◌, ◌≤◌, List, take};

use crate::endings::refuse_line;
use crate::status::Status;
use da_outside::{Files, Sink, Trouble, read_all};
use std::alloc::Global;
use trace_page::{DrawOutcome, TRACE_LIMIT, draw};

/// Reads the trace, and refuses it or draws it.
pub fn draw_trace<F: Files, K: Sink>(
    alloc: Global,
    trace: &str,
    files: &mut F,
    out: &mut K,
) -> Status
    ensures replies { OfTold (F.told files.old trace.now)
        (λ t. Answers (DrawReply t) result (K.taken out.old) (K.taken out.new)) }
    ensures read { result ≡ Status.ReadFault → Rose (F.faults files.old trace.now) (F.faults files.new trace.now) }
    ensures unread { result ≡ Status.ReadFault → K.taken out.new ≡ K.taken out.old }
    ensures told { (x : List ℕ) → F.told files.new x ≡ F.told files.old x }
    ensures later { (x : List ℕ) → F.faults files.old x ≤ F.faults files.new x }
    ensures rises { (x : List ℕ) → F.faults files.old x < F.faults files.new x → result ≡ Status.ReadFault }
    ensures write { HasCause (K.faults out.old) (K.faults out.new) (result ≡ Status.WriteFault) }
{
    match read_all(alloc, files, trace, TRACE_LIMIT) {
        Ok(text) => answer_trace(alloc, text.as_slice(), out),
        Err(Trouble::Failed) => Status::ReadFault,
        Err(Trouble::Memory) => Status::Memory,
    }
}

// Refuses the trace, or draws it.
fn answer_trace<K: Sink>(alloc: Global, text: &[u8], out: &mut K) -> Status
    ensures replies { (t : List ℕ) → text.now ≡ take (TRACE_LIMIT + 1) t
        → Answers (DrawReply t) result (K.taken out.old) (K.taken out.new) }
    ensures read { result ≡ Status.ReadFault → ⊥ }
    ensures write { HasCause (K.faults out.old) (K.faults out.new) (result ≡ Status.WriteFault) }
{
    if text.len() > TRACE_LIMIT {
        return refuse_line(alloc, out, 0);
    }
    match draw(alloc, text, out) {
        DrawOutcome::Done => Status::Done,
        DrawOutcome::BadLine(line) => refuse_line(alloc, out, line),
        DrawOutcome::WriteFault => Status::WriteFault,
        DrawOutcome::Memory => Status::Memory,
    }
}
