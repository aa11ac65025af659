//! The lines that end a call, and the statuses of calls whose parts ended so.
ghost use Rattle.da_commands.specs.Lines.{badline_text, refused_text};
ghost use Rattle.da_outside.specs.Outside.{HasCause};
ghost use Rattle.scout_commands.specs.Endings.{status_of_hunt as status_of_hunt_def, status_of_next as status_of_next_def, status_of_run as status_of_run_def};
ghost use Rattle.scout_commands.specs.Told.{HasSaid, IsAnswer};
ghost use Rattle.std.specs.Prelude.{◌≡◌};

use crate::status::Status;
use da_commands::{bad_line, refused_line};
use da_front::RefusedKind;
use da_outside::{Sink, Trouble, write_all};
use replay_run::Outcome;
use schedule_hunt::HuntOutcome;
use schedule_walk::NextOutcome;
use std::alloc::Global;

/// The status of a call whose run ended so.
pub fn status_of_run(outcome: Outcome) -> Status
    ensures { result ≡ status_of_run_def outcome }
{
    match outcome {
        Outcome::Done => Status::Done,
        Outcome::Forbidden(event) => Status::Forbidden { event },
        Outcome::WriteFault => Status::WriteFault,
        Outcome::Memory => Status::Memory,
    }
}

/// The status of a call whose question was answered so.
pub fn status_of_next(outcome: NextOutcome) -> Status
    ensures { result ≡ status_of_next_def outcome }
{
    match outcome {
        NextOutcome::Done => Status::Done,
        NextOutcome::Forbidden(event) => Status::Forbidden { event },
        NextOutcome::Unspelled => Status::Unspelled,
        NextOutcome::WriteFault => Status::WriteFault,
        NextOutcome::Memory => Status::Memory,
    }
}

/// The status of a call whose hunt ended so.
pub fn status_of_hunt(outcome: HuntOutcome) -> Status
    ensures { result ≡ status_of_hunt_def outcome }
{
    match outcome {
        HuntOutcome::Found => Status::Found,
        HuntOutcome::None => Status::Done,
        HuntOutcome::Unspelled => Status::Unspelled,
        HuntOutcome::WriteFault => Status::WriteFault,
        HuntOutcome::Memory => Status::Memory,
    }
}

/// Refuses the program.
pub fn refuse<K: Sink>(alloc: Global, out: &mut K, kind: RefusedKind, line: u32) -> Status
    ensures said { HasSaid (Status.Refused kind line) (refused_text kind line) result (K.taken out.old) (K.taken out.new) }
    ensures read { result ≡ Status.ReadFault → ⊥ }
    ensures write { HasCause (K.faults out.old) (K.faults out.new) (result ≡ Status.WriteFault) }
{
    let Ok(text) = refused_line(alloc, kind, line) else {
        return Status::Memory;
    };
    say(out, text.as_slice(), Status::Refused { kind, line })
}

/// Refuses the watch.
pub fn refuse_watch<K: Sink>(alloc: Global, out: &mut K, kind: RefusedKind, line: u32) -> Status
    ensures said { HasSaid (Status.WatchRefused kind line) (refused_text kind line) result (K.taken out.old) (K.taken out.new) }
    ensures read { result ≡ Status.ReadFault → ⊥ }
    ensures write { HasCause (K.faults out.old) (K.faults out.new) (result ≡ Status.WriteFault) }
{
    let Ok(text) = refused_line(alloc, kind, line) else {
        return Status::Memory;
    };
    say(out, text.as_slice(), Status::WatchRefused { kind, line })
}

/// Refuses the schedule or the trace.
pub fn refuse_line<K: Sink>(alloc: Global, out: &mut K, line: u64) -> Status
    ensures said { HasSaid (Status.BadLine line) (badline_text line) result (K.taken out.old) (K.taken out.new) }
    ensures read { result ≡ Status.ReadFault → ⊥ }
    ensures write { HasCause (K.faults out.old) (K.faults out.new) (result ≡ Status.WriteFault) }
{
    let Ok(text) = bad_line(alloc, line) else {
        return Status::Memory;
    };
    say(out, text.as_slice(), Status::BadLine { line })
}

/// Writes the bytes, with which the call ends so.
pub fn say<K: Sink>(out: &mut K, bytes: &[u8], status: Status) -> Status
    requires { IsAnswer status }
    ensures said { HasSaid status bytes.now result (K.taken out.old) (K.taken out.new) }
    ensures read { result ≡ Status.ReadFault → ⊥ }
    ensures write { HasCause (K.faults out.old) (K.faults out.new) (result ≡ Status.WriteFault) }
{
    match write_all(out, bytes) {
        Ok(()) => status,
        Err(Trouble::Failed) => Status::WriteFault,
        Err(Trouble::Memory) => Status::Memory,
    }
}
