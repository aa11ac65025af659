//! The server.
ghost use Rattle.da_outside.specs.Outside.{HasCause};
ghost use Rattle.lsp_server.specs.Turns.{HasServed};
ghost use Rattle.std.specs.Prelude.{◌≡◌};

use crate::status::Status;
use crate::turns::{State, turn};
use da_outside::Sink;
use lsp_frames::Source;
use std::alloc::Global;

/// Answers the frames of a stream, one after the other, until one of them asks to end or the stream does, and says how that ended.
pub fn serve<S: Source, K: Sink>(alloc: Global, source: &mut S, out: &mut K) -> Status
    // What the sink took is what the session with the stream of the source sends; with some stream, where it does not tell its own.
    ensures served { HasServed (S.left source.old) (K.taken out.old) (K.taken out.new) result }

    // Each fault has its cause.
    ensures read { HasCause (S.faults source.old) (S.faults source.new) (result ≡ Status.ReadFault) }
    ensures write { HasCause (K.faults out.old) (K.faults out.new) (result ≡ Status.WriteFault) }
{
    let mut state = State::new(alloc);
    'turns: for _turn in 0..u64::MAX {
        if let Some(status) = turn(&mut state, source, out) {
            return status;
        }
    }
    Status::Spent
}
