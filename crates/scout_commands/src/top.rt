//! The top call: all that the program does.
ghost use Rattle.da_outside.specs.Outside.{HasCause};
ghost use Rattle.scout_commands.specs.Replies.{HasAnswered, HasReadCause};
ghost use Rattle.scout_commands.specs.Words.{IsOther};
ghost use Rattle.std.specs.Prelude.{ℕ, ◌≡◌, ◌<◌, ◌≤◌, List, map};
ghost use Rattle.std.specs.String.{string_bytes};

use crate::drawing::draw_trace;
use crate::endings::say;
use crate::following::follow;
use crate::searching::search as search_over;
use crate::status::Status;
use crate::watching::run_beside;
use crate::words::{Command, command_of};
use da_outside::{Files, Sink};
use schedule_hunt::Progress;
use std::alloc::Global;

/// Does what the words ask for, and says how that ended. The words are those after the program's name. A long hunt tells
/// `progress` how far it is.
pub fn scout<F: Files, K: Sink, P: Progress>(
    alloc: Global,
    words: &[String],
    files: &mut F,
    out: &mut K,
    progress: &mut P,
) -> Status
    // By what the words ask for: the bytes that the sink took are the reply to the texts, and the status is that of the reply.
    // Where a text is not told, it is the reply to some text in its place. Where a write failed or memory was refused, the sink
    // gained a prefix of the bytes of a reply, or nothing.
    ensures replies { HasAnswered (map string_bytes words.now) (F.told files.old) result (K.taken out.old) (K.taken out.new) }

    // Words that ask for nothing known are the only ones that are answered so.
    ensures only_words { result ≡ Status.Words → IsOther (map string_bytes words.now) }

    // Each fault has its cause, and where a count rose the status says so. What files tell stays as it was, and no count
    // falls.
    ensures read { result ≡ Status.ReadFault → HasReadCause (map string_bytes words.now) (F.told files.old) (F.faults files.old) (F.faults files.new) }
    ensures read_failed { (x : List ℕ) → F.faults files.old x < F.faults files.new x → result ≡ Status.ReadFault }
    ensures unread { result ≡ Status.ReadFault → K.taken out.new ≡ K.taken out.old }
    ensures told { (x : List ℕ) → F.told files.new x ≡ F.told files.old x }
    ensures counts { (x : List ℕ) → F.faults files.old x ≤ F.faults files.new x }
    ensures write { HasCause (K.faults out.old) (K.faults out.new) (result ≡ Status.WriteFault) }
{
    let Ok(command) = command_of(alloc, words) else {
        return Status::Memory;
    };
    match command {
        Command::Search { search, program } => {
            search_over(alloc, &search, program, files, out, progress)
        }
        Command::Follow { question, names } => follow(alloc, question, names, files, out),
        Command::Watch { watch, names } => run_beside(alloc, watch, names, files, out),
        Command::Draw { trace } => draw_trace(alloc, trace, files, out),
        Command::Other => say(out, b"words\n", Status::Words),
    }
}
