//! How the commands are called.
use crate::commands::form_of;
use crate::terminal::{TOLD, shown};
use crate::wrong::why_not;
use std::io;
use std::io::Eprint;
use text_hints::Phrase;

const USAGE: &str = "\
usage: dalgo COMMAND .., where './dalgo --help' says more, and './dalgo COMMAND --help' shows one:
  check PROG, infer PROG, lint PROG, plan PROG, replay PROG SCHED, next PROG SCHED, show PROG SCHED, draw TRACE
  join PROG TRACE .., stress PROG START N, walk PROG START N, hunt PROG START COUNT N WHAT, watch WATCH PROG SCHED
  node PROG PORT ME IDLE TURNS, launch PROG PORT IDLE TURNS
status: 0 done, 1 refused or remarks, 2 words, 3 forbidden, 4 bad line, 5 read, 6 write, 7 memory, 8 link, 9 idle,
  10 spent or found, 11 fault, 12 child, 13 child status, 14 bad trace, 15 no join, 16 no schedule, 20 no words";

/// Tells on standard error which of these words, which are none of a call, is wrong, and how the command is called; or how all
/// commands are, where the first word is none.
pub fn tell_words<R: AllocGlobal + Eprint>(rt: &R, words: &[String]) -> io::Result<()> {
    let why = why_not(rt.alloc(), words);
    let why = shown(rt.alloc(), why.as_slice(), TOLD)?;
    eprintln!(rt; "dalgo: {why}")?;
    let [command, ..] = words else {
        return eprintln!(rt; "{USAGE}");
    };
    let command = command.as_str();
    let mut form = Phrase::new(rt.alloc());
    form.put(form_of(command.as_bytes()));
    if form.is_empty() {
        return eprintln!(rt; "{USAGE}");
    }
    let form = shown(rt.alloc(), form.as_slice(), TOLD)?;
    eprintln!(rt; "usage: dalgo {form}, where './dalgo {command} --help' says more")
}
