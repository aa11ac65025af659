//! The lines of events.
ghost use Rattle.sched_text.specs.EventText.{event_line};
ghost use Rattle.std.specs.Prelude.{◌≡◌, ◌++◌, length, take, OnErr, OnOk};

use crate::put::{put_line, settle};
use da_lang::Event;
use da_values::{Buf, NoMemory};

/// Appends the line of an event. Where memory is refused `out` is as it was.
pub fn write_event(e: &Event, out: &mut Buf) -> Result<(), NoMemory>
    ensures ok { OnOk result (out.new ≡ out.old ++ event_line e.now) }
    ensures err { OnErr result (out.new ≡ out.old) }
{
    let before = out.len();
    let written = put_event(e, out);
    settle(written, before, out)
}

// Appends the line of an event, or a part of it where memory is refused.
fn put_event(event: &Event, out: &mut Buf) -> Result<(), NoMemory>
    ensures ok { OnOk result (out.new ≡ out.old ++ event_line event.now) }
    ensures err { OnErr result (take (length out.old) out.new ≡ out.old) }
{
    match event {
        Event::Move { p } => put_line(b"move", &[*p], out),
        Event::Take { p, k } => put_line(b"move", &[*p, *k], out),
        Event::Timeout { p } => put_line(b"timeout", &[*p], out),
        Event::Deliver { p, q, i } => put_line(b"deliver", &[*p, *q, *i], out),
        Event::Lose { p, q, i } => put_line(b"lose", &[*p, *q, *i], out),
        Event::Repeat { p, q, i } => put_line(b"repeat", &[*p, *q, *i], out),
        Event::Show { p } => put_line(b"show", &[*p], out),
        Event::Stat { p } => put_line(b"stat", &[*p], out),
    }
}
