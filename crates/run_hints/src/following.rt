//! What the events are that are allowed in a state.
use crate::reached::View;
use crate::words::{fill, put_front};
use da_core::Compiled;
use da_lang::Event;
use da_system::{Place, System};
use da_values::List;
use std::alloc::Global;
use text_hints::Phrase;

/// What each of some events is that are allowed where a system of a program stands: one phrase for each of them, without an end
/// of line. There are fewer where memory is refused.
pub fn explain_events(
    alloc: Global,
    compiled: &Compiled,
    system: &System<'_>,
    events: &[Event],
) -> List<Phrase> {
    let view = View {
        alloc,
        program: compiled.program(),
        system,
    };
    let mut told = List::new(alloc);
    for event in events {
        let mut phrase = Phrase::new(alloc);
        tell_event(view, *event, &mut phrase);
        if told.push(phrase).is_err() {
            return told;
        }
    }
    told
}

// What an event is.
fn tell_event(view: View<'_, '_>, event: Event, out: &mut Phrase) {
    match event {
        Event::Move { p } => {
            put_place(view, p, out);
            out.put(match view.system.place(p) {
                Some(Place::New) => b" starts".as_slice(),
                _ => b": goes on from the label",
            });
        }
        Event::Take { p, k } => {
            put_place(view, p, out);
            fill(b": alternative # is true", &[u64::from(k)], out);
        }
        Event::Timeout { p } => {
            put_place(view, p, out);
            out.put(b": no alternative is true, and the time runs out");
        }
        Event::Deliver { p, q, i } => put_message(view, p, q, i, b"", out),
        Event::Lose { p, q, i } => put_message(view, p, q, i, b", is lost", out),
        Event::Repeat { p, q, i } => put_message(view, p, q, i, b", is doubled", out),
        Event::Show { .. } | Event::Stat { .. } => {}
    }
}

// A process, and the line where it waits.
fn put_place(view: View<'_, '_>, p: u32, out: &mut Phrase) {
    fill(b"process #", &[u64::from(p)], out);
    if let Some(point) = view.point(p) {
        fill(b", line #", &[u64::from(point.line)], out);
    }
}

// A message in flight, and what is done with it.
fn put_message(view: View<'_, '_>, p: u32, q: u32, i: u32, deed: &[u8], out: &mut Phrase) {
    let time = match view.system.message(p, q, i) {
        Some(message) => message.time,
        None => 0,
    };
    put_front(view.text(p, q, i).as_slice(), out);
    fill(
        b" from # to #, sent at #",
        &[u64::from(p), u64::from(q), time],
        out,
    );
    out.put(deed);
}
