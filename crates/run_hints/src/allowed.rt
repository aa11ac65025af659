//! The events that are allowed in a state.
use crate::reached::View;
use da_lang::Event;
use da_system::Place;
use da_values::{Buf, List};
use sched_text::write_event;
use text_hints::Phrase;

/// The events that are shown at most.
const SHOWN: usize = 20;

/// A list of events that is written.
#[derive(Drop)]
struct Listed {
    count: usize,
    line: Buf,
}

/// What may be done with a message in flight.
#[derive(Clone, Copy)]
enum Deed {
    Deliver,
    Lose,
    Repeat,
}

/// Tells the events that are allowed, as far as they are few.
pub fn tell_allowed(view: View<'_, '_>, out: &mut Phrase) {
    let mut list = Listed {
        count: 0,
        line: List::new(view.alloc),
    };
    for place in 0..view.count() {
        offer_moves(view, place.saturating_add(1), &mut list, out);
    }
    offer_deeds(view, Deed::Deliver, &mut list, out);
    offer_deeds(view, Deed::Lose, &mut list, out);
    offer_deeds(view, Deed::Repeat, &mut list, out);
    out.put(if list.count == 0 {
        b"no move is allowed here, and nothing can be done with a message\n".as_slice()
    } else if list.count > SHOWN {
        b", ..\n"
    } else {
        b"\n"
    });
}

// The moves of a process, and its timeout.
fn offer_moves(view: View<'_, '_>, p: u32, list: &mut Listed, out: &mut Phrase) {
    match view.system.place(p) {
        Some(Place::Await(count)) => {
            for place in 0..count {
                let k = place.saturating_add(1);
                offer(view, Event::Take { p, k }, list, out);
            }
            offer(view, Event::Timeout { p }, list, out);
        }
        _ => offer(view, Event::Move { p }, list, out),
    }
}

// What may be done in this way with the messages in flight.
fn offer_deeds(view: View<'_, '_>, deed: Deed, list: &mut Listed, out: &mut Phrase) {
    for from in 0..view.count() {
        for to in 0..view.count() {
            let p = from.saturating_add(1);
            offer_channel(view, deed, p, to.saturating_add(1), list, out);
        }
    }
}

// The same with those of a channel, as far as they may be shown.
fn offer_channel(
    view: View<'_, '_>,
    deed: Deed,
    p: u32,
    q: u32,
    list: &mut Listed,
    out: &mut Phrase,
) {
    let held = view.system.in_flight(p, q).min(SHOWN.saturating_add(1));
    for at in 0..held {
        let i = u32::try_from(at.saturating_add(1)).unwrap_or(u32::MAX);
        let event = match deed {
            Deed::Deliver => Event::Deliver { p, q, i },
            Deed::Lose => Event::Lose { p, q, i },
            Deed::Repeat => Event::Repeat { p, q, i },
        };
        offer(view, event, list, out);
    }
}

// Adds an event, if it is allowed and there is room.
fn offer(view: View<'_, '_>, event: Event, list: &mut Listed, out: &mut Phrase) {
    if list.count > SHOWN || !view.system.enabled(&event) {
        return;
    }
    list.count = list.count.saturating_add(1);
    if list.count > SHOWN {
        return;
    }
    out.put(if list.count == 1 {
        b"allowed here: ".as_slice()
    } else {
        b", "
    });
    list.line.truncate(0);
    let _ = write_event(&event, &mut list.line);
    let length = list.line.len().saturating_sub(1);
    let (line, _) = list.line.as_slice().split_at(length.min(list.line.len()));
    out.put(line);
}
