//! The event that is not allowed.
ghost use Rattle.da_core.specs.Compiled.{IsCompiled};

use crate::allowed::tell_allowed;
use crate::faults::fault_words;
use crate::reached::{Ended, View, run_events};
use crate::words::fill;
use da_core::Compiled;
use da_front::read_program;
use da_lang::Event;
use da_system::{Place, may_arrive, may_lose, may_repeat};
use sched_text::read_schedule;
use std::alloc::Global;
use text_hints::Phrase;

/// The messages of a channel that are shown at most.
const SHOWN: u32 = 8;

/// What a person is told of the event of this number, which stops the run of a schedule: lines that end with LF. They are
/// none where the run does not come so far again.
pub fn explain_stop(alloc: Global, program: &[u8], schedule: &[u8], event: u64) -> Phrase {
    let mut told = Phrase::new(alloc);
    let Ok(events) = read_schedule(alloc, schedule) else {
        return told;
    };
    let before = usize::try_from(event.saturating_sub(1)).unwrap_or(usize::MAX);
    let (front, rest) = events.as_slice().split_at(before.min(events.len()));
    let [stopped, ..] = rest else {
        return told;
    };
    let Ok(compiled) = read_program(alloc, program) else {
        return told;
    };
    tell_run(alloc, &compiled, front, *stopped, &mut told);
    told
}

// Runs the events, and tells why the one after them is not allowed.
fn tell_run(alloc: Global, compiled: &Compiled, front: &[Event], stopped: Event, out: &mut Phrase)
    requires { IsCompiled compiled.now }
{
    let Some(run) = run_events(alloc, compiled, front) else {
        return;
    };
    if run.system.enabled(&stopped) {
        return;
    }
    let view = View {
        alloc,
        program: compiled.program(),
        system: &run.system,
    };
    tell_event(view, run.faults.as_slice(), stopped, out);
    tell_allowed(view, out);
}

// Why the event is not allowed.
fn tell_event(view: View<'_, '_>, faults: &[Ended], event: Event, out: &mut Phrase) {
    match event {
        Event::Move { p } => {
            tell_process(view, faults, p, out);
            tell_ways(view, p, out);
        }
        Event::Timeout { p } => {
            tell_process(view, faults, p, out);
            tell_no_timeout(view, p, out);
        }
        Event::Take { p, k } => {
            tell_process(view, faults, p, out);
            tell_no_alternative(view, p, k, out);
        }
        Event::Show { p } => tell_process(view, faults, p, out),
        Event::Stat { p } => tell_process(view, faults, p, out),
        Event::Deliver { p, q, i } => {
            if view.system.place(p).is_none() {
                tell_missing(view, p, out);
                return;
            }
            tell_recipient(view, faults, p, q, i, out);
            if !may_arrive(view.program.kind, i) {
                out.put(b"the channels are fifo: only message 1 of a channel is delivered\n");
            }
            tell_channel(view, p, q, out);
        }
        Event::Lose { p, q, .. } => {
            if !may_lose(view.program.kind) {
                out.put(b"the channels are reliable: no message of theirs is lost\n");
            }
            tell_channel(view, p, q, out);
        }
        Event::Repeat { p, q, .. } => {
            if !may_repeat(view.program.kind) {
                out.put(b"only channels that are unordered and unreliable repeat a message\n");
            }
            tell_channel(view, p, q, out);
        }
    }
}

// How a process goes on that waits at an `await`.
fn tell_ways(view: View<'_, '_>, p: u32, out: &mut Phrase) {
    if let Some(Place::Await(_)) = view.system.place(p) {
        fill(
            b"an await is left by 'move # K', with the number K of an alternative that is true",
            &[u64::from(p)],
            out,
        );
        if times_out(view, p) {
            fill(b", or by 'timeout #' where none is", &[u64::from(p)], out);
        }
        out.put(b"\n");
    }
}

// Why the time does not run out for a process that waits.
fn tell_no_timeout(view: View<'_, '_>, p: u32, out: &mut Phrase) {
    out.put(match view.system.place(p) {
        Some(Place::Label) =>
            b"the time runs out at an await that has a timeout block, and not at a label\n".as_slice(),
        Some(Place::Await(_)) if times_out(view, p) =>
            b"its time runs out only where no alternative is true\n",
        Some(Place::Await(_)) => b"this await has no timeout block, so its time does not run out\n",
        _ => b"",
    });
}

// That an `await` has not so many alternatives.
fn tell_no_alternative(view: View<'_, '_>, p: u32, k: u32, out: &mut Phrase) {
    let Some(Place::Await(many)) = view.system.place(p) else {
        return;
    };
    if k <= many {
        return;
    }
    if many == 1 {
        out.put(b"the await has 1 alternative, which is number 1\n");
    } else {
        let many = u64::from(many);
        fill(
            b"the await has # alternatives, from 1 to #\n",
            &[many, many],
            out,
        );
    }
}

// Whether a process waits at an `await` with a block for a timeout.
fn times_out(view: View<'_, '_>, p: u32) -> bool {
    match view.point(p) {
        Some(point) => point.times_out,
        None => false,
    }
}

// Where a process stands that is to take a message, unless it waits and would take it.
fn tell_recipient(view: View<'_, '_>, faults: &[Ended], p: u32, q: u32, i: u32, out: &mut Phrase) {
    let waits = matches!(view.system.place(q), Some(Place::Label | Place::Await(_)));
    let comes = i as usize <= view.system.in_flight(p, q) && may_arrive(view.program.kind, i);
    if waits && !comes {
        return;
    }
    tell_process(view, faults, q, out);
    if waits {
        fill(
            b"it does not take message # there: each handler that may match it has 'at' and names other labels\n",
            &[u64::from(i)],
            out,
        );
    }
}

// That there is no process of this number.
fn tell_missing(view: View<'_, '_>, p: u32, out: &mut Phrase) {
    let count = u64::from(view.count());
    fill(b"there is no process #: main makes ", &[u64::from(p)], out);
    if count == 1 {
        out.put(b"1 process, which is 1\n");
    } else {
        fill(b"# processes, from 1 to #\n", &[count, count], out);
    }
}

// Where a process stands.
fn tell_process(view: View<'_, '_>, faults: &[Ended], p: u32, out: &mut Phrase) {
    let n = u64::from(p);
    match view.system.place(p) {
        None => tell_missing(view, p, out),
        Some(Place::New) => fill(
            b"process # has not started: 'move #' starts it\n",
            &[n, n],
            out,
        ),
        Some(Place::Ended) => fill(
            b"process # has ended: it makes no moves, and takes no messages\n",
            &[n],
            out,
        ),
        Some(Place::Faulted) => tell_fault(faults, p, out),
        Some(Place::Label) => {
            fill(b"process # has not ended: it waits at the label", &[n], out);
            put_line(view, p, out);
            fill(b", and 'move #' goes on\n", &[n], out);
        }
        Some(Place::Await(count)) => {
            fill(b"process # has not ended: it waits at the await", &[n], out);
            put_line(view, p, out);
            put_alternatives(view, p, count, out);
        }
    }
}

// The line where a process waits.
fn put_line(view: View<'_, '_>, p: u32, out: &mut Phrase) {
    if let Some(point) = view.point(p) {
        fill(b" in line #", &[u64::from(point.line)], out);
    }
}

// The fault that has ended a process.
fn tell_fault(faults: &[Ended], p: u32, out: &mut Phrase) {
    fill(b"process # has ended with a fault", &[u64::from(p)], out);
    for fault in faults {
        if u32::from(fault.process) == p {
            out.put(b": ");
            out.put(fault_words(fault.kind));
            fill(b", in line #", &[u64::from(fault.line)], out);
        }
    }
    out.put(b"\n");
}

// Which of so many alternatives of an `await` are true.
fn put_alternatives(view: View<'_, '_>, p: u32, many: u32, out: &mut Phrase) {
    let mut first = true;
    for place in 0..many {
        let k = place.saturating_add(1);
        if view.system.enabled(&Event::Take { p, k }) {
            if first {
                put_true(many, out);
            } else {
                out.put(b", ");
            }
            out.number(u64::from(k));
            first = false;
        }
    }
    if first {
        put_false(many, out);
    }
    out.put(b"\n");
}

// What stands before the numbers of alternatives that are true.
fn put_true(many: u32, out: &mut Phrase) {
    if many > 1 {
        fill(
            b", and of its # alternatives these are true: ",
            &[u64::from(many)],
            out,
        );
    } else {
        out.put(b", and its condition is true, which is alternative ");
    }
}

// None of so many alternatives is true.
fn put_false(many: u32, out: &mut Phrase) {
    if many > 1 {
        fill(
            b", and none of its # alternatives is true",
            &[u64::from(many)],
            out,
        );
    } else {
        out.put(b", and its condition is not true");
    }
}

// What a channel holds, and how much is in flight besides.
fn tell_channel(view: View<'_, '_>, p: u32, q: u32, out: &mut Phrase) {
    let held = view.system.in_flight(p, q) as u64;
    fill(
        b"the channel from # to # holds ",
        &[u64::from(p), u64::from(q)],
        out,
    );
    if held == 0 {
        out.put(b"no message");
    }
    for place in 0..SHOWN {
        if u64::from(place) >= held {
            break;
        }
        if place != 0 {
            out.put(b", ");
        }
        let i = place.saturating_add(1);
        fill(b"#: ", &[u64::from(i)], out);
        out.put(view.text(p, q, i).as_slice());
    }
    let more = held.saturating_sub(u64::from(SHOWN));
    if more != 0 {
        fill(b", and # more", &[more], out);
    }
    put_others(held, in_flight(view).saturating_sub(held), out);
}

// How many messages are in flight.
fn in_flight(view: View<'_, '_>) -> u64 {
    let mut held = 0u64;
    for from in 0..view.count() {
        for to in 0..view.count() {
            let (p, q) = (from.saturating_add(1), to.saturating_add(1));
            held = held.saturating_add(view.system.in_flight(p, q) as u64);
        }
    }
    held
}

// How many messages the other channels hold, where this one holds so many.
fn put_others(held: u64, others: u64, out: &mut Phrase) {
    if others != 0 {
        fill(b"; the other channels hold #\n", &[others], out);
    } else if held == 0 {
        out.put(b", nor does any other channel\n");
    } else {
        out.put(b"; the other channels hold no message\n");
    }
}
