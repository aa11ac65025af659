//! What a person is told of a schedule: of a line that is none, of an event that is not allowed, and of faults.
use crate::needs::needs_of;
use crate::refused::{show, tell_notes};
use call_hints::{TOLD, shown, shown_name, text_again};
use da_commands::Names;
use da_front::PROGRAM_LIMIT;
use run_hints::{Fault, explain_fault, explain_line, explain_stop};
use sched_text::{Place, SCHEDULE_LIMIT, line_of_event, line_of_number};
use std::io::Eprint;
use std::{io, rt};
use text_hints::Phrase;

const LINES: &str = "\
lines: move P, move P K, timeout P, deliver P Q I, lose P Q I, repeat P Q I, show P, stat P, with single spaces; or # and a remark";

/// Tells which line of a schedule is none.
pub fn tell_bad_line<R: rt::Files + AllocGlobal + Eprint>(
    rt: &R,
    schedule: &str,
    number: u64,
) -> io::Result<()> {
    let named = shown_name(rt.alloc(), schedule)?;
    if number == 0 {
        return eprintln!(rt; "{named}: a schedule has at most {SCHEDULE_LIMIT} bytes");
    }
    let text = text_again(rt, schedule, SCHEDULE_LIMIT);
    match text
        .as_ref()
        .and_then(|text| line_of_number(text.as_slice(), number))
    {
        Some(line) => tell_line(rt, named.as_str(), number, line)?,
        None => eprintln!(rt; "{named}:{number}: not a line of a schedule")?,
    }
    eprintln!(rt; "{LINES}")
}

fn tell_line<R: AllocGlobal + Eprint>(
    rt: &R,
    schedule: &str,
    number: u64,
    line: &[u8],
) -> io::Result<()> {
    let why = explain_line(rt.alloc(), line);
    let why = shown(rt.alloc(), why.as_slice(), TOLD)?;
    if why.is_empty() {
        eprintln!(rt; "{schedule}:{number}: not a line of a schedule")?;
    } else {
        eprintln!(rt; "{schedule}:{number}: not a line of a schedule: {why}")?;
    }
    show(rt, number, line)
}

/// Tells which event is not allowed, and what it came to.
pub fn tell_forbidden<R: rt::Files + AllocGlobal + Eprint>(
    rt: &R,
    names: Names<'_>,
    event: u64,
) -> io::Result<()> {
    let schedule = names.schedule;
    let named = shown_name(rt.alloc(), schedule)?;
    let Some(text) = text_again(rt, schedule, SCHEDULE_LIMIT) else {
        return eprintln!(rt; "{named}: event {event} is not allowed after the events before it");
    };
    let Some(place) = line_of_event(text.as_slice(), event) else {
        return eprintln!(rt; "{named}: event {event} is not allowed after the events before it");
    };
    tell_event(rt, named.as_str(), event, place)?;
    let why = match text_again(rt, names.program, PROGRAM_LIMIT) {
        Some(program) => explain_stop(rt.alloc(), program.as_slice(), text.as_slice(), event),
        None => Phrase::new(rt.alloc()),
    };
    if why.is_empty() {
        let needs = needs_of(place.line);
        return eprintln!(rt; "allowed: {needs}");
    }
    tell_notes(rt, why.as_slice())
}

fn tell_event<R: AllocGlobal + Eprint>(
    rt: &R,
    schedule: &str,
    event: u64,
    place: Place<'_>,
) -> io::Result<()> {
    let number = place.number;
    eprintln!(rt; "{schedule}:{number}: event {event} is not allowed after the events before it")?;
    show(rt, number, place.line)
}

/// Tells the fault of which a line speaks, and how many others there were.
pub fn tell_fault<R: rt::Files + AllocGlobal + Eprint>(
    rt: &R,
    program: &str,
    fault: &[u8],
    count: usize,
) -> io::Result<()> {
    let Some(fault) = fault_of(rt, program, fault) else {
        return Ok(());
    };
    let line = fault.line;
    let named = shown_name(rt.alloc(), program)?;
    let told = shown(rt.alloc(), fault.told.as_slice(), TOLD)?;
    match count.checked_sub(1) {
        None | Some(0) => eprintln!(rt; "{named}:{line}: {told}"),
        Some(others) => eprintln!(rt; "{named}:{line}: {told} (and {others} more)"),
    }
}

/// The fault of which a line speaks.
pub fn fault_of<R: rt::Files + AllocGlobal>(rt: &R, program: &str, fault: &[u8]) -> Option<Fault> {
    match text_again(rt, program, PROGRAM_LIMIT) {
        Some(text) => explain_fault(rt.alloc(), fault, text.as_slice()),
        None => explain_fault(rt.alloc(), fault, &[]),
    }
}
