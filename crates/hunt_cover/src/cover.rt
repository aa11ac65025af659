//! How often places of a program were reached.
ghost use Rattle.da_core.specs.Compiled.{IsCompiled};

use crate::marks::{MARK, MarkedText, mark_text};
use da_core::Compiled;
use da_front::read_program;
use da_lang::{Action, Event};
use da_system::System;
use da_values::{Buf, List, NoMemory, Value};
use run_hints::{Point, point_in};
use std::alloc::Global;

/// What may be reached.
#[derive(Clone, Copy, PartialEq, Eq)]
pub enum Place {
    /// The alternative of this number of an `await`.
    Alternative(u32),
    /// The block for a timeout of an `await`.
    Timeout,
    /// A handler.
    Handler,
    /// An `output`.
    Output,
}

/// A place of a program, its line, and how often it was reached.
#[derive(Clone, Copy)]
pub struct Spot {
    pub line: u32,
    pub place: Place,
    pub count: u64,
}

/// So many schedules are kept before they are run with marks.
const MOST_KEPT: usize = 1_000;

/// The text with marks and its places, and schedules of which it is not counted yet what they reach.
#[derive(Drop)]
pub struct Cover {
    alloc: Global,
    text: Buf,
    lines: List<u32>,
    spots: List<Spot>,
    kept: List<List<Event>>,
}

impl Cover {
    /// The places of the program of this text, which were not reached; `None` where the text with marks is refused, or memory is.
    pub fn new(alloc: Global, text: &[u8]) -> Option<Cover> {
        let marked = mark_text(alloc, text).ok()?;
        let compiled = read_program(alloc, marked.text.as_slice()).ok()?;
        let spots = spots_of(alloc, &compiled, &marked).ok()?;
        Some(Cover {
            alloc,
            text: marked.text,
            lines: marked.lines,
            spots,
            kept: List::new(alloc),
        })
    }

    /// The places, those of a kind by their lines.
    pub fn spots(&self) -> &[Spot] {
        self.spots.as_slice()
    }

    /// Takes in a schedule, of which `settle` counts what it reaches.
    pub fn count(&mut self, events: &[Event]) {
        if let Ok(copy) = copy_events(self.alloc, events) {
            let _ = self.kept.push(copy);
        }
        if self.kept.len() >= MOST_KEPT {
            self.settle();
        }
    }

    /// Counts what all schedules have reached that were taken in.
    pub fn settle(&mut self) {
        if let Ok(compiled) = read_program(self.alloc, self.text.as_slice()) {
            count_runs(
                self.alloc,
                &compiled,
                self.lines.as_slice(),
                self.kept.as_slice(),
                &mut self.spots,
            );
        }
        self.kept = List::new(self.alloc);
    }
}

// The same events.
pub(crate) fn copy_events(alloc: Global, events: &[Event]) -> Result<List<Event>, NoMemory> {
    let mut copy = List::new(alloc);
    for event in events {
        copy.push(*event)?;
    }
    Ok(copy)
}

// Counts what the runs of these schedules reach.
fn count_runs(
    alloc: Global,
    compiled: &Compiled,
    lines: &[u32],
    schedules: &[List<Event>],
    spots: &mut List<Spot>,
)
    requires { IsCompiled compiled.now }
{
    for events in schedules {
        let _ = count_run(alloc, compiled, lines, events.as_slice(), spots);
    }
}

// All places of a program.
fn spots_of(
    alloc: Global,
    compiled: &Compiled,
    marked: &MarkedText,
) -> Result<List<Spot>, NoMemory> {
    let mut spots = List::new(alloc);
    for class in compiled.program().classes.as_slice() {
        let mut number = 0u32;
        for _item in 0..u32::MAX {
            let Some(point) = point_in(class.run.as_slice(), number) else {
                break;
            };
            add_point(&point, marked.lines.as_slice(), &mut spots)?;
            number = number.saturating_add(1);
        }
    }
    for mark in marked.marked.as_slice() {
        let place = if mark.handler {
            Place::Handler
        } else {
            Place::Output
        };
        add_spot(mark.line, place, &mut spots)?;
    }
    Ok(spots)
}

// Adds the alternatives of a place to wait.
fn add_point(point: &Point, lines: &[u32], spots: &mut List<Spot>) -> Result<(), NoMemory> {
    let line = first_line(lines, point.line);
    for place in 0..point.alternatives {
        add_spot(line, Place::Alternative(place.saturating_add(1)), spots)?;
    }
    if point.times_out {
        add_spot(line, Place::Timeout, spots)?;
    }
    Ok(())
}

// Adds a place, unless it is there.
fn add_spot(line: u32, place: Place, spots: &mut List<Spot>) -> Result<(), NoMemory> {
    for spot in spots.as_slice() {
        if spot.line == line && spot.place == place {
            return Ok(());
        }
    }
    spots.push(Spot {
        line,
        place,
        count: 0,
    })
}

// The line of the first text for a line of the text with marks.
fn first_line(lines: &[u32], line: u32) -> u32 {
    let Some(place) = (line as usize).checked_sub(1) else {
        return line;
    };
    match lines.get(place) {
        Some(first) => *first,
        None => line,
    }
}

// Counts what the run of these events reaches.
fn count_run(
    alloc: Global,
    compiled: &Compiled,
    lines: &[u32],
    events: &[Event],
    spots: &mut List<Spot>,
) -> Result<(), NoMemory>
    requires { IsCompiled compiled.now }
{
    let mut system = System::new(alloc, compiled)?;
    for event in events {
        count_event(compiled, &system, lines, event, spots);
        let mut actions = List::new(alloc);
        if system.step(event, &mut actions).is_err() {
            return Ok(());
        }
        for action in actions.as_slice() {
            count_action(action, spots);
        }
    }
    Ok(())
}

// Counts the alternative that an event takes, or its timeout.
fn count_event(
    compiled: &Compiled,
    system: &System<'_>,
    lines: &[u32],
    event: &Event,
    spots: &mut List<Spot>,
) {
    match event {
        Event::Take { p, k } => {
            if let Some(line) = line_at(compiled, system, *p) {
                add_one(first_line(lines, line), Place::Alternative(*k), spots);
            }
        }
        Event::Timeout { p } => {
            if let Some(line) = line_at(compiled, system, *p) {
                add_one(first_line(lines, line), Place::Timeout, spots);
            }
        }
        _ => {}
    }
}

// The line where a process waits.
fn line_at(compiled: &Compiled, system: &System<'_>, p: u32) -> Option<u32> {
    let number = system.yield_number(p)?;
    let place = (p as usize).checked_sub(1)?;
    let program = compiled.program();
    let process = program.procs.get(place)?;
    let class = program.classes.get(usize::from(process.class))?;
    let point = point_in(class.run.as_slice(), number)?;
    Some(point.line)
}

// Counts a mark that is put out.
fn count_action(action: &Action, spots: &mut List<Spot>) {
    if let Action::Out { v, .. } = action {
        if let Some(line) = marked_line(v) {
            add_one(line, Place::Handler, spots);
            add_one(line, Place::Output, spots);
        }
    }
}

// The line of a mark.
fn marked_line(value: &Value) -> Option<u32> {
    let Value::Tuple(parts) = value else {
        return None;
    };
    let [word, line] = parts.as_slice() else {
        return None;
    };
    line_marked(word, line)
}

// The line of the mark that these are the parts of.
fn line_marked(word: &Value, line: &Value) -> Option<u32> {
    let Value::Text(word) = word else {
        return None;
    };
    let Value::Int(line) = line else {
        return None;
    };
    if word.as_bytes() != MARK {
        return None;
    }
    u32::try_from(*line).ok()
}

// Adds one to the count of a place, if it is there.
fn add_one(line: u32, place: Place, spots: &mut List<Spot>) {
    for at in 0..spots.len() {
        if let Some(spot) = spots.get(at) {
            if spot.line == line && spot.place == place {
                let more = Spot {
                    line,
                    place,
                    count: spot.count.saturating_add(1),
                };
                spots.set(at, more);
                return;
            }
        }
    }
}
