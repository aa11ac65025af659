//! What a run has come to.
ghost use Rattle.da_core.specs.Compiled.{IsCompiled};

use crate::points::{Point, point_in};
use da_core::Compiled;
use da_lang::{Action, Event, FaultKind, Program};
use da_system::System;
use da_values::{Buf, List, write_value};
use std::alloc::Global;

/// A process that a fault has ended, and the line of it.
#[derive(Clone, Copy)]
pub struct Ended {
    pub process: u16,
    pub kind: FaultKind,
    pub line: u32,
}

/// A system after some events, and the faults on the way.
#[derive(Drop)]
pub struct Reached<'c> {
    pub system: System<'c>,
    pub faults: List<Ended>,
}

/// The run of these events, or `None` where one of them is not allowed or memory is refused.
pub fn run_events<'c>(
    alloc: Global,
    compiled: &'c Compiled,
    events: &[Event],
) -> Option<Reached<'c>>
    requires { IsCompiled compiled.now }
{
    let Ok(mut system) = System::new(alloc, compiled) else {
        return None;
    };
    let mut faults = List::new(alloc);
    for event in events {
        let mut actions = List::new(alloc);
        if system.step(event, &mut actions).is_err() {
            return None;
        }
        add_faults(actions.as_slice(), &mut faults);
    }
    Some(Reached { system, faults })
}

fn add_faults(actions: &[Action], faults: &mut List<Ended>) {
    for action in actions {
        if let Action::Fault { p, kind, line } = action {
            let _ = faults.push(Ended {
                process: *p,
                kind: *kind,
                line: *line,
            });
        }
    }
}

/// A system of a program, as it is told.
#[derive(Clone, Copy)]
pub struct View<'r, 'c> {
    pub alloc: Global,
    pub program: &'r Program,
    pub system: &'r System<'c>,
}

/// The line where process `p` of a program waits, or 0 where it does not wait or there is no such process.
pub fn line_waited(alloc: Global, program: &Program, system: &System<'_>, p: u32) -> u32 {
    let view = View {
        alloc,
        program,
        system,
    };
    match view.point(p) {
        Some(point) => point.line,
        None => 0,
    }
}

impl View<'_, '_> {
    /// How many processes there are.
    pub fn count(&self) -> u32 {
        u32::try_from(self.program.procs.len()).unwrap_or(u32::MAX)
    }

    /// Where a process waits, or `None` where it does not.
    pub fn point(&self, p: u32) -> Option<Point> {
        let number = self.system.yield_number(p)?;
        let place = (p as usize).checked_sub(1)?;
        let process = self.program.procs.get(place)?;
        let class = self.program.classes.get(usize::from(process.class))?;
        point_in(class.run.as_slice(), number)
    }

    /// The text of message `i` of a channel, counted from 1, which is empty where there is none.
    pub fn text(&self, p: u32, q: u32, i: u32) -> Buf {
        let mut text = List::new(self.alloc);
        if let Some(message) = self.system.message(p, q, i) {
            let _ = write_value(&message.value, &mut text);
        }
        text
    }
}
