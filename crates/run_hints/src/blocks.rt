//! Processes that are blocked in a join of traces, and what a person is told of each.
ghost use Rattle.da_core.specs.Compiled.{IsCompiled};

use crate::retrace::{Next, next_of};
use crate::unmade::tell_unmade;
use crate::unsent::{Wanted, tell_unsent};
use crate::words::{fill, put_front};
use da_core::Compiled;
use da_front::read_program;
use da_lang::Action;
use da_values::{Buf, List};
use sched_text::{read_trace, write_action};
use std::alloc::Global;
use std::str;
use text_hints::{Phrase, between};
use trace_join::same_action;

/// A process that is blocked, and at which line of its trace.
#[derive(Clone, Copy)]
pub struct Blocked {
    pub process: u16,
    pub line: u64,
}

/// The process of which a line `blocked P N` tells.
pub fn blocked_in(line: &[u8]) -> Option<Blocked> {
    let mut words = line.split(|byte| *byte == b' ');
    let first = words.next()?;
    let process = str::from_utf8(words.next()?).ok()?;
    let number = str::from_utf8(words.next()?).ok()?;
    if first == b"blocked".as_slice() {
        Some(Blocked {
            process: process.parse::<u16>().ok()?,
            line: number.parse::<u64>().ok()?,
        })
    } else {
        None
    }
}

/// Why processes are blocked, of a program whose traces have these texts: one sentence for each, without an end of line. It is
/// empty where that is not known, and there are none where memory is refused.
pub fn explain_blocks(
    alloc: Global,
    program: &[u8],
    traces: &[Buf],
    blocks: &[Blocked],
) -> List<Phrase> {
    let mut told = List::new(alloc);
    if let Ok(compiled) = read_program(alloc, program) {
        if let Some(actions) = actions_of(alloc, traces) {
            let join = Join {
                alloc,
                compiled: &compiled,
                traces: actions.as_slice(),
                blocks,
            };
            tell_blocks(join, &mut told);
        }
    }
    told
}

// The actions of each trace.
fn actions_of(alloc: Global, traces: &[Buf]) -> Option<List<List<Action>>> {
    let mut all = List::new(alloc);
    let mut process = 0u16;
    for trace in traces {
        process = process.checked_add(1)?;
        let actions = read_trace(alloc, trace.as_slice(), process).ok()?;
        all.push(actions).ok()?;
    }
    Some(all)
}

/// A program, the traces of its processes, and those that are blocked.
#[derive(Clone, Copy)]
pub struct Join<'t> {
    pub alloc: Global,
    pub compiled: &'t Compiled,
    pub traces: &'t [List<Action>],
    pub blocks: &'t [Blocked],
}

impl<'t> Join<'t> {
    /// The trace of a process.
    pub fn trace(&self, process: u16) -> &'t [Action] {
        match usize::from(process)
            .checked_sub(1)
            .and_then(|place| self.traces.get(place))
        {
            Some(trace) => trace.as_slice(),
            None => &[],
        }
    }

    /// The line at which a process is blocked, or one after the last line of its trace.
    pub fn end_of(&self, process: u16) -> u64 {
        for block in self.blocks {
            if block.process == process {
                return block.line;
            }
        }
        (self.trace(process).len() as u64).saturating_add(1)
    }
}

fn tell_blocks(join: Join<'_>, told: &mut List<Phrase>)
    requires { IsCompiled join.compiled.now }
{
    for block in join.blocks {
        let mut phrase = Phrase::new(join.alloc);
        tell_block(join, *block, &mut phrase);
        let _ = told.push(phrase);
    }
}

// Why a process is blocked.
fn tell_block(join: Join<'_>, block: Blocked, out: &mut Phrase)
    requires { IsCompiled join.compiled.now }
{
    let trace = join.trace(block.process);
    let place = usize::try_from(block.line.saturating_sub(1)).unwrap_or(usize::MAX);
    let (passed, left) = trace.split_at(place.min(trace.len()));
    let [asked, ..] = left else {
        return;
    };
    match next_of(join.alloc, join.compiled, block.process, passed, asked) {
        None => {}
        Some(Next::Refused(stands)) => tell_unmade(
            join.compiled,
            block.process,
            asked,
            stands,
            out,
        ),
        Some(Next::Told(told)) => {
            if !tell_otherwise(join.alloc, block, left, told.as_slice(), out) {
                tell_wanted(join, block, passed, asked, out);
            }
        }
    }
}

// That a process would tell other actions than its trace has. Whether that is so.
fn tell_otherwise(
    alloc: Global,
    block: Blocked,
    left: &[Action],
    told: &[Action],
    out: &mut Phrase,
) -> bool {
    let process = u64::from(block.process);
    for (place, action) in told.iter().enumerate() {
        match left.get(place) {
            None => fill(
                b"the trace ends within this event: process # goes on with ",
                &[process],
                out,
            ),
            Some(given) => {
                if same_action(action, given) {
                    continue;
                }
                let line = block.line.saturating_add(place as u64);
                fill(
                    b"process # does something else behind this: line # would be ",
                    &[process, line],
                    out,
                );
            }
        }
        put_action(alloc, action, out);
        return true;
    }
    false
}

// The line of an action, without its end.
fn put_action(alloc: Global, action: &Action, out: &mut Phrase) {
    let mut line = List::new(alloc);
    let _ = write_action(action, &mut line);
    out.put(b"`");
    put_front(
        between(line.as_slice(), 0, line.len().saturating_sub(1)),
        out,
    );
    out.put(b"`");
}

// Why a message is not there.
fn tell_wanted(
    join: Join<'_>,
    block: Blocked,
    passed: &[Action],
    asked: &Action,
    out: &mut Phrase,
) {
    if let Action::Got { q, p, t, v } = asked {
        let wanted = Wanted {
            from: *p,
            to: *q,
            time: *t,
            message: v,
        };
        tell_unsent(join, block, passed, wanted, out);
    }
}
