//! What a person is told on standard error: why the work was not done, in a few lines, and of a run that a process ended with a
//! fault. What cannot be told is left out: the exit status says how the call ended.
use crate::joined::{processes_of, tell_bad_trace, tell_blocks, tell_trace_count};
use crate::refused::{tell_refused, tell_refused_loosely};
use crate::stopped::{tell_bad_line, tell_fault, tell_forbidden};
use call_hints::{shown_name, tell_unread, tell_words};
use da_commands::{Command, Names, NodeSetting, Status, command_of};
use da_front::RefusedKind;
use da_outside::ChildTrouble;
use run_hints::Blocked;
use std::io::Eprint;
use std::{io, rt};

/// How a call ended: its status, the first line that told a fault, how many such lines there were, the processes that are blocked in
/// a join, and the first child at which a call failed, with the reason.
#[derive(Clone, Copy)]
pub struct Outcome<'f> {
    pub status: Status,
    pub fault: &'f [u8],
    pub count: usize,
    pub blocks: &'f [Blocked],
    pub child: Option<&'f (u32, ChildTrouble)>,
}

/// Tells how a call with these words ended. Nothing is told where the work was done and no process had a fault.
pub fn report<R: rt::Files + AllocGlobal + Eprint>(rt: &R, words: &[String], outcome: Outcome<'_>) {
    let status = outcome.status;
    let told = match command_of(words) {
        Command::Replay(names) => tell_replay(rt, names, outcome),
        Command::Carry { program, .. } => tell_program(rt, program, status),
        Command::Infer { program } => tell_undeclared(rt, program, status),
        Command::Node { setting, program } => tell_node(rt, setting, program, outcome),
        Command::Launch { program, .. } => tell_launch(rt, program, outcome),
        Command::Join { program, traces } => tell_join(rt, program, traces, outcome),
        Command::Other if matches!(status, Status::Words) => tell_words(rt, words),
        Command::Other => tell_common(rt, status),
    };
    drop(told);
}

// How a replay ended.
fn tell_replay<R: rt::Files + AllocGlobal + Eprint>(
    rt: &R,
    names: Names<'_>,
    outcome: Outcome<'_>,
) -> io::Result<()> {
    if outcome.count != 0 {
        tell_fault(rt, names.program, outcome.fault, outcome.count)?;
    }
    match outcome.status {
        Status::Forbidden { event } => tell_forbidden(rt, names, event),
        Status::BadSchedule { line } => tell_bad_line(rt, names.schedule, line),
        Status::ReadFault => {
            if tell_unread(rt, names.program)? || tell_unread(rt, names.schedule)? {
                return Ok(());
            }
            tell_common(rt, outcome.status)
        }
        status => tell_program(rt, names.program, status),
    }
}

// How a call ended that reads a program.
fn tell_program<R: rt::Files + AllocGlobal + Eprint>(
    rt: &R,
    program: &str,
    status: Status,
) -> io::Result<()> {
    match status {
        Status::Refused { kind, line } => tell_refused(rt, program, kind, line),
        Status::ReadFault => {
            if tell_unread(rt, program)? {
                return Ok(());
            }
            tell_common(rt, status)
        }
        _ => tell_common(rt, status),
    }
}

// How a call ended that reads a program which may lack declarations.
fn tell_undeclared<R: rt::Files + AllocGlobal + Eprint>(
    rt: &R,
    program: &str,
    status: Status,
) -> io::Result<()> {
    match status {
        Status::Refused { kind, line } => tell_refused_loosely(rt, program, kind, line),
        _ => tell_program(rt, program, status),
    }
}

// How a node ended.
fn tell_node<R: rt::Files + AllocGlobal + Eprint>(
    rt: &R,
    setting: NodeSetting,
    program: &str,
    outcome: Outcome<'_>,
) -> io::Result<()> {
    let NodeSetting {
        me,
        idle,
        turns,
        ..
    } = setting;
    match outcome.status {
        Status::LinkFault => {
            let port = u32::from(setting.port) + u32::from(me);
            eprintln!(rt; "dalgo: node {me}: port {port} is not free, or the socket failed")
        }
        Status::Refused {
            kind: RefusedKind::Me,
            ..
        } => tell_no_process(rt, program, me),
        Status::Idle => eprintln!(rt; "dalgo: node {me}: idle for {idle} turns in a row"),
        Status::Spent => eprintln!(rt; "dalgo: node {me}: all {turns} turns are spent"),
        Status::Faulted => tell_fault(rt, program, outcome.fault, outcome.count),
        status => tell_program(rt, program, status),
    }
}

// The program has no process of this number.
fn tell_no_process<R: rt::Files + AllocGlobal + Eprint>(
    rt: &R,
    program: &str,
    me: u16,
) -> io::Result<()> {
    let named = shown_name(rt.alloc(), program)?;
    match processes_of(rt, program) {
        Some(1) => eprintln!(rt; "{named}: there is no process {me}: main makes 1, so ME is 1"),
        Some(count) => eprintln!(rt;
            "{named}: there is no process {me}: main makes {count}, so ME is from 1 to {count}"
        ),
        None => eprintln!(rt; "{named}: there is no process {me}: main makes fewer"),
    }
}

// How a join ended.
fn tell_join<R: rt::Files + AllocGlobal + Eprint>(
    rt: &R,
    program: &str,
    traces: &[String],
    outcome: Outcome<'_>,
) -> io::Result<()> {
    match outcome.status {
        Status::BadTrace { process, line } => {
            match usize::from(process)
                .checked_sub(1)
                .and_then(|place| traces.get(place))
            {
                Some(name) => tell_bad_trace(rt, name.as_str(), process, line),
                None => Ok(()),
            }
        }
        Status::NoJoin => tell_blocks(rt, program, traces, outcome.blocks),
        Status::Refused {
            kind: RefusedKind::Traces,
            ..
        } => tell_trace_count(rt, program, traces.len()),
        Status::ReadFault => {
            if tell_unread(rt, program)? {
                return Ok(());
            }
            for name in traces {
                if tell_unread(rt, name.as_str())? {
                    return Ok(());
                }
            }
            tell_common(rt, outcome.status)
        }
        status => tell_program(rt, program, status),
    }
}

// How a launch ended. Its nodes have told how they ended before.
fn tell_launch<R: rt::Files + AllocGlobal + Eprint>(
    rt: &R,
    program: &str,
    outcome: Outcome<'_>,
) -> io::Result<()> {
    match (outcome.status, outcome.child) {
        (Status::ChildFault, Some((child, why))) => eprintln!(rt;
            "dalgo: launch: node {child}: {why}"
        ),
        (Status::ChildFault, None) => eprintln!(rt; "dalgo: launch: a node could not be started"),
        (Status::ChildStatus { child, status }, _) => {
            let meaning = meaning_of(status);
            eprintln!(rt; "dalgo: launch: node {child} ended with status {status}: {meaning}")
        }
        (status, _) => tell_program(rt, program, status),
    }
}

// What the exit status of a node means.
fn meaning_of(status: u8) -> &'static str {
    match status {
        1 => "the program is refused",
        5 => "the program could not be read",
        6 => "its output could not be written",
        7 => "out of memory",
        8 => "its port is not free, or its socket failed",
        9 => "idle",
        10 => "all its turns are spent",
        11 => "a fault ended its process",
        _ => "this is none of a node",
    }
}

// How a call ended whatever it was for.
fn tell_common<R: Eprint>(rt: &R, status: Status) -> io::Result<()> {
    match status {
        Status::ReadFault => eprintln!(rt; "dalgo: a read failed"),
        Status::WriteFault => eprintln!(rt; "dalgo: standard output cannot be written"),
        Status::Memory => eprintln!(rt; "dalgo: out of memory"),
        _ => Ok(()),
    }
}
