//! What a person is told on standard error: why the work was not done, in a line or two. What cannot be told is left out: the
//! exit status says how the call ended.
use call_hints::{
    SHOWN, TOLD, explain_drawn, line_at, shown, shown_name, tell_unread, tell_words, text_again,
};
use da_front::RefusedKind;
use scout_commands::{Aim, Command, Names, Search, Status, command_of};
use std::io::Eprint;
use std::{io, rt};

/// The most bytes of a schedule and of a trace.
const TEXT_LIMIT: usize = 16_777_216;

/// Tells how a call with these words ended. Nothing is told where the work was done.
pub fn report<R: rt::Files + AllocGlobal + Eprint>(rt: &R, words: &[String], status: Status) {
    let told = match command_of(rt.alloc(), words) {
        Ok(command) => tell_command(rt, words, &command, status),
        Err(_) => tell_common(rt, status),
    };
    drop(told);
}

// How a command ended.
fn tell_command<R: rt::Files + AllocGlobal + Eprint>(
    rt: &R,
    words: &[String],
    command: &Command<'_>,
    status: Status,
) -> io::Result<()> {
    match command {
        Command::Search { search, program } => match watch_of(search) {
            Some(watch) => tell_watched(rt, *program, watch, status),
            None => tell_program(rt, *program, status),
        },
        Command::Follow { names, .. } => tell_follow(rt, *names, status),
        Command::Watch { watch, names } => match status {
            Status::WatchRefused { .. } => tell_watched(rt, names.program, *watch, status),
            Status::ReadFault => {
                if tell_unread(rt, names.program)? || tell_unread(rt, *watch)? {
                    return Ok(());
                }
                tell_follow(rt, *names, status)
            }
            _ => tell_follow(rt, *names, status),
        },
        Command::Draw { trace } => tell_trace(rt, *trace, status),
        Command::Other if matches!(status, Status::Words) => tell_words(rt, words),
        Command::Other => tell_common(rt, status),
    }
}

// The name of the watch that a search asks for.
fn watch_of<'s>(search: &'s Search<'_>) -> Option<&'s str> {
    match search {
        Search::Hunt {
            aim: Aim::Watched(watch),
            ..
        } => Some(*watch),
        _ => None,
    }
}

// How a call ended that reads a program and a watch.
fn tell_watched<R: rt::Files + AllocGlobal + Eprint>(
    rt: &R,
    program: &str,
    watch: &str,
    status: Status,
) -> io::Result<()> {
    match status {
        Status::WatchRefused { kind, line } => tell_refused(rt, watch, kind, line),
        Status::ReadFault => {
            if tell_unread(rt, program)? || tell_unread(rt, watch)? {
                return Ok(());
            }
            tell_common(rt, status)
        }
        status => tell_program(rt, program, status),
    }
}

/// Tells how a call ended that reads a program alone.
pub fn tell_program<R: rt::Files + AllocGlobal + Eprint>(
    rt: &R,
    program: &str,
    status: Status,
) -> io::Result<()> {
    match status {
        Status::Refused { kind, line } => tell_refused(rt, program, kind, line),
        Status::ReadFault => {
            if tell_unread(rt, program)? {
                return Ok(());
            }
            tell_common(rt, status)
        }
        _ => tell_common(rt, status),
    }
}

// How a call ended that reads a program and a schedule.
fn tell_follow<R: rt::Files + AllocGlobal + Eprint>(
    rt: &R,
    names: Names<'_>,
    status: Status,
) -> io::Result<()> {
    let named = shown_name(rt.alloc(), names.schedule)?;
    match status {
        Status::Forbidden { event } => {
            eprintln!(rt; "{named}: event {event} is not allowed after the events before it")?;
            tell_why(rt)
        }
        Status::BadLine { line: 0 } => {
            eprintln!(rt; "{named}: a schedule has at most {TEXT_LIMIT} bytes")
        }
        Status::BadLine { line } => {
            eprintln!(rt; "{named}:{line}: not a line of a schedule")?;
            tell_why(rt)
        }
        Status::ReadFault => {
            if tell_unread(rt, names.program)? || tell_unread(rt, names.schedule)? {
                return Ok(());
            }
            tell_common(rt, status)
        }
        status => tell_program(rt, names.program, status),
    }
}

// Which command says more of a schedule.
fn tell_why<R: Eprint>(rt: &R) -> io::Result<()> {
    eprintln!(rt; "'dalgo replay' with the same files says why")
}

// How a drawing ended.
fn tell_trace<R: rt::Files + AllocGlobal + Eprint>(
    rt: &R,
    trace: &str,
    status: Status,
) -> io::Result<()> {
    let named = shown_name(rt.alloc(), trace)?;
    match status {
        Status::BadLine { line: 0 } => {
            eprintln!(rt; "{named}: a trace has at most {TEXT_LIMIT} bytes")
        }
        Status::BadLine { line } => {
            eprintln!(rt; "{named}:{line}: not a line that 'dalgo replay' or 'dalgo node' writes")?;
            tell_drawn(rt, trace, line)
        }
        status => tell_program(rt, trace, status),
    }
}

// Shows the line that is none of a trace, and what it is.
fn tell_drawn<R: rt::Files + AllocGlobal + Eprint>(
    rt: &R,
    trace: &str,
    number: u64,
) -> io::Result<()> {
    let Some(text) = text_again(rt, trace, TEXT_LIMIT) else {
        return Ok(());
    };
    let Some(line) = line_at(text.as_slice(), number) else {
        return Ok(());
    };
    let why = explain_drawn(rt.alloc(), line);
    let line = shown(rt.alloc(), line, SHOWN)?;
    eprintln!(rt; "{number:>5} | {line}")?;
    if why.is_empty() {
        return Ok(());
    }
    let why = shown(rt.alloc(), why.as_slice(), TOLD)?;
    eprintln!(rt; "{why}")
}

// Why a program is refused.
fn tell_refused<R: AllocGlobal + Eprint>(
    rt: &R,
    program: &str,
    kind: RefusedKind,
    line: u32,
) -> io::Result<()> {
    let named = shown_name(rt.alloc(), program)?;
    if line == 0 {
        return eprintln!(rt; "{named}: {kind}");
    }
    eprintln!(rt; "{named}:{line}: {kind}")?;
    if matches!(kind, RefusedKind::Watch) {
        return Ok(());
    }
    eprintln!(rt; "'dalgo check' shows the place, and what helps")
}

// How a call ended whatever it was for.
fn tell_common<R: Eprint>(rt: &R, status: Status) -> io::Result<()> {
    match status {
        Status::ReadFault => eprintln!(rt; "dalgo: a read failed"),
        Status::WriteFault => eprintln!(rt; "dalgo: standard output cannot be written"),
        Status::Memory => eprintln!(rt; "dalgo: out of memory"),
        Status::Unspelled => {
            eprintln!(rt;
                "dalgo: the events of the answer are no schedule that 'dalgo replay' reads"
            )?;
            eprintln!(rt;
                "a schedule has at most 16777216 bytes, and numbers of at most nine digits"
            )
        }
        _ => Ok(()),
    }
}
