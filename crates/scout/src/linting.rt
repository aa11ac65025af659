//! The command `lint`, and the remarks that a hunt begins with. No contract speaks of them.
use crate::report::tell_program;
use call_hints::{TOLD, shown, shown_name, text_again};
use da_commands::{Ending, refused_line};
use da_front::{PROGRAM_LIMIT, ProgramFault, read_program};
use da_lint::{Remark, has_token, put_remark, remarks_on};
use da_outside::{RealFiles, Sink, Trouble, read_all, write_all};
use da_values::{Buf, List};
use scout_commands::Status;
use std::alloc::Global;
use std::io::Eprint;
use std::{io, rt};

/// The exit status where there are remarks.
const REMARKED: u8 = 1;

/// The remarks that a hunt tells at most.
const MOST_TOLD: usize = 3;

/// The program of which these words ask for remarks, or `None` where they ask for something else.
pub fn lint_of(words: &[String]) -> Option<&str> {
    match words {
        [command, program] if command.as_str() == "lint" => Some(program.as_str()),
        _ => None,
    }
}

/// Writes the remarks on the program of this name, one on each line, or why it is refused. It answers the exit status: 0 where
/// there is no remark, 1 where there is one or the program is refused, and else that of the fault.
pub fn lint<R: rt::Files + AllocGlobal + Eprint, K: Sink>(
    rt: &R,
    program: &str,
    out: &mut K,
) -> u8 {
    let text = match read_all(rt.alloc(), &mut RealFiles::new(rt), program, PROGRAM_LIMIT) {
        Ok(text) => text,
        Err(Trouble::Failed) => return ended(rt, program, Status::ReadFault),
        Err(Trouble::Memory) => return ended(rt, program, Status::Memory),
    };
    if let Some(status) = refusal_of(rt.alloc(), text.as_slice(), out) {
        return ended(rt, program, status);
    }
    let remarks = remarks_on(rt.alloc(), text.as_slice());
    let mut lines = List::new(rt.alloc());
    for remark in remarks.as_slice() {
        put_remark(remark, &mut lines);
    }
    match write_all(out, lines.as_slice()) {
        Ok(()) if remarks.len() == 0 => 0,
        Ok(()) => REMARKED,
        Err(Trouble::Failed) => ended(rt, program, Status::WriteFault),
        Err(Trouble::Memory) => ended(rt, program, Status::Memory),
    }
}

// Tells how the call ended, and answers its exit status.
fn ended<R: rt::Files + AllocGlobal + Eprint>(rt: &R, program: &str, status: Status) -> u8 {
    let told = tell_program(rt, program, status);
    drop(told);
    status.code()
}

// Refuses a text that is no program, and answers how the call ends then.
fn refusal_of<K: Sink>(alloc: Global, text: &[u8], out: &mut K) -> Option<Status> {
    match read_program(alloc, text) {
        Ok(_) => None,
        Err(ProgramFault::Memory) => Some(Status::Memory),
        Err(ProgramFault::Refused { kind, line }) => match refused_line(alloc, kind, line) {
            Ok(told) => Some(written(out, &told, Status::Refused { kind, line })),
            Err(_) => Some(Status::Memory),
        },
    }
}

// Writes bytes, and answers the status where that is done.
fn written<K: Sink>(out: &mut K, told: &Buf, status: Status) -> Status {
    match write_all(out, told.as_slice()) {
        Ok(()) => status,
        Err(Trouble::Failed) => Status::WriteFault,
        Err(Trouble::Memory) => Status::Memory,
    }
}

/// Tells the first remarks on the program of this name on standard error, and how many more there are; and which text of these
/// words for a hunt stands nowhere in it. What cannot be told is left out.
pub fn warn<R: rt::Files + AllocGlobal + Eprint>(rt: &R, program: &str, words: &[String]) {
    if let Some(text) = text_again(rt, program, PROGRAM_LIMIT) {
        let remarks = remarks_on(rt.alloc(), text.as_slice());
        let told = tell_remarks(rt, program, remarks.as_slice());
        drop(told);
        let (_, values) = words.split_at(words.len().min(6));
        for word in values {
            let told = tell_no_text(rt, program, text.as_slice(), word.as_bytes());
            drop(told);
        }
    }
}

// Tells that the first text in a value stands nowhere in a program, where that is so: then no process puts the value out.
fn tell_no_text<R: AllocGlobal + Eprint>(
    rt: &R,
    program: &str,
    text: &[u8],
    value: &[u8],
) -> io::Result<()> {
    let before = value.iter().take_while(|byte| **byte != b'\'').count();
    let (_, rest) = value.split_at(before.min(value.len()));
    let [_, inside @ ..] = rest else {
        return Ok(());
    };
    let length = inside.iter().take_while(|byte| **byte != b'\'').count();
    let (quoted, _) = rest.split_at(length.saturating_add(2).min(rest.len()));
    if has_token(rt.alloc(), text, quoted) {
        return Ok(());
    }
    let named = shown_name(rt.alloc(), program)?;
    let quoted = shown(rt.alloc(), quoted, TOLD)?;
    eprintln!(rt; "{named}: the text {quoted} stands nowhere here, so no process puts it out")
}

fn tell_remarks<R: AllocGlobal + Eprint>(
    rt: &R,
    program: &str,
    remarks: &[Remark],
) -> io::Result<()> {
    let named = shown_name(rt.alloc(), program)?;
    for (place, remark) in remarks.iter().enumerate() {
        if place == MOST_TOLD {
            let more = remarks.len().saturating_sub(MOST_TOLD);
            let noun = if more == 1 { "remark" } else { "remarks" };
            return eprintln!(rt; "dalgo: {more} more {noun}: 'dalgo lint' prints them all");
        }
        let told = shown(rt.alloc(), remark.told.as_slice(), TOLD)?;
        let line = remark.line;
        let column = remark.column;
        eprintln!(rt; "{named}:{line}:{column}: {told}")?;
    }
    Ok(())
}
