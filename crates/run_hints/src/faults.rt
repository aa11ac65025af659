//! Faults of processes, from the lines that tell them.
use crate::words::fill;
use da_lang::{Action, FaultKind};
use sched_text::read_action;
use std::alloc::Global;
use text_hints::{Phrase, between, line_of};

/// A kind of fault in words.
pub fn fault_words(kind: FaultKind) -> &'static [u8] {
    match kind {
        FaultKind::Overflow => b"an integer outside of 64 bits",
        FaultKind::Divide => b"a division by 0",
        FaultKind::Range => b"a range of more than 100,000 numbers",
        FaultKind::Message => b"a message of more than 60,000 bytes",
        FaultKind::TooLong => b"more than 1,000,000 steps in one event",
    }
}

/// A fault of a process: its line, and what a person is told of it.
#[derive(Drop)]
pub struct Fault {
    pub line: u32,
    pub told: Phrase,
}

/// What a person is told of a fault, of which a line `fault P KIND LINE` speaks: the process, what happened, and what stands
/// there in the program, where its text is given. `None` where the line speaks of none.
pub fn explain_fault(alloc: Global, fault: &[u8], program: &[u8]) -> Option<Fault> {
    let Ok(Action::Fault { p, kind, line }) = read_action(alloc, fault) else {
        return None;
    };
    let mut told = Phrase::new(alloc);
    fill(
        b"process # ended with a fault, ",
        &[u64::from(p)],
        &mut told,
    );
    told.put(fault_words(kind));
    if let Some(found) = line_of(program, line) {
        if !program.is_empty() {
            told.put(b": ");
            let spaces = found.bytes.iter().take_while(|byte| **byte == b' ').count();
            told.put(between(found.bytes, spaces, found.bytes.len()));
        }
    }
    Some(Fault { line, told })
}
