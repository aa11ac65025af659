//! Lines that are none of a trace.
use std::alloc::Global;
use text_hints::{Phrase, said_in};

/// The first words of lines that are none of a trace, and what is said of each.
const FIRST_WORDS: [&[u8]; 7] = [
    b"move|timeout|deliver|lose|repeat|show|stat ~ this is a schedule: draw what 'dalgo replay PROG SCHED' prints of it",
    b"message|class|channel|def ~ this is a program: draw what 'dalgo replay PROG SCHED' prints of it",
    b"ok|refused ~ this is what a check prints: draw what 'dalgo replay PROG SCHED' prints",
    b"<!DOCTYPE|<html> ~ this is a page already: a browser shows it",
    b"node|status ~ this is what launch prints: './dalgo launch .. --traces DIR' writes the trace of each node",
    b"# ~ a trace has no remarks",
    b" ~ a trace has no empty lines, and no spaces in front",
];

/// Why a line is none that a run prints, in one sentence, which is empty where no more is known.
pub fn explain_drawn(alloc: Global, line: &[u8]) -> Phrase {
    let mut told = Phrase::new(alloc);
    let length = line.iter().take_while(|byte| **byte != b' ').count();
    let (word, _) = line.split_at(length.min(line.len()));
    told.put(said_in(&FIRST_WORDS, word));
    told
}

/// The line of this number of a text, counted from 1, without its end.
pub fn line_at(text: &[u8], number: u64) -> Option<&[u8]> {
    let place = usize::try_from(number.checked_sub(1)?).ok()?;
    text.split(|byte| *byte == b'\n').nth(place)
}
