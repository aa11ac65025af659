//! Lines that are none of the trace of a process.
use crate::words::put_meant;
use da_values::read_value;
use std::alloc::Global;
use std::str;
use text_hints::{Phrase, is_one_of, said_in, said_of};

/// The lines of a trace, each with what stands after its word.
const LINES: [(&[u8], &[u8]); 6] = [
    (b"took", b"took P K"),
    (b"sent", b"sent P Q T V"),
    (b"got", b"got P Q T V"),
    (b"out", b"out P V"),
    (b"end", b"end P"),
    (b"fault", b"fault P KIND LINE"),
];

/// What is said of the ends of a line.
const ENDS: [&[u8]; 6] = [
    b"\xEF\xBB\xBF.. ~ a byte order mark (BOM) stands before the first word: save the file without it",
    b" ~ a trace has no empty lines",
    b"..\r ~ it ends with a carriage return (CR), and lines of a trace with LF alone",
    b" .. ~ a line begins with its word, and not with a space",
    b"..  ~ a space stands at the end of the line",
    b"#.. ~ a trace has no remarks",
];

/// What is said of the first words of other lines.
const OTHERS: [&[u8]; 4] = [
    b"node|status ~ begins a line that launch prints: a trace is what stands between two of them, or './dalgo launch .. --traces DIR' writes it",
    b"move|timeout|deliver|lose|repeat|show|stat ~ begins a line of a schedule: a trace is what a node prints, as 'took 1 0'",
    b"message|class|channel|def ~ begins a line of a program: the program stands first, PROG TRACE ..",
    b"lost|again|answer|kept|stop ~ is told by a replay, and by no node",
];

/// The line of this number of a trace, counted from 1, without its LF; after the last LF there is none where nothing follows.
pub fn trace_line(text: &[u8], number: u64) -> Option<&[u8]> {
    let place = usize::try_from(number.checked_sub(1)?).ok()?;
    let lines = text.strip_suffix(b"\n").unwrap_or(text);
    if lines.is_empty() && !text.starts_with(b"\n") {
        return None;
    }
    lines.split(|byte| *byte == b'\n').nth(place)
}

/// Why a line is none of the trace of a process, in one sentence.
pub fn explain_trace_line(alloc: Global, line: &[u8], process: u16) -> Phrase {
    let mut told = Phrase::new(alloc);
    told.put(said_in(&ENDS, line));
    if !told.is_empty() {
        return told;
    }
    let mut words = line.split(|byte| *byte == b' ');
    let word = words.next().unwrap_or(line);
    let Some(form) = said_of(&LINES, word) else {
        tell_word(alloc, word, &mut told);
        return told;
    };
    if tell_process(words.next(), process, &mut told) {
        return told;
    }
    if let Some(value) = value_of(word, line) {
        if read_value(alloc, value).is_err() {
            told.quote_front(value);
            told.put(if value.contains(&b'"') {
                b" is no text of a value: texts stand in single quotes".as_slice()
            } else {
                b" is no text of a value: a space stands behind each comma, and sets ascend"
            });
            return told;
        }
    }
    told.quote(word);
    told.put(b" is written ");
    told.put(form);
    told.put(b", with numbers that have no 0 in front");
    told
}

// That a line begins with another word.
fn tell_word(alloc: Global, word: &[u8], out: &mut Phrase) {
    out.quote_front(word);
    let said = said_in(&OTHERS, word);
    if said.is_empty() {
        out.put(b" is the word of no line of a trace");
        put_meant(alloc, &LINES, word, out);
    } else {
        out.put(b" ");
        out.put(said);
    }
}

// That the line is of another process, or of none.
fn tell_process(word: Option<&[u8]>, process: u16, out: &mut Phrase) -> bool {
    match word.and_then(number_of) {
        None => out.put(b"the number of the process stands behind the first word"),
        Some(own) => {
            if own == u64::from(process) {
                return false;
            }
            out.put(b"this line is of process ");
            out.number(own);
            out.put(b", and the trace that of process ");
            out.number(u64::from(process));
        }
    }
    true
}

fn number_of(word: &[u8]) -> Option<u64> {
    str::from_utf8(word).ok()?.parse::<u64>().ok()
}

// The bytes that stand where a line of this word has a value.
fn value_of<'l>(word: &[u8], line: &'l [u8]) -> Option<&'l [u8]> {
    let spaces = if is_one_of(word, b"sent|got") {
        4u32
    } else if word == b"out".as_slice() {
        2
    } else {
        return None;
    };
    let mut rest = line;
    for _space in 0..spaces {
        let length = rest.iter().take_while(|byte| **byte != b' ').count();
        let (_, behind) = rest.split_at(length.min(rest.len()));
        let [_, others @ ..] = behind else {
            return None;
        };
        rest = others;
    }
    Some(rest)
}
