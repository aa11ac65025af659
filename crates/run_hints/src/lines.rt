//! Lines that are none of a schedule.
use crate::words::put_meant;
use crate::wrong_files::{tell_printed, tell_program_line};
use std::alloc::Global;
use text_hints::{Phrase, is_one_of, said_in, said_of};

/// The events, each with the numbers after its word.
const EVENTS: [(&[u8], &[u8]); 7] = [
    (b"move", b"move P, or move P K"),
    (b"timeout", b"timeout P"),
    (b"deliver", b"deliver P Q I"),
    (b"lose", b"lose P Q I"),
    (b"repeat", b"repeat P Q I"),
    (b"show", b"show P"),
    (b"stat", b"stat P"),
];

/// Why a line is none of a schedule, in one sentence, which is empty where it is one.
pub fn explain_line(alloc: Global, line: &[u8]) -> Phrase {
    let mut told = Phrase::new(alloc);
    if tell_program_line(line, &mut told) || tell_printed(line, &mut told) {
        return told;
    }
    told.put(said_in(&SPACES, line));
    if !told.is_empty() {
        return told;
    }
    let mut words = line.split(|byte| *byte == b' ');
    let word = words.next().unwrap_or(line);
    let count = words.count();
    let Some(form) = said_of(&EVENTS, word) else {
        tell_word(alloc, word, &mut told);
        return told;
    };
    if tell_number(line, &mut told) {
        return told;
    }
    if !takes(word, count) {
        told.enclose(word);
        told.put(b" has ");
        told.count(count, b"number", b"numbers");
        told.put(b" behind it, and is written ");
        told.put(form);
    }
    told
}

// A word of no event.
fn tell_word(alloc: Global, word: &[u8], out: &mut Phrase) {
    let cure = said_in(&CURES, word);
    if !cure.is_empty() {
        out.quote(word);
        out.put(b" is the word of no event: ");
        out.put(cure);
        return;
    }
    out.quote_front(word);
    out.put(b" is the word of no event");
    put_meant(alloc, &EVENTS, word, out);
}

/// The words of no event, and what is written in the place of each.
const CURES: [&[u8]; 26] = [
    b"start|started|run|begin|init|launch|new ~ 'move 1' starts process 1",
    b"took ~ the event that lets process 1 act is 'move 1'",
    b"step|go|next|continue|take|choose|await ~ 'move 1' goes on from a label, and 'move 1 2' takes alternative 2 of an await",
    b"drop|loose|delete|del ~ 'lose 1 2 1' loses message 1 from 1 to 2",
    b"dup|double|duplicate|copy|again ~ 'repeat 1 2 1' doubles message 1 from 1 to 2",
    b"send|recv|receive|dlv|transmit ~ 'deliver 1 2 1' delivers message 1 from 1 to 2; sending is part of a move",
    b"wait|sleep|expire|tick ~ 'timeout 1' lets the time of process 1 run out, and nothing else takes time",
    b"print|dump|state|answer|log ~ 'show 1' prints what process 1 keeps",
    b"stats|count|memory ~ 'stat 1' prints how much process 1 keeps",
    b"crash|kill|end|exit|fail|halt|quit ~ no event ends a process: leave it without events",
    b"time ~ 'timeout 1' begins with one word",
    b"restart|recover|resume|reset ~ no event begins a process anew: it keeps what it has, and goes on by 'move 1'",
    b"delay|partition|hold|block ~ a message that no 'deliver' names stays in its channel",
    b"reorder|swap|shuffle ~ 'deliver 1 2 2' delivers message 2 from 1 to 2 before message 1",
    b"for|while|loop|if|then ~ there are no loops and no conditions: each event stands on a line of its own",
    b"./dalgo|dalgo|replay|$ ~ this is a call, and no event: a line is as 'move 1'",
    b"inject ~ no event makes a message: sending is part of a move",
    b"output ~ what a process puts out is part of its moves",
    b"ok|refused ~ this is what a call prints, and no schedule",
    b"//|--|/*|;|% ~ a remark begins with #",
    b"//..|--.. ~ a remark begins with #",
    b"\"..|'.. ~ the words have no quotes: move 1",
    b"{.. ~ each event is a line of words: move 1",
    b"0..|1..|2..|3..|4..|5..|6..|7..|8..|9..|[.. ~ a line begins with its word, as in 'move 1'",
    b"..(.. ~ the numbers stand behind the word without brackets: move 1",
    b"..:|..,|..; ~ the words are parted by single spaces alone: move 1",
];

/// What is said of the spaces of a line, and of what else stands between its words.
const SPACES: [&[u8]; 6] = [
    b"..#.. ~ a remark stands on a line of its own, which begins with #",
    b"..\t.. ~ a tab stands here: the words are parted by single spaces",
    b" .. ~ a line begins with its word, and not with a space",
    b"..  ~ a space stands at the end of the line",
    b"..\r ~ the last line ends with a carriage return (CR) alone",
    b"..  .. ~ two spaces stand together: the words are parted by single spaces",
];

// Whether so many numbers may stand after a word.
fn takes(word: &[u8], count: usize) -> bool {
    if word == b"move".as_slice() {
        count == 1 || count == 2
    } else if is_one_of(word, b"timeout|show|stat") {
        count == 1
    } else {
        count == 3
    }
}

// A word after the first that is no number of an event.
fn tell_number(line: &[u8], out: &mut Phrase) -> bool {
    for (place, word) in line.split(|byte| *byte == b' ').enumerate() {
        if place != 0 && !is_number(word) {
            out.quote_front(word);
            out.put(b" is no number from 1 to 999999999 without a 0 in front");
            out.put(cure_of_number(line, place, word));
            return true;
        }
    }
    false
}

/// The words that often stand among the numbers, and what is said of each.
const BETWEEN: [&[u8]; 3] = [
    b"from|to|at|of|by|in|message|process|alternative ~ : the numbers alone stand behind the word, as in deliver 1 2 1",
    b"all|any|both|every|*|&&|and|then|move|deliver|times ~ : each event stands on a line of its own, for one process or one message",
    b"--|//|% ~ : a remark stands on a line of its own, which begins with #",
];

/// What is said of other words that are no numbers.
const MARKED: [&[u8]; 4] = [
    b"(..|'.. ~ : a message is named by its place in the channel, counted from 1",
    b"..,.. ~ : the numbers are parted by single spaces",
    b"..;.. ~ : each event stands on a line of its own",
    b"..>.. ~ : the numbers are parted by single spaces, as in deliver 1 2 1",
];

// What is to be written in the place of a word that is no number, so many words behind the first of a line.
fn cure_of_number(line: &[u8], place: usize, word: &[u8]) -> &'static [u8] {
    let cure = said_in(&BETWEEN, word);
    let is_letters = match word {
        [first, ..] => first.is_ascii_alphabetic(),
        [] => false,
    };
    if !cure.is_empty() {
        cure
    } else if !is_letters {
        said_in(&MARKED, word)
    } else if place == 3 {
        b": a message is named by its place in the channel, counted from 1"
    } else if place == 2 && line.starts_with(b"move ".as_slice()) {
        b": an alternative of an await is named by its number, and a label needs none"
    } else {
        b": processes are numbered from 1 on, in the order in which main makes them"
    }
}

fn is_number(word: &[u8]) -> bool {
    match word {
        [b'1'..=b'9', rest @ ..] => rest.len() < 9 && rest.iter().all(|byte| byte.is_ascii_digit()),
        _ => false,
    }
}
