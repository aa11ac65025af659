//! What a person is told of a program that is refused.
use call_hints::{SHOWN, TOLD, shown, shown_name, text_again};
use da_front::{PROGRAM_LIMIT, RefusedKind};
use da_hints::{explain, explain_loosely, why_of};
use da_values::Buf;
use std::io::Eprint;
use std::{io, rt};
use text_hints::{Hint, Line, between, line_number, line_of};

/// The lines that help, at most: with the sentence and what is shown of the text no message has more than eight lines.
const NOTES: usize = 4;

/// Tells why the program of this name is refused, shows the line that is to blame, and says what helps.
pub fn tell_refused<R: rt::Files + AllocGlobal + Eprint>(
    rt: &R,
    program: &str,
    kind: RefusedKind,
    number: u32,
) -> io::Result<()> {
    tell_by(rt, program, kind, number, false)
}

/// The same of a program that may lack declarations.
pub fn tell_refused_loosely<R: rt::Files + AllocGlobal + Eprint>(
    rt: &R,
    program: &str,
    kind: RefusedKind,
    number: u32,
) -> io::Result<()> {
    tell_by(rt, program, kind, number, true)
}

fn tell_by<R: rt::Files + AllocGlobal + Eprint>(
    rt: &R,
    program: &str,
    kind: RefusedKind,
    number: u32,
    loose: bool,
) -> io::Result<()> {
    let named = shown_name(rt.alloc(), program)?;
    if number == 0 {
        return eprintln!(rt; "{named}: {kind}");
    }
    let Some(text) = text_again(rt, program, PROGRAM_LIMIT) else {
        return eprintln!(rt; "{named}:{number}: {kind}");
    };
    let hint = hint_on(rt, &text, kind, number, loose);
    match line_of(text.as_slice(), number) {
        Some(line) => tell_line(rt, named.as_str(), kind, number, line, &hint)?,
        None => return eprintln!(rt; "{named}:{number}: {kind}"),
    }
    show_elsewhere(rt, text.as_slice(), number, &hint)?;
    tell_notes(rt, hint.notes.as_slice())
}

// What is known besides of a refusal.
fn hint_on<R: AllocGlobal>(
    rt: &R,
    text: &Buf,
    kind: RefusedKind,
    number: u32,
    loose: bool,
) -> Hint {
    match why_of(kind) {
        Some(why) if loose => explain_loosely(rt.alloc(), text.as_slice(), why, number),
        Some(why) => explain(rt.alloc(), text.as_slice(), why, number),
        None => Hint::new(rt.alloc()),
    }
}

// The message, where the line can be shown.
fn tell_line<R: AllocGlobal + Eprint>(
    rt: &R,
    program: &str,
    kind: RefusedKind,
    number: u32,
    line: Line<'_>,
    hint: &Hint,
) -> io::Result<()> {
    let column = column_in(line, hint);
    if hint.sentence.is_empty() {
        eprintln!(rt; "{program}:{number}: {kind}")?;
    } else {
        let sentence = shown(rt.alloc(), hint.sentence.as_slice(), TOLD)?;
        match column {
            Some(column) => eprintln!(rt; "{program}:{number}:{column}: {sentence}")?,
            None => eprintln!(rt; "{program}:{number}: {sentence}")?,
        }
    }
    show(rt, u64::from(number), line.bytes)?;
    match column {
        Some(column) => show_part(rt, line, column, hint),
        None => Ok(()),
    }
}

// Points at the part to blame, which begins in this column of a line.
fn show_part<R: AllocGlobal + Eprint>(
    rt: &R,
    line: Line<'_>,
    column: usize,
    hint: &Hint,
) -> io::Result<()> {
    let first = hint.first.saturating_sub(line.first);
    let part = between(line.bytes, first, first.saturating_add(hint.length));
    show_caret(rt, line, column, characters(part))
}

// Shows the part to blame where it is on another line than the refusal, as in a statement of several lines.
fn show_elsewhere<R: AllocGlobal + Eprint>(
    rt: &R,
    text: &[u8],
    number: u32,
    hint: &Hint,
) -> io::Result<()> {
    if hint.length == 0 {
        return Ok(());
    }
    let own = u32::try_from(line_number(text, hint.first)).unwrap_or(u32::MAX);
    if own == number {
        return Ok(());
    }
    let Some(line) = line_of(text, own) else {
        return Ok(());
    };
    match column_in(line, hint) {
        Some(column) => {
            show(rt, u64::from(own), line.bytes)?;
            show_part(rt, line, column, hint)
        }
        None => Ok(()),
    }
}

/// Shows a line and its number.
pub fn show<R: AllocGlobal + Eprint>(rt: &R, number: u64, line: &[u8]) -> io::Result<()> {
    let line = shown(rt.alloc(), line, SHOWN)?;
    eprintln!(rt; "{number:>5} | {line}")
}

// The column, counted from 1, of the part to blame, where it is on the line. Characters are counted.
fn column_in(line: Line<'_>, hint: &Hint) -> Option<usize> {
    if hint.length == 0 {
        return None;
    }
    let place = hint.first.checked_sub(line.first)?;
    if place > line.bytes.len() {
        return None;
    }
    let (before, _) = line.bytes.split_at(place);
    let column = characters(before).saturating_add(1);
    if column > SHOWN { None } else { Some(column) }
}

// How many characters begin in these bytes.
fn characters(bytes: &[u8]) -> usize {
    bytes.iter().filter(|byte| **byte & 0xC0 != 0x80).count()
}

// Points at the part to blame, as far as it is on the line.
fn show_caret<R: AllocGlobal + Eprint>(
    rt: &R,
    line: Line<'_>,
    column: usize,
    length: usize,
) -> io::Result<()> {
    let room = characters(line.bytes)
        .min(SHOWN)
        .saturating_sub(column)
        .saturating_add(1);
    let mut marks = String::new(rt.alloc());
    for _space in 1..column {
        marks.push(' ')?;
    }
    for _mark in 0..length.min(room).max(1) {
        marks.push('^')?;
    }
    eprintln!(rt; "      | {marks}")
}

/// Tells the lines that help, of which there may be few.
pub fn tell_notes<R: AllocGlobal + Eprint>(rt: &R, notes: &[u8]) -> io::Result<()> {
    let mut rest = notes;
    for _note in 0..NOTES {
        if rest.is_empty() {
            return Ok(());
        }
        let length = rest.iter().take_while(|byte| **byte != b'\n').count();
        let (note, behind) = rest.split_at(length.min(rest.len()));
        let note = shown(rt.alloc(), note, TOLD)?;
        eprintln!(rt; "{note}")?;
        rest = match behind {
            [_, others @ ..] => others,
            [] => &[],
        };
    }
    Ok(())
}
