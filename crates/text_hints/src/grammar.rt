//! Why the tokens of a text begin no program.
use crate::brackets::open_brackets;
use crate::expected::{has, put_expected};
use crate::firsts::FIRSTS;
use crate::gaps::{HEADERS, LINES, QUERIES};
use crate::habits::{MESSAGES, SIGNS, WORDS};
use crate::hint::Hint;
use crate::lines::{between, column_of, line_number};
use crate::misspelt::{tell_first_word, tell_word_before, tell_word_here};
use crate::phrase::Phrase;
use crate::python::{CHANNELS, OUTERMOST, STATEMENTS, VALUES};
use crate::reading::{Source, next_marks, stop_in};
use crate::rules::tell;
use crate::slips::{ACTIONS, PLACES, TAKEN};
use crate::spot::Spot;
use da_lex::lex;
use da_values::Mark;
use std::alloc::Global;

/// Tells at which token a text stops to be the beginning of a program, and what could stand there.
pub fn tell_grammar(alloc: Global, text: &[u8], hint: &mut Hint) {
    tell_in(alloc, Source { text, loose: false }, hint);
}

/// The same of a program whose parameters may lack their types.
pub fn tell_loose_grammar(alloc: Global, text: &[u8], hint: &mut Hint) {
    tell_in(alloc, Source { text, loose: true }, hint);
}

fn tell_in(alloc: Global, source: Source<'_>, hint: &mut Hint) {
    let text = source.text;
    if text.len() > 1_048_576 {
        return;
    }
    let Ok(tokens) = lex(alloc, text) else {
        return;
    };
    let list = tokens.list.as_slice();
    let Some(stop) = stop_in(alloc, source, list) else {
        return;
    };
    let spot = Spot::new(text, list, stop.place);
    blame_spot(spot, hint);
    if stop.deep {
        tell_deep(alloc, spot, hint);
        return;
    }
    let (front, _) = list.split_at(stop.place.min(list.len()));
    let Some(marks) = next_marks(alloc, source, front) else {
        return;
    };
    tell_stop(spot, marks.as_slice(), hint);
    if !tell_cure(alloc, spot, source.loose, marks.as_slice(), hint) {
        tell_open(alloc, spot, marks.as_slice(), hint);
    }
}

// What is to be written, where that is known.
fn tell_cure(alloc: Global, spot: Spot<'_>, loose: bool, marks: &[Mark], hint: &mut Hint) -> bool {
    tell(&FIRSTS, spot, marks, hint)
        || tell_first_word(alloc, spot, loose, marks, hint)
        || (has(marks, Mark::Int) && tell_word_here(alloc, spot, marks, hint))
        || tell_slip(spot, marks, hint)
        || tell_word_before(alloc, spot, loose, hint)
        || tell_python(spot, marks, hint)
        || tell_word_here(alloc, spot, marks, hint)
        || tell(&CHANNELS, spot, marks, hint)
}

// The same of what stands in the place of forms of this language.
fn tell_slip(spot: Spot<'_>, marks: &[Mark], hint: &mut Hint) -> bool {
    tell(&MESSAGES, spot, marks, hint)
        || tell(&SIGNS, spot, marks, hint)
        || tell(&WORDS, spot, marks, hint)
        || tell(&QUERIES, spot, marks, hint)
        || tell(&LINES, spot, marks, hint)
        || tell(&HEADERS, spot, marks, hint)
        || tell(&TAKEN, spot, marks, hint)
        || tell(&PLACES, spot, marks, hint)
        || tell(&ACTIONS, spot, marks, hint)
}

// The same of forms of other languages.
fn tell_python(spot: Spot<'_>, marks: &[Mark], hint: &mut Hint) -> bool {
    tell(&OUTERMOST, spot, marks, hint)
        || tell(&STATEMENTS, spot, marks, hint)
        || tell(&VALUES, spot, marks, hint)
}

// Blames the token at the spot, or the place where it should stand.
fn blame_spot(spot: Spot<'_>, hint: &mut Hint) {
    match spot.tokens.get(spot.place) {
        Some(token) if !spot.is_end() => {
            hint.blame(token.first as usize, (token.length as usize).max(1));
        }
        _ => hint.blame(spot.end_before(), 1),
    }
}

// The sentence: what is expected, and what stands there.
fn tell_stop(spot: Spot<'_>, marks: &[Mark], hint: &mut Hint) {
    if spot.tokens.is_empty() {
        hint.say(b"the text is empty: a program has classes and ends with 'def main():'");
    } else if spot.is_end() {
        tell_end(marks, hint);
    } else if spot.here(Mark::Indent) {
        hint.say(
            b"the indentation of this line is deeper than that of the line before, and no block begins here",
        );
    } else {
        hint.say(b"expected ");
        put_expected(marks, &mut hint.sentence);
        let (form, bytes) = match spot.mark(spot.place) {
            Some(Mark::Newline) => (b", and the line ends here".as_slice(), b"".as_slice()),
            Some(Mark::Dedent) => (
                b", and the block ends before this line".as_slice(),
                b"".as_slice(),
            ),
            Some(Mark::Quoted) => (
                b", and here stands the text @".as_slice(),
                spot.bytes(spot.place),
            ),
            _ => (b", and here stands @".as_slice(), spot.bytes(spot.place)),
        };
        hint.sentence.fill(form, bytes, b"");
    }
}

// The text ends too early.
fn tell_end(marks: &[Mark], hint: &mut Hint) {
    hint.say(b"the end of the text comes too early: ");
    if has(marks, Mark::Def) && has(marks, Mark::Class) {
        hint.say(b"there is no 'def main():' with the processes");
        return;
    }
    hint.say(b"expected ");
    put_expected(marks, &mut hint.sentence);
    if has(marks, Mark::Indent) {
        hint.say(b" below this line");
    }
}

// The innermost bracket that is open, where it could be closed here.
fn tell_open(alloc: Global, spot: Spot<'_>, marks: &[Mark], hint: &mut Hint) {
    let closes = [Mark::CloseParen, Mark::CloseBrace, Mark::CloseBracket];
    if !closes.iter().any(|mark| has(marks, *mark)) {
        return;
    }
    let before = spot.before();
    if let Some(place) = open_brackets(alloc, before).pop() {
        put_bracket(before, place, &mut hint.notes);
        hint.note(b" is open here");
    }
}

// A bracket that is open after a text, and where it stands.
fn put_bracket(before: &[u8], place: usize, out: &mut Phrase) {
    let bracket = between(before, place, place.saturating_add(1));
    out.fill(b"the @ in column ", bracket, b"");
    out.number(column_of(before, place) as u64);
    let line = line_number(before, place);
    if line != line_number(before, before.len()) {
        out.put(b" of line ");
        out.number(line as u64);
    }
}

// One thing more than may be open.
fn tell_deep(alloc: Global, spot: Spot<'_>, hint: &mut Hint) {
    hint.quote(spot.bytes(spot.place));
    hint.say(
        b" opens one thing more here than the 32 that may be open: blocks, brackets, queries, 'not' and '-'",
    );
    let open = open_brackets(alloc, spot.before());
    hint.notes.put(b"of these, ");
    hint.notes.count(open.len(), b"bracket is", b"brackets are");
    hint.note(b" open here");
    hint.note(b"work a part of it out into a variable first, or into a method");
}
