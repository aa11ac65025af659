//! Changes of the text that help against what `check` says of it.

use crate::columns::line_at;
use crate::declaring::declarations;
use crate::objects::{Object, add};
use crate::question::Question;
use crate::refusals::hint_on;
use crate::renaming::{changes_of, edit};
use da_front::{ProgramFault, RefusedKind, read_program};
use da_values::{Buf, List, copy_bytes};
use serde_json::Value;
use std::alloc::Global;
use text_hints::{Hint, between};

/// The changes that help on the lines that a request is about, and the one that adds what is not declared.
pub fn code_actions(question: &Question<'_>) -> Option<Value> {
    let first = line_in(question, "/params/range/start/line")?;
    let last = line_in(question, "/params/range/end/line")?;
    let mut actions = Vec::new(question.alloc);
    if let Some((kind, line)) = refusal_of(question.alloc, question.text) {
        let hint = hint_on(question.alloc, question.text, kind, line);
        put_cure(question, &hint, first, last, &mut actions);
        put_declarations(question, kind, &mut actions);
    }
    Some(Value::Array(actions))
}

// A line of the parameters, counted from 0.
fn line_in(question: &Question<'_>, path: &str) -> Option<u64> {
    question.value.pointer(path).and_then(Value::as_u64)
}

// Why `check` refuses a text, and the line, where it does.
fn refusal_of(alloc: Global, text: &[u8]) -> Option<(RefusedKind, u32)> {
    match read_program(alloc, text) {
        Ok(compiled) => {
            drop(compiled);
            None
        }
        Err(ProgramFault::Memory) => None,
        Err(ProgramFault::Refused { kind, line }) => Some((kind, line)),
    }
}

// The change that helps against a refusal, where it is on one of these lines.
fn put_cure(question: &Question<'_>, hint: &Hint, first: u64, last: u64, actions: &mut Vec<Value>) {
    let line = line_at(question.text, hint.first) as u64;
    if hint.length == 0 || line < first || last < line {
        return;
    }
    if let Some(new) = cure_of(question, hint) {
        let length = blamed_length(question, hint);
        let change = edit(question, hint.first, length, new.as_slice());
        add(action(question, new.as_slice(), change), actions);
    }
}

// A change with its title.
fn action(question: &Question<'_>, new: &[u8], change: Value) -> Value {
    let alloc = question.alloc;
    let mut title = List::new(alloc);
    let _ = title.append(b"write ");
    let _ = title.append(new);
    let mut edits = Vec::new(alloc);
    add(change, &mut edits);
    let mut object = Object::new(alloc);
    object.text("title", title.as_slice());
    object.text("kind", b"quickfix");
    object.truth("isPreferred", true);
    object.put("edit", changes_of(question, edits));
    object.done()
}

// How many bytes are replaced: none where something is put in, and both quotes of a text.
fn blamed_length(question: &Question<'_>, hint: &Hint) -> usize {
    if wants_colon(hint) {
        return 0;
    }
    match quoted_at(question.text, hint.first) {
        Some(inside) => inside.len().saturating_add(2),
        None => hint.length,
    }
}

// What is written in the place of the part to blame.
fn cure_of(question: &Question<'_>, hint: &Hint) -> Option<Buf> {
    let alloc = question.alloc;
    if wants_colon(hint) {
        return copy_bytes(alloc, b":").ok();
    }
    if let Some(inside) = quoted_at(question.text, hint.first) {
        return quoted(alloc, inside);
    }
    let word = word_in(hint.notes.as_slice())?;
    let blamed = between(question.text, hint.first, hint.first.saturating_add(1));
    if blamed == b"'".as_slice() {
        quoted(alloc, word)
    } else {
        copy_bytes(alloc, word).ok()
    }
}

/// A text in its quotes.
pub fn quoted(alloc: Global, inside: &[u8]) -> Option<Buf> {
    let mut text = copy_bytes(alloc, b"'").ok()?;
    text.append(inside).ok()?;
    text.append(b"'").ok()?;
    Some(text)
}

// Whether a colon is all that a line lacks.
fn wants_colon(hint: &Hint) -> bool {
    hint.sentence
        .as_slice()
        .starts_with(b"expected ':', and the line ends here".as_slice())
}

// What stands between two double quotes, the first of which is at a place.
fn quoted_at(text: &[u8], place: usize) -> Option<&[u8]> {
    let rest = between(text, place, text.len());
    let inside = rest.strip_prefix(b"\"".as_slice())?;
    let length = inside
        .iter()
        .take_while(|byte| **byte != b'"' && **byte != b'\n' && **byte != b'\'')
        .count();
    let end = length.saturating_add(1);
    if between(inside, length, end) == b"\"".as_slice() {
        Some(between(inside, 0, length))
    } else {
        None
    }
}

// The word that one of some notes offers: `is 'peer' meant?`, `write true`.
fn word_in(notes: &[u8]) -> Option<&[u8]> {
    for line in notes.split(|byte| *byte == b'\n') {
        if let Some(word) = offered(line) {
            return Some(word);
        }
    }
    None
}

// The word that a note offers.
fn offered(line: &[u8]) -> Option<&[u8]> {
    if let Some(rest) = line.strip_prefix(b"is '".as_slice()) {
        return rest.strip_suffix(b"' meant?".as_slice());
    }
    let word = line.strip_prefix(b"write ".as_slice())?;
    if !word.is_empty() && word.iter().all(|byte| byte.is_ascii_alphabetic()) {
        Some(word)
    } else {
        None
    }
}

// The change that adds what is not declared, where a name is not known or a type is missing.
fn put_declarations(question: &Question<'_>, kind: RefusedKind, actions: &mut Vec<Value>) {
    let may_lack = matches!(
        kind,
        RefusedKind::Unknown | RefusedKind::Syntax | RefusedKind::Types
    );
    if !may_lack {
        return;
    }
    let edits = declarations(question);
    if edits.is_empty() {
        return;
    }
    let mut object = Object::new(question.alloc);
    object.text("title", b"add the declarations that are missing");
    object.text("kind", b"source");
    object.put("edit", changes_of(question, edits));
    add(object.done(), actions);
}
