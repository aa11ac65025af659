//! The outline of a document.

use crate::columns::range_of;
use crate::objects::{Object, add};
use crate::question::Question;
use crate::uses::tree_of;
use da_lang::Tree;
use name_places::{Outline, outline_of};
use serde_json::Value;
use text_hints::{between, line_number, line_of};

/// The messages, the classes and their members; an empty list where the text is no program.
pub fn symbols(question: &Question<'_>) -> Option<Value> {
    let list = match tree_of(question.alloc, question.text) {
        Some(tree) => symbols_of(question, &tree),
        None => Vec::new(question.alloc),
    };
    Some(Value::Array(list))
}

fn symbols_of(question: &Question<'_>, tree: &Tree) -> Vec<Value> {
    let alloc = question.alloc;
    let lines = line_number(question.text, question.text.len());
    let lines = u32::try_from(lines).unwrap_or(u32::MAX);
    let things = outline_of(alloc, tree, lines.saturating_add(1));
    let mut list = Vec::new(alloc);
    for (at, thing) in things.as_slice().iter().enumerate() {
        if thing.depth == 0 {
            add(
                symbol(question, thing, inside_of(things.as_slice(), at)),
                &mut list,
            );
        }
    }
    list
}

// The things behind one of them, up to the next that lies in no other.
fn inside_of<'s, 't>(things: &'s [Outline<'t>], at: usize) -> &'s [Outline<'t>] {
    let (_, behind) = things.split_at(at.saturating_add(1).min(things.len()));
    let count = behind.iter().take_while(|one| one.depth != 0).count();
    let (inside, _) = behind.split_at(count.min(behind.len()));
    inside
}

// A thing with those within it.
fn symbol(question: &Question<'_>, thing: &Outline<'_>, inside: &[Outline<'_>]) -> Value {
    let mut children = Vec::new(question.alloc);
    for one in inside {
        add(plain(question, one).done(), &mut children);
    }
    let mut object = plain(question, thing);
    object.put("children", Value::Array(children));
    object.done()
}

// A thing by itself.
fn plain(question: &Question<'_>, thing: &Outline<'_>) -> Object {
    let alloc = question.alloc;
    let text = question.text;
    let first = begin_of(text, thing.line);
    let end = end_before(text, first, begin_of(text, thing.end));
    let place = name_in(text, first, thing.name);
    let mut object = Object::new(alloc);
    object.text("name", thing.name);
    object.number("kind", thing.kind);
    object.put(
        "range",
        range_of(alloc, text, first, end.saturating_sub(first)),
    );
    object.put(
        "selectionRange",
        range_of(alloc, text, place, thing.name.len()),
    );
    object
}

// The place at which a line begins, or the end of the text.
fn begin_of(text: &[u8], number: u32) -> usize {
    match line_of(text, number) {
        Some(line) => line.first,
        None => text.len(),
    }
}

// The end of what stands before a place, without white space.
fn end_before(text: &[u8], first: usize, end: usize) -> usize {
    let inside = between(text, first, end).trim_ascii_end();
    first.saturating_add(inside.len())
}

// Where a name stands on the line that begins at a place.
fn name_in(text: &[u8], first: usize, name: &[u8]) -> usize {
    let rest = between(text, first, text.len());
    let length = rest.iter().take_while(|byte| **byte != b'\n').count();
    let line = between(rest, 0, length);
    for place in 0..line.len() {
        let end = place.saturating_add(name.len());
        if between(line, place, end) == name && is_alone(line, place, end) {
            return first.saturating_add(place);
        }
    }
    first
}

// Whether no byte of a name stands directly before or after.
fn is_alone(line: &[u8], place: usize, end: usize) -> bool {
    let before = between(line, place.saturating_sub(1), place);
    let behind = between(line, end, end.saturating_add(1));
    !before.iter().any(|byte| is_in_name(*byte)) && !behind.iter().any(|byte| is_in_name(*byte))
}

fn is_in_name(byte: u8) -> bool {
    byte.is_ascii_alphanumeric() || byte == b'_'
}
