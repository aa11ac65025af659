//! New names for what stands in a text.

use crate::columns::range_of;
use crate::objects::{Object, add};
use crate::question::Question;
use crate::uses::{asked_place, name_at, same_names, tokens_of, tree_of};
use da_front::read_resolved;
use da_lex::{TokenKind, lex};
use da_values::{Buf, List};
use name_places::{Named, names_of};
use serde_json::Value;
use std::alloc::Global;
use text_hints::between;

/// The range of the name at a place, or `null` where there is none that can be changed.
pub fn prepare_rename(question: &Question<'_>) -> Option<Value> {
    let place = asked_place(question)?;
    Some(range_at(question, place).unwrap_or(Value::Null))
}

fn range_at(question: &Question<'_>, place: usize) -> Option<Value> {
    let alloc = question.alloc;
    let tree = tree_of(alloc, question.text)?;
    let tokens = tokens_of(alloc, question.text)?;
    let names = names_of(alloc, question.text, tokens.list.as_slice(), &tree);
    range_in(question, names.as_slice(), place)
}

fn range_in(question: &Question<'_>, names: &[Named<'_>], place: usize) -> Option<Value> {
    let name = name_at(names, place)?;
    let length = name.name.len();
    Some(range_of(question.alloc, question.text, name.first, length))
}

/// The changes that give what stands at a place another name; none where that is no name. It is refused where the new name is no name
/// of the language, or where the rules of names do not allow it there.
pub fn rename(question: &Question<'_>) -> Option<Value> {
    let place = asked_place(question)?;
    let params = question.value.get("params")?;
    let new = params.get("newName")?.as_str()?;
    if !is_name(question.alloc, new.as_bytes()) {
        return None;
    }
    let Some(edits) = edits_at(question, place, new.as_bytes()) else {
        return Some(changes_of(question, Vec::new(question.alloc)));
    };
    Some(changes_of(question, edits?))
}

// The changes, or `None` within where they are not allowed; `None` where nothing is known of the text.
fn edits_at(question: &Question<'_>, place: usize, new: &[u8]) -> Option<Option<Vec<Value>>> {
    let alloc = question.alloc;
    let tree = tree_of(alloc, question.text)?;
    let tokens = tokens_of(alloc, question.text)?;
    let names = names_of(alloc, question.text, tokens.list.as_slice(), &tree);
    let same = same_names(alloc, names.as_slice(), place);
    Some(edits_of(question, same.as_slice(), new))
}

fn edits_of(question: &Question<'_>, names: &[Named<'_>], new: &[u8]) -> Option<Vec<Value>> {
    let other = with_name(question.alloc, question.text, names, new)?;
    if !keeps_names(question.alloc, question.text, other.as_slice()) {
        return None;
    }
    let mut edits = Vec::new(question.alloc);
    for one in names {
        add(edit(question, one.first, one.name.len(), new), &mut edits);
    }
    Some(edits)
}

// A text with another name in some places, which are in its order.
fn with_name(alloc: Global, text: &[u8], names: &[Named<'_>], new: &[u8]) -> Option<Buf> {
    let mut other = List::new(alloc);
    let mut place = 0usize;
    for one in names {
        other.append(between(text, place, one.first)).ok()?;
        other.append(new).ok()?;
        place = one.first.saturating_add(one.name.len());
    }
    other.append(between(text, place, text.len())).ok()?;
    Some(other)
}

// Whether a text keeps the rules of names, where another one does.
fn keeps_names(alloc: Global, old: &[u8], new: &[u8]) -> bool {
    !resolves(alloc, old) || resolves(alloc, new)
}

fn resolves(alloc: Global, text: &[u8]) -> bool {
    read_resolved(alloc, text).is_ok()
}

// Whether a text is a name of the language and nothing else.
fn is_name(alloc: Global, text: &[u8]) -> bool {
    if text.len() > 1_024 {
        return false;
    }
    let Ok(tokens) = lex(alloc, text) else {
        return false;
    };
    match tokens.list.as_slice() {
        [token, ..] => token.kind == TokenKind::Name && token.length as usize == text.len(),
        [] => false,
    }
}

/// A change of so many bytes at a place.
pub fn edit(question: &Question<'_>, first: usize, length: usize, new: &[u8]) -> Value {
    let alloc = question.alloc;
    let mut object = Object::new(alloc);
    object.put("range", range_of(alloc, question.text, first, length));
    object.text("newText", new);
    object.done()
}

/// Changes of the document.
pub fn changes_of(question: &Question<'_>, edits: Vec<Value>) -> Value {
    let alloc = question.alloc;
    let mut changes = Object::new(alloc);
    changes.put(question.uri, Value::Array(edits));
    let mut object = Object::new(alloc);
    object.put("changes", changes.done());
    object.done()
}
