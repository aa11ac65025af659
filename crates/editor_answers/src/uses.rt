//! Where a thing is declared, and where it is used.

use crate::columns::{place_at, range_of};
use crate::objects::{Object, add, text_value};
use crate::question::Question;
use da_front::{read_tokens, read_tree};
use da_lang::Tree;
use da_lex::Tokens;
use da_values::List;
use name_places::{Named, names_of};
use serde_json::Value;
use std::alloc::Global;

/// The place of the text that a request is about: a line and a column in its parameters.
pub fn asked_place(question: &Question<'_>) -> Option<usize> {
    let position = question.value.pointer("/params/position")?;
    place_of(question.text, position)
}

/// The place of a text that a position is.
pub fn place_of(text: &[u8], position: &Value) -> Option<usize> {
    let line = position.get("line").and_then(Value::as_u64)?;
    let column = position.get("character").and_then(Value::as_u64)?;
    Some(place_at(text, line, column))
}

/// The tree of a text, where it is one of a program.
pub fn tree_of(alloc: Global, text: &[u8]) -> Option<Tree> {
    read_tree(alloc, text).ok()
}

/// The tokens of a text.
pub fn tokens_of(alloc: Global, text: &[u8]) -> Option<Tokens<'_>> {
    read_tokens(alloc, text).ok()
}

/// The name at a place, or directly before it.
pub fn name_at<'t>(names: &[Named<'t>], place: usize) -> Option<Named<'t>> {
    names.iter().find(|one| one.is_at(place)).copied()
}

/// The place where what a name names is declared.
pub fn declared_at<'t>(names: &[Named<'t>], name: &Named<'t>) -> Option<Named<'t>> {
    let found = names.iter().find(|one| one.declares && one.is_same(name));
    match found {
        Some(one) => Some(*one),
        None => names.iter().find(|one| one.is_same(name)).copied(),
    }
}

/// The places of what the name at a place names, in the order of the text.
pub fn same_names<'t>(alloc: Global, names: &[Named<'t>], place: usize) -> List<Named<'t>> {
    let mut same = List::new(alloc);
    if let Some(name) = name_at(names, place) {
        for one in names {
            if one.is_same(&name) {
                let _ = same.push(*one);
            }
        }
    }
    same
}

/// Where what stands at a place is declared; `null` where nothing is known of it.
pub fn definition(question: &Question<'_>) -> Option<Value> {
    let place = asked_place(question)?;
    Some(definition_of(question, place).unwrap_or(Value::Null))
}

fn definition_of(question: &Question<'_>, place: usize) -> Option<Value> {
    let alloc = question.alloc;
    let tree = tree_of(alloc, question.text)?;
    let tokens = tokens_of(alloc, question.text)?;
    let names = names_of(alloc, question.text, tokens.list.as_slice(), &tree);
    definition_in(question, names.as_slice(), place)
}

fn definition_in(question: &Question<'_>, names: &[Named<'_>], place: usize) -> Option<Value> {
    let name = name_at(names, place)?;
    let found = declared_at(names, &name)?;
    Some(location(question, &found))
}

/// Where what stands at a place is used, in the order of the text.
pub fn references(question: &Question<'_>) -> Option<Value> {
    let place = asked_place(question)?;
    let declared = question
        .value
        .pointer("/params/context/includeDeclaration")
        .and_then(Value::as_bool)
        .unwrap_or(true);
    let mut list = Vec::new(question.alloc);
    let _ = put_references(question, place, declared, &mut list);
    Some(Value::Array(list))
}

fn put_references(
    question: &Question<'_>,
    place: usize,
    declared: bool,
    list: &mut Vec<Value>,
) -> Option<()> {
    let alloc = question.alloc;
    let tree = tree_of(alloc, question.text)?;
    let tokens = tokens_of(alloc, question.text)?;
    let names = names_of(alloc, question.text, tokens.list.as_slice(), &tree);
    for one in same_names(alloc, names.as_slice(), place).as_slice() {
        if declared || !one.declares {
            add(location(question, one), list);
        }
    }
    Some(())
}

// A place of the document.
fn location(question: &Question<'_>, name: &Named<'_>) -> Value {
    let alloc = question.alloc;
    let mut object = Object::new(alloc);
    object.put("uri", text_value(alloc, question.uri.as_bytes()));
    object.put(
        "range",
        range_of(alloc, question.text, name.first, name.name.len()),
    );
    object.done()
}
