//! What is known of a name, and of a query.

use crate::columns::range_of;
use crate::declaring::put_message;
use crate::drafts::{Draft, draft_of};
use crate::label_numbers::tell_label;
use crate::objects::Object;
use crate::question::Question;
use crate::uses::{asked_place, declared_at, name_at, tokens_of};
use da_hints::{Role, role_name};
use da_lang::Tree;
use da_lex::Token;
use name_places::{Kind, Named, names_of};
use query_places::{query_at, tell_query};
use serde_json::Value;
use std::alloc::Global;
use text_hints::Phrase;

/// What is known of the name at a place, or of the query around it; `null` where there is neither.
pub fn hover(question: &Question<'_>) -> Option<Value> {
    let place = asked_place(question)?;
    Some(hover_at(question, place).unwrap_or(Value::Null))
}

fn hover_at(question: &Question<'_>, place: usize) -> Option<Value> {
    let alloc = question.alloc;
    let text = question.text;
    let draft = draft_of(alloc, text)?;
    let tokens = tokens_of(alloc, text)?;
    let names = names_of(alloc, text, tokens.list.as_slice(), &draft.tree);
    match hover_name(question, &draft, names.as_slice(), place) {
        Some(told) => Some(told),
        None => hover_query(question, &draft.tree, tokens.list.as_slice(), place),
    }
}

// What is known of the name at a place.
fn hover_name(
    question: &Question<'_>,
    draft: &Draft,
    names: &[Named<'_>],
    place: usize,
) -> Option<Value> {
    let alloc = question.alloc;
    let text = question.text;
    let name = name_at(names, place)?;
    let mut told = Phrase::new(alloc);
    tell(alloc, text, draft, &name, &mut told);
    if draft.lacks(&name) {
        tell_lacking(&name, &mut told);
    } else if draft.is_strange(alloc, text, &name) {
        told.put(b"\nnot in scope here");
    } else {
        tell_place(question, names, &name, &mut told);
    }
    Some(hover_of(question, &told, name.first, name.name.len()))
}

// That a tag or a variable of a class is not declared.
fn tell_lacking(name: &Named<'_>, out: &mut Phrase) {
    if let Kind::Variable(_) = name.kind {
        out.put(b"\n");
        out.put(role_name(Role::ClassVariable));
    }
    out.put(b"\nnot declared: this is what infer finds");
}

// What a variable is, the numbers of a label, and the line of the declaration.
fn tell_place(question: &Question<'_>, names: &[Named<'_>], name: &Named<'_>, out: &mut Phrase) {
    if let Kind::Variable(role) = name.kind {
        out.put(b"\n");
        out.put(role_name(role));
    }
    if let Some(found) = declared_at(names, name) {
        if matches!(name.kind, Kind::Label) {
            tell_label(question.alloc, question.text, names, &found, out);
        }
        tell_line(&found, out);
    }
}

// What is known of the query around a place.
fn hover_query(
    question: &Question<'_>,
    tree: &Tree,
    tokens: &[Token],
    place: usize,
) -> Option<Value> {
    let alloc = question.alloc;
    let text = question.text;
    let found = query_at(alloc, text, tree, tokens, place)?;
    let mut told = Phrase::new(alloc);
    tell_query(alloc, text, found, &mut told);
    if told.is_empty() {
        return None;
    }
    let length = found.end.saturating_sub(found.first);
    Some(hover_of(question, &told, found.first, length))
}

// What is told of so many bytes at a place.
fn hover_of(question: &Question<'_>, told: &Phrase, first: usize, length: usize) -> Value {
    let alloc = question.alloc;
    let mut object = Object::new(alloc);
    object.put("contents", contents(alloc, told.as_slice()));
    object.put("range", range_of(alloc, question.text, first, length));
    object.done()
}

// A text without marks.
fn contents(alloc: Global, told: &[u8]) -> Value {
    let mut object = Object::new(alloc);
    object.text("kind", b"plaintext");
    object.text("value", told);
    object.done()
}

// What a name names.
fn tell(alloc: Global, text: &[u8], draft: &Draft, name: &Named<'_>, out: &mut Phrase) {
    match name.kind {
        Kind::Tag => tell_message(draft.all(), name.name, out),
        Kind::Class => out.fill(b"class $", name.name, b""),
        Kind::Method => out.fill(b"method $", name.name, b""),
        Kind::Label => out.fill(b"label $", name.name, b""),
        Kind::Variable(_) => tell_variable(alloc, text, draft, name, out),
    }
}

// The declarations of a tag.
fn tell_message(tree: &Tree, tag: &[u8], out: &mut Phrase) {
    let mut is_first = true;
    for message in tree.messages.as_slice() {
        if message.tag.as_slice() == tag {
            if !is_first {
                out.put(b"\n");
            }
            is_first = false;
            put_message(message, out);
        }
    }
    if is_first {
        out.fill(b"tag $", tag, b"");
    }
}

// A variable and its type, where it is known.
fn tell_variable(alloc: Global, text: &[u8], draft: &Draft, name: &Named<'_>, out: &mut Phrase) {
    out.put(name.name);
    if let Some(shown) = draft.type_of(alloc, text, name) {
        out.put(b": ");
        out.put(shown.as_slice());
    }
}

// The line of a declaration.
fn tell_line(found: &Named<'_>, out: &mut Phrase) {
    if found.row != 0 {
        out.put(b"\nline ");
        out.number(u64::from(found.row));
    }
}
