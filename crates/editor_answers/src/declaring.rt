//! Changes that add the declarations which a program lacks, as `infer` finds them. All else stays as it is written.

use crate::objects::add;
use crate::question::Question;
use crate::renaming::edit;
use crate::uses::tokens_of;
use da_bodies::body_of;
use da_hints::{loose_of, put_type};
use da_infer::infer;
use da_lang::{ClassTree, Member, MessageDecl, Tree, Ty};
use da_lex::Token;
use da_parse::{LooseTree, OpenParam};
use name_places::line_of_member;
use serde_json::Value;
use std::alloc::Global;
use text_hints::{Phrase, between, line_of, slice_at};

/// The changes; none where nothing is lacking or no declarations fit.
pub fn declarations(question: &Question<'_>) -> Vec<Value> {
    let mut edits = Vec::new(question.alloc);
    let Some(loose) = loose_of(question.alloc, question.text) else {
        return edits;
    };
    if let Ok(tree) = infer(question.alloc, &loose) {
        put_messages(question, &loose.tree, &tree, &mut edits);
        put_variables(question, &loose.tree, &tree, &mut edits);
        put_params(question, &loose, &tree, &mut edits);
    }
    edits
}

// The lines of messages, before the first class.
fn put_messages(question: &Question<'_>, old: &Tree, new: &Tree, edits: &mut Vec<Value>) {
    let mut lines = Phrase::new(question.alloc);
    for message in new.messages.as_slice() {
        if !has_message(old, message) {
            put_message(message, &mut lines);
            lines.put(b"\n");
        }
    }
    if let Some(class) = old.classes.as_slice().first() {
        put_lines(question, class.line, &lines, edits);
    }
}

fn has_message(tree: &Tree, message: &MessageDecl) -> bool {
    for one in tree.messages.as_slice() {
        if one.tag.as_slice() == message.tag.as_slice() && one.parts.len() == message.parts.len() {
            return true;
        }
    }
    false
}

/// The declaration of a message, without the end of its line.
pub fn put_message(message: &MessageDecl, out: &mut Phrase) {
    out.put(b"message ");
    out.put(message.tag.as_slice());
    out.put(b"(");
    for (place, part) in message.parts.as_slice().iter().enumerate() {
        out.put(if place == 0 { b"" } else { b", " });
        put_type(part, out);
    }
    out.put(b")");
}

// Lines that are put in before a line.
fn put_lines(question: &Question<'_>, number: u32, lines: &Phrase, edits: &mut Vec<Value>) {
    if lines.is_empty() {
        return;
    }
    if let Some(line) = line_of(question.text, number) {
        add(edit(question, line.first, 0, lines.as_slice()), edits);
    }
}

// The lines of variables, before the first member of their class.
fn put_variables(question: &Question<'_>, old: &Tree, new: &Tree, edits: &mut Vec<Value>) {
    for (place, class) in old.classes.as_slice().iter().enumerate() {
        if let Some(other) = new.classes.get(place) {
            put_class_variables(question, class, other, edits);
        }
    }
}

fn put_class_variables(
    question: &Question<'_>,
    old: &ClassTree,
    new: &ClassTree,
    edits: &mut Vec<Value>,
) {
    let Some(first) = old.members.as_slice().first() else {
        return;
    };
    let number = line_of_member(first);
    let level = level_of(question.text, number);
    let mut lines = Phrase::new(question.alloc);
    for member in new.members.as_slice() {
        if let Member::Var { name, ty, .. } = member {
            if !has_variable(old, name.as_slice()) {
                put_variable(level, name.as_slice(), ty, &mut lines);
            }
        }
    }
    put_lines(question, number, &lines, edits);
}

// The spaces before a line.
fn level_of(text: &[u8], number: u32) -> &[u8] {
    match line_of(text, number) {
        Some(line) => {
            let count = line.bytes.iter().take_while(|byte| **byte == b' ').count();
            between(line.bytes, 0, count)
        }
        None => b"",
    }
}

/// Whether a class declares a variable.
pub fn has_variable(class: &ClassTree, wanted: &[u8]) -> bool {
    for member in class.members.as_slice() {
        if let Member::Var { name, .. } = member {
            if name.as_slice() == wanted {
                return true;
            }
        }
    }
    false
}

fn put_variable(level: &[u8], name: &[u8], ty: &Ty, out: &mut Phrase) {
    out.put(level);
    out.put(b"var ");
    out.put(name);
    out.put(b": ");
    put_type(ty, out);
    out.put(b"\n");
}

// The types of parameters, each behind its name.
fn put_params(question: &Question<'_>, loose: &LooseTree, new: &Tree, edits: &mut Vec<Value>) {
    let Some(tokens) = tokens_of(question.alloc, question.text) else {
        return;
    };
    for open in loose.untyped.as_slice() {
        let _ = put_param(
            question,
            tokens.list.as_slice(),
            &loose.tree,
            new,
            *open,
            edits,
        );
    }
}

fn put_param(
    question: &Question<'_>,
    tokens: &[Token],
    old: &Tree,
    new: &Tree,
    open: OpenParam,
    edits: &mut Vec<Value>,
) -> Option<()> {
    let class = open.class as usize;
    let member = old.classes.get(class)?.members.get(open.member as usize)?;
    let line = line_of_member(member);
    let name = param_name(member, open.param as usize)?;
    let shown = param_type(
        question.alloc,
        new.classes.get(class)?,
        line,
        open.param as usize,
    )?;
    let place = end_of_name(question.text, tokens, line, name)?;
    add(edit(question, place, 0, shown.as_slice()), edits);
    Some(())
}

// The name of a parameter of a member.
fn param_name(member: &Member, place: usize) -> Option<&[u8]> {
    let body = body_of(member)?;
    Some(body.params.get(place)?.name.as_slice())
}

// The type of a parameter of the body on a line, as it stands behind the name.
fn param_type(alloc: Global, class: &ClassTree, line: u32, place: usize) -> Option<Phrase> {
    for member in class.members.as_slice() {
        if let Some(body) = body_of(member) {
            if body.line == line {
                let param = body.params.get(place)?;
                let mut shown = Phrase::new(alloc);
                shown.put(b": ");
                put_type(&param.ty, &mut shown);
                return Some(shown);
            }
        }
    }
    None
}

// The place behind the first name of these bytes in the parentheses of a header.
fn end_of_name(text: &[u8], tokens: &[Token], line: u32, name: &[u8]) -> Option<usize> {
    let mut open = false;
    for token in tokens {
        let bytes = slice_at(text, token);
        if token.line >= line && bytes == b"(".as_slice() {
            open = true;
        }
        if open && bytes == name {
            return Some((token.first as usize).saturating_add(token.length as usize));
        }
    }
    None
}
