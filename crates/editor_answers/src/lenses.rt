//! Calls of `dalgo` that an editor offers above `main`.

use crate::columns::range_of;
use crate::objects::{Object, add, text_value};
use crate::question::Question;
use crate::uses::tokens_of;
use da_front::read_program;
use da_lex::Token;
use serde_json::Value;
use text_hints::slice_at;

/// The title of each call, and the command of the editor that makes it.
const CALLS: [(&[u8], &[u8]); 3] = [
    (b"walk", b"distalgo.walk"),
    (b"hunt stuck", b"distalgo.stuck"),
    (b"show", b"distalgo.show"),
];

/// A lens for each call, at the word `main`; none where `check` refuses the text.
pub fn code_lenses(question: &Question<'_>) -> Option<Value> {
    let mut list = Vec::new(question.alloc);
    if read_program(question.alloc, question.text).is_ok() {
        put_lenses(question, &mut list);
    }
    Some(Value::Array(list))
}

fn put_lenses(question: &Question<'_>, list: &mut Vec<Value>) {
    let Some(tokens) = tokens_of(question.alloc, question.text) else {
        return;
    };
    for token in tokens.list.as_slice() {
        if slice_at(question.text, token) == b"main".as_slice() {
            put_calls(question, token, list);
            return;
        }
    }
}

fn put_calls(question: &Question<'_>, token: &Token, list: &mut Vec<Value>) {
    for call in &CALLS {
        add(lens(question, token, call.0, call.1), list);
    }
}

// A lens at a token, with its title and its command, whose argument is the URI of the document.
fn lens(question: &Question<'_>, token: &Token, title: &[u8], command: &[u8]) -> Value {
    let alloc = question.alloc;
    let (first, length) = (token.first as usize, token.length as usize);
    let mut arguments = Vec::new(alloc);
    add(text_value(alloc, question.uri.as_bytes()), &mut arguments);
    let mut call = Object::new(alloc);
    call.text("title", title);
    call.text("command", command);
    call.put("arguments", Value::Array(arguments));
    let mut object = Object::new(alloc);
    object.put("range", range_of(alloc, question.text, first, length));
    object.put("command", call.done());
    object.done()
}
