//! What the server can do.

use crate::objects::{Object, add, text_value};
use serde_json::Value;
use std::alloc::Global;

/// What the server can do, as `initialize` is answered.
pub fn abilities(alloc: Global) -> Value {
    let mut server = Object::new(alloc);
    server.text("name", b"dalgo");
    let mut object = Object::new(alloc);
    object.put("capabilities", capabilities(alloc));
    object.put("serverInfo", server.done());
    object.done()
}

fn capabilities(alloc: Global) -> Value {
    let mut can = Object::new(alloc);
    can.text("positionEncoding", b"utf-16");
    can.number("textDocumentSync", 1);
    can.truth("hoverProvider", true);
    can.truth("definitionProvider", true);
    can.truth("referencesProvider", true);
    can.truth("documentSymbolProvider", true);
    can.put("renameProvider", rename_ability(alloc));
    can.put("codeActionProvider", action_ability(alloc));
    can.put("completionProvider", completion_ability(alloc));
    can.put("codeLensProvider", Object::new(alloc).done());
    can.done()
}

fn rename_ability(alloc: Global) -> Value {
    let mut object = Object::new(alloc);
    object.truth("prepareProvider", true);
    object.done()
}

// Completions are asked for after a quote too.
fn completion_ability(alloc: Global) -> Value {
    let mut letters = Vec::new(alloc);
    add(text_value(alloc, b"'"), &mut letters);
    let mut object = Object::new(alloc);
    object.put("triggerCharacters", Value::Array(letters));
    object.done()
}

fn action_ability(alloc: Global) -> Value {
    let mut kinds = Vec::new(alloc);
    add(text_value(alloc, b"quickfix"), &mut kinds);
    add(text_value(alloc, b"source"), &mut kinds);
    let mut object = Object::new(alloc);
    object.put("codeActionKinds", Value::Array(kinds));
    object.done()
}
