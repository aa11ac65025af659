//! Notifications: documents that are opened, changed and closed.
ghost use Rattle.lsp_server.specs.Letters.{IsSent};
ghost use Rattle.lsp_server.specs.Notices as spec;
ghost use Rattle.lsp_server.specs.Turns.{change_view};
ghost use Rattle.serde_json.specs.View.{items_view, view};
ghost use Rattle.std.specs.Prelude.{◌≡◌, None, Some, IfOk, option_map};

use crate::checking::diagnostics_of;
use crate::documents::Documents;
use crate::json::{list_at, put_member, put_text, text_at};
use crate::letters::notice;
use da_values::{Buf, List, NoMemory};
use serde_json::{Map, Value};
use std::alloc::Global;

/// What a notification does to a document.
#[derive(Clone, Copy)]
pub enum Change<'v> {
    /// It has this text now.
    Opened { uri: &'v str, text: &'v str },
    /// It is closed.
    Shut { uri: &'v str },
    /// Nothing.
    Other,
}

/// Does what a notification says, and gives the bytes that it is followed by. Where memory is refused it may be done or not.
pub fn note(
    alloc: Global,
    documents: &mut Documents,
    method: &str,
    value: &Value,
) -> Result<Buf, NoMemory>
    ensures { IfOk result (spec.TellsOf (spec.change_of method.now (view value.now))) }
{
    match change_of(method, value) {
        Change::Opened { uri, text } => opened(alloc, documents, uri, text),
        Change::Shut { uri } => shut(alloc, documents, uri),
        Change::Other => Ok(List::new(alloc)),
    }
}

// A document has this text now.
fn opened(alloc: Global, documents: &mut Documents, uri: &str, text: &str) -> Result<Buf, NoMemory>
    ensures { IfOk result (spec.Tells (record { uri = uri.now; text = Some text.now })) }
{
    let bytes = text.as_bytes();
    documents.set(uri, bytes)?;
    let list = diagnostics_of(alloc, bytes)?;
    published(alloc, uri, list)
}

// A document is closed.
fn shut(alloc: Global, documents: &mut Documents, uri: &str) -> Result<Buf, NoMemory>
    ensures { IfOk result (spec.Tells (record { uri = uri.now; text = None })) }
{
    documents.close(uri);
    let none = Vec::new(alloc);
    published(alloc, uri, none)
}

// The bytes that tell the diagnostics of a document.
fn published(alloc: Global, uri: &str, list: Vec<Value>) -> Result<Buf, NoMemory>
    ensures { IfOk result (IsSent (spec.published uri.now (items_view list.items))) }
{
    let mut members = Map::new(alloc);
    put_member(alloc, "diagnostics", Value::Array(list), &mut members)?;
    put_text(alloc, "uri", uri.as_bytes(), &mut members)?;
    notice(
        alloc,
        "textDocument/publishDiagnostics",
        Value::Object(members),
    )
}

// What a notification of this method does.
fn change_of<'v>(method: &str, value: &'v Value) -> Change<'v>
    ensures { change_view result ≡ spec.change_of method.now (view value.now) }
{
    match uri_of(value) {
        Some(uri) => change_to(method, value, uri),
        None => Change::Other,
    }
}

// The same, where it names the document of this URI.
fn change_to<'v>(method: &str, value: &'v Value, uri: &'v str) -> Change<'v>
    ensures { change_view result ≡ spec.change_to method.now (view value.now) uri.now }
{
    if method == "textDocument/didOpen" {
        when_opened(value, uri)
    } else if method == "textDocument/didChange" {
        when_changed(value, uri)
    } else if method == "textDocument/didClose" {
        Change::Shut { uri }
    } else {
        Change::Other
    }
}

// A document of this URI is opened.
fn when_opened<'v>(value: &'v Value, uri: &'v str) -> Change<'v>
    ensures { change_view result ≡ spec.with_text uri.now (spec.opened_text (view value.now)) }
{
    match opened_text(value) {
        Some(text) => Change::Opened { uri, text },
        None => Change::Other,
    }
}

// A document of this URI is changed.
fn when_changed<'v>(value: &'v Value, uri: &'v str) -> Change<'v>
    ensures { change_view result ≡ spec.with_text uri.now (spec.changed_text (view value.now)) }
{
    match changed_text(value) {
        Some(text) => Change::Opened { uri, text },
        None => Change::Other,
    }
}

// The parameters of a message.
fn params_of(value: &Value) -> Option<&Value>
    ensures { option_map (λ v. view v.now) result ≡ spec.params_of (view value.now) }
{
    value.get("params")
}

// The document that the parameters name.
fn document_of(value: &Value) -> Option<&Value>
    ensures { option_map (λ v. view v.now) result ≡ spec.document_of (view value.now) }
{
    match params_of(value) {
        Some(params) => params.get("textDocument"),
        None => None,
    }
}

/// The URI of the document that a message is about.
pub fn uri_of(value: &Value) -> Option<&str>
    ensures { option_map (λ uri. uri.now) result ≡ spec.uri_of (view value.now) }
{
    match document_of(value) {
        Some(document) => text_at(document, "uri"),
        None => None,
    }
}

// The text of a document that is opened.
fn opened_text(value: &Value) -> Option<&str>
    ensures { option_map (λ text. text.now) result ≡ spec.opened_text (view value.now) }
{
    match document_of(value) {
        Some(document) => text_at(document, "text"),
        None => None,
    }
}

// The text of a document that is changed, by its last change.
fn changed_text(value: &Value) -> Option<&str>
    ensures { option_map (λ text. text.now) result ≡ spec.changed_text (view value.now) }
{
    match last_change(value) {
        Some(change) => text_at(change, "text"),
        None => None,
    }
}

// The last change of a document.
fn last_change(value: &Value) -> Option<&Value>
    ensures { option_map (λ v. view v.now) result ≡ spec.last_change (view value.now) }
{
    match changes_of(value) {
        Some(list) => last_of(list),
        None => None,
    }
}

// The last of some values.
fn last_of(list: &Vec<Value>) -> Option<&Value>
    ensures { option_map (λ v. view v.now) result ≡ spec.last_item (items_view list.now.items) }
{
    list.as_slice().last()
}

// The changes of a document.
fn changes_of(value: &Value) -> Option<&Vec<Value>>
    ensures { option_map (λ list. items_view list.now.items) result ≡ spec.changes_of (view value.now) }
{
    match params_of(value) {
        Some(params) => list_at(params, "contentChanges"),
        None => None,
    }
}
