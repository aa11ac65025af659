//! What a message says.
ghost use Rattle.lsp_server.specs.Heard.{Says, SaysNothing, heard, heard_by, is_answer as is_answer_def, is_id as is_id_def};
ghost use Rattle.lsp_server.specs.Message.{heard_of};
ghost use Rattle.serde_json.specs.Data.{Data};
ghost use Rattle.serde_json.specs.Errors.{IsMemory};
ghost use Rattle.serde_json.specs.Find.{as_number, as_str, get, is_float};
ghost use Rattle.serde_json.specs.View.{view};
ghost use Rattle.std.specs.Prelude.{◌≡◌, ◌≢◌, ◌↔◌, ◌&&◌, Bool, false, not, Option, None, Some, IfErr, IfOk, codes, is_some, option_and_then, option_map, unwrap_or};

use crate::json::text_at;
use serde_json::{Error, Value};
use std::alloc::Global;

/// Why a content gives no JSON.
#[derive(Clone, Copy)]
pub enum NoJson {
    /// It is none.
    Unread,
    /// Memory was refused.
    Memory,
}

/// What JSON says.
#[derive(Clone, Copy)]
pub enum Message<'v> {
    /// A request.
    Asks { id: &'v Value, method: &'v str },
    /// A notification.
    Notes { method: &'v str },
    /// An answer of the client.
    Answers,
    /// None of these.
    Invalid,
}

/// The JSON that a content is.
pub fn json_of(alloc: Global, content: &[u8]) -> Result<Value, NoJson>
    ensures says { IfOk result (λ v. Says content.now (view v)) }
    ensures nothing { IfErr result (λ why. why ≢ NoJson.Memory → SaysNothing content.now) }
{
    match Value::from_slice(alloc, content) {
        Ok(value) => Ok(value),
        Err(why) => Err(no_json(&why)),
    }
}

// Why a read failed.
fn no_json(why: &Error) -> NoJson
    ensures { (result ≡ NoJson.Memory) ↔ IsMemory why.now }
{
    if why.is_memory() {
        NoJson::Memory
    } else {
        NoJson::Unread
    }
}

/// What JSON says.
pub fn message_of(value: &Value) -> Message<'_>
    ensures { heard_of result ≡ heard (view value.now) }
{
    match method_of(value) {
        Some(method) => with_method(value, method),
        None => without_method(value),
    }
}

// The method that a message names.
fn method_of(value: &Value) -> Option<&str>
    ensures { option_map (λ m. m.now) result ≡ option_and_then as_str (get (codes "method") (view value.now)) }
{
    text_at(value, "method")
}

// A request, where it has an id, and else a notification.
fn with_method<'v>(value: &'v Value, method: &'v str) -> Message<'v>
    ensures { (done : Bool) → heard_of result ≡ heard_by (Some method.now) (get (codes "id") (view value.now)) done }
{
    match value.get("id") {
        Some(id) => asked(id, method),
        None => Message::Notes { method },
    }
}

// A request, where its id is a text or an integer.
fn asked<'v>(id: &'v Value, method: &'v str) -> Message<'v>
    ensures { (done : Bool) → heard_of result ≡ heard_by (Some method.now) (Some (view id.now)) done }
{
    if is_id(id) {
        Message::Asks { id, method }
    } else {
        Message::Invalid
    }
}

// Whether an id is a text or an integer.
fn is_id(id: &Value) -> bool
    ensures { result ≡ is_id_def (view id.now) }
{
    if id.is_string() {
        return true;
    }
    is_integer(id)
}

fn is_integer(id: &Value) -> bool
    ensures { result ≡ (is_some (as_number (view id.now)) && not (unwrap_or (option_map is_float (as_number (view id.now))) false)) }
{
    id.is_number() && !id.is_f64()
}

// An answer, where it has a result or an error.
fn without_method(value: &Value) -> Message<'_>
    ensures { (id : Option Data) → heard_of result ≡ heard_by None id (is_answer_def (view value.now)) }
{
    if is_answer(value) {
        Message::Answers
    } else {
        Message::Invalid
    }
}

fn is_answer(value: &Value) -> bool
    ensures { result ≡ is_answer_def (view value.now) }
{
    has(value, "result") || has(value, "error")
}

// Whether something has this key.
fn has(value: &Value, key: &str) -> bool
    ensures { result ≡ is_some (get key.now (view value.now)) }
{
    value.get(key).is_some()
}
