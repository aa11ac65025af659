//! What the server sends.
ghost use Rattle.lsp_server.specs.Letters as spec;
ghost use Rattle.lsp_server.specs.Letters.{IsSent};
ghost use Rattle.serde_json.specs.Data.{null};
ghost use Rattle.serde_json.specs.View.{view};
ghost use Rattle.std.specs.Prelude.{◌≡◌, IfOk};

use crate::fault::{Fault, code_value, text_of};
use crate::json::{copy_of, null_value, put_member, put_text, written};
use da_values::{Buf, List, NoMemory};
use lsp_frames::put_frame;
use serde_json::{Map, Value};
use std::alloc::Global;

/// The bytes that answer the request of this id.
pub fn answer(alloc: Global, id: &Value, done: Value) -> Result<Buf, NoMemory>
    ensures { IfOk result (IsSent (spec.answer (view id.now) (view done))) }
{
    let letter = answer_value(alloc, id, done)?;
    framed(alloc, &letter)
}

/// The bytes that answer it with `null`.
pub fn answer_null(alloc: Global, id: &Value) -> Result<Buf, NoMemory>
    ensures { IfOk result (IsSent (spec.answer (view id.now) null)) }
{
    let none = null_value();
    answer(alloc, id, none)
}

/// The bytes that refuse the request of this id.
pub fn refusal(alloc: Global, id: &Value, fault: Fault) -> Result<Buf, NoMemory>
    ensures { IfOk result (IsSent (spec.refusal (view id.now) fault)) }
{
    let letter = refusal_value(alloc, id, fault)?;
    framed(alloc, &letter)
}

/// The bytes that refuse what has no id that is known.
pub fn refusal_of_none(alloc: Global, fault: Fault) -> Result<Buf, NoMemory>
    ensures { IfOk result (IsSent (spec.refusal null fault)) }
{
    let none = null_value();
    refusal(alloc, &none, fault)
}

/// The bytes that tell something unasked.
pub fn notice(alloc: Global, method: &str, params: Value) -> Result<Buf, NoMemory>
    ensures { IfOk result (IsSent (spec.notice method.now (view params))) }
{
    let letter = notice_value(alloc, method, params)?;
    framed(alloc, &letter)
}

// The frame of a value.
fn framed(alloc: Global, letter: &Value) -> Result<Buf, NoMemory>
    ensures { IfOk result (IsSent (view letter.now)) }
{
    let text = written(alloc, letter)?;
    let mut bytes = List::new(alloc);
    put_frame(text.as_slice(), &mut bytes)?;
    Ok(bytes)
}

fn answer_value(alloc: Global, id: &Value, done: Value) -> Result<Value, NoMemory>
    ensures { IfOk result (λ v. view v ≡ spec.answer (view id.now) (view done)) }
{
    let mut members = Map::new(alloc);
    put_member(alloc, "id", copy_of(id)?, &mut members)?;
    put_text(alloc, "jsonrpc", b"2.0", &mut members)?;
    put_member(alloc, "result", done, &mut members)?;
    Ok(Value::Object(members))
}

fn refusal_value(alloc: Global, id: &Value, fault: Fault) -> Result<Value, NoMemory>
    ensures { IfOk result (λ v. view v ≡ spec.refusal (view id.now) fault) }
{
    let mut members = Map::new(alloc);
    put_member(alloc, "error", error_value(alloc, fault)?, &mut members)?;
    put_member(alloc, "id", copy_of(id)?, &mut members)?;
    put_text(alloc, "jsonrpc", b"2.0", &mut members)?;
    Ok(Value::Object(members))
}

fn error_value(alloc: Global, fault: Fault) -> Result<Value, NoMemory>
    ensures { IfOk result (λ v. view v ≡ spec.error fault) }
{
    let mut members = Map::new(alloc);
    put_member(alloc, "code", code_value(fault), &mut members)?;
    put_text(alloc, "message", text_of(fault), &mut members)?;
    Ok(Value::Object(members))
}

fn notice_value(alloc: Global, method: &str, params: Value) -> Result<Value, NoMemory>
    ensures { IfOk result (λ v. view v ≡ spec.notice method.now (view params)) }
{
    let mut members = Map::new(alloc);
    put_text(alloc, "jsonrpc", b"2.0", &mut members)?;
    put_text(alloc, "method", method.as_bytes(), &mut members)?;
    put_member(alloc, "params", params, &mut members)?;
    Ok(Value::Object(members))
}
