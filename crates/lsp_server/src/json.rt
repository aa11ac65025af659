//! Members, items and texts of JSON that a contract speaks of.
ghost use Rattle.serde_json.specs.Data.{null, put as with_member, string};
ghost use Rattle.serde_json.specs.Find.{as_array, as_str, get};
ghost use Rattle.serde_json.specs.View.{items_view, members_view, view};
ghost use Rattle.serde_json.specs.Written.{compact_text, has_float};
ghost use Rattle.std.specs.Prelude.{◌≡◌, [], ◌∷◌, ◌++◌, false, IfOk, OnOk, option_and_then, option_map};

use da_values::{Buf, NoMemory, copy_bytes};
use serde_json::{Map, Value, push, put};
use std::alloc::Global;
use std::str;

/// A text as JSON. Bytes that are not UTF-8 are answered as want of memory.
pub fn text(alloc: Global, bytes: &[u8]) -> Result<Value, NoMemory>
    ensures { IfOk result (λ v. view v ≡ string bytes.now) }
{
    let Ok(text) = str::from_utf8(bytes) else {
        return Err(NoMemory);
    };
    match Value::try_from_str(alloc, text) {
        Ok(value) => Ok(value),
        Err(_) => Err(NoMemory),
    }
}

/// `null`.
pub fn null_value() -> Value
    ensures { view result ≡ null }
{
    Value::Null
}

/// The text with this key, where there is one.
pub fn text_at<'v>(value: &'v Value, key: &str) -> Option<&'v str>
    ensures { option_map (λ t. t.now) result ≡ option_and_then as_str (get key.now (view value.now)) }
{
    match value.get(key) {
        Some(found) => found.as_str(),
        None => None,
    }
}

/// The list with this key, where there is one.
pub fn list_at<'v>(value: &'v Value, key: &str) -> Option<&'v Vec<Value>>
    ensures { option_map (λ list. items_view list.now.items) result ≡ option_and_then as_array (get key.now (view value.now)) }
{
    match value.get(key) {
        Some(found) => found.as_array(),
        None => None,
    }
}

/// Puts a member with this key.
pub fn put_member(
    alloc: Global,
    key: &str,
    value: Value,
    members: &mut Map<String, Value>,
) -> Result<(), NoMemory>
    ensures { OnOk result (members_view members.new.entries ≡ with_member key.now (view value) (members_view members.old.entries)) }
{
    match put(members, alloc, key, value) {
        Ok(()) => Ok(()),
        Err(_) => Err(NoMemory),
    }
}

/// Puts a text with this key.
pub fn put_text(
    alloc: Global,
    key: &str,
    bytes: &[u8],
    members: &mut Map<String, Value>,
) -> Result<(), NoMemory>
    ensures { OnOk result (members_view members.new.entries ≡ with_member key.now (string bytes.now) (members_view members.old.entries)) }
{
    let value = text(alloc, bytes)?;
    put_member(alloc, key, value, members)
}

/// Puts an item after the others.
pub fn put_item(value: Value, values: &mut Vec<Value>) -> Result<(), NoMemory>
    ensures { OnOk result (values.new.items ≡ values.old.items ++ value ∷ []) }
{
    match push(values, value) {
        Ok(()) => Ok(()),
        Err(_) => Err(NoMemory),
    }
}

/// A copy.
pub fn copy_of(value: &Value) -> Result<Value, NoMemory>
    ensures { IfOk result (λ v. view v ≡ view value.now) }
{
    match value.clone() {
        Ok(copy) => Ok(copy),
        Err(_) => Err(NoMemory),
    }
}

/// The compact text of a value.
pub fn written(alloc: Global, value: &Value) -> Result<Buf, NoMemory>
    ensures { IfOk result (λ text. has_float (view value.now) ≡ false → text ≡ compact_text (view value.now)) }
{
    let Ok(text) = value.to_string(alloc) else {
        return Err(NoMemory);
    };
    let copy = copy_bytes(alloc, text.as_bytes())?;
    Ok(copy)
}
