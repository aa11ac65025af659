//! JSON of texts and numbers, and the members of an object.
ghost use Rattle.da_commands.specs.PlanJson.{numbers as numbers_def, texts as texts_def};
ghost use Rattle.serde_json.specs.Data.{put as with_member, string};
ghost use Rattle.serde_json.specs.View.{members_view, view};
ghost use Rattle.std.specs.Prelude.{◌≡◌, [], ◌∷◌, ◌++◌, IfOk, OnOk};

use da_values::{Buf, NoMemory};
use serde_json::{Map, Value, push, put};
use std::alloc::Global;
use std::str;

/// A text as a JSON string. Bytes that are not UTF-8 are answered as want of memory; the texts of a plan are printable
/// ASCII.
pub fn text(alloc: Global, bytes: &[u8]) -> Result<Value, NoMemory>
    ensures { IfOk result (λ v. view v ≡ string bytes.now) }
{
    let Ok(text) = str::from_utf8(bytes) else {
        return Err(NoMemory);
    };
    match Value::try_from_str(alloc, text) {
        Ok(value) => Ok(value),
        Err(_) => Err(NoMemory),
    }
}

/// Texts as a JSON array.
pub fn texts(alloc: Global, lines: &[Buf]) -> Result<Value, NoMemory>
    ensures { IfOk result (λ v. view v ≡ texts_def lines.now) }
{
    let mut values = Vec::new(alloc);
    for line in lines {
        put_value(text(alloc, line.as_slice())?, &mut values)?;
    }
    Ok(Value::Array(values))
}

/// Numbers as a JSON array.
pub fn numbers(alloc: Global, list: &[u32]) -> Result<Value, NoMemory>
    ensures { IfOk result (λ v. view v ≡ numbers_def list.now) }
{
    let mut values = Vec::new(alloc);
    for number in list {
        put_value(Value::from(*number), &mut values)?;
    }
    Ok(Value::Array(values))
}

/// Puts a value after the others.
pub fn put_value(value: Value, values: &mut Vec<Value>) -> Result<(), NoMemory>
    ensures { OnOk result (values.new.items ≡ values.old.items ++ value ∷ []) }
{
    match push(values, value) {
        Ok(()) => Ok(()),
        Err(_) => Err(NoMemory),
    }
}

/// Puts a member with this key.
pub fn put_member(
    alloc: Global,
    key: &str,
    value: Value,
    members: &mut Map<String, Value>,
) -> Result<(), NoMemory>
    ensures { OnOk result (members_view members.new.entries ≡ with_member key.now (view value) (members_view members.old.entries)) }
{
    match put(members, alloc, key, value) {
        Ok(()) => Ok(()),
        Err(_) => Err(NoMemory),
    }
}

/// Puts an array of texts with this key.
pub fn put_texts(
    alloc: Global,
    key: &str,
    lines: &[Buf],
    members: &mut Map<String, Value>,
) -> Result<(), NoMemory>
    ensures { OnOk result (members_view members.new.entries ≡ with_member key.now (texts_def lines.now) (members_view members.old.entries)) }
{
    let array = texts(alloc, lines)?;
    put_member(alloc, key, array, members)
}
