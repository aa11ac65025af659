//! Copies.
ghost use Rattle.da_values.specs.Value.{vals};
ghost use Rattle.std.specs.Prelude.{◌≡◌, IfOk};

use crate::list::{Buf, List, NoMemory};
use crate::value::{Row, SetVal, Value};
use std::alloc::Global;

/// A copy of some bytes.
pub fn copy_bytes(alloc: Global, bytes: &[u8]) -> Result<Buf, NoMemory>
    ensures { IfOk result (λ copy. copy ≡ bytes.now) }
{
    let mut copy = List::new(alloc);
    copy.append(bytes)?;
    Ok(copy)
}

/// A copy of a value.
#[cycle(copy)]
#[tactic(auto, using(crate::specs::Layer::weight_of, crate::specs::Layer::weight_part))]
pub fn copy_value(alloc: Global, v: &Value) -> Result<Value, NoMemory>
    ensures { IfOk result (λ copy. copy ≡ v.now) }
{
    match v {
        Value::Int(number) => Ok(Value::Int(*number)),
        Value::Bool(truth) => Ok(Value::Bool(*truth)),
        Value::Text(text) => Ok(Value::Text(text.copy(alloc)?)),
        Value::Proc(process) => Ok(Value::Proc(*process)),
        Value::Tuple(parts) => Ok(Value::Tuple(Row::from_list(copy_values(
            alloc,
            parts.as_slice(),
        )?))),
        Value::Set(elements) => Ok(Value::Set(SetVal::from_list(copy_values(
            alloc,
            elements.as_slice(),
        )?))),
    }
}

// Copies of some values.
#[cycle(copy)]
#[tactic(auto, using(crate::specs::Layer::weight_of, crate::specs::Layer::weight_part))]
fn copy_values(alloc: Global, values: &[Value]) -> Result<List<Value>, NoMemory>
    ensures { IfOk result (λ copy. copy ≡ values.now) }
{
    let mut copy = List::new(alloc);
    for value in values {
        copy.push(copy_value(alloc, value)?)?;
    }
    Ok(copy)
}
