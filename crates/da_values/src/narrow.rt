//! Values all of whose integers lie in an i64.
ghost use Rattle.da_values.specs.Narrow.{is_i64 as is_in_i64, is_narrow};
ghost use Rattle.da_values.specs.Value.{val_of, vals};
ghost use Rattle.std.specs.List.{list_all};
ghost use Rattle.std.specs.Prelude.{◌≡◌};

use crate::value::Value;

/// Whether every integer in a value lies in an i64. It takes no memory.
#[cycle(narrow)]
#[tactic(auto, using(crate::proofs::FoldsAt::is_narrow_of, crate::specs::Layer::weight_of))]
pub fn is_narrow(v: &Value) -> bool
    ensures { result ≡ is_narrow (val_of v.now) }
{
    match v {
        Value::Int(number) => is_i64(*number),
        Value::Bool(_) => true,
        Value::Text(_) => true,
        Value::Proc(_) => true,
        Value::Tuple(parts) => all_narrow(parts.as_slice()),
        Value::Set(elements) => all_narrow(elements.as_slice()),
    }
}

#[cycle(narrow)]
#[tactic(auto, using(crate::specs::Layer::weight_part))]
fn all_narrow(values: &[Value]) -> bool
    ensures { result ≡ list_all is_narrow (vals values.now) }
{
    for value in values {
        if !is_narrow(value) {
            return false;
        }
    }
    true
}

fn is_i64(number: i128) -> bool
    ensures { result ≡ is_in_i64 number }
{
    i64::try_from(number).is_ok()
}
