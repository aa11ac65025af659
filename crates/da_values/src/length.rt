//! How many bytes a value takes in a packet.
ghost use Rattle.da_values.specs.Lengths.{encoded_len};
ghost use Rattle.da_values.specs.Value.{val_of, vals};
ghost use Rattle.std.specs.Prelude.{◌≡◌, map, min, sum};

use crate::value::Value;

/// How many bytes a value takes in a packet; from the greatest u64 on, that number. It takes no memory.
#[cycle(length)]
#[tactic(auto, using(crate::proofs::FoldsAt::encoded_len_of, crate::specs::Layer::weight_of))]
pub fn encoded_len(v: &Value) -> u64
    ensures { result ≡ min (encoded_len (val_of v.now)) u64.MAX }
{
    match v {
        Value::Int(_) => 9,
        Value::Bool(_) => 2,
        Value::Text(text) => (text.as_bytes().len() as u64).saturating_add(3),
        Value::Proc(_) => 3,
        Value::Tuple(parts) => total_len(parts.as_slice()).saturating_add(2),
        Value::Set(elements) => total_len(elements.as_slice()).saturating_add(5),
    }
}

#[cycle(length)]
#[tactic(auto, using(crate::specs::Layer::weight_part))]
fn total_len(values: &[Value]) -> u64
    ensures { result ≡ min (sum (map encoded_len (vals values.now))) u64.MAX }
{
    let mut total: u64 = 0;
    for value in values {
        total = total.saturating_add(encoded_len(value));
    }
    total
}
