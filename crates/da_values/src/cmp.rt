//! The order of values.
ghost use Rattle.da_values.specs.Layer.{layer};
ghost use Rattle.da_values.specs.Order.{kind as place_of_kind, val_cmp, row_cmp};
ghost use Rattle.da_values.specs.Value.{val_of, vals};
ghost use Rattle.std.specs.Prelude.{◌≡◌};

use crate::value::Value;
use std::cmp::Ordering;

/// Which of two values comes first: integers, truth values, texts, processes, tuples, sets; integers and processes by
/// number, `false` before `true`, texts by their bytes, tuples and sets element by element, a proper prefix first. It
/// takes no memory.
#[cycle(cmp)]
#[tactic(auto, using(crate::proofs::OrderAt::val_cmp_of, crate::specs::Layer::weight_of))]
pub fn cmp_values(a: &Value, b: &Value) -> Ordering
    ensures { result ≡ val_cmp (val_of a.now) (val_of b.now) }
{
    match a {
        Value::Int(left) => match b {
            Value::Int(right) => left.cmp(right),
            _ => kind(a).cmp(&kind(b)),
        },
        Value::Bool(left) => match b {
            Value::Bool(right) => left.cmp(right),
            _ => kind(a).cmp(&kind(b)),
        },
        Value::Text(left) => match b {
            Value::Text(right) => left.as_bytes().cmp(right.as_bytes()),
            _ => kind(a).cmp(&kind(b)),
        },
        Value::Proc(left) => match b {
            Value::Proc(right) => left.cmp(right),
            _ => kind(a).cmp(&kind(b)),
        },
        Value::Tuple(left) => match b {
            Value::Tuple(right) => cmp_rows(left.as_slice(), right.as_slice()),
            _ => kind(a).cmp(&kind(b)),
        },
        Value::Set(left) => match b {
            Value::Set(right) => cmp_rows(left.as_slice(), right.as_slice()),
            _ => kind(a).cmp(&kind(b)),
        },
    }
}

/// Which of two rows of values comes first: value by value, a proper prefix first. It takes no memory.
#[cycle(cmp)]
pub fn cmp_rows(a: &[Value], b: &[Value]) -> Ordering
    ensures { result ≡ row_cmp (vals a.now) (vals b.now) }
{
    let mut left = a;
    let mut right = b;
    while let [x, rest @ ..] = left {
        match right {
            [] => return Ordering::Greater,
            [y, more @ ..] => match cmp_values(x, y) {
                Ordering::Less => return Ordering::Less,
                Ordering::Equal => {
                    left = rest;
                    right = more;
                }
                Ordering::Greater => return Ordering::Greater,
            },
        }
    }
    if right.is_empty() {
        Ordering::Equal
    } else {
        Ordering::Less
    }
}

// The place of a value's kind among the kinds.
fn kind(v: &Value) -> u8
    ensures { result ≡ place_of_kind (layer v.now) }
{
    match v {
        Value::Int(_) => 0,
        Value::Bool(_) => 1,
        Value::Text(_) => 2,
        Value::Proc(_) => 3,
        Value::Tuple(_) => 4,
        Value::Set(_) => 5,
    }
}
