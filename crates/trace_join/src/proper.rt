//! Values that a program can have.
ghost use Rattle.da_values.specs.Proper.{AreValues, IsValue};
ghost use Rattle.da_values.specs.Str.{IsTextByte};
ghost use Rattle.da_values.specs.Value.{val_of, vals};
ghost use Rattle.std.specs.Int.{w128};
ghost use Rattle.std.specs.List.{All};
ghost use Rattle.std.specs.Prelude.{◌↔◌, FitsSigned, IsTrue};

use da_values::{Str, Value};

/// Whether a value is one that a program can have: each process in it has a number from 1 on. It takes no memory.
#[cycle(proper)]
#[tactic(auto, using(da_values::specs::Layer::weight_of))]
pub(crate) fn is_proper(v: &Value) -> bool
    ensures { IsTrue result ↔ IsValue (val_of v.now) }
{
    match v {
        Value::Int(number) => is_wide(*number),
        Value::Bool(_) => true,
        Value::Text(text) => is_text(text),
        Value::Proc(process) => *process > 0,
        Value::Tuple(parts) => all_proper(parts.as_slice()),
        Value::Set(elements) => all_proper(elements.as_slice()),
    }
}

// Whether each value is one.
#[cycle(proper)]
#[tactic(auto, using(da_values::specs::Layer::weight_part))]
fn all_proper(values: &[Value]) -> bool
    ensures { IsTrue result ↔ AreValues (vals values.now) }
{
    for value in values {
        if !is_proper(value) {
            return false;
        }
    }
    true
}

// Whether an integer lies in an i128, as each does.
fn is_wide(number: i128) -> bool
    ensures { IsTrue result ↔ FitsSigned w128 number }
{
    true
}

// Whether a text holds only bytes that it may hold, as each does.
fn is_text(text: &Str) -> bool
    ensures { IsTrue result ↔ All IsTextByte text.now }
{
    let _bytes = text.as_bytes();
    true
}
