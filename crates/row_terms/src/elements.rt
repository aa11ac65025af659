//! The elements of the set in a slot.
ghost use Rattle.da_lang.specs.World.{value_in};
ghost use Rattle.da_values.specs.Value.{val_of, vals};
ghost use Rattle.da_values.specs.Views.{elements_of};
ghost use Rattle.std.specs.Prelude.{◌≡◌};

use crate::locals::numbered;
use da_values::{Row, Value};

/// The elements of the set in a slot, or none where there is no set.
pub fn elements_in(slots: &Row, s: u16) -> &[Value]
    ensures { vals result.now ≡ elements_of (value_in slots.now s) }
{
    match numbered(slots, s) {
        Some(v) => elements_of(v),
        None => &[],
    }
}

// The elements of a set, or none of what is none.
#[tactic(auto, using(crate::proofs::TermForms::viewing))]
fn elements_of(v: &Value) -> &[Value]
    ensures { vals result.now ≡ elements_of (val_of v.now) }
{
    match v {
        Value::Set(set) => set.as_slice(),
        _ => &[],
    }
}
