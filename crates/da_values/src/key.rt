//! Values as keys of a map.
ghost use Rattle.da_values.specs.Keys.{row_writes, text_writes, val_writes};
ghost use Rattle.da_values.specs.Value.{val_of, vals};
ghost use Rattle.std.specs.List.{fold};
ghost use Rattle.std.specs.Prelude.{◌≡◌};

use crate::cmp::{cmp_rows, cmp_values};
use crate::str::Str;
use crate::value::{Row, SetVal, Value};
use std::hash::{Hash, Hasher};

impl PartialEq for Value {
    ghost use Rattle.da_values.specs.Keys.{same_value, same_value_equiv};
    ghost use Rattle.da_values.specs.Value.{val_of};
    ghost use Rattle.std.specs.Cmp.{on_per, partial_equiv_from_equiv};

    ghost eq = { λ a b. same_value (val_of a) (val_of b) };

    ghost laws = { on_per val_of (partial_equiv_from_equiv same_value_equiv) };

    fn eq(&self, other: &Self) -> bool {
        cmp_values(self, other).is_eq()
    }
}

impl Eq for Value {
    ghost use Rattle.da_values.specs.Keys.{same_value_equiv};
    ghost use Rattle.da_values.specs.Value.{val_of};
    ghost use Rattle.std.specs.Cmp.{on_equiv};

    ghost laws = { on_equiv val_of same_value_equiv };
}

impl Hash for Value {
    ghost use Rattle.da_values.specs.Keys.{same_value_alike, val_writes};
    ghost use Rattle.da_values.specs.Value.{val_of};
    ghost use Rattle.std.specs.Hash.{on_Alike};

    ghost hash_input = { λ v. val_writes (val_of v) };

    ghost respects_eq = { (on_Alike val_of same_value_alike).fed };

    fn hash<H: Hasher>(&self, state: &mut H) {
        feed_value(self, state);
    }
}

impl PartialEq for Row {
    ghost use Rattle.da_values.specs.Keys.{same_row, same_row_equiv};
    ghost use Rattle.std.specs.Cmp.{partial_equiv_from_equiv};

    ghost eq = { same_row };

    ghost laws = { partial_equiv_from_equiv same_row_equiv };

    fn eq(&self, other: &Self) -> bool {
        cmp_rows(self.as_slice(), other.as_slice()).is_eq()
    }
}

impl Eq for Row {
    ghost use Rattle.da_values.specs.Keys.{same_row_equiv};

    ghost laws = { same_row_equiv };
}

impl Hash for Row {
    ghost use Rattle.da_values.specs.Keys.{row_writes, same_row_alike};

    ghost hash_input = { row_writes };

    ghost respects_eq = { same_row_alike.fed };

    fn hash<H: Hasher>(&self, state: &mut H) {
        feed_values(self.as_slice(), state);
    }
}

impl PartialEq for SetVal {
    ghost use Rattle.da_values.specs.Keys.{same_row, same_row_equiv};
    ghost use Rattle.std.specs.Cmp.{partial_equiv_from_equiv};

    ghost eq = { same_row };

    ghost laws = { partial_equiv_from_equiv same_row_equiv };

    fn eq(&self, other: &Self) -> bool {
        cmp_rows(self.as_slice(), other.as_slice()).is_eq()
    }
}

impl Eq for SetVal {
    ghost use Rattle.da_values.specs.Keys.{same_row_equiv};

    ghost laws = { same_row_equiv };
}

impl Hash for SetVal {
    ghost use Rattle.da_values.specs.Keys.{row_writes, same_row_alike};

    ghost hash_input = { row_writes };

    ghost respects_eq = { same_row_alike.fed };

    fn hash<H: Hasher>(&self, state: &mut H) {
        feed_values(self.as_slice(), state);
    }
}

impl Hash for Str {
    ghost use Rattle.da_values.specs.Keys.{same_text_alike, text_writes};

    ghost hash_input = { text_writes };

    ghost respects_eq = { same_text_alike.fed };

    fn hash<H: Hasher>(&self, state: &mut H) {
        feed_text(self.as_bytes(), state);
    }
}

// Gives a hasher a value.
#[cycle(feed)]
#[tactic(auto, using(crate::proofs::WritesAt::val_writes_of, crate::specs::Layer::weight_of))]
fn feed_value<H: Hasher>(v: &Value, state: &mut H)
    ensures { state.new ≡ fold H.write state.old (val_writes (val_of v.now)) }
{
    match v {
        Value::Int(number) => {
            state.write_u8(0);
            state.write_i128(*number);
        }
        Value::Bool(truth) => {
            state.write_u8(1);
            truth.hash(state);
        }
        Value::Text(text) => {
            state.write_u8(2);
            feed_text(text.as_bytes(), state);
        }
        Value::Proc(process) => {
            state.write_u8(3);
            state.write_u16(*process);
        }
        Value::Tuple(parts) => {
            state.write_u8(4);
            feed_values(parts.as_slice(), state);
        }
        Value::Set(elements) => {
            state.write_u8(5);
            feed_values(elements.as_slice(), state);
        }
    }
}

// Gives a hasher how many values there are, and each of them.
#[cycle(feed)]
#[tactic(auto, using(crate::specs::Layer::weight_part))]
fn feed_values<H: Hasher>(values: &[Value], state: &mut H)
    ensures { state.new ≡ fold H.write state.old (row_writes (vals values.now)) }
{
    state.write_usize(values.len());
    for value in values {
        feed_value(value, state);
    }
}

// Gives a hasher how many bytes there are, and all of them at once.
fn feed_text<H: Hasher>(bytes: &[u8], state: &mut H)
    ensures { state.new ≡ fold H.write state.old (text_writes bytes.now) }
{
    state.write_usize(bytes.len());
    state.write(bytes);
}
