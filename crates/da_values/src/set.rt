//! Sets of values: a test, an insert and a remove by a binary search.
ghost use Rattle.da_values.specs.Order.{val_cmp};
ghost use Rattle.da_values.specs.Places.{IsAt, IsBetween};
ghost use Rattle.da_values.specs.Sets.{Has, Ascends, set_has, set_insert, set_remove};
ghost use Rattle.da_values.specs.Value.{val_of, vals};
ghost use Rattle.std.specs.Prelude.{◌≡◌, OnOk, OnErr, IfOk, MatchBool, MatchResult};

use crate::cmp::cmp_values;
use crate::list::NoMemory;
use crate::value::{SetVal, Value};

/// Whether a value is an element of a set. It takes no memory.
pub fn set_has(s: &SetVal, v: &Value) -> bool
    ensures value { result ≡ set_has val_cmp s.now (val_of v.now) }
    ensures member { MatchBool result (Has s.now (val_of v.now)) (Has s.now (val_of v.now) → ⊥) }
{
    place(s.as_slice(), v).is_ok()
}

/// Puts a value into a set, and answers whether it is new there. Where memory is refused the value is dropped, and the
/// set is as it was.
pub fn set_insert(s: &mut SetVal, v: Value) -> Result<bool, NoMemory>
    ensures ok { OnOk result (s.new ≡ set_insert val_cmp s.old (val_of v)) }
    ensures fresh { IfOk result (λ fresh. MatchBool fresh (Has s.old (val_of v) → ⊥) (Has s.old (val_of v))) }
    ensures err { OnErr result (s.new ≡ s.old) }
{
    match place(s.as_slice(), &v) {
        Ok(_) => Ok(false),
        Err(at) => {
            s.elements.insert(at, v)?;
            Ok(true)
        }
    }
}

/// Takes a value out of a set, and answers whether it was there. It takes no memory.
pub fn set_remove(s: &mut SetVal, v: &Value) -> bool
    ensures set { s.new ≡ set_remove val_cmp s.old (val_of v.now) }
    ensures there { MatchBool result (Has s.old (val_of v.now)) (Has s.old (val_of v.now) → ⊥) }
{
    match place(s.as_slice(), v) {
        Ok(at) => {
            let _ = s.elements.remove(at);
            true
        }
        Err(_) => false,
    }
}

// Where a value is among ascending ones, or else the place where it belongs.
fn place(elements: &[Value], v: &Value) -> Result<usize, usize>
    requires { Ascends val_cmp (vals elements.now) }
    ensures { MatchResult result
        (IsAt val_cmp (vals elements.now) (val_of v.now))
        (IsBetween val_cmp (vals elements.now) (val_of v.now)) }
{
    elements.binary_search_by(|element| cmp_values(element, v))
}
