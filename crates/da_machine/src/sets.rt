//! Sets of values that come in any order.
ghost use Rattle.da_values.specs.Order.{val_cmp};
ghost use Rattle.da_values.specs.Sets.{canon};
ghost use Rattle.da_values.specs.Value.{vals};
ghost use Rattle.std.specs.Prelude.{◌≡◌, [], ◌∷◌, ◌++◌, IfOk, OnOk};

use da_values::{NoMemory, SetVal, Value, cmp_values, copy_value, set_insert};
use std::alloc::Global;

/// The set of some values. They are sorted first, so that each new one goes to the end of the set.
pub fn set_of_all(alloc: Global, values: Vec<Value>) -> Result<SetVal, NoMemory>
    ensures { IfOk result (λ set. set ≡ canon val_cmp (vals values.items)) }
{
    let sorted = descending(values)?;
    set_from_last(alloc, sorted)
}

// The same values, the least one last.
#[tactic(auto, using(crate::proofs::Permuted::canon_permuted))]
fn descending(values: Vec<Value>) -> Result<Vec<Value>, NoMemory>
    ensures { IfOk result (λ sorted. canon val_cmp (vals sorted.items) ≡ canon val_cmp (vals values.items)) }
{
    let mut sorted = values;
    match sorted.sort_by(|a, b| cmp_values(b, a)) {
        Ok(()) => Ok(sorted),
        Err(_) => Err(NoMemory),
    }
}

// The set of some values, which are put into it from the last to the first.
fn set_from_last(alloc: Global, values: Vec<Value>) -> Result<SetVal, NoMemory>
    ensures { IfOk result (λ set. set ≡ canon val_cmp (vals values.items)) }
{
    let mut left = values;
    let mut set = SetVal::new(alloc);
    'values: while let Some(value) = left.pop() {
        let _ = set_insert(&mut set, value)?;
    }
    Ok(set)
}

/// Puts a value after others.
pub fn add_value(values: &mut Vec<Value>, value: Value) -> Result<(), NoMemory>
    ensures { OnOk result (values.new.items ≡ values.old.items ++ value ∷ []) }
{
    match values.push(value) {
        Ok(()) => Ok(()),
        Err(_) => Err(NoMemory),
    }
}

/// Puts copies of some values after others.
pub fn add_copies(alloc: Global, copies: &mut Vec<Value>, values: &[Value]) -> Result<(), NoMemory>
    ensures { OnOk result (copies.new.items ≡ copies.old.items ++ values.now) }
{
    'values: for value in values {
        add_value(copies, copy_value(alloc, value)?)?;
    }
    Ok(())
}
