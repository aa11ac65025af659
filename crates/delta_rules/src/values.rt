//! The values of slots beside the pool, where terms and patterns read them. So no update takes them out of the pool.
ghost use Rattle.da_lang.specs.World.{or_nothing, value_in, with_slot};
ghost use Rattle.da_values.specs.declared.val.Val.{Val};
ghost use Rattle.da_values.specs.declared.val.Val.TheVariants as val;
ghost use Rattle.da_values.specs.Order.{val_cmp};
ghost use Rattle.da_values.specs.Sets.{Distinct, set_insert as insert_def, set_remove as remove_def};
ghost use Rattle.da_values.specs.Value.{val_of, vals};
ghost use Rattle.da_values.specs.Views.{elements_of as elements_def};
ghost use Rattle.answer_index.specs.Rows.{row_in};
ghost use Rattle.delta_rules.specs.Passing.{IsSwap};
ghost use Rattle.row_pool.specs.Pool.{Holds, Trades};
ghost use Rattle.std.specs.Prelude.{◌≡◌, ◌∷◌, [], IfOk, OnOk, if◌then◌else◌, slice_get, slice_set};

use crate::slots::{Swap, add_to, assign, put, set_in, take_from};
use answer_index::IdRow;
use da_values::{NoMemory, Row, SetVal, Value, copy_value, set_insert, set_remove};
use row_pool::Pool;
use std::alloc::Global;

// Gives the place of a slot a value, if there is such a place.
fn set_at(values: &mut Row, place: usize, v: Value)
    ensures { values.new ≡ slice_set values.old place (val_of v) }
{
    if place >= values.len() {
        return;
    }
    let _ = values.replace(place, v);
}

// Gives a slot a value, if there is such a slot.
fn put_value(values: &mut Row, s: u16, v: Value)
    ensures { values.new ≡ with_slot values.old s (val_of v) }
{
    match usize::from(s).checked_sub(1) {
        Some(place) => set_at(values, place, v),
        None => {}
    }
}

// Takes the set out of the place of a slot, and leaves something else there; the empty set, where there is none.
fn set_from(alloc: Global, values: &mut Row, place: usize) -> SetVal
    ensures set { result ≡ elements_def (or_nothing (slice_get values.old place)) }
    ensures rest { (v : Val) → slice_set values.new place v ≡ slice_set values.old place v }
{
    if place >= values.len() {
        return SetVal::new(alloc);
    }
    let value = values.replace(place, Value::Proc(0));
    set_in(alloc, value)
}

// The same of a slot.
fn taken_set(alloc: Global, values: &mut Row, s: u16) -> SetVal
    ensures set { result ≡ elements_def (value_in values.old s) }
    ensures rest { (v : Val) → with_slot values.new s v ≡ with_slot values.old s v }
{
    match usize::from(s).checked_sub(1) {
        Some(place) => set_from(alloc, values, place),
        None => SetVal::new(alloc),
    }
}

// Puts a value into the set in a slot, if there is such a slot.
fn add_value(alloc: Global, values: &mut Row, s: u16, v: &Value) -> Result<(), NoMemory>
    ensures { OnOk result (values.new ≡ with_slot values.old s (val.Set (insert_def val_cmp (elements_def (value_in values.old s)) (val_of v.now)))) }
{
    let element = copy_value(alloc, v)?;
    let mut set = taken_set(alloc, values, s);
    let _ = set_insert(&mut set, element)?;
    put_value(values, s, Value::Set(set));
    Ok(())
}

// Takes a value out of the set in a slot, if there is such a slot.
fn take_value(alloc: Global, values: &mut Row, s: u16, v: &Value)
    ensures { values.new ≡ with_slot values.old s (val.Set (remove_def val_cmp (elements_def (value_in values.old s)) (val_of v.now))) }
{
    let mut set = taken_set(alloc, values, s);
    let _ = set_remove(&mut set, v);
    put_value(values, s, Value::Set(set));
}

/// `put`, in the pool and beside it.
pub fn put_both(
    alloc: Global,
    slots: &mut IdRow,
    values: &mut Row,
    s: u16,
    v: &Value,
    pool: &mut Pool,
) -> Result<(), NoMemory>
    requires held { Holds pool.old slots.old.ids }
    ensures slots { OnOk result (row_in pool.new slots.new ≡ with_slot (row_in pool.old slots.old) s (val_of v.now)) }
    ensures values { OnOk result (values.new ≡ with_slot values.old s (val_of v.now)) }
    ensures trades { OnOk result (Trades pool.old slots.old.ids pool.new slots.new.ids) }
{
    let copy = copy_value(alloc, v)?;
    put_value(values, s, copy);
    put(slots, s, v, pool)
}

/// `assign`, in the pool and beside it.
pub fn assign_both(
    alloc: Global,
    slots: &mut IdRow,
    values: &mut Row,
    s: u16,
    v: &Value,
    pool: &mut Pool,
) -> Result<Swap, NoMemory>
    requires held { Holds pool.old slots.old.ids }
    ensures slots { OnOk result (row_in pool.new slots.new ≡ with_slot (row_in pool.old slots.old) s (val_of v.now)) }
    ensures values { OnOk result (values.new ≡ with_slot values.old s (val_of v.now)) }
    ensures swap { IfOk result (λ swap. IsSwap (elements_def (value_in (row_in pool.old slots.old) s)) (elements_def (value_in (row_in pool.new slots.new) s)) (vals swap.came) (vals swap.left)) }
    ensures once { IfOk result (λ swap. Distinct (vals swap.came) × Distinct (vals swap.left)) }
    ensures trades { OnOk result (Trades pool.old slots.old.ids pool.new slots.new.ids) }
{
    let copy = copy_value(alloc, v)?;
    put_value(values, s, copy);
    assign(alloc, slots, s, v, pool)
}

/// `add_to`, in the pool and beside it.
pub fn add_both(
    alloc: Global,
    slots: &mut IdRow,
    values: &mut Row,
    s: u16,
    v: &Value,
    pool: &mut Pool,
) -> Result<bool, NoMemory>
    requires held { Holds pool.old slots.old.ids }
    ensures slots { OnOk result (row_in pool.new slots.new ≡ with_slot (row_in pool.old slots.old) s (val.Set (insert_def val_cmp (elements_def (value_in (row_in pool.old slots.old) s)) (val_of v.now)))) }
    ensures values { OnOk result (values.new ≡ with_slot values.old s (val.Set (insert_def val_cmp (elements_def (value_in values.old s)) (val_of v.now)))) }
    ensures swap { IfOk result (λ fresh. IsSwap (elements_def (value_in (row_in pool.old slots.old) s)) (elements_def (value_in (row_in pool.new slots.new) s)) (if fresh then val_of v.now ∷ [] else []) []) }
    ensures trades { OnOk result (Trades pool.old slots.old.ids pool.new slots.new.ids) }
{
    add_value(alloc, values, s, v)?;
    add_to(slots, s, v, pool)
}

/// `take_from`, in the pool and beside it.
pub fn take_both(
    alloc: Global,
    slots: &mut IdRow,
    values: &mut Row,
    s: u16,
    v: &Value,
    pool: &mut Pool,
) -> Result<bool, NoMemory>
    requires held { Holds pool.old slots.old.ids }
    ensures slots { OnOk result (row_in pool.new slots.new ≡ with_slot (row_in pool.old slots.old) s (val.Set (remove_def val_cmp (elements_def (value_in (row_in pool.old slots.old) s)) (val_of v.now)))) }
    ensures values { OnOk result (values.new ≡ with_slot values.old s (val.Set (remove_def val_cmp (elements_def (value_in values.old s)) (val_of v.now)))) }
    ensures swap { IfOk result (λ there. IsSwap (elements_def (value_in (row_in pool.old slots.old) s)) (elements_def (value_in (row_in pool.new slots.new) s)) [] (if there then val_of v.now ∷ [] else [])) }
    ensures trades { OnOk result (Trades pool.old slots.old.ids pool.new slots.new.ids) }
{
    take_value(alloc, values, s, v);
    take_from(slots, s, v, pool)
}
