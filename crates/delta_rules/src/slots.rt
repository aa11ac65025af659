//! The slots of a process, and what moves in their sets.
ghost use Rattle.da_lang.specs.World.{at_number, or_nothing, value_in, with_slot};
ghost use Rattle.da_values.specs.declared.val.Val.TheVariants as val;
ghost use Rattle.da_values.specs.Order.{val_cmp};
ghost use Rattle.da_values.specs.Sets.{Ascends, Distinct, Has, set_insert as insert_def, set_remove as remove_def};
ghost use Rattle.da_values.specs.Value.{val_of, vals};
ghost use Rattle.da_values.specs.Views.{elements_of as elements_def};
ghost use Rattle.answer_index.specs.Rows.{row_in, row_of};
ghost use Rattle.delta_rules.specs.Passing.{IsSwap, lacking};
ghost use Rattle.row_pool.specs.Cells.{Cells, count, value_at};
ghost use Rattle.row_pool.specs.Pool.{Holds, Trades, val_at};
ghost use Rattle.std.specs.Option.{option_copied, option_map};
ghost use Rattle.std.specs.Prelude.{◌≡◌, ◌<◌, ◌≤◌, ℕ, [], ◌∷◌, IfOk, MatchBool, None, OnOk, Some, if◌then◌else◌, length};

use answer_index::IdRow;
use da_values::{List, NoMemory, SetVal, Value, copy_value, set_has};
use row_pool::{Exchanged, Id, Pool};
use std::alloc::Global;

// Whether there is a slot with this number.
fn is_slot(slots: &IdRow, s: u16) -> bool
    ensures { MatchBool result ((0 < s) × (s ≤ length slots.now.ids)) ((pool : Cells) → at_number (row_in pool slots.now) s ≡ None) }
{
    s > 0 && usize::from(s) <= slots.ids.len()
}

/// The id in a slot, numbered from 1, or `None` where there is no such slot. It takes no memory.
pub fn slot_id(slots: &IdRow, s: u16) -> Option<&Id>
    ensures { (pool : Cells) → option_map (val_at pool) (option_copied result) ≡ at_number (row_in pool slots.now) s }
{
    held_id(slots, s)
}

// The same, as an id alone.
fn held_id(slots: &IdRow, s: u16) -> Option<&Id>
    ensures { option_copied result ≡ at_number slots.now.ids s }
{
    match s.checked_sub(1) {
        Some(at) => slots.ids.get(usize::from(at)),
        None => None,
    }
}

// A copy of the value in a slot, if there is such a slot.
fn slot_value(slots: &IdRow, s: u16, pool: &Pool) -> Result<Option<Value>, NoMemory>
    ensures { IfOk result (λ found. option_map val_of found ≡ at_number (row_in pool.now slots.now) s) }
{
    match slot_id(slots, s) {
        Some(id) => Ok(Some(pool.value(id)?)),
        None => Ok(None),
    }
}

// Puts an id into a slot and hands out the one that was there; where there is no such slot, it is handed back.
fn exchange(ids: &mut List<Id>, s: u16, id: Id) -> Id
    ensures values { (pool : Cells) → row_of pool ids.new ≡ with_slot (row_of pool ids.old) s (val_at pool id) }
    ensures same { (k : ℕ) → count k (result ∷ ids.new) ≡ count k (id ∷ ids.old) }
    ensures out { (old : ℕ) → at_number ids.old s ≡ Some old → result ≡ old }
{
    match usize::from(s).checked_sub(1) {
        Some(place) => {
            if place < ids.len() {
                ids.replace(place, id)
            } else {
                id
            }
        }
        None => id,
    }
}

/// Gives a slot a value, if there is such a slot. The id of the old one is given back.
pub fn put(slots: &mut IdRow, s: u16, v: &Value, pool: &mut Pool) -> Result<(), NoMemory>
    requires held { Holds pool.old slots.old.ids }
    ensures slots { OnOk result (row_in pool.new slots.new ≡ with_slot (row_in pool.old slots.old) s (val_of v.now)) }
    ensures trades { OnOk result (Trades pool.old slots.old.ids pool.new slots.new.ids) }
{
    let id = pool.intern(v)?;
    let old = exchange(&mut slots.ids, s, id);
    pool.give_back(old);
    Ok(())
}

// The set that was found, or the empty one where there is none.
#[tactic(auto, using(crate::proofs::SlotLaws::viewing))]
fn set_of(alloc: Global, found: Option<Value>) -> SetVal
    ensures { result ≡ elements_def (or_nothing (option_map val_of found)) }
{
    match found {
        Some(v) => set_in(alloc, v),
        None => SetVal::new(alloc),
    }
}

/// The set that a value is, or the empty one where it is none.
#[tactic(auto, using(crate::proofs::SlotLaws::viewing))]
pub fn set_in(alloc: Global, v: Value) -> SetVal
    ensures { result ≡ elements_def (val_of v) }
{
    match v {
        Value::Set(set) => set,
        _ => SetVal::new(alloc),
    }
}

// The id of the set in a slot with a value in it, for which the id in the slot is given back.
fn joined(slots: &IdRow, s: u16, v: &Value, pool: &mut Pool) -> Result<Exchanged, NoMemory>
    requires { Holds pool.old slots.now.ids }
    ensures value { IfOk result (λ to. value_at pool.new to.id ≡ Some (val.Set (insert_def val_cmp (elements_def (value_in (row_in pool.old slots.now) s)) (val_of v.now)))) }
    ensures fresh { IfOk result (λ to. MatchBool to.moved
        (Has (elements_def (value_in (row_in pool.old slots.now) s)) (val_of v.now) → ⊥)
        (Has (elements_def (value_in (row_in pool.old slots.now) s)) (val_of v.now))) }
    ensures trades { IfOk result (λ to. (id : ℕ) → at_number slots.now.ids s ≡ Some id → Trades pool.old (id ∷ []) pool.new (to.id ∷ [])) }
{
    match held_id(slots, s) {
        Some(id) => pool.with_element(id, v),
        None => Err(NoMemory),
    }
}

/// Puts a value into the set in a slot, and answers whether it came into it.
pub fn add_to(slots: &mut IdRow, s: u16, v: &Value, pool: &mut Pool) -> Result<bool, NoMemory>
    requires held { Holds pool.old slots.old.ids }
    ensures slots { OnOk result (row_in pool.new slots.new ≡ with_slot (row_in pool.old slots.old) s (val.Set (insert_def val_cmp (elements_def (value_in (row_in pool.old slots.old) s)) (val_of v.now)))) }
    ensures swap { IfOk result (λ fresh. IsSwap (elements_def (value_in (row_in pool.old slots.old) s)) (elements_def (value_in (row_in pool.new slots.new) s)) (if fresh then val_of v.now ∷ [] else []) []) }
    ensures trades { OnOk result (Trades pool.old slots.old.ids pool.new slots.new.ids) }
{
    if !is_slot(slots, s) {
        return Ok(false);
    }
    let to = joined(slots, s, v, pool)?;
    let moved = to.moved;
    let _ = exchange(&mut slots.ids, s, to.id);
    Ok(moved)
}

// The id of the set in a slot without a value, for which the id in the slot is given back.
fn parted(slots: &IdRow, s: u16, v: &Value, pool: &mut Pool) -> Result<Exchanged, NoMemory>
    requires { Holds pool.old slots.now.ids }
    ensures value { IfOk result (λ to. value_at pool.new to.id ≡ Some (val.Set (remove_def val_cmp (elements_def (value_in (row_in pool.old slots.now) s)) (val_of v.now)))) }
    ensures there { IfOk result (λ to. MatchBool to.moved
        (Has (elements_def (value_in (row_in pool.old slots.now) s)) (val_of v.now))
        (Has (elements_def (value_in (row_in pool.old slots.now) s)) (val_of v.now) → ⊥)) }
    ensures ascends { OnOk result (Ascends val_cmp (elements_def (value_in (row_in pool.old slots.now) s))) }
    ensures trades { IfOk result (λ to. (id : ℕ) → at_number slots.now.ids s ≡ Some id → Trades pool.old (id ∷ []) pool.new (to.id ∷ [])) }
{
    match held_id(slots, s) {
        Some(id) => pool.without_element(id, v),
        None => Err(NoMemory),
    }
}

/// Takes a value out of the set in a slot, and answers whether it left it.
pub fn take_from(slots: &mut IdRow, s: u16, v: &Value, pool: &mut Pool) -> Result<bool, NoMemory>
    requires held { Holds pool.old slots.old.ids }
    ensures slots { OnOk result (row_in pool.new slots.new ≡ with_slot (row_in pool.old slots.old) s (val.Set (remove_def val_cmp (elements_def (value_in (row_in pool.old slots.old) s)) (val_of v.now)))) }
    ensures swap { IfOk result (λ there. IsSwap (elements_def (value_in (row_in pool.old slots.old) s)) (elements_def (value_in (row_in pool.new slots.new) s)) [] (if there then val_of v.now ∷ [] else [])) }
    ensures trades { OnOk result (Trades pool.old slots.old.ids pool.new slots.new.ids) }
{
    if !is_slot(slots, s) {
        return Ok(false);
    }
    let to = parted(slots, s, v, pool)?;
    let moved = to.moved;
    let _ = exchange(&mut slots.ids, s, to.id);
    Ok(moved)
}

/// The elements that came into a set, and those that left it.
#[derive(Drop)]
pub struct Swap {
    pub came: List<Value>,
    pub left: List<Value>,
}

// Copies of those elements that are not in a set.
fn missing(alloc: Global, elements: &[Value], set: &SetVal) -> Result<List<Value>, NoMemory>
    ensures { IfOk result (λ others. vals others ≡ lacking (vals elements.now) set.now) }
{
    let mut others = List::new(alloc);
    for x in elements {
        if !set_has(set, x) {
            others.push(copy_value(alloc, x)?)?;
        }
    }
    Ok(others)
}

// What moves where a set takes the place of another.
fn between(alloc: Global, old: &SetVal, new: &SetVal) -> Result<Swap, NoMemory>
    ensures came { IfOk result (λ swap. vals swap.came ≡ lacking new.now old.now) }
    ensures left { IfOk result (λ swap. vals swap.left ≡ lacking old.now new.now) }
    ensures once { IfOk result (λ swap. Distinct (vals swap.came) × Distinct (vals swap.left)) }
{
    let came = missing(alloc, new.as_slice(), old)?;
    let left = missing(alloc, old.as_slice(), new)?;
    Ok(Swap { came, left })
}

/// Gives a slot a value, and answers what moved in its set.
pub fn assign(
    alloc: Global,
    slots: &mut IdRow,
    s: u16,
    v: &Value,
    pool: &mut Pool,
) -> Result<Swap, NoMemory>
    requires held { Holds pool.old slots.old.ids }
    ensures slots { OnOk result (row_in pool.new slots.new ≡ with_slot (row_in pool.old slots.old) s (val_of v.now)) }
    ensures swap { IfOk result (λ swap. IsSwap (elements_def (value_in (row_in pool.old slots.old) s)) (elements_def (value_in (row_in pool.new slots.new) s)) (vals swap.came) (vals swap.left)) }
    ensures once { IfOk result (λ swap. Distinct (vals swap.came) × Distinct (vals swap.left)) }
    ensures trades { OnOk result (Trades pool.old slots.old.ids pool.new slots.new.ids) }
{
    if !is_slot(slots, s) {
        return Ok(Swap {
            came: List::new(alloc),
            left: List::new(alloc),
        });
    }
    let found = slot_value(slots, s, pool)?;
    let old = set_of(alloc, found);
    let new = set_in(alloc, copy_value(alloc, v)?);
    let moved = between(alloc, &old, &new)?;
    put(slots, s, v, pool)?;
    Ok(moved)
}
