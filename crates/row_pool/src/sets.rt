//! Sets that change where they stand: an element and its key come into a cell, or leave it.
ghost use Rattle.da_values.specs.Order.{val_cmp};
ghost use Rattle.da_values.specs.Places.{IsAt, IsBetween};
ghost use Rattle.da_values.specs.Sets.{Ascends, Has, set_insert as insert_def, set_remove as remove_def};
ghost use Rattle.da_values.specs.Value.{val_of, vals};
ghost use Rattle.da_values.specs.Views.{elements_of};
ghost use Rattle.da_values.specs.declared.val.Val.TheVariants as val;
ghost use Rattle.row_pool.specs.Cells.{holders_at, value_at};
ghost use Rattle.row_pool.specs.Index.{SameCounts, under};
ghost use Rattle.row_pool.specs.Pool.{val_at};
ghost use Rattle.row_pool.specs.Sets.{Grows, GrowsTo, PutsIn, Shrinks, ShrinksTo, TakesOut, is_set as is_set_def};
ghost use Rattle.row_pool.specs.declared.cell.Cell.{Cell};
ghost use Rattle.slab.specs.Slab.{get};
ghost use Rattle.std.specs.Prelude.{◌≡◌, ◌+◌, ◌^◌, ◌<◌, ◌≤◌, IfOk, IsSome, IsTrue, MatchResult, OnErr, OnOk, Some, insert, length, true};

use crate::cell::Cell;
use crate::cells::PARTS_MAX;
use crate::index::{put_key, take_key};
use da_values::{List, NoMemory, SetVal, Value, cmp_values, copy_value, set_insert, set_remove};
use indexmap::IndexMap;
use slab::Slab;
use std::alloc::Global;

/// Where a value is among the elements of the set under a key, or else where it belongs. Anything but a set has none.
pub(crate) fn place_at(cells: &Slab<Cell>, key: usize, v: &Value) -> Result<usize, usize>
    ensures found { MatchResult result
        (IsAt val_cmp (elements_of (val_at cells.now.slots key)) (val_of v.now))
        (IsBetween val_cmp (elements_of (val_at cells.now.slots key)) (val_of v.now)) }
    ensures ascends { Ascends val_cmp (elements_of (val_at cells.now.slots key)) }
{
    match cells.get(key) {
        Some(cell) => place_in(&cell.value, v),
        None => Err(0),
    }
}

// The same of the set that a value is.
fn place_in(set: &Value, v: &Value) -> Result<usize, usize>
    ensures found { MatchResult result
        (IsAt val_cmp (elements_of (val_of set.now)) (val_of v.now))
        (IsBetween val_cmp (elements_of (val_of set.now)) (val_of v.now)) }
    ensures ascends { Ascends val_cmp (elements_of (val_of set.now)) }
{
    match set {
        Value::Set(elements) => place_among(elements.as_slice(), v),
        _ => Err(0),
    }
}

// The same of ascending values.
fn place_among(elements: &[Value], v: &Value) -> Result<usize, usize>
    requires { Ascends val_cmp (vals elements.now) }
    ensures { MatchResult result
        (IsAt val_cmp (vals elements.now) (val_of v.now))
        (IsBetween val_cmp (vals elements.now) (val_of v.now)) }
{
    elements.binary_search_by(|element| cmp_values(element, v))
}

/// Whether there is a set under a key, and one alone holds it.
pub(crate) fn is_alone(cells: &Slab<Cell>, key: usize) -> bool
    ensures one { IsTrue result → holders_at cells.now.slots key ≡ 1 }
    ensures set { IsTrue result → is_set_def (val_at cells.now.slots key) ≡ true }
{
    match cells.get(key) {
        Some(cell) => is_single(cell),
        None => false,
    }
}

// The same of the cell under the key.
fn is_single(cell: &Cell) -> bool
    ensures one { IsTrue result → cell.now.holders ≡ 1 }
    ensures set { IsTrue result → is_set_def (val_of cell.now.value) ≡ true }
{
    cell.holders == 1 && is_set(&cell.value)
}

/// Whether there is a set under a key.
pub(crate) fn has_set(cells: &Slab<Cell>, key: usize) -> bool
    ensures { IsTrue result → is_set_def (val_at cells.now.slots key) ≡ true }
{
    match cells.get(key) {
        Some(cell) => is_set(&cell.value),
        None => false,
    }
}

// Whether a value is a set.
fn is_set(v: &Value) -> bool
    ensures { result ≡ is_set_def (val_of v.now) }
{
    match v {
        Value::Set(_) => true,
        _ => false,
    }
}

// AN ELEMENT COMES IN

/// An element comes into the set under a key, at its place, with its own key, and the set gets a number that no value has.
/// Where memory is refused, all is as it was.
pub(crate) fn grow_cell(
    alloc: Global,
    cells: &mut Slab<Cell>,
    index: &mut IndexMap<u64, List<usize>>,
    key: usize,
    at: usize,
    v: &Value,
    part: usize,
    mark: u64,
) -> Result<(), NoMemory>
    requires used { IsSome (value_at cells.old.slots key) }
    requires within { (c : Cell) → get cells.old key ≡ Some c → at ≤ length c.parts }
    requires there { (c : Cell) → get cells.old key ≡ Some c → Has (under index.old c.mark) key }
    ensures ok { OnOk result ((c : Cell) → get cells.old key ≡ Some c
        → GrowsTo (under index.old) (under index.new) cells.old.slots cells.new.slots key c at (val_of v.now) part mark) }
    ensures same { OnErr result (cells.new.slots ≡ cells.old.slots) }
    ensures listed { OnErr result (SameCounts (under index.old) (under index.new)) }
{
    let element = copy_value(alloc, v)?;
    put_key(alloc, index, mark, key)?;
    match put_part(cells, key, at, element, part, mark) {
        Ok(old) => {
            take_key(index, old, key);
            Ok(())
        }
        Err(NoMemory) => {
            take_key(index, mark, key);
            Err(NoMemory)
        }
    }
}

// The same of the cell alone. It answers the number that the set had.
fn put_part(
    cells: &mut Slab<Cell>,
    key: usize,
    at: usize,
    element: Value,
    part: usize,
    mark: u64,
) -> Result<u64, NoMemory>
    requires { (c : Cell) → get cells.old key ≡ Some c → at ≤ length c.parts }
    ensures ok { IfOk result (λ was. (c : Cell) → get cells.old key ≡ Some c → PutsIn cells.old.slots cells.new.slots key c at (val_of element) part mark was) }
    ensures err { OnErr result (cells.new.slots ≡ cells.old.slots) }
{
    match cells.get_mut(key) {
        Some(cell) => put_in_cell(cell, at, element, part, mark),
        None => Err(NoMemory),
    }
}

// The same of the cell under the key.
fn put_in_cell(
    cell: &mut Cell,
    at: usize,
    element: Value,
    part: usize,
    mark: u64,
) -> Result<u64, NoMemory>
    requires { at ≤ length cell.old.parts }
    ensures grows { OnOk result (Grows cell.old cell.new at (val_of element) part mark) }
    ensures was { IfOk result (λ was. was ≡ cell.old.mark) }
    ensures err { OnErr result (cell.new ≡ cell.old) }
{
    if !has_room(&cell.parts) {
        return Err(NoMemory);
    }
    put_both(&mut cell.parts, &mut cell.value, at, element, part)?;
    let was = cell.mark;
    cell.mark = mark;
    Ok(was)
}

// Whether one more part makes no more parts than there may be.
fn has_room(parts: &List<usize>) -> bool
    ensures { IsTrue result → length parts.now + 1 < 2 ^ 62 }
{
    parts.len() < PARTS_MAX - 1
}

// An element and its key come into a set and into the keys of its elements.
fn put_both(
    parts: &mut List<usize>,
    value: &mut Value,
    at: usize,
    element: Value,
    part: usize,
) -> Result<(), NoMemory>
    requires { at ≤ length parts.old }
    ensures parts { OnOk result (parts.new ≡ insert parts.old at part) }
    ensures value { OnOk result (val_of value.new ≡ val.Set (insert_def val_cmp (elements_of (val_of value.old)) (val_of element))) }
    ensures same_parts { OnErr result (parts.new ≡ parts.old) }
    ensures same_value { OnErr result (value.new ≡ value.old) }
{
    parts.insert(at, part)?;
    match put_element(value, element) {
        Ok(()) => Ok(()),
        Err(NoMemory) => {
            let _ = parts.remove(at);
            Err(NoMemory)
        }
    }
}

// An element comes into the set that a value is.
fn put_element(v: &mut Value, element: Value) -> Result<(), NoMemory>
    ensures ok { OnOk result (val_of v.new ≡ val.Set (insert_def val_cmp (elements_of (val_of v.old)) (val_of element))) }
    ensures err { OnErr result (v.new ≡ v.old) }
{
    match v {
        Value::Set(set) => put_into(set, element),
        _ => Err(NoMemory),
    }
}

// The same of the set.
fn put_into(set: &mut SetVal, element: Value) -> Result<(), NoMemory>
    ensures ok { OnOk result (set.new ≡ insert_def val_cmp set.old (val_of element)) }
    ensures err { OnErr result (set.new ≡ set.old) }
{
    set_insert(set, element)?;
    Ok(())
}

// AN ELEMENT LEAVES

/// An element leaves the set under a key, at its place, and the set gets a number that no value has. It answers the key of
/// the element, which the set holds no more. Where memory is refused, all is as it was.
pub(crate) fn shrink_cell(
    alloc: Global,
    cells: &mut Slab<Cell>,
    index: &mut IndexMap<u64, List<usize>>,
    key: usize,
    at: usize,
    v: &Value,
    mark: u64,
) -> Result<usize, NoMemory>
    requires used { IsSome (value_at cells.old.slots key) }
    requires set { is_set_def (val_at cells.old.slots key) ≡ true }
    requires within { (c : Cell) → get cells.old key ≡ Some c → at < length c.parts }
    requires there { (c : Cell) → get cells.old key ≡ Some c → Has (under index.old c.mark) key }
    ensures ok { IfOk result (λ part. (c : Cell) → get cells.old key ≡ Some c
        → ShrinksTo (under index.old) (under index.new) cells.old.slots cells.new.slots key c at (val_of v.now) mark part) }
    ensures same { OnErr result (cells.new.slots ≡ cells.old.slots) }
    ensures listed { OnErr result (SameCounts (under index.old) (under index.new)) }
{
    put_key(alloc, index, mark, key)?;
    let taken = take_part(cells, key, at, v, mark);
    take_key(index, taken.mark, key);
    Ok(taken.part)
}

// What a set had before an element left it: its number, and the key of the element.
#[derive(Clone, Copy)]
struct Taken {
    mark: u64,
    part: usize,
}

// The same of the cell alone.
fn take_part(cells: &mut Slab<Cell>, key: usize, at: usize, v: &Value, mark: u64) -> Taken
    requires used { IsSome (value_at cells.old.slots key) }
    requires set { is_set_def (val_at cells.old.slots key) ≡ true }
    requires within { (c : Cell) → get cells.old key ≡ Some c → at < length c.parts }
    ensures { (c : Cell) → get cells.old key ≡ Some c → TakesOut cells.old.slots cells.new.slots key c at (val_of v.now) mark result.mark result.part }
{
    match cells.get_mut(key) {
        Some(cell) => take_from_cell(cell, at, v, mark),
        None => unreachable!(),
    }
}

// The same of the cell under the key.
fn take_from_cell(cell: &mut Cell, at: usize, v: &Value, mark: u64) -> Taken
    requires set { is_set_def (val_of cell.old.value) ≡ true }
    requires within { at < length cell.old.parts }
    ensures was { result.mark ≡ cell.old.mark }
    ensures shrinks { Shrinks cell.old cell.new at (val_of v.now) mark result.part }
{
    let was = cell.mark;
    take_element(&mut cell.value, v);
    cell.mark = mark;
    let part = cell.parts.remove(at);
    Taken { mark: was, part }
}

// An element leaves the set that a value is.
fn take_element(v: &mut Value, element: &Value)
    requires { is_set_def (val_of v.old) ≡ true }
    ensures { val_of v.new ≡ val.Set (remove_def val_cmp (elements_of (val_of v.old)) (val_of element.now)) }
{
    match v {
        Value::Set(set) => {
            let _ = set_remove(set, element);
        }
        _ => {}
    }
}
