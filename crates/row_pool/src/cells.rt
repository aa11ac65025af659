//! Single cells: the value, the parts and the number under a key, one holder more, a new cell.
ghost use Rattle.da_values.specs.Value.{val_of};
ghost use Rattle.row_pool.specs.Cells.{holders_at, value_at};
ghost use Rattle.row_pool.specs.Index.{Comes, SameCounts, under};
ghost use Rattle.row_pool.specs.Pool.{no_value, val_at};
ghost use Rattle.row_pool.specs.declared.cell.Cell.{Cell};
ghost use Rattle.slab.specs.Slab.{get, Updates};
ghost use Rattle.std.specs.Prelude.{◌≡◌, ◌+◌, ◌^◌, ◌<◌, Some, None, length, slice_get, IfErr, IfOk, OnErr, OnOk, IsFalse, IsSome, IsTrue};

use crate::cell::Cell;
use crate::index::put_key;
use da_values::{List, NoMemory, Value, copy_value};
use indexmap::IndexMap;
use slab::Slab;
use std::alloc::Global;

/// More parts than any list in memory has.
pub(crate) const PARTS_MAX: usize = 1 << 62;

/// The value under a key, or what stands for none.
pub(crate) fn held_or<'a>(cells: &'a Slab<Cell>, key: usize, nothing: &'a Value) -> &'a Value
    requires { val_of nothing.now ≡ no_value }
    ensures { val_of result.now ≡ val_at cells.now.slots key }
{
    match cells.get(key) {
        Some(cell) => &cell.value,
        None => nothing,
    }
}

/// The key of a part of the value under a key.
pub(crate) fn part_key(cells: &Slab<Cell>, key: usize, i: usize) -> Option<usize>
    ensures { (c : Cell) → get cells.now key ≡ Some c → result ≡ slice_get c.parts i }
{
    match cells.get(key) {
        Some(cell) => cell.parts.get(i).copied(),
        None => None,
    }
}

/// One more holder.
pub(crate) fn add_holder(cells: &mut Slab<Cell>, key: usize)
    requires used { IsSome (value_at cells.old.slots key) }
    requires room { holders_at cells.old.slots key < 2 ^ 127 }
    ensures { (c : Cell) → get cells.old key ≡ Some c → Updates cells.old cells.new key (Some (record c { holders = c.holders + 1 })) }
{
    match cells.get_mut(key) {
        Some(cell) => cell.holders += 1,
        None => unreachable!(),
    }
}

/// One more holder, where it can be counted.
pub(crate) fn try_add_holder(cells: &mut Slab<Cell>, key: usize) -> bool
    ensures done { IsTrue result → ((c : Cell) → get cells.old key ≡ Some c → Updates cells.old cells.new key (Some (record c { holders = c.holders + 1 }))) }
    ensures not { IsFalse result → cells.new.slots ≡ cells.old.slots }
{
    match cells.get_mut(key) {
        Some(cell) => {
            if cell.holders < u128::MAX {
                cell.holders += 1;
                true
            } else {
                false
            }
        }
        None => false,
    }
}

/// The number of the value under a key, or 0 where there is none.
pub(crate) fn mark_at(cells: &Slab<Cell>, key: usize) -> u64
    ensures { (c : Cell) → get cells.now key ≡ Some c → result ≡ c.mark }
{
    match cells.get(key) {
        Some(cell) => cell.mark,
        None => 0,
    }
}

/// A cell for a value that is not there and has this number, with one holder and these parts. Where memory is refused the
/// parts are handed back, and nothing has changed.
pub(crate) fn new_cell(
    alloc: Global,
    cells: &mut Slab<Cell>,
    index: &mut IndexMap<u64, List<usize>>,
    v: &Value,
    mark: u64,
    parts: List<usize>,
) -> Result<usize, List<usize>>
    ensures vacant { IfOk result (λ key. get cells.old key ≡ None) }
    ensures cell { IfOk result (λ key. Updates cells.old cells.new key (Some (record { holders = 1; value = v.now; mark = mark; parts = parts; next = None }))) }
    ensures index { IfOk result (λ key. Comes (under index.old) (under index.new) mark key) }
    ensures few { OnOk result (length parts < 2 ^ 62) }
    ensures back { IfErr result (λ back. back ≡ parts) }
    ensures same_cells { OnErr result (cells.new.slots ≡ cells.old.slots) }
    ensures same_index { OnErr result (SameCounts (under index.old) (under index.new)) }
{
    if parts.len() >= PARTS_MAX {
        return Err(parts);
    }
    let Ok(value) = copy_value(alloc, v) else {
        return Err(parts);
    };
    if cells.reserve(1).is_err() {
        return Err(parts);
    }
    let key = cells.vacant_key();
    match put_key(alloc, index, mark, key) {
        Ok(()) => {
            let _ = cells.insert_reserved(Cell {
                holders: 1,
                value,
                mark,
                parts,
                next: None,
            });
            Ok(key)
        }
        Err(NoMemory) => Err(parts),
    }
}
