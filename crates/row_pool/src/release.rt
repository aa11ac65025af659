//! Holders that go, and the cells that leave with their last one.
ghost use Rattle.da_values.specs.declared.val.Val.{Val};
ghost use Rattle.row_pool.specs.Index.{AreMarked, under};
ghost use Rattle.row_pool.specs.Release.{LosesHolder, Releases};
ghost use Rattle.slab.specs.Slab.{slab_len};
ghost use Rattle.std.specs.Prelude.{◌≡◌, ◌-◌, ◌<◌, ℕ, [], List, None, Option, Some};

use crate::cell::Cell;
use crate::index::take_key;
use da_values::List;
use indexmap::IndexMap;
use slab::Slab;

/// One holder fewer. A cell that lost its last one is put before those that are to leave, of which the first is
/// given and answered.
pub(crate) fn lose_holder(cells: &mut Slab<Cell>, key: usize, first: Option<usize>) -> Option<usize>
    ensures loses { LosesHolder cells.old.slots first key cells.new.slots result }
    ensures marked { (numbers : ℕ → List ℕ) → AreMarked numbers cells.old.slots → AreMarked numbers cells.new.slots }
    ensures len { slab_len cells.new ≡ slab_len cells.old }
{
    match cells.get_mut(key) {
        Some(cell) => lose_one(cell, key, first),
        None => first,
    }
}

// The same of the cell under the key.
fn lose_one(cell: &mut Cell, key: usize, first: Option<usize>) -> Option<usize>
    ensures last { cell.old.holders ≡ 1 → (cell.new ≡ record cell.old { holders = 0; next = first }) × (result ≡ Some key) }
    ensures more { 1 < cell.old.holders → (cell.new ≡ record cell.old { holders = cell.old.holders - 1 }) × (result ≡ first) }
    ensures value { cell.new.value ≡ cell.old.value }
    ensures mark { cell.new.mark ≡ cell.old.mark }
{
    if cell.holders == 1 {
        cell.holders = 0;
        cell.next = first;
        Some(key)
    } else if cell.holders > 1 {
        cell.holders -= 1;
        first
    } else {
        first
    }
}

/// Takes out the cells that are to leave, from the first on, and those that lose their last holder by it.
pub(crate) fn release(
    cells: &mut Slab<Cell>,
    index: &mut IndexMap<u64, List<usize>>,
    first: Option<usize>,
)
    requires { AreMarked (under index.old) cells.old.slots }
    ensures releases { (find : Val → Option ℕ) → (after : Val → Option ℕ) × Releases find cells.old.slots first [] after cells.new.slots None [] }
    ensures marked { AreMarked (under index.new) cells.new.slots }
{
    let mut next = first;
    while let Some(key) = next {
        match cells.try_remove(key) {
            Some(cell) => {
                let Cell {
                    holders: _,
                    value,
                    mark,
                    parts,
                    next: after,
                } = cell;
                drop(value);
                take_key(index, mark, key);
                next = lose_each(cells, parts.as_slice(), after);
            }
            None => return,
        }
    }
}

// One holder fewer for each key.
fn lose_each(cells: &mut Slab<Cell>, keys: &[usize], first: Option<usize>) -> Option<usize>
    ensures loses { (find : Val → Option ℕ) → Releases find cells.old.slots first keys.now find cells.new.slots result [] }
    ensures marked { (numbers : ℕ → List ℕ) → AreMarked numbers cells.old.slots → AreMarked numbers cells.new.slots }
    ensures len { slab_len cells.new ≡ slab_len cells.old }
{
    let mut next = first;
    for key in keys {
        next = lose_holder(cells, *key, next);
    }
    next
}
