//! The index: the keys of cells under the numbers of their values.
ghost use Rattle.da_values.specs.Keys.{same_value};
ghost use Rattle.da_values.specs.Sets.{Has};
ghost use Rattle.da_values.specs.Value.{val_of};
ghost use Rattle.indexmap.specs.IndexMap.{Updates};
ghost use Rattle.row_pool.specs.Cells.{count, value_at};
ghost use Rattle.row_pool.specs.Index.{AreMarked, Comes, Goes, SameCounts, under};
ghost use Rattle.std.specs.Prelude.{◌≡◌, ◌+◌, ◌≤◌, ◌∷◌, [], ℕ, IfOk, IsFalse, IsTrue, MatchOption, OnErr, OnOk, Some, length, nat_eq, slice_get};

use crate::cell::Cell;
use crate::marks::mark_of;
use da_values::{List, NoMemory, Value, cmp_values};
use indexmap::IndexMap;
use slab::Slab;
use std::alloc::Global;

/// The key of a value, or `None` exactly where there is no such value.
pub(crate) fn key_of(
    index: &IndexMap<u64, List<usize>>,
    cells: &Slab<Cell>,
    v: &Value,
) -> Option<usize>
    requires { AreMarked (under index.now) cells.now.slots }
    ensures { MatchOption result
        ((k : ℕ) → value_at cells.now.slots k ≡ Some (val_of v.now) → ⊥)
        (λ key. value_at cells.now.slots key ≡ Some (val_of v.now)) }
{
    let mark = mark_of(v);
    match index.get(&mark) {
        Some(keys) => key_among(cells, keys.as_slice(), v),
        None => None,
    }
}

// The first of some keys that is that of a value, if there is one.
fn key_among(cells: &Slab<Cell>, keys: &[usize], v: &Value) -> Option<usize>
    ensures { MatchOption result
        ((k : ℕ) → Has keys.now k → value_at cells.now.slots k ≡ Some (val_of v.now) → ⊥)
        (λ key. value_at cells.now.slots key ≡ Some (val_of v.now)) }
{
    for key in keys {
        if has_value(cells, *key, v) {
            return Some(*key);
        }
    }
    None
}

// Whether a key is that of a value.
fn has_value(cells: &Slab<Cell>, key: usize, v: &Value) -> bool
    ensures yes { IsTrue result → value_at cells.now.slots key ≡ Some (val_of v.now) }
    ensures not { IsFalse result → value_at cells.now.slots key ≡ Some (val_of v.now) → ⊥ }
{
    match cells.get(key) {
        Some(cell) => is_same(&cell.value, v),
        None => false,
    }
}

// Whether two values are the same.
fn is_same(a: &Value, b: &Value) -> bool
    ensures { result ≡ same_value (val_of a.now) (val_of b.now) }
{
    cmp_values(a, b).is_eq()
}

/// Whether no value has a number.
pub(crate) fn is_free(index: &IndexMap<u64, List<usize>>, mark: u64) -> bool
    ensures { IsTrue result → under index.now mark ≡ [] }
{
    match index.get(&mark) {
        Some(_) => false,
        None => true,
    }
}

/// A key comes under a number. Where memory is refused, all is as it was.
pub(crate) fn put_key(
    alloc: Global,
    index: &mut IndexMap<u64, List<usize>>,
    mark: u64,
    key: usize,
) -> Result<(), NoMemory>
    ensures ok { OnOk result (Comes (under index.old) (under index.new) mark key) }
    ensures err { OnErr result (SameCounts (under index.old) (under index.new)) }
{
    if is_free(index, mark) {
        put_first(alloc, index, mark, key)
    } else {
        put_next(index, mark, key)
    }
}

// A key comes under a number that some value has.
fn put_next(index: &mut IndexMap<u64, List<usize>>, mark: u64, key: usize) -> Result<(), NoMemory>
    ensures ok { OnOk result (Comes (under index.old) (under index.new) mark key) }
    ensures err { OnErr result (SameCounts (under index.old) (under index.new)) }
{
    match index.get_mut(&mark) {
        Some(keys) => keys.push(key),
        None => Err(NoMemory),
    }
}

// A key comes under a number that no value has.
fn put_first(
    alloc: Global,
    index: &mut IndexMap<u64, List<usize>>,
    mark: u64,
    key: usize,
) -> Result<(), NoMemory>
    requires { under index.old mark ≡ [] }
    ensures ok { OnOk result (Comes (under index.old) (under index.new) mark key) }
    ensures err { OnErr result (SameCounts (under index.old) (under index.new)) }
{
    let keys = one_key(alloc, key)?;
    set_keys(index, mark, keys)
}

// The list of one key.
fn one_key(alloc: Global, key: usize) -> Result<List<usize>, NoMemory>
    ensures { IfOk result (λ keys. keys ≡ key ∷ []) }
{
    let mut keys = List::new(alloc);
    keys.push(key)?;
    Ok(keys)
}

// These keys and no others are under a number. Where memory is refused, all is as it was.
fn set_keys(
    index: &mut IndexMap<u64, List<usize>>,
    mark: u64,
    keys: List<usize>,
) -> Result<(), NoMemory>
    ensures ok { OnOk result (Updates nat_eq index.old index.new mark (Some keys)) }
    ensures err { OnErr result (SameCounts (under index.old) (under index.new)) }
{
    match index.insert(mark, keys) {
        Ok(_) => Ok(()),
        Err(_) => Err(NoMemory),
    }
}

/// A key leaves a number under which it is. It takes no memory.
pub(crate) fn take_key(index: &mut IndexMap<u64, List<usize>>, mark: u64, key: usize)
    requires { Has (under index.old mark) key }
    ensures { Goes (under index.old) (under index.new) mark key }
{
    if is_last(index, mark) {
        take_last(index, mark)
    } else {
        take_one(index, mark, key)
    }
}

// Whether there is no more than one key under a number.
fn is_last(index: &IndexMap<u64, List<usize>>, mark: u64) -> bool
    ensures { IsTrue result → length (under index.now mark) ≤ 1 }
{
    match index.get(&mark) {
        Some(keys) => is_short(keys),
        None => true,
    }
}

// Whether there is no more than one key in a list.
fn is_short(keys: &List<usize>) -> bool
    ensures { IsTrue result → length keys.now ≤ 1 }
{
    keys.len() <= 1
}

// The only key leaves a number.
fn take_last(index: &mut IndexMap<u64, List<usize>>, mark: u64)
    requires { length (under index.old mark) ≤ 1 }
    ensures { (key : ℕ) → Has (under index.old mark) key → Goes (under index.old) (under index.new) mark key }
{
    index.swap_remove(&mark);
}

// One of several keys leaves a number.
fn take_one(index: &mut IndexMap<u64, List<usize>>, mark: u64, key: usize)
    requires { Has (under index.old mark) key }
    ensures { Goes (under index.old) (under index.new) mark key }
{
    match index.get_mut(&mark) {
        Some(keys) => drop_key(keys, key),
        None => {}
    }
}

// Takes a key out of those where it is.
fn drop_key(keys: &mut List<usize>, key: usize)
    requires { Has keys.old key }
    ensures { (k : ℕ) → count k keys.old ≡ count k keys.new + count k (key ∷ []) }
{
    match place_of(keys.as_slice(), key) {
        Some(place) => {
            let _ = keys.remove(place);
        }
        None => {}
    }
}

// The first place of a key, if there is one.
fn place_of(keys: &[usize], key: usize) -> Option<usize>
    ensures { MatchOption result (Has keys.now key → ⊥) (λ place. slice_get keys.now place ≡ Some key) }
{
    for place in 0..keys.len() {
        if is_one(keys[place], key) {
            return Some(place);
        }
    }
    None
}

// Whether two keys are one.
fn is_one(a: usize, b: usize) -> bool
    ensures yes { IsTrue result → a ≡ b }
    ensures not { IsFalse result → a ≡ b → ⊥ }
{
    a == b
}
