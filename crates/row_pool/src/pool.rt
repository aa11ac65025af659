//! The pool.
ghost use Rattle.da_values.specs.Order.{val_cmp};
ghost use Rattle.da_values.specs.Value.{val_of, vals};
ghost use Rattle.da_values.specs.declared.val.Val.{Val};
ghost use Rattle.row_pool.specs.Cells.{children, live_in, outside, value_at};
ghost use Rattle.row_pool.specs.InUse.{AreHeld, InUse, IsCounted, IsOne};
ghost use Rattle.row_pool.specs.Pool.{AreGiven, Holds, IsGivenNext, IsUnchanged, Trades, no_value, part_at, val_at};
ghost use Rattle.std.specs.Option.{option_copied};
ghost use Rattle.std.specs.Prelude.{◌≡◌, ℕ, ◌^◌, ◌<◌, [], ◌∷◌, Some, None, List, length, map, slice_get, IfOk, OnErr, OnOk, IsSome, IfSome, IfNone};

use crate::cell::Cell;
use crate::cells::{add_holder, held_or, new_cell, part_key, try_add_holder};
use crate::index::key_of;
use crate::marks::mark_of;
use crate::release::{lose_holder, release};
use da_values::{List, NoMemory, Value, cmp_values, copy_value};
use indexmap::IndexMap;
use slab::Slab;
use std::alloc::Global;
use std::cmp::Ordering;
use std::marker::Model;

/// Names one value of the pool that gave it, and is one holder of it. It is given back to that pool; an id that is only
/// dropped stays counted.
#[derive(Drop)]
pub struct Id {
    pub(crate) key: usize,
}

impl Model for Id {
    ghost use Rattle.std.specs.Prelude.{ℕ};

    ghost Value = { ℕ };

    ghost view = { λ id. id.key };
}

impl PartialEq for Id {
    ghost use Rattle.std.specs.Cmp.{nat_eq_equiv, partial_equiv_from_equiv};
    ghost use Rattle.std.specs.Prelude.{nat_eq};

    ghost eq = { nat_eq };

    ghost laws = { partial_equiv_from_equiv nat_eq_equiv };

    fn eq(&self, other: &Self) -> bool {
        self.key == other.key
    }
}

impl Eq for Id {
    ghost use Rattle.std.specs.Cmp.{nat_eq_equiv};

    ghost laws = { nat_eq_equiv };
}

/// Values with their holders. Equal values have one id, and a value is there exactly while it has a holder. Each part of
/// a tuple and each element of a set of the pool is in the pool too, and is held by that tuple or set. The other holders
/// are the ids that calls have given and that were not given back. Contracts see the cells by their ids.
#[derive(Drop)]
pub struct Pool {
    pub(crate) alloc: Global,
    pub(crate) cells: Slab<Cell>,
    pub(crate) index: IndexMap<u64, List<usize>>,
}

impl Model for Pool {
    ghost use Rattle.row_pool.specs.Cells.{Cells};
    ghost use Rattle.row_pool.specs.Index.{IsIndexed, under};
    ghost use Rattle.row_pool.specs.contracts.cell.Cell as code;
    ghost use Rattle.std.specs.Coded.{coded_list, coded_option};

    ghost Value = { Cells };

    ghost coded = { coded_list (coded_option code.the_row.coded) };

    ghost view = { λ pool. pool.cells.slots };

    ghost invariant = { λ pool. IsIndexed (under pool.index) pool.cells.slots };
}

impl Pool {
    /// The empty pool. It takes no memory.
    pub fn new(alloc: Global) -> Pool
        ensures { result ≡ [] }
    {
        let cells = Slab::new(alloc);
        let index = IndexMap::new(alloc);
        Pool {
            alloc,
            cells,
            index,
        }
    }

    /// The id of a value, which is one more holder of it. A value that is not there yet comes in, and so do those of its
    /// parts that are not. Where memory is refused, or a value on the way has 2^128 - 1 holders, all is as it was.
    pub fn intern(&mut self, v: &Value) -> Result<Id, NoMemory>
        ensures value { IfOk result (λ id. value_at self.new id ≡ Some (val_of v.now)) }
        ensures ok { IfOk result (λ id. Trades self.old [] self.new (id ∷ [])) }
        ensures err { OnErr result (IsUnchanged self.old self.new) }
    {
        let _ = &self.index;
        let outcome = self.intern_value(v);
        let _ = &self.index;
        outcome
    }

    // The same, with an error as a trade of nothing, which joins with what was traded before.
    #[cycle(intern)]
    #[tactic(auto, using(da_values::specs::Layer::weight_of, da_values::specs::Layer::weight_part))]
    pub(crate) fn intern_value(&mut self, v: &Value) -> Result<Id, NoMemory>
        ensures value { IfOk result (λ id. value_at self.new id ≡ Some (val_of v.now)) }
        ensures ok { IfOk result (λ id. Trades self.old [] self.new (id ∷ [])) }
        ensures err { OnErr result (Trades self.old [] self.new []) }
    {
        let found = self.hold_again(v)?;
        match found {
            Some(id) => Ok(id),
            None => {
                let _ = &self.index;
                let parts = self.intern_children(v)?;
                let _ = &self.index;
                self.add(v, parts)
            }
        }
    }

    // The keys of the parts of a value, each held once more.
    #[cycle(intern)]
    #[tactic(auto, using(da_values::specs::Layer::weight_of, da_values::specs::Layer::weight_part))]
    fn intern_children(&mut self, v: &Value) -> Result<List<usize>, NoMemory>
        ensures ok { IfOk result (AreGiven self.old self.new (children (val_of v.now))) }
        ensures err { OnErr result (Trades self.old [] self.new []) }
    {
        match v {
            Value::Tuple(parts) => self.intern_each(parts.as_slice()),
            Value::Set(elements) => self.intern_each(elements.as_slice()),
            _ => Ok(List::new(self.alloc)),
        }
    }

    // The keys of some values, each held once more.
    #[cycle(intern)]
    #[tactic(auto, using(da_values::specs::Layer::weight_of, da_values::specs::Layer::weight_part))]
    fn intern_each(&mut self, values: &[Value]) -> Result<List<usize>, NoMemory>
        ensures ok { IfOk result (AreGiven self.old self.new (vals values.now)) }
        ensures err { OnErr result (Trades self.old [] self.new []) }
    {
        let mut keys = List::new(self.alloc);
        for value in values {
            match self.intern_next(value, &mut keys) {
                Ok(()) => {}
                Err(NoMemory) => {
                    self.give_back_each(keys.as_slice());
                    return Err(NoMemory);
                }
            }
        }
        Ok(keys)
    }

    // The key of one more value, after those so far.
    #[cycle(intern)]
    fn intern_next(&mut self, v: &Value, keys: &mut List<usize>) -> Result<(), NoMemory>
        ensures ok { OnOk result (IsGivenNext self.old keys.old self.new keys.new (val_of v.now)) }
        ensures keys { OnErr result (keys.new ≡ keys.old) }
        ensures err { OnErr result (Trades self.old [] self.new []) }
    {
        let id = self.intern_value(v)?;
        match keys.push(id.key) {
            Ok(()) => Ok(()),
            Err(NoMemory) => {
                self.give_back(id);
                Err(NoMemory)
            }
        }
    }

    // Where the value is there already, it is held once more; `None` exactly where it is not.
    fn hold_again(&mut self, v: &Value) -> Result<Option<Id>, NoMemory>
        ensures some { IfOk result (λ found. IfSome found (λ id. (value_at self.new id ≡ Some (val_of v.now)) × Trades self.old [] self.new (id ∷ []))) }
        ensures none { IfOk result (λ found. IfNone found (self.new ≡ self.old)) }
        ensures absent { IfOk result (λ found. IfNone found ((k : ℕ) → value_at self.old k ≡ Some (val_of v.now) → ⊥)) }
        ensures err { OnErr result (self.new ≡ self.old) }
    {
        match key_of(&self.index, &self.cells, v) {
            Some(key) => {
                if !try_add_holder(&mut self.cells, key) {
                    return Err(NoMemory);
                }
                Ok(Some(Id { key }))
            }
            None => Ok(None),
        }
    }

    // The id of a value that is not there, and whose parts are held for it. They become its own, or are given back.
    fn add(&mut self, v: &Value, parts: List<usize>) -> Result<Id, NoMemory>
        requires values { map (value_at self.old) parts ≡ map Some (children (val_of v.now)) }
        requires held { Holds self.old parts }
        requires absent { (k : ℕ) → value_at self.old k ≡ Some (val_of v.now) → ⊥ }
        ensures value { IfOk result (λ id. value_at self.new id ≡ Some (val_of v.now)) }
        ensures ok { IfOk result (λ id. Trades self.old parts self.new (id ∷ [])) }
        ensures err { OnErr result (Trades self.old parts self.new []) }
    {
        let mark = mark_of(v);
        match new_cell(self.alloc, &mut self.cells, &mut self.index, v, mark, parts) {
            Ok(key) => Ok(Id { key }),
            Err(refused) => {
                self.give_back_each(refused.as_slice());
                Err(NoMemory)
            }
        }
    }

    // One holder fewer for each key.
    fn give_back_each(&mut self, keys: &[usize])
        requires { Holds self.old keys.now }
        ensures { Trades self.old keys.now self.new [] }
    {
        for key in keys {
            self.give_back(Id { key: *key });
        }
    }

    /// The same value under one more holder. It takes no memory.
    pub fn keep(&mut self, id: &Id) -> Id
        requires used { IsSome (value_at self.old id.now) }
        requires room { outside self.old id.now < 2 ^ 126 }
        ensures same { result ≡ id.now }
        ensures trades { Trades self.old [] self.new (result ∷ []) }
    {
        let _live = self.cells.len();
        add_holder(&mut self.cells, id.key);
        Id { key: id.key }
    }

    /// The same as `keep` where there is room for one more holder, of which a value has at most 2^128 - 1; otherwise all is
    /// as it was. It takes no memory.
    pub fn try_keep(&mut self, id: &Id) -> Result<Id, NoMemory>
        requires { IsSome (value_at self.old id.now) }
        ensures same { IfOk result (λ more. more ≡ id.now) }
        ensures ok { IfOk result (λ more. Trades self.old [] self.new (more ∷ [])) }
        ensures err { OnErr result (self.new ≡ self.old) }
    {
        if !try_add_holder(&mut self.cells, id.key) {
            return Err(NoMemory);
        }
        Ok(Id { key: id.key })
    }

    /// One holder fewer. A value that has none left leaves the pool and gives its parts back, and so on. It takes no
    /// memory, and goes from cell to cell in a loop.
    pub fn give_back(&mut self, id: Id)
        requires { Holds self.old (id ∷ []) }
        ensures { Trades self.old (id ∷ []) self.new [] }
    {
        let first = lose_holder(&mut self.cells, id.key, None);
        release(&mut self.cells, &mut self.index, first);
    }

    /// Which of two values comes first, as `cmp_values` says; an id of no value of the pool counts as the process 0. It
    /// takes no memory.
    pub fn cmp(&self, a: &Id, b: &Id) -> Ordering
        ensures { result ≡ val_cmp (val_at self.now a.now) (val_at self.now b.now) }
    {
        if a.key == b.key {
            return Ordering::Equal;
        }
        let nothing = Value::Proc(0);
        cmp_values(
            held_or(&self.cells, a.key, &nothing),
            held_or(&self.cells, b.key, &nothing),
        )
    }

    /// The same for parts that may be missing; one that is missing counts as the process 0 too.
    pub fn cmp_parts(&self, a: Option<&Id>, b: Option<&Id>) -> Ordering
        ensures { result ≡ val_cmp (part_at self.now (option_copied a.entry)) (part_at self.now (option_copied b.entry)) }
    {
        let nothing = Value::Proc(0);
        cmp_values(
            part_or(&self.cells, a, &nothing),
            part_or(&self.cells, b, &nothing),
        )
    }

    /// The same for a part that may be missing against a value that is no part of the pool.
    pub fn cmp_value(&self, a: Option<&Id>, v: &Value) -> Ordering
        ensures { result ≡ val_cmp (part_at self.now (option_copied a.entry)) (val_of v.now) }
    {
        let nothing = Value::Proc(0);
        cmp_values(part_or(&self.cells, a, &nothing), v)
    }

    /// The part of a tuple, or the element of a set, at a place counted from 0, under one more holder; `None` exactly
    /// where there is none. It takes no memory.
    pub fn part(&mut self, id: &Id, i: usize) -> Option<Id>
        requires used { IsSome (value_at self.old id.now) }
        requires room { (k : ℕ) → value_at self.old k ≡ slice_get (children (val_at self.old id.now)) i → outside self.old k < 2 ^ 126 }
        ensures none { IfNone result (slice_get (children (val_at self.old id.now)) i ≡ None) }
        ensures some { IfSome result (λ part. slice_get (children (val_at self.old id.now)) i ≡ value_at self.new part) }
        ensures trades { IfSome result (λ part. Trades self.old [] self.new (part ∷ [])) }
        ensures same { IfNone result (self.new ≡ self.old) }
    {
        match part_key(&self.cells, id.key, i) {
            Some(key) => {
                let _live = self.cells.len();
                add_holder(&mut self.cells, key);
                Some(Id { key })
            }
            None => None,
        }
    }

    /// A copy of a value; of an id of no value of the pool, the process 0.
    pub fn value(&self, id: &Id) -> Result<Value, NoMemory>
        ensures { IfOk result (λ v. val_of v ≡ val_at self.now id.now) }
    {
        let nothing = Value::Proc(0);
        copy_value(self.alloc, held_or(&self.cells, id.key, &nothing))
    }

    /// How many values there are, parts included: as many as are held from outside or are within one that is. It takes
    /// no memory.
    pub fn live(&self) -> usize
        ensures count { result ≡ live_in self.now }
        ensures held { (set : List Val) → AreHeld self.now set → result ≡ length set }
        ensures one { IsOne self.now }
        ensures in_use { InUse self.now }
        ensures counted { IsCounted self.now }
    {
        let _ = &self.index;
        self.cells.len()
    }
}

// The value of an id that may be missing, or what stands for none.
fn part_or<'a>(cells: &'a Slab<Cell>, id: Option<&Id>, nothing: &'a Value) -> &'a Value
    requires { val_of nothing.now ≡ no_value }
    ensures { val_of result.now ≡ part_at cells.now.slots (option_copied id.entry) }
{
    match id {
        Some(id) => held_or(cells, id.key, nothing),
        None => nothing,
    }
}
