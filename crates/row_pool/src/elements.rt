//! Sets of a pool that get an element, or lose one.
ghost use Rattle.da_values.specs.Order.{val_cmp};
ghost use Rattle.da_values.specs.Places.{IsAt, IsBetween};
ghost use Rattle.da_values.specs.Sets.{Ascends, Has, set_insert as insert_def, set_remove as remove_def};
ghost use Rattle.da_values.specs.Value.{val_of};
ghost use Rattle.da_values.specs.Views.{elements_of};
ghost use Rattle.da_values.specs.declared.val.Val.TheVariants as val;
ghost use Rattle.row_pool.specs.Cells.{holders_at, value_at};
ghost use Rattle.row_pool.specs.Marks.{IsFree, mark as mark_def};
ghost use Rattle.row_pool.specs.Pool.{Holds, IsUnchanged, Trades, val_at};
ghost use Rattle.row_pool.specs.Sets.{CanGrow, CanShrink, is_set, set_with, set_without};
ghost use Rattle.std.specs.Prelude.{◌≡◌, ◌∷◌, [], ℕ, IfOk, IsTrue, MatchBool, MatchResult, OnErr, OnOk, Some, false, true};

use crate::cells::mark_at;
use crate::index::is_free;
use crate::marks::{hash_of, with_hash, without_hash};
use crate::pool::{Id, Pool};
use crate::sets::{grow_cell, has_set, is_alone, place_at, shrink_cell};
use da_values::{NoMemory, SetVal, Value, copy_value, set_insert, set_remove};
use std::alloc::Global;

/// The id of a set that takes the place of another id, and whether an element came or left.
#[derive(Drop)]
pub struct Exchanged {
    pub id: Id,
    pub moved: bool,
}

impl Pool {
    /// The id of the set that an id names, with a value in it, for which that id is given back. An id of anything but a set
    /// counts as that of the empty set. Where nobody else holds the set it changes where it stands, and its other elements are
    /// not looked at but to find the place. Where memory is refused, or a value on the way has 2^128 - 1 holders, all is as it
    /// was.
    pub fn with_element(&mut self, id: &Id, v: &Value) -> Result<Exchanged, NoMemory>
        requires { Holds self.old (id.now ∷ []) }
        ensures value { IfOk result (λ to. value_at self.new to.id
            ≡ Some (val.Set (insert_def val_cmp (elements_of (val_at self.old id.now)) (val_of v.now)))) }
        ensures fresh { IfOk result (λ to. MatchBool to.moved
            (Has (elements_of (val_at self.old id.now)) (val_of v.now) → ⊥)
            (Has (elements_of (val_at self.old id.now)) (val_of v.now))) }
        ensures ok { IfOk result (λ to. Trades self.old (id.now ∷ []) self.new (to.id ∷ [])) }
        ensures err { OnErr result (IsUnchanged self.old self.new) }
    {
        let _ = &self.index;
        let outcome = self.joined(id, v);
        let _ = &self.index;
        outcome
    }

    /// The same without a value.
    pub fn without_element(&mut self, id: &Id, v: &Value) -> Result<Exchanged, NoMemory>
        requires { Holds self.old (id.now ∷ []) }
        ensures value { IfOk result (λ to. value_at self.new to.id
            ≡ Some (val.Set (remove_def val_cmp (elements_of (val_at self.old id.now)) (val_of v.now)))) }
        ensures there { IfOk result (λ to. MatchBool to.moved
            (Has (elements_of (val_at self.old id.now)) (val_of v.now))
            (Has (elements_of (val_at self.old id.now)) (val_of v.now) → ⊥)) }
        ensures ascends { Ascends val_cmp (elements_of (val_at self.old id.now)) }
        ensures ok { IfOk result (λ to. Trades self.old (id.now ∷ []) self.new (to.id ∷ [])) }
        ensures err { OnErr result (IsUnchanged self.old self.new) }
    {
        let _ = &self.index;
        let outcome = self.parted(id, v);
        let _ = &self.index;
        outcome
    }

    // Where a value is in the set that an id names, or else where it belongs.
    fn place_of(&self, id: &Id, v: &Value) -> Result<usize, usize>
        ensures found { MatchResult result
            (IsAt val_cmp (elements_of (val_at self.now id.now)) (val_of v.now))
            (IsBetween val_cmp (elements_of (val_at self.now id.now)) (val_of v.now)) }
        ensures ascends { Ascends val_cmp (elements_of (val_at self.now id.now)) }
    {
        place_at(&self.cells, id.key, v)
    }

    // Whether the set of an id may get a number where it stands: it has no other holder, and no value has the number.
    fn may_get(&self, id: &Id, mark: u64) -> bool
        ensures one { IsTrue result → holders_at self.now id.now ≡ 1 }
        ensures set { IsTrue result → is_set (val_at self.now id.now) ≡ true }
        ensures free { IsTrue result → IsFree self.now mark }
    {
        if !is_alone(&self.cells, id.key) {
            return false;
        }
        is_free(&self.index, mark)
    }

    // Whether an id names a set.
    fn names_set(&self, id: &Id) -> bool
        ensures { IsTrue result → is_set (val_at self.now id.now) ≡ true }
    {
        has_set(&self.cells, id.key)
    }

    // WITH AN ELEMENT

    // The set that an id names, with a value in it.
    fn joined(&mut self, id: &Id, v: &Value) -> Result<Exchanged, NoMemory>
        requires { Holds self.old (id.now ∷ []) }
        ensures value { IfOk result (λ to. value_at self.new to.id ≡ Some (set_with self.old id.now (val_of v.now))) }
        ensures fresh { IfOk result (λ to. MatchBool to.moved
            (Has (elements_of (val_at self.old id.now)) (val_of v.now) → ⊥)
            (Has (elements_of (val_at self.old id.now)) (val_of v.now))) }
        ensures ok { IfOk result (λ to. Trades self.old (id.now ∷ []) self.new (to.id ∷ [])) }
        ensures err { OnErr result (Trades self.old [] self.new []) }
    {
        match self.place_of(id, v) {
            Ok(_) => Ok(unchanged(same(id))),
            Err(at) => self.put_in(id, at, v),
        }
    }

    // The same of a value that is not there, and belongs at a place.
    fn put_in(&mut self, id: &Id, at: usize, v: &Value) -> Result<Exchanged, NoMemory>
        requires held { Holds self.old (id.now ∷ []) }
        requires between { IsBetween val_cmp (elements_of (val_at self.old id.now)) (val_of v.now) at }
        ensures value { IfOk result (λ to. value_at self.new to.id ≡ Some (set_with self.old id.now (val_of v.now))) }
        ensures moved { IfOk result (λ to. to.moved ≡ true) }
        ensures ok { IfOk result (λ to. Trades self.old (id.now ∷ []) self.new (to.id ∷ [])) }
        ensures err { OnErr result (Trades self.old [] self.new []) }
    {
        let element = self.intern_value(v)?;
        self.put_element(id, at, v, element)
    }

    // The same with the id of the value, which is held for the set.
    fn put_element(
        &mut self,
        id: &Id,
        at: usize,
        v: &Value,
        element: Id,
    ) -> Result<Exchanged, NoMemory>
        requires held { Holds self.old (id.now ∷ element ∷ []) }
        requires between { IsBetween val_cmp (elements_of (val_at self.old id.now)) (val_of v.now) at }
        requires named { value_at self.old element ≡ Some (val_of v.now) }
        ensures value { IfOk result (λ to. value_at self.new to.id ≡ Some (set_with self.old id.now (val_of v.now))) }
        ensures moved { IfOk result (λ to. to.moved ≡ true) }
        ensures ok { IfOk result (λ to. Trades self.old (id.now ∷ element ∷ []) self.new (to.id ∷ [])) }
        ensures err { OnErr result (Trades self.old (element ∷ []) self.new []) }
    {
        let mark = self.mark_with(id, v);
        if !self.may_get(id, mark) {
            return self.copy_in(id, v, element);
        }
        self.grow(id, at, v, element, mark)
    }

    // The number that a set has with a value that is not in it.
    fn mark_with(&self, id: &Id, v: &Value) -> u64
        ensures { is_set (val_at self.now id.now) ≡ true → (at : ℕ)
            → IsBetween val_cmp (elements_of (val_at self.now id.now)) (val_of v.now) at → result ≡ mark_def (set_with self.now id.now (val_of v.now)) }
    {
        let old = mark_at(&self.cells, id.key);
        let hash = hash_of(v);
        with_hash(old, hash)
    }

    // An element comes into a set where it stands.
    fn grow(
        &mut self,
        id: &Id,
        at: usize,
        v: &Value,
        element: Id,
        mark: u64,
    ) -> Result<Exchanged, NoMemory>
        requires { CanGrow self.old id.now element at (val_of v.now) mark }
        ensures value { IfOk result (λ to. value_at self.new to.id ≡ Some (set_with self.old id.now (val_of v.now))) }
        ensures moved { IfOk result (λ to. to.moved ≡ true) }
        ensures ok { IfOk result (λ to. Trades self.old (id.now ∷ element ∷ []) self.new (to.id ∷ [])) }
        ensures err { OnErr result (Trades self.old (element ∷ []) self.new []) }
    {
        match self.grow_here(id, at, v, &element, mark) {
            Ok(()) => Ok(changed(same(id))),
            Err(NoMemory) => {
                self.give_back(element);
                Err(NoMemory)
            }
        }
    }

    // The same, where the id of the element stays with the caller if memory is refused.
    fn grow_here(
        &mut self,
        id: &Id,
        at: usize,
        v: &Value,
        element: &Id,
        mark: u64,
    ) -> Result<(), NoMemory>
        requires { CanGrow self.old id.now element.now at (val_of v.now) mark }
        ensures value { OnOk result (value_at self.new id.now ≡ Some (set_with self.old id.now (val_of v.now))) }
        ensures ok { OnOk result (Trades self.old (id.now ∷ element.now ∷ []) self.new (id.now ∷ [])) }
        ensures err { OnErr result (self.new ≡ self.old) }
    {
        match grow_cell(
            self.alloc,
            &mut self.cells,
            &mut self.index,
            id.key,
            at,
            v,
            element.key,
            mark,
        ) {
            Ok(()) => Ok(()),
            Err(NoMemory) => Err(NoMemory),
        }
    }

    // A copy of a set gets a value, of which the id is given back, and takes the place of the set.
    fn copy_in(&mut self, id: &Id, v: &Value, element: Id) -> Result<Exchanged, NoMemory>
        requires { Holds self.old (id.now ∷ element ∷ []) }
        ensures value { IfOk result (λ to. value_at self.new to.id ≡ Some (set_with self.old id.now (val_of v.now))) }
        ensures moved { IfOk result (λ to. to.moved ≡ true) }
        ensures ok { IfOk result (λ to. Trades self.old (id.now ∷ element ∷ []) self.new (to.id ∷ [])) }
        ensures err { OnErr result (Trades self.old (element ∷ []) self.new []) }
    {
        self.give_back(element);
        self.copy_with(id, v)
    }

    // A copy of a set gets a value, and takes its place.
    fn copy_with(&mut self, id: &Id, v: &Value) -> Result<Exchanged, NoMemory>
        requires { Holds self.old (id.now ∷ []) }
        ensures value { IfOk result (λ to. value_at self.new to.id ≡ Some (set_with self.old id.now (val_of v.now))) }
        ensures moved { IfOk result (λ to. to.moved ≡ true) }
        ensures ok { IfOk result (λ to. Trades self.old (id.now ∷ []) self.new (to.id ∷ [])) }
        ensures err { OnErr result (Trades self.old [] self.new []) }
    {
        let set = self.set_with_value(id, v)?;
        self.in_place_of(id, set, true)
    }

    // A copy of the set that an id names, with a value in it.
    fn set_with_value(&self, id: &Id, v: &Value) -> Result<SetVal, NoMemory>
        ensures { IfOk result (λ set. set ≡ insert_def val_cmp (elements_of (val_at self.now id.now)) (val_of v.now)) }
    {
        let mut set = self.set_of(id)?;
        let element = copy_value(self.alloc, v)?;
        set_insert(&mut set, element)?;
        Ok(set)
    }

    // WITHOUT AN ELEMENT

    // The set that an id names, without a value.
    fn parted(&mut self, id: &Id, v: &Value) -> Result<Exchanged, NoMemory>
        requires { Holds self.old (id.now ∷ []) }
        ensures value { IfOk result (λ to. value_at self.new to.id ≡ Some (set_without self.old id.now (val_of v.now))) }
        ensures there { IfOk result (λ to. MatchBool to.moved
            (Has (elements_of (val_at self.old id.now)) (val_of v.now))
            (Has (elements_of (val_at self.old id.now)) (val_of v.now) → ⊥)) }
        ensures ascends { Ascends val_cmp (elements_of (val_at self.old id.now)) }
        ensures ok { IfOk result (λ to. Trades self.old (id.now ∷ []) self.new (to.id ∷ [])) }
        ensures err { OnErr result (Trades self.old [] self.new []) }
    {
        match self.place_of(id, v) {
            Ok(at) => self.take_out(id, at, v),
            Err(_) => self.leave_out(id, v),
        }
    }

    // The same of a value that is at a place.
    fn take_out(&mut self, id: &Id, at: usize, v: &Value) -> Result<Exchanged, NoMemory>
        requires held { Holds self.old (id.now ∷ []) }
        requires there { IsAt val_cmp (elements_of (val_at self.old id.now)) (val_of v.now) at }
        ensures value { IfOk result (λ to. value_at self.new to.id ≡ Some (set_without self.old id.now (val_of v.now))) }
        ensures moved { IfOk result (λ to. to.moved ≡ true) }
        ensures ok { IfOk result (λ to. Trades self.old (id.now ∷ []) self.new (to.id ∷ [])) }
        ensures err { OnErr result (Trades self.old [] self.new []) }
    {
        let mark = self.mark_without(id, v);
        if !self.may_get(id, mark) {
            return self.copy_without(id, v, true);
        }
        self.shrink(id, at, v, mark)
    }

    // The number that a set has without a value that is in it.
    fn mark_without(&self, id: &Id, v: &Value) -> u64
        ensures { (at : ℕ) → IsAt val_cmp (elements_of (val_at self.now id.now)) (val_of v.now) at → result ≡ mark_def (set_without self.now id.now (val_of v.now)) }
    {
        let old = mark_at(&self.cells, id.key);
        let hash = hash_of(v);
        without_hash(old, hash)
    }

    // An element leaves a set where it stands.
    fn shrink(&mut self, id: &Id, at: usize, v: &Value, mark: u64) -> Result<Exchanged, NoMemory>
        requires { CanShrink self.old id.now at (val_of v.now) mark }
        ensures value { IfOk result (λ to. value_at self.new to.id ≡ Some (set_without self.old id.now (val_of v.now))) }
        ensures moved { IfOk result (λ to. to.moved ≡ true) }
        ensures ok { IfOk result (λ to. Trades self.old (id.now ∷ []) self.new (to.id ∷ [])) }
        ensures err { OnErr result (Trades self.old [] self.new []) }
    {
        match self.shrink_here(id, at, v, mark) {
            Ok(part) => {
                self.give_back(part);
                Ok(changed(same(id)))
            }
            Err(NoMemory) => Err(NoMemory),
        }
    }

    // The same, where the caller gets the id of the element.
    fn shrink_here(&mut self, id: &Id, at: usize, v: &Value, mark: u64) -> Result<Id, NoMemory>
        requires { CanShrink self.old id.now at (val_of v.now) mark }
        ensures value { OnOk result (value_at self.new id.now ≡ Some (set_without self.old id.now (val_of v.now))) }
        ensures ok { IfOk result (λ part. Trades self.old (id.now ∷ []) self.new (part ∷ id.now ∷ [])) }
        ensures err { OnErr result (self.new ≡ self.old) }
    {
        match shrink_cell(
            self.alloc,
            &mut self.cells,
            &mut self.index,
            id.key,
            at,
            v,
            mark,
        ) {
            Ok(key) => Ok(Id { key }),
            Err(NoMemory) => Err(NoMemory),
        }
    }

    // The same of a value that is not there: a set stays as it is.
    fn leave_out(&mut self, id: &Id, v: &Value) -> Result<Exchanged, NoMemory>
        requires held { Holds self.old (id.now ∷ []) }
        requires absent { remove_def val_cmp (elements_of (val_at self.old id.now)) (val_of v.now) ≡ elements_of (val_at self.old id.now) }
        ensures value { IfOk result (λ to. value_at self.new to.id ≡ Some (set_without self.old id.now (val_of v.now))) }
        ensures moved { IfOk result (λ to. to.moved ≡ false) }
        ensures ok { IfOk result (λ to. Trades self.old (id.now ∷ []) self.new (to.id ∷ [])) }
        ensures err { OnErr result (Trades self.old [] self.new []) }
    {
        if !self.names_set(id) {
            return self.copy_without(id, v, false);
        }
        Ok(unchanged(same(id)))
    }

    // A copy of a set loses a value, if it is there, and takes its place.
    fn copy_without(&mut self, id: &Id, v: &Value, moved: bool) -> Result<Exchanged, NoMemory>
        requires { Holds self.old (id.now ∷ []) }
        ensures value { IfOk result (λ to. value_at self.new to.id ≡ Some (set_without self.old id.now (val_of v.now))) }
        ensures moved { IfOk result (λ to. to.moved ≡ moved) }
        ensures ok { IfOk result (λ to. Trades self.old (id.now ∷ []) self.new (to.id ∷ [])) }
        ensures err { OnErr result (Trades self.old [] self.new []) }
    {
        let set = self.set_without_value(id, v)?;
        self.in_place_of(id, set, moved)
    }

    // A copy of the set that an id names, without a value.
    fn set_without_value(&self, id: &Id, v: &Value) -> Result<SetVal, NoMemory>
        ensures { IfOk result (λ set. set ≡ remove_def val_cmp (elements_of (val_at self.now id.now)) (val_of v.now)) }
    {
        let mut set = self.set_of(id)?;
        let _ = set_remove(&mut set, v);
        Ok(set)
    }

    // COPIES

    // A copy of the set that an id names, or the empty set where it names none.
    fn set_of(&self, id: &Id) -> Result<SetVal, NoMemory>
        ensures { IfOk result (λ set. set ≡ elements_of (val_at self.now id.now)) }
    {
        let v = self.value(id)?;
        Ok(set_in(self.alloc, v))
    }

    // The id of a set, for which another id is given back.
    fn in_place_of(&mut self, id: &Id, set: SetVal, moved: bool) -> Result<Exchanged, NoMemory>
        requires { Holds self.old (id.now ∷ []) }
        ensures value { IfOk result (λ to. value_at self.new to.id ≡ Some (val.Set set)) }
        ensures moved { IfOk result (λ to. to.moved ≡ moved) }
        ensures ok { IfOk result (λ to. Trades self.old (id.now ∷ []) self.new (to.id ∷ [])) }
        ensures err { OnErr result (Trades self.old [] self.new []) }
    {
        let value = Value::Set(set);
        let joined = self.intern_value(&value)?;
        let left = same(id);
        self.give_back(left);
        Ok(Exchanged { id: joined, moved })
    }
}

// The set that a value is, or the empty one where it is none.
#[tactic(auto, using(crate::proofs::KindLaws::viewing))]
fn set_in(alloc: Global, v: Value) -> SetVal
    ensures { result ≡ elements_of (val_of v) }
{
    match v {
        Value::Set(set) => set,
        _ => SetVal::new(alloc),
    }
}

// The same id.
fn same(id: &Id) -> Id
    ensures { result ≡ id.now }
{
    Id { key: id.key }
}

// An id for another one, where an element came or left.
fn changed(id: Id) -> Exchanged
    ensures id { result.id ≡ id }
    ensures moved { result.moved ≡ true }
{
    Exchanged { id, moved: true }
}

// The same where nothing moved.
fn unchanged(id: Id) -> Exchanged
    ensures id { result.id ≡ id }
    ensures moved { result.moved ≡ false }
{
    Exchanged { id, moved: false }
}
