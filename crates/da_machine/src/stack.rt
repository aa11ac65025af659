//! What the machine keeps while it runs: values, and the rests of loops.
ghost use Rattle.da_machine.specs.Acts.{below, lower, top, upper};
ghost use Rattle.da_values.specs.Order.{val_cmp};
ghost use Rattle.da_values.specs.Sets.{canon};
ghost use Rattle.da_values.specs.Value.{val_of, vals};
ghost use Rattle.da_values.specs.Views.{elements_of, int_of};
ghost use Rattle.da_values.specs.declared.val.Val.TheVariants as Val;
ghost use Rattle.std.specs.Prelude.{◌≡◌, ◌≤◌, [], ◌∷◌, ◌++◌, drop, length, reverse, true, IfOk, MatchOption, OnOk};

use crate::sets::{add_value, set_of_all};
use crate::values::set_of;
use da_values::{List, NoMemory, Row, SetVal, Value, copy_value};
use std::alloc::Global;
use std::marker::Model;
use std::mem;

/// Values one upon the other. Contracts see the list of them, the top one last.
#[derive(Drop)]
pub struct Stack {
    values: List<Value>,
}

impl Model for Stack {
    ghost use Rattle.da_values.specs.Value.{vals};
    ghost use Rattle.da_values.specs.contracts.val.Val as val;
    ghost use Rattle.da_values.specs.declared.val.Val.{Val};
    ghost use Rattle.std.specs.Coded.{coded_list};
    ghost use Rattle.std.specs.Prelude.{List};

    ghost Value = { List Val };

    ghost coded = { coded_list val.the_row.coded };

    ghost view = { λ stack. vals stack.values };
}

/// The rest of a loop over a set. Contracts see the list of the elements that are left, ascending.
#[derive(Drop)]
pub struct Rest {
    set: SetVal,
    taken: usize,
}

impl Model for Rest {
    ghost use Rattle.da_values.specs.contracts.val.Val as val;
    ghost use Rattle.da_values.specs.declared.val.Val.{Val};
    ghost use Rattle.std.specs.Coded.{coded_list};
    ghost use Rattle.std.specs.Prelude.{List, drop};

    ghost Value = { List Val };

    ghost coded = { coded_list val.the_row.coded };

    ghost view = { λ rest. drop rest.taken rest.set };
}

impl Stack {
    /// The empty stack. It takes no memory.
    pub fn new(alloc: Global) -> Stack
        ensures { result ≡ [] }
    {
        Stack {
            values: List::new(alloc),
        }
    }

    /// How many values there are.
    pub fn len(&self) -> usize
        ensures { result ≡ length self.now }
    {
        self.values.len()
    }

    /// Puts a value on top.
    pub fn push(&mut self, value: Value) -> Result<(), NoMemory>
        ensures { OnOk result (self.new ≡ self.old ++ val_of value ∷ []) }
    {
        self.values.push(value)
    }

    /// Takes the top value, or answers `None` exactly where there is none.
    pub fn pop(&mut self) -> Option<Value>
        ensures { MatchOption result ((self.old ≡ []) × (self.new ≡ [])) (λ top. self.old ≡ self.new ++ val_of top ∷ []) }
    {
        self.values.pop()
    }

    /// Lets all values go. It takes no memory.
    pub fn clear(&mut self)
        ensures { self.new ≡ [] }
    {
        self.values.truncate(0);
    }

    /// Whether the two values on top are there, and are integers.
    #[inline(always)]
    #[tactic(auto, using(crate::proofs::Stacks::top_at, crate::proofs::Stacks::second_at))]
    pub fn are_numbers(&self) -> bool
        ensures two { result ≡ true → 2 ≤ length self.now }
        ensures first { result ≡ true → top (below self.now) ≡ Val.Int (int_of (top (below self.now))) }
        ensures second { result ≡ true → top self.now ≡ Val.Int (int_of (top self.now)) }
    {
        match self.values.as_slice() {
            [.., a, b] => is_integer(a) && is_integer(b),
            _ => false,
        }
    }

    /// The number below the top.
    #[inline(always)]
    #[tactic(auto, using(crate::proofs::Stacks::second_at))]
    pub fn first_number(&self) -> i128
        requires { 2 ≤ length self.now }
        ensures { result ≡ int_of (top (below self.now)) }
    {
        match self.values.as_slice() {
            [.., a, _] => integer(a),
            _ => 0,
        }
    }

    /// The number on top.
    #[inline(always)]
    #[tactic(auto, using(crate::proofs::Stacks::top_at))]
    pub fn second_number(&self) -> i128
        requires { 2 ≤ length self.now }
        ensures { result ≡ int_of (top self.now) }
    {
        match self.values.as_slice() {
            [.., _, b] => integer(b),
            _ => 0,
        }
    }

    /// Puts a value in the place of the two on top, which are numbers: they are let go, since they own nothing.
    #[inline(always)]
    #[tactic(auto, using(crate::proofs::Stacks::united, crate::proofs::Stacks::more_below))]
    pub fn unite(&mut self, value: Value)
        requires { 2 ≤ length self.old }
        ensures { self.new ≡ below (below self.old) ++ val_of value ∷ [] }
    {
        if let Some(top) = self.values.pop() {
            mem::forget(top);
            let last = self.values.len() - 1;
            mem::forget(self.values.replace(last, value));
        }
    }

    /// Takes the last `n` values as a tuple.
    pub fn take_tuple(&mut self, alloc: Global, n: usize) -> Result<Row, NoMemory>
        ensures { IfOk result (λ row. (row ≡ upper n self.old) × (self.new ≡ lower n self.old)) }
    {
        let turned = self.take_turned(alloc, n)?;
        Ok(turned.unturned())
    }

    /// Takes the last `n` values as a set.
    pub fn take_set(&mut self, alloc: Global, n: usize) -> Result<SetVal, NoMemory>
        ensures { IfOk result (λ set. (set ≡ canon val_cmp (upper n self.old)) × (self.new ≡ lower n self.old)) }
    {
        let turned = self.take_turned(alloc, n)?;
        turned.collected(alloc)
    }

    // The last `n` values, the first of them on top.
    fn take_turned(&mut self, alloc: Global, n: usize) -> Result<Stack, NoMemory>
        ensures { IfOk result (λ turned. (reverse turned ≡ upper n self.old) × (self.new ≡ lower n self.old)) }
    {
        let keep = self.len().saturating_sub(n);
        let mut turned = Stack::new(alloc);
        'values: while self.len() > keep {
            if let Some(value) = self.pop() {
                turned.push(value)?;
            }
        }
        Ok(turned)
    }

    // The values from the top down as a row. It takes no memory.
    #[tactic(auto, using(crate::proofs::Stacks::vals_turned))]
    fn unturned(self) -> Row
        ensures { result ≡ reverse self }
    {
        let mut values = self.values;
        values.reverse();
        Row::from_list(values)
    }

    // The set of the values.
    fn collected(self, alloc: Global) -> Result<SetVal, NoMemory>
        ensures { IfOk result (λ set. set ≡ canon val_cmp (reverse self)) }
    {
        let mut left = self;
        let mut values = Vec::new(alloc);
        'values: while let Some(value) = left.pop() {
            add_value(&mut values, value)?;
        }
        set_of_all(alloc, values)
    }
}

// Whether a value is an integer.
#[inline(always)]
#[tactic(auto, using(crate::proofs::ValueKinds::viewing))]
fn is_integer(v: &Value) -> bool
    ensures { result ≡ true → val_of v.now ≡ Val.Int (int_of (val_of v.now)) }
{
    match v {
        Value::Int(_) => true,
        _ => false,
    }
}

// The number of an integer; what is none counts as 0.
#[inline(always)]
#[tactic(auto, using(crate::proofs::ValueKinds::viewing))]
fn integer(v: &Value) -> i128
    ensures { result ≡ int_of (val_of v.now) }
{
    match v {
        Value::Int(number) => *number,
        Value::Bool(_) => 0,
        Value::Text(_) => 0,
        Value::Proc(_) => 0,
        Value::Tuple(_) => 0,
        Value::Set(_) => 0,
    }
}

impl Rest {
    /// A loop over a set; what is no set has no elements.
    pub fn new(alloc: Global, value: Value) -> Rest
        ensures { result ≡ elements_of (val_of value) }
    {
        Rest {
            set: set_of(alloc, value),
            taken: 0,
        }
    }

    /// Takes the next element, or answers `None` exactly where none is left.
    #[tactic(auto, using(crate::proofs::Stacks::dropped_next, crate::proofs::Stacks::dropped_none))]
    pub fn next(&mut self, alloc: Global) -> Result<Option<Value>, NoMemory>
        ensures { IfOk result (λ next. MatchOption next ((self.old ≡ []) × (self.new ≡ [])) (λ first. self.old ≡ val_of first ∷ self.new)) }
    {
        if self.taken >= self.set.len() {
            return Ok(None);
        }
        match self.set.get(self.taken) {
            None => Ok(None),
            Some(value) => {
                let first = copy_value(alloc, value)?;
                self.taken += 1;
                Ok(Some(first))
            }
        }
    }

    /// Copies of the elements that are left.
    pub fn left(&self, alloc: Global) -> Result<Row, NoMemory>
        ensures { IfOk result (λ left. left ≡ self.now) }
    {
        let left = copies_from(alloc, self.set.as_slice(), self.taken)?;
        Ok(left)
    }
}

/// Copies of what is left of each of some loops.
pub fn lefts(alloc: Global, loops: &[Rest]) -> Result<List<Row>, NoMemory>
    ensures { IfOk result (λ copies. copies ≡ loops.now) }
{
    let mut copies = List::new(alloc);
    for rest in loops {
        copies.push(rest.left(alloc)?)?;
    }
    Ok(copies)
}

// Copies of the values from a place on.
fn copies_from(alloc: Global, values: &[Value], place: usize) -> Result<Row, NoMemory>
    ensures { IfOk result (λ row. row ≡ drop place (vals values.now)) }
{
    let mut row = Row::new(alloc);
    for at in place..values.len() {
        row.push(copy_value(alloc, &values[at])?)?;
    }
    Ok(row)
}
