//! The machine.
ghost use Rattle.da_machine.specs.Acts.{IsTaken, below, lower, pushed, top, upper};
ghost use Rattle.da_values.specs.Order.{val_cmp};
ghost use Rattle.da_values.specs.Sets.{canon};
ghost use Rattle.da_values.specs.Value.{val_of};
ghost use Rattle.da_values.specs.Views.{truth_of};
ghost use Rattle.da_values.specs.declared.val.Val.TheVariants as Val;
ghost use Rattle.std.specs.Option.{option_map};
ghost use Rattle.std.specs.Prelude.{◌≡◌, [], ◌+◌, ◌<◌, ◌≤◌, ◌^◌, length, IfOk, OnOk};

use crate::stack::{Rest, Stack, lefts};
use crate::values::truth;
use da_lang::FaultKind;
use da_values::{List, NoMemory, Row, Value};
use std::alloc::Global;

/// Where a run stops.
#[derive(Clone, Copy)]
pub enum Stop {
    /// Before the yield point of this number.
    Yield(u32),
    /// After the last statement.
    Ended,
    /// At a fault, on the line of its statement.
    Fault { kind: FaultKind, line: u32 },
}

/// The machine.
#[derive(Drop)]
pub struct Machine {
    /// Its place in the code.
    pub place: u64,
    /// The turns that the present event has taken.
    pub turns: u32,
    /// The line of the turn that it is in.
    pub(crate) line: u32,
    pub(crate) stack: Stack,
    /// The loops that it is in, the innermost one last.
    pub(crate) loops: List<Rest>,
}

impl Machine {
    /// A machine at an entry of the code, with no values. It takes no memory.
    pub fn new(alloc: Global, entry: u64) -> Machine
        ensures place { result.place ≡ entry }
        ensures turns { result.turns ≡ 0 }
        ensures loops { result.loops ≡ [] }
        ensures stack { result.stack ≡ [] }
    {
        Machine {
            place: entry,
            turns: 0,
            line: 0,
            stack: Stack::new(alloc),
            loops: List::new(alloc),
        }
    }

    /// Copies of what is left of each loop that it is in, the innermost one last.
    pub fn rests(&self, alloc: Global) -> Result<List<Row>, NoMemory>
        ensures { IfOk result (λ rests. rests ≡ self.now.loops) }
    {
        let rests = lefts(alloc, self.loops.as_slice())?;
        Ok(rests)
    }

    /// Puts a value on the stack, and goes on.
    #[inline(always)]
    pub(crate) fn push(&mut self, v: Value) -> Result<(), NoMemory>
        requires { self.old.place + 1 < 2 ^ 64 }
        ensures { OnOk result (self.new ≡ pushed self.old self.old.stack (val_of v)) }
    {
        self.stack.push(v)?;
        self.place += 1;
        Ok(())
    }

    /// Takes the top value off the stack.
    #[tactic(auto, using(crate::proofs::Stacks::top_last, crate::proofs::Stacks::below_last))]
    pub(crate) fn pop(&mut self) -> Value
        ensures value { val_of result ≡ top self.old.stack }
        ensures rest { self.new ≡ record self.old { stack = below self.old.stack } }
    {
        match self.stack.pop() {
            Some(v) => v,
            None => Value::Proc(0),
        }
    }

    /// Puts a value in the place of the two on top, and goes on.
    #[inline(always)]
    pub(crate) fn unite(&mut self, v: Value)
        requires room { self.old.place + 1 < 2 ^ 64 }
        requires two { 2 ≤ length self.old.stack }
        ensures { self.new ≡ pushed self.old (below (below self.old.stack)) (val_of v) }
    {
        self.stack.unite(v);
        self.place += 1;
    }

    /// Makes a tuple of the last values.
    pub(crate) fn pack(&mut self, alloc: Global, n: u16) -> Result<(), NoMemory>
        requires { self.old.place + 1 < 2 ^ 64 }
        ensures { OnOk result (self.new ≡ pushed self.old (lower n self.old.stack) (Val.Tuple (upper n self.old.stack))) }
    {
        let row = self.stack.take_tuple(alloc, n as usize)?;
        self.push(Value::Tuple(row))
    }

    /// Makes a set of the last values.
    pub(crate) fn collect(&mut self, alloc: Global, n: u32) -> Result<(), NoMemory>
        requires { self.old.place + 1 < 2 ^ 64 }
        ensures { OnOk result (self.new ≡ pushed self.old (lower n self.old.stack) (Val.Set (canon val_cmp (upper n self.old.stack)))) }
    {
        let set = self.stack.take_set(alloc, n as usize)?;
        self.push(Value::Set(set))
    }

    /// The next element of the innermost loop, or none where that is over, which is then left.
    #[tactic(auto, using(crate::proofs::Stacks::innermost_last, crate::proofs::Stacks::below_last))]
    pub(crate) fn take_next(&mut self, alloc: Global) -> Result<Option<Value>, NoMemory>
        ensures { IfOk result (λ found. IsTaken self.old self.new (option_map val_of found)) }
    {
        match self.loops.pop() {
            None => Ok(None),
            Some(rest) => {
                let mut rest = rest;
                match rest.next(alloc)? {
                    None => Ok(None),
                    Some(v) => {
                        self.loops.push(rest)?;
                        Ok(Some(v))
                    }
                }
            }
        }
    }

    /// Takes the top value off the stack, and answers whether it is true.
    #[tactic(auto, using(crate::proofs::Stacks::top_last, crate::proofs::Stacks::below_last, crate::proofs::ValueKinds::none_true))]
    #[inline(always)]
    pub(crate) fn pop_truth(&mut self) -> bool
        ensures truth { result ≡ truth_of (top self.old.stack) }
        ensures rest { self.new ≡ record self.old { stack = below self.old.stack } }
    {
        match self.stack.pop() {
            Some(v) => truth(v),
            None => false,
        }
    }
}
