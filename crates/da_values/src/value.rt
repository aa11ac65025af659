//! Values as code keeps them.
ghost use Rattle.da_values.specs.Value.{val_of, vals};
ghost use Rattle.std.specs.Option.{option_copied, option_map};
ghost use Rattle.std.specs.Prelude.{◌≡◌, [], ◌∷◌, ◌++◌, ◌<◌, length, slice_get, slice_set, None, Some, IfSome, OnOk, OnErr};

use crate::list::{List, NoMemory};
use crate::read::ascends;
use crate::str::Str;
use std::alloc::Global;
use std::marker::Model;

/// A value of a program. Contracts compare it as `val_of` of it.
#[cycle(value)]
#[derive(Debug, Drop)]
pub enum Value {
    /// An integer. Slots, messages and sets hold those of an i64; only the aggregate of a row may be wider.
    Int(i128),
    /// A truth value.
    Bool(bool),
    /// A text.
    Text(Str),
    /// A process, by its number, which is at least 1.
    Proc(u16),
    /// A tuple.
    Tuple(Row),
    /// A set.
    Set(SetVal),
}

/// The parts of a tuple, or a row of values. Contracts see the list of them.
#[cycle(value)]
#[derive(Debug, Drop)]
pub struct Row {
    parts: List<Value>,
}

/// The elements of a set. Contracts see the list of them, which is strictly ascending in the order of values.
#[cycle(value)]
#[derive(Debug, Drop)]
pub struct SetVal {
    pub(crate) elements: List<Value>,
}

impl Model for Row {
    ghost use Rattle.da_values.specs.contracts.val.Val as val;
    ghost use Rattle.da_values.specs.declared.val.Val.{Val};
    ghost use Rattle.std.specs.Coded.{coded_list};
    ghost use Rattle.std.specs.Prelude.{List};

    ghost Value = { List Val };

    ghost coded = { coded_list val.the_row.coded };

    ghost use Rattle.da_values.specs.Value.{vals, weights};

    ghost view = { λ row. vals row.parts };

    ghost size = { weights };

    ghost use Rattle.da_values.specs.Weights.{most_le-weights};
    ghost use Rattle.std.proofs.Common.{arith};

    ghost size_decreases = { λ row h. omega (arith, most_le-weights row.parts) };
}

impl Model for SetVal {
    ghost use Rattle.da_values.specs.Order.{val_cmp};
    ghost use Rattle.da_values.specs.contracts.val.Val as val;
    ghost use Rattle.da_values.specs.declared.val.Val.{Val};
    ghost use Rattle.da_values.specs.Sets.{Ascends};
    ghost use Rattle.std.specs.Coded.{coded_list};
    ghost use Rattle.std.specs.Prelude.{List};

    ghost Value = { List Val };

    ghost coded = { coded_list val.the_row.coded };

    ghost use Rattle.da_values.specs.Value.{vals, weights};

    ghost view = { λ set. vals set.elements };

    ghost invariant = { λ set. Ascends val_cmp (vals set.elements) };

    ghost size = { weights };

    ghost use Rattle.da_values.specs.Weights.{most_le-weights};
    ghost use Rattle.std.proofs.Common.{arith};

    ghost size_decreases = { λ set h. omega (arith, most_le-weights set.elements) };
}

impl Row {
    /// The row of these parts.
    pub fn from_list(parts: List<Value>) -> Row
        ensures { result ≡ vals parts }
    {
        Row { parts }
    }

    /// The empty row. It takes no memory.
    pub fn new(alloc: Global) -> Row
        ensures { result ≡ [] }
    {
        Row {
            parts: List::new(alloc),
        }
    }

    /// How many parts there are.
    pub fn len(&self) -> usize
        ensures { result ≡ length self.now }
    {
        self.parts.len()
    }

    /// The part at a place, counted from 0, or `None` exactly where there is none.
    pub fn get(&self, at: usize) -> Option<&Value>
        ensures { option_map val_of (option_copied result) ≡ slice_get self.now at }
    {
        self.parts.get(at)
    }

    /// The parts.
    pub fn as_slice(&self) -> &[Value]
        ensures { vals result.now ≡ self.now }
    {
        self.parts.as_slice()
    }

    /// Puts a part in the place of one that is there, which is handed out. It takes no memory.
    pub fn replace(&mut self, at: usize, part: Value) -> Value
        requires { at < length self.old }
        ensures value { slice_get self.old at ≡ Some (val_of result) }
        ensures put { self.new ≡ slice_set self.old at (val_of part) }
    {
        self.parts.replace(at, part)
    }

    /// Adds a part at the end. Where memory is refused the part is dropped, and the row is as it was.
    pub fn push(&mut self, part: Value) -> Result<(), NoMemory>
        ensures ok { OnOk result (self.new ≡ self.old ++ val_of part ∷ []) }
        ensures err { OnErr result (self.new ≡ self.old) }
    {
        self.parts.push(part)
    }
}

impl SetVal {
    ghost use Rattle.da_values.specs.Order.{val_cmp};
    ghost use Rattle.da_values.specs.Sets.{Ascends};

    pub(crate) fn from_list(elements: List<Value>) -> SetVal
        requires { Ascends val_cmp (vals elements) }
        ensures { result ≡ vals elements }
    {
        SetVal { elements }
    }

    /// The set of these elements, or `None` exactly where one is not less than the next. It takes no memory.
    pub fn from_ascending(elements: List<Value>) -> Option<SetVal>
        ensures set { IfSome result (λ set. set ≡ vals elements) }
        ensures none { result ≡ None → Ascends val_cmp (vals elements) → ⊥ }
    {
        if ascends(elements.as_slice()) {
            Some(SetVal { elements })
        } else {
            None
        }
    }

    /// The empty set. It takes no memory.
    pub fn new(alloc: Global) -> SetVal
        ensures { result ≡ [] }
    {
        SetVal {
            elements: List::new(alloc),
        }
    }

    /// How many elements there are.
    pub fn len(&self) -> usize
        ensures { result ≡ length self.now }
    {
        self.elements.len()
    }

    /// The element at a place, counted from 0 and ascending, or `None` exactly where there is none.
    pub fn get(&self, at: usize) -> Option<&Value>
        ensures { option_map val_of (option_copied result) ≡ slice_get self.now at }
    {
        self.elements.get(at)
    }

    /// The elements, ascending.
    pub fn as_slice(&self) -> &[Value]
        ensures items { vals result.now ≡ self.now }
        ensures ascends { Ascends val_cmp self.now }
    {
        self.elements.as_slice()
    }
}
