//! Instructions of generated code.
use crate::tree::{ArithOp, CmpOp};
use da_values::{List, Value};

/// An instruction. Places in code and yield points are counted from 0.
#[derive(Debug, Drop)]
pub enum Instr {
    /// Begins a turn, which counts for this line.
    Turn(u32),
    /// Puts a value on the stack.
    Push(Value),
    /// Puts the process itself on the stack.
    Me,
    /// Puts the value of a slot on the stack.
    Slot(u16),
    /// Puts the clock on the stack.
    Clock,
    /// Puts the value of a query on the stack.
    Ask(u32),
    /// Makes a tuple of so many values.
    Pack(u16),
    /// Makes a set of so many values.
    Collect(u32),
    /// Makes the set of a range.
    Range,
    /// An arithmetic operation.
    Arith(ArithOp),
    /// A comparison.
    Cmp(CmpOp),
    /// Whether a value is an element of a set.
    Member,
    /// The other truth value.
    Not,
    /// Goes on elsewhere.
    Jump(u64),
    /// Goes on elsewhere where true is on top.
    JumpIf(u64),
    /// Goes on elsewhere where false is on top.
    JumpUnless(u64),
    /// Assigns to a slot.
    SetSlot(u16),
    /// Adds an element to the set in a slot.
    Add(u16),
    /// Deletes an element from the set in a slot.
    Del(u16),
    /// Sends a message.
    Send,
    /// Prints a value.
    Output,
    /// Begins a loop over the elements of a set.
    Take,
    /// Takes the next element of the innermost loop into the slot, or leaves the loop.
    Next { slot: u16, done: u64 },
    /// Binds the least row of a query.
    Found { query: u32, slots: List<u16> },
    /// The yield point of this number.
    Yield(u32),
    /// The end of the statements.
    End,
}
