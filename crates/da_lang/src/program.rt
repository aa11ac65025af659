//! Resolved programs: what is left of a text once its names are found.
//!
//! The slots of a class are numbered from 1: its variables, and then the parameters and the variables of loops, of what
//! a `some` binds and of handlers, as the inlined `setup`, `run` and handlers meet them. An expression within another type stands in a `Boxed` or a `List`, as in trees.
use crate::query::{Cond, Pattern, Query};
use crate::tree::{ArithOp, CmpOp, MessageDecl};
use crate::ty::{ChannelKind, Name, Ty};
use da_values::{Boxed, List, Value};

/// A program: its messages and classes in text order, and its processes in the order in which `main` makes them.
#[derive(Drop)]
pub struct Program {
    pub kind: ChannelKind,
    pub messages: List<MessageDecl>,
    pub classes: List<Class>,
    pub procs: List<ProcDecl>,
}

/// A process that `main` makes, of the class at this place in the program, counted from 0, with its line of `setup`.
#[derive(Drop)]
pub struct ProcDecl {
    pub class: u16,
    pub setup: Option<SetupCall>,
}

/// A line of `setup`, by its arguments.
#[derive(Drop)]
pub struct SetupCall {
    pub args: List<RExpr>,
    pub line: u32,
}

/// A class, with its calls inlined. The line is that of its header.
#[derive(Drop)]
pub struct Class {
    /// The name.
    pub name: Name,
    /// The types of the slots, where they are known.
    pub slots: List<Option<Ty>>,
    /// The slots of the parameters of `setup`.
    pub params: List<u16>,
    /// The statements of `setup`.
    pub setup: List<Item>,
    /// The statements of `run`.
    pub run: List<Item>,
    /// The handlers, in text order.
    pub handlers: List<Handler>,
    /// The numbered queries.
    pub queries: List<Query>,
    /// The line of `class`.
    pub line: u32,
}

/// A handler. `binds` are the slots that take the parts of the row of its two patterns. `at` are the labels at which it is
/// open; it is open everywhere where there are none. The line is that of `receive`.
#[derive(Drop)]
pub struct Handler {
    pub message: Pattern,
    pub from: Pattern,
    pub at: List<u32>,
    pub binds: List<u16>,
    pub body: List<Item>,
    pub line: u32,
}

/// A statement, with the line where it begins.
#[cycle(item)]
#[derive(Drop)]
pub struct Item {
    pub line: u32,
    pub kind: ItemKind,
}

/// What a statement does.
#[cycle(item)]
#[derive(Drop)]
pub enum ItemKind {
    /// Assigns to a slot.
    Assign(u16, Boxed<RExpr>),
    /// Adds an element to the set in a slot.
    Add(u16, Boxed<RExpr>),
    /// Deletes an element from the set in a slot.
    Del(u16, Boxed<RExpr>),
    /// Sends a message, the first, to a process or to each of a set of them.
    Send(Boxed<RExpr>, Boxed<RExpr>),
    /// Prints a value.
    Output(Boxed<RExpr>),
    /// Takes the first branch whose condition holds, or else the other statements.
    If(List<RBranch>, List<Item>),
    /// Goes round while the condition holds.
    While(Boxed<RExpr>, List<Item>),
    /// Takes each element of a set into a slot, ascending, and goes round with it.
    For(u16, Boxed<RExpr>, List<Item>),
    /// A method's statements in the place of the call, with its arguments.
    Call(List<BindArg>, List<Item>),
    /// Waits for one of the alternatives; a `timeout` block is taken when time runs out. `label` numbers the label of the line
    /// above, where that line is a label of this block.
    Await {
        alts: List<Alt>,
        timeout: Option<List<Item>>,
        label: Option<u32>,
    },
    /// A yield point that only a move leaves. Its number counts the labels of the class, from 1, as they are written.
    Label(u32),
    /// Does nothing.
    Pass,
}

/// A branch of an `if`, with the line of its header. Where the condition is a `some`, `found` numbers that query, and
/// the slots `binds` take the least row that it finds, part by part.
#[cycle(item)]
#[derive(Drop)]
pub struct RBranch {
    pub cond: Boxed<RExpr>,
    pub found: Option<u32>,
    pub binds: List<u16>,
    pub body: List<Item>,
    pub line: u32,
}

/// An argument, and the slot of its parameter.
#[derive(Drop)]
pub struct BindArg {
    pub slot: u16,
    pub value: Boxed<RExpr>,
}

/// An alternative of an `await`, as a branch is.
#[cycle(item)]
#[derive(Drop)]
pub struct Alt {
    pub cond: Boxed<Cond>,
    pub found: Option<u32>,
    pub binds: List<u16>,
    pub body: List<Item>,
    pub line: u32,
}

/// An expression outside queries.
#[cycle(rexpr)]
#[derive(Drop)]
pub enum RExpr {
    /// This value.
    Const(Value),
    /// Several processes as a set: what a name stands for that `main` gave to more than one.
    Procs(List<u16>),
    /// The process itself.
    Me,
    /// The value of a slot.
    Slot(u16),
    /// The clock.
    Clock,
    /// The value of the query of this number.
    Ask(u32),
    /// The set of the numbers from the first up to the second, without it.
    Range(Boxed<RExpr>, Boxed<RExpr>),
    /// A tuple.
    Tuple(List<RExpr>),
    /// A set.
    SetOf(List<RExpr>),
    /// `or`
    Or(List<RExpr>),
    /// `and`
    And(List<RExpr>),
    /// `not`
    Not(Boxed<RExpr>),
    /// A comparison.
    Cmp(CmpOp, Boxed<RExpr>, Boxed<RExpr>),
    /// Whether the first is an element of the second.
    Member(Boxed<RExpr>, Boxed<RExpr>),
    /// An operand and others, each with the operation before it.
    Chain(Boxed<RExpr>, List<ChainPart>),
}

/// A further operand of a chain, with the operation before it.
#[cycle(rexpr)]
#[derive(Drop)]
pub struct ChainPart {
    pub op: ArithOp,
    pub operand: Boxed<RExpr>,
}
