//! Syntax trees: a program as the grammar has it, with the lines of its parts.
//!
//! A tree keeps no parentheses that only group, and no comments. Lines are counted from 1. An expression within another
//! type stands in a `Boxed` or a `List`, which contracts see as the expression itself and as the list of them.

use crate::ty::{ChannelKind, Name, Ty};
use da_values::{Boxed, List, Str};

/// A whole program.
#[derive(Drop)]
pub struct Tree {
    /// The kind of its channels; `UnorderedUnreliable` where the text names none.
    pub kind: ChannelKind,
    /// The declared messages, in text order.
    pub messages: List<MessageDecl>,
    /// The classes, in text order.
    pub classes: List<ClassTree>,
    /// The lines of `main`, of which there is at least one.
    pub main: List<MainLine>,
}

/// `message TAG(TYPES)`
#[derive(Drop)]
pub struct MessageDecl {
    /// The tag.
    pub tag: Name,
    /// The types of the parts after the tag.
    pub parts: List<Ty>,
    /// The line of `message`.
    pub line: u32,
}

/// `class NAME extends process:` and its members, of which there is at least one.
#[derive(Drop)]
pub struct ClassTree {
    /// The name.
    pub name: Name,
    /// The members, in text order.
    pub members: List<Member>,
    /// The line of `class`.
    pub line: u32,
}

/// A member of a class.
#[derive(Drop)]
pub enum Member {
    /// `var NAME: TYPE`
    Var {
        name: Name,
        ty: Ty,
        line: u32,
    },
    /// `def setup(PARAMS):`
    Setup {
        params: List<Param>,
        body: List<Stmt>,
        line: u32,
    },
    /// `def run():`
    Run {
        body: List<Stmt>,
        line: u32,
    },
    /// `def NAME(PARAMS):`
    Method {
        name: Name,
        params: List<Param>,
        body: List<Stmt>,
        line: u32,
    },
    /// `receive PATTERN from PATTERN at NAMES:`; no names stand for no `at`.
    Receive {
        message: PatternTree,
        from: Option<PatternTree>,
        at: List<Name>,
        body: List<Stmt>,
        line: u32,
    },
}

/// A parameter with its type.
#[derive(Drop)]
pub struct Param {
    /// The name.
    pub name: Name,
    /// The type.
    pub ty: Ty,
}

/// A statement. Its line is the one where it begins.
#[cycle(stmt)]
#[derive(Drop)]
pub enum Stmt {
    /// `NAME = EXPR`
    Assign {
        name: Name,
        value: Boxed<Expr>,
        line: u32,
    },
    /// `NAME.add(EXPR)`
    Add {
        name: Name,
        value: Boxed<Expr>,
        line: u32,
    },
    /// `NAME.del(EXPR)`
    Del {
        name: Name,
        value: Boxed<Expr>,
        line: u32,
    },
    /// `send EXPR to EXPR`
    Send {
        message: Boxed<Expr>,
        to: Boxed<Expr>,
        line: u32,
    },
    /// `output(EXPR)`
    Output {
        value: Boxed<Expr>,
        line: u32,
    },
    /// `pass`
    Pass {
        line: u32,
    },
    /// `-- NAME`
    Label {
        name: Name,
        line: u32,
    },
    /// `NAME(ARGS)`
    Call {
        name: Name,
        args: List<Expr>,
        line: u32,
    },
    /// `if`, each `elif`, and `else`
    If {
        branches: List<Branch>,
        otherwise: Option<List<Stmt>>,
        line: u32,
    },
    /// `while EXPR:`
    While {
        cond: Boxed<Expr>,
        body: List<Stmt>,
        line: u32,
    },
    /// `for NAME in EXPR:`
    For {
        name: Name,
        over: Boxed<Expr>,
        body: List<Stmt>,
        line: u32,
    },
    /// `await EXPR` with no block
    AwaitOne {
        cond: Boxed<Expr>,
        line: u32,
    },
    /// `await EXPR:`, each `or EXPR:`, and `timeout:`
    Await {
        alts: List<Branch>,
        timeout: Option<TimeoutTree>,
        line: u32,
    },
}

/// A condition and its block. The line is that of the header.
#[cycle(stmt)]
#[derive(Drop)]
pub struct Branch {
    /// The condition.
    pub cond: Boxed<Expr>,
    /// The statements of the block, of which there is at least one.
    pub body: List<Stmt>,
    /// The line of the header.
    pub line: u32,
}

/// `timeout:` and its block.
#[cycle(stmt)]
#[derive(Drop)]
pub struct TimeoutTree {
    /// The statements of the block, of which there is at least one.
    pub body: List<Stmt>,
    /// The line of `timeout`.
    pub line: u32,
}

/// An expression.
#[cycle(expr)]
#[derive(PartialEq, Eq, Drop)]
pub enum Expr {
    /// `some` or `each` with generators, of which there is at least one, and a condition
    Quant {
        each: bool,
        gens: List<GenTree>,
        cond: Option<Boxed<Expr>>,
    },
    /// Two or more operands with `or` between them
    Or(List<Expr>),
    /// Two or more operands with `and` between them
    And(List<Expr>),
    /// `not EXPR`
    Not(Boxed<Expr>),
    /// A comparison
    Cmp(CmpOp, Boxed<Expr>, Boxed<Expr>),
    /// `EXPR in EXPR`
    Member(Boxed<Expr>, Boxed<Expr>),
    /// An operand and one or more others, all with `+` and `-` or all with `*`, `//` and `%` before them
    Chain(Boxed<Expr>, List<ChainTree>),
    /// An integer
    Int(i128),
    /// A text
    Text(Str),
    /// `true` or `false`
    Truth(bool),
    /// `self`
    Me,
    /// A name
    Name(Name),
    /// `logical_time()`
    Clock,
    /// `range(EXPR, EXPR)`
    Range(Boxed<Expr>, Boxed<Expr>),
    /// A tuple, of at least one part
    Tuple(List<Expr>),
    /// `{EXPR, ..}`, `{}`
    SetOf(List<Expr>),
    /// `{EXPR: GENS | EXPR}`
    Comp {
        term: Boxed<Expr>,
        gens: List<GenTree>,
        cond: Option<Boxed<Expr>>,
    },
    /// `count(EXPR)`
    Count(Boxed<Expr>),
    /// `sum(EXPR)`
    Sum(Boxed<Expr>),
    /// `min(EXPR, EXPR)`
    Min(Boxed<Expr>, Boxed<Expr>),
    /// `max(EXPR, EXPR)`
    Max(Boxed<Expr>, Boxed<Expr>),
}

/// A further operand of a chain, with its sign.
#[cycle(expr)]
#[derive(PartialEq, Eq, Drop)]
pub struct ChainTree {
    /// The sign before it.
    pub op: ArithOp,
    /// The operand.
    pub operand: Boxed<Expr>,
}

/// A generator of a query.
#[cycle(expr)]
#[derive(PartialEq, Eq, Drop)]
pub struct GenTree {
    /// The pattern of the messages or elements.
    pub message: PatternTree,
    /// The pattern of the other process.
    pub peer: Option<PeerTree>,
    /// Where the messages or elements come from.
    pub source: SourceTree,
}

/// The pattern of the other process, with its word.
#[cycle(expr)]
#[derive(PartialEq, Eq, Drop)]
pub enum PeerTree {
    /// `from PATTERN`
    From(PatternTree),
    /// `to PATTERN`
    To(PatternTree),
}

/// A pattern.
#[cycle(expr)]
#[derive(PartialEq, Eq, Drop)]
pub enum PatternTree {
    /// `_`
    Wild,
    /// A name, which the pattern binds
    Name(Name),
    /// An integer
    Int(i128),
    /// A text
    Text(Str),
    /// `true` or `false`
    Truth(bool),
    /// `self`
    Me,
    /// `=EXPR`
    Equal(Boxed<Expr>),
    /// A tuple, of at least one part
    Tuple(List<PatternTree>),
}

/// What a generator goes through.
#[derive(PartialEq, Eq, Drop)]
pub enum SourceTree {
    /// `received`
    Received,
    /// `sent`
    Sent,
    /// A name
    Name(Name),
}

/// A line of `main`.
#[derive(Drop)]
pub enum MainLine {
    /// `NAME = new(CLASS)`, or `NAME = new(CLASS, COUNT)`
    New {
        name: Name,
        class: Name,
        count: Option<u64>,
        line: u32,
    },
    /// `setup(NAME, ARGS)`
    Setup {
        name: Name,
        args: List<Expr>,
        line: u32,
    },
}

/// The sign of an arithmetic operation.
#[derive(Clone, Copy, Debug, PartialEq, Eq)]
pub enum ArithOp {
    /// `+`
    Plus,
    /// `-`
    Minus,
    /// `*`
    Times,
    /// `//`
    Div,
    /// `%`
    Mod,
}

/// The sign of a comparison.
#[derive(Clone, Copy, Debug, PartialEq, Eq)]
pub enum CmpOp {
    /// `==`
    Eq,
    /// `!=`
    Ne,
    /// `<`
    Lt,
    /// `<=`
    Le,
    /// `>`
    Gt,
    /// `>=`
    Ge,
}
