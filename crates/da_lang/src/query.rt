//! Queries, the conditions of `await`, and the patterns of handlers, with their names resolved.
//!
//! The variables of a query are the parts of a row, numbered from 1. A condition or operand within another type stands
//! in a `Boxed` or a `List`, as in trees.
use crate::tree::CmpOp;
use da_values::{Boxed, List, Value};

/// A term: a value that a row and the slots give.
#[derive(Drop)]
pub enum Term {
    /// This value.
    Const(Value),
    /// The process itself.
    Me,
    /// The value of a slot.
    Slot(u16),
    /// A part of the row.
    Part(u16),
    /// A tuple of these.
    Tuple(List<Term>),
    /// Stands for an expression that has none of the forms of queries. It has no value.
    Foreign,
}

/// A pattern, matched against a value with the row so far.
#[derive(Drop)]
pub enum Pattern {
    /// Matches every value.
    Any,
    /// Matches every value, which becomes the next part of the row.
    Bind,
    /// Matches this value.
    Const(Value),
    /// Matches the process itself.
    Me,
    /// Matches the value of the term.
    Equal(Term),
    /// Matches a tuple whose parts match these.
    Tuple(List<Pattern>),
}

/// What a generator goes through.
#[derive(Clone, Copy, PartialEq, Eq)]
pub enum Source {
    /// The messages that were received.
    Received,
    /// The messages that were sent.
    Sent,
    /// The elements of the set in a slot.
    Slot(u16),
}

/// A generator: each element of the source that matches. `peer` is matched against the other process of a message, and
/// is `Any` where none is written. One that is written where it cannot stand (`from` over `sent`, `to` over `received`,
/// either over a set) is a tuple of `Equal(Foreign)` and that pattern.
#[derive(Drop)]
pub struct RGen {
    pub source: Source,
    pub message: Pattern,
    pub peer: Pattern,
}

/// A side of a comparison.
#[cycle(cond)]
#[derive(Drop)]
pub enum Operand {
    /// A term.
    Term(Term),
    /// An aggregate.
    Agg(Boxed<Agg>),
    /// An operand and others that are added or taken away.
    Chain(Boxed<Operand>, List<SignedOperand>),
}

/// A further operand of a chain: with `minus` it is taken away.
#[cycle(cond)]
#[derive(Drop)]
pub struct SignedOperand {
    pub minus: bool,
    pub operand: Boxed<Operand>,
}

/// An aggregate over the set of `term` over the rows. `other` is the value of `min` and `max` where the set is empty.
#[cycle(cond)]
#[derive(Drop)]
pub struct Agg {
    pub op: AggOp,
    pub gens: List<RGen>,
    pub cond: Option<Boxed<Cond>>,
    pub term: Term,
    pub other: Option<Term>,
}

/// What an aggregate makes of a set.
#[derive(Clone, Copy, PartialEq, Eq)]
pub enum AggOp {
    /// The number of elements.
    Count,
    /// Their sum.
    Sum,
    /// The least of them.
    Min,
    /// The greatest of them.
    Max,
}

/// A condition of a query or of an alternative.
#[cycle(cond)]
#[derive(Drop)]
pub enum Cond {
    /// A term that is a truth value.
    Truth(Term),
    /// A comparison.
    Cmp(CmpOp, Boxed<Operand>, Boxed<Operand>),
    /// Holds where the other does not.
    Not(Boxed<Cond>),
    /// Holds where each does.
    And(List<Cond>),
    /// Holds where one does.
    Or(List<Cond>),
    /// Holds where some row, or each row, of the generators meets the condition.
    Quant {
        each: bool,
        gens: List<RGen>,
        cond: Option<Boxed<Cond>>,
    },
}

/// A numbered query of a class.
#[derive(Drop)]
pub enum Query {
    /// `some` or `each`.
    Quant {
        each: bool,
        gens: List<RGen>,
        cond: Option<Boxed<Cond>>,
    },
    /// The set of a term over the rows.
    Comp {
        term: Term,
        gens: List<RGen>,
        cond: Option<Boxed<Cond>>,
    },
    /// An aggregate.
    Agg(Boxed<Agg>),
}

/// A node of a plan, with the numbers of the nodes that it reads, counted from 0. The condition of a `Filter` has no
/// quantification and no aggregate.
#[derive(Drop)]
pub enum Node {
    /// The one empty row.
    Root,
    /// Rows of `parent`, extended by each element that matches.
    Gen {
        parent: u32,
        gen_: RGen,
    },
    /// Rows of `parent` where the condition holds.
    Filter {
        parent: u32,
        cond: Boxed<Cond>,
    },
    /// Rows of `parent` that some row of `child` extends.
    Semi {
        parent: u32,
        child: u32,
    },
    /// Rows of `parent` that no row of `child` extends.
    Anti {
        parent: u32,
        child: u32,
    },
    /// Rows of either.
    Union {
        left: u32,
        right: u32,
    },
    /// Rows of `parent` with an aggregate over the rows of `child` that extend them as one more part.
    AggBind {
        parent: u32,
        child: u32,
        op: AggOp,
        term: Term,
        other: Option<Term>,
    },
}

/// The node of a numbered query, and what its rows stand for.
#[derive(Drop)]
pub struct QueryNode {
    pub node: u32,
    pub shape: Shape,
}

/// What the rows of the node of a query stand for.
#[derive(Drop)]
pub enum Shape {
    /// `some`: the rows that it finds.
    Exists,
    /// `each`: the rows that break it.
    Each,
    /// A comprehension of this term.
    Comp(Term),
    /// An aggregate, as the one part of the one row.
    Agg,
}

/// What a class needs of an element of a history.
#[derive(Drop)]
pub struct LivePattern {
    pub source: Source,
    pub message: Pattern,
    pub peer: Pattern,
}
