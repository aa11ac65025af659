//! What conditions have in which no further condition stands: tests of terms, comparisons of operands whose aggregates
//! are bound, and the nodes of aggregates.
ghost use Rattle.quant_norm.specs.Making.{Binds, Gives, Makes, agg_over, place_of};
ghost use Rattle.query_plan.specs.Plans.{compared, denied_on, known, norm, rename};
ghost use Rattle.std.specs.Prelude.{◌≡◌, None};

use crate::limit::Halt;
use crate::nodes::{Nodes, add, anti_on, compare_on, filter_on};
use crate::place::Place;
use crate::rename::{renamed_other, renamed_term};
use da_lang::{Agg, CmpOp, Cond, Node, Operand, SignedOperand, Term};
use da_values::{Boxed, List, Value};
use query_plan::plus;
use std::alloc::Global;

/// The rows of the place for which a term holds.
pub fn truth_on(alloc: Global, term: &Term, nodes: &mut Nodes, at: &Place) -> Result<u32, Halt>
    ensures { Makes (norm (Cond.Truth term.now) (place_of at.now) nodes.old)
        (λ k. (nodes.new, k)) result }
{
    let term = renamed_term(alloc, term, at)?;
    let test = Boxed::new(alloc, Cond::Truth(term))?;
    filter_on(nodes, at.node, test)
}

/// The rows for which a condition that is left out does not hold.
pub fn never_on(alloc: Global, nodes: &mut Nodes, at: &Place) -> Result<u32, Halt>
    ensures { Makes (denied_on None (place_of at.now) nodes.old) (λ k. (nodes.new, k)) result }
{
    let test = Boxed::new(alloc, Cond::Truth(Term::Const(Value::Bool(true))))?;
    let child = filter_on(nodes, at.node, test)?;
    anti_on(nodes, at.node, child)
}

/// The rows of a place for which two operands compare, whose aggregates are bound up to the last place.
pub fn compare_both(
    alloc: Global,
    op: CmpOp,
    left: Boxed<Operand>,
    right: Boxed<Operand>,
    nodes: &mut Nodes,
    at: &Place,
    last: &Place,
) -> Result<u32, Halt>
    ensures { Makes (compared (place_of at.now) (place_of last.now) (Cond.Cmp op left right) nodes.old)
        (λ k. (nodes.new, k)) result }
{
    let test = Boxed::new(alloc, Cond::Cmp(op, left, right))?;
    compare_on(nodes, at, last, test)
}

/// An operand that is a term, over the rows of a place.
pub fn bound_term(alloc: Global, term: &Term, at: &Place) -> Result<Boxed<Operand>, Halt>
    ensures { Gives (λ made. made ≡ Operand.Term (rename (known at.now.vars) term.now)) result }
{
    let term = renamed_term(alloc, term, at)?;
    let made = Boxed::new(alloc, Operand::Term(term))?;
    Ok(made)
}

/// The operand that is the last part of the rows of a place.
pub fn last_part(alloc: Global, at: &Place) -> Result<Boxed<Operand>, Halt>
    ensures { Gives (λ made. made ≡ Operand.Term (Term.Part at.now.width)) result }
{
    let made = Boxed::new(alloc, Operand::Term(Term::Part(at.width)))?;
    Ok(made)
}

/// A chain of operands.
pub fn chained(
    alloc: Global,
    first: Boxed<Operand>,
    others: List<SignedOperand>,
) -> Result<Boxed<Operand>, Halt>
    ensures { Gives (λ made. made ≡ Operand.Chain first others) result }
{
    let made = Boxed::new(alloc, Operand::Chain(first, others))?;
    Ok(made)
}

/// Binds an aggregate over rows: the place is then after it.
pub fn bind_rows(
    alloc: Global,
    agg: &Agg,
    nodes: &mut Nodes,
    at: &mut Place,
    rows: &Place,
) -> Result<(), Halt>
    ensures { Binds (agg_over agg.now (place_of at.old) (place_of rows.now) nodes.old)
        (λ _. (nodes.new, place_of at.new, Operand.Term (Term.Part at.new.width))) result }
{
    let width = plus(at.width, 1)?;
    let term = renamed_term(alloc, &agg.term, rows)?;
    let other = renamed_other(alloc, &agg.other, at)?;
    let number = add(
        nodes,
        Node::AggBind {
            parent: at.node,
            child: rows.node,
            op: agg.op,
            term,
            other,
        },
    )?;
    at.node = number;
    at.width = width;
    Ok(())
}
