//! The nodes of conditions, and the aggregates of operands, which are bound from left to right.
ghost use Rattle.quant_norm.specs.Making.{Binds, Makes, none_on, place_of, rows_on};
ghost use Rattle.query_plan.specs.Plans.{agg_bound, all_bound, all_on, anti_on, any_on, denied_on, norm, norm_if, operand_bound, signed_bound, test_on};
ghost use Rattle.std.specs.Prelude.{map};

use crate::either::{any_on, either_on};
use crate::generators::gens_on;
use crate::leaves::{bind_rows, bound_term, chained, compare_both, last_part, never_on, truth_on};
use crate::limit::Halt;
use crate::nodes::{Nodes, anti_on, semi_on};
use crate::place::{Place, copy_place};
use da_lang::{Agg, Cond, Operand, RGen, SignedOperand, Term};
use da_values::{Boxed, List};
use std::alloc::Global;

/// The node of the rows of the place for which the condition holds.
#[cycle(norm)]
pub fn norm_cond(alloc: Global, cond: &Cond, nodes: &mut Nodes, at: &Place) -> Result<u32, Halt>
    ensures { Makes (norm cond.now (place_of at.now) nodes.old) (λ k. (nodes.new, k)) result }
{
    match cond {
        Cond::Truth(term) => truth_on(alloc, term, nodes, at),
        Cond::Cmp(op, left, right) => {
            let mut last = copy_place(alloc, at)?;
            let left = bind_operand(alloc, left.get(), nodes, &mut last)?;
            let right = bind_operand(alloc, right.get(), nodes, &mut last)?;
            compare_both(alloc, *op, left, right, nodes, at, &last)
        }
        Cond::Not(other) => not_on(alloc, other.get(), nodes, at),
        Cond::And(parts) => norm_all(alloc, parts.as_slice(), nodes, at),
        Cond::Or(parts) => norm_any(alloc, parts.as_slice(), nodes, at),
        Cond::Quant { each, gens, cond } => {
            quant_on(alloc, *each, cond, gens.as_slice(), nodes, at)
        }
    }
}

// The rows for which a condition does not hold.
#[cycle(norm)]
fn not_on(alloc: Global, cond: &Cond, nodes: &mut Nodes, at: &Place) -> Result<u32, Halt>
    ensures { Makes (anti_on (place_of at.now) (norm cond.now (place_of at.now) nodes.old))
        (λ k. (nodes.new, k)) result }
{
    let child = norm_cond(alloc, cond, nodes, at)?;
    anti_on(nodes, at.node, child)
}

// One condition after the other.
#[cycle(norm)]
fn norm_all(alloc: Global, conds: &[Cond], nodes: &mut Nodes, at: &Place) -> Result<u32, Halt>
    ensures { Makes (all_on (map norm conds.now) (place_of at.now) nodes.old)
        (λ k. (nodes.new, k)) result }
{
    let mut last = copy_place(alloc, at)?;
    for cond in conds {
        let number = norm_cond(alloc, cond, nodes, &last)?;
        last.node = number;
    }
    Ok(last.node)
}

// The rows for which one of the conditions holds.
#[cycle(norm)]
fn norm_any(alloc: Global, conds: &[Cond], nodes: &mut Nodes, at: &Place) -> Result<u32, Halt>
    ensures { Makes (any_on (map norm conds.now) (place_of at.now) nodes.old)
        (λ k. (nodes.new, k)) result }
{
    let mut left = None;
    for cond in conds {
        let right = norm_cond(alloc, cond, nodes, at)?;
        let both = either_on(nodes, left, right)?;
        left = Some(both);
    }
    any_on(nodes, at.node, left)
}

// The rows that some row after the generators extends, or those that each such row extends.
#[cycle(norm)]
fn quant_on(
    alloc: Global,
    each: bool,
    cond: &Option<Boxed<Cond>>,
    gens: &[RGen],
    nodes: &mut Nodes,
    at: &Place,
) -> Result<u32, Halt>
    ensures { Makes (norm (Cond.Quant each gens.now cond.now) (place_of at.now) nodes.old)
        (λ k. (nodes.new, k)) result }
{
    if each {
        let child = none_on(alloc, cond, gens, nodes, at)?;
        anti_on(nodes, at.node, child)
    } else {
        let rows = rows_on(alloc, cond, gens, nodes, at)?;
        semi_on(nodes, at.node, rows.node)
    }
}

// The place after the generators, at the rows for which a condition holds that may be left out.
#[cycle(norm)]
fn rows_on(
    alloc: Global,
    cond: &Option<Boxed<Cond>>,
    gens: &[RGen],
    nodes: &mut Nodes,
    at: &Place,
) -> Result<Place, Halt>
    ensures { Makes (rows_on cond.now gens.now (place_of at.now) nodes.old)
        (λ rows. (nodes.new, place_of rows)) result }
{
    let mut rows = gens_on(alloc, gens, nodes, at)?;
    let child = test_on(alloc, cond, nodes, &rows)?;
    rows.node = child;
    Ok(rows)
}

// The rows after the generators for which it does not hold.
#[cycle(norm)]
fn none_on(
    alloc: Global,
    cond: &Option<Boxed<Cond>>,
    gens: &[RGen],
    nodes: &mut Nodes,
    at: &Place,
) -> Result<u32, Halt>
    ensures { Makes (none_on cond.now gens.now (place_of at.now) nodes.old)
        (λ k. (nodes.new, k)) result }
{
    let last = gens_on(alloc, gens, nodes, at)?;
    denied_on(alloc, cond, nodes, &last)
}

/// The rows for which a condition holds that may be left out.
#[cycle(norm)]
pub fn test_on(
    alloc: Global,
    cond: &Option<Boxed<Cond>>,
    nodes: &mut Nodes,
    at: &Place,
) -> Result<u32, Halt>
    ensures { Makes (test_on (norm_if cond.now) (place_of at.now) nodes.old)
        (λ k. (nodes.new, k)) result }
{
    match cond {
        None => Ok(at.node),
        Some(cond) => norm_cond(alloc, cond.get(), nodes, at),
    }
}

/// The rows for which it does not hold.
#[cycle(norm)]
pub fn denied_on(
    alloc: Global,
    cond: &Option<Boxed<Cond>>,
    nodes: &mut Nodes,
    at: &Place,
) -> Result<u32, Halt>
    ensures { Makes (denied_on (norm_if cond.now) (place_of at.now) nodes.old)
        (λ k. (nodes.new, k)) result }
{
    match cond {
        None => never_on(alloc, nodes, at),
        Some(cond) => not_on(alloc, cond.get(), nodes, at),
    }
}

// Binds the aggregates of an operand: the place is then after them. Gives the operand with the new parts in their places.
#[cycle(norm)]
fn bind_operand(
    alloc: Global,
    operand: &Operand,
    nodes: &mut Nodes,
    at: &mut Place,
) -> Result<Boxed<Operand>, Halt>
    ensures { Binds (operand_bound operand.now (place_of at.old) nodes.old)
        (λ made. (nodes.new, place_of at.new, made)) result }
{
    match operand {
        Operand::Term(term) => bound_term(alloc, term, at),
        Operand::Agg(agg) => bind_part(alloc, agg.get(), nodes, at),
        Operand::Chain(first, others) => {
            let first = bind_operand(alloc, first.get(), nodes, at)?;
            let others = bind_signed(alloc, others.as_slice(), nodes, at)?;
            chained(alloc, first, others)
        }
    }
}

// Binds those of the further operands of a chain.
#[cycle(norm)]
fn bind_signed(
    alloc: Global,
    operands: &[SignedOperand],
    nodes: &mut Nodes,
    at: &mut Place,
) -> Result<List<SignedOperand>, Halt>
    ensures { Binds (all_bound (map signed_bound operands.now) (place_of at.old) nodes.old)
        (λ made. (nodes.new, place_of at.new, made)) result }
{
    let mut made = List::new(alloc);
    for signed in operands {
        let operand = bind_operand(alloc, signed.operand.get(), nodes, at)?;
        made.push(SignedOperand {
            minus: signed.minus,
            operand,
        })?;
    }
    Ok(made)
}

// Binds an aggregate that is an operand. Gives the part that it is.
#[cycle(norm)]
fn bind_part(
    alloc: Global,
    agg: &Agg,
    nodes: &mut Nodes,
    at: &mut Place,
) -> Result<Boxed<Operand>, Halt>
    ensures { Binds (agg_bound agg.now (place_of at.old) nodes.old)
        (λ made. (nodes.new, place_of at.new, made)) result }
{
    bind_agg(alloc, agg, nodes, at)?;
    last_part(alloc, at)
}

/// Binds an aggregate: the place is then after it, and it is the last part of its rows.
#[cycle(norm)]
pub fn bind_agg(alloc: Global, agg: &Agg, nodes: &mut Nodes, at: &mut Place) -> Result<(), Halt>
    ensures { Binds (agg_bound agg.now (place_of at.old) nodes.old)
        (λ _. (nodes.new, place_of at.new, Operand.Term (Term.Part at.new.width))) result }
{
    let rows = rows_on(alloc, &agg.cond, agg.gens.as_slice(), nodes, at)?;
    bind_rows(alloc, agg, nodes, at, &rows)
}
