//! Conditions of queries, the sides of their comparisons, and aggregates.
ghost use Rattle.da_lang.specs.declared.query.Cond.TheVariants as co;
ghost use Rattle.da_lang.specs.declared.query.Operand.TheVariants as od;
ghost use Rattle.da_lang.specs.declared.query.Term.TheVariants.{Foreign};
ghost use Rattle.da_lang.specs.declared.tree.ChainTree.{out-ChainTree};
ghost use Rattle.da_lang.specs.ExprMeaning.{Meant, agg_of, scope_after_gens, cond_after, elements, generator, gens_in, is_minus, is_sum, meant, signed_of, signed_operand};
ghost use Rattle.da_lang.specs.Scopes.{look};
ghost use Rattle.da_meaning.specs.MeaningView.{range_of};
ghost use Rattle.std.specs.List.{list_all};
ghost use Rattle.std.specs.Option.{option_map};
ghost use Rattle.std.specs.Prelude.{◌≡◌, [], IfOk, map};

use crate::generator::{opened, slot_source};
use crate::scope::Scope;
use crate::term::term;
use da_lang::{
    Agg, AggOp, ArithOp, ChainTree, Cond, Expr, GenTree, Operand, Pattern, RGen, SignedOperand,
    Term,
};
use da_values::{Boxed, List, NoMemory};
use std::alloc::Global;

// An expression as a condition.
#[cycle(conditions)]
#[tactic(auto, using(crate::proofs::CondsAt::conditions_at))]
fn condition<'t>(alloc: Global, x: &'t Expr, scope: &Scope<'t>) -> Result<Cond, NoMemory>
    ensures { IfOk result (λ found. found ≡ (meant x.now).condition scope.now) }
{
    match x {
        Expr::Quant { each, gens, cond } => {
            let rows = guarded(alloc, cond, gens, scope)?;
            Ok(quantified(*each, rows))
        }
        Expr::Or(xs) => Ok(Cond::Or(conditions(alloc, xs.as_slice(), scope)?)),
        Expr::And(xs) => Ok(Cond::And(conditions(alloc, xs.as_slice(), scope)?)),
        Expr::Not(x) => Ok(Cond::Not(boxed_condition(alloc, x.get(), scope)?)),
        Expr::Cmp(op, left, right) => {
            let left = boxed_operand(alloc, left.get(), scope)?;
            let right = boxed_operand(alloc, right.get(), scope)?;
            Ok(Cond::Cmp(*op, left, right))
        }
        _ => truth(alloc, x, scope),
    }
}

/// A condition on the heap.
#[cycle(conditions)]
pub fn boxed_condition<'t>(
    alloc: Global,
    x: &'t Expr,
    scope: &Scope<'t>,
) -> Result<Boxed<Cond>, NoMemory>
    ensures { IfOk result (λ found. found ≡ (meant x.now).condition scope.now) }
{
    Boxed::new(alloc, condition(alloc, x, scope)?)
}

// Expressions as conditions.
#[cycle(conditions)]
fn conditions<'t>(alloc: Global, xs: &'t [Expr], scope: &Scope<'t>) -> Result<List<Cond>, NoMemory>
    ensures { IfOk result (λ found. found ≡ map (λ (m : Meant). m.condition scope.now) (map meant xs.now)) }
{
    let mut found = List::new(alloc);
    for x in xs {
        found.push(condition(alloc, x, scope)?)?;
    }
    Ok(found)
}

// A term that is a truth value, as a condition.
fn truth(alloc: Global, x: &Expr, scope: &Scope<'_>) -> Result<Cond, NoMemory>
    ensures { IfOk result (λ found. found ≡ co.Truth ((meant x.now).term scope.now)) }
{
    Ok(Cond::Truth(term(alloc, x, scope)?))
}

// `some` or `each` as a condition.
fn quantified(each: bool, rows: QueryRows<'_>) -> Cond
    ensures { result ≡ co.Quant each rows.entry.gens rows.entry.cond }
{
    Cond::Quant {
        each,
        gens: rows.gens,
        cond: rows.cond,
    }
}

/// The generators of a query with the condition after them, and the names in scope there.
#[derive(Drop)]
pub struct QueryRows<'t> {
    pub gens: List<RGen>,
    pub cond: Option<Boxed<Cond>>,
    pub inner: Scope<'t>,
}

/// The generators of a query and the condition after them, where there is one.
#[cycle(conditions)]
pub fn guarded<'t>(
    alloc: Global,
    cond: &'t Option<Boxed<Expr>>,
    gens: &'t List<GenTree>,
    scope: &Scope<'t>,
) -> Result<QueryRows<'t>, NoMemory>
    ensures gens { IfOk result (λ rows. rows.gens ≡ gens_in (map generator gens.now) scope.now) }
    ensures cond { IfOk result (λ rows. rows.cond ≡ cond_after (map generator gens.now) (option_map meant cond.now) scope.now) }
    ensures inner { IfOk result (λ rows. rows.inner ≡ scope_after_gens (map generator gens.now) scope.now) }
{
    let opened = opened(alloc, gens, scope)?;
    let cond = guard(alloc, cond, &opened.inner)?;
    Ok(QueryRows {
        gens: opened.gens,
        cond,
        inner: opened.inner,
    })
}

// A condition, where there is one.
#[cycle(conditions)]
fn guard<'t>(
    alloc: Global,
    cond: &'t Option<Boxed<Expr>>,
    scope: &Scope<'t>,
) -> Result<Option<Boxed<Cond>>, NoMemory>
    ensures { IfOk result (λ found. found ≡ option_map (λ (m : Meant). m.condition scope.now) (option_map meant cond.now)) }
{
    match cond {
        None => Ok(None),
        Some(x) => Ok(Some(boxed_condition(alloc, x.get(), scope)?)),
    }
}

// An expression as a side of a comparison.
#[cycle(conditions)]
#[tactic(auto, using(crate::proofs::CondsAt::operands_at))]
fn operand<'t>(alloc: Global, x: &'t Expr, scope: &Scope<'t>) -> Result<Operand, NoMemory>
    ensures { IfOk result (λ found. found ≡ (meant x.now).operand scope.now) }
{
    match x {
        Expr::Chain(first, links) => {
            if !are_sums(links.as_slice()) {
                return Ok(Operand::Term(Term::Foreign));
            }
            let first = boxed_operand(alloc, first.get(), scope)?;
            Ok(Operand::Chain(first, signed_operands(alloc, links.as_slice(), scope)?))
        }
        Expr::Count(x) => {
            let rows = range(alloc, x.get(), scope)?;
            aggregated(alloc, AggOp::Count, rows)
        }
        Expr::Sum(x) => {
            let rows = range(alloc, x.get(), scope)?;
            aggregated(alloc, AggOp::Sum, rows)
        }
        Expr::Min(x, other) => {
            let rows = range(alloc, x.get(), scope)?;
            aggregated_with(alloc, AggOp::Min, rows, other.get(), scope)
        }
        Expr::Max(x, other) => {
            let rows = range(alloc, x.get(), scope)?;
            aggregated_with(alloc, AggOp::Max, rows, other.get(), scope)
        }
        _ => sided(alloc, x, scope),
    }
}

// A side of a comparison on the heap.
#[cycle(conditions)]
fn boxed_operand<'t>(
    alloc: Global,
    x: &'t Expr,
    scope: &Scope<'t>,
) -> Result<Boxed<Operand>, NoMemory>
    ensures { IfOk result (λ found. found ≡ (meant x.now).operand scope.now) }
{
    Boxed::new(alloc, operand(alloc, x, scope)?)
}

// A term as a side of a comparison.
fn sided(alloc: Global, x: &Expr, scope: &Scope<'_>) -> Result<Operand, NoMemory>
    ensures { IfOk result (λ found. found ≡ od.Term ((meant x.now).term scope.now)) }
{
    Ok(Operand::Term(term(alloc, x, scope)?))
}

// Whether each sign is `+` or `-`.
fn are_sums(links: &[ChainTree]) -> bool
    ensures { result ≡ list_all (λ link. is_sum (out-ChainTree link).op) links.now }
{
    links.iter().all(|link| is_sum(link.op))
}

// Whether a sign is `+` or `-`.
fn is_sum(op: ArithOp) -> bool
    ensures { result ≡ is_sum op }
{
    match op {
        ArithOp::Plus => true,
        ArithOp::Minus => true,
        ArithOp::Times => false,
        ArithOp::Div => false,
        ArithOp::Mod => false,
    }
}

// Whether a sign is `-`.
fn is_minus(op: ArithOp) -> bool
    ensures { result ≡ is_minus op }
{
    match op {
        ArithOp::Minus => true,
        ArithOp::Plus => false,
        ArithOp::Times => false,
        ArithOp::Div => false,
        ArithOp::Mod => false,
    }
}

// The further operands of a chain.
#[cycle(conditions)]
fn signed_operands<'t>(
    alloc: Global,
    links: &'t [ChainTree],
    scope: &Scope<'t>,
) -> Result<List<SignedOperand>, NoMemory>
    ensures { IfOk result (λ found. found ≡ map (signed_operand scope.now) (map signed_of links.now)) }
{
    let mut found = List::new(alloc);
    for link in links {
        let operand = boxed_operand(alloc, link.operand.get(), scope)?;
        found.push(SignedOperand {
            minus: is_minus(link.op),
            operand,
        })?;
    }
    Ok(found)
}

/// What an aggregate goes over: generators, a condition, and a term.
#[derive(Drop)]
pub struct Rows {
    pub gens: List<RGen>,
    pub cond: Option<Boxed<Cond>>,
    pub term: Term,
}

/// An aggregate over these rows.
pub fn aggregate(
    alloc: Global,
    op: AggOp,
    rows: Rows,
    other: Option<Term>,
) -> Result<Boxed<Agg>, NoMemory>
    ensures { IfOk result (λ found. found ≡ agg_of op (range_of rows) other) }
{
    let agg = Agg {
        op,
        gens: rows.gens,
        cond: rows.cond,
        term: rows.term,
        other,
    };
    Boxed::new(alloc, agg)
}

// An aggregate over these rows as a side of a comparison.
fn aggregated(alloc: Global, op: AggOp, rows: Rows) -> Result<Operand, NoMemory>
    ensures { IfOk result (λ found. found ≡ od.Agg (agg_of op (range_of rows) None)) }
{
    Ok(Operand::Agg(aggregate(alloc, op, rows, None)?))
}

// The same with the term of its other value.
fn aggregated_with(
    alloc: Global,
    op: AggOp,
    rows: Rows,
    other: &Expr,
    scope: &Scope<'_>,
) -> Result<Operand, NoMemory>
    ensures { IfOk result (λ found. found ≡ od.Agg (agg_of op (range_of rows) (Some ((meant other.now).term scope.now)))) }
{
    let other = term(alloc, other, scope)?;
    Ok(Operand::Agg(aggregate(alloc, op, rows, Some(other))?))
}

/// An expression as the argument of an aggregate.
#[cycle(conditions)]
#[tactic(auto, using(crate::proofs::CondsAt::ranges_at))]
pub fn range<'t>(alloc: Global, x: &'t Expr, scope: &Scope<'t>) -> Result<Rows, NoMemory>
    ensures { IfOk result (λ rows. range_of rows ≡ (meant x.now).range scope.now) }
{
    match x {
        Expr::Comp {
            term: x,
            gens,
            cond,
        } => {
            let rows = guarded(alloc, cond, gens, scope)?;
            with_term(alloc, x.get(), rows)
        }
        Expr::Name(name) => elements(alloc, name.as_slice(), scope),
        _ => Ok(no_rows(alloc)),
    }
}

/// The rows of a query with the term of each.
pub fn with_term(alloc: Global, x: &Expr, rows: QueryRows<'_>) -> Result<Rows, NoMemory>
    ensures { IfOk result (λ found. range_of found ≡ record { gens = rows.entry.gens; cond = rows.entry.cond; term = (meant x.now).term rows.entry.inner }) }
{
    let term = term(alloc, x, &rows.inner)?;
    Ok(Rows {
        gens: rows.gens,
        cond: rows.cond,
        term,
    })
}

// The elements of a slot.
fn elements(alloc: Global, name: &[u8], scope: &Scope<'_>) -> Result<Rows, NoMemory>
    ensures { IfOk result (λ rows. range_of rows ≡ elements (look scope.now name.now) scope.now) }
{
    let mut gens = List::new(alloc);
    gens.push(RGen {
        source: slot_source(scope.look(name)),
        message: Pattern::Bind,
        peer: Pattern::Any,
    })?;
    let term = Term::Part(scope.next_part()?);
    Ok(Rows {
        gens,
        cond: None,
        term,
    })
}

// What an expression of no other form goes over: nothing.
fn no_rows(alloc: Global) -> Rows
    ensures { range_of result ≡ record { gens = []; cond = None; term = Foreign } }
{
    Rows {
        gens: List::new(alloc),
        cond: None,
        term: Term::Foreign,
    }
}
