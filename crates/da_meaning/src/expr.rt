//! Expressions outside queries.
ghost use Rattle.da_lang.specs.declared.program.RExpr.TheVariants.{Ask};
ghost use Rattle.da_lang.specs.declared.query.Query.TheVariants as query;
ghost use Rattle.da_lang.specs.ExprMeaning.{agg_of, all_outside, scope_after_gens, cond_after, generator, gens_in, meant, name_outside, signed_of, signed_outside};
ghost use Rattle.da_meaning.specs.Alone.{IsAlone};
ghost use Rattle.da_meaning.specs.MeaningView.{meaning_of};
ghost use Rattle.std.specs.Option.{option_map};
ghost use Rattle.std.specs.Prelude.{◌≡◌, [], ◌∷◌, ◌++◌, IfOk, OnOk, length, map, suc};

use crate::condition::{aggregate, guarded, range, with_term};
use crate::numbers::numbers_of;
use crate::scope::{Meaning, Scope};
use crate::tables::Tables;
use crate::term::term;
use da_lang::{AggOp, ChainPart, ChainTree, Expr, GenTree, Query, RExpr};
use da_values::{Boxed, List, NoMemory, Value};
use std::alloc::Global;

/// An expression outside queries. The queries in it get the next numbers, in text order.
#[cycle(outside)]
#[tactic(auto, using(crate::proofs::OutsideAt::outsides_at))]
pub fn outside<'t>(
    alloc: Global,
    x: &'t Expr,
    scope: &Scope<'t>,
    tables: &mut Tables,
) -> Result<RExpr, NoMemory>
    ensures value { IfOk result (λ found. found ≡ ((meant x.now).outside scope.now tables.old).0) }
    ensures tables { OnOk result (tables.new ≡ ((meant x.now).outside scope.now tables.old).1) }
    ensures slots { OnOk result (tables.new.slots ≡ tables.old.slots) }
{
    match x {
        Expr::Or(xs) => Ok(RExpr::Or(all_outside(alloc, xs.as_slice(), scope, tables)?)),
        Expr::And(xs) => Ok(RExpr::And(all_outside(alloc, xs.as_slice(), scope, tables)?)),
        Expr::Not(x) => Ok(RExpr::Not(boxed_outside(alloc, x.get(), scope, tables)?)),
        Expr::Cmp(op, left, right) => {
            let left = boxed_outside(alloc, left.get(), scope, tables)?;
            let right = boxed_outside(alloc, right.get(), scope, tables)?;
            Ok(RExpr::Cmp(*op, left, right))
        }
        Expr::Member(left, right) => {
            let left = boxed_outside(alloc, left.get(), scope, tables)?;
            let right = boxed_outside(alloc, right.get(), scope, tables)?;
            Ok(RExpr::Member(left, right))
        }
        Expr::Chain(first, links) => {
            let first = boxed_outside(alloc, first.get(), scope, tables)?;
            let links = links_outside(alloc, links.as_slice(), scope, tables)?;
            Ok(RExpr::Chain(first, links))
        }
        Expr::Range(first, end) => {
            let first = boxed_outside(alloc, first.get(), scope, tables)?;
            let end = boxed_outside(alloc, end.get(), scope, tables)?;
            Ok(RExpr::Range(first, end))
        }
        Expr::Tuple(xs) => Ok(RExpr::Tuple(all_outside(alloc, xs.as_slice(), scope, tables)?)),
        Expr::SetOf(xs) => Ok(RExpr::SetOf(all_outside(alloc, xs.as_slice(), scope, tables)?)),
        _ => alone(alloc, x, scope, tables),
    }
}

/// An expression outside queries, on the heap.
#[cycle(outside)]
pub fn boxed_outside<'t>(
    alloc: Global,
    x: &'t Expr,
    scope: &Scope<'t>,
    tables: &mut Tables,
) -> Result<Boxed<RExpr>, NoMemory>
    ensures value { IfOk result (λ found. found ≡ ((meant x.now).outside scope.now tables.old).0) }
    ensures tables { OnOk result (tables.new ≡ ((meant x.now).outside scope.now tables.old).1) }
    ensures slots { OnOk result (tables.new.slots ≡ tables.old.slots) }
{
    Boxed::new(alloc, outside(alloc, x, scope, tables)?)
}

/// Expressions outside queries, in text order.
#[cycle(outside)]
pub fn all_outside<'t>(
    alloc: Global,
    xs: &'t [Expr],
    scope: &Scope<'t>,
    tables: &mut Tables,
) -> Result<List<RExpr>, NoMemory>
    ensures value { IfOk result (λ found. found ≡ (all_outside (map meant xs.now) scope.now tables.old).0) }
    ensures tables { OnOk result (tables.new ≡ (all_outside (map meant xs.now) scope.now tables.old).1) }
    ensures slots { OnOk result (tables.new.slots ≡ tables.old.slots) }
{
    let mut found = List::new(alloc);
    for x in xs {
        found.push(outside(alloc, x, scope, tables)?)?;
    }
    Ok(found)
}

// The further operands of a chain.
#[cycle(outside)]
fn links_outside<'t>(
    alloc: Global,
    links: &'t [ChainTree],
    scope: &Scope<'t>,
    tables: &mut Tables,
) -> Result<List<ChainPart>, NoMemory>
    ensures value { IfOk result (λ found. found ≡ (signed_outside (map signed_of links.now) scope.now tables.old).0) }
    ensures tables { OnOk result (tables.new ≡ (signed_outside (map signed_of links.now) scope.now tables.old).1) }
    ensures slots { OnOk result (tables.new.slots ≡ tables.old.slots) }
{
    let mut found = List::new(alloc);
    for link in links {
        let operand = boxed_outside(alloc, link.operand.get(), scope, tables)?;
        found.push(ChainPart {
            op: link.op,
            operand,
        })?;
    }
    Ok(found)
}

// An expression with none outside of queries within it.
#[tactic(auto, using(crate::proofs::OutsideAt::alone_at))]
fn alone<'t>(
    alloc: Global,
    x: &'t Expr,
    scope: &Scope<'t>,
    tables: &mut Tables,
) -> Result<RExpr, NoMemory>
    requires { IsAlone x.now }
    ensures value { IfOk result (λ found. found ≡ ((meant x.now).outside scope.now tables.old).0) }
    ensures tables { OnOk result (tables.new ≡ ((meant x.now).outside scope.now tables.old).1) }
    ensures slots { OnOk result (tables.new.slots ≡ tables.old.slots) }
{
    match x {
        Expr::Quant { each, gens, cond } => {
            let query = quantified(alloc, *each, gens, cond, scope)?;
            ask(query, tables)
        }
        Expr::Int(number) => Ok(RExpr::Const(Value::Int(*number))),
        Expr::Text(text) => Ok(RExpr::Const(Value::Text(text.copy(alloc)?))),
        Expr::Truth(truth) => Ok(RExpr::Const(Value::Bool(*truth))),
        Expr::Me => Ok(RExpr::Me),
        Expr::Name(name) => named(alloc, scope.look(name.as_slice())),
        Expr::Clock => Ok(RExpr::Clock),
        Expr::Comp { term, gens, cond } => {
            let query = comprehended(alloc, term, gens, cond, scope)?;
            ask(query, tables)
        }
        Expr::Count(x) => ask(aggregated(alloc, AggOp::Count, x, scope)?, tables),
        Expr::Sum(x) => ask(aggregated(alloc, AggOp::Sum, x, scope)?, tables),
        Expr::Min(x, other) => {
            let query = aggregated_with(alloc, AggOp::Min, x, other, scope)?;
            ask(query, tables)
        }
        Expr::Max(x, other) => {
            let query = aggregated_with(alloc, AggOp::Max, x, other, scope)?;
            ask(query, tables)
        }
        _ => unreachable!(),
    }
}

// A query gets the next number.
fn ask(query: Query, tables: &mut Tables) -> Result<RExpr, NoMemory>
    ensures value { IfOk result (λ found. found ≡ Ask (suc (length tables.old.queries))) }
    ensures tables { OnOk result (tables.new ≡ record { slots = tables.old.slots; queries = tables.old.queries ++ query ∷ [] }) }
    ensures slots { OnOk result (tables.new.slots ≡ tables.old.slots) }
{
    let number = tables.next_query()?;
    tables.add_query(query)?;
    Ok(RExpr::Ask(number))
}

// `some` or `each` as a query.
fn quantified<'t>(
    alloc: Global,
    each: bool,
    gens: &'t List<GenTree>,
    cond: &'t Option<Boxed<Expr>>,
    scope: &Scope<'t>,
) -> Result<Query, NoMemory>
    ensures { IfOk result (λ found. found ≡ query.Quant each (gens_in (map generator gens.now) scope.now) (cond_after (map generator gens.now) (option_map meant cond.now) scope.now)) }
{
    let rows = guarded(alloc, cond, gens, scope)?;
    let gens = rows.gens;
    let cond = rows.cond;
    Ok(Query::Quant { each, gens, cond })
}

// A comprehension as a query.
fn comprehended<'t>(
    alloc: Global,
    x: &'t Boxed<Expr>,
    gens: &'t List<GenTree>,
    cond: &'t Option<Boxed<Expr>>,
    scope: &Scope<'t>,
) -> Result<Query, NoMemory>
    ensures { IfOk result (λ found. found ≡ query.Comp ((meant x.now).term (scope_after_gens (map generator gens.now) scope.now)) (gens_in (map generator gens.now) scope.now) (cond_after (map generator gens.now) (option_map meant cond.now) scope.now)) }
{
    let rows = guarded(alloc, cond, gens, scope)?;
    let rows = with_term(alloc, x.get(), rows)?;
    Ok(Query::Comp {
        term: rows.term,
        gens: rows.gens,
        cond: rows.cond,
    })
}

// An aggregate as a query.
fn aggregated<'t>(
    alloc: Global,
    op: AggOp,
    x: &'t Boxed<Expr>,
    scope: &Scope<'t>,
) -> Result<Query, NoMemory>
    ensures { IfOk result (λ found. found ≡ query.Agg (agg_of op ((meant x.now).range scope.now) None)) }
{
    let rows = range(alloc, x.get(), scope)?;
    Ok(Query::Agg(aggregate(alloc, op, rows, None)?))
}

// The same with its other value.
fn aggregated_with<'t>(
    alloc: Global,
    op: AggOp,
    x: &'t Boxed<Expr>,
    other: &'t Boxed<Expr>,
    scope: &Scope<'t>,
) -> Result<Query, NoMemory>
    ensures { IfOk result (λ found. found ≡ query.Agg (agg_of op ((meant x.now).range scope.now) (Some ((meant other.now).term scope.now)))) }
{
    let rows = range(alloc, x.get(), scope)?;
    let other = term(alloc, other.get(), scope)?;
    Ok(Query::Agg(aggregate(alloc, op, rows, Some(other))?))
}

// A name outside queries. Names without a meaning are refused before.
fn named(alloc: Global, means: Option<Meaning>) -> Result<RExpr, NoMemory>
    ensures { IfOk result (λ found. found ≡ name_outside (option_map meaning_of means)) }
{
    match means {
        Some(Meaning::InSlot(slot)) => Ok(RExpr::Slot(slot)),
        Some(Meaning::InRow(_)) => Ok(RExpr::Me),
        Some(Meaning::OneProcess(process)) => Ok(RExpr::Const(Value::Proc(process))),
        Some(Meaning::Processes(row)) => Ok(RExpr::Procs(numbers_of(alloc, row)?)),
        None => Ok(RExpr::Me),
    }
}
