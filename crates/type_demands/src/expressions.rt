//! What expressions outside queries demand.
ghost use Rattle.std.specs.Prelude.{◌≡◌, [], ◌∷◌, IfOk, OnOk, length};
ghost use Rattle.da_lang.specs.ExprTypes.{is_for_sets as sets_take};
ghost use Rattle.da_lang.specs.World.{at_number};
ghost use Rattle.type_demands.specs.Conds.{asked_sym};
ghost use Rattle.type_demands.specs.ExprLists.{elements_in, first_set_in, further_in, others_in, parts_in, right_in, sym_where, syms_in, truths_in};
ghost use Rattle.type_demands.specs.Exprs.{taken as taken_by};
ghost use Rattle.type_demands.specs.KnownView.{context_of, slot_in};
ghost use Rattle.type_demands.specs.Listing.{Lists, ListsType, expr_in};
ghost use Rattle.type_demands.specs.Syms.{demanding, demands_in, flat_sym, literal_sym, same_as, schemes_in, tuple_sym};
ghost use Rattle.type_demands.specs.declared.demand.Demand.TheVariants as demand_of;
ghost use Rattle.type_table.specs.declared.scheme.Scheme.TheVariants as scheme_of;

use crate::copy::copy_scheme;
use crate::demand::{Demand, LineDemand};
use crate::known::{Known, slot_demands};
use crate::puts::{element_of, flat, flat_set, never, part_of, put, same};
use crate::queries::query_demands;
use crate::sides::{asks_order, ordered};
use crate::terms::literal_demands;
use da_lang::{ArithOp, ChainPart, CmpOp, RExpr};
use da_typing::member;
use da_values::{List, NoMemory, Value};
use std::alloc::Global;
use type_table::Scheme;

/// What an expression demands by itself, and what stands for its type.
#[cycle(expressions)]
pub fn expr_demands(
    x: &RExpr,
    alloc: Global,
    known: &Known<'_>,
    demands: &mut List<LineDemand>,
) -> Result<Scheme, NoMemory>
    ensures { IfOk result (λ scheme. ListsType demands.old demands.new known.now (expr_in known.now x.now).itself scheme) }
{
    match x {
        RExpr::Const(value) => literal(value, alloc, known, demands),
        RExpr::Procs(_) => flat_set(Scheme::Proc, alloc, known, demands),
        RExpr::Me => flat(Scheme::Proc, alloc, known, demands),
        RExpr::Slot(slot) => slot_type(*slot, alloc, known, demands),
        RExpr::Clock => flat(Scheme::Int, alloc, known, demands),
        RExpr::Ask(query) => asked(*query, alloc, known, demands),
        RExpr::Range(first, end) => {
            integer(first.get(), alloc, known, demands)?;
            ranged(end.get(), alloc, known, demands)
        }
        RExpr::Tuple(parts) => tuple(parts.as_slice(), alloc, known, demands),
        RExpr::SetOf(parts) => first_set(parts.as_slice(), alloc, known, demands),
        RExpr::Or(parts) => all_truths(parts.as_slice(), alloc, known, demands),
        RExpr::And(parts) => all_truths(parts.as_slice(), alloc, known, demands),
        RExpr::Not(part) => negated(part.get(), alloc, known, demands),
        RExpr::Cmp(op, left, right) => {
            let first = expr_demands(left.get(), alloc, known, demands)?;
            compared(right.get(), alloc, known, *op, &first, demands)
        }
        RExpr::Member(left, right) => {
            let whole = expr_demands(right.get(), alloc, known, demands)?;
            member_of(left.get(), alloc, known, &whole, demands)
        }
        RExpr::Chain(first, more) => {
            let first = expr_demands(first.get(), alloc, known, demands)?;
            chained(more.as_slice(), alloc, known, first, demands)
        }
    }
}

// What stands for the type of a literal.
#[tactic(auto, using(crate::proofs::PutLaws::putting))]
fn literal(
    value: &Value,
    alloc: Global,
    known: &Known<'_>,
    demands: &mut List<LineDemand>,
) -> Result<Scheme, NoMemory>
    ensures { IfOk result (λ scheme. ListsType demands.old demands.new known.now (flat_sym (literal_sym value.now)) scheme) }
{
    let scheme = literal_demands(value, known, demands)?;
    let scheme = flat(scheme, alloc, known, demands)?;
    Ok(scheme)
}

// What stands for the type of a slot.
#[tactic(auto, using(crate::proofs::PutLaws::putting))]
fn slot_type(
    slot: u16,
    alloc: Global,
    known: &Known<'_>,
    demands: &mut List<LineDemand>,
) -> Result<Scheme, NoMemory>
    ensures { IfOk result (λ scheme. ListsType demands.old demands.new known.now (flat_sym (slot_in known.now.slots.now slot)) scheme) }
{
    let scheme = slot_demands(slot, alloc, known, demands)?;
    let scheme = flat(scheme, alloc, known, demands)?;
    Ok(scheme)
}

// What stands for the type of a numbered query.
#[tactic(auto, using(crate::proofs::PutLaws::putting))]
fn asked(
    query: u32,
    alloc: Global,
    known: &Known<'_>,
    demands: &mut List<LineDemand>,
) -> Result<Scheme, NoMemory>
    ensures { IfOk result (λ scheme. ListsType demands.old demands.new known.now (flat_sym (asked_sym (context_of known.now) (at_number known.now.queries.now query))) scheme) }
{
    let scheme = numbered_query(query, alloc, known, demands)?;
    let scheme = flat(scheme, alloc, known, demands)?;
    Ok(scheme)
}

// What a numbered query demands.
fn numbered_query(
    query: u32,
    alloc: Global,
    known: &Known<'_>,
    demands: &mut List<LineDemand>,
) -> Result<Scheme, NoMemory>
    ensures { IfOk result (λ scheme. ListsType demands.old demands.new known.now (asked_sym (context_of known.now) (at_number known.now.queries.now query)) scheme) }
{
    match member(known.queries, query as usize) {
        None => {
            let scheme = never(known, demands)?;
            Ok(scheme)
        }
        Some(query) => {
            let scheme = query_demands(query, alloc, known, demands)?;
            Ok(scheme)
        }
    }
}

/// What a range demands after its first bound.
#[cycle(expressions)]
#[tactic(auto, using(crate::proofs::PutLaws::putting))]
fn ranged(
    end: &RExpr,
    alloc: Global,
    known: &Known<'_>,
    demands: &mut List<LineDemand>,
) -> Result<Scheme, NoMemory>
    ensures { IfOk result (λ scheme. ListsType demands.old demands.new known.now (flat_sym (sym_where (demanding demand_of.Int (expr_in known.now end.now).itself) (scheme_of.Set scheme_of.Int))) scheme) }
{
    integer(end, alloc, known, demands)?;
    let scheme = flat_set(Scheme::Int, alloc, known, demands)?;
    Ok(scheme)
}

/// What a tuple demands by itself.
#[cycle(expressions)]
#[tactic(auto, using(crate::proofs::PutLaws::putting))]
fn tuple(
    parts: &[RExpr],
    alloc: Global,
    known: &Known<'_>,
    demands: &mut List<LineDemand>,
) -> Result<Scheme, NoMemory>
    ensures { IfOk result (λ scheme. ListsType demands.old demands.new known.now (flat_sym (tuple_sym (syms_in (context_of known.now) known.now.queries.now parts.now))) scheme) }
{
    let schemes = exprs_demands(parts, alloc, known, demands)?;
    let scheme = flat(Scheme::Tuple(schemes), alloc, known, demands)?;
    Ok(scheme)
}

/// What `and` and `or` demand.
#[cycle(expressions)]
#[tactic(auto, using(crate::proofs::PutLaws::putting))]
fn all_truths(
    parts: &[RExpr],
    alloc: Global,
    known: &Known<'_>,
    demands: &mut List<LineDemand>,
) -> Result<Scheme, NoMemory>
    ensures { IfOk result (λ scheme. ListsType demands.old demands.new known.now (flat_sym (sym_where (truths_in (context_of known.now) known.now.queries.now parts.now) scheme_of.Bool)) scheme) }
{
    truths(parts, alloc, known, demands)?;
    let scheme = flat(Scheme::Bool, alloc, known, demands)?;
    Ok(scheme)
}

/// What `not` demands.
#[cycle(expressions)]
#[tactic(auto, using(crate::proofs::PutLaws::putting))]
fn negated(
    part: &RExpr,
    alloc: Global,
    known: &Known<'_>,
    demands: &mut List<LineDemand>,
) -> Result<Scheme, NoMemory>
    ensures { IfOk result (λ scheme. ListsType demands.old demands.new known.now (flat_sym (sym_where (demanding demand_of.Truth (expr_in known.now part.now).itself) scheme_of.Bool)) scheme) }
{
    truth(part, alloc, known, demands)?;
    let scheme = flat(Scheme::Bool, alloc, known, demands)?;
    Ok(scheme)
}

/// What a comparison demands after its left side, which has this type.
#[cycle(expressions)]
#[tactic(auto, using(crate::proofs::PutLaws::putting))]
fn compared(
    right: &RExpr,
    alloc: Global,
    known: &Known<'_>,
    op: CmpOp,
    left: &Scheme,
    demands: &mut List<LineDemand>,
) -> Result<Scheme, NoMemory>
    ensures { IfOk result (λ scheme. ListsType demands.old demands.new known.now (flat_sym (sym_where (right_in (context_of known.now) known.now.queries.now op left.now right.now) scheme_of.Bool)) scheme) }
{
    right_demands(right, alloc, known, op, left, demands)?;
    let scheme = flat(Scheme::Bool, alloc, known, demands)?;
    Ok(scheme)
}

/// What a test for an element demands after the set, which has this type.
#[cycle(expressions)]
#[tactic(auto, using(crate::proofs::PutLaws::putting))]
fn member_of(
    left: &RExpr,
    alloc: Global,
    known: &Known<'_>,
    whole: &Scheme,
    demands: &mut List<LineDemand>,
) -> Result<Scheme, NoMemory>
    ensures { IfOk result (λ scheme. ListsType demands.old demands.new known.now (flat_sym (sym_where (same_as (scheme_of.Element whole.now) (expr_in known.now left.now).itself) scheme_of.Bool)) scheme) }
{
    let element = element_of(whole, alloc)?;
    same_demands(left, alloc, known, &element, demands)?;
    let scheme = flat(Scheme::Bool, alloc, known, demands)?;
    Ok(scheme)
}

/// What a chain demands after its first operand, which has this type.
#[cycle(expressions)]
#[tactic(auto, using(crate::proofs::PutLaws::putting))]
fn chained(
    more: &[ChainPart],
    alloc: Global,
    known: &Known<'_>,
    first: Scheme,
    demands: &mut List<LineDemand>,
) -> Result<Scheme, NoMemory>
    ensures { IfOk result (λ scheme. ListsType demands.old demands.new known.now (flat_sym (sym_where (further_in (context_of known.now) known.now.queries.now first more.now) first)) scheme) }
{
    further(more, alloc, known, &first, demands)?;
    let scheme = flat(first, alloc, known, demands)?;
    Ok(scheme)
}

/// What an expression demands that is to be an integer.
#[cycle(expressions)]
#[tactic(auto, using(crate::proofs::PutLaws::putting))]
fn integer(
    x: &RExpr,
    alloc: Global,
    known: &Known<'_>,
    demands: &mut List<LineDemand>,
) -> Result<(), NoMemory>
    ensures { OnOk result (Lists demands.old demands.new known.now (demanding demand_of.Int (expr_in known.now x.now).itself)) }
{
    let scheme = expr_demands(x, alloc, known, demands)?;
    put(Demand::Int(scheme), known, demands)?;
    Ok(())
}

/// What an expression demands that is to be a truth value.
#[cycle(expressions)]
#[tactic(auto, using(crate::proofs::PutLaws::putting))]
fn truth(
    x: &RExpr,
    alloc: Global,
    known: &Known<'_>,
    demands: &mut List<LineDemand>,
) -> Result<(), NoMemory>
    ensures { OnOk result (Lists demands.old demands.new known.now (demanding demand_of.Truth (expr_in known.now x.now).itself)) }
{
    let scheme = expr_demands(x, alloc, known, demands)?;
    put(Demand::Truth(scheme), known, demands)?;
    Ok(())
}

/// What expressions demand that are to be truth values.
#[cycle(expressions)]
#[tactic(auto, using(crate::proofs::PutLaws::putting))]
fn truths(
    xs: &[RExpr],
    alloc: Global,
    known: &Known<'_>,
    demands: &mut List<LineDemand>,
) -> Result<(), NoMemory>
    ensures { OnOk result (Lists demands.old demands.new known.now (truths_in (context_of known.now) known.now.queries.now xs.now)) }
{
    for x in xs {
        truth(x, alloc, known, demands)?;
    }
    Ok(())
}

/// What expressions demand by themselves, and what stands for their types.
#[cycle(expressions)]
#[tactic(auto, using(crate::proofs::PutLaws::putting))]
fn exprs_demands(
    xs: &[RExpr],
    alloc: Global,
    known: &Known<'_>,
    demands: &mut List<LineDemand>,
) -> Result<List<Scheme>, NoMemory>
    ensures { IfOk result (λ schemes. (schemes ≡ schemes_in (syms_in (context_of known.now) known.now.queries.now xs.now)) × Lists demands.old demands.new known.now (demands_in (syms_in (context_of known.now) known.now.queries.now xs.now))) }
{
    let mut schemes = List::new(alloc);
    for x in xs {
        let scheme = expr_demands(x, alloc, known, demands)?;
        schemes.push(scheme)?;
    }
    Ok(schemes)
}

/// What an expression demands that is to be by itself of the type that is asked for.
#[cycle(expressions)]
#[tactic(auto, using(crate::proofs::PutLaws::putting))]
fn same_demands(
    x: &RExpr,
    alloc: Global,
    known: &Known<'_>,
    asked: &Scheme,
    demands: &mut List<LineDemand>,
) -> Result<(), NoMemory>
    ensures { OnOk result (Lists demands.old demands.new known.now (same_as asked.now (expr_in known.now x.now).itself)) }
{
    let scheme = expr_demands(x, alloc, known, demands)?;
    same(asked, scheme, alloc, known, demands)?;
    Ok(())
}

/// What the expressions after the first demand, which are to be by themselves of the type that is asked for.
#[cycle(expressions)]
#[tactic(auto, using(crate::proofs::PutLaws::putting))]
fn others_demands(
    xs: &[RExpr],
    alloc: Global,
    known: &Known<'_>,
    asked: &Scheme,
    demands: &mut List<LineDemand>,
) -> Result<(), NoMemory>
    ensures { OnOk result (Lists demands.old demands.new known.now (others_in (context_of known.now) known.now.queries.now asked.now xs.now)) }
{
    match xs {
        [] => Ok(()),
        [_first, others @ ..] => {
            for other in others {
                same_demands(other, alloc, known, asked, demands)?;
            }
            Ok(())
        }
    }
}

/// What a set demands by itself, whose elements are of the type of the first.
#[cycle(expressions)]
#[tactic(auto, using(crate::proofs::PutLaws::putting))]
fn first_set(
    xs: &[RExpr],
    alloc: Global,
    known: &Known<'_>,
    demands: &mut List<LineDemand>,
) -> Result<Scheme, NoMemory>
    ensures { IfOk result (λ scheme. ListsType demands.old demands.new known.now (first_set_in (context_of known.now) known.now.queries.now xs.now) scheme) }
{
    match xs {
        [] => {
            let scheme = never(known, demands)?;
            Ok(scheme)
        }
        [x, ..] => {
            let first = expr_demands(x, alloc, known, demands)?;
            others_demands(xs, alloc, known, &first, demands)?;
            let scheme = flat_set(first, alloc, known, demands)?;
            Ok(scheme)
        }
    }
}

/// What the right side of a comparison demands, where the left one has this type.
#[cycle(expressions)]
#[tactic(auto, using(crate::proofs::PutLaws::putting))]
fn right_demands(
    x: &RExpr,
    alloc: Global,
    known: &Known<'_>,
    op: CmpOp,
    left: &Scheme,
    demands: &mut List<LineDemand>,
) -> Result<(), NoMemory>
    ensures { OnOk result (Lists demands.old demands.new known.now (right_in (context_of known.now) known.now.queries.now op left.now x.now)) }
{
    if asks_order(op) {
        ordered(left, alloc, known, demands)?;
        same_demands(x, alloc, known, left, demands)?;
        Ok(())
    } else {
        fit_demands(x, alloc, known, left, demands)?;
        Ok(())
    }
}

/// What the further operands of a chain demand, whose first has this type.
#[cycle(expressions)]
#[tactic(auto, using(crate::proofs::PutLaws::putting))]
fn further(
    more: &[ChainPart],
    alloc: Global,
    known: &Known<'_>,
    first: &Scheme,
    demands: &mut List<LineDemand>,
) -> Result<(), NoMemory>
    ensures { OnOk result (Lists demands.old demands.new known.now (further_in (context_of known.now) known.now.queries.now first.now more.now)) }
{
    for part in more {
        taken(part.op, first, alloc, known, demands)?;
        same_demands(part.operand.get(), alloc, known, first, demands)?;
    }
    Ok(())
}

// Puts that an operation of a chain takes a type.
fn taken(
    op: ArithOp,
    scheme: &Scheme,
    alloc: Global,
    known: &Known<'_>,
    demands: &mut List<LineDemand>,
) -> Result<(), NoMemory>
    ensures { OnOk result (Lists demands.old demands.new known.now (taken_by op scheme.now ∷ [])) }
{
    let copy = copy_scheme(scheme, alloc)?;
    if is_for_sets(op) {
        put(Demand::Adds(copy), known, demands)?;
        Ok(())
    } else {
        put(Demand::Int(copy), known, demands)?;
        Ok(())
    }
}

// Whether an operation is one of sets too.
fn is_for_sets(op: ArithOp) -> bool
    ensures { result ≡ sets_take op }
{
    match op {
        ArithOp::Plus | ArithOp::Minus | ArithOp::Times => true,
        ArithOp::Div | ArithOp::Mod => false,
    }
}

/// What an expression demands in a place that asks for a type.
#[cycle(expressions)]
#[tactic(auto, using(crate::proofs::ExprForms::fit_rules))]
pub fn fit_demands(
    x: &RExpr,
    alloc: Global,
    known: &Known<'_>,
    asked: &Scheme,
    demands: &mut List<LineDemand>,
) -> Result<(), NoMemory>
    ensures { OnOk result (Lists demands.old demands.new known.now ((expr_in known.now x.now).fits asked.now)) }
{
    match x {
        RExpr::Tuple(parts) => {
            tuple_asked(asked, parts.len(), alloc, known, demands)?;
            parts_demands(parts.as_slice(), alloc, known, asked, demands)?;
            Ok(())
        }
        RExpr::SetOf(parts) => {
            set_asked(asked, alloc, known, demands)?;
            let element = element_of(asked, alloc)?;
            elements_demands(parts.as_slice(), alloc, known, &element, demands)?;
            Ok(())
        }
        _ => {
            same_demands(x, alloc, known, asked, demands)?;
            Ok(())
        }
    }
}

// Puts that a type is a tuple of so many parts, and of at most 32 levels.
#[tactic(auto, using(crate::proofs::PutLaws::putting))]
fn tuple_asked(
    asked: &Scheme,
    count: usize,
    alloc: Global,
    known: &Known<'_>,
    demands: &mut List<LineDemand>,
) -> Result<(), NoMemory>
    ensures { OnOk result (Lists demands.old demands.new known.now (demand_of.Flat asked.now ∷ demand_of.Width asked.now count ∷ [])) }
{
    let copy = copy_scheme(asked, alloc)?;
    put(Demand::Flat(copy), known, demands)?;
    let copy = copy_scheme(asked, alloc)?;
    put(Demand::Width(copy, count), known, demands)?;
    Ok(())
}

// Puts that a type is a set, and of at most 32 levels.
#[tactic(auto, using(crate::proofs::PutLaws::putting))]
fn set_asked(
    asked: &Scheme,
    alloc: Global,
    known: &Known<'_>,
    demands: &mut List<LineDemand>,
) -> Result<(), NoMemory>
    ensures { OnOk result (Lists demands.old demands.new known.now (demand_of.Flat asked.now ∷ demand_of.Elements asked.now ∷ [])) }
{
    let copy = copy_scheme(asked, alloc)?;
    put(Demand::Flat(copy), known, demands)?;
    let copy = copy_scheme(asked, alloc)?;
    put(Demand::Elements(copy), known, demands)?;
    Ok(())
}

/// What the parts of a tuple demand in a place that asks for a type.
#[cycle(expressions)]
#[tactic(auto, using(crate::proofs::PutLaws::counting))]
fn parts_demands(
    xs: &[RExpr],
    alloc: Global,
    known: &Known<'_>,
    asked: &Scheme,
    demands: &mut List<LineDemand>,
) -> Result<(), NoMemory>
    ensures { OnOk result (Lists demands.old demands.new known.now (parts_in (context_of known.now) known.now.queries.now 0 (length xs.now) asked.now xs.now)) }
{
    let count = xs.len();
    let mut at = 0;
    for x in xs {
        let part = part_of(asked, at, count, alloc)?;
        fit_demands(x, alloc, known, &part, demands)?;
        at += 1;
    }
    Ok(())
}

/// What the elements of a set demand in a place that asks for a type.
#[cycle(expressions)]
#[tactic(auto, using(crate::proofs::PutLaws::putting))]
fn elements_demands(
    xs: &[RExpr],
    alloc: Global,
    known: &Known<'_>,
    element: &Scheme,
    demands: &mut List<LineDemand>,
) -> Result<(), NoMemory>
    ensures { OnOk result (Lists demands.old demands.new known.now (elements_in (context_of known.now) known.now.queries.now element.now xs.now)) }
{
    for x in xs {
        fit_demands(x, alloc, known, element, demands)?;
    }
    Ok(())
}
