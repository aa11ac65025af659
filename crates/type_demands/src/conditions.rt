//! What conditions, sides of comparisons and aggregates demand.
ghost use Rattle.std.specs.Prelude.{[], ◌∷◌, ◌++◌, IfOk, OnOk, flat_map, option_map};
ghost use Rattle.da_lang.specs.declared.query.Agg.{out-Agg};
ghost use Rattle.da_lang.specs.declared.query.SignedOperand.{out-SignedOperand};
ghost use Rattle.type_demands.specs.Conds.{agg_found, agg_over as over_sym, agg_sym, cond_sym, demands_if, extreme_sym, operand_asks, operand_sym, other_sym, where_sym};
ghost use Rattle.type_demands.specs.KnownView.{context_of};
ghost use Rattle.type_demands.specs.Listing.{Lists, ListsRow, ListsSide, ListsType};
ghost use Rattle.type_demands.specs.Terms.{term_sym};
ghost use Rattle.type_demands.specs.declared.demand.Demand.TheVariants as demand_of;

use crate::copy::{copy_scheme, copy_schemes};
use crate::demand::{Demand, LineDemand};
use crate::known::Known;
use crate::patterns::gens_demands;
use crate::puts::{flat_set, never, put, same};
use crate::sides::{SideScheme, operand_asked, ordered, sides_compared};
use crate::terms::term_demands;
use da_lang::{Agg, AggOp, Cond, Operand, RGen, SignedOperand, Term};
use da_values::{Boxed, List, NoMemory};
use std::alloc::Global;
use type_table::Scheme;

/// What a condition demands, over a row.
#[cycle(conditions)]
#[tactic(auto, using(crate::proofs::CondForms::cond_rules))]
pub fn cond_demands(
    cond: &Cond,
    alloc: Global,
    known: &Known<'_>,
    row: &[Scheme],
    demands: &mut List<LineDemand>,
) -> Result<(), NoMemory>
    ensures { OnOk result (Lists demands.old demands.new known.now (cond_sym (context_of known.now) cond.now row.now)) }
{
    match cond {
        Cond::Truth(term) => {
            truth_demands(term, alloc, known, row, demands)?;
            Ok(())
        }
        Cond::Cmp(op, left, right) => {
            let left = operand_demands(left.get(), alloc, known, row, demands)?;
            let right = operand_demands(right.get(), alloc, known, row, demands)?;
            sides_compared(*op, left, right, alloc, known, demands)?;
            Ok(())
        }
        Cond::Not(cond) => {
            cond_demands(cond.get(), alloc, known, row, demands)?;
            Ok(())
        }
        Cond::And(conds) => {
            conds_demands(conds.as_slice(), alloc, known, row, demands)?;
            Ok(())
        }
        Cond::Or(conds) => {
            conds_demands(conds.as_slice(), alloc, known, row, demands)?;
            Ok(())
        }
        Cond::Quant { gens, cond, .. } => {
            let _ = rows_demands(gens.as_slice(), cond, alloc, known, row, demands)?;
            Ok(())
        }
    }
}

// What a term demands that is to be a truth value.
#[tactic(auto, using(crate::proofs::PutLaws::putting))]
fn truth_demands(
    term: &Term,
    alloc: Global,
    known: &Known<'_>,
    row: &[Scheme],
    demands: &mut List<LineDemand>,
) -> Result<(), NoMemory>
    ensures { OnOk result (Lists demands.old demands.new known.now ((term_sym (context_of known.now) term.now row.now).demands ++ demand_of.Truth (term_sym (context_of known.now) term.now row.now).scheme ∷ [])) }
{
    let scheme = term_demands(term, alloc, known, row, demands)?;
    put(Demand::Truth(scheme), known, demands)?;
    Ok(())
}

/// What conditions demand.
#[cycle(conditions)]
#[tactic(auto, using(crate::proofs::PutLaws::putting))]
fn conds_demands(
    conds: &[Cond],
    alloc: Global,
    known: &Known<'_>,
    row: &[Scheme],
    demands: &mut List<LineDemand>,
) -> Result<(), NoMemory>
    ensures { OnOk result (Lists demands.old demands.new known.now (flat_map (λ x. cond_sym (context_of known.now) x row.now) conds.now)) }
{
    for cond in conds {
        cond_demands(cond, alloc, known, row, demands)?;
    }
    Ok(())
}

/// What a condition that there may be demands.
#[cycle(conditions)]
#[tactic(auto, using(crate::proofs::PutLaws::putting))]
fn demands_where(
    cond: &Option<Boxed<Cond>>,
    alloc: Global,
    known: &Known<'_>,
    row: &[Scheme],
    demands: &mut List<LineDemand>,
) -> Result<(), NoMemory>
    ensures { OnOk result (Lists demands.old demands.new known.now (demands_if (option_map (cond_sym (context_of known.now)) cond.now) row.now)) }
{
    match cond {
        None => Ok(()),
        Some(cond) => {
            cond_demands(cond.get(), alloc, known, row, demands)?;
            Ok(())
        }
    }
}

/// What generators demand, and the condition after them. It answers the row with their variables.
#[cycle(conditions)]
#[tactic(auto, using(crate::proofs::PutLaws::putting))]
pub fn rows_demands(
    gens: &[RGen],
    cond: &Option<Boxed<Cond>>,
    alloc: Global,
    known: &Known<'_>,
    row: &[Scheme],
    demands: &mut List<LineDemand>,
) -> Result<List<Scheme>, NoMemory>
    ensures { IfOk result (λ rows. ListsRow demands.old demands.new known.now (where_sym (context_of known.now) gens.now cond.now row.now) rows) }
{
    let mut rows = copy_schemes(row, alloc)?;
    gens_demands(gens, alloc, known, &mut rows, demands)?;
    demands_where(cond, alloc, known, rows.as_slice(), demands)?;
    Ok(rows)
}

/// What a side of a comparison demands.
#[cycle(conditions)]
#[tactic(auto, using(crate::proofs::CondForms::side_rules))]
fn operand_demands(
    operand: &Operand,
    alloc: Global,
    known: &Known<'_>,
    row: &[Scheme],
    demands: &mut List<LineDemand>,
) -> Result<SideScheme, NoMemory>
    ensures { IfOk result (λ side. ListsSide demands.old demands.new known.now (operand_sym (context_of known.now) operand.now row.now) side) }
{
    match operand {
        Operand::Term(term) => {
            let scheme = term_demands(term, alloc, known, row, demands)?;
            Ok(SideScheme { scheme, sum: false })
        }
        Operand::Agg(agg) => {
            let side = agg_demands(agg.get(), alloc, known, row, demands)?;
            Ok(side)
        }
        Operand::Chain(first, more) => {
            let side = operand_demands(first.get(), alloc, known, row, demands)?;
            operand_asked(side, known, demands)?;
            further_demands(more.as_slice(), alloc, known, row, demands)?;
            Ok(SideScheme {
                scheme: Scheme::Int,
                sum: false,
            })
        }
    }
}

/// What the further operands of a chain demand.
#[cycle(conditions)]
#[tactic(auto, using(crate::proofs::PutLaws::putting))]
fn further_demands(
    more: &[SignedOperand],
    alloc: Global,
    known: &Known<'_>,
    row: &[Scheme],
    demands: &mut List<LineDemand>,
) -> Result<(), NoMemory>
    ensures { OnOk result (Lists demands.old demands.new known.now (flat_map (λ x. operand_asks (operand_sym (context_of known.now) (out-SignedOperand x).operand row.now)) more.now)) }
{
    for signed in more {
        let side = operand_demands(signed.operand.get(), alloc, known, row, demands)?;
        operand_asked(side, known, demands)?;
    }
    Ok(())
}

/// What an aggregate demands, over a row.
#[cycle(conditions)]
#[tactic(auto, using(crate::proofs::CondForms::agg_rules))]
pub fn agg_demands(
    agg: &Agg,
    alloc: Global,
    known: &Known<'_>,
    row: &[Scheme],
    demands: &mut List<LineDemand>,
) -> Result<SideScheme, NoMemory>
    ensures { IfOk result (λ side. ListsSide demands.old demands.new known.now (agg_sym (context_of known.now) agg.now row.now) side) }
{
    let rows = rows_demands(agg.gens.as_slice(), &agg.cond, alloc, known, row, demands)?;
    let side = agg_after(agg, alloc, known, rows.as_slice(), row, demands)?;
    Ok(side)
}

// What an aggregate demands after its generators and its condition, which have this row.
#[tactic(auto, using(crate::proofs::PutLaws::putting))]
fn agg_after(
    agg: &Agg,
    alloc: Global,
    known: &Known<'_>,
    rows: &[Scheme],
    row: &[Scheme],
    demands: &mut List<LineDemand>,
) -> Result<SideScheme, NoMemory>
    ensures { IfOk result (λ side. ListsSide demands.old demands.new known.now (agg_found (out-Agg agg.now).op (term_sym (context_of known.now) (out-Agg agg.now).term rows.now) (other_sym (context_of known.now) (out-Agg agg.now).other row.now)) side) }
{
    let scheme = term_demands(&agg.term, alloc, known, rows, demands)?;
    let copy = copy_scheme(&scheme, alloc)?;
    drop(flat_set(copy, alloc, known, demands)?);
    let side = agg_over(agg, scheme, alloc, known, row, demands)?;
    Ok(side)
}

// What an aggregate demands of the type of the elements.
fn agg_over(
    agg: &Agg,
    scheme: Scheme,
    alloc: Global,
    known: &Known<'_>,
    row: &[Scheme],
    demands: &mut List<LineDemand>,
) -> Result<SideScheme, NoMemory>
    ensures { IfOk result (λ side. ListsSide demands.old demands.new known.now (over_sym (out-Agg agg.now).op scheme (other_sym (context_of known.now) (out-Agg agg.now).other row.now)) side) }
{
    match agg.op {
        AggOp::Count => Ok(SideScheme {
            scheme: Scheme::Int,
            sum: false,
        }),
        AggOp::Sum => {
            put(Demand::Int(scheme), known, demands)?;
            Ok(SideScheme {
                scheme: Scheme::Int,
                sum: true,
            })
        }
        AggOp::Min => {
            let side = extreme(&agg.other, scheme, alloc, known, row, demands)?;
            Ok(side)
        }
        AggOp::Max => {
            let side = extreme(&agg.other, scheme, alloc, known, row, demands)?;
            Ok(side)
        }
    }
}

// What the least or the greatest of a set demands, whose elements have this type.
#[tactic(auto, using(crate::proofs::PutLaws::putting))]
fn extreme(
    other: &Option<Term>,
    scheme: Scheme,
    alloc: Global,
    known: &Known<'_>,
    row: &[Scheme],
    demands: &mut List<LineDemand>,
) -> Result<SideScheme, NoMemory>
    ensures { IfOk result (λ side. ListsSide demands.old demands.new known.now (extreme_sym scheme (other_sym (context_of known.now) other.now row.now)) side) }
{
    ordered(&scheme, alloc, known, demands)?;
    let found = other_demands(other, alloc, known, row, demands)?;
    same(&scheme, found, alloc, known, demands)?;
    Ok(SideScheme { scheme, sum: false })
}

// What the value demands that `min` and `max` give of the empty set.
fn other_demands(
    other: &Option<Term>,
    alloc: Global,
    known: &Known<'_>,
    row: &[Scheme],
    demands: &mut List<LineDemand>,
) -> Result<Scheme, NoMemory>
    ensures { IfOk result (λ scheme. ListsType demands.old demands.new known.now (other_sym (context_of known.now) other.now row.now) scheme) }
{
    match other {
        None => {
            let scheme = never(known, demands)?;
            Ok(scheme)
        }
        Some(term) => {
            let scheme = term_demands(term, alloc, known, row, demands)?;
            Ok(scheme)
        }
    }
}
