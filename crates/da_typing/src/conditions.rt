//! Types of conditions, of the sides of their comparisons, and of aggregates.
ghost use Rattle.da_lang.specs.declared.query.Agg.{out-Agg};
ghost use Rattle.da_lang.specs.declared.query.SignedOperand.{out-SignedOperand};
ghost use Rattle.da_lang.specs.QueryTypes.{agg_side as side_of_agg, cond_holds as holds_of_cond, given, has_rows as rows_there, holds_if as holds_of_if, holds_of, is_operand as operand_side_of, operand_side as side_of_operand, other_type as type_of_other, rows_where as rows_of};
ghost use Rattle.da_lang.specs.Types.{is_bool as bool_type};
ghost use Rattle.da_typing.specs.Aggregates.{agg_found};
ghost use Rattle.da_typing.specs.KnownView.{known_of};
ghost use Rattle.da_typing.specs.SideView.{side_of};
ghost use Rattle.std.specs.List.{list_all};
ghost use Rattle.std.specs.Prelude.{◌≡◌, IfOk, map, option_map};

use crate::known::Known;
use crate::patterns::{gens_row, row_where};
use crate::sides::{Side, agg_type, are_comparable, chain_side, is_operand, plain_of};
use crate::terms::term_type;
use crate::types::{is_bool, is_flat_set};
use da_lang::{Agg, Cond, Operand, RGen, SignedOperand, Term, Ty, copy_types};
use da_values::{Boxed, List, NoMemory};
use std::alloc::Global;

/// Whether a condition keeps the rules, over a row of these types.
#[cycle(conditions)]
#[tactic(auto, using(crate::proofs::CondForms::cond_rules))]
pub fn cond_holds(
    alloc: Global,
    known: &Known<'_>,
    cond: &Cond,
    row: &[Ty],
) -> Result<bool, NoMemory>
    ensures { IfOk result (λ holds. holds ≡ holds_of_cond (known_of known.now) cond.now row.now) }
{
    match cond {
        Cond::Truth(term) => {
            let found = term_type(alloc, known, term, row)?;
            Ok(is_truth(&found))
        }
        Cond::Cmp(op, left, right) => {
            let left = operand_side(alloc, known, left.get(), row)?;
            let right = operand_side(alloc, known, right.get(), row)?;
            Ok(are_comparable(*op, &left, &right))
        }
        Cond::Not(cond) => cond_holds(alloc, known, cond.get(), row),
        Cond::And(conds) => conds_hold(alloc, known, conds.as_slice(), row),
        Cond::Or(conds) => conds_hold(alloc, known, conds.as_slice(), row),
        Cond::Quant {
            each: _,
            gens,
            cond,
        } => has_rows(alloc, known, gens.as_slice(), cond, row),
    }
}

// Whether there is a type, and it is `bool`.
fn is_truth(found: &Option<Ty>) -> bool
    ensures { result ≡ holds_of found.now bool_type }
{
    match found {
        None => false,
        Some(ty) => is_bool(ty),
    }
}

/// Whether conditions keep the rules.
#[cycle(conditions)]
fn conds_hold(
    alloc: Global,
    known: &Known<'_>,
    conds: &[Cond],
    row: &[Ty],
) -> Result<bool, NoMemory>
    ensures { IfOk result (λ holds. holds ≡ list_all (λ cond. holds_of_cond (known_of known.now) cond row.now) conds.now) }
{
    for cond in conds {
        if !cond_holds(alloc, known, cond, row)? {
            return Ok(false);
        }
    }
    Ok(true)
}

/// Whether a condition that there may be keeps the rules.
#[cycle(conditions)]
fn holds_if(
    alloc: Global,
    known: &Known<'_>,
    cond: &Option<Boxed<Cond>>,
    row: &[Ty],
) -> Result<bool, NoMemory>
    ensures { IfOk result (λ holds. holds ≡ holds_of_if (option_map (holds_of_cond (known_of known.now)) cond.now) row.now) }
{
    match cond {
        None => Ok(true),
        Some(cond) => cond_holds(alloc, known, cond.get(), row),
    }
}

/// The row of generators, where the condition after them keeps the rules.
#[cycle(conditions)]
pub fn rows_where(
    alloc: Global,
    known: &Known<'_>,
    gens: &[RGen],
    cond: &Option<Boxed<Cond>>,
    row: List<Ty>,
) -> Result<Option<List<Ty>>, NoMemory>
    ensures { IfOk result (λ found. found ≡ rows_of (known_of known.now) gens.now (option_map (holds_of_cond (known_of known.now)) cond.now) row) }
{
    let found = gens_row(alloc, known, gens, row)?;
    match found {
        None => Ok(None),
        Some(found) => {
            let holds = holds_if(alloc, known, cond, found.as_slice())?;
            Ok(row_where(holds, found))
        }
    }
}

/// Whether generators have a row where the condition after them keeps the rules.
#[cycle(conditions)]
fn has_rows(
    alloc: Global,
    known: &Known<'_>,
    gens: &[RGen],
    cond: &Option<Boxed<Cond>>,
    row: &[Ty],
) -> Result<bool, NoMemory>
    ensures { IfOk result (λ holds. holds ≡ rows_there (known_of known.now) gens.now (option_map (holds_of_cond (known_of known.now)) cond.now) row.now) }
{
    let inner = copy_types(alloc, row)?;
    let found = rows_where(alloc, known, gens, cond, inner)?;
    match found {
        None => Ok(false),
        Some(_) => Ok(true),
    }
}

/// The type of a side of a comparison, over a row of these types.
#[cycle(conditions)]
#[tactic(auto, using(crate::proofs::CondForms::side_rules))]
fn operand_side(
    alloc: Global,
    known: &Known<'_>,
    operand: &Operand,
    row: &[Ty],
) -> Result<Option<Side>, NoMemory>
    ensures { IfOk result (λ found. option_map side_of found ≡ side_of_operand (known_of known.now) operand.now row.now) }
{
    match operand {
        Operand::Term(term) => Ok(plain_of(term_type(alloc, known, term, row)?)),
        Operand::Agg(agg) => agg_side(alloc, known, agg.get(), row),
        Operand::Chain(first, more) => {
            let side = operand_side(alloc, known, first.get(), row)?;
            let holds = are_operands(alloc, known, more.as_slice(), row)?;
            Ok(chain_side(&side, holds))
        }
    }
}

/// Whether further operands may stand in a chain.
#[cycle(conditions)]
fn are_operands(
    alloc: Global,
    known: &Known<'_>,
    more: &[SignedOperand],
    row: &[Ty],
) -> Result<bool, NoMemory>
    ensures { IfOk result (λ holds. holds ≡ list_all (λ signed. operand_side_of (side_of_operand (known_of known.now) (out-SignedOperand signed).operand row.now)) more.now) }
{
    for signed in more {
        let side = operand_side(alloc, known, signed.operand.get(), row)?;
        if !is_operand(&side) {
            return Ok(false);
        }
    }
    Ok(true)
}

/// The type of an aggregate, over a row of these types.
#[cycle(conditions)]
#[tactic(auto, using(crate::proofs::CondForms::side_of_aggregate))]
pub fn agg_side(
    alloc: Global,
    known: &Known<'_>,
    agg: &Agg,
    row: &[Ty],
) -> Result<Option<Side>, NoMemory>
    ensures { IfOk result (λ found. option_map side_of found ≡ side_of_agg (known_of known.now) agg.now row.now) }
{
    let inner = copy_types(alloc, row)?;
    let found = rows_where(alloc, known, agg.gens.as_slice(), &agg.cond, inner)?;
    match found {
        None => Ok(None),
        Some(found) => agg_over(alloc, known, agg, found.as_slice(), row),
    }
}

// The type of an aggregate whose generators and condition have the row `found`.
fn agg_over(
    alloc: Global,
    known: &Known<'_>,
    agg: &Agg,
    found: &[Ty],
    row: &[Ty],
) -> Result<Option<Side>, NoMemory>
    ensures { IfOk result (λ side. option_map side_of side ≡ agg_found (known_of known.now) (out-Agg agg.now).op (out-Agg agg.now).term (out-Agg agg.now).other found.now row.now) }
{
    let Some(ty) = term_type(alloc, known, &agg.term, found)? else {
        return Ok(None);
    };
    let other = other_type(alloc, known, &agg.other, row)?;
    if is_flat_set(&ty) {
        Ok(agg_type(agg.op, ty, &other))
    } else {
        Ok(None)
    }
}

// The type of the value that `min` and `max` give of the empty set.
fn other_type(
    alloc: Global,
    known: &Known<'_>,
    other: &Option<Term>,
    row: &[Ty],
) -> Result<Option<Ty>, NoMemory>
    ensures { IfOk result (λ found. found ≡ type_of_other (known_of known.now) other.now row.now) }
{
    match other {
        None => Ok(None),
        Some(term) => term_type(alloc, known, term, row),
    }
}
