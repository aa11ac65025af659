//! What terms demand.
ghost use Rattle.std.specs.Prelude.{◌≡◌, ◌++◌, IfOk, map};
ghost use Rattle.da_lang.specs.World.{at_number};
ghost use Rattle.type_demands.specs.Demands.{at_line};
ghost use Rattle.type_demands.specs.KnownView.{context_of, slot_in};
ghost use Rattle.type_demands.specs.Listing.{ListsType};
ghost use Rattle.type_demands.specs.Syms.{demands_in, flat_sym, literal_sym, plain_or_never, schemes_in, single_sym};
ghost use Rattle.type_demands.specs.Terms.{term_sym};

use crate::copy::copy_scheme;
use crate::demand::{Demand, LineDemand};
use crate::known::{Known, slot_demands};
use crate::puts::{flat, never, put};
use da_lang::Term;
use da_typing::member;
use da_values::{List, NoMemory, Value, is_narrow};
use std::alloc::Global;
use type_table::Scheme;

/// What stands for the type of a literal, whose integer lies in an i64.
#[tactic(auto, using(da_values::proofs::FoldsAt::is_narrow_of))]
pub fn literal_demands(
    value: &Value,
    known: &Known<'_>,
    demands: &mut List<LineDemand>,
) -> Result<Scheme, NoMemory>
    ensures { IfOk result (λ scheme. ListsType demands.old demands.new known.now (literal_sym value.now) scheme) }
{
    match value {
        Value::Int(_) => {
            if is_narrow(value) {
                Ok(Scheme::Int)
            } else {
                let scheme = never(known, demands)?;
                Ok(scheme)
            }
        }
        Value::Bool(_) => Ok(Scheme::Bool),
        Value::Text(_) => Ok(Scheme::Text),
        Value::Proc(_) => Ok(Scheme::Proc),
        Value::Tuple(_) => {
            let scheme = never(known, demands)?;
            Ok(scheme)
        }
        Value::Set(_) => {
            let scheme = never(known, demands)?;
            Ok(scheme)
        }
    }
}

/// What stands for the type of a term, over a row.
#[cycle(terms)]
#[tactic(auto, using(crate::proofs::TermForms::term_rules))]
pub fn term_demands(
    term: &Term,
    alloc: Global,
    known: &Known<'_>,
    row: &[Scheme],
    demands: &mut List<LineDemand>,
) -> Result<Scheme, NoMemory>
    ensures { IfOk result (λ scheme. ListsType demands.old demands.new known.now (term_sym (context_of known.now) term.now row.now) scheme) }
{
    match term {
        Term::Const(value) => {
            let scheme = literal_demands(value, known, demands)?;
            Ok(scheme)
        }
        Term::Me => Ok(Scheme::Proc),
        Term::Slot(slot) => {
            let scheme = single_slot(*slot, alloc, known, demands)?;
            Ok(scheme)
        }
        Term::Part(part) => {
            let scheme = row_part(*part, alloc, known, row, demands)?;
            Ok(scheme)
        }
        Term::Tuple(parts) => {
            let parts = terms_demands(parts.as_slice(), alloc, known, row, demands)?;
            let scheme = flat(Scheme::Tuple(parts), alloc, known, demands)?;
            Ok(scheme)
        }
        Term::Foreign => {
            let scheme = never(known, demands)?;
            Ok(scheme)
        }
    }
}

/// What stands for the types of terms.
#[cycle(terms)]
#[tactic(auto, using(crate::proofs::PutLaws::putting))]
fn terms_demands(
    terms: &[Term],
    alloc: Global,
    known: &Known<'_>,
    row: &[Scheme],
    demands: &mut List<LineDemand>,
) -> Result<List<Scheme>, NoMemory>
    ensures { IfOk result (λ schemes. (schemes ≡ schemes_in (map (λ x. term_sym (context_of known.now) x row.now) terms.now)) × (demands.new ≡ demands.old ++ at_line known.now.line (demands_in (map (λ x. term_sym (context_of known.now) x row.now) terms.now)))) }
{
    let mut schemes = List::new(alloc);
    for term in terms {
        let scheme = term_demands(term, alloc, known, row, demands)?;
        schemes.push(scheme)?;
    }
    Ok(schemes)
}

// What stands for the type of a slot that is no set.
#[tactic(auto, using(crate::proofs::PutLaws::putting))]
fn single_slot(
    slot: u16,
    alloc: Global,
    known: &Known<'_>,
    demands: &mut List<LineDemand>,
) -> Result<Scheme, NoMemory>
    ensures { IfOk result (λ scheme. ListsType demands.old demands.new known.now (flat_sym (single_sym (slot_in known.now.slots.now slot))) scheme) }
{
    let scheme = slot_demands(slot, alloc, known, demands)?;
    let copy = copy_scheme(&scheme, alloc)?;
    put(Demand::Single(copy), known, demands)?;
    let scheme = flat(scheme, alloc, known, demands)?;
    Ok(scheme)
}

// What stands for the type of a part of the row.
#[tactic(auto, using(crate::proofs::PutLaws::putting))]
fn row_part(
    part: u16,
    alloc: Global,
    known: &Known<'_>,
    row: &[Scheme],
    demands: &mut List<LineDemand>,
) -> Result<Scheme, NoMemory>
    ensures { IfOk result (λ scheme. ListsType demands.old demands.new known.now (flat_sym (plain_or_never (at_number row.now part))) scheme) }
{
    let scheme = match member(row, usize::from(part)) {
        None => never(known, demands)?,
        Some(scheme) => copy_scheme(scheme, alloc)?,
    };
    let scheme = flat(scheme, alloc, known, demands)?;
    Ok(scheme)
}
