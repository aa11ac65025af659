//! What numbered queries demand.
ghost use Rattle.std.specs.Prelude.{[], IfOk};
ghost use Rattle.type_demands.specs.Conds.{query_rows, query_sym, set_sym};
ghost use Rattle.type_demands.specs.KnownView.{context_of};
ghost use Rattle.type_demands.specs.Listing.{ListsRow, ListsType};
ghost use Rattle.type_demands.specs.Terms.{no_row, term_sym};

use crate::conditions::{agg_demands, rows_demands};
use crate::demand::{Demand, LineDemand};
use crate::known::Known;
use crate::puts::{flat_set, put};
use crate::terms::term_demands;
use da_lang::{Query, Term};
use da_values::{List, NoMemory};
use std::alloc::Global;
use type_table::Scheme;

/// What the generators and the condition of a `some` demand. It answers the row with their variables.
pub fn query_rows_demands(
    query: &Query,
    alloc: Global,
    known: &Known<'_>,
    demands: &mut List<LineDemand>,
) -> Result<List<Scheme>, NoMemory>
    ensures { IfOk result (λ row. ListsRow demands.old demands.new known.now (query_rows (context_of known.now) query.now) row) }
{
    match query {
        Query::Quant { gens, cond, .. } => {
            let row = rows_demands(gens.as_slice(), cond, alloc, known, &[], demands)?;
            Ok(row)
        }
        Query::Comp { .. } => {
            let row = no_rows(alloc, known, demands)?;
            Ok(row)
        }
        Query::Agg(_) => {
            let row = no_rows(alloc, known, demands)?;
            Ok(row)
        }
    }
}

// What nothing meets, and no row.
fn no_rows(
    alloc: Global,
    known: &Known<'_>,
    demands: &mut List<LineDemand>,
) -> Result<List<Scheme>, NoMemory>
    ensures { IfOk result (λ row. ListsRow demands.old demands.new known.now (no_row []) row) }
{
    put(Demand::Never, known, demands)?;
    Ok(List::new(alloc))
}

/// What a query demands, and what stands for its type.
#[tactic(auto, using(crate::proofs::PutLaws::putting))]
pub fn query_demands(
    query: &Query,
    alloc: Global,
    known: &Known<'_>,
    demands: &mut List<LineDemand>,
) -> Result<Scheme, NoMemory>
    ensures { IfOk result (λ scheme. ListsType demands.old demands.new known.now (query_sym (context_of known.now) query.now) scheme) }
{
    match query {
        Query::Quant { gens, cond, .. } => {
            let _ = rows_demands(gens.as_slice(), cond, alloc, known, &[], demands)?;
            Ok(Scheme::Bool)
        }
        Query::Comp { term, gens, cond } => {
            let rows = rows_demands(gens.as_slice(), cond, alloc, known, &[], demands)?;
            let scheme = set_demands(term, alloc, known, rows.as_slice(), demands)?;
            Ok(scheme)
        }
        Query::Agg(agg) => {
            let side = agg_demands(agg.get(), alloc, known, &[], demands)?;
            Ok(side.scheme)
        }
    }
}

// What the set of a term over a row demands.
#[tactic(auto, using(crate::proofs::PutLaws::putting))]
fn set_demands(
    term: &Term,
    alloc: Global,
    known: &Known<'_>,
    row: &[Scheme],
    demands: &mut List<LineDemand>,
) -> Result<Scheme, NoMemory>
    ensures { IfOk result (λ scheme. ListsType demands.old demands.new known.now (set_sym (term_sym (context_of known.now) term.now row.now)) scheme) }
{
    let scheme = term_demands(term, alloc, known, row, demands)?;
    let set = flat_set(scheme, alloc, known, demands)?;
    Ok(set)
}
