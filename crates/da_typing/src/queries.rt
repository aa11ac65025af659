//! Types of numbered queries.
ghost use Rattle.da_lang.specs.declared.ty.Ty.TheVariants.{Bool, Set};
ghost use Rattle.da_lang.specs.QueryTypes.{flat as flat_where, given, query_row as row_of_query, query_type as type_of_query, rows_where as rows_of, term_type as type_of_term, written_cond};
ghost use Rattle.da_typing.specs.KnownView.{known_of};
ghost use Rattle.da_typing.specs.SideView.{side_of};
ghost use Rattle.std.specs.Prelude.{◌≡◌, [], IfOk, option_map};

use crate::conditions::{agg_side, rows_where};
use crate::known::Known;
use crate::sides::Side;
use crate::terms::term_type;
use crate::types::flat;
use da_lang::{Cond, Query, RGen, Term, Ty};
use da_values::{Boxed, List, NoMemory};
use std::alloc::Global;

/// The row of the generators of a `some`, where its condition keeps the rules too.
pub fn query_row(
    alloc: Global,
    known: &Known<'_>,
    query: &Query,
) -> Result<Option<List<Ty>>, NoMemory>
    ensures { IfOk result (λ found. found ≡ row_of_query (known_of known.now) query.now) }
{
    match query {
        Query::Quant {
            each: _,
            gens,
            cond,
        } => rows(alloc, known, gens.as_slice(), cond),
        Query::Comp {
            term: _,
            gens: _,
            cond: _,
        } => Ok(None),
        Query::Agg(_) => Ok(None),
    }
}

/// The type of a query.
pub fn query_type(alloc: Global, known: &Known<'_>, query: &Query) -> Result<Option<Ty>, NoMemory>
    ensures { IfOk result (λ found. found ≡ type_of_query (known_of known.now) query.now) }
{
    match query {
        Query::Quant {
            each: _,
            gens,
            cond,
        } => {
            let found = rows(alloc, known, gens.as_slice(), cond)?;
            Ok(truth_over(&found))
        }
        Query::Comp { term, gens, cond } => {
            let found = rows(alloc, known, gens.as_slice(), cond)?;
            set_over(alloc, known, term, &found)
        }
        Query::Agg(agg) => {
            let side = agg_side(alloc, known, agg.get(), &[])?;
            Ok(type_of_side(side))
        }
    }
}

// The type of truth values, where there is a row.
fn truth_over(found: &Option<List<Ty>>) -> Option<Ty>
    ensures { result ≡ given found.now (λ row. Some Bool) }
{
    match found {
        None => None,
        Some(_) => Some(Ty::Bool),
    }
}

// The type of a side, if there is one.
fn type_of_side(side: Option<Side>) -> Option<Ty>
    ensures { result ≡ given (option_map side_of side) (λ s. Some s.ty) }
{
    match side {
        None => None,
        Some(side) => Some(side.ty),
    }
}

// The row of generators, where the condition after them keeps the rules.
#[tactic(auto, using(crate::proofs::CondForms::written_as))]
fn rows(
    alloc: Global,
    known: &Known<'_>,
    gens: &[RGen],
    cond: &Option<Boxed<Cond>>,
) -> Result<Option<List<Ty>>, NoMemory>
    ensures { IfOk result (λ found. found ≡ rows_of (known_of known.now) gens.now (written_cond (known_of known.now) cond.now) []) }
{
    rows_where(alloc, known, gens, cond, List::new(alloc))
}

// The type of the set of a term, over the row, if there is one.
fn set_over(
    alloc: Global,
    known: &Known<'_>,
    term: &Term,
    row: &Option<List<Ty>>,
) -> Result<Option<Ty>, NoMemory>
    ensures { IfOk result (λ found. found ≡ given (given row.now (type_of_term (known_of known.now) term.now)) (λ ty. flat_where (Set ty))) }
{
    let Some(row) = row else {
        return Ok(None);
    };
    let found = term_type(alloc, known, term, row.as_slice())?;
    match found {
        None => Ok(None),
        Some(ty) => Ok(flat(Ty::Set(Boxed::new(alloc, ty)?))),
    }
}
