//! Types of terms.
ghost use Rattle.da_lang.specs.QueryTypes.{all_types, flat as flat_where, given, literal_type as type_of_literal, no_set, slot_type, term_type as type_of_term};
ghost use Rattle.da_typing.specs.KnownView.{known_of};
ghost use Rattle.std.specs.Prelude.{◌≡◌, IfOk, map};

use crate::known::{Known, member};
use crate::types::{flat_copy, is_set, tuple_of};
use da_lang::{Term, Ty};
use da_values::{List, NoMemory, Value, is_narrow};
use std::alloc::Global;

/// The type of a literal, whose integer lies in an i64.
#[tactic(auto, using(da_values::proofs::FoldsAt::is_narrow_of))]
pub fn literal_type(value: &Value) -> Option<Ty>
    ensures { result ≡ type_of_literal value.now }
{
    match value {
        Value::Int(_) => {
            if is_narrow(value) {
                Some(Ty::Int)
            } else {
                None
            }
        }
        Value::Bool(_) => Some(Ty::Bool),
        Value::Text(_) => Some(Ty::Text),
        Value::Proc(_) => Some(Ty::Proc),
        Value::Tuple(_) | Value::Set(_) => None,
    }
}

/// The type of a term, over a row of these types.
#[cycle(terms)]
#[tactic(auto, using(crate::proofs::TermForms::term_rules))]
pub fn term_type(
    alloc: Global,
    known: &Known<'_>,
    term: &Term,
    row: &[Ty],
) -> Result<Option<Ty>, NoMemory>
    ensures { IfOk result (λ found. found ≡ type_of_term (known_of known.now) term.now row.now) }
{
    match term {
        Term::Const(value) => Ok(literal_type(value)),
        Term::Me => Ok(Some(Ty::Proc)),
        Term::Slot(slot) => plain_slot(alloc, known, *slot),
        Term::Part(part) => match member(row, usize::from(*part)) {
            None => Ok(None),
            Some(ty) => flat_copy(alloc, ty),
        },
        Term::Tuple(parts) => {
            let types = term_types(alloc, known, parts.as_slice(), row)?;
            Ok(tuple_of(types))
        }
        Term::Foreign => Ok(None),
    }
}

/// The types of terms, where each has one.
#[cycle(terms)]
fn term_types(
    alloc: Global,
    known: &Known<'_>,
    terms: &[Term],
    row: &[Ty],
) -> Result<Option<List<Ty>>, NoMemory>
    ensures { IfOk result (λ found. found ≡ all_types (map (λ term. type_of_term (known_of known.now) term row.now) terms.now)) }
{
    let mut types = List::new(alloc);
    for term in terms {
        match term_type(alloc, known, term, row)? {
            None => return Ok(None),
            Some(ty) => types.push(ty)?,
        }
    }
    Ok(Some(types))
}

// The type of a slot that is no set.
fn plain_slot(alloc: Global, known: &Known<'_>, slot: u16) -> Result<Option<Ty>, NoMemory>
    ensures { IfOk result (λ found. found ≡ given (given (slot_type (known_of known.now) slot) no_set) flat_where) }
{
    match known.slot_type(slot) {
        None => Ok(None),
        Some(ty) => {
            if is_set(ty) {
                Ok(None)
            } else {
                flat_copy(alloc, ty)
            }
        }
    }
}
