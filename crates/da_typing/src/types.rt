//! Types: forms, comparison, order and levels.
ghost use Rattle.da_lang.specs.declared.ty.Ty.TheVariants.{Set, Tuple};
ghost use Rattle.da_lang.specs.QueryTypes.{flat as flat_where, given, is_typed as typed_as};
ghost use Rattle.da_lang.specs.Types.{all_same, element_of as element_in, is_bool as bool_type, is_flat as flat_type, is_int as int_type, is_proc as proc_type, is_set as set_type, is_text as text_type, levels, ordered, parts_of as parts_in, same_type};
ghost use Rattle.std.specs.List.{list_all};
ghost use Rattle.std.specs.Option.{option_copied};
ghost use Rattle.std.specs.Prelude.{◌≡◌, IfOk, map, nat_le};

use da_lang::{Ty, copy_type};
use da_values::{List, NoMemory};
use std::alloc::Global;

/// The most levels of a type.
const MOST_LEVELS: u8 = 32;

/// Whether it is `int`.
#[tactic(auto, using(crate::proofs::TypeForms::type_forms))]
pub fn is_int(ty: &Ty) -> bool
    ensures { result ≡ int_type ty.now }
{
    match ty {
        Ty::Int => true,
        Ty::Bool | Ty::Text | Ty::Proc | Ty::Tuple(_) | Ty::Set(_) => false,
    }
}

/// Whether it is `bool`.
#[tactic(auto, using(crate::proofs::TypeForms::type_forms))]
pub fn is_bool(ty: &Ty) -> bool
    ensures { result ≡ bool_type ty.now }
{
    match ty {
        Ty::Bool => true,
        Ty::Int | Ty::Text | Ty::Proc | Ty::Tuple(_) | Ty::Set(_) => false,
    }
}

/// Whether it is `str`.
#[tactic(auto, using(crate::proofs::TypeForms::type_forms))]
pub fn is_text(ty: &Ty) -> bool
    ensures { result ≡ text_type ty.now }
{
    match ty {
        Ty::Text => true,
        Ty::Int | Ty::Bool | Ty::Proc | Ty::Tuple(_) | Ty::Set(_) => false,
    }
}

/// Whether it is `proc`.
#[tactic(auto, using(crate::proofs::TypeForms::type_forms))]
pub fn is_proc(ty: &Ty) -> bool
    ensures { result ≡ proc_type ty.now }
{
    match ty {
        Ty::Proc => true,
        Ty::Int | Ty::Bool | Ty::Text | Ty::Tuple(_) | Ty::Set(_) => false,
    }
}

/// The types of the parts of a tuple.
#[tactic(auto, using(crate::proofs::TypeForms::type_forms))]
pub fn parts_of(ty: &Ty) -> Option<&[Ty]>
    ensures { option_copied result ≡ parts_in ty.now }
{
    match ty {
        Ty::Tuple(parts) => Some(parts.as_slice()),
        Ty::Int | Ty::Bool | Ty::Text | Ty::Proc | Ty::Set(_) => None,
    }
}

/// The type of the elements of a set.
#[tactic(auto, using(crate::proofs::TypeForms::type_forms))]
pub fn element_of(ty: &Ty) -> Option<&Ty>
    ensures { option_copied result ≡ element_in ty.now }
{
    match ty {
        Ty::Set(element) => Some(element.get()),
        Ty::Int | Ty::Bool | Ty::Text | Ty::Proc | Ty::Tuple(_) => None,
    }
}

/// Whether it is a set.
#[tactic(auto, using(crate::proofs::TypeForms::type_forms))]
pub fn is_set(ty: &Ty) -> bool
    ensures { result ≡ set_type ty.now }
{
    match ty {
        Ty::Set(_) => true,
        Ty::Int | Ty::Bool | Ty::Text | Ty::Proc | Ty::Tuple(_) => false,
    }
}

/// Whether two types are the same.
#[cycle(same)]
#[tactic(auto, using(da_lang::proofs::typing::TypesAt::same_types))]
pub fn same_type(first: &Ty, second: &Ty) -> bool
    ensures { result ≡ same_type first.now second.now }
{
    match first {
        Ty::Int => is_int(second),
        Ty::Bool => is_bool(second),
        Ty::Text => is_text(second),
        Ty::Proc => is_proc(second),
        Ty::Tuple(parts) => match parts_of(second) {
            None => false,
            Some(others) => same_types(parts.as_slice(), others),
        },
        Ty::Set(element) => match element_of(second) {
            None => false,
            Some(other) => same_type(element.get(), other),
        },
    }
}

/// Whether types are the same, one by one.
#[cycle(same)]
fn same_types(first: &[Ty], second: &[Ty]) -> bool
    ensures { result ≡ all_same (map same_type first.now) second.now }
{
    let mut rest = second;
    for x in first {
        match rest {
            [] => return false,
            [y, others @ ..] => {
                if !same_type(x, y) {
                    return false;
                }
                rest = others;
            }
        }
    }
    rest.is_empty()
}

/// Whether a type is ordered.
#[cycle(ordered)]
#[tactic(auto, using(crate::proofs::TypeForms::ordered_rules))]
pub fn is_ordered(ty: &Ty) -> bool
    ensures { result ≡ ordered ty.now }
{
    match ty {
        Ty::Int | Ty::Text | Ty::Proc => true,
        Ty::Bool | Ty::Set(_) => false,
        Ty::Tuple(parts) => are_ordered(parts.as_slice()),
    }
}

/// Whether each type is ordered.
#[cycle(ordered)]
fn are_ordered(types: &[Ty]) -> bool
    ensures { result ≡ list_all ordered types.now }
{
    for ty in types {
        if !is_ordered(ty) {
            return false;
        }
    }
    true
}

/// Whether a type has at most 32 levels: each tuple and each set is one.
#[tactic(auto, unfolding(da_lang::specs::Types::most_levels))]
pub fn is_flat(ty: &Ty) -> bool
    ensures { result ≡ flat_type ty.now }
{
    has_levels(ty, MOST_LEVELS)
}

/// A type, where it has at most 32 levels.
pub fn flat(ty: Ty) -> Option<Ty>
    ensures { result ≡ flat_where ty }
{
    if is_flat(&ty) { Some(ty) } else { None }
}

/// A type that there may be, where it has at most 32 levels.
pub fn flat_of(found: Option<Ty>) -> Option<Ty>
    ensures { result ≡ given found flat_where }
{
    match found {
        None => None,
        Some(ty) => flat(ty),
    }
}

/// The type of the tuples with these parts, where each has a type and it has at most 32 levels.
pub fn tuple_of(types: Option<List<Ty>>) -> Option<Ty>
    ensures { result ≡ given types (λ parts. flat_where (Tuple parts)) }
{
    match types {
        None => None,
        Some(parts) => flat(Ty::Tuple(parts)),
    }
}

/// A copy of a type, where it has at most 32 levels.
pub fn flat_copy(alloc: Global, ty: &Ty) -> Result<Option<Ty>, NoMemory>
    ensures { IfOk result (λ found. found ≡ flat_where ty.now) }
{
    if is_flat(ty) {
        Ok(Some(copy_type(alloc, ty)?))
    } else {
        Ok(None)
    }
}

/// Whether a set with elements of a type has at most 32 levels.
#[tactic(auto, using(crate::proofs::Levels::within_set))]
pub fn is_flat_set(element: &Ty) -> bool
    ensures { result ≡ flat_type (Set element.now) }
{
    has_levels(element, MOST_LEVELS - 1)
}

/// Whether there is a type, and it is the one that is asked for.
pub fn is_typed(found: &Option<Ty>, asked: &Ty) -> bool
    ensures { result ≡ typed_as found.now asked.now }
{
    match found {
        None => false,
        Some(ty) => same_type(ty, asked),
    }
}

/// Whether a type has at most so many levels.
#[cycle(levels)]
#[tactic(auto, using(crate::proofs::Levels::levels_at))]
fn has_levels(ty: &Ty, most: u8) -> bool
    ensures { result ≡ nat_le (levels ty.now) most }
{
    match ty {
        Ty::Int | Ty::Bool | Ty::Text | Ty::Proc => true,
        Ty::Tuple(parts) => most > 0 && have_levels(parts.as_slice(), most - 1),
        Ty::Set(element) => most > 0 && has_levels(element.get(), most - 1),
    }
}

/// Whether each type has at most so many levels.
#[cycle(levels)]
fn have_levels(types: &[Ty], most: u8) -> bool
    ensures { result ≡ list_all (λ ty. nat_le (levels ty) most) types.now }
{
    for ty in types {
        if !has_levels(ty, most) {
            return false;
        }
    }
    true
}
