//! Types of expressions outside queries.
ghost use Rattle.da_lang.specs.declared.ty.Ty.TheVariants.{Bool, Int, Set};
ghost use Rattle.da_lang.specs.ExprTypes.{int, is_for_sets as sets_take, parts_fit as fit_parts, takes as type_takes, truth as truth_of, typing};
ghost use Rattle.da_lang.specs.QueryTypes.{all_types, flat as flat_where, given, holds_of, is_typed as typed_as, literal_type as type_of_literal, query_type as type_of_query, slot_type as type_of_slot, when};
ghost use Rattle.da_lang.specs.Types.{element_of as element_in, is_bool as bool_type, is_flat as flat_type, is_int as int_type, parts_of as parts_in, same_type as same_as};
ghost use Rattle.da_lang.specs.World.{at_number};
ghost use Rattle.da_typing.specs.Chains.{chain_holds, chained, compared, set_over};
ghost use Rattle.da_typing.specs.KnownView.{known_of};
ghost use Rattle.std.specs.List.{list_all};
ghost use Rattle.std.specs.Option.{option_copied};
ghost use Rattle.std.specs.Prelude.{◌≡◌, ◌&&◌, if◌then◌else◌, IfOk, map};

use crate::known::{Known, member};
use crate::queries::query_type;
use crate::sides::asks_order;
use crate::terms::literal_type;
use crate::types::{
    element_of, flat, flat_copy, flat_of, is_bool, is_flat, is_int, is_ordered, is_set, is_typed,
    parts_of, same_type, tuple_of,
};
use da_lang::{ArithOp, ChainPart, CmpOp, Query, RExpr, Ty, copy_type};
use da_values::{Boxed, List, NoMemory, Value};
use std::alloc::Global;

/// The type of an expression by itself: of at most 32 levels, and none where a rule is broken.
#[cycle(expressions)]
pub fn expr_type(
    alloc: Global,
    known: &Known<'_>,
    queries: &[Query],
    x: &RExpr,
) -> Result<Option<Ty>, NoMemory>
    ensures { IfOk result (λ found. found ≡ (typing (known_of known.now) queries.now x.now).type_) }
{
    match x {
        RExpr::Const(value) => Ok(const_type(value)),
        RExpr::Procs(_) => set_where(alloc, true, Ty::Proc),
        RExpr::Me => Ok(flat(Ty::Proc)),
        RExpr::Slot(slot) => slot_type(alloc, known, *slot),
        RExpr::Clock => Ok(flat(Ty::Int)),
        RExpr::Ask(query) => asked_type(alloc, known, queries, *query),
        RExpr::Range(first, end) => {
            let holds = is_integer(expr_type(alloc, known, queries, first.get())?);
            range_type(alloc, known, queries, holds, end.get())
        }
        RExpr::Tuple(parts) => {
            let types = expr_types(alloc, known, queries, parts.as_slice())?;
            Ok(tuple_of(types))
        }
        RExpr::SetOf(parts) => {
            let types = expr_types(alloc, known, queries, parts.as_slice())?;
            set_of(alloc, types)
        }
        RExpr::Or(parts) => truth_of_all(alloc, known, queries, parts.as_slice()),
        RExpr::And(parts) => truth_of_all(alloc, known, queries, parts.as_slice()),
        RExpr::Not(part) => {
            let holds = is_truth_type(expr_type(alloc, known, queries, part.get())?);
            Ok(truth_where(holds))
        }
        RExpr::Cmp(op, left, right) => {
            let found = expr_type(alloc, known, queries, left.get())?;
            comparison_type(alloc, known, queries, *op, &found, right.get())
        }
        RExpr::Member(left, right) => {
            let found = expr_type(alloc, known, queries, left.get())?;
            member_type(alloc, known, queries, found, right.get())
        }
        RExpr::Chain(first, more) => {
            let found = expr_type(alloc, known, queries, first.get())?;
            chain_type(alloc, known, queries, found, more.as_slice())
        }
    }
}

/// The type of a range whose first bound is an integer, or is not.
#[cycle(expressions)]
fn range_type(
    alloc: Global,
    known: &Known<'_>,
    queries: &[Query],
    first: bool,
    end: &RExpr,
) -> Result<Option<Ty>, NoMemory>
    ensures { IfOk result (λ found. found ≡ given (when (first && int (typing (known_of known.now) queries.now end.now)) (Set Int)) flat_where) }
{
    let holds = is_integer(expr_type(alloc, known, queries, end)?);
    set_where(alloc, first && holds, Ty::Int)
}

/// The type of a test for an element, where the left side has this type.
#[cycle(expressions)]
fn member_type(
    alloc: Global,
    known: &Known<'_>,
    queries: &[Query],
    found: Option<Ty>,
    right: &RExpr,
) -> Result<Option<Ty>, NoMemory>
    ensures { IfOk result (λ ty. ty ≡ given (when (holds_of (given (typing (known_of known.now) queries.now right.now).type_ element_in) (typed_as found)) Bool) flat_where) }
{
    let set = expr_type(alloc, known, queries, right)?;
    Ok(truth_where(is_element(found, set)))
}

/// The type of a chain whose first operand has this type.
#[cycle(expressions)]
fn chain_type(
    alloc: Global,
    known: &Known<'_>,
    queries: &[Query],
    found: Option<Ty>,
    more: &[ChainPart],
) -> Result<Option<Ty>, NoMemory>
    ensures { IfOk result (λ ty. ty ≡ chained (holds_of found (λ ty. chain_holds (known_of known.now) queries.now ty more.now)) found) }
{
    let holds = are_operands(alloc, known, queries, more, &found)?;
    Ok(chain_where(holds, found))
}

/// Whether an expression fits a place that asks for a type.
#[cycle(expressions)]
#[tactic(auto, using(crate::proofs::ExprForms::fit_rules))]
pub fn expr_fits(
    alloc: Global,
    known: &Known<'_>,
    queries: &[Query],
    x: &RExpr,
    asked: &Ty,
) -> Result<bool, NoMemory>
    ensures { IfOk result (λ holds. holds ≡ (typing (known_of known.now) queries.now x.now).fits asked.now) }
{
    match x {
        RExpr::Tuple(parts) => match flat_parts(asked) {
            None => Ok(false),
            Some(types) => parts_fit(alloc, known, queries, parts.as_slice(), types),
        },
        RExpr::SetOf(parts) => match flat_element(asked) {
            None => Ok(false),
            Some(element) => all_fit(alloc, known, queries, parts.as_slice(), element),
        },
        RExpr::Const(_)
        | RExpr::Procs(_)
        | RExpr::Me
        | RExpr::Slot(_)
        | RExpr::Clock
        | RExpr::Ask(_)
        | RExpr::Range(_, _)
        | RExpr::Or(_)
        | RExpr::And(_)
        | RExpr::Not(_)
        | RExpr::Cmp(_, _, _)
        | RExpr::Member(_, _)
        | RExpr::Chain(_, _) => {
            let found = expr_type(alloc, known, queries, x)?;
            Ok(is_of(found, asked))
        }
    }
}

/// Whether an expression is by itself of a type.
pub fn has_type(
    alloc: Global,
    known: &Known<'_>,
    queries: &[Query],
    x: &RExpr,
    asked: &Ty,
) -> Result<bool, NoMemory>
    ensures { IfOk result (λ holds. holds ≡ typed_as (typing (known_of known.now) queries.now x.now).type_ asked.now) }
{
    let found = expr_type(alloc, known, queries, x)?;
    Ok(is_of(found, asked))
}

// The type of a literal.
fn const_type(value: &Value) -> Option<Ty>
    ensures { result ≡ given (type_of_literal value.now) flat_where }
{
    flat_of(literal_type(value))
}

// The type of a slot.
fn slot_type(alloc: Global, known: &Known<'_>, slot: u16) -> Result<Option<Ty>, NoMemory>
    ensures { IfOk result (λ found. found ≡ given (type_of_slot (known_of known.now) slot) flat_where) }
{
    match known.slot_type(slot) {
        None => Ok(None),
        Some(ty) => flat_copy(alloc, ty),
    }
}

// The type of a numbered query.
fn asked_type(
    alloc: Global,
    known: &Known<'_>,
    queries: &[Query],
    query: u32,
) -> Result<Option<Ty>, NoMemory>
    ensures { IfOk result (λ found. found ≡ given (given (at_number queries.now query) (type_of_query (known_of known.now))) flat_where) }
{
    match member(queries, query as usize) {
        None => Ok(None),
        Some(query) => Ok(flat_of(query_type(alloc, known, query)?)),
    }
}

// The type of sets with these elements, where a test holds.
fn set_where(alloc: Global, holds: bool, element: Ty) -> Result<Option<Ty>, NoMemory>
    ensures { IfOk result (λ found. found ≡ given (when holds (Set element)) flat_where) }
{
    if holds {
        Ok(flat(Ty::Set(Boxed::new(alloc, element)?)))
    } else {
        Ok(None)
    }
}

// The types of the parts of a tuple, where the type has at most 32 levels.
fn flat_parts(ty: &Ty) -> Option<&[Ty]>
    ensures { option_copied result ≡ (if flat_type ty.now then parts_in ty.now else None) }
{
    if is_flat(ty) { parts_of(ty) } else { None }
}

// The type of the elements of a set, where the type has at most 32 levels.
fn flat_element(ty: &Ty) -> Option<&Ty>
    ensures { option_copied result ≡ (if flat_type ty.now then element_in ty.now else None) }
{
    if is_flat(ty) { element_of(ty) } else { None }
}

// The type of truth values, where a test holds.
fn truth_where(holds: bool) -> Option<Ty>
    ensures { result ≡ given (when holds Bool) flat_where }
{
    if holds { flat(Ty::Bool) } else { None }
}

// Whether there is a type, and it is this one.
fn is_of(found: Option<Ty>, asked: &Ty) -> bool
    ensures { result ≡ typed_as found asked.now }
{
    is_typed(&found, asked)
}

// Whether there is a type, and it is `int`.
fn is_integer(found: Option<Ty>) -> bool
    ensures { result ≡ holds_of found int_type }
{
    match found {
        None => false,
        Some(ty) => is_int(&ty),
    }
}

// Whether there is a type, and it is `bool`.
fn is_truth_type(found: Option<Ty>) -> bool
    ensures { result ≡ holds_of found bool_type }
{
    match found {
        None => false,
        Some(ty) => is_bool(&ty),
    }
}

// Whether a first type is that of the elements of a second.
fn is_element(element: Option<Ty>, set: Option<Ty>) -> bool
    ensures { result ≡ holds_of (given set element_in) (typed_as element) }
{
    match &set {
        None => false,
        Some(ty) => match element_of(ty) {
            None => false,
            Some(asked) => is_typed(&element, asked),
        },
    }
}

/// Whether an expression is a truth value.
pub fn is_truth(
    alloc: Global,
    known: &Known<'_>,
    queries: &[Query],
    x: &RExpr,
) -> Result<bool, NoMemory>
    ensures { IfOk result (λ holds. holds ≡ truth_of (typing (known_of known.now) queries.now x.now)) }
{
    let found = expr_type(alloc, known, queries, x)?;
    Ok(is_truth_type(found))
}

/// The type of truth values, where each of these is one.
#[cycle(expressions)]
fn truth_of_all(
    alloc: Global,
    known: &Known<'_>,
    queries: &[Query],
    xs: &[RExpr],
) -> Result<Option<Ty>, NoMemory>
    ensures { IfOk result (λ found. found ≡ given (when (list_all (λ x. truth_of (typing (known_of known.now) queries.now x)) xs.now) Bool) flat_where) }
{
    for x in xs {
        if !is_truth_type(expr_type(alloc, known, queries, x)?) {
            return Ok(None);
        }
    }
    Ok(truth_where(true))
}

/// The types of expressions, where each has one.
#[cycle(expressions)]
fn expr_types(
    alloc: Global,
    known: &Known<'_>,
    queries: &[Query],
    xs: &[RExpr],
) -> Result<Option<List<Ty>>, NoMemory>
    ensures { IfOk result (λ found. found ≡ all_types (map (λ x. (typing (known_of known.now) queries.now x).type_) xs.now)) }
{
    let mut types = List::new(alloc);
    for x in xs {
        match expr_type(alloc, known, queries, x)? {
            None => return Ok(None),
            Some(ty) => types.push(ty)?,
        }
    }
    Ok(Some(types))
}

// The type of the sets with elements of these types, which are all that of the first.
fn set_of(alloc: Global, types: Option<List<Ty>>) -> Result<Option<Ty>, NoMemory>
    ensures { IfOk result (λ found. found ≡ given types set_over) }
{
    match types {
        None => Ok(None),
        Some(types) => set_of_all(alloc, types.as_slice()),
    }
}

// The type of the sets with elements of these types.
fn set_of_all(alloc: Global, types: &[Ty]) -> Result<Option<Ty>, NoMemory>
    ensures { IfOk result (λ found. found ≡ set_over types.now) }
{
    match types {
        [] => Ok(None),
        [first, others @ ..] => {
            let element = copy_type(alloc, first)?;
            set_where(alloc, all_same(others, first), element)
        }
    }
}

// Whether each of some types is this one.
fn all_same(types: &[Ty], ty: &Ty) -> bool
    ensures { result ≡ list_all (λ other. same_as other ty.now) types.now }
{
    for other in types {
        if !same_type(other, ty) {
            return false;
        }
    }
    true
}

// The type of a chain whose first operand has this type, where those after it are of it.
fn chain_where(holds: bool, found: Option<Ty>) -> Option<Ty>
    ensures { result ≡ chained holds found }
{
    match found {
        None => None,
        Some(ty) => { if holds { flat(ty) } else { None } }
    }
}

/// Whether the parts of a tuple fit these types, one each.
#[cycle(expressions)]
fn parts_fit(
    alloc: Global,
    known: &Known<'_>,
    queries: &[Query],
    xs: &[RExpr],
    types: &[Ty],
) -> Result<bool, NoMemory>
    ensures { IfOk result (λ holds. holds ≡ fit_parts (map (typing (known_of known.now) queries.now) xs.now) types.now) }
{
    let mut rest = types;
    for x in xs {
        match rest {
            [] => return Ok(false),
            [ty, others @ ..] => {
                if !expr_fits(alloc, known, queries, x, ty)? {
                    return Ok(false);
                }
                rest = others;
            }
        }
    }
    Ok(rest.is_empty())
}

/// Whether each of these fits a type.
#[cycle(expressions)]
fn all_fit(
    alloc: Global,
    known: &Known<'_>,
    queries: &[Query],
    xs: &[RExpr],
    ty: &Ty,
) -> Result<bool, NoMemory>
    ensures { IfOk result (λ holds. holds ≡ list_all (λ x. (typing (known_of known.now) queries.now x).fits ty.now) xs.now) }
{
    for x in xs {
        if !expr_fits(alloc, known, queries, x, ty)? {
            return Ok(false);
        }
    }
    Ok(true)
}

/// The type of a comparison whose left side has this type: the right side of `==` and `!=` fits it, that of others is of
/// the same ordered type.
#[cycle(expressions)]
fn comparison_type(
    alloc: Global,
    known: &Known<'_>,
    queries: &[Query],
    op: CmpOp,
    found: &Option<Ty>,
    right: &RExpr,
) -> Result<Option<Ty>, NoMemory>
    ensures { IfOk result (λ ty. ty ≡ given (when (compared op found.now (typing (known_of known.now) queries.now right.now)) Bool) flat_where) }
{
    let Some(ty) = found else {
        return Ok(None);
    };
    if !asks_order(op) {
        let holds = expr_fits(alloc, known, queries, right, ty)?;
        return Ok(truth_where(holds));
    }
    let other = expr_type(alloc, known, queries, right)?;
    Ok(truth_where(is_ordered(ty) && is_of(other, ty)))
}

/// Whether each further operand of a chain is of the type of the first, which its operation takes.
#[cycle(expressions)]
fn are_operands(
    alloc: Global,
    known: &Known<'_>,
    queries: &[Query],
    more: &[ChainPart],
    first: &Option<Ty>,
) -> Result<bool, NoMemory>
    ensures { IfOk result (λ holds. holds ≡ holds_of first.now (λ ty. chain_holds (known_of known.now) queries.now ty more.now)) }
{
    let Some(ty) = first else {
        return Ok(false);
    };
    for part in more {
        let found = expr_type(alloc, known, queries, part.operand.get())?;
        if !is_further(part.op, found, ty) {
            return Ok(false);
        }
    }
    Ok(true)
}

// Whether a further operand of a chain has a type that its operation takes.
fn is_further(op: ArithOp, found: Option<Ty>, ty: &Ty) -> bool
    ensures { result ≡ (type_takes op ty.now && typed_as found ty.now) }
{
    takes(op, ty) && is_typed(&found, ty)
}

// Whether an operation of a chain takes a type.
fn takes(op: ArithOp, ty: &Ty) -> bool
    ensures { result ≡ type_takes op ty.now }
{
    is_int(ty) || (is_for_sets(op) && is_set(ty))
}

// Whether an operation is one of sets too.
fn is_for_sets(op: ArithOp) -> bool
    ensures { result ≡ sets_take op }
{
    match op {
        ArithOp::Plus | ArithOp::Minus | ArithOp::Times => true,
        ArithOp::Div | ArithOp::Mod => false,
    }
}
