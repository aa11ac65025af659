//! The rules of types that a statement keeps by itself, without those in its blocks.
ghost use Rattle.da_lang.specs.declared.program.RExpr.{out-RExpr};
ghost use Rattle.da_lang.specs.ExprTypes.{typing};
ghost use Rattle.da_lang.specs.QueryTypes.{holds_of, is_typed as typed_as, slot_type as type_of_slot};
ghost use Rattle.da_lang.specs.Typing.{fits_element as element_fits, fits_params as params_fit, fits_slot as slot_fits, have_found as found_fits, have_types as types_fit, is_element as element_is, is_message as message_is, kind_broken, message_tag as tag_of_message, takes_elements as elements_fit, text_part as text_of_part};
ghost use Rattle.da_typing.specs.KnownView.{known_of};
ghost use Rattle.da_types.specs.Rows.{goes_to};
ghost use Rattle.std.specs.Option.{option_copied};
ghost use Rattle.std.specs.Prelude.{◌≡◌, ◌&&◌, IfOk};

use crate::flow::found_row;
use da_lang::{BindArg, ItemKind, Query, RExpr, Ty};
use da_typing::{Known, element_of, expr_fits, expr_type, has_type, is_proc, is_truth, same_type};
use da_values::{NoMemory, Value};
use std::alloc::Global;

/// Whether a statement itself keeps the rules.
#[tactic(auto, using(crate::proofs::BreakForms::rule_rules))]
pub fn keeps_rule(
    alloc: Global,
    known: &Known<'_>,
    queries: &[Query],
    kind: &ItemKind,
) -> Result<bool, NoMemory>
    ensures { IfOk result (λ holds. holds ≡ (kind_broken known.now.messages.now queries.now known.now.slots.now kind.now).rule) }
{
    match kind {
        ItemKind::Assign(slot, x) => fits_slot(alloc, known, queries, *slot, x.get()),
        ItemKind::Add(slot, x) => fits_element(alloc, known, queries, *slot, x.get()),
        ItemKind::Del(slot, x) => is_element(alloc, known, queries, *slot, x.get()),
        ItemKind::Send(message, to) => is_sent(alloc, known, queries, message.get(), to.get()),
        ItemKind::Output(x) => Ok(expr_type(alloc, known, queries, x.get())?.is_some()),
        ItemKind::While(x, _) => is_truth(alloc, known, queries, x.get()),
        ItemKind::For(slot, x, _) => takes_elements(alloc, known, queries, *slot, x.get()),
        ItemKind::Call(args, _) => fits_params(alloc, known, queries, args.as_slice()),
        ItemKind::If(_, _) | ItemKind::Await { .. } | ItemKind::Label(_) | ItemKind::Pass => Ok(
            true,
        ),
    }
}

/// Whether an expression fits the type of a slot.
pub fn fits_slot(
    alloc: Global,
    known: &Known<'_>,
    queries: &[Query],
    slot: u16,
    x: &RExpr,
) -> Result<bool, NoMemory>
    ensures { IfOk result (λ holds. holds ≡ slot_fits known.now.messages.now queries.now known.now.slots.now slot x.now) }
{
    match known.slot_type(slot) {
        None => Ok(false),
        Some(ty) => expr_fits(alloc, known, queries, x, ty),
    }
}

// Whether an expression fits the elements of a slot.
fn fits_element(
    alloc: Global,
    known: &Known<'_>,
    queries: &[Query],
    slot: u16,
    x: &RExpr,
) -> Result<bool, NoMemory>
    ensures { IfOk result (λ holds. holds ≡ element_fits known.now.messages.now queries.now known.now.slots.now slot x.now) }
{
    match known.slot_element(slot) {
        None => Ok(false),
        Some(element) => expr_fits(alloc, known, queries, x, element),
    }
}

// Whether an expression has the type of the elements of a slot.
fn is_element(
    alloc: Global,
    known: &Known<'_>,
    queries: &[Query],
    slot: u16,
    x: &RExpr,
) -> Result<bool, NoMemory>
    ensures { IfOk result (λ holds. holds ≡ element_is known.now.messages.now queries.now known.now.slots.now slot x.now) }
{
    match known.slot_element(slot) {
        None => Ok(false),
        Some(element) => has_type(alloc, known, queries, x, element),
    }
}

// Whether a message is a declared one, and goes to a process or to a set of them.
fn is_sent(
    alloc: Global,
    known: &Known<'_>,
    queries: &[Query],
    message: &RExpr,
    to: &RExpr,
) -> Result<bool, NoMemory>
    ensures { IfOk result (λ holds. holds ≡ (message_is known.now.messages.now queries.now known.now.slots.now message.now && holds_of (typing (known_of known.now) queries.now to.now).type_ goes_to)) }
{
    if !is_message(alloc, known, queries, message)? {
        return Ok(false);
    }
    let found = expr_type(alloc, known, queries, to)?;
    match found {
        None => Ok(false),
        Some(ty) => Ok(is_recipient(&ty)),
    }
}

// Whether an expression is a declared message.
fn is_message(
    alloc: Global,
    known: &Known<'_>,
    queries: &[Query],
    x: &RExpr,
) -> Result<bool, NoMemory>
    ensures { IfOk result (λ holds. holds ≡ message_is known.now.messages.now queries.now known.now.slots.now x.now) }
{
    let Some(tag) = message_tag(x) else {
        return Ok(false);
    };
    let found = known.message_type(alloc, tag)?;
    match found {
        None => Ok(false),
        Some(ty) => expr_fits(alloc, known, queries, x, &ty),
    }
}

// The text that a written tuple begins with, which tags the message that it is.
#[tactic(auto, using(crate::proofs::BreakForms::expr_forms))]
fn message_tag(x: &RExpr) -> Option<&[u8]>
    ensures { option_copied result ≡ tag_of_message (out-RExpr x.now) }
{
    match x {
        RExpr::Tuple(parts) => match parts.as_slice() {
            [] => None,
            [first, ..] => written_text(first),
        },
        _ => None,
    }
}

// The text that an expression writes.
#[tactic(auto, using(crate::proofs::BreakForms::expr_forms))]
fn written_text(x: &RExpr) -> Option<&[u8]>
    ensures { option_copied result ≡ text_of_part (out-RExpr x.now) }
{
    match x {
        RExpr::Const(value) => match value {
            Value::Text(text) => Some(text.as_bytes()),
            Value::Int(_) | Value::Bool(_) | Value::Proc(_) | Value::Tuple(_) | Value::Set(_) =>
                None,
        },
        _ => None,
    }
}

// Whether a type is that of a process, or of a set of them.
fn is_recipient(ty: &Ty) -> bool
    ensures { result ≡ goes_to ty.now }
{
    if is_proc(ty) {
        return true;
    }
    match element_of(ty) {
        None => false,
        Some(element) => is_proc(element),
    }
}

// Whether a slot has a type.
fn slot_has(known: &Known<'_>, slot: u16, ty: &Ty) -> bool
    ensures { result ≡ typed_as (type_of_slot (known_of known.now) slot) ty.now }
{
    match known.slot_type(slot) {
        None => false,
        Some(found) => same_type(found, ty),
    }
}

// Whether the slot of a loop has the type of the elements of what the loop goes through.
fn takes_elements(
    alloc: Global,
    known: &Known<'_>,
    queries: &[Query],
    slot: u16,
    x: &RExpr,
) -> Result<bool, NoMemory>
    ensures { IfOk result (λ holds. holds ≡ elements_fit known.now.messages.now queries.now known.now.slots.now slot x.now) }
{
    let found = expr_type(alloc, known, queries, x)?;
    match found {
        None => Ok(false),
        Some(ty) => match element_of(&ty) {
            None => Ok(false),
            Some(element) => Ok(slot_has(known, slot, element)),
        },
    }
}

// Whether arguments fit the slots of their parameters.
fn fits_params(
    alloc: Global,
    known: &Known<'_>,
    queries: &[Query],
    args: &[BindArg],
) -> Result<bool, NoMemory>
    ensures { IfOk result (λ holds. holds ≡ params_fit known.now.messages.now queries.now known.now.slots.now args.now) }
{
    for arg in args {
        if !fits_slot(alloc, known, queries, arg.slot, arg.value.get())? {
            return Ok(false);
        }
    }
    Ok(true)
}

/// Whether slots have the types of a row, one each.
pub fn have_types(known: &Known<'_>, queries: &[Query], binds: &[u16], types: &[Ty]) -> bool
    ensures { result ≡ types_fit known.now.messages.now queries.now known.now.slots.now binds.now types.now }
{
    let mut rest = types;
    for bind in binds {
        match rest {
            [] => return false,
            [ty, others @ ..] => {
                if !slot_has(known, *bind, ty) {
                    return false;
                }
                rest = others;
            }
        }
    }
    rest.is_empty()
}

/// Whether slots have the types of the row that a numbered `some` finds, if there is one to bind.
pub fn have_found(
    alloc: Global,
    known: &Known<'_>,
    queries: &[Query],
    found: Option<u32>,
    binds: &[u16],
) -> Result<bool, NoMemory>
    ensures { IfOk result (λ holds. holds ≡ found_fits known.now.messages.now queries.now known.now.slots.now found binds.now) }
{
    if found.is_none() {
        return Ok(true);
    }
    let found = found_row(alloc, known, queries, found)?;
    match found {
        None => Ok(false),
        Some(row) => Ok(have_types(known, queries, binds, row.as_slice())),
    }
}
