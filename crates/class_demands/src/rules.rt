//! What the rules of single statements demand, and the rows of headers.
ghost use Rattle.std.specs.Option.{option_copied};
ghost use Rattle.std.specs.Prelude.{◌≡◌, [], ◌++◌, IfOk, OnOk};
ghost use Rattle.class_demands.specs.Statements as spec;
ghost use Rattle.da_lang.specs.declared.program.RExpr.{out-RExpr};
ghost use Rattle.da_lang.specs.QueryTypes.{given};
ghost use Rattle.da_lang.specs.Typing.{message_tag as tag_of_message, text_part};
ghost use Rattle.da_lang.specs.World.{at_number};
ghost use Rattle.type_demands.specs.declared.demand.Demand.TheVariants as demand_of;
ghost use Rattle.type_demands.specs.Conds.{cond_sym};
ghost use Rattle.type_demands.specs.Exprs.{is_one};
ghost use Rattle.type_demands.specs.KnownView.{context_of, message_in, slot_in};
ghost use Rattle.type_demands.specs.Listing.{Lists, ListsRow, expr_in};
ghost use Rattle.type_demands.specs.Syms.{flat_sym, same_as};
ghost use Rattle.type_demands.specs.Terms.{no_row};
ghost use Rattle.type_table.specs.declared.scheme.Scheme.TheVariants as scheme_of;

use da_lang::{BindArg, Cond, Handler, ItemKind, RExpr};
use da_typing::member;
use da_values::{Boxed, List, NoMemory, Value};
use std::alloc::Global;
use type_demands::{
    Demand, Known, LineDemand, cond_demands, element_of, expr_demands, fit_demands, flat,
    message_demands, pattern_demands, put, query_rows_demands, same, slot_demands, tag_demands,
};
use type_table::Scheme;

/// What a statement itself demands, without what its blocks demand.
#[tactic(auto, using(crate::proofs::StatementForms::rule_rules))]
pub fn rule_demands(
    kind: &ItemKind,
    alloc: Global,
    known: &Known<'_>,
    demands: &mut List<LineDemand>,
) -> Result<(), NoMemory>
    ensures { OnOk result (Lists demands.old demands.new known.now (spec.kind_demands (context_of known.now) known.now.queries.now kind.now).rule) }
{
    match kind {
        ItemKind::Assign(slot, x) => {
            slot_fits(x.get(), alloc, known, *slot, demands)?;
            Ok(())
        }
        ItemKind::Add(slot, x) => {
            element_fits(x.get(), alloc, known, *slot, demands)?;
            Ok(())
        }
        ItemKind::Del(slot, x) => {
            element_is(x.get(), alloc, known, *slot, demands)?;
            Ok(())
        }
        ItemKind::Send(x, to) => {
            message_fits(x.get(), alloc, known, demands)?;
            receives(to.get(), alloc, known, demands)?;
            Ok(())
        }
        ItemKind::Output(x) => {
            drop(expr_demands(x.get(), alloc, known, demands)?);
            Ok(())
        }
        ItemKind::While(x, _) => {
            truth_demands(x.get(), alloc, known, demands)?;
            Ok(())
        }
        ItemKind::For(slot, x, _) => {
            elements_taken(x.get(), alloc, known, *slot, demands)?;
            Ok(())
        }
        ItemKind::Call(args, _) => {
            params_fit(args.as_slice(), alloc, known, demands)?;
            Ok(())
        }
        ItemKind::If(_, _) => Ok(()),
        ItemKind::Await { .. } => Ok(()),
        ItemKind::Label(_) => Ok(()),
        ItemKind::Pass => Ok(()),
    }
}

/// What an expression demands in the place of a slot.
#[tactic(auto, using(crate::proofs::StatementForms::putting))]
pub fn slot_fits(
    x: &RExpr,
    alloc: Global,
    known: &Known<'_>,
    slot: u16,
    demands: &mut List<LineDemand>,
) -> Result<(), NoMemory>
    ensures { OnOk result (Lists demands.old demands.new known.now (spec.fits_slot (context_of known.now) known.now.queries.now slot x.now)) }
{
    let scheme = slot_demands(slot, alloc, known, demands)?;
    fit_demands(x, alloc, known, &scheme, demands)?;
    Ok(())
}

// What an expression demands that is put into the set in a slot.
#[tactic(auto, using(crate::proofs::StatementForms::putting))]
fn element_fits(
    x: &RExpr,
    alloc: Global,
    known: &Known<'_>,
    slot: u16,
    demands: &mut List<LineDemand>,
) -> Result<(), NoMemory>
    ensures { OnOk result (Lists demands.old demands.new known.now (spec.fits_element (slot_in known.now.slots.now slot) (expr_in known.now x.now))) }
{
    let whole = Boxed::new(alloc, slot_demands(slot, alloc, known, demands)?)?;
    let element = Scheme::Element(whole);
    fit_demands(x, alloc, known, &element, demands)?;
    Ok(())
}

// What an expression demands that is taken out of the set in a slot.
#[tactic(auto, using(crate::proofs::StatementForms::putting))]
fn element_is(
    x: &RExpr,
    alloc: Global,
    known: &Known<'_>,
    slot: u16,
    demands: &mut List<LineDemand>,
) -> Result<(), NoMemory>
    ensures { OnOk result (Lists demands.old demands.new known.now (spec.is_element (slot_in known.now.slots.now slot) (expr_in known.now x.now))) }
{
    let whole = Boxed::new(alloc, slot_demands(slot, alloc, known, demands)?)?;
    let scheme = expr_demands(x, alloc, known, demands)?;
    let element = Scheme::Element(whole);
    same(&element, scheme, alloc, known, demands)?;
    Ok(())
}

// What an expression demands whose elements a loop takes into a slot.
#[tactic(auto, using(crate::proofs::StatementForms::putting))]
fn elements_taken(
    x: &RExpr,
    alloc: Global,
    known: &Known<'_>,
    slot: u16,
    demands: &mut List<LineDemand>,
) -> Result<(), NoMemory>
    ensures { OnOk result (Lists demands.old demands.new known.now (spec.takes_elements (slot_in known.now.slots.now slot) (expr_in known.now x.now))) }
{
    let whole = Boxed::new(alloc, expr_demands(x, alloc, known, demands)?)?;
    let element = Scheme::Element(whole);
    slot_same(slot, alloc, known, &element, demands)?;
    Ok(())
}

// What is demanded of a slot that is to have this type.
#[tactic(auto, using(crate::proofs::StatementForms::putting))]
fn slot_same(
    slot: u16,
    alloc: Global,
    known: &Known<'_>,
    asked: &Scheme,
    demands: &mut List<LineDemand>,
) -> Result<(), NoMemory>
    ensures { OnOk result (Lists demands.old demands.new known.now (same_as asked.now (slot_in known.now.slots.now slot))) }
{
    let scheme = slot_demands(slot, alloc, known, demands)?;
    same(asked, scheme, alloc, known, demands)?;
    Ok(())
}

// What a message demands: that its tag is declared, and that it fits the declaration.
fn message_fits(
    x: &RExpr,
    alloc: Global,
    known: &Known<'_>,
    demands: &mut List<LineDemand>,
) -> Result<(), NoMemory>
    ensures { OnOk result (Lists demands.old demands.new known.now (spec.fits_message (context_of known.now) (tag_of_message (out-RExpr x.now)) (expr_in known.now x.now))) }
{
    match message_tag(x) {
        None => {
            put(Demand::Never, known, demands)?;
            Ok(())
        }
        Some(tag) => {
            tagged_fits(x, alloc, known, tag, demands)?;
            Ok(())
        }
    }
}

// What a message with a tag demands.
#[tactic(auto, using(crate::proofs::StatementForms::putting))]
fn tagged_fits(
    x: &RExpr,
    alloc: Global,
    known: &Known<'_>,
    tag: &[u8],
    demands: &mut List<LineDemand>,
) -> Result<(), NoMemory>
    ensures { OnOk result (Lists demands.old demands.new known.now (spec.fits_sym (flat_sym (message_in known.now.messages.now tag.now)) (expr_in known.now x.now))) }
{
    let scheme = tag_demands(tag, alloc, known, demands)?;
    let scheme = flat(scheme, alloc, known, demands)?;
    fit_demands(x, alloc, known, &scheme, demands)?;
    Ok(())
}

// The text that a written tuple begins with, which tags the message that it is.
#[tactic(auto, using(crate::proofs::StatementForms::expr_forms))]
fn message_tag(x: &RExpr) -> Option<&[u8]>
    ensures { option_copied result ≡ tag_of_message (out-RExpr x.now) }
{
    match x {
        RExpr::Tuple(parts) => match parts.as_slice() {
            [] => None,
            [first, ..] => written_text(first),
        },
        _ => None,
    }
}

// The text that an expression writes.
#[tactic(auto, using(crate::proofs::StatementForms::expr_forms))]
fn written_text(x: &RExpr) -> Option<&[u8]>
    ensures { option_copied result ≡ text_part (out-RExpr x.now) }
{
    match x {
        RExpr::Const(value) => match value {
            Value::Text(text) => Some(text.as_bytes()),
            Value::Int(_) | Value::Bool(_) | Value::Proc(_) | Value::Tuple(_) | Value::Set(_) =>
                None,
        },
        _ => None,
    }
}

// What the receiver of a message demands: that it is a process, or a set of them.
#[tactic(auto, using(crate::proofs::StatementForms::putting))]
fn receives(
    x: &RExpr,
    alloc: Global,
    known: &Known<'_>,
    demands: &mut List<LineDemand>,
) -> Result<(), NoMemory>
    ensures { OnOk result (Lists demands.old demands.new known.now (is_one demand_of.Receives (expr_in known.now x.now))) }
{
    let scheme = expr_demands(x, alloc, known, demands)?;
    put(Demand::Receives(scheme), known, demands)?;
    Ok(())
}

// What an expression demands that is to be a truth value.
#[tactic(auto, using(crate::proofs::StatementForms::putting))]
fn truth_demands(
    x: &RExpr,
    alloc: Global,
    known: &Known<'_>,
    demands: &mut List<LineDemand>,
) -> Result<(), NoMemory>
    ensures { OnOk result (Lists demands.old demands.new known.now (is_one demand_of.Truth (expr_in known.now x.now))) }
{
    let scheme = expr_demands(x, alloc, known, demands)?;
    put(Demand::Truth(scheme), known, demands)?;
    Ok(())
}

// What the arguments of a call demand in the places of its parameters.
#[tactic(auto, using(crate::proofs::StatementForms::putting))]
fn params_fit(
    args: &[BindArg],
    alloc: Global,
    known: &Known<'_>,
    demands: &mut List<LineDemand>,
) -> Result<(), NoMemory>
    ensures { OnOk result (Lists demands.old demands.new known.now (spec.fits_params (context_of known.now) known.now.queries.now args.now)) }
{
    for arg in args {
        slot_fits(arg.value.get(), alloc, known, arg.slot, demands)?;
    }
    Ok(())
}

/// What the arguments of a line of `setup` demand in the places of the parameters, as far as both go.
#[tactic(auto, using(crate::proofs::StatementForms::putting))]
pub fn args_fit(
    params: &[u16],
    args: &[RExpr],
    alloc: Global,
    known: &Known<'_>,
    demands: &mut List<LineDemand>,
) -> Result<(), NoMemory>
    ensures { OnOk result (Lists demands.old demands.new known.now (spec.args_fit (context_of known.now) known.now.queries.now params.now args.now)) }
{
    let mut rest = args;
    for param in params {
        match rest {
            [] => return Ok(()),
            [x, others @ ..] => {
                slot_fits(x, alloc, known, *param, demands)?;
                rest = others;
            }
        }
    }
    Ok(())
}

// What is demanded of slots that are to have the types of a row, one each.
#[tactic(auto, using(crate::proofs::StatementForms::putting))]
fn have_types(
    binds: &[u16],
    row: &[Scheme],
    alloc: Global,
    known: &Known<'_>,
    demands: &mut List<LineDemand>,
) -> Result<(), NoMemory>
    ensures { OnOk result (Lists demands.old demands.new known.now (spec.have_types (context_of known.now) known.now.queries.now binds.now row.now)) }
{
    let mut rest = row;
    for bind in binds {
        match rest {
            [] => {
                put(Demand::Never, known, demands)?;
                return Ok(());
            }
            [scheme, others @ ..] => {
                slot_same(*bind, alloc, known, scheme, demands)?;
                rest = others;
            }
        }
    }
    nothing_left(rest, known, demands)?;
    Ok(())
}

// What is demanded where no slot is left: that no type is left.
#[tactic(auto, using(crate::proofs::StatementForms::putting))]
fn nothing_left(
    rest: &[Scheme],
    known: &Known<'_>,
    demands: &mut List<LineDemand>,
) -> Result<(), NoMemory>
    ensures { OnOk result (Lists demands.old demands.new known.now (spec.have_types (context_of known.now) known.now.queries.now [] rest.now)) }
{
    match rest {
        [] => Ok(()),
        [_, ..] => {
            put(Demand::Never, known, demands)?;
            Ok(())
        }
    }
}

/// What a header of a branch demands: that its condition is a truth value, and that the slots have the types of what its
/// `some` finds.
#[tactic(auto, using(crate::proofs::StatementForms::putting))]
pub fn branch_rule(
    cond: &RExpr,
    found: Option<u32>,
    binds: &[u16],
    alloc: Global,
    known: &Known<'_>,
    demands: &mut List<LineDemand>,
) -> Result<(), NoMemory>
    ensures { OnOk result (Lists demands.old demands.new known.now (is_one demand_of.Truth (expr_in known.now cond.now) ++ spec.have_found (context_of known.now) known.now.queries.now found binds.now)) }
{
    truth_demands(cond, alloc, known, demands)?;
    have_found(found, binds, alloc, known, demands)?;
    Ok(())
}

/// What a header of an alternative demands: what its condition demands, and that the slots have the types of what its `some`
/// finds.
#[tactic(auto, using(crate::proofs::StatementForms::putting))]
pub fn alt_rule(
    cond: &Cond,
    found: Option<u32>,
    binds: &[u16],
    alloc: Global,
    known: &Known<'_>,
    demands: &mut List<LineDemand>,
) -> Result<(), NoMemory>
    ensures { OnOk result (Lists demands.old demands.new known.now (cond_sym (context_of known.now) cond.now [] ++ spec.have_found (context_of known.now) known.now.queries.now found binds.now)) }
{
    cond_demands(cond, alloc, known, &[], demands)?;
    have_found(found, binds, alloc, known, demands)?;
    Ok(())
}

// What is demanded of slots that are to have the types of the row that a numbered `some` finds, if there is one to bind.
#[tactic(auto, using(crate::proofs::StatementForms::putting))]
fn have_found(
    found: Option<u32>,
    binds: &[u16],
    alloc: Global,
    known: &Known<'_>,
    demands: &mut List<LineDemand>,
) -> Result<(), NoMemory>
    ensures { OnOk result (Lists demands.old demands.new known.now (spec.have_found (context_of known.now) known.now.queries.now found binds.now)) }
{
    match found {
        None => Ok(()),
        Some(number) => {
            let row = numbered_rows(number, alloc, known, demands)?;
            have_types(binds, row.as_slice(), alloc, known, demands)?;
            Ok(())
        }
    }
}

// What a numbered `some` demands. It answers the row that it finds.
fn numbered_rows(
    number: u32,
    alloc: Global,
    known: &Known<'_>,
    demands: &mut List<LineDemand>,
) -> Result<List<Scheme>, NoMemory>
    ensures { IfOk result (λ row. ListsRow demands.old demands.new known.now (spec.found_rows (context_of known.now) (at_number known.now.queries.now number)) row) }
{
    match member(known.queries, number as usize) {
        None => {
            let row = no_rows(alloc, known, demands)?;
            Ok(row)
        }
        Some(query) => {
            let row = query_rows_demands(query, alloc, known, demands)?;
            Ok(row)
        }
    }
}

// What nothing meets, and no row.
fn no_rows(
    alloc: Global,
    known: &Known<'_>,
    demands: &mut List<LineDemand>,
) -> Result<List<Scheme>, NoMemory>
    ensures { IfOk result (λ row. ListsRow demands.old demands.new known.now (no_row []) row) }
{
    put(Demand::Never, known, demands)?;
    Ok(List::new(alloc))
}

/// What a `some` demands that there may be, by its number. It answers the row that it finds.
pub fn found_rows(
    found: Option<u32>,
    alloc: Global,
    known: &Known<'_>,
    demands: &mut List<LineDemand>,
) -> Result<List<Scheme>, NoMemory>
    ensures { IfOk result (λ row. ListsRow demands.old demands.new known.now (spec.found_rows (context_of known.now) (given found (at_number known.now.queries.now))) row) }
{
    match found {
        None => {
            let row = no_rows(alloc, known, demands)?;
            Ok(row)
        }
        Some(number) => {
            let row = numbered_rows(number, alloc, known, demands)?;
            Ok(row)
        }
    }
}

/// What the patterns of a handler demand. It answers their row.
#[tactic(auto, using(crate::proofs::StatementForms::putting))]
pub fn heard_rows(
    handler: &Handler,
    alloc: Global,
    known: &Known<'_>,
    demands: &mut List<LineDemand>,
) -> Result<List<Scheme>, NoMemory>
    ensures { IfOk result (λ row. ListsRow demands.old demands.new known.now (spec.handler_rows (context_of known.now) handler.now) row) }
{
    let mut row = List::new(alloc);
    message_demands(&handler.message, alloc, known, &mut row, demands)?;
    pattern_demands(
        &handler.from,
        alloc,
        known,
        &Scheme::Proc,
        &mut row,
        demands,
    )?;
    Ok(row)
}

/// What a header of a handler demands: that its slots have the types of the row of its patterns.
#[tactic(auto, using(crate::proofs::StatementForms::putting))]
pub fn handler_rule(
    handler: &Handler,
    alloc: Global,
    known: &Known<'_>,
    demands: &mut List<LineDemand>,
) -> Result<(), NoMemory>
    ensures { OnOk result (Lists demands.old demands.new known.now (spec.have_row (context_of known.now) known.now.queries.now handler.now.binds (spec.handler_rows (context_of known.now) handler.now))) }
{
    let row = heard_rows(handler, alloc, known, demands)?;
    have_types(
        handler.binds.as_slice(),
        row.as_slice(),
        alloc,
        known,
        demands,
    )?;
    Ok(())
}

/// What a loop demands of what it goes through so that its slot has a type: that it is a set. It answers the type of the
/// elements.
#[tactic(auto, using(crate::proofs::StatementForms::putting))]
pub fn elements_row(
    x: &RExpr,
    alloc: Global,
    known: &Known<'_>,
    demands: &mut List<LineDemand>,
) -> Result<Scheme, NoMemory>
    ensures { IfOk result (λ element. (element ≡ scheme_of.Element (expr_in known.now x.now).itself.scheme) × Lists demands.old demands.new known.now (is_one demand_of.Elements (expr_in known.now x.now))) }
{
    let whole = expr_demands(x, alloc, known, demands)?;
    let element = element_of(&whole, alloc)?;
    put(Demand::Elements(whole), known, demands)?;
    Ok(element)
}
