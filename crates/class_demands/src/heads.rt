//! The headers that give types to slots, and what stands for the slots after them.
ghost use Rattle.std.specs.Prelude.{◌≡◌, [], ◌∷◌, ◌++◌, IfOk, OnOk, map};
ghost use Rattle.class_demands.specs.Heads as spec;
ghost use Rattle.class_demands.specs.Walks.{Goes, unlined};
ghost use Rattle.untyped_laws.specs.Flow as flow;

use crate::demands::Head;
use crate::rules::{elements_row, found_rows, heard_rows};
use da_lang::{Alt, Handler, Item, ItemKind, Query, RBranch, RExpr};
use da_values::{List, NoMemory};
use std::alloc::Global;
use type_demands::{Demand, Known, LineDemand, MessageScheme, SlotScheme, copy_scheme};
use type_table::Scheme;

/// The headers in a statement: what stands for the slots after them, and the headers at the end of a list.
#[cycle(heads)]
#[tactic(auto, using(crate::proofs::WalkForms::walk_rules))]
fn item_heads(
    item: &Item,
    alloc: Global,
    messages: &[MessageScheme],
    queries: &[Query],
    slots: &mut List<SlotScheme>,
    heads: &mut List<Head>,
) -> Result<(), NoMemory>
    ensures { OnOk result (Goes messages.now queries.now (flow.item_steps item.now) slots.old slots.new heads.old heads.new) }
{
    kind_heads(&item.kind, alloc, messages, queries, slots, heads)?;
    Ok(())
}

/// The headers in what a statement does.
#[cycle(heads)]
#[tactic(auto, using(crate::proofs::WalkForms::walk_rules))]
fn kind_heads(
    kind: &ItemKind,
    alloc: Global,
    messages: &[MessageScheme],
    queries: &[Query],
    slots: &mut List<SlotScheme>,
    heads: &mut List<Head>,
) -> Result<(), NoMemory>
    ensures { OnOk result (Goes messages.now queries.now (flow.kind_steps kind.now) slots.old slots.new heads.old heads.new) }
{
    match kind {
        ItemKind::If(branches, other) => {
            branches_heads(branches.as_slice(), alloc, messages, queries, slots, heads)?;
            items_heads(other.as_slice(), alloc, messages, queries, slots, heads)?;
            Ok(())
        }
        ItemKind::While(_, body) => {
            items_heads(body.as_slice(), alloc, messages, queries, slots, heads)?;
            Ok(())
        }
        ItemKind::For(slot, x, body) => {
            loop_head(x.get(), *slot, alloc, messages, queries, slots, heads)?;
            items_heads(body.as_slice(), alloc, messages, queries, slots, heads)?;
            Ok(())
        }
        ItemKind::Call(_, body) => {
            items_heads(body.as_slice(), alloc, messages, queries, slots, heads)?;
            Ok(())
        }
        ItemKind::Await { alts, timeout, .. } => {
            alts_heads(alts.as_slice(), alloc, messages, queries, slots, heads)?;
            match timeout {
                None => Ok(()),
                Some(body) => {
                    items_heads(body.as_slice(), alloc, messages, queries, slots, heads)?;
                    Ok(())
                }
            }
        }
        ItemKind::Assign(_, _) => Ok(()),
        ItemKind::Add(_, _) => Ok(()),
        ItemKind::Del(_, _) => Ok(()),
        ItemKind::Send(_, _) => Ok(()),
        ItemKind::Output(_) => Ok(()),
        ItemKind::Label(_) => Ok(()),
        ItemKind::Pass => Ok(()),
    }
}

/// The headers in statements, one after the other.
#[cycle(heads)]
#[tactic(auto, using(crate::proofs::WalkForms::joining))]
pub fn items_heads(
    items: &[Item],
    alloc: Global,
    messages: &[MessageScheme],
    queries: &[Query],
    slots: &mut List<SlotScheme>,
    heads: &mut List<Head>,
) -> Result<(), NoMemory>
    ensures { OnOk result (Goes messages.now queries.now (flow.body_steps items.now) slots.old slots.new heads.old heads.new) }
{
    for item in items {
        item_heads(item, alloc, messages, queries, slots, heads)?;
    }
    Ok(())
}

/// The headers in branches, one after the other.
#[cycle(heads)]
#[tactic(auto, using(crate::proofs::WalkForms::joining))]
fn branches_heads(
    branches: &[RBranch],
    alloc: Global,
    messages: &[MessageScheme],
    queries: &[Query],
    slots: &mut List<SlotScheme>,
    heads: &mut List<Head>,
) -> Result<(), NoMemory>
    ensures { OnOk result (Goes messages.now queries.now (flow.joined (map flow.branch_steps branches.now)) slots.old slots.new heads.old heads.new) }
{
    for branch in branches {
        branch_heads(branch, alloc, messages, queries, slots, heads)?;
    }
    Ok(())
}

/// The headers in a branch, its own first.
#[cycle(heads)]
#[tactic(auto, using(crate::proofs::WalkForms::walk_rules))]
fn branch_heads(
    branch: &RBranch,
    alloc: Global,
    messages: &[MessageScheme],
    queries: &[Query],
    slots: &mut List<SlotScheme>,
    heads: &mut List<Head>,
) -> Result<(), NoMemory>
    ensures { OnOk result (Goes messages.now queries.now (flow.branch_steps branch.now) slots.old slots.new heads.old heads.new) }
{
    let binds = branch.binds.as_slice();
    found_head(binds, branch.found, alloc, messages, queries, slots, heads)?;
    items_heads(
        branch.body.as_slice(),
        alloc,
        messages,
        queries,
        slots,
        heads,
    )?;
    Ok(())
}

/// The headers in alternatives, one after the other.
#[cycle(heads)]
#[tactic(auto, using(crate::proofs::WalkForms::joining))]
fn alts_heads(
    alts: &[Alt],
    alloc: Global,
    messages: &[MessageScheme],
    queries: &[Query],
    slots: &mut List<SlotScheme>,
    heads: &mut List<Head>,
) -> Result<(), NoMemory>
    ensures { OnOk result (Goes messages.now queries.now (flow.joined (map flow.alt_steps alts.now)) slots.old slots.new heads.old heads.new) }
{
    for alt in alts {
        alt_heads(alt, alloc, messages, queries, slots, heads)?;
    }
    Ok(())
}

/// The headers in an alternative, its own first.
#[cycle(heads)]
#[tactic(auto, using(crate::proofs::WalkForms::walk_rules))]
fn alt_heads(
    alt: &Alt,
    alloc: Global,
    messages: &[MessageScheme],
    queries: &[Query],
    slots: &mut List<SlotScheme>,
    heads: &mut List<Head>,
) -> Result<(), NoMemory>
    ensures { OnOk result (Goes messages.now queries.now (flow.alt_steps alt.now) slots.old slots.new heads.old heads.new) }
{
    let binds = alt.binds.as_slice();
    found_head(binds, alt.found, alloc, messages, queries, slots, heads)?;
    items_heads(alt.body.as_slice(), alloc, messages, queries, slots, heads)?;
    Ok(())
}

/// The headers in handlers, one after the other.
#[tactic(auto, using(crate::proofs::WalkForms::joining))]
pub fn handlers_heads(
    handlers: &[Handler],
    alloc: Global,
    messages: &[MessageScheme],
    queries: &[Query],
    slots: &mut List<SlotScheme>,
    heads: &mut List<Head>,
) -> Result<(), NoMemory>
    ensures { OnOk result (Goes messages.now queries.now (flow.joined (map flow.handler_steps handlers.now)) slots.old slots.new heads.old heads.new) }
{
    for handler in handlers {
        handler_heads(handler, alloc, messages, queries, slots, heads)?;
    }
    Ok(())
}

// The headers in a handler, its own first.
#[tactic(auto, using(crate::proofs::WalkForms::joining))]
fn handler_heads(
    handler: &Handler,
    alloc: Global,
    messages: &[MessageScheme],
    queries: &[Query],
    slots: &mut List<SlotScheme>,
    heads: &mut List<Head>,
) -> Result<(), NoMemory>
    ensures { OnOk result (Goes messages.now queries.now (flow.handler_steps handler.now) slots.old slots.new heads.old heads.new) }
{
    heard_head(handler, alloc, messages, queries, slots, heads)?;
    items_heads(
        handler.body.as_slice(),
        alloc,
        messages,
        queries,
        slots,
        heads,
    )?;
    Ok(())
}

// The header of a loop, whose slot takes the type of the elements.
#[tactic(auto, using(crate::proofs::WalkForms::unlined_at))]
fn loop_head(
    x: &RExpr,
    slot: u16,
    alloc: Global,
    messages: &[MessageScheme],
    queries: &[Query],
    slots: &mut List<SlotScheme>,
    heads: &mut List<Head>,
) -> Result<(), NoMemory>
    ensures { OnOk result (Goes messages.now queries.now (flow.Loops slot x.now ∷ []) slots.old slots.new heads.old heads.new) }
{
    let known = Known {
        slots: slots.as_slice(),
        messages,
        queries,
        line: 0,
    };
    let mut listed = List::new(alloc);
    let element = elements_row(x, alloc, &known, &mut listed)?;
    let mut row = List::new(alloc);
    row.push(element)?;
    let mut binds = List::new(alloc);
    binds.push(slot)?;
    add_head(binds, row.as_slice(), listed, alloc, slots, heads)?;
    Ok(())
}

// The header of what binds the row of a `some`, if there is one.
#[tactic(auto, using(crate::proofs::WalkForms::unlined_at))]
fn found_head(
    binds: &[u16],
    found: Option<u32>,
    alloc: Global,
    messages: &[MessageScheme],
    queries: &[Query],
    slots: &mut List<SlotScheme>,
    heads: &mut List<Head>,
) -> Result<(), NoMemory>
    ensures { OnOk result (Goes messages.now queries.now (flow.Finds binds.now found ∷ []) slots.old slots.new heads.old heads.new) }
{
    let known = Known {
        slots: slots.as_slice(),
        messages,
        queries,
        line: 0,
    };
    let mut listed = List::new(alloc);
    let row = found_rows(found, alloc, &known, &mut listed)?;
    let binds = copy_binds(binds, alloc)?;
    add_head(binds, row.as_slice(), listed, alloc, slots, heads)?;
    Ok(())
}

// The header of a handler, whose slots take the types of the row of its patterns.
#[tactic(auto, using(crate::proofs::WalkForms::unlined_at))]
fn heard_head(
    handler: &Handler,
    alloc: Global,
    messages: &[MessageScheme],
    queries: &[Query],
    slots: &mut List<SlotScheme>,
    heads: &mut List<Head>,
) -> Result<(), NoMemory>
    ensures { OnOk result (Goes messages.now queries.now (flow.Takes handler.now ∷ []) slots.old slots.new heads.old heads.new) }
{
    let known = Known {
        slots: slots.as_slice(),
        messages,
        queries,
        line: 0,
    };
    let mut listed = List::new(alloc);
    let row = heard_rows(handler, alloc, &known, &mut listed)?;
    let binds = copy_binds(handler.binds.as_slice(), alloc)?;
    add_head(binds, row.as_slice(), listed, alloc, slots, heads)?;
    Ok(())
}

// Slots take their types from a row, and the header comes after the others, with what was listed for it.
fn add_head(
    binds: List<u16>,
    row: &[Scheme],
    listed: List<LineDemand>,
    alloc: Global,
    slots: &mut List<SlotScheme>,
    heads: &mut List<Head>,
) -> Result<(), NoMemory>
    ensures slots { OnOk result (slots.new ≡ spec.bind_slots binds row.now slots.old) }
    ensures heads { OnOk result (heads.new ≡ heads.old ++ record { binds = binds; demands = unlined listed } ∷ []) }
{
    bind_slots(binds.as_slice(), row, alloc, slots)?;
    let demands = without_lines(listed, alloc)?;
    heads.push(Head { binds, demands })?;
    Ok(())
}

// Slots take their types from a row, as far as it goes.
fn bind_slots(
    binds: &[u16],
    row: &[Scheme],
    alloc: Global,
    slots: &mut List<SlotScheme>,
) -> Result<(), NoMemory>
    ensures { OnOk result (slots.new ≡ spec.bind_slots binds.now row.now slots.old) }
{
    let mut rest = row;
    for bind in binds {
        match rest {
            [] => return Ok(()),
            [scheme, others @ ..] => {
                let copy = copy_scheme(scheme, alloc)?;
                bind_slot(*bind, copy, slots);
                rest = others;
            }
        }
    }
    Ok(())
}

// A slot takes a type, if there is a slot with this number.
#[tactic(auto, using(crate::proofs::WalkForms::bind_rules))]
fn bind_slot(slot: u16, scheme: Scheme, slots: &mut List<SlotScheme>)
    ensures { slots.new ≡ spec.bind_slot slot scheme slots.old }
{
    let number = usize::from(slot);
    if number > 0 && number <= slots.len() {
        slots.set(number - 1, SlotScheme::Bound(scheme));
    }
}

// A copy of the slots that a header gives types to.
fn copy_binds(binds: &[u16], alloc: Global) -> Result<List<u16>, NoMemory>
    ensures { IfOk result (λ copy. copy ≡ binds.now) }
{
    let mut copy = List::new(alloc);
    for bind in binds {
        copy.push(*bind)?;
    }
    Ok(copy)
}

// Demands without their lines.
fn without_lines(listed: List<LineDemand>, alloc: Global) -> Result<List<Demand>, NoMemory>
    ensures { IfOk result (λ demands. demands ≡ unlined listed) }
{
    let mut left = listed;
    let mut demands = List::new(alloc);
    while let Some(last) = left.pop() {
        let LineDemand { demand, .. } = last;
        demands.push(demand)?;
    }
    demands.reverse();
    Ok(demands)
}
