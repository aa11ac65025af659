//! The types of the slots, as they come on the way.
ghost use Rattle.da_lang.specs.QueryTypes.{given};
ghost use Rattle.da_lang.specs.Types.{element_of as element_in};
ghost use Rattle.da_lang.specs.Typing.{alt_flow, branch_flow, filled_slots as slots_filled, found_row as row_found, handler_types as types_of_handler, in_turn, item_types as types_of_item, kind_flow, typed, with_row_types, with_type, with_types};
ghost use Rattle.da_typing.specs.KnownView.{known_of};
ghost use Rattle.da_types.specs.Rows.{found_with, heard_with, unknown_at};
ghost use Rattle.std.specs.Prelude.{◌≡◌, IfOk, OnOk, map};

use da_lang::{
    Alt, Class, Handler, Item, ItemKind, MessageDecl, Query, RBranch, RExpr, Ty, copy_type,
};
use da_typing::{Known, element_of, expr_type, member, message_row, pattern_row, query_row};
use da_values::{List, NoMemory};
use std::alloc::Global;

/// The types of the slots of a class that are known, with those that come on the way.
#[tactic(auto, using(crate::proofs::FlowForms::class_filled))]
pub fn filled_slots(
    alloc: Global,
    messages: &[MessageDecl],
    class: &Class,
) -> Result<List<Option<Ty>>, NoMemory>
    ensures { IfOk result (λ slots. slots ≡ slots_filled messages.now class.now) }
{
    let queries = class.queries.as_slice();
    let mut slots = copy_slots(alloc, class.slots.as_slice())?;
    items_types(alloc, messages, queries, class.setup.as_slice(), &mut slots)?;
    items_types(alloc, messages, queries, class.run.as_slice(), &mut slots)?;
    handlers_types(
        alloc,
        messages,
        queries,
        class.handlers.as_slice(),
        &mut slots,
    )?;
    Ok(slots)
}

// A copy of the types of slots.
fn copy_slots(alloc: Global, slots: &[Option<Ty>]) -> Result<List<Option<Ty>>, NoMemory>
    ensures { IfOk result (λ copy. copy ≡ slots.now) }
{
    let mut copy = List::new(alloc);
    for slot in slots {
        copy.push(copy_slot(alloc, slot)?)?;
    }
    Ok(copy)
}

// A copy of the type of a slot.
fn copy_slot(alloc: Global, slot: &Option<Ty>) -> Result<Option<Ty>, NoMemory>
    ensures { IfOk result (λ copy. copy ≡ slot.now) }
{
    match slot {
        None => Ok(None),
        Some(ty) => Ok(Some(copy_type(alloc, ty)?)),
    }
}

// A slot takes a type, where none is known.
#[tactic(auto, using(crate::proofs::SlotLaws::slot_rules))]
fn give_type(slot: u16, ty: Option<Ty>, slots: &mut List<Option<Ty>>)
    ensures { slots.new ≡ with_type slot ty slots.old }
{
    let number = usize::from(slot);
    if number > 0 && is_unknown(slots.as_slice(), number - 1) {
        slots.set(number - 1, ty);
    }
}

// Whether there is a slot at a place, and it has no type.
fn is_unknown(slots: &[Option<Ty>], at: usize) -> bool
    ensures { result ≡ unknown_at slots.now at }
{
    match slots.get(at) {
        None => false,
        Some(ty) => ty.is_none(),
    }
}

// Slots take the types of a row, where none is known.
fn give_types(
    alloc: Global,
    binds: &[u16],
    types: &[Ty],
    slots: &mut List<Option<Ty>>,
) -> Result<(), NoMemory>
    ensures { OnOk result (slots.new ≡ with_types binds.now types.now slots.old) }
{
    let mut rest = types;
    for bind in binds {
        match rest {
            [] => return Ok(()),
            [ty, others @ ..] => {
                give_type(*bind, Some(copy_type(alloc, ty)?), slots);
                rest = others;
            }
        }
    }
    Ok(())
}

// Slots take the types of a row that there may be.
fn give_row(
    alloc: Global,
    binds: &[u16],
    row: &Option<List<Ty>>,
    slots: &mut List<Option<Ty>>,
) -> Result<(), NoMemory>
    ensures { OnOk result (slots.new ≡ with_row_types binds.now row.now slots.old) }
{
    match row {
        None => Ok(()),
        Some(types) => give_types(alloc, binds, types.as_slice(), slots),
    }
}

/// The row that a numbered `some` finds, if there is one.
pub fn found_row(
    alloc: Global,
    known: &Known<'_>,
    queries: &[Query],
    found: Option<u32>,
) -> Result<Option<List<Ty>>, NoMemory>
    ensures { IfOk result (λ row. row ≡ found_with (known_of known.now) queries.now found) }
{
    let Some(number) = found else {
        return Ok(None);
    };
    match member(queries, number as usize) {
        None => Ok(None),
        Some(query) => query_row(alloc, known, query),
    }
}

/// The row of a handler: its message is over a declared message, its sender over processes.
pub fn handler_row(
    alloc: Global,
    known: &Known<'_>,
    handler: &Handler,
) -> Result<Option<List<Ty>>, NoMemory>
    ensures { IfOk result (λ row. row ≡ heard_with (known_of known.now) handler.now) }
{
    let found = message_row(alloc, known, &handler.message, List::new(alloc))?;
    match found {
        None => Ok(None),
        Some(row) => pattern_row(alloc, known, &handler.from, &Ty::Proc, row),
    }
}

/// The slots after a statement.
#[cycle(flow)]
#[tactic(auto, using(crate::proofs::FlowForms::flow_rules))]
fn item_types(
    alloc: Global,
    messages: &[MessageDecl],
    queries: &[Query],
    item: &Item,
    slots: &mut List<Option<Ty>>,
) -> Result<(), NoMemory>
    ensures { OnOk result (slots.new ≡ types_of_item messages.now queries.now item.now slots.old) }
{
    kind_types(alloc, messages, queries, &item.kind, slots)
}

/// The slots after what a statement does.
#[cycle(flow)]
#[tactic(auto, using(crate::proofs::FlowForms::flow_rules))]
fn kind_types(
    alloc: Global,
    messages: &[MessageDecl],
    queries: &[Query],
    kind: &ItemKind,
    slots: &mut List<Option<Ty>>,
) -> Result<(), NoMemory>
    ensures { OnOk result (slots.new ≡ kind_flow messages.now queries.now kind.now slots.old) }
{
    match kind {
        ItemKind::If(branches, other) => {
            branches_types(alloc, messages, queries, branches.as_slice(), slots)?;
            items_types(alloc, messages, queries, other.as_slice(), slots)
        }
        ItemKind::While(_, body) => items_types(alloc, messages, queries, body.as_slice(), slots),
        ItemKind::For(slot, x, body) => {
            let ty = loop_type(alloc, messages, queries, x.get(), slots.as_slice())?;
            give_type(*slot, ty, slots);
            items_types(alloc, messages, queries, body.as_slice(), slots)
        }
        ItemKind::Call(_, body) => items_types(alloc, messages, queries, body.as_slice(), slots),
        ItemKind::Await { alts, timeout, .. } => {
            alts_types(alloc, messages, queries, alts.as_slice(), slots)?;
            match timeout {
                None => Ok(()),
                Some(body) => items_types(alloc, messages, queries, body.as_slice(), slots),
            }
        }
        ItemKind::Assign(_, _)
        | ItemKind::Add(_, _)
        | ItemKind::Del(_, _)
        | ItemKind::Send(_, _)
        | ItemKind::Output(_)
        | ItemKind::Label(_)
        | ItemKind::Pass => Ok(()),
    }
}

// The type of the elements of what a loop goes through.
fn loop_type(
    alloc: Global,
    messages: &[MessageDecl],
    queries: &[Query],
    x: &RExpr,
    slots: &[Option<Ty>],
) -> Result<Option<Ty>, NoMemory>
    ensures { IfOk result (λ found. found ≡ given (typed messages.now queries.now slots.now x.now).type_ element_in) }
{
    let found = expr_type(alloc, &Known::new(messages, slots), queries, x)?;
    match found {
        None => Ok(None),
        Some(ty) => match element_of(&ty) {
            None => Ok(None),
            Some(element) => Ok(Some(copy_type(alloc, element)?)),
        },
    }
}

/// The slots after statements, one after the other.
#[cycle(flow)]
fn items_types(
    alloc: Global,
    messages: &[MessageDecl],
    queries: &[Query],
    items: &[Item],
    slots: &mut List<Option<Ty>>,
) -> Result<(), NoMemory>
    ensures { OnOk result (slots.new ≡ in_turn (map (types_of_item messages.now queries.now) items.now) slots.old) }
{
    for item in items {
        item_types(alloc, messages, queries, item, slots)?;
    }
    Ok(())
}

/// The slots after branches, one after the other.
#[cycle(flow)]
fn branches_types(
    alloc: Global,
    messages: &[MessageDecl],
    queries: &[Query],
    branches: &[RBranch],
    slots: &mut List<Option<Ty>>,
) -> Result<(), NoMemory>
    ensures { OnOk result (slots.new ≡ in_turn (map (branch_flow messages.now queries.now) branches.now) slots.old) }
{
    for branch in branches {
        branch_types(alloc, messages, queries, branch, slots)?;
    }
    Ok(())
}

/// The slots after a branch, of which those that its `some` binds take their types.
#[cycle(flow)]
#[tactic(auto, using(crate::proofs::FlowForms::flow_rules))]
fn branch_types(
    alloc: Global,
    messages: &[MessageDecl],
    queries: &[Query],
    branch: &RBranch,
    slots: &mut List<Option<Ty>>,
) -> Result<(), NoMemory>
    ensures { OnOk result (slots.new ≡ branch_flow messages.now queries.now branch.now slots.old) }
{
    let binds = branch.binds.as_slice();
    give_found(alloc, messages, queries, branch.found, binds, slots)?;
    items_types(alloc, messages, queries, branch.body.as_slice(), slots)
}

/// The slots after alternatives, one after the other.
#[cycle(flow)]
fn alts_types(
    alloc: Global,
    messages: &[MessageDecl],
    queries: &[Query],
    alts: &[Alt],
    slots: &mut List<Option<Ty>>,
) -> Result<(), NoMemory>
    ensures { OnOk result (slots.new ≡ in_turn (map (alt_flow messages.now queries.now) alts.now) slots.old) }
{
    for alt in alts {
        alt_types(alloc, messages, queries, alt, slots)?;
    }
    Ok(())
}

/// The slots after an alternative, of which those that its `some` binds take their types.
#[cycle(flow)]
#[tactic(auto, using(crate::proofs::FlowForms::flow_rules))]
fn alt_types(
    alloc: Global,
    messages: &[MessageDecl],
    queries: &[Query],
    alt: &Alt,
    slots: &mut List<Option<Ty>>,
) -> Result<(), NoMemory>
    ensures { OnOk result (slots.new ≡ alt_flow messages.now queries.now alt.now slots.old) }
{
    let binds = alt.binds.as_slice();
    give_found(alloc, messages, queries, alt.found, binds, slots)?;
    items_types(alloc, messages, queries, alt.body.as_slice(), slots)
}

// Slots take the types of the row that a numbered `some` finds, where none is known.
fn give_found(
    alloc: Global,
    messages: &[MessageDecl],
    queries: &[Query],
    found: Option<u32>,
    binds: &[u16],
    slots: &mut List<Option<Ty>>,
) -> Result<(), NoMemory>
    ensures { OnOk result (slots.new ≡ with_row_types binds.now (row_found messages.now queries.now found slots.old) slots.old) }
{
    let known = Known::new(messages, slots.as_slice());
    let row = found_row(alloc, &known, queries, found)?;
    give_row(alloc, binds, &row, slots)
}

// The slots after handlers, one after the other.
fn handlers_types(
    alloc: Global,
    messages: &[MessageDecl],
    queries: &[Query],
    handlers: &[Handler],
    slots: &mut List<Option<Ty>>,
) -> Result<(), NoMemory>
    ensures { OnOk result (slots.new ≡ in_turn (map (types_of_handler messages.now queries.now) handlers.now) slots.old) }
{
    for handler in handlers {
        handler_types(alloc, messages, queries, handler, slots)?;
    }
    Ok(())
}

// The slots after a handler, of which those that its patterns bind take their types.
fn handler_types(
    alloc: Global,
    messages: &[MessageDecl],
    queries: &[Query],
    handler: &Handler,
    slots: &mut List<Option<Ty>>,
) -> Result<(), NoMemory>
    ensures { OnOk result (slots.new ≡ types_of_handler messages.now queries.now handler.now slots.old) }
{
    give_heard(alloc, messages, handler, slots)?;
    items_types(alloc, messages, queries, handler.body.as_slice(), slots)
}

// Slots take the types of the row of a handler, where none is known.
fn give_heard(
    alloc: Global,
    messages: &[MessageDecl],
    handler: &Handler,
    slots: &mut List<Option<Ty>>,
) -> Result<(), NoMemory>
    ensures { OnOk result (slots.new ≡ with_row_types handler.now.binds (heard_with (record { messages = messages.now; slots = slots.old }) handler.now) slots.old) }
{
    let known = Known::new(messages, slots.as_slice());
    let row = handler_row(alloc, &known, handler)?;
    give_row(alloc, handler.binds.as_slice(), &row, slots)
}
