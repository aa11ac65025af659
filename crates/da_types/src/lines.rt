//! The lines of a class that break a rule of types.
ghost use Rattle.da_lang.specs.QueryTypes.{holds_of};
ghost use Rattle.da_lang.specs.Typing.{alt_broken, branch_broken, class_breaks, handler_breaks, have_types, item_breaks, kind_broken};
ghost use Rattle.da_typing.specs.KnownView.{known_of};
ghost use Rattle.da_types.specs.Rows.{heard_with};
ghost use Rattle.da_types.specs.Telling.{telling};
ghost use Rattle.std.specs.Prelude.{◌≡◌, IfOk, OnOk, flat_map};

use crate::earliest::Earliest;
use crate::flow::handler_row;
use crate::rules::{have_found, have_types as slots_have, keeps_rule};
use da_lang::{Alt, Class, Handler, Item, ItemKind, MessageDecl, Query, RBranch};
use da_typing::{Known, cond_holds, is_truth};
use da_values::NoMemory;
use std::alloc::Global;

/// Tells the lines of a class that break a rule.
#[tactic(auto, using(crate::proofs::CheckLaws::class_rules))]
pub fn tell_class(
    alloc: Global,
    messages: &[MessageDecl],
    class: &Class,
    least: &mut Earliest,
) -> Result<(), NoMemory>
    ensures { OnOk result (least.new ≡ telling least.old (class_breaks messages.now class.now)) }
{
    let known = Known::new(messages, class.slots.as_slice());
    let queries = class.queries.as_slice();
    tell_items(alloc, &known, queries, class.setup.as_slice(), least)?;
    tell_items(alloc, &known, queries, class.run.as_slice(), least)?;
    tell_handlers(alloc, &known, queries, class.handlers.as_slice(), least)
}

/// Tells the lines of a statement.
#[cycle(lines)]
#[tactic(auto, using(crate::proofs::BreakForms::item_rules))]
fn tell_item(
    alloc: Global,
    known: &Known<'_>,
    queries: &[Query],
    item: &Item,
    least: &mut Earliest,
) -> Result<(), NoMemory>
    ensures { OnOk result (least.new ≡ telling least.old (item_breaks known.now.messages.now queries.now known.now.slots.now item.now)) }
{
    let holds = keeps_rule(alloc, known, queries, &item.kind)?;
    least.tell_unless(holds, item.line);
    tell_blocks(alloc, known, queries, &item.kind, least)
}

/// Tells the lines in the blocks of a statement.
#[cycle(lines)]
#[tactic(auto, using(crate::proofs::BreakForms::block_rules))]
fn tell_blocks(
    alloc: Global,
    known: &Known<'_>,
    queries: &[Query],
    kind: &ItemKind,
    least: &mut Earliest,
) -> Result<(), NoMemory>
    ensures { OnOk result (least.new ≡ telling least.old (kind_broken known.now.messages.now queries.now known.now.slots.now kind.now).blocks) }
{
    match kind {
        ItemKind::If(branches, other) => {
            tell_branches(alloc, known, queries, branches.as_slice(), least)?;
            tell_items(alloc, known, queries, other.as_slice(), least)
        }
        ItemKind::While(_, body) => tell_items(alloc, known, queries, body.as_slice(), least),
        ItemKind::For(_, _, body) => tell_items(alloc, known, queries, body.as_slice(), least),
        ItemKind::Call(_, body) => tell_items(alloc, known, queries, body.as_slice(), least),
        ItemKind::Await { alts, timeout, .. } => {
            tell_alts(alloc, known, queries, alts.as_slice(), least)?;
            match timeout {
                None => Ok(()),
                Some(body) => tell_items(alloc, known, queries, body.as_slice(), least),
            }
        }
        ItemKind::Assign(_, _)
        | ItemKind::Add(_, _)
        | ItemKind::Del(_, _)
        | ItemKind::Send(_, _)
        | ItemKind::Output(_)
        | ItemKind::Label(_)
        | ItemKind::Pass => Ok(()),
    }
}

/// Tells the lines of statements.
#[cycle(lines)]
fn tell_items(
    alloc: Global,
    known: &Known<'_>,
    queries: &[Query],
    items: &[Item],
    least: &mut Earliest,
) -> Result<(), NoMemory>
    ensures { OnOk result (least.new ≡ telling least.old (flat_map (item_breaks known.now.messages.now queries.now known.now.slots.now) items.now)) }
{
    for item in items {
        tell_item(alloc, known, queries, item, least)?;
    }
    Ok(())
}

/// Tells the lines of branches.
#[cycle(lines)]
fn tell_branches(
    alloc: Global,
    known: &Known<'_>,
    queries: &[Query],
    branches: &[RBranch],
    least: &mut Earliest,
) -> Result<(), NoMemory>
    ensures { OnOk result (least.new ≡ telling least.old (flat_map (branch_broken known.now.messages.now queries.now known.now.slots.now) branches.now)) }
{
    for branch in branches {
        tell_branch(alloc, known, queries, branch, least)?;
    }
    Ok(())
}

/// Tells the lines of a branch.
#[cycle(lines)]
#[tactic(auto, using(crate::proofs::BreakForms::item_rules))]
fn tell_branch(
    alloc: Global,
    known: &Known<'_>,
    queries: &[Query],
    branch: &RBranch,
    least: &mut Earliest,
) -> Result<(), NoMemory>
    ensures { OnOk result (least.new ≡ telling least.old (branch_broken known.now.messages.now queries.now known.now.slots.now branch.now)) }
{
    let binds = branch.binds.as_slice();
    let truth = is_truth(alloc, known, queries, branch.cond.get())?;
    let bound = have_found(alloc, known, queries, branch.found, binds)?;
    least.tell_unless(truth && bound, branch.line);
    tell_items(alloc, known, queries, branch.body.as_slice(), least)
}

/// Tells the lines of alternatives.
#[cycle(lines)]
fn tell_alts(
    alloc: Global,
    known: &Known<'_>,
    queries: &[Query],
    alts: &[Alt],
    least: &mut Earliest,
) -> Result<(), NoMemory>
    ensures { OnOk result (least.new ≡ telling least.old (flat_map (alt_broken known.now.messages.now queries.now known.now.slots.now) alts.now)) }
{
    for alt in alts {
        tell_alt(alloc, known, queries, alt, least)?;
    }
    Ok(())
}

/// Tells the lines of an alternative.
#[cycle(lines)]
#[tactic(auto, using(crate::proofs::BreakForms::item_rules))]
fn tell_alt(
    alloc: Global,
    known: &Known<'_>,
    queries: &[Query],
    alt: &Alt,
    least: &mut Earliest,
) -> Result<(), NoMemory>
    ensures { OnOk result (least.new ≡ telling least.old (alt_broken known.now.messages.now queries.now known.now.slots.now alt.now)) }
{
    let binds = alt.binds.as_slice();
    let keeps = cond_holds(alloc, known, alt.cond.get(), &[])?;
    let bound = have_found(alloc, known, queries, alt.found, binds)?;
    least.tell_unless(keeps && bound, alt.line);
    tell_items(alloc, known, queries, alt.body.as_slice(), least)
}

// Tells the lines of handlers.
fn tell_handlers(
    alloc: Global,
    known: &Known<'_>,
    queries: &[Query],
    handlers: &[Handler],
    least: &mut Earliest,
) -> Result<(), NoMemory>
    ensures { OnOk result (least.new ≡ telling least.old (flat_map (handler_breaks known.now.messages.now queries.now known.now.slots.now) handlers.now)) }
{
    for handler in handlers {
        tell_handler(alloc, known, queries, handler, least)?;
    }
    Ok(())
}

// Tells the lines of a handler, whose slots have the types of the row of its patterns.
#[tactic(auto, using(crate::proofs::TellingLaws::parts))]
fn tell_handler(
    alloc: Global,
    known: &Known<'_>,
    queries: &[Query],
    handler: &Handler,
    least: &mut Earliest,
) -> Result<(), NoMemory>
    ensures { OnOk result (least.new ≡ telling least.old (handler_breaks known.now.messages.now queries.now known.now.slots.now handler.now)) }
{
    let holds = is_heard(alloc, known, queries, handler)?;
    least.tell_unless(holds, handler.line);
    tell_items(alloc, known, queries, handler.body.as_slice(), least)
}

// Whether the slots that a handler binds have the types of the row of its patterns.
fn is_heard(
    alloc: Global,
    known: &Known<'_>,
    queries: &[Query],
    handler: &Handler,
) -> Result<bool, NoMemory>
    ensures { IfOk result (λ holds. holds ≡ holds_of (heard_with (known_of known.now) handler.now) (have_types known.now.messages.now queries.now known.now.slots.now handler.now.binds)) }
{
    let row = handler_row(alloc, known, handler)?;
    match row {
        None => Ok(false),
        Some(types) => Ok(slots_have(known, queries, handler.binds.as_slice(), types.as_slice())),
    }
}
