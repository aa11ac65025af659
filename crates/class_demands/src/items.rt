//! What statements demand, each on its line.
ghost use Rattle.std.specs.Prelude.{◌≡◌, [], ◌++◌, OnOk, flat_map};
ghost use Rattle.class_demands.specs.Statements as spec;
ghost use Rattle.type_demands.specs.declared.demand.Demand.TheVariants as demand_of;
ghost use Rattle.type_demands.specs.Conds.{cond_sym};
ghost use Rattle.type_demands.specs.Demands.{at_line};
ghost use Rattle.type_demands.specs.Exprs.{is_one};
ghost use Rattle.type_demands.specs.KnownView.{context_of};
ghost use Rattle.type_demands.specs.Listing.{expr_in};

use crate::rules::{alt_rule, branch_rule, handler_rule, rule_demands};
use da_lang::{Alt, Cond, Handler, Item, ItemKind, RBranch, RExpr};
use da_values::{List, NoMemory};
use std::alloc::Global;
use type_demands::{Known, LineDemand};

/// What a statement demands, with those in its blocks.
#[cycle(items)]
#[tactic(auto, using(crate::proofs::StatementForms::item_rules))]
fn item_demands(
    item: &Item,
    alloc: Global,
    known: &Known<'_>,
    demands: &mut List<LineDemand>,
) -> Result<(), NoMemory>
    ensures { OnOk result (demands.new ≡ demands.old ++ spec.item_demands (context_of known.now) known.now.queries.now item.now) }
{
    rule_on(&item.kind, item.line, alloc, known, demands)?;
    block_demands(&item.kind, alloc, known, demands)?;
    Ok(())
}

/// What the blocks of a statement demand.
#[cycle(items)]
#[tactic(auto, using(crate::proofs::StatementForms::block_rules))]
fn block_demands(
    kind: &ItemKind,
    alloc: Global,
    known: &Known<'_>,
    demands: &mut List<LineDemand>,
) -> Result<(), NoMemory>
    ensures { OnOk result (demands.new ≡ demands.old ++ (spec.kind_demands (context_of known.now) known.now.queries.now kind.now).blocks) }
{
    match kind {
        ItemKind::If(branches, other) => {
            branches_demands(branches.as_slice(), alloc, known, demands)?;
            items_demands(other.as_slice(), alloc, known, demands)?;
            Ok(())
        }
        ItemKind::While(_, body) => {
            items_demands(body.as_slice(), alloc, known, demands)?;
            Ok(())
        }
        ItemKind::For(_, _, body) => {
            items_demands(body.as_slice(), alloc, known, demands)?;
            Ok(())
        }
        ItemKind::Call(_, body) => {
            items_demands(body.as_slice(), alloc, known, demands)?;
            Ok(())
        }
        ItemKind::Await { alts, timeout, .. } => {
            alts_demands(alts.as_slice(), alloc, known, demands)?;
            match timeout {
                None => Ok(()),
                Some(body) => {
                    items_demands(body.as_slice(), alloc, known, demands)?;
                    Ok(())
                }
            }
        }
        ItemKind::Assign(_, _) => Ok(()),
        ItemKind::Add(_, _) => Ok(()),
        ItemKind::Del(_, _) => Ok(()),
        ItemKind::Send(_, _) => Ok(()),
        ItemKind::Output(_) => Ok(()),
        ItemKind::Label(_) => Ok(()),
        ItemKind::Pass => Ok(()),
    }
}

/// What statements demand, one after the other.
#[cycle(items)]
pub fn items_demands(
    items: &[Item],
    alloc: Global,
    known: &Known<'_>,
    demands: &mut List<LineDemand>,
) -> Result<(), NoMemory>
    ensures { OnOk result (demands.new ≡ demands.old ++ flat_map (spec.item_demands (context_of known.now) known.now.queries.now) items.now) }
{
    for item in items {
        item_demands(item, alloc, known, demands)?;
    }
    Ok(())
}

/// What branches demand, one after the other.
#[cycle(items)]
fn branches_demands(
    branches: &[RBranch],
    alloc: Global,
    known: &Known<'_>,
    demands: &mut List<LineDemand>,
) -> Result<(), NoMemory>
    ensures { OnOk result (demands.new ≡ demands.old ++ flat_map (spec.branch_demands (context_of known.now) known.now.queries.now) branches.now) }
{
    for branch in branches {
        branch_demands(branch, alloc, known, demands)?;
    }
    Ok(())
}

/// What a branch demands.
#[cycle(items)]
#[tactic(auto, using(crate::proofs::StatementForms::item_rules))]
fn branch_demands(
    branch: &RBranch,
    alloc: Global,
    known: &Known<'_>,
    demands: &mut List<LineDemand>,
) -> Result<(), NoMemory>
    ensures { OnOk result (demands.new ≡ demands.old ++ spec.branch_demands (context_of known.now) known.now.queries.now branch.now) }
{
    branch_on(
        branch.cond.get(),
        branch.found,
        branch.binds.as_slice(),
        branch.line,
        alloc,
        known,
        demands,
    )?;
    items_demands(branch.body.as_slice(), alloc, known, demands)?;
    Ok(())
}

/// What alternatives demand, one after the other.
#[cycle(items)]
fn alts_demands(
    alts: &[Alt],
    alloc: Global,
    known: &Known<'_>,
    demands: &mut List<LineDemand>,
) -> Result<(), NoMemory>
    ensures { OnOk result (demands.new ≡ demands.old ++ flat_map (spec.alt_demands (context_of known.now) known.now.queries.now) alts.now) }
{
    for alt in alts {
        alt_demands(alt, alloc, known, demands)?;
    }
    Ok(())
}

/// What an alternative demands.
#[cycle(items)]
#[tactic(auto, using(crate::proofs::StatementForms::item_rules))]
fn alt_demands(
    alt: &Alt,
    alloc: Global,
    known: &Known<'_>,
    demands: &mut List<LineDemand>,
) -> Result<(), NoMemory>
    ensures { OnOk result (demands.new ≡ demands.old ++ spec.alt_demands (context_of known.now) known.now.queries.now alt.now) }
{
    alt_on(
        alt.cond.get(),
        alt.found,
        alt.binds.as_slice(),
        alt.line,
        alloc,
        known,
        demands,
    )?;
    items_demands(alt.body.as_slice(), alloc, known, demands)?;
    Ok(())
}

// What a statement itself demands, on its line.
fn rule_on(
    kind: &ItemKind,
    line: u32,
    alloc: Global,
    known: &Known<'_>,
    demands: &mut List<LineDemand>,
) -> Result<(), NoMemory>
    ensures { OnOk result (demands.new ≡ demands.old ++ at_line line (spec.kind_demands (context_of known.now) known.now.queries.now kind.now).rule) }
{
    let here = Known {
        slots: known.slots,
        messages: known.messages,
        queries: known.queries,
        line,
    };
    rule_demands(kind, alloc, &here, demands)?;
    Ok(())
}

// What a header of a branch demands, on its line.
fn branch_on(
    cond: &RExpr,
    found: Option<u32>,
    binds: &[u16],
    line: u32,
    alloc: Global,
    known: &Known<'_>,
    demands: &mut List<LineDemand>,
) -> Result<(), NoMemory>
    ensures { OnOk result (demands.new ≡ demands.old ++ at_line line (is_one demand_of.Truth (expr_in known.now cond.now) ++ spec.have_found (context_of known.now) known.now.queries.now found binds.now)) }
{
    let here = Known {
        slots: known.slots,
        messages: known.messages,
        queries: known.queries,
        line,
    };
    branch_rule(cond, found, binds, alloc, &here, demands)?;
    Ok(())
}

// What a header of an alternative demands, on its line.
fn alt_on(
    cond: &Cond,
    found: Option<u32>,
    binds: &[u16],
    line: u32,
    alloc: Global,
    known: &Known<'_>,
    demands: &mut List<LineDemand>,
) -> Result<(), NoMemory>
    ensures { OnOk result (demands.new ≡ demands.old ++ at_line line (cond_sym (context_of known.now) cond.now [] ++ spec.have_found (context_of known.now) known.now.queries.now found binds.now)) }
{
    let here = Known {
        slots: known.slots,
        messages: known.messages,
        queries: known.queries,
        line,
    };
    alt_rule(cond, found, binds, alloc, &here, demands)?;
    Ok(())
}

/// What handlers demand, one after the other.
pub fn handlers_demands(
    handlers: &[Handler],
    alloc: Global,
    known: &Known<'_>,
    demands: &mut List<LineDemand>,
) -> Result<(), NoMemory>
    ensures { OnOk result (demands.new ≡ demands.old ++ flat_map (spec.handler_demands (context_of known.now) known.now.queries.now) handlers.now) }
{
    for handler in handlers {
        handler_demands(handler, alloc, known, demands)?;
    }
    Ok(())
}

// What a handler demands.
#[tactic(auto, using(crate::proofs::StatementForms::parts))]
fn handler_demands(
    handler: &Handler,
    alloc: Global,
    known: &Known<'_>,
    demands: &mut List<LineDemand>,
) -> Result<(), NoMemory>
    ensures { OnOk result (demands.new ≡ demands.old ++ spec.handler_demands (context_of known.now) known.now.queries.now handler.now) }
{
    handler_on(handler, alloc, known, demands)?;
    items_demands(handler.body.as_slice(), alloc, known, demands)?;
    Ok(())
}

// What a header of a handler demands, on its line.
fn handler_on(
    handler: &Handler,
    alloc: Global,
    known: &Known<'_>,
    demands: &mut List<LineDemand>,
) -> Result<(), NoMemory>
    ensures { OnOk result (demands.new ≡ demands.old ++ at_line handler.now.line (spec.have_row (context_of known.now) known.now.queries.now handler.now.binds (spec.handler_rows (context_of known.now) handler.now))) }
{
    let here = Known {
        slots: known.slots,
        messages: known.messages,
        queries: known.queries,
        line: handler.line,
    };
    handler_rule(handler, alloc, &here, demands)?;
    Ok(())
}
