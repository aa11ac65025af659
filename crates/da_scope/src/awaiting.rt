//! Conditions that wait, and the variables that they bring.
ghost use Rattle.da_lang.specs.declared.program.ItemKind.TheVariants as it;
ghost use Rattle.da_lang.specs.BodyMeaning.{await_one, found_number, fresh, item_at, named_slots, slot_of, untyped};
ghost use Rattle.da_lang.specs.ExprMeaning.{meant};
ghost use Rattle.da_lang.specs.ExprNames.{found_names};
ghost use Rattle.da_lang.specs.Scopes.{look};
ghost use Rattle.std.specs.Prelude.{◌≡◌, IfOk, OnOk, length};

use crate::simple::item;
use crate::slots::declare_names;
use crate::variables::{finds, found_names};
use da_lang::{Alt, Cond, Expr, Item, ItemKind};
use da_meaning::{Meaning, Scope, Tables, boxed_condition, outside};
use da_values::{Boxed, List, NoMemory};
use std::alloc::Global;

/// The slot that a name stands for. Other names are refused before.
pub fn slot_named(scope: &Scope<'_>, name: &[u8]) -> u16
    ensures { result ≡ slot_of (look scope.now name.now) }
{
    match scope.look(name) {
        Some(Meaning::InSlot(slot)) => slot,
        _ => 0,
    }
}

/// The number that the query of a condition gets, where it is a `some`.
pub fn found_number(x: &Expr, tables: &Tables) -> Result<Option<u32>, NoMemory>
    ensures { IfOk result (λ found. found ≡ found_number x.now tables.now) }
{
    if finds(x) {
        Ok(Some(tables.next_query()?))
    } else {
        Ok(None)
    }
}

/// New slots for the variables that a condition brings.
pub fn declare_found<'t>(
    alloc: Global,
    x: &'t Expr,
    scope: &mut Scope<'t>,
    tables: &mut Tables,
) -> Result<List<u16>, NoMemory>
    ensures slots { IfOk result (λ slots. slots ≡ fresh tables.old (length (found_names x.now))) }
    ensures scope { OnOk result (scope.new ≡ named_slots (found_names x.now) tables.old scope.old) }
    ensures tables { OnOk result (tables.new ≡ untyped (found_names x.now) tables.old) }
{
    let names = found_names(alloc, x)?;
    declare_names(alloc, names.as_slice(), scope, tables)
}

/// A condition that waits, whose queries get the next numbers too.
pub fn awaited<'t>(
    alloc: Global,
    x: &'t Expr,
    scope: &Scope<'t>,
    tables: &mut Tables,
) -> Result<Boxed<Cond>, NoMemory>
    ensures cond { IfOk result (λ cond. cond ≡ (meant x.now).condition scope.now) }
    ensures tables { OnOk result (tables.new ≡ ((meant x.now).outside scope.now tables.old).1) }
    ensures slots { OnOk result (tables.new.slots ≡ tables.old.slots) }
{
    drop(outside(alloc, x, scope, tables)?);
    boxed_condition(alloc, x, scope)
}

/// An `await` with these alternatives, and a block for the case that the time runs out, where it has one. The label is that
/// of a label directly before it.
pub fn waiting(alts: List<Alt>, timeout: Option<List<Item>>, label: Option<u32>, line: u32) -> Item
    ensures { result ≡ item_at line (it.Await alts timeout label) }
{
    item(
        line,
        ItemKind::Await {
            alts,
            timeout,
            label,
        },
    )
}

/// An `await` without a block: its variables stay in scope.
pub fn await_one<'t>(
    alloc: Global,
    x: &'t Expr,
    label: Option<u32>,
    line: u32,
    scope: &mut Scope<'t>,
    tables: &mut Tables,
) -> Result<Item, NoMemory>
    ensures item { IfOk result (λ item. item ≡ (await_one line x.now label scope.old tables.old).item) }
    ensures scope { OnOk result (scope.new ≡ (await_one line x.now label scope.old tables.old).scope) }
    ensures tables { OnOk result (tables.new ≡ (await_one line x.now label scope.old tables.old).tables) }
{
    let found = found_number(x, tables)?;
    let cond = awaited(alloc, x, scope, tables)?;
    let binds = declare_found(alloc, x, scope, tables)?;
    let mut alts = List::new(alloc);
    alts.push(Alt {
        cond,
        found,
        binds,
        body: List::new(alloc),
        line,
    })?;
    Ok(waiting(alts, None, label, line))
}
