//! Statements that hold no others.
ghost use Rattle.da_lang.specs.declared.program.ItemKind.TheVariants as it;
ghost use Rattle.da_lang.specs.BodyMeaning.{changing, item_at, with_expr, with_exprs};
ghost use Rattle.std.specs.Prelude.{◌≡◌, IfOk, OnOk};

use crate::awaiting::slot_named;
use da_lang::{Expr, Item, ItemKind, Name};
use da_meaning::{Scope, Tables, boxed_outside};
use da_values::{Boxed, NoMemory};
use std::alloc::Global;

/// A statement of this line.
pub fn item(line: u32, kind: ItemKind) -> Item
    ensures { result ≡ item_at line kind }
{
    Item { line, kind }
}

/// An assignment to a name.
pub fn assign<'t>(
    alloc: Global,
    name: &Name,
    value: &'t Boxed<Expr>,
    line: u32,
    scope: &Scope<'t>,
    tables: &mut Tables,
) -> Result<Item, NoMemory>
    ensures item { IfOk result (λ item. item ≡ item_at line (changing it.Assign name.now value.now scope.now tables.old).0) }
    ensures tables { OnOk result (tables.new ≡ (changing it.Assign name.now value.now scope.now tables.old).1) }
{
    let slot = slot_named(scope, name.as_slice());
    let value = boxed_outside(alloc, value.get(), scope, tables)?;
    Ok(item(line, ItemKind::Assign(slot, value)))
}

/// An element that is added to the set of a name.
pub fn add<'t>(
    alloc: Global,
    name: &Name,
    value: &'t Boxed<Expr>,
    line: u32,
    scope: &Scope<'t>,
    tables: &mut Tables,
) -> Result<Item, NoMemory>
    ensures item { IfOk result (λ item. item ≡ item_at line (changing it.Add name.now value.now scope.now tables.old).0) }
    ensures tables { OnOk result (tables.new ≡ (changing it.Add name.now value.now scope.now tables.old).1) }
{
    let slot = slot_named(scope, name.as_slice());
    let value = boxed_outside(alloc, value.get(), scope, tables)?;
    Ok(item(line, ItemKind::Add(slot, value)))
}

/// An element that is deleted from the set of a name.
pub fn delete<'t>(
    alloc: Global,
    name: &Name,
    value: &'t Boxed<Expr>,
    line: u32,
    scope: &Scope<'t>,
    tables: &mut Tables,
) -> Result<Item, NoMemory>
    ensures item { IfOk result (λ item. item ≡ item_at line (changing it.Del name.now value.now scope.now tables.old).0) }
    ensures tables { OnOk result (tables.new ≡ (changing it.Del name.now value.now scope.now tables.old).1) }
{
    let slot = slot_named(scope, name.as_slice());
    let value = boxed_outside(alloc, value.get(), scope, tables)?;
    Ok(item(line, ItemKind::Del(slot, value)))
}

/// A message that is sent.
pub fn send<'t>(
    alloc: Global,
    message: &'t Boxed<Expr>,
    to: &'t Boxed<Expr>,
    line: u32,
    scope: &Scope<'t>,
    tables: &mut Tables,
) -> Result<Item, NoMemory>
    ensures item { IfOk result (λ item. item ≡ item_at line (with_exprs it.Send message.now to.now scope.now tables.old).0) }
    ensures tables { OnOk result (tables.new ≡ (with_exprs it.Send message.now to.now scope.now tables.old).1) }
{
    let message = boxed_outside(alloc, message.get(), scope, tables)?;
    let to = boxed_outside(alloc, to.get(), scope, tables)?;
    Ok(item(line, ItemKind::Send(message, to)))
}

/// A value that is printed.
pub fn output<'t>(
    alloc: Global,
    value: &'t Boxed<Expr>,
    line: u32,
    scope: &Scope<'t>,
    tables: &mut Tables,
) -> Result<Item, NoMemory>
    ensures item { IfOk result (λ item. item ≡ item_at line (with_expr it.Output value.now scope.now tables.old).0) }
    ensures tables { OnOk result (tables.new ≡ (with_expr it.Output value.now scope.now tables.old).1) }
{
    let value = boxed_outside(alloc, value.get(), scope, tables)?;
    Ok(item(line, ItemKind::Output(value)))
}
