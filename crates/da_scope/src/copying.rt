//! Copies of the bodies of methods.
ghost use Rattle.da_lang.specs.BodyMeaning.{body_of, copies};
ghost use Rattle.std.specs.Prelude.{◌≡◌, IfOk, OnOk};

use crate::arguments::bind_args;
use crate::home::Home;
use crate::inliner::Inliner;
use crate::slots::declare_params;
use da_lang::{Item, ItemKind, RExpr, Stmt};
use da_meaning::{Scope, Tables};
use da_values::{List, NoMemory};
use std::alloc::Global;

/// The statements of a body of a class. No chain of calls is longer than the number of its members.
pub fn body<'t>(
    alloc: Global,
    home: &Home<'t>,
    stmts: &'t [Stmt],
    scope: &Scope<'t>,
    tables: &mut Tables,
) -> Result<List<Item>, NoMemory>
    ensures items { IfOk result (λ items. items ≡ (body_of home.now.class.now stmts.now scope.now tables.old).0) }
    ensures tables { OnOk result (tables.new ≡ (body_of home.now.class.now stmts.now scope.now tables.old).1) }
{
    Inliner {
        alloc,
        home,
        most: home.class.members.len(),
        copy: copy_body,
    }
    .block(stmts, scope, tables)
}

/// A copy of the body of the method of a name, with its arguments, in which at most so many calls are within calls.
pub fn copy_body(
    alloc: Global,
    home: &Home<'_>,
    most: usize,
    name: &[u8],
    args: List<RExpr>,
    tables: &mut Tables,
) -> Result<ItemKind, NoMemory>
    ensures kind { IfOk result (λ kind. kind ≡ ((copies most home.now.class.now).call name.now args tables.old).0) }
    ensures tables { OnOk result (tables.new ≡ ((copies most home.now.class.now).call name.now args tables.old).1) }
{
    let Some(fewer) = most.checked_sub(1) else {
        return Ok(ItemKind::Pass);
    };
    let method = home.method(name);
    let mut scope = home.scope.copy(alloc)?;
    let slots = declare_params(alloc, method.params, &mut scope, tables)?;
    let inner = Inliner {
        alloc,
        home,
        most: fewer,
        copy: copy_body,
    };
    let items = inner.block(method.stmts, &scope, tables)?;
    Ok(ItemKind::Call(bind_args(alloc, slots.as_slice(), args)?, items))
}
