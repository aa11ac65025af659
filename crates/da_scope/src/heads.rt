//! Heads of blocks: what stands before a block, and the names in scope in it.
ghost use Rattle.da_lang.specs.declared.program.Alt.{roll-Alt};
ghost use Rattle.da_lang.specs.declared.program.ItemKind.TheVariants as it;
ghost use Rattle.da_lang.specs.declared.program.RBranch.{roll-RBranch};
ghost use Rattle.da_lang.specs.BodyMeaning.{found_number, fresh, item_at, named_slots, next, untyped};
ghost use Rattle.da_lang.specs.ExprMeaning.{meant};
ghost use Rattle.da_lang.specs.ExprNames.{found_names};
ghost use Rattle.std.specs.Prelude.{◌≡◌, [], ◌∷◌, IfOk, OnOk, length};

use crate::awaiting::{awaited, declare_found, found_number};
use crate::simple::item;
use crate::slots::declare;
use da_lang::{Alt, Cond, Expr, Item, ItemKind, Name, RBranch, RExpr};
use da_meaning::{Scope, Tables, boxed_outside};
use da_values::{Boxed, List, NoMemory};
use std::alloc::Global;

/// The slots that a condition binds, and the names in scope in the block after it.
#[derive(Drop)]
struct Opened<'t> {
    binds: List<u16>,
    scope: Scope<'t>,
}

/// The head of a branch of an `if`.
#[derive(Drop)]
pub struct BranchHead<'t> {
    pub cond: Boxed<RExpr>,
    pub found: Option<u32>,
    pub binds: List<u16>,
    pub scope: Scope<'t>,
}

/// The head of an alternative of an `await`.
#[derive(Drop)]
pub struct AltHead<'t> {
    pub cond: Boxed<Cond>,
    pub found: Option<u32>,
    pub binds: List<u16>,
    pub scope: Scope<'t>,
}

/// The head of a `for`.
#[derive(Drop)]
pub struct ForHead<'t> {
    pub slot: u16,
    pub over: Boxed<RExpr>,
    pub scope: Scope<'t>,
}

impl<'t> BranchHead<'t> {
    /// The branch with this block.
    pub fn with_block(self, body: List<Item>, line: u32) -> RBranch
        ensures { result ≡ roll-RBranch (record { cond = self.entry.cond; found = self.entry.found; binds = self.entry.binds; body = body; line = line }) }
    {
        RBranch {
            cond: self.cond,
            found: self.found,
            binds: self.binds,
            body,
            line,
        }
    }
}

impl<'t> AltHead<'t> {
    /// The alternative with this block.
    pub fn with_block(self, body: List<Item>, line: u32) -> Alt
        ensures { result ≡ roll-Alt (record { cond = self.entry.cond; found = self.entry.found; binds = self.entry.binds; body = body; line = line }) }
    {
        Alt {
            cond: self.cond,
            found: self.found,
            binds: self.binds,
            body,
            line,
        }
    }
}

impl<'t> ForHead<'t> {
    /// The `for` with this block.
    pub fn with_block(self, body: List<Item>, line: u32) -> Item
        ensures { result ≡ item_at line (it.For self.entry.slot self.entry.over body) }
    {
        item(line, ItemKind::For(self.slot, self.over, body))
    }
}

/// The head of a branch of an `if`, by its condition.
pub fn branch_head<'t>(
    alloc: Global,
    x: &'t Expr,
    scope: &Scope<'t>,
    tables: &mut Tables,
) -> Result<BranchHead<'t>, NoMemory>
    ensures cond { IfOk result (λ head. head.cond ≡ ((meant x.now).outside scope.now tables.old).0) }
    ensures found { IfOk result (λ head. head.found ≡ found_number x.now tables.old) }
    ensures binds { IfOk result (λ head. head.binds ≡ fresh ((meant x.now).outside scope.now tables.old).1 (length (found_names x.now))) }
    ensures scope { IfOk result (λ head. head.scope ≡ named_slots (found_names x.now) ((meant x.now).outside scope.now tables.old).1 scope.now) }
    ensures tables { OnOk result (tables.new ≡ untyped (found_names x.now) ((meant x.now).outside scope.now tables.old).1) }
{
    let found = found_number(x, tables)?;
    let cond = boxed_outside(alloc, x, scope, tables)?;
    let opened = open_block(alloc, x, scope, tables)?;
    Ok(BranchHead {
        cond,
        found,
        binds: opened.binds,
        scope: opened.scope,
    })
}

/// The head of an alternative of an `await`, by its condition.
pub fn alt_head<'t>(
    alloc: Global,
    x: &'t Expr,
    scope: &Scope<'t>,
    tables: &mut Tables,
) -> Result<AltHead<'t>, NoMemory>
    ensures cond { IfOk result (λ head. head.cond ≡ (meant x.now).condition scope.now) }
    ensures found { IfOk result (λ head. head.found ≡ found_number x.now tables.old) }
    ensures binds { IfOk result (λ head. head.binds ≡ fresh ((meant x.now).outside scope.now tables.old).1 (length (found_names x.now))) }
    ensures scope { IfOk result (λ head. head.scope ≡ named_slots (found_names x.now) ((meant x.now).outside scope.now tables.old).1 scope.now) }
    ensures tables { OnOk result (tables.new ≡ untyped (found_names x.now) ((meant x.now).outside scope.now tables.old).1) }
{
    let found = found_number(x, tables)?;
    let cond = awaited(alloc, x, scope, tables)?;
    let opened = open_block(alloc, x, scope, tables)?;
    Ok(AltHead {
        cond,
        found,
        binds: opened.binds,
        scope: opened.scope,
    })
}

/// The head of a `for`, by its variable and the set that it goes over.
pub fn for_head<'t>(
    alloc: Global,
    name: &'t Name,
    x: &'t Boxed<Expr>,
    scope: &Scope<'t>,
    tables: &mut Tables,
) -> Result<ForHead<'t>, NoMemory>
    ensures slot { IfOk result (λ head. head.slot ≡ next ((meant x.now).outside scope.now tables.old).1) }
    ensures over { IfOk result (λ head. head.over ≡ ((meant x.now).outside scope.now tables.old).0) }
    ensures scope { IfOk result (λ head. head.scope ≡ named_slots (name.now ∷ []) ((meant x.now).outside scope.now tables.old).1 scope.now) }
    ensures tables { OnOk result (tables.new ≡ untyped (name.now ∷ []) ((meant x.now).outside scope.now tables.old).1) }
{
    let over = boxed_outside(alloc, x.get(), scope, tables)?;
    let mut inner = scope.copy(alloc)?;
    let slot = declare(name.as_slice(), None, &mut inner, tables)?;
    Ok(ForHead {
        slot,
        over,
        scope: inner,
    })
}

// The slots that a condition binds, and the names in scope in the block after it.
fn open_block<'t>(
    alloc: Global,
    x: &'t Expr,
    scope: &Scope<'t>,
    tables: &mut Tables,
) -> Result<Opened<'t>, NoMemory>
    ensures binds { IfOk result (λ opened. opened.binds ≡ fresh tables.old (length (found_names x.now))) }
    ensures scope { IfOk result (λ opened. opened.scope ≡ named_slots (found_names x.now) tables.old scope.now) }
    ensures tables { OnOk result (tables.new ≡ untyped (found_names x.now) tables.old) }
{
    let mut inner = scope.copy(alloc)?;
    let binds = declare_found(alloc, x, &mut inner, tables)?;
    Ok(Opened {
        binds,
        scope: inner,
    })
}
