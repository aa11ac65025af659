//! How large the inlined text of statements is.
ghost use Rattle.da_calls.specs.CallGraph.{IsCallGraph};
ghost use Rattle.da_limits.specs.Copied.{copied};
ghost use Rattle.da_limits.specs.Extents.{as_block, extent, extent_of_branch, together};
ghost use Rattle.std.specs.Prelude.{◌≡◌, map};

use crate::bound::found_by;
use crate::copies::Copies;
use crate::extent::Extent;
use da_lang::{Branch, Stmt};

/// The extent of a statement.
#[cycle(statements)]
#[tactic(auto, using(crate::proofs::ExtentRules::stmt_rules))]
fn statement(stmt: &Stmt, copies: &Copies<'_, '_>) -> Extent
    requires { IsCallGraph copies.now.graph.now }
    ensures { result ≡ extent (copied copies.now) stmt.now }
{
    match stmt {
        Stmt::Assign { .. } => Extent::nothing().one(),
        Stmt::Add { .. } => Extent::nothing().one(),
        Stmt::Del { .. } => Extent::nothing().one(),
        Stmt::Send { .. } => Extent::nothing().one(),
        Stmt::Output { .. } => Extent::nothing().one(),
        Stmt::Pass { .. } => Extent::nothing().one(),
        Stmt::Label { .. } => Extent::nothing().one(),
        Stmt::Call { name, .. } => copied(copies, name.as_slice()).one(),
        Stmt::If {
            branches,
            otherwise,
            ..
        } => {
            let conditions = branches_of(branches.as_slice(), copies);
            match otherwise {
                None => conditions.beside(Extent::nothing()).one(),
                Some(body) => conditions.beside(block(body.as_slice(), copies)).one(),
            }
        }
        Stmt::While { body, .. } => block(body.as_slice(), copies).one(),
        Stmt::For { body, .. } => block(body.as_slice(), copies).wider(1).one(),
        Stmt::AwaitOne { cond, .. } => Extent::nothing().wider(found_by(cond.get())).one(),
        Stmt::Await { alts, timeout, .. } => {
            let conditions = branches_of(alts.as_slice(), copies);
            match timeout {
                None => conditions.beside(Extent::nothing()).one(),
                Some(late) => conditions.beside(block(late.body.as_slice(), copies)).one(),
            }
        }
    }
}

/// The extent of a block.
#[cycle(statements)]
#[tactic(auto, using(crate::proofs::ExtentRules::block_rules))]
pub fn block(stmts: &[Stmt], copies: &Copies<'_, '_>) -> Extent
    requires { IsCallGraph copies.now.graph.now }
    ensures { result ≡ as_block (map (extent (copied copies.now)) stmts.now) }
{
    if stmts.is_empty() {
        return Extent::nothing();
    }
    let mut all = Extent::nothing();
    for stmt in stmts {
        all = all.beside(statement(stmt, copies));
    }
    all.deeper()
}

// The extent of conditions with their blocks.
#[cycle(statements)]
#[tactic(auto, using(crate::proofs::ExtentRules::block_rules))]
fn branches_of(branches: &[Branch], copies: &Copies<'_, '_>) -> Extent
    requires { IsCallGraph copies.now.graph.now }
    ensures { result ≡ together (map (extent_of_branch (copied copies.now)) branches.now) }
{
    let mut all = Extent::nothing();
    for branch in branches {
        all = all.beside(branch_of(branch, copies));
    }
    all
}

// The extent of a condition with its block.
#[cycle(statements)]
#[tactic(auto, using(crate::proofs::ExtentRules::branch_rules))]
fn branch_of(branch: &Branch, copies: &Copies<'_, '_>) -> Extent
    requires { IsCallGraph copies.now.graph.now }
    ensures { result ≡ extent_of_branch (copied copies.now) branch.now }
{
    block(branch.body.as_slice(), copies).wider(found_by(branch.cond.get()))
}

/// The extent of a copy of the method of a name. Where there is no such method, nothing is copied.
#[tactic(auto, unfolding(crate::specs::Copied::copied, crate::specs::Copied::copied_by))]
fn copied(copies: &Copies<'_, '_>, name: &[u8]) -> Extent
    requires { IsCallGraph copies.now.graph.now }
    ensures { result ≡ copied copies.now name.now }
{
    match copies.graph.number(name) {
        None => Extent::nothing(),
        Some(number) => match copies.extents.get(number) {
            None => Extent::nothing(),
            Some(extent) => *extent,
        },
    }
}
