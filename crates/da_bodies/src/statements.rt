//! Names in statements.
ghost use Rattle.da_lang.specs.ExprNames.{Local, unless};
ghost use Rattle.da_lang.specs.declared.refusal.ScopeKind.TheVariants.{Unknown};
ghost use Rattle.da_lang.specs.StmtNames.{changed};
ghost use Rattle.da_lang.specs.Scopes.{look};
ghost use Rattle.da_bodies.specs.ScopeView.{role_of};
ghost use Rattle.da_bodies.specs.Told.{told_expr, told_kinds};
ghost use Rattle.da_bodies.specs.ToldStmts.{after_stmts, told_block, told_branch, told_stmt, told_timeout};
ghost use Rattle.std.specs.List.{fold};
ghost use Rattle.std.specs.Option.{option_to_list};
ghost use Rattle.std.specs.Prelude.{◌≡◌, [], ◌∷◌, OnOk, option_map};

use crate::earliest::Earliest;
use crate::expressions::{check_expr, check_exprs, check_new, tell_unless};
use crate::scope::{Names, Role};
use crate::variables::enter_found;
use da_lang::{Branch, Expr, ScopeKind, Stmt, TimeoutTree};
use da_values::NoMemory;
use std::alloc::Global;

/// Whether a name that stands for this may be changed.
fn is_changeable(found: Option<Role>) -> bool
    ensures { changed (option_map role_of found) ≡ unless result Unknown }
{
    match found {
        None => false,
        Some(role) => match role {
            Role::ClassVariable => true,
            Role::Local | Role::QueryVariable | Role::Made => false,
        },
    }
}

/// Checks a change of a name by an expression.
fn check_change<'t>(
    name: &[u8],
    value: &'t Expr,
    line: u32,
    names: &mut Names<'t>,
    least: &mut Earliest<ScopeKind>,
) -> Result<(), NoMemory>
    ensures told { OnOk result (least.new ≡ told_expr line names.old (told_kinds line least.old (changed (look names.old name.now))) value.now) }
    ensures same { OnOk result (names.new ≡ names.old) }
{
    let allowed = is_changeable(names.look(name));
    tell_unless(allowed, ScopeKind::Unknown, line, least);
    check_expr(value, line, names, least)
}

/// Checks a statement; the variables that it binds for the statements after it come into scope.
#[cycle(statements)]
#[tactic(auto, using(crate::proofs::ToldLines::stmt_rules))]
fn check_stmt<'t>(
    alloc: Global,
    stmt: &'t Stmt,
    names: &mut Names<'t>,
    least: &mut Earliest<ScopeKind>,
) -> Result<(), NoMemory>
    ensures told { OnOk result (least.new ≡ told_stmt names.old least.old stmt.now) }
    ensures entered { OnOk result (names.new ≡ after_stmts names.old (stmt.now ∷ [])) }
{
    match stmt {
        Stmt::Assign { name, value, line } => {
            check_change(name.as_slice(), value.get(), *line, names, least)
        }
        Stmt::Add { name, value, line } => {
            check_change(name.as_slice(), value.get(), *line, names, least)
        }
        Stmt::Del { name, value, line } => {
            check_change(name.as_slice(), value.get(), *line, names, least)
        }
        Stmt::Send { message, to, line } => {
            check_expr(message.get(), *line, names, least)?;
            check_expr(to.get(), *line, names, least)
        }
        Stmt::Output { value, line } => check_expr(value.get(), *line, names, least),
        Stmt::Pass { line: _ } => Ok(()),
        Stmt::Label { name: _, line: _ } => Ok(()),
        Stmt::Call {
            name: _,
            args,
            line,
        } => check_exprs(args.as_slice(), *line, names, least),
        Stmt::If {
            branches,
            otherwise,
            line: _,
        } => {
            check_branches(alloc, branches.as_slice(), names, least)?;
            match otherwise {
                None => Ok(()),
                Some(body) => check_block(alloc, body.as_slice(), names, least),
            }
        }
        Stmt::While { cond, body, line } => {
            check_expr(cond.get(), *line, names, least)?;
            check_block(alloc, body.as_slice(), names, least)
        }
        Stmt::For {
            name,
            over,
            body,
            line,
        } => {
            check_expr(over.get(), *line, names, least)?;
            check_new(name.as_slice(), *line, names, least);
            let outside = names.len();
            names.enter(name.as_slice(), Role::Local)?;
            check_block(alloc, body.as_slice(), names, least)?;
            names.leave_to(outside);
            Ok(())
        }
        Stmt::AwaitOne { cond, line } => {
            check_expr(cond.get(), *line, names, least)?;
            enter_found(alloc, cond.get(), *line, names)
        }
        Stmt::Await {
            alts,
            timeout,
            line: _,
        } => {
            check_branches(alloc, alts.as_slice(), names, least)?;
            check_timeout(alloc, timeout, names, least)
        }
    }
}

/// Checks the statements of a block.
#[cycle(statements)]
pub fn check_block<'t>(
    alloc: Global,
    body: &'t [Stmt],
    names: &mut Names<'t>,
    least: &mut Earliest<ScopeKind>,
) -> Result<(), NoMemory>
    ensures told { OnOk result (least.new ≡ told_block names.old least.old body.now) }
    ensures same { OnOk result (names.new ≡ names.old) }
{
    let outside = names.len();
    for stmt in body {
        check_stmt(alloc, stmt, names, least)?;
    }
    names.leave_to(outside);
    Ok(())
}

/// Checks conditions and their blocks.
#[cycle(statements)]
fn check_branches<'t>(
    alloc: Global,
    branches: &'t [Branch],
    names: &mut Names<'t>,
    least: &mut Earliest<ScopeKind>,
) -> Result<(), NoMemory>
    ensures told { OnOk result (least.new ≡ fold (told_branch names.old) least.old branches.now) }
    ensures same { OnOk result (names.new ≡ names.old) }
{
    for branch in branches {
        check_branch(alloc, branch, names, least)?;
    }
    Ok(())
}

/// Checks a condition, and its block with the variables that it binds.
#[cycle(statements)]
#[tactic(auto, using(crate::proofs::ToldLines::told_branch_of))]
fn check_branch<'t>(
    alloc: Global,
    branch: &'t Branch,
    names: &mut Names<'t>,
    least: &mut Earliest<ScopeKind>,
) -> Result<(), NoMemory>
    ensures told { OnOk result (least.new ≡ told_branch names.old least.old branch.now) }
    ensures same { OnOk result (names.new ≡ names.old) }
{
    check_expr(branch.cond.get(), branch.line, names, least)?;
    let outside = names.len();
    enter_found(alloc, branch.cond.get(), branch.line, names)?;
    check_block(alloc, branch.body.as_slice(), names, least)?;
    names.leave_to(outside);
    Ok(())
}

/// Checks the block of `timeout`, where there is one.
#[cycle(statements)]
#[tactic(auto, using(crate::proofs::ToldLines::told_timeout_of))]
fn check_timeout<'t>(
    alloc: Global,
    timeout: &'t Option<TimeoutTree>,
    names: &mut Names<'t>,
    least: &mut Earliest<ScopeKind>,
) -> Result<(), NoMemory>
    ensures told { OnOk result (least.new ≡ fold (told_timeout names.old) least.old (option_to_list timeout.now)) }
    ensures same { OnOk result (names.new ≡ names.old) }
{
    match timeout {
        None => Ok(()),
        Some(tree) => check_block(alloc, tree.body.as_slice(), names, least),
    }
}
