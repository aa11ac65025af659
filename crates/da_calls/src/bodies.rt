//! The calls and the yield points of bodies.
ghost use Rattle.da_lang.specs.Deeds.{deeds, deeds_of, deeds_of_branch};
ghost use Rattle.da_calls.specs.CallNames.{number_in};
ghost use Rattle.da_calls.specs.CallBodies.{calls_by, some_yield};
ghost use Rattle.std.specs.Prelude.{◌≡◌, ◌++◌, OnOk, flat_map};

use crate::names::Numbers;
use da_lang::{Branch, Stmt};
use da_values::{List, NoMemory};

/// Adds the numbers of the methods that statements call, in the order of the text.
#[cycle(put_calls)]
#[tactic(auto, using(crate::proofs::CallBodies::call_rules))]
pub fn put_calls(stmts: &[Stmt], numbers: &Numbers, out: &mut List<usize>) -> Result<(), NoMemory>
    ensures { OnOk result (out.new ≡ out.old ++ calls_by (number_in numbers.now) (deeds stmts.now)) }
{
    for stmt in stmts {
        put_calls_in(stmt, numbers, out)?;
    }
    Ok(())
}

/// The same for one statement.
#[cycle(put_calls)]
#[tactic(auto, using(crate::proofs::CallBodies::call_rules))]
fn put_calls_in(stmt: &Stmt, numbers: &Numbers, out: &mut List<usize>) -> Result<(), NoMemory>
    ensures { OnOk result (out.new ≡ out.old ++ calls_by (number_in numbers.now) (deeds_of stmt.now)) }
{
    match stmt {
        Stmt::Call { name, .. } => match numbers.find(name.as_slice()) {
            Some(number) => out.push(number),
            None => Ok(()),
        },
        Stmt::If {
            branches,
            otherwise,
            ..
        } => {
            put_calls_of(branches.as_slice(), numbers, out)?;
            match otherwise {
                None => Ok(()),
                Some(body) => put_calls(body.as_slice(), numbers, out),
            }
        }
        Stmt::While { body, .. } | Stmt::For { body, .. } => put_calls(
            body.as_slice(),
            numbers,
            out,
        ),
        Stmt::Await { alts, timeout, .. } => {
            put_calls_of(alts.as_slice(), numbers, out)?;
            match timeout {
                None => Ok(()),
                Some(tree) => put_calls(tree.body.as_slice(), numbers, out),
            }
        }
        Stmt::Assign { .. }
        | Stmt::Add { .. }
        | Stmt::Del { .. }
        | Stmt::Send { .. }
        | Stmt::Output { .. }
        | Stmt::Pass { .. }
        | Stmt::Label { .. }
        | Stmt::AwaitOne { .. } => Ok(()),
    }
}

/// The same for branches.
#[cycle(put_calls)]
#[tactic(auto, using(crate::proofs::CallBodies::call_rules))]
fn put_calls_of(
    branches: &[Branch],
    numbers: &Numbers,
    out: &mut List<usize>,
) -> Result<(), NoMemory>
    ensures { OnOk result (out.new ≡ out.old ++ calls_by (number_in numbers.now) (flat_map deeds_of_branch branches.now)) }
{
    for branch in branches {
        put_calls(branch.body.as_slice(), numbers, out)?;
    }
    Ok(())
}

/// Whether there is a yield point in statements.
#[cycle(has_yield)]
#[tactic(auto, using(crate::proofs::CallBodies::yield_rules))]
pub fn has_yield(stmts: &[Stmt]) -> bool
    ensures { result ≡ some_yield (deeds stmts.now) }
{
    for stmt in stmts {
        if has_yield_in(stmt) {
            return true;
        }
    }
    false
}

/// The same for one statement.
#[cycle(has_yield)]
#[tactic(auto, using(crate::proofs::CallBodies::yield_rules))]
fn has_yield_in(stmt: &Stmt) -> bool
    ensures { result ≡ some_yield (deeds_of stmt.now) }
{
    match stmt {
        Stmt::Label { .. } | Stmt::AwaitOne { .. } | Stmt::Await { .. } => true,
        Stmt::If {
            branches,
            otherwise,
            ..
        } => {
            has_yield_of(branches.as_slice())
                || match otherwise {
                    None => false,
                    Some(body) => has_yield(body.as_slice()),
                }
        }
        Stmt::While { body, .. } | Stmt::For { body, .. } => has_yield(body.as_slice()),
        Stmt::Assign { .. }
        | Stmt::Add { .. }
        | Stmt::Del { .. }
        | Stmt::Send { .. }
        | Stmt::Output { .. }
        | Stmt::Pass { .. }
        | Stmt::Call { .. } => false,
    }
}

/// The same for branches.
#[cycle(has_yield)]
#[tactic(auto, using(crate::proofs::CallBodies::yield_rules))]
fn has_yield_of(branches: &[Branch]) -> bool
    ensures { result ≡ some_yield (flat_map deeds_of_branch branches.now) }
{
    for branch in branches {
        if has_yield(branch.body.as_slice()) {
            return true;
        }
    }
    false
}
