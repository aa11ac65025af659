//! The statements of a body one by one.
ghost use Rattle.da_lang.specs.Deeds.{deed, deeds, deeds_of, deeds_of_branch, deeds_of_timeout};
ghost use Rattle.da_names.specs.DeedView.{deeds_in, doing_of, said_of};
ghost use Rattle.std.specs.List.{flat_map};
ghost use Rattle.std.specs.Option.{option_to_list};
ghost use Rattle.std.specs.Prelude.{◌≡◌, [], ◌∷◌, ◌++◌, IfOk, OnOk};

use da_lang::{Branch, Expr, Stmt, TimeoutTree};
use da_values::{List, NoMemory};
use std::alloc::Global;

/// What a statement or header does, as far as a rule names it.
#[derive(Clone, Copy)]
pub enum Doing<'t> {
    Sends,
    Outputs,
    Labels(&'t [u8]),
    Calls(&'t [u8]),
    Loops,
    Awaits,
    TimesOut,
    Other,
}

/// The expressions of a statement or header.
#[derive(Clone, Copy)]
pub enum Said<'t> {
    Nothing,
    One(&'t Expr),
    Two(&'t Expr, &'t Expr),
    Many(&'t [Expr]),
}

/// A statement or header: its line, what it does, and its expressions.
#[derive(Clone, Copy)]
pub struct Deed<'t> {
    pub line: u32,
    pub does: Doing<'t>,
    pub says: Said<'t>,
}

/// The statements and headers of a body.
pub fn deeds_of_body<'t>(alloc: Global, body: &'t [Stmt]) -> Result<List<Deed<'t>>, NoMemory>
    ensures { IfOk result (λ list. deeds_in list ≡ deeds body.now) }
{
    let mut list = List::new(alloc);
    put_body(body, &mut list)?;
    Ok(list)
}

/// Appends a statement or header.
fn put_deed<'t>(
    line: u32,
    does: Doing<'t>,
    says: Said<'t>,
    out: &mut List<Deed<'t>>,
) -> Result<(), NoMemory>
    ensures { OnOk result (deeds_in out.new ≡ deeds_in out.old ++ deed line (doing_of does.entry) (said_of says.entry) ∷ []) }
{
    out.push(Deed { line, does, says })
}

/// Appends a statement and those in its blocks.
#[cycle(deeds)]
#[tactic(auto, using(crate::proofs::DeedRules::deed_rules))]
fn put_stmt<'t>(stmt: &'t Stmt, out: &mut List<Deed<'t>>) -> Result<(), NoMemory>
    ensures { OnOk result (deeds_in out.new ≡ deeds_in out.old ++ deeds_of stmt.now) }
{
    match stmt {
        Stmt::Assign {
            name: _,
            value,
            line,
        } => put_deed(*line, Doing::Other, Said::One(value.get()), out),
        Stmt::Add {
            name: _,
            value,
            line,
        } => put_deed(*line, Doing::Other, Said::One(value.get()), out),
        Stmt::Del {
            name: _,
            value,
            line,
        } => put_deed(*line, Doing::Other, Said::One(value.get()), out),
        Stmt::Send { message, to, line } => {
            put_deed(*line, Doing::Sends, Said::Two(message.get(), to.get()), out)
        }
        Stmt::Output { value, line } => {
            put_deed(*line, Doing::Outputs, Said::One(value.get()), out)
        }
        Stmt::Pass { line } => put_deed(*line, Doing::Other, Said::Nothing, out),
        Stmt::Label { name, line } => {
            put_deed(*line, Doing::Labels(name.as_slice()), Said::Nothing, out)
        }
        Stmt::Call { name, args, line } => put_deed(
            *line,
            Doing::Calls(name.as_slice()),
            Said::Many(args.as_slice()),
            out,
        ),
        Stmt::If {
            branches,
            otherwise,
            line,
        } => {
            put_deed(*line, Doing::Other, Said::Nothing, out)?;
            put_branches(branches.as_slice(), out)?;
            match otherwise {
                None => Ok(()),
                Some(body) => put_body(body.as_slice(), out),
            }
        }
        Stmt::While { cond, body, line } => {
            put_deed(*line, Doing::Loops, Said::One(cond.get()), out)?;
            put_body(body.as_slice(), out)
        }
        Stmt::For {
            name: _,
            over,
            body,
            line,
        } => {
            put_deed(*line, Doing::Loops, Said::One(over.get()), out)?;
            put_body(body.as_slice(), out)
        }
        Stmt::AwaitOne { cond, line } => {
            put_deed(*line, Doing::Awaits, Said::One(cond.get()), out)
        }
        Stmt::Await {
            alts,
            timeout,
            line,
        } => {
            put_deed(*line, Doing::Awaits, Said::Nothing, out)?;
            put_branches(alts.as_slice(), out)?;
            put_timeout(timeout, out)
        }
    }
}

/// Appends the statements of a block.
#[cycle(deeds)]
pub fn put_body<'t>(body: &'t [Stmt], out: &mut List<Deed<'t>>) -> Result<(), NoMemory>
    ensures { OnOk result (deeds_in out.new ≡ deeds_in out.old ++ deeds body.now) }
{
    for stmt in body {
        put_stmt(stmt, out)?;
    }
    Ok(())
}

/// Appends headers with conditions and their blocks.
#[cycle(deeds)]
fn put_branches<'t>(branches: &'t [Branch], out: &mut List<Deed<'t>>) -> Result<(), NoMemory>
    ensures { OnOk result (deeds_in out.new ≡ deeds_in out.old ++ flat_map deeds_of_branch branches.now) }
{
    for branch in branches {
        put_branch(branch, out)?;
    }
    Ok(())
}

/// Appends a header with a condition and its block.
#[cycle(deeds)]
#[tactic(auto, using(crate::proofs::DeedRules::branch_deeds_of))]
fn put_branch<'t>(branch: &'t Branch, out: &mut List<Deed<'t>>) -> Result<(), NoMemory>
    ensures { OnOk result (deeds_in out.new ≡ deeds_in out.old ++ deeds_of_branch branch.now) }
{
    put_deed(branch.line, Doing::Other, Said::One(branch.cond.get()), out)?;
    put_body(branch.body.as_slice(), out)
}

/// Appends `timeout` and its block, where there is one.
#[cycle(deeds)]
#[tactic(auto, using(crate::proofs::DeedRules::timeout_deeds_of))]
fn put_timeout<'t>(
    timeout: &'t Option<TimeoutTree>,
    out: &mut List<Deed<'t>>,
) -> Result<(), NoMemory>
    ensures { OnOk result (deeds_in out.new ≡ deeds_in out.old ++ flat_map deeds_of_timeout (option_to_list timeout.now)) }
{
    match timeout {
        None => Ok(()),
        Some(tree) => {
            put_deed(tree.line, Doing::TimesOut, Said::Nothing, out)?;
            put_body(tree.body.as_slice(), out)
        }
    }
}
