//! The names that statements assign, add to and delete from.
ghost use Rattle.added_names.specs.Changes as spec;
ghost use Rattle.std.specs.List.{flat_map};
ghost use Rattle.std.specs.Prelude.{◌≡◌, ◌++◌, OnOk};

use crate::added::AddedVariable;
use da_lang::{Branch, Member, Name, Stmt, TimeoutTree};
use da_values::{List, NoMemory, copy_bytes};
use std::alloc::Global;

/// Appends a name that is changed.
#[tactic(auto, unfolding(crate::specs::Changes::change))]
fn put_change(
    name: &Name,
    alloc: Global,
    line: u32,
    out: &mut List<AddedVariable>,
) -> Result<(), NoMemory>
    ensures { OnOk result (out.new ≡ out.old ++ spec.change name.now line) }
{
    let name = copy_bytes(alloc, name.as_slice())?;
    out.push(AddedVariable { name, line })
}

/// Appends the names that a statement and its blocks change.
#[cycle(changes)]
#[tactic(auto, using(crate::proofs::ChangesAt::stmt_rules))]
fn put_changes(stmt: &Stmt, alloc: Global, out: &mut List<AddedVariable>) -> Result<(), NoMemory>
    ensures { OnOk result (out.new ≡ out.old ++ spec.stmt_changes stmt.now) }
{
    match stmt {
        Stmt::Assign {
            name,
            value: _,
            line,
        } => put_change(name, alloc, *line, out),
        Stmt::Add {
            name,
            value: _,
            line,
        } => put_change(name, alloc, *line, out),
        Stmt::Del {
            name,
            value: _,
            line,
        } => put_change(name, alloc, *line, out),
        Stmt::Send {
            message: _,
            to: _,
            line: _,
        } => Ok(()),
        Stmt::Output { value: _, line: _ } => Ok(()),
        Stmt::Pass { line: _ } => Ok(()),
        Stmt::Label { name: _, line: _ } => Ok(()),
        Stmt::Call {
            name: _,
            args: _,
            line: _,
        } => Ok(()),
        Stmt::If {
            branches,
            otherwise,
            line: _,
        } => {
            put_branches(branches.as_slice(), alloc, out)?;
            match otherwise {
                None => Ok(()),
                Some(body) => put_body(body.as_slice(), alloc, out),
            }
        }
        Stmt::While {
            cond: _,
            body,
            line: _,
        } => put_body(body.as_slice(), alloc, out),
        Stmt::For {
            name: _,
            over: _,
            body,
            line: _,
        } => put_body(body.as_slice(), alloc, out),
        Stmt::AwaitOne { cond: _, line: _ } => Ok(()),
        Stmt::Await {
            alts,
            timeout,
            line: _,
        } => {
            put_branches(alts.as_slice(), alloc, out)?;
            put_timeout(timeout, alloc, out)
        }
    }
}

/// Appends the names that the statements of a block change.
#[cycle(changes)]
fn put_body(body: &[Stmt], alloc: Global, out: &mut List<AddedVariable>) -> Result<(), NoMemory>
    ensures { OnOk result (out.new ≡ out.old ++ flat_map spec.stmt_changes body.now) }
{
    for stmt in body {
        put_changes(stmt, alloc, out)?;
    }
    Ok(())
}

/// Appends the names that blocks with headers change.
#[cycle(changes)]
#[tactic(auto, using(crate::proofs::ChangesAt::branch_of))]
fn put_branches(
    branches: &[Branch],
    alloc: Global,
    out: &mut List<AddedVariable>,
) -> Result<(), NoMemory>
    ensures { OnOk result (out.new ≡ out.old ++ flat_map spec.branch_changes branches.now) }
{
    for branch in branches {
        put_body(branch.body.as_slice(), alloc, out)?;
    }
    Ok(())
}

/// Appends the names that the block of `timeout` changes, where there is one.
#[cycle(changes)]
#[tactic(auto, using(crate::proofs::ChangesAt::stmt_rules))]
fn put_timeout(
    timeout: &Option<TimeoutTree>,
    alloc: Global,
    out: &mut List<AddedVariable>,
) -> Result<(), NoMemory>
    ensures { OnOk result (out.new ≡ out.old ++ spec.late_changes timeout.now) }
{
    match timeout {
        None => Ok(()),
        Some(tree) => put_body(tree.body.as_slice(), alloc, out),
    }
}

/// Appends the names that a member changes.
#[tactic(auto, unfolding(crate::specs::Changes::member_changes))]
fn put_member(member: &Member, alloc: Global, out: &mut List<AddedVariable>) -> Result<(), NoMemory>
    ensures { OnOk result (out.new ≡ out.old ++ spec.member_changes member.now) }
{
    match member {
        Member::Var {
            name: _,
            ty: _,
            line: _,
        } => Ok(()),
        Member::Setup {
            params: _,
            body,
            line: _,
        } => put_body(body.as_slice(), alloc, out),
        Member::Run { body, line: _ } => put_body(body.as_slice(), alloc, out),
        Member::Method {
            name: _,
            params: _,
            body,
            line: _,
        } => put_body(body.as_slice(), alloc, out),
        Member::Receive {
            message: _,
            from: _,
            at: _,
            body,
            line: _,
        } => put_body(body.as_slice(), alloc, out),
    }
}

/// Appends the names that members change.
pub fn put_members(
    members: &[Member],
    alloc: Global,
    out: &mut List<AddedVariable>,
) -> Result<(), NoMemory>
    ensures { OnOk result (out.new ≡ out.old ++ flat_map spec.member_changes members.now) }
{
    for member in members {
        put_member(member, alloc, out)?;
    }
    Ok(())
}
