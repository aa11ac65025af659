//! The tags in statements, members and a program.
ghost use Rattle.added_names.specs.StmtTags as spec;
ghost use Rattle.added_names.specs.Tags.{sender_tags};
ghost use Rattle.std.specs.List.{flat_map};
ghost use Rattle.std.specs.Prelude.{◌≡◌, ◌++◌, OnOk};

use crate::added::AddedTag;
use crate::tags::{put_all, put_pattern, put_pattern_tag, put_sent_tag, put_tags};
use da_lang::{Branch, ClassTree, Expr, MainLine, Member, PatternTree, Stmt, TimeoutTree, Tree};
use da_values::{List, NoMemory};
use std::alloc::Global;

/// Appends the tag of a message that is sent, and those in it and in its recipients.
#[tactic(auto, unfolding(crate::specs::StmtTags::send_tags), using(crate::proofs::TagsAt::joins))]
fn put_send(
    message: &Expr,
    to: &Expr,
    alloc: Global,
    line: u32,
    out: &mut List<AddedTag>,
) -> Result<(), NoMemory>
    ensures { OnOk result (out.new ≡ out.old ++ spec.send_tags line message.now to.now) }
{
    put_sent_tag(alloc, message, line, out)?;
    put_tags(message, alloc, line, out)?;
    put_tags(to, alloc, line, out)
}

/// Appends the tags in a statement and its blocks.
#[cycle(statements)]
#[tactic(auto, using(crate::proofs::StmtTagsAt::stmt_rules))]
fn put_stmt(stmt: &Stmt, alloc: Global, out: &mut List<AddedTag>) -> Result<(), NoMemory>
    ensures { OnOk result (out.new ≡ out.old ++ spec.stmt_tags stmt.now) }
{
    match stmt {
        Stmt::Assign {
            name: _,
            value,
            line,
        } => put_tags(value.get(), alloc, *line, out),
        Stmt::Add {
            name: _,
            value,
            line,
        } => put_tags(value.get(), alloc, *line, out),
        Stmt::Del {
            name: _,
            value,
            line,
        } => put_tags(value.get(), alloc, *line, out),
        Stmt::Send { message, to, line } => { put_send(message.get(), to.get(), alloc, *line, out) }
        Stmt::Output { value, line } => put_tags(value.get(), alloc, *line, out),
        Stmt::Pass { line: _ } => Ok(()),
        Stmt::Label { name: _, line: _ } => Ok(()),
        Stmt::Call {
            name: _,
            args,
            line,
        } => put_all(args.as_slice(), alloc, *line, out),
        Stmt::If {
            branches,
            otherwise,
            line: _,
        } => {
            put_branches(branches.as_slice(), alloc, out)?;
            match otherwise {
                None => Ok(()),
                Some(body) => put_body(body.as_slice(), alloc, out),
            }
        }
        Stmt::While { cond, body, line } => {
            put_tags(cond.get(), alloc, *line, out)?;
            put_body(body.as_slice(), alloc, out)
        }
        Stmt::For {
            name: _,
            over,
            body,
            line,
        } => {
            put_tags(over.get(), alloc, *line, out)?;
            put_body(body.as_slice(), alloc, out)
        }
        Stmt::AwaitOne { cond, line } => put_tags(cond.get(), alloc, *line, out),
        Stmt::Await {
            alts,
            timeout,
            line: _,
        } => {
            put_branches(alts.as_slice(), alloc, out)?;
            put_timeout(timeout, alloc, out)
        }
    }
}

/// Appends the tags in the statements of a block.
#[cycle(statements)]
fn put_body(body: &[Stmt], alloc: Global, out: &mut List<AddedTag>) -> Result<(), NoMemory>
    ensures { OnOk result (out.new ≡ out.old ++ flat_map spec.stmt_tags body.now) }
{
    for stmt in body {
        put_stmt(stmt, alloc, out)?;
    }
    Ok(())
}

/// Appends the tags in headers with conditions and in their blocks.
#[cycle(statements)]
fn put_branches(
    branches: &[Branch],
    alloc: Global,
    out: &mut List<AddedTag>,
) -> Result<(), NoMemory>
    ensures { OnOk result (out.new ≡ out.old ++ flat_map spec.branch_tags branches.now) }
{
    for branch in branches {
        put_branch(branch, alloc, out)?;
    }
    Ok(())
}

/// Appends the tags in a header with a condition and in its block.
#[cycle(statements)]
#[tactic(auto, using(crate::proofs::StmtTagsAt::branch_rules))]
fn put_branch(branch: &Branch, alloc: Global, out: &mut List<AddedTag>) -> Result<(), NoMemory>
    ensures { OnOk result (out.new ≡ out.old ++ spec.branch_tags branch.now) }
{
    put_tags(branch.cond.get(), alloc, branch.line, out)?;
    put_body(branch.body.as_slice(), alloc, out)
}

/// Appends the tags in the block of `timeout`, where there is one.
#[cycle(statements)]
#[tactic(auto, using(crate::proofs::StmtTagsAt::stmt_rules))]
fn put_timeout(
    timeout: &Option<TimeoutTree>,
    alloc: Global,
    out: &mut List<AddedTag>,
) -> Result<(), NoMemory>
    ensures { OnOk result (out.new ≡ out.old ++ spec.late_tags timeout.now) }
{
    match timeout {
        None => Ok(()),
        Some(tree) => put_body(tree.body.as_slice(), alloc, out),
    }
}

/// Appends the tags in the pattern of the sender, where there is one.
#[tactic(auto, unfolding(crate::specs::Tags::sender_tags))]
fn put_sender(
    from: &Option<PatternTree>,
    alloc: Global,
    line: u32,
    out: &mut List<AddedTag>,
) -> Result<(), NoMemory>
    ensures { OnOk result (out.new ≡ out.old ++ sender_tags line from.now) }
{
    match from {
        None => Ok(()),
        Some(pattern) => put_pattern(pattern, alloc, line, out),
    }
}

/// Appends the tags of a handler's patterns.
#[tactic(auto, unfolding(crate::specs::StmtTags::handler_tags), using(crate::proofs::TagsAt::joins))]
fn put_handler(
    message: &PatternTree,
    from: &Option<PatternTree>,
    alloc: Global,
    line: u32,
    out: &mut List<AddedTag>,
) -> Result<(), NoMemory>
    ensures { OnOk result (out.new ≡ out.old ++ spec.handler_tags line message.now from.now) }
{
    put_pattern_tag(alloc, message, line, out)?;
    put_pattern(message, alloc, line, out)?;
    put_sender(from, alloc, line, out)
}

/// Appends the tags in a member.
#[tactic(auto, unfolding(crate::specs::StmtTags::member_tags), using(crate::proofs::TagsAt::joins))]
fn put_member(member: &Member, alloc: Global, out: &mut List<AddedTag>) -> Result<(), NoMemory>
    ensures { OnOk result (out.new ≡ out.old ++ spec.member_tags member.now) }
{
    match member {
        Member::Var {
            name: _,
            ty: _,
            line: _,
        } => Ok(()),
        Member::Setup {
            params: _,
            body,
            line: _,
        } => put_body(body.as_slice(), alloc, out),
        Member::Run { body, line: _ } => put_body(body.as_slice(), alloc, out),
        Member::Method {
            name: _,
            params: _,
            body,
            line: _,
        } => put_body(body.as_slice(), alloc, out),
        Member::Receive {
            message,
            from,
            at: _,
            body,
            line,
        } => {
            put_handler(message, from, alloc, *line, out)?;
            put_body(body.as_slice(), alloc, out)
        }
    }
}

/// Appends the tags in a class.
#[tactic(auto, unfolding(crate::specs::StmtTags::class_tags))]
fn put_class(class: &ClassTree, alloc: Global, out: &mut List<AddedTag>) -> Result<(), NoMemory>
    ensures { OnOk result (out.new ≡ out.old ++ spec.class_tags class.now) }
{
    for member in class.members.as_slice() {
        put_member(member, alloc, out)?;
    }
    Ok(())
}

/// Appends the tags in a line of `main`.
#[tactic(auto, unfolding(crate::specs::StmtTags::main_tags))]
fn put_main_line(line: &MainLine, alloc: Global, out: &mut List<AddedTag>) -> Result<(), NoMemory>
    ensures { OnOk result (out.new ≡ out.old ++ spec.main_tags line.now) }
{
    match line {
        MainLine::New {
            name: _,
            class: _,
            count: _,
            line: _,
        } => Ok(()),
        MainLine::Setup {
            name: _,
            args,
            line,
        } => put_all(args.as_slice(), alloc, *line, out),
    }
}

/// Appends the tags in classes.
fn put_classes(
    classes: &[ClassTree],
    alloc: Global,
    out: &mut List<AddedTag>,
) -> Result<(), NoMemory>
    ensures { OnOk result (out.new ≡ out.old ++ flat_map spec.class_tags classes.now) }
{
    for class in classes {
        put_class(class, alloc, out)?;
    }
    Ok(())
}

/// Appends the tags in the lines of `main`.
fn put_main(main: &[MainLine], alloc: Global, out: &mut List<AddedTag>) -> Result<(), NoMemory>
    ensures { OnOk result (out.new ≡ out.old ++ flat_map spec.main_tags main.now) }
{
    for line in main {
        put_main_line(line, alloc, out)?;
    }
    Ok(())
}

/// Appends the tags in a program.
#[tactic(auto, unfolding(crate::specs::StmtTags::tree_tags), using(crate::proofs::TagsAt::joins))]
pub fn put_tree(tree: &Tree, alloc: Global, out: &mut List<AddedTag>) -> Result<(), NoMemory>
    ensures { OnOk result (out.new ≡ out.old ++ spec.tree_tags tree.now) }
{
    put_classes(tree.classes.as_slice(), alloc, out)?;
    put_main(tree.main.as_slice(), alloc, out)
}
