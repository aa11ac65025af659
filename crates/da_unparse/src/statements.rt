//! Statements.
ghost use Rattle.da_unparse.specs.Texts.{block_text, branch_text, branches_text, stmt_text, stmts_text, timeout_text};
ghost use Rattle.std.specs.Prelude.{◌≡◌, ◌++◌, codes, OnOk};

use crate::lines::{
    deeper, put_call, put_for, put_label, put_named_line, put_plain_line, put_send, put_worded_line,
};
use da_lang::{Branch, Stmt, TimeoutTree};
use da_values::{Buf, NoMemory};

/// Appends the lines of a statement at this level.
#[cycle(stmts)]
#[tactic(auto, using(crate::proofs::TextRules::stmt_rules), unfolding(crate::specs::Texts::otherwise_text))]
fn put_stmt(level: usize, stmt: &Stmt, out: &mut Buf) -> Result<(), NoMemory>
    ensures { OnOk result (out.new ≡ out.old ++ stmt_text level stmt.now) }
{
    match stmt {
        Stmt::Assign {
            name,
            value,
            line: _,
        } => { put_named_line(level, name.as_slice(), b" = ", value.get(), b"\n", out) }
        Stmt::Add {
            name,
            value,
            line: _,
        } => { put_named_line(level, name.as_slice(), b".add(", value.get(), b")\n", out) }
        Stmt::Del {
            name,
            value,
            line: _,
        } => { put_named_line(level, name.as_slice(), b".del(", value.get(), b")\n", out) }
        Stmt::Send {
            message,
            to,
            line: _,
        } => put_send(level, message.get(), to.get(), out),
        Stmt::Output { value, line: _ } => {
            put_worded_line(level, b"output(", value.get(), b")\n", out)
        }
        Stmt::Pass { line: _ } => put_plain_line(level, b"pass", out),
        Stmt::Label { name, line: _ } => put_label(level, name.as_slice(), out),
        Stmt::Call {
            name,
            args,
            line: _,
        } => put_call(level, name.as_slice(), args.as_slice(), out),
        Stmt::If {
            branches,
            otherwise,
            line: _,
        } => {
            put_branches(level, b"if ", b"elif ", branches.as_slice(), out)?;
            match otherwise {
                None => Ok(()),
                Some(body) => put_block(level, b"else:", body.as_slice(), out),
            }
        }
        Stmt::While {
            cond,
            body,
            line: _,
        } => {
            put_worded_line(level, b"while ", cond.get(), b":\n", out)?;
            put_stmts(deeper(level)?, body.as_slice(), out)
        }
        Stmt::For {
            name,
            over,
            body,
            line: _,
        } => {
            put_for(level, name.as_slice(), over.get(), out)?;
            put_stmts(deeper(level)?, body.as_slice(), out)
        }
        Stmt::AwaitOne { cond, line: _ } => put_worded_line(
            level,
            b"await ",
            cond.get(),
            b"\n",
            out,
        ),
        Stmt::Await {
            alts,
            timeout,
            line: _,
        } => {
            put_branches(level, b"await ", b"or ", alts.as_slice(), out)?;
            put_timeout(level, timeout, out)
        }
    }
}

/// Appends the lines of statements at this level.
#[cycle(stmts)]
#[tactic(auto, unfolding(crate::specs::Texts::stmts_text))]
pub fn put_stmts(level: usize, stmts: &[Stmt], out: &mut Buf) -> Result<(), NoMemory>
    ensures { OnOk result (out.new ≡ out.old ++ stmts_text level stmts.now) }
{
    for stmt in stmts {
        put_stmt(level, stmt, out)?;
    }
    Ok(())
}

/// Appends conditions and their blocks, the first after one word and the others after another.
#[cycle(stmts)]
#[tactic(auto, unfolding(crate::specs::Texts::branches_text))]
fn put_branches(
    level: usize,
    word: &[u8],
    others: &[u8],
    branches: &[Branch],
    out: &mut Buf,
) -> Result<(), NoMemory>
    ensures { OnOk result (out.new ≡ out.old ++ branches_text word.now others.now level branches.now) }
{
    match branches {
        [] => Ok(()),
        [first, rest @ ..] => {
            put_branch(level, word, first, out)?;
            for branch in rest {
                put_branch(level, others, branch, out)?;
            }
            Ok(())
        }
    }
}

/// Appends a condition and its block after a word.
#[cycle(stmts)]
#[tactic(auto, unfolding(crate::specs::Texts::branch_text))]
fn put_branch(level: usize, word: &[u8], branch: &Branch, out: &mut Buf) -> Result<(), NoMemory>
    ensures { OnOk result (out.new ≡ out.old ++ branch_text word.now level branch.now) }
{
    put_worded_line(level, word, branch.cond.get(), b":\n", out)?;
    put_stmts(deeper(level)?, branch.body.as_slice(), out)
}

/// Appends a block after a word alone.
#[cycle(stmts)]
#[tactic(auto, unfolding(crate::specs::Texts::block_text))]
fn put_block(level: usize, word: &[u8], body: &[Stmt], out: &mut Buf) -> Result<(), NoMemory>
    ensures { OnOk result (out.new ≡ out.old ++ block_text word.now level body.now) }
{
    put_plain_line(level, word, out)?;
    put_stmts(deeper(level)?, body, out)
}

/// Appends `timeout` and its block, where there is one.
#[cycle(stmts)]
#[tactic(auto, unfolding(crate::specs::Texts::timeout_text))]
fn put_timeout(level: usize, timeout: &Option<TimeoutTree>, out: &mut Buf) -> Result<(), NoMemory>
    ensures { OnOk result (out.new ≡ out.old ++ timeout_text level timeout.now) }
{
    match timeout {
        None => Ok(()),
        Some(tree) => put_block(level, b"timeout:", tree.body.as_slice(), out),
    }
}
