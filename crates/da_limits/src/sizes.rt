//! What is written in the statements of a body, one by one, as far as limits ask for it.
ghost use Rattle.da_limits.specs.Sizes.{size_at, sizes, sizes_of, sizes_of_branch, sizes_of_branches};
ghost use Rattle.da_limits.specs.Writings.{beside, nothing};
ghost use Rattle.std.specs.Prelude.{◌≡◌, [], ◌∷◌, ◌++◌, OnOk};

use crate::written::{Written, all_written, expr_written};
use da_lang::{Branch, Stmt};
use da_values::{List, NoMemory};

/// What is written in a statement or a header, without its blocks, and its line.
#[derive(Clone, Copy)]
pub struct DeedSize {
    pub line: u32,
    pub written: Written,
}

/// Adds what is written in statements, in the order of the text.
#[cycle(sizes)]
#[tactic(auto, using(crate::proofs::SizesAt::list_rules), unfolding(crate::specs::Sizes::sizes))]
pub fn put_sizes(stmts: &[Stmt], out: &mut List<DeedSize>) -> Result<(), NoMemory>
    ensures { OnOk result (out.new ≡ out.old ++ sizes stmts.now) }
{
    for stmt in stmts {
        put_sizes_of(stmt, out)?;
    }
    Ok(())
}

// The same for one statement.
#[cycle(sizes)]
#[tactic(auto, using(crate::proofs::SizesAt::stmt_rules))]
fn put_sizes_of(stmt: &Stmt, out: &mut List<DeedSize>) -> Result<(), NoMemory>
    ensures { OnOk result (out.new ≡ out.old ++ sizes_of stmt.now) }
{
    match stmt {
        Stmt::Assign {
            name: _,
            value,
            line,
        } => put_size(*line, alone(expr_written(value.get())), out),
        Stmt::Add {
            name: _,
            value,
            line,
        } => put_size(*line, alone(expr_written(value.get())), out),
        Stmt::Del {
            name: _,
            value,
            line,
        } => put_size(*line, alone(expr_written(value.get())), out),
        Stmt::Send { message, to, line } => {
            let both = expr_written(message.get()).beside(expr_written(to.get()));
            put_size(*line, both, out)
        }
        Stmt::Output { value, line } => put_size(*line, alone(expr_written(value.get())), out),
        Stmt::Pass { line } => put_size(*line, Written::nothing(), out),
        Stmt::Label { name: _, line } => put_size(*line, Written::nothing(), out),
        Stmt::Call {
            name: _,
            args,
            line,
        } => put_size(*line, all_written(args.as_slice()), out),
        Stmt::If {
            branches,
            otherwise,
            line,
        } => {
            put_size(*line, Written::nothing(), out)?;
            put_sizes_of_branches(branches.as_slice(), out)?;
            match otherwise {
                None => Ok(()),
                Some(body) => put_sizes(body.as_slice(), out),
            }
        }
        Stmt::While { cond, body, line } => {
            put_size(*line, alone(expr_written(cond.get())), out)?;
            put_sizes(body.as_slice(), out)
        }
        Stmt::For {
            name: _,
            over,
            body,
            line,
        } => {
            put_size(*line, alone(expr_written(over.get())), out)?;
            put_sizes(body.as_slice(), out)
        }
        Stmt::AwaitOne { cond, line } => put_size(*line, alone(expr_written(cond.get())), out),
        Stmt::Await {
            alts,
            timeout,
            line,
        } => {
            put_size(*line, Written::nothing(), out)?;
            put_sizes_of_branches(alts.as_slice(), out)?;
            match timeout {
                None => Ok(()),
                Some(tree) => {
                    put_size(tree.line, Written::nothing(), out)?;
                    put_sizes(tree.body.as_slice(), out)
                }
            }
        }
    }
}

// The same for conditions with their blocks.
#[cycle(sizes)]
#[tactic(auto, using(crate::proofs::SizesAt::list_rules), unfolding(crate::specs::Sizes::sizes_of_branches))]
fn put_sizes_of_branches(branches: &[Branch], out: &mut List<DeedSize>) -> Result<(), NoMemory>
    ensures { OnOk result (out.new ≡ out.old ++ sizes_of_branches branches.now) }
{
    for branch in branches {
        put_sizes_of_branch(branch, out)?;
    }
    Ok(())
}

// The same for a condition with its block.
#[cycle(sizes)]
#[tactic(auto, using(crate::proofs::SizesAt::branch_rules))]
fn put_sizes_of_branch(branch: &Branch, out: &mut List<DeedSize>) -> Result<(), NoMemory>
    ensures { OnOk result (out.new ≡ out.old ++ sizes_of_branch branch.now) }
{
    put_size(branch.line, alone(expr_written(branch.cond.get())), out)?;
    put_sizes(branch.body.as_slice(), out)
}

// Adds what is written at a line.
fn put_size(line: u32, written: Written, out: &mut List<DeedSize>) -> Result<(), NoMemory>
    ensures { OnOk result (out.new ≡ out.old ++ size_at line written ∷ []) }
{
    out.push(DeedSize { line, written })
}

// What is written where this is all.
fn alone(written: Written) -> Written
    ensures { result ≡ beside nothing written }
{
    Written::nothing().beside(written)
}
