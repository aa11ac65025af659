//! The statements of a body, with those in their blocks.
use da_lang::{Branch, Stmt};
use da_values::List;
use std::alloc::Global;

/// All statements of a body, in the order of the text. Those for which memory is refused are left out.
pub fn statements_of<'t>(alloc: Global, stmts: &'t [Stmt]) -> List<&'t Stmt> {
    let mut out = List::new(alloc);
    put_block(stmts, &mut out);
    out
}

#[cycle(statements)]
fn put_block<'t>(stmts: &'t [Stmt], out: &mut List<&'t Stmt>) {
    for stmt in stmts {
        put_stmt(stmt, out);
    }
}

#[cycle(statements)]
fn put_stmt<'t>(stmt: &'t Stmt, out: &mut List<&'t Stmt>) {
    put(stmt, out);
    match stmt {
        Stmt::If {
            branches,
            otherwise,
            line: _,
        } => {
            put_branches(branches.as_slice(), out);
            if let Some(body) = otherwise {
                put_block(body.as_slice(), out);
            }
        }
        Stmt::Await {
            alts,
            timeout,
            line: _,
        } => {
            put_branches(alts.as_slice(), out);
            if let Some(tree) = timeout {
                put_block(tree.body.as_slice(), out);
            }
        }
        Stmt::While { body, .. } => put_block(body.as_slice(), out),
        Stmt::For { body, .. } => put_block(body.as_slice(), out),
        _ => {}
    }
}

#[cycle(statements)]
fn put_branches<'t>(branches: &'t [Branch], out: &mut List<&'t Stmt>) {
    for branch in branches {
        put_block(branch.body.as_slice(), out);
    }
}

fn put<'t>(stmt: &'t Stmt, out: &mut List<&'t Stmt>) {
    let _ = out.push(stmt);
}
