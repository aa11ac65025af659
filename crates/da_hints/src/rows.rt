//! What stands on the lines of a body, one after the other.
use crate::site::Part;
use da_lang::{Branch, Stmt};
use da_values::List;
use std::alloc::Global;

/// What stands on a line of a body.
#[derive(Clone, Copy)]
pub struct Row<'t> {
    pub part: Part<'t>,
    pub line: u32,
    /// How many blocks of the body it is in, and in how many the names are that it binds.
    pub depth: usize,
    pub inner: usize,
    /// Whether a statement begins here.
    pub begins: bool,
}

/// The rows of a body, in the order of the text.
pub fn rows_of<'t>(alloc: Global, stmts: &'t [Stmt]) -> List<Row<'t>> {
    let mut rows = List::new(alloc);
    put_rows(stmts, 0, &mut rows);
    rows
}

#[cycle(rows)]
fn put_rows<'t>(stmts: &'t [Stmt], depth: usize, out: &mut List<Row<'t>>) {
    for stmt in stmts {
        put_stmt(stmt, depth, out);
    }
}

#[cycle(rows)]
fn put_stmt<'t>(stmt: &'t Stmt, depth: usize, out: &mut List<Row<'t>>) {
    let inner = depth.saturating_add(1);
    match stmt {
        Stmt::If {
            branches,
            otherwise,
            line: _,
        } => {
            put_branches(branches.as_slice(), depth, false, out);
            if let Some(body) = otherwise {
                put_rows(body.as_slice(), inner, out);
            }
        }
        Stmt::Await {
            alts,
            timeout,
            line: _,
        } => {
            put_branches(alts.as_slice(), depth, true, out);
            if let Some(tree) = timeout {
                put_rows(tree.body.as_slice(), inner, out);
            }
        }
        Stmt::While { body, .. } => {
            put(plain_row(stmt, depth), out);
            put_rows(body.as_slice(), inner, out);
        }
        Stmt::For { body, .. } => {
            put(plain_row(stmt, depth), out);
            put_rows(body.as_slice(), inner, out);
        }
        _ => put(plain_row(stmt, depth), out)
    }
}

// Branches of an `if`, or alternatives of an `await`, of which the first begins the statement.
#[cycle(rows)]
fn put_branches<'t>(branches: &'t [Branch], depth: usize, waits: bool, out: &mut List<Row<'t>>) {
    let inner = depth.saturating_add(1);
    for (place, branch) in branches.iter().enumerate() {
        let cond = branch.cond.get();
        let part = if waits {
            Part::Wait(cond)
        } else {
            Part::Branch(cond)
        };
        let (line, begins) = (branch.line, place == 0);
        put(
            Row {
                part,
                line,
                depth,
                inner,
                begins,
            },
            out,
        );
        put_rows(branch.body.as_slice(), inner, out);
    }
}

fn put<'t>(row: Row<'t>, out: &mut List<Row<'t>>) {
    let _ = out.push(row);
}

// The row of a statement that has no branches. What a single condition of an `await` binds is in scope after it.
fn plain_row<'t>(stmt: &'t Stmt, depth: usize) -> Row<'t> {
    let mut part = Part::Statement(stmt);
    let mut inner = depth;
    let line = match stmt {
        Stmt::Assign { line, .. } => *line,
        Stmt::Add { line, .. } => *line,
        Stmt::Del { line, .. } => *line,
        Stmt::Send { line, .. } => *line,
        Stmt::Output { line, .. } => *line,
        Stmt::Pass { line } => *line,
        Stmt::Label { line, .. } => *line,
        Stmt::Call { line, .. } => *line,
        Stmt::While { line, .. } => *line,
        Stmt::For { line, .. } => {
            inner = depth.saturating_add(1);
            *line
        }
        Stmt::AwaitOne { cond, line } => {
            part = Part::Wait(cond.get());
            *line
        }
        _ => 0,
    };
    Row {
        part,
        line,
        depth,
        inner,
        begins: true,
    }
}
