//! All remarks on a program.
use crate::labels::tell_labels;
use crate::messages::tell_messages;
use crate::parts::{Part, put_head, put_statement};
use crate::products::tell_products;
use crate::remark::Remark;
use crate::setups::tell_setups;
use crate::statements::statements_of;
use crate::text::Text;
use crate::variables::tell_variables;
use crate::waits::tell_waits;
use da_bodies::body_of;
use da_front::{read_tokens, read_tree};
use da_lang::{ClassTree, Stmt, Tree};
use da_values::List;
use std::alloc::Global;

/// What is remarkable in the text of a program, in the order of the text. There is nothing where the text is refused, and what
/// memory is refused for is left out.
pub fn remarks_on(alloc: Global, text: &[u8]) -> List<Remark> {
    let mut out = List::new(alloc);
    let Ok(tokens) = read_tokens(alloc, text) else {
        return out;
    };
    let Ok(tree) = read_tree(alloc, text) else {
        return out;
    };
    let source = Text {
        alloc,
        text,
        tokens: tokens.list.as_slice(),
    };
    tell_tree(source, &tree, &mut out);
    out
}

fn tell_tree(text: Text<'_>, tree: &Tree, out: &mut List<Remark>) {
    let mut all = List::new(text.alloc);
    for class in tree.classes.as_slice() {
        let mut own = List::new(text.alloc);
        put_class(text, class, &mut own, out);
        tell_variables(text, class, own.as_slice(), out);
        tell_labels(text, class, out);
        put_all(own.as_slice(), &mut all);
    }
    tell_messages(text, tree, all.as_slice(), out);
    tell_setups(text, tree, out);
}

// Adds what a class holds, with remarks on its statements.
fn put_class<'t>(
    text: Text<'_>,
    class: &'t ClassTree,
    parts: &mut List<Part<'t>>,
    out: &mut List<Remark>,
) {
    for member in class.members.as_slice() {
        if let Some(body) = body_of(member) {
            put_head(body, parts);
            for stmt in statements_of(text.alloc, body.stmts).as_slice() {
                put_one(text, *stmt, parts, out);
            }
        }
    }
}

// Adds what a statement holds, with remarks on it.
fn put_one<'t>(text: Text<'_>, stmt: &'t Stmt, parts: &mut List<Part<'t>>, out: &mut List<Remark>) {
    let mut own = List::new(text.alloc);
    put_statement(stmt, &mut own);
    tell_waits(text, stmt, out);
    tell_products(text, line_of_stmt(stmt), own.as_slice(), out);
    put_all(own.as_slice(), parts);
}

fn put_all<'t>(parts: &[Part<'t>], out: &mut List<Part<'t>>) {
    for part in parts {
        let _ = out.push(*part);
    }
}

// The line where a statement begins.
fn line_of_stmt(stmt: &Stmt) -> u32 {
    match stmt {
        Stmt::Assign { line, .. } => *line,
        Stmt::Add { line, .. } => *line,
        Stmt::Del { line, .. } => *line,
        Stmt::Send { line, .. } => *line,
        Stmt::Output { line, .. } => *line,
        Stmt::Pass { line } => *line,
        Stmt::Label { line, .. } => *line,
        Stmt::Call { line, .. } => *line,
        Stmt::If { line, .. } => *line,
        Stmt::While { line, .. } => *line,
        Stmt::For { line, .. } => *line,
        Stmt::AwaitOne { line, .. } => *line,
        Stmt::Await { line, .. } => *line,
    }
}
