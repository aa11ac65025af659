//! The names of a program.

use crate::kind::Named;
use crate::line::Line;
use crate::reader::Reader;
use da_bodies::{Body, body_of};
use da_hints::{Role, Scope, enter_head, enter_row, enter_variables, line_of_main, rows_of, set};
use da_lang::{ClassTree, MainLine, Member, Tree, Ty};
use da_lex::Token;
use da_values::List;
use std::alloc::Global;

/// The names of a program with these tokens, in the order of the text.
pub fn names_of<'t>(
    alloc: Global,
    text: &'t [u8],
    tokens: &'t [Token],
    tree: &'t Tree,
) -> List<Named<'t>> {
    let scope = Scope::new(alloc, tree.messages.as_slice());
    let mut reader = Reader::new(Line { text, tokens }, scope, List::new(alloc));
    for (number, class) in tree.classes.as_slice().iter().enumerate() {
        begin_class(class, number, &mut reader);
        for member in class.members.as_slice() {
            read_member(alloc, member, &mut reader);
        }
    }
    read_main(tree, &mut reader);
    reader.read_to(u32::MAX);
    reader.found()
}

// The header of a class comes next, and its variables are in scope.
fn begin_class<'t>(class: &'t ClassTree, number: usize, reader: &mut Reader<'t>) {
    reader.read_to(class.line);
    reader.scope.leave_to(0);
    reader.class = number;
    reader.row = class.line;
    enter_variables(class, &mut reader.scope);
    reader.outside = reader.scope.len();
}

// A member comes next. The names of the one before it leave the scope.
fn read_member<'t>(alloc: Global, member: &'t Member, reader: &mut Reader<'t>) {
    let line = line_of_member(member);
    reader.read_to(line);
    reader.scope.leave_to(reader.outside);
    reader.row = line;
    if let Some(body) = body_of(member) {
        read_body(alloc, body, reader);
    }
}

/// The line of a member.
pub fn line_of_member(member: &Member) -> u32 {
    match member {
        Member::Var { line, .. } => *line,
        Member::Setup { line, .. } => *line,
        Member::Run { line, .. } => *line,
        Member::Method { line, .. } => *line,
        Member::Receive { line, .. } => *line,
    }
}

// The rows of a body come next.
fn read_body<'t>(alloc: Global, body: Body<'t>, reader: &mut Reader<'t>) {
    enter_head(body, &mut reader.scope);
    for row in rows_of(alloc, body.stmts).as_slice() {
        reader.read_to(row.line);
        reader.scope.leave_blocks(row.depth);
        reader.row = row.line;
        enter_row(row, &mut reader.scope);
    }
}

// The lines of `main` come next.
fn read_main<'t>(tree: &'t Tree, reader: &mut Reader<'t>) {
    let mut is_first = true;
    for made in tree.main.as_slice() {
        let line = line_of_main(made);
        reader.read_to(line);
        if is_first {
            reader.scope.leave_to(0);
            reader.class = tree.classes.len();
            is_first = false;
        }
        reader.row = line;
        enter_made(made, line, reader);
    }
}

// The name that a line of `main` makes comes into scope.
fn enter_made<'t>(made: &'t MainLine, line: u32, reader: &mut Reader<'t>) {
    if let MainLine::New { name, count, .. } = made {
        let ty = match count {
            None => Some(Ty::Proc),
            Some(_) => set(reader.scope.alloc, Ty::Proc),
        };
        reader.scope.stand_at(line, 0);
        reader.scope.enter(name.as_slice(), Role::Made, ty);
    }
}
