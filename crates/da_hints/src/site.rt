//! The place in a program that a line stands for, with the names in scope there.
use crate::rows::{Row, rows_of};
use crate::scope::{Role, Scope};
use crate::typing::{element, enter_found, enter_message, enter_pattern, set, type_of};
use crate::walk::{Step, Walk, put_pattern, put_steps};
use da_bodies::{Body, Place, body_of};
use da_lang::{ClassTree, Expr, MainLine, Member, MessageDecl, Stmt, Tree, Ty};

/// What stands on a line.
#[derive(Clone, Copy)]
pub enum Part<'t> {
    /// A declaration of a message.
    Message(&'t MessageDecl),
    /// The header of a class.
    Class,
    /// A declaration of a variable, with its name.
    Variable(&'t [u8], &'t Ty),
    /// The header of `setup`, of `run`, of a method or of a handler.
    Header,
    /// A statement that is no `if` and no condition of an `await`, or the header of a loop.
    Statement(&'t Stmt),
    /// A condition with a block: of an `if` or `elif`.
    Branch(&'t Expr),
    /// A condition of an `await`.
    Wait(&'t Expr),
    /// A line of `main`.
    Main(&'t MainLine),
}

/// What stands on a line, with the class and the body around it, where there are any.
#[derive(Clone, Copy)]
pub struct Site<'t> {
    pub class: Option<&'t ClassTree>,
    pub body: Option<Body<'t>>,
    pub part: Part<'t>,
}

/// What stands on this line of a program, or what is used on it, where declarations are passed over. The names that are in scope
/// there are in `scope`, in which there were none.
pub fn site_of<'t>(
    tree: &'t Tree,
    line: u32,
    used: bool,
    scope: &mut Scope<'t>,
) -> Option<Site<'t>> {
    for message in tree.messages.as_slice() {
        if message.line == line && !used {
            return Some(outside(Part::Message(message)));
        }
    }
    for class in tree.classes.as_slice() {
        enter_variables(class, scope);
        if class.line == line && !used {
            return Some(Site {
                class: Some(class),
                body: None,
                part: Part::Class,
            });
        }
        if let Some(site) = site_in_class(class, line, used, scope) {
            return Some(site);
        }
        scope.leave_to(0);
    }
    site_in_main(tree, line, scope)
}

// What stands in no class.
fn outside(part: Part<'_>) -> Site<'_> {
    Site {
        class: None,
        body: None,
        part,
    }
}

// What stands on this line of `main`.
fn site_in_main<'t>(tree: &'t Tree, line: u32, scope: &mut Scope<'t>) -> Option<Site<'t>> {
    for made in tree.main.as_slice() {
        if line_of_main(made) == line {
            return Some(outside(Part::Main(made)));
        }
        if let MainLine::New { name, count, .. } = made {
            let ty = match count {
                None => Some(Ty::Proc),
                Some(_) => set(scope.alloc, Ty::Proc),
            };
            scope.stand_at(line_of_main(made), 0);
            scope.enter(name.as_slice(), Role::Made, ty);
        }
    }
    None
}

/// The line of a line of `main`.
pub fn line_of_main(made: &MainLine) -> u32 {
    match made {
        MainLine::New { line, .. } => *line,
        MainLine::Setup { line, .. } => *line,
    }
}

/// The variables of a class come into scope.
pub fn enter_variables<'t>(class: &'t ClassTree, scope: &mut Scope<'t>) {
    for member in class.members.as_slice() {
        if let Member::Var { name, ty, line } = member {
            let ty = scope.copy(Some(ty));
            scope.stand_at(*line, 0);
            scope.enter(name.as_slice(), Role::ClassVariable, ty);
        }
    }
}

fn site_in_class<'t>(
    class: &'t ClassTree,
    number: u32,
    used: bool,
    scope: &mut Scope<'t>,
) -> Option<Site<'t>> {
    for member in class.members.as_slice() {
        let body = body_of(member);
        let part = match (body, member) {
            (Some(body), _) => part_in_body(body, number, scope),
            (None, Member::Var { name, ty, line }) if *line == number && !used => {
                Some(Part::Variable(name.as_slice(), ty))
            }
            _ => None,
        };
        if let Some(part) = part {
            return Some(Site {
                class: Some(class),
                body,
                part,
            });
        }
    }
    None
}

// What stands on a line of a body. The names of the body are in scope where it is found, and else they leave it.
fn part_in_body<'t>(body: Body<'t>, line: u32, scope: &mut Scope<'t>) -> Option<Part<'t>> {
    if body.line == line {
        return Some(Part::Header);
    }
    let outside = scope.len();
    enter_head(body, scope);
    for row in rows_of(scope.alloc, body.stmts).as_slice() {
        scope.leave_blocks(row.depth);
        if row.line == line {
            return Some(row.part);
        }
        enter_row(row, scope);
    }
    scope.leave_to(outside);
    None
}

/// The parameters of a body and the names of a handler come into scope.
pub fn enter_head<'t>(body: Body<'t>, scope: &mut Scope<'t>) {
    scope.stand_at(body.line, 0);
    for param in body.params {
        let ty = scope.copy(Some(&param.ty));
        scope.enter(param.name.as_slice(), Role::Parameter, ty);
    }
    if let Place::Handler { message, from, .. } = body.place {
        enter_message(message, Role::HandlerVariable, scope);
        if let Some(pattern) = from {
            enter_pattern(pattern, Some(&Ty::Proc), Role::HandlerVariable, scope);
        }
    }
}

/// The names that a row binds come into scope.
pub fn enter_row<'t>(row: &Row<'t>, scope: &mut Scope<'t>) {
    scope.stand_at(row.line, row.inner);
    match row.part {
        Part::Statement(Stmt::For { name, over, .. }) => {
            let ty = element(type_of(over.get(), scope));
            scope.enter(name.as_slice(), Role::LoopVariable, ty);
        }
        Part::Branch(cond) => enter_found(cond, scope),
        Part::Wait(cond) => enter_found(cond, scope),
        _ => {}
    }
}

/// All names that come into scope in the bodies of a class before a line do so.
pub fn enter_before<'t>(class: &'t ClassTree, line: u32, scope: &mut Scope<'t>) {
    for member in class.members.as_slice() {
        if let Some(body) = body_of(member) {
            if body.line < line {
                enter_head(body, scope);
                for row in rows_of(scope.alloc, body.stmts).as_slice() {
                    if row.line < line {
                        enter_row(row, scope);
                    }
                }
            }
        }
    }
}

/// Walks through the expressions and patterns of what stands at a place.
pub fn put_site<'t>(site: Site<'t>, walk: &mut Walk<'t>) {
    walk.pass(1);
    match site.part {
        Part::Statement(stmt) => put_statement(stmt, walk),
        Part::Branch(cond) => put_steps(cond, 0, walk),
        Part::Wait(cond) => put_steps(cond, 0, walk),
        Part::Main(MainLine::Setup { args, .. }) => {
            walk.pass(1);
            put_exprs(args.as_slice(), walk);
        }
        Part::Header => {
            if let Some(body) = site.body {
                put_head(body, walk);
            }
        }
        _ => {}
    }
}

fn put_head<'t>(body: Body<'t>, walk: &mut Walk<'t>) {
    for param in body.params {
        walk.put(Step::Fresh(param.name.as_slice(), Role::Parameter));
    }
    if let Place::Handler { message, from, .. } = body.place {
        put_pattern(message, Role::HandlerVariable, 0, walk);
        if let Some(pattern) = from {
            walk.pass(1);
            put_pattern(pattern, Role::HandlerVariable, 0, walk);
        }
    }
}

// A statement after its first token.
fn put_statement<'t>(stmt: &'t Stmt, walk: &mut Walk<'t>) {
    match stmt {
        Stmt::Assign { value, .. } => {
            walk.pass(1);
            put_steps(value.get(), 0, walk);
        }
        Stmt::Add { value, .. } => {
            walk.pass(2);
            put_steps(value.get(), 0, walk);
        }
        Stmt::Del { value, .. } => {
            walk.pass(2);
            put_steps(value.get(), 0, walk);
        }
        Stmt::Send { message, to, .. } => {
            put_steps(message.get(), 0, walk);
            walk.pass(1);
            put_steps(to.get(), 0, walk);
        }
        Stmt::Output { value, .. } => put_steps(value.get(), 0, walk),
        Stmt::Call { args, .. } => put_exprs(args.as_slice(), walk),
        Stmt::While { cond, .. } => put_steps(cond.get(), 0, walk),
        Stmt::For { name, over, .. } => {
            walk.pass(2);
            put_steps(over.get(), 0, walk);
            walk.put(Step::Fresh(name.as_slice(), Role::LoopVariable));
        }
        _ => {}
    }
}

fn put_exprs<'t>(xs: &'t [Expr], walk: &mut Walk<'t>) {
    for x in xs {
        put_steps(x, 0, walk);
    }
}
