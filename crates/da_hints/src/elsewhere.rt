//! Where else a name stands that is unknown at its place.
use crate::case::Case;
use crate::rows::rows_of;
use crate::scope::{Role, Scope};
use crate::site::{Part, enter_head};
use crate::walk::{Step, Walk, put_steps};
use da_bodies::{Place, body_of};
use da_lang::{Expr, MainLine, Member, PatternTree};
use da_values::List;
use std::alloc::Global;

/// Tells that a query which is only a part of a condition has the name, on this line of the body or before it. Whether one has.
pub fn note_within(name: &[u8], case: &mut Case<'_>) -> bool {
    let Some(body) = case.site.body else {
        return false;
    };
    let mut found = 0u32;
    let mut by_some = false;
    for row in rows_of(case.alloc, body.stmts).as_slice() {
        if row.line <= case.line {
            let cond = match row.part {
                Part::Branch(cond) => Some(cond),
                Part::Wait(cond) => Some(cond),
                _ => None,
            };
            if let Some(cond) = cond {
                if let Some(asks) = binder_in(case.alloc, cond, name) {
                    found = row.line;
                    by_some = asks;
                }
            }
        }
    }
    if found == 0 {
        return false;
    }
    let line = case.digits(u64::from(found));
    let form = if by_some {
        b"in line $ a part of the condition has the name: only a 'some' that is the whole condition binds".as_slice()
    } else {
        b"line $ has the name in a query, and it is in scope in that query alone"
    };
    case.note_of(form, line.as_slice(), b"");
    true
}

// Whether a condition has a query with `some`, where a pattern within it has this name and it is no such query as a whole.
fn binder_in(alloc: Global, x: &Expr, name: &[u8]) -> Option<bool> {
    if is_some(x) {
        return None;
    }
    let mut walk = Walk {
        alloc,
        text: &[],
        tokens: List::new(alloc),
        passed: 0,
        steps: List::new(alloc),
    };
    put_steps(x, 0, &mut walk);
    let mut binds = false;
    let mut asks = false;
    for step in walk.steps.as_slice() {
        match *step {
            Step::Fresh(other, Role::QueryVariable) => binds = binds || other == name,
            Step::Whole(part, _, _) => asks = asks || is_some(part),
            _ => {}
        }
    }
    if binds { Some(asks) } else { None }
}

// Whether an expression is a query with `some`.
fn is_some(x: &Expr) -> bool {
    match x {
        Expr::Quant { each, .. } => !*each,
        _ => false,
    }
}

/// Tells that the name stands for something of the program that is no value: a class, a process of `main`, a method or a message.
/// Whether it does so.
pub fn note_otherwise(name: &[u8], case: &mut Case<'_>) -> bool {
    let form = other_use(name, case);
    if form.is_empty() {
        return false;
    }
    case.note_of(form, name, name);
    true
}

// What stands for a name that is no value, with what helps, or nothing.
fn other_use(name: &[u8], case: &Case<'_>) -> &'static [u8] {
    let Some(class) = case.site.class else {
        return b"";
    };
    for member in class.members.as_slice() {
        if let Member::Method { name: other, .. } = member {
            if other.as_slice() == name {
                return b"@ is a method, whose call stands on a line of its own: $(..)";
            }
        }
    }
    for other in case.tree.classes.as_slice() {
        if other.name.as_slice() == name {
            return b"@ is a class: processes come to know each other by setup or by messages, as values of type proc";
        }
    }
    for made in case.tree.main.as_slice() {
        if let MainLine::New { name: other, .. } = made {
            if other.as_slice() == name {
                return b"main makes @: it gives it to a process by setup(.., $), whose class keeps it by def setup(p: proc):";
            }
        }
    }
    if is_tag(name, case) {
        return b"@ is the tag of a message, and stands in quotes: ('$', ..)";
    }
    b""
}

// Whether a message has this tag.
fn is_tag(name: &[u8], case: &Case<'_>) -> bool {
    for message in case.tree.messages.as_slice() {
        if message.tag.as_slice() == name {
            return true;
        }
    }
    false
}

/// Tells how a message of this tag is sent. Whether there is one.
pub fn note_tag(name: &[u8], case: &mut Case<'_>) -> bool {
    let found = is_tag(name, case);
    if found {
        case.note_of(b"a message is sent so: send ('$', ..) to p", name, b"");
    }
    found
}

/// Tells that a pattern of a handler has the name. Whether one has.
pub fn note_handler(name: &[u8], case: &mut Case<'_>) -> bool {
    let Some(class) = case.site.class else {
        return false;
    };
    for member in class.members.as_slice() {
        let Some(body) = body_of(member) else {
            continue;
        };
        if matches!(body.place, Place::Handler { .. }) {
            let mut scope = Scope::new(case.alloc, &[]);
            enter_head(body, &mut scope);
            if scope.look(name).is_some() {
                let line = case.digits(u64::from(body.line));
                let form =
                    b"the handler in line $ has the name for its own block: let it keep the value in a variable of the class";
                case.note_of(form, line.as_slice(), b"");
                return true;
            }
        }
    }
    false
}

/// Tells that the pattern of the handler has the name as a text. Whether it has.
pub fn note_quoted(name: &[u8], case: &mut Case<'_>) -> bool {
    let Some(body) = case.site.body else {
        return false;
    };
    let Place::Handler { message, .. } = body.place else {
        return false;
    };
    let PatternTree::Tuple(parts) = message else {
        return false;
    };
    let [_, rest @ ..] = parts.as_slice() else {
        return false;
    };
    for part in rest {
        if let PatternTree::Text(text) = part {
            if text.as_bytes() == name {
                let line = case.digits(u64::from(body.line));
                let form =
                    b"line $ has it in quotes, as a text: a name without quotes takes a part of the message";
                case.note_of(form, line.as_slice(), b"");
                return true;
            }
        }
    }
    false
}

/// Tells that a handler does not name the sender of its message. Whether it is so.
pub fn note_sender(name: &[u8], case: &mut Case<'_>) -> bool {
    let Some(body) = case.site.body else {
        return false;
    };
    let Place::Handler { from, .. } = body.place else {
        return false;
    };
    if from.is_some() {
        return false;
    }
    let line = case.digits(u64::from(body.line));
    let form = b"if it is the sender, line $ names it so: receive (..) from $:";
    case.note_of(form, line.as_slice(), name);
    true
}
