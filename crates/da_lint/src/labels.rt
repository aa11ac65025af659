//! Handlers at labels that nothing reaches.
use crate::remark::{Kind, Remark};
use crate::statements::statements_of;
use crate::text::Text;
use da_bodies::{Body, Place, body_of};
use da_lang::{ClassTree, Name, Stmt};
use da_values::List;

/// Remarks on the handlers of a class at labels to which no call leads from `run`.
pub fn tell_labels(text: Text<'_>, class: &ClassTree, out: &mut List<Remark>) {
    let reached = reached_labels(text, class);
    for member in class.members.as_slice() {
        let Some(body) = body_of(member) else {
            continue;
        };
        if let Place::Handler { at, .. } = body.place {
            for name in at {
                if !reached.as_slice().contains(&name.as_slice()) {
                    tell_label(text, body.line, name, out);
                }
            }
        }
    }
}

fn tell_label(text: Text<'_>, line: u32, name: &Name, out: &mut List<Remark>) {
    let mut told = text.phrase();
    told.fill(
        b"no process comes to the label @: its method is not called from run; call it, or take the label out of 'at'",
        name.as_slice(),
        b"",
    );
    text.remark(Kind::Unreached, line, name.as_slice(), told, out);
}

// The labels of `run` and of the methods to which its calls lead.
fn reached_labels<'t>(text: Text<'_>, class: &'t ClassTree) -> List<&'t [u8]> {
    let mut labels = List::new(text.alloc);
    let mut methods = List::new(text.alloc);
    for member in class.members.as_slice() {
        if let Some(body) = body_of(member) {
            if matches!(body.place, Place::Run) {
                put_body(text, body, &mut labels, &mut methods);
            }
        }
    }
    for place in 0..class.members.len() {
        let Some(name) = methods.get(place).copied() else {
            return labels;
        };
        if let Some(body) = method_of(class, name) {
            put_body(text, body, &mut labels, &mut methods);
        }
    }
    labels
}

// The labels of a body, and the methods that it calls.
fn put_body<'t>(
    text: Text<'_>,
    body: Body<'t>,
    labels: &mut List<&'t [u8]>,
    methods: &mut List<&'t [u8]>,
) {
    for stmt in statements_of(text.alloc, body.stmts).as_slice() {
        match *stmt {
            Stmt::Label { name, .. } => put_once(name.as_slice(), labels),
            Stmt::Call { name, .. } => put_once(name.as_slice(), methods),
            _ => {}
        }
    }
}

fn put_once<'t>(name: &'t [u8], out: &mut List<&'t [u8]>) {
    if !out.as_slice().contains(&name) {
        let _ = out.push(name);
    }
}

// The method of a name.
fn method_of<'t>(class: &'t ClassTree, name: &[u8]) -> Option<Body<'t>> {
    for member in class.members.as_slice() {
        if let Some(body) = body_of(member) {
            if let Place::Method(other) = body.place {
                if other == name {
                    return Some(body);
                }
            }
        }
    }
    None
}
