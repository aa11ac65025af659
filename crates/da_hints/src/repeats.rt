//! Names that are declared twice, and names of variables that are taken.
use crate::case::Case;
use crate::labels::{Label, labels_of, line_of_label, put_label, tell_label_again};
use crate::names::{Misuse, misuse_at};
use crate::parts::blame_word;
use crate::scope::{Role, role_name};
use crate::site::{Part, Site, line_of_main};
use da_bodies::{Place, body_of};
use da_lang::{ClassTree, MainLine, Member, Param, ScopeKind, Stmt, Tree};
use da_values::List;
use std::alloc::Global;

/// Tells which name is declared a second time.
pub fn tell_twice(case: &mut Case<'_>) {
    if let (Part::Header, Some(class)) = (case.site.part, case.site.class) {
        return tell_header(class, case);
    }
    let Some((what, name)) = declared_at(case.site) else {
        return;
    };
    let all = all_declared(case.alloc, case.tree, case.site);
    let Some(first) = line_of_label(all.as_slice(), name) else {
        return;
    };
    if let Part::Main(MainLine::Setup { .. }) = case.site.part {
        case.tell(b"@ is set up already, in line ", name, b"");
        case.hint.sentence.number(u64::from(first));
        return blame_word(b"setup", case);
    }
    put_twice(what, name, first, case);
    match case.site.part {
        Part::Message(_) => case.note(b"a tag has one line 'message', and one list of types"),
        Part::Statement(_) => case.note(b"the labels of a class have different names"),
        _ => {}
    }
}

// What is declared there, and its name.
fn declared_at<'t>(site: Site<'t>) -> Option<(&'static [u8], &'t [u8])> {
    match (site.part, site.class) {
        (Part::Message(message), _) => Some((b"the message", message.tag.as_slice())),
        (Part::Class, Some(class)) => Some((b"the class", class.name.as_slice())),
        (Part::Variable(name, _), _) => Some((b"the variable", name)),
        (Part::Statement(Stmt::Label { name, .. }), _) => Some((b"the label", name.as_slice())),
        (Part::Main(made), _) => Some((b"the process", name_of_main(made))),
        _ => None,
    }
}

// All that is declared in the same way, in the order of the text.
fn all_declared<'t>(alloc: Global, tree: &'t Tree, site: Site<'t>) -> List<Label<'t>> {
    let mut all = List::new(alloc);
    match (site.part, site.class) {
        (Part::Message(_), _) => {
            for message in tree.messages.as_slice() {
                put_label(message.tag.as_slice(), message.line, &mut all);
            }
        }
        (Part::Class, _) => {
            for class in tree.classes.as_slice() {
                put_label(class.name.as_slice(), class.line, &mut all);
            }
        }
        (Part::Variable(_, _), Some(class)) => {
            for member in class.members.as_slice() {
                if let Member::Var { name, line, .. } = member {
                    put_label(name.as_slice(), *line, &mut all);
                }
            }
        }
        (Part::Main(made), _) => {
            for other in tree.main.as_slice() {
                if is_setup(other) == is_setup(made) {
                    put_label(name_of_main(other), line_of_main(other), &mut all);
                }
            }
        }
        (_, Some(class)) => return labels_of(alloc, class),
        _ => {}
    }
    all
}

fn is_setup(made: &MainLine) -> bool {
    matches!(made, MainLine::Setup { .. })
}

// The name that a line of `main` makes or sets up.
fn name_of_main(made: &MainLine) -> &[u8] {
    match made {
        MainLine::New { name, .. } => name.as_slice(),
        MainLine::Setup { name, .. } => name.as_slice(),
    }
}

// A name is declared again; the first one is on a line.
fn put_twice(what: &[u8], name: &[u8], first: u32, case: &mut Case<'_>) {
    case.tell(b"$ @ is declared already, in line ", what, name);
    case.hint.sentence.number(u64::from(first));
    blame_word(name, case);
}

// A parameter, a label after `at`, or a method, `setup` or `run`.
fn tell_header(class: &ClassTree, case: &mut Case<'_>) {
    let Some(body) = case.site.body else {
        return;
    };
    if tell_params(body.params, case) || tell_label_again(case) {
        return;
    }
    for member in class.members.as_slice() {
        if let Some(other) = body_of(member) {
            if let Some(name) = same_name(body.place, other.place) {
                tell_body(is_method(body.place), name, other.line, case);
                return;
            }
        }
    }
}

// The name of a body that two places have, where they have the same.
fn same_name<'t>(place: Place<'t>, other: Place<'t>) -> Option<&'t [u8]> {
    let name = name_at(place)?;
    if is_method(place) == is_method(other) && name_at(other) == Some(name) {
        Some(name)
    } else {
        None
    }
}

// The name of a method, or the word of a body that has none.
fn name_at<'t>(place: Place<'t>) -> Option<&'t [u8]> {
    match place {
        Place::Setup => Some(b"setup".as_slice()),
        Place::Run => Some(b"run".as_slice()),
        Place::Method(name) => Some(name),
        _ => None,
    }
}

fn is_method(place: Place<'_>) -> bool {
    matches!(place, Place::Method(_))
}

fn tell_body(is_method: bool, name: &[u8], first: u32, case: &mut Case<'_>) {
    if is_method {
        return put_twice(b"the method", name, first, case);
    }
    case.tell(b"the class has a method @ already, in line ", name, b"");
    case.hint.sentence.number(u64::from(first));
    blame_word(name, case);
}

// Two parameters of one name.
fn tell_params(params: &[Param], case: &mut Case<'_>) -> bool {
    let mut rest = params;
    for _param in 0..params.len() {
        let [first, others @ ..] = rest else {
            return false;
        };
        let name = first.name.as_slice();
        if others.iter().any(|other| other.name.as_slice() == name) {
            case.tell(b"two parameters of this list have the name @", name, b"");
            blame_word(name, case);
            return true;
        }
        rest = others;
    }
    false
}

/// Tells which new variable has the name of one in scope.
pub fn tell_shadow(case: &mut Case<'_>) {
    let Some(Misuse::Name(name, _)) = misuse_at(ScopeKind::Shadow, case) else {
        return;
    };
    blame_word(name, case);
    case.tell(b"@ is in scope already, as ", name, b"");
    let Some(entry) = case.scope.look(name) else {
        return;
    };
    let (role, line) = (entry.role, entry.line);
    case.say(role_name(role));
    if line != 0 && line != case.line {
        let line = case.digits(u64::from(line));
        case.tell(b" (line $)", line.as_slice(), b"");
    }
    let is_new = match case.site.part {
        Part::Header => matches!(role, Role::ClassVariable),
        Part::Statement(Stmt::For { .. }) => true,
        _ => false,
    };
    if is_new {
        case.note(b"give the new one another name");
    } else {
        let form = b"=$ in a pattern compares with it; a new variable needs another name";
        case.note_of(form, name, b"");
    }
}
