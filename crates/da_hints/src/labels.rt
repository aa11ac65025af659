//! The labels of a class, and those after the `at` of its handlers.
use crate::case::Case;
use crate::parts::blame_word;
use crate::rows::rows_of;
use crate::site::{Part, Site};
use da_bodies::{Place, body_of};
use da_lang::{ClassTree, Member, Name, Stmt};
use da_values::List;
use std::alloc::Global;
use text_hints::Nearest;

/// A label, and its line.
#[derive(Clone, Copy)]
pub struct Label<'t> {
    pub name: &'t [u8],
    pub line: u32,
}

/// The labels of a class, in the order of the text.
pub fn labels_of<'t>(alloc: Global, class: &'t ClassTree) -> List<Label<'t>> {
    let mut labels = List::new(alloc);
    for member in class.members.as_slice() {
        if let Some(body) = body_of(member) {
            for row in rows_of(alloc, body.stmts).as_slice() {
                if let Part::Statement(Stmt::Label { name, line }) = row.part {
                    put_label(name.as_slice(), *line, &mut labels);
                }
            }
        }
    }
    labels
}

/// Adds a label.
pub fn put_label<'t>(name: &'t [u8], line: u32, out: &mut List<Label<'t>>) {
    let _ = out.push(Label { name, line });
}

/// The line of the first label of a name.
pub fn line_of_label(labels: &[Label<'_>], name: &[u8]) -> Option<u32> {
    Some(labels.iter().find(|label| label.name == name)?.line)
}

/// Tells that a handler names a label which its class does not have.
pub fn tell_no_label(case: &mut Case<'_>) {
    let Some(class) = case.site.class else {
        return;
    };
    let labels = labels_of(case.alloc, class);
    for name in named_at(case.site) {
        let name = name.as_slice();
        if line_of_label(labels.as_slice(), name).is_none() {
            let form = b"the class @ has no label @";
            case.tell(form, class.name.as_slice(), name);
            blame_word(name, case);
            if is_method(name, class) {
                case.note(
                    b"it is a method, and behind at stand labels: -- name, on a line of its own",
                );
            } else {
                note_label(labels.as_slice(), name, case);
            }
            return;
        }
    }
}

// Whether a class has a method of this name.
fn is_method(name: &[u8], class: &ClassTree) -> bool {
    for member in class.members.as_slice() {
        if let Member::Method { name: other, .. } = member {
            if other.as_slice() == name {
                return true;
            }
        }
    }
    false
}

fn note_label(labels: &[Label<'_>], name: &[u8], case: &mut Case<'_>) {
    let mut nearest = Nearest::new(case.alloc, name);
    for label in labels {
        nearest.offer(label.name);
    }
    case.note_meant(nearest.found());
    if nearest.found().is_none() {
        case.note(b"a label is a line of its own: -- name");
    }
}

/// Tells that a handler names a label twice after `at`, and answers whether one does.
pub fn tell_label_again(case: &mut Case<'_>) -> bool {
    let mut rest = named_at(case.site);
    for _name in 0..rest.len() {
        let [first, others @ ..] = rest else {
            return false;
        };
        if others.contains(first) {
            case.tell(
                b"the label @ stands twice behind 'at'",
                first.as_slice(),
                b"",
            );
            blame_word(first.as_slice(), case);
            return true;
        }
        rest = others;
    }
    false
}

// The labels after the `at` of a handler whose header this is.
fn named_at<'t>(site: Site<'t>) -> &'t [Name] {
    match (site.part, site.body) {
        (Part::Header, Some(body)) => match body.place {
            Place::Handler { at, .. } => at,
            _ => &[],
        },
        _ => &[],
    }
}
