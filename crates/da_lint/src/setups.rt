//! Processes that `main` does not set up.
use crate::remark::{Kind, Remark};
use crate::text::Text;
use da_bodies::{Place, body_of};
use da_lang::{ClassTree, MainLine, Tree};
use da_values::List;

/// Remarks on the names of `main` that no `setup` gives values, though the `setup` of their class takes some.
pub fn tell_setups(text: Text<'_>, tree: &Tree, out: &mut List<Remark>) {
    for made in tree.main.as_slice() {
        let MainLine::New {
            name,
            class,
            line,
            ..
        } = made
        else {
            continue;
        };
        let wanted = wanted_by(tree, class.as_slice());
        if wanted != 0 && !is_set_up(tree, name.as_slice()) {
            let mut told = text.phrase();
            told.fill(
                b"main does not set up @, and setup of its class takes ",
                name.as_slice(),
                b"",
            );
            told.count(wanted, b"argument", b"arguments");
            told.fill(b": setup($, ..)", name.as_slice(), b"");
            text.remark(Kind::Unset, *line, name.as_slice(), told, out);
        }
    }
}

// How many arguments the `setup` of a class takes.
fn wanted_by(tree: &Tree, name: &[u8]) -> usize {
    for class in tree.classes.as_slice() {
        if class.name.as_slice() == name {
            return setup_count(class);
        }
    }
    0
}

fn setup_count(class: &ClassTree) -> usize {
    for member in class.members.as_slice() {
        if let Some(body) = body_of(member) {
            if matches!(body.place, Place::Setup) {
                return body.params.len();
            }
        }
    }
    0
}

// Whether a line of `main` sets up what has this name.
fn is_set_up(tree: &Tree, name: &[u8]) -> bool {
    for made in tree.main.as_slice() {
        if let MainLine::Setup { name: other, .. } = made {
            if other.as_slice() == name {
                return true;
            }
        }
    }
    false
}
