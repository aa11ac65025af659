//! Programs that may lack declarations, with those that `infer` finds.

use crate::declaring::has_variable;
use crate::uses::tree_of;
use da_front::read_typed;
use da_hints::{Case, Role, loose_of, put_type};
use da_infer::infer;
use da_lang::Tree;
use da_parse::LooseTree;
use name_places::{Kind, Named, enter_own, type_text};
use std::alloc::Global;
use text_hints::Phrase;

/// A program as it is written, and with the declarations that it lacks, where it lacks some and `infer` finds them. `whole` says that
/// all parameters are written with their types.
#[derive(Drop)]
pub struct Draft {
    pub tree: Tree,
    whole: bool,
    filled: Option<Tree>,
}

/// The program of a text. It is `None` where the grammar allows none, not even with parameters that lack their types.
pub fn draft_of(alloc: Global, text: &[u8]) -> Option<Draft> {
    match tree_of(alloc, text) {
        Some(tree) => Some(Draft {
            tree,
            whole: true,
            filled: filled_of(alloc, text),
        }),
        None => loose_draft(alloc, text),
    }
}

// The program with the declarations that it lacks. It is `None` where its types are right without more.
fn filled_of(alloc: Global, text: &[u8]) -> Option<Tree> {
    if read_typed(alloc, text).is_ok() {
        return None;
    }
    let Some(loose) = loose_of(alloc, text) else {
        return None;
    };
    infer(alloc, &loose).ok()
}

// The program of a text in which parameters may lack their types.
fn loose_draft(alloc: Global, text: &[u8]) -> Option<Draft> {
    let Some(loose) = loose_of(alloc, text) else {
        return None;
    };
    let filled = infer(alloc, &loose).ok();
    let LooseTree { tree, .. } = loose;
    Some(Draft {
        tree,
        whole: false,
        filled,
    })
}

impl Draft {
    /// The program with all declarations that are known.
    pub fn all(&self) -> &Tree {
        match &self.filled {
            Some(tree) => tree,
            None => &self.tree,
        }
    }

    /// The type of a variable, as a person writes it, where it is known.
    pub fn type_of(&self, alloc: Global, text: &[u8], name: &Named<'_>) -> Option<Phrase> {
        if let Some(tree) = &self.filled {
            let shown = type_used(alloc, text, tree, name);
            if shown.is_some() {
                return shown;
            }
        }
        if self.whole {
            type_text(alloc, text, &self.tree, name)
        } else {
            None
        }
    }

    /// Whether what a name names is not declared in the text, and `infer` finds a declaration.
    pub fn lacks(&self, name: &Named<'_>) -> bool {
        match name.kind {
            Kind::Tag => !has_tag(&self.tree, name.name) && has_tag(self.all(), name.name),
            Kind::Variable(role) => {
                role == Role::QueryVariable
                    && !has_member(&self.tree, name)
                    && has_member(self.all(), name)
            }
            _ => false,
        }
    }

    /// Whether a variable is not in scope where it stands, nor one of a query there.
    pub fn is_strange(&self, alloc: Global, text: &[u8], name: &Named<'_>) -> bool {
        match name.kind {
            Kind::Variable(role) => {
                role == Role::QueryVariable && !is_in_scope(alloc, text, &self.tree, name)
            }
            _ => false,
        }
    }
}

// Whether a name is in scope where it stands; what nothing is known of counts as well.
fn is_in_scope(alloc: Global, text: &[u8], tree: &Tree, name: &Named<'_>) -> bool {
    let Some(mut case) = Case::new(alloc, text, tree, name.row, false) else {
        return true;
    };
    enter_own(&mut case);
    case.scope.look(name.name).is_some()
}

fn has_tag(tree: &Tree, tag: &[u8]) -> bool {
    tree.messages
        .as_slice()
        .iter()
        .any(|message| message.tag.as_slice() == tag)
}

// Whether a name is that of a variable of its class.
fn has_member(tree: &Tree, name: &Named<'_>) -> bool {
    match tree.classes.get(name.class) {
        Some(class) => has_variable(class, name.name),
        None => false,
    }
}

// The type of a variable where it is used. Declarations that were added are on no line of the text.
fn type_used(alloc: Global, text: &[u8], tree: &Tree, name: &Named<'_>) -> Option<Phrase> {
    let mut case = Case::new(alloc, text, tree, name.row, true)?;
    enter_own(&mut case);
    let ty = case.scope.type_of(name.name)?;
    let mut shown = Phrase::new(alloc);
    put_type(&ty, &mut shown);
    Some(shown)
}
