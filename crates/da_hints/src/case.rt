//! A program that is refused, and what is told of it.
use crate::parts::{is_passed, tokens_at};
use crate::scope::Scope;
use crate::shown::put_type;
use crate::site::{Site, put_site, site_of};
use crate::typing::type_of;
use crate::walk::{Step, Walk};
use da_lang::{Expr, Tree, Ty};
use da_lex::Token;
use da_values::List;
use std::alloc::Global;
use text_hints::{Hint, Phrase};

/// A text and its program, the line to blame with what stands there, the names in scope, the tokens with bytes and the places of all
/// parts, and what is told of it.
#[derive(Drop)]
pub struct Case<'t> {
    pub alloc: Global,
    pub text: &'t [u8],
    pub tree: &'t Tree,
    pub line: u32,
    pub site: Site<'t>,
    pub scope: Scope<'t>,
    pub tokens: List<Token>,
    pub steps: List<Step<'t>>,
    pub hint: Hint,
}

impl<'t> Case<'t> {
    /// Nothing is told yet. It is `None` where nothing is known to stand on the line, or where only what is used counts.
    pub fn new(
        alloc: Global,
        text: &'t [u8],
        tree: &'t Tree,
        line: u32,
        used: bool,
    ) -> Option<Case<'t>> {
        let mut scope = Scope::new(alloc, tree.messages.as_slice());
        let site = site_of(tree, line, used, &mut scope)?;
        scope.stand_at(line, 0);
        let tokens = tokens_at(alloc, text, line);
        let steps = steps_of(alloc, text, tokens.as_slice(), site);
        let hint = Hint::new(alloc);
        Some(Case {
            alloc,
            text,
            tree,
            line,
            site,
            scope,
            tokens,
            steps,
            hint,
        })
    }

    /// Adds to the sentence.
    pub fn say(&mut self, bytes: &[u8]) {
        self.hint.say(bytes);
    }

    /// Adds a form with one part or two to the sentence.
    pub fn tell(&mut self, form: &[u8], first: &[u8], second: &[u8]) {
        self.hint.sentence.fill(form, first, second);
    }

    /// Adds a line that helps.
    pub fn note(&mut self, bytes: &[u8]) {
        self.hint.note(bytes);
    }

    /// Adds a line that helps: a form with one part or two.
    pub fn note_of(&mut self, form: &[u8], first: &[u8], second: &[u8]) {
        self.hint.notes.fill(form, first, second);
        self.hint.note(b"");
    }

    /// Asks whether a name is meant, where there is one.
    pub fn note_meant(&mut self, found: Option<&[u8]>) {
        if let Some(found) = found {
            self.note_of(b"is @ meant?", found, b"");
        }
    }

    /// The digits of a number.
    pub fn digits(&self, number: u64) -> Phrase {
        let mut digits = Phrase::new(self.alloc);
        digits.number(number);
        digits
    }

    /// A type as a person writes it.
    pub fn shown(&self, ty: &Ty) -> Phrase {
        let mut shown = Phrase::new(self.alloc);
        put_type(ty, &mut shown);
        shown
    }

    /// The type that an expression has by its form, where it is known.
    pub fn type_of(&mut self, x: &'t Expr) -> Option<Ty> {
        type_of(x, &mut self.scope)
    }
}

// The steps through what stands on the line of some tokens.
fn steps_of<'t>(alloc: Global, text: &'t [u8], own: &[Token], site: Site<'t>) -> List<Step<'t>> {
    let mut tokens = List::new(alloc);
    for token in own {
        if !is_passed(text, token) {
            let _ = tokens.push(*token);
        }
    }
    let mut walk = Walk {
        alloc,
        text,
        tokens,
        passed: 0,
        steps: List::new(alloc),
    };
    put_site(site, &mut walk);
    let Walk { steps, .. } = walk;
    steps
}
