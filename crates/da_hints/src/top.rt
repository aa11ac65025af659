//! The hint on a refusal.
use crate::case::Case;
use crate::limits::{tell_limit, tell_nodes};
use crate::names::tell_unknown;
use crate::parts::tokens_of;
use crate::repeats::{tell_shadow, tell_twice};
use crate::rules::{tell_arity, tell_norun, tell_recursive, tell_setup, tell_yield};
use crate::types::tell_types;
use crate::undeclared::{loose_of, tell_no_types, with_int};
use da_lang::{LimitKind, ScopeKind, Tree};
use da_parse::parse;
use da_values::LexKind;
use std::alloc::Global;
use text_hints::{Hint, tell_grammar, tell_loose_grammar, tell_tokens};

/// Why a program is refused.
#[derive(Clone, Copy)]
pub enum Why {
    /// A text has no tokens.
    Token(LexKind),
    /// The tokens begin no program, or too much is open.
    Grammar,
    /// A rule of names is broken.
    Name(ScopeKind),
    /// A limit is exceeded.
    Limit(LimitKind),
    /// The plan of a class has too many nodes.
    Nodes,
    /// A rule of types is broken.
    Types,
    /// No types keep the rules up to a line, for what is not declared.
    NoTypes,
}

/// What a person is told of a text that is refused so at this line.
pub fn explain(alloc: Global, text: &[u8], why: Why, line: u32) -> Hint {
    let mut hint = Hint::new(alloc);
    match why {
        Why::Token(kind) => tell_tokens(alloc, text, kind, line, &mut hint),
        Why::Grammar => tell_grammar(alloc, text, &mut hint),
        Why::NoTypes => {}
        _ => {
            if let Some(tokens) = tokens_of(alloc, text) {
                if let Ok(tree) = parse(alloc, &tokens) {
                    let asked = Asked {
                        why,
                        line,
                        used: false,
                    };
                    return hint_on(alloc, text, &tree, asked);
                }
            }
        }
    }
    hint
}

/// The same of a text that may lack declarations.
pub fn explain_loosely(alloc: Global, text: &[u8], why: Why, line: u32) -> Hint {
    let mut hint = Hint::new(alloc);
    match why {
        Why::Token(kind) => tell_tokens(alloc, text, kind, line, &mut hint),
        Why::Grammar => tell_loose_grammar(alloc, text, &mut hint),
        Why::Name(_) | Why::Limit(_) => {
            if let Some(loose) = loose_of(alloc, text) {
                if let Ok(tree) = with_int(alloc, &loose) {
                    // a variable or a message that is added has the line of the first statement with it
                    let used = match why {
                        Why::Name(kind) => !matches!(kind, ScopeKind::Twice | ScopeKind::NoRun),
                        _ => false,
                    };
                    return hint_on(alloc, text, &tree, Asked { why, line, used });
                }
            }
        }
        Why::NoTypes => tell_no_types(alloc, text, line, &mut hint),
        Why::Nodes | Why::Types => {}
    }
    hint
}

// Why a program is refused, at which line, and whether only what is used there counts.
#[derive(Clone, Copy)]
struct Asked {
    why: Why,
    line: u32,
    used: bool,
}

// Tells why a program is refused.
fn hint_on(alloc: Global, text: &[u8], tree: &Tree, asked: Asked) -> Hint {
    let Some(mut case) = Case::new(alloc, text, tree, asked.line, asked.used) else {
        return Hint::new(alloc);
    };
    match asked.why {
        Why::Name(kind) => tell_names(kind, &mut case),
        Why::Limit(which) => tell_limit(which, &mut case),
        Why::Nodes => tell_nodes(&mut case),
        Why::Types => {
            tell_types(&mut case);
        }
        Why::Token(_) | Why::Grammar | Why::NoTypes => {}
    }
    let Case { hint, .. } = case;
    hint
}

fn tell_names(kind: ScopeKind, case: &mut Case<'_>) {
    match kind {
        ScopeKind::Unknown => tell_unknown(case),
        ScopeKind::Twice => tell_twice(case),
        ScopeKind::Shadow => tell_shadow(case),
        ScopeKind::Recursive => tell_recursive(case),
        ScopeKind::Yield => tell_yield(case),
        ScopeKind::Setup => tell_setup(case),
        ScopeKind::NoRun => tell_norun(case),
        ScopeKind::Arity => tell_arity(case),
    }
}
