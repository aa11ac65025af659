//! Kinds of refusals, and what a person can be told of each.
use crate::top::Why;
use da_front::RefusedKind;
use da_lang::{LimitKind, ScopeKind};
use da_values::LexKind;

/// Why a program is refused, where more can be said of it than its kind says.
pub fn why_of(kind: RefusedKind) -> Option<Why> {
    if let Some(why) = why_of_tokens(kind) {
        return Some(why);
    }
    if let Some(which) = limit_of(kind) {
        return Some(Why::Limit(which));
    }
    if let Some(name) = name_of(kind) {
        return Some(Why::Name(name));
    }
    match kind {
        RefusedKind::Types => Some(Why::Types),
        RefusedKind::Nodes => Some(Why::Nodes),
        RefusedKind::Infer => Some(Why::NoTypes),
        _ => None,
    }
}

fn why_of_tokens(kind: RefusedKind) -> Option<Why> {
    match kind {
        RefusedKind::Byte => Some(Why::Token(LexKind::BadByte)),
        RefusedKind::Indent => Some(Why::Token(LexKind::BadIndent)),
        RefusedKind::Token => Some(Why::Token(LexKind::BadToken)),
        RefusedKind::Unclosed => Some(Why::Token(LexKind::Unclosed)),
        RefusedKind::Syntax | RefusedKind::Deep => Some(Why::Grammar),
        _ => None,
    }
}

fn name_of(kind: RefusedKind) -> Option<ScopeKind> {
    match kind {
        RefusedKind::Unknown => Some(ScopeKind::Unknown),
        RefusedKind::Twice => Some(ScopeKind::Twice),
        RefusedKind::Shadow => Some(ScopeKind::Shadow),
        RefusedKind::Recursive => Some(ScopeKind::Recursive),
        RefusedKind::Yield => Some(ScopeKind::Yield),
        RefusedKind::Setup => Some(ScopeKind::Setup),
        RefusedKind::NoRun => Some(ScopeKind::NoRun),
        RefusedKind::Arity => Some(ScopeKind::Arity),
        _ => None,
    }
}

fn limit_of(kind: RefusedKind) -> Option<LimitKind> {
    match kind {
        RefusedKind::Classes => Some(LimitKind::Classes),
        RefusedKind::Processes => Some(LimitKind::Processes),
        RefusedKind::Items => Some(LimitKind::Items),
        RefusedKind::Blocks => Some(LimitKind::Blocks),
        RefusedKind::Variables => Some(LimitKind::Variables),
        RefusedKind::Parts => Some(LimitKind::Parts),
        RefusedKind::Generators => Some(LimitKind::Generators),
        _ => None,
    }
}
