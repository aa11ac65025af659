//! What a person is told of a program that may lack declarations: which uses on two lines do not fit.
ghost use Rattle.da_infer.specs.Fills.{IsLoose};
ghost use Rattle.std.specs.Prelude.{IfSome};

use crate::case::Case;
use crate::parts::tokens_of;
use crate::scope::{Role, Scope};
use crate::types::tell_types;
use added_names::{OpenPlace, declared};
use da_infer::{clashing_line, declared_upto};
use da_lang::Tree;
use da_parse::{LooseTree, parse_loose};
use da_values::{List, NoMemory};
use std::alloc::Global;
use text_hints::{Hint, line_of, slice_at};

/// The names whose types are told at most.
const MOST_NAMES: usize = 3;

/// What a text spells by the grammar in which parameters may lack their types, or `None` where it spells nothing.
#[tactic(auto, using(crate::proofs::LooseTexts::is_loose))]
pub fn loose_of(alloc: Global, text: &[u8]) -> Option<LooseTree>
    ensures loose { IfSome result IsLoose }
{
    let tokens = tokens_of(alloc, text)?;
    match parse_loose(alloc, &tokens) {
        Ok(loose) => Some(loose),
        Err(_) => None,
    }
}

/// The program with `int` for all that has no type.
pub fn with_int(alloc: Global, loose: &LooseTree) -> Result<Tree, NoMemory> {
    let mut places = List::new(alloc);
    for one in loose.untyped.as_slice() {
        places.push(OpenPlace {
            class: one.class,
            member: one.member,
            param: one.param,
        })?;
    }
    declared(alloc, &loose.tree, places.as_slice(), &[])
}

/// Tells why no types keep the rules up to this line: what is wrong with types that keep them on all lines before, which line
/// before does not fit with this one, and what these types are.
pub fn tell_no_types(alloc: Global, text: &[u8], line: u32, hint: &mut Hint) {
    let Some(loose) = loose_of(alloc, text) else {
        return;
    };
    if let Ok(Some(other)) = clashing_line(alloc, &loose, line) {
        note_other_line(text, line, other, hint);
    }
    if let Ok(Some(tree)) = declared_upto(alloc, &loose, line.saturating_sub(1)) {
        if let Some(mut case) = Case::new(alloc, text, &tree, line, true) {
            if tell_types(&mut case) {
                hint.say(b"no types fit: with those that the lines before ask for, ");
                hint.say(case.hint.sentence.as_slice());
                hint.blame(case.hint.first, case.hint.length);
            }
            note_types(&case, hint);
        }
    }
}

// Which line does not fit with this one.
fn note_other_line(text: &[u8], line: u32, other: u32, hint: &mut Hint) {
    if other == line {
        hint.note(b"no types fit this line alone");
        return;
    }
    hint.notes.put(b"no types fit both this line and line ");
    hint.notes.number(u64::from(other));
    if let Some(found) = line_of(text, other) {
        hint.notes.put(b": ");
        hint.notes.put(found.bytes.trim_ascii_start());
    }
    hint.note(b"");
}

// The types of the variables and parameters that stand on the line, as far as the lines before ask for them.
fn note_types(case: &Case<'_>, hint: &mut Hint) {
    let Some(tokens) = tokens_of(case.alloc, case.text) else {
        return;
    };
    let mut names = List::new(case.alloc);
    for token in tokens.list.as_slice() {
        let name = slice_at(case.text, token);
        if token.line == case.line
            && names.len() < MOST_NAMES
            && is_declared(name, &case.scope)
            && !names.as_slice().contains(&name)
        {
            let _ = names.push(name);
        }
    }
    for name in names.as_slice() {
        if let Some(ty) = case.scope.type_of(name) {
            let shown = case.shown(&ty);
            hint.notes
                .fill(b"before this line @ is $", name, shown.as_slice());
            hint.note(b"");
        }
    }
}

// Whether a name is that of a variable of the class or of a parameter.
fn is_declared(name: &[u8], scope: &Scope<'_>) -> bool {
    match scope.look(name) {
        Some(entry) => matches!(entry.role, Role::ClassVariable | Role::Parameter),
        None => false,
    }
}
