//! Rules of types in patterns and generators, and messages that are sent.
use crate::case::Case;
use crate::parts::{blame_source, blame_word, place_of, place_of_pattern};
use crate::queries::tell_term;
use crate::scope::Role;
use crate::shown::put_types;
use crate::told::{put_place, tell_form, tell_no, tell_other};
use crate::typing::{element, enter_gen};
use crate::values::tell_misfit;
use da_bodies::Place;
use da_lang::{Expr, GenTree, MessageDecl, PatternTree, PeerTree, SourceTree, Ty};
use da_typing::same_type;
use text_hints::{Nearest, Phrase};

const WRITTEN: &[u8] =
    b"a message is a tuple that begins with its tag as a text, as in ('ping', 5)";

/// Tells the first breach of generators, and answers whether there is one. Their names come into scope.
pub fn tell_gens<'t>(gens: &'t [GenTree], case: &mut Case<'t>) -> bool {
    for generator in gens {
        let told = match &generator.source {
            SourceTree::Name(name) => tell_slot(generator, name.as_slice(), case),
            source => {
                tell_message_pattern(&generator.message, case)
                    || tell_peer(
                        &generator.peer,
                        matches!(source, SourceTree::Received),
                        case,
                    )
            }
        };
        if told {
            return true;
        }
        enter_gen(generator, Role::QueryVariable, &mut case.scope);
    }
    false
}

// A generator through a variable.
fn tell_slot<'t>(generator: &'t GenTree, name: &'t [u8], case: &mut Case<'t>) -> bool {
    let Some(found) = case.scope.type_of(name) else {
        return false;
    };
    let Ty::Set(element) = &found else {
        let shown = case.shown(&found);
        let form = b"@ is $, and a query goes through a set";
        case.tell(form, name, shown.as_slice());
        blame_source(name, case);
        return true;
    };
    if generator.peer.is_none() {
        return tell_pattern(&generator.message, element.get(), case);
    }
    let form = b"'from' and 'to' stand with received and sent alone, and @ is a set";
    case.tell(form, name, b"");
    let word = match &generator.peer {
        Some(PeerTree::To(_)) => b"to".as_slice(),
        _ => b"from",
    };
    blame_word(word, case);
    true
}

// The pattern after `from` or `to`.
fn tell_peer<'t>(peer: &'t Option<PeerTree>, received: bool, case: &mut Case<'t>) -> bool {
    match peer {
        None => return false,
        Some(PeerTree::From(pattern)) => {
            if received {
                return tell_pattern(pattern, &Ty::Proc, case);
            }
            case.say(b"'from' stands with received: for sent, write to");
            blame_word(b"from", case);
        }
        Some(PeerTree::To(pattern)) => {
            if !received {
                return tell_pattern(pattern, &Ty::Proc, case);
            }
            case.say(b"'to' stands with sent: for received, write from");
            blame_word(b"to", case);
        }
    }
    true
}

/// Tells the first breach of a message pattern.
pub fn tell_message_pattern<'t>(pattern: &'t PatternTree, case: &mut Case<'t>) -> bool {
    let PatternTree::Tuple(parts) = pattern else {
        return tell_no_message(pattern, b" is no pattern of a message", case);
    };
    let [PatternTree::Text(tag), rest @ ..] = parts.as_slice() else {
        return tell_no_message(pattern, b" does not begin with the tag of a message", case);
    };
    let Some(message) = case.scope.message(tag.as_bytes(), Some(rest.len())) else {
        tell_undeclared(tag.as_bytes(), rest.len(), case);
        note_sender_part(tag.as_bytes(), rest, case);
        return true;
    };
    if tell_parts(rest, message.parts.as_slice(), case) {
        note_message(message, case);
        return true;
    }
    false
}

// That a handler which names no sender has one part too many: the sender may be meant.
fn note_sender_part(tag: &[u8], rest: &[PatternTree], case: &mut Case<'_>) {
    let Some(body) = case.site.body else {
        return;
    };
    let Place::Handler { from, .. } = body.place else {
        return;
    };
    let is_more = match case.scope.message(tag, None) {
        Some(message) => message.parts.len().saturating_add(1) == rest.len(),
        None => false,
    };
    if is_more && from.is_none() {
        case.note(b"the sender is no part of a message: it stands behind from");
    }
}

fn tell_no_message(pattern: &PatternTree, why: &[u8], case: &mut Case<'_>) -> bool {
    put_pattern_part(pattern, case);
    case.say(why);
    match pattern {
        PatternTree::Text(tag) => note_bare(tag.as_bytes(), case),
        _ => case.note(WRITTEN),
    }
    true
}

// How a message is written of which the tag alone stands there.
fn note_bare(tag: &[u8], case: &mut Case<'_>) {
    let parts = match case.scope.message(tag, None) {
        Some(message) => message.parts.len(),
        None => 0,
    };
    if parts == 0 {
        let form = b"a message without parts is a tuple too, with a comma: ('$',)";
        case.note_of(form, tag, b"");
    } else {
        case.note(WRITTEN);
    }
}

// Adds a pattern to the sentence, and blames it.
fn put_pattern_part(pattern: &PatternTree, case: &mut Case<'_>) {
    let place = place_of_pattern(pattern, case);
    put_place(place, case);
}

// How a message is declared.
fn note_message(message: &MessageDecl, case: &mut Case<'_>) {
    let line = case.digits(u64::from(message.line));
    let form = b"line $ declares the message $(";
    case.hint
        .notes
        .fill(form, line.as_slice(), message.tag.as_slice());
    put_types(message.parts.as_slice(), &mut case.hint.notes);
    case.note(b")");
}

// No message of this tag with so many parts is declared.
fn tell_undeclared(tag: &[u8], count: usize, case: &mut Case<'_>) -> bool {
    case.tell(b"no message $", tag, b"");
    match case.scope.message(tag, None) {
        Some(message) => {
            let parts = case.digits(message.parts.len() as u64);
            case.say(b" with ");
            case.hint.sentence.count(count, b"part", b"parts");
            case.tell(b" is declared; $ has $", tag, parts.as_slice());
            note_message(message, case);
        }
        None => {
            case.say(b" is declared");
            note_tag(tag, case);
        }
    }
    let mut quoted = Phrase::new(case.alloc);
    quoted.enclose(tag);
    blame_word(quoted.as_slice(), case);
    true
}

// The declaration that is missing, or the tag that is meant.
fn note_tag(tag: &[u8], case: &mut Case<'_>) {
    let tree = case.tree;
    let mut nearest = Nearest::new(case.alloc, tag);
    for message in tree.messages.as_slice() {
        nearest.offer(message.tag.as_slice());
    }
    case.note_meant(nearest.found());
    case.note_of(
        b"messages are declared outside of classes, with the types of their parts: message $(int)",
        tag,
        b"",
    );
}

/// Tells the first breach of a pattern over a type.
#[cycle(patterns)]
pub fn tell_pattern<'t>(pattern: &'t PatternTree, ty: &Ty, case: &mut Case<'t>) -> bool {
    let (fits, own) = match pattern {
        PatternTree::Tuple(parts) => match ty {
            Ty::Tuple(types) if types.len() == parts.len() => {
                return tell_parts(parts.as_slice(), types.as_slice(), case);
            }
            _ => (false, b"a tuple".as_slice()),
        },
        PatternTree::Equal(x) => return tell_equal(x.get(), ty, case),
        PatternTree::Int(_) => (matches!(ty, Ty::Int), b"int".as_slice()),
        PatternTree::Text(_) => (matches!(ty, Ty::Text), b"str".as_slice()),
        PatternTree::Truth(_) => (matches!(ty, Ty::Bool), b"bool".as_slice()),
        PatternTree::Me => (matches!(ty, Ty::Proc), b"proc".as_slice()),
        _ => (true, b"".as_slice()),
    };
    if fits {
        return false;
    }
    put_pattern_part(pattern, case);
    let shown = case.shown(ty);
    case.tell(b" is $, and $ stands there", own, shown.as_slice());
    true
}

#[cycle(patterns)]
fn tell_parts<'t>(parts: &'t [PatternTree], types: &[Ty], case: &mut Case<'t>) -> bool {
    for (place, part) in parts.iter().enumerate() {
        if let Some(ty) = types.get(place) {
            if tell_pattern(part, ty, case) {
                return true;
            }
        }
    }
    false
}

// `=e`
fn tell_equal<'t>(x: &'t Expr, ty: &Ty, case: &mut Case<'t>) -> bool {
    if tell_term(x, case) {
        return true;
    }
    match case.type_of(x) {
        Some(found) if !same_type(&found, ty) => tell_other(x, ty, case),
        _ => false,
    }
}

/// Tells the first breach of a message that is sent.
pub fn tell_sent<'t>(x: &'t Expr, case: &mut Case<'t>) -> bool {
    let why = b" is sent, and is no message that is written out";
    let Expr::Tuple(parts) = x else {
        return tell_no_tuple(x, why, case);
    };
    let [Expr::Text(tag), rest @ ..] = parts.as_slice() else {
        return tell_form(x, why, WRITTEN, case);
    };
    let Some(message) = case.scope.message(tag.as_bytes(), Some(rest.len())) else {
        return tell_undeclared(tag.as_bytes(), rest.len(), case);
    };
    for (place, part) in rest.iter().enumerate() {
        if let Some(ty) = message.parts.get(place) {
            if tell_misfit(part, ty, case) {
                note_message(message, case);
                return true;
            }
        }
    }
    false
}

// Something else in the place of a message that is sent.
fn tell_no_tuple(x: &Expr, why: &[u8], case: &mut Case<'_>) -> bool {
    match x {
        Expr::Text(tag) => {
            let place = place_of(x, case);
            put_place(place, case);
            case.say(why);
            note_bare(tag.as_bytes(), case);
            true
        }
        _ => tell_form(x, why, WRITTEN, case),
    }
}

/// Tells that a message is sent to what is neither a process nor a set of them.
pub fn tell_recipient<'t>(x: &'t Expr, case: &mut Case<'t>) -> bool {
    let found = case.type_of(x);
    if matches!(found, Some(Ty::Proc)) || matches!(element(found), Some(Ty::Proc)) {
        return false;
    }
    tell_no(
        x,
        b"a process (proc) or a set of processes (set[proc]) behind 'to'",
        case,
    )
}
