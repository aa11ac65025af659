//! The things that a program is made of, one within the other.

use crate::names::line_of_member;
use da_hints::line_of_main;
use da_lang::{ClassTree, Member, Tree};
use da_values::List;
use std::alloc::Global;

/// A thing in an outline: its name, its kind by the numbers of the protocol, its first line and the one after its last, and how
/// deep it lies.
#[derive(Clone, Copy)]
pub struct Outline<'t> {
    pub name: &'t [u8],
    pub kind: usize,
    pub line: u32,
    pub end: u32,
    pub depth: usize,
}

/// The kinds of symbols of the protocol.
const CLASS: usize = 5;

const METHOD: usize = 6;

const FIELD: usize = 8;

const CONSTRUCTOR: usize = 9;

const EVENT: usize = 24;

const STRUCT: usize = 23;

/// The messages, the classes and their members, in the order of the text but for messages, which come first. A thing ends where
/// the next one begins.
pub fn outline_of<'t>(alloc: Global, tree: &'t Tree, lines: u32) -> List<Outline<'t>> {
    let mut out = List::new(alloc);
    for message in tree.messages.as_slice() {
        let line = message.line;
        put(
            message.tag.as_slice(),
            STRUCT,
            line,
            line.saturating_add(1),
            0,
            &mut out,
        );
    }
    let main = main_line(tree, lines);
    for (place, class) in tree.classes.as_slice().iter().enumerate() {
        let end = match tree.classes.get(place.saturating_add(1)) {
            Some(next) => next.line,
            None => main,
        };
        put_class(class, end, &mut out);
    }
    out
}

// The line before the first line of `main`, which is its header where nothing stands between.
fn main_line(tree: &Tree, lines: u32) -> u32 {
    match tree.main.as_slice().first() {
        Some(made) => line_of_main(made).saturating_sub(1),
        None => lines,
    }
}

fn put_class<'t>(class: &'t ClassTree, end: u32, out: &mut List<Outline<'t>>) {
    put(class.name.as_slice(), CLASS, class.line, end, 0, out);
    for (place, member) in class.members.as_slice().iter().enumerate() {
        let end = match class.members.get(place.saturating_add(1)) {
            Some(next) => line_of_member(next),
            None => end,
        };
        let (name, kind) = named_member(member);
        put(name, kind, line_of_member(member), end, 1, out);
    }
}

// The name and the kind of a member.
fn named_member(member: &Member) -> (&[u8], usize) {
    match member {
        Member::Var { name, .. } => (name.as_slice(), FIELD),
        Member::Setup { .. } => (b"setup".as_slice(), CONSTRUCTOR),
        Member::Run { .. } => (b"run".as_slice(), METHOD),
        Member::Method { name, .. } => (name.as_slice(), METHOD),
        Member::Receive { .. } => (b"receive".as_slice(), EVENT),
    }
}

fn put<'t>(
    name: &'t [u8],
    kind: usize,
    line: u32,
    end: u32,
    depth: usize,
    out: &mut List<Outline<'t>>,
) {
    let _ = out.push(Outline {
        name,
        kind,
        line,
        end,
        depth,
    });
}
