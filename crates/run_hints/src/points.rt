//! The places to wait of a class: labels and `await`s, numbered from 0 in the order of the text of `run` with calls inlined.
use da_lang::{Alt, Item, ItemKind, RBranch};

/// A place to wait: its line, how many alternatives it has, and whether it is an `await` with a block for a timeout.
#[derive(Clone, Copy)]
pub struct Point {
    pub line: u32,
    pub alternatives: u32,
    pub times_out: bool,
}

/// The place to wait of this number among the statements of a `run`, or `None` where there are not so many.
pub fn point_in(run: &[Item], number: u32) -> Option<Point> {
    let mut left = number;
    find_in_block(run, &mut left)
}

// The one that has so many others before it.
#[cycle(points)]
fn find_in_block(items: &[Item], left: &mut u32) -> Option<Point> {
    for item in items {
        if let Some(found) = find_in(item, left) {
            return Some(found);
        }
    }
    None
}

#[cycle(points)]
fn find_in(item: &Item, left: &mut u32) -> Option<Point> {
    match &item.kind {
        ItemKind::If(branches, otherwise) => match find_in_branches(branches.as_slice(), left) {
            Some(found) => Some(found),
            None => find_in_block(otherwise.as_slice(), left),
        },
        ItemKind::While(_, body) => find_in_block(body.as_slice(), left),
        ItemKind::For(_, _, body) => find_in_block(body.as_slice(), left),
        ItemKind::Call(_, body) => find_in_block(body.as_slice(), left),
        ItemKind::Await {
            alts,
            timeout,
            label: _,
        } => match pass(item.line, alts.len(), timeout.is_some(), left) {
            Some(found) => Some(found),
            None => match find_in_alternatives(alts.as_slice(), left) {
                Some(found) => Some(found),
                None => match timeout {
                    Some(body) => find_in_block(body.as_slice(), left),
                    None => None,
                },
            },
        },
        ItemKind::Label(_) => pass(item.line, 0, false, left),
        _ => None,
    }
}

#[cycle(points)]
fn find_in_branches(branches: &[RBranch], left: &mut u32) -> Option<Point> {
    for branch in branches {
        if let Some(found) = find_in_block(branch.body.as_slice(), left) {
            return Some(found);
        }
    }
    None
}

#[cycle(points)]
fn find_in_alternatives(alternatives: &[Alt], left: &mut u32) -> Option<Point> {
    for alternative in alternatives {
        if let Some(found) = find_in_block(alternative.body.as_slice(), left) {
            return Some(found);
        }
    }
    None
}

// A place to wait, where none is left before the one that is looked for.
fn pass(line: u32, alternatives: usize, times_out: bool, left: &mut u32) -> Option<Point> {
    match left.checked_sub(1) {
        None => Some(Point {
            line,
            alternatives: u32::try_from(alternatives).unwrap_or(u32::MAX),
            times_out,
        }),
        Some(rest) => {
            *left = rest;
            None
        }
    }
}
