//! Queries in a text: those that stand in no other one, and so have numbers.

use da_hints::{Case, Part, Step, is_passed};
use da_lang::{Expr, Tree};
use da_lex::Token;
use da_values::List;
use std::alloc::Global;
use text_hints::slice_at;

/// A query: the class that it stands in, counted from 0, the line at which its statement or condition begins, how many queries stand
/// before it there, and where its bytes begin and end.
#[derive(Clone, Copy)]
pub struct QueryPlace {
    pub class: usize,
    pub line: u32,
    pub before: u32,
    pub first: usize,
    pub end: usize,
}

/// The query around a place of a program that has these tokens.
pub fn query_at(
    alloc: Global,
    text: &[u8],
    tree: &Tree,
    tokens: &[Token],
    place: usize,
) -> Option<QueryPlace> {
    let line = line_around(tokens, place)?;
    let case = Case::new(alloc, text, tree, line, false)?;
    query_in(&case, place)
}

// The line on which the line of tokens around a place begins.
fn line_around(tokens: &[Token], place: usize) -> Option<u32> {
    let mut fresh = true;
    let mut line = None;
    for token in tokens {
        if token.length == 0 {
            fresh = true;
        } else if token.first as usize > place {
            return line;
        } else if fresh {
            line = Some(token.line);
            fresh = false;
        }
    }
    line
}

// The query around a place of a line. Those in the patterns of a handler have no numbers.
fn query_in(case: &Case<'_>, place: usize) -> Option<QueryPlace> {
    let site = case.site;
    if matches!(site.part, Part::Header) {
        return None;
    }
    let header = site.class?.line;
    let class = class_at(case.tree, header)?;
    let own = numbered_tokens(case);
    let mut before = 0u32;
    for step in case.steps.as_slice() {
        if let Step::Whole(x, queries, span) = *step {
            if queries == 0 && is_query(x) {
                let first = begin_of(own.as_slice(), span.first);
                let end = end_of(own.as_slice(), span.end);
                if first <= place && place <= end {
                    return Some(QueryPlace {
                        class,
                        line: case.line,
                        before,
                        first,
                        end: closed_end(case, first, end),
                    });
                }
                before = before.saturating_add(1);
            }
        }
    }
    None
}

// The place of the class with its header on a line, counted from 0.
fn class_at(tree: &Tree, line: u32) -> Option<usize> {
    tree.classes
        .as_slice()
        .iter()
        .position(|class| class.line == line)
}

fn is_query(x: &Expr) -> bool {
    match x {
        Expr::Quant { .. } | Expr::Comp { .. } => true,
        Expr::Count(_) | Expr::Sum(_) => true,
        Expr::Min(_, _) | Expr::Max(_, _) => true,
        _ => false,
    }
}

// The tokens of a line that the spans of its parts count.
fn numbered_tokens(case: &Case<'_>) -> List<Token> {
    let mut own = List::new(case.alloc);
    for token in case.tokens.as_slice() {
        if !is_passed(case.text, token) {
            let _ = own.push(*token);
        }
    }
    own
}

// Where the token of a number begins, or a place that no text has.
fn begin_of(tokens: &[Token], number: usize) -> usize {
    match tokens.get(number) {
        Some(token) => token.first as usize,
        None => usize::MAX,
    }
}

// Where the token before the one of a number ends.
fn end_of(tokens: &[Token], number: usize) -> usize {
    match tokens.get(number.saturating_sub(1)) {
        Some(token) => behind(token),
        None => 0,
    }
}

fn behind(token: &Token) -> usize {
    (token.first as usize).saturating_add(token.length as usize)
}

// The end of what stands between two places, with the parentheses that close those which are open in it.
fn closed_end(case: &Case<'_>, first: usize, end: usize) -> usize {
    let mut open = 0usize;
    let mut last = end;
    for token in case.tokens.as_slice() {
        let begin = token.first as usize;
        if begin < first {
            continue;
        }
        let bytes = slice_at(case.text, token);
        let closes = bytes == b")".as_slice();
        if begin >= end && (open == 0 || !closes) {
            return last;
        }
        if closes {
            open = open.saturating_sub(1);
            last = last.max(behind(token));
        } else if bytes == b"(".as_slice() {
            open = open.saturating_add(1);
        }
    }
    last
}
