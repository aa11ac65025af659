//! What a line is made of: its expressions and patterns with their places, in the order in which their names come into scope.
use crate::scope::Role;
use da_lang::{ChainTree, Expr, GenTree, PatternTree, PeerTree, SourceTree};
use da_lex::Token;
use da_values::{Boxed, List};
use std::alloc::Global;
use std::mem;
use text_hints::slice_at;

/// What a name has to be.
#[derive(Clone, Copy, PartialEq, Eq)]
pub enum Wanted {
    /// A variable.
    Value,
    /// A variable that is none of a query, as the source of a generator.
    Source,
    /// The same, as the argument of an aggregate.
    Argument,
    /// A name that no variable in scope has.
    Fresh,
}

/// A part of a line: the number of its first token, and that of the one after its last. Brackets but for braces, and commas, have no
/// number.
#[derive(Clone, Copy)]
pub struct Span {
    pub first: usize,
    pub end: usize,
}

/// A step of a walk.
#[derive(Clone, Copy)]
pub enum Step<'t> {
    /// An expression, all of whose parts came before, within so many queries.
    Whole(&'t Expr, usize, Span),
    /// A pattern, all of whose parts came before.
    Pattern(&'t PatternTree, Span),
    /// A name that is used.
    Name(&'t [u8], Wanted),
    /// A new name of this role.
    Fresh(&'t [u8], Role),
    /// An expression in the place of the name that an aggregate is of.
    Form(&'t Expr),
    /// A query begins.
    Open,
    /// A generator, whose patterns came before.
    Gen(&'t GenTree),
    /// A query ends.
    Close,
}

/// A walk along a line: its tokens that have numbers, how many of them were passed, and the steps so far.
#[derive(Drop)]
pub struct Walk<'t> {
    pub alloc: Global,
    pub text: &'t [u8],
    pub tokens: List<Token>,
    pub passed: usize,
    pub steps: List<Step<'t>>,
}

impl<'t> Walk<'t> {
    /// Passes so many tokens.
    pub fn pass(&mut self, count: usize) {
        self.passed = self.passed.saturating_add(count);
    }

    /// Adds a step.
    pub fn put(&mut self, step: Step<'t>) {
        let _ = self.steps.push(step);
    }

    // Whether the next token is a minus.
    fn sees_minus(&self) -> bool {
        match self.tokens.get(self.passed) {
            Some(token) => slice_at(self.text, token) == b"-".as_slice(),
            None => false,
        }
    }

    // What was passed from a token on.
    fn span(&self, first: usize) -> Span {
        Span {
            first,
            end: self.passed,
        }
    }
}

/// Walks through an expression within so many queries.
#[cycle(steps)]
pub fn put_steps<'t>(x: &'t Expr, queries: usize, walk: &mut Walk<'t>) {
    let first = walk.passed;
    let inner = queries.saturating_add(1);
    match x {
        Expr::Or(parts) => put_all(parts.as_slice(), 1, queries, walk),
        Expr::And(parts) => put_all(parts.as_slice(), 1, queries, walk),
        Expr::Tuple(parts) => put_all(parts.as_slice(), 0, queries, walk),
        Expr::SetOf(parts) => {
            walk.pass(1);
            put_all(parts.as_slice(), 0, queries, walk);
            walk.pass(1);
        }
        Expr::Not(part) => put_after(part.get(), queries, walk),
        Expr::Cmp(_, left, right) => {
            put_steps(left.get(), queries, walk);
            put_after(right.get(), queries, walk);
        }
        Expr::Member(left, right) => {
            put_steps(left.get(), queries, walk);
            put_after(right.get(), queries, walk);
        }
        Expr::Range(left, right) => {
            put_after(left.get(), queries, walk);
            put_steps(right.get(), queries, walk);
        }
        Expr::Chain(operand, links) => {
            // `-x` is `0 - x`
            if !(walk.sees_minus() && is_zero(operand.get())) {
                put_steps(operand.get(), queries, walk);
            }
            put_links(links.as_slice(), queries, walk);
        }
        Expr::Count(argument) => put_argument(argument.get(), inner, walk),
        Expr::Sum(argument) => put_argument(argument.get(), inner, walk),
        Expr::Min(argument, other) => {
            put_argument(argument.get(), inner, walk);
            put_steps(other.get(), inner, walk);
        }
        Expr::Max(argument, other) => {
            put_argument(argument.get(), inner, walk);
            put_steps(other.get(), inner, walk);
        }
        Expr::Quant { gens, cond, .. } => {
            walk.pass(1);
            put_gens(gens.as_slice(), inner, walk);
            put_guard(cond, inner, walk);
            walk.put(Step::Close);
        }
        Expr::Comp { term, gens, cond } => {
            let before = mem::replace(&mut walk.steps, List::new(walk.alloc));
            put_after(term.get(), inner, walk);
            let later = mem::replace(&mut walk.steps, before);
            walk.pass(1);
            put_gens(gens.as_slice(), inner, walk);
            put_guard(cond, inner, walk);
            for step in later.as_slice() {
                walk.put(*step);
            }
            walk.put(Step::Close);
            walk.pass(1);
        }
        _ => put_leaf(x, walk),
    }
    walk.put(Step::Whole(x, queries, walk.span(first)));
}

fn is_zero(x: &Expr) -> bool {
    match x {
        Expr::Int(number) => *number == 0,
        _ => false,
    }
}

// An expression without parts.
fn put_leaf<'t>(x: &'t Expr, walk: &mut Walk<'t>) {
    match x {
        Expr::Name(name) => walk.put(Step::Name(name.as_slice(), Wanted::Value)),
        Expr::Int(number) if *number < 0 => walk.pass(1),
        _ => {}
    }
    walk.pass(1);
}

// An expression after one token.
#[cycle(steps)]
fn put_after<'t>(x: &'t Expr, queries: usize, walk: &mut Walk<'t>) {
    walk.pass(1);
    put_steps(x, queries, walk);
}

// Expressions with so many tokens between two.
#[cycle(steps)]
fn put_all<'t>(parts: &'t [Expr], between: usize, queries: usize, walk: &mut Walk<'t>) {
    for (place, part) in parts.iter().enumerate() {
        walk.pass(if place == 0 { 0 } else { between });
        put_steps(part, queries, walk);
    }
}

#[cycle(steps)]
fn put_links<'t>(links: &'t [ChainTree], queries: usize, walk: &mut Walk<'t>) {
    for link in links {
        put_after(link.operand.get(), queries, walk);
    }
}

#[cycle(steps)]
fn put_guard<'t>(cond: &'t Option<Boxed<Expr>>, queries: usize, walk: &mut Walk<'t>) {
    if let Some(x) = cond {
        put_after(x.get(), queries, walk);
    }
}

// The word of an aggregate, and what it is of.
#[cycle(steps)]
fn put_argument<'t>(x: &'t Expr, queries: usize, walk: &mut Walk<'t>) {
    match x {
        Expr::Name(name) => {
            let first = walk.passed.saturating_add(1);
            walk.pass(2);
            walk.put(Step::Name(name.as_slice(), Wanted::Argument));
            walk.put(Step::Whole(x, queries, walk.span(first)));
        }
        Expr::Comp { .. } => put_after(x, queries, walk),
        _ => {
            walk.put(Step::Form(x));
            put_after(x, queries, walk);
        }
    }
}

#[cycle(steps)]
fn put_gens<'t>(gens: &'t [GenTree], queries: usize, walk: &mut Walk<'t>) {
    walk.put(Step::Open);
    for generator in gens {
        put_pattern(&generator.message, Role::QueryVariable, queries, walk);
        match &generator.peer {
            None => {}
            Some(PeerTree::From(pattern)) => put_peer(pattern, queries, walk),
            Some(PeerTree::To(pattern)) => put_peer(pattern, queries, walk),
        }
        if let SourceTree::Name(name) = &generator.source {
            walk.put(Step::Name(name.as_slice(), Wanted::Source));
        }
        walk.pass(2);
        walk.put(Step::Gen(generator));
    }
}

#[cycle(steps)]
fn put_peer<'t>(pattern: &'t PatternTree, queries: usize, walk: &mut Walk<'t>) {
    walk.pass(1);
    put_pattern(pattern, Role::QueryVariable, queries, walk);
}

/// Walks through a pattern, whose names have this role, within so many queries.
#[cycle(steps)]
pub fn put_pattern<'t>(pattern: &'t PatternTree, role: Role, queries: usize, walk: &mut Walk<'t>) {
    let first = walk.passed;
    match pattern {
        PatternTree::Equal(x) => put_after(x.get(), queries, walk),
        PatternTree::Tuple(parts) => put_parts(parts.as_slice(), role, queries, walk),
        PatternTree::Name(name) => {
            walk.put(Step::Fresh(name.as_slice(), role));
            walk.pass(1);
        }
        PatternTree::Int(number) if *number < 0 => walk.pass(2),
        _ => walk.pass(1),
    }
    walk.put(Step::Pattern(pattern, walk.span(first)));
}

#[cycle(steps)]
fn put_parts<'t>(parts: &'t [PatternTree], role: Role, queries: usize, walk: &mut Walk<'t>) {
    for part in parts {
        put_pattern(part, role, queries, walk);
    }
}
