//! What the expressions and patterns of a program hold: names that are read, and queries.
use da_bodies::{Body, Place};
use da_lang::{Branch, ChainTree, Expr, GenTree, PatternTree, PeerTree, SourceTree, Stmt};
use da_values::{Boxed, List};

/// What an expression or a pattern holds.
#[derive(Clone, Copy)]
pub enum Part<'t> {
    /// A name that is read.
    Name(&'t [u8]),
    /// The generators of a query, and the token with which it begins.
    Query(&'t [GenTree], &'static [u8]),
}

/// Adds what the patterns of a handler hold.
pub fn put_head<'t>(body: Body<'t>, out: &mut List<Part<'t>>) {
    if let Place::Handler { message, from, .. } = body.place {
        put_pattern(message, out);
        if let Some(pattern) = from {
            put_pattern(pattern, out);
        }
    }
}

/// Adds what a statement holds, without those in its blocks.
pub fn put_statement<'t>(stmt: &'t Stmt, out: &mut List<Part<'t>>) {
    match stmt {
        Stmt::Assign { value, .. } => put_parts(value.get(), out),
        Stmt::Add { value, .. } => put_parts(value.get(), out),
        Stmt::Del { value, .. } => put_parts(value.get(), out),
        Stmt::Send { message, to, .. } => {
            put_parts(message.get(), out);
            put_parts(to.get(), out);
        }
        Stmt::Output { value, .. } => put_parts(value.get(), out),
        Stmt::Call { args, .. } => put_each(args.as_slice(), out),
        Stmt::If { branches, .. } => put_conditions(branches.as_slice(), out),
        Stmt::While { cond, .. } => put_parts(cond.get(), out),
        Stmt::For { over, .. } => put_parts(over.get(), out),
        Stmt::AwaitOne { cond, .. } => put_parts(cond.get(), out),
        Stmt::Await { alts, .. } => put_conditions(alts.as_slice(), out),
        _ => {}
    }
}

fn put_conditions<'t>(branches: &'t [Branch], out: &mut List<Part<'t>>) {
    for branch in branches {
        put_parts(branch.cond.get(), out);
    }
}

/// Adds what an expression holds.
#[cycle(parts)]
pub fn put_parts<'t>(x: &'t Expr, out: &mut List<Part<'t>>) {
    match x {
        Expr::Or(parts) => put_each(parts.as_slice(), out),
        Expr::And(parts) => put_each(parts.as_slice(), out),
        Expr::Tuple(parts) => put_each(parts.as_slice(), out),
        Expr::SetOf(parts) => put_each(parts.as_slice(), out),
        Expr::Not(part) => put_parts(part.get(), out),
        Expr::Cmp(_, left, right) => {
            put_parts(left.get(), out);
            put_parts(right.get(), out);
        }
        Expr::Member(left, right) => {
            put_parts(left.get(), out);
            put_parts(right.get(), out);
        }
        Expr::Range(left, right) => {
            put_parts(left.get(), out);
            put_parts(right.get(), out);
        }
        Expr::Chain(operand, links) => {
            put_parts(operand.get(), out);
            put_links(links.as_slice(), out);
        }
        Expr::Count(part) => put_parts(part.get(), out),
        Expr::Sum(part) => put_parts(part.get(), out),
        Expr::Min(part, other) => {
            put_parts(part.get(), out);
            put_parts(other.get(), out);
        }
        Expr::Max(part, other) => {
            put_parts(part.get(), out);
            put_parts(other.get(), out);
        }
        Expr::Quant { each, gens, cond } => {
            put_quantifier(*each, gens.as_slice(), out);
            put_gens(gens.as_slice(), out);
            put_guard(cond, out);
        }
        Expr::Comp { term, gens, cond } => {
            put(Part::Query(gens.as_slice(), b"{"), out);
            put_gens(gens.as_slice(), out);
            put_guard(cond, out);
            put_parts(term.get(), out);
        }
        _ => put_leaf(x, out),
    }
}

// A query with `some` or `each`.
fn put_quantifier<'t>(each: bool, gens: &'t [GenTree], out: &mut List<Part<'t>>) {
    if each {
        put(Part::Query(gens, b"each"), out);
    } else {
        put(Part::Query(gens, b"some"), out);
    }
}

// An expression without parts.
fn put_leaf<'t>(x: &'t Expr, out: &mut List<Part<'t>>) {
    if let Expr::Name(name) = x {
        put(Part::Name(name.as_slice()), out);
    }
}

#[cycle(parts)]
fn put_each<'t>(parts: &'t [Expr], out: &mut List<Part<'t>>) {
    for part in parts {
        put_parts(part, out);
    }
}

#[cycle(parts)]
fn put_links<'t>(links: &'t [ChainTree], out: &mut List<Part<'t>>) {
    for link in links {
        put_parts(link.operand.get(), out);
    }
}

#[cycle(parts)]
fn put_guard<'t>(cond: &'t Option<Boxed<Expr>>, out: &mut List<Part<'t>>) {
    if let Some(x) = cond {
        put_parts(x.get(), out);
    }
}

#[cycle(parts)]
fn put_gens<'t>(gens: &'t [GenTree], out: &mut List<Part<'t>>) {
    for generator in gens {
        put_pattern(&generator.message, out);
        match &generator.peer {
            None => {}
            Some(PeerTree::From(pattern)) => put_pattern(pattern, out),
            Some(PeerTree::To(pattern)) => put_pattern(pattern, out),
        }
        put_source(&generator.source, out);
    }
}

fn put_source<'t>(source: &'t SourceTree, out: &mut List<Part<'t>>) {
    if let SourceTree::Name(name) = source {
        put(Part::Name(name.as_slice()), out);
    }
}

/// Adds what the terms of a pattern hold.
#[cycle(parts)]
pub fn put_pattern<'t>(pattern: &'t PatternTree, out: &mut List<Part<'t>>) {
    match pattern {
        PatternTree::Equal(x) => put_parts(x.get(), out),
        PatternTree::Tuple(parts) => put_patterns(parts.as_slice(), out),
        _ => {}
    }
}

#[cycle(parts)]
fn put_patterns<'t>(parts: &'t [PatternTree], out: &mut List<Part<'t>>) {
    for part in parts {
        put_pattern(part, out);
    }
}

fn put<'t>(part: Part<'t>, out: &mut List<Part<'t>>) {
    let _ = out.push(part);
}
