//! What is written in expressions and patterns, as far as limits ask for it.
ghost use Rattle.da_lang.specs.Written.{chain_written, gen_written, of, pattern_written, peer_written, writing};
ghost use Rattle.da_limits.specs.Writings.{as_query, as_tuple, beside, counted, named, nothing, ranged, seen};
ghost use Rattle.std.specs.Option.{option_map};
ghost use Rattle.std.specs.Prelude.{◌≡◌, map, option_to_list};

use crate::numbers::capped;
use da_lang::{ChainTree, Expr, GenTree, PatternTree, PeerTree};
use da_values::Boxed;

/// The generators of a query, and its variables.
#[derive(Clone, Copy)]
pub struct QuerySize {
    pub gens: u16,
    pub variables: u16,
}

/// What is written in an expression. A number that does not fit stands at the greatest that does, which is above each
/// limit.
#[derive(Clone, Copy)]
pub struct Written {
    /// The most generators, and the most variables, of a query that is not within another.
    pub largest: QuerySize,
    /// All generators and variables.
    pub all: QuerySize,
    /// The number of parts of the widest tuple.
    pub widest: u16,
    /// Whether it is a name and no more.
    pub name: bool,
}

impl Written {
    /// What has no parts.
    #[tactic(auto, unfolding(crate::specs::Writings::nothing))]
    pub fn nothing() -> Written
        ensures { result ≡ nothing }
    {
        Written {
            largest: QuerySize {
                gens: 0,
                variables: 0,
            },
            all: QuerySize {
                gens: 0,
                variables: 0,
            },
            widest: 0,
            name: false,
        }
    }

    /// So many generators and variables.
    #[tactic(auto, unfolding(crate::specs::Writings::counted))]
    fn counted(gens: u16, variables: u16) -> Written
        ensures { result ≡ counted gens variables }
    {
        Written {
            largest: QuerySize {
                gens: 0,
                variables: 0,
            },
            all: QuerySize { gens, variables },
            widest: 0,
            name: false,
        }
    }

    /// Two parts.
    #[tactic(auto, unfolding(crate::specs::Writings::beside))]
    pub fn beside(self, other: Written) -> Written
        ensures { result ≡ beside self other }
    {
        Written {
            largest: QuerySize {
                gens: self.largest.gens.max(other.largest.gens),
                variables: self.largest.variables.max(other.largest.variables),
            },
            all: QuerySize {
                gens: self.all.gens.saturating_add(other.all.gens),
                variables: self.all.variables.saturating_add(other.all.variables),
            },
            widest: self.widest.max(other.widest),
            name: false,
        }
    }

    /// As a query, which holds all queries in it.
    #[tactic(auto, unfolding(crate::specs::Writings::as_query))]
    fn as_query(self) -> Written
        ensures { result ≡ as_query self }
    {
        Written {
            largest: self.all,
            all: self.all,
            widest: self.widest,
            name: false,
        }
    }

    /// As the parts of a tuple, of which there are so many.
    #[tactic(auto, unfolding(crate::specs::Writings::as_tuple))]
    fn as_tuple(self, parts: u16) -> Written
        ensures { result ≡ as_tuple parts self }
    {
        Written {
            widest: parts.max(self.widest),
            ..self
        }
    }

    /// As the argument of an aggregate, where a name stands for a query with one generator and one variable.
    #[tactic(auto, unfolding(crate::specs::Writings::ranged))]
    fn ranged(self) -> Written
        ensures { result ≡ ranged self }
    {
        if self.name {
            Written::counted(1, 1)
        } else {
            self
        }
    }

    /// As a name and no more.
    #[tactic(auto, unfolding(crate::specs::Writings::named))]
    fn named(self) -> Written
        ensures { result ≡ named self }
    {
        Written { name: true, ..self }
    }
}

/// What is written in an expression.
#[cycle(writing)]
#[tactic(auto, using(crate::proofs::WritingRules::expr_rules))]
pub fn expr_written(x: &Expr) -> Written
    ensures { result ≡ seen (writing x.now) }
{
    match x {
        Expr::Quant {
            each: _,
            gens,
            cond,
        } => gens_written(gens.as_slice())
            .beside(guard_written(cond))
            .as_query(),
        Expr::Or(xs) => all_written(xs.as_slice()),
        Expr::And(xs) => all_written(xs.as_slice()),
        Expr::Not(x) => Written::nothing().beside(expr_written(x.get())),
        Expr::Cmp(_, left, right) => expr_written(left.get()).beside(expr_written(right.get())),
        Expr::Member(left, right) => expr_written(left.get()).beside(expr_written(right.get())),
        Expr::Chain(first, links) => expr_written(first.get()).beside(links_written(
            links.as_slice(),
        )),
        Expr::Int(_) => Written::nothing(),
        Expr::Text(_) => Written::nothing(),
        Expr::Truth(_) => Written::nothing(),
        Expr::Me => Written::nothing(),
        Expr::Name(_) => Written::nothing().named(),
        Expr::Clock => Written::nothing(),
        Expr::Range(first, end) => expr_written(first.get()).beside(expr_written(end.get())),
        Expr::Tuple(xs) => all_written(xs.as_slice()).as_tuple(capped(xs.len())),
        Expr::SetOf(xs) => all_written(xs.as_slice()),
        Expr::Comp { term, gens, cond } => gens_written(gens.as_slice())
            .beside(guard_written(cond))
            .beside(expr_written(term.get()))
            .as_query(),
        Expr::Count(x) => expr_written(x.get()).ranged().as_query(),
        Expr::Sum(x) => expr_written(x.get()).ranged().as_query(),
        Expr::Min(x, other) => expr_written(x.get())
            .ranged()
            .beside(expr_written(other.get()))
            .as_query(),
        Expr::Max(x, other) => expr_written(x.get())
            .ranged()
            .beside(expr_written(other.get()))
            .as_query(),
    }
}

/// What is written in expressions.
#[cycle(writing)]
#[tactic(auto, using(crate::proofs::WritingRules::list_rules))]
pub fn all_written(xs: &[Expr]) -> Written
    ensures { result ≡ seen (of (map writing xs.now)) }
{
    let mut all = Written::nothing();
    for x in xs {
        all = all.beside(expr_written(x));
    }
    all
}

// What is written in the further operands of a chain.
#[cycle(writing)]
#[tactic(auto, using(crate::proofs::WritingRules::list_rules))]
fn links_written(links: &[ChainTree]) -> Written
    ensures { result ≡ seen (of (map chain_written links.now)) }
{
    let mut all = Written::nothing();
    for link in links {
        all = all.beside(expr_written(link.operand.get()));
    }
    all
}

// What is written in a condition, where there is one.
#[cycle(writing)]
#[tactic(auto, using(crate::proofs::WritingRules::guard_rules))]
fn guard_written(cond: &Option<Boxed<Expr>>) -> Written
    ensures { result ≡ seen (of (option_to_list (option_map writing cond.now))) }
{
    match cond {
        None => Written::nothing(),
        Some(x) => Written::nothing().beside(expr_written(x.get())),
    }
}

// What is written in generators.
#[cycle(writing)]
#[tactic(auto, using(crate::proofs::WritingRules::list_rules))]
fn gens_written(gens: &[GenTree]) -> Written
    ensures { result ≡ seen (of (map gen_written gens.now)) }
{
    let mut all = Written::nothing();
    for g in gens {
        all = all.beside(gen_written(g));
    }
    all
}

// What is written in a generator.
#[cycle(writing)]
#[tactic(auto, using(crate::proofs::WritingRules::gen_rules))]
fn gen_written(g: &GenTree) -> Written
    ensures { result ≡ seen (gen_written g.now) }
{
    Written::counted(1, 0)
        .beside(pattern_written(&g.message))
        .beside(peer_written(&g.peer))
}

// What is written in the pattern of the other process, where there is one.
#[cycle(writing)]
#[tactic(auto, using(crate::proofs::WritingRules::peer_rules))]
fn peer_written(peer: &Option<PeerTree>) -> Written
    ensures { result ≡ seen (of (option_to_list (option_map peer_written peer.now))) }
{
    match peer {
        None => Written::nothing(),
        Some(PeerTree::From(pattern)) => Written::nothing().beside(pattern_written(pattern)),
        Some(PeerTree::To(pattern)) => Written::nothing().beside(pattern_written(pattern)),
    }
}

/// What is written in a pattern.
#[cycle(writing)]
#[tactic(auto, using(crate::proofs::WritingRules::pattern_rules))]
pub fn pattern_written(pattern: &PatternTree) -> Written
    ensures { result ≡ seen (pattern_written pattern.now) }
{
    match pattern {
        PatternTree::Wild => Written::nothing(),
        PatternTree::Name(_) => Written::counted(0, 1),
        PatternTree::Int(_) => Written::nothing(),
        PatternTree::Text(_) => Written::nothing(),
        PatternTree::Truth(_) => Written::nothing(),
        PatternTree::Me => Written::nothing(),
        PatternTree::Equal(x) => Written::nothing().beside(expr_written(x.get())),
        PatternTree::Tuple(parts) => {
            patterns_written(parts.as_slice()).as_tuple(capped(parts.len()))
        }
    }
}

// What is written in patterns.
#[cycle(writing)]
#[tactic(auto, using(crate::proofs::WritingRules::list_rules))]
fn patterns_written(patterns: &[PatternTree]) -> Written
    ensures { result ≡ seen (of (map pattern_written patterns.now)) }
{
    let mut all = Written::nothing();
    for pattern in patterns {
        all = all.beside(pattern_written(pattern));
    }
    all
}
