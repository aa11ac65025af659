//! How many nodes the trees of expressions and patterns have. A number that does not fit stands at the greatest that does.
use da_lang::{ChainTree, Expr, GenTree, PatternTree, PeerTree};
use da_values::Boxed;

/// How many nodes an expression has.
#[cycle(nodes)]
pub fn expr_nodes(x: &Expr) -> u32 {
    let within = match x {
        Expr::Int(_) | Expr::Text(_) | Expr::Truth(_) | Expr::Me | Expr::Name(_) | Expr::Clock => 0,
        Expr::Quant { gens, cond, .. } => gens_nodes(gens.as_slice()).saturating_add(guard_nodes(
            cond,
        )),
        Expr::Or(xs) | Expr::And(xs) | Expr::Tuple(xs) | Expr::SetOf(xs) => all_nodes(
            xs.as_slice(),
        ),
        Expr::Not(x) | Expr::Count(x) | Expr::Sum(x) => expr_nodes(x.get()),
        Expr::Cmp(_, left, right)
        | Expr::Member(left, right)
        | Expr::Range(left, right)
        | Expr::Min(left, right)
        | Expr::Max(left, right) => expr_nodes(left.get()).saturating_add(expr_nodes(right.get())),
        Expr::Chain(first, links) => expr_nodes(first.get()).saturating_add(links_nodes(
            links.as_slice(),
        )),
        Expr::Comp { term, gens, cond } => gens_nodes(gens.as_slice())
            .saturating_add(guard_nodes(cond))
            .saturating_add(expr_nodes(term.get())),
    };
    within.saturating_add(1)
}

/// How many nodes expressions have.
#[cycle(nodes)]
pub fn all_nodes(xs: &[Expr]) -> u32 {
    let mut all = 0u32;
    for x in xs {
        all = all.saturating_add(expr_nodes(x));
    }
    all
}

// How many nodes the further operands of a chain have.
#[cycle(nodes)]
fn links_nodes(links: &[ChainTree]) -> u32 {
    let mut all = 0u32;
    for link in links {
        all = all.saturating_add(expr_nodes(link.operand.get()));
    }
    all
}

// How many nodes a condition has, where there is one.
#[cycle(nodes)]
fn guard_nodes(cond: &Option<Boxed<Expr>>) -> u32 {
    match cond {
        None => 0,
        Some(x) => expr_nodes(x.get()),
    }
}

// How many nodes generators have.
#[cycle(nodes)]
fn gens_nodes(gens: &[GenTree]) -> u32 {
    let mut all = 0u32;
    for g in gens {
        let both = pattern_nodes(&g.message).saturating_add(peer_nodes(&g.peer));
        all = all.saturating_add(both).saturating_add(1);
    }
    all
}

// How many nodes the pattern of the other process has, where there is one.
#[cycle(nodes)]
fn peer_nodes(peer: &Option<PeerTree>) -> u32 {
    match peer {
        None => 0,
        Some(PeerTree::From(pattern)) | Some(PeerTree::To(pattern)) => pattern_nodes(pattern),
    }
}

/// How many nodes a pattern has.
#[cycle(nodes)]
pub fn pattern_nodes(pattern: &PatternTree) -> u32 {
    let within = match pattern {
        PatternTree::Wild
        | PatternTree::Name(_)
        | PatternTree::Int(_)
        | PatternTree::Text(_)
        | PatternTree::Truth(_)
        | PatternTree::Me => 0,
        PatternTree::Equal(x) => expr_nodes(x.get()),
        PatternTree::Tuple(parts) => patterns_nodes(parts.as_slice()),
    };
    within.saturating_add(1)
}

// How many nodes patterns have.
#[cycle(nodes)]
fn patterns_nodes(patterns: &[PatternTree]) -> u32 {
    let mut all = 0u32;
    for pattern in patterns {
        all = all.saturating_add(pattern_nodes(pattern));
    }
    all
}
