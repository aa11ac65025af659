//! How many names patterns, generators and conditions bind.
ghost use Rattle.da_limits.specs.Bound.{bound, bound_by_all, bound_by_from, bound_by_gen, bound_by_peer, bound_in_all, found};
ghost use Rattle.std.specs.Prelude.{◌≡◌};

use da_lang::{Expr, GenTree, PatternTree, PeerTree};

/// How many names a pattern binds.
#[cycle(bound)]
#[tactic(auto, using(crate::proofs::BoundRules::pattern_rules))]
pub fn bound_in(pattern: &PatternTree) -> u16
    ensures { result ≡ bound pattern.now }
{
    match pattern {
        PatternTree::Wild => 0,
        PatternTree::Name(_) => 1,
        PatternTree::Int(_) => 0,
        PatternTree::Text(_) => 0,
        PatternTree::Truth(_) => 0,
        PatternTree::Me => 0,
        PatternTree::Equal(_) => 0,
        PatternTree::Tuple(parts) => bound_in_all(parts.as_slice()),
    }
}

// How many names patterns bind.
#[cycle(bound)]
#[tactic(auto, using(crate::proofs::BoundRules::patterns_rules))]
fn bound_in_all(patterns: &[PatternTree]) -> u16
    ensures { result ≡ bound_in_all patterns.now }
{
    let mut all = 0u16;
    for pattern in patterns {
        all = all.saturating_add(bound_in(pattern));
    }
    all
}

/// How many names the pattern after `from` binds, where there is one.
#[tactic(auto, using(crate::proofs::BoundRules::from_rules))]
pub fn bound_by_from(from: &Option<PatternTree>) -> u16
    ensures { result ≡ bound_by_from from.now }
{
    match from {
        None => 0,
        Some(pattern) => bound_in(pattern),
    }
}

/// How many names a condition binds for its block.
#[tactic(auto, using(crate::proofs::BoundRules::found_rules))]
pub fn found_by(x: &Expr) -> u16
    ensures { result ≡ found x.now }
{
    match x {
        Expr::Quant {
            each,
            gens,
            cond: _,
        } => if *each {
            0
        } else {
            bound_by_all(gens.as_slice())
        },
        Expr::Or(_) => 0,
        Expr::And(_) => 0,
        Expr::Not(_) => 0,
        Expr::Cmp(_, _, _) => 0,
        Expr::Member(_, _) => 0,
        Expr::Chain(_, _) => 0,
        Expr::Int(_) => 0,
        Expr::Text(_) => 0,
        Expr::Truth(_) => 0,
        Expr::Me => 0,
        Expr::Name(_) => 0,
        Expr::Clock => 0,
        Expr::Range(_, _) => 0,
        Expr::Tuple(_) => 0,
        Expr::SetOf(_) => 0,
        Expr::Comp { .. } => 0,
        Expr::Count(_) => 0,
        Expr::Sum(_) => 0,
        Expr::Min(_, _) => 0,
        Expr::Max(_, _) => 0,
    }
}

// How many names generators bind.
#[tactic(auto, using(crate::proofs::BoundRules::gens_rules))]
fn bound_by_all(gens: &[GenTree]) -> u16
    ensures { result ≡ bound_by_all gens.now }
{
    let mut all = 0u16;
    for g in gens {
        all = all.saturating_add(bound_by_gen(g));
    }
    all
}

// How many names a generator binds.
#[tactic(auto, using(crate::proofs::BoundRules::gen_rules))]
fn bound_by_gen(g: &GenTree) -> u16
    ensures { result ≡ bound_by_gen g.now }
{
    bound_in(&g.message).saturating_add(bound_by_peer(&g.peer))
}

// How many names the pattern of the other process binds, where there is one.
#[tactic(auto, using(crate::proofs::BoundRules::peer_rules))]
fn bound_by_peer(peer: &Option<PeerTree>) -> u16
    ensures { result ≡ bound_by_peer peer.now }
{
    match peer {
        None => 0,
        Some(PeerTree::From(pattern)) => bound_in(pattern),
        Some(PeerTree::To(pattern)) => bound_in(pattern),
    }
}
