//! What is too early for `setup`: queries, and in `main` the clock too.
ghost use Rattle.da_names.specs.Early.{asks_early as asks_early_of, link_asks_early};
ghost use Rattle.std.specs.List.{list_any};
ghost use Rattle.std.specs.Prelude.{◌≡◌};

use da_lang::{ChainTree, Expr};

/// Whether an expression holds a query or, where that is asked for, reads the clock.
#[cycle(early)]
#[tactic(auto, using(crate::proofs::EarlyAt::early_rules))]
pub fn asks_early(clock: bool, x: &Expr) -> bool
    ensures { result ≡ asks_early_of clock x.now }
{
    match x {
        Expr::Quant {
            each: _,
            gens: _,
            cond: _,
        } => true,
        Expr::Comp {
            term: _,
            gens: _,
            cond: _,
        } => true,
        Expr::Count(_) => true,
        Expr::Sum(_) => true,
        Expr::Min(_, _) => true,
        Expr::Max(_, _) => true,
        Expr::Or(parts) => some_asks_early(clock, parts.as_slice()),
        Expr::And(parts) => some_asks_early(clock, parts.as_slice()),
        Expr::Tuple(parts) => some_asks_early(clock, parts.as_slice()),
        Expr::SetOf(parts) => some_asks_early(clock, parts.as_slice()),
        Expr::Not(part) => asks_early(clock, part.get()),
        Expr::Cmp(_, first, second) => {
            asks_early(clock, first.get()) || asks_early(clock, second.get())
        }
        Expr::Member(first, second) => {
            asks_early(clock, first.get()) || asks_early(clock, second.get())
        }
        Expr::Range(first, second) => {
            asks_early(clock, first.get()) || asks_early(clock, second.get())
        }
        Expr::Chain(first, links) => {
            asks_early(clock, first.get()) || some_link_asks_early(clock, links.as_slice())
        }
        Expr::Clock => clock,
        Expr::Name(_) => false,
        Expr::Int(_) => false,
        Expr::Text(_) => false,
        Expr::Truth(_) => false,
        Expr::Me => false,
    }
}

/// The same of one of some expressions.
#[cycle(early)]
pub fn some_asks_early(clock: bool, xs: &[Expr]) -> bool
    ensures { result ≡ list_any (asks_early_of clock) xs.now }
{
    for x in xs {
        if asks_early(clock, x) {
            return true;
        }
    }
    false
}

/// The same of one of the further operands of a chain.
#[cycle(early)]
#[tactic(auto, unfolding(crate::specs::Early::link_asks_early))]
fn some_link_asks_early(clock: bool, links: &[ChainTree]) -> bool
    ensures { result ≡ list_any (link_asks_early clock) links.now }
{
    for link in links {
        if asks_early(clock, link.operand.get()) {
            return true;
        }
    }
    false
}
