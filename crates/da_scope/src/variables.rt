//! The variables that patterns and conditions bring.
ghost use Rattle.da_lang.specs.declared.tree.Expr.{out-Expr};
ghost use Rattle.da_lang.specs.BodyMeaning.{finds_in};
ghost use Rattle.da_lang.specs.ExprMeaning.{generator, matching, peer_binds, peer_of};
ghost use Rattle.da_lang.specs.ExprNames.{found_names};
ghost use Rattle.da_scope.specs.NamesView.{texts};
ghost use Rattle.std.specs.Option.{option_map};
ghost use Rattle.std.specs.Prelude.{◌≡◌, ◌++◌, IfOk, OnOk, flat_map, map};

use da_lang::{Expr, GenTree, PatternTree, PeerTree};
use da_values::{List, NoMemory};
use std::alloc::Global;

/// The variables that a condition brings, in text order: those of a `some`.
#[tactic(auto, using(crate::proofs::FoundAt::found_at))]
pub fn found_names<'t>(alloc: Global, x: &'t Expr) -> Result<List<&'t [u8]>, NoMemory>
    ensures { IfOk result (λ names. texts names ≡ found_names x.now) }
{
    let mut names = List::new(alloc);
    match x {
        Expr::Quant { each, gens, .. } => {
            if !*each {
                add_generators(gens.as_slice(), &mut names)?;
            }
        }
        Expr::Or(_)
        | Expr::And(_)
        | Expr::Not(_)
        | Expr::Cmp(_, _, _)
        | Expr::Member(_, _)
        | Expr::Chain(_, _)
        | Expr::Int(_)
        | Expr::Text(_)
        | Expr::Truth(_)
        | Expr::Me
        | Expr::Name(_)
        | Expr::Clock
        | Expr::Range(_, _)
        | Expr::Tuple(_)
        | Expr::SetOf(_)
        | Expr::Comp { .. }
        | Expr::Count(_)
        | Expr::Sum(_)
        | Expr::Min(_, _)
        | Expr::Max(_, _) => {}
    }
    Ok(names)
}

/// Whether a condition is a `some`.
#[tactic(auto, using(crate::proofs::FoundAt::finds_at))]
pub fn finds(x: &Expr) -> bool
    ensures { result ≡ finds_in (out-Expr x.now) }
{
    match x {
        Expr::Quant { each, .. } => !*each,
        Expr::Or(_)
        | Expr::And(_)
        | Expr::Not(_)
        | Expr::Cmp(_, _, _)
        | Expr::Member(_, _)
        | Expr::Chain(_, _)
        | Expr::Int(_)
        | Expr::Text(_)
        | Expr::Truth(_)
        | Expr::Me
        | Expr::Name(_)
        | Expr::Clock
        | Expr::Range(_, _)
        | Expr::Tuple(_)
        | Expr::SetOf(_)
        | Expr::Comp { .. }
        | Expr::Count(_)
        | Expr::Sum(_)
        | Expr::Min(_, _)
        | Expr::Max(_, _) => false,
    }
}

// The variables of generators, after other names.
fn add_generators<'t>(gens: &'t [GenTree], names: &mut List<&'t [u8]>) -> Result<(), NoMemory>
    ensures { OnOk result (texts names.new ≡ texts names.old ++ flat_map (λ g. (generator g).binds) gens.now) }
{
    for g in gens {
        add_generator(g, names)?;
    }
    Ok(())
}

// The variables of a generator, after other names.
#[tactic(auto, using(crate::proofs::FoundAt::generator_at))]
fn add_generator<'t>(g: &'t GenTree, names: &mut List<&'t [u8]>) -> Result<(), NoMemory>
    ensures { OnOk result (texts names.new ≡ texts names.old ++ (generator g.now).binds) }
{
    add_variables(&g.message, names)?;
    add_peer(&g.peer, names)
}

// The variables of the pattern of the other process, after other names.
#[tactic(auto, using(da_meaning::proofs::GensAt::peers_at))]
fn add_peer<'t>(peer: &'t Option<PeerTree>, names: &mut List<&'t [u8]>) -> Result<(), NoMemory>
    ensures { OnOk result (texts names.new ≡ texts names.old ++ peer_binds (option_map peer_of peer.now)) }
{
    match peer {
        None => Ok(()),
        Some(PeerTree::From(p)) => add_variables(p, names),
        Some(PeerTree::To(p)) => add_variables(p, names),
    }
}

/// The variables of a pattern, in text order, after other names.
#[cycle(variables)]
#[tactic(auto, using(crate::proofs::FoundAt::variables_at))]
pub fn add_variables<'t>(p: &'t PatternTree, names: &mut List<&'t [u8]>) -> Result<(), NoMemory>
    ensures { OnOk result (texts names.new ≡ texts names.old ++ (matching p.now).binds) }
{
    match p {
        PatternTree::Name(name) => names.push(name.as_slice()),
        PatternTree::Tuple(parts) => add_parts(parts.as_slice(), names),
        PatternTree::Wild
        | PatternTree::Int(_)
        | PatternTree::Text(_)
        | PatternTree::Truth(_)
        | PatternTree::Me
        | PatternTree::Equal(_) => Ok(()),
    }
}

// The variables of patterns, in text order, after other names.
#[cycle(variables)]
fn add_parts<'t>(ps: &'t [PatternTree], names: &mut List<&'t [u8]>) -> Result<(), NoMemory>
    ensures { OnOk result (texts names.new ≡ texts names.old ++ flat_map (λ p. p.binds) (map matching ps.now)) }
{
    for p in ps {
        add_variables(p, names)?;
    }
    Ok(())
}
