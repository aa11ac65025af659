//! Generators.
ghost use Rattle.da_lang.specs.ExprMeaning.{scope_after_gens, generator, gens_in, is_apt, misplaced, peer_binds, peer_of, peer_pattern, slot_source, source_meant, with_row};
ghost use Rattle.da_meaning.specs.MeaningView.{meaning_of};
ghost use Rattle.std.specs.Option.{option_map};
ghost use Rattle.std.specs.Prelude.{◌≡◌, IfOk, OnOk, if◌then◌else◌, map};

use crate::patterns::pattern;
use crate::scope::{Meaning, Scope};
use da_lang::{GenTree, Pattern, PeerTree, RGen, Source, SourceTree, Term};
use da_values::{List, NoMemory};
use std::alloc::Global;

/// Generators, with the names in scope after them.
#[derive(Drop)]
pub struct Front<'t> {
    pub gens: List<RGen>,
    pub inner: Scope<'t>,
}

/// Generators within this scope, and the scope after them.
pub fn opened<'t>(
    alloc: Global,
    gens: &'t List<GenTree>,
    scope: &Scope<'t>,
) -> Result<Front<'t>, NoMemory>
    ensures gens { IfOk result (λ opened. opened.gens ≡ gens_in (map generator gens.now) scope.now) }
    ensures inner { IfOk result (λ opened. opened.inner ≡ scope_after_gens (map generator gens.now) scope.now) }
{
    let mut inner = scope.copy(alloc)?;
    let gens = generators(alloc, gens.as_slice(), &mut inner)?;
    Ok(Front { gens, inner })
}

// Generators, each with the variables of those before it, all of which come into scope.
fn generators<'t>(
    alloc: Global,
    gens: &'t [GenTree],
    scope: &mut Scope<'t>,
) -> Result<List<RGen>, NoMemory>
    ensures gens { IfOk result (λ found. found ≡ gens_in (map generator gens.now) scope.old) }
    ensures scope { OnOk result (scope.new ≡ scope_after_gens (map generator gens.now) scope.old) }
{
    let mut found = List::new(alloc);
    for g in gens {
        found.push(generator(alloc, g, scope)?)?;
    }
    Ok(found)
}

// A generator, whose variables come into scope.
#[tactic(auto, using(crate::proofs::GensAt::gens_at))]
fn generator<'t>(alloc: Global, g: &'t GenTree, scope: &mut Scope<'t>) -> Result<RGen, NoMemory>
    ensures gen_ { IfOk result (λ found. found ≡ (generator g.now).gen_ scope.old) }
    ensures scope { OnOk result (scope.new ≡ with_row (generator g.now).binds scope.old) }
{
    let message = pattern(alloc, &g.message, scope)?;
    let peer = peer_of(alloc, &g.source, &g.peer, scope)?;
    let source = source_of(&g.source, scope);
    Ok(RGen {
        source,
        message,
        peer,
    })
}

// What a generator goes through.
fn source_of(source: &SourceTree, scope: &Scope<'_>) -> Source
    ensures { result ≡ source_meant scope.now source.now }
{
    match source {
        SourceTree::Received => Source::Received,
        SourceTree::Sent => Source::Sent,
        SourceTree::Name(name) => slot_source(scope.look(name.as_slice())),
    }
}

/// A slot as what a generator goes through. Other names are refused before.
pub fn slot_source(means: Option<Meaning>) -> Source
    ensures { result ≡ slot_source (option_map meaning_of means) }
{
    match means {
        Some(Meaning::InSlot(slot)) => Source::Slot(slot),
        _ => Source::Slot(0),
    }
}

// The pattern of the other process, whose variables come into scope.
#[tactic(auto, using(crate::proofs::GensAt::peers_at))]
fn peer_of<'t>(
    alloc: Global,
    source: &SourceTree,
    peer: &'t Option<PeerTree>,
    scope: &mut Scope<'t>,
) -> Result<Pattern, NoMemory>
    ensures pattern { IfOk result (λ found. found ≡ peer_pattern source.now scope.old (option_map peer_of peer.now)) }
    ensures scope { OnOk result (scope.new ≡ with_row (peer_binds (option_map peer_of peer.now)) scope.old) }
{
    match peer {
        None => Ok(Pattern::Any),
        Some(PeerTree::From(p)) => {
            let found = pattern(alloc, p, scope)?;
            placed(alloc, is_apt(true, source), found)
        }
        Some(PeerTree::To(p)) => {
            let found = pattern(alloc, p, scope)?;
            placed(alloc, is_apt(false, source), found)
        }
    }
}

// Whether `from`, or else `to`, stands with this source.
fn is_apt(from: bool, source: &SourceTree) -> bool
    ensures { result ≡ is_apt from source.now }
{
    match source {
        SourceTree::Received => from,
        SourceTree::Sent => !from,
        SourceTree::Name(_) => false,
    }
}

// The pattern of the other process, or what stands for it in a place where it may not be.
fn placed(alloc: Global, apt: bool, p: Pattern) -> Result<Pattern, NoMemory>
    ensures { IfOk result (λ found. found ≡ (if apt then p else misplaced p)) }
{
    if apt {
        return Ok(p);
    }
    let mut parts = List::new(alloc);
    parts.push(Pattern::Equal(Term::Foreign))?;
    parts.push(p)?;
    Ok(Pattern::Tuple(parts))
}
