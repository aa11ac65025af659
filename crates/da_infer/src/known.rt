//! Which unknown types demands speak of.
ghost use Rattle.std.specs.Prelude.{◌≡◌, ◌≤◌, true, IfOk};
ghost use Rattle.std.specs.List.{list_all};
ghost use Rattle.da_infer.specs.Known as spec;

use class_demands::{ClassDemands, Head, ProgramDemands, SetupDemands};
use da_values::NoMemory;
use type_demands::{Demand, LineDemand};
use type_table::Scheme;

/// Doubling 1 so often passes every number of 64 bits.
const MOST_TURNS: u32 = 65;

/// Whether a type is made of the first so many unknown types alone.
#[cycle(schemes)]
#[tactic(auto, using(crate::proofs::KnownLaws::known_forms))]
fn is_known(scheme: &Scheme, count: usize) -> bool
    ensures { result ≡ spec.is_known count scheme.now }
{
    match scheme {
        Scheme::Unknown(number) => *number < count,
        Scheme::Int | Scheme::Bool | Scheme::Text | Scheme::Proc => true,
        Scheme::Tuple(parts) => are_known(parts.as_slice(), count),
        Scheme::Set(element) => is_known(element.get(), count),
        Scheme::Element(whole) => is_known(whole.get(), count),
        Scheme::Part { whole, .. } => is_known(whole.get(), count),
    }
}

/// The same for each of some types.
#[cycle(schemes)]
fn are_known(schemes: &[Scheme], count: usize) -> bool
    ensures { result ≡ list_all (spec.is_known count) schemes.now }
{
    for scheme in schemes {
        if !is_known(scheme, count) {
            return false;
        }
    }
    true
}

/// Whether a demand speaks of the first so many unknown types alone.
pub fn knows(demand: &Demand, count: usize) -> bool
    ensures { result ≡ spec.knows count demand.now }
{
    match demand {
        Demand::Never => true,
        Demand::Same(x, y) => is_known(x, count) && is_known(y, count),
        Demand::Int(x) => is_known(x, count),
        Demand::Truth(x) => is_known(x, count),
        Demand::Width(x, _) => is_known(x, count),
        Demand::Elements(x) => is_known(x, count),
        Demand::Ordered(x) => is_known(x, count),
        Demand::Adds(x) => is_known(x, count),
        Demand::Single(x) => is_known(x, count),
        Demand::Receives(x) => is_known(x, count),
        Demand::Flat(x) => is_known(x, count),
        Demand::Uses(_) => true,
    }
}

/// The same for each of some demands.
fn all_known(demands: &[Demand], count: usize) -> bool
    ensures { result ≡ spec.all_known count demands.now }
{
    for demand in demands {
        if !knows(demand, count) {
            return false;
        }
    }
    true
}

fn lines_known(demands: &[LineDemand], count: usize) -> bool
    ensures { result ≡ spec.lines_known count demands.now }
{
    for one in demands {
        if !knows(&one.demand, count) {
            return false;
        }
    }
    true
}

fn heads_known(heads: &[Head], count: usize) -> bool
    ensures { result ≡ spec.heads_known count heads.now }
{
    for head in heads {
        if !all_known(head.demands.as_slice(), count) {
            return false;
        }
    }
    true
}

fn class_known(class: &ClassDemands, count: usize) -> bool
    ensures { result ≡ spec.class_known count class.now }
{
    heads_known(class.heads.as_slice(), count) && lines_known(class.demands.as_slice(), count)
}

fn classes_known(classes: &[ClassDemands], count: usize) -> bool
    ensures { result ≡ spec.classes_known count classes.now }
{
    for class in classes {
        if !class_known(class, count) {
            return false;
        }
    }
    true
}

fn setups_known(setups: &[SetupDemands], count: usize) -> bool
    ensures { result ≡ spec.setups_known count setups.now }
{
    for setup in setups {
        if !lines_known(setup.demands.as_slice(), count) {
            return false;
        }
    }
    true
}

/// Whether a program demands nothing of an unknown type but the first so many.
fn program_known(demands: &ProgramDemands, count: usize) -> bool
    ensures { result ≡ spec.program_known count demands.now }
{
    classes_known(demands.classes.as_slice(), count)
        && setups_known(demands.setups.as_slice(), count)
}

/// So many unknown types, or more, that a program demands nothing of any other. Where it speaks of the first so many alone,
/// as programs do in which so many have types of their own, these are all.
pub fn known_count(demands: &ProgramDemands, count: usize) -> Result<usize, NoMemory>
    ensures least { IfOk result (λ known. count ≤ known) }
    ensures known { IfOk result (λ known. spec.program_known known demands.now ≡ true) }
{
    let mut other: usize = 1;
    for _turn in 0..MOST_TURNS {
        let known = count.max(other);
        if program_known(demands, known) {
            return Ok(known);
        }
        other = other.saturating_mul(2);
    }
    Err(NoMemory)
}
