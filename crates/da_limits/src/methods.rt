//! How large the copies of the methods of a class are, counted for each method once.
ghost use Rattle.da_calls.specs.CallGraph.{IsCallGraph};
ghost use Rattle.da_calls.specs.CallMethods.{body_of};
ghost use Rattle.da_limits.specs.Copied.{copied};
ghost use Rattle.da_limits.specs.Extents.{body_extent, method_extent};
ghost use Rattle.da_limits.specs.Loops.{NoneLeadsBack};
ghost use Rattle.std.specs.Prelude.{◌≡◌, ℕ, IfOk, List, length};

use crate::copies::Copies;
use crate::extent::Extent;
use crate::numbers::capped;
use crate::statements::block;
use da_calls::{CallGraph, Method};
use da_values::{List, NoMemory};
use std::alloc::Global;

/// The extents of the copies of all methods.
pub fn copies_of<'g, 't>(
    alloc: Global,
    graph: &'g CallGraph<'t>,
) -> Result<Copies<'g, 't>, NoMemory>
    requires graph { IsCallGraph graph.now }
    requires none_back { NoneLeadsBack graph.now.class.now }
    ensures graph { IfOk result (λ copies. copies.graph.now ≡ graph.now) }
    // as many calls may be within calls as there are members, which is enough
    ensures copied { IfOk result (λ copies. (name : List ℕ) → copied copies name ≡ method_extent (length graph.now.class.now.members) graph.now.class.now name) }
{
    let methods = graph.methods();
    let extents = all_nothing(alloc, methods.len())?;
    let mut copies = Copies { graph, extents };
    for number in graph.order() {
        let extent = copy_of(methods[*number], &copies);
        copies.extents.set(*number, extent);
    }
    Ok(copies)
}

// The extent of a copy of a method.
#[tactic(auto, using(crate::proofs::ExtentRules::wider_rules))]
fn copy_of(method: Method<'_>, copies: &Copies<'_, '_>) -> Extent
    requires { IsCallGraph copies.now.graph.now }
    ensures { result ≡ body_extent (copied copies.now) (body_of method.entry) }
{
    block(method.body.as_slice(), copies).wider(capped(method.params.len()))
}

// So many times nothing.
fn all_nothing(alloc: Global, count: usize) -> Result<List<Extent>, NoMemory>
    ensures { IfOk result (λ extents. length extents ≡ count) }
{
    let mut extents = List::new(alloc);
    for _at in 0..count {
        extents.push(Extent::nothing())?;
    }
    Ok(extents)
}
