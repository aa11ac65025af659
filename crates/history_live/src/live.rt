//! The live patterns of a plan.
ghost use Rattle.da_lang.specs.Live.{is_history as is_history_def, once};
ghost use Rattle.da_values.specs.Sets.{Has};
ghost use Rattle.query_plan.specs.PlanLive.{history_lives, plan_live};
ghost use Rattle.std.specs.Prelude.{◌≡◌, ◌↔◌, ◌∷◌, ◌++◌, [], IfOk, IsTrue, OnOk};

use crate::term::live_gen;
use da_lang::{LivePattern, Node, RGen, Source, same_live};
use da_values::{List, NoMemory};
use query_plan::Plan;
use std::alloc::Global;

/// What a plan needs of the elements of histories: the live patterns of its generators over histories. Each stands there
/// once, in the order of the first nodes that have them.
#[derive(Drop)]
pub struct Live {
    pub patterns: List<LivePattern>,
}

/// Whether a source is a history.
pub fn is_history(source: Source) -> bool
    ensures { result ≡ is_history_def source }
{
    match source {
        Source::Received => true,
        Source::Sent => true,
        Source::Slot(_) => false,
    }
}

// Whether a pattern is one of these.
fn is_among(patterns: &[LivePattern], live: &LivePattern) -> bool
    ensures { IsTrue result ↔ Has patterns.now live.now }
{
    for pattern in patterns {
        if same_live(live, pattern) {
            return true;
        }
    }
    false
}

// Adds the live pattern of a generator to those of other generators, if it is over a history and its pattern is new.
fn add_gen(alloc: Global, gen_: &RGen, patterns: &mut List<LivePattern>) -> Result<(), NoMemory>
    ensures { OnOk result ((gens : List RGen) → patterns.old ≡ once (history_lives gens) → patterns.new ≡ once (history_lives (gens ++ gen_.now ∷ []))) }
{
    if !is_history(gen_.source) {
        return Ok(());
    }
    let live = live_gen(alloc, gen_)?;
    if is_among(patterns.as_slice(), &live) {
        return Ok(());
    }
    patterns.push(live)
}

// Adds that of a node to those of the nodes before it.
fn add_node(alloc: Global, node: &Node, patterns: &mut List<LivePattern>) -> Result<(), NoMemory>
    ensures { OnOk result ((nodes : List Node) → patterns.old ≡ plan_live nodes → patterns.new ≡ plan_live (nodes ++ node.now ∷ [])) }
{
    match node {
        Node::Gen { gen_, .. } => add_gen(alloc, gen_, patterns),
        _ => Ok(()),
    }
}

/// The live patterns of a plan. For the plan that `normalise` gives they are those of the class, as a set (its clause `live`).
pub fn live_patterns(alloc: Global, plan: &Plan) -> Result<Live, NoMemory>
    ensures { IfOk result (λ live. live.patterns ≡ plan_live plan.now.nodes) }
{
    let mut patterns = List::new(alloc);
    let nodes = plan.nodes.as_slice();
    for node in nodes {
        add_node(alloc, node, &mut patterns)?;
    }
    Ok(Live { patterns })
}
