//! How many parts the rows of nodes have.
ghost use Rattle.da_lang.specs.Live.{is_history};
ghost use Rattle.query_plan.specs.Nodes.{binds, in_order, parts_added, width_step};
ghost use Rattle.std.specs.List.{sum_by};
ghost use Rattle.std.specs.Prelude.{◌≡◌, ◌+◌, [], IfOk, get_or, if◌then◌else◌};

use da_lang::{LivePattern, Node, Pattern, RGen, Source};
use da_values::{List, NoMemory};
use std::alloc::Global;

/// The sum of two numbers of parts. Rows with more parts than 16 bits count are refused as memory is.
pub fn plus(a: u16, b: u16) -> Result<u16, NoMemory>
    ensures { IfOk result (λ sum. sum ≡ a + b) }
{
    match a.checked_add(b) {
        Some(sum) => Ok(sum),
        None => Err(NoMemory),
    }
}

// How many variables a pattern has.
#[cycle(binds)]
#[tactic(auto, using(crate::proofs::WidthSteps::binding))]
fn variables(pattern: &Pattern) -> Result<u16, NoMemory>
    ensures { IfOk result (λ count. count ≡ binds pattern.now) }
{
    match pattern {
        Pattern::Bind => Ok(1),
        Pattern::Tuple(parts) => {
            let count = all_variables(parts.as_slice())?;
            Ok(count)
        }
        Pattern::Any => Ok(0),
        Pattern::Const(_) => Ok(0),
        Pattern::Me => Ok(0),
        Pattern::Equal(_) => Ok(0),
    }
}

#[cycle(binds)]
#[tactic(auto, using(crate::proofs::WidthSteps::summing))]
fn all_variables(patterns: &[Pattern]) -> Result<u16, NoMemory>
    ensures { IfOk result (λ count. count ≡ sum_by binds patterns.now) }
{
    let mut count = 0;
    for pattern in patterns {
        count = plus(count, variables(pattern)?)?;
    }
    Ok(count)
}

/// How many parts the rows of a live pattern have.
pub fn live_width(live: &LivePattern) -> Result<u16, NoMemory>
    ensures { IfOk result (λ count. count ≡ binds live.now.message + binds live.now.peer) }
{
    let message = variables(&live.message)?;
    let peer = variables(&live.peer)?;
    let count = plus(message, peer)?;
    Ok(count)
}

/// How many parts a generator adds.
pub fn added_by(gen_: &RGen) -> Result<u16, NoMemory>
    ensures { IfOk result (λ count. count ≡ parts_added gen_.now) }
{
    let message = variables(&gen_.message)?;
    let peer = added_by_peer(gen_)?;
    let count = plus(message, peer)?;
    Ok(count)
}

// How many the other process adds. An element of a slot has none.
fn added_by_peer(gen_: &RGen) -> Result<u16, NoMemory>
    ensures { IfOk result
        (λ count. count ≡ (if is_history gen_.now.source then binds gen_.now.peer else 0)) }
{
    match gen_.source {
        Source::Slot(_) => Ok(0),
        Source::Received => {
            let count = variables(&gen_.peer)?;
            Ok(count)
        }
        Source::Sent => {
            let count = variables(&gen_.peer)?;
            Ok(count)
        }
    }
}

/// The width of the rows of a node among these, or 0 where it is not among them.
pub fn width_at(widths: &[u16], node: u32) -> u16
    ensures { result ≡ get_or widths.now node 0 }
{
    match widths.get(node as usize) {
        Some(width) => *width,
        None => 0,
    }
}

// The width of the rows of a node, where the rows of the nodes before it have these widths.
fn width_after(node: &Node, widths: &[u16]) -> Result<u16, NoMemory>
    ensures { IfOk result (λ width. width ≡ width_step (λ i. get_or widths.now i 0) node.now) }
{
    match node {
        Node::Root => Ok(0),
        Node::Gen { parent, gen_ } => {
            let added = added_by(gen_)?;
            let width = plus(width_at(widths, *parent), added)?;
            Ok(width)
        }
        Node::Filter { parent, .. } => Ok(width_at(widths, *parent)),
        Node::Semi { parent, .. } => Ok(width_at(widths, *parent)),
        Node::Anti { parent, .. } => Ok(width_at(widths, *parent)),
        Node::Union { left, .. } => Ok(width_at(widths, *left)),
        Node::AggBind { parent, .. } => {
            let width = plus(width_at(widths, *parent), 1)?;
            Ok(width)
        }
    }
}

/// The width of the rows of each node.
pub fn widths_of(alloc: Global, nodes: &[Node]) -> Result<List<u16>, NoMemory>
    ensures { IfOk result (λ widths. widths ≡ in_order 0 width_step [] nodes.now) }
{
    let mut widths = List::new(alloc);
    for node in nodes {
        let width = width_after(node, widths.as_slice())?;
        widths.push(width)?;
    }
    Ok(widths)
}
