//! The cycles of graphs.
ghost use Rattle.da_calls.specs.CallCycles.{AddsSteps, IsTurned, MarksCycles};
ghost use Rattle.da_calls.specs.CallOrder.{Leaves};
ghost use Rattle.da_calls.specs.CallPaths.{IsGraph};
ghost use Rattle.std.specs.Prelude.{◌<◌, ◌≡◌, [], Contains, IfOk, OnOk, length, replicate, ℕ};

use crate::search::{mark_from, no_marks};
use da_values::{List, NoMemory};
use std::alloc::Global;

/// Marks each node with a node of its cycle, the same one for all nodes of a cycle. A node that is on no cycle is marked
/// with itself. The nodes are given in the order in which a walk left them.
pub fn cycle_marks(
    alloc: Global,
    graph: &[List<usize>],
    back: &[List<usize>],
    order: &[usize],
) -> Result<Vec<Option<usize>>, NoMemory>
    requires graph { IsGraph graph.now }
    requires back { IsTurned graph.now back.now }
    requires order { Leaves graph.now order.now }
    ensures { IfOk result (λ marks. MarksCycles graph.now marks.items) }
{
    let mut marks = no_marks(alloc, graph.len())?;
    let mut left = order.len();
    while left > 0 {
        left -= 1;
        mark_from(alloc, back, order[left], marks.as_mut_slice())?;
    }
    Ok(marks)
}

/// The graph with all its steps turned round.
pub fn turned(alloc: Global, graph: &[List<usize>]) -> Result<Vec<List<usize>>, NoMemory>
    requires { IsGraph graph.now }
    ensures { IfOk result (λ back. IsTurned graph.now back.items) }
{
    let mut back = no_steps(alloc, graph.len())?;
    for (node, row) in graph.iter().enumerate() {
        add_steps(node, row.as_slice(), back.as_mut_slice())?;
    }
    Ok(back)
}

/// A graph of so many nodes with no steps.
fn no_steps(alloc: Global, count: usize) -> Result<Vec<List<usize>>, NoMemory>
    ensures { IfOk result (λ graph. graph.items ≡ replicate count []) }
{
    let mut graph = Vec::new(alloc);
    for _node in 0..count {
        match graph.push(List::new(alloc)) {
            Ok(()) => {}
            Err(_) => return Err(NoMemory),
        }
    }
    Ok(graph)
}

/// Adds steps from these nodes to one.
fn add_steps(to: usize, nodes: &[usize], graph: &mut [List<usize>]) -> Result<(), NoMemory>
    requires { (n : ℕ) → Contains nodes.now n → n < length graph.old }
    ensures { OnOk result (AddsSteps to nodes.now graph.old graph.new) }
{
    for node in nodes {
        let row = &mut graph[*node];
        row.push(to)?;
    }
    Ok(())
}
