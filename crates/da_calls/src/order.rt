//! The order in which a walk through a graph leaves its nodes.
ghost use Rattle.da_calls.specs.CallPaths.{IsGraph};
ghost use Rattle.da_calls.specs.CallOrder.{Leaves};
ghost use Rattle.da_calls.specs.CallTasks.{entering};
ghost use Rattle.std.specs.Prelude.{◌++◌, ◌≡◌, IfOk, OnOk, false, length, map, replicate, reverse};

use da_values::{List, NoMemory};
use std::alloc::Global;

/// What a walk has still to do.
#[derive(Clone, Copy)]
enum Visit {
    /// Enter a node, if it was not entered before.
    Enter(usize),
    /// Leave a node: all that it goes to were entered.
    Leave(usize),
}

/// Enters every node, from each at once those that it goes to, and lists them in the order in which they were left.
pub fn leaving_order(alloc: Global, graph: &[List<usize>]) -> Result<List<usize>, NoMemory>
    requires { IsGraph graph.now }
    ensures { IfOk result (λ order. Leaves graph.now order) }
{
    let mut entered = none_entered(alloc, graph.len())?;
    let mut work = all_waiting(alloc, graph.len())?;
    let mut order = List::new(alloc);
    while let Some(task) = work.pop() {
        match task {
            Visit::Leave(node) => order.push(node)?,
            Visit::Enter(node) => {
                if !entered[node] {
                    entered[node] = true;
                    work.push(Visit::Leave(node))?;
                    enter_all(graph[node].as_slice(), &mut work)?;
                }
            }
        }
    }
    Ok(order)
}

/// The tasks to enter so many nodes.
fn all_waiting(alloc: Global, count: usize) -> Result<List<Visit>, NoMemory>
    ensures { IfOk result (λ work. reverse work ≡ entering count) }
{
    let mut work = List::new(alloc);
    for node in 0..count {
        work.push(Visit::Enter(node))?;
    }
    Ok(work)
}

/// Nodes of which none was entered.
fn none_entered(alloc: Global, count: usize) -> Result<Vec<bool>, NoMemory>
    ensures { IfOk result (λ entered. entered.items ≡ replicate count false) }
{
    match vec![in alloc; false; count] {
        Ok(entered) => Ok(entered),
        Err(_) => Err(NoMemory),
    }
}

/// Adds that nodes are to be entered.
fn enter_all(nodes: &[usize], work: &mut List<Visit>) -> Result<(), NoMemory>
    ensures { OnOk result (work.new ≡ work.old ++ map Visit.Enter nodes.now) }
{
    for node in nodes {
        work.push(Visit::Enter(*node))?;
    }
    Ok(())
}
