//! Searches in graphs. The nodes of a graph are numbers from 0, and it has for each node those that it goes to.
ghost use Rattle.da_calls.specs.CallPaths.{IsGraph, MarkedFrom, MarksReached};
ghost use Rattle.std.specs.Prelude.{◌≡◌, ◌<◌, ◌++◌, length, replicate, Contains, None, IfOk, OnOk, ℕ};

use da_values::{List, NoMemory};
use std::alloc::Global;

/// Marks each node that some of these nodes lead to, or that is one of them.
pub fn reach_marks(
    alloc: Global,
    graph: &[List<usize>],
    starts: &[usize],
) -> Result<Vec<Option<usize>>, NoMemory>
    requires graph { IsGraph graph.now }
    requires starts { (n : ℕ) → Contains starts.now n → n < length graph.now }
    ensures { IfOk result (λ marks. MarksReached graph.now starts.now marks.items) }
{
    let mut marks = no_marks(alloc, graph.len())?;
    for start in starts {
        mark_from(alloc, graph, *start, marks.as_mut_slice())?;
    }
    Ok(marks)
}

/// No marks for so many nodes.
pub fn no_marks(alloc: Global, count: usize) -> Result<Vec<Option<usize>>, NoMemory>
    ensures { IfOk result (λ marks. marks.items ≡ replicate count None) }
{
    match vec![in alloc; None; count] {
        Ok(marks) => Ok(marks),
        Err(_) => Err(NoMemory),
    }
}

/// Marks with `from` all that it leads to by nodes with no mark yet.
pub fn mark_from(
    alloc: Global,
    graph: &[List<usize>],
    from: usize,
    marks: &mut [Option<usize>],
) -> Result<(), NoMemory>
    requires graph { IsGraph graph.now }
    requires marks { length marks.old ≡ length graph.now }
    requires from { from < length graph.now }
    ensures { OnOk result (MarkedFrom graph.now from marks.old marks.new) }
{
    let mut work = List::new(alloc);
    work.push(from)?;
    while let Some(node) = work.pop() {
        if marks[node].is_none() {
            marks[node] = Some(from);
            push_all(graph[node].as_slice(), &mut work)?;
        }
    }
    Ok(())
}

/// Adds numbers at the end of a list.
fn push_all(numbers: &[usize], list: &mut List<usize>) -> Result<(), NoMemory>
    ensures { OnOk result (list.new ≡ list.old ++ numbers.now) }
{
    for number in numbers {
        list.push(*number)?;
    }
    Ok(())
}
