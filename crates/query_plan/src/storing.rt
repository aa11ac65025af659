//! The plan that is stored in the place of another one.
ghost use Rattle.da_lang.specs.declared.query.Node.TheVariants as node_of;
ghost use Rattle.query_plan.specs.Nodes.{IsPlan, reads};
ghost use Rattle.query_plan.specs.PlainNodes.{PlainNodes};
ghost use Rattle.query_plan.specs.Seen.{IsStored, redirected};
ghost use Rattle.query_plan.specs.Storing.{AreEntries, IsChoice, all_kept, is_kept as is_kept_def, named_kept, named_nodes, number_in, picked, ranks, read_down, reads_kept, renumbered_test, seen_as, table_from, test_nodes};
ghost use Rattle.std.specs.Prelude.{◌≡◌, ◌++◌, ◌∷◌, [], IfOk, OnOk, Some, if◌then◌else◌, length, map, slice_get, slice_set, suc, true};

use crate::copy::copy_other;
use crate::plan::Plan;
use crate::stored::{Seen, Stored, Test};
use crate::twins::{entries_of, number};
use da_lang::{Node, copy_cond, copy_gen, copy_term};
use da_values::{Boxed, List, NoMemory};
use std::alloc::Global;

// WHICH NODES ARE KEPT

// Whether a node is kept.
fn is_kept(kept: &[bool], i: usize) -> bool
    ensures { result ≡ is_kept_def kept.now i }
{
    match kept.get(i) {
        Some(stays) => *stays,
        None => false,
    }
}

// Keeps a node, if it is there.
#[tactic(auto, using(crate::proofs::KeepLaws::put_past))]
fn keep(kept: &mut List<bool>, node: u32)
    ensures { kept.new ≡ slice_set kept.old node true }
{
    let place = node as usize;
    if place < kept.len() {
        kept.set(place, true);
    }
}

// Keeps two nodes.
fn keep_both(kept: &mut List<bool>, first: u32, second: u32)
    ensures { kept.new ≡ slice_set (slice_set kept.old first true) second true }
{
    keep(kept, first);
    keep(kept, second);
}

// Keeps the nodes of tests.
fn keep_tested(kept: &mut List<bool>, tests: &[Test])
    ensures { kept.new ≡ all_kept kept.old (test_nodes tests.now) }
{
    for one in tests {
        keep(kept, one.node);
    }
}

// Keeps the nodes by which an entry tells rows.
fn keep_named(kept: &mut List<bool>, entry: &Seen)
    ensures { kept.new ≡ all_kept kept.old (named_nodes entry.now) }
{
    keep(kept, entry.node);
    keep_tested(kept, entry.tests.as_slice());
}

// Keeps the nodes that a node reads.
fn keep_read(kept: &mut List<bool>, node: &Node)
    ensures { kept.new ≡ all_kept kept.old (reads node.now) }
{
    match node {
        Node::Root => {}
        Node::Gen { parent, .. } => keep(kept, *parent),
        Node::Filter { parent, .. } => keep(kept, *parent),
        Node::Semi { parent, child } => keep_both(kept, *parent, *child),
        Node::Anti { parent, child } => keep_both(kept, *parent, *child),
        Node::Union { left, right } => keep_both(kept, *left, *right),
        Node::AggBind { parent, child, .. } => keep_both(kept, *parent, *child),
    }
}

// Keeps the nodes that node i reads, where it is kept itself.
fn keep_read_of(kept: &mut List<bool>, node: &Node, i: usize)
    ensures { kept.new ≡ reads_kept i node.now kept.old }
{
    if !is_kept(kept.as_slice(), i) {
        return;
    }
    keep_read(kept, node);
}

// So many nodes of which none is kept.
fn none_kept(alloc: Global, count: usize) -> Result<List<bool>, NoMemory>
    ensures { IfOk result (λ kept. length kept ≡ count) }
{
    let mut kept = List::new(alloc);
    for _node in 0..count {
        kept.push(false)?;
    }
    Ok(kept)
}

// Keeps each node by which a node is told.
fn keep_all_named(kept: &mut List<bool>, entries: &[Seen])
    ensures { kept.new ≡ named_kept kept.old entries.now }
{
    for entry in entries {
        keep_named(kept, entry);
    }
}

// Keeps each node that a kept one reads: the last node first, since each node reads lower ones alone.
fn keep_all_read(kept: &mut List<bool>, nodes: &[Node])
    ensures { kept.new ≡ read_down (length nodes.now) nodes.now kept.old }
{
    let count = nodes.len();
    for done in 0..count {
        let i = count - 1 - done;
        keep_read_of(kept, &nodes[i], i);
    }
}

// Which nodes are kept where nodes are told by these entries.
fn choice(alloc: Global, nodes: &[Node], entries: &[Seen]) -> Result<List<bool>, NoMemory>
    requires plan { IsPlan nodes.now }
    requires entries { AreEntries nodes.now entries.now }
    requires many { length entries.now ≡ length nodes.now }
    ensures { IfOk result (IsChoice nodes.now entries.now) }
{
    let mut kept = none_kept(alloc, nodes.len())?;
    keep_all_named(&mut kept, entries);
    keep_all_read(&mut kept, nodes);
    Ok(kept)
}

// NEW NUMBERS

// The number after a node with this one, which is the next one where the node is kept.
fn number_after(number: u32, stays: bool) -> Result<u32, NoMemory>
    ensures { IfOk result (λ next. next ≡ (if stays then suc number else number)) }
{
    if !stays {
        return Ok(number);
    }
    match number.checked_add(1) {
        Some(next) => Ok(next),
        None => Err(NoMemory),
    }
}

// For each node how many kept ones stand before it.
fn numbers_of(alloc: Global, kept: &[bool]) -> Result<List<u32>, NoMemory>
    ensures { IfOk result (λ numbers. numbers ≡ ranks 0 kept.now) }
{
    let mut numbers = List::new(alloc);
    let mut count = 0;
    for stays in kept {
        numbers.push(count)?;
        count = number_after(count, *stays)?;
    }
    Ok(numbers)
}

// The new number of a node, or 0 where there is none.
fn number_of(numbers: &[u32], i: u32) -> u32
    ensures { result ≡ number_in numbers.now i }
{
    match numbers.get(i as usize) {
        Some(number) => *number,
        None => 0,
    }
}

// A copy of a node that reads others by their new numbers.
#[tactic(auto, using(crate::proofs::EntryLaws::redirecting))]
fn redirect(alloc: Global, node: &Node, numbers: &[u32]) -> Result<Node, NoMemory>
    ensures { IfOk result (λ copy. copy ≡ redirected (number_in numbers.now) node.now) }
{
    match node {
        Node::Root => Ok(Node::Root),
        Node::Gen { parent, gen_ } => Ok(Node::Gen {
            parent: number_of(numbers, *parent),
            gen_: copy_gen(alloc, gen_)?,
        }),
        Node::Filter { parent, cond } => Ok(Node::Filter {
            parent: number_of(numbers, *parent),
            cond: Boxed::new(alloc, copy_cond(alloc, cond.get())?)?,
        }),
        Node::Semi { parent, child } => Ok(Node::Semi {
            parent: number_of(numbers, *parent),
            child: number_of(numbers, *child),
        }),
        Node::Anti { parent, child } => Ok(Node::Anti {
            parent: number_of(numbers, *parent),
            child: number_of(numbers, *child),
        }),
        Node::Union { left, right } => Ok(Node::Union {
            left: number_of(numbers, *left),
            right: number_of(numbers, *right),
        }),
        Node::AggBind {
            parent,
            child,
            op,
            term,
            other,
        } => {
            let other = copy_other(alloc, other)?;
            let term = copy_term(alloc, term)?;
            Ok(Node::AggBind {
                parent: number_of(numbers, *parent),
                child: number_of(numbers, *child),
                op: *op,
                term,
                other,
            })
        }
    }
}

// Adds a node that reads others by their new numbers, where it is kept.
fn pick_one(
    alloc: Global,
    node: &Node,
    stays: bool,
    numbers: &[u32],
    picks: &mut List<Node>,
) -> Result<(), NoMemory>
    ensures { OnOk result (picks.new ≡ picks.old ++ picked (number_in numbers.now) (stays ∷ []) (node.now ∷ [])) }
{
    if !stays {
        return Ok(());
    }
    let copy = redirect(alloc, node, numbers)?;
    picks.push(copy)?;
    Ok(())
}

// The kept nodes, which read others by their new numbers.
fn pick(
    alloc: Global,
    nodes: &[Node],
    kept: &[bool],
    numbers: &[u32],
) -> Result<List<Node>, NoMemory>
    requires { length kept.now ≡ length nodes.now }
    ensures { IfOk result (λ picks. picks ≡ picked (number_in numbers.now) kept.now nodes.now) }
{
    let mut picks = List::new(alloc);
    for i in 0..nodes.len() {
        pick_one(alloc, &nodes[i], kept[i], numbers, &mut picks)?;
    }
    Ok(picks)
}

// THE TABLE

// Tests by the new numbers.
fn renumber_tests(alloc: Global, tests: &[Test], numbers: &[u32]) -> Result<List<Test>, NoMemory>
    ensures { IfOk result (λ fresh. fresh ≡ map (renumbered_test (number_in numbers.now)) tests.now) }
{
    let mut fresh = List::new(alloc);
    for one in tests {
        fresh.push(renumber_test(*one, numbers))?;
    }
    Ok(fresh)
}

// A test by the new numbers.
fn renumber_test(test: Test, numbers: &[u32]) -> Test
    ensures { result ≡ renumbered_test (number_in numbers.now) test }
{
    Test {
        node: number_of(numbers, test.node),
        filled: test.filled,
    }
}

// The entry of a node that is seen by itself.
fn itself(alloc: Global, node: u32) -> Seen
    ensures { result ≡ record { node = node; tests = [] } }
{
    Seen {
        node,
        tests: List::new(alloc),
    }
}

// The entry of node i by the new numbers, where it is kept or not.
fn see(alloc: Global, entry: &Seen, stays: bool, i: u32, numbers: &[u32]) -> Result<Seen, NoMemory>
    ensures { IfOk result (λ s. s ≡ seen_as (number_in numbers.now) stays i entry.now) }
{
    if stays {
        return Ok(itself(alloc, number_of(numbers, i)));
    }
    let tests = renumber_tests(alloc, entry.tests.as_slice(), numbers)?;
    let node = number_of(numbers, entry.node);
    Ok(Seen { node, tests })
}

// The table of all nodes.
fn table(
    alloc: Global,
    entries: &[Seen],
    kept: &[bool],
    numbers: &[u32],
) -> Result<List<Seen>, NoMemory>
    ensures { IfOk result (λ table. table ≡ table_from (number_in numbers.now) kept.now 0 entries.now) }
{
    let mut table = List::new(alloc);
    for i in 0..entries.len() {
        let here = number(i)?;
        let seen = see(alloc, &entries[i], is_kept(kept, i), here, numbers)?;
        table.push(seen)?;
    }
    Ok(table)
}

// THE STORED PLAN

/// What is stored of a plan. Nodes behind a part of an `and` that stand over the root as well are seen by these twins, and not
/// stored.
pub fn store(alloc: Global, plan: &Plan) -> Result<Stored, NoMemory>
    requires plan { IsPlan plan.now.nodes }
    requires plain { PlainNodes plan.now.nodes }
    requires root { slice_get plan.now.nodes 0 ≡ Some node_of.Root }
    ensures { IfOk result (IsStored plan.now.nodes) }
{
    let nodes = plan.nodes.as_slice();
    let entries = entries_of(alloc, nodes)?;
    let told = entries.as_slice();
    let kept = choice(alloc, nodes, told)?;
    let stays = kept.as_slice();
    let numbers = numbers_of(alloc, stays)?;
    let renamed = numbers.as_slice();
    let stored = stored_nodes(alloc, nodes, stays, renamed)?;
    let seen = table(alloc, told, stays, renamed)?;
    Ok(Stored { plan: stored, seen })
}

// The kept nodes as a plan that asks nothing by itself.
fn stored_nodes(
    alloc: Global,
    nodes: &[Node],
    kept: &[bool],
    numbers: &[u32],
) -> Result<Plan, NoMemory>
    requires { length kept.now ≡ length nodes.now }
    ensures { IfOk result (λ stored. stored.nodes ≡ picked (number_in numbers.now) kept.now nodes.now) }
{
    let picks = pick(alloc, nodes, kept, numbers)?;
    Ok(Plan {
        nodes: picks,
        queries: List::new(alloc),
        flags: List::new(alloc),
    })
}
