//! By what other nodes the rows of a node are told.
//!
//! Behind a part of an `and` stand nodes that stand over the root as well, where what they belong to is a numbered query: their
//! twins. Such a node has the rows of its twin where that part holds, and else none. Whether it holds is told by tests: that the
//! node of a `some` has a row, that the node of an `each` has none.
ghost use Rattle.da_lang.specs.declared.query.Node.TheVariants as node_of;
ghost use Rattle.da_values.specs.Sets.{Has};
ghost use Rattle.query_plan.specs.Nodes.{IsPlan, Tables, in_order, width_step};
ghost use Rattle.query_plan.specs.Seen.{given, is_met, redirected};
ghost use Rattle.query_plan.specs.Storing.{AreBelow, AreEntries, AreFlat, HasTests, IsEntry, IsFront, IsLast, IsNext, JoinsEntries, JoinsNodes, ReadsTold, base_in, joining, named_nodes, rows_if, test_nodes};
ghost use Rattle.std.specs.Option.{option_copied};
ghost use Rattle.std.specs.Prelude.{◌≡◌, ◌<◌, ◌≤◌, ◌+◌, ◌++◌, ◌∷◌, [], ℕ, IfOk, IfSome, IsTrue, Some, if◌then◌else◌, length, not, slice_get};

use crate::same::same_other;
use crate::stored::{Seen, Test};
use crate::width::{width_at, widths_of};
use da_lang::{Node, same_cond, same_gen, same_term};
use da_values::{List, NoMemory};
use std::alloc::Global;

/// The number of a place. No memory has room for more than 32 bits count.
pub fn number(place: usize) -> Result<u32, NoMemory>
    ensures { IfOk result (λ n. n ≡ place) }
{
    if place <= u32::MAX as usize {
        Ok(place as u32)
    } else {
        Err(NoMemory)
    }
}

// TESTS

// Whether two tests are the same.
fn same_test(a: Test, b: Test) -> bool
    ensures { IsTrue result → a ≡ b }
{
    a.node == b.node && a.filled == b.filled
}

// A test, or the one that is met where it is not.
fn signed(test: Test, filled: bool) -> Test
    ensures node { result.node ≡ test.node }
    ensures met { (rows : Tables) → is_met rows result ≡ (if filled then is_met rows test else not (is_met rows test)) }
{
    if filled {
        test
    } else {
        Test {
            node: test.node,
            filled: !test.filled,
        }
    }
}

// These tests, and one more.
fn with_test(alloc: Global, tests: &[Test], last: Test) -> Result<List<Test>, NoMemory>
    ensures { IfOk result (λ all. all ≡ tests.now ++ last ∷ []) }
{
    let mut all = copy_tests(alloc, tests)?;
    all.push(last)?;
    Ok(all)
}

// Copies of tests.
fn copy_tests(alloc: Global, tests: &[Test]) -> Result<List<Test>, NoMemory>
    ensures { IfOk result (λ copy. copy ≡ tests.now) }
{
    let mut copy = List::new(alloc);
    for one in tests {
        copy.push(*one)?;
    }
    Ok(copy)
}

// Whether one list of tests begins with another one.
fn begins(all: &[Test], front: &[Test]) -> bool
    ensures { IsTrue result → IsFront front.now all.now }
{
    if all.len() < front.len() {
        return false;
    }
    for place in 0..front.len() {
        if !same_test(all[place], front[place]) {
            return false;
        }
    }
    true
}

// Whether two lists of tests are equally long.
fn is_as_long(all: &[Test], tests: &[Test]) -> bool
    ensures { IsTrue result → length all.now ≡ length tests.now }
{
    all.len() == tests.len()
}

// Whether an entry tells by tests over the root alone.
fn is_over_root(entry: &Seen) -> bool
    ensures { IsTrue result → entry.now.node ≡ 0 }
{
    entry.node == 0
}

// Whether it does, and has one test more than there are here.
fn has_one_more(entry: &Seen, tests: &[Test]) -> bool
    ensures root { IsTrue result → entry.now.node ≡ 0 }
    ensures long { IsTrue result → length entry.now.tests ≡ length tests.now + 1 }
{
    entry.node == 0 && entry.tests.len() == tests.len() + 1
}

// The one test that is met, where these are, exactly where an entry gives a row: that its node has one, where it has these tests
// alone; or the test that it has besides, where it tells a node of no parts.
fn last_test(tests: &[Test], entry: &Seen) -> Option<Test>
    ensures { IfSome result (IsLast tests.now entry.now) }
{
    let all = entry.tests.as_slice();
    if !begins(all, tests) {
        return None;
    }
    if is_as_long(all, tests) {
        return Some(Test {
            node: entry.node,
            filled: true,
        });
    }
    if has_one_more(entry, tests) {
        return test_at(entry, tests.len());
    }
    None
}

// The test at a place of an entry.
fn test_at(entry: &Seen, place: usize) -> Option<Test>
    ensures { result ≡ slice_get entry.now.tests place }
{
    entry.tests.get(place).copied()
}

// A NODE OF NO PARTS

// The entry of the rows of a node of no parts that rows of another node extend, or that none does, by the entries of both. There
// may be none.
fn joined(alloc: Global, over: &Seen, under: &Seen, filled: bool) -> Result<Option<Seen>, NoMemory>
    ensures { IfOk result (λ found. IfSome found (JoinsEntries filled over.now under.now)) }
{
    if !is_over_root(over) {
        return Ok(None);
    }
    let tests = over.tests.as_slice();
    let Some(last) = last_test(tests, under) else {
        return Ok(None);
    };
    let all = with_test(alloc, tests, signed(last, filled))?;
    Ok(Some(over_root(all)))
}

// The entry of a child, if there is one.
fn child_entry(entries: &List<Seen>, child: u32) -> Option<&Seen>
    ensures { option_copied result ≡ slice_get entries.now child }
{
    entries.get(child as usize)
}

// Of two nodes with these entries.
fn joined_at(
    alloc: Global,
    entries: &List<Seen>,
    parent: u32,
    child: u32,
    filled: bool,
) -> Result<Option<Seen>, NoMemory>
    ensures { IfOk result (λ found. IfSome found (JoinsNodes filled entries.now parent child)) }
{
    let Some(over) = entries.get(parent as usize) else {
        return Ok(None);
    };
    let Some(under) = child_entry(entries, child) else {
        return Ok(None);
    };
    let found = joined(alloc, over, under, filled)?;
    Ok(found)
}

// TWINS

// The node by whose rows those of node j are told.
fn base_of(entries: &List<Seen>, j: u32) -> u32
    ensures { result ≡ base_in entries.now j }
{
    match entries.get(j as usize) {
        Some(entry) => entry.node,
        None => 0,
    }
}

// Whether the rows of node j are told by those of this one.
fn is_base(entries: &List<Seen>, j: u32, base: u32) -> bool
    ensures { IsTrue result → base_in entries.now j ≡ base }
{
    base_of(entries, j) == base
}

// Whether the second node is the first one with what its inputs are told by in their places.
#[tactic(auto, using(crate::proofs::EntryLaws::redirecting))]
fn is_twin(node: &Node, other: &Node, entries: &List<Seen>) -> bool
    ensures { IsTrue result → other.now ≡ redirected (base_in entries.now) node.now }
{
    match (node, other) {
        (Node::Root, Node::Root) => true,
        (
            Node::Gen { parent, gen_ },
            Node::Gen {
                parent: twin,
                gen_: twin_gen,
            },
        ) => is_base(entries, *parent, *twin) && same_gen(gen_, twin_gen),
        (
            Node::Filter { parent, cond },
            Node::Filter {
                parent: twin,
                cond: twin_cond,
            },
        ) => is_base(entries, *parent, *twin) && same_cond(cond.get(), twin_cond.get()),
        (
            Node::Semi { parent, child },
            Node::Semi {
                parent: twin,
                child: twin_child,
            },
        ) => is_base(entries, *parent, *twin) && is_base(entries, *child, *twin_child),
        (
            Node::Anti { parent, child },
            Node::Anti {
                parent: twin,
                child: twin_child,
            },
        ) => is_base(entries, *parent, *twin) && is_base(entries, *child, *twin_child),
        (
            Node::Union { left, right },
            Node::Union {
                left: twin,
                right: twin_right,
            },
        ) => is_base(entries, *left, *twin) && is_base(entries, *right, *twin_right),
        (
            Node::AggBind {
                parent,
                child,
                op,
                term,
                other: own_other,
            },
            Node::AggBind {
                parent: twin,
                child: twin_child,
                op: twin_op,
                term: twin_term,
                other: twin_other,
            },
        ) => {
            is_base(entries, *parent, *twin)
                && is_base(entries, *child, *twin_child)
                && *op == *twin_op
                && same_term(term, twin_term)
                && same_other(own_other, twin_other)
        }
        _ => false,
    }
}

// Whether some tests are these and no others.
fn are_these(all: &[Test], tests: &[Test]) -> bool
    ensures { IsTrue result → all.now ≡ tests.now }
{
    if !is_as_long(all, tests) {
        return false;
    }
    begins(all, tests)
}

// Whether node j is told by these tests alone.
fn has_tests(entries: &List<Seen>, tests: &[Test], j: u32) -> bool
    ensures { IsTrue result → HasTests entries.now tests.now j }
{
    match entries.get(j as usize) {
        Some(entry) => are_these(entry.tests.as_slice(), tests),
        None => false,
    }
}

// Whether a node reads nodes, and all of them are told by these tests alone.
fn share_tests(entries: &List<Seen>, tests: &[Test], node: &Node) -> bool
    ensures { IsTrue result → ReadsTold entries.now tests.now node.now }
{
    match node {
        Node::Root => false,
        Node::Gen { parent, .. } => has_tests(entries, tests, *parent),
        Node::Filter { parent, .. } => has_tests(entries, tests, *parent),
        Node::Semi { parent, child } => both_have(entries, tests, *parent, *child),
        Node::Anti { parent, child } => both_have(entries, tests, *parent, *child),
        Node::Union { left, right } => both_have(entries, tests, *left, *right),
        Node::AggBind { parent, child, .. } => both_have(entries, tests, *parent, *child),
    }
}

// Whether two nodes are told by these tests alone.
fn both_have(entries: &List<Seen>, tests: &[Test], first: u32, second: u32) -> bool
    ensures first { IsTrue result → HasTests entries.now tests.now first }
    ensures second { IsTrue result → HasTests entries.now tests.now second }
{
    if !has_tests(entries, tests, first) {
        return false;
    }
    has_tests(entries, tests, second)
}

// The tests of a node, or none.
fn tests_of(entries: &List<Seen>, j: u32) -> &[Test] {
    match entries.get(j as usize) {
        Some(entry) => entry.tests.as_slice(),
        None => &[],
    }
}

// The tests of the first node that a node reads, or none.
fn parent_tests<'e>(entries: &'e List<Seen>, node: &Node) -> &'e [Test] {
    match node {
        Node::Root => &[],
        Node::Gen { parent, .. } => tests_of(entries, *parent),
        Node::Filter { parent, .. } => tests_of(entries, *parent),
        Node::Semi { parent, .. } => tests_of(entries, *parent),
        Node::Anti { parent, .. } => tests_of(entries, *parent),
        Node::Union { left, .. } => tests_of(entries, *left),
        Node::AggBind { parent, .. } => tests_of(entries, *parent),
    }
}

// Whether a place is no later than another one.
fn is_up_to(t: usize, i: usize) -> bool
    ensures { IsTrue result → t ≤ i }
{
    t <= i
}

// The place of the first node, up to place i, that is a node with what its inputs are told by in their places.
fn twin_place(nodes: &[Node], node: &Node, entries: &List<Seen>, i: usize) -> Option<usize>
    ensures { IfSome result (λ t. (t ≤ i) × (slice_get nodes.now t ≡ Some (redirected (base_in entries.now) node.now))) }
{
    for t in 0..nodes.len() {
        if !is_up_to(t, i) {
            return None;
        }
        if is_twin(node, &nodes[t], entries) {
            return Some(t);
        }
    }
    None
}

// ENTRIES

// The entry that tells by these tests over the root.
fn over_root(tests: List<Test>) -> Seen
    ensures { result ≡ record { node = 0; tests = tests } }
{
    Seen { node: 0, tests }
}

// Whether rows of this width have no parts.
fn has_no_parts(width: u16) -> bool
    ensures { IsTrue result → width ≡ 0 }
{
    width == 0
}

// The entry that tells the rows of a node where these tests are met. A node of no parts is told by tests over the root: that it
// has a row is one more.
fn told_by(alloc: Global, width: u16, node: u32, tests: &[Test]) -> Result<Seen, NoMemory>
    ensures rows { IfOk result (λ s. (rows : Tables) → rows 0 ≡ [] ∷ [] → (width ≡ 0 → AreFlat (rows_if rows tests.now node))
        → given rows s ≡ rows_if rows tests.now node) }
    ensures named { IfOk result (λ s. (end : ℕ) → node ≤ end → AreBelow end (test_nodes tests.now) → AreBelow end (named_nodes s)) }
    ensures here { IfOk result (λ s. Has (named_nodes s) node) }
{
    if has_no_parts(width) {
        let here = Test { node, filled: true };
        let all = with_test(alloc, tests, here)?;
        return Ok(over_root(all));
    }
    let copy = copy_tests(alloc, tests)?;
    Ok(Seen { node, tests: copy })
}

/// The node that is told next: the one at this place, with rows of this width. Those before it have their entries.
#[derive(Clone, Copy)]
pub struct NextNode<'n> {
    pub nodes: &'n [Node],
    pub node: &'n Node,
    pub entries: &'n List<Seen>,
    pub width: u16,
    pub place: usize,
}

// Its entry by its twin, if it has one.
fn twin_entry(alloc: Global, next: &NextNode<'_>) -> Result<Option<Seen>, NoMemory>
    requires { IsNext next.now }
    ensures { IfOk result (λ found. IfSome found (IsEntry next.now.nodes.now next.now.place)) }
{
    let tests = parent_tests(next.entries, next.node);
    if !share_tests(next.entries, tests, next.node) {
        return Ok(None);
    }
    let Some(place) = twin_place(next.nodes, next.node, next.entries, next.place) else {
        return Ok(None);
    };
    let twin = number(place)?;
    let entry = told_by(alloc, next.width, twin, tests)?;
    Ok(Some(entry))
}

// Its entry by itself.
fn itself(alloc: Global, next: &NextNode<'_>) -> Result<Seen, NoMemory>
    requires { IsNext next.now }
    ensures { IfOk result (IsEntry next.now.nodes.now next.now.place) }
{
    let here = number(next.place)?;
    let entry = told_by(alloc, next.width, here, &[])?;
    Ok(entry)
}

// Its entry by its twin, or else by itself.
fn twin_or_itself(alloc: Global, next: &NextNode<'_>) -> Result<Seen, NoMemory>
    requires { IsNext next.now }
    ensures { IfOk result (IsEntry next.now.nodes.now next.now.place) }
{
    let found = twin_entry(alloc, next)?;
    match found {
        Some(entry) => Ok(entry),
        None => itself(alloc, next),
    }
}

// The entry of one that keeps the rows of a parent that rows of a child extend, or that none does: by the entries of both where
// these tell it, and else by its twin or itself.
fn joined_or_twin(
    alloc: Global,
    next: &NextNode<'_>,
    parent: u32,
    child: u32,
    filled: bool,
) -> Result<Seen, NoMemory>
    requires next { IsNext next.now }
    requires joins { next.now.node.now ≡ joining filled parent child }
    ensures { IfOk result (IsEntry next.now.nodes.now next.now.place) }
{
    let found = joined_at(alloc, next.entries, parent, child, filled)?;
    match found {
        Some(entry) => Ok(entry),
        None => twin_or_itself(alloc, next),
    }
}

// Its entry.
fn entry_of(alloc: Global, next: &NextNode<'_>) -> Result<Seen, NoMemory>
    requires { IsNext next.now }
    ensures { IfOk result (IsEntry next.now.nodes.now next.now.place) }
{
    match next.node {
        Node::Root => Ok(over_root(List::new(alloc))),
        Node::Semi { parent, child } => joined_or_twin(alloc, next, *parent, *child, true),
        Node::Anti { parent, child } => joined_or_twin(alloc, next, *parent, *child, false),
        _ => twin_or_itself(alloc, next),
    }
}

// The entry of the node at a place, with rows of these widths. Those before it have their entries.
fn entry_at(
    alloc: Global,
    nodes: &[Node],
    entries: &List<Seen>,
    widths: &[u16],
    i: usize,
) -> Result<Seen, NoMemory>
    requires plan { IsPlan nodes.now }
    requires root { slice_get nodes.now 0 ≡ Some node_of.Root }
    requires entries { AreEntries nodes.now entries.now }
    requires many { length entries.now ≡ i }
    requires within { i < length nodes.now }
    requires widths { widths.now ≡ in_order 0 width_step [] nodes.now }
    ensures { IfOk result (IsEntry nodes.now i) }
{
    let here = number(i)?;
    let next = NextNode {
        nodes,
        node: &nodes[i],
        entries,
        width: width_at(widths, here),
        place: i,
    };
    entry_of(alloc, &next)
}

/// An entry for each node of a plan, by which its rows are told.
pub fn entries_of(alloc: Global, nodes: &[Node]) -> Result<List<Seen>, NoMemory>
    requires plan { IsPlan nodes.now }
    requires root { slice_get nodes.now 0 ≡ Some node_of.Root }
    ensures entries { IfOk result (AreEntries nodes.now) }
    ensures many { IfOk result (λ entries. length entries ≡ length nodes.now) }
{
    let widths = widths_of(alloc, nodes)?;
    let mut entries = List::new(alloc);
    for i in 0..nodes.len() {
        let entry = entry_at(alloc, nodes, &entries, widths.as_slice(), i)?;
        entries.push(entry)?;
    }
    Ok(entries)
}
