//! A node to which nothing comes, and which so keeps its rows; an update by which nothing comes to any. To ask takes no memory.
ghost use Rattle.delta_rules.specs.Resting.{elements_rest as elements_rest_def, inputs_rest as inputs_rest_def, is_at_rest as is_at_rest_def, is_nothing as is_nothing_def, is_still as is_still_def, rests as rests_def, slots_rest as slots_rest_def, source_rests as source_rests_def};
ghost use Rattle.std.specs.List.{list_all};
ghost use Rattle.std.specs.Prelude.{◌≡◌, ◌==◌, ◌&&◌, not};

use crate::fixed::Rule;
use crate::turn::{Moved, Passing};
use answer_index::Change;
use da_lang::{Node, Source};

// Whether nothing came into a set, and nothing left it.
fn is_nothing(change: &Change) -> bool
    ensures { result ≡ is_nothing_def change.now }
{
    change.came.len() == 0 && change.left.len() == 0
}

// Whether this is so of the change with a number.
fn rests(changes: &[Change], j: usize) -> bool
    ensures { result ≡ rests_def changes.now j }
{
    match changes.get(j) {
        Some(change) => is_nothing(change),
        None => false,
    }
}

// Whether another slot moves than this one.
fn stands_still(moved: &Moved<'_>, s: u16) -> bool
    ensures { result ≡ not (moved.now.slot == s) }
{
    moved.slot != s
}

// Whether nothing comes into the source of a generator, and nothing leaves it.
fn source_rests(passing: &Passing<'_>, rule: &Rule, source: Source) -> bool
    ensures { result ≡ source_rests_def passing.now rule.now source }
{
    match source {
        Source::Received => rests(passing.live_changes, rule.live),
        Source::Sent => rests(passing.live_changes, rule.live),
        Source::Slot(s) => stands_still(passing.moved, s),
    }
}

// Whether the changes with two numbers are nothing.
fn both_rest(changes: &[Change], first: u32, second: u32) -> bool
    ensures { result ≡ (rests_def changes.now first && rests_def changes.now second) }
{
    rests(changes, first as usize) && rests(changes, second as usize)
}

// Whether nothing comes to a node, and nothing into the source of a generator behind it.
fn gen_rests(
    passing: &Passing<'_>,
    changes: &[Change],
    rule: &Rule,
    parent: u32,
    source: Source,
) -> bool
    ensures { result ≡ (rests_def changes.now parent && source_rests_def passing.now rule.now source) }
{
    rests(changes, parent as usize) && source_rests(passing, rule, source)
}

// Whether nothing comes to a node from the nodes that it reads and from what it goes over. Of the root this is never said.
fn inputs_rest(passing: &Passing<'_>, changes: &[Change], rule: &Rule, node: &Node) -> bool
    ensures { result ≡ inputs_rest_def passing.now changes.now rule.now node.now }
{
    match node {
        Node::Root => false,
        Node::Gen { parent, gen_ } => gen_rests(passing, changes, rule, *parent, gen_.source),
        Node::Filter { parent, .. } => rests(changes, *parent as usize),
        Node::Semi { parent, child } => both_rest(changes, *parent, *child),
        Node::Anti { parent, child } => both_rest(changes, *parent, *child),
        Node::Union { left, right } => both_rest(changes, *left, *right),
        Node::AggBind { parent, child, .. } => both_rest(changes, *parent, *child),
    }
}

/// Whether nothing comes to a node, by its rule, and what it works out itself stays: it keeps its rows. `named` is whether it
/// names the slot that is assigned, and `changes` are those of the nodes before it.
pub fn is_still(
    passing: &Passing<'_>,
    changes: &[Change],
    rule: &Rule,
    node: &Node,
    named: bool,
) -> bool
    ensures { result ≡ is_still_def passing.now changes.now rule.now node.now named }
{
    !named && inputs_rest(passing, changes, rule, node)
}

// Whether no element comes into the set in a slot, and none leaves it.
fn elements_rest(moved: &Moved<'_>) -> bool
    ensures { result ≡ elements_rest_def moved.now }
{
    moved.came.is_empty() && moved.left.is_empty()
}

// The same, where no slot is assigned either.
fn slots_rest(moved: &Moved<'_>) -> bool
    ensures { result ≡ slots_rest_def moved.now }
{
    !moved.assigned && elements_rest(moved)
}

// Whether nothing came into sets, and nothing left them.
fn all_rest(changes: &[Change]) -> bool
    ensures { result ≡ list_all is_nothing_def changes.now }
{
    for change in changes {
        if !is_nothing(change) {
            return false;
        }
    }
    true
}

/// Whether an update turns no node: it changes neither a slot nor the live rows.
pub fn is_at_rest(moved: &Moved<'_>, live_changes: &[Change]) -> bool
    ensures { result ≡ is_at_rest_def moved.now live_changes.now }
{
    slots_rest(moved) && all_rest(live_changes)
}
