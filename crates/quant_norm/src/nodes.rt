//! Nodes that are added to a plan.
ghost use Rattle.quant_norm.specs.Making.{Makes, place_of};
ghost use Rattle.quant_norm.specs.Prints.{node_print};
ghost use Rattle.quant_norm.specs.declared.limit.Halt.TheVariants.{Full};
ghost use Rattle.query_plan.specs.Plans.{added, compared};
ghost use Rattle.query_plan.specs.Spelled.{same_node as one_node};
ghost use Rattle.std.specs.Prelude.{◌≡◌, ◌≤◌, ◌++◌, ◌∷◌, [], IfOk, MatchResult, OnErr, OnOk, length, map, position};

use crate::limit::{Halt, MOST_NODES};
use crate::place::Place;
use crate::prints::print_node;
use da_lang::{Cond, Node};
use da_values::{Boxed, List, NoMemory};
use query_plan::same_node;
use std::alloc::Global;
use std::marker::Model;

/// The nodes of a plan, each with its print, by which an equal one is found among thousands. Contracts see the nodes.
#[derive(Drop)]
pub struct Nodes {
    alloc: Global,
    list: List<Node>,
    prints: List<u32>,
}

impl Model for Nodes {
    ghost use Rattle.da_lang.specs.contracts.query.Node as node;
    ghost use Rattle.da_lang.specs.declared.query.Node.{Node};
    ghost use Rattle.quant_norm.specs.Prints.{node_print};
    ghost use Rattle.std.specs.Coded.{coded_list};
    ghost use Rattle.std.specs.Prelude.{◌≡◌, List, map};

    ghost Value = { List Node };

    ghost coded = { coded_list node.the_row.coded };

    ghost view = { λ nodes. nodes.list };

    ghost invariant = { λ nodes. nodes.prints ≡ map node_print nodes.list };
}

impl Nodes {
    /// Node 0 alone, the node of the one empty row.
    pub fn open(alloc: Global) -> Result<Nodes, NoMemory>
        ensures { IfOk result (λ nodes. nodes ≡ Node.Root ∷ []) }
    {
        let print = root_print(alloc)?;
        let mut list = List::new(alloc);
        let mut prints = List::new(alloc);
        push_both(&mut list, &mut prints, Node::Root, print)?;
        Ok(Nodes {
            alloc,
            list,
            prints,
        })
    }

    /// The nodes as a list.
    pub fn into_list(self) -> List<Node>
        ensures { result ≡ self }
    {
        let Nodes {
            alloc: _,
            list,
            prints,
        } = self;
        drop(prints);
        list
    }

    // The print of a node.
    fn print(&self, node: &Node) -> Result<u32, NoMemory>
        ensures { IfOk result (λ print. print ≡ node_print node.now) }
    {
        print_node(self.alloc, node)
    }

    // The number of the first node that is equal to this one, which has this print.
    fn find(&self, node: &Node, print: u32) -> Option<usize>
        requires { print ≡ node_print node.now }
        ensures { result ≡ position (λ other. one_node node.now other) self.now }
    {
        found_at(self.list.as_slice(), self.prints.as_slice(), node, print)
    }
}

// The print of the root.
fn root_print(alloc: Global) -> Result<u32, NoMemory>
    ensures { IfOk result (λ print. print ≡ node_print Node.Root) }
{
    print_node(alloc, &Node::Root)
}

// Whether two nodes with these prints are equal. Where the prints differ, the nodes do.
fn is_same(other: &Node, its: u32, node: &Node, print: u32) -> bool
    requires its { its ≡ node_print other.now }
    requires print { print ≡ node_print node.now }
    ensures { result ≡ one_node node.now other.now }
{
    if its != print {
        return false;
    }
    same_node(node, other)
}

// The number of the first node that is equal.
fn found_at(nodes: &[Node], prints: &[u32], node: &Node, print: u32) -> Option<usize>
    requires prints { prints.now ≡ map node_print nodes.now }
    requires print { print ≡ node_print node.now }
    ensures { result ≡ position (λ other. one_node node.now other) nodes.now }
{
    for place in 0..nodes.len() {
        if is_same(&nodes[place], prints[place], node, print) {
            return Some(place);
        }
    }
    None
}

// The number of a node, if a plan may have it.
fn number_of(place: usize) -> Result<u32, Halt>
    ensures { MatchResult result (λ number. number ≡ place)
        (λ halt. halt ≡ Full → MOST_NODES ≤ place) }
{
    if place >= MOST_NODES {
        return Err(Halt::Full);
    }
    Ok(place as u32)
}

// Puts a node after the others, whose print stands after the others already. Where memory is refused both are as before it.
fn push_node(list: &mut List<Node>, prints: &mut List<u32>, node: Node) -> Result<(), NoMemory>
    requires { prints.old ≡ map node_print (list.old ++ node ∷ []) }
    ensures ok { OnOk result (list.new ≡ list.old ++ node ∷ []) }
    ensures err { OnErr result (list.new ≡ list.old) }
    ensures prints { prints.new ≡ map node_print list.new }
{
    let count = list.len();
    match list.push(node) {
        Ok(()) => Ok(()),
        Err(_) => {
            prints.truncate(count);
            Err(NoMemory)
        }
    }
}

// Puts a node and its print after the others. (A node that is not kept is dropped by a call: where it is left to the end of
// a way out, the check goes through the parts of each form of node there.)
fn push_both(
    list: &mut List<Node>,
    prints: &mut List<u32>,
    node: Node,
    print: u32,
) -> Result<(), NoMemory>
    requires prints { prints.old ≡ map node_print list.old }
    requires print { print ≡ node_print node }
    ensures ok { OnOk result (list.new ≡ list.old ++ node ∷ []) }
    ensures err { OnErr result (list.new ≡ list.old) }
    ensures prints { prints.new ≡ map node_print list.new }
{
    match prints.push(print) {
        Ok(()) => push_node(list, prints, node),
        Err(_) => {
            drop(node);
            Err(NoMemory)
        }
    }
}

// Puts a node after the others, and gives its number.
fn push(nodes: &mut Nodes, node: Node, print: u32) -> Result<u32, Halt>
    requires { print ≡ node_print node }
    ensures { Makes (nodes.old ++ node ∷ [], length nodes.old)
        (λ number. (nodes.new, number)) result }
{
    match number_of(nodes.list.len()) {
        Ok(number) => {
            push_both(&mut nodes.list, &mut nodes.prints, node, print)?;
            Ok(number)
        }
        Err(halt) => {
            drop(node);
            Err(halt)
        }
    }
}

// Adds a node of this print, unless an equal one is there.
fn add_printed(nodes: &mut Nodes, node: Node, print: u32) -> Result<u32, Halt>
    requires { print ≡ node_print node }
    ensures { Makes (added nodes.old node) (λ number. (nodes.new, number)) result }
{
    let found = nodes.find(&node, print);
    match found {
        Some(place) => {
            drop(node);
            number_of(place)
        }
        None => push(nodes, node, print),
    }
}

/// Adds a node, unless an equal one is there: its number, or that of the equal one.
pub fn add(nodes: &mut Nodes, node: Node) -> Result<u32, Halt>
    ensures { Makes (added nodes.old node) (λ number. (nodes.new, number)) result }
{
    let printed = nodes.print(&node);
    match printed {
        Ok(print) => add_printed(nodes, node, print),
        Err(_) => {
            drop(node);
            Err(Halt::Memory)
        }
    }
}

/// The rows of a node for which a condition holds.
pub fn filter_on(nodes: &mut Nodes, parent: u32, cond: Boxed<Cond>) -> Result<u32, Halt>
    ensures { Makes (added nodes.old (Node.Filter parent cond))
        (λ number. (nodes.new, number)) result }
{
    let number = add(nodes, Node::Filter { parent, cond })?;
    Ok(number)
}

/// The rows of a node that some row of another extends.
pub fn semi_on(nodes: &mut Nodes, parent: u32, child: u32) -> Result<u32, Halt>
    ensures { Makes (added nodes.old (Node.Semi parent child))
        (λ number. (nodes.new, number)) result }
{
    let number = add(nodes, Node::Semi { parent, child })?;
    Ok(number)
}

/// The rows of a node that no row of another extends.
pub fn anti_on(nodes: &mut Nodes, parent: u32, child: u32) -> Result<u32, Halt>
    ensures { Makes (added nodes.old (Node.Anti parent child))
        (λ number. (nodes.new, number)) result }
{
    let number = add(nodes, Node::Anti { parent, child })?;
    Ok(number)
}

/// The rows of either of two nodes.
pub fn union_on(nodes: &mut Nodes, left: u32, right: u32) -> Result<u32, Halt>
    ensures { Makes (added nodes.old (Node.Union left right))
        (λ number. (nodes.new, number)) result }
{
    let number = add(nodes, Node::Union { left, right })?;
    Ok(number)
}

/// The rows of a place for which a comparison holds, which reads the parts of the last place.
pub fn compare_on(
    nodes: &mut Nodes,
    at: &Place,
    last: &Place,
    cond: Boxed<Cond>,
) -> Result<u32, Halt>
    ensures { Makes (compared (place_of at.now) (place_of last.now) cond nodes.old)
        (λ k. (nodes.new, k)) result }
{
    if at.node == last.node {
        let number = filter_on(nodes, at.node, cond)?;
        return Ok(number);
    }
    let child = filter_on(nodes, last.node, cond)?;
    let number = semi_on(nodes, at.node, child)?;
    Ok(number)
}
