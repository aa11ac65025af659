//! The texts of nodes, of numbered queries and of live patterns.
ghost use Rattle.query_plan.specs.PlanText.{agg_word as agg_word_def, gen_text, live_text, node_text, node_texts, other_text, peer_text, query_text, query_texts, source_text, two_nodes};
ghost use Rattle.std.specs.Prelude.{◌≡◌, ◌++◌, IfOk, OnOk, decimal, get_or};

use crate::conditions::put_condition;
use crate::plan::Plan;
use crate::terms::{put_pattern, put_slot, put_term};
use crate::width::{width_at, widths_of};
use da_lang::{AggOp, LivePattern, Node, Pattern, QueryNode, Shape, Source, Term};
use da_values::{Buf, List, NoMemory, write_number};
use std::alloc::Global;

/// The texts of the nodes of a plan, in order.
pub fn plan_lines(alloc: Global, p: &Plan) -> Result<List<Buf>, NoMemory>
    ensures { IfOk result (λ lines. lines ≡ node_texts p.now.nodes) }
{
    let nodes = p.nodes.as_slice();
    let widths = widths_of(alloc, nodes)?;
    let mut lines = List::new(alloc);
    for node in nodes {
        lines.push(node_line(alloc, node, widths.as_slice())?)?;
    }
    Ok(lines)
}

/// The texts of the numbered queries of a plan, in order.
pub fn query_lines(alloc: Global, p: &Plan) -> Result<List<Buf>, NoMemory>
    ensures { IfOk result (λ lines. lines ≡ query_texts p.now.queries) }
{
    let mut lines = List::new(alloc);
    for query in p.queries.as_slice() {
        lines.push(query_line(alloc, query)?)?;
    }
    Ok(lines)
}

/// The text of a live pattern.
pub fn live_line(alloc: Global, p: &LivePattern) -> Result<Buf, NoMemory>
    ensures { IfOk result (λ line. line ≡ live_text p.now) }
{
    let mut line = List::new(alloc);
    put_generator(p.source, &p.message, &p.peer, 0, &mut line)?;
    Ok(line)
}

/// The text of a node, where the rows of the nodes have these widths.
pub fn node_line(alloc: Global, node: &Node, widths: &[u16]) -> Result<Buf, NoMemory>
    ensures { IfOk result (λ line. line ≡ node_text (λ i. get_or widths.now i 0) node.now) }
{
    let mut line = List::new(alloc);
    put_node(node, widths, &mut line)?;
    Ok(line)
}

// Appends the text of a node, where the rows of the nodes have these widths.
#[tactic(auto, unfolding(crate::specs::PlanText::node_text))]
fn put_node(node: &Node, widths: &[u16], out: &mut Buf) -> Result<(), NoMemory>
    ensures { OnOk result (out.new ≡ out.old ++ node_text (λ i. get_or widths.now i 0) node.now) }
{
    match node {
        Node::Root => out.append(b"root"),
        Node::Gen { parent, gen_ } => {
            put_number(b"gen ", *parent, out)?;
            out.append(b" ")?;
            let width = width_at(widths, *parent);
            put_generator(gen_.source, &gen_.message, &gen_.peer, width, out)
        }
        Node::Filter { parent, cond } => {
            put_number(b"filter ", *parent, out)?;
            out.append(b" ")?;
            put_condition(cond.get(), out)
        }
        Node::Semi { parent, child } => put_two_nodes(b"semi ", *parent, *child, out),
        Node::Anti { parent, child } => put_two_nodes(b"anti ", *parent, *child, out),
        Node::Union { left, right } => put_two_nodes(b"union ", *left, *right, out),
        Node::AggBind {
            parent,
            child,
            op,
            term,
            other,
        } => {
            put_two_nodes(b"agg ", *parent, *child, out)?;
            out.append(agg_word(*op))?;
            put_term(term, out)?;
            put_other(other, out)
        }
    }
}

// Appends a word and a number.
fn put_number(word: &[u8], number: u32, out: &mut Buf) -> Result<(), NoMemory>
    ensures { OnOk result (out.new ≡ out.old ++ word.now ++ decimal number) }
{
    out.append(word)?;
    write_number(number, out)
}

// Appends a word and the numbers of two nodes.
#[tactic(auto, unfolding(crate::specs::PlanText::two_nodes))]
fn put_two_nodes(word: &[u8], first: u32, second: u32, out: &mut Buf) -> Result<(), NoMemory>
    ensures { OnOk result (out.new ≡ out.old ++ two_nodes word.now first second) }
{
    put_number(word, first, out)?;
    put_number(b" ", second, out)
}

// Appends a source and its patterns, after a row of so many parts.
#[tactic(auto, unfolding(crate::specs::PlanText::gen_text))]
fn put_generator(
    source: Source,
    message: &Pattern,
    peer: &Pattern,
    parts: u16,
    out: &mut Buf,
) -> Result<(), NoMemory>
    ensures { OnOk result (out.new ≡ out.old ++ gen_text source message.now peer.now parts) }
{
    put_source(source, out)?;
    out.append(b" ")?;
    let behind = put_pattern(message, parts, out)?;
    put_peer(source, peer, behind, out)
}

// Appends a source.
#[tactic(auto, unfolding(crate::specs::PlanText::source_text))]
fn put_source(source: Source, out: &mut Buf) -> Result<(), NoMemory>
    ensures { OnOk result (out.new ≡ out.old ++ source_text source) }
{
    match source {
        Source::Received => out.append(b"received"),
        Source::Sent => out.append(b"sent"),
        Source::Slot(slot) => put_slot(slot, out),
    }
}

// Appends the pattern of the other process. An element of a slot has none.
#[tactic(auto, unfolding(crate::specs::PlanText::peer_text))]
fn put_peer(source: Source, peer: &Pattern, parts: u16, out: &mut Buf) -> Result<(), NoMemory>
    ensures { OnOk result (out.new ≡ out.old ++ peer_text source peer.now parts) }
{
    match source {
        Source::Received => {
            out.append(b" from ")?;
            put_pattern(peer, parts, out)?;
            Ok(())
        }
        Source::Sent => {
            out.append(b" to ")?;
            put_pattern(peer, parts, out)?;
            Ok(())
        }
        Source::Slot(_) => Ok(()),
    }
}

// What an aggregate makes of a set, with the spaces round it.
#[tactic(auto, unfolding(crate::specs::PlanText::agg_word))]
fn agg_word(op: AggOp) -> &'static [u8]
    ensures { result.now ≡ agg_word_def op }
{
    match op {
        AggOp::Count => b" count ",
        AggOp::Sum => b" sum ",
        AggOp::Min => b" min ",
        AggOp::Max => b" max ",
    }
}

// Appends the value for the empty set, which `count` and `sum` have not.
#[tactic(auto, unfolding(crate::specs::PlanText::other_text))]
fn put_other(other: &Option<Term>, out: &mut Buf) -> Result<(), NoMemory>
    ensures { OnOk result (out.new ≡ out.old ++ other_text other.now) }
{
    match other {
        None => Ok(()),
        Some(term) => {
            out.append(b" ")?;
            put_term(term, out)
        }
    }
}

// The text of a query.
fn query_line(alloc: Global, query: &QueryNode) -> Result<Buf, NoMemory>
    ensures { IfOk result (λ line. line ≡ query_text query.now) }
{
    let mut line = List::new(alloc);
    put_query(query, &mut line)?;
    Ok(line)
}

// Appends the text of a query.
#[tactic(auto, unfolding(crate::specs::PlanText::shape_text))]
fn put_query(query: &QueryNode, out: &mut Buf) -> Result<(), NoMemory>
    ensures { OnOk result (out.new ≡ out.old ++ query_text query.now) }
{
    match &query.shape {
        Shape::Exists => put_number(b"some ", query.node, out),
        Shape::Each => put_number(b"each ", query.node, out),
        Shape::Comp(term) => {
            put_number(b"set ", query.node, out)?;
            out.append(b" ")?;
            put_term(term, out)
        }
        Shape::Agg => put_number(b"agg ", query.node, out),
    }
}
