//! The nodes of numbered queries, and the flags of alternatives.
ghost use Rattle.quant_norm.specs.Making.{Makes, MakesPlan};
ghost use Rattle.query_plan.specs.Questions.{query_node, with_flag, with_query};

use crate::conditions::{bind_agg, denied_on, norm_cond, test_on};
use crate::draft::Draft;
use crate::generators::gens_on;
use crate::limit::Halt;
use crate::nodes::Nodes;
use crate::place::root_place;
use crate::rename::renamed_term;
use da_lang::{Cond, Query, QueryNode, Shape};
use std::alloc::Global;

// The node of a numbered query.
fn query_node(alloc: Global, query: &Query, nodes: &mut Nodes) -> Result<QueryNode, Halt>
    ensures { Makes (query_node nodes.old query.now) (λ told. (nodes.new, told)) result }
{
    let mut root = root_place(alloc);
    match query {
        Query::Quant { each, gens, cond } => {
            let last = gens_on(alloc, gens.as_slice(), nodes, &root)?;
            if *each {
                let node = denied_on(alloc, cond, nodes, &last)?;
                let shape = Shape::Each;
                Ok(QueryNode { node, shape })
            } else {
                let node = test_on(alloc, cond, nodes, &last)?;
                let shape = Shape::Exists;
                Ok(QueryNode { node, shape })
            }
        }
        Query::Comp { term, gens, cond } => {
            let last = gens_on(alloc, gens.as_slice(), nodes, &root)?;
            let node = test_on(alloc, cond, nodes, &last)?;
            let term = renamed_term(alloc, term, &last)?;
            let shape = Shape::Comp(term);
            Ok(QueryNode { node, shape })
        }
        Query::Agg(agg) => {
            bind_agg(alloc, agg.get(), nodes, &mut root)?;
            let node = root.node;
            let shape = Shape::Agg;
            Ok(QueryNode { node, shape })
        }
    }
}

/// Puts a numbered query into a plan.
pub fn put_query(alloc: Global, query: &Query, plan: &mut Draft) -> Result<(), Halt>
    ensures { MakesPlan (with_query plan.old query.now) (λ _. plan.new) result }
{
    let told = query_node(alloc, query, &mut plan.nodes)?;
    plan.queries.push(told)?;
    Ok(())
}

/// Puts the condition of an alternative into a plan.
pub fn put_flag(alloc: Global, cond: &Cond, plan: &mut Draft) -> Result<(), Halt>
    ensures { MakesPlan (with_flag plan.old cond.now) (λ _. plan.new) result }
{
    let root = root_place(alloc);
    let flag = norm_cond(alloc, cond, &mut plan.nodes, &root)?;
    plan.flags.push(flag)?;
    Ok(())
}
