//! A plan in the making.
ghost use Rattle.query_plan.specs.Questions.{opening_plan};
ghost use Rattle.std.specs.Prelude.{◌≡◌, IfOk};

use crate::nodes::Nodes;
use da_lang::QueryNode;
use da_values::{List, NoMemory};
use query_plan::Plan;
use std::alloc::Global;
use std::marker::Model;

/// A plan to which nodes, queries and flags are still added. Contracts see the plan so far.
#[derive(Drop)]
pub struct Draft {
    pub nodes: Nodes,
    pub queries: List<QueryNode>,
    pub flags: List<u32>,
}

impl Model for Draft {
    ghost use Rattle.query_plan.specs.contracts.plan.Plan as plan;
    ghost use Rattle.query_plan.specs.declared.plan.Plan.{Plan};

    ghost Value = { Plan };

    ghost coded = { plan.the_row.coded };

    ghost view = { λ draft. record { nodes = draft.nodes; queries = draft.queries; flags = draft.flags } };
}

impl Draft {
    /// Node 0, the node of the one empty row.
    pub fn open(alloc: Global) -> Result<Draft, NoMemory>
        ensures { IfOk result (λ plan. plan ≡ opening_plan) }
    {
        let nodes = Nodes::open(alloc)?;
        let queries = List::new(alloc);
        let flags = List::new(alloc);
        Ok(Draft {
            nodes,
            queries,
            flags,
        })
    }

    /// The plan.
    pub fn finish(self) -> Plan
        ensures { result ≡ self }
    {
        let Draft {
            nodes,
            queries,
            flags,
        } = self;
        let nodes = nodes.into_list();
        Plan {
            nodes,
            queries,
            flags,
        }
    }
}
