//! The plan of a class, where it has not too many nodes.
ghost use Rattle.da_lang.specs.declared.program.Class.{Class as ClassOf};
ghost use Rattle.da_lang.specs.Live.{live};
ghost use Rattle.da_values.specs.Sets.{IsAlike};
ghost use Rattle.quant_norm.specs.Filtering.{FiltersEach};
ghost use Rattle.quant_norm.specs.SetSlots.{SparesSets};
ghost use Rattle.quant_norm.specs.declared.top.PlanFault.TheVariants.{TooMany};
ghost use Rattle.query_plan.specs.Nodes.{IsPlan};
ghost use Rattle.query_plan.specs.PlainNodes.{PlainNodes};
ghost use Rattle.query_plan.specs.PlanLive.{plan_live};
ghost use Rattle.query_plan.specs.Questions.{norm_class};
ghost use Rattle.query_plan.specs.Told.{IsPlanOf};
ghost use Rattle.std.specs.Prelude.{◌≡◌, ◌<◌, ◌≤◌, ℕ, IfErr, IfOk, Some, length, slice_get};

use crate::classes::plan_of;
use crate::limit::{Halt, MOST_NODES};
use da_lang::Class;
use da_types::Typed;
use da_values::NoMemory;
use query_plan::Plan;
use std::alloc::Global;
use thiserror::Error;

/// Why a class has no plan.
#[derive(Clone, Copy, Debug, Error)]
pub enum PlanFault {
    /// The class at this line has more nodes than a plan may have.
    #[error("the class at line {line} has too many plan nodes")]
    TooMany { line: u32 },
    /// Memory was refused.
    #[error("no memory is left")]
    Memory,
}

impl From<NoMemory> for PlanFault {
    ghost use Rattle.quant_norm.specs.declared.top.PlanFault.TheVariants.{Memory};
    ghost use Rattle.std.specs.Prelude.{◌≡◌};

    ghost from_gives = { λ _ fault. fault ≡ Memory };

    fn from(_: NoMemory) -> PlanFault {
        PlanFault::Memory
    }
}

/// The plan of the class at a place among the classes of a program, counted from 0. `TooMany` comes exactly where it has
/// more than `MOST_NODES` nodes, with the line of the class. `Memory` comes only where memory was refused, or where a row
/// would have more than 65,535 parts or the class 2^64 queries, which no accepted program comes near. Time is in step with
/// the statements of the class and, for each node that is asked for, with the nodes that are there.
pub fn normalise(alloc: Global, t: &Typed, class: usize) -> Result<Plan, PlanFault>
    requires exists { class < length t.now.classes }
    ensures made { IfOk result (λ plan. (c : ClassOf) → slice_get t.now.classes class ≡ Some c
        → plan ≡ norm_class c) }

    // In every world its nodes tell each numbered query of the class and each condition of an `await`.
    ensures told { IfOk result (λ plan. (c : ClassOf) → slice_get t.now.classes class ≡ Some c
        → IsPlanOf c plan) }

    // Each node reads lower ones alone, and has a condition that asks nothing of histories and sets. At each place among the
    // nodes the node of each condition has the rows of the place of which the condition holds.
    ensures plan { IfOk result (λ plan. IsPlan plan.nodes) }
    ensures plain { IfOk result (λ plan. PlainNodes plan.nodes) }
    ensures filters { IfOk result (λ plan. FiltersEach plan.nodes) }

    // No node names a slot of a set type, and the live patterns are those of the class, as a set.
    ensures sets { IfOk result (λ plan. (c : ClassOf) → slice_get t.now.classes class ≡ Some c
        → SparesSets t.now c plan.nodes) }
    ensures live { IfOk result (λ plan. (c : ClassOf) → slice_get t.now.classes class ≡ Some c
        → IsAlike (plan_live plan.nodes) (live c)) }
    ensures few { IfOk result (λ plan. length plan.nodes ≤ MOST_NODES) }
    ensures many { IfErr result (λ fault. (line : ℕ) → fault ≡ TooMany line
        → (c : ClassOf) → slice_get t.now.classes class ≡ Some c
        → (line ≡ c.line) × (MOST_NODES < length (norm_class c).nodes)) }
{
    let program = t.program();
    let its = &program.classes.as_slice()[class];
    normal_form(alloc, its)
}

// The plan of a class.
fn normal_form(alloc: Global, class: &Class) -> Result<Plan, PlanFault>
    ensures made { IfOk result (λ plan. plan ≡ norm_class class.now) }
    ensures told { IfOk result (λ plan. IsPlanOf class.now plan) }
    ensures plan { IfOk result (λ plan. IsPlan plan.nodes) }
    ensures plain { IfOk result (λ plan. PlainNodes plan.nodes) }
    ensures few { IfOk result (λ plan. length plan.nodes ≤ MOST_NODES) }
    ensures many { IfErr result (λ fault. (line : ℕ) → fault ≡ TooMany line
        → (line ≡ class.now.line) × (MOST_NODES < length (norm_class class.now).nodes)) }
{
    let made = plan_of(alloc, class);
    match made {
        Ok(plan) => {
            if plan.nodes.len() > MOST_NODES {
                return Err(PlanFault::TooMany { line: class.line });
            }
            Ok(plan)
        }
        Err(Halt::Full) => Err(PlanFault::TooMany { line: class.line }),
        Err(Halt::Memory) => Err(PlanFault::Memory),
    }
}
