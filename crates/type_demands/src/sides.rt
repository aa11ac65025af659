//! Sides of comparisons, and what they demand.
ghost use Rattle.std.specs.Prelude.{◌≡◌, [], ◌∷◌, OnOk};
ghost use Rattle.da_lang.specs.QueryTypes.{asks_order as order_asked};
ghost use Rattle.type_demands.specs.Conds.{no_sum, ordered_if};
ghost use Rattle.type_demands.specs.Listing.{Lists};
ghost use Rattle.type_demands.specs.declared.demand.Demand.TheVariants as demand_of;

use crate::copy::copy_scheme;
use crate::demand::{Demand, LineDemand};
use crate::known::Known;
use crate::puts::{put, same};
use da_lang::CmpOp;
use da_values::{List, NoMemory};
use std::alloc::Global;
use type_table::Scheme;

/// A side of a comparison: what stands for its type, and whether it is a `sum`.
#[derive(Drop)]
pub struct SideScheme {
    pub scheme: Scheme,
    pub sum: bool,
}

/// Whether a comparison asks for an order.
pub fn asks_order(op: CmpOp) -> bool
    ensures { result ≡ order_asked op }
{
    match op {
        CmpOp::Eq | CmpOp::Ne => false,
        CmpOp::Lt | CmpOp::Le | CmpOp::Gt | CmpOp::Ge => true,
    }
}

/// Puts what an operand of a chain is asked for: an integer, and no `sum`.
#[tactic(auto, using(crate::proofs::PutLaws::putting))]
pub fn operand_asked(
    side: SideScheme,
    known: &Known<'_>,
    demands: &mut List<LineDemand>,
) -> Result<(), NoMemory>
    ensures { OnOk result (Lists demands.old demands.new known.now (demand_of.Int side.scheme ∷ no_sum side.sum)) }
{
    let sum = side.sum;
    put(Demand::Int(side.scheme), known, demands)?;
    if sum {
        put(Demand::Never, known, demands)?;
    }
    Ok(())
}

/// Puts that a type is ordered.
pub fn ordered(
    scheme: &Scheme,
    alloc: Global,
    known: &Known<'_>,
    demands: &mut List<LineDemand>,
) -> Result<(), NoMemory>
    ensures { OnOk result (Lists demands.old demands.new known.now (demand_of.Ordered scheme.now ∷ [])) }
{
    let copy = copy_scheme(scheme, alloc)?;
    put(Demand::Ordered(copy), known, demands)?;
    Ok(())
}

/// Puts that a type is ordered, where a comparison asks for an order.
pub fn ordered_where(
    op: CmpOp,
    scheme: &Scheme,
    alloc: Global,
    known: &Known<'_>,
    demands: &mut List<LineDemand>,
) -> Result<(), NoMemory>
    ensures { OnOk result (Lists demands.old demands.new known.now (ordered_if (order_asked op) scheme.now)) }
{
    if asks_order(op) {
        ordered(scheme, alloc, known, demands)?;
        Ok(())
    } else {
        Ok(())
    }
}

// Puts what a comparison of two sides demands, by what stands for their types.
#[tactic(auto, using(crate::proofs::PutLaws::putting))]
fn schemes_compared(
    op: CmpOp,
    left: &Scheme,
    right: &Scheme,
    alloc: Global,
    known: &Known<'_>,
    demands: &mut List<LineDemand>,
) -> Result<(), NoMemory>
    ensures { OnOk result (Lists demands.old demands.new known.now (demand_of.Same right.now left.now ∷ ordered_if (order_asked op) left.now)) }
{
    let first = copy_scheme(left, alloc)?;
    same(right, first, alloc, known, demands)?;
    ordered_where(op, left, alloc, known, demands)?;
    Ok(())
}

/// Puts what a comparison of two sides demands. (The sides are dropped by calls: where they are left to the end of each way
/// out, the check goes through the parts of each form of type there.)
pub fn sides_compared(
    op: CmpOp,
    left: SideScheme,
    right: SideScheme,
    alloc: Global,
    known: &Known<'_>,
    demands: &mut List<LineDemand>,
) -> Result<(), NoMemory>
    ensures { OnOk result (Lists demands.old demands.new known.now (demand_of.Same right.scheme left.scheme ∷ ordered_if (order_asked op) left.scheme)) }
{
    let done = schemes_compared(op, &left.scheme, &right.scheme, alloc, known, demands);
    drop(left);
    drop(right);
    done
}
