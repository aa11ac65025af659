//! Sides of comparisons.
ghost use Rattle.da_lang.specs.QueryTypes.{agg_type as side_of_agg, asks_order as order_asked, comparable, given, is_operand as operand_side, plain as plain_side};
ghost use Rattle.da_lang.specs.declared.query.AggOp.TheVariants.{Min, Sum};
ghost use Rattle.da_lang.specs.declared.ty.Ty.TheVariants.{Int};
ghost use Rattle.da_typing.specs.SideView.{side_of};
ghost use Rattle.std.specs.Prelude.{◌≡◌, ◌&&◌, if◌then◌else◌, option_map};

use crate::types::{is_int, is_ordered, is_typed, same_type};
use da_lang::{AggOp, CmpOp, Ty};

/// A side of a comparison: its type, and whether it is a `sum`.
#[derive(Drop)]
pub struct Side {
    pub ty: Ty,
    pub sum: bool,
}

/// A side that is no `sum`.
pub fn plain(ty: Ty) -> Side
    ensures { Some (side_of result) ≡ plain_side ty }
{
    Side { ty, sum: false }
}

/// The side of a chain whose first operand is this side, where those after it may stand in a chain.
pub fn chain_side(first: &Option<Side>, holds: bool) -> Option<Side>
    ensures { option_map side_of result ≡ (if operand_side (option_map side_of first.now) && holds then plain_side Int else None) }
{
    if is_operand(first) && holds {
        Some(plain(Ty::Int))
    } else {
        None
    }
}

/// A side that is no `sum`, of a type that there may be.
pub fn plain_of(found: Option<Ty>) -> Option<Side>
    ensures { option_map side_of result ≡ given found plain_side }
{
    match found {
        None => None,
        Some(ty) => Some(plain(ty)),
    }
}

/// Whether a side may stand in a chain: an integer that is no `sum`.
pub fn is_operand(side: &Option<Side>) -> bool
    ensures { result ≡ operand_side (option_map side_of side.now) }
{
    match side {
        None => false,
        Some(side) => is_int(&side.ty) && !side.sum,
    }
}

/// Whether a comparison asks for an order.
pub fn asks_order(op: CmpOp) -> bool
    ensures { result ≡ order_asked op }
{
    match op {
        CmpOp::Eq | CmpOp::Ne => false,
        CmpOp::Lt | CmpOp::Le | CmpOp::Gt | CmpOp::Ge => true,
    }
}

/// Whether two sides are of one type, ordered where the comparison asks for an order.
pub fn are_comparable(op: CmpOp, left: &Option<Side>, right: &Option<Side>) -> bool
    ensures { result ≡ comparable op (option_map side_of left.now) (option_map side_of right.now) }
{
    match left {
        None => false,
        Some(left) => match right {
            None => false,
            Some(right) => same_type(&left.ty, &right.ty)
                && (!asks_order(op) || is_ordered(&left.ty)),
        },
    }
}

/// An aggregate over a set with elements of this type, where the value that `min` and `max` give of the empty set has
/// the other.
pub fn agg_type(op: AggOp, ty: Ty, other: &Option<Ty>) -> Option<Side>
    ensures { option_map side_of result ≡ side_of_agg op ty other.now }
{
    match op {
        AggOp::Count => Some(plain(Ty::Int)),
        AggOp::Sum => sum_type(&ty),
        AggOp::Min => extreme_type(ty, other),
        AggOp::Max => extreme_type(ty, other),
    }
}

// The sum of a set of integers.
fn sum_type(ty: &Ty) -> Option<Side>
    ensures { option_map side_of result ≡ side_of_agg Sum ty.now None }
{
    if is_int(ty) {
        Some(Side {
            ty: Ty::Int,
            sum: true,
        })
    } else {
        None
    }
}

// The least or the greatest of a set of an ordered type, or a value of the same type.
fn extreme_type(ty: Ty, other: &Option<Ty>) -> Option<Side>
    ensures { option_map side_of result ≡ side_of_agg Min ty other.now }
{
    if is_ordered(&ty) && is_typed(other, &ty) {
        Some(plain(ty))
    } else {
        None
    }
}
