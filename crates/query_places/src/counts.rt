//! How many numbered queries stand in an expression, and in a condition of an `await`.

use da_lang::{BindArg, ChainPart, Cond, Operand, RExpr, SignedOperand};

/// How many an expression asks for.
#[cycle(counting)]
pub fn asked_in(x: &RExpr) -> u32 {
    match x {
        RExpr::Ask(_) => 1,
        RExpr::Range(first, end) => asked_in(first.get()).saturating_add(asked_in(end.get())),
        RExpr::Cmp(_, left, right) => asked_in(left.get()).saturating_add(asked_in(right.get())),
        RExpr::Member(left, right) => asked_in(left.get()).saturating_add(asked_in(right.get())),
        RExpr::Tuple(parts) => asked_in_all(parts.as_slice()),
        RExpr::SetOf(parts) => asked_in_all(parts.as_slice()),
        RExpr::Or(parts) => asked_in_all(parts.as_slice()),
        RExpr::And(parts) => asked_in_all(parts.as_slice()),
        RExpr::Not(part) => asked_in(part.get()),
        RExpr::Chain(first, links) => {
            asked_in(first.get()).saturating_add(asked_in_links(links.as_slice()))
        }
        _ => 0,
    }
}

#[cycle(counting)]
fn asked_in_all(parts: &[RExpr]) -> u32 {
    let mut count = 0u32;
    for part in parts {
        count = count.saturating_add(asked_in(part));
    }
    count
}

#[cycle(counting)]
fn asked_in_links(links: &[ChainPart]) -> u32 {
    let mut count = 0u32;
    for link in links {
        count = count.saturating_add(asked_in(link.operand.get()));
    }
    count
}

/// How many the arguments of a call ask for.
pub fn asked_in_args(args: &[BindArg]) -> u32 {
    let mut count = 0u32;
    for arg in args {
        count = count.saturating_add(asked_in(arg.value.get()));
    }
    count
}

/// How many a condition of an `await` has.
#[cycle(conditions)]
pub fn asked_in_condition(cond: &Cond) -> u32 {
    match cond {
        Cond::Quant { .. } => 1,
        Cond::Cmp(_, left, right) => {
            asked_in_side(left.get()).saturating_add(asked_in_side(right.get()))
        }
        Cond::Not(part) => asked_in_condition(part.get()),
        Cond::And(parts) => asked_in_conditions(parts.as_slice()),
        Cond::Or(parts) => asked_in_conditions(parts.as_slice()),
        Cond::Truth(_) => 0,
    }
}

#[cycle(conditions)]
fn asked_in_conditions(parts: &[Cond]) -> u32 {
    let mut count = 0u32;
    for part in parts {
        count = count.saturating_add(asked_in_condition(part));
    }
    count
}

// How many a side of a comparison has.
#[cycle(sides)]
fn asked_in_side(side: &Operand) -> u32 {
    match side {
        Operand::Agg(_) => 1,
        Operand::Chain(first, others) => {
            asked_in_side(first.get()).saturating_add(asked_in_others(others.as_slice()))
        }
        Operand::Term(_) => 0,
    }
}

#[cycle(sides)]
fn asked_in_others(others: &[SignedOperand]) -> u32 {
    let mut count = 0u32;
    for other in others {
        count = count.saturating_add(asked_in_side(other.operand.get()));
    }
    count
}
