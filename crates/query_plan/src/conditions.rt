//! The texts of the conditions of filters.
ghost use Rattle.query_plan.specs.PlanText.{cond_text, ending as ending_def, link_text, opening as opening_def, operand_text, sign_text, signed_text};
ghost use Rattle.std.specs.List.{flat_map};
ghost use Rattle.std.specs.Prelude.{◌≡◌, ◌++◌, OnOk};

use crate::terms::put_term;
use da_lang::{CmpOp, Cond, Operand, SignedOperand};
use da_values::{Buf, NoMemory};

// The sign of a comparison, with the spaces round it.
#[tactic(auto, unfolding(crate::specs::PlanText::sign_text))]
fn sign(op: CmpOp) -> &'static [u8]
    ensures { result.now ≡ sign_text op }
{
    match op {
        CmpOp::Eq => b" == ",
        CmpOp::Ne => b" != ",
        CmpOp::Lt => b" < ",
        CmpOp::Le => b" <= ",
        CmpOp::Gt => b" > ",
        CmpOp::Ge => b" >= ",
    }
}

// What stands before a chain, within another one or not.
#[tactic(auto, unfolding(crate::specs::PlanText::opening))]
fn opening(within: bool) -> &'static [u8]
    ensures { result.now ≡ opening_def within }
{
    if within { b"(" } else { b"" }
}

// What stands after it.
#[tactic(auto, unfolding(crate::specs::PlanText::ending))]
fn ending(within: bool) -> &'static [u8]
    ensures { result.now ≡ ending_def within }
{
    if within { b")" } else { b"" }
}

// The sign before a further operand of a chain.
#[tactic(auto, unfolding(crate::specs::PlanText::link_text))]
fn link(minus: bool) -> &'static [u8]
    ensures { result.now ≡ link_text minus }
{
    if minus { b" - " } else { b" + " }
}

/// Appends a condition.
#[tactic(auto, using(crate::proofs::PlanTextAt::cond_rules))]
pub fn put_condition(condition: &Cond, out: &mut Buf) -> Result<(), NoMemory>
    ensures { OnOk result (out.new ≡ out.old ++ cond_text condition.now) }
{
    match condition {
        Cond::Truth(term) => put_term(term, out),
        Cond::Cmp(op, left, right) => {
            put_operand(left.get(), false, out)?;
            out.append(sign(*op))?;
            put_operand(right.get(), false, out)
        }
        Cond::Not(_) => out.append(b"?"),
        Cond::And(_) => out.append(b"?"),
        Cond::Or(_) => out.append(b"?"),
        Cond::Quant { .. } => out.append(b"?"),
    }
}

// Appends a side of a comparison, or an operand within a chain.
#[cycle(operands)]
#[tactic(auto, using(crate::proofs::PlanTextAt::cond_rules))]
fn put_operand(operand: &Operand, within: bool, out: &mut Buf) -> Result<(), NoMemory>
    ensures { OnOk result (out.new ≡ out.old ++ operand_text operand.now within) }
{
    match operand {
        Operand::Term(term) => put_term(term, out),
        Operand::Agg(_) => out.append(b"?"),
        Operand::Chain(first, more) => {
            out.append(opening(within))?;
            put_operand(first.get(), true, out)?;
            put_more(more.as_slice(), out)?;
            out.append(ending(within))
        }
    }
}

// Appends the further operands of a chain, each after its sign.
#[cycle(operands)]
#[tactic(auto, unfolding(crate::specs::PlanText::signed_text))]
fn put_more(more: &[SignedOperand], out: &mut Buf) -> Result<(), NoMemory>
    ensures { OnOk result (out.new ≡ out.old ++ flat_map signed_text more.now) }
{
    for signed in more {
        out.append(link(signed.minus))?;
        put_operand(signed.operand.get(), true, out)?;
    }
    Ok(())
}
