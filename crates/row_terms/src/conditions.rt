//! Whether conditions hold of a row. They have no `some`, no `each` and no aggregate, as those of plan nodes.
ghost use Rattle.da_lang.specs.Queries.{compares as compares_def, holds as holds_def, operand_value as operand_def, signed_value as signed_def, total};
ghost use Rattle.da_values.specs.Value.{val_of};
ghost use Rattle.da_values.specs.Views.{truth_of};
ghost use Rattle.query_plan.specs.PlainNodes.{ArePlain, ArePlainSigned, is_plain, is_plain_operand};
ghost use Rattle.row_terms.specs.Locals.{data_of};
ghost use Rattle.std.specs.List.{list_all, list_any};
ghost use Rattle.std.specs.Prelude.{◌≡◌, ◌+ℤ◌, IfOk, map, true};

use crate::locals::Locals;
use crate::terms::{added, int_of, term_value};
use da_lang::{CmpOp, Cond, Operand, SignedOperand};
use da_values::{NoMemory, Row, Value, cmp_values};
use std::cmp::Ordering;

/// Whether a condition holds of a row. A sum outside an i128 answers `NoMemory`: it has more operands than a text can have, or
/// one of them is the sum of more integers than memory holds.
#[cycle(conditions)]
#[tactic(auto, using(crate::proofs::PlainForms::plain_rules))]
pub fn holds(condition: &Cond, locals: &Locals<'_>, row: &Row) -> Result<bool, NoMemory>
    requires { is_plain condition.now ≡ true }
    ensures { IfOk result (λ b. b ≡ holds_def (data_of locals.now) condition.now row.now) }
{
    match condition {
        Cond::Truth(term) => Ok(is_true(&term_value(term, locals, row)?)),
        Cond::Cmp(op, left, right) => {
            let left = operand_value(left.get(), locals, row)?;
            let right = operand_value(right.get(), locals, row)?;
            Ok(compares(*op, cmp_values(&left, &right)))
        }
        Cond::Not(condition) => Ok(!holds(condition.get(), locals, row)?),
        Cond::And(conditions) => all_hold(conditions.as_slice(), locals, row),
        Cond::Or(conditions) => some_holds(conditions.as_slice(), locals, row),
        Cond::Quant { .. } => unreachable!(),
    }
}

// Whether each of these conditions holds.
#[cycle(conditions)]
fn all_hold(conditions: &[Cond], locals: &Locals<'_>, row: &Row) -> Result<bool, NoMemory>
    requires { ArePlain conditions.now }
    ensures { IfOk result (λ b. b ≡ list_all (λ c. holds_def (data_of locals.now) c row.now) conditions.now) }
{
    for condition in conditions {
        if !holds(condition, locals, row)? {
            return Ok(false);
        }
    }
    Ok(true)
}

// Whether one of these conditions holds.
#[cycle(conditions)]
fn some_holds(conditions: &[Cond], locals: &Locals<'_>, row: &Row) -> Result<bool, NoMemory>
    requires { ArePlain conditions.now }
    ensures { IfOk result (λ b. b ≡ list_any (λ c. holds_def (data_of locals.now) c row.now) conditions.now) }
{
    for condition in conditions {
        if holds(condition, locals, row)? {
            return Ok(true);
        }
    }
    Ok(false)
}

/// The value of a side of a comparison. A sum outside an i128 answers `NoMemory`.
#[cycle(operands)]
#[tactic(auto, using(crate::proofs::PlainForms::plain_rules))]
pub fn operand_value(operand: &Operand, locals: &Locals<'_>, row: &Row) -> Result<Value, NoMemory>
    requires { is_plain_operand operand.now ≡ true }
    ensures { IfOk result (λ v. val_of v ≡ operand_def (data_of locals.now) operand.now row.now) }
{
    match operand {
        Operand::Term(term) => term_value(term, locals, row),
        Operand::Chain(first, more) => {
            let first = operand_value(first.get(), locals, row)?;
            let sum = sum_with(more.as_slice(), locals, row, int_of(&first))?;
            Ok(Value::Int(sum))
        }
        Operand::Agg(_) => unreachable!(),
    }
}

// A number with further operands added to it, or taken away.
#[cycle(operands)]
fn sum_with(
    more: &[SignedOperand],
    locals: &Locals<'_>,
    row: &Row,
    first: i128,
) -> Result<i128, NoMemory>
    requires { ArePlainSigned more.now }
    ensures { IfOk result (λ sum. sum ≡ first +ℤ total (map (λ s. signed_def (data_of locals.now) s row.now) more.now)) }
{
    let mut sum = first;
    for signed in more {
        let v = operand_value(signed.operand.get(), locals, row)?;
        sum = added(sum, signed.minus, int_of(&v))?;
    }
    Ok(sum)
}

// A truth value, or false for what is none.
#[tactic(auto, using(crate::proofs::TermForms::viewing))]
fn is_true(v: &Value) -> bool
    ensures { result ≡ truth_of (val_of v.now) }
{
    match v {
        Value::Bool(truth) => *truth,
        _ => false,
    }
}

// Whether a comparison is true of two values in this order.
fn compares(op: CmpOp, order: Ordering) -> bool
    ensures { result ≡ compares_def op order }
{
    match op {
        CmpOp::Eq => order.is_eq(),
        CmpOp::Ne => order.is_ne(),
        CmpOp::Lt => order.is_lt(),
        CmpOp::Le => order.is_le(),
        CmpOp::Gt => order.is_gt(),
        CmpOp::Ge => order.is_ge(),
    }
}
