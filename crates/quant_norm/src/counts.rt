//! How many numbered queries stand in a part of the text.
ghost use Rattle.da_lang.specs.declared.program.BindArg.{BindArg};
ghost use Rattle.query_plan.specs.Questions.{asks, cond_asks};
ghost use Rattle.quant_norm.specs.Making.{operand_asks, part_asks, signed_asks};
ghost use Rattle.std.specs.List.{sum_by};
ghost use Rattle.std.specs.Prelude.{◌≡◌, ◌+◌, IfOk};

use da_lang::{BindArg, ChainPart, Cond, Operand, RExpr, SignedOperand};
use da_values::NoMemory;

// The sum of two numbers of queries.
fn both(a: usize, b: usize) -> Result<usize, NoMemory>
    ensures { IfOk result (λ sum. sum ≡ a + b) }
{
    match a.checked_add(b) {
        Some(sum) => Ok(sum),
        None => Err(NoMemory),
    }
}

/// How many numbered queries an expression asks for.
#[cycle(asks)]
#[tactic(auto, using(crate::proofs::AsksAt::asking))]
pub fn asked_in(expr: &RExpr) -> Result<usize, NoMemory>
    ensures { IfOk result (λ count. count ≡ asks expr.now) }
{
    match expr {
        RExpr::Ask(_) => Ok(1),
        RExpr::Range(a, b) => Ok(both(asked_in(a.get())?, asked_in(b.get())?)?),
        RExpr::Cmp(_, a, b) => Ok(both(asked_in(a.get())?, asked_in(b.get())?)?),
        RExpr::Member(a, b) => Ok(both(asked_in(a.get())?, asked_in(b.get())?)?),
        RExpr::Tuple(parts) => Ok(asked_in_all(parts.as_slice())?),
        RExpr::SetOf(parts) => Ok(asked_in_all(parts.as_slice())?),
        RExpr::Or(parts) => Ok(asked_in_all(parts.as_slice())?),
        RExpr::And(parts) => Ok(asked_in_all(parts.as_slice())?),
        RExpr::Not(a) => Ok(asked_in(a.get())?),
        RExpr::Chain(a, more) => Ok(both(asked_in(a.get())?, asked_in_chain(more.as_slice())?)?),
        RExpr::Const(_) => Ok(0),
        RExpr::Procs(_) => Ok(0),
        RExpr::Me => Ok(0),
        RExpr::Slot(_) => Ok(0),
        RExpr::Clock => Ok(0),
    }
}

#[cycle(asks)]
#[tactic(auto, using(crate::proofs::CountSteps::summing))]
fn asked_in_all(exprs: &[RExpr]) -> Result<usize, NoMemory>
    ensures { IfOk result (λ count. count ≡ sum_by asks exprs.now) }
{
    let mut count = 0;
    for expr in exprs {
        count = both(count, asked_in(expr)?)?;
    }
    Ok(count)
}

#[cycle(asks)]
#[tactic(auto, using(crate::proofs::CountSteps::summing))]
fn asked_in_chain(parts: &[ChainPart]) -> Result<usize, NoMemory>
    ensures { IfOk result (λ count. count ≡ sum_by part_asks parts.now) }
{
    let mut count = 0;
    for part in parts {
        count = both(count, asked_in(part.operand.get())?)?;
    }
    Ok(count)
}

/// How many the arguments of a call ask for.
#[tactic(auto, using(crate::proofs::CountSteps::summing))]
pub fn asked_in_args(args: &[BindArg]) -> Result<usize, NoMemory>
    ensures { IfOk result (λ count. count ≡ sum_by (λ (arg : BindArg). asks arg.value) args.now) }
{
    let mut count = 0;
    for arg in args {
        count = both(count, asked_in(arg.value.get())?)?;
    }
    Ok(count)
}

/// How many the expressions of a message ask for.
pub fn asked_in_both(a: &RExpr, b: &RExpr) -> Result<usize, NoMemory>
    ensures { IfOk result (λ count. count ≡ asks a.now + asks b.now) }
{
    Ok(both(asked_in(a)?, asked_in(b)?)?)
}

/// How many numbered queries a condition of an `await` has.
#[cycle(cond_asks)]
#[tactic(auto, using(crate::proofs::AsksAt::cond_asking))]
pub fn asked_in_cond(cond: &Cond) -> Result<usize, NoMemory>
    ensures { IfOk result (λ count. count ≡ cond_asks cond.now) }
{
    match cond {
        Cond::Truth(_) => Ok(0),
        Cond::Cmp(_, a, b) => Ok(both(asked_in_operand(a.get())?, asked_in_operand(b.get())?)?),
        Cond::Not(b) => Ok(asked_in_cond(b.get())?),
        Cond::And(parts) => Ok(asked_in_conds(parts.as_slice())?),
        Cond::Or(parts) => Ok(asked_in_conds(parts.as_slice())?),
        Cond::Quant {
            each: _,
            gens: _,
            cond: _,
        } => Ok(1),
    }
}

#[cycle(cond_asks)]
#[tactic(auto, using(crate::proofs::CountSteps::summing))]
fn asked_in_conds(conds: &[Cond]) -> Result<usize, NoMemory>
    ensures { IfOk result (λ count. count ≡ sum_by cond_asks conds.now) }
{
    let mut count = 0;
    for cond in conds {
        count = both(count, asked_in_cond(cond)?)?;
    }
    Ok(count)
}

#[cycle(operand_asks)]
#[tactic(auto, using(crate::proofs::AsksAt::cond_asking))]
fn asked_in_operand(operand: &Operand) -> Result<usize, NoMemory>
    ensures { IfOk result (λ count. count ≡ operand_asks operand.now) }
{
    match operand {
        Operand::Term(_) => Ok(0),
        Operand::Agg(_) => Ok(1),
        Operand::Chain(a, more) => Ok(both(
            asked_in_operand(a.get())?,
            asked_in_signed(more.as_slice())?,
        )?),
    }
}

#[cycle(operand_asks)]
#[tactic(auto, using(crate::proofs::CountSteps::summing))]
fn asked_in_signed(operands: &[SignedOperand]) -> Result<usize, NoMemory>
    ensures { IfOk result (λ count. count ≡ sum_by signed_asks operands.now) }
{
    let mut count = 0;
    for signed in operands {
        count = both(count, asked_in_operand(signed.operand.get())?)?;
    }
    Ok(count)
}
