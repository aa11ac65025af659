//! Instructions that work out a value from those on top of the stack.
ghost use Rattle.da_lang.specs.declared.code.Instr.TheVariants as op;
ghost use Rattle.da_machine.specs.RunsTo.{Acted, Began, MayAct};
ghost use Rattle.std.specs.Prelude.{◌+◌, ◌<◌, ◌^◌, IfOk, OnErr, Some};

use crate::arithmetic::{arithmetic, computed, range};
use crate::machine::{Machine, Stop};
use crate::store::Store;
use crate::values::{holds, is_member, is_ordered};
use da_lang::{ArithOp, CmpOp};
use da_values::{NoMemory, Value};
use std::alloc::Global;

/// Works out an arithmetic operation. Numbers are looked at where they lie.
#[tactic(auto, using(crate::proofs::Stacks::top_last, crate::proofs::Stacks::below_last))]
#[inline(always)]
pub fn compute<S: Store>(
    alloc: Global,
    m: &mut Machine,
    s: &mut S,
    sign: ArithOp,
) -> Result<Option<Stop>, NoMemory>
    requires room { m.old.place + 1 < 2 ^ 64 }
    requires allowed { MayAct (Some (op.Arith sign)) m.old (S.stands s.old) }
    ensures acted { IfOk result (Acted (Some (op.Arith sign)) m.old m.new (S.stands s.old) (S.stands s.new) (S.actions s.old) (S.actions s.new)) }
    ensures began { OnErr result (Began (Some (op.Arith sign)) m.old (S.stands s.old) (S.actions s.old) (S.actions s.new)) }
{
    if m.stack.are_numbers() {
        let a = m.stack.first_number();
        let b = m.stack.second_number();
        return match computed(sign, a, b) {
            Ok(v) => {
                m.unite(v);
                Ok(None)
            }
            Err(kind) => {
                let _ = m.pop();
                let _ = m.pop();
                Ok(Some(Stop::Fault { kind, line: m.line }))
            }
        };
    }
    Ok(compute_any(alloc, m, s, sign)?)
}

// Works out an arithmetic operation on any two values.
#[inline(never)]
#[tactic(auto, using(crate::proofs::Stacks::top_last, crate::proofs::Stacks::below_last))]
fn compute_any<S: Store>(
    alloc: Global,
    m: &mut Machine,
    s: &mut S,
    sign: ArithOp,
) -> Result<Option<Stop>, NoMemory>
    requires room { m.old.place + 1 < 2 ^ 64 }
    requires allowed { MayAct (Some (op.Arith sign)) m.old (S.stands s.old) }
    ensures acted { IfOk result (Acted (Some (op.Arith sign)) m.old m.new (S.stands s.old) (S.stands s.new) (S.actions s.old) (S.actions s.new)) }
    ensures began { OnErr result (Began (Some (op.Arith sign)) m.old (S.stands s.old) (S.actions s.old) (S.actions s.new)) }
{
    let b = m.pop();
    let a = m.pop();
    match arithmetic(alloc, sign, a, b)? {
        Ok(v) => {
            m.push(v)?;
            Ok(None)
        }
        Err(kind) => Ok(Some(Stop::Fault { kind, line: m.line })),
    }
}

/// Compares two values. Numbers are looked at where they lie.
#[tactic(auto, using(crate::proofs::Stacks::top_last, crate::proofs::Stacks::below_last))]
#[inline(always)]
pub fn compare<S: Store>(m: &mut Machine, s: &mut S, sign: CmpOp) -> Result<Option<Stop>, NoMemory>
    requires room { m.old.place + 1 < 2 ^ 64 }
    requires allowed { MayAct (Some (op.Cmp sign)) m.old (S.stands s.old) }
    ensures acted { IfOk result (Acted (Some (op.Cmp sign)) m.old m.new (S.stands s.old) (S.stands s.new) (S.actions s.old) (S.actions s.new)) }
    ensures began { OnErr result (Began (Some (op.Cmp sign)) m.old (S.stands s.old) (S.actions s.old) (S.actions s.new)) }
{
    if m.stack.are_numbers() {
        let a = m.stack.first_number();
        let b = m.stack.second_number();
        m.unite(Value::Bool(is_ordered(sign, a.cmp(&b))));
        return Ok(None);
    }
    Ok(compare_any(m, s, sign)?)
}

// Compares any two values.
#[inline(never)]
#[tactic(auto, using(crate::proofs::Stacks::top_last, crate::proofs::Stacks::below_last))]
fn compare_any<S: Store>(m: &mut Machine, s: &mut S, sign: CmpOp) -> Result<Option<Stop>, NoMemory>
    requires room { m.old.place + 1 < 2 ^ 64 }
    requires allowed { MayAct (Some (op.Cmp sign)) m.old (S.stands s.old) }
    ensures acted { IfOk result (Acted (Some (op.Cmp sign)) m.old m.new (S.stands s.old) (S.stands s.new) (S.actions s.old) (S.actions s.new)) }
    ensures began { OnErr result (Began (Some (op.Cmp sign)) m.old (S.stands s.old) (S.actions s.old) (S.actions s.new)) }
{
    let b = m.pop();
    let a = m.pop();
    let answer = holds(sign, &a, &b);
    drop(a);
    drop(b);
    m.push(Value::Bool(answer))?;
    Ok(None)
}

/// Makes the set of a range.
#[inline(never)]
#[tactic(auto, using(crate::proofs::Stacks::top_last, crate::proofs::Stacks::below_last))]
pub fn make_range<S: Store>(
    alloc: Global,
    m: &mut Machine,
    s: &mut S,
) -> Result<Option<Stop>, NoMemory>
    requires room { m.old.place + 1 < 2 ^ 64 }
    requires allowed { MayAct (Some op.Range) m.old (S.stands s.old) }
    ensures acted { IfOk result (Acted (Some op.Range) m.old m.new (S.stands s.old) (S.stands s.new) (S.actions s.old) (S.actions s.new)) }
    ensures began { OnErr result (Began (Some op.Range) m.old (S.stands s.old) (S.actions s.old) (S.actions s.new)) }
{
    let b = m.pop();
    let a = m.pop();
    match range(alloc, a, b)? {
        Ok(v) => {
            m.push(v)?;
            Ok(None)
        }
        Err(kind) => Ok(Some(Stop::Fault { kind, line: m.line })),
    }
}

/// Whether a value is an element of a set.
#[inline(never)]
#[tactic(auto, using(crate::proofs::Stacks::top_last, crate::proofs::Stacks::below_last))]
pub fn look_up<S: Store>(
    alloc: Global,
    m: &mut Machine,
    s: &mut S,
) -> Result<Option<Stop>, NoMemory>
    requires room { m.old.place + 1 < 2 ^ 64 }
    requires allowed { MayAct (Some op.Member) m.old (S.stands s.old) }
    ensures acted { IfOk result (Acted (Some op.Member) m.old m.new (S.stands s.old) (S.stands s.new) (S.actions s.old) (S.actions s.new)) }
    ensures began { OnErr result (Began (Some op.Member) m.old (S.stands s.old) (S.actions s.old) (S.actions s.new)) }
{
    let set = m.pop();
    let v = m.pop();
    m.push(Value::Bool(is_member(alloc, v, set)))?;
    Ok(None)
}

/// Turns a truth value round.
pub fn negate<S: Store>(m: &mut Machine, s: &mut S) -> Result<Option<Stop>, NoMemory>
    requires room { m.old.place + 1 < 2 ^ 64 }
    requires allowed { MayAct (Some op.Not) m.old (S.stands s.old) }
    ensures acted { IfOk result (Acted (Some op.Not) m.old m.new (S.stands s.old) (S.stands s.new) (S.actions s.old) (S.actions s.new)) }
    ensures began { OnErr result (Began (Some op.Not) m.old (S.stands s.old) (S.actions s.old) (S.actions s.new)) }
{
    let truth = m.pop_truth();
    m.push(Value::Bool(!truth))?;
    Ok(None)
}
