//! What the machine does with the values that it takes off its stack.
ghost use Rattle.da_lang.specs.Evaluation.{asked};
ghost use Rattle.da_lang.specs.Arithmetic.{fitted};
ghost use Rattle.da_lang.specs.Queries.{compares};
ghost use Rattle.da_lang.specs.Turns.{packet_len, max_packet, recipients};
ghost use Rattle.da_machine.specs.Acts.{is_set, outcome_of};
ghost use Rattle.da_values.specs.Order.{val_cmp};
ghost use Rattle.da_values.specs.Sets.{set_has};
ghost use Rattle.da_values.specs.Value.{val_of};
ghost use Rattle.da_values.specs.Views.{elements_of, int_of, proc_of, truth_of};
ghost use Rattle.std.specs.Prelude.{◌≡◌, IfOk, map, nat_le};

use da_lang::{CmpOp, FaultKind};
use da_values::{NoMemory, SetVal, Value, cmp_values, encoded_len, set_has, set_insert};
use std::alloc::Global;
use std::cmp::Ordering;

/// The greatest packet, in bytes.
const MAX_PACKET: u64 = 60_000;

/// The bytes of a packet beside those of its message.
const PACKET_HEAD: u64 = 13;

/// A truth value; what is none counts as false.
#[tactic(auto, using(crate::proofs::ValueKinds::viewing))]
#[inline(always)]
pub fn truth(v: Value) -> bool
    ensures { result ≡ truth_of (val_of v) }
{
    match v {
        Value::Bool(truth) => truth,
        Value::Int(_) => false,
        Value::Text(_) => false,
        Value::Proc(_) => false,
        Value::Tuple(_) => false,
        Value::Set(_) => false,
    }
}

/// The number of an integer; what is none counts as 0.
#[tactic(auto, using(crate::proofs::ValueKinds::viewing))]
pub fn number(v: Value) -> i128
    ensures { result ≡ int_of (val_of v) }
{
    match v {
        Value::Int(number) => number,
        Value::Bool(_) => 0,
        Value::Text(_) => 0,
        Value::Proc(_) => 0,
        Value::Tuple(_) => 0,
        Value::Set(_) => 0,
    }
}

/// Whether a value is a set.
#[tactic(auto, using(crate::proofs::ValueKinds::viewing))]
pub fn is_set(v: &Value) -> bool
    ensures { result ≡ is_set (val_of v.now) }
{
    match v {
        Value::Set(_) => true,
        Value::Int(_) => false,
        Value::Bool(_) => false,
        Value::Text(_) => false,
        Value::Proc(_) => false,
        Value::Tuple(_) => false,
    }
}

/// The set of the elements of a value; what is no set has none.
#[tactic(auto, using(crate::proofs::ValueKinds::viewing))]
pub fn set_of(alloc: Global, v: Value) -> SetVal
    ensures { result ≡ elements_of (val_of v) }
{
    match v {
        Value::Set(set) => set,
        Value::Int(_) => SetVal::new(alloc),
        Value::Bool(_) => SetVal::new(alloc),
        Value::Text(_) => SetVal::new(alloc),
        Value::Proc(_) => SetVal::new(alloc),
        Value::Tuple(_) => SetVal::new(alloc),
    }
}

/// The set of the processes that a message goes to.
#[tactic(auto, using(crate::proofs::ValueKinds::viewing))]
pub fn recipients_of(alloc: Global, to: Value) -> Result<SetVal, NoMemory>
    ensures { IfOk result (λ set. map proc_of set ≡ recipients (val_of to)) }
{
    match to {
        Value::Proc(process) => {
            let mut set = SetVal::new(alloc);
            let _ = set_insert(&mut set, Value::Proc(process))?;
            Ok(set)
        }
        Value::Set(set) => Ok(set),
        Value::Int(_) => Ok(SetVal::new(alloc)),
        Value::Bool(_) => Ok(SetVal::new(alloc)),
        Value::Text(_) => Ok(SetVal::new(alloc)),
        Value::Tuple(_) => Ok(SetVal::new(alloc)),
    }
}

/// Whether the packet of a message is small enough.
#[tactic(auto, unfolding(da_lang::specs::Turns::max_packet))]
pub fn is_small(m: &Value) -> bool
    ensures { result ≡ nat_le (packet_len (val_of m.now)) max_packet }
{
    encoded_len(m) <= MAX_PACKET - PACKET_HEAD
}

/// The answer of a query, whose number has to fit an i64.
#[tactic(auto, using(crate::proofs::ValueKinds::viewing))]
pub fn fitting(v: Value) -> Result<Value, FaultKind>
    ensures { outcome_of result ≡ asked (val_of v) }
{
    match v {
        Value::Int(number) => fit(number),
        Value::Bool(_) => Ok(v),
        Value::Text(_) => Ok(v),
        Value::Proc(_) => Ok(v),
        Value::Tuple(_) => Ok(v),
        Value::Set(_) => Ok(v),
    }
}

/// A number that has to fit an i64.
#[inline(always)]
pub fn fit(number: i128) -> Result<Value, FaultKind>
    ensures { outcome_of result ≡ fitted number }
{
    if number < -9_223_372_036_854_775_808 || number > 9_223_372_036_854_775_807 {
        Err(FaultKind::Overflow)
    } else {
        Ok(Value::Int(number))
    }
}

/// Whether a comparison holds of two values.
pub fn holds(op: CmpOp, a: &Value, b: &Value) -> bool
    ensures { result ≡ compares op (val_cmp (val_of a.now) (val_of b.now)) }
{
    is_ordered(op, cmp_values(a, b))
}

/// Whether a comparison holds of two values that lie so.
#[inline(always)]
pub fn is_ordered(op: CmpOp, order: Ordering) -> bool
    ensures { result ≡ compares op order }
{
    match op {
        CmpOp::Eq => order == Ordering::Equal,
        CmpOp::Ne => order != Ordering::Equal,
        CmpOp::Lt => order == Ordering::Less,
        CmpOp::Le => order != Ordering::Greater,
        CmpOp::Gt => order == Ordering::Greater,
        CmpOp::Ge => order != Ordering::Less,
    }
}

/// Whether a value is an element of a set.
pub fn is_member(alloc: Global, v: Value, set: Value) -> bool
    ensures { result ≡ set_has val_cmp (elements_of (val_of set)) (val_of v) }
{
    set_has(&set_of(alloc, set), &v)
}
