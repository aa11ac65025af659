//! Arithmetic outside queries.
ghost use Rattle.da_lang.specs.Arithmetic.{arithmetic, divided, fitted, max_range, numbers_from, of_numbers, of_sets, quotient, range, remainder};
ghost use Rattle.da_machine.specs.Acts.{is_set, outcome_of};
ghost use Rattle.da_values.specs.Order.{val_cmp};
ghost use Rattle.da_machine.specs.Acts.{same};
ghost use Rattle.da_values.specs.Sets.{set_has, set_insert, set_union};
ghost use Rattle.da_values.specs.declared.val.Val.TheVariants as Val;
ghost use Rattle.da_values.specs.Value.{val_of};
ghost use Rattle.da_values.specs.Views.{int_of};
ghost use Rattle.std.specs.Int.{complement_if, int_gap, w128};
ghost use Rattle.std.specs.List.{filter};
ghost use Rattle.std.specs.Prelude.{◌≡◌, ◌&&◌, ◌≢◌, ◌<◌, ◌⊎◌, false, true, IfSome, ◌^◌, ◌+ℤ◌, ◌≤ℤ◌, pos, neg_ℤ, int_lt, nat_le, not, ℤ, FitsSigned, IfOk, OnOk, MatchOption, SomeIff, if◌then◌else◌, unsigned_abs};

use crate::sets::{add_copies, set_of_all};
use crate::values::{fit, is_set, number, set_of};
use da_lang::{ArithOp, FaultKind};
use da_values::{NoMemory, SetVal, Value, copy_value, set_has, set_insert};
use std::alloc::Global;

/// How many numbers a range may have.
const MAX_RANGE: i128 = 100_000;

/// A number as what code divides: the number itself, or -(size + 1) where it lies below 0.
struct Dividend {
    below: bool,
    size: u128,
}

/// The set of the numbers from the first up to the second.
pub fn range(alloc: Global, a: Value, b: Value) -> Result<Result<Value, FaultKind>, NoMemory>
    ensures { IfOk result (λ found. outcome_of found ≡ range (int_of (val_of a)) (int_of (val_of b))) }
{
    let first = number(a);
    match gap(first, number(b)) {
        None => Ok(Err(FaultKind::Range)),
        Some(count) => Ok(Ok(Value::Set(numbers(alloc, first, count)?))),
    }
}

// How many numbers there are from the first up to the second, if they are few enough.
#[tactic(auto, unfolding(da_lang::specs::Arithmetic::max_range))]
fn gap(a: i128, b: i128) -> Option<u32>
    ensures few { MatchOption result (nat_le (int_gap a b) max_range ≡ false) (λ n. (n ≡ int_gap a b) × (nat_le n max_range ≡ true)) }
    ensures room { IfSome result (λ n. (n ≡ 0) ⊎ FitsSigned w128 (a +ℤ pos n)) }
{
    if b <= a {
        return Some(0);
    }
    let count = b.checked_sub(a)?;
    if count > MAX_RANGE {
        return None;
    }
    Some(count as u32)
}

// The numbers from the first on, so many.
fn numbers(alloc: Global, first: i128, count: u32) -> Result<SetVal, NoMemory>
    requires { (count ≡ 0) ⊎ FitsSigned w128 (first +ℤ pos count) }
    ensures { IfOk result (λ set. set ≡ numbers_from first count) }
{
    let mut set = SetVal::new(alloc);
    'numbers: for i in 0..count {
        let _ = set_insert(&mut set, number_at(first, i))?;
    }
    Ok(set)
}

// The number that is so many after the first.
fn number_at(first: i128, i: u32) -> Value
    requires { FitsSigned w128 (first +ℤ pos i) }
    ensures { val_of result ≡ Val.Int (first +ℤ pos i) }
{
    Value::Int(first + i as i128)
}

/// An operation on two sets, or else on two numbers.
#[tactic(auto, using(crate::proofs::ValueKinds::arithmetic_of_sets, crate::proofs::ValueKinds::arithmetic_of_numbers))]
pub fn arithmetic(
    alloc: Global,
    op: ArithOp,
    a: Value,
    b: Value,
) -> Result<Result<Value, FaultKind>, NoMemory>
    ensures { IfOk result (λ found. outcome_of found ≡ arithmetic op (val_of a) (val_of b)) }
{
    if are_sets(&a, &b) {
        let (xs, ys) = (set_of(alloc, a), set_of(alloc, b));
        Ok(Ok(Value::Set(combined(alloc, op, xs, ys)?)))
    } else {
        Ok(computed(op, number(a), number(b)))
    }
}

// Whether both values are sets.
fn are_sets(a: &Value, b: &Value) -> bool
    ensures { result ≡ (is_set (val_of a.now) && is_set (val_of b.now)) }
{
    is_set(a) && is_set(b)
}

// An operation on two sets.
fn combined(alloc: Global, op: ArithOp, xs: SetVal, ys: SetVal) -> Result<SetVal, NoMemory>
    ensures { IfOk result (λ set. set ≡ of_sets op xs ys) }
{
    match op {
        ArithOp::Plus => union(alloc, &xs, &ys),
        ArithOp::Minus => chosen(alloc, &xs, &ys, false),
        ArithOp::Times => chosen(alloc, &xs, &ys, true),
        ArithOp::Div => Ok(SetVal::new(alloc)),
        ArithOp::Mod => Ok(SetVal::new(alloc)),
    }
}

// The elements of both sets.
fn union(alloc: Global, xs: &SetVal, ys: &SetVal) -> Result<SetVal, NoMemory>
    ensures { IfOk result (λ set. set ≡ set_union val_cmp xs.now ys.now) }
{
    let mut values = Vec::new(alloc);
    add_copies(alloc, &mut values, xs.as_slice())?;
    add_copies(alloc, &mut values, ys.as_slice())?;
    set_of_all(alloc, values)
}

// The elements of the first set that are in the second, or those that are not.
fn chosen(alloc: Global, xs: &SetVal, ys: &SetVal, there: bool) -> Result<SetVal, NoMemory>
    ensures { IfOk result (λ set. set ≡ filter (λ x. same there (set_has val_cmp ys.now x)) xs.now) }
{
    let values = xs.as_slice();
    let mut set = SetVal::new(alloc);
    'values: for value in values {
        let take = is_same(there, set_has(ys, value));
        put_if(alloc, take, &mut set, value)?;
    }
    Ok(set)
}

// Whether a truth value is the given one.
fn is_same(given: bool, truth: bool) -> bool
    ensures { result ≡ same given truth }
{
    if given { truth } else { !truth }
}

// Puts a copy of a value into a set, if it is to be there.
fn put_if(alloc: Global, take: bool, set: &mut SetVal, value: &Value) -> Result<(), NoMemory>
    ensures { OnOk result (set.new ≡ (if take then set_insert val_cmp set.old (val_of value.now) else set.old)) }
{
    if take {
        let _ = set_insert(set, copy_value(alloc, value)?)?;
    }
    Ok(())
}

/// An operation on two numbers.
#[inline(always)]
pub fn computed(op: ArithOp, a: i128, b: i128) -> Result<Value, FaultKind>
    ensures { outcome_of result ≡ of_numbers op a b }
{
    match op {
        ArithOp::Plus => fit_some(a.checked_add(b)),
        ArithOp::Minus => fit_some(a.checked_sub(b)),
        ArithOp::Times => fit_some(a.checked_mul(b)),
        ArithOp::Div => {
            if b == 0 {
                return Err(FaultKind::Divide);
            }
            quotient(a, b)
        }
        ArithOp::Mod => {
            if b == 0 {
                return Err(FaultKind::Divide);
            }
            Ok(Value::Int(remainder(a, b)))
        }
    }
}

// A number that has to fit an i64, where it fits an i128.
#[tactic(auto, using(crate::proofs::Numbers::unfit))]
#[inline(always)]
fn fit_some(number: Option<i128>) -> Result<Value, FaultKind>
    ensures { (z : ℤ) → SomeIff number (FitsSigned w128 z) z → outcome_of result ≡ fitted z }
{
    match number {
        None => Err(FaultKind::Overflow),
        Some(number) => fit(number),
    }
}

// The first number with the sign that the second one makes positive.
fn aligned(a: i128, b: i128) -> Dividend
    ensures { complement_if result.below result.size ≡ (if int_lt b (pos 0) then neg_ℤ a else a) }
{
    if b < 0 {
        if a > 0 {
            Dividend {
                below: true,
                size: (a - 1) as u128,
            }
        } else {
            Dividend {
                below: false,
                size: a.unsigned_abs(),
            }
        }
    } else if a < 0 {
        Dividend {
            below: true,
            size: a.unsigned_abs() - 1,
        }
    } else {
        Dividend {
            below: false,
            size: a as u128,
        }
    }
}

// The quotient rounded down.
#[tactic(auto, using(crate::proofs::Numbers::quotient_by, crate::proofs::Numbers::fitted_by))]
fn quotient(a: i128, b: i128) -> Result<Value, FaultKind>
    requires { b ≢ pos 0 }
    ensures { outcome_of result ≡ fitted (quotient a b) }
{
    let Dividend { below, size } = aligned(a, b);
    let whole = size / b.unsigned_abs();
    if whole >= 9_223_372_036_854_775_808 {
        return Err(FaultKind::Overflow);
    }
    Ok(Value::Int(complement(below, whole)))
}

// What the quotient leaves, with the sign of the divisor.
#[tactic(auto, using(crate::proofs::Numbers::remainder_by))]
fn remainder(a: i128, b: i128) -> i128
    requires { b ≢ pos 0 }
    ensures { result ≡ remainder a b }
{
    let Dividend { below, size } = aligned(a, b);
    let divisor = b.unsigned_abs();
    let rest = size % divisor;
    let left = if below { divisor - 1 - rest } else { rest };
    signed(b < 0, left)
}

// The number of this size, below 0 or not.
fn signed(negative: bool, size: u128) -> i128
    requires { size < 2 ^ 127 }
    ensures { result ≡ (if negative then neg_ℤ (pos size) else pos size) }
{
    let size = size as i128;
    if negative { -size } else { size }
}

// The number itself, or -(size + 1).
fn complement(below: bool, size: u128) -> i128
    requires { size < 2 ^ 127 }
    ensures { result ≡ complement_if below size }
{
    let size = size as i128;
    if below { -1 - size } else { size }
}
