//! Words, numbers and values, with a space before each.
ghost use Rattle.da_values.specs.declared.val.Val.{Val};
ghost use Rattle.da_values.specs.Value.{val_of};
ghost use Rattle.sched_text.specs.Reading.{Stops};
ghost use Rattle.std.specs.List.{All};
ghost use Rattle.std.specs.Prelude.{◌≡◌, ◌≢◌, ◌≤◌, ℕ, List, [], ◌∷◌, ◌++◌, decimal, IfNone, IfOk, IfSome, MatchResult};
ghost use Rattle.sched_text.specs.ActionReading.{AreNumbers, IsOneText, number_then, route_then, value_after};
ghost use Rattle.sched_text.specs.ActionLine.{Fits, IsShown};

use crate::number::{after_space, split_word};
use da_values::{Value, ValueFault, read_value};
use itoa::Buffer;
use std::alloc::Global;
use std::str;

/// The numbers of a message: two processes, in the order of the line, and the time.
#[derive(Clone, Copy)]
pub(crate) struct Route {
    pub first: u16,
    pub second: u16,
    pub time: u64,
}

/// The number at the front, after a space and at most `most`, and what follows it.
pub(crate) fn split_number(bytes: &[u8], most: u128) -> Option<(u128, &[u8])>
    ensures some { IfSome result (λ found. (found.0 ≤ most) × Stops found.1.now × (bytes.now ≡ number_then found.0 found.1.now)) }
    ensures none { IfNone result ((n : ℕ) (rest : List ℕ) → n ≤ most → Stops rest → bytes.now ≡ number_then n rest → ⊥) }
{
    let (digits, rest) = split_word(after_space(bytes)?);
    let number = number_of(digits, most)?;
    Some((number, rest))
}

// The number whose digits these are.
fn number_of(digits: &[u8], most: u128) -> Option<u128>
    ensures some { IfSome result (λ n. (n ≤ most) × (digits.now ≡ decimal n)) }
    ensures none { IfNone result ((n : ℕ) → n ≤ most → digits.now ≡ decimal n → ⊥) }
{
    let Ok(text) = str::from_utf8(digits) else {
        return None;
    };
    let Ok(number) = text.parse::<u128>() else {
        return None;
    };
    if number > most {
        return None;
    }
    let mut buffer = Buffer::new();
    if buffer.format(number).as_bytes() == digits {
        Some(number)
    } else {
        None
    }
}

/// The number that these bytes are, after a space and at most `most`.
pub(crate) fn last_number(bytes: &[u8], most: u128) -> Option<u128>
    ensures some { IfSome result (λ n. (n ≤ most) × (bytes.now ≡ number_then n [])) }
    ensures none { IfNone result ((n : ℕ) → n ≤ most → bytes.now ≡ number_then n [] → ⊥) }
{
    let (number, rest) = split_number(bytes, most)?;
    if rest.is_empty() { Some(number) } else { None }
}

/// The process at the front, after a space, and what follows it.
pub(crate) fn split_process(bytes: &[u8]) -> Option<(u16, &[u8])>
    ensures some { IfSome result (λ found. Fits 16 found.0 × Stops found.1.now × (bytes.now ≡ number_then found.0 found.1.now)) }
    ensures none { IfNone result ((n : ℕ) (rest : List ℕ) → Fits 16 n → Stops rest → bytes.now ≡ number_then n rest → ⊥) }
{
    let (number, rest) = split_number(bytes, u128::from(u16::MAX))?;
    Some((number as u16, rest))
}

/// The numbers of a message at the front, and what follows them.
pub(crate) fn split_route(bytes: &[u8]) -> Option<(Route, &[u8])>
    ensures some { IfSome result (λ found. AreNumbers found.0 × Stops found.1.now × (bytes.now ≡ route_then found.0.first found.0.second found.0.time found.1.now)) }
    ensures none { IfNone result ((p q t : ℕ) (rest : List ℕ) → Fits 16 p → Fits 16 q → Fits 64 t → Stops rest → bytes.now ≡ route_then p q t rest → ⊥) }
{
    let (first, rest) = split_process(bytes)?;
    let (second, rest) = split_process(rest)?;
    let (time, rest) = split_number(rest, u128::from(u64::MAX))?;
    let route = Route {
        first,
        second,
        time: time as u64,
    };
    Some((route, rest))
}

/// The value whose text these bytes are, after a space.
pub(crate) fn last_value(alloc: Global, bytes: &[u8]) -> Result<Value, ValueFault>
    ensures ok { IfOk result (λ v. IsShown (val_of v) × IsOneText (val_of v) × (bytes.now ≡ value_after (val_of v))) }
    ensures only { (x : Val) → IsShown x → bytes.now ≡ value_after x → MatchResult result (λ v. val_of v ≡ x) (λ fault. fault ≡ ValueFault.Memory) }
{
    match after_space(bytes) {
        Some(text) => read_value(alloc, text),
        None => Err(ValueFault::Unread),
    }
}
