//! The words of value text: integers, truth values and processes.
ghost use Rattle.da_values.specs.Reading.{is_stop as is_stop_byte, Stops, IsWordOf};
ghost use Rattle.std.specs.Fmt.{signed_decimal};
ghost use Rattle.std.specs.Int.{w128};
ghost use Rattle.std.specs.List.{All};
ghost use Rattle.std.specs.Prelude.{◌≡◌, ℕ, ℤ, ◌<◌, ◌^◌, false, List, ◌++◌, decimal, FitsSigned, IfSome, MatchOption, Some};

use crate::value::Value;
use itoa::Buffer;
use std::str;

// What follows a prefix of the bytes, or nothing exactly where they begin otherwise.
pub(crate) fn strip<'a>(bytes: &'a [u8], front: &[u8]) -> Option<&'a [u8]>
    ensures { MatchOption result
        ((rest : List ℕ) → bytes.now ≡ front.now ++ rest → ⊥)
        (λ rest. bytes.now ≡ front.now ++ rest.now) }
{
    bytes.strip_prefix(front)
}

// The bytes up to the first one that may stand after a value, and the others.
pub(crate) fn split_word(bytes: &[u8]) -> (&[u8], &[u8])
    ensures split { bytes.now ≡ result.0.now ++ result.1.now }
    ensures word { All (λ byte. is_stop_byte byte ≡ false) result.0.now }
    ensures rest { Stops result.1.now }
{
    let end = bytes
        .iter()
        .position(|byte| is_stop(*byte))
        .unwrap_or(bytes.len());
    bytes.split_at(end)
}

fn is_stop(byte: u8) -> bool
    ensures { result ≡ is_stop_byte byte }
{
    byte == b',' || byte == b')' || byte == b'}'
}

// The integer, truth value or process whose text this word is.
pub(crate) fn word_value(word: &[u8]) -> Option<Value>
    ensures word { IfSome result (IsWordOf word.now) }
    ensures only { (v : Value) → IsWordOf word.now v → result ≡ Some v }
{
    if word == b"true".as_slice() {
        return Some(Value::Bool(true));
    }
    if word == b"false".as_slice() {
        return Some(Value::Bool(false));
    }
    match strip(word, b"p") {
        Some(digits) => Some(Value::Proc(process_of(digits)?)),
        None => Some(Value::Int(number_of(word)?)),
    }
}

// The number whose text this is.
fn number_of(word: &[u8]) -> Option<i128>
    ensures text { IfSome result (λ number. word.now ≡ signed_decimal number) }
    ensures only { (number : ℤ) → FitsSigned w128 number → word.now ≡ signed_decimal number → result ≡ Some number }
{
    let Ok(text) = str::from_utf8(word) else {
        return None;
    };
    let Ok(number) = text.parse::<i128>() else {
        return None;
    };
    let mut digits = Buffer::new();
    (digits.format(number).as_bytes() == word).then_some(number)
}

// The number of a process whose digits these are.
fn process_of(digits: &[u8]) -> Option<u16>
    ensures text { IfSome result (λ process. digits.now ≡ decimal process) }
    ensures some { IfSome result (λ process. 0 < process) }
    ensures only { (process : ℕ) → 0 < process → process < 2 ^ 16 → digits.now ≡ decimal process → result ≡ Some process }
{
    let Ok(process) = u16::try_from(number_of(digits)?) else {
        return None;
    };
    (process > 0).then_some(process)
}
