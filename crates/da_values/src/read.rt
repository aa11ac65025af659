//! Reading of value text.
ghost use Rattle.da_values.specs.Order.{val_cmp};
ghost use Rattle.da_values.specs.Reading.{IsTextOf, Stops, Ends, Spells, SpellsEach};
ghost use Rattle.da_values.specs.Sets.{Ascends};
ghost use Rattle.da_values.specs.Text.{closing};
ghost use Rattle.da_values.specs.Value.{val_of, vals};
ghost use Rattle.da_values.specs.declared.val.Val.TheVariants as val;
ghost use Rattle.da_values.specs.declared.val.Val.{Val};
ghost use Rattle.std.specs.List.{All};
ghost use Rattle.std.specs.Prelude.{◌≡◌, ◌≢◌, ℕ, List, ◌++◌, codes, length, IfOk, IfSome, IsErr, IsErrOf, MatchBool, MatchOption, MatchResult};

use crate::cmp::cmp_values;
use crate::list::{List, NoMemory};
use crate::str::{Str, StrFault};
use crate::value::{Row, SetVal, Value};
use crate::word::{split_word, strip, word_value};
use std::alloc::Global;
use thiserror::Error;

/// Why no value was read.
#[derive(Clone, Copy, Debug, Error)]
pub enum ValueFault {
    /// The bytes are the text of no value that is nested at most 64 deep.
    #[error("no text of a value")]
    Unread,
    /// Memory was refused.
    #[error("no memory is left")]
    Memory,
}

impl From<NoMemory> for ValueFault {
    ghost use Rattle.da_values.specs.declared.read.ValueFault.TheVariants.{Memory};

    ghost from_gives = { λ _ fault. fault ≡ Memory };

    fn from(_: NoMemory) -> ValueFault {
        ValueFault::Memory
    }
}

/// The value whose text this is. It is nested at most 64 deep.
pub fn read_value(alloc: Global, text: &[u8]) -> Result<Value, ValueFault>
    ensures read { IfOk result (λ v. IsTextOf text.now (val_of v)) }
    ensures unread { IsErrOf result ValueFault.Unread → (x : Val) → IsTextOf text.now x → ⊥ }
    ensures refused { ((x : Val) → IsTextOf text.now x → ⊥) → IsErr result }
    ensures only { (x : Val) → IsTextOf text.now x
        → MatchResult result (λ v. val_of v ≡ x) (λ fault. fault ≡ ValueFault.Memory) }
{
    let (value, rest) = value_at(alloc, text, 64)?;
    if rest.is_empty() {
        Ok(value)
    } else {
        Err(ValueFault::Unread)
    }
}

// The value at the front, nested at most `depth` deep, and what follows it.
#[cycle(read)]
fn value_at(alloc: Global, bytes: &[u8], depth: u8) -> Result<(Value, &[u8]), ValueFault>
    ensures front { IfOk result (λ found. Spells depth (val_of found.0) bytes.now found.1.now) }
    ensures only { (x : Val) (rest : List ℕ) → Spells depth x bytes.now rest → Stops rest
        → MatchResult result (λ found. (val_of found.0 ≡ x) × (found.1.now ≡ rest)) (λ fault. fault ≡ ValueFault.Memory) }
{
    if let Some(rest) = strip(bytes, b"'") {
        let (text, rest) = text_at(alloc, rest)?;
        return Ok((Value::Text(text), rest));
    }
    if let Some(rest) = strip(bytes, b"(") {
        let (parts, rest) = parts_at(alloc, rest, depth)?;
        return Ok((Value::Tuple(parts), rest));
    }
    if let Some(rest) = strip(bytes, b"{") {
        let (elements, rest) = elements_at(alloc, rest, depth)?;
        return Ok((Value::Set(elements), rest));
    }
    let (word, rest) = split_word(bytes);
    match word_value(word) {
        Some(value) => Ok((value, rest)),
        None => Err(ValueFault::Unread),
    }
}

// The tuple whose text goes on so after its `(`, and what follows it.
#[cycle(read)]
fn parts_at(alloc: Global, bytes: &[u8], depth: u8) -> Result<(Row, &[u8]), ValueFault>
    ensures front { IfOk result (λ found. Spells depth (val.Tuple found.0) (codes "(" ++ bytes.now) found.1.now) }
    ensures only { (parts : List Val) (rest : List ℕ) → Spells depth (val.Tuple parts) (codes "(" ++ bytes.now) rest
        → MatchResult result (λ found. (found.0 ≡ parts) × (found.1.now ≡ rest)) (λ fault. fault ≡ ValueFault.Memory) }
{
    if depth == 0 {
        return Err(ValueFault::Unread);
    }
    if let Some(rest) = strip(bytes, b")") {
        return Ok((Row::new(alloc), rest));
    }
    let (parts, rest) = items_at(alloc, bytes, depth - 1)?;
    match strip_closing(rest, parts.len()) {
        Some(rest) => Ok((Row::from_list(parts), rest)),
        None => Err(ValueFault::Unread),
    }
}

// The set whose text goes on so after its `{`, and what follows it.
#[cycle(read)]
fn elements_at(alloc: Global, bytes: &[u8], depth: u8) -> Result<(SetVal, &[u8]), ValueFault>
    ensures front { IfOk result (λ found. Spells depth (val.Set found.0) (codes "{" ++ bytes.now) found.1.now) }
    ensures only { (elements : List Val) (rest : List ℕ) → Spells depth (val.Set elements) (codes "{" ++ bytes.now) rest
        → MatchResult result (λ found. (found.0 ≡ elements) × (found.1.now ≡ rest)) (λ fault. fault ≡ ValueFault.Memory) }
{
    if depth == 0 {
        return Err(ValueFault::Unread);
    }
    if let Some(rest) = strip(bytes, b"}") {
        return Ok((SetVal::new(alloc), rest));
    }
    let (elements, rest) = items_at(alloc, bytes, depth - 1)?;
    if !ascends(elements.as_slice()) {
        return Err(ValueFault::Unread);
    }
    match strip(rest, b"}") {
        Some(rest) => Ok((SetVal::from_list(elements), rest)),
        None => Err(ValueFault::Unread),
    }
}

// The values at the front, with a comma and a space between, and what follows them.
#[cycle(read)]
fn items_at(alloc: Global, bytes: &[u8], depth: u8) -> Result<(List<Value>, &[u8]), ValueFault>
    ensures front { IfOk result (λ found. SpellsEach depth (vals found.0) bytes.now found.1.now) }
    ensures only { (xs : List Val) (rest : List ℕ) → SpellsEach depth xs bytes.now rest → Ends rest
        → MatchResult result (λ found. (vals found.0 ≡ xs) × (found.1.now ≡ rest)) (λ fault. fault ≡ ValueFault.Memory) }
{
    let mut items = List::new(alloc);
    let mut left = bytes;
    loop {
        let (item, rest) = value_at(alloc, left, depth)?;
        items.push(item)?;
        match strip(rest, b", ") {
            Some(next) => left = next,
            None => return Ok((items, rest)),
        }
    }
}

// The text that goes on so after its first quote, and what follows it.
fn text_at(alloc: Global, bytes: &[u8]) -> Result<(Str, &[u8]), ValueFault>
    ensures front { IfOk result (λ found. Spells 0 (val.Text found.0) (codes "'" ++ bytes.now) found.1.now) }
    ensures only { (text : List ℕ) (rest : List ℕ) → Spells 0 (val.Text text) (codes "'" ++ bytes.now) rest
        → MatchResult result (λ found. (found.0 ≡ text) × (found.1.now ≡ rest)) (λ fault. fault ≡ ValueFault.Memory) }
{
    let Some((text, rest)) = split_quote(bytes) else {
        return Err(ValueFault::Unread);
    };
    match Str::from_bytes(alloc, text) {
        Ok(text) => Ok((text, rest)),
        Err(StrFault::BadText) => Err(ValueFault::Unread),
        Err(StrFault::Memory) => Err(ValueFault::Memory),
    }
}

// The bytes before the first quote and those after it, or nothing exactly where there is no quote.
fn split_quote(bytes: &[u8]) -> Option<(&[u8], &[u8])>
    ensures none { MatchOption result (All (λ byte. byte ≢ 39) bytes.now) (λ found. All (λ byte. byte ≢ 39) found.0.now) }
    ensures some { IfSome result (λ found. bytes.now ≡ found.0.now ++ codes "'" ++ found.1.now) }
{
    let end = bytes.iter().position(|byte| *byte == b'\'')?;
    Some((&bytes[..end], &bytes[end + 1..]))
}

// What follows the end of a tuple of so many parts, or nothing exactly where no such end stands at the front.
fn strip_closing(bytes: &[u8], parts: usize) -> Option<&[u8]>
    ensures { (texts : List (List ℕ)) → length texts ≡ parts → MatchOption result
        ((rest : List ℕ) → bytes.now ≡ closing texts ++ rest → ⊥)
        (λ rest. bytes.now ≡ closing texts ++ rest.now) }
{
    if parts == 1 {
        strip(bytes, b",)")
    } else {
        strip(bytes, b")")
    }
}

// Whether each value is less than the next.
pub(crate) fn ascends(values: &[Value]) -> bool
    ensures { MatchBool result (Ascends val_cmp (vals values.now)) (Ascends val_cmp (vals values.now) → ⊥) }
{
    for at in 1..values.len() {
        if !cmp_values(&values[at - 1], &values[at]).is_lt() {
            return false;
        }
    }
    true
}
