//! From the bytes of a packet to its message.
ghost use Rattle.da_values.specs.Value.{val_of, vals};
ghost use Rattle.da_values.specs.declared.val.Val.{Val};
ghost use Rattle.da_values.specs.declared.value.Value.{Value as Kept};
ghost use Rattle.msg_codec.specs.Packets.{IsPacket};
ghost use Rattle.msg_codec.specs.Pieces.{Begins, BeginsEach, AfterLetter, MayHoldMuch, MayWantMemory, TakesMemory};
ghost use Rattle.msg_codec.specs.declared.packet.CodecFault.TheVariants.{Memory, NotAPacket};
ghost use Rattle.std.specs.Prelude.{◌≡◌, ◌≤◌, ℕ, List, [], ◌++◌, length, IfErr, IfOk, IsErrOf, MatchResult};

use crate::front::{byte_at, head_at, long_at, short_at, word_at};
use crate::packet::{CodecFault, Packet};
use da_values::{List, Row, SetVal, Str, StrFault, Value};
use std::alloc::Global;

/// The most bytes of a packet.
const MAX_PACKET: usize = 60_000;

/// The most tuples and sets that stand in one another.
const MAX_DEPTH: u8 = 32;

/// The message whose packet has these bytes. `NotAPacket` comes exactly where no packet has them. Memory is taken in
/// step with the bytes, and not with the lengths that they tell. More than 60,000 bytes, and bytes that begin otherwise than
/// a packet, are refused without memory.
pub fn decode(alloc: Global, bytes: &[u8]) -> Result<Packet, CodecFault>
    ensures packet { IfOk result (λ packet. IsPacket packet.sender packet.clock (val_of packet.value) bytes.now) }
    ensures none { IsErrOf result NotAPacket → (sender clock : ℕ) (v : Val) → IsPacket sender clock v bytes.now → ⊥ }
    ensures only { (sender clock : ℕ) (v : Val) → IsPacket sender clock v bytes.now
        → MatchResult result (λ packet. (packet.sender ≡ sender) × (packet.clock ≡ clock) × (val_of packet.value ≡ v)) (λ fault. fault ≡ Memory) }

    // Want of memory comes only where a packet may stand, whose value is a text, a tuple or a set.
    ensures memory { IsErrOf result Memory → MayWantMemory bytes.now }

    // No packet is the beginning of another one.
    ensures whole { IfOk result (λ packet. (sender clock : ℕ) (v : Val) (more : List ℕ) → IsPacket sender clock v (bytes.now ++ more) → more ≡ []) }
{
    packet_of(alloc, bytes)
}

// The message whose packet has these bytes.
fn packet_of(alloc: Global, bytes: &[u8]) -> Result<Packet, CodecFault>
    ensures packet { IfOk result (λ packet. IsPacket packet.sender packet.clock (val_of packet.value) bytes.now) }
    ensures only { (sender clock : ℕ) (v : Val) → IsPacket sender clock v bytes.now
        → MatchResult result (λ packet. (packet.sender ≡ sender) × (packet.clock ≡ clock) × (val_of packet.value ≡ v)) (λ fault. fault ≡ Memory) }
    ensures memory { IsErrOf result Memory → MayWantMemory bytes.now }
{
    if bytes.len() > MAX_PACKET {
        return Err(CodecFault::NotAPacket);
    }
    let Some((sender, clock, rest)) = head_at(bytes) else {
        return Err(CodecFault::NotAPacket);
    };
    let (value, rest) = value_at(alloc, rest, MAX_DEPTH)?;
    if rest.len() > 0 {
        return Err(CodecFault::NotAPacket);
    }
    Ok(Packet {
        sender,
        clock,
        value,
    })
}

// The value at the front, nested at most `depth` deep, and what follows it.
#[cycle(read)]
fn value_at(alloc: Global, bytes: &[u8], depth: u8) -> Result<(Value, &[u8]), CodecFault>
    requires { length bytes.now ≤ 60000 }
    ensures front { IfOk result (λ found. Begins depth (val_of found.0) bytes.now found.1.now) }
    ensures only { (x : Val) (rest : List ℕ) → Begins depth x bytes.now rest
        → MatchResult result (λ found. (val_of found.0 ≡ x) × (found.1.now ≡ rest)) (λ fault. fault ≡ Memory) }
    ensures memory { IsErrOf result Memory → MayHoldMuch bytes.now }
{
    match byte_at(bytes) {
        Some((letter, rest)) => behind(alloc, letter, rest, depth),
        None => Err(CodecFault::NotAPacket),
    }
}

// The value whose bytes stand after this letter, and what follows it.
#[cycle(read)]
fn behind(alloc: Global, letter: u8, bytes: &[u8], depth: u8) -> Result<(Value, &[u8]), CodecFault>
    requires { length bytes.now ≤ 60000 }
    ensures front { IfOk result (λ found. AfterLetter depth found.0 letter bytes.now found.1.now) }
    ensures only { (v : Kept) (rest : List ℕ) → AfterLetter depth v letter bytes.now rest
        → MatchResult result (λ found. (found.0 ≡ v) × (found.1.now ≡ rest)) (λ fault. fault ≡ Memory) }
    ensures memory { IsErrOf result Memory → TakesMemory letter }
{
    match letter {
        b'i' => integer_at(bytes),
        b'b' => truth_at(bytes),
        b's' => text_at(alloc, bytes),
        b'p' => process_at(bytes),
        b't' => tuple_at(alloc, bytes, depth),
        b'S' => set_at(alloc, bytes, depth),
        _ => Err(CodecFault::NotAPacket),
    }
}

// The integer whose bytes stand after its letter, and what follows it.
fn integer_at(bytes: &[u8]) -> Result<(Value, &[u8]), CodecFault>
    ensures front { IfOk result (λ found. (depth : ℕ) → AfterLetter depth found.0 105 bytes.now found.1.now) }
    ensures only { (depth : ℕ) (v : Kept) (rest : List ℕ) → AfterLetter depth v 105 bytes.now rest
        → MatchResult result (λ found. (found.0 ≡ v) × (found.1.now ≡ rest)) (λ fault. fault ≡ Memory) }
    ensures refused { IfErr result (λ fault. fault ≡ NotAPacket) }
{
    match long_at(bytes) {
        Some((number, rest)) => Ok((Value::Int(number.cast_signed() as i128), rest)),
        None => Err(CodecFault::NotAPacket),
    }
}

// The truth value whose byte stands after its letter, and what follows it.
fn truth_at(bytes: &[u8]) -> Result<(Value, &[u8]), CodecFault>
    ensures front { IfOk result (λ found. (depth : ℕ) → AfterLetter depth found.0 98 bytes.now found.1.now) }
    ensures only { (depth : ℕ) (v : Kept) (rest : List ℕ) → AfterLetter depth v 98 bytes.now rest
        → MatchResult result (λ found. (found.0 ≡ v) × (found.1.now ≡ rest)) (λ fault. fault ≡ Memory) }
    ensures refused { IfErr result (λ fault. fault ≡ NotAPacket) }
{
    match byte_at(bytes) {
        Some((0, rest)) => Ok((Value::Bool(false), rest)),
        Some((1, rest)) => Ok((Value::Bool(true), rest)),
        _ => Err(CodecFault::NotAPacket),
    }
}

// The text whose length and bytes stand after its letter, and what follows it.
fn text_at(alloc: Global, bytes: &[u8]) -> Result<(Value, &[u8]), CodecFault>
    requires { length bytes.now ≤ 60000 }
    ensures front { IfOk result (λ found. (depth : ℕ) → AfterLetter depth found.0 115 bytes.now found.1.now) }
    ensures only { (depth : ℕ) (v : Kept) (rest : List ℕ) → AfterLetter depth v 115 bytes.now rest
        → MatchResult result (λ found. (found.0 ≡ v) × (found.1.now ≡ rest)) (λ fault. fault ≡ Memory) }
{
    let Some((length, rest)) = short_at(bytes) else {
        return Err(CodecFault::NotAPacket);
    };
    let Some((text, rest)) = rest.split_at_checked(length as usize) else {
        return Err(CodecFault::NotAPacket);
    };
    match Str::from_bytes(alloc, text) {
        Ok(text) => Ok((Value::Text(text), rest)),
        Err(StrFault::BadText) => Err(CodecFault::NotAPacket),
        Err(StrFault::Memory) => Err(CodecFault::Memory),
    }
}

// The process whose number stands after its letter, and what follows it.
fn process_at(bytes: &[u8]) -> Result<(Value, &[u8]), CodecFault>
    ensures front { IfOk result (λ found. (depth : ℕ) → AfterLetter depth found.0 112 bytes.now found.1.now) }
    ensures only { (depth : ℕ) (v : Kept) (rest : List ℕ) → AfterLetter depth v 112 bytes.now rest
        → MatchResult result (λ found. (found.0 ≡ v) × (found.1.now ≡ rest)) (λ fault. fault ≡ Memory) }
    ensures refused { IfErr result (λ fault. fault ≡ NotAPacket) }
{
    match short_at(bytes) {
        Some((0, _)) => Err(CodecFault::NotAPacket),
        Some((process, rest)) => Ok((Value::Proc(process), rest)),
        None => Err(CodecFault::NotAPacket),
    }
}

// The tuple whose count and parts stand after its letter, and what follows it.
#[cycle(read)]
fn tuple_at(alloc: Global, bytes: &[u8], depth: u8) -> Result<(Value, &[u8]), CodecFault>
    requires { length bytes.now ≤ 60000 }
    ensures front { IfOk result (λ found. AfterLetter depth found.0 116 bytes.now found.1.now) }
    ensures only { (v : Kept) (rest : List ℕ) → AfterLetter depth v 116 bytes.now rest
        → MatchResult result (λ found. (found.0 ≡ v) × (found.1.now ≡ rest)) (λ fault. fault ≡ Memory) }
{
    if depth == 0 {
        return Err(CodecFault::NotAPacket);
    }
    let Some((count, rest)) = byte_at(bytes) else {
        return Err(CodecFault::NotAPacket);
    };
    let (parts, rest) = values_at(alloc, rest, depth - 1, count as u32)?;
    Ok((Value::Tuple(Row::from_list(parts)), rest))
}

// The set whose count and elements stand after its letter, and what follows it.
#[cycle(read)]
fn set_at(alloc: Global, bytes: &[u8], depth: u8) -> Result<(Value, &[u8]), CodecFault>
    requires { length bytes.now ≤ 60000 }
    ensures front { IfOk result (λ found. AfterLetter depth found.0 83 bytes.now found.1.now) }
    ensures only { (v : Kept) (rest : List ℕ) → AfterLetter depth v 83 bytes.now rest
        → MatchResult result (λ found. (found.0 ≡ v) × (found.1.now ≡ rest)) (λ fault. fault ≡ Memory) }
{
    if depth == 0 {
        return Err(CodecFault::NotAPacket);
    }
    let Some((count, rest)) = word_at(bytes) else {
        return Err(CodecFault::NotAPacket);
    };
    let (elements, rest) = values_at(alloc, rest, depth - 1, count)?;
    match SetVal::from_ascending(elements) {
        Some(elements) => Ok((Value::Set(elements), rest)),
        None => Err(CodecFault::NotAPacket),
    }
}

// So many values at the front, one after the other, and what follows them.
#[cycle(read)]
fn values_at(
    alloc: Global,
    bytes: &[u8],
    depth: u8,
    count: u32,
) -> Result<(List<Value>, &[u8]), CodecFault>
    requires { length bytes.now ≤ 60000 }
    ensures front { IfOk result (λ found. BeginsEach depth count (vals found.0) bytes.now found.1.now) }
    ensures only { (xs : List Val) (rest : List ℕ) → BeginsEach depth count xs bytes.now rest
        → MatchResult result (λ found. (vals found.0 ≡ xs) × (found.1.now ≡ rest)) (λ fault. fault ≡ Memory) }
{
    let mut values = List::new(alloc);
    let mut left = bytes;
    for _place in 0..count {
        let (value, rest) = value_at(alloc, left, depth)?;
        values.push(value)?;
        left = rest;
    }
    Ok((values, left))
}
