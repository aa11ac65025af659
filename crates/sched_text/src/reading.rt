//! Actions, read from their lines.
ghost use Rattle.sched_text.specs.Reading.{Stops};
ghost use Rattle.da_lang.specs.declared.event.Action.{Action};
ghost use Rattle.da_values.specs.Value.{val_of};
ghost use Rattle.std.specs.Prelude.{◌≡◌, ℕ, List, [], IfNone, IfOk, IfSome, IsErrOf, MatchResult};
ghost use Rattle.sched_text.specs.ActionReading.{IsAfter, IsOneText, Lacks, LacksMessage, LacksRoute, number_then, route_then, value_after};
ghost use Rattle.sched_text.specs.ActionLine.{Fits, IsActionLine, IsLineOf, IsShown};

use crate::fields::{Route, last_number, last_value, split_number, split_process, split_route};
use crate::kind::{Kind, fault_of, kind_of};
use crate::number::{after_space, split_word};
use da_lang::Action;
use da_values::{Value, ValueFault};
use std::alloc::Global;

/// The greatest number of 32 bits.
const MOST_32: u128 = 4_294_967_295;

/// The action whose line this is, without its end. It is `Unread` exactly where there is none, unless memory was refused.
pub fn read_action(alloc: Global, line: &[u8]) -> Result<Action, ValueFault>
    ensures ok { IfOk result (λ a. IsLineOf a line.now) }
    ensures unread { IsErrOf result ValueFault.Unread → IsActionLine line.now → ⊥ }
    ensures only { (a : Action) → IsLineOf a line.now
        → MatchResult result (λ found. found ≡ a) (λ fault. fault ≡ ValueFault.Memory) }
{
    let (word, rest) = split_word(line);
    match kind_of(word) {
        Some(kind) => read_after(alloc, kind, rest),
        None => Err(ValueFault::Unread),
    }
}

// The action of this kind whose line goes on so after its word.
fn read_after(alloc: Global, kind: Kind, rest: &[u8]) -> Result<Action, ValueFault>
    ensures ok { IfOk result (IsAfter kind rest.now) }
    ensures unread { IsErrOf result ValueFault.Unread → Lacks kind rest.now }
{
    match kind {
        Kind::Took => read_took(rest).ok_or(ValueFault::Unread),
        Kind::Sent => read_sent(alloc, rest),
        Kind::Got => read_got(alloc, rest),
        Kind::Lost => read_lost(rest).ok_or(ValueFault::Unread),
        Kind::Again => read_again(rest).ok_or(ValueFault::Unread),
        Kind::Out => read_out(alloc, rest),
        Kind::End => read_end(rest).ok_or(ValueFault::Unread),
        Kind::Fault => read_fault(rest).ok_or(ValueFault::Unread),
        Kind::Answer => read_answer(alloc, rest),
        Kind::Kept => read_kept(rest).ok_or(ValueFault::Unread),
        Kind::Stop => read_stop(rest).ok_or(ValueFault::Unread),
    }
}

fn read_took(rest: &[u8]) -> Option<Action>
    ensures some { IfSome result (IsAfter Kind.Took rest.now) }
    ensures none { IfNone result (Lacks Kind.Took rest.now) }
{
    let (p, rest) = split_process(rest)?;
    let k = last_number(rest, MOST_32)?;
    Some(Action::Took { p, k: k as u32 })
}

fn read_sent(alloc: Global, rest: &[u8]) -> Result<Action, ValueFault>
    ensures ok { IfOk result (IsAfter Kind.Sent rest.now) }
    ensures unread { IsErrOf result ValueFault.Unread → Lacks Kind.Sent rest.now }
{
    let (route, v) = read_message(alloc, rest)?;
    let p = route.first;
    let q = route.second;
    Ok(Action::Sent {
        p,
        q,
        t: route.time,
        v,
    })
}

fn read_got(alloc: Global, rest: &[u8]) -> Result<Action, ValueFault>
    ensures ok { IfOk result (IsAfter Kind.Got rest.now) }
    ensures unread { IsErrOf result ValueFault.Unread → Lacks Kind.Got rest.now }
{
    let (route, v) = read_message(alloc, rest)?;
    let q = route.first;
    let p = route.second;
    Ok(Action::Got {
        q,
        p,
        t: route.time,
        v,
    })
}

// The numbers of a message, and its value.
fn read_message(alloc: Global, rest: &[u8]) -> Result<(Route, Value), ValueFault>
    ensures ok { IfOk result (λ found. IsShown (val_of found.1) × IsOneText (val_of found.1) × (rest.now ≡ route_then found.0.first found.0.second found.0.time (value_after (val_of found.1)))) }
    ensures unread { IsErrOf result ValueFault.Unread → LacksMessage rest.now }
{
    match split_route(rest) {
        Some((route, rest)) => Ok((route, last_value(alloc, rest)?)),
        None => Err(ValueFault::Unread),
    }
}

fn read_lost(rest: &[u8]) -> Option<Action>
    ensures some { IfSome result (IsAfter Kind.Lost rest.now) }
    ensures none { IfNone result (Lacks Kind.Lost rest.now) }
{
    let route = last_route(rest)?;
    let p = route.first;
    let q = route.second;
    Some(Action::Lost {
        p,
        q,
        t: route.time,
    })
}

fn read_again(rest: &[u8]) -> Option<Action>
    ensures some { IfSome result (IsAfter Kind.Again rest.now) }
    ensures none { IfNone result (Lacks Kind.Again rest.now) }
{
    let route = last_route(rest)?;
    let p = route.first;
    let q = route.second;
    Some(Action::Again {
        p,
        q,
        t: route.time,
    })
}

// The numbers of a message, with nothing after them.
fn last_route(rest: &[u8]) -> Option<Route>
    ensures some { IfSome result (λ route. rest.now ≡ route_then route.first route.second route.time []) }
    ensures none { IfNone result (LacksRoute rest.now) }
{
    let (route, rest) = split_route(rest)?;
    if rest.is_empty() { Some(route) } else { None }
}

fn read_out(alloc: Global, rest: &[u8]) -> Result<Action, ValueFault>
    ensures ok { IfOk result (IsAfter Kind.Out rest.now) }
    ensures unread { IsErrOf result ValueFault.Unread → Lacks Kind.Out rest.now }
{
    match split_process(rest) {
        Some((p, rest)) => {
            let v = last_value(alloc, rest)?;
            Ok(Action::Out { p, v })
        }
        None => Err(ValueFault::Unread),
    }
}

fn read_end(rest: &[u8]) -> Option<Action>
    ensures some { IfSome result (IsAfter Kind.End rest.now) }
    ensures none { IfNone result (Lacks Kind.End rest.now) }
{
    let (p, rest) = split_process(rest)?;
    if rest.is_empty() {
        Some(Action::End { p })
    } else {
        None
    }
}

fn read_fault(rest: &[u8]) -> Option<Action>
    ensures some { IfSome result (IsAfter Kind.Fault rest.now) }
    ensures none { IfNone result (Lacks Kind.Fault rest.now) }
{
    let (p, rest) = split_process(rest)?;
    let (word, rest) = split_word(after_space(rest)?);
    let kind = fault_of(word)?;
    let line = last_number(rest, MOST_32)?;
    let line = line as u32;
    Some(Action::Fault { p, kind, line })
}

fn read_answer(alloc: Global, rest: &[u8]) -> Result<Action, ValueFault>
    ensures ok { IfOk result (IsAfter Kind.Answer rest.now) }
    ensures unread { IsErrOf result ValueFault.Unread → Lacks Kind.Answer rest.now }
{
    match split_query(rest) {
        Some((p, n, rest)) => match last_value(alloc, rest)? {
            Value::Set(rows) => Ok(Action::Answer { p, n, rows }),
            _ => Err(ValueFault::Unread),
        },
        None => Err(ValueFault::Unread),
    }
}

// The process and the number of a query at the front, and what follows them.
fn split_query(bytes: &[u8]) -> Option<(u16, u32, &[u8])>
    ensures some { IfSome result (λ found. Fits 16 found.0 × Fits 32 found.1 × Stops found.2.now × (bytes.now ≡ number_then found.0 (number_then found.1 found.2.now))) }
    ensures none { IfNone result ((p n : ℕ) (rest : List ℕ) → Fits 16 p → Fits 32 n → Stops rest → bytes.now ≡ number_then p (number_then n rest) → ⊥) }
{
    let (p, rest) = split_process(bytes)?;
    let (n, rest) = split_number(rest, MOST_32)?;
    Some((p, n as u32, rest))
}

fn read_kept(rest: &[u8]) -> Option<Action>
    ensures some { IfSome result (IsAfter Kind.Kept rest.now) }
    ensures none { IfNone result (Lacks Kind.Kept rest.now) }
{
    let (p, rest) = split_process(rest)?;
    let n = last_number(rest, u128::MAX)?;
    Some(Action::Kept { p, n })
}

fn read_stop(rest: &[u8]) -> Option<Action>
    ensures some { IfSome result (IsAfter Kind.Stop rest.now) }
    ensures none { IfNone result (Lacks Kind.Stop rest.now) }
{
    let i = last_number(rest, u128::from(u64::MAX))?;
    Some(Action::Stop { i: i as u64 })
}
