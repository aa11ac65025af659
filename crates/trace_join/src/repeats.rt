//! Which messages a trace gets more than once.
ghost use Rattle.std.specs.Prelude.{◌≡◌, ◌↔◌, ◌*◌, ◌+◌, [], ◌∷◌, IfOk, IsTrue, OnOk};
ghost use Rattle.trace_join.specs.Repeats.{HasKey, HasKeys, IsGotAgain, KeepsKeys, TellRepeats, got_key, message_at};

use da_lang::{Action, same_value};
use da_values::{List, NoMemory, Value};
use std::alloc::Global;
use std::collections::BTreeSet;

/// For each action of a trace, counted from the last one, whether it gets a message that is got again later.
#[tactic(auto, using(crate::proofs::RepeatLaws::known_last, crate::proofs::RepeatLaws::known_before, crate::proofs::RepeatLaws::known_all))]
pub(crate) fn repeats(alloc: Global, trace: &[Action]) -> Result<List<bool>, NoMemory>
    ensures { IfOk result (TellRepeats trace.now) }
{
    let mut later = BTreeSet::new(alloc);
    let mut repeats = List::new(alloc);
    let mut place = trace.len();
    while place > 0 {
        place -= 1;
        let (action, behind) = (&trace[place], &trace[place + 1..]);
        repeats.push(is_got_again(&later, action, behind))?;
        note_key(&mut later, action)?;
    }
    Ok(repeats)
}

// Whether what the action gets is got again after it, where the set has the keys of what is got there.
#[tactic(auto, using(crate::proofs::RepeatLaws::has_key))]
fn is_got_again(later: &BTreeSet<u128>, action: &Action, behind: &[Action]) -> bool
    requires { HasKeys later.now behind.now }
    ensures { IsTrue result ↔ IsGotAgain action.now behind.now }
{
    match action {
        Action::Got { p, t, .. } => later.contains(&key_of(*p, *t)) && gets(behind, action),
        _ => false,
    }
}

// Whether one of the actions gets what this action gets.
#[tactic(auto, using(crate::proofs::RepeatLaws::again_there, crate::proofs::RepeatLaws::again_on, crate::proofs::RepeatLaws::again_all))]
fn gets(actions: &[Action], got: &Action) -> bool
    ensures { IsTrue result ↔ IsGotAgain got.now actions.now }
{
    for action in actions {
        if gets_same(action, got) {
            return true;
        }
    }
    false
}

// Whether two actions get the same message.
#[tactic(auto, using(crate::proofs::RepeatLaws::gets_one, crate::proofs::RepeatLaws::gets_other))]
fn gets_same(a: &Action, b: &Action) -> bool
    ensures { IsTrue result ↔ IsGotAgain b.now (a.now ∷ []) }
{
    match a {
        Action::Got { p, t, v, .. } => match b {
            Action::Got {
                p: p2,
                t: t2,
                v: v2,
                ..
            } => p == p2 && same_message(*t, v, *t2, v2),
            _ => false,
        },
        _ => false,
    }
}

// Whether two messages and their times are the same.
#[tactic(auto, using(crate::proofs::QueueLaws::message_time))]
fn same_message(t: u64, v: &Value, t2: u64, v2: &Value) -> bool
    ensures { IsTrue result ↔ (message_at v.now t ≡ message_at v2.now t2) }
{
    t == t2 && same_value(v, v2)
}

// Adds the key of what the action gets, if it gets something.
fn note_key(keys: &mut BTreeSet<u128>, action: &Action) -> Result<(), NoMemory>
    ensures has { OnOk result (HasKey keys.new (got_key action.now)) }
    ensures keeps { OnOk result (KeepsKeys keys.old keys.new) }
{
    match action {
        Action::Got { p, t, .. } => match keys.insert(key_of(*p, *t)) {
            Ok(_) => Ok(()),
            Err(_) => Err(NoMemory),
        },
        _ => Ok(()),
    }
}

// A number for the messages that a process sends at a time.
fn key_of(from: u16, time: u64) -> u128
    ensures { result ≡ time * 65536 + from }
{
    u128::from(time) * 65_536 + u128::from(from)
}
