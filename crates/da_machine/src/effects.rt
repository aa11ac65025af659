//! Instructions that change what the process knows, send or print, and those of loops.
ghost use Rattle.da_lang.specs.Turns.{bind_all, recipients, sending, sent_to};
ghost use Rattle.da_lang.specs.declared.code.Instr.TheVariants as op;
ghost use Rattle.da_lang.specs.declared.event.Action.TheVariants as action;
ghost use Rattle.da_machine.specs.Conditions.{EachProcess, IsPrintable, IsSendable, SomeProcess, TakesAll};
ghost use Rattle.da_machine.specs.RunsTo.{Acted, Began, AddsPrefix, MayAct};
ghost use Rattle.da_values.specs.Value.{val_of, value_of};
ghost use Rattle.std.specs.Prelude.{◌≡◌, [], ◌∷◌, ◌++◌, ◌+◌, ◌<◌, ◌^◌, IfOk, OnErr, OnOk, Some};

use crate::machine::{Machine, Stop};
use crate::stack::Rest;
use crate::store::Store;
use crate::values::{is_small, recipients_of};
use da_lang::FaultKind;
use da_values::{List, NoMemory, Row, Value, copy_value};
use std::alloc::Global;

/// Assigns the top value to a slot.
#[tactic(auto, using(crate::proofs::Stacks::top_last, crate::proofs::Stacks::below_last))]
#[inline(always)]
pub fn assign<S: Store>(m: &mut Machine, s: &mut S, slot: u16) -> Result<Option<Stop>, NoMemory>
    requires room { m.old.place + 1 < 2 ^ 64 }
    requires allowed { MayAct (Some (op.SetSlot slot)) m.old (S.stands s.old) }
    ensures acted { IfOk result (Acted (Some (op.SetSlot slot)) m.old m.new (S.stands s.old) (S.stands s.new) (S.actions s.old) (S.actions s.new)) }
    ensures began { OnErr result (Began (Some (op.SetSlot slot)) m.old (S.stands s.old) (S.actions s.old) (S.actions s.new)) }
{
    let v = m.pop();
    s.set_slot(slot, v)?;
    m.place += 1;
    Ok(None)
}

/// Adds the top value to the set in a slot.
#[inline(never)]
#[tactic(auto, using(crate::proofs::Stacks::top_last, crate::proofs::Stacks::below_last))]
pub fn add<S: Store>(m: &mut Machine, s: &mut S, slot: u16) -> Result<Option<Stop>, NoMemory>
    requires room { m.old.place + 1 < 2 ^ 64 }
    requires allowed { MayAct (Some (op.Add slot)) m.old (S.stands s.old) }
    ensures acted { IfOk result (Acted (Some (op.Add slot)) m.old m.new (S.stands s.old) (S.stands s.new) (S.actions s.old) (S.actions s.new)) }
    ensures began { OnErr result (Began (Some (op.Add slot)) m.old (S.stands s.old) (S.actions s.old) (S.actions s.new)) }
{
    let v = m.pop();
    s.add(slot, v)?;
    m.place += 1;
    Ok(None)
}

/// Deletes the top value from the set in a slot.
#[inline(never)]
#[tactic(auto, using(crate::proofs::Stacks::top_last, crate::proofs::Stacks::below_last))]
pub fn delete<S: Store>(m: &mut Machine, s: &mut S, slot: u16) -> Result<Option<Stop>, NoMemory>
    requires room { m.old.place + 1 < 2 ^ 64 }
    requires allowed { MayAct (Some (op.Del slot)) m.old (S.stands s.old) }
    ensures acted { IfOk result (Acted (Some (op.Del slot)) m.old m.new (S.stands s.old) (S.stands s.new) (S.actions s.old) (S.actions s.new)) }
    ensures began { OnErr result (Began (Some (op.Del slot)) m.old (S.stands s.old) (S.actions s.old) (S.actions s.new)) }
{
    let v = m.pop();
    s.del(slot, &v)?;
    m.place += 1;
    Ok(None)
}

/// Sends a message, if it is small enough.
#[tactic(auto, using(crate::proofs::Stacks::top_last, crate::proofs::Stacks::below_last))]
#[inline(never)]
pub fn send<S: Store>(alloc: Global, m: &mut Machine, s: &mut S) -> Result<Option<Stop>, NoMemory>
    requires room { m.old.place + 1 < 2 ^ 64 }
    requires allowed { MayAct (Some op.Send) m.old (S.stands s.old) }
    ensures acted { IfOk result (Acted (Some op.Send) m.old m.new (S.stands s.old) (S.stands s.new) (S.actions s.old) (S.actions s.new)) }
    ensures began { OnErr result (Began (Some op.Send) m.old (S.stands s.old) (S.actions s.old) (S.actions s.new)) }
{
    let to = m.pop();
    let message = m.pop();
    if !is_small(&message) {
        return Ok(Some(Stop::Fault {
            kind: FaultKind::Message,
            line: m.line,
        }));
    }
    send_message(alloc, s, message, to)?;
    m.place += 1;
    Ok(None)
}

// Sends a message to a process, or a copy of it to each of a set of processes.
#[inline(always)]
#[tactic(auto, using(crate::proofs::ValueKinds::viewing))]
fn send_message<S: Store>(
    alloc: Global,
    s: &mut S,
    message: Value,
    to: Value,
) -> Result<(), NoMemory>
    requires { SomeProcess (S.stands s.old) (λ p class d. IsSendable p (val_of message) (recipients (val_of to))) }
    ensures stands { OnOk result (EachProcess (S.stands s.old) (λ p class d. S.stands s.new p class (sent_to (val_of message) (recipients (val_of to)) d))) }
    ensures actions { OnOk result (EachProcess (S.stands s.old) (λ p class d. S.actions s.new ≡ S.actions s.old ++ sending d.me (val_of message) (recipients (val_of to)) d.clock)) }
    ensures prefix { OnErr result (EachProcess (S.stands s.old) (λ p class d. AddsPrefix (S.actions s.old) (S.actions s.new) (sending d.me (val_of message) (recipients (val_of to)) d.clock))) }
{
    match to {
        Value::Proc(process) => s.send_to(message, process),
        to => send_to_each(alloc, s, &message, to),
    }
}

// Sends a message to each of a set of processes.
fn send_to_each<S: Store>(
    alloc: Global,
    s: &mut S,
    message: &Value,
    to: Value,
) -> Result<(), NoMemory>
    requires { SomeProcess (S.stands s.old) (λ p class d. IsSendable p (val_of message.now) (recipients (val_of to))) }
    ensures stands { OnOk result (EachProcess (S.stands s.old) (λ p class d. S.stands s.new p class (sent_to (val_of message.now) (recipients (val_of to)) d))) }
    ensures actions { OnOk result (EachProcess (S.stands s.old) (λ p class d. S.actions s.new ≡ S.actions s.old ++ sending d.me (val_of message.now) (recipients (val_of to)) d.clock)) }
    ensures prefix { OnErr result (EachProcess (S.stands s.old) (λ p class d. AddsPrefix (S.actions s.old) (S.actions s.new) (sending d.me (val_of message.now) (recipients (val_of to)) d.clock))) }
{
    let processes = recipients_of(alloc, to)?;
    s.send(message, &processes)
}

/// Prints the top value.
#[tactic(auto, using(crate::proofs::Stacks::top_last, crate::proofs::Stacks::below_last))]
#[inline(never)]
pub fn print<S: Store>(m: &mut Machine, s: &mut S) -> Result<Option<Stop>, NoMemory>
    requires room { m.old.place + 1 < 2 ^ 64 }
    requires allowed { MayAct (Some op.Output) m.old (S.stands s.old) }
    ensures acted { IfOk result (Acted (Some op.Output) m.old m.new (S.stands s.old) (S.stands s.new) (S.actions s.old) (S.actions s.new)) }
    ensures began { OnErr result (Began (Some op.Output) m.old (S.stands s.old) (S.actions s.old) (S.actions s.new)) }
{
    let v = m.pop();
    output(s, v)?;
    m.place += 1;
    Ok(None)
}

// Prints a value.
#[tactic(auto, using(crate::proofs::ValueKinds::kept_again))]
fn output<S: Store>(s: &mut S, v: Value) -> Result<(), NoMemory>
    requires { SomeProcess (S.stands s.old) (λ p class d. IsPrintable p (val_of v)) }
    ensures stands { OnOk result (EachProcess (S.stands s.old) (λ p class d. S.stands s.new p class d)) }
    ensures actions { OnOk result (EachProcess (S.stands s.old) (λ p class d. S.actions s.new ≡ S.actions s.old ++ action.Out d.me (value_of (val_of v)) ∷ [])) }
    ensures same { OnErr result (S.actions s.new ≡ S.actions s.old) }
{
    s.output(&v)
}

/// Begins a loop over the elements of the top value.
#[inline(never)]
#[tactic(auto, using(crate::proofs::Stacks::top_last, crate::proofs::Stacks::below_last))]
pub fn begin_loop<S: Store>(
    alloc: Global,
    m: &mut Machine,
    s: &mut S,
) -> Result<Option<Stop>, NoMemory>
    requires room { m.old.place + 1 < 2 ^ 64 }
    requires allowed { MayAct (Some op.Take) m.old (S.stands s.old) }
    ensures acted { IfOk result (Acted (Some op.Take) m.old m.new (S.stands s.old) (S.stands s.new) (S.actions s.old) (S.actions s.new)) }
    ensures began { OnErr result (Began (Some op.Take) m.old (S.stands s.old) (S.actions s.old) (S.actions s.new)) }
{
    let v = m.pop();
    m.loops.push(Rest::new(alloc, v))?;
    m.place += 1;
    Ok(None)
}

/// Takes the next element of the innermost loop into a slot, or leaves the loop.
#[inline(never)]
pub fn go_round<S: Store>(
    alloc: Global,
    m: &mut Machine,
    s: &mut S,
    slot: u16,
    done: u64,
) -> Result<Option<Stop>, NoMemory>
    requires room { m.old.place + 1 < 2 ^ 64 }
    requires allowed { MayAct (Some (op.Next slot done)) m.old (S.stands s.old) }
    ensures acted { IfOk result (Acted (Some (op.Next slot done)) m.old m.new (S.stands s.old) (S.stands s.new) (S.actions s.old) (S.actions s.new)) }
    ensures began { OnErr result (Began (Some (op.Next slot done)) m.old (S.stands s.old) (S.actions s.old) (S.actions s.new)) }
{
    match m.take_next(alloc)? {
        None => {
            m.place = done;
            Ok(None)
        }
        Some(v) => {
            s.set_slot(slot, v)?;
            m.place += 1;
            Ok(None)
        }
    }
}

/// Binds the least row of a `some`, if it has one.
#[inline(never)]
pub fn find<S: Store>(
    alloc: Global,
    m: &mut Machine,
    s: &mut S,
    query: u32,
    slots: &List<u16>,
) -> Result<Option<Stop>, NoMemory>
    requires room { m.old.place + 1 < 2 ^ 64 }
    requires allowed { MayAct (Some (op.Found query slots.now)) m.old (S.stands s.old) }
    ensures acted { IfOk result (Acted (Some (op.Found query slots.now)) m.old m.new (S.stands s.old) (S.stands s.new) (S.actions s.old) (S.actions s.new)) }
    ensures began { OnErr result (Began (Some (op.Found query slots.now)) m.old (S.stands s.old) (S.actions s.old) (S.actions s.new)) }
{
    if let Some(row) = s.found(query)? {
        bind(alloc, s, slots, &row)?;
    }
    m.place += 1;
    Ok(None)
}

/// Puts the parts of a row into slots one by one, as many as there are of both.
#[tactic(auto, using(crate::proofs::Bindings::bound_slots, crate::proofs::Bindings::bound_end))]
fn bind<S: Store>(alloc: Global, s: &mut S, slots: &List<u16>, row: &Row) -> Result<(), NoMemory>
    requires { SomeProcess (S.stands s.old) (λ p class d. TakesAll p class slots.now row.now) }
    ensures stands { OnOk result (EachProcess (S.stands s.old) (λ p class d. S.stands s.new p class (bind_all slots.now row.now d))) }
    ensures actions { S.actions s.new ≡ S.actions s.old }
{
    let count = slots.len();
    let mut place = 0;
    'slots: while place < count {
        let Some(slot) = slots.get(place) else {
            return Ok(());
        };
        match row.get(place) {
            None => return Ok(()),
            Some(value) => {
                s.set_slot(*slot, copy_value(alloc, value)?)?;
                place += 1;
            }
        }
    }
    Ok(())
}
