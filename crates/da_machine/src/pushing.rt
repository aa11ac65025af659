//! Instructions that put a value on the stack.
ghost use Rattle.da_lang.specs.declared.code.Instr.TheVariants as op;
ghost use Rattle.da_machine.specs.RunsTo.{Acted, Began, MayAct};
ghost use Rattle.std.specs.Prelude.{◌+◌, ◌<◌, ◌^◌, IfOk, OnErr, Some};

use crate::machine::{Machine, Stop};
use crate::store::Store;
use crate::values::fitting;
use da_values::{NoMemory, Value, copy_value};
use std::alloc::Global;

/// Puts a copy of a value on the stack.
#[inline(always)]
pub fn push_copy<S: Store>(
    alloc: Global,
    m: &mut Machine,
    s: &mut S,
    v: &Value,
) -> Result<Option<Stop>, NoMemory>
    requires room { m.old.place + 1 < 2 ^ 64 }
    requires allowed { MayAct (Some (op.Push v.now)) m.old (S.stands s.old) }
    ensures acted { IfOk result (Acted (Some (op.Push v.now)) m.old m.new (S.stands s.old) (S.stands s.new) (S.actions s.old) (S.actions s.new)) }
    ensures began { OnErr result (Began (Some (op.Push v.now)) m.old (S.stands s.old) (S.actions s.old) (S.actions s.new)) }
{
    match v {
        Value::Int(number) => m.push(Value::Int(*number))?,
        v => m.push(copy_value(alloc, v)?)?,
    }
    Ok(None)
}

/// Puts the process itself on the stack.
pub fn push_me<S: Store>(m: &mut Machine, s: &mut S) -> Result<Option<Stop>, NoMemory>
    requires room { m.old.place + 1 < 2 ^ 64 }
    requires allowed { MayAct (Some op.Me) m.old (S.stands s.old) }
    ensures acted { IfOk result (Acted (Some op.Me) m.old m.new (S.stands s.old) (S.stands s.new) (S.actions s.old) (S.actions s.new)) }
    ensures began { OnErr result (Began (Some op.Me) m.old (S.stands s.old) (S.actions s.old) (S.actions s.new)) }
{
    m.push(Value::Proc(s.me()))?;
    Ok(None)
}

/// Puts the value of a slot on the stack.
#[inline(always)]
pub fn push_slot<S: Store>(m: &mut Machine, s: &mut S, slot: u16) -> Result<Option<Stop>, NoMemory>
    requires room { m.old.place + 1 < 2 ^ 64 }
    requires allowed { MayAct (Some (op.Slot slot)) m.old (S.stands s.old) }
    ensures acted { IfOk result (Acted (Some (op.Slot slot)) m.old m.new (S.stands s.old) (S.stands s.new) (S.actions s.old) (S.actions s.new)) }
    ensures began { OnErr result (Began (Some (op.Slot slot)) m.old (S.stands s.old) (S.actions s.old) (S.actions s.new)) }
{
    m.push(s.slot(slot)?)?;
    Ok(None)
}

/// Puts the clock on the stack.
pub fn push_clock<S: Store>(m: &mut Machine, s: &mut S) -> Result<Option<Stop>, NoMemory>
    requires room { m.old.place + 1 < 2 ^ 64 }
    requires allowed { MayAct (Some op.Clock) m.old (S.stands s.old) }
    ensures acted { IfOk result (Acted (Some op.Clock) m.old m.new (S.stands s.old) (S.stands s.new) (S.actions s.old) (S.actions s.new)) }
    ensures began { OnErr result (Began (Some op.Clock) m.old (S.stands s.old) (S.actions s.old) (S.actions s.new)) }
{
    m.push(Value::Int(s.clock() as i128))?;
    Ok(None)
}

/// Puts the value of a query on the stack.
#[inline(never)]
pub fn ask<S: Store>(m: &mut Machine, s: &mut S, query: u32) -> Result<Option<Stop>, NoMemory>
    requires room { m.old.place + 1 < 2 ^ 64 }
    requires allowed { MayAct (Some (op.Ask query)) m.old (S.stands s.old) }
    ensures acted { IfOk result (Acted (Some (op.Ask query)) m.old m.new (S.stands s.old) (S.stands s.new) (S.actions s.old) (S.actions s.new)) }
    ensures began { OnErr result (Began (Some (op.Ask query)) m.old (S.stands s.old) (S.actions s.old) (S.actions s.new)) }
{
    match fitting(s.ask(query)?) {
        Ok(v) => {
            m.push(v)?;
            Ok(None)
        }
        Err(kind) => Ok(Some(Stop::Fault { kind, line: m.line })),
    }
}

/// Makes a tuple of the last values.
#[inline(never)]
pub fn pack<S: Store>(
    alloc: Global,
    m: &mut Machine,
    s: &mut S,
    n: u16,
) -> Result<Option<Stop>, NoMemory>
    requires room { m.old.place + 1 < 2 ^ 64 }
    requires allowed { MayAct (Some (op.Pack n)) m.old (S.stands s.old) }
    ensures acted { IfOk result (Acted (Some (op.Pack n)) m.old m.new (S.stands s.old) (S.stands s.new) (S.actions s.old) (S.actions s.new)) }
    ensures began { OnErr result (Began (Some (op.Pack n)) m.old (S.stands s.old) (S.actions s.old) (S.actions s.new)) }
{
    m.pack(alloc, n)?;
    Ok(None)
}

/// Makes a set of the last values.
#[inline(never)]
pub fn collect<S: Store>(
    alloc: Global,
    m: &mut Machine,
    s: &mut S,
    n: u32,
) -> Result<Option<Stop>, NoMemory>
    requires room { m.old.place + 1 < 2 ^ 64 }
    requires allowed { MayAct (Some (op.Collect n)) m.old (S.stands s.old) }
    ensures acted { IfOk result (Acted (Some (op.Collect n)) m.old m.new (S.stands s.old) (S.stands s.new) (S.actions s.old) (S.actions s.new)) }
    ensures began { OnErr result (Began (Some (op.Collect n)) m.old (S.stands s.old) (S.actions s.old) (S.actions s.new)) }
{
    m.collect(alloc, n)?;
    Ok(None)
}
