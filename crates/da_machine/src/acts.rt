//! One instruction.
ghost use Rattle.da_lang.specs.declared.code.Instr.TheVariants as op;
ghost use Rattle.da_machine.specs.RunsTo.{Acted, Began, MayAct};
ghost use Rattle.std.specs.Prelude.{◌+◌, ◌<◌, ◌^◌, IfOk, OnErr, Some};

use crate::effects::{add, assign, begin_loop, delete, find, go_round, print, send};
use crate::machine::{Machine, Stop};
use crate::operations::{compare, compute, look_up, make_range, negate};
use crate::pushing::{ask, collect, pack, push_clock, push_copy, push_me, push_slot};
use crate::store::Store;
use da_lang::{FaultKind, Instr};
use da_values::NoMemory;
use std::alloc::Global;

/// The turns that one event may take.
const MAX_TURNS: u32 = 1_000_000;

/// Begins a turn, if the event may take one more.
#[tactic(auto, unfolding(da_lang::specs::Runs::max_turns))]
#[inline(always)]
pub fn turn<S: Store>(m: &mut Machine, s: &mut S, line: u32) -> Result<Option<Stop>, NoMemory>
    requires { m.old.place + 1 < 2 ^ 64 }
    ensures acted { IfOk result (Acted (Some (op.Turn line)) m.old m.new (S.stands s.old) (S.stands s.new) (S.actions s.old) (S.actions s.new)) }
    ensures began { OnErr result (Began (Some (op.Turn line)) m.old (S.stands s.old) (S.actions s.old) (S.actions s.new)) }
{
    if m.turns < MAX_TURNS {
        m.place += 1;
        m.turns += 1;
        m.line = line;
        Ok(None)
    } else {
        Ok(Some(Stop::Fault {
            kind: FaultKind::TooLong,
            line,
        }))
    }
}

// Goes on elsewhere.
#[inline(always)]
fn jump<S: Store>(m: &mut Machine, s: &mut S, to: u64) -> Result<Option<Stop>, NoMemory>
    requires room { m.old.place + 1 < 2 ^ 64 }
    requires allowed { MayAct (Some (op.Jump to)) m.old (S.stands s.old) }
    ensures acted { IfOk result (Acted (Some (op.Jump to)) m.old m.new (S.stands s.old) (S.stands s.new) (S.actions s.old) (S.actions s.new)) }
    ensures began { OnErr result (Began (Some (op.Jump to)) m.old (S.stands s.old) (S.actions s.old) (S.actions s.new)) }
{
    m.place = to;
    Ok(None)
}

// Goes on elsewhere where true is on top.
#[inline(always)]
fn jump_if<S: Store>(m: &mut Machine, s: &mut S, to: u64) -> Result<Option<Stop>, NoMemory>
    requires room { m.old.place + 1 < 2 ^ 64 }
    requires allowed { MayAct (Some (op.JumpIf to)) m.old (S.stands s.old) }
    ensures acted { IfOk result (Acted (Some (op.JumpIf to)) m.old m.new (S.stands s.old) (S.stands s.new) (S.actions s.old) (S.actions s.new)) }
    ensures began { OnErr result (Began (Some (op.JumpIf to)) m.old (S.stands s.old) (S.actions s.old) (S.actions s.new)) }
{
    let truth = m.pop_truth();
    m.place = if truth { to } else { m.place + 1 };
    Ok(None)
}

// Goes on elsewhere where false is on top.
#[inline(always)]
fn jump_unless<S: Store>(m: &mut Machine, s: &mut S, to: u64) -> Result<Option<Stop>, NoMemory>
    requires room { m.old.place + 1 < 2 ^ 64 }
    requires allowed { MayAct (Some (op.JumpUnless to)) m.old (S.stands s.old) }
    ensures acted { IfOk result (Acted (Some (op.JumpUnless to)) m.old m.new (S.stands s.old) (S.stands s.new) (S.actions s.old) (S.actions s.new)) }
    ensures began { OnErr result (Began (Some (op.JumpUnless to)) m.old (S.stands s.old) (S.actions s.old) (S.actions s.new)) }
{
    let truth = m.pop_truth();
    m.place = if truth { m.place + 1 } else { to };
    Ok(None)
}

/// Carries out an instruction. An answer is where the machine halts. The most frequent instructions stand apart, since a call
/// pays for all that the function keeps room for.
#[inline(always)]
pub fn act<S: Store>(
    alloc: Global,
    instr: &Instr,
    m: &mut Machine,
    s: &mut S,
) -> Result<Option<Stop>, NoMemory>
    requires room { m.old.place + 1 < 2 ^ 64 }
    requires allowed { MayAct (Some instr.now) m.old (S.stands s.old) }
    ensures acted { IfOk result (Acted (Some instr.now) m.old m.new (S.stands s.old) (S.stands s.new) (S.actions s.old) (S.actions s.new)) }
    ensures began { OnErr result (Began (Some instr.now) m.old (S.stands s.old) (S.actions s.old) (S.actions s.new)) }
{
    match instr {
        Instr::Turn(line) => turn(m, s, *line),
        Instr::Push(v) => push_copy(alloc, m, s, v),
        Instr::Slot(slot) => push_slot(m, s, *slot),
        Instr::Arith(sign) => compute(alloc, m, s, *sign),
        Instr::Cmp(sign) => compare(m, s, *sign),
        Instr::Jump(to) => jump(m, s, *to),
        Instr::JumpIf(to) => jump_if(m, s, *to),
        Instr::JumpUnless(to) => jump_unless(m, s, *to),
        Instr::SetSlot(slot) => assign(m, s, *slot),
        _ => Ok(act_any(alloc, instr, m, s)?),
    }
}

// Carries out an instruction of any kind.
#[inline(never)]
fn act_any<S: Store>(
    alloc: Global,
    instr: &Instr,
    m: &mut Machine,
    s: &mut S,
) -> Result<Option<Stop>, NoMemory>
    requires room { m.old.place + 1 < 2 ^ 64 }
    requires allowed { MayAct (Some instr.now) m.old (S.stands s.old) }
    ensures acted { IfOk result (Acted (Some instr.now) m.old m.new (S.stands s.old) (S.stands s.new) (S.actions s.old) (S.actions s.new)) }
    ensures began { OnErr result (Began (Some instr.now) m.old (S.stands s.old) (S.actions s.old) (S.actions s.new)) }
{
    match instr {
        Instr::Turn(line) => turn(m, s, *line),
        Instr::Push(v) => push_copy(alloc, m, s, v),
        Instr::Me => push_me(m, s),
        Instr::Slot(slot) => push_slot(m, s, *slot),
        Instr::Clock => push_clock(m, s),
        Instr::Ask(query) => ask(m, s, *query),
        Instr::Pack(n) => pack(alloc, m, s, *n),
        Instr::Collect(n) => collect(alloc, m, s, *n),
        Instr::Range => make_range(alloc, m, s),
        Instr::Arith(sign) => compute(alloc, m, s, *sign),
        Instr::Cmp(sign) => compare(m, s, *sign),
        Instr::Member => look_up(alloc, m, s),
        Instr::Not => negate(m, s),
        Instr::Jump(to) => jump(m, s, *to),
        Instr::JumpIf(to) => jump_if(m, s, *to),
        Instr::JumpUnless(to) => jump_unless(m, s, *to),
        Instr::SetSlot(slot) => assign(m, s, *slot),
        Instr::Add(slot) => add(m, s, *slot),
        Instr::Del(slot) => delete(m, s, *slot),
        Instr::Send => send(alloc, m, s),
        Instr::Output => print(m, s),
        Instr::Take => begin_loop(alloc, m, s),
        Instr::Next { slot, done } => go_round(alloc, m, s, *slot, *done),
        Instr::Found { query, slots } => find(alloc, m, s, *query, slots),
        Instr::Yield(k) => Ok(Some(Stop::Yield(*k))),
        Instr::End => Ok(Some(Stop::Ended)),
    }
}
