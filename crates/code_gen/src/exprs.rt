//! The code of expressions.
ghost use Rattle.code_gen.specs.Made.{MadeDoing, MadeExpr, MadeExprs, MadeParts, MadeStores, deciding};
ghost use Rattle.da_lang.specs.Turns.{slot_of_arg, value_of_arg};
ghost use Rattle.da_values.specs.Order.{val_cmp};
ghost use Rattle.da_values.specs.Sets.{set_image};
ghost use Rattle.da_values.specs.Value.{val_of};
ghost use Rattle.da_values.specs.declared.val.Val.TheVariants as val;
ghost use Rattle.std.specs.Prelude.{◌≡◌, IfOk, OnOk, length, map};

use crate::emit::{fill_tests, here, patch, put};
use da_lang::{BindArg, ChainPart, Instr, RExpr};
use da_machine::Code;
use da_values::{List, NoMemory, SetVal, Value, copy_value, set_insert};
use std::alloc::Global;

/// Adds the code of an expression.
#[cycle(exprs)]
#[tactic(auto, using(crate::proofs::ExprCode::made_rules))]
pub fn emit_expr(alloc: Global, e: &RExpr, code: &mut Code) -> Result<(), NoMemory>
    ensures { OnOk result (MadeExpr code.old code.new e.now) }
{
    match e {
        RExpr::Const(value) => put(code, Instr::Push(copy_value(alloc, value)?)),
        RExpr::Procs(processes) => {
            let set = process_set(alloc, processes.as_slice())?;
            put(code, Instr::Push(set))
        }
        RExpr::Me => put(code, Instr::Me),
        RExpr::Slot(slot) => put(code, Instr::Slot(*slot)),
        RExpr::Clock => put(code, Instr::Clock),
        RExpr::Ask(query) => put(code, Instr::Ask(*query)),
        RExpr::Range(first, end) => {
            emit_expr(alloc, first.get(), code)?;
            emit_expr(alloc, end.get(), code)?;
            put(code, Instr::Range)
        }
        RExpr::Tuple(parts) => {
            emit_exprs(alloc, parts.as_slice(), code)?;
            put(code, Instr::Pack(few_parts(parts.len())?))
        }
        RExpr::SetOf(elements) => {
            emit_exprs(alloc, elements.as_slice(), code)?;
            put(code, Instr::Collect(few_elements(elements.len())?))
        }
        RExpr::Or(operands) => emit_tests(alloc, operands.as_slice(), true, code),
        RExpr::And(operands) => emit_tests(alloc, operands.as_slice(), false, code),
        RExpr::Not(operand) => {
            emit_expr(alloc, operand.get(), code)?;
            put(code, Instr::Not)
        }
        RExpr::Cmp(op, left, right) => {
            emit_expr(alloc, left.get(), code)?;
            emit_expr(alloc, right.get(), code)?;
            put(code, Instr::Cmp(*op))
        }
        RExpr::Member(left, right) => {
            emit_expr(alloc, left.get(), code)?;
            emit_expr(alloc, right.get(), code)?;
            put(code, Instr::Member)
        }
        RExpr::Chain(first, more) => {
            emit_expr(alloc, first.get(), code)?;
            emit_parts(alloc, more.as_slice(), code)
        }
    }
}

/// Adds the code of expressions, one after the other.
#[cycle(exprs)]
#[tactic(auto, using(crate::proofs::ExprCode::made_no_expr, crate::proofs::ExprCode::made_exprs_next))]
pub fn emit_exprs(alloc: Global, es: &[RExpr], code: &mut Code) -> Result<(), NoMemory>
    ensures { OnOk result (MadeExprs code.old code.new es.now) }
{
    'exprs: for e in es {
        emit_expr(alloc, e, code)?;
    }
    Ok(())
}

// Adds the code of the further parts of a chain.
#[cycle(exprs)]
#[tactic(auto, using(crate::proofs::ExprCode::made_no_part, crate::proofs::ExprCode::made_parts_next))]
fn emit_parts(alloc: Global, parts: &[ChainPart], code: &mut Code) -> Result<(), NoMemory>
    ensures { OnOk result (MadeParts code.old code.new parts.now) }
{
    'parts: for part in parts {
        emit_expr(alloc, part.operand.get(), code)?;
        put(code, Instr::Arith(part.op))?;
    }
    Ok(())
}

// Adds the code of operands each of which decides where it has the given value. The tests have one target, after the
// operands, so they are written when that is known.
#[cycle(exprs)]
fn emit_tests(
    alloc: Global,
    operands: &[RExpr],
    decides: bool,
    code: &mut Code,
) -> Result<(), NoMemory>
    ensures { OnOk result (MadeExpr code.old code.new (deciding decides operands.now)) }
{
    let mut holes = List::new(alloc);
    'operands: for operand in operands {
        emit_expr(alloc, operand, code)?;
        holes.push(code.instrs.len())?;
        put(code, Instr::End)?;
    }
    put(code, Instr::Push(Value::Bool(!decides)))?;
    let leave = code.instrs.len();
    put(code, Instr::End)?;
    let decided = here(code);
    put(code, Instr::Push(Value::Bool(decides)))?;
    let end = here(code);
    patch(code, leave, Instr::Jump(end));
    fill_tests(code, holes.as_slice(), decides, decided);
    Ok(())
}

/// Begins the turn of a line, and adds the code of an expression and of what is done with its value.
#[tactic(auto, using(crate::proofs::ExprCode::made_doing))]
pub fn emit_doing(
    alloc: Global,
    e: &RExpr,
    line: u32,
    does: Instr,
    code: &mut Code,
) -> Result<(), NoMemory>
    ensures { OnOk result (MadeDoing code.old code.new line e.now does) }
{
    put(code, Instr::Turn(line))?;
    emit_expr(alloc, e, code)?;
    put(code, does)
}

/// Adds the code of the values of arguments.
#[tactic(auto, using(crate::proofs::ExprCode::made_no_expr, crate::proofs::ExprCode::made_values_next))]
pub fn emit_values(alloc: Global, args: &[BindArg], code: &mut Code) -> Result<(), NoMemory>
    ensures { OnOk result (MadeExprs code.old code.new (map value_of_arg args.now)) }
{
    'values: for arg in args {
        emit_expr(alloc, arg.value.get(), code)?;
    }
    Ok(())
}

/// Adds the code that stores the values of arguments in the slots of their parameters, the last one first.
#[tactic(auto, using(crate::proofs::ExprCode::storing_begins, crate::proofs::ExprCode::storing_ends))]
pub fn emit_bound(args: &[BindArg], code: &mut Code) -> Result<(), NoMemory>
    ensures { OnOk result (MadeStores code.old code.new (map slot_of_arg args.now)) }
{
    let mut left = args;
    'bound: while let [others @ .., last] = left {
        put(code, Instr::SetSlot(last.slot))?;
        left = others;
    }
    Ok(())
}

/// Adds the code that stores values in slots, the last one first.
#[tactic(auto, using(crate::proofs::ExprCode::storing_begins, crate::proofs::ExprCode::storing_ends))]
pub fn emit_stored(slots: &[u16], code: &mut Code) -> Result<(), NoMemory>
    ensures { OnOk result (MadeStores code.old code.new (map (λ s. s) slots.now)) }
{
    let mut left = slots;
    'stored: while let [others @ .., last] = left {
        put(code, Instr::SetSlot(*last))?;
        left = others;
    }
    Ok(())
}

// How many parts a tuple has. Accepted programs have none of more than 255.
fn few_parts(parts: usize) -> Result<u16, NoMemory>
    ensures { IfOk result (λ few. few ≡ parts) }
{
    match u16::try_from(parts) {
        Ok(few) => Ok(few),
        Err(_) => Err(NoMemory),
    }
}

// How many elements a set is written with. They are fewer than the tokens of a text.
fn few_elements(elements: usize) -> Result<u32, NoMemory>
    ensures { IfOk result (λ few. few ≡ elements) }
{
    match u32::try_from(elements) {
        Ok(few) => Ok(few),
        Err(_) => Err(NoMemory),
    }
}

// The set of some processes.
fn process_set(alloc: Global, processes: &[u16]) -> Result<Value, NoMemory>
    ensures { IfOk result (λ set. val_of set ≡ val.Set (set_image val_cmp val.Proc processes.now)) }
{
    let mut set = SetVal::new(alloc);
    let mut left = processes;
    'processes: while let [others @ .., last] = left {
        set_insert(&mut set, Value::Proc(*last))?;
        left = others;
    }
    Ok(Value::Set(set))
}
