//! The code of statements.
ghost use Rattle.code_gen.specs.Made.{Awaiting, MadeAwait, MadeBlock, MadeBranches, MadeItem, MadeLabel, MadeLoop, MadeWhile};
ghost use Rattle.da_lang.specs.declared.program.ItemKind.TheViews.{out-Alt};
ghost use Rattle.da_lang.specs.Turns.{slot_of_arg, value_of_arg};
ghost use Rattle.da_lang.specs.declared.program.Item.{Item};
ghost use Rattle.da_machine.specs.declared.code.Code.{Code};
ghost use Rattle.std.specs.Prelude.{◌≡◌, ◌++◌, ◌∷◌, [], IfOk, List, OnOk, length, map};

use crate::emit::{
    OpenAwait, add_point, begin_await, emit_found, end_await, fill_jumps, here, next_number, patch,
    put,
};
use crate::exprs::{emit_bound, emit_doing, emit_expr, emit_values};
use da_lang::{Alt, BindArg, Instr, Item, ItemKind, RBranch, RExpr};
use da_machine::{Code, YieldPoint};
use da_values::{List, NoMemory};
use std::alloc::Global;

/// Adds the code of statements, one after the other.
#[cycle(items)]
#[tactic(auto, using(crate::proofs::ItemCode::made_no_item, crate::proofs::ItemCode::made_items_next))]
pub fn emit_block(alloc: Global, items: &[Item], code: &mut Code) -> Result<(), NoMemory>
    ensures { OnOk result (MadeBlock code.old code.new items.now) }
{
    'statements: for item in items {
        emit_item(alloc, item, code)?;
    }
    Ok(())
}

// Adds the code of a statement.
#[cycle(items)]
#[tactic(auto, using(crate::proofs::WorkCode::work_rules))]
fn emit_item(alloc: Global, item: &Item, code: &mut Code) -> Result<(), NoMemory>
    ensures { OnOk result (MadeItem code.old code.new item.now) }
{
    let line = item.line;
    match &item.kind {
        ItemKind::Assign(slot, e) => emit_doing(alloc, e.get(), line, Instr::SetSlot(*slot), code),
        ItemKind::Add(slot, e) => emit_doing(alloc, e.get(), line, Instr::Add(*slot), code),
        ItemKind::Del(slot, e) => emit_doing(alloc, e.get(), line, Instr::Del(*slot), code),
        ItemKind::Send(message, to) => {
            put(code, Instr::Turn(line))?;
            emit_expr(alloc, message.get(), code)?;
            emit_expr(alloc, to.get(), code)?;
            put(code, Instr::Send)
        }
        ItemKind::Output(e) => emit_doing(alloc, e.get(), line, Instr::Output, code),
        ItemKind::If(branches, otherwise) => {
            put(code, Instr::Turn(line))?;
            let leaves = emit_branches(alloc, branches.as_slice(), code)?;
            emit_block(alloc, otherwise.as_slice(), code)?;
            let exit = here(code);
            fill_jumps(code, leaves.as_slice(), exit);
            Ok(())
        }
        ItemKind::While(e, body) => emit_while(alloc, body.as_slice(), e.get(), line, code),
        ItemKind::For(slot, e, body) => {
            emit_doing(alloc, e.get(), line, Instr::Take, code)?;
            emit_loop(alloc, body.as_slice(), *slot, line, code)
        }
        ItemKind::Call(args, body) => {
            put(code, Instr::Turn(line))?;
            emit_values(alloc, args.as_slice(), code)?;
            emit_bound(args.as_slice(), code)?;
            emit_block(alloc, body.as_slice(), code)
        }
        ItemKind::Await {
            alts,
            timeout,
            label: _,
        } => {
            let begun = emit_alts(alloc, alts.as_slice(), code)?;
            match timeout {
                None => {
                    end_await(begun, code);
                    Ok(())
                }
                Some(body) => emit_timeout(alloc, body.as_slice(), begun, code),
            }
        }
        ItemKind::Label(_) => emit_label(alloc, code),
        ItemKind::Pass => put(code, Instr::Turn(line)),
    }
}

// Adds the code of a `while`: the turn, the condition, the way out, the body and the way back.
#[cycle(items)]
fn emit_while(
    alloc: Global,
    body: &[Item],
    e: &RExpr,
    line: u32,
    code: &mut Code,
) -> Result<(), NoMemory>
    ensures { OnOk result (MadeWhile code.old code.new e.now body.now line) }
{
    let start = here(code);
    put(code, Instr::Turn(line))?;
    emit_expr(alloc, e, code)?;
    let test = code.instrs.len();
    put(code, Instr::End)?;
    emit_block(alloc, body, code)?;
    put(code, Instr::Jump(start))?;
    let exit = here(code);
    patch(code, test, Instr::JumpUnless(exit));
    Ok(())
}

// Adds the code of the rest of a loop: the turn, the next element or the way out, the body and the way back.
#[cycle(items)]
fn emit_loop(
    alloc: Global,
    body: &[Item],
    slot: u16,
    line: u32,
    code: &mut Code,
) -> Result<(), NoMemory>
    ensures { OnOk result (MadeLoop code.old code.new slot body.now line) }
{
    let start = here(code);
    put(code, Instr::Turn(line))?;
    let hole = code.instrs.len();
    put(code, Instr::End)?;
    emit_block(alloc, body, code)?;
    put(code, Instr::Jump(start))?;
    let done = here(code);
    patch(code, hole, Instr::Next { slot, done });
    Ok(())
}

// Adds the code of branches. Each ends with a hole for the jump past the last one, and their places are told.
#[cycle(items)]
fn emit_branches(
    alloc: Global,
    branches: &[RBranch],
    code: &mut Code,
) -> Result<List<usize>, NoMemory>
    ensures { IfOk result (λ leaves. MadeBranches code.old code.new branches.now leaves) }
{
    let mut leaves = List::new(alloc);
    'parts: for branch in branches {
        leaves.push(emit_branch(alloc, branch, code)?)?;
    }
    Ok(leaves)
}

// Adds the code of a branch, and tells the place of the hole where it ends.
#[cycle(items)]
fn emit_branch(alloc: Global, branch: &RBranch, code: &mut Code) -> Result<usize, NoMemory>
    ensures { IfOk result (λ leave. MadeBranches code.old code.new (branch.now ∷ []) (leave ∷ [])) }
{
    emit_expr(alloc, branch.cond.get(), code)?;
    let test = code.instrs.len();
    put(code, Instr::End)?;
    emit_found(alloc, branch.found, branch.binds.as_slice(), code)?;
    emit_block(alloc, branch.body.as_slice(), code)?;
    let leave = code.instrs.len();
    put(code, Instr::End)?;
    let next = here(code);
    patch(code, test, Instr::JumpUnless(next));
    Ok(leave)
}

// Begins an `await`, and adds the blocks of its alternatives.
#[cycle(items)]
fn emit_alts(alloc: Global, alts: &[Alt], code: &mut Code) -> Result<OpenAwait, NoMemory>
    ensures { IfOk result (λ begun. Awaiting code.old code.new (map (λ a. (out-Alt a).body) alts.now) begun) }
{
    let mut begun = begin_await(alloc, code)?;
    'bodies: for alt in alts {
        emit_entered(alloc, alt.body.as_slice(), &mut begun, code)?;
    }
    Ok(begun)
}

// Adds the block for the time that runs out, which is the last one of an `await`, and ends it.
#[cycle(items)]
fn emit_timeout(
    alloc: Global,
    body: &[Item],
    begun: OpenAwait,
    code: &mut Code,
) -> Result<(), NoMemory>
    ensures { (old : Code) (bodies : List (List Item)) → Awaiting old code.old bodies begun
        → OnOk result (MadeAwait old code.new (bodies ++ body.now ∷ [])) }
{
    let mut begun = begun;
    emit_entered(alloc, body, &mut begun, code)?;
    end_await(begun, code);
    Ok(())
}

// Adds a block of an `await`, with its entry, and a hole for the jump past the last one.
#[cycle(items)]
fn emit_entered(
    alloc: Global,
    body: &[Item],
    begun: &mut OpenAwait,
    code: &mut Code,
) -> Result<(), NoMemory>
    ensures { (old : Code) (bodies : List (List Item)) → Awaiting old code.old bodies begun.old
        → OnOk result (Awaiting old code.new (bodies ++ body.now ∷ []) begun.new) }
{
    begun.entries.push(here(code))?;
    emit_block(alloc, body, code)?;
    begun.leaves.push(code.instrs.len())?;
    put(code, Instr::End)
}

// Adds the code of a label, which is its yield point.
fn emit_label(alloc: Global, code: &mut Code) -> Result<(), NoMemory>
    ensures { OnOk result (MadeLabel code.old code.new) }
{
    let number = next_number(code);
    put(code, Instr::Yield(number))?;
    let mut entries = List::new(alloc);
    entries.push(here(code))?;
    let point = YieldPoint {
        label: true,
        entries,
    };
    add_point(code, point)
}
