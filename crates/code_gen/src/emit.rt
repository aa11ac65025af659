//! Instructions that are added, and those that are written later.
ghost use Rattle.code_gen.specs.Made.{Awaiting, MadeFound, added, closed, end_of, filled, patched, pointed, repointed};
ghost use Rattle.da_lang.specs.declared.code.Instr.TheVariants as op;
ghost use Rattle.da_machine.specs.CodeFor.{jump_at};
ghost use Rattle.std.specs.Prelude.{◌≡◌, ◌<◌, ◌^◌, ◌++◌, ◌∷◌, [], length, IfOk, OnOk};

use da_lang::Instr;
use da_machine::{Code, YieldPoint};
use da_values::{List, NoMemory};
use std::alloc::Global;

/// Adds an instruction.
pub fn put(code: &mut Code, instr: Instr) -> Result<(), NoMemory>
    ensures { OnOk result (code.new ≡ added code.old instr) }
{
    code.instrs.push(instr)
}

/// Writes an instruction over the one at a place, if there is one.
pub fn patch(code: &mut Code, at: usize, instr: Instr)
    ensures { code.new ≡ patched code.old at instr }
{
    if at < code.instrs.len() {
        code.instrs.set(at, instr);
    }
}

/// The place where the next instruction goes, as a target of jumps.
pub fn here(code: &Code) -> u64
    ensures { result ≡ end_of code.now }
{
    code.instrs.len() as u64
}

/// A jump where the value on top is this one.
pub fn jump(value: bool, to: u64) -> Instr
    ensures { result ≡ jump_at value to }
{
    if value {
        Instr::JumpIf(to)
    } else {
        Instr::JumpUnless(to)
    }
}

/// Writes the tests of operands, which lead on where their value decides.
pub fn fill_tests(code: &mut Code, holes: &[usize], decides: bool, to: u64)
    ensures { code.new ≡ filled code.old holes.now (jump_at decides to) }
{
    'holes: for hole in holes {
        patch(code, *hole, jump(decides, to));
    }
}

/// Writes a jump at each of these places.
pub fn fill_jumps(code: &mut Code, holes: &[usize], to: u64)
    ensures { code.new ≡ filled code.old holes.now (op.Jump to) }
{
    'holes: for hole in holes {
        patch(code, *hole, Instr::Jump(to));
    }
}

/// The number of the next yield point, where 32 bits count those before it.
pub fn next_number(code: &Code) -> u32
    ensures { length code.now.yields < 2 ^ 32 → result ≡ length code.now.yields }
{
    match u32::try_from(code.yields.len()) {
        Ok(number) => number,
        Err(_) => u32::MAX,
    }
}

/// Adds a yield point.
pub fn add_point(code: &mut Code, point: YieldPoint) -> Result<(), NoMemory>
    ensures { OnOk result (code.new ≡ pointed code.old point) }
{
    code.yields.push(point)
}

/// Writes a yield point over the one at a place, if there is one.
pub fn set_point(code: &mut Code, at: usize, point: YieldPoint)
    ensures { code.new ≡ repointed code.old at point }
{
    if at < code.yields.len() {
        code.yields.set(at, point);
    }
}

/// An `await` whose blocks are still added: the number of its yield point, the entries of its blocks so far, and where these
/// leave.
#[derive(Drop)]
pub struct OpenAwait {
    pub at: usize,
    pub entries: List<u64>,
    pub leaves: List<usize>,
}

/// Adds the instruction of an `await`. Its yield point comes before those in its blocks, so it is reserved.
pub fn begin_await(alloc: Global, code: &mut Code) -> Result<OpenAwait, NoMemory>
    ensures { IfOk result (λ begun. Awaiting code.old code.new [] begun) }
{
    let at = code.yields.len();
    let number = next_number(code);
    let reserved = YieldPoint {
        label: true,
        entries: List::new(alloc),
    };
    add_point(code, reserved)?;
    put(code, Instr::Yield(number))?;
    Ok(OpenAwait {
        at,
        entries: List::new(alloc),
        leaves: List::new(alloc),
    })
}

/// Ends an `await`: each of its blocks goes on after the last one, and its yield point gets their entries.
pub fn end_await(begun: OpenAwait, code: &mut Code)
    ensures { code.new ≡ closed code.old begun }
{
    let OpenAwait {
        at,
        entries,
        leaves,
    } = begun;
    let behind = here(code);
    fill_jumps(code, leaves.as_slice(), behind);
    let point = YieldPoint {
        label: false,
        entries,
    };
    set_point(code, at, point);
}

/// Adds the binding of the least row of a `some`, if there is one to bind.
#[tactic(auto, using(crate::proofs::ExprCode::made_unbound, crate::proofs::ExprCode::made_bound))]
pub fn emit_found(
    alloc: Global,
    found: Option<u32>,
    binds: &[u16],
    code: &mut Code,
) -> Result<(), NoMemory>
    ensures { OnOk result (MadeFound code.old code.new found binds.now) }
{
    match found {
        None => Ok(()),
        Some(query) => {
            let slots = copy_slots(alloc, binds)?;
            put(code, Instr::Found { query, slots })
        }
    }
}

// A copy of the numbers of slots.
fn copy_slots(alloc: Global, slots: &[u16]) -> Result<List<u16>, NoMemory>
    ensures { IfOk result (λ copy. copy ≡ slots.now) }
{
    let mut copy = List::new(alloc);
    'slots: for slot in slots {
        copy.push(*slot)?;
    }
    Ok(copy)
}
