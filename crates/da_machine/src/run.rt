//! Runs of code.
ghost use Rattle.da_lang.specs.Runs.{max_turns, run_to_yield};
ghost use Rattle.da_lang.specs.World.{Data, Task};
ghost use Rattle.da_lang.specs.declared.program.Class.{Class};
ghost use Rattle.da_lang.specs.declared.program.Program.{Program};
ghost use Rattle.da_machine.specs.Forward.{IsForward};
ghost use Rattle.da_machine.specs.RunsTo.{AddsPrefix, MayRun, RanPart, RanTo};
ghost use Rattle.da_machine.specs.Stops.{CanRun, IsRun};
ghost use Rattle.std.specs.Prelude.{◌≤◌, IfOk, List, OnErr};

use crate::acts::act;
use crate::code::Code;
use crate::machine::{Machine, Stop};
use crate::store::Store;
use da_values::NoMemory;
use std::alloc::Global;

/// Runs the code instruction by instruction, up to a halt.
#[tactic(auto, using(crate::proofs::Running::running_begins))]
fn run_machine<S: Store>(
    alloc: Global,
    code: &Code,
    m: &mut Machine,
    s: &mut S,
) -> Result<Stop, NoMemory>
    requires forward { IsForward code.now }
    requires turns { m.old.turns ≤ max_turns }
    requires runs { MayRun code.now m.old (S.stands s.old) }
    ensures runs { IfOk result (RanTo code.now m.old m.new (S.stands s.old) (S.stands s.new) (S.actions s.old) (S.actions s.new)) }
    ensures part { OnErr result (RanPart code.now m.old (S.stands s.old) (S.actions s.old) (S.actions s.new)) }
{
    let len = code.instrs.len() as u64;
    'instrs: while m.place < len {
        match code.instrs.get(m.place as usize) {
            None => return Ok(Stop::Ended),
            Some(instr) => {
                let stop = act(alloc, instr, m, s)?;
                match stop {
                    Some(stop) => return Ok(stop),
                    None => {}
                }
            }
        }
    }
    Ok(Stop::Ended)
}

/// Runs the code up to the next yield point, to its end or to a fault. For each process that the store stands for and
/// for whose tasks the code stands, the answer, the store, its actions and the turns are those of the run of these
/// tasks; before a yield point the code stands for what is left. No value stays on the stack. After want of memory the
/// actions are the old ones and a prefix of those that were due.
pub fn run_code<S: Store>(
    alloc: Global,
    code: &Code,
    m: &mut Machine,
    s: &mut S,
) -> Result<Stop, NoMemory>
    requires forward { IsForward code.now }
    requires turns { m.old.turns ≤ max_turns }
    requires ready { (p : Program) × (class : Class) × (d : Data) × (todo : List Task) × S.stands s.old p class d × CanRun p class code.now m.old d todo }
    ensures runs { IfOk result (λ stop. (p : Program) (class : Class) (d : Data) (todo : List Task) → S.stands s.old p class d → CanRun p class code.now m.old d todo
        → IsRun class code.now stop m.new (S.stands s.new p class) (S.actions s.old) (S.actions s.new) (run_to_yield class m.old.turns d todo)) }
    ensures part { OnErr result ((p : Program) (class : Class) (d : Data) (todo : List Task) → S.stands s.old p class d → CanRun p class code.now m.old d todo
        → AddsPrefix (S.actions s.old) (S.actions s.new) (run_to_yield class m.old.turns d todo).actions) }
{
    match run_machine(alloc, code, m, s) {
        Ok(stop) => {
            m.stack.clear();
            Ok(stop)
        }
        Err(e) => Err(e),
    }
}
