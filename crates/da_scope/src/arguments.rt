//! Arguments of calls.
ghost use Rattle.da_lang.specs.BodyMeaning.{bind_arg};
ghost use Rattle.std.specs.Prelude.{◌≡◌, IfOk, map, zip};

use da_lang::{BindArg, RExpr};
use da_values::{Boxed, List, NoMemory};
use std::alloc::Global;

/// Arguments with the slots of their parameters. Each is taken from the front: a class has few slots.
pub fn bind_args(alloc: Global, slots: &[u16], args: List<RExpr>) -> Result<List<BindArg>, NoMemory>
    ensures { IfOk result (λ binds. binds ≡ map bind_arg (zip slots.now args)) }
{
    let mut left = args;
    let mut binds = List::new(alloc);
    for slot in slots {
        if left.len() == 0 {
            return Ok(binds);
        }
        let value = Boxed::new(alloc, left.remove(0))?;
        binds.push(BindArg { slot: *slot, value })?;
    }
    Ok(binds)
}
