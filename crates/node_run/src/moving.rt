//! The move that a process makes where nothing comes.
ghost use Rattle.da_core.specs.StandsFor.{Awaits, Whichever};
ghost use Rattle.da_lang.specs.World.{Waiting};
ghost use Rattle.node_run.specs.NodeRun.{move_of};
ghost use Rattle.std.specs.Prelude.{◌≡◌};

use da_core::{Core, Place};

/// The number of the move that a process makes where it waits: 0 at a label, and at an `await` the least alternative
/// that is true; `None` where there is none. It takes no memory.
pub(crate) fn chosen_move(core: &Core<'_>) -> Option<u32>
    ensures { Whichever core.now (λ w. w.phase ≡ Waiting → result ≡ move_of w) }
{
    match core.place() {
        Place::Label => Some(0),
        Place::Await(count) => least_allowed(core, count),
        Place::New | Place::Ended | Place::Faulted => None,
    }
}

// The least number of a move that is allowed, from 1 up to the number of alternatives.
fn least_allowed(core: &Core<'_>, count: u32) -> Option<u32>
    ensures { Whichever core.now (λ w. w.phase ≡ Waiting
        → Awaits w.todo count → result ≡ move_of w) }
{
    for place in 0..count {
        let k = place + 1;
        if core.can_move(k) {
            return Some(k);
        }
    }
    None
}
