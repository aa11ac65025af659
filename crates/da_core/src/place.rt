//! Where a process stands, and how an event leaves it.
use da_values::NoMemory;
use thiserror::Error;

/// Where a process stands: it has not begun, it waits at a label or at an `await` of so many alternatives, it has used
/// up its statements, or a fault has ended it.
#[derive(Clone, Copy)]
pub enum Place {
    New,
    Label,
    Await(u32),
    Ended,
    Faulted,
}

/// How a process stopped: at a label or an `await`, at the end of its statements, or by a fault.
#[derive(Clone, Copy)]
pub enum Stopped {
    AtYield,
    Ended,
    Faulted,
}

/// Why a step was not made.
#[derive(Clone, Copy, Debug, Error)]
pub enum StepFault {
    /// The event is not allowed. Nothing has changed.
    #[error("the event is not allowed")]
    Forbidden,
    /// Memory was refused in the midst of the event, or a value would have 2^128 holders, or a sum is outside an i128. No
    /// further step can be made.
    #[error("no memory is left")]
    Memory,
    /// Memory was refused in an earlier event.
    #[error("an earlier event found no memory")]
    Spent,
}

impl From<NoMemory> for StepFault {
    ghost use Rattle.da_core.specs.declared.place.StepFault.TheVariants.{Memory};
    ghost use Rattle.std.specs.Prelude.{◌≡◌};

    ghost from_gives = { λ _ fault. fault ≡ Memory };

    fn from(_: NoMemory) -> StepFault {
        StepFault::Memory
    }
}
