//! Why no schedule joins traces.
use da_values::{List, NoMemory};
use thiserror::Error;

/// Where the trace of a process cannot go on: its number, and the first line that is not reached, counted from 1.
#[derive(Clone, Copy, Debug)]
pub struct Block {
    pub process: u16,
    pub line: u64,
}

/// Why no schedule was found.
#[derive(Debug, Error, Drop)]
pub enum JoinFault {
    /// No schedule has the traces. The blocks come in the order of the processes.
    #[error("no schedule has these traces")]
    Blocked(List<Block>),
    /// Memory was refused.
    #[error("no memory is left")]
    Memory,
}

impl From<NoMemory> for JoinFault {
    ghost use Rattle.std.specs.Prelude.{◌≡◌};
    ghost use Rattle.trace_join.specs.declared.fault.JoinFault.TheVariants.{Memory};

    ghost from_gives = { λ _ fault. fault ≡ Memory };

    fn from(_: NoMemory) -> JoinFault {
        JoinFault::Memory
    }
}
