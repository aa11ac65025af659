//! The limit on nodes, and why no further node is made.
use da_values::NoMemory;

/// The most nodes of a plan.
pub const MOST_NODES: usize = 4096;

/// Why a plan is not made to its end.
#[derive(Clone, Copy)]
pub enum Halt {
    /// It has more nodes than a plan may have.
    Full,
    /// Memory was refused.
    Memory,
}

impl From<NoMemory> for Halt {
    ghost use Rattle.quant_norm.specs.declared.limit.Halt.TheVariants.{Memory};
    ghost use Rattle.std.specs.Prelude.{◌≡◌};

    ghost from_gives = { λ _ halt. halt ≡ Memory };

    fn from(_: NoMemory) -> Halt {
        Halt::Memory
    }
}
