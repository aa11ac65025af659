//! Why a text has no tokens.
use da_values::{LexKind, NoMemory};
use thiserror::Error;

/// Why a text has no tokens.
#[derive(Clone, Copy, Debug, Error)]
pub enum LexFault {
    /// The first fault of the text, and its line, counted from 1.
    #[error("line {line} cannot be read")]
    Refused { kind: LexKind, line: u32 },
    /// Memory was refused.
    #[error("no memory is left")]
    Memory,
}

impl From<NoMemory> for LexFault {
    ghost use Rattle.std.specs.Prelude.{◌≡◌};
    ghost use Rattle.da_lex.specs.declared.fault.LexFault.TheVariants.{Memory};

    ghost from_gives = { λ _ e. e ≡ Memory };

    fn from(_: NoMemory) -> LexFault {
        LexFault::Memory
    }
}
