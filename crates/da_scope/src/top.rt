//! From the tree of a program to the program.
ghost use Rattle.da_lang.specs.Accepted.{IsResolved, IsWritten};
ghost use Rattle.da_lang.specs.Limits.{Resolves};
ghost use Rattle.da_lang.specs.declared.program.Program.{Program as ProgramOf};
ghost use Rattle.da_scope.specs.Resolving.{IsRefusedAs};
ghost use Rattle.da_scope.specs.declared.top.ScopeFault.TheVariants.{Memory};
ghost use Rattle.std.specs.Prelude.{◌≡◌, IfErr, IfOk, MatchResult};

use crate::program::build_program;
use da_bodies::{LimitFault, NameFault};
use da_lang::{LimitKind, Program, ScopeKind, Tree};
use da_limits::{copied_nodes, limit_fault};
use da_names::name_fault;
use da_values::NoMemory;
use std::alloc::Global;
use thiserror::Error;

/// Why a tree gives no program. Lines are counted from 1.
#[derive(Clone, Copy, Debug, Error)]
pub enum ScopeFault {
    /// A rule of names is broken at this line.
    #[error("line {line} breaks a rule of names")]
    Refused { kind: ScopeKind, line: u32 },
    /// No rule of names is broken, and this limit is exceeded at this line.
    #[error("line {line} exceeds a limit")]
    Limit { which: LimitKind, line: u32 },
    /// Memory was refused.
    #[error("no memory is left")]
    Memory,
}

impl From<NoMemory> for ScopeFault {
    ghost use Rattle.da_scope.specs.declared.top.ScopeFault.TheVariants.{Memory};
    ghost use Rattle.std.specs.Prelude.{◌≡◌};

    ghost from_gives = { λ _ fault. fault ≡ Memory };

    fn from(_: NoMemory) -> ScopeFault {
        ScopeFault::Memory
    }
}

/// The most nodes that a program may have with its calls inlined. More would take gigabytes, so they are refused as
/// memory is.
const MOST_NODES: u32 = 4_194_304;

/// The program of a tree: each name has its slot, each call has a copy of its method's body, and the queries are
/// numbered. `Refused` names the earliest line at which a rule of names is broken, and there the first kind; `Limit` comes
/// only where none is broken, and names a limit that is exceeded in the same way. A tree that names and limits allow gets
/// its program or `Memory`, which comes where memory was refused, and before anything is built where the program would
/// have more than 4,194,304 nodes.
pub fn resolve(alloc: Global, t: &Tree) -> Result<Program, ScopeFault>
    requires written { IsWritten t.now }
    ensures program { IfOk result (Resolves t.now) }
    ensures resolved { IfOk result IsResolved }
    ensures refused { IfErr result (IsRefusedAs t.now) }
    ensures only { (p : ProgramOf) → Resolves t.now p → MatchResult result (λ found. found ≡ p) (λ fault. fault ≡ Memory) }
{
    if let Some(NameFault { kind, line }) = name_fault(alloc, t)? {
        return Err(ScopeFault::Refused { kind, line });
    }
    if let Some(LimitFault { kind, line }) = limit_fault(alloc, t)? {
        return Err(ScopeFault::Limit { which: kind, line });
    }
    if copied_nodes(alloc, t)? > MOST_NODES {
        return Err(ScopeFault::Memory);
    }
    Ok(build_program(alloc, t)?)
}
