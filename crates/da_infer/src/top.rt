//! From a program without declarations to the program with them.
ghost use Rattle.std.specs.Prelude.{◌≢◌, IfErr, IfOk, MatchResult, ◌≡◌};
ghost use Rattle.da_infer.specs.Answers.{IsInferred, IsRefusedAs};
ghost use Rattle.da_infer.specs.Fills.{IsLoose};
ghost use Rattle.da_infer.specs.Laws.{AgreeFor};
ghost use Rattle.da_infer.specs.declared.top.InferFault.{InferFault as Fault};
ghost use Rattle.da_infer.specs.declared.top.InferFault.TheVariants.{Memory};

use crate::laws::fills_agree;
use crate::places::places;
use crate::solving::{count_types, marked_program, solved};
use da_lang::{LimitKind, ScopeKind, Tree};
use da_parse::LooseTree;
use da_values::NoMemory;
use std::alloc::Global;
use thiserror::Error;

/// Why there are no declarations for a program. Lines are counted from 1.
#[derive(Clone, Copy, Debug, Error)]
pub enum InferFault {
    /// A rule of names is broken at this line.
    #[error("line {line} breaks a rule of names")]
    Name { kind: ScopeKind, line: u32 },
    /// No rule of names is broken, and this limit is exceeded at this line.
    #[error("line {line} exceeds a limit")]
    Limit { which: LimitKind, line: u32 },
    /// Neither, and no types keep the rules on all lines up to this one, while some do on all lines before it.
    #[error("no types keep the rules up to line {line}")]
    NoTypes { line: u32 },
    /// Memory was refused, or the program would have more than the 4,194,304 nodes that `resolve` builds.
    #[error("no memory is left")]
    Memory,
}

impl From<NoMemory> for InferFault {
    ghost use Rattle.da_infer.specs.declared.top.InferFault.TheVariants.{Memory};
    ghost use Rattle.std.specs.Prelude.{◌≡◌};

    ghost from_gives = { λ _ fault. fault ≡ Memory };

    fn from(_: NoMemory) -> InferFault {
        InferFault::Memory
    }
}

/// The program with the declarations that it lacks, or the first refusal.
fn find(alloc: Global, loose: &LooseTree) -> Result<Tree, InferFault>
    requires loose { IsLoose loose.now }
    ensures inferred { IfOk result (IsInferred loose.now) }
    ensures refused { IfErr result (λ fault. fault ≢ Memory → IsRefusedAs loose.now fault) }
{
    let untyped = places(alloc, loose.untyped.as_slice())?;
    let count = count_types(loose, alloc, untyped.as_slice())?;
    let program = marked_program(alloc, loose, untyped.as_slice(), count)?;
    solved(alloc, loose, untyped.as_slice(), count, &program)
}

/// The program with the declarations that it lacks. Each tag gets a `message` line, each variable a `var` line and each
/// parameter a type. Where some types keep the rules, the program is given with such types. Else the first refusal is told:
/// by names, by limits, or by types with the least line up to which there are none. `Memory` comes where memory was refused,
/// and where the program would have more nodes than `resolve` builds.
///
/// What is printed of the program may be longer, or nested deeper, than other commands take.
pub fn infer(alloc: Global, loose: &LooseTree) -> Result<Tree, InferFault>
    requires loose { IsLoose loose.now }

    // Names and limits do not depend on the types.
    ensures same { AgreeFor loose.now }

    // The program is that of the text with types for what has none; it keeps all rules, no other types with which it does are
    // better, and its text spells it again.
    ensures inferred { IfOk result (IsInferred loose.now) }

    // What is told, but want of memory, is so.
    ensures refused { IfErr result (λ fault. fault ≢ Memory → IsRefusedAs loose.now fault) }

    // What is so is told, or memory was refused.
    ensures told { (why : Fault) → IsRefusedAs loose.now why → MatchResult result (λ tree. ⊥) (λ fault. fault ≢ Memory → fault ≡ why) }
{
    fills_agree();
    find(alloc, loose)
}
