//! From a program to the program with its types.
ghost use Rattle.da_lang.specs.declared.program.Program.{Program as ProgramOf};
ghost use Rattle.da_lang.specs.Accepted.{IsAccepted, IsResolved};
ghost use Rattle.da_lang.specs.Typing.{IsTyped, Typed as TypedAs, breaks_in};
ghost use Rattle.da_types.specs.KeepsShaped.{EndsWithoutYield, KeepsShaped};
ghost use Rattle.da_types.specs.Refusing.{IsRefusedAs};
ghost use Rattle.da_types.specs.Sound.{IsSound};
ghost use Rattle.da_types.specs.Totality.{NothingIsMissing};
ghost use Rattle.da_types.specs.declared.top.TypeFault.TheVariants.{Memory};
ghost use Rattle.std.specs.Prelude.{◌≡◌, [], IfErr, IfOk, MatchResult};

use crate::check::{broken_line, filled};
use da_lang::Program;
use da_values::NoMemory;
use std::alloc::Global;
use std::marker::Model;
use thiserror::Error;

/// Why a program is not typed. Lines are counted from 1.
#[derive(Clone, Copy, Debug, Error)]
pub enum TypeFault {
    /// A rule of types is broken at this line, and at none before it.
    #[error("line {line} breaks a rule of types")]
    Refused { line: u32 },
    /// Memory was refused.
    #[error("no memory is left")]
    Memory,
}

impl From<NoMemory> for TypeFault {
    ghost use Rattle.da_types.specs.declared.top.TypeFault.TheVariants.{Memory};
    ghost use Rattle.std.specs.Prelude.{◌≡◌};

    ghost from_gives = { λ _ fault. fault ≡ Memory };

    fn from(_: NoMemory) -> TypeFault {
        TypeFault::Memory
    }
}

/// The typed program of a text that is accepted. Contracts see the program.
#[derive(Drop)]
pub struct Typed {
    program: Program,
}

impl Model for Typed {
    ghost use Rattle.da_lang.specs.Accepted.{IsAccepted};
    ghost use Rattle.da_lang.specs.contracts.program.Program as whole;
    ghost use Rattle.da_lang.specs.declared.program.Program.{Program};

    ghost Value = { Program };

    ghost coded = { whole.the_row.coded };

    ghost view = { λ typed. typed.program };

    ghost invariant = { λ typed. IsAccepted typed.program };
}

impl Typed {
    /// The program. It takes no memory.
    pub fn program(&self) -> &Program
        ensures same { result.now ≡ self.now }

        // It is the typed program of a text: each slot and each numbered query has a type, and whatever a process knows
        // that is shaped, each numbered query and each condition of an `await` has a value.
        ensures accepted { IsAccepted self.now }
        ensures typed { IsTyped self.now }
        ensures total { NothingIsMissing self.now }
        ensures sound { IsSound self.now }

        // Its worlds stay shaped, and its `setup` and its handlers end at no yield point.
        ensures shaped { KeepsShaped self.now }
        ensures ends { EndsWithoutYield self.now }
    {
        &self.program
    }
}

/// A resolved program with the types of its slots: each that had none has the type that its loop, its `some` or its
/// handler gives it. `Refused` comes exactly where a rule of types is broken, with the earliest such line. `Memory` comes only
/// where memory was refused. Time and memory are in step with the program and its types.
#[tactic(auto, using(crate::proofs::CheckLaws::top_rules), unfolding(da_lang::specs::Typing::type_breaks))]
pub fn check_types(alloc: Global, p: Program) -> Result<Typed, TypeFault>
    requires resolved { IsResolved p }
    ensures typed { IfOk result (TypedAs p) }
    ensures keeps { IfOk result (λ typed. breaks_in typed ≡ []) }
    ensures refused { IfErr result (IsRefusedAs p) }

    ensures accepted { IfOk result IsAccepted }

    // Each slot and each numbered query has a type, and whatever a process of the typed program knows that is shaped,
    // each numbered query and each condition of an `await` has a value.
    ensures total { IfOk result (λ typed. IsTyped typed × NothingIsMissing typed) }
    ensures sound { IfOk result IsSound }

    // A program that keeps the rules is given with its types, or memory was refused.
    ensures only { (q : ProgramOf) → TypedAs p q → MatchResult result (λ found. found ≡ q) (λ fault. fault ≡ Memory) }
{
    let program = filled(alloc, p)?;
    let found = broken_line(alloc, &program)?;
    match found {
        None => Ok(Typed { program }),
        Some(line) => Err(TypeFault::Refused { line }),
    }
}
