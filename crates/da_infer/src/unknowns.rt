//! Declared types that stand for unknown types.
ghost use Rattle.std.specs.Prelude.{◌≡◌, ◌∷◌, [], IfOk};
ghost use Rattle.std.specs.List.{All};
ghost use Rattle.class_demands.specs.Unknowns.{depth};
ghost use Rattle.da_infer.specs.Unknowns.{AreUnknowns, IsNumbered, IsUnknown, sets};
ghost use Rattle.da_lang.specs.declared.ty.Ty.TheVariants as ty_of;
ghost use Rattle.type_fitting.specs.Declarable.{IsDeclarable};

use da_lang::Ty;
use da_values::{Boxed, List, NoMemory};
use std::alloc::Global;

/// In how many sets a number stands: one more than may be open at once in a text.
const DEPTH: usize = 33;

/// A set of a type.
fn set_of(inner: Ty, alloc: Global) -> Result<Ty, NoMemory>
    ensures { IfOk result (λ ty. ty ≡ ty_of.Set inner) }
{
    Ok(Ty::Set(Boxed::new(alloc, inner)?))
}

/// A tuple of one part.
fn one_part(inner: Ty, alloc: Global) -> Result<Ty, NoMemory>
    ensures { IfOk result (λ ty. ty ≡ ty_of.Tuple (inner ∷ [])) }
{
    let mut parts = List::new(alloc);
    parts.push(inner)?;
    Ok(Ty::Tuple(parts))
}

/// The type with which a number is written: `int` for 0, a set for an odd number and a tuple of one part for another one,
/// round the type for half of what is before it.
fn number_type(number: usize, alloc: Global) -> Result<Ty, NoMemory>
    ensures { IfOk result (IsNumbered number) }
{
    if number == 0 {
        return Ok(Ty::Int);
    }
    let half = (number - 1) / 2;
    let inner = number_type(half, alloc)?;
    if number - 1 == 2 * half {
        set_of(inner, alloc)
    } else {
        one_part(inner, alloc)
    }
}

/// A type in so many sets that no text nests types so deep.
fn in_sets(inner: Ty, alloc: Global) -> Result<Ty, NoMemory>
    ensures { IfOk result (λ ty. ty ≡ sets depth inner) }
{
    let mut ty = inner;
    for _turn in 0..DEPTH {
        ty = set_of(ty, alloc)?;
    }
    Ok(ty)
}

/// The type for an unknown type.
fn unknown_type(number: usize, alloc: Global) -> Result<Ty, NoMemory>
    ensures { IfOk result (IsUnknown number) }
{
    let inner = number_type(number, alloc)?;
    let ty = in_sets(inner, alloc)?;
    Ok(ty)
}

/// A type for each of so many unknown types: deeper than any text may nest types, and yet one that may be declared.
pub fn unknown_types(alloc: Global, count: usize) -> Result<List<Ty>, NoMemory>
    ensures unknowns { IfOk result (AreUnknowns count) }
    ensures declarable { IfOk result (All IsDeclarable) }
{
    let mut types = List::new(alloc);
    for number in 0..count {
        let ty = unknown_type(number, alloc)?;
        types.push(ty)?;
    }
    Ok(types)
}
