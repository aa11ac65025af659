//! The types with which all demands of a list are met.
ghost use Rattle.std.specs.Prelude.{IfOk, List, MatchOption, map};
ghost use Rattle.std.specs.List.{AllByRecursion};
ghost use Rattle.da_lang.specs.declared.ty.Ty.{Ty as TyOf};
ghost use Rattle.type_fitting.specs.Fit.{Fits, FitsBest, Knows};

use crate::listing::table_of;
use crate::solving::solved;
use da_lang::Ty;
use da_values::{List, NoMemory};
use std::alloc::Global;
use type_demands::Demand;

/// Types for so many unknown types, each of which may be declared, with which all is met that is demanded; or none where
/// there are no such types. What nothing is demanded of is `int`, what is sent to is `proc`, and what is sent to and added
/// is `set[proc]`. No other types are better: each is that of any others, with `int` or `proc` in place of some parts,
/// but `proc` in that of no `int`.
pub fn fitting(
    alloc: Global,
    count: usize,
    demands: &[&Demand],
) -> Result<Option<List<Ty>>, NoMemory>
    requires { AllByRecursion (Knows count) (map (λ x. x.now) demands.now) }
    ensures { IfOk result (λ found. MatchOption found ((types : List TyOf) → Fits count (map (λ x. x.now) demands.now) types → ⊥) (FitsBest count (map (λ x. x.now) demands.now))) }
{
    let mut table = table_of(alloc, count, demands)?;
    let types = solved(alloc, &mut table, count)?;
    Ok(types)
}
