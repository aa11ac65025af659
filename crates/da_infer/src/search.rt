//! The least line up to which no types meet what is demanded.
ghost use Rattle.std.specs.Prelude.{◌≡◌, true, IfOk, List, MatchBool, MatchOption};
ghost use Rattle.da_lang.specs.declared.ty.Ty.{Ty as TyOf};
ghost use Rattle.da_infer.specs.Known.{program_known};
ghost use Rattle.da_infer.specs.Search as spec;
ghost use Rattle.da_infer.specs.Search.{FitsBestUpto, FitsUpto, IsFound};

use class_demands::{ClassDemands, ProgramDemands, SetupDemands, demands_upto};
use da_lang::Ty;
use da_values::{List, NoMemory};
use std::alloc::Global;
use type_demands::LineDemand;
use type_fitting::fitting;

/// What is found for the demands of a program.
#[derive(Drop)]
pub enum Found {
    /// With these types all is met.
    Types(List<Ty>),
    /// No types meet what is demanded up to this line, and some do up to each line before it.
    Clash { line: u32 },
}

/// The last line of these demands, if it is after a line; that line if not.
fn last_of(demands: &[LineDemand], before: u32) -> u32
    ensures { result ≡ spec.last_of before demands.now }
{
    let mut last = before;
    for one in demands {
        last = last.max(one.line);
    }
    last
}

fn last_in_classes(classes: &[ClassDemands], before: u32) -> u32
    ensures { result ≡ spec.last_in_classes before classes.now }
{
    let mut last = before;
    for class in classes {
        last = last_of(class.demands.as_slice(), last);
    }
    last
}

fn last_in_setups(setups: &[SetupDemands], before: u32) -> u32
    ensures { result ≡ spec.last_in_setups before setups.now }
{
    let mut last = before;
    for setup in setups {
        last = last_of(setup.demands.as_slice(), last);
    }
    last
}

/// The last line of a demand, or 0 where nothing is demanded.
pub fn last_line(demands: &ProgramDemands) -> u32
    ensures { result ≡ spec.last_line demands.now }
{
    let last = last_in_classes(demands.classes.as_slice(), 0);
    last_in_setups(demands.setups.as_slice(), last)
}

/// Types with which all is met that is demanded up to a line, if there are any. No others are better.
pub fn fitting_upto(
    alloc: Global,
    count: usize,
    demands: &ProgramDemands,
    line: u32,
) -> Result<Option<List<Ty>>, NoMemory>
    requires { program_known count demands.now ≡ true }
    ensures { IfOk result (λ found. MatchOption found ((types : List TyOf) → FitsUpto count demands.now line types → ⊥) (FitsBestUpto count demands.now line)) }
{
    let asked = demands_upto(alloc, line, demands)?;
    fitting(alloc, count, asked.as_slice())
}

/// Whether there are types with which all is met that is demanded up to a line.
#[tactic(auto, using(crate::proofs::SearchLaws::fits_found))]
fn fits_upto(
    alloc: Global,
    count: usize,
    demands: &ProgramDemands,
    line: u32,
) -> Result<bool, NoMemory>
    requires { program_known count demands.now ≡ true }
    ensures { IfOk result (λ fits. MatchBool fits ((types : List TyOf) × FitsUpto count demands.now line types) ((types : List TyOf) → FitsUpto count demands.now line types → ⊥)) }
{
    let found = fitting_upto(alloc, count, demands, line)?;
    Ok(found.is_some())
}

/// The least line up to which there are no types, where there are none up to the last one. It halves the lines, since types
/// that meet what is demanded up to a line do so up to each line before it.
fn least_clash(
    alloc: Global,
    count: usize,
    demands: &ProgramDemands,
    last: u32,
) -> Result<Found, NoMemory>
    requires known { program_known count demands.now ≡ true }
    requires none { (types : List TyOf) → FitsUpto count demands.now last types → ⊥ }
    ensures { IfOk result (IsFound count demands.now) }
{
    let mut low = 0;
    let mut high = last;
    'lines: while low < high {
        let middle = low + (high - low) / 2;
        if fits_upto(alloc, count, demands, middle)? {
            low = middle + 1;
        } else {
            high = middle;
        }
    }
    Ok(Found::Clash { line: high })
}

/// Types with which all is met that is demanded, or the least line up to which there are none. No demand is on a line after
/// the last one.
pub fn search_types(
    alloc: Global,
    count: usize,
    demands: &ProgramDemands,
    last: u32,
) -> Result<Found, NoMemory>
    requires known { program_known count demands.now ≡ true }
    requires last { last ≡ spec.last_line demands.now }
    ensures { IfOk result (IsFound count demands.now) }
{
    let found = fitting_upto(alloc, count, demands, last)?;
    match found {
        Some(types) => Ok(Found::Types(types)),
        None => least_clash(alloc, count, demands, last),
    }
}
