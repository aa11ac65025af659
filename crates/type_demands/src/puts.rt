//! Demands are put at the end of a list.
ghost use Rattle.std.specs.Prelude.{◌≡◌, [], ◌∷◌, IfOk, OnOk};
ghost use Rattle.type_demands.specs.Listing.{Lists, ListsType};
ghost use Rattle.type_demands.specs.Syms.{never as never_found};
ghost use Rattle.type_demands.specs.declared.demand.Demand.TheVariants as demand_of;
ghost use Rattle.type_table.specs.declared.scheme.Scheme.TheVariants as scheme_of;

use crate::copy::copy_scheme;
use crate::demand::{Demand, LineDemand};
use crate::known::Known;
use da_values::{Boxed, List, NoMemory};
use std::alloc::Global;
use type_table::Scheme;

/// Puts a demand of the statement whose line is known.
pub fn put(
    demand: Demand,
    known: &Known<'_>,
    demands: &mut List<LineDemand>,
) -> Result<(), NoMemory>
    ensures { OnOk result (Lists demands.old demands.new known.now (demand ∷ [])) }
{
    demands.push(LineDemand {
        line: known.line,
        demand,
    })
}

/// Puts what nothing meets. It answers some type.
pub fn never(known: &Known<'_>, demands: &mut List<LineDemand>) -> Result<Scheme, NoMemory>
    ensures { IfOk result (λ scheme. ListsType demands.old demands.new known.now never_found scheme) }
{
    put(Demand::Never, known, demands)?;
    Ok(Scheme::Int)
}

/// Puts that a type has at most 32 levels. It answers the type.
pub fn flat(
    scheme: Scheme,
    alloc: Global,
    known: &Known<'_>,
    demands: &mut List<LineDemand>,
) -> Result<Scheme, NoMemory>
    ensures { IfOk result (λ found. (found ≡ scheme) × Lists demands.old demands.new known.now (demand_of.Flat scheme ∷ [])) }
{
    let copy = copy_scheme(&scheme, alloc)?;
    put(Demand::Flat(copy), known, demands)?;
    Ok(scheme)
}

/// Puts that sets of a type have at most 32 levels. It answers the type of the sets.
pub fn flat_set(
    element: Scheme,
    alloc: Global,
    known: &Known<'_>,
    demands: &mut List<LineDemand>,
) -> Result<Scheme, NoMemory>
    ensures { IfOk result (λ found. (found ≡ scheme_of.Set element) × Lists demands.old demands.new known.now (demand_of.Flat (scheme_of.Set element) ∷ [])) }
{
    let element = Boxed::new(alloc, element)?;
    let scheme = flat(Scheme::Set(element), alloc, known, demands)?;
    Ok(scheme)
}

/// Puts that a type is the same as one that is asked for.
pub fn same(
    asked: &Scheme,
    scheme: Scheme,
    alloc: Global,
    known: &Known<'_>,
    demands: &mut List<LineDemand>,
) -> Result<(), NoMemory>
    ensures { OnOk result (Lists demands.old demands.new known.now (demand_of.Same asked.now scheme ∷ [])) }
{
    let copy = copy_scheme(asked, alloc)?;
    put(Demand::Same(copy, scheme), known, demands)?;
    Ok(())
}

/// The type of the elements of a type.
pub fn element_of(whole: &Scheme, alloc: Global) -> Result<Scheme, NoMemory>
    ensures { IfOk result (λ element. element ≡ scheme_of.Element whole.now) }
{
    let copy = copy_scheme(whole, alloc)?;
    let whole = Boxed::new(alloc, copy)?;
    Ok(Scheme::Element(whole))
}

/// The type of the part at a place of a tuple with so many.
pub fn part_of(whole: &Scheme, at: usize, count: usize, alloc: Global) -> Result<Scheme, NoMemory>
    ensures { IfOk result (λ part. part ≡ scheme_of.Part whole.now at count) }
{
    let copy = copy_scheme(whole, alloc)?;
    let whole = Boxed::new(alloc, copy)?;
    Ok(Scheme::Part { whole, at, count })
}
