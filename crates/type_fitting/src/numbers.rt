//! Demands are put into a table.
ghost use Rattle.std.specs.Prelude.{◌≡◌, IfOk, OnOk, is_some, length};
ghost use Rattle.da_lang.specs.QueryTypes.{holds_of};
ghost use Rattle.type_table.specs.Schemes.{IsKnown, stands};
ghost use Rattle.type_table.specs.declared.scheme.Scheme.TheVariants as scheme_of;
ghost use Rattle.type_demands.specs.declared.demand.Demand.TheVariants as demand_of;
ghost use Rattle.type_fitting.specs.Fit.{Knows};
ghost use Rattle.type_fitting.specs.Listed.{is_met};
ghost use Rattle.type_fitting.specs.Notes.{IsSound, Puts, is_as};

use crate::table::{Kind, Note, Table};
use da_values::{Boxed, List, NoMemory};
use std::alloc::Global;
use type_demands::{Demand, copy_scheme};
use type_table::{Scheme, number_of};

/// Puts a demand into a table. Of slots in use nothing more is demanded.
pub fn put_demand(demand: &Demand, alloc: Global, table: &mut Table) -> Result<(), NoMemory>
    requires sound { IsSound table.old }
    requires known { Knows (length table.old.forms) demand.now }
    ensures { OnOk result (Puts table.old table.new (is_met demand.now)) }
{
    match demand {
        Demand::Never => put_never(alloc, table),
        Demand::Same(asked, found) => put_same(asked, found, alloc, table),
        Demand::Int(scheme) => put_int(scheme, alloc, table),
        Demand::Truth(scheme) => put_truth(scheme, alloc, table),
        Demand::Width(scheme, count) => put_width(scheme, *count, alloc, table),
        Demand::Elements(scheme) => put_elements(scheme, alloc, table),
        Demand::Ordered(scheme) => put_note(scheme, Kind::Ordered, alloc, table),
        Demand::Adds(scheme) => put_note(scheme, Kind::Adds, alloc, table),
        Demand::Single(scheme) => put_note(scheme, Kind::Single, alloc, table),
        Demand::Receives(scheme) => put_note(scheme, Kind::Receives, alloc, table),
        Demand::Flat(scheme) => put_note(scheme, Kind::Flat, alloc, table),
        Demand::Uses(_) => Ok(()),
    }
}

// Puts what nothing meets.
fn put_never(alloc: Global, table: &mut Table) -> Result<(), NoMemory>
    requires { IsSound table.old }
    ensures { OnOk result (Puts table.old table.new (is_met demand_of.Never)) }
{
    let asked = Scheme::Int;
    let found = Scheme::Bool;
    put_same(&asked, &found, alloc, table)?;
    Ok(())
}

// Puts that a type is `int`.
fn put_int(scheme: &Scheme, alloc: Global, table: &mut Table) -> Result<(), NoMemory>
    requires sound { IsSound table.old }
    requires known { IsKnown (length table.old.forms) scheme.now }
    ensures { OnOk result (Puts table.old table.new (is_met (demand_of.Int scheme.now))) }
{
    let found = Scheme::Int;
    put_same(scheme, &found, alloc, table)?;
    Ok(())
}

// Puts that a type is `bool`.
fn put_truth(scheme: &Scheme, alloc: Global, table: &mut Table) -> Result<(), NoMemory>
    requires sound { IsSound table.old }
    requires known { IsKnown (length table.old.forms) scheme.now }
    ensures { OnOk result (Puts table.old table.new (is_met (demand_of.Truth scheme.now))) }
{
    let found = Scheme::Bool;
    put_same(scheme, &found, alloc, table)?;
    Ok(())
}

// Puts that a type is a tuple of so many parts.
fn put_width(
    scheme: &Scheme,
    count: usize,
    alloc: Global,
    table: &mut Table,
) -> Result<(), NoMemory>
    requires sound { IsSound table.old }
    requires known { IsKnown (length table.old.forms) scheme.now }
    ensures { OnOk result (Puts table.old table.new (is_met (demand_of.Width scheme.now count))) }
{
    if count == 0 {
        put_empty(scheme, alloc, table)
    } else {
        put_parts(scheme, count, alloc, table)
    }
}

// Puts that a type is the tuple of no parts.
fn put_empty(scheme: &Scheme, alloc: Global, table: &mut Table) -> Result<(), NoMemory>
    requires sound { IsSound table.old }
    requires known { IsKnown (length table.old.forms) scheme.now }
    ensures { OnOk result (Puts table.old table.new (is_met (demand_of.Width scheme.now 0))) }
{
    let empty = Scheme::Tuple(List::new(alloc));
    put_same(scheme, &empty, alloc, table)?;
    Ok(())
}

// Puts that a type is a tuple of so many parts, of which there are some.
fn put_parts(
    scheme: &Scheme,
    count: usize,
    alloc: Global,
    table: &mut Table,
) -> Result<(), NoMemory>
    requires sound { IsSound table.old }
    requires known { IsKnown (length table.old.forms) scheme.now }
    requires some { count ≡ 0 → ⊥ }
    ensures { OnOk result (Puts table.old table.new (is_met (demand_of.Width scheme.now count))) }
{
    let part = part_of(scheme, count, alloc)?;
    put_there(&part, alloc, table)?;
    Ok(())
}

// Puts that a type is a set.
fn put_elements(scheme: &Scheme, alloc: Global, table: &mut Table) -> Result<(), NoMemory>
    requires sound { IsSound table.old }
    requires known { IsKnown (length table.old.forms) scheme.now }
    ensures { OnOk result (Puts table.old table.new (is_met (demand_of.Elements scheme.now))) }
{
    let element = element_of(scheme, alloc)?;
    put_there(&element, alloc, table)?;
    Ok(())
}

// The type of the first part of a tuple with so many.
fn part_of(whole: &Scheme, count: usize, alloc: Global) -> Result<Scheme, NoMemory>
    ensures { IfOk result (λ part. part ≡ scheme_of.Part whole.now 0 count) }
{
    let copy = copy_scheme(whole, alloc)?;
    let whole = Boxed::new(alloc, copy)?;
    Ok(Scheme::Part {
        whole,
        at: 0,
        count,
    })
}

// The type of the elements of a set.
fn element_of(whole: &Scheme, alloc: Global) -> Result<Scheme, NoMemory>
    ensures { IfOk result (λ element. element ≡ scheme_of.Element whole.now) }
{
    let copy = copy_scheme(whole, alloc)?;
    let whole = Boxed::new(alloc, copy)?;
    Ok(Scheme::Element(whole))
}

// Puts that the second type is the same as the first.
fn put_same(
    asked: &Scheme,
    found: &Scheme,
    alloc: Global,
    table: &mut Table,
) -> Result<(), NoMemory>
    requires sound { IsSound table.old }
    requires asked { IsKnown (length table.old.forms) asked.now }
    requires found { IsKnown (length table.old.forms) found.now }
    ensures { OnOk result (Puts table.old table.new (is_met (demand_of.Same asked.now found.now))) }
{
    let first = number_of(asked, alloc, &mut table.forms, &mut table.equations)?;
    let second = number_of(found, alloc, &mut table.forms, &mut table.equations)?;
    table.equations.push((first, second))?;
    Ok(())
}

// Puts that there is such a type.
fn put_there(scheme: &Scheme, alloc: Global, table: &mut Table) -> Result<(), NoMemory>
    requires sound { IsSound table.old }
    requires known { IsKnown (length table.old.forms) scheme.now }
    ensures { OnOk result (Puts table.old table.new (λ m. is_some (stands m scheme.now))) }
{
    number_of(scheme, alloc, &mut table.forms, &mut table.equations)?;
    Ok(())
}

// Puts that a type is as is asked.
fn put_note(scheme: &Scheme, kind: Kind, alloc: Global, table: &mut Table) -> Result<(), NoMemory>
    requires sound { IsSound table.old }
    requires known { IsKnown (length table.old.forms) scheme.now }
    ensures { OnOk result (Puts table.old table.new (λ m. holds_of (stands m scheme.now) (is_as kind))) }
{
    let number = number_of(scheme, alloc, &mut table.forms, &mut table.equations)?;
    table.notes.push(Note { kind, number })?;
    Ok(())
}
