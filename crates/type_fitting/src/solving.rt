//! Types for a table of demands.
ghost use Rattle.std.specs.List.{AllByRecursion};
ghost use Rattle.std.specs.Prelude.{◌≤◌, IfOk, MatchOption, length};
ghost use Rattle.type_table.specs.Fits.{Fits, IsTable};
ghost use Rattle.type_table.specs.Values.{types_of};
ghost use Rattle.type_fitting.specs.Notes.{IsInside, IsSound};
ghost use Rattle.type_fitting.specs.Sights.{IsBlocked, IsPassed, IsRefused, IsSolved, plain};

use crate::equations::unify_all;
use crate::sights::{added, are_seen, are_short, received};
use crate::table::{Note, Table};
use crate::types::{are_narrow, first_types};
use da_lang::Ty;
use da_values::{List, NoMemory};
use std::alloc::Global;
use type_choice::{choose, look};
use type_table::Form;

/// The types of the first so many numbers, in types that fit the table, make its equations true, are as is asked, and may be
/// declared, or none where there are no such types.
pub fn solved(alloc: Global, table: &mut Table, count: usize) -> Result<Option<List<Ty>>, NoMemory>
    requires sound { IsSound table.old }
    requires counts { count ≤ length table.old.forms }
    ensures { IfOk result (λ found. MatchOption found (IsRefused count table.old) (IsSolved count table.old)) }
{
    let equations = table.equations.as_slice();
    if !unify_all(alloc, &mut table.forms, equations)? {
        return Ok(None);
    }
    let notes = table.notes.as_slice();
    let types = chosen(alloc, &mut table.forms, notes, count)?;
    Ok(types)
}

// The same for a table without equations.
fn chosen(
    alloc: Global,
    forms: &mut List<Form>,
    notes: &[Note],
    count: usize,
) -> Result<Option<List<Ty>>, NoMemory>
    requires table { IsTable forms.old }
    requires notes { AllByRecursion (IsInside (length forms.old)) notes.now }
    requires counts { count ≤ length forms.old }
    ensures { IfOk result (λ found. MatchOption found (IsRefused count (plain forms.old notes.now)) (IsSolved count (plain forms.old notes.now))) }
{
    let adds = added(alloc, notes)?;
    let receives = received(alloc, notes)?;
    if !choose(alloc, forms, adds.as_slice(), receives.as_slice())? {
        return Ok(None);
    }
    let types = passed(alloc, forms.as_slice(), notes, count)?;
    Ok(types)
}

// The types of the first so many numbers, where all types are as is asked and these may be declared.
fn passed(
    alloc: Global,
    forms: &[Form],
    notes: &[Note],
    count: usize,
) -> Result<Option<List<Ty>>, NoMemory>
    requires table { IsTable forms.now }
    requires fits { Fits (types_of forms.now) forms.now }
    requires notes { AllByRecursion (IsInside (length forms.now)) notes.now }
    requires counts { count ≤ length forms.now }
    ensures { IfOk result (λ found. MatchOption found (IsBlocked count (types_of forms.now) notes.now) (IsPassed count (types_of forms.now) notes.now)) }
{
    let looks = look(alloc, forms)?;
    if !are_seen(&looks, notes) {
        return Ok(None);
    }
    if !are_short(&looks, count) {
        return Ok(None);
    }
    let types = first_types(alloc, forms, count)?;
    if !are_narrow(types.as_slice()) {
        return Ok(None);
    }
    Ok(Some(types))
}
