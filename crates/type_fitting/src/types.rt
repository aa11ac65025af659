//! The types of the first numbers of a table.
ghost use Rattle.std.specs.List.{list_all};
ghost use Rattle.std.specs.Prelude.{◌≡◌, ◌≤◌, IfOk, length};
ghost use Rattle.type_table.specs.Values.{types_of};
ghost use Rattle.type_fitting.specs.Narrow.{is_few as is_few_count, narrow};
ghost use Rattle.type_fitting.specs.Sights.{AreFirst};

use da_lang::Ty;
use da_values::{List, NoMemory};
use std::alloc::Global;
use type_table::{Form, type_of};

// As many parts as a tuple may have.
const MOST_PARTS: usize = 255;

/// The types of the first so many numbers.
pub fn first_types(alloc: Global, forms: &[Form], count: usize) -> Result<List<Ty>, NoMemory>
    ensures { IfOk result (AreFirst count (types_of forms.now)) }
{
    let mut types = List::new(alloc);
    for number in 0..count {
        let ty = type_of(alloc, forms, number)?;
        types.push(ty)?;
    }
    Ok(types)
}

/// Whether each tuple in a type has one part or more, and not more than the limit.
#[cycle(narrow)]
#[tactic(auto, using(crate::proofs::NarrowLaws::narrow_rules))]
pub fn is_narrow(ty: &Ty) -> bool
    ensures { result ≡ narrow ty.now }
{
    match ty {
        Ty::Int | Ty::Bool | Ty::Text | Ty::Proc => true,
        Ty::Tuple(parts) => is_few(parts.len()) && are_narrow(parts.as_slice()),
        Ty::Set(element) => is_narrow(element.get()),
    }
}

/// Whether this is so in each type.
#[cycle(narrow)]
pub fn are_narrow(types: &[Ty]) -> bool
    ensures { result ≡ list_all narrow types.now }
{
    for ty in types {
        if !is_narrow(ty) {
            return false;
        }
    }
    true
}

// Whether a tuple may have so many parts.
fn is_few(count: usize) -> bool
    ensures { result ≡ is_few_count count }
{
    1 <= count && count <= MOST_PARTS
}
