//! The numbers of types that are made of unknown types.
ghost use Rattle.std.specs.Prelude.{IfOk, length, map};
ghost use Rattle.da_lang.specs.QueryTypes.{all_types};
ghost use Rattle.type_table.specs.Draws.{AreNumbered, Numbered, numbers_from};
ghost use Rattle.type_table.specs.Fits.{AreWithin, IsTable};
ghost use Rattle.type_table.specs.Schemes.{AreKnown, IsKnown, stands};

use crate::form::Form;
use crate::scheme::Scheme;
use crate::whole::{add, element_number, part_number};
use da_values::{List, NoMemory};
use std::alloc::Global;

/// The number that stands for a type, in a table that gets the forms for it. An equation is added where a number that is
/// told something else has elements or parts.
#[cycle(schemes)]
pub fn number_of(
    scheme: &Scheme,
    alloc: Global,
    forms: &mut List<Form>,
    equations: &mut List<(usize, usize)>,
) -> Result<usize, NoMemory>
    ensures { IfOk result (λ number. IsTable forms.old → AreWithin (length forms.old) equations.old → IsKnown (length forms.old) scheme.now → Numbered forms.old equations.old forms.new equations.new (λ m. stands m scheme.now) number) }
{
    match scheme {
        Scheme::Unknown(number) => Ok(*number),
        Scheme::Int => {
            let number = add(forms, Form::Int)?;
            Ok(number)
        }
        Scheme::Bool => {
            let number = add(forms, Form::Bool)?;
            Ok(number)
        }
        Scheme::Text => {
            let number = add(forms, Form::Text)?;
            Ok(number)
        }
        Scheme::Proc => {
            let number = add(forms, Form::Proc)?;
            Ok(number)
        }
        Scheme::Tuple(parts) => {
            let parts = numbers_of(parts.as_slice(), alloc, forms, equations)?;
            let number = add(forms, Form::Tuple(parts))?;
            Ok(number)
        }
        Scheme::Set(element) => {
            let element = number_of(element.get(), alloc, forms, equations)?;
            let number = add(forms, Form::Set(element))?;
            Ok(number)
        }
        Scheme::Element(whole) => {
            let whole = number_of(whole.get(), alloc, forms, equations)?;
            let number = element_number(forms, equations, whole)?;
            Ok(number)
        }
        Scheme::Part { whole, at, count } => {
            let whole = number_of(whole.get(), alloc, forms, equations)?;
            let number = part_number(alloc, forms, equations, whole, *at, *count)?;
            Ok(number)
        }
    }
}

// The numbers of the parts of a tuple.
#[cycle(schemes)]
fn numbers_of(
    parts: &[Scheme],
    alloc: Global,
    forms: &mut List<Form>,
    equations: &mut List<(usize, usize)>,
) -> Result<List<usize>, NoMemory>
    ensures { IfOk result (λ numbers. IsTable forms.old → AreWithin (length forms.old) equations.old → AreKnown (length forms.old) parts.now → AreNumbered forms.old equations.old forms.new equations.new (λ m. all_types (map (stands m) parts.now)) numbers) }
{
    let mut numbers = List::new(alloc);
    for part in parts {
        let number = number_of(part, alloc, forms, equations)?;
        numbers.push(number)?;
    }
    Ok(numbers)
}
