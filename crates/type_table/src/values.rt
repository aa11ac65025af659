//! The types that a table gives.
ghost use Rattle.std.specs.Prelude.{◌≡◌, IfOk};
ghost use Rattle.type_table.specs.Values.{types_in, types_of};

use crate::form::Form;
use da_lang::Ty;
use da_values::{Boxed, List, NoMemory};
use std::alloc::Global;

/// The type of a number.
pub fn type_of(alloc: Global, forms: &[Form], number: usize) -> Result<Ty, NoMemory>
    ensures { IfOk result (λ ty. ty ≡ types_of forms.now number) }
{
    let ty = type_in(forms.len(), alloc, forms, number)?;
    Ok(ty)
}

// The type of a number that is built in so many rounds.
fn type_in(rounds: usize, alloc: Global, forms: &[Form], number: usize) -> Result<Ty, NoMemory>
    ensures { IfOk result (λ ty. ty ≡ types_in forms.now rounds number) }
{
    if rounds == 0 {
        return Ok(Ty::Int);
    }
    match forms.get(number) {
        None | Some(Form::Open) | Some(Form::Int) => Ok(Ty::Int),
        Some(Form::Bool) => Ok(Ty::Bool),
        Some(Form::Text) => Ok(Ty::Text),
        Some(Form::Proc) => Ok(Ty::Proc),
        Some(Form::Same(same)) => {
            let ty = type_in(rounds - 1, alloc, forms, *same)?;
            Ok(ty)
        }
        Some(Form::Set(element)) => {
            let element = type_in(rounds - 1, alloc, forms, *element)?;
            Ok(Ty::Set(Boxed::new(alloc, element)?))
        }
        Some(Form::Tuple(parts)) => {
            let mut types = List::new(alloc);
            for part in parts.as_slice() {
                types.push(type_in(rounds - 1, alloc, forms, *part)?)?;
            }
            Ok(Ty::Tuple(types))
        }
    }
}
