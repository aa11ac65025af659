//! Which numbers stand for ordered types, and which for sets.
ghost use Rattle.std.specs.Prelude.{◌≡◌, IfOk};
ghost use Rattle.da_lang.specs.Types.{is_set, ordered, ordered_step};
ghost use Rattle.type_table.specs.Fits.{Fits};
ghost use Rattle.type_table.specs.Settling.{is_marked};
ghost use Rattle.type_table.specs.Values.{types_of};
ghost use Rattle.type_choice.specs.Looks.{IsLook, by_form, set_step};
ghost use Rattle.type_choice.specs.Order.{IsOrder};

use crate::values::{form_in, is_marked_in, unmarked};
use da_values::{List, NoMemory};
use std::alloc::Global;
use type_table::Form;

/// Marks the numbers whose types are ordered.
pub fn ordered_marks(alloc: Global, forms: &[Form], order: &[usize]) -> Result<List<bool>, NoMemory>
    requires fits { Fits (types_of forms.now) forms.now }
    requires order { IsOrder forms.now order.now }
    ensures { IfOk result (λ marks. IsLook ordered forms.now marks) }
{
    let mut marks = unmarked(alloc, forms.len())?;
    for number in order {
        let mark = is_ordered(form_in(forms, *number), marks.as_slice());
        marks.set(*number, mark);
    }
    Ok(marks)
}

/// Marks the numbers whose types are sets.
pub fn set_marks(alloc: Global, forms: &[Form], order: &[usize]) -> Result<List<bool>, NoMemory>
    requires fits { Fits (types_of forms.now) forms.now }
    requires order { IsOrder forms.now order.now }
    ensures { IfOk result (λ marks. IsLook is_set forms.now marks) }
{
    let mut marks = unmarked(alloc, forms.len())?;
    for number in order {
        let mark = is_set_form(form_in(forms, *number), marks.as_slice());
        marks.set(*number, mark);
    }
    Ok(marks)
}

// Whether types of this form are ordered.
fn is_ordered(form: &Form, marks: &[bool]) -> bool
    ensures { result ≡ by_form ordered_step (is_marked marks.now) form.now }
{
    match form {
        Form::Open | Form::Int | Form::Text | Form::Proc => true,
        Form::Bool | Form::Set(_) => false,
        Form::Same(number) => is_marked_in(marks, *number),
        Form::Tuple(parts) => {
            for part in parts.as_slice() {
                if !is_marked_in(marks, *part) {
                    return false;
                }
            }
            true
        }
    }
}

// Whether types of this form are sets.
fn is_set_form(form: &Form, marks: &[bool]) -> bool
    ensures { result ≡ by_form set_step (is_marked marks.now) form.now }
{
    match form {
        Form::Set(_) => true,
        Form::Same(number) => is_marked_in(marks, *number),
        Form::Open | Form::Int | Form::Bool | Form::Text | Form::Proc | Form::Tuple(_) => false,
    }
}
