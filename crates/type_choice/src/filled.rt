//! Open numbers that become processes.
ghost use Rattle.std.specs.Prelude.{◌<◌, ◌≡◌, IfOk, Some, false, length, map, slice_get, true};
ghost use Rattle.type_table.specs.Fits.{IsTable};
ghost use Rattle.type_choice.specs.Choice.{AreInside};
ghost use Rattle.type_choice.specs.Marks.{Filled};
ghost use Rattle.type_choice.specs.Roots.{root_of};
ghost use Rattle.type_table.specs.declared.form.Form.TheVariants as form;

use crate::ends::{form_at, root};
use da_values::{List, NoMemory};
use std::alloc::Global;
use type_table::Form;

/// The numbers where the ways from these end.
pub fn roots(alloc: Global, forms: &List<Form>, numbers: &[usize]) -> Result<List<usize>, NoMemory>
    requires table { IsTable forms.now }
    requires numbers { AreInside (length forms.now) numbers.now }
    ensures is { IfOk result (λ roots. roots ≡ map (root_of forms.now) numbers.now) }
{
    let mut roots = List::new(alloc);
    for number in numbers {
        roots.push(root(forms, *number))?;
    }
    Ok(roots)
}

/// Tells of each of these numbers that it is a process, where nothing is told of it.
pub fn fill(forms: &mut List<Form>, numbers: &[usize])
    ensures { Filled forms.old numbers.now (length numbers.now) forms.new }
{
    for number in numbers {
        if is_open_at(forms, *number) {
            forms.set(*number, Form::Proc);
        }
    }
}

// Whether a number is in the table, and nothing is told of it.
fn is_open_at(forms: &List<Form>, number: usize) -> bool
    ensures inside { result ≡ true → number < length forms.now }
    ensures unset { result ≡ true → slice_get forms.now number ≡ Some form.Open }
    ensures told { result ≡ false → slice_get forms.now number ≡ Some form.Open → ⊥ }
{
    match forms.get(number) {
        Some(Form::Open) => true,
        _ => false,
    }
}
