//! Forms, marks and numbers, one for each number of a table.
ghost use Rattle.std.specs.Prelude.{◌<◌, ◌≡◌, [], IfOk, Some, false, length, replicate, slice_get};
ghost use Rattle.type_table.specs.Settling.{is_marked};
ghost use Rattle.type_choice.specs.Looks.{number_at as number_in};

use da_values::{List, NoMemory};
use std::alloc::Global;
use type_table::Form;

/// The form of a number.
pub fn form_in(forms: &[Form], number: usize) -> &Form
    requires { number < length forms.now }
    ensures { slice_get forms.now number ≡ Some result.now }
{
    &forms[number]
}

/// Whether a number is marked.
pub fn is_marked_in(marks: &[bool], number: usize) -> bool
    ensures { result ≡ is_marked marks.now number }
{
    match marks.get(number) {
        None => false,
        Some(mark) => *mark,
    }
}

/// What stands at a place, and 0 where nothing stands there.
pub fn number_at(numbers: &[usize], place: usize) -> usize
    ensures { result ≡ number_in numbers.now place }
{
    match numbers.get(place) {
        None => 0,
        Some(number) => *number,
    }
}

/// So many marks that are not set.
pub fn unmarked(alloc: Global, count: usize) -> Result<List<bool>, NoMemory>
    ensures { IfOk result (λ marks. marks ≡ replicate count false) }
{
    let mut marks = List::new(alloc);
    for _i in 0..count {
        marks.push(false)?;
    }
    Ok(marks)
}

/// So many zeros.
pub fn zeros(alloc: Global, count: usize) -> Result<List<usize>, NoMemory>
    ensures { IfOk result (λ numbers. numbers ≡ replicate count 0) }
{
    let mut numbers = List::new(alloc);
    for _i in 0..count {
        numbers.push(0)?;
    }
    Ok(numbers)
}

/// So many empty lists.
pub fn empty_lists(alloc: Global, count: usize) -> Result<List<List<(usize, usize)>>, NoMemory>
    ensures { IfOk result (λ lists. lists ≡ replicate count []) }
{
    let mut lists = List::new(alloc);
    for _i in 0..count {
        lists.push(List::new(alloc))?;
    }
    Ok(lists)
}
