//! The form of a number, where the way of equal numbers ends.
ghost use Rattle.std.specs.List.{list_all};
ghost use Rattle.std.specs.Prelude.{◌<◌, ◌≡◌, Some, length, slice_get, true};
ghost use Rattle.type_table.specs.Fits.{IsTable};
ghost use Rattle.type_table.specs.Joins.{link as link_in};
ghost use Rattle.type_choice.specs.Choice.{AreInside};
ghost use Rattle.type_choice.specs.Roots.{may_add, may_receive, passes, root_of};

use da_values::List;
use type_table::Form;

/// The number where the way of equal numbers ends.
pub fn root(forms: &List<Form>, number: usize) -> usize
    requires table { IsTable forms.now }
    requires number { number < length forms.now }
    ensures is { result ≡ root_of forms.now number }
    ensures within { result < length forms.now }
{
    let mut at = number;
    for _i in 0..number {
        match link(form_at(forms, at)) {
            None => return at,
            Some(next) => at = next,
        }
    }
    at
}

/// The form of a number.
pub fn form_at(forms: &List<Form>, number: usize) -> &Form
    requires { number < length forms.now }
    ensures { slice_get forms.now number ≡ Some result.now }
{
    &forms.as_slice()[number]
}

// The smaller number that stands for the same type, where one is told.
fn link(form: &Form) -> Option<usize>
    ensures { result ≡ link_in form.now }
{
    match form {
        Form::Same(number) => Some(*number),
        Form::Open
        | Form::Int
        | Form::Bool
        | Form::Text
        | Form::Proc
        | Form::Tuple(_)
        | Form::Set(_) => None,
    }
}

/// Whether the forms of all these numbers are those of types that may be added.
pub fn all_add(forms: &List<Form>, numbers: &[usize]) -> bool
    requires table { IsTable forms.now }
    requires numbers { AreInside (length forms.now) numbers.now }
    ensures { result ≡ list_all (passes may_add forms.now) numbers.now }
{
    for number in numbers {
        if !can_add(form_at(forms, root(forms, *number))) {
            return false;
        }
    }
    true
}

/// Whether the forms of all these numbers are those of types that may be sent to.
pub fn all_receive(forms: &List<Form>, numbers: &[usize]) -> bool
    requires table { IsTable forms.now }
    requires numbers { AreInside (length forms.now) numbers.now }
    ensures { result ≡ list_all (passes may_receive forms.now) numbers.now }
{
    for number in numbers {
        if !can_receive(form_at(forms, root(forms, *number))) {
            return false;
        }
    }
    true
}

// Whether types of this form may be added.
fn can_add(form: &Form) -> bool
    ensures { result ≡ may_add form.now }
{
    match form {
        Form::Open | Form::Int | Form::Set(_) => true,
        Form::Same(_) | Form::Bool | Form::Text | Form::Proc | Form::Tuple(_) => false,
    }
}

// Whether types of this form may be sent to.
fn can_receive(form: &Form) -> bool
    ensures { result ≡ may_receive form.now }
{
    match form {
        Form::Open | Form::Proc | Form::Set(_) => true,
        Form::Same(_) | Form::Int | Form::Bool | Form::Text | Form::Tuple(_) => false,
    }
}
