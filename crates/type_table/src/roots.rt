//! The smallest number that is told to stand for the same type.
ghost use Rattle.std.specs.Prelude.{◌<◌, ◌≡◌, ◌≤◌, Some, length, slice_get};
ghost use Rattle.type_table.specs.Fits.{IsTable};
ghost use Rattle.type_table.specs.Joins.{IsRoot};
ghost use Rattle.type_table.specs.Links.{Found, Linked};
ghost use Rattle.type_table.specs.declared.form.Form.TheVariants as form;

use crate::form::Form;
use crate::join::{is_open, link};
use da_values::List;

/// The smallest number that is told to stand for the same type. The way to it gets shorter for later calls.
pub fn root(forms: &mut List<Form>, number: usize) -> usize
    requires table { IsTable forms.old }
    requires number { number < length forms.old }
    ensures found { Found forms.old number forms.new result }
    ensures within { result < length forms.new }
    ensures root { IsRoot forms.new result }
{
    let mut at = number;
    while let Some(next) = link(form_at(forms, at)) {
        at = shorten(forms, at, next);
    }
    at
}

// The number to go on with from one that is the same as another. From then on it is told to be the same as that number.
fn shorten(forms: &mut List<Form>, at: usize, next: usize) -> usize
    requires table { IsTable forms.old }
    requires at { at < length forms.old }
    requires inside { next < length forms.old }
    requires next { slice_get forms.old at ≡ Some (form.Same next) }
    ensures found { Found forms.old at forms.new result }
    ensures less { result < at }
{
    match link(form_at(forms, next)) {
        None => next,
        Some(after) => {
            forms.set(at, Form::Same(after));
            after
        }
    }
}

/// Makes one number the same as a smaller one. What was told of the one is told of the other, where nothing was.
pub fn connect(forms: &mut List<Form>, low: usize, high: usize)
    requires order { low < high }
    requires high { high < length forms.old }
    ensures { Linked forms.old low high forms.new }
{
    if is_open(form_at(forms, low)) {
        let form = forms.replace(high, Form::Same(low));
        forms.set(low, form);
        return;
    }
    forms.set(high, Form::Same(low));
}

/// The form of a number.
pub fn form_at(forms: &List<Form>, number: usize) -> &Form
    requires { number < length forms.now }
    ensures { slice_get forms.now number ≡ Some result.now }
{
    &forms.as_slice()[number]
}
