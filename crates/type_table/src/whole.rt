//! The numbers of elements and parts of a type that is in a table.
ghost use Rattle.std.specs.Prelude.{◌∷◌, ◌++◌, ◌<◌, ◌≡◌, ◌≤◌, [], IfOk, OnOk, Option, Some, length, replicate, slice_get, true, ℕ};
ghost use Rattle.da_lang.specs.declared.ty.Ty.{Ty as TyOf};
ghost use Rattle.da_lang.specs.Types.{element_of};
ghost use Rattle.type_table.specs.Draws.{HasPart, IsOpenAt, Never, Numbered, Told, numbers_from};
ghost use Rattle.type_table.specs.Fits.{AreWithin, IsTable, IsWithin, Meaning};
ghost use Rattle.type_table.specs.Schemes.{part_of};
ghost use Rattle.type_table.specs.declared.form.Form.TheVariants as form_of;

use crate::form::Form;
use crate::join::is_open;
use da_values::{List, NoMemory};
use std::alloc::Global;

/// The number of the elements of a set.
pub fn element_number(
    forms: &mut List<Form>,
    equations: &mut List<(usize, usize)>,
    whole: usize,
) -> Result<usize, NoMemory>
    ensures { IfOk result (λ number. IsTable forms.old → AreWithin (length forms.old) equations.old → whole < length forms.old → Numbered forms.old equations.old forms.new equations.new (λ m. element_of (m whole)) number) }
{
    if let Some(element) = told_element(forms, whole) {
        return Ok(element);
    }
    let element = add(forms, Form::Open)?;
    tell(forms, equations, whole, Form::Set(element))?;
    Ok(element)
}

/// The number of a part of a tuple. The parts of a whole get their numbers at once.
pub fn part_number(
    alloc: Global,
    forms: &mut List<Form>,
    equations: &mut List<(usize, usize)>,
    whole: usize,
    at: usize,
    count: usize,
) -> Result<usize, NoMemory>
    ensures { IfOk result (λ number. IsTable forms.old → AreWithin (length forms.old) equations.old → whole < length forms.old → Numbered forms.old equations.old forms.new equations.new (λ m. part_of at count (m whole)) number) }
{
    if at >= count {
        let number = add_clash(forms, equations)?;
        return Ok(number);
    }
    if let Some(part) = told_part(forms, whole, at, count) {
        return Ok(part);
    }
    let parts = add_open(alloc, forms, count)?;
    let part = number_at(&parts, at);
    tell(forms, equations, whole, Form::Tuple(parts))?;
    Ok(part)
}

// The number of the elements, where a number is told to be a set.
fn told_element(forms: &List<Form>, whole: usize) -> Option<usize>
    ensures { (element : ℕ) → result ≡ Some element → slice_get forms.now whole ≡ Some (form_of.Set element) }
{
    match forms.get(whole) {
        Some(Form::Set(element)) => Some(*element),
        _ => None,
    }
}

// The number of a part, where a number is told to be a tuple of so many parts.
fn told_part(forms: &List<Form>, whole: usize, at: usize, count: usize) -> Option<usize>
    ensures { (part : ℕ) → result ≡ Some part → HasPart forms.now whole at count part }
{
    match forms.get(whole) {
        Some(Form::Tuple(parts)) => part_at(parts, at, count),
        _ => None,
    }
}

// The number at a place, where there are so many.
fn part_at(parts: &List<usize>, at: usize, count: usize) -> Option<usize>
    ensures count { (part : ℕ) → result ≡ Some part → length parts.now ≡ count }
    ensures part { (part : ℕ) → result ≡ Some part → slice_get parts.now at ≡ Some part }
{
    if parts.len() != count {
        return None;
    }
    match parts.get(at) {
        None => None,
        Some(part) => Some(*part),
    }
}

// The number at a place.
fn number_at(parts: &List<usize>, at: usize) -> usize
    requires { at < length parts.now }
    ensures { slice_get parts.now at ≡ Some result }
{
    parts.as_slice()[at]
}

// Tells that a number has a form: there, where nothing is told of it, and else by an equation.
fn tell(
    forms: &mut List<Form>,
    equations: &mut List<(usize, usize)>,
    whole: usize,
    form: Form,
) -> Result<(), NoMemory>
    ensures { OnOk result (IsTable forms.old → AreWithin (length forms.old) equations.old → whole < length forms.old → IsWithin (length forms.old) whole form → Told forms.old equations.old forms.new equations.new whole form) }
{
    if is_open_at(forms, whole) {
        forms.set(whole, form);
        return Ok(());
    }
    let number = add(forms, form)?;
    equations.push((whole, number))?;
    Ok(())
}

// Whether nothing is told of a number.
fn is_open_at(forms: &List<Form>, number: usize) -> bool
    ensures inside { result ≡ true → number < length forms.now }
    ensures unset { result ≡ true → IsOpenAt forms.now number }
{
    match forms.get(number) {
        None => false,
        Some(form) => is_open(form),
    }
}

// Adds so many numbers of which nothing is told.
fn add_open(alloc: Global, forms: &mut List<Form>, count: usize) -> Result<List<usize>, NoMemory>
    ensures numbers { IfOk result (λ numbers. numbers ≡ numbers_from (length forms.old) count) }
    ensures forms { OnOk result (forms.new ≡ forms.old ++ replicate count form_of.Open) }
{
    let mut numbers = List::new(alloc);
    for _i in 0..count {
        let number = add(forms, Form::Open)?;
        numbers.push(number)?;
    }
    Ok(numbers)
}

// Adds an equation that no types fit. The number stands for what has no type.
fn add_clash(
    forms: &mut List<Form>,
    equations: &mut List<(usize, usize)>,
) -> Result<usize, NoMemory>
    ensures { IfOk result (λ number. (asked : Meaning → Option TyOf) → Never asked → IsTable forms.old → AreWithin (length forms.old) equations.old → Numbered forms.old equations.old forms.new equations.new asked number) }
{
    let first = add(forms, Form::Int)?;
    let second = add(forms, Form::Bool)?;
    equations.push((first, second))?;
    Ok(first)
}

/// Adds a form at the end of the table. It answers its number.
pub fn add(forms: &mut List<Form>, form: Form) -> Result<usize, NoMemory>
    ensures { IfOk result (λ number. (number ≡ length forms.old) × (forms.new ≡ forms.old ++ form ∷ [])) }
{
    let number = forms.len();
    forms.push(form)?;
    Ok(number)
}
