//! An order of a table, in which each number comes after those that it is made of.
ghost use Rattle.std.specs.Prelude.{◌+◌, ◌∷◌, ◌<◌, ◌≡◌, [], IfOk, None, OnOk, Some, false, length, slice_get, true, ℕ};
ghost use Rattle.type_table.specs.Fits.{Fits, IsTable};
ghost use Rattle.type_table.specs.Settling.{is_marked};
ghost use Rattle.type_table.specs.Values.{types_of};
ghost use Rattle.type_choice.specs.Order.{IsOrder, needs, needs_at};
ghost use Rattle.type_choice.specs.Walks.{AreMarkedTo, FromOn, HasSizes, IsVisited, IsWalked, NoneLeft, Queued};

use crate::values::{empty_lists, form_in, is_marked_in, unmarked};
use da_values::{List, NoMemory};
use std::alloc::Global;
use type_table::Form;

/// The numbers in the order so far are marked. Each other number that was looked at waits for one that it is made of and
/// that is not marked, with the place of that one, before which all are marked.
#[derive(Drop)]
pub struct Walk {
    pub marks: List<bool>,
    pub waits: List<List<(usize, usize)>>,
    pub order: List<usize>,
}

/// All numbers of a table, each after those that it is made of. A number is looked at once, and once more for each part for
/// which it waits; a part is looked at twice.
pub fn in_order(alloc: Global, forms: &[Form]) -> Result<List<usize>, NoMemory>
    requires table { IsTable forms.now }
    requires fits { Fits (types_of forms.now) forms.now }
    ensures { IfOk result (λ order. IsOrder forms.now order) }
{
    let mut walk = Walk {
        marks: unmarked(alloc, forms.len())?,
        waits: empty_lists(alloc, forms.len())?,
        order: List::new(alloc),
    };
    visit_all(alloc, forms, &mut walk)?;
    let mut at = 0;
    while at < walk.order.len() {
        release(alloc, forms, &mut walk, at)?;
        at += 1;
    }
    Ok(walk.order)
}

// Looks at each number.
fn visit_all(alloc: Global, forms: &[Form], walk: &mut Walk) -> Result<(), NoMemory>
    requires table { IsTable forms.now }
    requires walked { IsWalked forms.now 0 (FromOn 0) walk.old }
    ensures { OnOk result (IsWalked forms.now 0 NoneLeft walk.new) }
{
    for number in 0..forms.len() {
        visit(alloc, forms, walk, number, 0)?;
    }
    Ok(())
}

// Looks again at each number that waits for the one at a place of the order.
fn release(alloc: Global, forms: &[Form], walk: &mut Walk, at: usize) -> Result<(), NoMemory>
    requires table { IsTable forms.now }
    requires walked { IsWalked forms.now at NoneLeft walk.old }
    requires at { at < length walk.old.order }
    ensures { OnOk result (IsWalked forms.now (at + 1) NoneLeft walk.new) }
{
    let number = walk.order.as_slice()[at];
    let waiting = walk.waits.replace(number, List::new(alloc));
    for pair in waiting.as_slice() {
        visit(alloc, forms, walk, pair.0, pair.1)?;
    }
    Ok(())
}

// Marks a number if all that it is made of is marked. Else it waits for the first that is not, from a place on.
fn visit(
    alloc: Global,
    forms: &[Form],
    walk: &mut Walk,
    number: usize,
    from: usize,
) -> Result<(), NoMemory>
    requires table { IsTable forms.now }
    requires sizes { HasSizes (length forms.now) walk.old }
    requires number { number < length forms.now }
    requires from { AreMarkedTo walk.old.marks (needs_at forms.now number) from }
    ensures { OnOk result (IsVisited forms.now number walk.old walk.new) }
{
    if is_marked_in(walk.marks.as_slice(), number) {
        return Ok(());
    }
    match waits_for(form_in(forms, number), walk.marks.as_slice(), from) {
        None => {
            walk.marks.set(number, true);
            walk.order.push(number)?;
            Ok(())
        }
        Some((place, part)) => {
            queue(alloc, &mut walk.waits, part, (number, place))?;
            Ok(())
        }
    }
}

// Lets one more wait for a number.
fn queue(
    alloc: Global,
    waits: &mut List<List<(usize, usize)>>,
    part: usize,
    pair: (usize, usize),
) -> Result<(), NoMemory>
    requires { part < length waits.old }
    ensures { OnOk result (Queued waits.old part pair waits.new) }
{
    let mut waiting = waits.replace(part, List::new(alloc));
    waiting.push(pair)?;
    waits.set(part, waiting);
    Ok(())
}

// The first of the numbers of a form that is not marked, from a place on, and its place.
fn waits_for(form: &Form, marks: &[bool], from: usize) -> Option<(usize, usize)>
    ensures is { (place part : ℕ) → result ≡ Some (place, part) → slice_get (needs form.now) place ≡ Some part }
    ensures unset { (place part : ℕ) → result ≡ Some (place, part) → is_marked marks.now part ≡ false }
    ensures before { (place part : ℕ) → result ≡ Some (place, part) → AreMarkedTo marks.now (needs form.now) from → AreMarkedTo marks.now (needs form.now) place }
    ensures all { result ≡ None → AreMarkedTo marks.now (needs form.now) from → AreMarkedTo marks.now (needs form.now) (length (needs form.now)) }
{
    for place in from..count(form) {
        if let Some(part) = unmarked_at(form, marks, place) {
            return Some((place, part));
        }
    }
    None
}

// The number at a place of those that a form is made of, if it is not marked.
fn unmarked_at(form: &Form, marks: &[bool], place: usize) -> Option<usize>
    ensures is { (part : ℕ) → result ≡ Some part → slice_get (needs form.now) place ≡ Some part }
    ensures unset { (part : ℕ) → result ≡ Some part → is_marked marks.now part ≡ false }
    ensures marked { result ≡ None → (part : ℕ) → slice_get (needs form.now) place ≡ Some part → is_marked marks.now part ≡ true }
{
    match part_at(form, place) {
        None => None,
        Some(part) => if is_marked_in(marks, part) {
            None
        } else {
            Some(part)
        },
    }
}

// How many numbers a form is made of.
fn count(form: &Form) -> usize
    ensures { result ≡ length (needs form.now) }
{
    match form {
        Form::Open | Form::Int | Form::Bool | Form::Text | Form::Proc => 0,
        Form::Same(_) => 1,
        Form::Set(_) => 1,
        Form::Tuple(parts) => parts.len(),
    }
}

// The number at a place of those that a form is made of.
fn part_at(form: &Form, place: usize) -> Option<usize>
    ensures { result ≡ slice_get (needs form.now) place }
{
    match form {
        Form::Open | Form::Int | Form::Bool | Form::Text | Form::Proc => None,
        Form::Same(number) => only(*number, place),
        Form::Set(element) => only(*element, place),
        Form::Tuple(parts) => match parts.get(place) {
            None => None,
            Some(part) => Some(*part),
        },
    }
}

// The number at a place of one alone.
fn only(number: usize, place: usize) -> Option<usize>
    ensures { result ≡ slice_get (number ∷ []) place }
{
    if place == 0 { Some(number) } else { None }
}
