//! Whether a table goes in a circle.
ghost use Rattle.std.specs.List.{list_all};
ghost use Rattle.std.specs.Prelude.{◌<◌, ◌≡◌, IfOk, Some, false, length, slice_get, slice_set, true};
ghost use Rattle.type_table.specs.Fits.{Fits, IsTable, Meaning};
ghost use Rattle.type_table.specs.Settling.{Passed, is_marked, rests as rests_on, rests_at, settled};
ghost use Rattle.type_table.specs.Values.{types_of};

use crate::form::Form;
use da_values::NoMemory;
use std::alloc::Global;

/// Whether each number has a type, which is so where the table goes in no circle. Else no types fit.
pub fn settles(alloc: Global, forms: &[Form]) -> Result<bool, NoMemory>
    requires { IsTable forms.now }
    ensures fits { IfOk result (λ all. all ≡ true → Fits (types_of forms.now) forms.now) }
    ensures circle { IfOk result (λ all. all ≡ false → (m : Meaning) → Fits m forms.now → ⊥) }
{
    let mut marks = match vec![in alloc; false; forms.len()] {
        Ok(marks) => marks,
        Err(_) => return Err(NoMemory),
    };
    let mut more = true;
    while more {
        more = pass(forms, marks.as_mut_slice());
    }
    Ok(are_marked(marks.as_slice()))
}

// Marks each number that rests on marked ones, and answers whether there was one.
fn pass(forms: &[Form], marks: &mut [bool]) -> bool
    requires { length marks.old ≡ length forms.now }
    ensures { Passed forms.now marks.old marks.new (length forms.now) result }
{
    let mut more = false;
    for k in 0..forms.len() {
        let marked = mark(forms, marks, k);
        more = more || marked;
    }
    more
}

// Marks a number if it rests on marked ones and is not marked yet, and answers whether that was so.
fn mark(forms: &[Form], marks: &mut [bool], number: usize) -> bool
    requires forms { number < length forms.now }
    requires marks { number < length marks.old }
    ensures marked { result ≡ true → marks.new ≡ slice_set marks.old number true }
    ensures open { result ≡ true → slice_get marks.old number ≡ Some false }
    ensures rests { result ≡ true → rests_at (is_marked marks.old) (slice_get forms.now number) ≡ true }
    ensures same { result ≡ false → marks.new ≡ marks.old }
    ensures stuck { result ≡ false → rests_at (is_marked marks.old) (slice_get forms.now number) ≡ true → is_marked marks.old number ≡ true }
{
    if marks[number] {
        return false;
    }
    if !rests(&forms[number], marks) {
        return false;
    }
    marks[number] = true;
    true
}

// Whether a form rests on marked numbers alone.
fn rests(form: &Form, marks: &[bool]) -> bool
    ensures { result ≡ rests_on (is_marked marks.now) form.now }
{
    match form {
        Form::Open | Form::Int | Form::Bool | Form::Text | Form::Proc => true,
        Form::Same(number) => is_marked_in(marks, *number),
        Form::Set(element) => is_marked_in(marks, *element),
        Form::Tuple(parts) => {
            for part in parts.as_slice() {
                if !is_marked_in(marks, *part) {
                    return false;
                }
            }
            true
        }
    }
}

// Whether a number is marked.
fn is_marked_in(marks: &[bool], number: usize) -> bool
    ensures { result ≡ is_marked marks.now number }
{
    match marks.get(number) {
        None => false,
        Some(mark) => *mark,
    }
}

// Whether all are marked.
fn are_marked(marks: &[bool]) -> bool
    ensures { result ≡ list_all (λ mark. mark) marks.now }
{
    for mark in marks {
        if !*mark {
            return false;
        }
    }
    true
}
