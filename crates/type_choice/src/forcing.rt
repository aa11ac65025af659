//! Numbers that are sent to and can only be sets of processes.
ghost use Rattle.std.specs.Prelude.{◌<◌, ◌≡◌, IfOk, None, OnOk, Some, false, length, slice_get, true, ℕ};
ghost use Rattle.type_table.specs.Fits.{Fits, IsTable, Meaning};
ghost use Rattle.type_choice.specs.Choice.{AllAre, AreInside, is_added, is_recipient};
ghost use Rattle.type_choice.specs.Marks.{AreDone};
ghost use Rattle.type_choice.specs.Roots.{Forced, Forces, HasBoth, IsApart, IsEasy, IsReady, root_of};

use crate::ends::{form_at, root};
use crate::values::unmarked;
use da_values::{List, NoMemory};
use std::alloc::Global;
use type_table::{Form, unify};

/// Puts into the table that numbers are sets of processes, where they are sent to and can be nothing else. It answers
/// whether some types can be so.
pub fn force_all(
    alloc: Global,
    forms: &mut List<Form>,
    adds: &[usize],
    receives: &[usize],
    proc: usize,
    set: usize,
) -> Result<bool, NoMemory>
    requires table { IsTable forms.old }
    requires both { HasBoth forms.old proc set }
    requires adds { AreInside (length forms.old) adds.now }
    requires receives { AreInside (length forms.old) receives.now }
    ensures table { OnOk result (IsTable forms.new) }
    ensures size { OnOk result (length forms.new ≡ length forms.old) }
    ensures forced { IfOk result (λ can. can ≡ true → Forced forms.old adds.now receives.now forms.new) }
    ensures ready { IfOk result (λ can. can ≡ true → IsReady forms.new adds.now receives.now) }
    ensures none { IfOk result (λ can. can ≡ false → (m : Meaning) → Fits m forms.old → AllAre is_added m adds.now → AllAre is_recipient m receives.now → ⊥) }
{
    let mut marks = unmarked(alloc, receives.len())?;
    while let Some((place, first, second)) = forced(forms, adds, receives, &marks, proc, set) {
        marks.set(place, true);
        if !unify(alloc, forms, first, second)? {
            return Ok(false);
        }
    }
    Ok(true)
}

// The first place without a mark whose number can only be a set of processes, and the equation that makes it one.
fn forced(
    forms: &List<Form>,
    adds: &[usize],
    receives: &[usize],
    marks: &List<bool>,
    proc: usize,
    set: usize,
) -> Option<(usize, usize, usize)>
    requires table { IsTable forms.now }
    requires both { HasBoth forms.now proc set }
    requires adds { AreInside (length forms.now) adds.now }
    requires receives { AreInside (length forms.now) receives.now }
    requires marks { length marks.now ≡ length receives.now }
    ensures inside { (place first second : ℕ) → result ≡ Some (place, first, second) → place < length receives.now }
    ensures unset { (place first second : ℕ) → result ≡ Some (place, first, second) → slice_get marks.now place ≡ Some false }
    ensures forces { (place first second : ℕ) → result ≡ Some (place, first, second) → (k : ℕ) → slice_get receives.now place ≡ Some k → Forces forms.now adds.now k first second }
    ensures done { result ≡ None → AreDone forms.now adds.now receives.now marks.now (length receives.now) }
{
    for place in 0..receives.len() {
        if marks.as_slice()[place] {
            continue;
        }
        if let Some((first, second)) = equation(forms, adds, receives[place], proc, set) {
            return Some((place, first, second));
        }
    }
    None
}

// The equation that makes a number a set of processes, where it can be nothing else.
fn equation(
    forms: &List<Form>,
    adds: &[usize],
    number: usize,
    proc: usize,
    set: usize,
) -> Option<(usize, usize)>
    requires table { IsTable forms.now }
    requires both { HasBoth forms.now proc set }
    requires adds { AreInside (length forms.now) adds.now }
    requires number { number < length forms.now }
    ensures forces { (first second : ℕ) → result ≡ Some (first, second) → Forces forms.now adds.now number first second }
    ensures easy { result ≡ None → IsEasy forms.now adds.now number }
{
    let end = root(forms, number);
    match form_at(forms, end) {
        Form::Set(element) => Some((*element, proc)),
        Form::Open => {
            if is_apart(forms, adds, end) {
                None
            } else {
                Some((number, set))
            }
        }
        Form::Same(_) | Form::Int | Form::Bool | Form::Text | Form::Proc | Form::Tuple(_) => None,
    }
}

// Whether none of these numbers stands where this one stands.
fn is_apart(forms: &List<Form>, numbers: &[usize], end: usize) -> bool
    requires table { IsTable forms.now }
    requires numbers { AreInside (length forms.now) numbers.now }
    ensures apart { result ≡ true → IsApart forms.now numbers.now end }
    ensures meets { result ≡ false → (i : ℕ) × (k : ℕ) × (slice_get numbers.now i ≡ Some k) × (root_of forms.now k ≡ end) }
{
    for number in numbers {
        if root(forms, *number) == end {
            return false;
        }
    }
    true
}
