//! One equation more.
ghost use Rattle.std.specs.Prelude.{◌∷◌, ◌<◌, ◌≡◌, ◌≤◌, [], IfOk, false, length, true};
ghost use Rattle.type_table.specs.Fits.{AreWithin, IsTable};
ghost use Rattle.type_table.specs.Links.{Equated, InOrder};
ghost use Rattle.type_table.specs.Solves.{Alike, Clashes};

use crate::form::Form;
use crate::join::join;
use crate::roots::{connect, form_at, root};
use da_values::{List, NoMemory};
use std::alloc::Global;

/// Puts into the table that two numbers stand for one type. It answers whether some types can be so.
pub fn unify(
    alloc: Global,
    forms: &mut List<Form>,
    first: usize,
    second: usize,
) -> Result<bool, NoMemory>
    requires table { IsTable forms.old }
    requires first { first < length forms.old }
    requires second { second < length forms.old }
    ensures table { IsTable forms.new }
    ensures size { length forms.new ≡ length forms.old }
    ensures solved { IfOk result (λ can. can ≡ true → Alike forms.old ((first, second) ∷ []) forms.new []) }
    ensures clash { IfOk result (λ can. can ≡ false → Clashes forms.old ((first, second) ∷ [])) }
{
    let mut todo = List::new(alloc);
    todo.push((first, second))?;
    while let Some((one, other)) = todo.pop() {
        if !equate(forms, one, other, &mut todo)? {
            return Ok(false);
        }
    }
    Ok(true)
}

// Makes two numbers one. The equations of their parts are added.
fn equate(
    forms: &mut List<Form>,
    first: usize,
    second: usize,
    todo: &mut List<(usize, usize)>,
) -> Result<bool, NoMemory>
    requires table { IsTable forms.old }
    requires first { first < length forms.old }
    requires second { second < length forms.old }
    requires todo { AreWithin (length forms.old) todo.old }
    ensures table { IsTable forms.new }
    ensures size { length forms.new ≡ length forms.old }
    ensures solved { IfOk result (λ can. can ≡ true → Equated forms.old ((first, second) ∷ todo.old) forms.new todo.new) }
    ensures clash { IfOk result (λ can. can ≡ false → Clashes forms.old ((first, second) ∷ [])) }
{
    let one = root(forms, first);
    let other = root(forms, second);
    let (low, high) = in_order(one, other);
    if low == high {
        return Ok(true);
    }
    if !join(form_at(forms, low), form_at(forms, high), todo)? {
        return Ok(false);
    }
    connect(forms, low, high);
    Ok(true)
}

// Two numbers, the smaller one first.
fn in_order(first: usize, second: usize) -> (usize, usize)
    ensures same { InOrder first second result.0 result.1 }
    ensures order { result.0 ≤ result.1 }
{
    if second < first {
        (second, first)
    } else {
        (first, second)
    }
}
