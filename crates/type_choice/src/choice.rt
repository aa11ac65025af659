//! The choice of types.
ghost use Rattle.std.specs.Prelude.{◌≤◌, ◌≡◌, IfOk, OnOk, false, length, true};
ghost use Rattle.type_table.specs.Fits.{Fits, IsTable, Meaning};
ghost use Rattle.type_table.specs.Values.{types_of};
ghost use Rattle.type_choice.specs.Choice.{AreInside, Chosen, Meets};

use crate::ends::{all_add, all_receive};
use crate::filled::{fill, roots};
use crate::forcing::force_all;
use da_values::{List, NoMemory};
use std::alloc::Global;
use type_table::{Form, settles};

/// Tells of open numbers that they are processes, or sets of processes, so that those that are added may be added and those
/// that are sent to may be sent to. It answers whether some types can be so. The types that the table then gives are such,
/// and each of them is any other that can be so, with integers or processes in place of some parts.
pub fn choose(
    alloc: Global,
    forms: &mut List<Form>,
    adds: &[usize],
    receives: &[usize],
) -> Result<bool, NoMemory>
    requires table { IsTable forms.old }
    requires adds { AreInside (length forms.old) adds.now }
    requires receives { AreInside (length forms.old) receives.now }
    ensures table { OnOk result (IsTable forms.new) }
    ensures grows { OnOk result (length forms.old ≤ length forms.new) }
    ensures fits { IfOk result (λ can. can ≡ true → Fits (types_of forms.new) forms.new) }
    ensures chosen { IfOk result (λ can. can ≡ true → Chosen forms.old adds.now receives.now (types_of forms.new)) }
    ensures none { IfOk result (λ can. can ≡ false → (m : Meaning) → Meets forms.old adds.now receives.now m → ⊥) }
{
    let proc = forms.len();
    forms.push(Form::Proc)?;
    let set = forms.len();
    forms.push(Form::Set(proc))?;
    if !force_all(alloc, forms, adds, receives, proc, set)? {
        return Ok(false);
    }
    if !all_add(forms, adds) {
        return Ok(false);
    }
    if !all_receive(forms, receives) {
        return Ok(false);
    }
    let ends = roots(alloc, forms, receives)?;
    fill(forms, ends.as_slice());
    let can = settles(alloc, forms.as_slice())?;
    Ok(can)
}
