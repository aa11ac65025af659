//! New slots, with their names in scope.
ghost use Rattle.da_lang.specs.BodyMeaning.{fresh, named_slots, next, param_slots, untyped, with_params, with_slots};
ghost use Rattle.da_lang.specs.ClassParts.{variable_in};
ghost use Rattle.da_lang.specs.ExprMeaning.{InSlot};
ghost use Rattle.da_scope.specs.NamesView.{texts};
ghost use Rattle.std.specs.Prelude.{◌≡◌, [], ◌∷◌, IfOk, OnOk, filter_map, length, map};

use da_lang::{Member, Param, Ty, copy_type};
use da_meaning::{Scope, Tables};
use da_values::{List, NoMemory};
use std::alloc::Global;

/// A new slot of this type, where it is known, and its name.
pub fn declare<'t>(
    name: &'t [u8],
    ty: Option<Ty>,
    scope: &mut Scope<'t>,
    tables: &mut Tables,
) -> Result<u16, NoMemory>
    ensures slot { IfOk result (λ slot. slot ≡ next tables.old) }
    ensures scope { OnOk result (scope.new ≡ (name.now, InSlot (next tables.old)) ∷ scope.old) }
    ensures tables { OnOk result (tables.new ≡ with_slots (ty ∷ []) tables.old) }
{
    let slot = tables.next_slot()?;
    tables.add_slot(ty)?;
    scope.enter_slot(name, slot)?;
    Ok(slot)
}

/// New slots for names, whose types are not known yet.
pub fn declare_names<'t>(
    alloc: Global,
    names: &[&'t [u8]],
    scope: &mut Scope<'t>,
    tables: &mut Tables,
) -> Result<List<u16>, NoMemory>
    ensures slots { IfOk result (λ slots. slots ≡ fresh tables.old (length names.now)) }
    ensures scope { OnOk result (scope.new ≡ named_slots (texts names.now) tables.old scope.old) }
    ensures tables { OnOk result (tables.new ≡ untyped (texts names.now) tables.old) }
{
    let mut slots = List::new(alloc);
    for name in names {
        slots.push(declare(name, None, scope, tables)?)?;
    }
    Ok(slots)
}

/// New slots for parameters.
pub fn declare_params<'t>(
    alloc: Global,
    params: &'t [Param],
    scope: &mut Scope<'t>,
    tables: &mut Tables,
) -> Result<List<u16>, NoMemory>
    ensures slots { IfOk result (λ slots. slots ≡ fresh tables.old (length params.now)) }
    ensures scope { OnOk result (scope.new ≡ param_slots params.now tables.old scope.old) }
    ensures tables { OnOk result (tables.new ≡ with_params params.now tables.old) }
{
    let mut slots = List::new(alloc);
    for param in params {
        let ty = copy_type(alloc, &param.ty)?;
        slots.push(declare(param.name.as_slice(), Some(ty), scope, tables)?)?;
    }
    Ok(slots)
}

/// New slots for the variables among members.
pub fn declare_variables<'t>(
    alloc: Global,
    members: &'t [Member],
    scope: &mut Scope<'t>,
    tables: &mut Tables,
) -> Result<(), NoMemory>
    ensures scope { OnOk result (scope.new ≡ named_slots (map (λ v. v.name) (filter_map variable_in members.now)) tables.old scope.old) }
    ensures tables { OnOk result (tables.new ≡ with_slots (map (λ v. Some v.ty) (filter_map variable_in members.now)) tables.old) }
{
    for member in members {
        declare_variable(alloc, member, scope, tables)?;
    }
    Ok(())
}

// A new slot for a member that is a variable.
#[tactic(auto, using(crate::proofs::SlotLaws::variable_rules))]
fn declare_variable<'t>(
    alloc: Global,
    member: &'t Member,
    scope: &mut Scope<'t>,
    tables: &mut Tables,
) -> Result<(), NoMemory>
    ensures scope { OnOk result (scope.new ≡ named_slots (map (λ v. v.name) (filter_map variable_in (member.now ∷ []))) tables.old scope.old) }
    ensures tables { OnOk result (tables.new ≡ with_slots (map (λ v. Some v.ty) (filter_map variable_in (member.now ∷ []))) tables.old) }
{
    match member {
        Member::Var { name, ty, .. } => {
            let ty = copy_type(alloc, ty)?;
            declare(name.as_slice(), Some(ty), scope, tables)?;
            Ok(())
        }
        Member::Setup { .. }
        | Member::Run { .. }
        | Member::Method { .. }
        | Member::Receive { .. } => Ok(()),
    }
}
