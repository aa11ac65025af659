//! The methods of a class by their names.
ghost use Rattle.da_scope.specs.MethodsView.{is_named, method_place, place_in};
ghost use Rattle.std.specs.Prelude.{◌≡◌, ℕ, List, None, Some, IfOk, OnOk, bytes_eq, if◌then◌else◌};

use da_lang::Member;
use da_values::NoMemory;
use std::alloc::Global;
use std::collections::BTreeMap;

/// The map from names to the place of the first method of each among the members of a class, counted from 0.
pub type Places<'t> = BTreeMap<&'t [u8], usize>;

// No method.
fn no_places<'t>(alloc: Global) -> Places<'t>
    ensures { (q : List ℕ) → place_in result q ≡ None }
{
    BTreeMap::new(alloc)
}

/// The places of the methods among members, in time in step with them.
pub fn places_of<'t>(alloc: Global, members: &'t [Member]) -> Result<Places<'t>, NoMemory>
    ensures { IfOk result (λ places. (q : List ℕ) → place_in places q ≡ method_place members.now q) }
{
    let mut places = no_places(alloc);
    let mut rest = members;
    while let Some((member, earlier)) = rest.split_last() {
        set_member(member, earlier.len(), &mut places)?;
        rest = earlier;
    }
    Ok(places)
}

// Where the member is a method, this is the place of its name from now on.
fn set_member<'t>(member: &'t Member, place: usize, places: &mut Places<'t>) -> Result<(), NoMemory>
    ensures { OnOk result ((q : List ℕ) → place_in places.new q ≡ (if is_named q member.now then Some place else place_in places.old q)) }
{
    match member {
        Member::Method { name, .. } => set_place(name.as_slice(), place, places),
        Member::Var { .. } | Member::Setup { .. } | Member::Run { .. } | Member::Receive { .. } => {
            Ok(())
        }
    }
}

// This is the place of the name from now on.
fn set_place<'t>(name: &'t [u8], place: usize, places: &mut Places<'t>) -> Result<(), NoMemory>
    ensures { OnOk result ((q : List ℕ) → place_in places.new q ≡ (if bytes_eq name.now q then Some place else place_in places.old q)) }
{
    match places.insert(name, place) {
        Ok(_) => Ok(()),
        Err(_) => Err(NoMemory),
    }
}
