//! A class with its variables, the places of its methods, and the numbers of its labels.
ghost use Rattle.da_lang.specs.BodyMeaning.{class_slots};
ghost use Rattle.da_lang.specs.ClassParts.{method_of, params_if, stmts_if};
ghost use Rattle.da_lang.specs.LabelNames.{label_number};
ghost use Rattle.da_scope.specs.LabelsView.{HasNumbers};
ghost use Rattle.da_scope.specs.MethodsView.{HasPlaces, place_in};
ghost use Rattle.std.specs.List.{slice_get};
ghost use Rattle.std.specs.Option.{option_and_then, option_map};
ghost use Rattle.std.specs.Prelude.{◌≡◌};

use crate::bodies::{Body, whole_body};
use crate::labels::{Numbers, number_at};
use crate::methods::Places;
use da_lang::{ClassTree, Member};
use da_meaning::Scope;

/// A class, with its variables in scope, the places of its methods, and the numbers of its labels.
#[derive(Drop)]
pub struct Home<'t> {
    pub class: &'t ClassTree,
    pub scope: Scope<'t>,
    pub places: Places<'t>,
    pub labels: Numbers<'t>,
    ghost variables: { scope ≡ class_slots class.now },
    ghost has_places: { HasPlaces places class.now },
    ghost has_numbers: { HasNumbers labels class.now },
}

impl<'t> Home<'t> {
    /// The first method of a name, which is empty where there is none.
    pub fn method(&self, name: &[u8]) -> Body<'t>
        ensures params { result.params.now ≡ params_if (method_of self.now.class.now name.now) }
        ensures stmts { result.stmts.now ≡ stmts_if (method_of self.now.class.now name.now) }
    {
        match self.member(name) {
            Some(member) => whole_body(member),
            None => Body {
                params: &[],
                stmts: &[],
            },
        }
    }

    /// The number of the first label of a name. Where there is none, it is the first number.
    pub fn label(&self, name: &[u8]) -> u32
        ensures { result ≡ label_number self.now.class.now name.now }
    {
        match number_at(&self.labels, name) {
            Some(number) => number,
            None => 1,
        }
    }

    // The member at the place of a name.
    fn member(&self, name: &[u8]) -> Option<&'t Member>
        ensures { option_map (λ m. m.now) result ≡ option_and_then (slice_get self.now.class.now.members) (place_in self.now.places name.now) }
    {
        match self.places.get(name) {
            Some(place) => self.class.members.as_slice().get(*place),
            None => None,
        }
    }
}
