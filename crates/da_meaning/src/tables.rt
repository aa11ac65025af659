//! The slots and the numbered queries of a class.
ghost use Rattle.da_lang.specs.BodyMeaning.{next, with_slots};
ghost use Rattle.std.specs.Prelude.{◌≡◌, [], ◌∷◌, ◌++◌, IfOk, OnOk, length, suc};

use da_lang::{Query, Ty};
use da_values::{List, NoMemory};
use std::alloc::Global;
use std::marker::Model;

/// The slots and the numbered queries that were met so far in the text of a class.
#[derive(Drop)]
pub struct Tables {
    slots: List<Option<Ty>>,
    queries: List<Query>,
}

impl Model for Tables {
    ghost use Rattle.da_lang.specs.ExprMeaning.{Tables};
    ghost use Rattle.da_lang.specs.contracts.query.Query as query;
    ghost use Rattle.da_lang.specs.contracts.ty.Ty as ty;
    ghost use Rattle.std.specs.Coded.{codes};

    ghost Value = { Tables };

    ghost coded = { Prim.hlevel (codes, ty.the_row.coded, query.the_row.coded) };

    ghost view = { λ tables. record { slots = tables.slots; queries = tables.queries } };
}

impl Tables {
    /// No slots, and no queries.
    pub fn new(alloc: Global) -> Tables
        ensures { result ≡ record { slots = []; queries = [] } }
    {
        Tables {
            slots: List::new(alloc),
            queries: List::new(alloc),
        }
    }

    /// The number of the next slot. More than a number has place for are refused as memory is: the limits of programs
    /// leave none.
    pub fn next_slot(&self) -> Result<u16, NoMemory>
        ensures { IfOk result (λ slot. slot ≡ next self.now) }
    {
        let Ok(others) = u16::try_from(self.slots.len()) else {
            return Err(NoMemory);
        };
        match others.checked_add(1) {
            Some(slot) => Ok(slot),
            None => Err(NoMemory),
        }
    }

    /// A new slot, of this type where it is known.
    pub fn add_slot(&mut self, ty: Option<Ty>) -> Result<(), NoMemory>
        ensures { OnOk result (self.new ≡ with_slots (ty ∷ []) self.old) }
    {
        self.slots.push(ty)
    }

    /// The number of the next query. More than a number has place for are refused as memory is: the limits of programs
    /// leave none.
    pub fn next_query(&self) -> Result<u32, NoMemory>
        ensures { IfOk result (λ number. number ≡ suc (length self.now.queries)) }
    {
        let Ok(before) = u32::try_from(self.queries.len()) else {
            return Err(NoMemory);
        };
        match before.checked_add(1) {
            Some(number) => Ok(number),
            None => Err(NoMemory),
        }
    }

    /// A new query gets the next number.
    pub fn add_query(&mut self, query: Query) -> Result<(), NoMemory>
        ensures { OnOk result (self.new ≡ record { slots = self.old.slots; queries = self.old.queries ++ query ∷ [] }) }
    {
        self.queries.push(query)
    }

    /// The slots and the queries.
    pub fn into_parts(self) -> (List<Option<Ty>>, List<Query>)
        ensures slots { result.0 ≡ self.slots }
        ensures queries { result.1 ≡ self.queries }
    {
        (self.slots, self.queries)
    }
}
