//! What is known where types are looked for: the declared messages, and the types of the slots.
ghost use Rattle.da_lang.specs.QueryTypes.{given, message_type as type_of_message, slot_type as type_of_slot};
ghost use Rattle.da_lang.specs.Types.{element_of as element_in};
ghost use Rattle.da_lang.specs.World.{at_number};
ghost use Rattle.da_typing.specs.KnownView.{known_of};
ghost use Rattle.std.specs.Option.{option_copied};
ghost use Rattle.std.specs.Prelude.{◌≡◌, IfOk, bytes_eq, find};

use crate::types::{element_of, flat};
use da_lang::{MessageDecl, Ty, copy_types};
use da_values::NoMemory;
use std::alloc::Global;

/// The declared messages, and the types of the slots, where they are known.
#[derive(Clone, Copy)]
pub struct Known<'p> {
    pub messages: &'p [MessageDecl],
    pub slots: &'p [Option<Ty>],
}

impl<'p> Known<'p> {
    /// With these messages and these types of slots.
    pub fn new(messages: &'p [MessageDecl], slots: &'p [Option<Ty>]) -> Known<'p>
        ensures { known_of result ≡ record { messages = messages.now; slots = slots.now } }
    {
        Known { messages, slots }
    }

    /// The type of a slot, where it is known.
    pub fn slot_type(&self, slot: u16) -> Option<&Ty>
        ensures { option_copied result ≡ type_of_slot (known_of self.now) slot }
    {
        match member(self.slots, usize::from(slot)) {
            None => None,
            Some(ty) => ty.as_ref(),
        }
    }

    /// The type of the elements of a slot, where it is known to be a set.
    pub fn slot_element(&self, slot: u16) -> Option<&Ty>
        ensures { option_copied result ≡ given (type_of_slot (known_of self.now) slot) element_in }
    {
        match self.slot_type(slot) {
            None => None,
            Some(ty) => element_of(ty),
        }
    }

    /// The type of the messages with a tag, where it is declared, and of at most 32 levels.
    pub fn message_type(&self, alloc: Global, tag: &[u8]) -> Result<Option<Ty>, NoMemory>
        ensures { IfOk result (λ found. found ≡ type_of_message (known_of self.now) tag.now) }
    {
        match declared(self.messages, tag) {
            None => Ok(None),
            Some(message) => {
                let mut parts = copy_types(alloc, message.parts.as_slice())?;
                parts.insert(0, Ty::Text)?;
                Ok(flat(Ty::Tuple(parts)))
            }
        }
    }
}

/// The member of a list that is numbered from 1.
#[tactic(auto, using(crate::proofs::Walks::numbered_at))]
pub fn member<T>(members: &[T], number: usize) -> Option<&T>
    ensures { option_copied result ≡ at_number members.now number }
{
    if number == 0 {
        return None;
    }
    members.get(number - 1)
}

// The first message that is declared with a tag.
fn declared<'p>(messages: &'p [MessageDecl], tag: &[u8]) -> Option<&'p MessageDecl>
    ensures { option_copied result ≡ find (λ m. bytes_eq m.tag tag.now) messages.now }
{
    for message in messages {
        if message.tag.as_slice() == tag {
            return Some(message);
        }
    }
    None
}
