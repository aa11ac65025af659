//! What is known where demands are listed: what stands for the types of slots and of messages.
ghost use Rattle.std.specs.Option.{option_copied};
ghost use Rattle.std.specs.Prelude.{◌≡◌, IfOk, bytes_eq, find};
ghost use Rattle.type_demands.specs.KnownView.{message_in, slot_in};
ghost use Rattle.type_demands.specs.Listing.{ListsType};

use crate::copy::copy_scheme;
use crate::demand::{Demand, LineDemand};
use crate::puts::{never, put};
use da_lang::{Name, Query};
use da_typing::member;
use da_values::{List, NoMemory};
use std::alloc::Global;
use type_table::Scheme;

/// What stands for the type of a slot.
#[derive(Drop)]
pub enum SlotScheme {
    /// Nothing.
    Untyped,
    /// Its declared type.
    Declared(Scheme),
    /// The type that a header gives it, where all is met that the header demands.
    Bound(Scheme),
}

/// What stands for the type of the messages with a tag: tuples of a text and the other parts.
#[derive(Drop)]
pub struct MessageScheme {
    pub tag: Name,
    pub whole: Scheme,
}

/// What stands for the types of the slots and of the messages, the numbered queries, and the line of the statement whose
/// demands are listed.
#[derive(Clone, Copy)]
pub struct Known<'p> {
    pub slots: &'p [SlotScheme],
    pub messages: &'p [MessageScheme],
    pub queries: &'p [Query],
    pub line: u32,
}

/// What stands for the type of a slot.
pub fn slot_demands(
    slot: u16,
    alloc: Global,
    known: &Known<'_>,
    demands: &mut List<LineDemand>,
) -> Result<Scheme, NoMemory>
    ensures { IfOk result (λ scheme. ListsType demands.old demands.new known.now (slot_in known.now.slots.now slot) scheme) }
{
    match member(known.slots, usize::from(slot)) {
        None => {
            let scheme = never(known, demands)?;
            Ok(scheme)
        }
        Some(SlotScheme::Untyped) => {
            let scheme = never(known, demands)?;
            Ok(scheme)
        }
        Some(SlotScheme::Declared(scheme)) => {
            let copy = copy_scheme(scheme, alloc)?;
            Ok(copy)
        }
        Some(SlotScheme::Bound(scheme)) => {
            put(Demand::Uses(slot), known, demands)?;
            let copy = copy_scheme(scheme, alloc)?;
            Ok(copy)
        }
    }
}

/// What stands for the type of the messages with a tag.
pub fn tag_demands(
    tag: &[u8],
    alloc: Global,
    known: &Known<'_>,
    demands: &mut List<LineDemand>,
) -> Result<Scheme, NoMemory>
    ensures { IfOk result (λ scheme. ListsType demands.old demands.new known.now (message_in known.now.messages.now tag.now) scheme) }
{
    match with_tag(known.messages, tag) {
        None => {
            let scheme = never(known, demands)?;
            Ok(scheme)
        }
        Some(message) => {
            let copy = copy_scheme(&message.whole, alloc)?;
            Ok(copy)
        }
    }
}

// The first message with a tag.
fn with_tag<'p>(messages: &'p [MessageScheme], tag: &[u8]) -> Option<&'p MessageScheme>
    ensures { option_copied result ≡ find (λ m. bytes_eq m.tag tag.now) messages.now }
{
    for message in messages {
        if message.tag.as_slice() == tag {
            return Some(message);
        }
    }
    None
}
