//! What stands for declared types, slots and messages.
ghost use Rattle.std.specs.Option.{option_copied};
ghost use Rattle.std.specs.Prelude.{◌≡◌, ◌+◌, ◌*◌, ◌∷◌, IfOk, map, option_map};
ghost use Rattle.class_demands.specs.Unknowns as spec;
ghost use Rattle.type_table.specs.declared.scheme.Scheme.TheVariants as scheme_variant;

use da_lang::{MessageDecl, Ty};
use da_values::{Boxed, List, NoMemory, copy_bytes};
use std::alloc::Global;
use type_demands::{MessageScheme, SlotScheme};
use type_table::Scheme;

/// The number of the unknown type for which a type stands, if it stands for one. A number past 64 bits, which no program with
/// added types has, is refused like memory.
#[tactic(auto, using(crate::proofs::SchemeForms::unknown_at))]
pub fn unknown_in(ty: &Ty) -> Result<Option<usize>, NoMemory>
    ensures { IfOk result (λ number. number ≡ spec.unknown_in ty.now) }
{
    let count = depth();
    match inside(ty, count) {
        None => Ok(None),
        Some(marked) => {
            let number = number_in(marked)?;
            Ok(number)
        }
    }
}

// In how many sets the number of an unknown type stands: one more than may be open at once in a text.
#[tactic(auto, unfolding(crate::specs::Unknowns::depth))]
fn depth() -> usize
    ensures { result ≡ spec.depth }
{
    33
}

// What stands in so many sets.
#[tactic(auto, using(crate::proofs::SchemeForms::inside_rules))]
fn inside(ty: &Ty, count: usize) -> Option<&Ty>
    ensures { option_copied result ≡ spec.inside count ty.now }
{
    if count == 0 {
        return Some(ty);
    }
    match ty {
        Ty::Set(element) => inside(element.get(), count - 1),
        Ty::Int | Ty::Bool | Ty::Text | Ty::Proc | Ty::Tuple(_) => None,
    }
}

/// The number for which a type stands: its digits are sets and tuples of one part, the last one outermost.
#[cycle(numbers)]
#[tactic(auto, using(crate::proofs::SchemeForms::number_rules))]
fn number_in(ty: &Ty) -> Result<Option<usize>, NoMemory>
    ensures { IfOk result (λ number. number ≡ spec.number_in ty.now) }
{
    match ty {
        Ty::Int => Ok(Some(0)),
        Ty::Bool => Ok(None),
        Ty::Text => Ok(None),
        Ty::Proc => Ok(None),
        Ty::Tuple(parts) => {
            let number = digit_in(parts.as_slice())?;
            Ok(number)
        }
        Ty::Set(element) => {
            let before = number_in(element.get())?;
            let number = with_digit(before, 1)?;
            Ok(number)
        }
    }
}

/// The number for which a tuple with these parts stands.
#[cycle(numbers)]
fn digit_in(parts: &[Ty]) -> Result<Option<usize>, NoMemory>
    ensures { IfOk result (λ number. number ≡ spec.digit (map spec.number_in parts.now)) }
{
    match parts {
        [] => Ok(None),
        [part, others @ ..] => match others {
            [] => {
                let before = number_in(part)?;
                let number = with_digit(before, 2)?;
                Ok(number)
            }
            [_, ..] => Ok(None),
        },
    }
}

// The number with a further digit.
fn with_digit(before: Option<usize>, digit: usize) -> Result<Option<usize>, NoMemory>
    ensures { IfOk result (λ number. number ≡ option_map (λ n. 2 * n + digit) before) }
{
    match before {
        None => Ok(None),
        Some(before) => {
            let number = digit_after(before, digit)?;
            Ok(Some(number))
        }
    }
}

// A number with a further digit.
fn digit_after(before: usize, digit: usize) -> Result<usize, NoMemory>
    ensures { IfOk result (λ number. number ≡ 2 * before + digit) }
{
    let Some(twice) = before.checked_add(before) else {
        return Err(NoMemory);
    };
    match twice.checked_add(digit) {
        None => Err(NoMemory),
        Some(number) => Ok(number),
    }
}

/// What stands for a type as it is written.
#[cycle(written)]
#[tactic(auto, using(crate::proofs::SchemeForms::written_rules))]
fn written(ty: &Ty, alloc: Global) -> Result<Scheme, NoMemory>
    ensures { IfOk result (λ scheme. scheme ≡ spec.written ty.now) }
{
    match ty {
        Ty::Int => Ok(Scheme::Int),
        Ty::Bool => Ok(Scheme::Bool),
        Ty::Text => Ok(Scheme::Text),
        Ty::Proc => Ok(Scheme::Proc),
        Ty::Tuple(parts) => {
            let parts = written_parts(parts.as_slice(), alloc)?;
            Ok(Scheme::Tuple(parts))
        }
        Ty::Set(element) => {
            let element = written(element.get(), alloc)?;
            let element = Boxed::new(alloc, element)?;
            Ok(Scheme::Set(element))
        }
    }
}

/// What stands for types as they are written.
#[cycle(written)]
fn written_parts(parts: &[Ty], alloc: Global) -> Result<List<Scheme>, NoMemory>
    ensures { IfOk result (λ schemes. schemes ≡ map spec.written parts.now) }
{
    let mut schemes = List::new(alloc);
    for part in parts {
        let scheme = written(part, alloc)?;
        schemes.push(scheme)?;
    }
    Ok(schemes)
}

/// What stands for a declared type: an unknown type, or the type itself.
#[tactic(auto, unfolding(crate::specs::Unknowns::scheme_of))]
pub fn scheme_of(ty: &Ty, alloc: Global) -> Result<Scheme, NoMemory>
    ensures { IfOk result (λ scheme. scheme ≡ spec.scheme_of ty.now) }
{
    let number = unknown_in(ty)?;
    match number {
        None => {
            let scheme = written(ty, alloc)?;
            Ok(scheme)
        }
        Some(number) => Ok(Scheme::Unknown(number)),
    }
}

/// What stands for the types of slots.
pub fn declared_slots(slots: &[Option<Ty>], alloc: Global) -> Result<List<SlotScheme>, NoMemory>
    ensures { IfOk result (λ schemes. schemes ≡ map spec.declared_slot slots.now) }
{
    let mut schemes = List::new(alloc);
    for slot in slots {
        let scheme = declared_slot(slot, alloc)?;
        schemes.push(scheme)?;
    }
    Ok(schemes)
}

// What stands for the type of a slot.
fn declared_slot(slot: &Option<Ty>, alloc: Global) -> Result<SlotScheme, NoMemory>
    ensures { IfOk result (λ scheme. scheme ≡ spec.declared_slot slot.now) }
{
    match slot {
        None => Ok(SlotScheme::Untyped),
        Some(ty) => {
            let scheme = scheme_of(ty, alloc)?;
            Ok(SlotScheme::Declared(scheme))
        }
    }
}

/// What stands for the types of declared messages.
pub fn declared_messages(
    messages: &[MessageDecl],
    alloc: Global,
) -> Result<List<MessageScheme>, NoMemory>
    ensures { IfOk result (λ schemes. schemes ≡ map spec.declared_message messages.now) }
{
    let mut schemes = List::new(alloc);
    for message in messages {
        let scheme = declared_message(message, alloc)?;
        schemes.push(scheme)?;
    }
    Ok(schemes)
}

// What stands for the type of the messages that are declared with a tag.
fn declared_message(message: &MessageDecl, alloc: Global) -> Result<MessageScheme, NoMemory>
    ensures { IfOk result (λ scheme. scheme ≡ spec.declared_message message.now) }
{
    let tag = copy_bytes(alloc, message.tag.as_slice())?;
    let parts = message_parts(message.parts.as_slice(), alloc)?;
    Ok(MessageScheme {
        tag,
        whole: Scheme::Tuple(parts),
    })
}

// What stands for the parts of a message: a text, and those that are declared.
fn message_parts(parts: &[Ty], alloc: Global) -> Result<List<Scheme>, NoMemory>
    ensures { IfOk result (λ schemes. schemes ≡ scheme_variant.Text ∷ map spec.scheme_of parts.now) }
{
    let mut schemes = List::new(alloc);
    schemes.push(Scheme::Text)?;
    for part in parts {
        let scheme = scheme_of(part, alloc)?;
        schemes.push(scheme)?;
    }
    Ok(schemes)
}
