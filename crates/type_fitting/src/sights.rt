//! What is looked at in the types of a table.
ghost use Rattle.std.specs.List.{AllByRecursion, list_all};
ghost use Rattle.std.specs.Prelude.{◌<◌, ◌≡◌, ◌≤◌, IfOk, List as ListOf, false, length, true};
ghost use Rattle.type_table.specs.Values.{types_of};
ghost use Rattle.type_table.specs.declared.form.Form.{Form as FormOf};
ghost use Rattle.type_choice.specs.Looks.{AreLooks, is_short};
ghost use Rattle.type_fitting.specs.Notes.{IsInside};
ghost use Rattle.type_fitting.specs.Sights.{AreShort, adds, is_seen, numbers_where, receives, seen_at};

use crate::table::{Kind, Note};
use da_values::{List, NoMemory};
use std::alloc::Global;
use type_choice::Looks;

/// The numbers that are added.
pub fn added(alloc: Global, notes: &[Note]) -> Result<List<usize>, NoMemory>
    ensures { IfOk result (λ numbers. numbers ≡ numbers_where adds notes.now) }
{
    let mut numbers = List::new(alloc);
    for note in notes {
        if is_added(note.kind) {
            numbers.push(note.number)?;
        }
    }
    Ok(numbers)
}

/// The numbers that are sent to.
pub fn received(alloc: Global, notes: &[Note]) -> Result<List<usize>, NoMemory>
    ensures { IfOk result (λ numbers. numbers ≡ numbers_where receives notes.now) }
{
    let mut numbers = List::new(alloc);
    for note in notes {
        if is_received(note.kind) {
            numbers.push(note.number)?;
        }
    }
    Ok(numbers)
}

// Whether what is added is asked for.
fn is_added(kind: Kind) -> bool
    ensures { result ≡ adds kind }
{
    match kind {
        Kind::Adds => true,
        Kind::Ordered | Kind::Single | Kind::Receives | Kind::Flat => false,
    }
}

// Whether what is sent to is asked for.
fn is_received(kind: Kind) -> bool
    ensures { result ≡ receives kind }
{
    match kind {
        Kind::Receives => true,
        Kind::Ordered | Kind::Adds | Kind::Single | Kind::Flat => false,
    }
}

/// Whether each type is seen to be as is asked.
pub fn are_seen(looks: &Looks, notes: &[Note]) -> bool
    ensures { (forms : ListOf FormOf) → AreLooks forms looks.now → AllByRecursion (IsInside (length forms)) notes.now → result ≡ list_all (seen_at (types_of forms)) notes.now }
{
    for note in notes {
        if !is_right(looks, note) {
            return false;
        }
    }
    true
}

// Whether a type is seen to be as is asked. What is added and sent to was chosen so.
fn is_right(looks: &Looks, note: &Note) -> bool
    ensures { (forms : ListOf FormOf) → AreLooks forms looks.now → note.now.number < length forms → result ≡ is_seen note.now.kind (types_of forms note.now.number) }
{
    match note.kind {
        Kind::Adds => true,
        Kind::Receives => true,
        Kind::Ordered => looks.is_ordered(note.number),
        Kind::Single => !looks.is_set(note.number),
        Kind::Flat => looks.is_flat(note.number),
    }
}

/// Whether few tokens spell the type of each of the first so many numbers.
pub fn are_short(looks: &Looks, count: usize) -> bool
    ensures all { (forms : ListOf FormOf) → AreLooks forms looks.now → count ≤ length forms → result ≡ true → AreShort count (types_of forms) }
    ensures some { (forms : ListOf FormOf) → AreLooks forms looks.now → count ≤ length forms → result ≡ false → AreShort count (types_of forms) → ⊥ }
{
    for number in 0..count {
        if !looks.is_short(number) {
            return false;
        }
    }
    true
}
