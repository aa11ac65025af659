//! The words of an event's line.
ghost use Rattle.da_lang.specs.declared.event.Event.{Event};
ghost use Rattle.sched_text.specs.EventText.{spaced};
ghost use Rattle.sched_text.specs.Reading.{AreNumbers, event_named, listed, one_named, three_named};
ghost use Rattle.sched_text.specs.ScheduleText.{IsLineOf};
ghost use Rattle.std.specs.Prelude.{◌≡◌, ℕ, List, IfNone, IfSome};

use crate::number::{split_number, split_word};
use da_lang::Event;

/// The numbers of an event.
#[derive(Clone, Copy)]
pub(crate) enum Numbers {
    One(u32),
    Two(u32, u32),
    Three(u32, u32, u32),
}

/// The event that a line is.
pub(crate) fn read_event(line: &[u8]) -> Option<Event>
    ensures some { IfSome result (λ e. IsLineOf e line.now) }
    ensures none { IfNone result ((e : Event) → IsLineOf e line.now → ⊥) }
{
    let (word, rest) = split_word(line);
    let numbers = read_numbers(rest)?;
    event_of(word, numbers)
}

// The numbers that stand here, with a space before each.
fn read_numbers(bytes: &[u8]) -> Option<Numbers>
    ensures some { IfSome result (λ numbers. AreNumbers (listed numbers) × (bytes.now ≡ spaced (listed numbers))) }
    ensures none { IfNone result ((ns : List ℕ) → AreNumbers ns → bytes.now ≡ spaced ns → ⊥) }
{
    let (first, rest) = split_number(bytes)?;
    if rest.is_empty() {
        return Some(Numbers::One(first));
    }
    let (second, rest) = split_number(rest)?;
    if rest.is_empty() {
        return Some(Numbers::Two(first, second));
    }
    let (third, rest) = split_number(rest)?;
    if rest.is_empty() {
        return Some(Numbers::Three(first, second, third));
    }
    None
}

// The event of this word and these numbers.
fn event_of(word: &[u8], numbers: Numbers) -> Option<Event>
    ensures { result ≡ event_named word.now (listed numbers) }
{
    match numbers {
        Numbers::One(p) => event_at(word, p),
        Numbers::Two(p, k) => (word == b"move".as_slice()).then_some(Event::Take { p, k }),
        Numbers::Three(p, q, i) => event_between(word, p, q, i),
    }
}

// The event of this word and one process.
fn event_at(word: &[u8], p: u32) -> Option<Event>
    ensures { result ≡ one_named word.now p }
{
    if word == b"move".as_slice() {
        Some(Event::Move { p })
    } else if word == b"timeout".as_slice() {
        Some(Event::Timeout { p })
    } else if word == b"show".as_slice() {
        Some(Event::Show { p })
    } else if word == b"stat".as_slice() {
        Some(Event::Stat { p })
    } else {
        None
    }
}

// The event of this word and a message of a channel.
fn event_between(word: &[u8], p: u32, q: u32, i: u32) -> Option<Event>
    ensures { result ≡ three_named word.now p q i }
{
    if word == b"deliver".as_slice() {
        Some(Event::Deliver { p, q, i })
    } else if word == b"lose".as_slice() {
        Some(Event::Lose { p, q, i })
    } else if word == b"repeat".as_slice() {
        Some(Event::Repeat { p, q, i })
    } else {
        None
    }
}
