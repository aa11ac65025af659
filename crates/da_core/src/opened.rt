//! Which messages a process takes where it waits, by the patterns of its handlers, whatever slots and variables hold.
ghost use Rattle.da_core.specs.Opened.{lets_in as lets_in_def, opened as opened_def, taken_by};
ghost use Rattle.da_lang.specs.Labels.{is_at as is_at_def, is_open as is_open_def, may_match};
ghost use Rattle.da_values.specs.Value.{val_of};
ghost use Rattle.std.specs.List.{list_any};
ghost use Rattle.std.specs.Prelude.{◌≡◌, ◌==◌, IfOk, map};

use crate::deliveries::Delivery;
use da_lang::{Handler, Pattern};
use da_pattern::matches_pattern;
use da_values::{List, NoMemory, Row, Value};
use history_live::live_pattern;
use std::alloc::Global;

/// The patterns of a handler, with a variable for each term in which a slot or a variable stands.
#[derive(Drop)]
pub struct Opened {
    pub message: Pattern,
    pub from: Pattern,
}

/// Those of each of these handlers.
pub fn opened_of(alloc: Global, handlers: &[Handler]) -> Result<List<Opened>, NoMemory>
    ensures { IfOk result (λ all. all ≡ map opened_def handlers.now) }
{
    let mut all = List::new(alloc);
    for handler in handlers {
        all.push(Opened {
            message: live_pattern(alloc, &handler.message)?,
            from: live_pattern(alloc, &handler.from)?,
        })?;
    }
    Ok(all)
}

/// Whether a handler is open at a label: one that names no label is open everywhere. It takes no memory.
pub fn is_open(handler: &Handler, label: Option<u32>) -> bool
    ensures { result ≡ is_open_def label handler.now }
{
    handler.at.len() == 0 || is_at(label, handler.at.as_slice())
}

// Whether the label is one of these.
fn is_at(label: Option<u32>, at: &[u32]) -> bool
    ensures { result ≡ is_at_def label at.now }
{
    match label {
        Some(label) => is_among(label, at),
        None => false,
    }
}

// Whether a label is one of these.
fn is_among(label: u32, at: &[u32]) -> bool
    ensures { result ≡ list_any (λ k. k == label) at.now }
{
    for other in at {
        if *other == label {
            return true;
        }
    }
    false
}

/// Whether process `me` takes the message: no handler may match it, or one that is open where the process waits may. It
/// takes no memory.
pub fn is_taken(alloc: Global, delivery: &Delivery<'_>, me: u16) -> bool
    ensures { delivery.now.code.now.opened ≡ map opened_def delivery.now.class.now.handlers
        → result ≡ taken_by (may_match me (val_of delivery.now.message.now) delivery.now.from) delivery.now.label delivery.now.class.now.handlers }
{
    let mut held = false;
    let handlers = delivery.class.handlers.as_slice();
    let opened = delivery.code.opened.as_slice();
    'handlers: for (handler, patterns) in handlers.iter().zip(opened) {
        if !lets_in(alloc, patterns, delivery.message, delivery.from, me) {
            continue;
        }
        if is_open(handler, delivery.label) {
            return true;
        }
        held = true;
    }
    !held
}

// Whether opened patterns match a message and its sender in process `me`.
fn lets_in(alloc: Global, patterns: &Opened, m: &Value, from: u16, me: u16) -> bool
    ensures { result ≡ lets_in_def me (val_of m.now) from patterns.now }
{
    let none = Row::new(alloc);
    matches_pattern(&patterns.message, m, &none, &none, me)
        && matches_pattern(&patterns.from, &Value::Proc(from), &none, &none, me)
}
