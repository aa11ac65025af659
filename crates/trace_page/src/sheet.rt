//! All that is looked up while a page is drawn.
ghost use Rattle.std.specs.Option.{option_map};
ghost use Rattle.std.specs.Prelude.{◌≡◌, ◌<◌, ◌^◌, IfOk, OnOk};
ghost use Rattle.trace_page.specs.Arrows.{has_end, sent_at};
ghost use Rattle.trace_page.specs.Sheets.{AddsEnd, AddsSending, HasEnds, HasSends, IsNarrow, IsSheet, action_at, actions_at, ended_by as ended_by_def, key_of as key_def, message_in, sent_by as sent_by_def};

use crate::page::Page;
use crate::spots::{ActionAt, Placing, RowAt, place_actions, place_rows};
use da_lang::Action;
use da_values::{List, NoMemory};
use std::alloc::Global;
use std::collections::{BTreeMap, BTreeSet};

/// Where an action stands: the number of its event, and its line.
#[derive(Clone, Copy, Drop)]
pub(crate) struct Place {
    pub event: u32,
    pub line: u32,
}

/// A page, where its rows and actions stand, how many lines there are, where each message was sent, and the messages of which is
/// told what became of them.
#[derive(Drop)]
pub(crate) struct Sheet<'r> {
    pub alloc: Global,
    pub page: &'r Page,
    pub rows: List<RowAt<'r>>,
    pub spots: List<ActionAt<'r>>,
    pub lines: u32,
    pub sends: BTreeMap<u128, Place>,
    pub ends: BTreeSet<u128>,
}

/// The sheet of a page.
pub(crate) fn sheet_of<'r>(alloc: Global, page: &'r Page) -> Result<Sheet<'r>, NoMemory>
    requires { IsNarrow page.now }
    ensures sheet { IfOk result IsSheet }
    ensures page { IfOk result (λ sheet. sheet.page.now ≡ page.now) }
{
    let placing = place_rows(alloc, page)?;
    let Placing { rows, lines } = placing;
    let spots = place_actions(alloc, &rows)?;
    let sends = sends_of(alloc, spots.as_slice())?;
    let ends = ends_of(alloc, spots.as_slice())?;
    Ok(Sheet {
        alloc,
        page,
        rows,
        spots,
        lines,
        sends,
        ends,
    })
}

// Where each message was sent first. The last actions come first, so that the first ones stay.
fn sends_of(alloc: Global, spots: &[ActionAt<'_>]) -> Result<BTreeMap<u128, Place>, NoMemory>
    ensures { IfOk result (λ sends. HasSends sends (actions_at spots.now)) }
{
    let mut sends = BTreeMap::new(alloc);
    let mut place = spots.len();
    while place > 0 {
        place -= 1;
        note_sending(&spots[place], &mut sends)?;
    }
    Ok(sends)
}

// The place of an action that sends a message.
fn note_sending(at: &ActionAt<'_>, sends: &mut BTreeMap<u128, Place>) -> Result<(), NoMemory>
    ensures { OnOk result (AddsSending sends.old (action_at at.now) sends.new) }
{
    let Some(message) = sent_by(at.action) else {
        return Ok(());
    };
    let place = Place {
        event: at.event,
        line: at.line,
    };
    match sends.insert(key_of(message.process, message.time), place) {
        Ok(_) => Ok(()),
        Err(_) => Err(NoMemory),
    }
}

/// What tells a message from all others: its sender, and the time of the sender's clock.
#[derive(Clone, Copy)]
struct Sending {
    process: u16,
    time: u64,
}

// The message that an action sends.
fn sent_by(action: &Action) -> Option<Sending>
    ensures { option_map message_in result ≡ sent_by_def action.now }
{
    match action {
        Action::Sent { p, t, .. } => Some(Sending {
            process: *p,
            time: *t,
        }),
        _ => None,
    }
}

// The message of which an action tells what became of it.
fn ended_by(action: &Action) -> Option<Sending>
    ensures { option_map message_in result ≡ ended_by_def action.now }
{
    match action {
        Action::Got { p, t, .. } => Some(Sending {
            process: *p,
            time: *t,
        }),
        Action::Lost { p, t, .. } => Some(Sending {
            process: *p,
            time: *t,
        }),
        _ => None,
    }
}

// The messages of which is told what became of them.
fn ends_of(alloc: Global, spots: &[ActionAt<'_>]) -> Result<BTreeSet<u128>, NoMemory>
    ensures { IfOk result (λ ends. HasEnds ends (actions_at spots.now)) }
{
    let mut ends = BTreeSet::new(alloc);
    let mut place = spots.len();
    while place > 0 {
        place -= 1;
        note_end(&spots[place], &mut ends)?;
    }
    Ok(ends)
}

// The message of which an action tells what became of it.
fn note_end(at: &ActionAt<'_>, ends: &mut BTreeSet<u128>) -> Result<(), NoMemory>
    ensures { OnOk result (AddsEnd ends.old (action_at at.now) ends.new) }
{
    let Some(message) = ended_by(at.action) else {
        return Ok(());
    };
    match ends.insert(key_of(message.process, message.time)) {
        Ok(_) => Ok(()),
        Err(_) => Err(NoMemory),
    }
}

/// Where the message was sent that a process sent at a time, if an action of the page tells it.
pub(crate) fn sent_from(sheet: &Sheet<'_>, p: u16, t: u64) -> Option<Place>
    requires { IsSheet sheet.now }
    ensures { result ≡ sent_at (actions_at sheet.now.spots) p t }
{
    sheet.sends.get(&key_of(p, t)).copied()
}

/// Whether an action of the page tells what became of that message.
pub(crate) fn is_ended(sheet: &Sheet<'_>, p: u16, t: u64) -> bool
    requires { IsSheet sheet.now }
    ensures { result ≡ has_end (actions_at sheet.now.spots) p t }
{
    sheet.ends.contains(&key_of(p, t))
}

// The key of the message that a process sent at a time.
fn key_of(from: u16, time: u64) -> u128
    ensures value { result ≡ key_def from time }
    ensures few { from < 2 ^ 16 }
{
    u128::from(time) * 65_536 + u128::from(from)
}
