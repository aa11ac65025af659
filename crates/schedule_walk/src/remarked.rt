//! Events with remarks.
ghost use Rattle.sched_text.specs.EventText.{HasNames, event_line};
ghost use Rattle.sched_text.specs.ScheduleText.{SpellsSchedule};
ghost use Rattle.schedule_walk.specs.Next.{AreRemarked, bare_text, shown_byte};
ghost use Rattle.std.specs.List.{All};
ghost use Rattle.std.specs.Prelude.{◌≡◌, ◌++◌, IfOk, MatchOption, OnOk, codes, map};

use crate::naming::all_named;
use da_lang::Event;
use da_values::{Buf, List, NoMemory};
use sched_text::{SCHEDULE_LIMIT, write_event};
use std::alloc::Global;
use text_hints::Phrase;

/// A schedule of some events, with a remark after each. Where it would be too long, the remarks are empty; `None` where the
/// text would be no schedule even so.
pub fn listing(alloc: Global, events: &[Event], remarks: &[Phrase]) -> Result<Option<Buf>, NoMemory>
    ensures { IfOk result (λ found. MatchOption found (SpellsSchedule (bare_text events.now) events.now → ⊥)
        (λ text. AreRemarked events.now text × SpellsSchedule text events.now)) }
{
    if !all_named(events) {
        return Ok(None);
    }
    let text = with_remarks(alloc, events, remarks)?;
    if text.len() <= SCHEDULE_LIMIT {
        return Ok(Some(text));
    }
    bare_listing(alloc, events)
}

// The same with empty remarks.
fn bare_listing(alloc: Global, events: &[Event]) -> Result<Option<Buf>, NoMemory>
    requires { All HasNames events.now }
    ensures { IfOk result (λ found. MatchOption found (SpellsSchedule (bare_text events.now) events.now → ⊥)
        (λ text. AreRemarked events.now text × SpellsSchedule text events.now)) }
{
    let text = without_remarks(alloc, events)?;
    if text.len() > SCHEDULE_LIMIT {
        return Ok(None);
    }
    Ok(Some(text))
}

// The lines of some events, each followed by an empty remark.
fn without_remarks(alloc: Global, events: &[Event]) -> Result<Buf, NoMemory>
    ensures { IfOk result (λ text. text ≡ bare_text events.now) }
{
    let mut out = List::new(alloc);
    for event in events {
        put_row(event, &[], &mut out)?;
    }
    Ok(out)
}

// The lines of some events, each followed by a line with its remark; it is empty where there are fewer remarks.
fn with_remarks(alloc: Global, events: &[Event], remarks: &[Phrase]) -> Result<Buf, NoMemory>
    ensures { IfOk result (λ text. AreRemarked events.now text) }
{
    let mut out = List::new(alloc);
    for (place, event) in events.iter().enumerate() {
        put_row(event, remark_at(remarks, place), &mut out)?;
    }
    Ok(out)
}

// Appends the two lines of an event and its remark.
fn put_row(event: &Event, remark: &[u8], out: &mut Buf) -> Result<(), NoMemory>
    ensures { OnOk result (out.new ≡ out.old ++ event_line event.now ++ codes "# " ++ map shown_byte remark.now ++ codes "\n") }
{
    write_event(event, out)?;
    out.append(b"# ")?;
    put_plain(remark, out)?;
    out.append(b"\n")
}

// The remark at a place.
fn remark_at(remarks: &[Phrase], place: usize) -> &[u8] {
    match remarks.get(place) {
        Some(remark) => remark.as_slice(),
        None => &[],
    }
}

// Appends bytes, with a question mark for each that could end the line.
fn put_plain(bytes: &[u8], out: &mut Buf) -> Result<(), NoMemory>
    ensures { OnOk result (out.new ≡ out.old ++ map shown_byte bytes.now) }
{
    for byte in bytes {
        out.push(shown(*byte))?;
    }
    Ok(())
}

fn shown(byte: u8) -> u8
    ensures { result ≡ shown_byte byte }
{
    if byte < 32 { b'?' } else { byte }
}
