//! The texts that answer.
ghost use Rattle.da_core.specs.Compiled.{IsCompiled, program_of};
ghost use Rattle.sched_text.specs.EventText.{HasNames, event_line};
ghost use Rattle.schedule_hunt.specs.Hunt.{IsTold, found_text as found_def, none_line, remark_line};
ghost use Rattle.schedule_hunt.specs.Shown.{IsReady};
ghost use Rattle.std.specs.List.{All, filter, flat_map};
ghost use Rattle.std.specs.Prelude.{◌≡◌, ◌++◌, ◌==◌, IfOk, OnOk, not};

use crate::remark::words_of;
use crate::what::Goal;
use da_core::Compiled;
use da_lang::Event;
use da_values::{Buf, List, NoMemory, write_number};
use sched_text::{SCHEDULE_LIMIT, write_event};
use schedule_walk::all_named;
use std::alloc::Global;

/// The lines of events that show this, and the remark that says how. Where they would be too long, the remark is empty; `None`
/// where they would be no schedule even so.
pub(crate) fn found_text(
    alloc: Global,
    compiled: &Compiled,
    events: &[Event],
    what: &Goal<'_>,
) -> Result<Option<Buf>, NoMemory>
    requires compiled { IsCompiled compiled.now }
    requires goal { IsReady (program_of compiled.now) what.now }
    ensures { IfOk result (IsTold events.now) }
{
    if !all_named(events) {
        return Ok(None);
    }
    let words = words_of(alloc, compiled, events, what)?;
    let text = with_words(alloc, events, words.as_slice())?;
    if text.len() <= SCHEDULE_LIMIT {
        return Ok(Some(text));
    }
    bare_text(alloc, events)
}

// The lines of events and an empty remark, if they are a schedule.
fn bare_text(alloc: Global, events: &[Event]) -> Result<Option<Buf>, NoMemory>
    requires { All HasNames events.now }
    ensures { IfOk result (IsTold events.now) }
{
    let text = with_words(alloc, events, &[])?;
    if text.len() > SCHEDULE_LIMIT {
        return Ok(None);
    }
    Ok(Some(text))
}

// The lines of events and a remark.
fn with_words(alloc: Global, events: &[Event], words: &[u8]) -> Result<Buf, NoMemory>
    ensures { IfOk result (λ text. text ≡ found_def events.now words.now) }
{
    let mut text = List::new(alloc);
    put_events(events, &mut text)?;
    put_remark(words, &mut text)?;
    Ok(text)
}

// Appends the lines of some events.
fn put_events(events: &[Event], out: &mut Buf) -> Result<(), NoMemory>
    ensures { OnOk result (out.new ≡ out.old ++ flat_map event_line events.now) }
{
    for event in events {
        write_event(event, out)?;
    }
    Ok(())
}

// Appends a remark in one line; ends of lines in it are left out.
fn put_remark(words: &[u8], out: &mut Buf) -> Result<(), NoMemory>
    ensures { OnOk result (out.new ≡ out.old ++ remark_line words.now) }
{
    out.append(b"# ")?;
    put_in_line(words, out)?;
    out.append(b"\n")
}

// Appends bytes without the ends of lines among them.
fn put_in_line(words: &[u8], out: &mut Buf) -> Result<(), NoMemory>
    ensures { OnOk result (out.new ≡ out.old ++ filter (λ byte. not (byte == 10)) words.now) }
{
    for byte in words {
        if *byte != b'\n' {
            out.push(*byte)?;
        }
    }
    Ok(())
}

/// The line that says that none of so many shows it.
pub(crate) fn none_text(alloc: Global, count: u64) -> Result<Buf, NoMemory>
    ensures { IfOk result (λ text. text ≡ none_line count) }
{
    let mut text = List::new(alloc);
    text.append(b"none ")?;
    write_number(count, &mut text)?;
    text.append(b"\n")?;
    Ok(text)
}
