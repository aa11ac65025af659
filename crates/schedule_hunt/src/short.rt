//! How a schedule that shows something is made short.
ghost use Rattle.da_core.specs.Compiled.{IsCompiled, program_of};
ghost use Rattle.schedule_hunt.specs.Hunt.{IsPart, IsShort, IsShownBy};
ghost use Rattle.schedule_hunt.specs.Shown.{IsReady};
ghost use Rattle.schedule_hunt.specs.Shortening.{HasShortened, HasTried, IsShownPart, without_some};
ghost use Rattle.std.specs.Prelude.{◌≡◌, ◌++◌, ◌<◌, ◌≤◌, drop, length, IfOk, OnOk};

use crate::runs::is_shown;
use crate::what::Goal;
use da_core::Compiled;
use da_lang::Event;
use da_values::{List, NoMemory};
use std::alloc::Global;

/// Leaves out events of a schedule that shows this, until none can be left out alone so that what is left is allowed and
/// shows it. It first tries to leave out many at once.
pub(crate) fn shorten(
    alloc: Global,
    compiled: &Compiled,
    events: &mut List<Event>,
    what: &Goal<'_>,
) -> Result<(), NoMemory>
    requires compiled { IsCompiled compiled.now }
    requires goal { IsReady (program_of compiled.now) what.now }
    requires shown { IsShownBy (program_of compiled.now) what.now events.old }
    ensures short { OnOk result (IsShort (program_of compiled.now) what.now events.new) }
    ensures part { OnOk result (IsPart events.new events.old) }
{
    leave_out_many(alloc, compiled, events, what)?;
    let mut some = true;
    'passes: while some {
        some = leave_out_single(alloc, compiled, events, what)?;
    }
    Ok(())
}

// Tries to leave out half of the events together, then a quarter, and so on.
fn leave_out_many(
    alloc: Global,
    compiled: &Compiled,
    events: &mut List<Event>,
    what: &Goal<'_>,
) -> Result<(), NoMemory>
    requires compiled { IsCompiled compiled.now }
    requires goal { IsReady (program_of compiled.now) what.now }
    requires shown { IsShownBy (program_of compiled.now) what.now events.old }
    ensures { OnOk result (IsShownPart (program_of compiled.now) what.now events.new events.old) }
{
    let mut size = events.len() / 2;
    'sizes: while size > 1 {
        leave_out_runs(alloc, compiled, events, size, what)?;
        size /= 2;
    }
    Ok(())
}

// Tries to leave out so many events together, at each place from the last to the first that is this far from the next.
fn leave_out_runs(
    alloc: Global,
    compiled: &Compiled,
    events: &mut List<Event>,
    size: usize,
    what: &Goal<'_>,
) -> Result<(), NoMemory>
    requires compiled { IsCompiled compiled.now }
    requires goal { IsReady (program_of compiled.now) what.now }
    requires some { 0 < size }
    requires shown { IsShownBy (program_of compiled.now) what.now events.old }
    ensures { OnOk result (IsShownPart (program_of compiled.now) what.now events.new events.old) }
{
    let mut place = events.len();
    'places: while place > 0 {
        place = place.saturating_sub(size);
        try_without(alloc, compiled, events, place, size, what)?;
    }
    Ok(())
}

// Tries to leave out each event alone, from the last to the first, and says whether some could be left out.
fn leave_out_single(
    alloc: Global,
    compiled: &Compiled,
    events: &mut List<Event>,
    what: &Goal<'_>,
) -> Result<bool, NoMemory>
    requires compiled { IsCompiled compiled.now }
    requires goal { IsReady (program_of compiled.now) what.now }
    requires shown { IsShownBy (program_of compiled.now) what.now events.old }
    ensures part { OnOk result (IsShownPart (program_of compiled.now) what.now events.new events.old) }
    ensures shortened { IfOk result (λ some.
        HasShortened (program_of compiled.now) what.now some events.old events.new) }
{
    let mut some = false;
    let mut place = events.len();
    'places: while place > 0 {
        place -= 1;
        if try_without(alloc, compiled, events, place, 1, what)? {
            some = true;
        }
    }
    Ok(some)
}

// Leaves out so many events at a place where what is left is allowed and shows this, and says whether it did.
fn try_without(
    alloc: Global,
    compiled: &Compiled,
    events: &mut List<Event>,
    place: usize,
    size: usize,
    what: &Goal<'_>,
) -> Result<bool, NoMemory>
    requires compiled { IsCompiled compiled.now }
    requires goal { IsReady (program_of compiled.now) what.now }
    requires inside { place ≤ length events.old }
    ensures { IfOk result (λ left_out. HasTried (program_of compiled.now) what.now left_out
        (without_some events.old place size) events.old events.new) }
{
    let fewer = without(alloc, events.as_slice(), place, size)?;
    let shown = is_shown(alloc, compiled, fewer.as_slice(), what)?;
    if shown {
        *events = fewer;
    }
    Ok(shown)
}

// The events without so many at a place.
fn without(
    alloc: Global,
    events: &[Event],
    place: usize,
    size: usize,
) -> Result<List<Event>, NoMemory>
    requires { place ≤ length events.now }
    ensures { IfOk result (λ fewer. fewer ≡ without_some events.now place size) }
{
    let (front, back) = events.split_at(place);
    let mut fewer = List::new(alloc);
    put_all(front, &mut fewer)?;
    put_all(behind(back, size), &mut fewer)?;
    Ok(fewer)
}

// The events after so many; none where there are fewer.
fn behind(events: &[Event], size: usize) -> &[Event]
    ensures { result.now ≡ drop size events.now }
{
    if size < events.len() {
        &events[size..]
    } else {
        &[]
    }
}

// Appends some events.
fn put_all(events: &[Event], out: &mut List<Event>) -> Result<(), NoMemory>
    ensures { OnOk result (out.new ≡ out.old ++ events.now) }
{
    for event in events {
        out.push(*event)?;
    }
    Ok(())
}
