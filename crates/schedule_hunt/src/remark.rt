//! What a remark says: what is shown by which actions. No contract speaks of the words.
ghost use Rattle.da_core.specs.Compiled.{IsCompiled, program_of};
ghost use Rattle.run_watch.specs.Beside.{IsThere};
ghost use Rattle.schedule_hunt.specs.Shown.{IsReady};
ghost use Rattle.std.specs.Prelude.{◌<◌, OnOk, length};

use crate::runs::{begin, execute};
use crate::shown::{has_ended, sayer};
use crate::what::{Goal, What};
use da_core::Compiled;
use da_lang::{Action, Event};
use da_values::{Buf, List, NoMemory, Value, write_number};
use run_watch::{Watcher, is_said, says_any};
use sched_text::write_action;
use std::alloc::Global;

/// The actions of a run, and how many there were after each event.
#[derive(Drop)]
struct Told {
    actions: List<Action>,
    behind: List<usize>,
}

/// The places of two actions.
#[derive(Clone, Copy)]
struct Pair {
    first: usize,
    second: usize,
}

/// What the remark after these events says, which show this.
pub(crate) fn words_of(
    alloc: Global,
    compiled: &Compiled,
    events: &[Event],
    what: &Goal<'_>,
) -> Result<Buf, NoMemory>
    requires compiled { IsCompiled compiled.now }
    requires goal { IsReady (program_of compiled.now) what.now }
{
    let told = tell(alloc, compiled, events)?;
    match what {
        Goal::Shown(what) => words_of_run(alloc, compiled, *what, &told),
        Goal::Watched(watch) => words_of_watch(alloc, *watch, &told),
    }
}

// By which actions a run shows something.
fn words_of_run(
    alloc: Global,
    compiled: &Compiled,
    what: &What,
    told: &Told,
) -> Result<Buf, NoMemory> {
    let mut out = List::new(alloc);
    match what {
        What::Fault => put_fault(alloc, told, &mut out)?,
        What::Stuck => put_stuck(compiled.program().procs.len(), told, &mut out)?,
        What::Overlap { enter, leave } => put_overlap(alloc, enter, leave, told, &mut out)?,
        What::Differ => put_differ(alloc, told, &mut out)?,
        What::More(_) => put_more(alloc, told, &mut out)?,
    }
    Ok(out)
}

// What a watch says first, and after which event, or at the end.
fn words_of_watch(alloc: Global, watch: &Compiled, told: &Told) -> Result<Buf, NoMemory>
    requires compiled { IsCompiled watch.now }
    requires some { 0 < length (program_of watch.now).procs }
{
    let mut said = List::new(alloc);
    let mut watcher = Watcher::begin(alloc, watch, &mut said)?;
    let place = first_complaint(&mut watcher, told.actions.as_slice(), &mut said)?;
    if place.is_none() {
        watcher.hear_quiet(&mut said)?;
    }
    complaint(alloc, told, place, said.as_slice())
}

// The words of the first action by which a watch says something, and after which event, or at the end.
fn complaint(
    alloc: Global,
    told: &Told,
    place: Option<usize>,
    said: &[Action],
) -> Result<Buf, NoMemory> {
    let mut out = List::new(alloc);
    out.append(b"watch: ")?;
    put_complaint(alloc, said, &mut out)?;
    match place {
        Some(place) => put_event(told, place, &mut out)?,
        None => out.append(b" (at the end)")?,
    }
    Ok(out)
}

// Hands a watch one action after the other until it has said something, and answers the place of that action.
fn first_complaint(
    watcher: &mut Watcher<'_>,
    actions: &[Action],
    said: &mut List<Action>,
) -> Result<Option<usize>, NoMemory>
    requires { IsThere watcher.old }
    ensures { OnOk result (IsThere watcher.new) }
{
    if says_any(said.as_slice()) {
        return Ok(Some(0));
    }
    for place in 0..actions.len() {
        hand(watcher, &actions[place..place + 1], said)?;
        if says_any(said.as_slice()) {
            return Ok(Some(place));
        }
    }
    Ok(None)
}

// Hands a watch some actions.
fn hand(
    watcher: &mut Watcher<'_>,
    actions: &[Action],
    said: &mut List<Action>,
) -> Result<(), NoMemory>
    requires { IsThere watcher.old }
    ensures { OnOk result (IsThere watcher.new) }
{
    watcher.hear(actions, said)?;
    Ok(())
}

// Appends the words of the first action by which a watch says something.
fn put_complaint(alloc: Global, actions: &[Action], out: &mut Buf) -> Result<(), NoMemory> {
    for action in actions {
        if is_said(action) {
            return put_words(alloc, action, out);
        }
    }
    Ok(())
}

// Runs the events, and keeps how many actions there were after each.
fn tell(alloc: Global, compiled: &Compiled, events: &[Event]) -> Result<Told, NoMemory>
    requires { IsCompiled compiled.now }
{
    let mut behind = List::new(alloc);
    let mut run = begin(alloc, compiled)?;
    for event in events {
        let _allowed = execute(&mut run, event)?;
        behind.push(run.actions.len())?;
    }
    Ok(Told {
        actions: run.actions,
        behind,
    })
}

fn put_fault(alloc: Global, told: &Told, out: &mut Buf) -> Result<(), NoMemory> {
    out.append(b"fault: ")?;
    let found = told
        .actions
        .as_slice()
        .iter()
        .position(|action| matches!(action, Action::Fault { .. }));
    match found {
        Some(place) => put_action(alloc, told, place, out),
        None => Ok(()),
    }
}

fn put_stuck(count: usize, told: &Told, out: &mut Buf) -> Result<(), NoMemory> {
    out.append(b"stuck: no move, timeout or delivery is allowed, and these have not ended:")?;
    for place in 0..count {
        if !has_ended(place + 1, told.actions.as_slice()) {
            put_process(place + 1, out)?;
        }
    }
    Ok(())
}

// Appends the number of a process after a space.
fn put_process(process: usize, out: &mut Buf) -> Result<(), NoMemory> {
    out.append(b" ")?;
    write_number(process, out)
}

fn put_overlap(
    alloc: Global,
    enter: &Value,
    leave: &Value,
    told: &Told,
    out: &mut Buf,
) -> Result<(), NoMemory> {
    out.append(b"overlap: ")?;
    match meeting(enter, leave, told.actions.as_slice()) {
        Some(pair) => put_pair(alloc, told, &pair, b", and before it has left: ", out),
        None => Ok(()),
    }
}

// The entry of a process, and that of another one before it leaves.
fn meeting(enter: &Value, leave: &Value, actions: &[Action]) -> Option<Pair> {
    for (first, action) in actions.iter().enumerate() {
        if let Some(process) = sayer(enter, action) {
            if let Some(second) = next_entry(enter, leave, process, actions, first) {
                return Some(Pair { first, second });
            }
        }
    }
    None
}

// The place after this one where another process enters before process `q` leaves.
fn next_entry(
    enter: &Value,
    leave: &Value,
    q: u16,
    actions: &[Action],
    behind: usize,
) -> Option<usize> {
    for (place, action) in actions.iter().enumerate() {
        if place > behind {
            if let Some(process) = sayer(enter, action) {
                if process != q {
                    return Some(place);
                }
            }
            if sayer(leave, action) == Some(q) {
                return None;
            }
        }
    }
    None
}

fn put_differ(alloc: Global, told: &Told, out: &mut Buf) -> Result<(), NoMemory> {
    out.append(b"differ: ")?;
    match difference(told.actions.as_slice()) {
        Some(pair) => put_pair(alloc, told, &pair, b" and ", out),
        None => Ok(()),
    }
}

// The first output, and the first that is not equal to it.
fn difference(actions: &[Action]) -> Option<Pair> {
    let first = actions
        .iter()
        .position(|action| matches!(action, Action::Out { .. }))?;
    let value = output(actions.get(first)?)?;
    for (second, action) in actions.iter().enumerate() {
        if let Some(other) = output(action) {
            if other != value {
                return Some(Pair { first, second });
            }
        }
    }
    None
}

// The value that an action puts out.
fn output(action: &Action) -> Option<&Value> {
    match action {
        Action::Out { v, .. } => Some(v),
        _ => None,
    }
}

fn put_more(alloc: Global, told: &Told, out: &mut Buf) -> Result<(), NoMemory> {
    let mut count = 0usize;
    let mut last = 0;
    for (place, action) in told.actions.as_slice().iter().enumerate() {
        if output(action).is_some() {
            count = count.saturating_add(1);
            last = place;
        }
    }
    out.append(b"more: output ")?;
    write_number(count, out)?;
    out.append(b" is ")?;
    put_action(alloc, told, last, out)
}

// Appends two actions with some words between.
fn put_pair(
    alloc: Global,
    told: &Told,
    pair: &Pair,
    between: &[u8],
    out: &mut Buf,
) -> Result<(), NoMemory> {
    put_action(alloc, told, pair.first, out)?;
    out.append(between)?;
    put_action(alloc, told, pair.second, out)
}

// Appends the words of the action at a place, and the number of its event.
fn put_action(alloc: Global, told: &Told, place: usize, out: &mut Buf) -> Result<(), NoMemory> {
    let Some(action) = told.actions.get(place) else {
        return Ok(());
    };
    put_words(alloc, action, out)?;
    put_event(told, place, out)
}

// Appends the words of an action.
fn put_words(alloc: Global, action: &Action, out: &mut Buf) -> Result<(), NoMemory> {
    let mut line = List::new(alloc);
    write_action(action, &mut line)?;
    let _end = line.pop();
    out.append(line.as_slice())
}

// Appends the number of the event of the action at a place.
fn put_event(told: &Told, place: usize, out: &mut Buf) -> Result<(), NoMemory> {
    out.append(b" (event ")?;
    write_number(event_of(told.behind.as_slice(), place), out)?;
    out.append(b")")
}

// The number of the event, counted from 1, that made the action at a place.
fn event_of(behind: &[usize], place: usize) -> usize {
    let mut before = 0usize;
    for count in behind {
        if *count <= place {
            before = before.saturating_add(1);
        }
    }
    before.saturating_add(1)
}
