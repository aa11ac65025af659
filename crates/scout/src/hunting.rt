//! Hunts, alone or by jobs, and what is told of them.
use crate::covered::tell_cover;
use crate::jobs::{Part, Parted, first_part, words_of_part};
use crate::progress::Line;
use call_hints::text_again;
use da_commands::LAST_START;
use da_front::PROGRAM_LIMIT;
use da_outside::{RealFiles, RealSink, RealSpawner, Trouble, write_all};
use da_values::{Buf, List, NoMemory, write_number};
use hunt_cover::{Cover, Tried};
use schedule_hunt::Trials;
use scout_commands::{Command, Options, Search, Status, command_of, scout};
use std::alloc::Global;
use std::io::Eprint;
use std::process::Processes;
use std::rt;
use std::rt::Clock;
use std::time::Instant;

/// A hunt that words ask for: which schedules are tried, and the options.
#[derive(Clone, Copy)]
pub struct Hunt {
    pub trials: Trials,
    pub options: Options,
}

/// The hunt that these words ask for, or `None` where they ask for something else.
pub fn hunt_of<R: AllocGlobal>(rt: &R, words: &[String]) -> Option<Hunt> {
    let Ok(command) = command_of(rt.alloc(), words) else {
        return None;
    };
    match &command {
        Command::Search { search, .. } => hunt_in(search),
        _ => None,
    }
}

fn hunt_in(search: &Search<'_>) -> Option<Hunt> {
    match search {
        Search::Hunt {
            trials,
            options,
            ..
        } => Some(Hunt {
            trials: *trials,
            options: *options,
        }),
        Search::Walk { .. } => None,
    }
}

/// Does what the words ask for. How far a hunt is, is told on a terminal, and at the end how it went.
pub fn answer<R: rt::Files + AllocGlobal + Eprint + Print + Processes + Clock>(
    rt: &R,
    words: &[String],
    terminal: bool,
) -> Status {
    match hunt_of(rt, words) {
        Some(hunt) => answer_hunt(rt, words, &hunt, terminal),
        None => call(rt, words, &mut Line::new(rt, false)),
    }
}

// Hunts, alone or by jobs. What was reached is told of a hunt alone.
fn answer_hunt<R: rt::Files + AllocGlobal + Eprint + Print + Processes + Clock>(
    rt: &R,
    words: &[String],
    hunt: &Hunt,
    terminal: bool,
) -> Status {
    let jobs = hunt.options.jobs.unwrap_or(1);
    if jobs < 2 || hunt.options.coverage || !has_words(&hunt.trials) {
        return hunt_alone(rt, words, hunt, terminal, 0);
    }
    let mut children = RealSpawner::new(rt, None);
    let found = first_part(rt.alloc(), words, &hunt.trials, jobs, &mut children);
    children.end();
    match found {
        Parted::Memory => Status::Memory,
        Parted::None => write_none(rt, hunt),
        Parted::Failed => hunt_alone(rt, words, hunt, terminal, 0),
        Parted::Part(part) => hunt_part(rt, words, hunt, terminal, part),
    }
}

// Whether each part of the numbers of a hunt begins with one that a call can name.
fn has_words(trials: &Trials) -> bool {
    trials.start.saturating_add(trials.count) <= LAST_START
}

// Hunts in this process through a part of the numbers.
fn hunt_part<R: rt::Files + AllocGlobal + Eprint + Print + Clock>(
    rt: &R,
    words: &[String],
    hunt: &Hunt,
    terminal: bool,
    part: Part,
) -> Status {
    let before = part.start.saturating_sub(hunt.trials.start);
    match words_of_part(rt.alloc(), words, part, false) {
        Ok(words) => hunt_alone(rt, words.as_slice(), hunt, terminal, before),
        Err(_) => Status::Memory,
    }
}

// Hunts in this process, where so many schedules were tried before.
fn hunt_alone<R: rt::Files + AllocGlobal + Eprint + Print + Clock>(
    rt: &R,
    words: &[String],
    hunt: &Hunt,
    terminal: bool,
    before: u64,
) -> Status {
    let told = !hunt.options.quiet;
    let mut line = Line::new(rt, told && terminal);
    if hunt.options.coverage {
        line.cover(cover_of(rt, words));
    }
    if told && watch_of(words).is_some() {
        line.keep(Tried::new(rt.alloc()));
    }
    let begun = Instant::now(rt).ok();
    let status = call(rt, words, &mut line);
    line.end();
    line.settle();
    if told {
        line.sum_up(hunt.trials.most, before);
        tell_deaf(rt, words, &line);
    }
    if told && terminal {
        tell_speed(rt, line.tries(), begun);
    }
    if let Some(program) = words.get(1) {
        if hunt.options.coverage && line.tries() > 0 {
            let told = tell_cover(rt, program.as_str(), line.covered());
            drop(told);
        }
    }
    status
}

// The name of the watch of a hunt.
fn watch_of(words: &[String]) -> Option<&str> {
    let what = words.get(5)?;
    let watch = words.get(6)?;
    if what.as_str() == "watch" {
        Some(watch.as_str())
    } else {
        None
    }
}

// Says so where the watch was handed nothing.
fn tell_deaf<R: rt::Files + AllocGlobal + Eprint>(rt: &R, words: &[String], line: &Line<'_, R>) {
    if is_deaf(rt, words, line).unwrap_or(false) {
        let _ = eprintln!(rt;
            "dalgo: the watch was handed nothing: what is put out is no message of it"
        );
    }
}

// Whether the watch was handed nothing.
fn is_deaf<R: rt::Files + AllocGlobal + Eprint>(
    rt: &R,
    words: &[String],
    line: &Line<'_, R>,
) -> Option<bool> {
    let watch = text_again(rt, watch_of(words)?, PROGRAM_LIMIT)?;
    let program = text_again(rt, words.get(1)?.as_str(), PROGRAM_LIMIT)?;
    Some(line.hands_nothing(program.as_slice(), watch.as_slice()))
}

// Tells how many schedules were tried in a second.
fn tell_speed<R: Eprint + Clock>(rt: &R, tries: u64, begun: Option<Instant>) {
    let Some(begun) = begun else {
        return;
    };
    let Ok(gone) = begun.elapsed(rt) else {
        return;
    };
    let millis = gone.as_millis();
    if millis == 0 {
        return;
    }
    let rate = u128::from(tries).saturating_mul(1_000) / millis;
    let _ = eprintln!(rt; "dalgo: {rate} tries a second");
}

// What may be reached in the program of a hunt.
fn cover_of<R: rt::Files + AllocGlobal>(rt: &R, words: &[String]) -> Option<Cover> {
    let program = words.get(1)?;
    let text = text_again(rt, program.as_str(), PROGRAM_LIMIT)?;
    Cover::new(rt.alloc(), text.as_slice())
}

// Makes the call.
fn call<R: rt::Files + AllocGlobal + Eprint + Print>(
    rt: &R,
    words: &[String],
    line: &mut Line<'_, R>,
) -> Status {
    let mut files = RealFiles::new(rt);
    let mut out = RealSink::new(rt);
    scout(rt.alloc(), words, &mut files, &mut out, line)
}

// Writes that none of the schedules of a hunt by jobs shows anything.
fn write_none<R: AllocGlobal + Eprint + Print>(rt: &R, hunt: &Hunt) -> Status {
    let count = hunt.trials.count;
    let Ok(text) = none_line(rt.alloc(), count) else {
        return Status::Memory;
    };
    let mut out = RealSink::new(rt);
    let status = match write_all(&mut out, text.as_slice()) {
        Ok(()) => Status::Done,
        Err(Trouble::Failed) => Status::WriteFault,
        Err(Trouble::Memory) => Status::Memory,
    };
    if !hunt.options.quiet {
        let _ = eprintln!(rt; "dalgo: {count} tries");
    }
    status
}

fn none_line(alloc: Global, count: u64) -> Result<Buf, NoMemory> {
    let mut text = List::new(alloc);
    text.append(b"none ")?;
    write_number(count, &mut text)?;
    text.append(b"\n")?;
    Ok(text)
}
