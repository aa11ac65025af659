//! Hunts in several processes. Each job is this same program, with the words of the hunt over a part of its numbers.
//!
//! The numbers go in parts to as many jobs at a time as are asked for. The first part, by its numbers, of which a job has an answer is
//! hunted through once more by this process, so what is written is the answer of that part. No part before it has one, so it is that
//! of all the numbers, whatever the number of jobs. Where a job cannot be carried out, this process hunts alone.
use da_outside::{Child, Spawner, Trouble};
use da_values::{List, NoMemory};
use itoa::Buffer;
use schedule_hunt::Trials;
use std::alloc::Global;

/// So many numbers are in a part, at most.
const PART: u64 = 500;

/// Some of the numbers of a hunt.
#[derive(Clone, Copy)]
pub struct Part {
    pub start: u64,
    pub count: u64,
}

/// The job of a part, if it was started.
#[derive(Drop)]
struct Job {
    part: Part,
    child: Option<Child>,
}

/// How the search for a part ended.
#[derive(Clone, Copy)]
pub enum Parted {
    /// This part has an answer.
    Part(Part),
    /// No part has.
    None,
    /// A job was not carried out.
    Failed,
    /// Memory was refused.
    Memory,
}

/// How a job ended.
#[derive(Clone, Copy)]
enum Found {
    Answer,
    Nothing,
    Failed,
}

/// The exit statuses of a hunt that found a schedule, and of one whose schedule has no text.
const ANSWERS: [u8; 2] = [10, 16];

/// The first part of the numbers of a hunt that has an answer, by so many jobs at a time. The words are those of the hunt.
pub fn first_part<S: Spawner>(
    alloc: Global,
    words: &[String],
    trials: &Trials,
    jobs: u8,
    children: &mut S,
) -> Parted {
    let mut taken = 0u64;
    for _round in 0..trials.count {
        if taken >= trials.count {
            return Parted::None;
        }
        match round(alloc, words, trials, taken, jobs, children) {
            Ok(Parted::None) => {
                taken = taken.saturating_add(PART.saturating_mul(u64::from(jobs)));
            }
            Ok(ended) => return ended,
            Err(_) => return Parted::Memory,
        }
    }
    Parted::None
}

// Starts a job for each of the next parts, waits for them, and answers how the first ended that found something or failed.
fn round<S: Spawner>(
    alloc: Global,
    words: &[String],
    trials: &Trials,
    taken: u64,
    jobs: u8,
    children: &mut S,
) -> Result<Parted, NoMemory> {
    let mut started = List::new(alloc);
    for job in 0..jobs {
        let offset = taken.saturating_add(PART.saturating_mul(u64::from(job)));
        if let Some(part) = part_at(trials, offset) {
            let child = start(alloc, words, part, children)?;
            started.push(Job { part, child })?;
        }
    }
    let mut ended = Parted::None;
    started.reverse();
    'jobs: while let Some(job) = started.pop() {
        let part = job.part;
        let found = match job.child {
            Some(child) => found_by(alloc, child, children)?,
            None => Found::Failed,
        };
        if matches!(ended, Parted::None) {
            ended = match found {
                Found::Answer => Parted::Part(part),
                Found::Nothing => Parted::None,
                Found::Failed => Parted::Failed,
            };
        }
    }
    Ok(ended)
}

// The part behind so many numbers, if any are left.
fn part_at(trials: &Trials, offset: u64) -> Option<Part> {
    let left = trials.count.checked_sub(offset)?;
    if left == 0 {
        return None;
    }
    Some(Part {
        start: trials.start.saturating_add(offset),
        count: left.min(PART),
    })
}

// Starts the job of a part; `None` where that failed.
fn start<S: Spawner>(
    alloc: Global,
    words: &[String],
    part: Part,
    children: &mut S,
) -> Result<Option<Child>, NoMemory> {
    let words = words_of_part(alloc, words, part, true)?;
    match children.start(words.as_slice()) {
        Ok(child) => Ok(Some(child)),
        Err(Trouble::Failed) => Ok(None),
        Err(Trouble::Memory) => Err(NoMemory),
    }
}

// Waits for a job, and says what it found.
fn found_by<S: Spawner>(alloc: Global, child: Child, children: &mut S) -> Result<Found, NoMemory> {
    let mut written = List::new(alloc);
    match children.finish(child, &mut written) {
        Ok(0) => Ok(Found::Nothing),
        Ok(status) => Ok(if is_answer(status) {
            Found::Answer
        } else {
            Found::Failed
        }),
        Err(Trouble::Failed) => Ok(Found::Failed),
        Err(Trouble::Memory) => Err(NoMemory),
    }
}

// Whether a hunt that ended with this status found a schedule.
fn is_answer(status: u8) -> bool {
    for answer in &ANSWERS {
        if *answer == status {
            return true;
        }
    }
    false
}

/// The words of a hunt over a part of its numbers, without its jobs, and where that is wanted so that it tells nothing.
pub fn words_of_part(
    alloc: Global,
    words: &[String],
    part: Part,
    quiet: bool,
) -> Result<List<String>, NoMemory> {
    let mut out = List::new(alloc);
    let mut skipped = 0u8;
    let mut is_quiet = false;
    for (place, word) in words.iter().enumerate() {
        if skipped > 0 {
            skipped = skipped.saturating_sub(1);
        } else if place > 5 && is_jobs(words, place) {
            skipped = 1;
        } else if place == 2 {
            out.push(number_word(alloc, part.start)?)?;
        } else if place == 3 {
            out.push(number_word(alloc, part.count)?)?;
        } else {
            is_quiet = is_quiet || (place > 5 && word.as_str() == "--quiet");
            out.push(word_of(alloc, word.as_str())?)?;
        }
    }
    if quiet && !is_quiet {
        out.push(word_of(alloc, "--quiet")?)?;
    }
    Ok(out)
}

// Whether the option `jobs` stands at a place behind WHAT. The name of a watch may be `jobs` as well.
fn is_jobs(words: &[String], place: usize) -> bool {
    let Some(word) = words.get(place) else {
        return false;
    };
    if word.as_str() != "jobs" {
        return false;
    }
    match words.get(5) {
        Some(what) => place > 6 || what.as_str() != "watch",
        None => false,
    }
}

fn word_of(alloc: Global, word: &str) -> Result<String, NoMemory> {
    match String::from_str(alloc, word) {
        Ok(copy) => Ok(copy),
        Err(_) => Err(NoMemory),
    }
}

fn number_word(alloc: Global, number: u64) -> Result<String, NoMemory> {
    word_of(alloc, Buffer::new().format(number))
}
