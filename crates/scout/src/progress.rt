//! What a hunt tells on standard error: a line on a terminal that says how far it is, and at the end how it went.
use hunt_cover::{Cover, Spot, Tried};
use schedule_hunt::{Attempt, End, Progress};
use std::io;
use std::io::Eprint;

/// So many schedules are tried between two lines.
const STEP: u64 = 1_000;

/// The schedule that was found.
#[derive(Clone, Copy)]
struct Found {
    number: u64,
    whole: usize,
    short: Option<usize>,
}

/// How a hunt goes, and the line, which is written over while it changes.
#[derive(Drop)]
pub struct Line<'a, R> {
    rt: &'a R,
    watched: bool,
    begun: bool,
    tries: u64,
    ended: u64,
    cut: u64,
    stuck: u64,
    found: Option<Found>,
    cover: Option<Cover>,
    kept: Option<Tried>,
}

impl<'a, R: Eprint> Line<'a, R> {
    /// No line, which stays so unless somebody watches.
    pub fn new(rt: &'a R, watched: bool) -> Line<'a, R> {
        Line {
            rt,
            watched,
            begun: false,
            tries: 0,
            ended: 0,
            cut: 0,
            stuck: 0,
            found: None,
            cover: None,
            kept: None,
        }
    }

    /// From here on it is counted what is reached.
    pub fn cover(&mut self, cover: Option<Cover>) {
        self.cover = cover;
    }

    /// From here on the first schedules are kept.
    pub fn keep(&mut self, kept: Tried) {
        self.kept = Some(kept);
    }

    /// Whether nothing was found, and the program of the first text has handed nothing to the watch of the second text.
    pub fn hands_nothing(&self, program: &[u8], watch: &[u8]) -> bool {
        match &self.kept {
            Some(kept) => self.found.is_none() && kept.hand_nothing(program, watch),
            None => false,
        }
    }

    /// Counts what was reached, where that is wanted.
    pub fn settle(&mut self) {
        if let Some(cover) = &mut self.cover {
            cover.settle();
        }
    }

    /// How often each place was reached, where that was counted.
    pub fn covered(&self) -> Option<&[Spot]> {
        match &self.cover {
            Some(cover) => Some(cover.spots()),
            None => None,
        }
    }

    /// How many schedules were tried.
    pub fn tries(&self) -> u64 {
        self.tries
    }

    /// The line ends, where it has begun.
    pub fn end(&mut self) {
        if self.begun {
            let _ = eprintln!(self.rt);
            self.begun = false;
        }
    }

    /// Tells how the hunt went, whose schedules had at most so many events, after so many others that were tried elsewhere. Nothing
    /// is told where nothing was tried.
    pub fn sum_up(&self, most: u64, before: u64) {
        if self.tries > 0 {
            let told = self.tell(most, before);
            drop(told);
        }
    }

    fn tell(&self, most: u64, before: u64) -> io::Result<()> {
        if let Some(found) = &self.found {
            self.tell_found(found)?;
        }
        let tries = self.tries.saturating_add(before);
        if before > 0 {
            return eprintln!(self.rt; "dalgo: {tries} tries");
        }
        let ended = self.ended;
        let cut = self.cut;
        let stuck = self.stuck;
        let word = if tries == 1 { "try" } else { "tries" };
        eprintln!(self.rt;
            "dalgo: {tries} {word}: {ended} ended, {cut} cut at {most} events, {stuck} stuck"
        )
    }

    fn tell_found(&self, found: &Found) -> io::Result<()> {
        let number = found.number;
        let whole = found.whole;
        match found.short {
            Some(short) => {
                eprintln!(self.rt;
                    "dalgo: number {number} shows it in {whole} events, of which {short} are needed"
                )
            }
            None => eprintln!(self.rt; "dalgo: number {number} shows it in {whole} events"),
        }
    }
}

impl<R: Eprint> Progress for Line<'_, R> {
    fn tell_attempt(&mut self, attempt: &Attempt<'_>) {
        self.tries = self.tries.saturating_add(1);
        match attempt.end {
            End::Ended => self.ended = self.ended.saturating_add(1),
            End::Cut => self.cut = self.cut.saturating_add(1),
            End::Stuck => self.stuck = self.stuck.saturating_add(1),
        }
        if let Some(cover) = &mut self.cover {
            cover.count(attempt.events);
        }
        if let Some(kept) = &mut self.kept {
            kept.keep(attempt.events);
        }
        if attempt.shown {
            self.found = Some(Found {
                number: attempt.number,
                whole: attempt.events.len(),
                short: None,
            });
        }
    }

    fn tell_tries(&mut self, count: u64) {
        if self.watched && count % STEP == 0 {
            let _ = eprint!(self.rt; "\rscout: {count} schedules are tried");
            self.begun = true;
        }
    }

    fn tell_short(&mut self, count: usize) {
        if let Some(found) = &mut self.found {
            found.short = Some(count);
        }
    }
}
