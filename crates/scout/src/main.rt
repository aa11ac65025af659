//! Finds schedules of DistAlgo programs and draws their runs: generated schedules, the events that are allowed, schedules that
//! show something, runs beside watches, and pages of traces and of runs. It tells what is remarkable in a program besides.
#![tactic(auto)]

mod covered;
mod hunting;
mod jobs;
mod linting;
mod progress;
mod report;

use da_commands::{NoWords, exit_code, words_of_call};
use da_outside::RealSink;
use hunting::{answer, hunt_of};
use linting::{lint, lint_of, warn};
use report::report;
use scout_commands::Status;
use std::io::IsTerminal;
use std::process::ExitCode;

fn main(rt: HostRuntime) -> ExitCode {
    let words = words_of_call(&rt);
    if matches!(words, Err(NoWords::Memory)) {
        report(&rt, &[], Status::Memory);
    }
    if let Ok(words) = &words {
        if let Some(program) = lint_of(words.as_slice()) {
            let mut out = RealSink::new(&rt);
            return ExitCode::from(lint(&rt, program, &mut out));
        }
        if let Some(program) = warned_of(&rt, words.as_slice()) {
            warn(&rt, program, words.as_slice());
        }
    }
    let terminal = rt.stderr().is_terminal();
    exit_code(words, |words| {
        let status = answer(&rt, words.as_slice(), terminal);
        report(&rt, words.as_slice(), status);
        status
    })
}

// The program of a hunt that these words ask for, unless it is to be quiet.
fn warned_of<'w, R: AllocGlobal>(rt: &R, words: &'w [String]) -> Option<&'w str> {
    let hunt = hunt_of(rt, words)?;
    if hunt.options.quiet {
        return None;
    }
    let program = words.get(1)?;
    Some(program.as_str())
}
