//! Programs of the system, started beside this one. Their spawner tells nothing of them, and counts its faults.
ghost use Rattle.da_outside.specs.Outside.{HasCause};
ghost use Rattle.std.specs.Prelude.{ℕ, ◌≡◌, ◌++◌, List as ListOf, None, IfOk, OnErr};

use crate::outside::Trouble;
use crate::spawner::{Child, Spawner};
use da_values::{Buf, List};
use std::alloc::{AllocError, Global};
use std::io::{ErrorKind, Read};
use std::process::{Command, OpenProcess, Processes, Stdio};
use std::{env, io, process, rt};
use thiserror::Error;

/// The most bytes that a child may write to its standard output.
pub const OUTPUT_MAX: u64 = 67_108_864;

/// Why the system did not start a child, or why its end says nothing.
#[derive(Debug, Drop, Error)]
pub enum ChildTrouble {
    /// The system does not name the file of this program.
    #[error("this program's own file cannot be found: {0}")]
    NoFile(io::Error),
    /// The system did not start the child.
    #[error("it could not be started: {0}")]
    NotStarted(io::Error),
    /// What the child wrote, or its end, could not be read.
    #[error("its output or its end could not be read")]
    Unread,
    /// A signal ended the child.
    #[error("a signal ended it")]
    Signal,
    /// The child wrote more than 67,108,864 bytes. It was stopped.
    #[error("it wrote more than {OUTPUT_MAX} bytes, and was stopped")]
    TooLong,
    /// There is no such child, or it has been finished.
    #[error("there is no such child")]
    Unknown,
    /// Memory was refused. This is no fault.
    #[error("no memory is left")]
    Memory,
}

impl From<AllocError> for ChildTrouble {
    fn from(_: AllocError) -> ChildTrouble {
        ChildTrouble::Memory
    }
}

/// A spawner of the system. It starts the file that it was made with, or else that of this very program.
///
/// A child has nothing to read, the standard error and the process group of this program, and a pipe for its standard output. The
/// pipe is read when the child is finished: one that has filled its pipe before waits until then. Whatever `finish` answers,
/// the child has ended, unless the system refuses to stop it.
#[derive(Drop)]
pub struct RealSpawner<'a, R: Processes> {
    rt: &'a R,
    alloc: Global,
    file: Option<String>,
    children: List<Option<process::Child<R::Started>>>,
    faults: u64,
    first: Option<(u32, ChildTrouble)>,
}

impl<'a, R: Processes + rt::Files + AllocGlobal> RealSpawner<'a, R> {
    /// Nothing was started, and no call has failed.
    pub fn new(rt: &'a R, file: Option<String>) -> RealSpawner<'a, R> {
        RealSpawner {
            rt,
            alloc: rt.alloc(),
            file,
            children: List::new(rt.alloc()),
            faults: 0,
            first: None,
        }
    }

    /// The number of the child at which a call failed first, and why.
    pub fn trouble(&self) -> Option<&(u32, ChildTrouble)> {
        self.first.as_ref()
    }

    /// Stops all children that were started and not finished, and waits for their ends.
    pub fn end(&mut self) {
        while let Some(left) = self.children.pop() {
            if let Some(process) = left {
                stop(process);
            }
        }
    }

    // Starts a child, and answers its number.
    fn start_next(&mut self, words: &[String]) -> Result<u32, ChildTrouble>
        ensures { self.new.faults ≡ self.old.faults }
    {
        let place = self.children.len();
        if self.children.push(None).is_err() {
            return Err(ChildTrouble::Memory);
        }
        match spawn(self.rt, self.alloc, &self.file, words) {
            Ok(process) => {
                self.children.set(place, Some(process));
                Ok(number_of(place))
            }
            Err(trouble) => {
                self.children.truncate(place);
                Err(trouble)
            }
        }
    }

    // The process of a child that was started and not finished.
    fn take(&mut self, number: u32) -> Option<process::Child<R::Started>>
        ensures { self.new.faults ≡ self.old.faults }
    {
        let place = (number as usize).checked_sub(1)?;
        if place >= self.children.len() {
            return None;
        }
        self.children.replace(place, None)
    }

    // Counts a fault, and keeps the first.
    fn fail(&mut self, number: u32, trouble: ChildTrouble) -> Trouble
        ensures { HasCause self.old.faults self.new.faults (result ≡ Trouble.Failed) }
    {
        if matches!(trouble, ChildTrouble::Memory) {
            return Trouble::Memory;
        }
        self.faults = self.faults.saturating_add(1);
        if self.first.is_none() {
            self.first = Some((number, trouble));
        }
        Trouble::Failed
    }
}

impl<R: Processes + rt::Files + AllocGlobal> Spawner for RealSpawner<'_, R> {
    ghost told = { λ _. None };

    ghost faults = { λ spawner. spawner.faults };

    fn start(&mut self, words: &[String]) -> Result<Child, Trouble> {
        match self.start_next(words) {
            Ok(number) => Ok(Child { number }),
            Err(trouble) => {
                let number = number_of(self.children.len());
                Err(self.fail(number, trouble))
            }
        }
    }

    fn finish(&mut self, child: Child, out: &mut Buf) -> Result<u8, Trouble> {
        let number = child.number;
        let Some(process) = self.take(number) else {
            return Err(self.fail(number, ChildTrouble::Unknown));
        };
        match collect(self.alloc, process, out) {
            Ok(status) => Ok(status),
            Err(trouble) => Err(self.fail(number, trouble)),
        }
    }
}

// The number of the child at a place.
fn number_of(place: usize) -> u32 {
    u32::try_from(place.saturating_add(1)).unwrap_or(u32::MAX)
}

// Starts a file, or that of this program, with these words.
fn spawn<R: Processes + rt::Files + AllocGlobal>(
    rt: &R,
    alloc: Global,
    file: &Option<String>,
    words: &[String],
) -> Result<process::Child<R::Started>, ChildTrouble> {
    let command = match file {
        Some(file) => Command::new(alloc, file.as_str()),
        None => {
            let own = env::current_exe(rt).map_err(ChildTrouble::NoFile)?;
            Command::new(alloc, own.as_str())
        }
    };
    let mut command = command?;
    for word in words {
        command.arg(word.as_str())?;
    }
    command.stdin(Stdio::null()).stdout(Stdio::piped());
    command.spawn(rt).map_err(|error| match error.kind() {
        ErrorKind::OutOfMemory => ChildTrouble::Memory,
        _ => ChildTrouble::NotStarted(error),
    })
}

// Reads what a child writes, waits for its end, and appends what it wrote.
fn collect<P: OpenProcess + Drop>(
    alloc: Global,
    mut process: process::Child<P>,
    out: &mut Buf,
) -> Result<u8, ChildTrouble>
    ensures ok { IfOk result (λ _. (output : ListOf ℕ) × (out.new ≡ out.old ++ output)) }
    ensures err { OnErr result (out.new ≡ out.old) }
{
    let output = match read_output(alloc, &mut process) {
        Ok(output) => output,
        Err(trouble) => {
            stop(process);
            return Err(trouble);
        }
    };
    let Ok(status) = process.wait() else {
        return Err(ChildTrouble::Unread);
    };
    let Some(code) = status.code() else {
        return Err(ChildTrouble::Signal);
    };
    if out.append(output.as_slice()).is_err() {
        return Err(ChildTrouble::Memory);
    }
    Ok(code as u8)
}

// What a child writes until it closes its output.
fn read_output<P: OpenProcess>(
    alloc: Global,
    process: &mut process::Child<P>,
) -> Result<Vec<u8>, ChildTrouble> {
    let mut output = Vec::new(alloc);
    let Some(stdout) = process.stdout.take() else {
        return Ok(output);
    };
    match stdout.take(OUTPUT_MAX + 1).read_to_end(&mut output) {
        Ok(_) if output.len() as u64 > OUTPUT_MAX => Err(ChildTrouble::TooLong),
        Ok(_) => Ok(output),
        Err(error) if error.kind() == ErrorKind::OutOfMemory => Err(ChildTrouble::Memory),
        Err(_) => Err(ChildTrouble::Unread),
    }
}

// Stops a child, and waits for its end.
fn stop<P: OpenProcess + Drop>(mut process: process::Child<P>) {
    if process.kill().is_ok() {
        let _ = process.wait();
    }
}
