//! The files and the standard output of the system. They tell nothing of their content, and count their faults.
ghost use Rattle.std.specs.Prelude.{◌≤◌, None, IfOk, length};

use crate::outside::{Files, Sink, Trouble};
use da_values::{Buf, copy_bytes};
use std::io::{Read, Seek, SeekFrom};
use std::{fs, io, rt};

/// Files of the system, by their paths. The file that was read last stays open: the piece after the one read before comes
/// from it, with no second opening and no seek.
#[derive(Drop)]
pub struct RealFiles<'a, R: rt::Files> {
    rt: &'a R,
    kept: Option<Opened<R::File>>,
    faults: u64,
}

// An open file, and the place where it stands.
#[derive(Drop)]
struct Opened<F> {
    name: Buf,
    place: u64,
    file: F,
}

/// Standard output.
#[derive(Drop)]
pub struct RealSink<'a, R> {
    rt: &'a R,
    faults: u64,
}

impl<'a, R: rt::Files> RealFiles<'a, R> {
    /// Nothing is open, and no read has failed.
    pub fn new(rt: &'a R) -> RealFiles<'a, R> {
        RealFiles {
            rt,
            kept: None,
            faults: 0,
        }
    }
}

impl<R: rt::Files + AllocGlobal> Files for RealFiles<'_, R> {
    ghost told = { λ _ _. None };

    ghost faults = { λ files _. files.faults };

    fn read(&mut self, name: &str, at: u64, buf: &mut [u8]) -> Result<usize, Trouble> {
        let kept = self.kept.take();
        match read_at(self.rt, kept, name, at, buf) {
            Ok((count, opened)) => {
                self.kept = Some(opened);
                Ok(count)
            }
            Err(Trouble::Failed) => {
                self.faults = self.faults.saturating_add(1);
                Err(Trouble::Failed)
            }
            Err(Trouble::Memory) => Err(Trouble::Memory),
        }
    }
}

// Reads a piece, and gives the file that it came from, to be read on.
fn read_at<R: rt::Files + AllocGlobal>(
    rt: &R,
    kept: Option<Opened<R::File>>,
    name: &str,
    at: u64,
    buf: &mut [u8],
) -> Result<(usize, Opened<R::File>), Trouble>
    requires { at ≤ 16777216 }
    ensures { IfOk result (λ read. read.0 ≤ length buf.new) }
{
    let mut opened = reach(rt, kept, name, at)?;
    let Ok(count) = opened.file.read(buf) else {
        return Err(Trouble::Failed);
    };
    opened.place = at + count as u64;
    Ok((count, opened))
}

// The kept file where it has this name and stands at this place, else one that is opened anew.
fn reach<R: rt::Files + AllocGlobal>(
    rt: &R,
    kept: Option<Opened<R::File>>,
    name: &str,
    at: u64,
) -> Result<Opened<R::File>, Trouble> {
    if let Some(opened) = kept {
        if opened.place == at && opened.name.as_slice() == name.as_bytes() {
            return Ok(opened);
        }
    }
    let copy = copy_bytes(rt.alloc(), name.as_bytes())?;
    let Ok(file) = open_at(rt, name, at) else {
        return Err(Trouble::Failed);
    };
    Ok(Opened {
        name: copy,
        place: at,
        file,
    })
}

// A file that stands at this place. What can only be read from its beginning on, as a pipe, stands at no other.
fn open_at<R: rt::Files>(rt: &R, name: &str, at: u64) -> io::Result<R::File> {
    let mut file = fs::open(rt, name)?;
    if at > 0 {
        file.seek(SeekFrom::Start(at))?;
    }
    Ok(file)
}

impl<'a, R> RealSink<'a, R> {
    /// No write has failed.
    pub fn new(rt: &'a R) -> RealSink<'a, R> {
        RealSink { rt, faults: 0 }
    }
}

impl<R: Print> Sink for RealSink<'_, R> {
    ghost taken = { λ _. None };

    ghost faults = { λ sink. sink.faults };

    fn write(&mut self, bytes: &[u8]) -> Result<usize, Trouble> {
        match self.rt.write_some(bytes) {
            Ok(count) if count > 0 || bytes.is_empty() => Ok(count),
            _ => {
                self.faults = self.faults.saturating_add(1);
                Err(Trouble::Failed)
            }
        }
    }
}
