//! Standard input. It tells nothing of what comes, and counts its faults.
ghost use Rattle.std.specs.Prelude.{None};

use crate::source::Source;
use da_outside::Trouble;
use std::io::Read;

/// A reader of the system as a stream.
#[derive(Drop)]
pub struct RealSource<R> {
    reader: R,
    faults: u64,
}

impl<R: Read> RealSource<R> {
    /// No read has failed.
    pub fn new(reader: R) -> RealSource<R> {
        RealSource { reader, faults: 0 }
    }
}

impl<R: Read> Source for RealSource<R> {
    ghost left = { λ _. None };

    ghost faults = { λ source. source.faults };

    fn read(&mut self, buf: &mut [u8]) -> Result<usize, Trouble> {
        match self.reader.read(buf) {
            Ok(count) => Ok(count),
            Err(_) => {
                self.faults = self.faults.saturating_add(1);
                Err(Trouble::Failed)
            }
        }
    }
}
