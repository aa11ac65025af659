//! A stream in memory, which tells everything and never fails.
ghost use Rattle.std.specs.Prelude.{◌≡◌, Some};

use crate::source::Source;
use da_outside::Trouble;
use da_values::{Buf, List};
use std::alloc::Global;

/// A stream in memory. At most `most` bytes come at once, and at least one where there is room.
#[derive(Drop)]
pub struct MemSource {
    alloc: Global,
    bytes: Buf,
    most: usize,
}

impl MemSource {
    ghost use Rattle.lsp_frames.specs.Source.{bytes_of};

    /// All these bytes are still to come.
    pub fn new(alloc: Global, bytes: Buf, most: usize) -> MemSource
        ensures { bytes_of result ≡ bytes }
    {
        MemSource { alloc, bytes, most }
    }
}

impl Source for MemSource {
    ghost left = { λ source. Some source.bytes };

    ghost faults = { λ source. 0 };

    fn read(&mut self, buf: &mut [u8]) -> Result<usize, Trouble> {
        let count = self.bytes.len().min(buf.len()).min(self.most.max(1));
        let mut rest = List::new(self.alloc);
        let (front, behind) = self.bytes.as_slice().split_at(count);
        rest.append(behind)?;
        buf[..count].copy_from_slice(front);
        self.bytes = rest;
        Ok(count)
    }
}
