//! A sink that looks for faults, and for processes that are blocked, among the lines that go through it.
use da_outside::{Sink, Trouble};
use da_values::{Buf, List};
use run_hints::{Blocked, blocked_in};
use std::alloc::Global;

/// The bytes of a line that are kept at most: no line of a fault or of a blocked process has more.
const KEPT: usize = 60;

/// A sink that hands all bytes on, and keeps the first line that tells a fault, and the processes that are blocked.
#[derive(Drop)]
pub struct Watched<K> {
    sink: K,
    seen: Seen,
}

// What went through: a prefix of the last line, the first line of a fault, how many there were, and the processes that are blocked.
#[derive(Drop)]
struct Seen {
    line: Buf,
    fault: Buf,
    count: usize,
    blocks: List<Blocked>,
}

impl<K> Watched<K> {
    /// Nothing has gone through.
    pub fn new(alloc: Global, sink: K) -> Watched<K> {
        Watched {
            sink,
            seen: Seen {
                line: List::new(alloc),
                fault: List::new(alloc),
                count: 0,
                blocks: List::new(alloc),
            },
        }
    }

    /// The first line that tells a fault, without its end; it is empty where there is none.
    pub fn fault(&self) -> &[u8] {
        self.seen.fault.as_slice()
    }

    /// The processes that are blocked, as far as memory was there for them.
    pub fn blocks(&self) -> &[Blocked] {
        self.seen.blocks.as_slice()
    }

    /// How many lines tell a fault.
    pub fn count(&self) -> usize {
        self.seen.count
    }
}

impl Seen {
    // Bytes go through.
    fn look(&mut self, bytes: &[u8]) {
        for byte in bytes {
            if *byte == b'\n' {
                self.end();
            } else if self.line.len() < KEPT {
                let _ = self.line.push(*byte);
            }
        }
    }

    // A line ends.
    fn end(&mut self) {
        if self.line.as_slice().starts_with(b"fault ".as_slice()) {
            if self.count == 0 {
                let _ = self.fault.append(self.line.as_slice());
            }
            self.count = self.count.saturating_add(1);
        }
        if let Some(block) = blocked_in(self.line.as_slice()) {
            let _ = self.blocks.push(block);
        }
        self.line.truncate(0);
    }
}

impl<K: Sink> Sink for Watched<K> {
    ghost taken = { λ watched. K.taken watched.sink };

    ghost faults = { λ watched. K.faults watched.sink };

    fn write(&mut self, bytes: &[u8]) -> Result<usize, Trouble> {
        match self.sink.write(bytes) {
            Ok(count) => {
                let (front, _) = bytes.split_at(count.min(bytes.len()));
                self.seen.look(front);
                Ok(count)
            }
            Err(trouble) => Err(trouble),
        }
    }
}
