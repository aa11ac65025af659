//! The bytes of a stream that have come and belong to no frame yet.
ghost use Rattle.da_outside.specs.Outside.{HasCause};
ghost use Rattle.lsp_frames.specs.Frames.{cut as cut_def};
ghost use Rattle.lsp_frames.specs.Stream.{HasNone, IsStream, Remains, come_of};
ghost use Rattle.std.specs.Prelude.{ℕ, ◌≡◌, List, Option, drop, take, IfOk, IsErrOf, OnOk};

use crate::cutting::{Cut, cut_front};
use crate::source::Source;
use da_outside::Trouble;
use da_values::{Buf, List, NoMemory, copy_bytes};
use std::alloc::Global;

/// So many bytes are taken at once.
const PIECE: usize = 4_096;

/// The bytes of a stream that have come, and how many of those still to come are passed over.
#[derive(Drop)]
pub struct Input {
    alloc: Global,
    come: Buf,
    skip: u64,
}

impl Input {
    /// Nothing has come.
    pub fn new(alloc: Global) -> Input
        ensures { (left : Option (List ℕ)) (rest : List ℕ) → Remains result left rest → IsStream left rest }
    {
        Input {
            alloc,
            come: List::new(alloc),
            skip: 0,
        }
    }

    /// What stands at the front.
    pub fn front(&self) -> Cut
        ensures { result ≡ cut_def (come_of self.now) }
    {
        cut_front(self.come.as_slice())
    }

    /// So many bytes after the first `first`, as far as they have come.
    #[tactic(auto, using(crate::proofs::Facts::parts))]
    pub fn content(&self, first: usize, length: usize) -> &[u8]
        ensures { result.now ≡ take length (drop first (come_of self.now)) }
    {
        let bytes = self.come.as_slice();
        let (_, behind) = bytes.split_at(first.min(bytes.len()));
        let (content, _) = behind.split_at(length.min(behind.len()));
        content
    }

    /// Passes over so many bytes; those that have not come yet are passed over when they do. Where memory is refused it is spent.
    #[tactic(auto, using(crate::proofs::InputLemmas::passed_on))]
    pub fn pass(&mut self, count: u64) -> Result<(), NoMemory>
        ensures { OnOk result ((left : Option (List ℕ)) (rest : List ℕ) → Remains self.new left rest → (stream : List ℕ) × Remains self.old left stream × (rest ≡ drop count stream)) }
    {
        let come = self.come.len() as u64;
        let here = count.min(come);
        let Some(skip) = self.skip.checked_add(count - here) else {
            return Err(NoMemory);
        };
        let (_, behind) = self.come.as_slice().split_at(here as usize);
        let rest = copy_bytes(self.alloc, behind)?;
        self.come = rest;
        self.skip = skip;
        Ok(())
    }

    /// Takes a piece off the source, and says how many bytes came: 0 is the end. Where memory is refused it is spent.
    #[tactic(auto, using(crate::proofs::InputLemmas::came_on, crate::proofs::InputLemmas::none_came))]
    pub fn read<S: Source>(&mut self, source: &mut S) -> Result<usize, Trouble>
        ensures same { OnOk result ((rest : List ℕ) → Remains self.new (S.left source.new) rest → Remains self.old (S.left source.old) rest) }
        ensures come { IfOk result (λ n. n ≡ 0 → come_of self.new ≡ come_of self.old) }
        ensures end { IfOk result (λ n. n ≡ 0 → HasNone (S.left source.old)) }
        ensures cause { HasCause (S.faults source.old) (S.faults source.new) (IsErrOf result Trouble.Failed) }
    {
        let mut piece = [0u8; PIECE];
        let count = source.read(&mut piece[..PIECE])?;
        let (come, _) = piece[..PIECE].split_at(count);
        let passed = self.skip.min(count as u64);
        let (_, taken) = come.split_at(passed as usize);
        self.come.append(taken)?;
        self.skip -= passed;
        Ok(count)
    }
}
