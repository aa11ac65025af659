//! What is kept for one peer.
ghost use Rattle.arq_link.specs.Endpoint.{Data, acknowledged, appended, new_peer};
ghost use Rattle.arq_link.specs.Frames.{frame_bytes};
ghost use Rattle.arq_link.specs.Waiting.{AreFrames, numbered};
ghost use Rattle.da_outside.specs.Link.{Gains};
ghost use Rattle.da_outside.specs.Outside.{HasCause};
ghost use Rattle.std.specs.Prelude.{◌≡◌, ◌+◌, ◌-◌, ◌^◌, ◌<◌, ◌≤◌, [], ◌∷◌, ℕ, IsErrOf, MatchBool, OnErr, OnOk, filter, length, nat_le};

use crate::frames::data_frame;
use da_outside::{Link, LinkEntry, Trouble};
use da_values::Buf;
use std::alloc::Global;
use std::collections::VecDeque;

/// What is kept for one peer: the number of the next payload for it, the number that is expected from it, and as frames the
/// payloads that wait for its acknowledgement, with the number of the first of them.
#[derive(Drop)]
pub(crate) struct Session {
    pub(crate) next: u64,
    pub(crate) expected: u64,
    pub(crate) first: u64,
    pub(crate) waiting: VecDeque<Buf>,
    ghost counted: { first + length waiting.items ≡ next },
}

impl Session {
    ghost use Rattle.arq_link.specs.Sessions.{IsKept, peer_of};

    /// Nothing was given yet. It takes no memory.
    pub(crate) fn new(alloc: Global) -> Session
        ensures is { peer_of result ≡ new_peer }
        ensures kept { (me : ℕ) → IsKept me result }
    {
        Session {
            next: 0,
            expected: 0,
            first: 0,
            waiting: VecDeque::new(alloc),
        }
    }

    /// Gives a payload to the peer, and keeps its frame. Memory is taken first, and only where the link took the frame is it kept.
    pub(crate) fn give<L: Link>(
        &mut self,
        alloc: Global,
        inner: &mut L,
        me: u16,
        to: u16,
        payload: &[u8],
    ) -> Result<(), Trouble>
        requires there { (1 ≤ to) × (to ≤ L.count inner.old) }
        requires room { self.old.next < 2 ^ 64 - 1 }
        ensures given { OnOk result (peer_of self.new ≡ appended (peer_of self.old) payload.now) }
        ensures same { OnErr result (peer_of self.new ≡ peer_of self.old) }
        ensures kept { IsKept me self.old → IsKept me self.new }
        ensures adds { OnOk result (Gains (L.told inner.old) (L.told inner.new) (LinkEntry.Gave to (frame_bytes (Data me self.old.next payload.now)) ∷ [])) }
        ensures none { OnErr result (Gains (L.told inner.old) (L.told inner.new) []) }
        ensures count { L.count inner.new ≡ L.count inner.old }
        ensures cause { HasCause (L.faults inner.old) (L.faults inner.new) (IsErrOf result Trouble.Failed) }
    {
        let frame = data_frame(alloc, me, self.next, payload)?;
        if self.waiting.reserve(1).is_err() {
            return Err(Trouble::Memory);
        }
        inner.give(to, frame.as_slice())?;
        self.waiting.push_back_reserved(frame);
        self.next += 1;
        Ok(())
    }

    /// What is below the number waits no longer, where the number is not above the next one.
    pub(crate) fn acknowledge(&mut self, number: u64)
        ensures peer { MatchBool (nat_le number self.old.next) (peer_of self.new ≡ acknowledged (peer_of self.old) number)
            (peer_of self.new ≡ peer_of self.old) }
        ensures kept { (me : ℕ) → IsKept me self.old → IsKept me self.new }
    {
        if number <= self.next {
            drop_below(&mut self.first, &mut self.waiting, number);
        }
    }
}

// The frames below a number leave. The first of them is given with its number.
fn drop_below(first: &mut u64, waiting: &mut VecDeque<Buf>, number: u64)
    requires { number ≤ first.old + length waiting.old.items }
    ensures count { first.new + length waiting.new.items ≡ first.old + length waiting.old.items }
    ensures left { numbered first.new waiting.new.items ≡ filter (λ entry. nat_le number entry.number) (numbered first.old waiting.old.items) }
    ensures kept { (me : ℕ) → AreFrames me first.old waiting.old.items → AreFrames me first.new waiting.new.items }
{
    while *first < number {
        waiting.pop_front();
        *first += 1;
    }
}
