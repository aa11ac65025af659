//! An endpoint: what a process keeps for all its peers, and what it does where it gives, and where it takes.
ghost use Rattle.arq_link.specs.Endpoint.{again_from, first_again, new_peer};
ghost use Rattle.arq_link.specs.Sessions.{AreKept, AreKept-prop, IsKept, peer_of, peers_of};
ghost use Rattle.arq_link.specs.Telling.{gift_entry};
ghost use Rattle.da_outside.specs.Link.{Gains, HasRoom, answer_of};
ghost use Rattle.da_outside.specs.Outside.{HasCause};
ghost use Rattle.std.specs.Prelude.{◌≡◌, ◌-◌, ◌^◌, ◌<◌, ◌≤◌, [], ℕ, IfOk, IsErrOf, MatchBool, OnErr, OnOk, drop, length, map, replicate, take};

use crate::frames::{FrameKind, HEADER_LEN, acknowledgement_frame, read_header};
use crate::session::Session;
use da_outside::{DATAGRAM_MAX, Link, LinkAnswer, Taken, Trouble};
use da_values::{List, NoMemory};
use std::alloc::Global;

// At so many answers in a row that nothing is there, what waits is given again.
const IDLE_MAX: u8 = 100;

// The greatest number. No payload has it.
const NUMBER_LIMIT: u64 = u64::MAX;

/// What process `me` keeps for its peers, which are numbered from 1, and how often in a row nothing was there.
#[derive(Drop)]
pub(crate) struct Endpoint {
    pub(crate) alloc: Global,
    pub(crate) me: u16,
    pub(crate) idle: u8,
    pub(crate) sessions: List<Session>,
    ghost few: { length sessions ≤ 64 },
    ghost calm: { idle < 100 },
    ghost kept: { AreKept me sessions } by { AreKept-prop me sessions },
}

impl Endpoint {
    ghost use Rattle.arq_link.specs.Endpoint.{acknowledgement_turn, data_turn, give_turn, idle_turn, take_turn};
    ghost use Rattle.arq_link.specs.Endpoint.{expecting, new_endpoint, number_limit, peer_at};
    ghost use Rattle.arq_link.specs.Frames.{arrival_of, frame_of};
    ghost use Rattle.arq_link.specs.Kept.{endpoint_of, forgotten};
    ghost use Rattle.arq_link.specs.Telling.{answer_by};
    ghost use Rattle.arq_link.specs.Turns.{FailedTake, HasTaken, IsCut, IsPlayed};
    ghost use Rattle.std.specs.Prelude.{get_or, set};

    /// No peers. It takes no memory.
    pub(crate) fn unbound(alloc: Global) -> Endpoint
        ensures none { result.sessions ≡ [] }
    {
        Endpoint {
            alloc,
            me: 0,
            idle: 0,
            sessions: List::new(alloc),
        }
    }

    /// An endpoint of process `me` that has given nothing to so many peers, itself included, and was handed nothing.
    pub(crate) fn new(alloc: Global, me: u16, count: u16) -> Result<Endpoint, NoMemory>
        requires { count ≤ 64 }
        ensures me { IfOk result (λ endpoint. endpoint.me ≡ me) }
        ensures count { IfOk result (λ endpoint. length endpoint.sessions ≡ count) }
        ensures is { IfOk result (λ endpoint. endpoint_of endpoint ≡ new_endpoint count) }
    {
        Ok(Endpoint {
            alloc,
            me,
            idle: 0,
            sessions: new_sessions(alloc, count)?,
        })
    }

    /// All peers are forgotten.
    pub(crate) fn forget(&mut self)
        ensures { self.new ≡ forgotten self.old }
    {
        self.sessions.truncate(0);
    }

    /// Whether there is a number left for the next payload to a peer.
    pub(crate) fn has_number(&self, to: u16) -> bool
        requires { (1 ≤ to) × (to ≤ length self.now.sessions) }
        ensures { MatchBool result ((peer_at (endpoint_of self.now).peers to).next < number_limit)
            ((peer_at (endpoint_of self.now).peers to).next < number_limit → ⊥) }
    {
        self.sessions.as_slice()[to as usize - 1].next < NUMBER_LIMIT
    }

    /// Gives a payload to a peer, for which there is a number left.
    pub(crate) fn give<L: Link>(
        &mut self,
        inner: &mut L,
        to: u16,
        payload: &[u8],
    ) -> Result<(), Trouble>
        requires there { (1 ≤ to) × (to ≤ length self.old.sessions) }
        requires reached { length self.old.sessions ≤ L.count inner.old }
        requires room { (peer_at (endpoint_of self.old).peers to).next < number_limit }
        ensures given { OnOk result (IsPlayed (give_turn self.old.me (endpoint_of self.old) to payload.now)
            (endpoint_of self.new) (L.told inner.old) (L.told inner.new)) }
        ensures same { OnErr result (endpoint_of self.new ≡ endpoint_of self.old) }
        ensures none { OnErr result (Gains (L.told inner.old) (L.told inner.new) []) }
        ensures me { self.new.me ≡ self.old.me }
        ensures sessions { length self.new.sessions ≡ length self.old.sessions }
        ensures count { L.count inner.new ≡ L.count inner.old }
        ensures cause { HasCause (L.faults inner.old) (L.faults inner.new) (IsErrOf result Trouble.Failed) }
    {
        let place = to as usize - 1;
        let mut session = self.sessions.replace(place, Session::new(self.alloc));
        let result = session.give(self.alloc, inner, self.me, to, payload);
        self.sessions.set(place, session);
        result
    }

    /// Asks the link once, and does what its answer asks for.
    pub(crate) fn take<L: Link>(&mut self, inner: &mut L, buf: &mut [u8]) -> Result<Taken, Trouble>
        requires bound { (1 ≤ length self.old.sessions) × (length self.old.sessions ≤ L.count inner.old) }
        requires room { DATAGRAM_MAX ≤ length buf.old }
        ensures taken { IfOk result (λ taken. HasTaken self.old.me (endpoint_of self.old) (endpoint_of self.new)
            (answer_of taken buf.new) (L.told inner.old) (L.told inner.new)) }
        ensures failed { OnErr result (FailedTake self.old.me (endpoint_of self.old) (endpoint_of self.new) (L.told inner.old) (L.told inner.new)) }
        ensures within { IfOk result (λ taken. HasRoom taken buf.new) }
        ensures me { self.new.me ≡ self.old.me }
        ensures sessions { length self.new.sessions ≡ length self.old.sessions }
        ensures count { L.count inner.new ≡ L.count inner.old }
        ensures cause { HasCause (L.faults inner.old) (L.faults inner.new) (IsErrOf result Trouble.Failed) }
    {
        let taken = inner.take(buf)?;
        match taken {
            Taken::Nothing => {
                self.hear_nothing(inner)?;
                Ok(Taken::Nothing)
            }
            Taken::Datagram(len) => {
                self.idle = 0;
                self.hear_datagram(inner, buf, len)
            }
        }
    }

    // Nothing is there. At each hundredth time in a row, what waits first for each peer is given again.
    fn hear_nothing<L: Link>(&mut self, inner: &mut L) -> Result<(), Trouble>
        requires reached { length self.old.sessions ≤ L.count inner.old }
        ensures played { OnOk result (IsPlayed (idle_turn self.old.me (endpoint_of self.old)) (endpoint_of self.new) (L.told inner.old) (L.told inner.new)) }
        ensures cut { OnErr result (IsCut (idle_turn self.old.me (endpoint_of self.old))
            (endpoint_of self.old) (endpoint_of self.new) (L.told inner.old) (L.told inner.new)) }
        ensures me { self.new.me ≡ self.old.me }
        ensures sessions { length self.new.sessions ≡ length self.old.sessions }
        ensures count { L.count inner.new ≡ L.count inner.old }
        ensures cause { HasCause (L.faults inner.old) (L.faults inner.new) (IsErrOf result Trouble.Failed) }
    {
        if self.idle < IDLE_MAX - 1 {
            self.idle += 1;
            return Ok(());
        }
        self.idle = 0;
        give_again(inner, self.me, self.sessions.as_slice())
    }

    // A datagram of so many bytes has come.
    fn hear_datagram<L: Link>(
        &mut self,
        inner: &mut L,
        buf: &mut [u8],
        len: usize,
    ) -> Result<Taken, Trouble>
        requires reached { length self.old.sessions ≤ L.count inner.old }
        requires idle { self.old.idle ≡ 0 }
        requires room { len ≤ length buf.old }
        ensures played { IfOk result (λ taken. IsPlayed (take_turn self.old.me (endpoint_of self.old) (arrival_of (frame_of (take len buf.old))))
            (endpoint_of self.new) (L.told inner.old) (L.told inner.new)) }
        ensures answers { IfOk result (λ taken. answer_of taken buf.new
            ≡ answer_by (take_turn self.old.me (endpoint_of self.old) (arrival_of (frame_of (take len buf.old)))).delivers) }
        ensures cut { OnErr result (IsCut (take_turn self.old.me (endpoint_of self.old) (arrival_of (frame_of (take len buf.old))))
            (endpoint_of self.old) (endpoint_of self.new) (L.told inner.old) (L.told inner.new)) }
        ensures within { IfOk result (λ taken. HasRoom taken buf.new) }
        ensures me { self.new.me ≡ self.old.me }
        ensures sessions { length self.new.sessions ≡ length self.old.sessions }
        ensures count { L.count inner.new ≡ L.count inner.old }
        ensures cause { HasCause (L.faults inner.old) (L.faults inner.new) (IsErrOf result Trouble.Failed) }
    {
        let Some(header) = read_header(&buf[..len]) else {
            return Ok(Taken::Nothing);
        };
        if !is_process(header.sender, self.sessions.len()) {
            return Ok(Taken::Nothing);
        }
        match header.kind {
            FrameKind::Data => self.hear_data(inner, header.sender, header.number, buf, len),
            FrameKind::Acknowledgement => {
                self.hear_acknowledgement(header.sender, header.number);
                Ok(Taken::Nothing)
            }
        }
    }

    // Data of a peer has come, in so many bytes. It is handed out where its number is expected, and acknowledged before.
    fn hear_data<L: Link>(
        &mut self,
        inner: &mut L,
        sender: u16,
        number: u64,
        buf: &mut [u8],
        len: usize,
    ) -> Result<Taken, Trouble>
        requires reached { length self.old.sessions ≤ L.count inner.old }
        requires there { (1 ≤ sender) × (sender ≤ length self.old.sessions) }
        requires idle { self.old.idle ≡ 0 }
        requires room { (HEADER_LEN ≤ len) × (len ≤ length buf.old) }
        ensures played { IfOk result (λ taken. IsPlayed (data_turn self.old.me (endpoint_of self.old) sender number (drop 14 (take len buf.old)))
            (endpoint_of self.new) (L.told inner.old) (L.told inner.new)) }
        ensures answers { IfOk result (λ taken. answer_of taken buf.new
            ≡ answer_by (data_turn self.old.me (endpoint_of self.old) sender number (drop 14 (take len buf.old))).delivers) }
        ensures cut { OnErr result (IsCut (data_turn self.old.me (endpoint_of self.old) sender number (drop 14 (take len buf.old)))
            (endpoint_of self.old) (endpoint_of self.new) (L.told inner.old) (L.told inner.new)) }
        ensures within { IfOk result (λ taken. HasRoom taken buf.new) }
        ensures me { self.new.me ≡ self.old.me }
        ensures sessions { length self.new.sessions ≡ length self.old.sessions }
        ensures count { L.count inner.new ≡ L.count inner.old }
        ensures cause { HasCause (L.faults inner.old) (L.faults inner.new) (IsErrOf result Trouble.Failed) }
    {
        let place = sender as usize - 1;
        let expected = self.sessions.as_slice()[place].expected;
        if !is_expected(number, expected) {
            inner.give(sender, &acknowledgement_frame(self.me, expected))?;
            return Ok(Taken::Nothing);
        }
        inner.give(sender, &acknowledgement_frame(self.me, number + 1))?;
        self.expect(place, number + 1);
        Ok(to_front(buf, len))
    }

    // From the peer at a place this number is expected.
    fn expect(&mut self, place: usize, number: u64)
        requires { place < length self.old.sessions }
        ensures peers { peers_of self.new.sessions
            ≡ set (peers_of self.old.sessions) place (expecting (get_or (peers_of self.old.sessions) place new_peer) number) }
        ensures idle { self.new.idle ≡ self.old.idle }
        ensures me { self.new.me ≡ self.old.me }
        ensures sessions { length self.new.sessions ≡ length self.old.sessions }
    {
        let mut session = self.sessions.replace(place, Session::new(self.alloc));
        session.expected = number;
        self.sessions.set(place, session);
    }

    // An acknowledgement of a peer has come.
    fn hear_acknowledgement(&mut self, sender: u16, number: u64)
        requires there { (1 ≤ sender) × (sender ≤ length self.old.sessions) }
        requires idle { self.old.idle ≡ 0 }
        ensures is { endpoint_of self.new ≡ (acknowledgement_turn (endpoint_of self.old) sender number).after }
        ensures me { self.new.me ≡ self.old.me }
        ensures sessions { length self.new.sessions ≡ length self.old.sessions }
    {
        let place = sender as usize - 1;
        let mut session = self.sessions.replace(place, Session::new(self.alloc));
        session.acknowledge(number);
        self.sessions.set(place, session);
    }
}

// Sessions of so many peers to which nothing was given.
fn new_sessions(alloc: Global, count: u16) -> Result<List<Session>, NoMemory>
    ensures count { IfOk result (λ sessions. length sessions ≡ count) }
    ensures are { IfOk result (λ sessions. peers_of sessions ≡ replicate count new_peer) }
    ensures kept { IfOk result (λ sessions. (me : ℕ) → AreKept me sessions) }
{
    let mut sessions = List::new(alloc);
    for _process in 0..count {
        sessions.push(Session::new(alloc))?;
    }
    Ok(sessions)
}

// Gives what waits first for each peer again. It takes no memory of its own.
fn give_again<L: Link>(inner: &mut L, me: u16, sessions: &[Session]) -> Result<(), Trouble>
    requires reached { length sessions.now ≤ L.count inner.old }
    requires few { length sessions.now ≤ 64 }
    requires kept { AreKept me sessions.now }
    ensures given { OnOk result (Gains (L.told inner.old) (L.told inner.new) (map gift_entry (again_from me 1 (peers_of sessions.now)))) }
    ensures cut { OnErr result ((given : ℕ) × (given < length (again_from me 1 (peers_of sessions.now)))
        × Gains (L.told inner.old) (L.told inner.new) (take given (map gift_entry (again_from me 1 (peers_of sessions.now))))) }
    ensures count { L.count inner.new ≡ L.count inner.old }
    ensures cause { HasCause (L.faults inner.old) (L.faults inner.new) (IsErrOf result Trouble.Failed) }
{
    for place in 0..sessions.len() {
        give_first(inner, me, place as u16 + 1, &sessions[place])?;
    }
    Ok(())
}

// Gives what waits first for a peer again, if anything does.
fn give_first<L: Link>(inner: &mut L, me: u16, to: u16, session: &Session) -> Result<(), Trouble>
    requires there { (1 ≤ to) × (to ≤ L.count inner.old) }
    requires kept { IsKept me session.now }
    ensures given { OnOk result (Gains (L.told inner.old) (L.told inner.new) (map gift_entry (first_again me to (peer_of session.now).waiting))) }
    ensures cut { OnErr result ((0 < length (first_again me to (peer_of session.now).waiting)) × Gains (L.told inner.old) (L.told inner.new) []) }
    ensures count { L.count inner.new ≡ L.count inner.old }
    ensures cause { HasCause (L.faults inner.old) (L.faults inner.new) (IsErrOf result Trouble.Failed) }
{
    match session.waiting.front() {
        None => Ok(()),
        Some(frame) => inner.give(to, frame.as_slice()),
    }
}

// Whether there is a process of this number.
fn is_process(process: u16, count: usize) -> bool
    ensures { MatchBool result ((1 ≤ process) × (process ≤ count)) (1 ≤ process → process ≤ count → ⊥) }
{
    process >= 1 && process as usize <= count
}

// Whether data of this number is to be handed out.
fn is_expected(number: u64, expected: u64) -> bool
    ensures { MatchBool result ((number ≡ expected) × (number < 2 ^ 64 - 1)) (number ≡ expected → number < 2 ^ 64 - 1 → ⊥) }
{
    number == expected && number < NUMBER_LIMIT
}

// The payload of data of so many bytes goes to the start of the buffer.
fn to_front(buf: &mut [u8], len: usize) -> Taken
    requires { (HEADER_LEN ≤ len) × (len ≤ length buf.old) }
    ensures is { answer_of result buf.new ≡ LinkAnswer.Datagram (drop 14 (take len buf.old)) }
    ensures within { HasRoom result buf.new }
{
    buf.copy_within(HEADER_LEN..len, 0);
    Taken::Datagram(len - HEADER_LEN)
}
