//! How a message leaves its channel.
ghost use Rattle.da_system.specs.Channels.{MessageInFlight};
ghost use Rattle.da_values.specs.Sets.{Has};
ghost use Rattle.std.specs.Prelude.{◌≡◌, [], ◌∷◌, ◌++◌, ◌+◌, ◌<◌, ◌≤◌, Some, drop, length, remove, replicate, slice_get, IfOk, IfSome, MatchOption, OnOk};
ghost use Rattle.trace_join.specs.Fetching.{Fetches, IsFirst, IsGot, message_in};

use crate::queue::Queue;
use crate::schedule::Schedule;
use da_lang::{Action, ChannelKind, Event};
use da_values::NoMemory;

/// A message that process `to` waits for: the action that gets it from `from`, and whether it gets it again later.
#[derive(Clone, Copy)]
pub(crate) struct Wanted<'t> {
    pub from: u32,
    pub to: u32,
    pub got: &'t Action,
    pub again: bool,
}

/// Takes the message that is waited for out of its channel, and adds the events of it, or answers `false` where it cannot
/// arrive. In `fifo unreliable` the messages before it are lost first. In `unordered unreliable` it is doubled before,
/// where it is wanted again.
pub(crate) fn fetch(
    kind: ChannelKind,
    queue: &mut Queue<'_>,
    wanted: &Wanted<'_>,
    events: &mut Schedule,
) -> Result<bool, NoMemory>
    requires { IsGot wanted.now.got.now }
    ensures { IfOk result (λ found.
        Fetches kind wanted.now found queue.old queue.new events.old events.new) }
{
    match kind {
        ChannelKind::FifoReliable => fetch_front(queue, wanted, events),
        ChannelKind::UnorderedReliable => fetch_any(queue, wanted, events),
        ChannelKind::FifoUnreliable => fetch_losing(queue, wanted, events),
        ChannelKind::UnorderedUnreliable => fetch_doubling(queue, wanted, events),
    }
}

// The same in `fifo reliable`.
#[tactic(auto, using(crate::proofs::FetchLaws::first_fetched, crate::proofs::FetchLaws::none_fetched))]
fn fetch_front(
    queue: &mut Queue<'_>,
    wanted: &Wanted<'_>,
    events: &mut Schedule,
) -> Result<bool, NoMemory>
    requires { IsGot wanted.now.got.now }
    ensures { IfOk result (λ found.
        Fetches ChannelKind.FifoReliable wanted.now found queue.old queue.new events.old events.new) }
{
    if !queue.is_at(0, wanted.got) {
        return Ok(false);
    }
    deliver(queue, 0, wanted, events)?;
    Ok(true)
}

// The same in `unordered reliable`.
#[tactic(auto, using(crate::proofs::FetchLaws::any_fetched))]
fn fetch_any(
    queue: &mut Queue<'_>,
    wanted: &Wanted<'_>,
    events: &mut Schedule,
) -> Result<bool, NoMemory>
    requires { IsGot wanted.now.got.now }
    ensures { IfOk result (λ found.
        Fetches ChannelKind.UnorderedReliable wanted.now found queue.old queue.new events.old events.new) }
{
    let Some(place) = any_place(queue, wanted.got) else {
        return Ok(false);
    };
    deliver(queue, place, wanted, events)?;
    Ok(true)
}

// The same in `fifo unreliable`.
#[tactic(auto, using(crate::proofs::FetchLaws::losing_fetched))]
fn fetch_losing(
    queue: &mut Queue<'_>,
    wanted: &Wanted<'_>,
    events: &mut Schedule,
) -> Result<bool, NoMemory>
    requires { IsGot wanted.now.got.now }
    ensures { IfOk result (λ found.
        Fetches ChannelKind.FifoUnreliable wanted.now found queue.old queue.new events.old events.new) }
{
    let Some(place) = place_of(queue, wanted.got) else {
        return Ok(false);
    };
    lose_front(queue, place, wanted, events)?;
    deliver(queue, 0, wanted, events)?;
    Ok(true)
}

// The same in `unordered unreliable`.
#[tactic(auto, using(crate::proofs::FetchLaws::last_fetched, crate::proofs::FetchLaws::copy_fetched))]
fn fetch_doubling(
    queue: &mut Queue<'_>,
    wanted: &Wanted<'_>,
    events: &mut Schedule,
) -> Result<bool, NoMemory>
    requires { IsGot wanted.now.got.now }
    ensures { IfOk result (λ found.
        Fetches ChannelKind.UnorderedUnreliable wanted.now found queue.old queue.new events.old events.new) }
{
    let Some(place) = any_place(queue, wanted.got) else {
        return Ok(false);
    };
    if wanted.again {
        double(queue, place, wanted, events)?;
        deliver(queue, place, wanted, events)?;
        return Ok(true);
    }
    deliver(queue, place, wanted, events)?;
    Ok(true)
}

// The place of the first message of the queue that the action gets.
#[tactic(auto, using(crate::proofs::QueueLaws::first_at, crate::proofs::QueueLaws::none_on, crate::proofs::QueueLaws::none_there))]
fn place_of(queue: &Queue<'_>, got: &Action) -> Option<usize>
    requires { IsGot got.now }
    ensures within { IfSome result (λ place. place < length queue.now) }
    ensures first { MatchOption result (Has queue.now (message_in got.now) → ⊥) (IsFirst queue.now (message_in got.now)) }
{
    for place in 0..queue.len() {
        if queue.is_at(place, got) {
            return Some(place);
        }
    }
    None
}

// The place of a message that the action gets. Messages mostly stand by their times, so it is looked for by its time first.
#[tactic(auto, using(crate::proofs::FetchLaws::first_there))]
fn any_place(queue: &Queue<'_>, got: &Action) -> Option<usize>
    requires { IsGot got.now }
    ensures within { IfSome result (λ place. place < length queue.now) }
    ensures there { MatchOption result (Has queue.now (message_in got.now) → ⊥)
        (λ place. slice_get queue.now place ≡ Some (message_in got.now)) }
{
    let guess = place_by_time(queue, got);
    if queue.is_at(guess, got) {
        return Some(guess);
    }
    let place = place_of(queue, got)?;
    Some(place)
}

// Where the message stands if all stand by their times.
fn place_by_time(queue: &Queue<'_>, got: &Action) -> usize {
    let mut low = 0;
    let mut high = queue.len();
    while low < high {
        let middle = low + (high - low) / 2;
        if queue.is_earlier(middle, got) {
            low = middle + 1;
        } else {
            high = middle;
        }
    }
    low
}

// The message at a place is delivered.
fn deliver(
    queue: &mut Queue<'_>,
    place: usize,
    wanted: &Wanted<'_>,
    events: &mut Schedule,
) -> Result<(), NoMemory>
    requires { place < length queue.old }
    ensures queue { queue.new ≡ remove queue.old place }
    ensures events { OnOk result (events.new ≡ events.old ++ Event.Deliver wanted.now.from wanted.now.to (place + 1) ∷ []) }
{
    let i = number_at(queue, place);
    queue.remove(place);
    events.push(Event::Deliver {
        p: wanted.from,
        q: wanted.to,
        i,
    })
}

// The message at a place is doubled.
fn double(
    queue: &mut Queue<'_>,
    place: usize,
    wanted: &Wanted<'_>,
    events: &mut Schedule,
) -> Result<(), NoMemory>
    requires { place < length queue.old }
    ensures queue { OnOk result ((l : MessageInFlight) → slice_get queue.old place ≡ Some l → queue.new ≡ queue.old ++ l ∷ []) }
    ensures events { OnOk result (events.new ≡ events.old ++ Event.Repeat wanted.now.from wanted.now.to (place + 1) ∷ []) }
{
    let i = number_at(queue, place);
    queue.double(place)?;
    events.push(Event::Repeat {
        p: wanted.from,
        q: wanted.to,
        i,
    })
}

// The first so many messages are lost.
#[tactic(auto, using(crate::proofs::QueueLaws::lost_on))]
fn lose_front(
    queue: &mut Queue<'_>,
    count: usize,
    wanted: &Wanted<'_>,
    events: &mut Schedule,
) -> Result<(), NoMemory>
    requires { count ≤ length queue.old }
    ensures queue { OnOk result (queue.new ≡ drop count queue.old) }
    ensures events { OnOk result (events.new ≡ events.old ++ replicate count (Event.Lose wanted.now.from wanted.now.to 1)) }
{
    for _place in 0..count {
        queue.remove(0);
        events.push(Event::Lose {
            p: wanted.from,
            q: wanted.to,
            i: 1,
        })?;
    }
    Ok(())
}

// The number of the message at a place.
fn number_at(queue: &Queue<'_>, place: usize) -> u32
    requires { place < length queue.now }
    ensures value { result ≡ place + 1 }
    ensures few { result ≤ 999999999 }
{
    let _few = queue.len();
    place as u32 + 1
}
