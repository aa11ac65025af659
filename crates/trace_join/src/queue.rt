//! The messages in flight in one channel.
ghost use Rattle.da_lang.specs.declared.event.Action.{Action as ActionOf};
ghost use Rattle.std.specs.Prelude.{◌≡◌, ◌↔◌, [], ◌∷◌, ◌++◌, ◌<◌, ◌≤◌, IsTrue, OnErr, OnOk, Some, length, remove, slice_get};
ghost use Rattle.trace_join.specs.Fetching.{IsGot, IsSent, message_in};

use da_lang::{Action, same_value};
use da_values::NoMemory;
use std::alloc::Global;
use std::collections::VecDeque;
use std::marker::Model;

/// More messages than this cannot be named by a schedule.
const MOST_MESSAGES: usize = 999_999_999;

/// The actions that sent the messages of a channel, the eldest first. Contracts see the messages.
#[derive(Drop)]
pub(crate) struct Queue<'t> {
    sent: VecDeque<&'t Action>,
}

impl<'t> Model for Queue<'t> {
    ghost use Rattle.da_system.specs.Channels.{MessageInFlight};
    ghost use Rattle.da_values.specs.contracts.val.Val as val;
    ghost use Rattle.std.specs.Coded.{coded_list, codes};
    ghost use Rattle.std.specs.Prelude.{◌≤◌, All, List, map};
    ghost use Rattle.std.specs.VecDeque.{deque_len};
    ghost use Rattle.trace_join.specs.Fetching.{IsSent, message_in};

    ghost Value = { List MessageInFlight };

    ghost coded = { coded_list (Prim.hlevel (codes, val.the_row.coded)) };

    ghost view = { λ queue. map (λ a. message_in a.now) queue.sent.items };

    ghost invariant = { λ queue. All (λ a. IsSent a.now) queue.sent.items × (deque_len queue.sent ≤ 999999999) };
}

impl<'t> Queue<'t> {
    /// An empty channel.
    pub(crate) fn new(alloc: Global) -> Queue<'t>
        ensures { result ≡ [] }
    {
        Queue {
            sent: VecDeque::new(alloc),
        }
    }

    /// How many messages there are.
    pub(crate) fn len(&self) -> usize
        ensures value { result ≡ length self.now }
        ensures few { result ≤ 999999999 }
    {
        self.sent.len()
    }

    /// Whether the message at a place, counted from 0, is the one that the action gets.
    pub(crate) fn is_at(&self, place: usize, got: &Action) -> bool
        requires got { IsGot got.now }
        ensures { IsTrue result ↔ (slice_get self.now place ≡ Some (message_in got.now)) }
    {
        match self.sent.get(place) {
            Some(sent) => is_same_message(*sent, got),
            None => false,
        }
    }

    /// Whether the message at a place was sent at an earlier time than the one that the action gets.
    pub(crate) fn is_earlier(&self, place: usize, got: &Action) -> bool {
        match (self.sent.get(place), got) {
            (Some(Action::Sent { t, .. }), Action::Got { t: t2, .. }) => t < t2,
            _ => false,
        }
    }

    /// The message that the action sends goes to the end of the channel. A message that could not be named is refused as if
    /// there was no memory for it.
    pub(crate) fn push(&mut self, sent: &'t Action) -> Result<(), NoMemory>
        requires { IsSent sent.now }
        ensures { OnOk result (self.new ≡ self.old ++ message_in sent.now ∷ []) }
    {
        if self.sent.len() >= MOST_MESSAGES {
            return Err(NoMemory);
        }
        match self.sent.push_back(sent) {
            Ok(()) => Ok(()),
            Err(_) => Err(NoMemory),
        }
    }

    /// A copy of the message at a place goes to the end of the channel.
    pub(crate) fn double(&mut self, place: usize) -> Result<(), NoMemory>
        requires { place < length self.old }
        ensures { OnOk result ((l : _) → slice_get self.old place ≡ Some l → self.new ≡ self.old ++ l ∷ []) }
    {
        let sent = self.sent[place];
        self.push(sent)
    }

    /// The message at a place leaves the channel, in time in step with the distance from the nearer end.
    pub(crate) fn remove(&mut self, place: usize)
        requires { place < length self.old }
        ensures { self.new ≡ remove self.old place }
    {
        self.sent.remove(place);
    }
}

// Whether the message that the one action sends is that which the other gets.
fn is_same_message(sent: &Action, got: &Action) -> bool
    requires sent { IsSent sent.now }
    requires got { IsGot got.now }
    ensures { IsTrue result ↔ (message_in sent.now ≡ message_in got.now) }
{
    match sent {
        Action::Sent { t, v, .. } => match got {
            Action::Got { t: t2, v: v2, .. } => t == t2 && same_value(v, v2),
            _ => false,
        },
        _ => false,
    }
}
