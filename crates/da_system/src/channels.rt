//! The messages in flight.
ghost use Rattle.da_lang.specs.World.{at_number};
ghost use Rattle.da_system.specs.Channels.{after_action, after_actions, channel, may_arrive as arrive_def, may_lose as lose_def, may_repeat as repeat_def, no_messages, with_message, without_message};
ghost use Rattle.da_system.specs.FlatChannels.{place_of as place_def};
ghost use Rattle.da_system.specs.Queues.{AreSent, Each, HasPlace, IsAmong, IsNoPair, IsSent, StandsFor, count_of, message_of};
ghost use Rattle.std.specs.Option.{option_copied, option_map};
ghost use Rattle.std.specs.Prelude.{◌≡◌, ◌<◌, ◌^◌, IfOk, IfSome, MatchOption, OnOk, OnSome, length};

use crate::queue::{InFlight, Queue};
use da_lang::{Action, ChannelKind};
use da_values::{NoMemory, copy_value};
use std::alloc::Global;
use std::marker::Model;

/// The channels of so many processes: for each two of them, a process with itself included, the messages that are under
/// way from the one to the other. Those of the first sender come first, in the order of the recipients. Contracts see how
/// many processes there are and the queues, and the channels that they stand for, by `StandsFor`.
#[derive(Drop)]
pub struct Channels {
    alloc: Global,
    count: usize,
    queues: Vec<Queue>,
}

impl Model for Channels {
    ghost use Rattle.da_system.specs.Queued.{Queued};
    ghost use Rattle.da_system.specs.contracts.queue.InFlight as message;
    ghost use Rattle.std.specs.Coded.{codes};
    ghost use Rattle.std.specs.Prelude.{◌≡◌, ◌*◌, ◌<◌, ◌^◌, vec_len};

    ghost Value = { Queued };

    ghost coded = { Prim.hlevel (codes, message.the_row.coded) };

    ghost view = { λ channels. record { count = channels.count; queues = channels.queues.items } };

    ghost invariant = { λ channels. (channels.count < 2 ^ 16)
        × (vec_len channels.queues ≡ channels.count * channels.count) };
}

impl Channels {
    /// The channels of so many processes, with nothing in flight.
    pub fn new(alloc: Global, count: usize) -> Result<Channels, NoMemory>
        requires { count < 2 ^ 16 }
        ensures count { IfOk result (λ channels. count_of channels ≡ count) }
        ensures stands { IfOk result (λ channels. StandsFor channels (no_messages count)) }
    {
        let mut queues = Vec::new(alloc);
        for _place in 0..count * count {
            if queues.push(Queue::new(alloc)).is_err() {
                return Err(NoMemory);
            }
        }
        Ok(Channels {
            alloc,
            count,
            queues,
        })
    }

    /// Message `i` of the channel from `p` to `q`, counted from 1, or `None` where there is no such message. It takes no
    /// memory.
    pub fn message(&self, p: u32, q: u32, i: u32) -> Option<&InFlight>
        ensures value { Each self.now (λ channels.
            option_map message_of (option_copied result) ≡ at_number (channel channels p q) i) }
        ensures there { OnSome result (HasPlace (count_of self.now) p q i) }
        ensures numbers { OnSome result ((p < 2 ^ 16) × (q < 2 ^ 16)) }
    {
        let place = self.place_of(p, q)?;
        let at = (i as usize).checked_sub(1)?;
        self.queues.get(place)?.get(at)
    }

    /// How many processes there are. It takes no memory.
    pub fn processes(&self) -> u32
        ensures value { result ≡ count_of self.now }
        ensures few { result < 2 ^ 16 }
    {
        self.count as u32
    }

    /// How many messages are in flight from `p` to `q`. It takes no memory.
    pub fn in_flight(&self, p: u32, q: u32) -> usize
        ensures { Each self.now (λ channels. result ≡ length (channel channels p q)) }
    {
        match self.place_of(p, q) {
            Some(place) => self.queues[place].len(),
            None => 0,
        }
    }

    /// Message `i` of the channel from `p` to `q`, if it is there, leaves the channel. The two processes are there, and
    /// messages are counted from 1. It takes no memory.
    pub fn remove(&mut self, p: u32, q: u32, i: u32) -> Option<InFlight>
        requires { HasPlace (count_of self.old) p q i }
        ensures count { count_of self.new ≡ count_of self.old }
        ensures value { Each self.old (λ channels.
            option_map message_of result ≡ at_number (channel channels p q) i) }
        ensures stands { Each self.old (λ channels.
            StandsFor self.new (without_message channels p q i)) }
    {
        let Some(place) = self.place_of(p, q) else {
            unreachable!()
        };
        self.queues[place].remove(i as usize - 1)
    }

    /// A message goes to the end of the channel from `p` to `q`, which are there.
    pub fn push(&mut self, p: u32, q: u32, message: InFlight) -> Result<(), NoMemory>
        requires from { IsAmong (count_of self.old) p }
        requires to { IsAmong (count_of self.old) q }
        ensures count { count_of self.new ≡ count_of self.old }
        ensures stands { OnOk result (Each self.old (λ channels.
            StandsFor self.new (with_message channels p q (message_of message)))) }
    {
        let Some(place) = self.place_of(p, q) else {
            unreachable!()
        };
        self.queues[place].push(message)
    }

    /// The messages that these actions send go into their channels, one after the other.
    pub fn post(&mut self, actions: &[Action]) -> Result<(), NoMemory>
        requires { AreSent (count_of self.old) actions.now }
        ensures count { count_of self.new ≡ count_of self.old }
        ensures stands { OnOk result (Each self.old (λ channels.
            StandsFor self.new (after_actions channels actions.now))) }
    {
        for action in actions {
            self.post_one(action)?;
        }
        Ok(())
    }

    // The message that this action sends, if it sends one, goes into its channel.
    fn post_one(&mut self, action: &Action) -> Result<(), NoMemory>
        requires { IsSent (count_of self.old) action.now }
        ensures count { count_of self.new ≡ count_of self.old }
        ensures stands { OnOk result (Each self.old (λ channels.
            StandsFor self.new (after_action channels action.now))) }
    {
        match action {
            Action::Sent { p, q, t, v } => {
                let value = copy_value(self.alloc, v)?;
                self.push(u32::from(*p), u32::from(*q), InFlight { value, time: *t })
            }
            _ => Ok(()),
        }
    }

    /// A copy of message `i` of the channel from `p` to `q`, if it is there, goes to the end of the channel.
    pub fn repeat(&mut self, p: u32, q: u32, i: u32) -> Result<(), NoMemory>
        ensures count { count_of self.new ≡ count_of self.old }
        ensures stands { OnOk result (Each self.old (λ channels.
            IfSome (at_number (channel channels p q) i) (λ message.
            StandsFor self.new (with_message channels p q message)))) }
    {
        let Some(message) = self.message(p, q, i) else {
            return Ok(());
        };
        let copy = InFlight {
            value: copy_value(self.alloc, &message.value)?,
            time: message.time,
        };
        self.push(p, q, copy)
    }

    // The place of the channel from `p` to `q`, or `None` where one of them is not there.
    fn place_of(&self, p: u32, q: u32) -> Option<usize>
        ensures { MatchOption result (IsNoPair (count_of self.now) p q)
            (λ place. IsAmong (count_of self.now) p × IsAmong (count_of self.now) q
            × (place ≡ place_def (count_of self.now) p q) × (place < length self.now.queues)) }
    {
        let from = (p as usize).checked_sub(1)?;
        let to = (q as usize).checked_sub(1)?;
        if from < self.count && to < self.count {
            Some(from * self.count + to)
        } else {
            None
        }
    }
}

// Each field by its name: a further one is refused here until it is named. The queues have the messages in flight.
fn fields_are_whole(channels: &Channels) {
    let Channels {
        alloc: _,
        count: _,
        queues: _,
    } = channels;
}

/// Whether message `i` of a channel of this kind may arrive, as far as the kind decides: in a fifo kind only the first.
pub fn may_arrive(kind: ChannelKind, i: u32) -> bool
    ensures { result ≡ arrive_def kind i }
{
    match kind {
        ChannelKind::FifoReliable | ChannelKind::FifoUnreliable => i == 1,
        ChannelKind::UnorderedReliable | ChannelKind::UnorderedUnreliable => true,
    }
}

/// Whether messages may be lost in channels of this kind.
pub fn may_lose(kind: ChannelKind) -> bool
    ensures { result ≡ lose_def kind }
{
    match kind {
        ChannelKind::FifoUnreliable | ChannelKind::UnorderedUnreliable => true,
        ChannelKind::FifoReliable | ChannelKind::UnorderedReliable => false,
    }
}

/// Whether messages may be doubled in channels of this kind.
pub fn may_repeat(kind: ChannelKind) -> bool
    ensures { result ≡ repeat_def kind }
{
    match kind {
        ChannelKind::UnorderedUnreliable => true,
        ChannelKind::FifoReliable | ChannelKind::FifoUnreliable | ChannelKind::UnorderedReliable =>
            false,
    }
}
