//! One channel.
ghost use Rattle.std.specs.Option.{option_copied};
ghost use Rattle.std.specs.Prelude.{◌≡◌, [], ◌∷◌, ◌++◌, OnErr, OnOk, length, remove, slice_get};

use da_values::{NoMemory, Value};
use std::alloc::Global;
use std::collections::VecDeque;
use std::marker::Model;

/// A message in flight, with the time of its sending.
#[derive(Drop)]
pub struct InFlight {
    pub value: Value,
    pub time: u64,
}

/// The messages in flight in one channel, the eldest first, which is all that a contract sees.
#[derive(Drop)]
pub struct Queue {
    messages: VecDeque<InFlight>,
}

impl Model for Queue {
    ghost use Rattle.da_system.specs.contracts.queue.InFlight as message;
    ghost use Rattle.da_system.specs.declared.queue.InFlight.{InFlight};
    ghost use Rattle.std.specs.Coded.{coded_list};
    ghost use Rattle.std.specs.Prelude.{List};

    ghost Value = { List InFlight };

    ghost coded = { coded_list message.the_row.coded };

    ghost view = { λ queue. queue.messages.items };
}

impl Queue {
    /// An empty channel. It takes no memory.
    pub fn new(alloc: Global) -> Queue
        ensures { result ≡ [] }
    {
        Queue {
            messages: VecDeque::new(alloc),
        }
    }

    /// How many messages there are. It takes no memory.
    pub fn len(&self) -> usize
        ensures { result ≡ length self.now }
    {
        self.messages.len()
    }

    /// The message at a place, counted from 0, or `None` where there is none. It takes no memory.
    pub fn get(&self, at: usize) -> Option<&InFlight>
        ensures { option_copied result ≡ slice_get self.now at }
    {
        self.messages.get(at)
    }

    /// The message at a place, counted from 0, leaves the channel, or `None` where there is none. It takes no memory, and
    /// time in step with the distance from the nearer end.
    pub fn remove(&mut self, at: usize) -> Option<InFlight>
        ensures value { result ≡ slice_get self.old at }
        ensures items { self.new ≡ remove self.old at }
    {
        self.messages.remove(at)
    }

    /// A message goes to the end of the channel. Where memory is refused it is dropped, and the channel is as it was.
    pub fn push(&mut self, message: InFlight) -> Result<(), NoMemory>
        ensures ok { OnOk result (self.new ≡ self.old ++ message ∷ []) }
        ensures err { OnErr result (self.new ≡ self.old) }
    {
        match self.messages.push_back(message) {
            Ok(()) => Ok(()),
            Err(_) => Err(NoMemory),
        }
    }
}

// Each field by its name: a further one is refused here until it is named.
fn fields_are_whole(queue: &Queue) {
    let Queue { messages: _ } = queue;
}
