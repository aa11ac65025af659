//! The messages in flight between all processes.
ghost use Rattle.da_system.specs.Channels.{channel, no_messages};
ghost use Rattle.std.specs.Prelude.{◌≡◌, ◌<◌, ◌^◌, [], ◌∷◌, ℕ, IfOk, IsTrue, OnOk, length, replicate};
ghost use Rattle.trace_join.specs.Fetching.{Fetches, IsGot, IsSent, message_in};
ghost use Rattle.trace_join.specs.Sending.{IsOneOf, Pushes, SameElsewhere, Sends, SendsFromOne, channel_to};

use crate::fetch::{Wanted, fetch};
use crate::queue::Queue;
use crate::schedule::Schedule;
use da_lang::{Action, ChannelKind};
use da_values::NoMemory;
use std::alloc::Global;
use std::marker::Model;

/// The channels from one process to each one, in the order of their numbers.
#[derive(Drop)]
struct Row<'t> {
    queues: Vec<Queue<'t>>,
}

impl<'t> Model for Row<'t> {
    ghost use Rattle.da_system.specs.Channels.{MessageInFlight};
    ghost use Rattle.da_values.specs.contracts.val.Val as val;
    ghost use Rattle.std.specs.Coded.{coded_list, codes};
    ghost use Rattle.std.specs.Prelude.{List};

    ghost Value = { List (List MessageInFlight) };

    ghost coded = { coded_list (coded_list (Prim.hlevel (codes, val.the_row.coded))) };

    ghost view = { λ row. row.queues.items };
}

impl<'t> Row<'t> {
    // Empty channels to so many processes.
    fn new(alloc: Global, count: usize) -> Result<Row<'t>, NoMemory>
        ensures { IfOk result (λ row. row ≡ replicate count []) }
    {
        let mut queues = Vec::new(alloc);
        for _place in 0..count {
            if queues.push(Queue::new(alloc)).is_err() {
                return Err(NoMemory);
            }
        }
        Ok(Row { queues })
    }

    // What the process sends by these actions goes to the ends of the channels.
    fn send(&mut self, told: &'t [Action]) -> Result<(), NoMemory>
        ensures length { length self.new ≡ length self.old }
        ensures sends { OnOk result (SendsFromOne told.now self.old self.new) }
    {
        for action in told {
            self.send_one(action)?;
        }
        Ok(())
    }

    // The same of one action.
    fn send_one(&mut self, action: &'t Action) -> Result<(), NoMemory>
        ensures length { length self.new ≡ length self.old }
        ensures sends { OnOk result (SendsFromOne (action.now ∷ []) self.old self.new) }
    {
        match action {
            Action::Sent { q, .. } => self.push(usize::from(*q), action),
            _ => Ok(()),
        }
    }

    // The message that the action sends goes to the end of the channel to process `to`, if that is there.
    fn push(&mut self, to: usize, sent: &'t Action) -> Result<(), NoMemory>
        requires { IsSent sent.now }
        ensures length { length self.new ≡ length self.old }
        ensures pushes { OnOk result (Pushes self.old self.new to (message_in sent.now)) }
    {
        if to == 0 || to > self.queues.len() {
            return Ok(());
        }
        self.queues[to - 1].push(sent)
    }

    // Takes the message that is waited for out of its channel, or answers `false` where it cannot arrive.
    fn fetch(
        &mut self,
        kind: ChannelKind,
        wanted: &Wanted<'_>,
        events: &mut Schedule,
    ) -> Result<bool, NoMemory>
        requires to { IsOneOf (length self.old) wanted.now.to }
        requires got { IsGot wanted.now.got.now }
        ensures length { length self.new ≡ length self.old }
        ensures fetches { IfOk result (λ found. Fetches kind wanted.now found
            (channel_to self.old wanted.now.to) (channel_to self.new wanted.now.to) events.old events.new) }
        ensures others { (q : ℕ) → (q ≡ wanted.now.to → ⊥) → channel_to self.new q ≡ channel_to self.old q }
    {
        fetch(
            kind,
            &mut self.queues[wanted.to as usize - 1],
            wanted,
            events,
        )
    }
}

/// The channels from each process, in the order of their numbers. Contracts see the messages of all.
#[derive(Drop)]
pub(crate) struct Queues<'t> {
    rows: Vec<Row<'t>>,
}

impl<'t> Model for Queues<'t> {
    ghost use Rattle.da_system.specs.Channels.{Channels};
    ghost use Rattle.da_system.specs.SoundState.{IsSquare};
    ghost use Rattle.da_values.specs.contracts.val.Val as val;
    ghost use Rattle.std.specs.Coded.{coded_list, codes};
    ghost use Rattle.std.specs.Prelude.{length};

    ghost Value = { Channels };

    ghost coded = { coded_list (coded_list (coded_list (Prim.hlevel (codes, val.the_row.coded)))) };

    ghost view = { λ queues. queues.rows.items };

    ghost invariant = { λ queues. IsSquare (length queues.rows.items) queues.rows.items };
}

impl<'t> Queues<'t> {
    /// No messages between so many processes.
    pub(crate) fn new(alloc: Global, count: usize) -> Result<Queues<'t>, NoMemory>
        ensures { IfOk result (λ queues. queues ≡ no_messages count) }
    {
        let mut rows = Vec::new(alloc);
        for _place in 0..count {
            if rows.push(Row::new(alloc, count)?).is_err() {
                return Err(NoMemory);
            }
        }
        Ok(Queues { rows })
    }

    /// What process `me` sends by these actions goes to the ends of its channels.
    pub(crate) fn send(&mut self, me: u32, told: &'t [Action]) -> Result<(), NoMemory>
        requires { IsOneOf (length self.old) me }
        ensures length { length self.new ≡ length self.old }
        ensures sends { OnOk result (Sends me told.now self.old self.new) }
    {
        self.rows[me as usize - 1].send(told)
    }

    /// Takes the message that is waited for out of its channel, and adds the events of it, or answers `false` where it
    /// cannot arrive.
    pub(crate) fn fetch(
        &mut self,
        kind: ChannelKind,
        wanted: &Wanted<'_>,
        events: &mut Schedule,
    ) -> Result<bool, NoMemory>
        requires to { IsOneOf (length self.old) wanted.now.to }
        requires got { IsGot wanted.now.got.now }
        ensures length { length self.new ≡ length self.old }
        ensures fetches { IfOk result (λ found. Fetches kind wanted.now found
            (channel self.old wanted.now.from wanted.now.to) (channel self.new wanted.now.from wanted.now.to) events.old events.new) }
        ensures from { IfOk result (λ found. IsTrue found → IsOneOf (length self.old) wanted.now.from) }
        ensures others { SameElsewhere wanted.now.from wanted.now.to self.old self.new }
    {
        let from = wanted.from as usize;
        if from == 0 || from > self.rows.len() {
            return Ok(false);
        }
        self.rows[from - 1].fetch(kind, wanted, events)
    }
}
