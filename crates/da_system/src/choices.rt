//! The events that may be picked in the state of a system.
//!
//! To find one of them, and to count them, the kept counts of the processes are walked, and then those of the senders. Only
//! the process or the channel that has the event is looked at itself.
ghost use Rattle.da_system.specs.Choices.{choices, deliveries_from, deliveries_to, is_allowed, moves_of, processes};
ghost use Rattle.da_system.specs.Picking.{Finds, HasChoice, IsOfAtMost, IsPast};
ghost use Rattle.da_system.specs.State.{Whichever, is_spent, program_of};
ghost use Rattle.da_system.specs.SystemStep.{sys_step};
ghost use Rattle.std.specs.List.{filter, flat_map};
ghost use Rattle.std.specs.Prelude.{◌≡◌, ◌+◌, ◌^◌, Some, IfSome, IsSome, length, slice_get, true};

use crate::system::System;
use da_lang::Event;

impl System<'_> {
    /// How many events may be picked: the moves and timeouts of the processes that are allowed, and the deliveries that are
    /// allowed of one of the first four messages of a channel. On a spent system there are none. It takes no memory.
    pub fn choices(&self) -> usize
        ensures spent { is_spent self.now ≡ true → result ≡ 0 }
        ensures number { Whichever self.now (λ s.
            result ≡ length (choices (program_of self.now) s)) }
    {
        let spent = self.network.spent;
        if spent {
            return 0;
        }
        match self.find(usize::MAX) {
            Ok(_) => unreachable!(),
            Err(past) => usize::MAX - past,
        }
    }

    /// Event `j` of those that may be picked, counted from 0: first the moves by the numbers of their processes and
    /// alternatives, with the timeout of a process after them, and then the deliveries by the numbers of their senders,
    /// recipients and messages. It takes no memory.
    pub fn choice(&self, j: usize) -> Event
        requires { HasChoice self.now j }
        ensures event { Whichever self.now (λ s.
            slice_get (choices (program_of self.now) s) j ≡ Some result) }
        ensures allowed { Whichever self.now (λ s.
            IsSome (sys_step (program_of self.now) s result)) }
    {
        match self.find(j) {
            Ok(event) => event,
            Err(_) => unreachable!(),
        }
    }

    // Event `j` of those that may be picked, or by how much `j` is past the last of them.
    fn find(&self, j: usize) -> Result<Event, usize>
        ensures found { Whichever self.now (λ s. Finds (choices (program_of self.now) s) j result) }
        ensures few { IsOfAtMost (2 ^ 49) j result }
    {
        match self.find_move(j) {
            Ok(event) => Ok(event),
            Err(past) => self.find_delivery(past),
        }
    }

    // The same among the moves and timeouts.
    fn find_move(&self, j: usize) -> Result<Event, usize>
        ensures found { Whichever self.now (λ s.
            Finds (filter (is_allowed (program_of self.now) s) (flat_map (moves_of s) (processes s))) j result) }
        ensures few { IsOfAtMost (2 ^ 48) j result }
    {
        let mut left = j;
        for place in 0..self.network.channels.processes() {
            match self.find_move_of(place + 1, left) {
                Ok(event) => return Ok(event),
                Err(past) => left = past,
            }
        }
        Err(left)
    }

    // The same among the moves of process `p`, with its timeout.
    fn find_move_of(&self, p: u32, j: usize) -> Result<Event, usize>
        ensures found { Whichever self.now (λ s.
            Finds (filter (is_allowed (program_of self.now) s) (moves_of s p)) j result) }
        ensures few { IsOfAtMost (2 ^ 32 + 1) j result }
    {
        match past(j, self.counts.moves(p)) {
            Some(past) => Err(past),
            None => self.network.find_move_of(p, j),
        }
    }

    // The same among the deliveries.
    fn find_delivery(&self, j: usize) -> Result<Event, usize>
        ensures found { Whichever self.now (λ s.
            Finds (filter (is_allowed (program_of self.now) s) (flat_map (deliveries_from s) (processes s))) j result) }
        ensures few { IsOfAtMost (2 ^ 34) j result }
    {
        let mut left = j;
        for place in 0..self.network.channels.processes() {
            match self.find_delivery_from(place + 1, left) {
                Ok(event) => return Ok(event),
                Err(past) => left = past,
            }
        }
        Err(left)
    }

    // The same among the deliveries from process `p`.
    fn find_delivery_from(&self, p: u32, j: usize) -> Result<Event, usize>
        ensures found { Whichever self.now (λ s.
            Finds (filter (is_allowed (program_of self.now) s) (deliveries_from s p)) j result) }
        ensures few { IsOfAtMost (2 ^ 18) j result }
    {
        match past(j, self.counts.deliveries_from(p)) {
            Some(past) => Err(past),
            None => self.find_recipient(p, j),
        }
    }

    // The same, where the recipients are walked.
    fn find_recipient(&self, p: u32, j: usize) -> Result<Event, usize>
        ensures found { Whichever self.now (λ s.
            Finds (filter (is_allowed (program_of self.now) s) (deliveries_from s p)) j result) }
        ensures few { IsOfAtMost (2 ^ 18) j result }
    {
        let mut left = j;
        for place in 0..self.network.channels.processes() {
            match self.find_delivery_to(p, place + 1, left) {
                Ok(event) => return Ok(event),
                Err(past) => left = past,
            }
        }
        Err(left)
    }

    // The same among the deliveries from process `p` to process `q`.
    fn find_delivery_to(&self, p: u32, q: u32, j: usize) -> Result<Event, usize>
        ensures found { Whichever self.now (λ s.
            Finds (filter (is_allowed (program_of self.now) s) (deliveries_to p q)) j result) }
        ensures few { IsOfAtMost 4 j result }
    {
        match past(j, self.counts.deliveries(p, q)) {
            Some(past) => Err(past),
            None => self.network.find_delivery_to(p, q, j),
        }
    }
}

// By how much `j` is past so many events, if it is none of them.
fn past(j: usize, count: Option<usize>) -> Option<usize>
    ensures { IfSome result (λ past. IsPast j count past) }
{
    match count {
        Some(number) => j.checked_sub(number),
        None => None,
    }
}
