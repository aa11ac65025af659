//! The events of one process or one channel that may be picked, one after the other.
ghost use Rattle.da_lang.specs.World.{at_number};
ghost use Rattle.da_system.specs.Choices.{alternatives_at as alternatives_at_def, deliveries_to, is_allowed, moves_of};
ghost use Rattle.da_system.specs.Counts.{allowed_in};
ghost use Rattle.da_system.specs.Network.{Whichever, program_of};
ghost use Rattle.da_system.specs.Picking.{Finds, IsOfAtMost, alternatives_of as alternatives_def};
ghost use Rattle.std.specs.List.{filter};
ghost use Rattle.std.specs.Prelude.{◌≡◌, ◌+◌, ◌≤◌, ◌^◌, ◌∷◌, []};

use crate::network::Network;
use da_core::Place;
use da_lang::Event;

/// How many messages of a channel may be picked, at most: the first ones.
const PICKED: u32 = 4;

impl Network<'_> {
    /// How many moves of process `p` are allowed, with its timeout. It takes no memory.
    pub(crate) fn moves(&self, p: u32) -> usize
        ensures number { Whichever self.now (λ s.
            result ≡ allowed_in (program_of self.now) s (moves_of s p)) }
        ensures few { result ≤ 2 ^ 32 + 1 }
    {
        match self.find_move_of(p, usize::MAX) {
            Ok(_) => unreachable!(),
            Err(past) => usize::MAX - past,
        }
    }

    /// How many of the first four messages from process `p` to process `q` may arrive. It takes no memory.
    pub(crate) fn deliveries(&self, p: u32, q: u32) -> usize
        ensures number { Whichever self.now (λ s.
            result ≡ allowed_in (program_of self.now) s (deliveries_to p q)) }
        ensures few { result ≤ 4 }
    {
        match self.find_delivery_to(p, q, usize::MAX) {
            Ok(_) => unreachable!(),
            Err(past) => usize::MAX - past,
        }
    }

    /// Event `j` of the moves of process `p` that are allowed, counted from 0, with its timeout after them, or by how much `j` is
    /// past the last of them. It takes no memory.
    pub(crate) fn find_move_of(&self, p: u32, j: usize) -> Result<Event, usize>
        ensures found { Whichever self.now (λ s.
            Finds (filter (is_allowed (program_of self.now) s) (moves_of s p)) j result) }
        ensures few { IsOfAtMost (2 ^ 32 + 1) j result }
    {
        let mut left = match self.find_one(Event::Move { p }, j) {
            Ok(event) => return Ok(event),
            Err(past) => past,
        };
        for place in 0..self.alternatives(p) {
            match self.find_one(Event::Take { p, k: place + 1 }, left) {
                Ok(event) => return Ok(event),
                Err(past) => left = past,
            }
        }
        self.find_one(Event::Timeout { p }, left)
    }

    /// The same among the deliveries of the first four messages from process `p` to process `q`. It takes no memory.
    pub(crate) fn find_delivery_to(&self, p: u32, q: u32, j: usize) -> Result<Event, usize>
        ensures found { Whichever self.now (λ s.
            Finds (filter (is_allowed (program_of self.now) s) (deliveries_to p q)) j result) }
        ensures few { IsOfAtMost 4 j result }
    {
        if self.in_flight(p, q) == 0 {
            return Err(j);
        }
        let mut left = j;
        for place in 0..PICKED {
            match self.find_one(Event::Deliver { p, q, i: place + 1 }, left) {
                Ok(event) => return Ok(event),
                Err(past) => left = past,
            }
        }
        Err(left)
    }

    // The same where this is the only event.
    fn find_one(&self, e: Event, j: usize) -> Result<Event, usize>
        ensures found { Whichever self.now (λ s.
            Finds (filter (is_allowed (program_of self.now) s) (e ∷ [])) j result) }
        ensures few { IsOfAtMost 1 j result }
    {
        if !self.may_step(&e) {
            return Err(j);
        }
        match j.checked_sub(1) {
            Some(past) => Err(past),
            None => Ok(e),
        }
    }

    // How many alternatives process `p` may have to take: those of the `await` at which it waits.
    fn alternatives(&self, p: u32) -> u32
        ensures { Whichever self.now (λ s. result ≡ alternatives_at_def (at_number s.worlds p)) }
    {
        match self.core(p) {
            Some(core) => alternatives_at(core.place()),
            None => 0,
        }
    }
}

// The alternatives of the `await` at which a process stands.
fn alternatives_at(place: Place) -> u32
    ensures { result ≡ alternatives_def place }
{
    match place {
        Place::Await(count) => count,
        Place::New | Place::Label | Place::Ended | Place::Faulted => 0,
    }
}
