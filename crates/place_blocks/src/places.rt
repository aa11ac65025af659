//! Places in an order, in which one that comes or leaves moves few others.
ghost use Rattle.std.specs.Prelude.{◌≡◌, ◌<◌, ◌≤◌, [], OnErr, OnOk, OnSome, Some, ℕ, insert, length, remove, slice_get, slice_index_or, slice_set};

use crate::block::{Block, place_at};
use crate::edit::{insert_place, remove_place, set_place};
use da_values::NoMemory;
use std::alloc::Global;
use std::marker::Model;

/// Places in an order. They stand in blocks of fewer than 512, so a place is found by its number among the blocks, and
/// one that comes or leaves moves those of its block alone. Contracts see the places.
#[derive(Drop)]
pub struct Places {
    alloc: Global,
    blocks: Vec<Block>,
    count: usize,
}

impl Model for Places {
    ghost use Rattle.place_blocks.specs.Blocks.{AreCounted, in_blocks};
    ghost use Rattle.std.specs.Prelude.{List, ℕ};

    ghost Value = { List ℕ };

    ghost view = { λ places. in_blocks places.blocks.items };

    ghost invariant = { λ places. AreCounted places.count places.blocks.items };
}

impl Places {
    /// No places. It takes no memory.
    pub fn new(alloc: Global) -> Places
        ensures { result ≡ [] }
    {
        let blocks = Vec::new(alloc);
        Places {
            alloc,
            blocks,
            count: 0,
        }
    }

    /// How many there are.
    pub fn len(&self) -> usize
        ensures { result ≡ length self.now }
    {
        self.count
    }

    /// What stands at a place of the order, counted from 0, or `None` exactly where there is none.
    pub fn get(&self, at: usize) -> Option<usize>
        ensures value { result ≡ slice_get self.now at }
        ensures within { OnSome result (at < length self.now) }
    {
        if at < self.count {
            Some(place_at(self.blocks.as_slice(), at))
        } else {
            None
        }
    }

    /// The same of a place that is there.
    pub fn at(&self, at: usize) -> usize
        requires { at < length self.now }
        ensures { (other : ℕ) → result ≡ slice_index_or self.now at other }
    {
        place_at(self.blocks.as_slice(), at)
    }

    /// Puts one at a place of the order, and moves those from there on up. Where memory is refused the order is as it was.
    pub fn insert(&mut self, at: usize, place: usize) -> Result<(), NoMemory>
        requires { at ≤ length self.old }
        ensures ok { OnOk result (self.new ≡ insert self.old at place) }
        ensures err { OnErr result (self.new ≡ self.old) }
    {
        insert_place(self.alloc, &mut self.blocks, &mut self.count, at, place)
    }

    /// Takes the one at a place of the order out, and moves those after it down.
    pub fn remove(&mut self, at: usize) -> usize
        requires { at < length self.old }
        ensures value { slice_get self.old at ≡ Some result }
        ensures rest { self.new ≡ remove self.old at }
    {
        remove_place(self.alloc, &mut self.blocks, &mut self.count, at)
    }

    /// Puts another one at a place of the order that is there. It takes no memory.
    pub fn set(&mut self, at: usize, place: usize)
        requires { at < length self.old }
        ensures { self.new ≡ slice_set self.old at place }
    {
        set_place(&mut self.blocks, at, place);
    }
}
