//! Blocks of places, when one comes into their order or leaves it.
ghost use Rattle.place_blocks.specs.Blocks.{AreBegun, AreBlocks, AreCounted, IsBlockAt, in_blocks};
ghost use Rattle.place_blocks.specs.declared.block.Block.{Block as BlockVal};
ghost use Rattle.std.specs.Prelude.{◌≡◌, ◌+◌, ◌<◌, ◌≤◌, ◌^◌, ◌∷◌, [], IfOk, OnErr, OnOk, Some, ℕ, insert, length, remove, slice_get, slice_index_or, slice_set};

use crate::block::{
    Block, before_of, block_of, length_of, number_block, place_at, put_into, put_over, take_from,
};
use crate::join::{join_short, put_block, split_long, take_block};
use da_values::{List, NoMemory};
use std::alloc::Global;

/// Puts one at a place of an order of so many. Where memory is refused the order is as it was.
pub fn insert_place(
    alloc: Global,
    blocks: &mut Vec<Block>,
    count: &mut usize,
    at: usize,
    place: usize,
) -> Result<(), NoMemory>
    requires counted { AreCounted count.old blocks.old.items }
    requires at { at ≤ length (in_blocks blocks.old.items) }
    ensures ok { OnOk result (in_blocks blocks.new.items ≡ insert (in_blocks blocks.old.items) at place) }
    ensures err { OnErr result (in_blocks blocks.new.items ≡ in_blocks blocks.old.items) }
    ensures counted { AreCounted count.new blocks.new.items }
{
    let more = one_more(*count)?;
    put_place(alloc, blocks, at, place)?;
    *count = more;
    Ok(())
}

// One more, where a number has place for it.
fn one_more(count: usize) -> Result<usize, NoMemory>
    ensures more { IfOk result (λ more. more ≡ count + 1) }
    ensures room { OnOk result (count + 1 < 2 ^ 64) }
{
    match count.checked_add(1) {
        Some(more) => Ok(more),
        None => Err(NoMemory),
    }
}

// Puts one at a place of an order. Where memory is refused the order is as it was.
fn put_place(
    alloc: Global,
    blocks: &mut Vec<Block>,
    at: usize,
    place: usize,
) -> Result<(), NoMemory>
    requires blocks { AreBlocks 0 blocks.old.items }
    requires at { at ≤ length (in_blocks blocks.old.items) }
    requires room { length (in_blocks blocks.old.items) + 1 < 2 ^ 64 }
    ensures ok { OnOk result (in_blocks blocks.new.items ≡ insert (in_blocks blocks.old.items) at place) }
    ensures err { OnErr result (in_blocks blocks.new.items ≡ in_blocks blocks.old.items) }
    ensures blocks { AreBlocks 0 blocks.new.items }
{
    if blocks.len() == 0 {
        put_first(alloc, blocks, place)
    } else {
        put_among(alloc, blocks, at, place)
    }
}

// Puts one into an order of none.
fn put_first(alloc: Global, blocks: &mut Vec<Block>, place: usize) -> Result<(), NoMemory>
    requires { blocks.old.items ≡ [] }
    ensures ok { OnOk result (in_blocks blocks.new.items ≡ place ∷ []) }
    ensures err { OnErr result (blocks.new.items ≡ []) }
    ensures blocks { AreBlocks 0 blocks.new.items }
{
    let mut places = List::new(alloc);
    places.push(place)?;
    put_block(blocks, 0, Block { before: 0, places })?;
    Ok(())
}

// Puts one at a place of an order that has some.
fn put_among(
    alloc: Global,
    blocks: &mut Vec<Block>,
    at: usize,
    place: usize,
) -> Result<(), NoMemory>
    requires blocks { AreBlocks 0 blocks.old.items }
    requires some { 0 < length blocks.old.items }
    requires at { at ≤ length (in_blocks blocks.old.items) }
    requires room { length (in_blocks blocks.old.items) + 1 < 2 ^ 64 }
    ensures ok { OnOk result (in_blocks blocks.new.items ≡ insert (in_blocks blocks.old.items) at place) }
    ensures err { OnErr result (in_blocks blocks.new.items ≡ in_blocks blocks.old.items) }
    ensures blocks { AreBlocks 0 blocks.new.items }
{
    let k = block_of(blocks.as_slice(), at);
    let before = before_of(blocks.as_slice(), k);
    put_into(&mut blocks[k], at, place)?;
    renumber(blocks, k, before);
    split_long(alloc, blocks, k);
    Ok(())
}

/// Takes the one at a place out of an order of so many, and hands it out. It takes no memory but to make short blocks one,
/// and does without where that is refused.
pub fn remove_place(alloc: Global, blocks: &mut Vec<Block>, count: &mut usize, at: usize) -> usize
    requires counted { AreCounted count.old blocks.old.items }
    requires at { at < length (in_blocks blocks.old.items) }
    ensures value { slice_get (in_blocks blocks.old.items) at ≡ Some result }
    ensures rest { in_blocks blocks.new.items ≡ remove (in_blocks blocks.old.items) at }
    ensures counted { AreCounted count.new blocks.new.items }
{
    let less = *count - 1;
    let place = place_at(blocks.as_slice(), at);
    take_place(alloc, blocks, at);
    *count = less;
    place
}

// Takes the one at a place out of an order.
fn take_place(alloc: Global, blocks: &mut Vec<Block>, at: usize)
    requires blocks { AreBlocks 0 blocks.old.items }
    requires at { at < length (in_blocks blocks.old.items) }
    requires room { length (in_blocks blocks.old.items) < 2 ^ 64 }
    ensures rest { in_blocks blocks.new.items ≡ remove (in_blocks blocks.old.items) at }
    ensures blocks { AreBlocks 0 blocks.new.items }
{
    let k = block_of(blocks.as_slice(), at);
    let long = length_of(blocks.as_slice(), k);
    if long == 1 {
        drop_block(blocks, k);
    } else {
        take_within(alloc, blocks, k, at);
    }
}

// Drops a block that has one place.
fn drop_block(blocks: &mut Vec<Block>, k: usize)
    requires blocks { AreBlocks 0 blocks.old.items }
    requires k { k < length blocks.old.items }
    requires single { (other : BlockVal) → length (slice_index_or blocks.old.items k other).places ≡ 1 }
    requires room { length (in_blocks blocks.old.items) < 2 ^ 64 }
    ensures rest { (at : ℕ) → IsBlockAt blocks.old.items at k → at < length (in_blocks blocks.old.items)
        → in_blocks blocks.new.items ≡ remove (in_blocks blocks.old.items) at }
    ensures blocks { AreBlocks 0 blocks.new.items }
{
    let before = before_of(blocks.as_slice(), k);
    let _ = take_block(blocks, k);
    renumber(blocks, k, before);
}

// Takes the one at a place out of its block, which has others.
fn take_within(alloc: Global, blocks: &mut Vec<Block>, k: usize, at: usize)
    requires blocks { AreBlocks 0 blocks.old.items }
    requires there { IsBlockAt blocks.old.items at k }
    requires at { at < length (in_blocks blocks.old.items) }
    requires others { (other : BlockVal) → 1 < length (slice_index_or blocks.old.items k other).places }
    requires room { length (in_blocks blocks.old.items) < 2 ^ 64 }
    ensures rest { in_blocks blocks.new.items ≡ remove (in_blocks blocks.old.items) at }
    ensures blocks { AreBlocks 0 blocks.new.items }
{
    let next = k + 1;
    let before = before_of(blocks.as_slice(), k);
    let _ = take_from(&mut blocks[k], at);
    renumber(blocks, k, before);
    join_short(alloc, blocks, next);
    join_short(alloc, blocks, k);
}

/// Puts another one at a place of an order. It takes no memory.
pub fn set_place(blocks: &mut Vec<Block>, at: usize, place: usize)
    requires blocks { AreBlocks 0 blocks.old.items }
    requires at { at < length (in_blocks blocks.old.items) }
    ensures places { in_blocks blocks.new.items ≡ slice_set (in_blocks blocks.old.items) at place }
    ensures blocks { AreBlocks 0 blocks.new.items }
{
    let k = block_of(blocks.as_slice(), at);
    put_over(&mut blocks[k], at, place);
}

// Says of the blocks from one on how many places stand before them.
fn renumber(blocks: &mut Vec<Block>, first: usize, before: usize)
    requires first { first ≤ length blocks.old.items }
    requires begun { AreBegun first before blocks.old.items }
    requires room { length (in_blocks blocks.old.items) < 2 ^ 64 }
    ensures blocks { AreBlocks 0 blocks.new.items }
    ensures places { in_blocks blocks.new.items ≡ in_blocks blocks.old.items }
    ensures long { length blocks.new.items ≡ length blocks.old.items }
{
    let mut next = before;
    for k in first..blocks.len() {
        next = number_block(&mut blocks[k], next);
    }
}
