//! Blocks of places that are parted in two where they are long, and made one where they are short.
ghost use Rattle.place_blocks.specs.Blocks.{AreBlocks, in_blocks};
ghost use Rattle.place_blocks.specs.declared.block.Block.{Block as BlockVal};
ghost use Rattle.std.specs.Prelude.{◌≡◌, ◌+◌, ◌<◌, ◌≤◌, ◌^◌, ◌++◌, IfOk, OnErr, OnOk, drop, insert, length, remove, slice_index_or, suc, take, true};

use crate::block::{Block, length_of};
use da_values::{List, NoMemory};
use std::alloc::Global;

/// With so many places a block is parted in two, unless memory for another one is refused.
const MOST: usize = 512;

/// How many places two blocks side by side have at least, unless memory for one of both is refused.
const LEAST: usize = 256;

/// Puts a block among others. Where memory is refused they are as they were.
pub fn put_block(blocks: &mut Vec<Block>, k: usize, block: Block) -> Result<(), NoMemory>
    requires { k ≤ length blocks.old.items }
    ensures ok { OnOk result (blocks.new.items ≡ insert blocks.old.items k block) }
    ensures err { OnErr result (blocks.new.items ≡ blocks.old.items) }
{
    match blocks.insert(k, block) {
        Ok(()) => Ok(()),
        Err(_) => Err(NoMemory),
    }
}

/// Takes a block out from among others.
pub fn take_block(blocks: &mut Vec<Block>, k: usize) -> Block
    requires { k < length blocks.old.items }
    ensures { blocks.new.items ≡ remove blocks.old.items k }
{
    blocks.remove(k)
}

/// Parts a block in two, if it is long. Where memory is refused it stays.
pub fn split_long(alloc: Global, blocks: &mut Vec<Block>, k: usize)
    requires blocks { AreBlocks 0 blocks.old.items }
    requires k { k < length blocks.old.items }
    requires room { length (in_blocks blocks.old.items) < 2 ^ 64 }
    ensures blocks { AreBlocks 0 blocks.new.items }
    ensures places { in_blocks blocks.new.items ≡ in_blocks blocks.old.items }
{
    let long = length_of(blocks.as_slice(), k);
    if long < MOST {
        return;
    }
    let behind = blocks.len() - k;
    let lower = lower_share(long, k == 0, behind == 1);
    let _ = split(alloc, blocks, k, lower);
}

// How many of so many places of a block stay when it is parted. Most places come behind all others, or before them: there the
// part to which none comes any more is the large one.
fn lower_share(long: usize, is_first: bool, is_last: bool) -> usize
    requires { 8 ≤ long }
    ensures some { 0 < result }
    ensures less { result < long }
{
    if is_last {
        long - long / 8
    } else if is_first {
        long / 8
    } else {
        long / 2
    }
}

// Parts a block in two: its first places, so many, and the others.
fn split(alloc: Global, blocks: &mut Vec<Block>, k: usize, lower: usize) -> Result<(), NoMemory>
    requires blocks { AreBlocks 0 blocks.old.items }
    requires k { k < length blocks.old.items }
    requires lower { 0 < lower }
    requires upper { (other : BlockVal) → lower < length (slice_index_or blocks.old.items k other).places }
    requires room { length (in_blocks blocks.old.items) < 2 ^ 64 }
    ensures blocks { AreBlocks 0 blocks.new.items }
    ensures places { in_blocks blocks.new.items ≡ in_blocks blocks.old.items }
{
    let next = k + 1;
    let upper = upper_block(alloc, blocks.as_slice(), k, lower)?;
    put_block(blocks, next, upper)?;
    cut_off(&mut blocks[k], lower);
    Ok(())
}

// A block of the places of another one behind so many.
fn upper_block(alloc: Global, blocks: &[Block], k: usize, lower: usize) -> Result<Block, NoMemory>
    requires k { k < length blocks.now }
    requires lower { (other : BlockVal) → lower ≤ length (slice_index_or blocks.now k other).places }
    requires room { (other : BlockVal) → (slice_index_or blocks.now k other).before + lower < 2 ^ 64 }
    ensures before { IfOk result (λ upper. (other : BlockVal) → upper.before ≡ (slice_index_or blocks.now k other).before + lower) }
    ensures places { IfOk result (λ upper. (other : BlockVal) → upper.places ≡ drop lower (slice_index_or blocks.now k other).places) }
{
    let block = &blocks[k];
    let before = block.before + lower;
    let halves = block.places.as_slice().split_at(lower);
    let mut places = List::new(alloc);
    append(halves.1, &mut places)?;
    Ok(Block { before, places })
}

// Leaves a block its first places, so many.
fn cut_off(block: &mut Block, lower: usize)
    ensures places { block.new.places ≡ take lower block.old.places }
    ensures before { block.new.before ≡ block.old.before }
{
    block.places.truncate(lower);
}

// Adds places behind others.
fn append(places: &[usize], list: &mut List<usize>) -> Result<(), NoMemory>
    ensures { OnOk result (list.new ≡ list.old ++ places.now) }
{
    for place in places {
        list.push(*place)?;
    }
    Ok(())
}

/// Makes a block and the one before it one, if both are there and short. Where memory is refused they stay.
pub fn join_short(alloc: Global, blocks: &mut Vec<Block>, next: usize)
    requires { AreBlocks 0 blocks.old.items }
    ensures blocks { AreBlocks 0 blocks.new.items }
    ensures places { in_blocks blocks.new.items ≡ in_blocks blocks.old.items }
{
    match next.checked_sub(1) {
        Some(k) => join_with(alloc, blocks, k, next),
        None => {}
    }
}

// The same of two blocks of which the first is there if the second is.
fn join_with(alloc: Global, blocks: &mut Vec<Block>, k: usize, next: usize)
    requires blocks { AreBlocks 0 blocks.old.items }
    requires next { next ≡ suc k }
    ensures blocks { AreBlocks 0 blocks.new.items }
    ensures places { in_blocks blocks.new.items ≡ in_blocks blocks.old.items }
{
    if are_short(blocks.as_slice(), k, next) {
        let _ = join(alloc, blocks, k, next);
    }
}

// Whether two blocks side by side are there and short.
fn are_short(blocks: &[Block], k: usize, next: usize) -> bool
    requires { k ≤ next }
    ensures { result ≡ true → next < length blocks.now }
{
    if next >= blocks.len() {
        return false;
    }
    let first = length_of(blocks, k);
    first.saturating_add(length_of(blocks, next)) < LEAST
}

// Makes two blocks side by side one.
fn join(alloc: Global, blocks: &mut Vec<Block>, k: usize, next: usize) -> Result<(), NoMemory>
    requires blocks { AreBlocks 0 blocks.old.items }
    requires next { next ≡ suc k }
    requires there { next < length blocks.old.items }
    ensures blocks { AreBlocks 0 blocks.new.items }
    ensures places { in_blocks blocks.new.items ≡ in_blocks blocks.old.items }
{
    let both = joined(alloc, blocks.as_slice(), k, next)?;
    put_places(&mut blocks[k], both);
    let _ = take_block(blocks, next);
    Ok(())
}

// The places of two blocks.
fn joined(alloc: Global, blocks: &[Block], k: usize, next: usize) -> Result<List<usize>, NoMemory>
    requires k { k < length blocks.now }
    requires next { next < length blocks.now }
    ensures { IfOk result (λ both. (other : BlockVal) → both
        ≡ (slice_index_or blocks.now k other).places ++ (slice_index_or blocks.now next other).places) }
{
    let first = &blocks[k];
    let second = &blocks[next];
    let mut both = List::new(alloc);
    append(first.places.as_slice(), &mut both)?;
    append(second.places.as_slice(), &mut both)?;
    Ok(both)
}

// Gives a block other places.
fn put_places(block: &mut Block, places: List<usize>)
    ensures places { block.new.places ≡ places }
    ensures before { block.new.before ≡ block.old.before }
{
    block.places = places;
}
