//! Blocks of places: which one has a place of the order, and what one that comes or leaves changes in it.
ghost use Rattle.place_blocks.specs.Blocks.{AreBlocks, IsBlockAt, in_blocks};
ghost use Rattle.place_blocks.specs.declared.block.Block.{Block as BlockVal};
ghost use Rattle.std.specs.Prelude.{◌≡◌, ◌+◌, ◌-◌, ◌<◌, ◌≤◌, ◌^◌, OnErr, OnOk, Some, insert, length, nat_le, remove, slice_get, slice_index_or, slice_set};

use da_values::{List, NoMemory};

/// Places that stand side by side in an order, and how many places of the order stand before them.
#[derive(Drop)]
pub struct Block {
    pub before: usize,
    pub places: List<usize>,
}

// Whether a block begins at a place of the order, or before it.
fn is_begun(block: &Block, at: usize) -> bool
    ensures { result ≡ nat_le block.now.before at }
{
    block.before <= at
}

/// The number of the block in which a place of the order is. Behind all places it is the last one.
pub fn block_of(blocks: &[Block], at: usize) -> usize
    requires blocks { AreBlocks 0 blocks.now }
    requires some { 0 < length blocks.now }
    requires at { at ≤ length (in_blocks blocks.now) }
    ensures { IsBlockAt blocks.now at result }
{
    let begun = blocks.partition_point(|block| is_begun(block, at));
    begun.saturating_sub(1)
}

/// How many places stand before a block.
pub fn before_of(blocks: &[Block], k: usize) -> usize
    requires { k < length blocks.now }
    ensures { (other : BlockVal) → result ≡ (slice_index_or blocks.now k other).before }
{
    let block = &blocks[k];
    block.before
}

/// How many places a block has.
pub fn length_of(blocks: &[Block], k: usize) -> usize
    requires { k < length blocks.now }
    ensures { (other : BlockVal) → result ≡ length (slice_index_or blocks.now k other).places }
{
    let block = &blocks[k];
    block.places.len()
}

/// What stands at a place of the order.
pub fn place_at(blocks: &[Block], at: usize) -> usize
    requires blocks { AreBlocks 0 blocks.now }
    requires at { at < length (in_blocks blocks.now) }
    ensures { slice_get (in_blocks blocks.now) at ≡ Some result }
{
    let k = block_of(blocks, at);
    let block = &blocks[k];
    let inner = at - block.before;
    let places = block.places.as_slice();
    places[inner]
}

/// Puts one into a block at a place of the order. Where memory is refused the block is as it was.
pub fn put_into(block: &mut Block, at: usize, place: usize) -> Result<(), NoMemory>
    requires begun { block.old.before ≤ at }
    requires ended { at ≤ block.old.before + length block.old.places }
    ensures ok { OnOk result (block.new.places ≡ insert block.old.places (at - block.old.before) place) }
    ensures before { block.new.before ≡ block.old.before }
    ensures err { OnErr result (block.new ≡ block.old) }
{
    let inner = at - block.before;
    block.places.insert(inner, place)?;
    Ok(())
}

/// Takes the one at a place of the order out of a block.
pub fn take_from(block: &mut Block, at: usize) -> usize
    requires begun { block.old.before ≤ at }
    requires inside { at < block.old.before + length block.old.places }
    ensures value { slice_get block.old.places (at - block.old.before) ≡ Some result }
    ensures rest { block.new.places ≡ remove block.old.places (at - block.old.before) }
    ensures before { block.new.before ≡ block.old.before }
{
    let inner = at - block.before;
    block.places.remove(inner)
}

/// Puts another one at a place of the order that a block has.
pub fn put_over(block: &mut Block, at: usize, place: usize)
    requires begun { block.old.before ≤ at }
    requires inside { at < block.old.before + length block.old.places }
    ensures places { block.new.places ≡ slice_set block.old.places (at - block.old.before) place }
    ensures before { block.new.before ≡ block.old.before }
{
    let inner = at - block.before;
    block.places.set(inner, place);
}

/// Says how many places stand before a block, and answers how many stand before the next one.
pub fn number_block(block: &mut Block, before: usize) -> usize
    requires { before + length block.old.places < 2 ^ 64 }
    ensures next { result ≡ before + length block.old.places }
    ensures before { block.new.before ≡ before }
    ensures places { block.new.places ≡ block.old.places }
{
    let next = before + block.places.len();
    block.before = before;
    next
}
