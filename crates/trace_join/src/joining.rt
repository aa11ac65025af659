//! One schedule that has given traces.
ghost use Rattle.da_core.specs.Compiled.{IsCompiled, program_of};
ghost use Rattle.std.specs.Prelude.{◌≡◌, ◌-◌, ◌≤◌, ◌<◌, ◌^◌, ◌++◌, All, IfOk, IsErrOf, OnOk, length, map};
ghost use Rattle.trace_join.specs.Blocks.{NoLonger, block_of, blocks_left};
ghost use Rattle.trace_join.specs.Joins.{AreBlocks, AreTraces, Joined, NoneJoins};
ghost use Rattle.trace_join.specs.Names.{IsNameable};
ghost use Rattle.trace_join.specs.Repeats.{TellRepeats};
ghost use Rattle.trace_join.specs.Searching.{AllRepeats};

use crate::cutting::cut_all;
use crate::fault::{Block, JoinFault};
use crate::repeats::repeats;
use crate::search::Search;
use crate::track::Track;
use da_core::Compiled;
use da_lang::{Action, ChannelKind, Event};
use da_values::{List, NoMemory};
use std::alloc::Global;

/// A schedule whose run has these traces: that of each process, in the order of their numbers. Where several processes can
/// go on, the least one does. The schedule has numbers that its lines can have.
pub fn join(
    alloc: Global,
    compiled: &Compiled,
    traces: &[List<Action>],
) -> Result<List<Event>, JoinFault>
    requires compiled { IsCompiled compiled.now }
    requires traces { AreTraces (program_of compiled.now) traces.now }
    ensures joined { IfOk result (λ events. Joined (program_of compiled.now) traces.now events) }
    ensures named { IfOk result (All IsNameable) }

    // Where none has them, the blocks are the processes that do not reach the end of their traces.
    ensures none { (blocks : _) → IsErrOf result (JoinFault.Blocked blocks)
        → NoneJoins (program_of compiled.now) traces.now }
    ensures blocks { (blocks : _) → IsErrOf result (JoinFault.Blocked blocks)
        → AreBlocks (program_of compiled.now) traces.now (map (λ b. (b.process, b.line)) blocks) }
{
    let cuts = cut_all(alloc, compiled, traces)?;
    let repeats = all_repeats(alloc, compiled.program().kind, traces)?;
    let mut search = Search::new(alloc, compiled, traces, cuts.as_slice(), repeats.as_slice())?;
    search.exhaust()?;
    let blocks = blocks_of(alloc, traces, search.tracks())?;
    if blocks.len() > 0 {
        return Err(JoinFault::Blocked(blocks));
    }
    Ok(search.into_events())
}

// Of each trace, which messages it gets more than once. It is asked only where messages can be doubled.
fn all_repeats(
    alloc: Global,
    kind: ChannelKind,
    traces: &[List<Action>],
) -> Result<List<List<bool>>, NoMemory>
    ensures length { IfOk result (λ all. length all ≡ length traces.now) }
    ensures repeats { IfOk result (AllRepeats traces.now) }
{
    let mut all = List::new(alloc);
    for trace in traces {
        all.push(repeats_for(alloc, kind, trace.as_slice())?)?;
    }
    Ok(all)
}

// The same of one trace.
fn repeats_for(alloc: Global, kind: ChannelKind, trace: &[Action]) -> Result<List<bool>, NoMemory>
    ensures { IfOk result (TellRepeats trace.now) }
{
    match kind {
        ChannelKind::UnorderedUnreliable => repeats(alloc, trace),
        _ => Ok(List::new(alloc)),
    }
}

// The processes of whose trace something is left.
fn blocks_of(
    alloc: Global,
    traces: &[List<Action>],
    tracks: &[Track<'_>],
) -> Result<List<Block>, NoMemory>
    requires same { length tracks.now ≡ length traces.now }
    requires few { length traces.now < 2 ^ 16 }
    requires shorter { NoLonger traces.now (map (λ t. t.left.now) tracks.now) }
    ensures { IfOk result (λ blocks. map (λ b. (b.process, b.line)) blocks ≡ blocks_left 1 traces.now (map (λ t. t.left.now) tracks.now)) }
{
    let mut blocks = List::new(alloc);
    for place in 0..traces.len() {
        let all = traces[place].len();
        let rest = tracks[place].left.len();
        push_block(&mut blocks, place as u16 + 1, all, rest)?;
    }
    Ok(blocks)
}

// A block of process `p`, where something of its trace is left.
fn push_block(blocks: &mut List<Block>, p: u16, all: usize, rest: usize) -> Result<(), NoMemory>
    requires { rest ≤ all }
    ensures { OnOk result (map (λ b. (b.process, b.line)) blocks.new ≡ map (λ b. (b.process, b.line)) blocks.old ++ block_of p all rest) }
{
    if rest == 0 {
        return Ok(());
    }
    blocks.push(Block {
        process: p,
        line: (all - rest) as u64 + 1,
    })
}
