//! The run of a node, round by round.
ghost use Rattle.da_core.specs.Compiled.{IsCompiled, program_of};
ghost use Rattle.da_lang.specs.Shaped.{IsProcess};
ghost use Rattle.da_outside.specs.Link.{Carries};
ghost use Rattle.da_outside.specs.Outside.{HasCause};
ghost use Rattle.node_run.specs.Hearing.{end_at as end_def};
ghost use Rattle.node_run.specs.NodeCall.{GivesPackets, HasEnded, HasRun, WasCut, WroteAll, WrotePrefix, WroteGiven, end_for};
ghost use Rattle.std.specs.Prelude.{◌≡◌, ◌≤◌, [], length};

use crate::hearing::{begin, hear};
use crate::holding::deliver_next;
use crate::outcome::NodeOutcome;
use da_core::{Compiled, Stopped};
use da_outside::{DATAGRAM_MAX, Link, Sink};
use std::alloc::Global;

/// Runs process `me` of a program as a node, and writes the lines of its actions. The process starts; then the link is asked
/// again and again. The message of a packet is held until the process takes it where it waits. Where nothing comes the process
/// makes its move, or the time runs out after 999 idle turns. After each event the packets of what it sent are given, and then
/// its lines are written. It ends where the process has ended, where the last `idle` answers were idle turns, or where `turns`
/// answers were taken.
///
/// The link is bound to as many processes as the program has, and `idle` and `turns` are at least 1.
#[tactic(auto, using(crate::proofs::TalkLaws::carries_none, crate::proofs::TalkLaws::carries_then))]
pub fn node<L: Link, K: Sink>(
    alloc: Global,
    c: &Compiled,
    me: u16,
    idle: u64,
    turns: u64,
    link: &mut L,
    sink: &mut K,
) -> NodeOutcome
    requires compiled { IsCompiled c.now }
    requires there { IsProcess (program_of c.now) me }
    requires idle { 1 ≤ idle }
    requires turns { 1 ≤ turns }
    requires bound { L.count link.old ≡ length (program_of c.now).procs }

    // Where the rules end it: the link told the talk of the run over the answers that it gave, and the sink gained its lines.
    ensures ran { HasEnded result → HasRun (program_of c.now) me idle turns (end_for result) (L.told link.old) (L.told link.new) (K.taken sink.old) (K.taken sink.new) }

    // Where the link or the sink failed or memory was refused: the link told a prefix of the talk of the run over these answers.
    // Where the link failed the lines were written of the rounds whose packets were all given. Else some of them may be missing,
    // but none of a round after which the link told more; where the sink failed, the packets of each round that was begun were given.
    ensures link { result ≡ NodeOutcome.LinkFault → WasCut (program_of c.now) me idle turns (L.told link.old) (L.told link.new) (K.taken sink.old) (K.taken sink.new) WroteAll }
    ensures write { result ≡ NodeOutcome.WriteFault → WasCut (program_of c.now) me idle turns (L.told link.old) (L.told link.new) (K.taken sink.old) (K.taken sink.new) WroteGiven }
    ensures memory { result ≡ NodeOutcome.Memory → WasCut (program_of c.now) me idle turns (L.told link.old) (L.told link.new) (K.taken sink.old) (K.taken sink.new) WrotePrefix }

    // However it ended, the link was given nothing but packets of messages that this process sent.
    ensures packets { GivesPackets me (L.told link.old) (L.told link.new) }

    // Each fault has its cause.
    ensures link_cause { HasCause (L.faults link.old) (L.faults link.new) (result ≡ NodeOutcome.LinkFault) }
    ensures sink_cause { HasCause (K.faults sink.old) (K.faults sink.new) (result ≡ NodeOutcome.WriteFault) }
    ensures carries { Carries (L.carried link.old) (L.carried link.new) [] }
    ensures kept { L.count link.new ≡ L.count link.old }
{
    let mut running = match begin(alloc, c, me, link, sink) {
        Ok(running) => running,
        Err(outcome) => return outcome,
    };
    let mut buffer = [0u8; DATAGRAM_MAX];
    let mut taken = 0;
    'rounds: loop {
        match deliver_next(alloc, c, &mut running, link, sink) {
            Ok(true) => continue 'rounds,
            Ok(false) => {}
            Err(outcome) => return outcome,
        }
        if let Some(end) = end_at(running.stopped, running.idle, idle) {
            return end;
        }
        if taken == turns {
            return NodeOutcome::Spent;
        }
        match hear(alloc, c, &mut running, &mut buffer, link, sink) {
            Ok(()) => taken += 1,
            Err(outcome) => return outcome,
        }
    }
}

// The end that has come for a process that has stopped so, when so many answers up to now were idle turns.
fn end_at(stopped: Stopped, idle: u64, most: u64) -> Option<NodeOutcome>
    ensures { result ≡ end_def stopped idle most }
{
    match stopped {
        Stopped::Ended => Some(NodeOutcome::Done),
        Stopped::Faulted => Some(NodeOutcome::Faulted),
        Stopped::AtYield => {
            if most <= idle {
                Some(NodeOutcome::Idle)
            } else {
                None
            }
        }
    }
}
