//! The packets that a node holds: one that comes in, and the delivery of the next one.
ghost use Rattle.da_core.specs.Compiled.{program_of};
ghost use Rattle.da_core.specs.StandsFor.{Whichever, program_of as core_program};
ghost use Rattle.da_outside.specs.Link.{Carries};
ghost use Rattle.da_outside.specs.Outside.{HasCause};
ghost use Rattle.da_lang.specs.declared.program.Program.{Program};
ghost use Rattle.node_run.specs.Hearing.{HasDelivered, HasDeliveredNext, IsFoundAt, IsStanding, MayAllArrive, StandsAs, WasCutDelivering, held_in, held_of};
ghost use Rattle.node_run.specs.HeldPackets.{find_held, goes_first as goes_first_def, held_with, is_fifo as is_fifo_def, is_unreliable as is_unreliable_def};
ghost use Rattle.node_run.specs.NodeRun.{Node, next_held};
ghost use Rattle.da_core.specs.Arrivals.{MayArrive};
ghost use Rattle.std.specs.List.{list_any};
ghost use Rattle.std.specs.Prelude.{◌≡◌, ◌==◌, [], IfErr, IfOk, IsErrOf, OnOk, length};

use crate::giving::tell;
use crate::hearing::Running;
use crate::outcome::NodeOutcome;
use da_core::{Compiled, Core, StepFault};
use da_lang::ChannelKind;
use da_outside::{Link, Sink};
use da_values::{List, NoMemory};
use msg_codec::Packet;
use std::alloc::Global;

/// In an unreliable kind, a packet that comes in is dropped where so many are held.
const MOST_HELD: usize = 1024;

/// Holds a packet, or drops it where an unreliable kind holds as many as it may.
pub(crate) fn hold(
    kind: ChannelKind,
    packet: Packet,
    held: &mut List<Packet>,
) -> Result<(), NoMemory>
    ensures held { OnOk result (held_in held.new ≡ held_with kind (held_in held.old) (held_of packet)) }
    ensures arrive { OnOk result ((program : Program) → MayAllArrive program held.old
        → MayArrive program packet.value packet.sender packet.clock → MayAllArrive program held.new) }
{
    if is_unreliable(kind) && held.len() >= MOST_HELD {
        return Ok(());
    }
    held.push(packet)
}

/// Delivers the next held packet, if there is one that may be delivered, and tells whether there was.
#[tactic(auto, using(crate::proofs::TalkLaws::carries_none, crate::proofs::TalkLaws::carries_then))]
pub(crate) fn deliver_next<L: Link, K: Sink>(
    alloc: Global,
    c: &Compiled,
    running: &mut Running<'_>,
    link: &mut L,
    sink: &mut K,
) -> Result<bool, NodeOutcome>
    requires standing { IsStanding (program_of c.now) running.old }
    requires bound { L.count link.old ≡ length (program_of c.now).procs }
    ensures delivered { IfOk result (λ some. (node : Node) → StandsAs (program_of c.now) running.old node
        → HasDeliveredNext some (program_of c.now) node running.old running.new
        (L.told link.old) (L.told link.new) (K.taken sink.old) (K.taken sink.new)) }
    ensures cut { IfErr result (λ outcome. (node : Node) → StandsAs (program_of c.now) running.old node
        → WasCutDelivering outcome (program_of c.now) node
        (L.told link.old) (L.told link.new) (K.taken sink.old) (K.taken sink.new)) }
    ensures carries { Carries (L.carried link.old) (L.carried link.new) [] }
    ensures kept { L.count link.new ≡ L.count link.old }
    ensures link_cause { HasCause (L.faults link.old) (L.faults link.new) (IsErrOf result NodeOutcome.LinkFault) }
    ensures sink_cause { HasCause (K.faults sink.old) (K.faults sink.new) (IsErrOf result NodeOutcome.WriteFault) }
{
    match next_place(c.program().kind, &running.core, running.held.as_slice()) {
        None => Ok(false),
        Some(place) => {
            deliver(alloc, place, running, link, sink)?;
            Ok(true)
        }
    }
}

// The place of the packet that is delivered next.
fn next_place(kind: ChannelKind, core: &Core<'_>, held: &[Packet]) -> Option<usize>
    ensures { Whichever core.now (λ w. kind ≡ (core_program core.now).kind
        → IsFoundAt held.now (find_held (core_program core.now) w [] (held_in held.now)) result) }
{
    for place in 0..held.len() {
        let packet = &held[place];
        if goes_first(kind, &held[..place], packet) && core.can_take(packet.sender, &packet.value) {
            return Some(place);
        }
    }
    None
}

// Whether, in a fifo kind, none of the packets before it has its sender.
fn goes_first(kind: ChannelKind, before: &[Packet], packet: &Packet) -> bool
    ensures { result ≡ goes_first_def kind (held_in before.now) (held_of packet.now) }
{
    !is_fifo(kind) || !is_among(before, packet.sender)
}

// Whether one of these packets has this sender.
fn is_among(packets: &[Packet], sender: u16) -> bool
    ensures { result ≡ list_any (λ x. x.sender == sender) (held_in packets.now) }
{
    for packet in packets {
        if packet.sender == sender {
            return true;
        }
    }
    false
}

// The delivery of the packet at this place, which is the next one.
#[tactic(auto, using(crate::proofs::TalkLaws::carries_none, crate::proofs::TalkLaws::carries_then))]
fn deliver<L: Link, K: Sink>(
    alloc: Global,
    place: usize,
    running: &mut Running<'_>,
    link: &mut L,
    sink: &mut K,
) -> Result<(), NodeOutcome>
    requires standing { IsStanding (core_program running.old.core) running.old }
    requires next { (node : Node) → StandsAs (core_program running.old.core) running.old node
        → IsFoundAt running.old.held (next_held (core_program running.old.core) node) (Some place) }
    requires bound { L.count link.old ≡ length (core_program running.old.core).procs }
    ensures delivered { OnOk result ((node : Node) → StandsAs (core_program running.old.core) running.old node
        → HasDelivered (core_program running.old.core) node running.new
        (L.told link.old) (L.told link.new) (K.taken sink.old) (K.taken sink.new)) }
    ensures cut { IfErr result (λ outcome. (node : Node) → StandsAs (core_program running.old.core) running.old node
        → WasCutDelivering outcome (core_program running.old.core) node
        (L.told link.old) (L.told link.new) (K.taken sink.old) (K.taken sink.new)) }
    ensures carries { Carries (L.carried link.old) (L.carried link.new) [] }
    ensures kept { L.count link.new ≡ L.count link.old }
    ensures link_cause { HasCause (L.faults link.old) (L.faults link.new) (IsErrOf result NodeOutcome.LinkFault) }
    ensures sink_cause { HasCause (K.faults sink.old) (K.faults sink.new) (IsErrOf result NodeOutcome.WriteFault) }
{
    let Packet {
        sender,
        clock,
        value,
    } = running.held.remove(place);
    let mut actions = List::new(alloc);
    match running.core.take(sender, clock, value, &mut actions) {
        Ok(stopped) => running.stopped = stopped,
        Err(StepFault::Memory) => return Err(NodeOutcome::Memory),
        Err(StepFault::Forbidden) => unreachable!(),
        Err(StepFault::Spent) => unreachable!(),
    }
    tell(alloc, actions.as_slice(), link, sink)
}

// Whether messages of this kind arrive in the order of their sending.
fn is_fifo(kind: ChannelKind) -> bool
    ensures { result ≡ is_fifo_def kind }
{
    match kind {
        ChannelKind::FifoReliable => true,
        ChannelKind::FifoUnreliable => true,
        ChannelKind::UnorderedReliable => false,
        ChannelKind::UnorderedUnreliable => false,
    }
}

// Whether messages of this kind may be lost.
fn is_unreliable(kind: ChannelKind) -> bool
    ensures { result ≡ is_unreliable_def kind }
{
    match kind {
        ChannelKind::FifoUnreliable => true,
        ChannelKind::UnorderedUnreliable => true,
        ChannelKind::FifoReliable => false,
        ChannelKind::UnorderedReliable => false,
    }
}
