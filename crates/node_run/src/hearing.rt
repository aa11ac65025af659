//! What a node does at its start and at an answer of its link.
ghost use Rattle.da_core.specs.Compiled.{IsCompiled, program_of};
ghost use Rattle.da_core.specs.StandsFor.{program_of as core_program};
ghost use Rattle.da_lang.specs.Shaped.{IsProcess, well_typed as typed};
ghost use Rattle.da_outside.specs.Link.{Carries};
ghost use Rattle.da_outside.specs.Outside.{HasCause};
ghost use Rattle.da_outside.specs.declared.link.LinkAnswer.TheVariants.{Datagram, Nothing};
ghost use Rattle.da_outside.specs.declared.link.LinkEntry.{LinkEntry};
ghost use Rattle.da_outside.specs.declared.link.TheConstants.{DATAGRAM_MAX};
ghost use Rattle.da_values.specs.Value.{val_of};
ghost use Rattle.node_run.specs.Hearing.{HasActed, HasBegun, HasHeard, IsListening, IsQuiet, StandsAs};
ghost use Rattle.node_run.specs.Hearing.{WasCutActing, WasCutBeginning, WasCutHearing};
ghost use Rattle.node_run.specs.NodeRun.{Node};
ghost use Rattle.std.specs.Prelude.{◌≡◌, ◌↔◌, ◌≤◌, [], ℕ, IfErr, IfOk, IsErrOf, IsTrue, List, OnErr, OnOk, Option, length, true};

use crate::giving::tell;
use crate::holding::hold;
use crate::moving::chosen_move;
use crate::outcome::NodeOutcome;
use da_core::{Compiled, Core, StepFault, Stopped, well_typed};
use da_outside::{Link, Sink, Taken};
use da_values::{List, NoMemory};
use msg_codec::{CodecFault, Packet, decode};
use std::alloc::Global;

/// After so many idle turns in a row the time runs out.
const IDLE_TURNS_TO_TIMEOUT: u64 = 999;

/// A process that runs as a node: how it has stopped, the packets that are held for it, and how many answers up to now were
/// idle turns in a row.
#[derive(Drop)]
pub(crate) struct Running<'c> {
    pub(crate) core: Core<'c>,
    pub(crate) stopped: Stopped,
    pub(crate) held: List<Packet>,
    pub(crate) idle: u64,
}

/// Starts the process, gives the packets of what it sends, and writes the lines.
#[tactic(auto, using(crate::proofs::TalkLaws::carries_none, crate::proofs::TalkLaws::carries_then))]
pub(crate) fn begin<'c, L: Link, K: Sink>(
    alloc: Global,
    c: &'c Compiled,
    me: u16,
    link: &mut L,
    sink: &mut K,
) -> Result<Running<'c>, NodeOutcome>
    requires compiled { IsCompiled c.now }
    requires there { IsProcess (program_of c.now) me }
    requires bound { L.count link.old ≡ length (program_of c.now).procs }
    ensures begun { IfOk result (λ running. HasBegun (program_of c.now) me running
        (L.told link.old) (L.told link.new) (K.taken sink.old) (K.taken sink.new)) }
    ensures cut { IfErr result (λ outcome. WasCutBeginning outcome (program_of c.now) me
        (L.told link.old) (L.told link.new) (K.taken sink.old) (K.taken sink.new)) }
    ensures carries { Carries (L.carried link.old) (L.carried link.new) [] }
    ensures kept { L.count link.new ≡ L.count link.old }
    ensures link_cause { HasCause (L.faults link.old) (L.faults link.new) (IsErrOf result NodeOutcome.LinkFault) }
    ensures sink_cause { HasCause (K.faults sink.old) (K.faults sink.new) (IsErrOf result NodeOutcome.WriteFault) }
{
    let Ok(mut core) = Core::start(alloc, c, me) else {
        return Err(NodeOutcome::Memory);
    };
    let mut actions = List::new(alloc);
    let stopped = match core.make_move(0, &mut actions) {
        Ok(stopped) => stopped,
        Err(StepFault::Memory) => return Err(NodeOutcome::Memory),
        Err(StepFault::Forbidden) => unreachable!(),
        Err(StepFault::Spent) => unreachable!(),
    };
    match tell(alloc, actions.as_slice(), link, sink) {
        Ok(()) => Ok(Running {
            core,
            stopped,
            held: List::new(alloc),
            idle: 0,
        }),
        Err(outcome) => Err(outcome),
    }
}

/// Asks the link once, and does at its answer what the rules say.
#[tactic(auto, using(crate::proofs::TalkLaws::carries_none, crate::proofs::TalkLaws::carries_then))]
pub(crate) fn hear<L: Link, K: Sink>(
    alloc: Global,
    c: &Compiled,
    running: &mut Running<'_>,
    buffer: &mut [u8],
    link: &mut L,
    sink: &mut K,
) -> Result<(), NodeOutcome>
    requires compiled { IsCompiled c.now }
    requires listening { IsListening (program_of c.now) running.old }
    requires bound { L.count link.old ≡ length (program_of c.now).procs }
    requires some { 1 ≤ L.count link.old }
    requires room { DATAGRAM_MAX ≤ length buffer.old }
    ensures heard { OnOk result ((node : Node) → StandsAs (program_of c.now) running.old node
        → HasHeard (program_of c.now) node running.new
        (L.told link.old) (L.told link.new) (K.taken sink.old) (K.taken sink.new)) }
    ensures cut { IfErr result (λ outcome. (node : Node) → StandsAs (program_of c.now) running.old node
        → WasCutHearing outcome (program_of c.now) node
        (L.told link.old) (L.told link.new) (K.taken sink.old) (K.taken sink.new)) }
    ensures carries { Carries (L.carried link.old) (L.carried link.new) [] }
    ensures kept { L.count link.new ≡ L.count link.old }
    ensures link_cause { HasCause (L.faults link.old) (L.faults link.new) (IsErrOf result NodeOutcome.LinkFault) }
    ensures sink_cause { HasCause (K.faults sink.old) (K.faults sink.new) (IsErrOf result NodeOutcome.WriteFault) }
{
    match link.take(buffer) {
        Ok(Taken::Datagram(size)) => match arrive(alloc, c, &buffer[..size], running) {
            Ok(()) => Ok(()),
            Err(NoMemory) => Err(NodeOutcome::Memory),
        },
        Ok(Taken::Nothing) => move_on(alloc, running, link, sink),
        Err(trouble) => Err(NodeOutcome::of_link(trouble)),
    }
}

// What the node does where nothing comes: the move that it makes, or what it does where it makes none.
#[tactic(auto, using(crate::proofs::TalkLaws::carries_none, crate::proofs::TalkLaws::carries_then))]
fn move_on<L: Link, K: Sink>(
    alloc: Global,
    running: &mut Running<'_>,
    link: &mut L,
    sink: &mut K,
) -> Result<(), NodeOutcome>
    requires listening { IsListening (core_program running.old.core) running.old }
    requires bound { L.count link.old ≡ length (core_program running.old.core).procs }
    ensures acted { OnOk result ((node : Node) → StandsAs (core_program running.old.core) running.old node
        → HasActed (core_program running.old.core) node Nothing running.new
        (L.told link.old) (L.told link.new) (K.taken sink.old) (K.taken sink.new)) }
    ensures cut { IfErr result (λ outcome. (node : Node) → StandsAs (core_program running.old.core) running.old node
        → WasCutActing outcome (core_program running.old.core) node Nothing
        (L.told link.old) (L.told link.new) (K.taken sink.old) (K.taken sink.new)) }
    ensures carries { Carries (L.carried link.old) (L.carried link.new) [] }
    ensures kept { L.count link.new ≡ L.count link.old }
    ensures link_cause { HasCause (L.faults link.old) (L.faults link.new) (IsErrOf result NodeOutcome.LinkFault) }
    ensures sink_cause { HasCause (K.faults sink.old) (K.faults sink.new) (IsErrOf result NodeOutcome.WriteFault) }
{
    let Some(k) = chosen_move(&running.core) else {
        return wait_on(alloc, running, link, sink);
    };
    let mut actions = List::new(alloc);
    match running.core.make_move(k, &mut actions) {
        Ok(stopped) => running.stopped = stopped,
        Err(StepFault::Memory) => return Err(NodeOutcome::Memory),
        Err(StepFault::Forbidden) => unreachable!(),
        Err(StepFault::Spent) => unreachable!(),
    }
    running.idle = 0;
    tell(alloc, actions.as_slice(), link, sink)
}

// What the node does where nothing comes and no move is allowed: the time runs out, or it is an idle turn.
#[tactic(auto, using(crate::proofs::TalkLaws::carries_none, crate::proofs::TalkLaws::carries_then))]
fn wait_on<L: Link, K: Sink>(
    alloc: Global,
    running: &mut Running<'_>,
    link: &mut L,
    sink: &mut K,
) -> Result<(), NodeOutcome>
    requires listening { IsListening (core_program running.old.core) running.old }
    requires quiet { IsQuiet running.old }
    requires bound { L.count link.old ≡ length (core_program running.old.core).procs }
    ensures acted { OnOk result ((node : Node) → StandsAs (core_program running.old.core) running.old node
        → HasActed (core_program running.old.core) node Nothing running.new
        (L.told link.old) (L.told link.new) (K.taken sink.old) (K.taken sink.new)) }
    ensures cut { IfErr result (λ outcome. (node : Node) → StandsAs (core_program running.old.core) running.old node
        → WasCutActing outcome (core_program running.old.core) node Nothing
        (L.told link.old) (L.told link.new) (K.taken sink.old) (K.taken sink.new)) }
    ensures carries { Carries (L.carried link.old) (L.carried link.new) [] }
    ensures kept { L.count link.new ≡ L.count link.old }
    ensures link_cause { HasCause (L.faults link.old) (L.faults link.new) (IsErrOf result NodeOutcome.LinkFault) }
    ensures sink_cause { HasCause (K.faults sink.old) (K.faults sink.new) (IsErrOf result NodeOutcome.WriteFault) }
{
    if running.idle < IDLE_TURNS_TO_TIMEOUT || !running.core.can_timeout() {
        running.idle += 1;
        return Ok(());
    }
    let mut actions = List::new(alloc);
    match running.core.make_timeout(&mut actions) {
        Ok(stopped) => running.stopped = stopped,
        Err(StepFault::Memory) => return Err(NodeOutcome::Memory),
        Err(StepFault::Forbidden) => unreachable!(),
        Err(StepFault::Spent) => unreachable!(),
    }
    running.idle = 0;
    tell(alloc, actions.as_slice(), link, sink)
}

// What the node does at a datagram: a message is held, and all else is dropped.
fn arrive(
    alloc: Global,
    c: &Compiled,
    bytes: &[u8],
    running: &mut Running<'_>,
) -> Result<(), NoMemory>
    requires { IsListening (program_of c.now) running.old }
    ensures acted { OnOk result ((told : Option (List LinkEntry)) (taken : Option (List ℕ)) (node : Node)
        → StandsAs (program_of c.now) running.old node
        → HasActed (program_of c.now) node (Datagram bytes.now) running.new told told taken taken) }
    ensures cut { OnErr result ((told : Option (List LinkEntry)) (taken : Option (List ℕ)) (node : Node)
        → StandsAs (program_of c.now) running.old node
        → WasCutActing NodeOutcome.Memory (program_of c.now) node (Datagram bytes.now) told told taken taken) }
{
    match decode(alloc, bytes) {
        Ok(packet) => {
            if is_sendable(c, &packet) {
                running.idle = 0;
                return hold(c.program().kind, packet, &mut running.held);
            }
        }
        Err(CodecFault::NotAPacket) => {}
        Err(CodecFault::Memory) => return Err(NoMemory),
    }
    running.idle = 0;
    Ok(())
}

// Whether a packet is held: whether a process of the program sent it, and its message is a declared one of its types. It
// takes no memory.
fn is_sendable(c: &Compiled, packet: &Packet) -> bool
    ensures { IsTrue result ↔ (IsProcess (program_of c.now) packet.now.sender
        × (typed (program_of c.now) (val_of packet.now.value) ≡ true)) }
{
    packet.sender > 0
        && usize::from(packet.sender) <= c.program().procs.len()
        && well_typed(c, &packet.value)
}
