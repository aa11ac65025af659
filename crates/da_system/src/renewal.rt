//! The counts of the events that may be picked follow each step.
//!
//! What a process may do changes with its own step alone, what may arrive at it with that too, and what is in a channel with
//! what is sent, lost or doubled there. So a step renews the counts of one process, and of the channels that lead to it or
//! that it sent into.
ghost use Rattle.da_system.specs.Counts.{AreCounts, CountsChannel, CountsEvent, CountsProcess, CountsSent, CountsStep, HasSizes, KeepsCounts};
ghost use Rattle.da_system.specs.Network.{Whichever, program_of};
ghost use Rattle.std.specs.List.{AllByRecursion};
ghost use Rattle.std.specs.Prelude.{◌≤◌, drop, length};

use crate::counts::Counts;
use crate::network::Network;
use da_lang::{Action, Event};
use da_values::List;

/// All counts are made anew. It takes no memory.
pub(crate) fn renew_all(network: &Network<'_>, counts: &mut Counts)
    ensures { Whichever network.now (λ s. HasSizes (length s.worlds) counts.old
        → AreCounts (program_of network.now) s counts.new) }
{
    for place in 0..network.channels.processes() {
        renew_process(network, counts, place + 1);
    }
}

/// The counts follow an event that did the actions after the first `told` ones. It takes no memory.
pub(crate) fn follow(
    network: &Network<'_>,
    counts: &mut Counts,
    e: &Event,
    told: usize,
    out: &List<Action>,
)
    requires { told ≤ length out.now }
    ensures keeps { Whichever network.now (λ s. KeepsCounts (program_of network.now) s counts.old counts.new) }
    ensures made { Whichever network.now (λ s. HasSizes (length s.worlds) counts.old
        → CountsStep (program_of network.now) s e.now (drop told out.now) counts.new) }
{
    renew_event(network, counts, e);
    renew_sent(network, counts, &out.as_slice()[told..]);
}

// What the event itself may have changed is counted anew.
fn renew_event(network: &Network<'_>, counts: &mut Counts, e: &Event)
    ensures keeps { Whichever network.now (λ s. KeepsCounts (program_of network.now) s counts.old counts.new) }
    ensures made { Whichever network.now (λ s. HasSizes (length s.worlds) counts.old
        → CountsEvent (program_of network.now) s counts.new e.now) }
{
    match e {
        Event::Move { p } => renew_process(network, counts, *p),
        Event::Take { p, .. } => renew_process(network, counts, *p),
        Event::Timeout { p } => renew_process(network, counts, *p),
        Event::Deliver { q, .. } => renew_process(network, counts, *q),
        Event::Lose { p, q, .. } => renew_channel(network, counts, *p, *q),
        Event::Repeat { p, q, .. } => renew_channel(network, counts, *p, *q),
        Event::Show { .. } => {}
        Event::Stat { .. } => {}
    }
}

// The channels into which the actions send are counted anew.
fn renew_sent(network: &Network<'_>, counts: &mut Counts, actions: &[Action])
    ensures keeps { Whichever network.now (λ s. KeepsCounts (program_of network.now) s counts.old counts.new) }
    ensures made { Whichever network.now (λ s. HasSizes (length s.worlds) counts.old
        → AllByRecursion (CountsSent (program_of network.now) s counts.new) actions.now) }
{
    for action in actions {
        renew_action(network, counts, action);
    }
}

// The same of one action.
fn renew_action(network: &Network<'_>, counts: &mut Counts, action: &Action)
    ensures keeps { Whichever network.now (λ s. KeepsCounts (program_of network.now) s counts.old counts.new) }
    ensures made { Whichever network.now (λ s. HasSizes (length s.worlds) counts.old
        → CountsSent (program_of network.now) s counts.new action.now) }
{
    match action {
        Action::Sent { p, q, .. } => renew_channel(network, counts, u32::from(*p), u32::from(*q)),
        _ => {}
    }
}

// The moves of process `p` are counted anew, and the messages that may arrive at it.
fn renew_process(network: &Network<'_>, counts: &mut Counts, p: u32)
    ensures keeps { Whichever network.now (λ s. KeepsCounts (program_of network.now) s counts.old counts.new) }
    ensures made { Whichever network.now (λ s. HasSizes (length s.worlds) counts.old
        → CountsProcess (program_of network.now) s counts.new p) }
{
    let count = network.moves(p);
    counts.put_moves(p, count);
    for place in 0..network.channels.processes() {
        renew_channel(network, counts, place + 1, p);
    }
}

// The messages from process `p` to process `q` that may be picked are counted anew.
fn renew_channel(network: &Network<'_>, counts: &mut Counts, p: u32, q: u32)
    ensures keeps { Whichever network.now (λ s. KeepsCounts (program_of network.now) s counts.old counts.new) }
    ensures made { Whichever network.now (λ s. HasSizes (length s.worlds) counts.old
        → CountsChannel (program_of network.now) s counts.new p q) }
{
    let count = network.deliveries(p, q);
    counts.put_deliveries(p, q, count);
}
