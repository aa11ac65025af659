//! What a node gives and writes after an event: the packets of what was sent, and then the lines of all actions.
ghost use Rattle.da_outside.specs.Link.{Carries, Gains};
ghost use Rattle.da_outside.specs.Outside.{Appends, AppendsPrefix, HasCause};
ghost use Rattle.da_outside.specs.declared.link.LinkEntry.TheVariants.{Gave};
ghost use Rattle.da_values.specs.Value.{val_of};
ghost use Rattle.msg_codec.specs.Packets.{packet_bytes};
ghost use Rattle.node_run.specs.Gifts.{GainsSome, IsCutShort, IsGift, MayGive, MayGiveAll};
ghost use Rattle.node_run.specs.NodeRun.{gift_of, gifts};
ghost use Rattle.sched_text.specs.ActionText.{action_text};
ghost use Rattle.std.specs.Prelude.{◌≡◌, ◌<◌, ◌∷◌, [], IfErr, IsErrOf, OnErr, OnOk, length};

use crate::outcome::NodeOutcome;
use da_lang::Action;
use da_outside::{Link, Sink, Trouble, write_all};
use da_values::{List, Value};
use msg_codec::encode;
use sched_text::write_action;
use std::alloc::Global;

/// Gives the packets of what the actions send, in order, and writes the lines of all of them when the last one is given.
#[tactic(auto, using(crate::proofs::TalkLaws::carries_none, crate::proofs::TalkLaws::carries_then))]
pub(crate) fn tell<L: Link, K: Sink>(
    alloc: Global,
    actions: &[Action],
    link: &mut L,
    sink: &mut K,
) -> Result<(), NodeOutcome>
    requires { MayGiveAll (L.count link.old) actions.now }
    ensures given { OnOk result (Gains (L.told link.old) (L.told link.new) (gifts actions.now)) }
    ensures written { OnOk result (Appends (K.taken sink.old) (K.taken sink.new) (action_text actions.now)) }
    ensures cut { IfErr result (λ outcome. IsCutShort outcome actions.now (L.told link.old) (L.told link.new) (K.taken sink.old) (K.taken sink.new)) }
    ensures carries { Carries (L.carried link.old) (L.carried link.new) [] }
    ensures kept { L.count link.new ≡ L.count link.old }
    ensures link_cause { HasCause (L.faults link.old) (L.faults link.new) (IsErrOf result NodeOutcome.LinkFault) }
    ensures sink_cause { HasCause (K.faults sink.old) (K.faults sink.new) (IsErrOf result NodeOutcome.WriteFault) }
{
    match give_all(alloc, actions, link) {
        Ok(()) => {}
        Err(trouble) => return Err(NodeOutcome::of_link(trouble)),
    }
    match write_actions(alloc, actions, sink) {
        Ok(()) => Ok(()),
        Err(trouble) => Err(NodeOutcome::of_sink(trouble)),
    }
}

// Gives the packets of what the actions send, in order.
#[tactic(auto, using(crate::proofs::TalkLaws::carries_none, crate::proofs::TalkLaws::carries_then))]
fn give_all<L: Link>(alloc: Global, actions: &[Action], link: &mut L) -> Result<(), Trouble>
    requires { MayGiveAll (L.count link.old) actions.now }
    ensures given { OnOk result (Gains (L.told link.old) (L.told link.new) (gifts actions.now)) }
    ensures prefix { OnErr result (GainsSome (L.told link.old) (L.told link.new) (gifts actions.now)) }
    ensures carries { Carries (L.carried link.old) (L.carried link.new) [] }
    ensures kept { L.count link.new ≡ L.count link.old }
    ensures cause { HasCause (L.faults link.old) (L.faults link.new) (IsErrOf result Trouble.Failed) }
{
    for action in actions {
        give(alloc, action, link)?;
    }
    Ok(())
}

// Gives the packet of what an action sends, if it sends something.
#[tactic(auto, using(crate::proofs::TalkLaws::carries_none, crate::proofs::TalkLaws::carries_then))]
fn give<L: Link>(alloc: Global, action: &Action, link: &mut L) -> Result<(), Trouble>
    requires { MayGive (L.count link.old) action.now }
    ensures given { OnOk result (Gains (L.told link.old) (L.told link.new) (gift_of action.now)) }
    ensures same { OnErr result (Gains (L.told link.old) (L.told link.new) []) }
    ensures some { OnErr result (0 < length (gift_of action.now)) }
    ensures carries { Carries (L.carried link.old) (L.carried link.new) [] }
    ensures kept { L.count link.new ≡ L.count link.old }
    ensures cause { HasCause (L.faults link.old) (L.faults link.new) (IsErrOf result Trouble.Failed) }
{
    match action {
        Action::Sent { p, q, t, v } => give_message(alloc, *p, *q, *t, v, link),
        _ => Ok(()),
    }
}

// Gives the packet of a message.
#[tactic(auto, using(crate::proofs::TalkLaws::carries_none, crate::proofs::TalkLaws::carries_then))]
fn give_message<L: Link>(
    alloc: Global,
    sender: u16,
    recipient: u16,
    time: u64,
    message: &Value,
    link: &mut L,
) -> Result<(), Trouble>
    requires { IsGift (L.count link.old) sender recipient time message.now }
    ensures given { OnOk result (Gains (L.told link.old) (L.told link.new) (Gave recipient (packet_bytes sender time (val_of message.now)) ∷ [])) }
    ensures same { OnErr result (Gains (L.told link.old) (L.told link.new) []) }
    ensures carries { Carries (L.carried link.old) (L.carried link.new) [] }
    ensures kept { L.count link.new ≡ L.count link.old }
    ensures cause { HasCause (L.faults link.old) (L.faults link.new) (IsErrOf result Trouble.Failed) }
{
    let mut packet = List::new(alloc);
    encode(sender, time, message, &mut packet)?;
    link.give(recipient, packet.as_slice())
}

// Writes the lines of some actions.
fn write_actions<K: Sink>(alloc: Global, actions: &[Action], sink: &mut K) -> Result<(), Trouble>
    ensures written { OnOk result (Appends (K.taken sink.old) (K.taken sink.new) (action_text actions.now)) }
    ensures prefix { OnErr result (AppendsPrefix (K.taken sink.old) (K.taken sink.new) (action_text actions.now)) }
    ensures cause { HasCause (K.faults sink.old) (K.faults sink.new) (IsErrOf result Trouble.Failed) }
{
    let mut text = List::new(alloc);
    for action in actions {
        write_action(action, &mut text)?;
    }
    write_all(sink, text.as_slice())
}
