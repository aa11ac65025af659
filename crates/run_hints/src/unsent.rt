//! Messages for which a process waits in a join of traces.
use crate::blocks::{Blocked, Join};
use crate::words::fill;
use da_lang::{Action, ChannelKind, same_value};
use da_values::Value;
use text_hints::Phrase;

/// A message that a process is to get.
#[derive(Clone, Copy)]
pub struct Wanted<'t> {
    pub from: u16,
    pub to: u16,
    pub time: u64,
    pub message: &'t Value,
}

impl Wanted<'_> {
    // Whether a message of this way, time and value is this one.
    fn is(&self, from: u16, to: u16, time: u64, message: &Value) -> bool {
        from == self.from && to == self.to && time == self.time && same_value(message, self.message)
    }

    // Whether an action sends this message, or else whether it takes it.
    fn is_told_by(&self, action: &Action, sent: bool) -> bool {
        match action {
            Action::Sent { p, q, t, v } => sent && self.is(*p, *q, *t, v),
            Action::Got { q, p, t, v } => !sent && self.is(*p, *q, *t, v),
            _ => false,
        }
    }
}

/// Why a process that has told these actions does not get a message.
pub fn tell_unsent(
    join: Join<'_>,
    block: Blocked,
    passed: &[Action],
    wanted: Wanted<'_>,
    out: &mut Phrase,
) {
    let sender = u64::from(wanted.from);
    fill(
        b"process # waits for this message, ",
        &[u64::from(block.process)],
        out,
    );
    let Some(sent) = line_of(join.trace(wanted.from), wanted, true) else {
        fill(b"and process # has not sent it", &[sender], out);
        return;
    };
    let end = join.end_of(wanted.from);
    if sent >= end {
        fill(
            b"which process # sends in line # of its trace, but it is blocked itself in line #",
            &[sender, sent, end],
            out,
        );
        return;
    }
    if let Some(got) = line_of(passed, wanted, false) {
        fill(
            b"which it has got in line #, and process # has sent it once",
            &[got, sender],
            out,
        );
        return;
    }
    fill(
        b"which process # sent in line # of its trace",
        &[sender, sent],
        out,
    );
    out.put(order_of(join.compiled.program().kind));
}

// How a message that was sent is not the next one of its channel, by the kind of the channels.
fn order_of(kind: ChannelKind) -> &'static [u8] {
    match kind {
        ChannelKind::FifoReliable => {
            b": the channels are fifo, and one that was sent before it has not been taken"
        }
        ChannelKind::FifoUnreliable => {
            b": the channels are fifo, and one that was sent behind it was taken before"
        }
        ChannelKind::UnorderedReliable | ChannelKind::UnorderedUnreliable => b"",
    }
}

// The line of a trace that sends a message, or else the one that takes it.
fn line_of(trace: &[Action], wanted: Wanted<'_>, sent: bool) -> Option<u64> {
    for (place, action) in trace.iter().enumerate() {
        if wanted.is_told_by(action, sent) {
            return Some((place as u64).saturating_add(1));
        }
    }
    None
}
