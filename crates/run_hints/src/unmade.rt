//! Steps of a trace that a process does not make.
use crate::words::fill;
use da_core::{Compiled, Place};
use da_lang::Action;
use text_hints::Phrase;
use trace_join::may_arrive;

/// Why a process does not make the step that an action of its trace asks for, where it stands so.
pub fn tell_unmade(compiled: &Compiled, me: u16, asked: &Action, stands: Place, out: &mut Phrase) {
    let number = u64::from(me);
    let why = match (asked, stands) {
        (Action::Took { .. } | Action::Got { .. }, Place::Ended) => {
            b"process # has ended, and does nothing more".as_slice()
        }
        (Action::Took { .. } | Action::Got { .. }, Place::Faulted) => {
            b"process # has ended with a fault, and does nothing more"
        }
        (Action::Took { k, .. }, Place::Await(count)) => {
            return tell_alternative(number, u64::from(*k), u64::from(count), out);
        }
        (Action::Took { .. }, Place::Label) => {
            b"process # waits at a label: it goes on with 'took # 0'"
        }
        (Action::Got { .. }, Place::New) => b"process # has not started, and takes no messages",
        (_, Place::New) => b"process # has not started: it does so with 'took # 0'",
        (Action::Got { p, v, .. }, _) if !may_arrive(compiled, *p, v) => {
            return fill(b"process # cannot send this message", &[u64::from(*p)], out);
        }
        (Action::Got { .. }, _) => {
            b"process # does not take this message where it waits: each handler that may match it has 'at' and names other labels"
        }
        _ =>
            b"process # does nothing more in the event before this: it goes on with a line 'took' or 'got'",
    };
    fill(why, &[number, number], out);
}

// Why a process does not leave an `await` of so many alternatives by the one of number `k`.
fn tell_alternative(me: u64, k: u64, count: u64, out: &mut Phrase) {
    fill(b"process # waits at an await", &[me], out);
    if k == 0 {
        out.put(b", which it leaves with the number of an alternative that is true");
    } else if k <= count {
        fill(b", and alternative # is not true there", &[k], out);
    } else if k.checked_sub(1) == Some(count) {
        out.put(
            b", and its time does not run out there: it has no timeout block, or an alternative is true",
        );
    } else {
        out.put(b", which has ");
        out.count(count as usize, b"alternative", b"alternatives");
    }
}
