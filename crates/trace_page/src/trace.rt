//! Traces, read line by line.
ghost use Rattle.std.specs.Prelude.{◌≤◌, length, IfErr, OnOk};
ghost use Rattle.trace_page.specs.Steps.{Adds, IsFaultAt, IsRead};
ghost use Rattle.trace_page.specs.TraceText.{trace_limit};

use crate::line::split_line;
use da_lang::Action;
use da_values::{List, NoMemory, ValueFault};
use sched_text::read_action;
use std::alloc::Global;
use thiserror::Error;

/// The bytes that a trace may have.
pub const TRACE_LIMIT: usize = 16_777_216;

/// Why a text gives no steps.
#[derive(Clone, Copy, Debug, Error)]
pub(crate) enum TraceFault {
    /// The line of this number, counted from 1, is the first that is no line of an action; or, with 0, the text has more
    /// than `TRACE_LIMIT` bytes.
    #[error("line {0} is no line of a trace")]
    BadLine(u64),
    /// Memory was refused.
    #[error("no memory is left")]
    Memory,
}

impl From<NoMemory> for TraceFault {
    ghost use Rattle.trace_page.specs.declared.trace.TraceFault.TheVariants.{Memory};
    ghost use Rattle.std.specs.Prelude.{◌≡◌};

    ghost from_gives = { λ _ fault. fault ≡ Memory };

    fn from(_: NoMemory) -> TraceFault {
        TraceFault::Memory
    }
}

/// The actions of a trace, one for each line, in their order.
pub(crate) fn read_trace(alloc: Global, text: &[u8]) -> Result<List<Action>, TraceFault>
    ensures { IsRead text.now result }
{
    if text.len() > TRACE_LIMIT {
        return Err(TraceFault::BadLine(0));
    }
    read_actions(alloc, text)
}

// The actions of a text within the limit.
fn read_actions(alloc: Global, text: &[u8]) -> Result<List<Action>, TraceFault>
    requires { length text.now ≤ trace_limit }
    ensures { IsRead text.now result }
{
    let mut actions = List::new(alloc);
    let mut rest = text;
    let mut number = 1;
    'lines: while rest.len() > 0 {
        let (line, others) = split_line(rest);
        read_line(alloc, line, number, &mut actions)?;
        rest = others;
        number += 1;
    }
    Ok(actions)
}

// Adds the action of the line of this number.
fn read_line(
    alloc: Global,
    line: &[u8],
    number: u64,
    actions: &mut List<Action>,
) -> Result<(), TraceFault>
    ensures ok { OnOk result (Adds line.now actions.old actions.new) }
    ensures err { IfErr result (λ fault. IsFaultAt line.now number fault) }
{
    match read_action(alloc, line) {
        Ok(action) => {
            actions.push(action)?;
            Ok(())
        }
        Err(ValueFault::Unread) => Err(TraceFault::BadLine(number)),
        Err(ValueFault::Memory) => Err(TraceFault::Memory),
    }
}
