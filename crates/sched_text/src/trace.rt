//! Traces of one process.
ghost use Rattle.da_lang.specs.declared.event.Action.{Action};
ghost use Rattle.sched_text.specs.TraceReading.{Adds, IsFaultAt, IsOwnLineOf, IsRead};
ghost use Rattle.sched_text.specs.TraceText.{AllOf, HasGoodPrefix, IsBadTrace, IsTraceLine, SpellsTrace, teller, trace_limit};
ghost use Rattle.std.specs.Prelude.{◌≡◌, ◌⊎◌, ◌≤◌, ℕ, List, length, IfErr, IfOk, IsErrOf, MatchResult, OnOk};

use crate::line::split_bare_line;
use crate::reading::read_action;
use da_lang::Action;
use da_values::{List, NoMemory, ValueFault};
use std::alloc::Global;
use thiserror::Error;

/// The bytes that a trace may have.
pub const TRACE_LIMIT: usize = 1_048_576;

/// Why a trace gives no actions.
#[derive(Clone, Copy, Debug, Error)]
pub enum TraceFault {
    /// The line of this number, counted from 1, is the first that is no line of the process; or, with 0, the trace has
    /// more than `TRACE_LIMIT` bytes.
    #[error("line {0} is no line of the process")]
    BadLine(u64),
    /// Memory was refused.
    #[error("no memory is left")]
    Memory,
}

impl From<NoMemory> for TraceFault {
    ghost use Rattle.sched_text.specs.declared.trace.TraceFault.TheVariants.{Memory};
    ghost use Rattle.std.specs.Prelude.{◌≡◌};

    ghost from_gives = { λ _ fault. fault ≡ Memory };

    fn from(_: NoMemory) -> TraceFault {
        TraceFault::Memory
    }
}

/// The actions that a trace of process `p` spells, in its order.
///
/// A trace is what the node of a process tells. Every line is that of an action `took`, `sent`, `got`, `out`, `end` or
/// `fault` whose first number is `p`, as `write_action` writes it: a value is nested at most 64 deep. It ends with LF; after
/// the last one the LF may be missing. Memory is wanted only for a line after good ones.
pub fn read_trace(alloc: Global, text: &[u8], p: u16) -> Result<List<Action>, TraceFault>
    ensures read { IsRead p text.now result }
    ensures only_actions { (actions : List Action) → SpellsTrace p text.now actions
        → MatchResult result (λ found. found ≡ actions) (λ fault. fault ≡ TraceFault.Memory) }
    ensures only_bad { (number : ℕ) → IsBadTrace p text.now number
        → MatchResult result (λ found. ⊥) (λ fault. (fault ≡ TraceFault.BadLine number) ⊎ (fault ≡ TraceFault.Memory)) }
    ensures memory { IsErrOf result TraceFault.Memory → HasGoodPrefix p text.now }
    ensures own { IfOk result (λ actions. AllOf p actions) }
    ensures few { IfOk result (λ actions. length actions ≤ trace_limit) }
{
    if text.len() > TRACE_LIMIT {
        return Err(TraceFault::BadLine(0));
    }
    read_actions(alloc, text, p)
}

// The actions of a text within the limit.
fn read_actions(alloc: Global, text: &[u8], p: u16) -> Result<List<Action>, TraceFault>
    requires { length text.now ≤ trace_limit }
    ensures read { IsRead p text.now result }
    ensures only { (actions : List Action) → SpellsTrace p text.now actions
        → MatchResult result (λ found. found ≡ actions) (λ fault. fault ≡ TraceFault.Memory) }
    ensures few { IfOk result (λ actions. length actions ≤ trace_limit) }
{
    let mut actions = List::new(alloc);
    let mut rest = text;
    let mut number = 1;
    'lines: while rest.len() > 0 {
        let (line, others) = split_bare_line(rest);
        read_line(alloc, line, p, number, &mut actions)?;
        rest = others;
        number += 1;
    }
    Ok(actions)
}

// Adds the action of the line of this number.
fn read_line(
    alloc: Global,
    line: &[u8],
    p: u16,
    number: u64,
    actions: &mut List<Action>,
) -> Result<(), TraceFault>
    ensures ok { OnOk result (Adds p line.now actions.old actions.new) }
    ensures err { IfErr result (λ fault. IsFaultAt p line.now number fault) }
{
    match read_own(alloc, line, p) {
        Ok(action) => {
            actions.push(action)?;
            Ok(())
        }
        Err(ValueFault::Unread) => Err(TraceFault::BadLine(number)),
        Err(ValueFault::Memory) => Err(TraceFault::Memory),
    }
}

// The action of process `p` whose line this is.
fn read_own(alloc: Global, line: &[u8], p: u16) -> Result<Action, ValueFault>
    ensures ok { IfOk result (IsOwnLineOf p line.now) }
    ensures unread { IsErrOf result ValueFault.Unread → IsTraceLine p line.now → ⊥ }
{
    let action = read_action(alloc, line)?;
    if told_by(&action) == Some(p) {
        Ok(action)
    } else {
        drop(action);
        Err(ValueFault::Unread)
    }
}

// The process that tells an action, where it is of the six kinds that nodes tell.
fn told_by(action: &Action) -> Option<u16>
    ensures { result ≡ teller action.now }
{
    match action {
        Action::Took { p, .. } => Some(*p),
        Action::Sent { p, .. } => Some(*p),
        Action::Got { q, .. } => Some(*q),
        Action::Out { p, .. } => Some(*p),
        Action::End { p } => Some(*p),
        Action::Fault { p, .. } => Some(*p),
        _ => None,
    }
}
