//! The page of a trace, to a sink.
ghost use Rattle.da_outside.specs.Outside.{HasCause};
ghost use Rattle.std.specs.Prelude.{ℕ, ◌≡◌, ◌⊎◌};
ghost use Rattle.trace_page.specs.Outcome.{HasDrawn, IsPageOf, SaysOf};
ghost use Rattle.trace_page.specs.TraceText.{IsBadTrace};

use crate::outcome::DrawOutcome;
use crate::trace::{TraceFault, read_trace};
use crate::tracing::page_of_trace;
use crate::whole::put_page;
use da_outside::{Sink, Trouble, write_all};
use da_values::{Buf, List};
use std::alloc::Global;

/// Draws the trace that a text is, and writes the page: a space-time diagram with a row for what each event must have done, and a
/// table of the same rows.
///
/// A trace has the lines of actions, as `sched_text::write_action` writes them; each ends with LF or with CR and LF, and
/// after the last one the LF may be missing. They may be those of several nodes, one after the other. The text of no
/// action is refused before anything is written.
pub fn draw<K: Sink>(alloc: Global, text: &[u8], sink: &mut K) -> DrawOutcome
    // `Done` and `WriteFault` come only for a trace, and `BadLine` with its first bad line.
    ensures says { SaysOf text.now result }
    ensures only_bad { (n : ℕ) → IsBadTrace text.now n → (result ≡ DrawOutcome.BadLine n) ⊎ (result ≡ DrawOutcome.Memory) }

    // The sink gained the page of the actions; of a bad trace nothing, and after a trouble a prefix of the page, or nothing.
    ensures drawn { HasDrawn text.now result (K.taken sink.old) (K.taken sink.new) }

    // `WriteFault` has its cause.
    ensures write { HasCause (K.faults sink.old) (K.faults sink.new) (result ≡ DrawOutcome.WriteFault) }
{
    match page_of(alloc, text) {
        Ok(page) => match write_all(sink, page.as_slice()) {
            Ok(()) => DrawOutcome::Done,
            Err(Trouble::Failed) => DrawOutcome::WriteFault,
            Err(Trouble::Memory) => DrawOutcome::Memory,
        },
        Err(TraceFault::BadLine(number)) => DrawOutcome::BadLine(number),
        Err(TraceFault::Memory) => DrawOutcome::Memory,
    }
}

// The page of the trace that a text is.
fn page_of(alloc: Global, text: &[u8]) -> Result<Buf, TraceFault>
    ensures { IsPageOf text.now result }
{
    let actions = read_trace(alloc, text)?;
    let page = page_of_trace(alloc, actions)?;
    let mut out = List::new(alloc);
    put_page(alloc, &page, &[], &mut out)?;
    Ok(out)
}
