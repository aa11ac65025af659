//! The lines by which a program is accepted or refused, and by which a schedule or traces are refused or joined.
ghost use Rattle.da_commands.specs.JoinSteps.{blocked_at};
ghost use Rattle.da_commands.specs.Lines.{accepted_text, badline_text, badtrace_text, blocked_line, refused_text, refused_word as refused_word_def, schedule_text};
ghost use Rattle.std.specs.List.{flat_map};
ghost use Rattle.std.specs.Prelude.{◌≡◌, ◌++◌, IfOk, OnOk, map};

use da_front::RefusedKind;
use da_lang::Event;
use da_values::{Buf, List, NoMemory, write_number};
use sched_text::write_event;
use std::alloc::Global;
use trace_join::Block;

// The word for a kind of refusal.
fn refused_word(kind: RefusedKind) -> &'static [u8]
    ensures { result.now ≡ refused_word_def kind }
{
    match kind {
        RefusedKind::Size => b"size",
        RefusedKind::Byte => b"byte",
        RefusedKind::Indent => b"indent",
        RefusedKind::Token => b"token",
        RefusedKind::Unclosed => b"unclosed",
        RefusedKind::Syntax => b"syntax",
        RefusedKind::Deep => b"deep",
        RefusedKind::Unknown => b"unknown",
        RefusedKind::Twice => b"twice",
        RefusedKind::Shadow => b"shadow",
        RefusedKind::Recursive => b"recursive",
        RefusedKind::Yield => b"yield",
        RefusedKind::Setup => b"setup",
        RefusedKind::NoRun => b"norun",
        RefusedKind::Arity => b"arity",
        RefusedKind::Classes => b"classes",
        RefusedKind::Processes => b"processes",
        RefusedKind::Items => b"items",
        RefusedKind::Blocks => b"blocks",
        RefusedKind::Variables => b"variables",
        RefusedKind::Parts => b"parts",
        RefusedKind::Generators => b"generators",
        RefusedKind::Types => b"type",
        RefusedKind::Nodes => b"nodes",
        RefusedKind::Infer => b"infer",
        RefusedKind::Me => b"me",
        RefusedKind::Traces => b"traces",
        RefusedKind::Watch => b"watch",
    }
}

/// The line of a refusal.
pub fn refused_line(alloc: Global, kind: RefusedKind, line: u32) -> Result<Buf, NoMemory>
    ensures { IfOk result (λ text. text ≡ refused_text kind line) }
{
    let mut text = List::new(alloc);
    text.append(b"refused ")?;
    text.append(refused_word(kind))?;
    text.append(b" ")?;
    write_number(u64::from(line), &mut text)?;
    text.append(b"\n")?;
    Ok(text)
}

/// The line of a bad schedule.
pub fn bad_line(alloc: Global, line: u64) -> Result<Buf, NoMemory>
    ensures { IfOk result (λ text. text ≡ badline_text line) }
{
    let mut text = List::new(alloc);
    text.append(b"badline ")?;
    write_number(line, &mut text)?;
    text.append(b"\n")?;
    Ok(text)
}

/// The line of a bad trace.
pub fn trace_line(alloc: Global, process: u16, line: u64) -> Result<Buf, NoMemory>
    ensures { IfOk result (λ text. text ≡ badtrace_text process line) }
{
    let mut text = List::new(alloc);
    text.append(b"badtrace ")?;
    write_number(u64::from(process), &mut text)?;
    text.append(b" ")?;
    write_number(line, &mut text)?;
    text.append(b"\n")?;
    Ok(text)
}

/// The lines of events.
pub fn event_lines(alloc: Global, events: &[Event]) -> Result<Buf, NoMemory>
    ensures { IfOk result (λ text. text ≡ schedule_text events.now) }
{
    let mut text = List::new(alloc);
    for event in events {
        write_event(event, &mut text)?;
    }
    Ok(text)
}

/// The lines of processes that are blocked.
pub fn block_lines(alloc: Global, blocks: &[Block]) -> Result<Buf, NoMemory>
    ensures { IfOk result (λ text. text ≡ flat_map blocked_line (map blocked_at blocks.now)) }
{
    let mut text = List::new(alloc);
    for block in blocks {
        push_block(block, &mut text)?;
    }
    Ok(text)
}

// Appends the line of a process that is blocked.
fn push_block(block: &Block, text: &mut Buf) -> Result<(), NoMemory>
    ensures { OnOk result (text.new ≡ text.old ++ blocked_line (blocked_at block.now)) }
{
    text.append(b"blocked ")?;
    write_number(u64::from(block.process), text)?;
    text.append(b" ")?;
    write_number(block.line, text)?;
    text.append(b"\n")
}

/// The line of an accepted program with so many classes and processes.
pub fn accepted_line(alloc: Global, classes: usize, processes: usize) -> Result<Buf, NoMemory>
    ensures { IfOk result (λ text. text ≡ accepted_text classes processes) }
{
    let mut text = List::new(alloc);
    text.append(b"ok ")?;
    write_number(classes as u64, &mut text)?;
    text.append(b" ")?;
    write_number(processes as u64, &mut text)?;
    text.append(b"\n")?;
    Ok(text)
}
