//! What a person is told of a join of traces: of a line that is none of its trace, and of processes that are blocked.
use crate::refused::show;
use call_hints::{TOLD, shown, shown_name, text_again};
use da_front::PROGRAM_LIMIT;
use da_values::{Buf, List};
use run_hints::{Blocked, explain_blocks, explain_trace_line, process_count, trace_line};
use sched_text::TRACE_LIMIT;
use std::io::Eprint;
use std::{io, rt};
use text_hints::Phrase;

/// The processes that are shown at most.
const SHOWN_PROCESSES: usize = 3;

/// Tells which line is none of the trace of a process.
pub fn tell_bad_trace<R: rt::Files + AllocGlobal + Eprint>(
    rt: &R,
    trace: &str,
    process: u16,
    number: u64,
) -> io::Result<()> {
    let named = shown_name(rt.alloc(), trace)?;
    if number == 0 {
        return eprintln!(rt; "{named}: a trace has at most {TRACE_LIMIT} bytes");
    }
    let text = text_again(rt, trace, TRACE_LIMIT);
    match text
        .as_ref()
        .and_then(|text| trace_line(text.as_slice(), number))
    {
        Some(line) => tell_line(rt, named.as_str(), process, number, line)?,
        None => eprintln!(rt; "{named}:{number}: not a line of the trace of process {process}")?,
    }
    eprintln!(rt;
        "lines: took P K, sent P Q T V, got P Q T V, out P V, end P, fault P KIND LINE, where P is {process}"
    )
}

fn tell_line<R: AllocGlobal + Eprint>(
    rt: &R,
    trace: &str,
    process: u16,
    number: u64,
    line: &[u8],
) -> io::Result<()> {
    let why = explain_trace_line(rt.alloc(), line, process);
    let why = shown(rt.alloc(), why.as_slice(), TOLD)?;
    eprintln!(rt; "{trace}:{number}: not a line of the trace of process {process}: {why}")?;
    show(rt, number, line)
}

/// Tells which processes are blocked, at which lines of their traces, and why.
pub fn tell_blocks<R: rt::Files + AllocGlobal + Eprint>(
    rt: &R,
    program: &str,
    traces: &[String],
    blocks: &[Blocked],
) -> io::Result<()> {
    let texts = texts_of(rt, traces);
    let told = reasons(rt, program, texts.as_ref(), blocks);
    for (place, block) in blocks.iter().enumerate() {
        if place == SHOWN_PROCESSES {
            let more = blocks.len().saturating_sub(SHOWN_PROCESSES);
            return eprintln!(rt; "{more} more are blocked");
        }
        let Some(at) = usize::from(block.process).checked_sub(1) else {
            return Ok(());
        };
        let Some(name) = traces.get(at) else {
            return Ok(());
        };
        let text = match texts.as_ref().and_then(|texts| texts.get(at)) {
            Some(text) => text.as_slice(),
            None => &[],
        };
        let named = shown_name(rt.alloc(), name.as_str())?;
        tell_block(rt, named.as_str(), *block, text, told.get(place))?;
    }
    Ok(())
}

// Tells where a process is blocked, and why.
fn tell_block<R: AllocGlobal + Eprint>(
    rt: &R,
    trace: &str,
    block: Blocked,
    text: &[u8],
    why: Option<&Phrase>,
) -> io::Result<()> {
    let Blocked { process, line } = block;
    let why = match why {
        Some(why) => shown(rt.alloc(), why.as_slice(), TOLD)?,
        None => String::new(rt.alloc()),
    };
    if why.is_empty() {
        eprintln!(rt; "{trace}:{line}: process {process} is blocked here")?;
    } else {
        eprintln!(rt; "{trace}:{line}: {why}")?;
    }
    match trace_line(text, line) {
        Some(bytes) => show(rt, line, bytes),
        None => Ok(()),
    }
}

/// Tells how many traces a join takes, where there are so many.
pub fn tell_trace_count<R: rt::Files + AllocGlobal + Eprint>(
    rt: &R,
    program: &str,
    count: usize,
) -> io::Result<()> {
    let named = shown_name(rt.alloc(), program)?;
    match processes_of(rt, program) {
        Some(wanted) => eprintln!(rt;
            "{named}: a join takes one trace for each process that main makes, so {wanted}, and not {count}"
        ),
        None => eprintln!(rt;
            "{named}: a join takes one trace for each process that main makes, and not {count}"
        ),
    }
}

/// How many processes the program of this name has, if its text can be read again.
pub fn processes_of<R: rt::Files + AllocGlobal>(rt: &R, program: &str) -> Option<usize> {
    let text = text_again(rt, program, PROGRAM_LIMIT)?;
    process_count(rt.alloc(), text.as_slice())
}

// Why each process is blocked, as far as that is known.
fn reasons<R: rt::Files + AllocGlobal>(
    rt: &R,
    program: &str,
    texts: Option<&List<Buf>>,
    blocks: &[Blocked],
) -> List<Phrase> {
    match (text_again(rt, program, PROGRAM_LIMIT), texts) {
        (Some(program), Some(texts)) => {
            explain_blocks(rt.alloc(), program.as_slice(), texts.as_slice(), blocks)
        }
        _ => List::new(rt.alloc()),
    }
}

// The texts of the traces once more, or `None` where one cannot be read again.
fn texts_of<R: rt::Files + AllocGlobal>(rt: &R, traces: &[String]) -> Option<List<Buf>> {
    let mut texts = List::new(rt.alloc());
    for name in traces {
        texts
            .push(text_again(rt, name.as_str(), TRACE_LIMIT)?)
            .ok()?;
    }
    Some(texts)
}
