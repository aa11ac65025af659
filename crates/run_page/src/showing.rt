//! The page of a run, to a sink.
ghost use Rattle.da_core.specs.Compiled.{IsCompiled, program_of};
ghost use Rattle.da_core.specs.Told.{numbers_to};
ghost use Rattle.da_outside.specs.Outside.{HasCause};
ghost use Rattle.da_system.specs.SystemStep.{start};
ghost use Rattle.replay_run.specs.Replay.{HasEnded, outcome_of, run_on};
ghost use Rattle.run_page.specs.Outcome.{HasBegun, HasShown};
ghost use Rattle.run_page.specs.Remarks.{events_named};
ghost use Rattle.run_page.specs.RunRows.{AreRunRows, IsRunPage, class_name as class_name_def, names_at, page_of_rows, run_column};
ghost use Rattle.std.specs.List.{flat_map};
ghost use Rattle.std.specs.Prelude.{◌≡◌, IfOk, length, map, slice_get};
ghost use Rattle.trace_page.specs.PageText.{page_text};

use crate::cells::copy_of;
use crate::changes::next_process;
use crate::names::names_of_processes;
use crate::remarks::{events_in, remarks_of};
use crate::running::{Asked, Ran, run_rows};
use da_core::Compiled;
use da_lang::{Event, Program, Tree};
use da_outside::{Sink, Trouble, write_all};
use da_values::{Buf, List, NoMemory};
use replay_run::Outcome;
use std::alloc::Global;
use trace_page::{Column, Kind, Page, put_page};

/// Runs the events of a schedule from the opening of a program, and writes the page of the run: its rows are the opening and the
/// events, each with what it changed in the states. `text` is that of the program, and `tree` its tree. An event that is not
/// allowed is the last row; the page is written all the same.
pub fn show<K: Sink>(
    alloc: Global,
    compiled: &Compiled,
    tree: &Tree,
    text: &[u8],
    schedule: &[u8],
    events: &[Event],
    sink: &mut K,
) -> Outcome
    requires { IsCompiled compiled.now }

    // The page of the run was written whole, and the outcome is how the run ended.
    ensures shown { HasEnded result → HasShown (record { program = program_of compiled.now; tree = tree.now; text = text.now; schedule = schedule.now; events = events.now })
        result (K.taken sink.old) (K.taken sink.new) }

    // However it ended, nothing was written, or a prefix of the page.
    ensures begun { HasBegun (record { program = program_of compiled.now; tree = tree.now; text = text.now; schedule = schedule.now; events = events.now })
        (K.taken sink.old) (K.taken sink.new) }

    // `WriteFault` has its cause.
    ensures write { HasCause (K.faults sink.old) (K.faults sink.new) (result ≡ Outcome.WriteFault) }
{
    let Ok(shown) = page_of_run(alloc, compiled, tree, text, schedule, events) else {
        return Outcome::Memory;
    };
    match write_all(sink, shown.page.as_slice()) {
        Ok(()) => shown.outcome,
        Err(Trouble::Failed) => Outcome::WriteFault,
        Err(Trouble::Memory) => Outcome::Memory,
    }
}

/// How a run ended, and the bytes of its page.
#[derive(Drop)]
struct Shown {
    outcome: Outcome,
    page: Buf,
}

// The page of a run.
fn page_of_run(
    alloc: Global,
    compiled: &Compiled,
    tree: &Tree,
    text: &[u8],
    schedule: &[u8],
    events: &[Event],
) -> Result<Shown, NoMemory>
    requires { IsCompiled compiled.now }
    ensures outcome { IfOk result (λ shown. shown.outcome ≡ outcome_of (run_on (program_of compiled.now) (start (program_of compiled.now)) events.now).stop) }
    ensures page { IfOk result (λ shown. IsRunPage (program_of compiled.now) tree.now text.now schedule.now events.now shown.page) }
{
    let typed = compiled.program();
    let remarks = remarks_of(alloc, schedule)?;
    let names = names_of_processes(alloc, typed, tree)?;
    let ran = ran_of(
        alloc,
        compiled,
        names.as_slice(),
        remarks.as_slice(),
        events,
    )?;
    page_with(alloc, typed, remarks, ran, text)
}

// The run of events, with the variables of processes, and marks by remarks.
fn ran_of(
    alloc: Global,
    compiled: &Compiled,
    names: &[List<Buf>],
    remarks: &[Buf],
    events: &[Event],
) -> Result<Ran, NoMemory>
    requires { IsCompiled compiled.now }
    ensures outcome { IfOk result (λ ran. ran.outcome ≡ outcome_of (run_on (program_of compiled.now) (start (program_of compiled.now)) events.now).stop) }
    ensures rows { IfOk result (λ ran. AreRunRows (program_of compiled.now) (names_at names.now) (flat_map events_named remarks.now) events.now ran.rows) }
{
    let marked = events_in(alloc, remarks)?;
    let asked = Asked {
        alloc,
        compiled,
        names,
        marked: marked.as_slice(),
    };
    run_rows(asked, events)
}

// The page with these remarks and the rows of a run.
fn page_with(
    alloc: Global,
    program: &Program,
    remarks: List<Buf>,
    ran: Ran,
    text: &[u8],
) -> Result<Shown, NoMemory>
    ensures outcome { IfOk result (λ shown. shown.outcome ≡ ran.outcome) }
    ensures page { IfOk result (λ shown. shown.page ≡ page_text (page_of_rows program.now remarks ran.rows) text.now) }
{
    let columns = columns_of(alloc, program)?;
    let Ran { outcome, rows } = ran;
    let page = Page {
        kind: Kind::Run,
        remarks,
        columns,
        rows,
    };
    let mut out = List::new(alloc);
    put_page(alloc, &page, text, &mut out)?;
    Ok(Shown { outcome, page: out })
}

// A column for each process, by the name of its class.
fn columns_of(alloc: Global, program: &Program) -> Result<List<Column>, NoMemory>
    ensures { IfOk result (λ columns. columns ≡ map (run_column program.now) (numbers_to (length program.now.procs))) }
{
    let mut columns = List::new(alloc);
    let mut process = 1u16;
    for decl in program.procs.as_slice() {
        let name = class_name(alloc, program, decl.class)?;
        columns.push(Column { process, name })?;
        let next = next_process(process)?;
        process = next;
    }
    Ok(columns)
}

// The name of the class at a place; empty where there is none.
fn class_name(alloc: Global, program: &Program, class: u16) -> Result<Buf, NoMemory>
    ensures { IfOk result (λ name. name ≡ class_name_def (slice_get program.now.classes class)) }
{
    match program.classes.get(usize::from(class)) {
        Some(found) => copy_of(alloc, found.name.as_slice()),
        None => Ok(List::new(alloc)),
    }
}
