//! The run of a schedule, event by event, as rows of a page.
ghost use Rattle.da_core.specs.Compiled.{IsCompiled, program_of as compiled_program};
ghost use Rattle.da_system.specs.State.{IsReady, Stands, Whichever, is_spent, program_of};
ghost use Rattle.da_system.specs.SystemStep.{SystemState, start};
ghost use Rattle.replay_run.specs.Replay.{outcome_of, run_on};
ghost use Rattle.run_page.specs.Cells.{all_cells};
ghost use Rattle.run_page.specs.RunRows.{AreRunRows, event_row as event_def, names_at, opening_row as opening_def, stop_row as stop_def};
ghost use Rattle.run_page.specs.Running.{HasAdded, HasGone, HasStepped, HasTold, IsOnItsWay, IsOpened, program_in};
ghost use Rattle.sched_text.specs.EventText.{event_text};
ghost use Rattle.std.specs.List.{list_any};
ghost use Rattle.std.specs.Prelude.{◌≡◌, ◌==◌, ◌++◌, ◌∷◌, [], ℕ, List as Seq, IfOk, OnOk, false, true};

use crate::cells::{Cell, cells_with};
use crate::changes::changes_between;
use da_core::Compiled;
use da_lang::{Action, Event};
use da_system::{StepFault, System};
use da_values::{Buf, List, NoMemory};
use replay_run::Outcome;
use run_hints::line_waited;
use sched_text::write_event;
use std::alloc::Global;
use trace_page::Row;

/// A run that is shown: its program, the variables of its processes, and the numbers of the events that are marked.
#[derive(Clone, Copy)]
pub(crate) struct Asked<'r> {
    pub alloc: Global,
    pub compiled: &'r Compiled,
    pub names: &'r [List<Buf>],
    pub marked: &'r [u64],
}

/// How a run ended, and its rows.
#[derive(Drop)]
pub(crate) struct Ran {
    pub outcome: Outcome,
    pub rows: List<Row>,
}

/// A run on its way: the system after some events, the cells of its processes there, and the rows up to there.
#[derive(Drop)]
struct Running<'r> {
    asked: Asked<'r>,
    system: System<'r>,
    cells: List<List<Cell>>,
    rows: List<Row>,
}

/// The run of these events.
pub(crate) fn run_rows(asked: Asked<'_>, events: &[Event]) -> Result<Ran, NoMemory>
    requires { IsCompiled asked.compiled.now }
    ensures outcome { IfOk result (λ ran. ran.outcome ≡ outcome_of (run_on (compiled_program asked.entry.compiled.now) (start (compiled_program asked.entry.compiled.now)) events.now).stop) }
    ensures rows { IfOk result (λ ran. AreRunRows (compiled_program asked.entry.compiled.now) (names_at asked.entry.names.now) asked.entry.marked.now events.now ran.rows) }
{
    let mut running = open_run(asked)?;
    let outcome = run_events(&mut running, events)?;
    let Running { rows, .. } = running;
    Ok(Ran { outcome, rows })
}

// Carries out the events of a run that is opened, up to the first that is not allowed, and adds their rows.
fn run_events(running: &mut Running<'_>, events: &[Event]) -> Result<Outcome, NoMemory>
    requires { IsOpened running.old.asked running.old }
    ensures outcome { IfOk result (λ outcome. outcome ≡ outcome_of (run_on (program_in running.old.asked) (start (program_in running.old.asked)) events.now).stop) }
    ensures rows { OnOk result (AreRunRows (program_in running.old.asked) (names_at running.old.asked.names.now) running.old.asked.marked.now events.now running.new.rows) }
{
    for (place, event) in events.iter().enumerate() {
        let allowed = go_on(running, place as u64 + 1, event)?;
        if !allowed {
            return Ok(Outcome::Forbidden(place as u64 + 1));
        }
    }
    Ok(Outcome::Done)
}

// The opening, and its row.
fn open_run(asked: Asked<'_>) -> Result<Running<'_>, NoMemory>
    requires { IsCompiled asked.compiled.now }
    ensures { IfOk result (IsOpened asked.entry) }
{
    let system = System::new(asked.alloc, asked.compiled)?;
    let cells = cells_now(asked, &system)?;
    let mut rows = List::new(asked.alloc);
    let row = opening_row(asked, cells.as_slice())?;
    rows.push(row)?;
    Ok(Running {
        asked,
        system,
        cells,
        rows,
    })
}

// Carries out the event of this number, and adds its row; says whether it is allowed.
fn go_on(running: &mut Running<'_>, number: u64, event: &Event) -> Result<bool, NoMemory>
    requires { IsOnItsWay running.old }
    ensures { IfOk result (λ allowed. (s : SystemState) → Stands running.old.system s → HasGone number event.now s running.old allowed running.new) }
{
    let done = step(running.asked.alloc, &mut running.system, event)?;
    add_row(running, number, event, done)
}

// Adds the row of an event by what its step did, and says whether it was allowed.
fn add_row(
    running: &mut Running<'_>,
    number: u64,
    event: &Event,
    done: Option<List<Action>>,
) -> Result<bool, NoMemory>
    requires { IsOnItsWay running.old }
    ensures { IfOk result (λ allowed. HasAdded number event.now done running.old allowed running.new) }
{
    match done {
        Some(actions) => add_event(running, number, event, actions),
        None => add_stop(running, number, event),
    }
}

// Adds the row of an event with these actions, which was carried out, and says so.
fn add_event(
    running: &mut Running<'_>,
    number: u64,
    event: &Event,
    actions: List<Action>,
) -> Result<bool, NoMemory>
    requires { IsOnItsWay running.old }
    ensures { IfOk result (λ allowed. (allowed ≡ true) × HasTold number event.now actions running.old running.new) }
{
    let asked = running.asked;
    let cells = cells_now(asked, &running.system)?;
    let row = event_row(
        asked,
        number,
        event,
        actions,
        running.cells.as_slice(),
        cells.as_slice(),
    )?;
    running.rows.push(row)?;
    running.cells = cells;
    Ok(true)
}

// Adds the row of an event that is not allowed, and says so.
fn add_stop(running: &mut Running<'_>, number: u64, event: &Event) -> Result<bool, NoMemory>
    ensures { IfOk result (λ allowed. (allowed ≡ false) × (running.new.rows ≡ running.old.rows ++ stop_def running.old.asked.marked.now number event.now ∷ [])) }
{
    let stop = stop_row(running.asked, number, event)?;
    running.rows.push(stop)?;
    Ok(false)
}

// Makes the step of an event that is allowed, and answers its actions; `None` where it is not, and nothing has changed.
fn step(
    alloc: Global,
    system: &mut System<'_>,
    event: &Event,
) -> Result<Option<List<Action>>, NoMemory>
    requires { IsReady system.old }
    ensures stepped { IfOk result (λ found. Whichever system.old (λ s. HasStepped (program_of system.old) s event.now found system.new)) }
    ensures ready { IsReady system.new }
    ensures program { program_of system.new ≡ program_of system.old }
{
    let mut actions = List::new(alloc);
    match system.step(event, &mut actions) {
        Ok(()) => Ok(Some(actions)),
        Err(StepFault::Forbidden) => Ok(None),
        Err(StepFault::Memory | StepFault::Spent) => Err(NoMemory),
    }
}

// The cells of all processes, with the lines where they wait.
fn cells_now(asked: Asked<'_>, system: &System<'_>) -> Result<List<List<Cell>>, NoMemory>
    requires ready { IsReady system.now }
    requires unspent { is_spent system.now ≡ false }
    requires program { program_of system.now ≡ compiled_program asked.compiled.now }
    ensures { IfOk result (λ cells. (lines : Seq ℕ) × Whichever system.now (λ s. cells ≡ all_cells (program_of system.now) (names_at asked.entry.names.now) s lines)) }
{
    let typed = asked.compiled.program();
    let count = typed.procs.len() as u32;
    let mut lines = List::new(asked.alloc);
    for place in 0..count {
        let line = line_waited(asked.alloc, typed, system, place + 1);
        lines.push(line)?;
    }
    cells_with(asked.alloc, system, count, asked.names, lines.as_slice())
}

// The row of the opening.
fn opening_row(asked: Asked<'_>, cells: &[List<Cell>]) -> Result<Row, NoMemory>
    ensures { IfOk result (λ row. row ≡ opening_def cells.now) }
{
    let mut words = List::new(asked.alloc);
    words.append(b"the opening")?;
    let changes = changes_between(asked.alloc, &[], cells)?;
    let actions = List::new(asked.alloc);
    Ok(Row {
        words,
        actions,
        changes,
        is_marked: false,
    })
}

// The row of an event that is allowed.
fn event_row(
    asked: Asked<'_>,
    number: u64,
    event: &Event,
    actions: List<Action>,
    earlier: &[List<Cell>],
    later: &[List<Cell>],
) -> Result<Row, NoMemory>
    ensures { IfOk result (λ row. row ≡ event_def asked.entry.marked.now number event.now actions earlier.now later.now) }
{
    let words = words_of(asked.alloc, event)?;
    let changes = changes_between(asked.alloc, earlier, later)?;
    Ok(Row {
        words,
        actions,
        changes,
        is_marked: is_among(asked.marked, number),
    })
}

// The row of the event that is not allowed.
fn stop_row(asked: Asked<'_>, number: u64, event: &Event) -> Result<Row, NoMemory>
    ensures { IfOk result (λ row. row ≡ stop_def asked.entry.marked.now number event.now) }
{
    let words = words_of(asked.alloc, event)?;
    let mut actions = List::new(asked.alloc);
    actions.push(Action::Stop { i: number })?;
    let changes = List::new(asked.alloc);
    Ok(Row {
        words,
        actions,
        changes,
        is_marked: is_among(asked.marked, number),
    })
}

// The text of an event: its line without the end.
fn words_of(alloc: Global, event: &Event) -> Result<Buf, NoMemory>
    ensures { IfOk result (λ words. words ≡ event_text event.now) }
{
    let mut line = List::new(alloc);
    write_event(event, &mut line)?;
    line.pop();
    Ok(line)
}

fn is_among(numbers: &[u64], number: u64) -> bool
    ensures { result ≡ list_any (λ n. n == number) numbers.now }
{
    for other in numbers {
        if *other == number {
            return true;
        }
    }
    false
}
