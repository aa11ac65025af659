//! Where the rows of a page and their actions stand in its picture.
ghost use Rattle.std.specs.Prelude.{◌≡◌, ◌+◌, ◌++◌, IfOk, OnOk};
ghost use Rattle.trace_page.specs.Layout.{first_number as first_number_def};
ghost use Rattle.trace_page.specs.PageText.{rows_in};
ghost use Rattle.trace_page.specs.Rows.{height as height_def, lines_in, spots_in, spots_of};
ghost use Rattle.trace_page.specs.Sheets.{actions_at, rows_at};

use crate::page::{Kind, Page, Row};
use da_lang::Action;
use da_values::{List, NoMemory};
use std::alloc::Global;

/// A row, with its number and its first line.
#[derive(Clone, Copy)]
pub(crate) struct RowAt<'r> {
    pub event: u32,
    pub line: u32,
    pub row: &'r Row,
}

/// An action, with the number of its event and its line.
#[derive(Clone, Copy)]
pub(crate) struct ActionAt<'r> {
    pub event: u32,
    pub line: u32,
    pub action: &'r Action,
}

/// Rows in their places, and how many lines they have.
#[derive(Drop)]
pub(crate) struct Placing<'r> {
    pub rows: List<RowAt<'r>>,
    pub lines: u32,
}

/// The rows of a page in their places.
pub(crate) fn place_rows<'r>(alloc: Global, page: &'r Page) -> Result<Placing<'r>, NoMemory>
    ensures rows { IfOk result (λ placing. rows_at placing.rows ≡ rows_in page.now) }
    ensures lines { IfOk result (λ placing. placing.lines ≡ lines_in page.now.rows) }
{
    let mut found = List::new(alloc);
    let mut event = first_number(page.kind);
    let mut line = 0u32;
    for row in page.rows.as_slice() {
        let next = later(event, 1)?;
        let below = later(line, height(row))?;
        found.push(RowAt { event, line, row })?;
        event = next;
        line = below;
    }
    Ok(Placing {
        rows: found,
        lines: line,
    })
}

// The number of the first row.
fn first_number(kind: Kind) -> u32
    ensures { result ≡ first_number_def kind }
{
    match kind {
        Kind::Trace => 1,
        Kind::Run => 0,
    }
}

/// All actions of rows, each on its line.
pub(crate) fn place_actions<'r>(
    alloc: Global,
    rows: &List<RowAt<'r>>,
) -> Result<List<ActionAt<'r>>, NoMemory>
    ensures { IfOk result (λ spots. actions_at spots ≡ spots_of (rows_at rows.now)) }
{
    let mut spots = List::new(alloc);
    for row in rows.as_slice() {
        add_actions(row, &mut spots)?;
    }
    Ok(spots)
}

// Adds the actions of a row.
fn add_actions<'r>(at: &RowAt<'r>, spots: &mut List<ActionAt<'r>>) -> Result<(), NoMemory>
    ensures { OnOk result (actions_at spots.new ≡ actions_at spots.old ++ spots_in at.now.event at.now.line at.now.row.now.actions) }
{
    let mut line = at.line;
    for action in at.row.actions.as_slice() {
        let below = later(line, 1)?;
        spots.push(ActionAt {
            event: at.event,
            line,
            action,
        })?;
        line = below;
    }
    Ok(())
}

/// How many lines a row has: one for each action, and one where it has none.
pub(crate) fn height(row: &Row) -> usize
    ensures { result ≡ height_def row.now }
{
    let count = row.actions.len();
    if count == 0 { 1 } else { count }
}

// A number that is so much greater. No memory has room for what more than 32 bits count.
fn later(number: u32, more: usize) -> Result<u32, NoMemory>
    ensures { IfOk result (λ n. n ≡ number + more) }
{
    if more < u32::MAX as usize {
        match number.checked_add(more as u32) {
            Some(n) => Ok(n),
            None => Err(NoMemory),
        }
    } else {
        Err(NoMemory)
    }
}
