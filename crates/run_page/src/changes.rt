//! What an event changed: the cells with another value than before.
ghost use Rattle.run_page.specs.Cells.{change as change_def, changed, changes as changes_def, changes_of};
ghost use Rattle.run_page.specs.Walking.{MatchFirst, MatchValue};
ghost use Rattle.std.specs.Prelude.{◌≡◌, ◌+◌, ◌++◌, ◌∷◌, [], IfOk, OnOk};

use crate::cells::{Cell, after, copy_of};
use da_values::{List, NoMemory};
use std::alloc::Global;
use trace_page::Change;

/// The changes of the cells of all processes. Before the opening there are none.
pub(crate) fn changes_between(
    alloc: Global,
    earlier: &[List<Cell>],
    later: &[List<Cell>],
) -> Result<List<Change>, NoMemory>
    ensures { IfOk result (λ found. found ≡ changes_def earlier.now later.now) }
{
    let mut found = List::new(alloc);
    let mut before = earlier;
    let mut p = 1u16;
    for cells in later {
        let (first, others) = split_first(before);
        add_changes(alloc, p, first, cells.as_slice(), &mut found)?;
        let next = next_process(p)?;
        before = others;
        p = next;
    }
    Ok(found)
}

/// The number of the next process. No program has as many as 16 bits count.
pub(crate) fn next_process(p: u16) -> Result<u16, NoMemory>
    ensures { IfOk result (λ next. next ≡ p + 1) }
{
    match p.checked_add(1) {
        Some(next) => Ok(next),
        None => Err(NoMemory),
    }
}

// The first of some lists, and the others; empty ones where there are none.
fn split_first(lists: &[List<Cell>]) -> (&[Cell], &[List<Cell>])
    ensures { MatchFirst lists.now result.0.now result.1.now }
{
    match lists {
        [first, others @ ..] => (first.as_slice(), others),
        [] => (&[], &[]),
    }
}

// Adds the changes of the cells of a process.
fn add_changes(
    alloc: Global,
    p: u16,
    earlier: &[Cell],
    later: &[Cell],
    found: &mut List<Change>,
) -> Result<(), NoMemory>
    ensures { OnOk result (found.new ≡ found.old ++ changes_of p 0 earlier.now later.now) }
{
    let mut before = earlier;
    let mut place = 0u32;
    for cell in later {
        let (value, others) = value_first(before);
        add_change(alloc, p, place, value, cell, found)?;
        let next = after(place)?;
        before = others;
        place = next;
    }
    Ok(())
}

// The value of the first of some cells, and the others; nothing where there are none.
fn value_first(cells: &[Cell]) -> (&[u8], &[Cell])
    ensures { MatchValue cells.now result.0.now result.1.now }
{
    match cells {
        [first, others @ ..] => (first.value.as_slice(), others),
        [] => (&[], &[]),
    }
}

// Adds the change of a cell, if its value is another one.
fn add_change(
    alloc: Global,
    process: u16,
    place: u32,
    earlier: &[u8],
    cell: &Cell,
    found: &mut List<Change>,
) -> Result<(), NoMemory>
    ensures { OnOk result (found.new ≡ found.old ++ change_def process place earlier.now cell.now) }
{
    if earlier == cell.value.as_slice() {
        return Ok(());
    }
    put_change(alloc, process, place, cell, found)
}

// Adds the new value of a cell.
fn put_change(
    alloc: Global,
    process: u16,
    place: u32,
    cell: &Cell,
    found: &mut List<Change>,
) -> Result<(), NoMemory>
    ensures { OnOk result (found.new ≡ found.old ++ changed process place cell.now ∷ []) }
{
    let name = copy_of(alloc, cell.name.as_slice())?;
    let value = copy_of(alloc, cell.value.as_slice())?;
    found.push(Change {
        process,
        place,
        name,
        value,
    })
}
