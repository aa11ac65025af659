//! The page of a trace.
ghost use Rattle.std.specs.Prelude.{◌≡◌, ◌∷◌, [], codes, map, IfOk, OnOk};
ghost use Rattle.trace_page.specs.Layout.{named_in, processes_of, with_numbers};
ghost use Rattle.trace_page.specs.PageText.{trace_column, trace_page};

use crate::page::{Column, Kind, Page};
use crate::rows::split_rows;
use da_lang::Action;
use da_values::{Buf, List, NoMemory};
use std::alloc::Global;
use std::collections::BTreeSet;

/// The page of some actions.
pub(crate) fn page_of_trace(alloc: Global, actions: List<Action>) -> Result<Page, NoMemory>
    ensures { IfOk result (λ page. page ≡ trace_page actions) }
{
    let columns = columns_of(alloc, actions.as_slice())?;
    let rows = split_rows(alloc, actions)?;
    let remarks = List::new(alloc);
    Ok(Page {
        kind: Kind::Trace,
        remarks,
        columns,
        rows,
    })
}

// The columns of the processes that actions name.
fn columns_of(alloc: Global, actions: &[Action]) -> Result<List<Column>, NoMemory>
    ensures { IfOk result (λ columns. columns ≡ map trace_column (processes_of actions.now)) }
{
    let mut left = named_by(alloc, actions)?;
    let mut columns = List::new(alloc);
    'each: while let Some(process) = left.pop_first() {
        let name = word(alloc)?;
        columns.push(Column { process, name })?;
    }
    Ok(columns)
}

// The processes that actions name.
fn named_by(alloc: Global, actions: &[Action]) -> Result<BTreeSet<u16>, NoMemory>
    ensures { IfOk result (λ processes. processes.keys ≡ processes_of actions.now) }
{
    let mut processes = BTreeSet::new(alloc);
    for action in actions {
        add_named(action, &mut processes)?;
    }
    Ok(processes)
}

// The word before the number of a process of which a trace says no more.
fn word(alloc: Global) -> Result<Buf, NoMemory>
    ensures { IfOk result (λ word. word ≡ codes "process") }
{
    let mut word = List::new(alloc);
    word.append(b"process")?;
    Ok(word)
}

// Adds the processes that an action names.
fn add_named(action: &Action, processes: &mut BTreeSet<u16>) -> Result<(), NoMemory>
    ensures { OnOk result (processes.new.keys ≡ with_numbers processes.old.keys (named_in action.now)) }
{
    match action {
        Action::Sent { p, q, .. } => add_two(*p, *q, processes),
        Action::Got { q, p, .. } => add_two(*q, *p, processes),
        Action::Lost { p, q, .. } => add_two(*p, *q, processes),
        Action::Again { p, q, .. } => add_two(*p, *q, processes),
        Action::Took { p, .. } => add_one(*p, processes),
        Action::Out { p, .. } => add_one(*p, processes),
        Action::End { p } => add_one(*p, processes),
        Action::Fault { p, .. } => add_one(*p, processes),
        Action::Answer { p, .. } => add_one(*p, processes),
        Action::Kept { p, .. } => add_one(*p, processes),
        Action::Stop { .. } => Ok(()),
    }
}

fn add_two(p: u16, q: u16, processes: &mut BTreeSet<u16>) -> Result<(), NoMemory>
    ensures { OnOk result (processes.new.keys ≡ with_numbers processes.old.keys (p ∷ q ∷ [])) }
{
    add_one(p, processes)?;
    add_one(q, processes)
}

fn add_one(p: u16, processes: &mut BTreeSet<u16>) -> Result<(), NoMemory>
    ensures { OnOk result (processes.new.keys ≡ with_numbers processes.old.keys (p ∷ [])) }
{
    match processes.insert(p) {
        Ok(_) => Ok(()),
        Err(_) => Err(NoMemory),
    }
}
