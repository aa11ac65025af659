//! The rows of a trace: which of its actions are those of one event.
ghost use Rattle.std.specs.Prelude.{◌≡◌, ◌&&◌, ◌++◌, ◌∷◌, [], List as Seq, map, nat_lt, IfOk, OnOk};
ghost use Rattle.trace_page.specs.PageText.{trace_row};
ghost use Rattle.trace_page.specs.Rows.{comes_later as comes_later_def, follows as follows_def, goes_on as goes_on_def, joins as joins_def, may_go_on as may_go_on_def, process_of as process_of_def, query_of as query_of_def, ended, rows_from, rows_of};
ghost use Rattle.da_lang.specs.declared.event.Action.{Action as ActionOf};

use crate::page::Row;
use da_lang::Action;
use da_values::{List, NoMemory};
use std::alloc::Global;
use std::mem;

/// The rows of some actions, in their order.
pub(crate) fn split_rows(alloc: Global, actions: List<Action>) -> Result<List<Row>, NoMemory>
    ensures { IfOk result (λ rows. rows ≡ map trace_row (rows_of actions)) }
{
    let mut left = actions;
    left.reverse();
    let mut rows = List::new(alloc);
    let mut row = List::new(alloc);
    'each: while let Some(action) = left.pop() {
        add_action(alloc, action, &mut row, &mut rows)?;
    }
    end_last(alloc, &mut row, &mut rows)?;
    Ok(rows)
}

// An action joins the row that has begun, or begins the next one.
fn add_action(
    alloc: Global,
    action: Action,
    row: &mut List<Action>,
    rows: &mut List<Row>,
) -> Result<(), NoMemory>
    ensures { OnOk result ((left : Seq ActionOf) → rows.new ++ map trace_row (rows_from left row.new) ≡ rows.old ++ map trace_row (rows_from (action ∷ left) row.old)) }
{
    if joins(row.as_slice(), &action) {
        return row.push(action);
    }
    begin_row(alloc, action, row, rows)
}

// Ends the row that has begun, and begins the next one with an action.
fn begin_row(
    alloc: Global,
    action: Action,
    row: &mut List<Action>,
    rows: &mut List<Row>,
) -> Result<(), NoMemory>
    ensures { OnOk result ((left : Seq ActionOf) → rows.new ++ map trace_row (rows_from left row.new) ≡ (rows.old ++ trace_row row.old ∷ []) ++ map trace_row (rows_from left (action ∷ []))) }
{
    end_row(alloc, row, rows)?;
    row.push(action)
}

// Ends the last row, if there is one.
fn end_last(alloc: Global, row: &mut List<Action>, rows: &mut List<Row>) -> Result<(), NoMemory>
    ensures { OnOk result (rows.new ≡ rows.old ++ map trace_row (ended row.old)) }
{
    if row.len() == 0 {
        return Ok(());
    }
    end_row(alloc, row, rows)
}

// Ends the row that has begun.
fn end_row(alloc: Global, row: &mut List<Action>, rows: &mut List<Row>) -> Result<(), NoMemory>
    ensures row { row.new ≡ [] }
    ensures rows { OnOk result (rows.new ≡ rows.old ++ trace_row row.old ∷ []) }
{
    let next = List::new(alloc);
    let actions = mem::replace(row, next);
    let words = List::new(alloc);
    let changes = List::new(alloc);
    rows.push(Row {
        words,
        actions,
        changes,
        is_marked: false,
    })
}

// Whether an action joins a row: it goes on after the last action there, or there is none yet.
fn joins(row: &[Action], action: &Action) -> bool
    ensures { result ≡ joins_def row.now action.now }
{
    match row {
        [.., last] => goes_on(last, action),
        [] => true,
    }
}

// Whether the second action may be of the event of the first.
fn goes_on(a: &Action, b: &Action) -> bool
    ensures { result ≡ goes_on_def a.now b.now }
{
    let p = process_of(a);
    let q = process_of(b);
    p == q && follows(a, b)
}

// The same of two actions of one process.
fn follows(a: &Action, b: &Action) -> bool
    ensures { result ≡ follows_def a.now b.now }
{
    does_more(a, b) || answers_next(a, b)
}

// Whether an event may go on after the first action, and none begins with the second.
fn does_more(a: &Action, b: &Action) -> bool
    ensures { result ≡ (may_go_on_def a.now && comes_later_def b.now) }
{
    may_go_on(a) && comes_later(b)
}

// Whether the two answer queries, the second one a later query.
fn answers_next(a: &Action, b: &Action) -> bool
    ensures { result ≡ (nat_lt 0 (query_of_def a.now) && nat_lt (query_of_def a.now) (query_of_def b.now)) }
{
    let first = query_of(a);
    let next = query_of(b);
    if first == 0 {
        return false;
    }
    first < next
}

/// The process of an action: of a message that is lost or doubled the sender, and of a stop 0.
pub(crate) fn process_of(action: &Action) -> u16
    ensures { result ≡ process_of_def action.now }
{
    match action {
        Action::Took { p, .. } => *p,
        Action::Sent { p, .. } => *p,
        Action::Got { q, .. } => *q,
        Action::Lost { p, .. } => *p,
        Action::Again { p, .. } => *p,
        Action::Out { p, .. } => *p,
        Action::End { p } => *p,
        Action::Fault { p, .. } => *p,
        Action::Answer { p, .. } => *p,
        Action::Kept { p, .. } => *p,
        Action::Stop { .. } => 0,
    }
}

// Whether an event may go on after the action.
fn may_go_on(action: &Action) -> bool
    ensures { result ≡ may_go_on_def action.now }
{
    match action {
        Action::Took { .. } => true,
        Action::Got { .. } => true,
        Action::Sent { .. } => true,
        Action::Out { .. } => true,
        _ => false,
    }
}

// Whether no event begins with the action, but for an answer.
fn comes_later(action: &Action) -> bool
    ensures { result ≡ comes_later_def action.now }
{
    match action {
        Action::Sent { .. } => true,
        Action::Out { .. } => true,
        Action::End { .. } => true,
        Action::Fault { .. } => true,
        _ => false,
    }
}

// The number of the query that is answered, or 0.
fn query_of(action: &Action) -> u32
    ensures { result ≡ query_of_def action.now }
{
    match action {
        Action::Answer { n, .. } => *n,
        _ => 0,
    }
}
