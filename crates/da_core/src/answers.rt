//! All that a process in code asks of the queries of its class: what its answers tell by the plan of the class.
ghost use Rattle.da_core.specs.Known.{Each, KnowsSome};
ghost use Rattle.da_core.specs.Told.{answers};
ghost use Rattle.da_lang.specs.Queries.{least_row, query_value, shown_set};
ghost use Rattle.da_machine.specs.RunsTo.{AddsPrefix};
ghost use Rattle.da_values.specs.Value.{val_of};
ghost use Rattle.std.specs.Prelude.{◌≡◌, ◌+◌, ◌++◌, IfOk, OnErr, OnOk};

use crate::known::Known;
use da_lang::Action;
use da_values::{List, NoMemory, Row, SetVal, Value};
use row_terms::copy_row;

/// The value of the query of this number, or process 0, which is no process, where there is no such query.
pub fn ask(known: &Known<'_>, q: u32) -> Result<Value, NoMemory>
    ensures { IfOk result (λ v. Each known.now (λ p class d. val_of v ≡ query_value class.queries q d)) }
{
    known
        .answers
        .ask(known.alloc, known.plan, known.stored, q, &known.pool)
}

/// The least row of the query of this number, if it is a `some` that holds.
pub fn found(known: &Known<'_>, q: u32) -> Result<Option<Row>, NoMemory>
    ensures { IfOk result (λ row. Each known.now (λ p class d. row ≡ least_row class.queries q d)) }
{
    known
        .answers
        .found(known.alloc, known.plan, known.stored, q, &known.pool)
}

// The set of the rows of the query of this number.
fn listed(known: &Known<'_>, q: u32) -> Result<SetVal, NoMemory>
    requires { KnowsSome known.now }
    ensures { IfOk result (λ set. Each known.now (λ p class d. set ≡ shown_set class.queries q d)) }
{
    known
        .answers
        .listed(known.alloc, known.plan, known.stored, q, &known.pool)
}

/// Tells the answers of all queries, ascending by number.
pub fn tell_answers(known: &Known<'_>, out: &mut List<Action>) -> Result<(), NoMemory>
    requires { KnowsSome known.now }
    ensures told { OnOk result (Each known.now (λ p class d.
        out.new ≡ out.old ++ answers d.me class.queries d)) }
    ensures prefix { OnErr result (Each known.now (λ p class d.
        AddsPrefix out.old out.new (answers d.me class.queries d))) }
{
    let count = known.plan.queries.len();
    for place in 0..count {
        let n = number_at(place)?;
        let rows = listed(known, n)?;
        out.push(Action::Answer {
            p: known.answers.me,
            n,
            rows,
        })?;
    }
    Ok(())
}

/// Copies of the values of all slots.
pub fn slot_values(known: &Known<'_>) -> Result<Row, NoMemory>
    ensures { IfOk result (λ values. Each known.now (λ p class d. values ≡ d.slots)) }
{
    copy_row(known.alloc, known.answers.slot_values())
}

// The number of the query at a place. No memory has room for more than 32 bits count.
fn number_at(place: usize) -> Result<u32, NoMemory>
    ensures { IfOk result (λ n. n ≡ place + 1) }
{
    if place < u32::MAX as usize {
        Ok(place as u32 + 1)
    } else {
        Err(NoMemory)
    }
}
