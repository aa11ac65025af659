//! Rows of sets, read by a caller that counts no steps.
ghost use Rattle.answer_index.specs.Answers.{rows_of};
ghost use Rattle.da_lang.specs.Queries.{first};
ghost use Rattle.std.specs.Prelude.{◌≡◌, ◌<◌, IfOk, take};

use answer_index::{AnswerSet, row_values};
use da_values::{List, NoMemory, Row, Steps};
use row_pool::Pool;
use std::alloc::Global;
use std::marker::Brand;
use std::sync::ledger::{Blank, Ledger};

// Copies of all rows, with a counter of its own.
fn counted_rows<L: Ledger>(
    alloc: Global,
    set: &AnswerSet,
    pool: &Pool,
    blank: Blank,
) -> Result<List<Row>, NoMemory>
    requires name { blank.name ≡ L.name }
    requires parts { blank.parts ≡ L.parts }
    requires some { 0 < blank.parts }
    ensures { IfOk result (λ rows. rows ≡ rows_of set.now pool.now) }
{
    let mut steps = Steps::<L>::new(blank);
    let mut rows = List::new(alloc);
    for i in 0..set.len() {
        if let Some(row) = set.rows(i, &mut steps) {
            rows.push(row_values(alloc, row.ids.as_slice(), pool)?)?;
        }
    }
    Ok(rows)
}

/// Copies of all rows of a set.
pub fn all_rows(alloc: Global, set: &AnswerSet, pool: &Pool) -> Result<List<Row>, NoMemory>
    ensures { IfOk result (λ rows. rows ≡ rows_of set.now pool.now) }
{
    let rows = counted_rows::<Brand>(alloc, set, pool, Blank::new(1))?;
    Ok(rows)
}

/// A copy of the least row of a set, if there is one.
pub fn least_row(alloc: Global, set: &AnswerSet, pool: &Pool) -> Result<Option<Row>, NoMemory>
    ensures { IfOk result (λ row. row ≡ first (rows_of set.now pool.now)) }
{
    match set.least() {
        Some(row) => Ok(Some(row_values(alloc, row.ids.as_slice(), pool)?)),
        None => Ok(None),
    }
}

/// The same as a list of one row or none.
pub fn front_row(alloc: Global, set: &AnswerSet, pool: &Pool) -> Result<List<Row>, NoMemory>
    ensures { IfOk result (λ rows. rows ≡ take 1 (rows_of set.now pool.now)) }
{
    let mut rows = List::new(alloc);
    if let Some(row) = set.least() {
        rows.push(row_values(alloc, row.ids.as_slice(), pool)?)?;
    }
    Ok(rows)
}
