//! Copies of the rows of all live patterns.
ghost use Rattle.delta_rules.specs.Keeping.{set_rows};
ghost use Rattle.std.specs.Prelude.{◌≡◌, IfOk};

use crate::answers::Answers;
use crate::reading::all_rows;
use answer_index::AnswerSet;
use da_values::{List, NoMemory, Row};
use row_pool::Pool;
use std::alloc::Global;

impl Answers {
    /// Copies of the rows of each live pattern, ascending.
    pub fn live_values(&self, alloc: Global, pool: &Pool) -> Result<List<List<Row>>, NoMemory>
        ensures { IfOk result (λ rows. rows ≡ set_rows pool.now self.now.live.items) }
    {
        let rows = rows_of_each(alloc, self.live.as_slice(), pool)?;
        Ok(rows)
    }
}

// Copies of the rows of each of some sets.
fn rows_of_each(alloc: Global, sets: &[AnswerSet], pool: &Pool) -> Result<List<List<Row>>, NoMemory>
    ensures { IfOk result (λ rows. rows ≡ set_rows pool.now sets.now) }
{
    let mut rows = List::new(alloc);
    for set in sets {
        rows.push(all_rows(alloc, set, pool)?)?;
    }
    Ok(rows)
}
