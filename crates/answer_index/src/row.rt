//! Rows of ids.
ghost use Rattle.answer_index.specs.Rows.{ids_in};
ghost use Rattle.row_pool.specs.Cells.{value_at};
ghost use Rattle.row_pool.specs.Pool.{Holds, Trades};
ghost use Rattle.std.specs.Prelude.{◌≡◌, [], ◌∷◌, ◌++◌, IfOk, IsSome, OnErr, OnOk};

use da_values::{List, NoMemory};
use row_pool::{Id, Pool};
use std::alloc::Global;

/// A row of ids. Whoever has it holds each of them, once for each place.
#[derive(Drop)]
pub struct IdRow {
    pub ids: List<Id>,
}

/// A copy of a row, which holds each id once more. Where memory is refused, or a value has 2^128 - 1 holders, no holder came.
pub fn copy_row(alloc: Global, row: &[Id], pool: &mut Pool) -> Result<IdRow, NoMemory>
    requires { Holds pool.old row.now }
    ensures same { IfOk result (λ copy. copy.ids ≡ row.now) }
    ensures ok { IfOk result (λ copy. Trades pool.old [] pool.new copy.ids) }
    ensures err { OnErr result (Trades pool.old [] pool.new []) }
{
    let mut ids = List::new(alloc);
    for id in row {
        match keep_next(id, &mut ids, pool) {
            Ok(()) => {}
            Err(NoMemory) => {
                give_back_row(IdRow { ids }, pool);
                return Err(NoMemory);
            }
        }
    }
    Ok(IdRow { ids })
}

// One more id at the end of a row, held once more.
fn keep_next(id: &Id, ids: &mut List<Id>, pool: &mut Pool) -> Result<(), NoMemory>
    requires { IsSome (value_at pool.old id.now) }
    ensures ids { OnOk result (ids.new ≡ ids.old ++ id.now ∷ []) }
    ensures ok { OnOk result (Trades pool.old [] pool.new (id.now ∷ [])) }
    ensures same { OnErr result (ids.new ≡ ids.old) }
    ensures err { OnErr result (Trades pool.old [] pool.new []) }
{
    let more = pool.try_keep(id)?;
    match ids.offer(more) {
        Ok(()) => Ok(()),
        Err(refused) => {
            pool.give_back(refused);
            Err(NoMemory)
        }
    }
}

/// Gives the ids of a row back. It takes no memory.
pub fn give_back_row(row: IdRow, pool: &mut Pool)
    requires { Holds pool.old row.ids }
    ensures { Trades pool.old row.ids pool.new [] }
{
    let IdRow { mut ids } = row;
    while let Some(id) = ids.pop() {
        pool.give_back(id);
    }
}

/// Gives the ids of all these rows back. It takes no memory.
pub fn give_back_rows(rows: List<IdRow>, pool: &mut Pool)
    requires { Holds pool.old (ids_in rows) }
    ensures { Trades pool.old (ids_in rows) pool.new [] }
{
    let mut left = rows;
    while let Some(row) = left.pop() {
        give_back_row(row, pool);
    }
}
