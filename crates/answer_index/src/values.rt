//! Rows of ids from rows of values, and back.
ghost use Rattle.da_values.specs.Value.{val_of, vals};
ghost use Rattle.answer_index.specs.Rows.{row_in, row_of};
ghost use Rattle.row_pool.specs.Pool.{IsGivenNext, Trades};
ghost use Rattle.std.specs.Prelude.{◌≡◌, [], IfOk, OnErr, OnOk};

use crate::row::{IdRow, give_back_row};
use da_values::{List, NoMemory, Row, Value};
use row_pool::{Id, Pool};
use std::alloc::Global;

/// The row of ids that stands for a row of values. It is one more holder of each of them. Where memory is refused, or a value on
/// the way has 2^128 - 1 holders, no holder came.
pub fn intern_row(alloc: Global, row: &[Value], pool: &mut Pool) -> Result<IdRow, NoMemory>
    ensures values { IfOk result (λ made. row_in pool.new made ≡ vals row.now) }
    ensures ok { IfOk result (λ made. Trades pool.old [] pool.new made.ids) }
    ensures err { OnErr result (Trades pool.old [] pool.new []) }
{
    let mut ids = List::new(alloc);
    for value in row {
        match intern_next(value, &mut ids, pool) {
            Ok(()) => {}
            Err(NoMemory) => {
                give_back_row(IdRow { ids }, pool);
                return Err(NoMemory);
            }
        }
    }
    Ok(IdRow { ids })
}

// The id of one more value at the end of a row.
fn intern_next(value: &Value, ids: &mut List<Id>, pool: &mut Pool) -> Result<(), NoMemory>
    ensures ok { OnOk result (IsGivenNext pool.old ids.old pool.new ids.new (val_of value.now)) }
    ensures same { OnErr result (ids.new ≡ ids.old) }
    ensures err { OnErr result (Trades pool.old [] pool.new []) }
{
    let id = pool.intern(value)?;
    match ids.offer(id) {
        Ok(()) => Ok(()),
        Err(refused) => {
            pool.give_back(refused);
            Err(NoMemory)
        }
    }
}

/// A copy of the row of values that a row of ids stands for.
pub fn row_values(alloc: Global, row: &[Id], pool: &Pool) -> Result<Row, NoMemory>
    ensures { IfOk result (λ values. values ≡ row_of pool.now row.now) }
{
    let mut values = Row::new(alloc);
    for id in row {
        values.push(pool.value(id)?)?;
    }
    Ok(values)
}
