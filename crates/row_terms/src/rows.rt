//! Copies of rows.
ghost use Rattle.std.specs.Prelude.{◌≡◌, IfOk};

use da_values::{NoMemory, Row, copy_value};
use std::alloc::Global;

/// A copy of a row.
pub fn copy_row(alloc: Global, row: &Row) -> Result<Row, NoMemory>
    ensures { IfOk result (λ copy. copy ≡ row.now) }
{
    let mut copy = Row::new(alloc);
    let parts = row.as_slice();
    for part in parts {
        copy.push(copy_value(alloc, part)?)?;
    }
    Ok(copy)
}
