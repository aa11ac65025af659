//! Numbers in a row.
ghost use Rattle.std.specs.List.{range_with_len};
ghost use Rattle.std.specs.Prelude.{◌≡◌, ◌+◌, ◌≤◌, IfOk};

use da_values::{List, NoMemory};
use std::alloc::Global;

/// So many numbers in a row, from the first on.
#[derive(Clone, Copy)]
pub struct Row {
    pub first: u16,
    pub count: u16,
    ghost fits: { first + count ≤ 65536 },
}

/// The numbers of a row.
#[tactic(auto, using(crate::proofs::NumbersOn::numbers_more))]
pub fn numbers_of(alloc: Global, row: Row) -> Result<List<u16>, NoMemory>
    ensures { IfOk result (λ numbers. numbers ≡ range_with_len row.first row.count) }
{
    let mut numbers = List::new(alloc);
    for offset in 0..row.count {
        numbers.push(row.first + offset)?;
    }
    Ok(numbers)
}
