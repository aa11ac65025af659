//! The number and the slots of a process, lent.
ghost use Rattle.da_lang.specs.World.{at_number};
ghost use Rattle.da_values.specs.Value.{val_of};
ghost use Rattle.std.specs.Option.{option_copied, option_map};
ghost use Rattle.std.specs.Prelude.{◌≡◌};

use da_values::{Row, Value};
use std::alloc::Global;

/// What terms and conditions without queries read of a process: its number and its slots. `alloc` gives the memory of all that
/// is made of it. Contracts see it by `data_of`.
#[derive(Drop)]
pub struct Locals<'s> {
    pub alloc: Global,
    pub me: u16,
    pub slots: &'s Row,
}

/// The part of a row that is numbered so, from 1, or `None` where there is none.
pub fn numbered(row: &Row, number: u16) -> Option<&Value>
    ensures { option_map val_of (option_copied result) ≡ at_number row.now number }
{
    match number.checked_sub(1) {
        Some(at) => row.get(usize::from(at)),
        None => None,
    }
}
