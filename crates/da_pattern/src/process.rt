//! The process in which a pattern is matched.
ghost use Rattle.da_lang.specs.World.{at_number as numbered_def};
ghost use Rattle.da_values.specs.Value.{val_of};
ghost use Rattle.std.specs.Option.{option_copied, option_map};
ghost use Rattle.std.specs.Prelude.{◌≡◌};

use da_values::{Row, Value};

/// The number of a process, and the values of its slots.
#[derive(Drop)]
pub struct Process<'s> {
    pub me: u16,
    pub slots: &'s Row,
}

/// The part of a row that is numbered so, from 1, or `None` where there is none.
pub fn numbered(row: &Row, number: u16) -> Option<&Value>
    ensures { option_map val_of (option_copied result) ≡ numbered_def row.now number }
{
    match number.checked_sub(1) {
        Some(at) => row.get(usize::from(at)),
        None => None,
    }
}
