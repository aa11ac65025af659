//! The row so far.
ghost use Rattle.da_lang.specs.World.{at_number as numbered_def};
ghost use Rattle.da_pattern.specs.RowView.{Finds, row_of};
ghost use Rattle.da_values.specs.Value.{val_of};
ghost use Rattle.std.specs.Option.{option_copied, option_map};
ghost use Rattle.std.specs.Prelude.{◌≡◌};

use crate::taken::taken_of_parts;
use da_lang::Pattern;
use da_values::{Row, Value};

/// The row at a place of a pattern. What the pattern has bound so far is not kept: a part that is asked for is looked up in
/// the matched value. Contracts see it by `row_of`.
#[derive(Drop)]
pub enum RowSoFar<'v> {
    /// A row that is lent, before the whole pattern.
    Lent(&'v Row),
    /// After these parts of a tuple, which match these values. `before` is the row before the tuple.
    Behind {
        before: &'v RowSoFar<'v>,
        parts: &'v [Pattern],
        values: &'v [Value],
    },
}

/// The part that is numbered so, from 1, or `None` where there is none.
pub fn part_of<'v>(row: &RowSoFar<'v>, number: u16) -> Option<&'v Value>
    ensures { option_map val_of (option_copied result) ≡ numbered_def (row_of row.now) number }
{
    match number.checked_sub(1) {
        Some(at) => match part_at(row, usize::from(at)) {
            Ok(v) => Some(v),
            Err(_) => None,
        },
        None => None,
    }
}

// The part at a place, counted from 0, or by how many places it lies after the row.
#[tactic(auto, using(crate::proofs::RowsAt::rows_at, crate::proofs::TakenAt::found_front, crate::proofs::TakenAt::found_behind))]
fn part_at<'v>(row: &RowSoFar<'v>, at: usize) -> Result<&'v Value, usize>
    ensures { Finds (row_of row.now) at result }
{
    match row {
        RowSoFar::Lent(lent) => match lent.get(at) {
            Some(v) => Ok(v),
            None => Err(at - lent.len()),
        },
        RowSoFar::Behind {
            before,
            parts,
            values,
        } => match part_at(before, at) {
            Ok(v) => Ok(v),
            Err(left) => taken_of_parts(parts, values, left),
        },
    }
}
