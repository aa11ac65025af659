//! What the variables of a pattern take of a value.
ghost use Rattle.da_pattern.specs.RowView.{Finds};
ghost use Rattle.da_pattern.specs.Taken.{taken, taken_parts};
ghost use Rattle.da_values.specs.Value.{val_of, vals};
ghost use Rattle.std.specs.Prelude.{◌≡◌, ◌++◌, OnOk, map};

use da_lang::Pattern;
use da_values::{NoMemory, Row, Value, copy_value};
use std::alloc::Global;

// What the variable at a place takes, counted from 0, or by how many places it lies after the variables of the pattern.
#[cycle(taken)]
#[tactic(auto, using(crate::proofs::TakenAt::taken_at))]
fn taken_of<'v>(p: &Pattern, v: &'v Value, at: usize) -> Result<&'v Value, usize>
    ensures { Finds (taken p.now (val_of v.now)) at result }
{
    match p {
        Pattern::Bind => match at.checked_sub(1) {
            Some(left) => Err(left),
            None => Ok(v),
        },
        Pattern::Tuple(parts) => match v {
            Value::Tuple(values) => taken_of_parts(parts.as_slice(), values.as_slice(), at),
            _ => Err(at),
        },
        _ => Err(at),
    }
}

/// The same of the parts of a tuple, one after the other.
#[cycle(taken)]
pub fn taken_of_parts<'v>(
    parts: &[Pattern],
    values: &'v [Value],
    at: usize,
) -> Result<&'v Value, usize>
    ensures { Finds (taken_parts (map taken parts.now) (vals values.now)) at result }
{
    let mut left = at;
    for place in 0..parts.len() {
        if place >= values.len() {
            return Err(left);
        }
        match taken_of(&parts[place], &values[place], left) {
            Ok(found) => return Ok(found),
            Err(behind) => left = behind,
        }
    }
    Err(left)
}

/// Adds copies of what the variables take to a row.
#[cycle(copies)]
#[tactic(auto, using(crate::proofs::TakenAt::taken_at))]
pub fn copy_taken(alloc: Global, p: &Pattern, v: &Value, row: &mut Row) -> Result<(), NoMemory>
    ensures { OnOk result (row.new ≡ row.old ++ taken p.now (val_of v.now)) }
{
    match p {
        Pattern::Bind => row.push(copy_value(alloc, v)?),
        Pattern::Tuple(parts) => match v {
            Value::Tuple(values) => copy_parts(alloc, parts.as_slice(), values.as_slice(), row),
            _ => Ok(()),
        },
        _ => Ok(()),
    }
}

// The same of the parts of a tuple.
#[cycle(copies)]
fn copy_parts(
    alloc: Global,
    parts: &[Pattern],
    values: &[Value],
    row: &mut Row,
) -> Result<(), NoMemory>
    ensures { OnOk result (row.new ≡ row.old ++ taken_parts (map taken parts.now) (vals values.now)) }
{
    let mut others = values;
    for p in parts {
        match others {
            [v, rest @ ..] => {
                copy_taken(alloc, p, v, row)?;
                others = rest;
            }
            [] => return Ok(()),
        }
    }
    Ok(())
}
