//! Whether a value matches a pattern.
ghost use Rattle.da_lang.specs.Matching.{match_parts, matched, where_true};
ghost use Rattle.da_pattern.specs.RowView.{row_of};
ghost use Rattle.da_pattern.specs.Taken.{taken, taken_parts};
ghost use Rattle.da_values.specs.Value.{val_of, vals};
ghost use Rattle.std.specs.Prelude.{◌≡◌, ◌++◌, IfOk, IsTrue, OnErr, is_some, map};

use crate::process::Process;
use crate::row::RowSoFar;
use crate::taken::copy_taken;
use crate::term::{is_process, is_same_value, is_term};
use da_lang::Pattern;
use da_values::{NoMemory, Row, Value, copy_value};
use std::alloc::Global;

/// Whether a value matches a pattern in process `me` with these slots and the row so far. A part or a slot that the pattern
/// names and that is not there counts as process 0, which is no process. It takes no memory, and calls itself no deeper than
/// the pattern is nested.
#[tactic(auto, using(crate::proofs::PatternsAt::some_where))]
pub fn matches_pattern(p: &Pattern, v: &Value, row: &Row, slots: &Row, me: u16) -> bool
    ensures { result ≡ is_some (matched me slots.now p.now (val_of v.now) row.now) }
{
    does_match(p, v, row, slots, me)
}

/// Matches a value against a pattern in process `me` with these slots. The answer is the row with the variables of the
/// pattern at its end, or `None` exactly where the value does not match (`matches_pattern`). The value and the row are lent,
/// and copied only where the value matches: of the value, the parts that variables take. So memory is wanted only there.
#[tactic(auto, using(crate::proofs::PatternsAt::some_where))]
pub fn match_pattern(
    alloc: Global,
    p: &Pattern,
    v: &Value,
    row: &Row,
    slots: &Row,
    me: u16,
) -> Result<Option<Row>, NoMemory>
    ensures row { IfOk result (λ longer. longer ≡ matched me slots.now p.now (val_of v.now) row.now) }
    ensures memory { OnErr result (IsTrue (is_some (matched me slots.now p.now (val_of v.now) row.now))) }
{
    if !does_match(p, v, row, slots, me) {
        return Ok(None);
    }
    let mut longer = copy_row(alloc, row)?;
    copy_taken(alloc, p, v, &mut longer)?;
    Ok(Some(longer))
}

// Whether the value matches. Where it does, the match is the row with what the variables take.
#[tactic(auto, using(crate::proofs::RowsAt::rows_at))]
fn does_match<'x>(p: &'x Pattern, v: &'x Value, row: &'x Row, slots: &Row, me: u16) -> bool
    ensures { matched me slots.now p.now (val_of v.now) row.now ≡ where_true result (row.now ++ taken p.now (val_of v.now)) }
{
    let process = Process { me, slots };
    fits(p, v, &process, &RowSoFar::Lent(row))
}

// The same with what was bound before.
#[cycle(patterns)]
#[tactic(auto, using(crate::proofs::PatternsAt::patterns_at, crate::proofs::TakenAt::taken_at))]
fn fits<'x>(p: &'x Pattern, v: &'x Value, process: &Process<'_>, row: &'x RowSoFar<'x>) -> bool
    ensures { matched process.now.me process.now.slots.now p.now (val_of v.now) (row_of row.now) ≡ where_true result (row_of row.now ++ taken p.now (val_of v.now)) }
{
    match p {
        Pattern::Any => true,
        Pattern::Bind => true,
        Pattern::Const(c) => is_same_value(v, c),
        Pattern::Me => is_process(v, process.me),
        Pattern::Equal(t) => is_term(t, v, process, row),
        Pattern::Tuple(parts) => match v {
            Value::Tuple(values) => parts_fit(parts.as_slice(), values.as_slice(), process, row),
            _ => false,
        },
    }
}

// The parts of a tuple, one after the other: what one of them binds, those after it can name.
#[cycle(patterns)]
fn parts_fit<'x>(
    parts: &'x [Pattern],
    values: &'x [Value],
    process: &Process<'_>,
    row: &'x RowSoFar<'x>,
) -> bool
    ensures { match_parts (map (matched process.now.me process.now.slots.now) parts.now) (vals values.now) (row_of row.now)
        ≡ where_true result (row_of row.now ++ taken_parts (map taken parts.now) (vals values.now)) }
{
    if parts.len() != values.len() {
        return false;
    }
    for place in 0..parts.len() {
        let so_far = RowSoFar::Behind {
            before: row,
            parts: &parts[..place],
            values: &values[..place],
        };
        if !fits(&parts[place], &values[place], process, &so_far) {
            return false;
        }
    }
    true
}

// A copy of a row.
fn copy_row(alloc: Global, row: &Row) -> Result<Row, NoMemory>
    ensures { IfOk result (λ copy. copy ≡ row.now) }
{
    let mut copy = Row::new(alloc);
    let parts = row.as_slice();
    for part in parts {
        copy.push(copy_value(alloc, part)?)?;
    }
    Ok(copy)
}
