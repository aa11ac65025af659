//! The set of three rows of ids, of which one comes twice.
ghost use Rattle.answer_index.specs.Answers.{IsSet, ids_of, keys_of};
ghost use Rattle.row_pool.specs.Cells.{Cells};
ghost use Rattle.row_pool.specs.Pool.{Holds};
ghost use Rattle.std.specs.Prelude.{◌≡◌, ◌<◌, [], IfOk, OnOk, length};

use crate::reading::group_of_ids;
use answer_index::{AnswerSet, IdRow, KeyParts, give_back_row, intern_row, row_values};
use da_values::{List, NoMemory, Row, Value};
use row_pool::Pool;
use std::alloc::Global;

/// What was found: whether each row was new, what was read then, and whether each row was there when it was taken out.
#[derive(Clone, Copy)]
pub struct Worked {
    pub fresh: [bool; 3],
    pub seen: Seen,
    pub gone: [bool; 3],
    pub none: bool,
    pub live: usize,
}

/// The least row, and how many rows the group of 1 has.
#[derive(Clone, Copy)]
pub struct Seen {
    pub least: (i128, i128),
    pub group: usize,
}

/// Puts in (1, 2), (1, 3) and (1, 2), reads the group of 1, and takes both rows out.
pub fn three_rows(alloc: Global) -> Result<Worked, NoMemory> {
    let mut pool = Pool::new(alloc);
    let mut set = set_of_pairs(alloc)?;
    let fresh = put_three(alloc, &mut set, &mut pool)?;
    let seen = read_three(alloc, &set, &mut pool)?;
    let gone = take_three(alloc, &mut set, &mut pool)?;
    Ok(Worked {
        fresh,
        seen,
        gone,
        none: set.least().is_none(),
        live: pool.live(),
    })
}

// An empty set of rows of width 2, by the place 0.
fn set_of_pairs(alloc: Global) -> Result<AnswerSet, NoMemory>
    ensures set { IfOk result (λ set. (pool : Cells) → IsSet set pool) }
    ensures key { IfOk result (λ set. 0 < length (keys_of set)) }
    ensures ids { IfOk result (λ set. ids_of set ≡ []) }
{
    let mut parts = List::new(alloc);
    parts.push(0)?;
    AnswerSet::new(alloc, 2, &[KeyParts { parts }])
}

// Puts the rows in.
fn put_three(alloc: Global, set: &mut AnswerSet, pool: &mut Pool) -> Result<[bool; 3], NoMemory>
    requires set { IsSet set.old pool.old }
    requires held { Holds pool.old (ids_of set.old) }
    ensures set { OnOk result (IsSet set.new pool.new) }
    ensures held { OnOk result (Holds pool.new (ids_of set.new)) }
    ensures keys { OnOk result (keys_of set.new ≡ keys_of set.old) }
{
    let first = put(alloc, set, &[Value::Int(1), Value::Int(2)], pool)?;
    let second = put(alloc, set, &[Value::Int(1), Value::Int(3)], pool)?;
    let third = put(alloc, set, &[Value::Int(1), Value::Int(2)], pool)?;
    Ok([first, second, third])
}

// Reads the set.
fn read_three(alloc: Global, set: &AnswerSet, pool: &mut Pool) -> Result<Seen, NoMemory>
    requires set { IsSet set.now pool.old }
    requires held { Holds pool.old (ids_of set.now) }
    requires key { 0 < length (keys_of set.now) }
    ensures set { OnOk result (IsSet set.now pool.new) }
    ensures held { OnOk result (Holds pool.new (ids_of set.now)) }
{
    let least = least_pair(alloc, set, pool)?;
    let group = group_of_one(alloc, set, pool)?;
    Ok(Seen { least, group })
}

// Takes the rows out.
fn take_three(alloc: Global, set: &mut AnswerSet, pool: &mut Pool) -> Result<[bool; 3], NoMemory>
    requires set { IsSet set.old pool.old }
    requires held { Holds pool.old (ids_of set.old) }
{
    let first = take(alloc, set, &[Value::Int(1), Value::Int(2)], pool)?;
    let second = take(alloc, set, &[Value::Int(1), Value::Int(3)], pool)?;
    let third = take(alloc, set, &[Value::Int(1), Value::Int(2)], pool)?;
    Ok([first, second, third])
}

// Puts a row of values in by its ids, and answers whether it is new.
fn put(alloc: Global, set: &mut AnswerSet, row: &[Value], pool: &mut Pool) -> Result<bool, NoMemory>
    requires set { IsSet set.old pool.old }
    requires held { Holds pool.old (ids_of set.old) }
    ensures set { OnOk result (IsSet set.new pool.new) }
    ensures held { OnOk result (Holds pool.new (ids_of set.new)) }
    ensures keys { OnOk result (keys_of set.new ≡ keys_of set.old) }
{
    let made = intern_row(alloc, row, pool)?;
    let fresh = set.insert(made, pool)?;
    Ok(fresh)
}

// Takes a row of values out by its ids, and answers whether it was there.
fn take(
    alloc: Global,
    set: &mut AnswerSet,
    row: &[Value],
    pool: &mut Pool,
) -> Result<bool, NoMemory>
    requires set { IsSet set.old pool.old }
    requires held { Holds pool.old (ids_of set.old) }
    ensures set { OnOk result (IsSet set.new pool.new) }
    ensures held { OnOk result (Holds pool.new (ids_of set.new)) }
{
    let made = intern_row(alloc, row, pool)?;
    let gone = set.remove(&made, pool);
    give_back_row(made, pool);
    Ok(gone)
}

// How many rows the group of 1 hands out, each in one step.
fn group_of_one(alloc: Global, set: &AnswerSet, pool: &mut Pool) -> Result<usize, NoMemory>
    requires set { IsSet set.now pool.old }
    requires held { Holds pool.old (ids_of set.now) }
    requires key { 0 < length (keys_of set.now) }
    ensures set { OnOk result (IsSet set.now pool.new) }
    ensures held { OnOk result (Holds pool.new (ids_of set.now)) }
{
    let one = intern_row(alloc, &[Value::Int(1)], pool)?;
    let group = group_of_ids(set, one.ids.as_slice(), pool);
    give_back_row(one, pool);
    Ok(group)
}

// The numbers of the least row, and zeros where there is none.
fn least_pair(alloc: Global, set: &AnswerSet, pool: &Pool) -> Result<(i128, i128), NoMemory> {
    match set.least() {
        Some(row) => pair_of(alloc, row, pool),
        None => Ok((0, 0)),
    }
}

// The numbers of a row.
fn pair_of(alloc: Global, row: &IdRow, pool: &Pool) -> Result<(i128, i128), NoMemory> {
    let values = row_values(alloc, row.ids.as_slice(), pool)?;
    Ok((number_at(&values, 0), number_at(&values, 1)))
}

// The number at a place of a row, and 0 where there is none.
fn number_at(row: &Row, at: usize) -> i128 {
    match row.get(at) {
        Some(Value::Int(number)) => *number,
        _ => 0,
    }
}
