//! Rows that are read from a set, and how many there are.
ghost use Rattle.answer_index.specs.Answers.{IsSet, keys_of};
ghost use Rattle.std.specs.Prelude.{◌≡◌, ◌+◌, ◌<◌, length};

use answer_index::AnswerSet;
use da_values::Steps;
use row_pool::{Id, Pool};
use std::marker::Brand;
use std::sync::ledger::{Blank, Ledger};

// How many rows a group of the first key hands out. It is the number of steps, too.
fn handed_ids<L: Ledger>(set: &AnswerSet, parts: &[Id], pool: &Pool, steps: &mut Steps<L>) -> usize
    requires set { IsSet set.now pool.now }
    requires key { 0 < length (keys_of set.now) }
    ensures { steps.new ≡ steps.old + result }
{
    let mut size = 0;
    for i in 0..set.len() {
        match set.group(0, parts, i, pool, steps) {
            Some(_) => size += 1,
            None => return size,
        }
    }
    size
}

// The same with a counter of its own.
fn counted_ids<L: Ledger>(set: &AnswerSet, parts: &[Id], pool: &Pool, blank: Blank) -> usize
    requires set { IsSet set.now pool.now }
    requires key { 0 < length (keys_of set.now) }
    requires name { blank.name ≡ L.name }
    requires parts { blank.parts ≡ L.parts }
    requires some { 0 < blank.parts }
{
    let mut steps = Steps::<L>::new(blank);
    handed_ids(set, parts, pool, &mut steps)
}

/// How many rows a group of the first key hands out, each in one step.
pub fn group_of_ids(set: &AnswerSet, parts: &[Id], pool: &Pool) -> usize
    requires set { IsSet set.now pool.now }
    requires key { 0 < length (keys_of set.now) }
{
    counted_ids::<Brand>(set, parts, pool, Blank::new(1))
}
