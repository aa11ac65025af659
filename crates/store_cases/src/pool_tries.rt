//! A pool of values, in which a tuple is put twice.
use crate::holder::{give_back, intern};
use da_values::{List, NoMemory, Value, read_value};
use row_pool::Pool;
use std::alloc::Global;

/// Whether equal values got one id, and how many values there were: after both, after a part of them, and after both ids of the
/// tuple were given back.
#[derive(Clone, Copy)]
struct Found {
    same: bool,
    both: usize,
    part: usize,
    rest: usize,
}

/// Prints what was found of (1, 'a') and 1.
pub fn try_pool<R: Print + AllocGlobal>(rt: &R) -> anyhow::Result<()> {
    let tuple = read_value(rt.alloc(), b"(1, 'a')")?;
    let found = tuple_twice(rt.alloc(), &tuple)?;
    println!(rt;
        "one id: {}; {} values, {} with 1, {} at last",
        found.same, found.both, found.part, found.rest
    )?;
    Ok(())
}

// Puts the tuple in twice and 1 once, and gives both ids of the tuple back.
fn tuple_twice(alloc: Global, tuple: &Value) -> Result<Found, NoMemory> {
    let mut pool = Pool::new(alloc);
    let mut ids = List::new(alloc);
    let first = intern(&mut pool, &mut ids, tuple)?;
    let second = intern(&mut pool, &mut ids, tuple)?;
    let both = pool.live();
    intern(&mut pool, &mut ids, &Value::Int(1))?;
    let part = pool.live();
    give_back(&mut pool, &mut ids, 0);
    give_back(&mut pool, &mut ids, 0);
    Ok(Found {
        same: first == second,
        both,
        part,
        rest: pool.live(),
    })
}
