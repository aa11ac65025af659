//! A set of rows, which is filled, read by its groups and emptied again.
use crate::worked::three_rows;

/// Prints what was found of the set of three rows.
pub fn try_sets<R: Print + AllocGlobal>(rt: &R) -> anyhow::Result<()> {
    let found = three_rows(rt.alloc())?;
    let [first, second, third] = found.fresh;
    let (a, b) = found.seen.least;
    println!(rt; "new: {first}, {second}, {third}; least ({a}, {b})")?;
    println!(rt; "{} rows of the group in as many steps", found.seen.group)?;
    let [first, second, third] = found.gone;
    println!(rt;
        "there: {first}, {second}, {third}; none then: {}, {} values",
        found.none, found.live
    )?;
    Ok(())
}
