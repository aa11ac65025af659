//! How many types a program takes.
ghost use Rattle.std.specs.Prelude.{◌≡◌, ◌+◌, IfOk, length, map, sum};
ghost use Rattle.added_names.specs.Changes.{added_variables as variables_of};
ghost use Rattle.added_names.specs.Filled.{type_count};

use added_names::{AddedTag, OpenPlace, added_tags, added_variables};
use da_lang::{ClassTree, Tree};
use da_values::NoMemory;
use std::alloc::Global;

fn plus(first: usize, second: usize) -> Result<usize, NoMemory>
    ensures { IfOk result (λ total. total ≡ first + second) }
{
    match first.checked_add(second) {
        Some(total) => Ok(total),
        None => Err(NoMemory),
    }
}

/// How many parts follow tags.
fn parts_of(tags: &[AddedTag]) -> Result<usize, NoMemory>
    ensures { IfOk result (λ parts. parts ≡ sum (map (λ x. x.parts) tags.now)) }
{
    let mut parts = 0;
    for tag in tags {
        parts = plus(parts, tag.parts)?;
    }
    Ok(parts)
}

/// How many variables are added to classes.
fn variables_in(classes: &[ClassTree], alloc: Global) -> Result<usize, NoMemory>
    ensures { IfOk result (λ count. count ≡ sum (map (λ c. length (variables_of c)) classes.now)) }
{
    let mut count = 0;
    for class in classes {
        let variables = added_variables(alloc, class)?;
        count = plus(count, variables.len())?;
    }
    Ok(count)
}

/// How many types a program takes.
pub fn types_in(tree: &Tree, alloc: Global, places: &[OpenPlace]) -> Result<usize, NoMemory>
    ensures { IfOk result (λ count. count ≡ type_count (record { tree = tree.now; untyped = places.now })) }
{
    let tags = added_tags(alloc, tree)?;
    let parts = parts_of(tags.as_slice())?;
    let variables = variables_in(tree.classes.as_slice(), alloc)?;
    let types = plus(parts, variables)?;
    let count = plus(types, places.len())?;
    Ok(count)
}
