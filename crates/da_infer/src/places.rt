//! The places of parameters without types, as the crate has them that puts types there.
ghost use Rattle.std.specs.Prelude.{◌≡◌, IfOk, map};
ghost use Rattle.da_infer.specs.Fills.{place_of};

use added_names::OpenPlace;
use da_parse::OpenParam;
use da_values::{List, NoMemory};
use std::alloc::Global;

/// The same places.
pub fn places(alloc: Global, untyped: &[OpenParam]) -> Result<List<OpenPlace>, NoMemory>
    ensures { IfOk result (λ found. found ≡ map place_of untyped.now) }
{
    let mut found = List::new(alloc);
    for one in untyped {
        found.push(OpenPlace {
            class: one.class,
            member: one.member,
            param: one.param,
        })?;
    }
    Ok(found)
}
