//! Places: a node, and how its rows hold the variables in scope.
ghost use Rattle.quant_norm.specs.Making.{place_of};
ghost use Rattle.query_plan.specs.Questions.{root};
ghost use Rattle.std.specs.Prelude.{◌≡◌, IfOk};

use da_values::{List, NoMemory};
use std::alloc::Global;

/// A node, how many parts its rows have, and for each variable in scope the part in which it stands.
#[derive(Drop)]
pub struct Place {
    pub node: u32,
    pub width: u16,
    pub vars: List<u16>,
}

/// The place of the root: no part and no variable.
pub fn root_place(alloc: Global) -> Place
    ensures { place_of result ≡ root }
{
    Place {
        node: 0,
        width: 0,
        vars: List::new(alloc),
    }
}

/// A copy of a place.
pub fn copy_place(alloc: Global, at: &Place) -> Result<Place, NoMemory>
    ensures { IfOk result (λ copy. place_of copy ≡ place_of at.now) }
{
    let vars = copy_vars(alloc, at.vars.as_slice())?;
    Ok(Place {
        node: at.node,
        width: at.width,
        vars,
    })
}

/// A copy of the parts of variables.
pub fn copy_vars(alloc: Global, vars: &[u16]) -> Result<List<u16>, NoMemory>
    ensures { IfOk result (λ copy. copy ≡ vars.now) }
{
    let mut copy = List::new(alloc);
    for part in vars {
        copy.push(*part)?;
    }
    Ok(copy)
}
