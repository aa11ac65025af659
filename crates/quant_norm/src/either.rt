//! The nodes of an `or`, one part after the other.
ghost use Rattle.quant_norm.specs.Either.{any_left, either_of};
ghost use Rattle.quant_norm.specs.Making.{Makes};

use crate::limit::Halt;
use crate::nodes::{Nodes, anti_on, union_on};

/// The rows of a node and of what came before it, if anything did.
pub fn either_on(nodes: &mut Nodes, left: Option<u32>, right: u32) -> Result<u32, Halt>
    ensures { Makes (either_of nodes.old left right) (λ number. (nodes.new, number)) result }
{
    match left {
        None => Ok(right),
        Some(left) => {
            let number = union_on(nodes, left, right)?;
            Ok(number)
        }
    }
}

/// What came, or, where nothing did, none of the rows of a node.
pub fn any_on(nodes: &mut Nodes, parent: u32, left: Option<u32>) -> Result<u32, Halt>
    ensures { Makes (any_left nodes.old parent left) (λ number. (nodes.new, number)) result }
{
    match left {
        None => {
            let number = anti_on(nodes, parent, parent)?;
            Ok(number)
        }
        Some(left) => Ok(left),
    }
}
