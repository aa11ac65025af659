//! The plan of a class.
use da_lang::{Node, QueryNode};
use da_values::List;

/// The nodes, numbered from 0; for each numbered query of the class its node; for each alternative of an `await`, in the
/// order of the inlined text, its flag: the node that has a row exactly where the alternative may be taken.
#[derive(Drop)]
pub struct Plan {
    pub nodes: List<Node>,
    pub queries: List<QueryNode>,
    pub flags: List<u32>,
}
