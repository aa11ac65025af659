//! A plan that is stored in the place of another one.
use crate::plan::Plan;
use da_values::List;

/// A test: that a stored node has a row, where `filled`, or else that it has none.
#[derive(Clone, Copy)]
pub struct Test {
    pub node: u32,
    pub filled: bool,
}

/// By what the rows of a node are seen. Where each test is met they are those of `node`, and else there are none.
#[derive(Drop)]
pub struct Seen {
    pub node: u32,
    pub tests: List<Test>,
}

/// What is stored of a plan. `plan` has the nodes whose rows are stored; it asks nothing by itself. `seen` has an entry for each
/// node of the whole plan, by which its rows are seen. The numbers in it are those of `plan`.
#[derive(Drop)]
pub struct Stored {
    pub plan: Plan,
    pub seen: List<Seen>,
}
