//! Plans: the conditions and queries of a class as nodes, each of which reads lower ones, what their rows are, and their
//! texts.
#![tactic(auto)]

mod conditions;
mod copy;
mod plan;
mod same;
mod stored;
mod storing;
mod terms;
mod text;
mod twins;
mod width;

pub use copy::{copy_node, copy_nodes};
pub use plan::Plan;
pub use same::same_node;
pub use stored::{Seen, Stored, Test};
pub use storing::store;
pub use text::{live_line, node_line, plan_lines, query_lines};
pub use width::{added_by, live_width, plus, width_at, widths_of};
