//! Plans of classes: from conditions and queries to nodes.
#![tactic(auto)]

mod classes;
mod conditions;
mod counts;
mod draft;
mod either;
mod generators;
mod leaves;
mod limit;
mod nodes;
mod place;
mod prints;
mod queries;
mod rename;
mod top;

pub use limit::MOST_NODES;
pub use top::{PlanFault, normalise};
