//! One schedule from the traces of the nodes.
#![tactic(auto)]

mod cutting;
mod fault;
mod fetch;
mod joining;
mod piece;
mod proper;
mod queue;
mod queues;
mod repeats;
mod same;
mod schedule;
mod search;
mod track;
mod wake;

pub use cutting::may_arrive;
pub use fault::{Block, JoinFault};
pub use joining::join;
pub use same::same_action;
