//! What is remarkable in a program that is accepted: blocks that are never taken, handlers and messages that nothing comes to,
//! variables that nothing reads, processes that are not set up, and queries that keep a product. No contract speaks of it.
#![tactic(auto)]

mod labels;
mod messages;
mod parts;
mod products;
mod remark;
mod remarks;
mod setups;
mod statements;
mod text;
mod variables;
mod waits;

pub use remark::{Kind, Remark, put_remark};
pub use remarks::remarks_on;
pub use text::has_token;
