//! A reliable link in order: over any link that may lose, repeat and reorder datagrams, each payload is handed out once, and
//! in the order in which its sender gave it.
#![tactic(auto)]

mod endpoint;
mod frames;
mod in_order;
mod link;
mod session;
mod telling;

pub use in_order::arrives_in_order;
pub use link::ArqLink;
