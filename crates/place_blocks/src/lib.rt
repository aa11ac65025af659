//! Places in an order, as blocks of which each is short: one that comes or leaves moves those of its block alone.
#![tactic(auto)]

mod block;
mod edit;
mod join;
mod places;

pub use places::Places;
