//! The rows of nodes that are chosen from those of the nodes before them, kept by changes: those of which a condition holds,
//! those that some row of another node extends, those that none does, and those of two nodes.
//!
//! Each function takes the sets that a node reads, new already, with their changes, and the node's own set, which is still old.
//! It first notes which rows may have changed, lent from the sets and changes that have them, and whether each is to be in the
//! own set; then it settles them, and answers the change of its own set. The rows are those of a pool.
#![tactic(auto)]

mod between;
mod filter;
mod fronts;
mod lend;
mod sides;
mod union;

pub use between::{Bounded, filter_between};
pub use filter::{filter_anew, filter_change};
pub use fronts::front;
pub use sides::{Sides, anti_change, semi_change};
pub use union::union_change;
