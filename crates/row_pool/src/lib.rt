//! Values under ids: equal values have one id, as long as someone holds it.
//!
//! A pool counts the holders of each of its values. A tuple or a set in the pool holds the ids of its parts, and stands there
//! with them once, in its cell. The index has the ids of values under numbers that are made of the values. A value that loses its
//! last holder leaves at once. A set with one holder changes where it stands when an element comes or leaves.
#![tactic(auto)]

mod cell;
mod cells;
mod elements;
mod index;
mod marks;
mod pool;
mod release;
mod sets;

pub use elements::Exchanged;
pub use pool::{Id, Pool};
