//! Types that meet demands, or that there are none.
#![tactic(auto)]

mod equations;
mod listing;
mod numbers;
mod sights;
mod solving;
mod table;
mod top;
mod types;

pub use top::fitting;
