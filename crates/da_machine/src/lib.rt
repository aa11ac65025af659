//! The code of a class, and the machine that runs it over any store.
#![tactic(auto)]

mod acts;
mod arithmetic;
mod code;
mod effects;
mod machine;
mod operations;
mod pushing;
mod run;
mod sets;
mod stack;
mod store;
mod values;

pub use code::{Code, YieldPoint};
pub use machine::{Machine, Stop};
pub use run::run_code;
pub use store::Store;
