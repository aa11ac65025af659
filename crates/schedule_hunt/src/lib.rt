//! The hunt: generated schedules are tried one after the other, and the first that shows what is looked for is made short.
#![tactic(auto)]

mod hunting;
mod remark;
mod runs;
mod short;
mod shown;
mod told;
mod what;

pub use hunting::{Attempt, End, HuntOutcome, Progress, hunt};
pub use what::{Goal, Trials, What};
