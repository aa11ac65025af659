//! The language server: what each frame of a stream is answered with. Documents are kept as their texts alone, and each answer is
//! worked out from these.
#![tactic(auto)]

mod asked;
mod checking;
mod documents;
mod due;
mod fault;
mod json;
mod letters;
mod message;
mod noted;
mod phase;
mod serving;
mod status;
mod turns;
mod warnings;

pub use serving::serve;
pub use status::Status;
