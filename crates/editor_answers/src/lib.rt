//! What a person who writes is answered at a place of a text: what is known there, where it is declared and used, what may be
//! written, and which changes help. Answers are JSON of the Language Server Protocol. No contract speaks of them. What memory is
//! refused for is left out.
#![tactic(auto)]

mod answering;
mod columns;
mod completing;
mod cures;
mod declaring;
mod drafts;
mod hovering;
mod known;
mod label_numbers;
mod lenses;
mod objects;
mod offers;
mod outlining;
mod question;
mod refusals;
mod remarks;
mod renaming;
mod uses;

pub use answering::answer_to;
pub use offers::abilities;
pub use question::Question;
pub use refusals::shown_refusal;
pub use remarks::shown_remark;
