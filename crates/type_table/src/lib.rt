//! A table of unknown types: a number stands for a type, and equations between numbers are solved.
#![tactic(auto)]

mod form;
mod join;
mod number;
mod roots;
mod scheme;
mod settle;
mod solve;
mod values;
mod whole;

pub use form::Form;
pub use number::number_of;
pub use scheme::Scheme;
pub use settle::settles;
pub use solve::unify;
pub use values::type_of;
