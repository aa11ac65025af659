//! Pages that show a run: its rows, a space-time diagram of processes, messages and what happened, the states and the text of the
//! program where they are known, and a table of all of it, as HTML with an inline drawing.
#![tactic(auto)]

mod drawing;
mod label;
mod layout;
mod line;
mod marks;
mod markup;
mod outcome;
mod page;
mod picture;
mod piece;
mod rows;
mod script;
mod sheet;
mod spots;
mod style;
mod table;
mod trace;
mod tracing;
mod ways;
mod whole;

pub use drawing::draw;
pub use line::last_line;
pub use outcome::DrawOutcome;
pub use page::{Change, Column, Kind, Page, Row};
pub use trace::TRACE_LIMIT;
pub use whole::put_page;
