//! What a person is told of a text that has no tokens, or whose tokens begin no program: where that shows, what could stand
//! there, and what helps. It has the parts of messages besides: texts that grow, lines of a text, similar names, and tables of
//! words. No contract speaks of the words.
#![tactic(auto)]

mod brackets;
mod characters;
mod expected;
mod firsts;
mod gaps;
mod grammar;
mod habits;
mod hint;
mod lines;
mod misspelt;
mod nearest;
mod phrase;
mod pieces;
mod python;
mod reading;
mod rules;
mod slips;
mod spellings;
mod spot;
mod tokens;
mod words;

pub use brackets::open_brackets;
pub use grammar::{tell_grammar, tell_loose_grammar};
pub use hint::Hint;
pub use lines::{Line, between, line_number, line_of};
pub use nearest::Nearest;
pub use phrase::Phrase;
pub use reading::{Source, mark_at, next_marks, slice_at};
pub use spellings::spellings as all_spellings;
pub use tokens::tell_tokens;
pub use words::{is_one_of, said_in, said_of};
