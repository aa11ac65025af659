//! What could stand at a place, in few words.
use crate::phrase::Phrase;
use crate::spellings::{Spelling, spellings};
use da_values::Mark;

/// What stands for several kinds of tokens at once: the letter of these in the table of spellings, and its name.
const GROUPS: [(u8, &[u8]); 4] = [
    (b'e', b"an expression"),
    (b'p', b"a pattern"),
    (
        b't',
        b"a type (int, bool, str, proc, a tuple of types, or set[..])",
    ),
    (b's', b"a statement"),
];

/// Whether one of the kinds of tokens is this one.
pub fn has(marks: &[Mark], mark: Mark) -> bool {
    marks.contains(&mark)
}

// Whether a group could stand there. Operators, and what follows a value as `has` and `in` do, are never named each by itself.
fn is_there(group: u8, marks: &[Mark]) -> bool {
    match group {
        b'e' => has(marks, Mark::OpenBrace) && has(marks, Mark::Minus) && !has(marks, Mark::Plus),
        b'p' => has(marks, Mark::Wild) && has(marks, Mark::Assign),
        b't' => has(marks, Mark::Int),
        b's' => has(marks, Mark::Await),
        b'c' => has(marks, Mark::Equal),
        _ => true,
    }
}

// Whether a kind of token could stand there and is named by itself.
fn is_named(entry: &Spelling, marks: &[Mark]) -> bool {
    has(marks, entry.1) && !entry.2.iter().any(|group| is_there(*group, marks))
}

/// Adds what could stand there: the names of few kinds of tokens.
pub fn put_expected(marks: &[Mark], out: &mut Phrase) {
    let groups = GROUPS
        .iter()
        .filter(|group| is_there(group.0, marks))
        .count();
    let tokens = spellings()
        .iter()
        .filter(|entry| is_named(entry, marks))
        .count();
    let count = groups.saturating_add(tokens);
    let mut left = count;
    for group in &GROUPS {
        if is_there(group.0, marks) {
            put_joint(&mut left, count, out);
            out.put(group.1);
        }
    }
    for entry in spellings() {
        if is_named(entry, marks) {
            put_joint(&mut left, count, out);
            put_mark(entry.1, entry.0, out);
        }
    }
    if count == 0 {
        let joins = has(marks, Mark::Plus) || (has(marks, Mark::And) && has(marks, Mark::Or));
        out.put(if joins {
            b"an operator"
        } else {
            b"the end of the text"
        });
    }
}

// Adds what stands before one of some things, where so many are left.
fn put_joint(left: &mut usize, count: usize, out: &mut Phrase) {
    if *left < count {
        out.put(if *left == 1 { b" or " } else { b", " });
    }
    *left = left.saturating_sub(1);
}

// Adds a kind of token.
fn put_mark(mark: Mark, spelling: &[u8], out: &mut Phrase) {
    match mark {
        Mark::Newline => out.put(b"the end of the line"),
        Mark::Indent => out.put(b"an indented block"),
        Mark::Dedent => out.put(b"the end of the block"),
        Mark::Name => out.put(b"a name"),
        Mark::Number => out.put(b"an integer"),
        Mark::Quoted => out.put(b"a text"),
        _ => out.quote(spelling),
    }
}
