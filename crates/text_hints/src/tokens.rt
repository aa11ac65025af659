//! Why a text has no tokens.
use crate::brackets::open_brackets;
use crate::characters::tell_byte;
use crate::hint::Hint;
use crate::lines::{Line, between, line_of};
use crate::phrase::Phrase;
use crate::pieces::{Bad, bad_piece};
use crate::reading::slice_at;
use crate::words::said_in;
use da_lex::{TokenKind, Tokens, lex};
use da_values::{LexKind, List};
use std::alloc::Global;

/// Tells why a text has no tokens: the fault of this kind on this line is the first.
pub fn tell_tokens(alloc: Global, text: &[u8], kind: LexKind, number: u32, hint: &mut Hint) {
    let Some(line) = line_of(text, number) else {
        return;
    };
    match kind {
        LexKind::BadIndent => tell_indent(alloc, text, line, hint),
        LexKind::Unclosed => tell_unclosed(alloc, text, line, hint),
        LexKind::BadByte | LexKind::BadToken => tell_piece(alloc, text, line, hint),
    }
}

// A byte or a token of a line.
fn tell_piece(alloc: Global, text: &[u8], line: Line<'_>, hint: &mut Hint) {
    let Some(bad) = bad_piece(line.bytes) else {
        return;
    };
    let place = line.first.saturating_add(bad.place);
    match bad.kind {
        LexKind::BadByte => tell_byte(alloc, text, place, hint),
        _ if is_loop(line.bytes, bad.place) => {
            hint.blame(place, bad.length);
            hint.say(b"no token begins with ;: write for i in range(0, 3):");
        }
        _ => tell_spelling(alloc, text, place, bad, hint),
    }
}

// Whether a semicolon at this place of a line stands in a loop with three parts.
fn is_loop(line: &[u8], place: usize) -> bool {
    let begins = line.trim_ascii_start().starts_with(b"for".as_slice());
    begins && between(line, place, place.saturating_add(1)) == b";".as_slice()
}

// Bytes that spell no token.
fn tell_spelling(alloc: Global, text: &[u8], place: usize, bad: Bad, hint: &mut Hint) {
    hint.blame(place, bad.length);
    let bytes = between(text, place, place.saturating_add(bad.length));
    let said = said_in(&FRONTS, between(text, place, text.len()));
    if !said.is_empty() {
        hint.say(said);
        return;
    }
    if bytes == b"\\".as_slice() && !ends_line(text, place.saturating_add(1)) {
        hint.say(b"no token begins with \\: what one set has and another has not is s - t");
        return;
    }
    if bytes == b";".as_slice() && open_brackets(alloc, between(text, 0, place)).len() != 0 {
        hint.say(b"no token begins with ;: a comma stands between two parts");
        return;
    }
    let form = match bytes {
        [b'0', ..] => b"an integer has no 0 in front: @".as_slice(),
        [b'1'..=b'9', ..] => b"@ is more than the greatest integer, 9223372036854775807",
        _ => b"no token begins with $: $",
    };
    hint.sentence.fill(form, bytes, said_in(&CURES, bytes));
}

// Whether no more than spaces stand between a place and the end of its line.
fn ends_line(text: &[u8], place: usize) -> bool {
    let rest = between(text, place, text.len());
    match rest.iter().find(|byte| **byte != b' ') {
        Some(byte) => *byte == b'\n' || *byte == b'\r',
        None => true,
    }
}

/// What is said of the front of what spells no token.
const FRONTS: [&[u8]; 2] = [
    b"\"\"\".. ~ there are no docstrings: a comment begins with #",
    b"/*.. ~ a comment begins with #, and ends with its line",
];

/// What is written in the place of a character.
const CURES: [&[u8]; 12] = [
    b"\"|` ~ a text stands in single quotes ('), as in 'ping'",
    b"/ ~ the quotient of integers is written //",
    b"! ~ write not, or != for unequal",
    b"& ~ write and",
    b"; ~ each statement stands on a line of its own",
    b"^ ~ there are no powers",
    b"\\ ~ a line goes on by itself while a bracket is open",
    b"@ ~ there are no decorators",
    b"? ~ there is no value with an if inside: write an if with lines of its own",
    b"~ ~ write not",
    b"$ ~ a name has letters, digits and _ alone",
    b".. ~ only a text and a comment may hold it",
];

// A line that is indented as no open block is.
fn tell_indent(alloc: Global, text: &[u8], line: Line<'_>, hint: &mut Hint) {
    let spaces = line.bytes.iter().take_while(|byte| **byte == b' ').count();
    hint.blame(line.first, spaces);
    hint.say(b"the indentation of this line is that of no open block: it has ");
    hint.sentence.count(spaces, b"space", b"spaces");
    let levels = levels_before(alloc, between(text, 0, line.first));
    hint.notes.put(b"the lines of the open blocks have ");
    put_levels(levels.as_slice(), &mut hint.notes);
    hint.note(b" spaces");
    if let Some(odd) = odd_indent(alloc, between(text, 0, line.first)) {
        hint.notes.put(b"line ");
        hint.notes.number(u64::from(odd));
        hint.note(b" is indented deeper than the line before it, which does not end with ':'");
    }
}

// The tokens of a text, where it is not too long and has some.
fn tokens_in<'t>(alloc: Global, text: &'t [u8]) -> Option<Tokens<'t>> {
    if text.len() > 1_048_576 {
        return None;
    }
    match lex(alloc, text) {
        Ok(tokens) => Some(tokens),
        Err(_) => None,
    }
}

// The first line that is indented deeper than the line before it though that one begins no block.
fn odd_indent(alloc: Global, text: &[u8]) -> Option<u32> {
    let tokens = tokens_in(alloc, text)?;
    let list = tokens.list.as_slice();
    for (place, token) in list.iter().enumerate() {
        if token.kind == TokenKind::Indent {
            let before = list.get(place.checked_sub(2)?)?;
            if slice_at(text, before) != b":".as_slice() {
                return Some(token.line);
            }
        }
    }
    None
}

fn put_levels(levels: &[usize], out: &mut Phrase) {
    out.put(b"0");
    let last = levels.len().saturating_sub(1);
    for (place, level) in levels.iter().enumerate() {
        out.put(if place == last { b" or " } else { b", " });
        out.number(*level as u64);
    }
}

// The levels of the blocks that are open after a text, but for 0. What closes at the end of the text stands for no line.
fn levels_before(alloc: Global, text: &[u8]) -> List<usize> {
    let mut levels = List::new(alloc);
    let Some(tokens) = tokens_in(alloc, text) else {
        return levels;
    };
    for token in tokens.list.as_slice() {
        let first = token.first as usize;
        if token.kind == TokenKind::Indent {
            let _ = levels.push(spaces_before(text, first));
        } else if token.kind == TokenKind::Dedent && first < text.len() {
            let _ = levels.pop();
        }
    }
    levels
}

// How many spaces stand directly before a place.
fn spaces_before(text: &[u8], place: usize) -> usize {
    let front = between(text, 0, place);
    front.iter().rev().take_while(|byte| **byte == b' ').count()
}

// A quote on this line without a partner, or a bracket that is open to the end of the text.
fn tell_unclosed(alloc: Global, text: &[u8], line: Line<'_>, hint: &mut Hint) {
    if let Some(bad) = bad_piece(line.bytes) {
        hint.blame(line.first.saturating_add(bad.place), 1);
        hint.say(b"the text that begins with this quote (') does not end on its line");
        hint.note(b"a text has no escapes, and no ' inside");
        return;
    }
    let open = open_brackets(alloc, text);
    let Some(place) = open.get(0).copied() else {
        return;
    };
    hint.blame(place, 1);
    let form = b"this @ is not closed: it is open to the end of the text";
    let bracket = between(text, place, place.saturating_add(1));
    hint.sentence.fill(form, bracket, b"");
    if bracket == b"{".as_slice() && ends_line(text, place.saturating_add(1)) {
        hint.note(
            b"a block has no braces: its header ends with ':', and it is indented by four spaces",
        );
    }
    hint.note(b"while a bracket is open, the line ends and the indentation below it do not count");
}
