//! The text of a program with marks.
use da_values::{Buf, List, NoMemory, write_number};
use std::alloc::Global;

/// The text of a mark, which no program is likely to put out itself.
pub const MARK: &[u8] = b"#reached";

/// A line before which there is a mark, and whether it is the header of a handler.
#[derive(Clone, Copy)]
pub struct Marked {
    pub line: u32,
    pub handler: bool,
}

/// A text with marks: the line of the first text for each of its lines, and the lines that are marked.
#[derive(Drop)]
pub struct MarkedText {
    pub text: Buf,
    pub lines: List<u32>,
    pub marked: List<Marked>,
}

/// Where a reader of lines stands: how many brackets are open, the header of a handler that goes on, and one that has ended and
/// whose first statement follows.
#[derive(Clone, Copy)]
struct Reader {
    depth: u32,
    header: Option<u32>,
    pending: Option<u32>,
}

/// Marks a text.
pub fn mark_text(alloc: Global, text: &[u8]) -> Result<MarkedText, NoMemory> {
    let mut out = MarkedText {
        text: List::new(alloc),
        lines: List::new(alloc),
        marked: List::new(alloc),
    };
    let mut reader = Reader {
        depth: 0,
        header: None,
        pending: None,
    };
    let mut number = 0u32;
    for line in text.split(|byte| *byte == b'\n') {
        number = number.saturating_add(1);
        mark_line(&mut reader, line, number, &mut out)?;
    }
    Ok(out)
}

// Adds a line, with a mark before it where one is due.
fn mark_line(
    reader: &mut Reader,
    line: &[u8],
    number: u32,
    out: &mut MarkedText,
) -> Result<(), NoMemory> {
    let indent = line.iter().take_while(|byte| **byte == b' ').count();
    let (_, inside) = line.split_at(indent.min(line.len()));
    if reader.depth == 0 && begins_statement(inside) {
        mark_statement(reader, inside, indent, number, out)?;
    }
    reader.depth = depth_after(reader.depth, inside);
    if reader.depth == 0 {
        if let Some(header) = reader.header {
            reader.pending = Some(header);
            reader.header = None;
        }
    }
    put_line(line, number, out)
}

// Adds the marks that are due before a statement, and sees where a handler begins.
fn mark_statement(
    reader: &mut Reader,
    inside: &[u8],
    indent: usize,
    number: u32,
    out: &mut MarkedText,
) -> Result<(), NoMemory> {
    if let Some(header) = reader.pending {
        put_mark(indent, header, true, number, out)?;
        reader.pending = None;
    }
    if begins_with(inside, b"output") {
        put_mark(indent, number, false, number, out)?;
    }
    if begins_with(inside, b"receive") {
        reader.header = Some(number);
    }
    Ok(())
}

// Whether something other than a remark stands in a line.
fn begins_statement(inside: &[u8]) -> bool {
    match inside {
        [first, ..] => *first != b'#' && *first != b'\r',
        [] => false,
    }
}

// Whether a line begins with a word.
fn begins_with(inside: &[u8], word: &[u8]) -> bool {
    if inside.len() < word.len() {
        return false;
    }
    let (front, rest) = inside.split_at(word.len());
    if front != word {
        return false;
    }
    match rest {
        [next, ..] => !(next.is_ascii_alphanumeric() || *next == b'_'),
        [] => true,
    }
}

// How many brackets are open behind a line.
fn depth_after(before: u32, line: &[u8]) -> u32 {
    let mut depth = before;
    let mut quoted = false;
    for byte in line {
        if *byte == b'\'' {
            quoted = !quoted;
        } else if !quoted {
            match *byte {
                b'#' => return depth,
                b'(' | b'[' | b'{' => depth = depth.saturating_add(1),
                b')' | b']' | b'}' => depth = depth.saturating_sub(1),
                _ => {}
            }
        }
    }
    depth
}

// Adds a line that puts out the number of a line.
fn put_mark(
    indent: usize,
    line: u32,
    handler: bool,
    number: u32,
    out: &mut MarkedText,
) -> Result<(), NoMemory> {
    for _space in 0..indent {
        out.text.push(b' ')?;
    }
    out.text.append(b"output(('")?;
    out.text.append(MARK)?;
    out.text.append(b"', ")?;
    write_number(line, &mut out.text)?;
    out.text.append(b"))\n")?;
    out.lines.push(number)?;
    out.marked.push(Marked { line, handler })
}

// Adds a line as it is.
fn put_line(line: &[u8], number: u32, out: &mut MarkedText) -> Result<(), NoMemory> {
    out.text.append(line)?;
    out.text.push(b'\n')?;
    out.lines.push(number)
}
