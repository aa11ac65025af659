//! Watches, from their texts.
ghost use Rattle.da_core.specs.Compiled.{IsCompiled, program_of};
ghost use Rattle.da_front.specs.WatchText.{AcceptsBeside, IsBeside, IsNoWatchAs, class_end as class_end_def, end_of as end_of_def, is_new as is_new_def, is_one as is_one_def, is_setup as is_setup_def, line_of_main, makes_one as makes_one_def, odd_in, odd_line as odd_line_def, second_end as second_end_def, text_with};
ghost use Rattle.da_values.specs.Marks.{slice_of};
ghost use Rattle.std.specs.List.{list_all};
ghost use Rattle.std.specs.Option.{option_copied};
ghost use Rattle.std.specs.Prelude.{◌≡◌, IfErr, IfOk, drop, is_some, not, slice_get, take};

use crate::program::{read_program, read_tokens, read_tree};
use crate::refusal::{ProgramFault, RefusedKind};
use da_core::Compiled;
use da_lang::MainLine;
use da_values::{Buf, List, NoMemory, Token, write_number};
use std::alloc::Global;

/// The program of a watch, from its text, beside a program of `count` processes: it has as many processes, which never begin, and
/// one more, which watches. So its text is read with the number of processes behind the class that its `main` makes. A text that
/// is refused by itself is refused so, then one with another `main`, and then one that is refused beside so many.
pub fn read_watch(alloc: Global, text: &[u8], count: u32) -> Result<Compiled, ProgramFault>
    ensures compiled { IfOk result IsCompiled }
    ensures read { IfOk result (λ watch. AcceptsBeside text.now count (program_of watch)) }
    ensures refused { IfErr result (IsNoWatchAs text.now count) }
{
    let beside = text_beside(alloc, text, count)?;
    let other = beside.as_slice();
    let compiled = match read_program(alloc, other) {
        Ok(compiled) => compiled,
        Err(fault) => return Err(fault),
    };
    let size = compiled.program().procs.len() as u64;
    if size != u64::from(count) + 1 {
        return Err(ProgramFault::Memory);
    }
    Ok(compiled)
}

// The text of a watch beside so many processes.
#[tactic(auto, using(crate::proofs::WatchLemmas::refused_itself))]
fn text_beside(alloc: Global, text: &[u8], count: u32) -> Result<Buf, ProgramFault>
    ensures beside { IfOk result (IsBeside text.now count) }
    ensures refused { IfErr result (IsNoWatchAs text.now count) }
{
    let tree = read_tree(alloc, text)?;
    let main = tree.main.as_slice();
    if !makes_one(main) {
        return Err(ProgramFault::Refused {
            kind: RefusedKind::Watch,
            line: odd_line(main),
        });
    }
    let Ok(tokens) = read_tokens(alloc, text) else {
        return Err(ProgramFault::Memory);
    };
    let found = class_end(text, tokens.list.as_slice());
    let Some(place) = found else {
        return Err(ProgramFault::Memory);
    };
    let Ok(other) = with_count(alloc, text, place, count) else {
        return Err(ProgramFault::Memory);
    };
    Ok(other)
}

// Whether the first line makes one process, and the others set it up.
fn makes_one(main: &[MainLine]) -> bool
    ensures { result ≡ makes_one_def main.now }
{
    let [first, others @ ..] = main else {
        return false;
    };
    if !is_one(first) {
        return false;
    }
    sets_up(others)
}

// Whether a line makes one process.
fn is_one(line: &MainLine) -> bool
    ensures { result ≡ is_one_def line.now }
{
    match line {
        MainLine::New { count, .. } => is_absent(count),
        MainLine::Setup { .. } => false,
    }
}

fn is_absent(count: &Option<u64>) -> bool
    ensures { result ≡ not (is_some count.now) }
{
    match count {
        None => true,
        Some(_) => false,
    }
}

// Whether all lines set something up.
fn sets_up(lines: &[MainLine]) -> bool
    ensures { result ≡ list_all is_setup_def lines.now }
{
    for line in lines {
        if !is_setup(line) {
            return false;
        }
    }
    true
}

fn is_setup(line: &MainLine) -> bool
    ensures { result ≡ is_setup_def line.now }
{
    match line {
        MainLine::New { .. } => false,
        MainLine::Setup { .. } => true,
    }
}

// The line of the second process that a `main` makes, or of the first.
fn odd_line(main: &[MainLine]) -> u32
    ensures { result ≡ odd_line_def main.now }
{
    let [first, others @ ..] = main else {
        return 0;
    };
    odd_among(line_of(first), others)
}

// The line of the first of some lines that makes a process, or else this one.
fn odd_among(first: u32, lines: &[MainLine]) -> u32
    ensures { result ≡ odd_in first lines.now }
{
    for line in lines {
        if !is_setup(line) {
            return line_of(line);
        }
    }
    first
}

fn line_of(line: &MainLine) -> u32
    ensures { result ≡ line_of_main line.now }
{
    match line {
        MainLine::New { line, .. } => *line,
        MainLine::Setup { line, .. } => *line,
    }
}

// The end of the class in the first `new ( CLASS` of a text, if it has one.
fn class_end(text: &[u8], tokens: &[Token]) -> Option<usize>
    ensures { result ≡ class_end_def text.now tokens.now }
{
    let mut rest = tokens;
    'pieces: while let [token, others @ ..] = rest {
        if is_new(text, token) {
            return second_end(others);
        }
        rest = others;
    }
    None
}

// The end of the second of some tokens.
fn second_end(tokens: &[Token]) -> Option<usize>
    ensures { result ≡ second_end_def tokens.now }
{
    match second(tokens) {
        Some(token) => Some(end_of(token)),
        None => None,
    }
}

fn second(tokens: &[Token]) -> Option<&Token>
    ensures { option_copied result ≡ slice_get tokens.now 1 }
{
    tokens.get(1)
}

fn end_of(token: &Token) -> usize
    ensures { result ≡ end_of_def token.now }
{
    token.first as usize + token.length as usize
}

// Whether a token of a text is the word `new`.
fn is_new(text: &[u8], token: &Token) -> bool
    ensures { result ≡ is_new_def text.now token.now }
{
    slice(text, token) == b"new".as_slice()
}

// The bytes of a token of a text.
fn slice<'t>(text: &'t [u8], token: &Token) -> &'t [u8]
    ensures { result.now ≡ slice_of text.now token.now }
{
    before(behind(text, token.first as usize), token.length as usize)
}

// A text up to a place.
fn before(text: &[u8], place: usize) -> &[u8]
    ensures { result.now ≡ take place text.now }
{
    let size = text.len();
    if place > size {
        return text;
    }
    let (front, _) = text.split_at(place);
    front
}

// A text from a place on.
fn behind(text: &[u8], place: usize) -> &[u8]
    ensures { result.now ≡ drop place text.now }
{
    let size = text.len();
    if place > size {
        return b"";
    }
    let (_, back) = text.split_at(place);
    back
}

// The text with a number of processes, which is one more than `count`, at a place.
fn with_count(alloc: Global, text: &[u8], place: usize, count: u32) -> Result<Buf, NoMemory>
    ensures { IfOk result (λ other. other ≡ text_with count place text.now) }
{
    let front = before(text, place);
    let back = behind(text, place);
    let mut other = List::new(alloc);
    other.append(front)?;
    other.append(b", ")?;
    write_number(u64::from(count) + 1, &mut other)?;
    other.append(back)?;
    Ok(other)
}
