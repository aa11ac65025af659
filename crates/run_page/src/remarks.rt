//! The remark at the end of a schedule, and the events that it names.
ghost use Rattle.run_page.specs.Remarks.{events_named, is_digit as is_digit_def, is_output as is_output_def, named_here, remark_on, remarks_in, words_on};
ghost use Rattle.std.specs.List.{flat_map};
ghost use Rattle.da_values.specs.Piece.{number_of};
ghost use Rattle.std.specs.Prelude.{◌≡◌, ◌==◌, ◌++◌, [], if◌then◌else◌, drop, option_to_list, take, IfOk, OnOk, take_while};

use crate::cells::add_copy;
use da_values::{Buf, List, NoMemory, read_number};
use std::alloc::Global;
use trace_page::last_line;

/// The remark at the end of a schedule, without its `#`; none where its last line is no remark, or says what an event prints.
pub(crate) fn remarks_of(alloc: Global, schedule: &[u8]) -> Result<List<Buf>, NoMemory>
    ensures { IfOk result (λ remarks. remarks ≡ remarks_in schedule.now) }
{
    let mut remarks = List::new(alloc);
    add_remark(alloc, last_line(schedule), &mut remarks)?;
    Ok(remarks)
}

// Adds the remark that a line is, if it is one.
fn add_remark(alloc: Global, line: &[u8], remarks: &mut List<Buf>) -> Result<(), NoMemory>
    ensures { OnOk result (remarks.new ≡ remarks.old ++ remark_on line.now) }
{
    match line {
        [first, words @ ..] => add_words(alloc, *first, words, remarks),
        [] => Ok(()),
    }
}

// Adds the words behind the first byte of a line, if the line is a remark that does not say what an event prints.
fn add_words(
    alloc: Global,
    first: u8,
    words: &[u8],
    remarks: &mut List<Buf>,
) -> Result<(), NoMemory>
    ensures { OnOk result (remarks.new ≡ remarks.old ++ (if first == 35 then words_on words.now else [])) }
{
    if first == b'#' {
        add_plain(alloc, words, remarks)
    } else {
        Ok(())
    }
}

// Adds the words of a remark, if they do not say what an event prints.
fn add_plain(alloc: Global, words: &[u8], remarks: &mut List<Buf>) -> Result<(), NoMemory>
    ensures { OnOk result (remarks.new ≡ remarks.old ++ words_on words.now) }
{
    if is_output(words) {
        Ok(())
    } else {
        add_copy(alloc, words, remarks)
    }
}

// Whether the words of a remark say what an event prints.
fn is_output(words: &[u8]) -> bool
    ensures { result ≡ is_output_def words.now }
{
    match words {
        [first, ..] => *first == b'>',
        [] => false,
    }
}

/// The numbers of the events that remarks name.
pub(crate) fn events_in(alloc: Global, remarks: &[Buf]) -> Result<List<u64>, NoMemory>
    ensures { IfOk result (λ numbers. numbers ≡ flat_map events_named remarks.now) }
{
    let mut numbers = List::new(alloc);
    for remark in remarks {
        add_named(remark.as_slice(), &mut numbers)?;
    }
    Ok(numbers)
}

// Adds the numbers of the events that a text names.
fn add_named(text: &[u8], numbers: &mut List<u64>) -> Result<(), NoMemory>
    ensures { OnOk result (numbers.new ≡ numbers.old ++ events_named text.now) }
{
    let mut left = text;
    'bytes: while let [_, others @ ..] = left {
        add_here(left, numbers)?;
        left = others;
    }
    Ok(())
}

// Adds the number that a text begins with after `(event `.
fn add_here(text: &[u8], numbers: &mut List<u64>) -> Result<(), NoMemory>
    ensures { OnOk result (numbers.new ≡ numbers.old ++ named_here text.now) }
{
    let (word, rest) = cut(text);
    if word == b"(event ".as_slice() {
        return add_number(digits_of(rest), numbers);
    }
    Ok(())
}

// Adds the number that digits write, if they write one.
fn add_number(digits: &[u8], numbers: &mut List<u64>) -> Result<(), NoMemory>
    ensures { OnOk result (numbers.new ≡ numbers.old ++ option_to_list (number_of digits.now)) }
{
    match read_number(digits) {
        Some(number) => numbers.push(number),
        None => Ok(()),
    }
}

// The first seven bytes of a text, as many as `(event ` has, and those behind them.
fn cut(text: &[u8]) -> (&[u8], &[u8])
    ensures front { result.0.now ≡ take 7 text.now }
    ensures rest { result.1.now ≡ drop 7 text.now }
{
    if text.len() > 7 {
        text.split_at(7)
    } else {
        (text, b"".as_slice())
    }
}

// The digits that a text begins with.
fn digits_of(text: &[u8]) -> &[u8]
    ensures { result.now ≡ take_while is_digit_def text.now }
{
    for (place, byte) in text.iter().enumerate() {
        if !is_digit(*byte) {
            return &text[..place];
        }
    }
    text
}

fn is_digit(byte: u8) -> bool
    ensures { result ≡ is_digit_def byte }
{
    byte >= b'0' && byte <= b'9'
}
