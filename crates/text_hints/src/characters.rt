//! Characters that a program may not hold, by name.
use crate::hint::Hint;
use crate::lines::{behind, between};
use crate::phrase::Phrase;
use crate::words::said_in;
use std::alloc::Global;
use std::str;

/// Tells of the byte at this place of the text, which only comments may hold.
pub fn tell_byte(alloc: Global, text: &[u8], place: usize, hint: &mut Hint) {
    hint.blame(place, 1);
    let mut said = said_in(&BYTES, behind(text, place));
    if place == 0 && said.is_empty() {
        said = said_in(&FRONTS, text);
    }
    if !said.is_empty() {
        hint.say(said);
        return;
    }
    match text.get(place).copied() {
        Some(byte) if byte < 128 => tell_control(byte, hint),
        Some(byte) => tell_outside(alloc, text, place, byte, hint),
        None => {}
    }
}

/// What is said of the front of a text.
const FRONTS: [&[u8]; 2] = [
    b"\xEF\xBB\xBF.. ~ a byte order mark (BOM) stands before the text: save the file without it",
    b"\xFF\xFE..|\xFE\xFF.. ~ the text is in UTF-16: save the file as ASCII or UTF-8",
];

/// What is said of bytes of ASCII.
const BYTES: [&[u8]; 2] = [
    b"\t.. ~ a tab stands here: use spaces, four for each level",
    b"\r.. ~ a carriage return (CR) stands here, and no line end (LF) follows it",
];

fn tell_control(byte: u8, hint: &mut Hint) {
    hint.say(b"the control character ");
    hint.sentence.number(u64::from(byte));
    hint.say(b" stands here, which only comments may hold");
}

// A byte above 127.
fn tell_outside(alloc: Global, text: &[u8], place: usize, byte: u8, hint: &mut Hint) {
    let Some((number, length)) = character_at(text, place) else {
        hint.say(b"the byte ");
        hint.sentence.number(u64::from(byte));
        hint.say(b" stands here, which is neither ASCII nor UTF-8");
        return;
    };
    hint.blame(place, length);
    hint.quote(between(text, place, place.saturating_add(length)));
    let mut digits = Phrase::new(alloc);
    put_hexadecimal(number, &mut digits);
    hint.sentence.fill(
        b" (U+$) is not ASCII: only comments may hold it",
        digits.as_slice(),
        b"",
    );
    let note = said_in(&NOTES, digits.as_slice());
    if !note.is_empty() {
        hint.note(note);
    }
}

// The number of the character at this place, and how many bytes it has.
fn character_at(text: &[u8], place: usize) -> Option<(u32, usize)> {
    for length in 2..5usize {
        let bytes = between(text, place, place.saturating_add(length));
        if let Ok(one) = str::from_utf8(bytes) {
            return Some((u32::from(one.chars().next()?), length));
        }
    }
    None
}

/// What is said of characters, which stand here by their numbers in base 16.
const NOTES: [&[u8]; 23] = [
    b"2018|2019|201A|201B|201C|201D|201E ~ it is a typographic quotation mark: a text stands in single quotes, 'ping'",
    b"00AB|00BB|00B4|02B9|2032 ~ it is no quotation mark of a program: a text stands in single quotes, 'ping'",
    b"2010|2011|2012|2013|2014|2212 ~ it is a dash: write -",
    b"00A0|2007|202F|2009 ~ it is a space that is none of ASCII: write a space",
    b"200B|FEFF ~ it is not seen on a screen: take it away",
    b"2260 ~ write !=",
    b"2264 ~ write <=",
    b"2265 ~ write >=",
    b"2208 ~ write in",
    b"2209 ~ write not (x in s)",
    b"2203 ~ write some x in s | ..",
    b"2200 ~ write each x in s | ..",
    b"2227 ~ write and",
    b"2228 ~ write or",
    b"00AC ~ write not",
    b"222A ~ the union of two sets is s + t",
    b"2229 ~ what two sets have in common is s * t",
    b"2216 ~ what one set has and another has not is s - t",
    b"2205 ~ the empty set is written {}",
    b"21D2|2192 ~ write if, or for an implication not a or b",
    b"2190 ~ a variable is set so: x = 3",
    b"00D7 ~ write *",
    b"2026 ~ it is one character, and no three dots",
];

// Adds a number in base 16, with four digits at least.
fn put_hexadecimal(number: u32, out: &mut Phrase) {
    let mut divisor = 0x10_0000u32;
    for _digit in 0..6 {
        if divisor == 0 {
            return;
        }
        if divisor <= number.max(0x1000) {
            let digit = number / divisor % 16;
            let first = digit as usize;
            out.put(between(b"0123456789ABCDEF", first, first.saturating_add(1)));
        }
        divisor /= 16;
    }
}
