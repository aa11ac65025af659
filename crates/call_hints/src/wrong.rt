//! Which word of a call is wrong.
use crate::commands::{count_of, form_of, is_open, tell_command};
use crate::hunts::tell_what;
use crate::numbers::tell_numbers;
use std::alloc::Global;
use text_hints::Phrase;

/// Why these words are none of a call, in one sentence.
pub fn why_not(alloc: Global, words: &[String]) -> Phrase {
    let mut told = Phrase::new(alloc);
    let [command, rest @ ..] = words else {
        told.put(b"a call begins with a command");
        return told;
    };
    let command = command.as_bytes();
    match count_of(command) {
        None => tell_command(alloc, command, &mut told),
        Some(count) if rest.len() < count => tell_few(command, count, rest.len(), &mut told),
        Some(count) if rest.len() > count && !is_open(command) => {
            tell_many(command, count, rest, &mut told);
        }
        Some(_) => tell_words(alloc, command, words, &mut told),
    }
    if told.is_empty() {
        told.quote(command);
        told.put(b" is a word of the other program: ./dalgo starts the one that knows it");
    }
    told
}

// Words of which one has no form that its place asks for.
fn tell_words(alloc: Global, command: &[u8], words: &[String], out: &mut Phrase) {
    if !tell_numbers(command, words, out) && command == b"hunt".as_slice() {
        let (_, what) = words.split_at(words.len().min(5));
        tell_what(alloc, what, out);
    }
}

// Too few words, and the first that is missing.
fn tell_few(command: &[u8], count: usize, given: usize, out: &mut Phrase) {
    tell_count(command, count, given, out);
    let missing = form_of(command)
        .split(|byte| *byte == b' ')
        .nth(given.saturating_add(1));
    if let Some(name) = missing {
        out.put(b": ");
        out.put(name);
        out.put(b" is missing");
    }
}

// Too many words, and the first of these.
fn tell_many(command: &[u8], count: usize, rest: &[String], out: &mut Phrase) {
    tell_count(command, count, rest.len(), out);
    if let Some(word) = excess(count, rest) {
        out.put(b": ");
        out.quote_front(word);
        out.put(b" is one too many");
        if word.starts_with(b"--traces".as_slice()) {
            out.put(b"; ./dalgo takes '--traces DIR' as the last two words of launch");
        } else if is_option(word) {
            out.put(b", since no option stands there");
        }
    }
}

// The word that is too many: the first that begins as an option does, or else the first behind those that are taken.
fn excess(count: usize, rest: &[String]) -> Option<&[u8]> {
    for word in rest {
        if is_option(word.as_bytes()) {
            return Some(word.as_bytes());
        }
    }
    Some(rest.get(count)?.as_bytes())
}

// Whether a word begins as an option does.
fn is_option(word: &[u8]) -> bool {
    match word {
        [b'-', second, ..] => !second.is_ascii_digit(),
        _ => false,
    }
}

// How many words a command takes, and how many there are.
fn tell_count(command: &[u8], count: usize, given: usize, out: &mut Phrase) {
    out.quote(command);
    out.put(b" takes ");
    if is_open(command) {
        out.put(b"at least ");
    }
    out.count(count, b"word", b"words");
    out.put(b" behind it, and ");
    out.count(given, b"is", b"are");
    out.put(b" given");
}
