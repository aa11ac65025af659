//! What a hunt is to look for, where the words for it are wrong.
use crate::numbers::tell_more;
use crate::options::tell_options;
use da_values::{ValueFault, read_value};
use std::alloc::Global;
use text_hints::{Nearest, Phrase, said_in};

/// What a hunt looks for, and how many words stand behind each.
const WHATS: [(&[u8], usize); 6] = [
    (b"fault", 0),
    (b"stuck", 0),
    (b"differ", 0),
    (b"overlap", 2),
    (b"more", 1),
    (b"watch", 1),
];

const KINDS: &[u8] = b"WHAT is fault, stuck, differ, overlap IN OUT, more K or watch WATCH";

/// Tells which of the words behind N is wrong.
pub fn tell_what(alloc: Global, words: &[String], out: &mut Phrase) {
    let [word, rest @ ..] = words else {
        out.put(KINDS);
        out.put(b", and none is given");
        return;
    };
    let kind = word.as_bytes();
    match WHATS.iter().find(|what| what.0 == kind) {
        None => tell_unknown(alloc, kind, out),
        Some(what) if rest.len() < what.1 => tell_rest(kind, what.1, rest.len(), out),
        Some(what) => tell_behind(alloc, kind, what.1, rest, out),
    }
}

// Which of the words behind a kind is wrong: one that it takes, or one behind these, which is no option.
fn tell_behind(alloc: Global, kind: &[u8], wanted: usize, rest: &[String], out: &mut Phrase) {
    let (taken, options) = rest.split_at(wanted.min(rest.len()));
    if tell_values(alloc, kind, taken, out) || tell_options(alloc, options, out) {
        return;
    }
    tell_rest(kind, wanted, rest.len(), out);
}

// That the number that a kind takes is none, or one of two values. It answers whether that is so.
fn tell_values(alloc: Global, kind: &[u8], words: &[String], out: &mut Phrase) -> bool {
    match words {
        [most] => kind == b"more".as_slice() && tell_more(most.as_bytes(), out),
        [enter, leave] => {
            tell_value(alloc, b"IN", enter.as_bytes(), out)
                || tell_value(alloc, b"OUT", leave.as_bytes(), out)
        }
        _ => false,
    }
}

// That a kind has more or fewer words behind it than it takes.
fn tell_rest(kind: &[u8], wanted: usize, given: usize, out: &mut Phrase) {
    out.quote(kind);
    out.put(b" takes ");
    match wanted {
        0 => out.put(b"no word"),
        1 if kind == b"watch".as_slice() => out.put(b"one word, the name of a watch,"),
        1 => out.put(b"one word, the number K,"),
        _ => out.put(b"two values, IN and OUT,"),
    }
    out.put(b" behind it, and ");
    out.count(given, b"is", b"are");
    out.put(b" given");
}

// That a word is no value, and answers whether that is so.
fn tell_value(alloc: Global, name: &[u8], word: &[u8], out: &mut Phrase) -> bool {
    match read_value(alloc, word) {
        Err(ValueFault::Unread) => {}
        _ => return false,
    }
    out.put(name);
    out.put(b" is the text of a value, and ");
    out.quote_front(word);
    out.put(b" is none");
    let inside = match word {
        [b'"', inside @ .., b'"'] => inside,
        _ => word,
    };
    if inside
        .iter()
        .all(|byte| byte.is_ascii_alphanumeric() || *byte == b'_')
    {
        out.put(b": for a text write \"'");
        out.put(inside);
        out.put(b"'\", since the shell takes the double quotes off");
    }
    true
}

// That a word is no kind, and which one is meant.
fn tell_unknown(alloc: Global, word: &[u8], out: &mut Phrase) {
    out.put(KINDS);
    out.put(b", and not ");
    out.quote_front(word);
    let mut nearest = Nearest::new(alloc, word);
    for what in &WHATS {
        nearest.offer(what.0);
    }
    let meant = match nearest.found() {
        Some(found) => found,
        None => said_in(&MEANT, word),
    };
    if !meant.is_empty() {
        out.put(b": is ");
        out.quote(meant);
        out.put(b" meant?");
    }
}

/// Other words for what a hunt looks for, and what each stands for.
const MEANT: [&[u8]; 6] = [
    b"deadlock|hang|hangs|block|blocked|livelock|wait|Deadlock ~ stuck",
    b"crash|error|exception|panic|overflow|divide ~ fault",
    b"mutex|race|exclusion|both ~ overlap",
    b"leaders|disagree|agreement|consensus|unequal ~ differ",
    b"many|count|outputs|output ~ more",
    b"property|safety|invariant|monitor|assert|check ~ watch",
];
