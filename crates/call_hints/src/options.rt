//! The options of a hunt, where one of them is wrong.
use crate::numbers::tell_option_number;
use std::alloc::Global;
use text_hints::{Nearest, Phrase};

/// The words with which options begin.
const OPTIONS: [&[u8]; 6] = [
    b"lose",
    b"repeat",
    b"by",
    b"jobs",
    b"--coverage",
    b"--quiet",
];

/// The words behind `by`.
const STRATEGIES: [&[u8]; 3] = [b"uniform", b"priorities", b"turns"];

/// Tells which of the words behind WHAT is wrong, and answers whether that can be said.
pub fn tell_options(alloc: Global, words: &[String], out: &mut Phrase) -> bool {
    let mut taken = 0usize;
    for _option in words {
        if taken >= words.len() {
            return false;
        }
        let (before, rest) = words.split_at(taken);
        let [word, others @ ..] = rest else {
            return false;
        };
        let word = word.as_bytes();
        if !is_option(word) {
            return tell_unknown(alloc, word, taken, out);
        }
        if before.iter().any(|one| one.as_bytes() == word) {
            out.quote(word);
            out.put(b" stands twice");
            return true;
        }
        match tell_option(alloc, word, others, out) {
            Some(count) => taken = taken.saturating_add(count),
            None => return true,
        }
    }
    false
}

// How many words an option has, or `None` where one of them is wrong, which is told.
fn tell_option(alloc: Global, word: &[u8], others: &[String], out: &mut Phrase) -> Option<usize> {
    match word {
        b"--coverage" | b"--quiet" => Some(1),
        b"by" => tell_strategy(alloc, others, out),
        _ => {
            if tell_number(word, others, out) {
                return None;
            }
            Some(2)
        }
    }
}

// That the number behind a word is missing or none, and answers whether that is so.
fn tell_number(word: &[u8], others: &[String], out: &mut Phrase) -> bool {
    let [number, ..] = others else {
        out.quote(word);
        out.put(b" takes one word, a number, behind it, and none is given");
        return true;
    };
    tell_option_number(word, number.as_bytes(), out)
}

// How many words a strategy has with `by`, or `None` where it is none, which is told.
fn tell_strategy(alloc: Global, others: &[String], out: &mut Phrase) -> Option<usize> {
    let [word, rest @ ..] = others else {
        out.put(b"behind 'by' stands uniform, priorities D or turns, and nothing is given");
        return None;
    };
    match word.as_bytes() {
        b"uniform" | b"turns" => Some(2),
        b"priorities" => {
            if tell_number(b"priorities", rest, out) {
                return None;
            }
            Some(3)
        }
        other => {
            out.put(b"behind 'by' stands uniform, priorities D or turns, and not ");
            out.quote_front(other);
            let mut nearest = Nearest::new(alloc, other);
            for strategy in &STRATEGIES {
                nearest.offer(strategy);
            }
            tell_meant(nearest.found(), out);
            None
        }
    }
}

// That a word is no option, and which one is meant; and answers whether that can be said. Behind an option it can be in any case.
fn tell_unknown(alloc: Global, word: &[u8], taken: usize, out: &mut Phrase) -> bool {
    let mut nearest = Nearest::new(alloc, word);
    for option in &OPTIONS {
        nearest.offer(option);
    }
    if nearest.found().is_none() && taken == 0 && !is_like_option(word) {
        return false;
    }
    out.quote_front(word);
    out.put(
        b" is no option: behind WHAT may stand lose L, repeat R, by uniform, by priorities D, by turns, jobs J, --coverage and --quiet",
    );
    tell_meant(nearest.found(), out);
    true
}

// Whether a word begins as an option does.
fn is_like_option(word: &[u8]) -> bool {
    matches!(word, [b'-', b'-', ..])
}

// Whether an option begins with a word.
fn is_option(word: &[u8]) -> bool {
    for option in &OPTIONS {
        if *option == word {
            return true;
        }
    }
    false
}

// Which word is meant, if one is near.
fn tell_meant(meant: Option<&[u8]>, out: &mut Phrase) {
    if let Some(found) = meant {
        out.put(b": is ");
        out.quote(found);
        out.put(b" meant?");
    }
}
