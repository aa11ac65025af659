//! Words of messages.
use std::alloc::Global;
use text_hints::{Nearest, Phrase, between};

/// The bytes of a message or of a line that are shown at most.
const SHOWN: usize = 160;

/// Adds words with numbers in them, each of which stands where the words have `#`.
pub fn fill(words: &[u8], numbers: &[u64], out: &mut Phrase) {
    let mut left = numbers;
    for (place, part) in words.split(|byte| *byte == b'#').enumerate() {
        if place != 0 {
            if let [number, others @ ..] = left {
                out.number(*number);
                left = others;
            }
        }
        out.put(part);
    }
}

/// Adds bytes; where there are many, the first of them.
pub fn put_front(bytes: &[u8], out: &mut Phrase) {
    out.put(between(bytes, 0, SHOWN));
    if bytes.len() > SHOWN {
        out.put(b"..");
    }
}

/// Asks whether the first word is meant that is most like this one, if there is such a word.
pub fn put_meant(
    alloc: Global,
    forms: &[(&'static [u8], &'static [u8])],
    word: &[u8],
    out: &mut Phrase,
) {
    let mut nearest = Nearest::new(alloc, word);
    for form in forms {
        nearest.offer(form.0);
    }
    if let Some(found) = nearest.found() {
        out.put(b": is ");
        out.quote(found);
        out.put(b" meant?");
    }
}
