//! Words that are numbers, and from where to where each goes.
use da_commands::{
    FIRST_PORT, LAST_PORT, LAST_START, MOST_ANSWERS, MOST_EVENTS, MOST_OUTPUTS, MOST_PROCESSES,
    MOST_SCHEDULES, number_between,
};
use text_hints::Phrase;

/// A word that is a number: the command, the name of the word, its place in the call, and the least and the greatest that it may
/// be.
type Range = (&'static [u8], &'static [u8], usize, u64, u64);

/// The words that are numbers.
const RANGES: [Range; 14] = [
    (b"stress", b"START", 2, 0, LAST_START),
    (b"stress", b"N", 3, 1, MOST_EVENTS),
    (b"walk", b"START", 2, 0, LAST_START),
    (b"walk", b"N", 3, 1, MOST_EVENTS),
    (b"hunt", b"START", 2, 0, LAST_START),
    (b"hunt", b"COUNT", 3, 1, MOST_SCHEDULES),
    (b"hunt", b"N", 4, 1, MOST_EVENTS),
    (b"node", b"PORT", 2, FIRST_PORT, LAST_PORT),
    (b"node", b"ME", 3, 1, MOST_PROCESSES),
    (b"node", b"IDLE", 4, 1, MOST_ANSWERS),
    (b"node", b"TURNS", 5, 1, MOST_ANSWERS),
    (b"launch", b"PORT", 2, FIRST_PORT, LAST_PORT),
    (b"launch", b"IDLE", 3, 1, MOST_ANSWERS),
    (b"launch", b"TURNS", 4, 1, MOST_ANSWERS),
];

/// The number behind `more`.
const MORE: Range = (b"hunt", b"K", 6, 0, MOST_OUTPUTS);

/// The numbers behind the options of a hunt. Their places are not fixed.
const LOSSES: Range = (b"hunt", b"L", 0, 0, 255);

const REPETITIONS: Range = (b"hunt", b"R", 0, 0, 255);

const FALLS: Range = (b"hunt", b"D", 0, 0, 255);

const JOBS: Range = (b"hunt", b"J", 0, 1, 64);

/// Tells the first number of a call that is not within its range, and answers whether there is one.
pub fn tell_numbers(command: &[u8], words: &[String], out: &mut Phrase) -> bool {
    for range in &RANGES {
        if range.0 == command {
            if let Some(word) = words.get(range.2) {
                if tell_number(*range, word.as_bytes(), out) {
                    return true;
                }
            }
        }
    }
    false
}

/// Tells that the word behind `more` is no number within its range, and answers whether that is so.
pub fn tell_more(word: &[u8], out: &mut Phrase) -> bool {
    tell_number(MORE, word, out)
}

/// Tells that the word behind an option is no number within its range, and answers whether that is so.
pub fn tell_option_number(option: &[u8], word: &[u8], out: &mut Phrase) -> bool {
    match option {
        b"lose" => tell_number(LOSSES, word, out),
        b"repeat" => tell_number(REPETITIONS, word, out),
        b"jobs" => tell_number(JOBS, word, out),
        _ => tell_number(FALLS, word, out),
    }
}

// Tells that a word is no number within its range, and answers whether that is so.
fn tell_number(range: Range, word: &[u8], out: &mut Phrase) -> bool {
    if number_between(word, range.3, range.4).is_some() {
        return false;
    }
    out.put(range.1);
    out.put(b" is a number from ");
    out.number(range.3);
    out.put(b" to ");
    out.number(range.4);
    out.put(b" without a 0 in front, and not ");
    out.quote_front(word);
    if word.ends_with(b".da".as_slice()) {
        out.put(b": PROG stands directly behind the command");
    }
    true
}
