//! Lines of other files in the place of a schedule.
use text_hints::{Phrase, is_one_of, said_in};

/// What is said of the front of a file that is no schedule.
const FRONTS: [&[u8]; 3] = [
    b"\xEF\xBB\xBF.. ~ a byte order mark (BOM) stands before the first word: save the file without it",
    b"\xFF\xFE..|\xFE\xFF.. ~ the file is in UTF-16: save it as ASCII or UTF-8",
    b"<.. ~ this is a page, and no schedule",
];

/// Tells that a line is one of a program, or that a byte-order mark stands before it. Whether that is so.
pub fn tell_program_line(line: &[u8], out: &mut Phrase) -> bool {
    out.put(said_in(&FRONTS, line));
    let word = first_word(line.trim_ascii_start());
    if (is_one_of(word, b"message|class|channel|def|var") && line.contains(&b' '))
        || (word == b"receive".as_slice() && line.contains(&b'('))
    {
        out.put(b"this is a line of a program: the program stands before the schedule, PROG SCHED");
    }
    !out.is_empty()
}

/// Tells that a line is one that a run prints, and which event prints it. Whether that is so.
pub fn tell_printed(line: &[u8], out: &mut Phrase) -> bool {
    let mut words = line.split(|byte| *byte == b' ');
    let word = words.next().unwrap_or(line);
    let Some(p) = words.next() else {
        return false;
    };
    let Some(k) = words.next() else {
        return tell_plain(word, line, out);
    };
    let form = said_in(&PRINTED, word);
    if form.is_empty() {
        return tell_plain(word, line, out);
    }
    if word == b"took".as_slice() && k == b"0".as_slice() {
        out.fill(
            b"this is a line that a run prints: the event is 'move $'",
            p,
            b"",
        );
    } else if word == b"got".as_slice() {
        out.fill(form, k, p);
    } else {
        out.fill(form, p, k);
    }
    true
}

/// What is said of lines that a run prints, each with two numbers behind its word.
const PRINTED: [&[u8]; 3] = [
    b"took ~ this is a line that a run prints: the event is 'move $ $'",
    b"got ~ this is a line that a run prints: the event is 'deliver $ $ I', where I is the place of the message in the channel",
    b"lost ~ this is a line that a run prints: the event is 'lose $ $ I'",
];

// A line that a run prints, and that stands for no event of its own.
fn tell_plain(word: &[u8], line: &[u8], out: &mut Phrase) -> bool {
    let is_printed = is_one_of(word, b"sent|out|fault|stop|kept|node|status")
        && line.contains(&b' ');
    if is_printed {
        out.enclose(word);
        out.put(b" begins a line that a run prints: it stands for no event of its own");
    }
    is_printed
}

// The bytes before the first space or bracket.
fn first_word(line: &[u8]) -> &[u8] {
    let length = line
        .iter()
        .take_while(|byte| byte.is_ascii_alphabetic())
        .count();
    let (word, _) = line.split_at(length.min(line.len()));
    word
}
