//! The commands of both programs, and how each is called.
use std::alloc::Global;
use text_hints::{Nearest, Phrase, said_in};

/// A command: its word, how many words stand behind it at least, and how it is called.
pub type Command = (&'static [u8], usize, &'static [u8]);

/// The commands. More words may stand behind `join` and `hunt`, and behind no other.
const COMMANDS: [Command; 15] = [
    (b"check", 1, b"check PROG"),
    (b"replay", 2, b"replay PROG SCHED"),
    (b"plan", 1, b"plan PROG"),
    (b"infer", 1, b"infer PROG"),
    (b"lint", 1, b"lint PROG"),
    (b"stress", 3, b"stress PROG START N"),
    (b"walk", 3, b"walk PROG START N"),
    (b"next", 2, b"next PROG SCHED"),
    (b"show", 2, b"show PROG SCHED"),
    (b"hunt", 4, b"hunt PROG START COUNT N WHAT"),
    (b"watch", 3, b"watch WATCH PROG SCHED"),
    (b"draw", 1, b"draw TRACE"),
    (b"node", 5, b"node PROG PORT ME IDLE TURNS"),
    (b"launch", 4, b"launch PROG PORT IDLE TURNS"),
    (b"join", 1, b"join PROG TRACE .."),
];

// All of them. Each place that names the table is checked with all its rows, so there is one.
fn commands() -> &'static [Command] {
    &COMMANDS
}

/// How many words stand behind a command at least, or `None` where it is none.
pub fn count_of(command: &[u8]) -> Option<usize> {
    for known in commands() {
        if known.0 == command {
            return Some(known.1);
        }
    }
    None
}

/// How a command is called, or nothing where it is none.
pub fn form_of(command: &[u8]) -> &'static [u8] {
    for known in commands() {
        if known.0 == command {
            return known.2;
        }
    }
    b""
}

/// Whether any number of further words may stand behind a command.
pub fn is_open(command: &[u8]) -> bool {
    matches!(command, b"join" | b"hunt")
}

/// Tells that a word is no command, and which one is meant.
pub fn tell_command(alloc: Global, word: &[u8], out: &mut Phrase) {
    out.quote_front(word);
    out.put(b" is no command");
    let cure = cure_of(word);
    if !cure.is_empty() {
        out.put(b": ");
        out.put(cure);
        return;
    }
    let mut nearest = Nearest::new(alloc, word);
    for known in commands() {
        nearest.offer(known.0);
    }
    if let Some(found) = nearest.found() {
        out.put(b": is ");
        out.quote(found);
        out.put(b" meant?");
    }
}

/// The words of other programs, and what stands in the place of each.
const CURES: [&[u8]; 12] = [
    b"help|-h|--help|-?|usage|/?|? ~ ./dalgo --help says what each command does",
    b"version|--version|-v|-V ~ ./dalgo --version prints the version",
    b"build|--build|make ~ ./dalgo --build builds the programs",
    b"run|exec|start|simulate ~ replay runs a schedule, walk makes one, and launch runs all processes as nodes",
    b"test|fuzz|find|search|explore|analyze ~ stress counts what a generated schedule comes to, and hunt looks for a mistake",
    b"trace|graph|view|debug|print ~ replay prints a run, show makes a page of it, and draw makes one of what replay or node printed",
    b"compile|parse|verify ~ check says whether a program is accepted",
    b"types|fmt|format ~ infer prints a program with its declarations",
    b"dalgo ~ the word dalgo stands once, and then a command: ./dalgo check PROG",
    b"...da ~ a command stands before the name of the program: check PROG",
    b"...moves ~ a command and a program stand before the schedule: replay PROG SCHED",
    b"--h.. ~ ./dalgo --help says what each command does",
];

// What stands in the place of a word.
fn cure_of(word: &[u8]) -> &'static [u8] {
    let cure = said_in(&CURES, word);
    match word {
        [b'-', _, ..] if cure.is_empty() => {
            b"there are no options but --help, --version and --build, and --traces DIR of launch"
        }
        _ => cure,
    }
}
