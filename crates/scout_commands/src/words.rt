//! What the words of a call ask for.
ghost use Rattle.da_values.specs.Reading.{IsTextOf};
ghost use Rattle.da_values.specs.Value.{val_of};
ghost use Rattle.scout_commands.specs.Words.{AimsAt, FindsAim, FindsSort, FindsSought, FindsValue, IsAsked, name_of_sort};
ghost use Rattle.std.specs.Prelude.{◌≡◌, ℕ, List, ◌∷◌, [], IfOk, codes, map};
ghost use Rattle.std.specs.String.{string_bytes};

use crate::options::{Options, options_of};
use da_commands::{LAST_START, MOST_EVENTS, MOST_OUTPUTS, MOST_SCHEDULES, number_between};
use da_values::{NoMemory, Value, ValueFault, read_value};
use schedule_hunt::{Trials, What};
use std::alloc::Global;

/// What a hunt looks for.
#[derive(Drop)]
pub enum Aim<'a> {
    /// A run that shows this.
    Shown(What),
    /// A run beside which the watch of this name says something.
    Watched(&'a str),
}

/// What is looked for over a program.
#[derive(Drop)]
pub enum Search<'a> {
    /// The generated schedule: the number with which it begins, and the most events.
    Walk {
        start: u64,
        most: u64,
    },
    /// One of the schedules that are tried.
    Hunt {
        trials: Trials,
        aim: Aim<'a>,
        options: Options,
    },
}

/// What is asked of the run of a schedule.
#[derive(Clone, Copy)]
pub enum Question {
    /// Which events are allowed after it.
    Next,
    /// The page of it.
    Show,
}

/// What the program is asked to do.
#[derive(Drop)]
pub enum Command<'a> {
    /// To look for something over the program of this name.
    Search {
        search: Search<'a>,
        program: &'a str,
    },
    /// To run the program by the schedule of these names, for an answer.
    Follow {
        question: Question,
        names: Names<'a>,
    },
    /// To run a schedule beside the watch of this name.
    Watch {
        watch: &'a str,
        names: Names<'a>,
    },
    /// To draw the trace of this name.
    Draw {
        trace: &'a str,
    },
    /// Nothing that it knows.
    Other,
}

/// The names of a program and of a schedule.
#[derive(Clone, Copy)]
pub struct Names<'a> {
    pub program: &'a str,
    pub schedule: &'a str,
}

/// What these words ask for.
pub fn command_of(alloc: Global, words: &[String]) -> Result<Command<'_>, NoMemory>
    ensures { IfOk result (IsAsked (map string_bytes words.now)) }
{
    match words {
        [command, trace] => Ok(draw_of(command.as_str(), trace.as_str())),
        [command, program, schedule] => {
            Ok(follow_of(command.as_str(), program.as_str(), schedule.as_str()))
        }
        [command, first, second, third] => Ok(four_of(
            command.as_str(),
            first.as_str(),
            second.as_str(),
            third.as_str(),
        )),
        [command, program, start, count, most, what @ ..] => hunt_of(
            alloc,
            command.as_str(),
            program.as_str(),
            start.as_str(),
            count.as_str(),
            most.as_str(),
            what,
        ),
        _ => Ok(Command::Other),
    }
}

// What two words ask for.
fn draw_of<'a>(command: &str, trace: &'a str) -> Command<'a>
    ensures { IsAsked (command.now ∷ trace.now ∷ []) result }
{
    if command == "draw" {
        Command::Draw { trace }
    } else {
        Command::Other
    }
}

// What three words ask for.
fn follow_of<'a>(command: &str, program: &'a str, schedule: &'a str) -> Command<'a>
    ensures { IsAsked (command.now ∷ program.now ∷ schedule.now ∷ []) result }
{
    let names = Names { program, schedule };
    if command == "next" {
        Command::Follow {
            question: Question::Next,
            names,
        }
    } else if command == "show" {
        Command::Follow {
            question: Question::Show,
            names,
        }
    } else {
        Command::Other
    }
}

// What four words ask for.
fn four_of<'a>(command: &str, first: &'a str, second: &'a str, third: &'a str) -> Command<'a>
    ensures { IsAsked (command.now ∷ first.now ∷ second.now ∷ third.now ∷ []) result }
{
    if command == "watch" {
        return Command::Watch {
            watch: first,
            names: Names {
                program: second,
                schedule: third,
            },
        };
    }
    walk_of(command, first, second, third)
}

// What four words ask for that ask for no watch.
fn walk_of<'a>(command: &str, program: &'a str, start: &str, most: &str) -> Command<'a>
    requires { command.now ≡ codes "watch" → ⊥ }
    ensures { IsAsked (command.now ∷ program.now ∷ start.now ∷ most.now ∷ []) result }
{
    if command != "walk" {
        return Command::Other;
    }
    let Some(start) = number_between(start.as_bytes(), 0, LAST_START) else {
        return Command::Other;
    };
    let Some(most) = number_between(most.as_bytes(), 1, MOST_EVENTS) else {
        return Command::Other;
    };
    Command::Search {
        search: Search::Walk { start, most },
        program,
    }
}

// What five and more words ask for.
fn hunt_of<'a>(
    alloc: Global,
    command: &str,
    program: &'a str,
    start: &str,
    count: &str,
    most: &str,
    what: &'a [String],
) -> Result<Command<'a>, NoMemory>
    ensures { IfOk result (IsAsked (command.now ∷ program.now ∷ start.now ∷ count.now ∷ most.now ∷ map string_bytes what.now)) }
{
    if command != "hunt" {
        return Ok(Command::Other);
    }
    let Some(start) = number_between(start.as_bytes(), 0, LAST_START) else {
        return Ok(Command::Other);
    };
    let Some(count) = number_between(count.as_bytes(), 1, MOST_SCHEDULES) else {
        return Ok(Command::Other);
    };
    let Some(most) = number_between(most.as_bytes(), 1, MOST_EVENTS) else {
        return Ok(Command::Other);
    };
    let sought = sought_of(alloc, what)?;
    let Some(sought) = sought else {
        return Ok(Command::Other);
    };
    Ok(Command::Search {
        search: Search::Hunt {
            trials: Trials {
                start,
                count,
                most,
                setting: sought.options.setting(),
            },
            aim: sought.aim,
            options: sought.options,
        },
        program,
    })
}

/// What a hunt looks for, and its options.
#[derive(Drop)]
pub struct Sought<'a> {
    aim: Aim<'a>,
    options: Options,
}

// What a hunt looks for by these words, and its options, or `None` where they say nothing that is known.
fn sought_of(alloc: Global, words: &[String]) -> Result<Option<Sought<'_>>, NoMemory>
    ensures { IfOk result (FindsSought (map string_bytes words.now)) }
{
    let aimed = aim_of(alloc, words)?;
    match aimed {
        Some(aimed) => Ok(sought_by(aimed)),
        None => Ok(None),
    }
}

// The same by what is looked for and the words behind it.
fn sought_by(aimed: Aimed<'_>) -> Option<Sought<'_>>
    ensures { (words : List (List ℕ)) → AimsAt words aimed.entry.aim (map string_bytes aimed.entry.others.now) → FindsSought words result }
{
    match options_of(aimed.others) {
        Some(options) => Some(Sought {
            aim: aimed.aim,
            options,
        }),
        None => None,
    }
}

/// What a hunt looks for, and the words behind it.
#[derive(Drop)]
pub struct Aimed<'a> {
    aim: Aim<'a>,
    others: &'a [String],
}

/// The words that begin what a hunt looks for.
#[derive(Clone, Copy)]
pub enum Sort {
    Fault,
    Stuck,
    Differ,
    Overlap,
    More,
    Watch,
}

// What a hunt looks for by the first of these words, or `None` where they say nothing that is known.
fn aim_of(alloc: Global, words: &[String]) -> Result<Option<Aimed<'_>>, NoMemory>
    ensures { IfOk result (FindsAim (map string_bytes words.now)) }
{
    let [word, others @ ..] = words else {
        return Ok(None);
    };
    aim_by(alloc, word.as_str(), others)
}

// The same by the first word and the others.
fn aim_by<'a>(
    alloc: Global,
    word: &str,
    others: &'a [String],
) -> Result<Option<Aimed<'a>>, NoMemory>
    ensures { IfOk result (FindsAim (word.now ∷ map string_bytes others.now)) }
{
    match sort_of(word) {
        Some(sort) => aim_of_sort(alloc, sort, others),
        None => Ok(None),
    }
}

// What begins with a word.
fn sort_of(word: &str) -> Option<Sort>
    ensures { FindsSort word.now result }
{
    if word == "fault" {
        Some(Sort::Fault)
    } else if word == "stuck" {
        Some(Sort::Stuck)
    } else if word == "differ" {
        Some(Sort::Differ)
    } else if word == "overlap" {
        Some(Sort::Overlap)
    } else if word == "more" {
        Some(Sort::More)
    } else if word == "watch" {
        Some(Sort::Watch)
    } else {
        None
    }
}

// What is looked for by the words behind the first.
fn aim_of_sort<'a>(
    alloc: Global,
    sort: Sort,
    others: &'a [String],
) -> Result<Option<Aimed<'a>>, NoMemory>
    ensures { IfOk result (FindsAim (name_of_sort sort ∷ map string_bytes others.now)) }
{
    match sort {
        Sort::Fault => Ok(Some(Aimed {
            aim: Aim::Shown(What::Fault),
            others,
        })),
        Sort::Stuck => Ok(Some(Aimed {
            aim: Aim::Shown(What::Stuck),
            others,
        })),
        Sort::Differ => Ok(Some(Aimed {
            aim: Aim::Shown(What::Differ),
            others,
        })),
        Sort::Overlap => overlap_of(alloc, others),
        Sort::More => Ok(more_of(others)),
        Sort::Watch => Ok(watched_of(others)),
    }
}

// What the words behind `watch` say.
fn watched_of(words: &[String]) -> Option<Aimed<'_>>
    ensures { FindsAim (codes "watch" ∷ map string_bytes words.now) result }
{
    let [word, others @ ..] = words else {
        return None;
    };
    Some(Aimed {
        aim: Aim::Watched(word.as_str()),
        others,
    })
}

// What the words behind `more` say.
fn more_of(words: &[String]) -> Option<Aimed<'_>>
    ensures { FindsAim (codes "more" ∷ map string_bytes words.now) result }
{
    let [word, others @ ..] = words else {
        return None;
    };
    match number_between(word.as_bytes(), 0, MOST_OUTPUTS) {
        Some(most) => Some(Aimed {
            aim: Aim::Shown(What::More(most)),
            others,
        }),
        None => None,
    }
}

// What the words behind `overlap` say.
fn overlap_of(alloc: Global, words: &[String]) -> Result<Option<Aimed<'_>>, NoMemory>
    ensures { IfOk result (FindsAim (codes "overlap" ∷ map string_bytes words.now)) }
{
    let [enter, leave, others @ ..] = words else {
        return Ok(None);
    };
    overlap_by(alloc, enter.as_str(), leave.as_str(), others)
}

// The same by two words and the others.
fn overlap_by<'a>(
    alloc: Global,
    enter: &str,
    leave: &str,
    others: &'a [String],
) -> Result<Option<Aimed<'a>>, NoMemory>
    ensures { IfOk result (FindsAim (codes "overlap" ∷ enter.now ∷ leave.now ∷ map string_bytes others.now)) }
{
    let found = value_of(alloc, enter)?;
    match found {
        Some(value) => overlap_from(alloc, value, leave, others),
        None => Ok(None),
    }
}

// The same by the value of the first word.
fn overlap_from<'a>(
    alloc: Global,
    enter: Value,
    leave: &str,
    others: &'a [String],
) -> Result<Option<Aimed<'a>>, NoMemory>
    ensures { (a : List ℕ) → IsTextOf a (val_of enter) → IfOk result (FindsAim (codes "overlap" ∷ a ∷ leave.now ∷ map string_bytes others.now)) }
{
    let found = value_of(alloc, leave)?;
    match found {
        Some(value) => Ok(Some(Aimed {
            aim: Aim::Shown(What::Overlap {
                enter,
                leave: value,
            }),
            others,
        })),
        None => Ok(None),
    }
}

// The value whose text a word is, or `None` where it is none.
fn value_of(alloc: Global, word: &str) -> Result<Option<Value>, NoMemory>
    ensures { IfOk result (FindsValue word.now) }
{
    match read_value(alloc, word.as_bytes()) {
        Ok(value) => Ok(Some(value)),
        Err(ValueFault::Unread) => Ok(None),
        Err(ValueFault::Memory) => Err(NoMemory),
    }
}
