//! What the words of a call ask for.
ghost use Rattle.da_commands.specs.JoinReplies.{IsJoin};
ghost use Rattle.da_commands.specs.LaunchReplies.{IsLaunchSetting};
ghost use Rattle.da_commands.specs.NodeReplies.{IsSetting};
ghost use Rattle.da_commands.specs.Words.{IsAsked, IsAskedPlainly, IsBetween};
ghost use Rattle.std.specs.Prelude.{◌≡◌, ℕ, [], ◌∷◌, IfNone, IfSome, List, decimal, map};
ghost use Rattle.std.specs.String.{string_bytes};

use itoa::Buffer;
use std::str;

/// What is asked of a program alone.
#[derive(Clone, Copy)]
pub enum Task {
    /// Whether it is accepted.
    Check,
    /// The plans of its classes.
    Plan,
    /// What a generated schedule comes to: the number with which it begins, and the most events.
    Stress { start: u64, most: u64 },
}

/// How a node is to run.
#[derive(Clone, Copy)]
pub struct NodeSetting {
    /// Process k has the port of this number and k, from 1,024 to 65,000.
    pub port: u16,
    /// The process that runs, from 1 to 64.
    pub me: u16,
    /// How many idle turns in a row end the node, from 1 to 1,000,000,000.
    pub idle: u64,
    /// How many answers of its link end the node, from 1 to 1,000,000,000.
    pub turns: u64,
}

/// How the nodes of a launch are to run.
#[derive(Clone, Copy)]
pub struct LaunchSetting {
    /// Process k has the port of this number and k, from 1,024 to 65,000.
    pub port: u16,
    /// How many idle turns in a row end a node, from 1 to 1,000,000,000.
    pub idle: u64,
    /// How many answers of its link end a node, from 1 to 1,000,000,000.
    pub turns: u64,
}

/// What the program is asked to do.
#[derive(Clone, Copy)]
pub enum Command<'a> {
    /// To run a schedule.
    Replay(Names<'a>),
    /// To carry out a task on the program of this name.
    Carry {
        task: Task,
        program: &'a str,
    },
    /// To write the program of this name with the declarations that it lacks.
    Infer {
        program: &'a str,
    },
    /// To run a process of the program of this name as a node.
    Node {
        setting: NodeSetting,
        program: &'a str,
    },
    /// To run each process of the program of this name as a node, in a child of its own.
    Launch {
        setting: LaunchSetting,
        program: &'a str,
    },
    /// To make one schedule for the program of this name, of the traces of those names.
    Join {
        program: &'a str,
        traces: &'a [String],
    },
    /// Nothing that it knows.
    Other,
}

/// The names of a program and of a schedule.
#[derive(Clone, Copy)]
pub struct Names<'a> {
    pub program: &'a str,
    pub schedule: &'a str,
}

/// The greatest number with which a generated schedule begins.
pub const LAST_START: u64 = 281_474_976_710_655;

/// The most events of a generated schedule.
pub const MOST_EVENTS: u64 = 1_000_000;

/// The most schedules of a hunt.
pub const MOST_SCHEDULES: u64 = 1_000_000;

/// The greatest K of `more K`.
pub const MOST_OUTPUTS: u64 = 1_000_000_000;

/// The first port that the link of a node may be asked for.
pub const FIRST_PORT: u64 = 1_024;

/// The last such port.
pub const LAST_PORT: u64 = 65_000;

/// The most processes of a program.
pub const MOST_PROCESSES: u64 = 64;

/// The most answers that a node may take, and the most idle turns in a row.
pub const MOST_ANSWERS: u64 = 1_000_000_000;

/// What these words ask for.
#[tactic(auto, using(crate::proofs::WordLemmas::asked_plainly))]
pub fn command_of(words: &[String]) -> Command<'_>
    ensures { IsAsked (map string_bytes words.now) result }
{
    match join_of(words) {
        Some(command) => command,
        None => plain_command_of(words),
    }
}

// The join that these words ask for, or `None` where they ask for none.
fn join_of(words: &[String]) -> Option<Command<'_>>
    ensures some { IfSome result (IsAsked (map string_bytes words.now)) }
    ensures none { IfNone result ((p : List ℕ) (traces : List (List ℕ)) → IsJoin (map string_bytes words.now) p traces → ⊥) }
{
    match words {
        [command, program, traces @ ..] => { join_by(command.as_str(), program.as_str(), traces) }
        _ => None,
    }
}

// The join that two words and more ask for, or `None`.
fn join_by<'a>(command: &str, program: &'a str, traces: &'a [String]) -> Option<Command<'a>>
    ensures some { IfSome result (IsAsked (command.now ∷ program.now ∷ map string_bytes traces.now)) }
    ensures none { IfNone result ((p : List ℕ) (names : List (List ℕ)) → IsJoin (command.now ∷ program.now ∷ map string_bytes traces.now) p names → ⊥) }
{
    if command == "join" {
        Some(Command::Join { program, traces })
    } else {
        None
    }
}

// What these words ask for, which ask for no join.
fn plain_command_of(words: &[String]) -> Command<'_>
    ensures { IsAskedPlainly (map string_bytes words.now) result }
{
    match words {
        [command, program] => task_of(command.as_str(), program.as_str()),
        [command, program, schedule] => {
            replay_of(command.as_str(), program.as_str(), schedule.as_str())
        }
        [command, program, start, most] => stress_of(
            command.as_str(),
            program.as_str(),
            start.as_str(),
            most.as_str(),
        ),
        [command, program, port, idle, turns] => launch_of(
            command.as_str(),
            program.as_str(),
            port.as_str(),
            idle.as_str(),
            turns.as_str(),
        ),
        [command, program, port, me, idle, turns] => node_of(
            command.as_str(),
            program.as_str(),
            port.as_str(),
            me.as_str(),
            idle.as_str(),
            turns.as_str(),
        ),
        _ => Command::Other,
    }
}

// What two words ask for.
fn task_of<'a>(command: &str, program: &'a str) -> Command<'a>
    ensures { IsAskedPlainly (command.now ∷ program.now ∷ []) result }
{
    if command == "check" {
        Command::Carry {
            task: Task::Check,
            program,
        }
    } else if command == "plan" {
        Command::Carry {
            task: Task::Plan,
            program,
        }
    } else if command == "infer" {
        Command::Infer { program }
    } else {
        Command::Other
    }
}

// What three words ask for.
fn replay_of<'a>(command: &str, program: &'a str, schedule: &'a str) -> Command<'a>
    ensures { IsAskedPlainly (command.now ∷ program.now ∷ schedule.now ∷ []) result }
{
    if command == "replay" {
        Command::Replay(Names { program, schedule })
    } else {
        Command::Other
    }
}

// What four words ask for.
fn stress_of<'a>(command: &str, program: &'a str, start: &str, most: &str) -> Command<'a>
    ensures { IsAskedPlainly (command.now ∷ program.now ∷ start.now ∷ most.now ∷ []) result }
{
    if command != "stress" {
        return Command::Other;
    }
    let Some(start) = number_between(start.as_bytes(), 0, LAST_START) else {
        return Command::Other;
    };
    let Some(most) = number_between(most.as_bytes(), 1, MOST_EVENTS) else {
        return Command::Other;
    };
    Command::Carry {
        task: Task::Stress { start, most },
        program,
    }
}

// What five words ask for.
fn launch_of<'a>(
    command: &str,
    program: &'a str,
    port: &str,
    idle: &str,
    turns: &str,
) -> Command<'a>
    ensures { IsAskedPlainly (command.now ∷ program.now ∷ port.now ∷ idle.now ∷ turns.now ∷ []) result }
{
    if command != "launch" {
        return Command::Other;
    }
    match launch_setting_of(port, idle, turns) {
        Some(setting) => Command::Launch { setting, program },
        None => Command::Other,
    }
}

// What six words ask for.
fn node_of<'a>(
    command: &str,
    program: &'a str,
    port: &str,
    me: &str,
    idle: &str,
    turns: &str,
) -> Command<'a>
    ensures { IsAskedPlainly (command.now ∷ program.now ∷ port.now ∷ me.now ∷ idle.now ∷ turns.now ∷ []) result }
{
    if command != "node" {
        return Command::Other;
    }
    match setting_of(port, me, idle, turns) {
        Some(setting) => Command::Node { setting, program },
        None => Command::Other,
    }
}

// The setting whose numbers these words spell, or `None` where there is none.
fn setting_of(port: &str, me: &str, idle: &str, turns: &str) -> Option<NodeSetting>
    ensures some { IfSome result (λ setting. IsSetting setting port.now me.now idle.now turns.now) }
    ensures none { IfNone result ((setting : NodeSetting) → IsSetting setting port.now me.now idle.now turns.now → ⊥) }
{
    let port = number_between(port.as_bytes(), FIRST_PORT, LAST_PORT)?;
    let me = number_between(me.as_bytes(), 1, MOST_PROCESSES)?;
    let idle = number_between(idle.as_bytes(), 1, MOST_ANSWERS)?;
    let turns = number_between(turns.as_bytes(), 1, MOST_ANSWERS)?;
    Some(NodeSetting {
        port: port as u16,
        me: me as u16,
        idle,
        turns,
    })
}

// The setting of a launch whose numbers these words spell, or `None` where there is none.
fn launch_setting_of(port: &str, idle: &str, turns: &str) -> Option<LaunchSetting>
    ensures some { IfSome result (λ setting. IsLaunchSetting setting port.now idle.now turns.now) }
    ensures none { IfNone result ((setting : LaunchSetting) → IsLaunchSetting setting port.now idle.now turns.now → ⊥) }
{
    let port = number_between(port.as_bytes(), FIRST_PORT, LAST_PORT)?;
    let idle = number_between(idle.as_bytes(), 1, MOST_ANSWERS)?;
    let turns = number_between(turns.as_bytes(), 1, MOST_ANSWERS)?;
    Some(LaunchSetting {
        port: port as u16,
        idle,
        turns,
    })
}

/// The number between these two whose digits these are, without leading zeros, or `None` where there is none.
pub fn number_between(digits: &[u8], least: u64, most: u64) -> Option<u64>
    ensures some { IfSome result (λ n. IsBetween least most n × (digits.now ≡ decimal n)) }
    ensures none { IfNone result ((n : ℕ) → IsBetween least most n → digits.now ≡ decimal n → ⊥) }
{
    let Ok(text) = str::from_utf8(digits) else {
        return None;
    };
    let Ok(number) = text.parse::<u64>() else {
        return None;
    };
    if number < least || number > most {
        return None;
    }
    let mut buffer = Buffer::new();
    if buffer.format(number).as_bytes() == digits {
        Some(number)
    } else {
        None
    }
}
