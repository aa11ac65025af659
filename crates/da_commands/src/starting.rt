//! The children of a launch: one for each process, with the words of its node.
ghost use Rattle.da_outside.specs.Outside.{HasCause};
ghost use Rattle.da_outside.specs.Spawner.{Tells};
ghost use Rattle.da_outside.specs.declared.spawner.SpawnEntry.{SpawnEntry};
ghost use Rattle.da_commands.specs.LaunchSteps.{HasStarted, IsBroken};
ghost use Rattle.da_commands.specs.Launching.{child_words};
ghost use Rattle.std.specs.Prelude.{◌≡◌, [], ◌∷◌, None, Some, IfOk, IsErrOf, decimal, map};
ghost use Rattle.std.specs.String.{string_bytes};

use crate::words::LaunchSetting;
use da_outside::{Child, Spawner, Trouble};
use da_values::{List, NoMemory};
use itoa::Buffer;
use std::alloc::Global;

/// How far the children for the processes of a program were started.
#[derive(Drop)]
pub enum Started {
    /// All of them.
    All(List<Child>),
    /// These, and the next one failed.
    Broken(List<Child>),
    /// Memory was refused.
    Memory,
}

/// Starts a child for each of so many processes, in the order of their numbers, up to the first one that fails.
pub fn start_all<S: Spawner>(
    alloc: Global,
    program: &str,
    setting: LaunchSetting,
    count: u16,
    children: &mut S,
) -> Started
    ensures started { HasStarted (child_words program.now setting) count result (S.told children.old) (S.told children.new) }
    ensures cause { HasCause (S.faults children.old) (S.faults children.new) (IsBroken result) }
{
    let mut list = List::new(alloc);
    'processes: for place in 0..count {
        match start_one(alloc, program, setting, place + 1, children) {
            Ok(child) => {
                if list.push(child).is_err() {
                    return Started::Memory;
                }
            }
            Err(Trouble::Failed) => return Started::Broken(list),
            Err(Trouble::Memory) => return Started::Memory,
        }
    }
    Started::All(list)
}

// Starts the child for process `me`.
fn start_one<S: Spawner>(
    alloc: Global,
    program: &str,
    setting: LaunchSetting,
    me: u16,
    children: &mut S,
) -> Result<Child, Trouble>
    ensures adds { IfOk result (λ child. Tells (S.told children.old) (S.told children.new) (SpawnEntry.Start (child_words program.now setting me) (Some child.number) ∷ [])) }
    ensures failed { IsErrOf result Trouble.Failed → Tells (S.told children.old) (S.told children.new) (SpawnEntry.Start (child_words program.now setting me) None ∷ []) }
    ensures same { IsErrOf result Trouble.Memory → S.told children.new ≡ S.told children.old }
    ensures cause { HasCause (S.faults children.old) (S.faults children.new) (IsErrOf result Trouble.Failed) }
{
    let words = words_of_child(alloc, program, setting, me)?;
    children.start(words.as_slice())
}

// The words of the node that runs process `me`.
fn words_of_child(
    alloc: Global,
    program: &str,
    setting: LaunchSetting,
    me: u16,
) -> Result<List<String>, NoMemory>
    ensures { IfOk result (λ words. map string_bytes words ≡ child_words program.now setting me) }
{
    let mut words = List::new(alloc);
    words.push(word_of(alloc, "node")?)?;
    words.push(word_of(alloc, program)?)?;
    words.push(number_word(alloc, u64::from(setting.port))?)?;
    words.push(number_word(alloc, u64::from(me))?)?;
    words.push(number_word(alloc, setting.idle)?)?;
    words.push(number_word(alloc, setting.turns)?)?;
    Ok(words)
}

fn word_of(alloc: Global, word: &str) -> Result<String, NoMemory>
    ensures { IfOk result (λ copy. string_bytes copy ≡ word.now) }
{
    match String::from_str(alloc, word) {
        Ok(copy) => Ok(copy),
        Err(_) => Err(NoMemory),
    }
}

fn number_word(alloc: Global, number: u64) -> Result<String, NoMemory>
    ensures { IfOk result (λ word. string_bytes word ≡ decimal number) }
{
    word_of(alloc, Buffer::new().format(number))
}
