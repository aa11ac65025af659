//! Children in memory, which end by a list. Their spawner tells everything, and fails at the calls that it is told to.
ghost use Rattle.da_outside.specs.ScriptSpawner.{ending_of};
ghost use Rattle.std.specs.Prelude.{◌≡◌, [], ◌∷◌, ◌++◌, IfOk, OnErr, OnOk, map};
ghost use Rattle.std.specs.String.{string_bytes};

use crate::outside::Trouble;
use crate::script::Script;
use crate::spawner::{Child, Ended, SpawnEntry, Spawner};
use da_values::{Buf, List, NoMemory, copy_bytes};
use std::alloc::Global;

/// A spawner in memory. The children that it starts are numbered from 1. They end as its list says in this order, and those
/// after it end with status 0 and write nothing; no child has to be started to be finished. The calls of the script fail,
/// where all calls are counted together, from 1. No other call fails.
#[derive(Drop)]
pub struct ScriptSpawner {
    alloc: Global,
    endings: List<Ended>,
    started: u32,
    told: List<SpawnEntry>,
    script: Script,
}

impl ScriptSpawner {
    ghost use Rattle.da_outside.specs.ScriptSpawner.{endings_of, spawned_of, spawns_of, started_of};

    /// A spawner that has started nothing, and whose children write nothing.
    pub fn new(alloc: Global, script: List<u64>) -> ScriptSpawner
        ensures endings { endings_of result ≡ [] }
        ensures started { started_of result ≡ 0 }
        ensures entries { spawned_of result ≡ [] }
        ensures script { spawns_of result ≡ record { named = script; calls = 0; faults = 0 } }
    {
        ScriptSpawner {
            alloc,
            endings: List::new(alloc),
            started: 0,
            told: List::new(alloc),
            script: Script::new(script),
        }
    }

    /// Adds how the next child of the list ends.
    pub fn add(&mut self, ended: Ended) -> Result<(), NoMemory>
        ensures ok { OnOk result (endings_of self.new ≡ endings_of self.old ++ ended ∷ []) }
        ensures err { OnErr result (endings_of self.new ≡ endings_of self.old) }
        ensures started { started_of self.new ≡ started_of self.old }
        ensures entries { spawned_of self.new ≡ spawned_of self.old }
        ensures script { spawns_of self.new ≡ spawns_of self.old }
    {
        self.endings.push(ended)
    }

    /// The calls so far, with their answers.
    pub fn entries(&self) -> &[SpawnEntry]
        ensures { result.now ≡ spawned_of self.now }
    {
        self.told.as_slice()
    }
}

impl Spawner for ScriptSpawner {
    ghost use Rattle.da_outside.specs.Outside.{HasCause};
    ghost use Rattle.da_outside.specs.Script.{is_named, one_more, script_after};
    ghost use Rattle.da_outside.specs.ScriptSpawner.{endings_of, spawned_of, spawns_of, started_of};
    ghost use Rattle.da_outside.specs.Spawner.{HasFinished, Tells};
    ghost use Rattle.std.specs.Prelude.{◌+◌, ◌-◌, ◌^◌, min, IsErr, IsErrOf, MatchBool, None, Some};

    ghost told = { λ spawner. Some spawner.told };

    ghost faults = { λ spawner. spawner.script.faults };

    fn start(&mut self, words: &[String]) -> Result<Child, Trouble>
        ensures adds { IfOk result (λ child. Tells (Some (spawned_of self.old)) (Some (spawned_of self.new)) (SpawnEntry.Start (map string_bytes words.now) (Some child.number) ∷ [])) }
        ensures failed { IsErrOf result Trouble.Failed → Tells (Some (spawned_of self.old)) (Some (spawned_of self.new)) (SpawnEntry.Start (map string_bytes words.now) None ∷ []) }
        ensures same { IsErrOf result Trouble.Memory → Some (spawned_of self.new) ≡ Some (spawned_of self.old) }
        ensures cause { HasCause (spawns_of self.old).faults (spawns_of self.new).faults (IsErrOf result Trouble.Failed) }
        ensures fails { MatchBool (is_named (spawns_of self.old)) (IsErr result) (IsErrOf result Trouble.Failed → ⊥) }
        ensures script { spawns_of self.new ≡ script_after (spawns_of self.old) result }
        ensures number { IfOk result (λ child. child.number ≡ min (started_of self.old + 1) (2 ^ 32 - 1)) }
        ensures started { IfOk result (λ child. started_of self.new ≡ child.number) }
        ensures unstarted { OnErr result (started_of self.new ≡ started_of self.old) }
        ensures endings { endings_of self.new ≡ endings_of self.old }
    {
        let fails = self.script.call();
        let words = copy_words(self.alloc, words)?;
        if fails {
            self.told.push(SpawnEntry::Start { words, child: None })?;
            return Err(self.script.fail());
        }
        let number = self.started.saturating_add(1);
        self.told.push(SpawnEntry::Start {
            words,
            child: Some(number),
        })?;
        self.started = number;
        Ok(Child { number })
    }

    fn finish(&mut self, child: Child, out: &mut Buf) -> Result<u8, Trouble>
        ensures adds { IfOk result (λ status. HasFinished child.number status out.old out.new (Some (spawned_of self.old)) (Some (spawned_of self.new))) }
        ensures failed { IsErrOf result Trouble.Failed → Tells (Some (spawned_of self.old)) (Some (spawned_of self.new)) (SpawnEntry.Finish child.number None ∷ []) }
        ensures same { IsErrOf result Trouble.Memory → Some (spawned_of self.new) ≡ Some (spawned_of self.old) }
        ensures out { OnErr result (out.new ≡ out.old) }
        ensures cause { HasCause (spawns_of self.old).faults (spawns_of self.new).faults (IsErrOf result Trouble.Failed) }
        ensures fails { MatchBool (is_named (spawns_of self.old)) (IsErr result) (IsErrOf result Trouble.Failed → ⊥) }
        ensures script { spawns_of self.new ≡ script_after (spawns_of self.old) result }
        ensures status { IfOk result (λ status. status ≡ (ending_of (endings_of self.old) child.number).status) }
        ensures output { OnOk result (out.new ≡ out.old ++ (ending_of (endings_of self.old) child.number).output) }
        ensures started { started_of self.new ≡ started_of self.old }
        ensures endings { endings_of self.new ≡ endings_of self.old }
    {
        let number = child.number;
        if self.script.call() {
            self.told.push(SpawnEntry::Finish {
                child: number,
                ended: None,
            })?;
            return Err(self.script.fail());
        }
        let ended = copy_ending(self.alloc, self.endings.as_slice(), number)?;
        let (status, before) = (ended.status, out.len());
        out.append(ended.output.as_slice())?;
        let entry = SpawnEntry::Finish {
            child: number,
            ended: Some(ended),
        };
        if self.told.push(entry).is_err() {
            out.truncate(before);
            return Err(Trouble::Memory);
        }
        Ok(status)
    }
}

// How the child of a number ends.
fn copy_ending(alloc: Global, endings: &[Ended], number: u32) -> Result<Ended, NoMemory>
    ensures { IfOk result (λ ended. ended ≡ ending_of endings.now number) }
{
    match endings.get((number as usize).saturating_sub(1)) {
        Some(ended) => Ok(Ended {
            status: ended.status,
            output: copy_bytes(alloc, ended.output.as_slice())?,
        }),
        None => Ok(Ended {
            status: 0,
            output: List::new(alloc),
        }),
    }
}

// The bytes of words.
fn copy_words(alloc: Global, words: &[String]) -> Result<List<Buf>, NoMemory>
    ensures { IfOk result (λ list. list ≡ map string_bytes words.now) }
{
    let mut list = List::new(alloc);
    for word in words {
        list.push(copy_bytes(alloc, word.as_bytes())?)?;
    }
    Ok(list)
}
