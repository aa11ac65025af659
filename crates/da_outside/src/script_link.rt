//! A link in memory, which answers by a list, tells everything, and fails at the calls that it is told to.
ghost use Rattle.da_outside.specs.Link.{HasRoom, answer_of, is_short, next_answer};
ghost use Rattle.std.specs.List.{list_all};
ghost use Rattle.std.specs.Prelude.{◌≡◌, ◌≤◌, [], ◌∷◌, ◌++◌, IfOk, IsTrue, OnErr, OnOk, drop, length};

use crate::link::{DATAGRAM_MAX, Link, LinkAnswer, LinkEntry, Taken};
use crate::outside::Trouble;
use crate::script::Script;
use da_values::{List, NoMemory, copy_bytes};
use std::alloc::Global;

/// A link in memory. It gives the answers of its list in their order, and `Nothing` after them. The calls of the script
/// fail, where all calls are counted together, from 1. No other call fails.
#[derive(Drop)]
pub struct ScriptLink {
    alloc: Global,
    answers: List<LinkAnswer>,
    next: usize,
    told: List<LinkEntry>,
    count: u16,
    script: Script,
    ghost within: { next ≤ length answers },
    ghost short: { IsTrue (list_all is_short answers) },
}

impl ScriptLink {
    ghost use Rattle.da_outside.specs.ScriptLink.{answers_of, calls_of, count_of, entries_of};

    /// A link that is not bound, and has no answers but `Nothing`.
    pub fn new(alloc: Global, script: List<u64>) -> ScriptLink
        ensures answers { answers_of result ≡ [] }
        ensures entries { entries_of result ≡ [] }
        ensures count { count_of result ≡ 0 }
        ensures script { calls_of result ≡ record { named = script; calls = 0; faults = 0 } }
    {
        ScriptLink {
            alloc,
            answers: List::new(alloc),
            next: 0,
            told: List::new(alloc),
            count: 0,
            script: Script::new(script),
        }
    }

    /// Adds an answer after those that are still to come.
    pub fn add(&mut self, answer: LinkAnswer) -> Result<(), NoMemory>
        requires { IsTrue (is_short answer) }
        ensures ok { OnOk result (answers_of self.new ≡ answers_of self.old ++ answer ∷ []) }
        ensures err { OnErr result (answers_of self.new ≡ answers_of self.old) }
        ensures entries { entries_of self.new ≡ entries_of self.old }
        ensures count { count_of self.new ≡ count_of self.old }
        ensures script { calls_of self.new ≡ calls_of self.old }
    {
        self.answers.push(answer)
    }

    /// What the link was given and has answered.
    pub fn entries(&self) -> &[LinkEntry]
        ensures { result.now ≡ entries_of self.now }
    {
        self.told.as_slice()
    }
}

impl Link for ScriptLink {
    ghost use Rattle.da_outside.specs.Link.{Gains};
    ghost use Rattle.da_outside.specs.Outside.{HasCause};
    ghost use Rattle.da_outside.specs.Script.{is_named, script_after};
    ghost use Rattle.da_outside.specs.ScriptLink.{answers_of, calls_of, count_of, entries_of};
    ghost use Rattle.std.specs.Prelude.{IsErrOf, MatchBool, Some};

    ghost told = { λ link. Some link.told };

    ghost count = { λ link. link.count };

    ghost faults = { λ link. link.script.faults };

    fn bind(&mut self, port: u16, me: u16, count: u16) -> Result<(), Trouble>
        ensures bound { OnOk result (count_of self.new ≡ count) }
        ensures unbound { OnErr result (count_of self.new ≡ count_of self.old) }
        ensures adds { OnOk result (Gains (Some (entries_of self.old)) (Some (entries_of self.new)) (LinkEntry.Bound port me count ∷ [])) }
        ensures same { OnErr result (Gains (Some (entries_of self.old)) (Some (entries_of self.new)) []) }
        ensures cause { HasCause (calls_of self.old).faults (calls_of self.new).faults (IsErrOf result Trouble.Failed) }
        ensures fails { MatchBool (is_named (calls_of self.old)) (IsErrOf result Trouble.Failed) (IsErrOf result Trouble.Failed → ⊥) }
        ensures script { calls_of self.new ≡ script_after (calls_of self.old) result }
        ensures answers { answers_of self.new ≡ answers_of self.old }
    {
        if self.script.call() {
            return Err(self.script.fail());
        }
        self.told.push(LinkEntry::Bound { port, me, count })?;
        self.count = count;
        Ok(())
    }

    fn take(&mut self, buf: &mut [u8]) -> Result<Taken, Trouble>
        requires { DATAGRAM_MAX ≤ length buf.old }
        ensures within { IfOk result (λ taken. HasRoom taken buf.new) }
        ensures adds { IfOk result (λ taken. Gains (Some (entries_of self.old)) (Some (entries_of self.new)) (LinkEntry.Answered (answer_of taken buf.new) ∷ [])) }
        ensures same { OnErr result (Gains (Some (entries_of self.old)) (Some (entries_of self.new)) []) }
        ensures kept { count_of self.new ≡ count_of self.old }
        ensures cause { HasCause (calls_of self.old).faults (calls_of self.new).faults (IsErrOf result Trouble.Failed) }
        ensures fails { MatchBool (is_named (calls_of self.old)) (IsErrOf result Trouble.Failed) (IsErrOf result Trouble.Failed → ⊥) }
        ensures script { calls_of self.new ≡ script_after (calls_of self.old) result }
        ensures answer { IfOk result (λ taken. answer_of taken buf.new ≡ next_answer (answers_of self.old)) }
        ensures ok { OnOk result (answers_of self.new ≡ drop 1 (answers_of self.old)) }
        ensures err { OnErr result (answers_of self.new ≡ answers_of self.old) }
    {
        if self.script.call() {
            return Err(self.script.fail());
        }
        let (taken, answer) = hand_out(self.alloc, self.answers.as_slice(), self.next, buf)?;
        self.told.push(LinkEntry::Answered(answer))?;
        if self.next < self.answers.len() {
            self.next += 1;
        }
        Ok(taken)
    }

    fn give(&mut self, to: u16, bytes: &[u8]) -> Result<(), Trouble>
        ensures adds { OnOk result (Gains (Some (entries_of self.old)) (Some (entries_of self.new)) (LinkEntry.Gave to bytes.now ∷ [])) }
        ensures same { OnErr result (Gains (Some (entries_of self.old)) (Some (entries_of self.new)) []) }
        ensures kept { count_of self.new ≡ count_of self.old }
        ensures cause { HasCause (calls_of self.old).faults (calls_of self.new).faults (IsErrOf result Trouble.Failed) }
        ensures fails { MatchBool (is_named (calls_of self.old)) (IsErrOf result Trouble.Failed) (IsErrOf result Trouble.Failed → ⊥) }
        ensures script { calls_of self.new ≡ script_after (calls_of self.old) result }
        ensures answers { answers_of self.new ≡ answers_of self.old }
    {
        if self.script.call() {
            return Err(self.script.fail());
        }
        let bytes = copy_bytes(self.alloc, bytes)?;
        self.told.push(LinkEntry::Gave { to, bytes })?;
        Ok(())
    }
}

// Puts the answer at a place into the buffer, and copies it. There is nothing after the last one.
fn hand_out(
    alloc: Global,
    answers: &[LinkAnswer],
    next: usize,
    buf: &mut [u8],
) -> Result<(Taken, LinkAnswer), NoMemory>
    requires room { DATAGRAM_MAX ≤ length buf.old }
    requires short { IsTrue (list_all is_short answers.now) }
    ensures within { IfOk result (λ given. HasRoom given.0 buf.new) }
    ensures same { IfOk result (λ given. answer_of given.0 buf.new ≡ given.1) }
    ensures next { IfOk result (λ given. given.1 ≡ next_answer (drop next answers.now)) }
{
    let Some(LinkAnswer::Datagram(bytes)) = answers.get(next) else {
        return Ok((Taken::Nothing, LinkAnswer::Nothing));
    };
    let copy = copy_bytes(alloc, bytes.as_slice())?;
    buf[..copy.len()].copy_from_slice(copy.as_slice());
    Ok((Taken::Datagram(copy.len()), LinkAnswer::Datagram(copy)))
}
