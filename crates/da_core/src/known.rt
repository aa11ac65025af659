//! What a process knows, as code keeps it: its clock, and the answers to its queries and conditions, which hold its slots, with
//! the pool of their values. Of the messages that it sent and received nothing else is kept.
ghost use Rattle.da_core.specs.Arrivals.{untold};
ghost use Rattle.da_core.specs.Known.{Becomes, Knows, KnowsSome};
ghost use Rattle.da_lang.specs.Steps.{received_at};
ghost use Rattle.da_lang.specs.Turns.{bind_all, later, sent_at, with_element, without_element};
ghost use Rattle.da_lang.specs.World.{put_slot};
ghost use Rattle.da_lang.specs.declared.event.Action.TheVariants as action;
ghost use Rattle.da_machine.specs.Conditions.{SomeProcess, TakesElement};
ghost use Rattle.da_machine.specs.RunsTo.{AddsPrefix};
ghost use Rattle.da_values.specs.Value.{val_of};
ghost use Rattle.std.specs.Prelude.{◌≡◌, [], ◌∷◌, ◌++◌, OnErr, OnOk};

use crate::counted::{assign, insert, remove};
use da_lang::{Action, Source};
use da_values::{List, NoMemory, Row, Value, copy_value};
use delta_rules::Answers;
use query_plan::{Plan, Stored};
use row_pool::Pool;
use std::alloc::Global;

/// The greatest time of a clock.
const LAST_TIME: u64 = 9_223_372_036_854_775_807;

/// What a process knows, the plan by which it answers the queries of its class, what is stored of that plan, and the actions of
/// the event that it carries out. Contracts see the processes for which it stands, by `Knows`. Each message and each change of a
/// slot goes through the answers, and the values of slots and rows stand in the pool.
#[derive(Drop)]
pub struct Known<'c> {
    pub alloc: Global,
    pub plan: &'c Plan,
    pub stored: &'c Stored,
    pub clock: u64,
    pub answers: Answers,
    pub pool: Pool,
    pub actions: List<Action>,
}

impl Known<'_> {
    /// Takes in a message: the clock rises above its own time and the carried one, the message joins the history, and its arrival
    /// is told, with process 0, which is no process, in the place of the message.
    #[tactic(auto, using(crate::proofs::Prefixes::no_prefix))]
    pub fn receive(&mut self, m: &Value, from: u16, time: u64) -> Result<(), NoMemory>
        requires { KnowsSome self.old }
        ensures known { OnOk result (Becomes self.old self.new (received_at (val_of m.now) from time)) }
        ensures actions { OnOk result (self.new.actions ≡ self.old.actions ++ action.Got self.old.answers.me from time untold ∷ []) }
        ensures prefix { OnErr result (AddsPrefix self.old.actions self.new.actions (action.Got self.old.answers.me from time untold ∷ [])) }
    {
        let me = self.answers.me;
        insert(
            self.alloc,
            &self.stored.plan,
            Source::Received,
            m,
            from,
            &mut self.answers,
            &mut self.pool,
        )?;
        self.actions.push(Action::Got {
            q: me,
            p: from,
            t: time,
            v: Value::Proc(0),
        })?;
        self.clock = later_time(self.clock.max(time));
        Ok(())
    }

    /// Sends a copy of a message to one process.
    #[tactic(auto, using(crate::proofs::Prefixes::no_prefix))]
    pub fn send_one(&mut self, m: &Value, to: u16) -> Result<(), NoMemory>
        requires { KnowsSome self.old }
        ensures known { OnOk result (Becomes self.old self.new (λ d. sent_at (val_of m.now) to (later d.clock) d)) }
        ensures actions { OnOk result (self.new.actions
            ≡ self.old.actions ++ action.Sent self.old.answers.me to (later self.old.clock) m.now ∷ []) }
        ensures prefix { OnErr result (AddsPrefix self.old.actions self.new.actions
            (action.Sent self.old.answers.me to (later self.old.clock) m.now ∷ [])) }
    {
        let message = copy_value(self.alloc, m)?;
        self.send_value(message, to)?;
        Ok(())
    }

    /// Sends a message to one process.
    #[tactic(auto, using(crate::proofs::Prefixes::no_prefix))]
    pub fn send_value(&mut self, m: Value, to: u16) -> Result<(), NoMemory>
        requires { KnowsSome self.old }
        ensures known { OnOk result (Becomes self.old self.new (λ d. sent_at (val_of m) to (later d.clock) d)) }
        ensures actions { OnOk result (self.new.actions
            ≡ self.old.actions ++ action.Sent self.old.answers.me to (later self.old.clock) m ∷ []) }
        ensures prefix { OnErr result (AddsPrefix self.old.actions self.new.actions
            (action.Sent self.old.answers.me to (later self.old.clock) m ∷ [])) }
    {
        let me = self.answers.me;
        let time = later_time(self.clock);
        insert(
            self.alloc,
            &self.stored.plan,
            Source::Sent,
            &m,
            to,
            &mut self.answers,
            &mut self.pool,
        )?;
        self.actions.push(Action::Sent {
            p: me,
            q: to,
            t: time,
            v: m,
        })?;
        self.clock = time;
        Ok(())
    }

    /// Gives a slot a value.
    pub fn give(&mut self, s: u16, v: &Value) -> Result<(), NoMemory>
        requires { KnowsSome self.old }
        ensures known { OnOk result (Becomes self.old self.new (λ d. put_slot d s (val_of v.now))) }
        ensures actions { self.new.actions ≡ self.old.actions }
    {
        assign(
            self.alloc,
            &self.stored.plan,
            s,
            v,
            &mut self.answers,
            &mut self.pool,
        )?;
        Ok(())
    }

    /// Adds an element to the set in a slot.
    pub fn add_to(&mut self, s: u16, v: &Value) -> Result<(), NoMemory>
        requires { SomeProcess (Knows self.old) (λ p class d. TakesElement p class s (val_of v.now)) }
        ensures known { OnOk result (Becomes self.old self.new (with_element s (val_of v.now))) }
        ensures actions { self.new.actions ≡ self.old.actions }
    {
        insert(
            self.alloc,
            &self.stored.plan,
            Source::Slot(s),
            v,
            0,
            &mut self.answers,
            &mut self.pool,
        )?;
        Ok(())
    }

    /// Takes an element out of the set in a slot.
    pub fn take_from(&mut self, s: u16, v: &Value) -> Result<(), NoMemory>
        requires { SomeProcess (Knows self.old) (λ p class d. TakesElement p class s (val_of v.now)) }
        ensures known { OnOk result (Becomes self.old self.new (without_element s (val_of v.now))) }
        ensures actions { self.new.actions ≡ self.old.actions }
    {
        remove(
            self.alloc,
            &self.stored.plan,
            s,
            v,
            &mut self.answers,
            &mut self.pool,
        )?;
        Ok(())
    }
}

// The next time of a clock, which stays at its greatest one.
#[tactic(auto, unfolding(da_lang::specs::Turns::last_time))]
fn later_time(time: u64) -> u64
    ensures { result ≡ later time }
{
    if time < LAST_TIME {
        time + 1
    } else {
        LAST_TIME
    }
}

/// Gives slots the parts of a row, one by one, as many as there are of both.
pub fn bind(slots: &[u16], row: &Row, known: &mut Known<'_>) -> Result<(), NoMemory>
    requires { KnowsSome known.old }
    ensures bound { OnOk result (Becomes known.old known.new (bind_all slots.now row.now)) }
    ensures actions { known.new.actions ≡ known.old.actions }
{
    let parts = row.as_slice();
    for (slot, part) in slots.iter().zip(parts) {
        known.give(*slot, part)?;
    }
    Ok(())
}
