//! What a process knows as the store over which the code of its class runs.
ghost use Rattle.da_core.specs.Known.{Knows};
ghost use Rattle.da_lang.specs.Turns.{sending, sent_to};
ghost use Rattle.da_lang.specs.declared.event.Action.TheVariants as action;
ghost use Rattle.da_values.specs.Value.{val_of};
ghost use Rattle.da_values.specs.Views.{proc_of};
ghost use Rattle.std.specs.Prelude.{◌≡◌};

use crate::answers;
use crate::known::Known;
use da_lang::Action;
use da_machine::Store;
use da_values::{NoMemory, Row, SetVal, Value, copy_value};

impl Store for Known<'_> {
    ghost stands = { Knows };

    ghost actions = { λ known. known.actions };

    fn slot(&self, s: u16) -> Result<Value, NoMemory> {
        self.answers.slot(s, &self.pool)
    }

    fn clock(&self) -> u64 {
        self.clock
    }

    fn me(&self) -> u16 {
        self.answers.me
    }

    fn ask(&self, q: u32) -> Result<Value, NoMemory> {
        answers::ask(self, q)
    }

    fn found(&self, q: u32) -> Result<Option<Row>, NoMemory> {
        answers::found(self, q)
    }

    fn set_slot(&mut self, s: u16, v: Value) -> Result<(), NoMemory> {
        self.give(s, &v)?;
        Ok(())
    }

    fn add(&mut self, s: u16, v: Value) -> Result<(), NoMemory> {
        self.add_to(s, &v)?;
        Ok(())
    }

    fn del(&mut self, s: u16, v: &Value) -> Result<(), NoMemory> {
        self.take_from(s, v)?;
        Ok(())
    }

    fn send(&mut self, m: &Value, to: &SetVal) -> Result<(), NoMemory> {
        let processes = to.as_slice();
        'processes: for process in processes {
            self.send_one(m, number_of(process))?;
        }
        Ok(())
    }

    fn send_to(&mut self, m: Value, to: u16) -> Result<(), NoMemory> {
        self.send_value(m, to)?;
        Ok(())
    }

    fn output(&mut self, v: &Value) -> Result<(), NoMemory> {
        let v = copy_value(self.alloc, v)?;
        self.actions.push(Action::Out {
            p: self.answers.me,
            v,
        })
    }
}

// The number of a process, or 0 of what is none.
#[tactic(auto, using(crate::proofs::SlotLaws::viewing))]
fn number_of(v: &Value) -> u16
    ensures { result ≡ proc_of (val_of v.now) }
{
    match v {
        Value::Proc(process) => *process,
        _ => 0,
    }
}
