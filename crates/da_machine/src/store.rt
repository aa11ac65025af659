//! What the machine runs over.
ghost use Rattle.da_lang.specs.Turns.{sending, sent_to, with_element, without_element};
ghost use Rattle.da_lang.specs.Queries.{least_row, query_value};
ghost use Rattle.da_lang.specs.World.{Data, put_slot, slot_of};
ghost use Rattle.da_lang.specs.declared.event.Action.{Action};
ghost use Rattle.da_lang.specs.declared.event.Action.TheVariants as action;
ghost use Rattle.da_lang.specs.declared.program.Class.{Class};
ghost use Rattle.da_lang.specs.declared.program.Program.{Program};
ghost use Rattle.da_machine.specs.Conditions.{EachProcess, HasQuery, HasSlot, HasSome, IsPrintable, IsSendable, SomeProcess, Takes, TakesElement};
ghost use Rattle.da_machine.specs.RunsTo.{AddsPrefix};
ghost use Rattle.da_values.specs.Value.{val_of};
ghost use Rattle.da_values.specs.Views.{proc_of};
ghost use Rattle.std.specs.Prelude.{◌≡◌, [], ◌∷◌, ◌++◌, IfOk, List, map, OnErr, OnOk};

use da_values::{NoMemory, Row, SetVal, Value};

/// What a process knows. A store stands for each process of a class of a program that knows what the store holds. Each
/// call asks that some process for which the store stands may make it, and does what it says for all of them. After a
/// call that changes it was refused memory, a store stands for nothing that is known.
pub trait Store {
    ghost stands: { Self → Program → Class → Data → Type 0 };

    ghost actions: { Self → List Action };

    /// A copy of the value of a slot.
    fn slot(&self, s: u16) -> Result<Value, NoMemory>
        requires { SomeProcess (stands self.now) (λ p class d. HasSlot class s) }
        ensures { IfOk result (λ v. EachProcess (stands self.now) (λ p class d. val_of v ≡ slot_of d s)) };

    /// The clock. It takes no memory.
    fn clock(&self) -> u64
        requires { SomeProcess (stands self.now) (λ p class d. Unit {0}) }
        ensures { EachProcess (stands self.now) (λ p class d. result ≡ d.clock) };

    /// The number of the process. It takes no memory.
    fn me(&self) -> u16
        requires { SomeProcess (stands self.now) (λ p class d. Unit {0}) }
        ensures { EachProcess (stands self.now) (λ p class d. result ≡ d.me) };

    /// The value of a query. Only that of a `sum` or a `count` may lie outside an i64.
    fn ask(&self, q: u32) -> Result<Value, NoMemory>
        requires { SomeProcess (stands self.now) (λ p class d. HasQuery class q) }
        ensures { IfOk result (λ v. EachProcess (stands self.now) (λ p class d. val_of v ≡ query_value class.queries q d)) };

    /// The least row of a `some`, or `None` exactly where it has none.
    fn found(&self, q: u32) -> Result<Option<Row>, NoMemory>
        requires { SomeProcess (stands self.now) (λ p class d. HasSome class q) }
        ensures { IfOk result (λ row. EachProcess (stands self.now) (λ p class d. row ≡ least_row class.queries q d)) };

    /// Assigns to a slot.
    fn set_slot(&mut self, s: u16, v: Value) -> Result<(), NoMemory>
        requires { SomeProcess (stands self.old) (λ p class d. Takes p class s (val_of v)) }
        ensures stands { OnOk result (EachProcess (stands self.old) (λ p class d. stands self.new p class (put_slot d s (val_of v)))) }
        ensures actions { actions self.new ≡ actions self.old };

    /// Adds an element to the set in a slot.
    fn add(&mut self, s: u16, v: Value) -> Result<(), NoMemory>
        requires { SomeProcess (stands self.old) (λ p class d. TakesElement p class s (val_of v)) }
        ensures stands { OnOk result (EachProcess (stands self.old) (λ p class d. stands self.new p class (with_element s (val_of v) d))) }
        ensures actions { actions self.new ≡ actions self.old };

    /// Deletes an element from the set in a slot.
    fn del(&mut self, s: u16, v: &Value) -> Result<(), NoMemory>
        requires { SomeProcess (stands self.old) (λ p class d. TakesElement p class s (val_of v.now)) }
        ensures stands { OnOk result (EachProcess (stands self.old) (λ p class d. stands self.new p class (without_element s (val_of v.now) d))) }
        ensures actions { actions self.new ≡ actions self.old };

    /// Sends a message to each of these processes, ascending. Where memory is refused, a prefix of the messages was sent.
    fn send(&mut self, m: &Value, to: &SetVal) -> Result<(), NoMemory>
        requires { SomeProcess (stands self.old) (λ p class d. IsSendable p (val_of m.now) (map proc_of to.now)) }
        ensures stands { OnOk result (EachProcess (stands self.old) (λ p class d. stands self.new p class (sent_to (val_of m.now) (map proc_of to.now) d))) }
        ensures actions { OnOk result (EachProcess (stands self.old) (λ p class d. actions self.new ≡ actions self.old ++ sending d.me (val_of m.now) (map proc_of to.now) d.clock)) }
        ensures prefix { OnErr result (EachProcess (stands self.old) (λ p class d. AddsPrefix (actions self.old) (actions self.new) (sending d.me (val_of m.now) (map proc_of to.now) d.clock))) };

    /// Sends a message to this process alone. Where memory is refused, a prefix of the one message was sent.
    fn send_to(&mut self, m: Value, to: u16) -> Result<(), NoMemory>
        requires { SomeProcess (stands self.old) (λ p class d. IsSendable p (val_of m) (to ∷ [])) }
        ensures stands { OnOk result (EachProcess (stands self.old) (λ p class d. stands self.new p class (sent_to (val_of m) (to ∷ []) d))) }
        ensures actions { OnOk result (EachProcess (stands self.old) (λ p class d. actions self.new ≡ actions self.old ++ sending d.me (val_of m) (to ∷ []) d.clock)) }
        ensures prefix { OnErr result (EachProcess (stands self.old) (λ p class d. AddsPrefix (actions self.old) (actions self.new) (sending d.me (val_of m) (to ∷ []) d.clock))) };

    /// Prints a value.
    fn output(&mut self, v: &Value) -> Result<(), NoMemory>
        requires { SomeProcess (stands self.old) (λ p class d. IsPrintable p (val_of v.now)) }
        ensures stands { OnOk result (EachProcess (stands self.old) (λ p class d. stands self.new p class d)) }
        ensures actions { OnOk result (EachProcess (stands self.old) (λ p class d. actions self.new ≡ actions self.old ++ action.Out d.me v.now ∷ [])) }
        ensures same { OnErr result (actions self.new ≡ actions self.old) };
}
