//! The arrival of a message: the history first, then the handlers in text order.
ghost use Rattle.da_core.specs.Arrivals.{CanHandle, HasEntry, HasHandled, HasTakenIn, HasTried, MayTakeIn, Whoever, all_handled, delivery_actions, handled_as, received, row_for as row_def, stop_of, tried, untold};
ghost use Rattle.da_core.specs.Known.{Each};
ghost use Rattle.da_lang.specs.Matching.{matched_entry};
ghost use Rattle.da_lang.specs.Runs.{Ran, max_turns};
ghost use Rattle.da_lang.specs.World.{Data, Task};
ghost use Rattle.da_lang.specs.declared.code.Instr.TheVariants as op;
ghost use Rattle.da_lang.specs.declared.program.Program.{Program};
ghost use Rattle.da_machine.specs.CodeFor.{Has};
ghost use Rattle.da_machine.specs.declared.machine.Stop.TheVariants as stop;
ghost use Rattle.da_machine.specs.RunsTo.{AddsPrefix};
ghost use Rattle.da_values.specs.Value.{val_of};
ghost use Rattle.std.specs.Prelude.{◌≡◌, ◌≤◌, [], ℕ, IfOk, List, OnErr, Some};

use crate::compiled::ClassCode;
use crate::known::{Known, bind};
use crate::moves::stand;
use crate::opened::is_open;
use crate::place::Place;
use da_lang::{Class, FaultKind, Handler, Instr};
use da_machine::{Code, Machine, Stop, run_code};
use da_pattern::match_pattern;
use da_values::{NoMemory, Row, Value};
use std::alloc::Global;

/// The turns that one event may take.
const MOST_TURNS: u32 = 1_000_000;

/// A message that arrives at a process, with its sender; the class of the process, with its code; and the label at which it
/// waits, if there is one.
#[derive(Drop)]
pub struct Delivery<'x> {
    pub class: &'x Class,
    pub code: &'x ClassCode,
    pub message: &'x Value,
    pub from: u16,
    pub label: Option<u32>,
}

/// How handlers stop: they come through, with so many turns of the event, or one of them ends by a fault.
#[derive(Clone, Copy)]
pub enum Handled {
    Through(u32),
    Fault { kind: FaultKind, line: u32 },
}

/// Takes in a message that was sent at this time, for a process that waits at the yield point at this place, and tells where
/// the process stands then. Its arrival is told with process 0, which is no process, in the place of the message.
pub fn take_in(
    delivery: &Delivery<'_>,
    time: u64,
    at: u64,
    known: &mut Known<'_>,
) -> Result<Place, NoMemory>
    requires { (p : Program) × (d : Data) × (todo : List Task) × MayTakeIn p delivery.now time at known.old d todo }
    ensures taken { IfOk result (λ place. (p : Program) (d : Data) (todo : List Task)
        → MayTakeIn p delivery.now time at known.old d todo
        → HasTakenIn untold p delivery.now time d todo known.old known.new place) }
    ensures part { OnErr result ((p : Program) (d : Data) (todo : List Task)
        → MayTakeIn p delivery.now time at known.old d todo
        → let ran = all_handled delivery.now (received delivery.now time d) in
        AddsPrefix known.old.actions known.new.actions (delivery_actions untold delivery.now time known.old.answers.me ran)) }
{
    known.receive(delivery.message, delivery.from, time)?;
    let answer = handle_all(delivery, known)?;
    let stop = stop_behind(answer, &delivery.code.code, at);
    match stand(delivery.code, stop, known) {
        Ok(place) => Ok(place),
        Err(e) => Err(e),
    }
}

// How the process stops after the handlers that waits at the yield point at a place.
fn stop_behind(answer: Handled, code: &Code, at: u64) -> Stop
    requires { (number : ℕ) × Has code.now at (op.Yield number) }
    ensures { (number : ℕ) → Has code.now at (op.Yield number) → result ≡ stop_of answer number }
{
    match answer {
        Handled::Through(_) => waiting_at(code, at),
        Handled::Fault { kind, line } => Stop::Fault { kind, line },
    }
}

// The stop at the yield point at a place.
fn waiting_at(code: &Code, at: u64) -> Stop
    requires { (number : ℕ) × Has code.now at (op.Yield number) }
    ensures { (number : ℕ) → Has code.now at (op.Yield number) → result ≡ stop.Yield number }
{
    match code.instrs.get(at as usize) {
        Some(Instr::Yield(number)) => Stop::Yield(*number),
        _ => unreachable!(),
    }
}

// Tries the handlers of the class that are open one after the other, in text order. A closed one takes no turn.
fn handle_all(delivery: &Delivery<'_>, known: &mut Known<'_>) -> Result<Handled, NoMemory>
    requires { CanHandle delivery.now known.old }
    ensures runs { IfOk result (λ answer. Whoever delivery.now known.old (λ p d.
        HasHandled p delivery.now (all_handled delivery.now d) known.old known.new answer)) }
    ensures part { OnErr result (Whoever delivery.now known.old (λ p d.
        AddsPrefix known.old.actions known.new.actions (all_handled delivery.now d).actions)) }
{
    let mut turns = 0;
    let handlers = delivery.class.handlers.as_slice();
    let entries = delivery.code.code.handlers.as_slice();
    'handlers: for (handler, entry) in handlers.iter().zip(entries) {
        if !is_open(handler, delivery.label) {
            continue;
        }
        if turns >= MOST_TURNS {
            return Ok(Handled::Fault {
                kind: FaultKind::TooLong,
                line: handler.line,
            });
        }
        let answer = try_handler(delivery, handler, *entry, turns + 1, known)?;
        match answer {
            Handled::Through(further) => turns = further,
            Handled::Fault { kind, line } => return Ok(Handled::Fault { kind, line }),
        }
    }
    Ok(Handled::Through(turns))
}

// Tries a handler whose code begins at this entry, by which so many turns are taken: where its patterns match, it is run.
fn try_handler(
    delivery: &Delivery<'_>,
    handler: &Handler,
    entry: u64,
    turns: u32,
    known: &mut Known<'_>,
) -> Result<Handled, NoMemory>
    requires can { CanHandle delivery.now known.old }
    requires there { HasEntry delivery.now handler.now entry }
    requires early { turns ≤ max_turns }
    ensures tried { IfOk result (λ answer. Whoever delivery.now known.old (λ p d.
        HasTried p delivery.now handler.now turns d known.old known.new answer)) }
    ensures part { OnErr result (Whoever delivery.now known.old (λ p d. (go : ℕ → Data → Ran)
        → AddsPrefix known.old.actions known.new.actions (tried delivery.now handler.now turns d go).actions)) }
{
    let row = row_for(handler, delivery.message, delivery.from, known)?;
    match row {
        None => Ok(Handled::Through(turns)),
        Some(row) => run_handler(delivery, handler, entry, &row, turns, known),
    }
}

// Binds the variables of a handler to the parts of the row that its patterns took, and runs its body.
fn run_handler(
    delivery: &Delivery<'_>,
    handler: &Handler,
    entry: u64,
    row: &Row,
    turns: u32,
    known: &mut Known<'_>,
) -> Result<Handled, NoMemory>
    requires can { CanHandle delivery.now known.old }
    requires there { HasEntry delivery.now handler.now entry }
    requires matches { Each known.old (λ p class d. row_def delivery.now handler.now d ≡ Some row.now) }
    requires early { turns ≤ max_turns }
    ensures tried { IfOk result (λ answer. Whoever delivery.now known.old (λ p d.
        HasTried p delivery.now handler.now turns d known.old known.new answer)) }
    ensures part { OnErr result (Whoever delivery.now known.old (λ p d. (go : ℕ → Data → Ran)
        → AddsPrefix known.old.actions known.new.actions (tried delivery.now handler.now turns d go).actions)) }
{
    bind(handler.binds.as_slice(), row, known)?;
    let mut machine = Machine::new(known.alloc, entry);
    machine.turns = turns;
    let stop = run_code(known.alloc, &delivery.code.code, &mut machine, known)?;
    Ok(handled_by(stop, machine.turns))
}

// How a handler leaves the next ones whose body stopped so, when so many turns were taken.
fn handled_by(stop: Stop, turns: u32) -> Handled
    ensures { result ≡ handled_as stop turns }
{
    match stop {
        Stop::Yield(_) => Handled::Through(turns),
        Stop::Ended => Handled::Through(turns),
        Stop::Fault { kind, line } => Handled::Fault { kind, line },
    }
}

// The row that the patterns of a handler take of a message and its sender, or `None` where they do not match.
fn row_for(
    handler: &Handler,
    m: &Value,
    from: u16,
    known: &Known<'_>,
) -> Result<Option<Row>, NoMemory>
    ensures { IfOk result (λ row. Each known.now (λ p class d. row
        ≡ matched_entry d handler.now.message handler.now.from (val_of m.now) from [])) }
{
    matched_row(
        known.alloc,
        handler,
        m,
        from,
        known.answers.slot_values(),
        known.answers.me,
    )
}

// The same with the slots and the number of the process.
fn matched_row(
    alloc: Global,
    handler: &Handler,
    m: &Value,
    from: u16,
    slots: &Row,
    me: u16,
) -> Result<Option<Row>, NoMemory>
    ensures { IfOk result (λ row. (d : Data) → d.me ≡ me → d.slots ≡ slots.now → row
        ≡ matched_entry d handler.now.message handler.now.from (val_of m.now) from []) }
{
    let none = Row::new(alloc);
    let first = match_pattern(alloc, &handler.message, m, &none, slots, me)?;
    let Some(row) = first else {
        return Ok(None);
    };
    let sender = Value::Proc(from);
    match_pattern(alloc, &handler.from, &sender, &row, slots, me)
}
