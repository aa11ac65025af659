//! What a process in code keeps, as one value.
ghost use Rattle.da_core.specs.Clocks.{without_clock};
ghost use Rattle.da_core.specs.LocalState.{CountIs, HasCount, LocalDecides, kept_slots, live_rows_of, number_value, place_count as count_def, place_kind as kind_def, rows_value, sets_value, state_of, state_value};
ghost use Rattle.da_core.specs.StandsFor.{IsReady, StandsFor, compiled_of};
ghost use Rattle.da_core.specs.declared.compiled.Compiled.{Compiled as CompiledOf};
ghost use Rattle.da_lang.specs.World.{World};
ghost use Rattle.da_values.specs.Value.{val_of};
ghost use Rattle.da_values.specs.declared.val.Val.TheVariants as Val;
ghost use Rattle.std.specs.Prelude.{◌≡◌, ◌∷◌, ◌++◌, [], IfOk, IsTrue, OnOk, Some, map, slice_get};

use crate::place::Place;
use crate::process::Core;
use da_values::{List, NoMemory, Row, Value};
use row_terms::copy_row;
use std::alloc::Global;

impl Core<'_> {
    /// All that the process keeps, as one value: its number and clock, where it stands, the rests of loops, its slots, and the rows of
    /// its live patterns. Processes of one program with the same value do the same from then on. `NoMemory` comes where memory is
    /// refused.
    pub fn local_state(&self) -> Result<Value, NoMemory>
        ensures { IfOk result (λ v. val_of v ≡ state_value (state_of self.now)) }
    {
        let mut parts = Row::new(self.alloc);
        self.put_place(&mut parts)?;
        self.put_run(&mut parts)?;
        self.put_answers(&mut parts)?;
        Ok(Value::Tuple(parts))
    }

    /// Sets the clock back to 0. The process stands for the same worlds with that clock. It takes no memory.
    pub fn forget_clock(&mut self)
        ensures worlds { (w : World) → StandsFor self.old w → StandsFor self.new (without_clock w) }
        ensures ready { IsReady self.old → IsReady self.new }
        ensures compiled { compiled_of self.new ≡ compiled_of self.old }
    {
        self.known.clock = 0;
    }

    // Adds its number, its clock, and where it stands.
    fn put_place(&self, parts: &mut Row) -> Result<(), NoMemory>
        ensures { OnOk result (parts.new ≡ parts.old ++ number_value self.now.known.answers.me ∷ number_value self.now.known.clock
            ∷ number_value (kind_def self.now.place) ∷ number_value (count_def self.now.place) ∷ []) }
    {
        put_number(parts, self.known.answers.me as u64)?;
        put_number(parts, self.known.clock)?;
        put_number(parts, place_kind(self.place))?;
        put_number(parts, alternatives_at(self.place) as u64)?;
        Ok(())
    }

    // Adds the place of its code, and the rests of loops.
    fn put_run(&self, parts: &mut Row) -> Result<(), NoMemory>
        ensures { OnOk result (parts.new ≡ parts.old ++ number_value self.now.machine.place ∷ rows_value self.now.machine.loops ∷ []) }
    {
        put_number(parts, self.machine.place)?;
        let rests = self.machine.rests(self.alloc)?;
        let loops = of_rows(self.alloc, &rests)?;
        parts.push(loops)?;
        Ok(())
    }

    // Adds the slots, and the rows of its live patterns.
    fn put_answers(&self, parts: &mut Row) -> Result<(), NoMemory>
        ensures { OnOk result (parts.new ≡ parts.old ++ Val.Tuple (kept_slots self.now.known.answers)
            ∷ sets_value (live_rows_of self.now.known.answers self.now.known.pool) ∷ []) }
    {
        let answers = &self.known.answers;
        let slots = of_row(self.alloc, answers.slot_values())?;
        parts.push(slots)?;
        let live = answers.live_values(self.alloc, &self.known.pool)?;
        let sets = of_sets(self.alloc, &live)?;
        parts.push(sets)?;
        Ok(())
    }
}

// Adds a number.
fn put_number(parts: &mut Row, n: u64) -> Result<(), NoMemory>
    ensures { OnOk result (parts.new ≡ parts.old ++ number_value n ∷ []) }
{
    parts.push(number(n))?;
    Ok(())
}

// A number as a value.
fn number(n: u64) -> Value
    ensures { val_of result ≡ number_value n }
{
    Value::Int(n as i128)
}

// The kind of a place.
fn place_kind(place: Place) -> u64
    ensures { result ≡ kind_def place }
{
    match place {
        Place::New => 0,
        Place::Label => 1,
        Place::Ended => 2,
        Place::Faulted => 3,
        Place::Await(_) => 4,
    }
}

/// How many alternatives a process may have to take that stands at a place.
pub fn alternatives_at(place: Place) -> u32
    ensures { result ≡ count_def place }
{
    match place {
        Place::New => 0,
        Place::Label => 0,
        Place::Ended => 0,
        Place::Faulted => 0,
        Place::Await(count) => count,
    }
}

/// Whether a process with a local state has so many alternatives where it stands. What is no local state has none.
pub fn has_alternatives(state: &Value, count: u32) -> bool
    ensures { IsTrue result → (compiled : CompiledOf) → CountIs compiled state.now count }
{
    has_count(state, count)
}

// Whether the fourth part of a tuple is this number.
fn has_count(state: &Value, count: u32) -> bool
    ensures { IsTrue result → HasCount state.now count }
{
    match state {
        Value::Tuple(parts) => is_fourth(parts, count),
        _ => false,
    }
}

// Whether the fourth part of a row is this number.
fn is_fourth(parts: &Row, count: u32) -> bool
    ensures { IsTrue result → slice_get parts.now 3 ≡ Some (number_value count) }
{
    match parts.get(3) {
        Some(part) => is_number(part, count),
        None => false,
    }
}

// Whether a value is this number.
fn is_number(value: &Value, count: u32) -> bool
    ensures { IsTrue result → val_of value.now ≡ number_value count }
{
    let wanted = number(count as u64);
    value == &wanted
}

// A tuple of the parts of a row.
fn of_row(alloc: Global, row: &Row) -> Result<Value, NoMemory>
    ensures { IfOk result (λ v. val_of v ≡ Val.Tuple row.now) }
{
    let parts = copy_row(alloc, row)?;
    Ok(Value::Tuple(parts))
}

// A tuple with a tuple for each row.
fn of_rows(alloc: Global, rows: &List<Row>) -> Result<Value, NoMemory>
    ensures { IfOk result (λ v. val_of v ≡ rows_value rows.now) }
{
    let parts = each_row(alloc, rows.as_slice())?;
    Ok(Value::Tuple(parts))
}

// A tuple for each row.
fn each_row(alloc: Global, rows: &[Row]) -> Result<Row, NoMemory>
    ensures { IfOk result (λ parts. parts ≡ map Val.Tuple rows.now) }
{
    let mut parts = Row::new(alloc);
    for row in rows {
        parts.push(of_row(alloc, row)?)?;
    }
    Ok(parts)
}

// A tuple with a tuple of rows for each set.
fn of_sets(alloc: Global, sets: &List<List<Row>>) -> Result<Value, NoMemory>
    ensures { IfOk result (λ v. val_of v ≡ sets_value sets.now) }
{
    let parts = each_set(alloc, sets.as_slice())?;
    Ok(Value::Tuple(parts))
}

// A tuple of rows for each set.
fn each_set(alloc: Global, sets: &[List<Row>]) -> Result<Row, NoMemory>
    ensures { IfOk result (λ parts. parts ≡ map rows_value sets.now) }
{
    let mut parts = Row::new(alloc);
    for set in sets {
        parts.push(of_rows(alloc, set)?)?;
    }
    Ok(parts)
}

/// Two processes with the same local state stand for the same worlds. So whatever one of them does from then on, the other does.
pub fn local_decides()
    ensures { LocalDecides }
{}
