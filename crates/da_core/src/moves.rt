//! The run of a move.
ghost use Rattle.da_core.specs.Begins.{AreFew, HasPoint, HasRun, HasStopped, MayRun, MayStop, StandsAt, alternative_at as alternative_def, begin_at, begin_at_await as begin_at_await_def, behind_turn, bound_by, entry_after, label_of, move_actions, place_at as place_def, some_told, timeout_at, wait_at as wait_def};
ghost use Rattle.da_core.specs.Known.{Each, Knows, KnowsSome};
ghost use Rattle.da_lang.specs.Runs.{run_to_yield};
ghost use Rattle.da_lang.specs.World.{Data, Task};
ghost use Rattle.da_lang.specs.declared.program.Class.{Class};
ghost use Rattle.da_lang.specs.declared.program.Program.{Program};
ghost use Rattle.da_machine.specs.RunsTo.{AddsPrefix};
ghost use Rattle.query_plan.specs.Nodes.{node_rows};
ghost use Rattle.query_plan.specs.Questions.{norm_class};
ghost use Rattle.query_plan.specs.Told.{has_row};
ghost use Rattle.std.specs.Option.{option_copied};
ghost use Rattle.std.specs.Prelude.{◌≡◌, ◌&&◌, ℕ, IfOk, List, OnErr, OnOk, not};

use crate::answers::found;
use crate::compiled::ClassCode;
use crate::known::{Known, bind};
use crate::place::Place;
use crate::waits::{Alternative, Wait};
use da_lang::{Action, Instr};
use da_machine::{Code, Machine, Stop, run_code};
use da_values::NoMemory;
use std::alloc::Global;

/// Where a move goes on in the code, and how many turns of the event were taken by then.
#[derive(Clone, Copy)]
pub struct Begin {
    pub entry: u64,
    pub turns: u32,
}

/// Where the move of this number goes on, or `None` where it is not allowed, for a process that stands so.
pub fn begin_in(code: &ClassCode, at: u64, place: Place, k: u32, known: &Known<'_>) -> Option<Begin>
    ensures { Each known.now (λ p class d. result ≡ begin_at class d code.now at place k) }
{
    match place {
        Place::New => {
            if k == 0 {
                Some(Begin {
                    entry: at,
                    turns: 0,
                })
            } else {
                None
            }
        }
        Place::Label => {
            if k == 0 {
                begin_behind(&code.code, at, 0)
            } else {
                None
            }
        }
        Place::Await(_) => begin_at_await(code, at, k, known),
        Place::Ended => None,
        Place::Faulted => None,
    }
}

// The same at an `await`.
fn begin_at_await(code: &ClassCode, at: u64, k: u32, known: &Known<'_>) -> Option<Begin>
    ensures { Each known.now (λ p class d. result ≡ begin_at_await_def class d code.now at k) }
{
    let n = k.checked_sub(1)? as usize;
    let alternative = alternative_at(code, at, k)?;
    if is_flagged(known, alternative.flag) {
        begin_behind(&code.code, at, n)
    } else {
        None
    }
}

/// Where a timeout goes on at an `await` of so many alternatives, or `None` where it is not allowed: where there is no block
/// for it, or an alternative may be taken.
pub fn timeout_in(code: &ClassCode, at: u64, count: u32, known: &Known<'_>) -> Option<Begin>
    ensures { Each known.now (λ p class d. result ≡ timeout_at class d code.now at count) }
{
    let wait = wait_at(code, at)?;
    let told = some_flag(wait.alternatives.as_slice(), known);
    if is_late(wait.has_timeout, told) {
        begin_behind(&code.code, at, count as usize)
    } else {
        None
    }
}

// Whether the time may run out, by whether there is a block for that and whether some alternative may be taken.
fn is_late(has_timeout: bool, told: bool) -> bool
    ensures { result ≡ (has_timeout && not told) }
{
    has_timeout && !told
}

// Whether a node of the plan has a row.
fn is_flagged(known: &Known<'_>, flag: u32) -> bool
    ensures { Each known.now (λ p class d. result ≡ has_row (node_rows d (norm_class class).nodes flag)) }
{
    known.answers.flag(known.stored, flag)
}

// Whether some of these alternatives may be taken.
fn some_flag(alternatives: &[Alternative], known: &Known<'_>) -> bool
    ensures { Each known.now (λ p class d. result ≡ some_told class d alternatives.now) }
{
    for alternative in alternatives {
        if is_flagged(known, alternative.flag) {
            return true;
        }
    }
    false
}

// After entry `n`, counted from 0, of the yield point at a place. The yield point was the first turn.
fn begin_behind(code: &Code, at: u64, n: usize) -> Option<Begin>
    ensures { result ≡ behind_turn (entry_after code.now at n) }
{
    let entry = entry_in(code, at, n)?;
    Some(Begin { entry, turns: 1 })
}

// Entry `n`, counted from 0, of the yield point at a place, or `None` where there is none.
fn entry_in(code: &Code, at: u64, n: usize) -> Option<u64>
    ensures { result ≡ entry_after code.now at n }
{
    match code.instrs.get(at as usize)? {
        Instr::Yield(number) => {
            let point = code.yields.get(*number as usize)?;
            point.entries.get(n).copied()
        }
        _ => None,
    }
}

/// The alternative that the move of this number takes at a place in the code, or `None` where it takes none.
pub fn alternative_at(code: &ClassCode, at: u64, k: u32) -> Option<&Alternative>
    ensures { option_copied result ≡ alternative_def code.now at k }
{
    let n = k.checked_sub(1)? as usize;
    wait_at(code, at)?.alternatives.get(n)
}

/// The label at a place in the code, or `None` where there is none.
pub fn label_at(code: &ClassCode, at: u64) -> Option<u32>
    ensures { result ≡ label_of (wait_def code.now at) }
{
    wait_at(code, at)?.label
}

/// The number of the yield point at a place in the code, or `None` where none stands there.
pub fn yield_at(code: &ClassCode, at: u64) -> Option<u32> {
    match code.code.instrs.get(at as usize)? {
        Instr::Yield(number) => Some(*number),
        _ => None,
    }
}

// What is waited for at a place in the code, or `None` where no yield point stands there.
fn wait_at(code: &ClassCode, at: u64) -> Option<&Wait>
    ensures { option_copied result ≡ wait_def code.now at }
{
    match code.code.instrs.get(at as usize)? {
        Instr::Yield(number) => code.waits.get(*number as usize),
        _ => None,
    }
}

// Binds the least row that an alternative finds, if it finds one.
fn bind_found(alternative: Option<&Alternative>, known: &mut Known<'_>) -> Result<(), NoMemory>
    requires { KnowsSome known.old }
    ensures bound { OnOk result (Each known.old (λ p class d.
        Knows known.new p class (bound_by class (option_copied alternative.entry) d))) }
    ensures actions { known.new.actions ≡ known.old.actions }
{
    let Some(alternative) = alternative else {
        return Ok(());
    };
    let Some(q) = alternative.found else {
        return Ok(());
    };
    let least = found(known, q)?;
    match least {
        Some(row) => bind(alternative.binds.as_slice(), &row, known),
        None => Ok(()),
    }
}

/// Tells the move of this number, binds the least row of the alternative that it takes, and runs on, up to the next yield
/// point, to the end or to a fault.
pub fn run_from(
    alloc: Global,
    code: &ClassCode,
    begin: Begin,
    k: u32,
    known: &mut Known<'_>,
    machine: &mut Machine,
) -> Result<Place, NoMemory>
    requires { (p : Program) × (class : Class) × (d : Data) × (todo : List Task)
        × MayRun p class code.now known.old machine.old k begin d todo }
    ensures runs { IfOk result (λ place. (p : Program) (class : Class) (d : Data) (todo : List Task)
        → MayRun p class code.now known.old machine.old k begin d todo
        → let ran = run_to_yield class begin.turns d todo in
        HasRun p class code.now d.me k ran known.old known.new machine.new place) }
    ensures part { OnErr result ((p : Program) (class : Class) (d : Data) (todo : List Task)
        → MayRun p class code.now known.old machine.old k begin d todo
        → let ran = run_to_yield class begin.turns d todo in
        AddsPrefix known.old.actions known.new.actions (move_actions d.me k ran)) }
{
    known.actions.push(Action::Took {
        p: known.answers.me,
        k,
    })?;
    bind_found(alternative_at(code, machine.place, k), known)?;
    machine.place = begin.entry;
    machine.turns = begin.turns;
    let stop = run_code(alloc, &code.code, machine, known)?;
    match stand(code, stop, known) {
        Ok(place) => Ok(place),
        Err(e) => Err(e),
    }
}

/// Where a process stands whose code stopped so. The end and a fault are told.
pub fn stand(code: &ClassCode, stop: Stop, known: &mut Known<'_>) -> Result<Place, NoMemory>
    requires { MayStop code.now stop }
    ensures stops { IfOk result (λ place. HasStopped code.now known.old known.new stop place) }
    ensures same { OnErr result (known.new.actions ≡ known.old.actions) }
{
    match stop {
        Stop::Yield(number) => place_of(code, number),
        Stop::Ended => {
            known.actions.push(Action::End {
                p: known.answers.me,
            })?;
            Ok(Place::Ended)
        }
        Stop::Fault { kind, line } => {
            known.actions.push(Action::Fault {
                p: known.answers.me,
                kind,
                line,
            })?;
            Ok(Place::Faulted)
        }
    }
}

// Where a process stands that waits at the yield point of this number.
fn place_of(code: &ClassCode, number: u32) -> Result<Place, NoMemory>
    requires { HasPoint code.now number }
    ensures { IfOk result (λ place. StandsAt code.now number place) }
{
    let Some(point) = code.code.yields.get(number as usize) else {
        unreachable!()
    };
    let Some(wait) = code.waits.get(number as usize) else {
        unreachable!()
    };
    place_at(point.label, wait.alternatives.len())
}

// Where a process waits, at a label or at an `await` of so many alternatives. No memory has room for so many that their numbers
// and that of a timeout take more than 32 bits.
fn place_at(label: bool, count: usize) -> Result<Place, NoMemory>
    ensures { IfOk result (λ place. (place ≡ place_def label count) × AreFew label count) }
{
    if label {
        return Ok(Place::Label);
    }
    if count >= u32::MAX as usize {
        return Err(NoMemory);
    }
    Ok(Place::Await(count as u32))
}
