//! The process that watches.
ghost use Rattle.da_core.specs.Compiled.{IsCompiled, program_of};
ghost use Rattle.da_core.specs.StandsFor.{Whichever, program_of as core_program};
ghost use Rattle.da_lang.specs.declared.program.Program.{Program};
ghost use Rattle.da_lang.specs.Runs.{max_turns};
ghost use Rattle.da_lang.specs.World.{World, at_number, class_of as class_of_def};
ghost use Rattle.da_system.specs.Picking.{alternatives_of};
ghost use Rattle.da_values.specs.Value.{val_of};
ghost use Rattle.run_watch.specs.Beside.{HasCome, HasDone, HasMoved, IsFirst, IsThere};
ghost use Rattle.run_watch.specs.Watching.{begun, class_line as class_line_def, handed, handed_for, hears_all, is_said as is_said_def, message_from, own_move, quiet, quiet_val, settled, worn_out};
ghost use Rattle.std.specs.List.{list_any};
ghost use Rattle.std.specs.Option.{option_copied};
ghost use Rattle.std.specs.Prelude.{◌≡◌, ◌<◌, IfOk, OnOk, codes, false, length};

use da_core::{Compiled, Core, Place, StepFault, well_typed};
use da_lang::{Action, Class, FaultKind, ProcDecl, Program as Source};
use da_values::{List, NoMemory, Row, Str, Value};
use std::alloc::Global;
use trace_join::may_arrive;

/// So many moves may a watch make by itself after a message, and no more.
const MOST_MOVES: u32 = 1_000_000;

/// The process that watches, the last one of its program, beside a run. Each call adds what the watch does to a list.
#[derive(Drop)]
pub struct Watcher<'w> {
    alloc: Global,
    compiled: &'w Compiled,
    me: u16,
    core: Core<'w>,
    worn: bool,
}

impl<'w> Watcher<'w> {
    /// The watch before any event of the run: it has begun, and has made its moves. `NoMemory` comes where memory is refused, where
    /// a value would have 2^128 holders, and where a sum is outside an i128.
    pub fn begin(
        alloc: Global,
        compiled: &'w Compiled,
        out: &mut List<Action>,
    ) -> Result<Watcher<'w>, NoMemory>
        requires compiled { IsCompiled compiled.now }
        requires some { 0 < length (program_of compiled.now).procs }
        ensures { IfOk result (λ watch. HasDone (program_of compiled.now) (begun (program_of compiled.now)) watch out.old out.new) }
    {
        let me = last_process(compiled);
        let core = Core::start(alloc, compiled, me)?;
        let mut watcher = Watcher {
            alloc,
            compiled,
            me,
            core,
            worn: false,
        };
        watcher.settle(out)?;
        Ok(watcher)
    }

    /// Hands the watch what these actions put out, one after the other, and lets it move after each. `NoMemory` comes as of
    /// `begin`, and where one of them is no action of a run of its program: what is put out there is a value, and a process puts it
    /// out. After it no call says where the watch stands.
    pub fn hear(&mut self, actions: &[Action], out: &mut List<Action>) -> Result<(), NoMemory>
        requires { IsThere self.old }
        ensures { OnOk result ((program : Program) (w : World) → HasCome program w self.old
            → HasDone program (hears_all program w (handed program actions.now)) self.new out.old out.new) }
    {
        for action in actions {
            self.hear_one(action, out)?;
        }
        Ok(())
    }

    /// Hands the watch the message `('quiet',)` from itself, and lets it move. `NoMemory` comes as of `begin`.
    pub fn hear_quiet(&mut self, out: &mut List<Action>) -> Result<(), NoMemory>
        requires { IsThere self.old }
        ensures { OnOk result ((program : Program) (w : World) → HasCome program w self.old
            → HasDone program (hears_all program w (quiet program)) self.new out.old out.new) }
    {
        let message = quiet_message(self.alloc)?;
        let me = self.me;
        self.take(me, &message, out)?;
        Ok(())
    }

    // Hands the watch what one action puts out.
    fn hear_one(&mut self, action: &Action, out: &mut List<Action>) -> Result<(), NoMemory>
        requires { IsThere self.old }
        ensures { OnOk result ((program : Program) (w : World) → HasCome program w self.old
            → HasDone program (hears_all program w (handed_for program action.now)) self.new out.old out.new) }
    {
        let Action::Out { p, v } = action else {
            return Ok(());
        };
        self.take(*p, v, out)?;
        Ok(())
    }

    // Takes a value in from a process, if it is a message that may arrive, and moves. What no process can have put out is refused.
    fn take(&mut self, from: u16, value: &Value, out: &mut List<Action>) -> Result<(), NoMemory>
        requires { IsThere self.old }
        ensures { OnOk result ((program : Program) (w : World) → HasCome program w self.old
            → HasDone program (hears_all program w (message_from program from (val_of value.now))) self.new out.old out.new) }
    {
        let worn = self.worn;
        if worn {
            return Ok(());
        }
        if !well_typed(self.compiled, value) {
            return Ok(());
        }
        if !may_arrive(self.compiled, from, value) {
            return Err(NoMemory);
        }
        match self.core.deliver(from, 0, value, out) {
            Ok(_) => {}
            Err(StepFault::Forbidden) => return Ok(()),
            Err(StepFault::Memory | StepFault::Spent) => return Err(NoMemory),
        }
        self.settle(out)?;
        Ok(())
    }

    // Moves until no move is allowed. After so many a further one is one too many.
    fn settle(&mut self, out: &mut List<Action>) -> Result<(), NoMemory>
        requires there { IsThere self.old }
        requires unworn { self.old.worn ≡ false }
        ensures { OnOk result ((program : Program) (w : World) → HasCome program w self.old
            → HasDone program (settled program max_turns w) self.new out.old out.new) }
    {
        for _turn in 0..MOST_MOVES {
            let moved = self.make_first_move(out)?;
            if !moved {
                return Ok(());
            }
        }
        self.wear_out(out)?;
        Ok(())
    }

    // Makes the first move that is allowed, and says whether there is one.
    fn make_first_move(&mut self, out: &mut List<Action>) -> Result<bool, NoMemory>
        requires there { IsThere self.old }
        requires unworn { self.old.worn ≡ false }
        ensures moved { IfOk result (λ moved. (program : Program) (w : World) → HasCome program w self.old
            → HasMoved program w (own_move program w) moved self.new out.old out.new) }
        ensures unworn { self.new.worn ≡ false }
    {
        let found = first_move(&self.core);
        let Some(k) = found else {
            return Ok(false);
        };
        match self.core.make_move(k, out) {
            Ok(_) => Ok(true),
            Err(_) => Err(NoMemory),
        }
    }

    // Ends the process by a fault, if a move is allowed still.
    fn wear_out(&mut self, out: &mut List<Action>) -> Result<(), NoMemory>
        requires { self.old.worn ≡ false }
        ensures { OnOk result ((program : Program) (w : World) → HasCome program w self.old
            → HasDone program (worn_out program w (own_move program w)) self.new out.old out.new) }
    {
        let found = first_move(&self.core);
        let Some(_) = found else {
            return Ok(());
        };
        let fault = self.fault();
        out.push(fault)?;
        self.worn = true;
        Ok(())
    }

    // The fault that ends it.
    fn fault(&self) -> Action
        ensures { result ≡ Action.Fault self.now.me FaultKind.TooLong (class_line_def (class_of_def (program_of self.now.compiled.now) self.now.me)) }
    {
        let line = class_line(self.compiled, self.me);
        Action::Fault {
            p: self.me,
            kind: FaultKind::TooLong,
            line,
        }
    }
}

// The number of the last process.
fn last_process(compiled: &Compiled) -> u16
    requires { IsCompiled compiled.now }
    ensures { result ≡ length (program_of compiled.now).procs }
{
    let count = compiled.program().procs.len() as u16;
    count
}

// The least number of a move that is allowed, if one is.
fn first_move(core: &Core<'_>) -> Option<u32>
    ensures { Whichever core.now (λ w. IsFirst (core_program core.now) w result) }
{
    let goes = core.can_move(0);
    if goes {
        return Some(0);
    }
    let count = alternatives(core.place());
    for turn in 0..count {
        let takes = core.can_move(turn + 1);
        if takes {
            return Some(turn + 1);
        }
    }
    None
}

// How many alternatives there are to take.
fn alternatives(place: Place) -> u32
    ensures { result ≡ alternatives_of place }
{
    match place {
        Place::Await(count) => count,
        Place::New => 0,
        Place::Label => 0,
        Place::Ended => 0,
        Place::Faulted => 0,
    }
}

// The line of the class of a process, or 0 where there is no such process.
fn class_line(compiled: &Compiled, me: u16) -> u32
    ensures { result ≡ class_line_def (class_of_def (program_of compiled.now) me) }
{
    match class_of(compiled.program(), me) {
        Some(class) => class.line,
        None => 0,
    }
}

// The class of a process, or `None` where there is none.
fn class_of(program: &Source, me: u16) -> Option<&Class>
    ensures { option_copied result ≡ class_of_def program.now me }
{
    let decl = numbered(&program.procs, me)?;
    program.classes.get(usize::from(decl.class))
}

// The process of this number, counted from 1.
fn numbered(procs: &List<ProcDecl>, number: u16) -> Option<&ProcDecl>
    ensures { option_copied result ≡ at_number procs.now number }
{
    let place = usize::from(number).checked_sub(1)?;
    procs.get(place)
}

// `('quiet',)`
fn quiet_message(alloc: Global) -> Result<Value, NoMemory>
    ensures { IfOk result (λ value. val_of value ≡ quiet_val) }
{
    let word = quiet_word(alloc)?;
    let mut parts = Row::new(alloc);
    parts.push(Value::Text(word))?;
    Ok(Value::Tuple(parts))
}

fn quiet_word(alloc: Global) -> Result<Str, NoMemory>
    ensures { IfOk result (λ text. text ≡ codes "quiet") }
{
    match Str::from_bytes(alloc, b"quiet") {
        Ok(text) => Ok(text),
        Err(_) => Err(NoMemory),
    }
}

/// Whether one of some actions says something: it puts something out, or a fault ends the watch.
pub fn says_any(actions: &[Action]) -> bool
    ensures { result ≡ list_any is_said_def actions.now }
{
    for action in actions {
        if is_said(action) {
            return true;
        }
    }
    false
}

/// Whether a watch says something by an action: it puts something out, or a fault ends it.
pub fn is_said(action: &Action) -> bool
    ensures { result ≡ is_said_def action.now }
{
    matches!(action, Action::Out { .. } | Action::Fault { .. })
}
