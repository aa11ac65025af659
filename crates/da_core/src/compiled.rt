//! A program with the code and the plans of its classes.
ghost use Rattle.da_core.specs.Compiled.{IsCodeFor, IsCompiled, code_of as code_def, count_of as count_def, program_of, rank_in, start_in};
ghost use Rattle.da_core.specs.Opened.{opened as opened_def};
ghost use Rattle.da_core.specs.PlanLimit.{is_large, nodes_fault};
ghost use Rattle.da_lang.specs.Typing.{least_of};
ghost use Rattle.da_lang.specs.World.{at_number, class_of};
ghost use Rattle.da_lang.specs.declared.program.Class.{Class as ClassOf};
ghost use Rattle.quant_norm.specs.declared.top.PlanFault.TheVariants.{TooMany};
ghost use Rattle.query_plan.specs.Questions.{norm_class};
ghost use Rattle.std.specs.Option.{option_copied};
ghost use Rattle.std.specs.Prelude.{◌≡◌, ◌<◌, ℕ, IfErr, IfOk, None, Some, false, length, map, slice_get, true};

use crate::opened::{Opened, opened_of};
use crate::waits::{Wait, waits_of};
use code_gen::generate;
use da_lang::{Class, ProcDecl, Program};
use da_machine::Code;
use da_types::Typed;
use da_values::{List, NoMemory};
use history_live::{Live, live_patterns};
use quant_norm::{PlanFault, normalise};
use query_plan::{Plan, Stored, store};
use std::alloc::Global;

/// The code of a class, its plan and what is stored of that, what is waited for at each of its yield points, its live patterns,
/// and the opened patterns of its handlers.
#[derive(Drop)]
pub struct ClassCode {
    pub code: Code,
    pub plan: Plan,
    pub stored: Stored,
    pub waits: List<Wait>,
    pub live: Live,
    pub opened: List<Opened>,
}

/// An accepted program with the code and the plans of its classes.
#[derive(Drop)]
pub struct Compiled {
    pub(crate) typed: Typed,
    pub(crate) codes: List<ClassCode>,
}

/// Compiles a program. `TooMany` comes exactly where the plan of a class has too many nodes, with the earliest line of such a
/// class. `Memory` comes for want of memory, or where a number of `generate` or `normalise` has no room.
pub fn compile(alloc: Global, t: Typed) -> Result<Compiled, PlanFault>
    ensures compiled { IfOk result IsCompiled }
    ensures program { IfOk result (λ c. program_of c ≡ t) }
    ensures few { IfOk result (λ c. nodes_fault t ≡ None) }
    ensures many { IfErr result (λ fault. (line : ℕ) → fault ≡ TooMany line → nodes_fault t ≡ Some line) }
{
    let mut codes = List::new(alloc);
    let mut least = None;
    let count = t.program().classes.len();
    'classes: for place in 0..count {
        match class_code(alloc, &t, place) {
            Ok(code) => codes.push(code)?,
            Err(PlanFault::TooMany { line }) => least = Some(lesser(line, least)),
            Err(PlanFault::Memory) => return Err(PlanFault::Memory),
        }
    }
    match least {
        Some(line) => Err(PlanFault::TooMany { line }),
        None => Ok(Compiled { typed: t, codes }),
    }
}

// The lesser of a line and one that may be there.
fn lesser(line: u32, other: Option<u32>) -> u32
    ensures { result ≡ least_of line other }
{
    match other {
        Some(other) => { if other < line { other } else { line } }
        None => line,
    }
}

// The code of the class at this place.
fn class_code(alloc: Global, t: &Typed, place: usize) -> Result<ClassCode, PlanFault>
    requires { place < length t.now.classes }
    ensures made { IfOk result (λ code. (class : ClassOf) → slice_get t.now.classes place ≡ Some class → IsCodeFor t.now place class code) }
    ensures few { IfOk result (λ code. (class : ClassOf) → slice_get t.now.classes place ≡ Some class → is_large class ≡ false) }
    ensures many { IfErr result (λ fault. (line : ℕ) → fault ≡ TooMany line
        → (class : ClassOf) → slice_get t.now.classes place ≡ Some class → (line ≡ class.line) × (is_large class ≡ true)) }
{
    let plan = normalise(alloc, t, place)?;
    match code_with(alloc, t, place, plan) {
        Ok(code) => Ok(code),
        Err(_) => Err(PlanFault::Memory),
    }
}

// The same, with the plan of the class.
fn code_with(alloc: Global, t: &Typed, place: usize, plan: Plan) -> Result<ClassCode, NoMemory>
    requires there { place < length t.now.classes }
    requires planned { (class : ClassOf) → slice_get t.now.classes place ≡ Some class → plan ≡ norm_class class }
    ensures { IfOk result (λ code. (class : ClassOf) → slice_get t.now.classes place ≡ Some class → IsCodeFor t.now place class code) }
{
    let code = generate(alloc, t, place)?;
    let opened = opened_in(alloc, t, place)?;
    let live = live_patterns(alloc, &plan)?;
    let stored = store(alloc, &plan)?;
    let waits = match t.program().classes.get(place) {
        Some(class) => waits_of(alloc, class, plan.flags.as_slice())?,
        None => List::new(alloc),
    };
    Ok(ClassCode {
        code,
        plan,
        stored,
        waits,
        live,
        opened,
    })
}

// The opened patterns of the handlers of the class at this place.
fn opened_in(alloc: Global, t: &Typed, place: usize) -> Result<List<Opened>, NoMemory>
    ensures { IfOk result (λ opened. (class : ClassOf) → slice_get t.now.classes place ≡ Some class → opened ≡ map opened_def class.handlers) }
{
    match t.program().classes.get(place) {
        Some(class) => opened_of(alloc, class.handlers.as_slice()),
        None => Ok(List::new(alloc)),
    }
}

impl Compiled {
    /// The program. It takes no memory.
    pub fn program(&self) -> &Program
        ensures { result.now ≡ program_of self.now }
    {
        self.typed.program()
    }

    /// The plan of the class at this place among the classes of the program, counted from 0. It takes no memory.
    pub fn plan(&self, class: usize) -> &Plan
        requires compiled { IsCompiled self.now }
        requires there { class < length (program_of self.now).classes }
        ensures { (c : ClassOf) → slice_get (program_of self.now).classes class ≡ Some c
            → result.now ≡ norm_class c }
    {
        let Some(code) = self.codes.get(class) else {
            unreachable!()
        };
        &code.plan
    }

    // The code of the class of a process, or `None` where there is none.
    pub(crate) fn code_of(&self, me: u16) -> Option<&ClassCode>
        ensures { option_copied result ≡ code_def self.now me }
    {
        let decl = numbered(&self.typed.program().procs, me)?;
        self.codes.get(usize::from(decl.class))
    }

    // The class of a process, or `None` where there is none.
    pub(crate) fn class_of(&self, me: u16) -> Option<&Class>
        ensures { option_copied result ≡ class_of (program_of self.now) me }
    {
        let program = self.typed.program();
        let decl = numbered(&program.procs, me)?;
        program.classes.get(usize::from(decl.class))
    }

    // Where the code begins of what the process has to do at first, or `None` where there is no such process.
    pub(crate) fn start_of(&self, me: u16) -> Option<u64>
        ensures { result ≡ start_in (program_of self.now) (code_def self.now me) me }
    {
        let code = self.code_of(me)?;
        let rank = self.rank(me)?;
        code.code.starts.get(rank).copied()
    }

    // How many processes of the same class are made before this one, or `None` where there is no such process.
    fn rank(&self, me: u16) -> Option<usize>
        ensures { result ≡ rank_in (program_of self.now) (at_number (program_of self.now).procs me) me }
    {
        let procs = self.typed.program().procs.as_slice();
        let place = usize::from(me).checked_sub(1)?;
        let decl = procs.get(place)?;
        Some(count_of(&procs[..place], decl.class))
    }
}

// How many of these processes are of the class at this place.
fn count_of(procs: &[ProcDecl], class: u16) -> usize
    ensures { result ≡ count_def class procs.now }
{
    let mut count = 0;
    for decl in procs {
        if decl.class == class {
            count += 1;
        }
    }
    count
}

// The member of this number, counted from 1.
fn numbered<T>(members: &List<T>, number: u16) -> Option<&T>
    ensures { option_copied result ≡ at_number members.now number }
{
    let place = usize::from(number).checked_sub(1)?;
    members.get(place)
}
