//! The run of one process along its trace, and of each process alone.
ghost use Rattle.da_core.specs.Arrivals.{MayArrive};
ghost use Rattle.da_core.specs.Compiled.{IsCompiled, program_of as compiled_program};
ghost use Rattle.da_core.specs.StandsFor.{StandsFor, Whichever, program_of};
ghost use Rattle.da_lang.specs.Shaped.{IsProcess};
ghost use Rattle.da_lang.specs.World.{World, opening};
ghost use Rattle.std.specs.Prelude.{◌≡◌, ◌↔◌, ◌<◌, ℕ, IfOk, IfSome, IsTrue, MatchOption, length};
ghost use Rattle.trace_join.specs.Blocks.{AllCut};
ghost use Rattle.trace_join.specs.Cuts.{IsCut, is_timeout, move_asked};
ghost use Rattle.trace_join.specs.Cutting.{AskedOrNot, GoesOn, HowMade, MadeOrNot, Stops, TakenInOrNot};

use crate::piece::Piece;
use crate::proper::is_proper;
use crate::same::behind;
use da_core::{Compiled, Core, Place, StepFault, Stopped, well_typed};
use da_lang::Action;
use da_values::{List, NoMemory, Value};
use std::alloc::Global;

/// Cuts the trace of each process into what its steps tell.
pub(crate) fn cut_all(
    alloc: Global,
    compiled: &Compiled,
    traces: &[List<Action>],
) -> Result<List<List<Piece>>, NoMemory>
    requires compiled { IsCompiled compiled.now }
    requires each { length traces.now ≡ length (compiled_program compiled.now).procs }
    ensures each { IfOk result (λ cuts. length cuts ≡ length traces.now) }
    ensures cut { IfOk result (λ cuts. AllCut (compiled_program compiled.now) traces.now cuts) }
{
    let mut cuts = List::new(alloc);
    for place in 0..traces.len() {
        let pieces = cut_trace(alloc, compiled, place as u16 + 1, traces[place].as_slice())?;
        cuts.push(pieces)?;
    }
    Ok(cuts)
}

/// Cuts the trace of a process into what its steps tell, up to where it cannot go on or waits for a message that no
/// process can send.
pub(crate) fn cut_trace(
    alloc: Global,
    compiled: &Compiled,
    me: u16,
    trace: &[Action],
) -> Result<List<Piece>, NoMemory>
    requires compiled { IsCompiled compiled.now }
    requires there { IsProcess (compiled_program compiled.now) me }
    ensures { IfOk result (λ pieces.
        IsCut (compiled_program compiled.now) (opening (compiled_program compiled.now) me) trace.now pieces) }
{
    let mut core = Core::start(alloc, compiled, me)?;
    let mut pieces = List::new(alloc);
    let mut left = trace;
    while let Some(next) = next_step(alloc, compiled, &mut core, left)? {
        pieces.push(next.piece)?;
        left = next.rest;
    }
    Ok(pieces)
}

// The next step of a process along its trace, and the trace after it.
#[derive(Clone, Copy)]
struct Next<'t> {
    piece: Piece,
    rest: &'t [Action],
}

// Makes the next step of the process along its trace, if there is one.
fn next_step<'t>(
    alloc: Global,
    compiled: &Compiled,
    core: &mut Core<'_>,
    trace: &'t [Action],
) -> Result<Option<Next<'t>>, NoMemory>
    requires program { program_of core.old ≡ compiled_program compiled.now }
    requires stands { (w : World) × StandsFor core.old w }
    ensures program { program_of core.new ≡ program_of core.old }
    ensures shorter { IfOk result (λ next. IfSome next (λ n. length n.rest.now < length trace.now)) }
    ensures step { IfOk result (λ next. Whichever core.old (λ w. MatchOption next
        (Stops (program_of core.old) w trace.now)
        (λ n. GoesOn (program_of core.old) w trace.now n.rest.now (StandsFor core.new) n.piece))) }
{
    let Some(asked) = trace.first() else {
        return Ok(None);
    };
    let mut told = List::new(alloc);
    let Some(times_out) = make_step(compiled, core, asked, &mut told)? else {
        return Ok(None);
    };
    let size = told.len();
    match behind(trace, told.as_slice()) {
        None => Ok(None),
        Some(rest) => Ok(Some(Next {
            piece: Piece { size, times_out },
            rest,
        })),
    }
}

// Makes the step that an action asks for, and adds what it tells. Answers whether it was a timeout, or `None` where the step
// may not be made.
fn make_step(
    compiled: &Compiled,
    core: &mut Core<'_>,
    asked: &Action,
    told: &mut List<Action>,
) -> Result<Option<bool>, NoMemory>
    requires program { program_of core.old ≡ compiled_program compiled.now }
    requires stands { (w : World) × StandsFor core.old w }
    ensures program { program_of core.new ≡ program_of core.old }
    ensures step { IfOk result (λ made. Whichever core.old (λ w.
        AskedOrNot (program_of core.old) w asked.now (StandsFor core.new) told.old told.new made)) }
{
    match asked {
        Action::Took { k, .. } => make_move(core, *k, told),
        Action::Got { p, t, v, .. } => take_in(compiled, core, *p, *t, v, told),
        _ => Ok(None),
    }
}

// Makes the move that `took` tells with this number.
fn make_move(core: &mut Core<'_>, k: u32, told: &mut List<Action>) -> Result<Option<bool>, NoMemory>
    requires { (w : World) × StandsFor core.old w }
    ensures program { program_of core.new ≡ program_of core.old }
    ensures step { IfOk result (λ made. Whichever core.old (λ w.
        MadeOrNot (program_of core.old) w (move_asked w k) (StandsFor core.new) told.old told.new made)) }
{
    if asks_timeout(core, k) {
        how_made(core.make_timeout(told), true)
    } else {
        how_made(core.make_move(k, told), false)
    }
}

// Whether `took` tells a timeout with this number.
fn asks_timeout(core: &Core<'_>, k: u32) -> bool
    ensures { Whichever core.now (λ w. result ≡ is_timeout (move_asked w k)) }
{
    match core.place() {
        Place::Await(count) => k > 0 && count == k - 1,
        Place::New => false,
        Place::Label => false,
        Place::Ended => false,
        Place::Faulted => false,
    }
}

// Takes in a message, where a process can have sent it.
fn take_in(
    compiled: &Compiled,
    core: &mut Core<'_>,
    from: u16,
    time: u64,
    m: &Value,
    told: &mut List<Action>,
) -> Result<Option<bool>, NoMemory>
    requires program { program_of core.old ≡ compiled_program compiled.now }
    requires stands { (w : World) × StandsFor core.old w }
    ensures program { program_of core.new ≡ program_of core.old }
    ensures step { IfOk result (λ made. Whichever core.old (λ w.
        TakenInOrNot (program_of core.old) w m.now from time (StandsFor core.new) told.old told.new made)) }
{
    if !may_arrive(compiled, from, m) {
        return Ok(None);
    }
    how_made(core.deliver(from, time, m, told), false)
}

/// Whether the process can have sent the message: it is there, and the message is a declared one of its types. It takes no
/// memory.
pub fn may_arrive(compiled: &Compiled, from: u16, m: &Value) -> bool
    ensures { (time : ℕ) → IsTrue result ↔ MayArrive (compiled_program compiled.now) m.now from time }
{
    from > 0
        && usize::from(from) <= compiled.program().procs.len()
        && well_typed(compiled, m)
        && is_proper(m)
}

// Whether a step was made, a timeout or not.
fn how_made(made: Result<Stopped, StepFault>, times_out: bool) -> Result<Option<bool>, NoMemory>
    ensures { IfOk result (HowMade made times_out) }
{
    match made {
        Ok(_) => Ok(Some(times_out)),
        Err(StepFault::Forbidden) => Ok(None),
        Err(StepFault::Memory) => Err(NoMemory),
        Err(StepFault::Spent) => Err(NoMemory),
    }
}
