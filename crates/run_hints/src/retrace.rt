//! The run of one process along its trace.
ghost use Rattle.da_core.specs.Compiled.{IsCompiled, program_of as compiled_program};
ghost use Rattle.da_core.specs.StandsFor.{IsReady, program_of};
ghost use Rattle.std.specs.Prelude.{◌≡◌};

use da_core::{Compiled, Core, Place, StepFault, Stopped};
use da_lang::Action;
use da_values::List;
use std::alloc::Global;
use trace_join::may_arrive;

/// What a process does next.
#[derive(Drop)]
pub enum Next {
    /// It does not make this step where it stands.
    Refused(Place),
    /// It makes the step, and tells these actions.
    Told(List<Action>),
}

/// What a process does next that has told these actions, where it is to make the step that another action asks for. `None` where
/// it has not told them, or memory is refused.
pub fn next_of(
    alloc: Global,
    compiled: &Compiled,
    me: u16,
    passed: &[Action],
    asked: &Action,
) -> Option<Next>
    requires { IsCompiled compiled.now }
{
    if me == 0 || usize::from(me) > compiled.program().procs.len() {
        return None;
    }
    let Ok(mut core) = Core::start(alloc, compiled, me) else {
        return None;
    };
    if !follow(alloc, compiled, &mut core, passed) {
        return None;
    }
    let mut told = List::new(alloc);
    if make_step(compiled, &mut core, asked, &mut told)? {
        Some(Next::Told(told))
    } else {
        Some(Next::Refused(core.place()))
    }
}

// Runs a process along the actions that it told. Whether it came to their end.
fn follow(alloc: Global, compiled: &Compiled, core: &mut Core<'_>, passed: &[Action]) -> bool
    requires program { program_of core.old ≡ compiled_program compiled.now }
    requires ready { IsReady core.old }
    ensures program { program_of core.new ≡ program_of core.old }
    ensures ready { IsReady core.new }
{
    let mut rest = passed;
    for _step in passed {
        let [asked, ..] = rest else {
            return true;
        };
        let mut told = List::new(alloc);
        if make_step(compiled, core, asked, &mut told) != Some(true) {
            return false;
        }
        let (_, others) = rest.split_at(told.len().min(rest.len()));
        rest = others;
    }
    rest.is_empty()
}

// Makes the step that an action asks for, and adds what it tells. Whether the process makes it, or `None` where memory is refused.
fn make_step(
    compiled: &Compiled,
    core: &mut Core<'_>,
    asked: &Action,
    told: &mut List<Action>,
) -> Option<bool>
    requires program { program_of core.old ≡ compiled_program compiled.now }
    requires ready { IsReady core.old }
    ensures program { program_of core.new ≡ program_of core.old }
    ensures ready { IsReady core.new }
{
    match asked {
        Action::Took { k, .. } => is_made(make_move(core, *k, told)),
        Action::Got { p, t, v, .. } => {
            if may_arrive(compiled, *p, v) {
                is_made(core.deliver(*p, *t, v, told))
            } else {
                Some(false)
            }
        }
        _ => Some(false),
    }
}

// Makes the move that is told with this number, which is a timeout where there are not so many alternatives.
fn make_move(core: &mut Core<'_>, k: u32, told: &mut List<Action>) -> Result<Stopped, StepFault>
    requires { IsReady core.old }
    ensures program { program_of core.new ≡ program_of core.old }
    ensures ready { IsReady core.new }
{
    match core.place() {
        Place::Await(count) if k.checked_sub(1) == Some(count) => core.make_timeout(told),
        _ => core.make_move(k, told),
    }
}

fn is_made(made: Result<Stopped, StepFault>) -> Option<bool> {
    match made {
        Ok(_) => Some(true),
        Err(StepFault::Forbidden) => Some(false),
        Err(_) => None,
    }
}
