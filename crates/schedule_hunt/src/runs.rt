//! Runs of schedules, those that are given and those that numbers generate.
ghost use Rattle.da_core.specs.Compiled.{IsCompiled, program_of as compiled_program};
ghost use Rattle.da_system.specs.SourceRun.{SrcRun};
ghost use Rattle.run_watch.specs.Beside.{IsWatchOf};
ghost use Rattle.da_system.specs.State.{IsReady, Stands, Whichever, is_spent, program_of};
ghost use Rattle.da_system.specs.SystemStep.{start as start_def, sys_step};
ghost use Rattle.schedule_hunt.specs.Hunt.{IsShownBy, generated};
ghost use Rattle.schedule_hunt.specs.Runs.{IsExecuted, IsPicked, IsRunOf, IsTrial, StandsAfter};
ghost use Rattle.schedule_hunt.specs.Shown.{IsBroken, IsReady as IsReadyGoal, Reaches, Shows};
ghost use Rattle.schedule_hunt.specs.ShownSteps.{HasUnended};
ghost use Rattle.schedule_walk.specs.Rest.{IsAtRest};
ghost use Rattle.std.specs.Prelude.{◌≡◌, ◌↔◌, ◌+◌, ◌<◌, ◌^◌, [], IfOk, IsTrue, MatchOption, false, length};

use crate::hunting::{Attempt, End, Progress};
use crate::shown::{has_ended, has_fault, has_more, outputs_differ, overlaps};
use crate::what::{Goal, Trials, What};
use da_core::Compiled;
use da_lang::{Action, Event};
use da_system::{StepFault, System};
use da_values::{List, NoMemory};
use run_watch::{Watcher, says_any};
use schedule_pick::{Picker, first_picker};
use schedule_walk::is_at_rest;
use std::alloc::Global;

/// The system after a run that was not stopped, and all actions of the run.
#[derive(Drop)]
pub(crate) struct Run<'c> {
    pub(crate) system: System<'c>,
    pub(crate) actions: List<Action>,
}

/// A generated schedule, and its run.
#[derive(Drop)]
pub(crate) struct Trial<'c> {
    pub(crate) run: Run<'c>,
    pub(crate) events: List<Event>,
}

/// Whether the events are all allowed, one after the other, and their run shows this.
pub(crate) fn is_shown(
    alloc: Global,
    compiled: &Compiled,
    events: &[Event],
    what: &Goal<'_>,
) -> Result<bool, NoMemory>
    requires compiled { IsCompiled compiled.now }
    requires goal { IsReadyGoal (compiled_program compiled.now) what.now }
    ensures { IfOk result (λ shown.
        IsTrue shown ↔ IsShownBy (compiled_program compiled.now) what.now events.now) }
{
    let found = run_events(alloc, compiled, events)?;
    let Some(run) = found else {
        return Ok(false);
    };
    let shown = reaches(alloc, compiled, what, &run)?;
    Ok(shown)
}

/// The schedule that is generated from a number, where its run shows this. `progress` is told of it.
pub(crate) fn try_number<P: Progress>(
    alloc: Global,
    compiled: &Compiled,
    number: u64,
    trials: Trials,
    what: &Goal<'_>,
    progress: &mut P,
) -> Result<Option<List<Event>>, NoMemory>
    requires compiled { IsCompiled compiled.now }
    requires goal { IsReadyGoal (compiled_program compiled.now) what.now }
    ensures { IfOk result (λ found. MatchOption found
        (IsShownBy (compiled_program compiled.now) what.now (generated (compiled_program compiled.now) trials number) → ⊥)
        (λ events. (events ≡ generated (compiled_program compiled.now) trials number)
        × IsShownBy (compiled_program compiled.now) what.now events)) }
{
    let trial = generate(alloc, compiled, number, trials)?;
    let shown = reaches(alloc, compiled, what, &trial.run)?;
    progress.tell_attempt(&Attempt {
        number,
        events: trial.events.as_slice(),
        end: end_of(compiled.program().procs.len(), &trial, trials.most),
        shown,
    });
    if shown {
        Ok(Some(trial.events))
    } else {
        Ok(None)
    }
}

// How a generated schedule of so many processes ended.
fn end_of(count: usize, trial: &Trial<'_>, most: u64) -> End {
    if trial.events.len() as u64 >= most {
        End::Cut
    } else if has_unended(count, trial.run.actions.as_slice()) {
        End::Stuck
    } else {
        End::Ended
    }
}

// The run of some events, or `None` where one of them is not allowed.
fn run_events<'c>(
    alloc: Global,
    compiled: &'c Compiled,
    events: &[Event],
) -> Result<Option<Run<'c>>, NoMemory>
    requires { IsCompiled compiled.now }
    ensures { IfOk result (λ found. IsRunOf (compiled_program compiled.now) events.now found) }
{
    let mut run = begin(alloc, compiled)?;
    for event in events {
        if !execute(&mut run, event)? {
            return Ok(None);
        }
    }
    Ok(Some(run))
}

/// The run of no events.
pub(crate) fn begin<'c>(alloc: Global, compiled: &'c Compiled) -> Result<Run<'c>, NoMemory>
    requires { IsCompiled compiled.now }
    ensures program { IfOk result (λ run. program_of run.system ≡ compiled_program compiled.now) }
    ensures stands { IfOk result (λ run. Stands run.system (start_def (compiled_program compiled.now))) }
    ensures none { IfOk result (λ run. run.actions ≡ []) }
{
    Ok(Run {
        system: System::new(alloc, compiled)?,
        actions: List::new(alloc),
    })
}

/// Carries out an event, and says whether it is allowed.
pub(crate) fn execute(run: &mut Run<'_>, event: &Event) -> Result<bool, NoMemory>
    requires { IsReady run.old.system }
    ensures carried { IfOk result (λ allowed. Whichever run.old.system (λ s.
        IsExecuted (sys_step (program_of run.old.system) s event.now) run.old allowed run.new)) }
    ensures ready { IsReady run.new.system }
    ensures program { program_of run.new.system ≡ program_of run.old.system }
{
    match run.system.step(event, &mut run.actions) {
        Ok(()) => Ok(true),
        Err(StepFault::Forbidden) => Ok(false),
        Err(StepFault::Memory | StepFault::Spent) => Err(NoMemory),
    }
}

// The schedule that is generated from a number, with its run.
fn generate<'c>(
    alloc: Global,
    compiled: &'c Compiled,
    number: u64,
    trials: Trials,
) -> Result<Trial<'c>, NoMemory>
    requires { IsCompiled compiled.now }
    ensures { IfOk result (λ trial. IsTrial (compiled_program compiled.now) trials number trial) }
{
    let run = begin(alloc, compiled)?;
    let events = List::new(alloc);
    let mut trial = Trial { run, events };
    let most = trials.most;
    if most == 0 {
        return Ok(trial);
    }
    let processes = compiled.program().procs.len() as u32;
    let mut picker = first_picker(alloc, processes, trials.setting, most, number)?;
    for _place in 0..most {
        let picked = pick_next(alloc, &mut trial, &mut picker, processes)?;
        if !picked {
            return Ok(trial);
        }
    }
    Ok(trial)
}

// Carries out the event that is picked next, and says whether there is one.
fn pick_next(
    alloc: Global,
    trial: &mut Trial<'_>,
    picker: &mut Picker,
    processes: u32,
) -> Result<bool, NoMemory>
    requires ready { IsReady trial.old.run.system }
    requires unspent { is_spent trial.old.run.system ≡ false }
    requires count { processes ≡ length (program_of trial.old.run.system).procs }
    requires room { picker.old.place + 1 < 2 ^ 64 }
    ensures picked { IfOk result (λ found. Whichever trial.old.run.system (λ s.
        IsPicked (program_of trial.old.run.system) s picker.old trial.old found picker.new trial.new)) }
    ensures program { program_of trial.new.run.system ≡ program_of trial.old.run.system }
{
    let found = picker.pick(alloc, &trial.run.system, processes)?;
    let Some(event) = found else {
        return Ok(false);
    };
    if !execute(&mut trial.run, &event)? {
        unreachable!()
    }
    trial.events.push(event)?;
    Ok(true)
}

// Whether a run reaches this.
fn reaches(
    alloc: Global,
    compiled: &Compiled,
    goal: &Goal<'_>,
    run: &Run<'_>,
) -> Result<bool, NoMemory>
    requires compiled { IsCompiled compiled.now }
    requires goal { IsReadyGoal (compiled_program compiled.now) goal.now }
    requires program { program_of run.now.system ≡ compiled_program compiled.now }
    requires ready { IsReady run.now.system }
    requires unspent { is_spent run.now.system ≡ false }
    ensures { IfOk result (λ shown. (source : SrcRun) → StandsAfter (compiled_program compiled.now) source run.now
        → IsTrue shown ↔ Reaches (compiled_program compiled.now) goal.now source) }
{
    match goal {
        Goal::Shown(what) => shows(alloc, compiled, *what, run),
        Goal::Watched(watch) => is_broken(alloc, compiled, *watch, run),
    }
}

// Whether a watch says something beside a run.
fn is_broken(
    alloc: Global,
    compiled: &Compiled,
    watch: &Compiled,
    run: &Run<'_>,
) -> Result<bool, NoMemory>
    requires compiled { IsCompiled compiled.now }
    requires watch { IsWatchOf (compiled_program compiled.now) watch.now }
    requires program { program_of run.now.system ≡ compiled_program compiled.now }
    requires ready { IsReady run.now.system }
    requires unspent { is_spent run.now.system ≡ false }
    ensures { IfOk result (λ shown. (source : SrcRun) → StandsAfter (compiled_program compiled.now) source run.now
        → IsTrue shown ↔ IsBroken (compiled_program compiled.now) (compiled_program watch.now) source) }
{
    let actions = run.actions.as_slice();
    let mut said = List::new(alloc);
    let mut watcher = Watcher::begin(alloc, watch, &mut said)?;
    watcher.hear(actions, &mut said)?;
    let told = said.as_slice();
    let complains = says_any(told);
    if complains {
        return Ok(true);
    }
    let rests = is_at_rest(alloc, &run.system, compiled)?;
    if !rests {
        return Ok(false);
    }
    let mut last = List::new(alloc);
    watcher.hear_quiet(&mut last)?;
    let late = last.as_slice();
    let ends = says_any(late);
    Ok(ends)
}

// Whether a run shows this.
fn shows(alloc: Global, compiled: &Compiled, what: &What, run: &Run<'_>) -> Result<bool, NoMemory>
    requires compiled { IsCompiled compiled.now }
    requires program { program_of run.now.system ≡ compiled_program compiled.now }
    requires ready { IsReady run.now.system }
    requires unspent { is_spent run.now.system ≡ false }
    ensures { IfOk result (λ shown. (source : SrcRun) → StandsAfter (compiled_program compiled.now) source run.now
        → IsTrue shown ↔ Shows (compiled_program compiled.now) what.now source) }
{
    let actions = run.actions.as_slice();
    match what {
        What::Fault => Ok(has_fault(actions)),
        What::Stuck => is_stuck(alloc, &run.system, compiled, actions),
        What::Overlap { enter, leave } => Ok(overlaps(enter, leave, actions)),
        What::Differ => Ok(outputs_differ(actions)),
        What::More(k) => Ok(has_more(*k, actions)),
    }
}

// Whether no move, no timeout and no delivery is allowed, and one of the processes has not ended.
fn is_stuck(
    alloc: Global,
    system: &System<'_>,
    compiled: &Compiled,
    actions: &[Action],
) -> Result<bool, NoMemory>
    requires compiled { IsCompiled compiled.now }
    requires program { program_of system.now ≡ compiled_program compiled.now }
    requires ready { IsReady system.now }
    requires unspent { is_spent system.now ≡ false }
    ensures { IfOk result (λ stuck. Whichever system.now (λ s. IsTrue stuck
        ↔ IsAtRest (program_of system.now) s × HasUnended (length (program_of system.now).procs) actions.now)) }
{
    let count = compiled.program().procs.len();
    if !has_unended(count, actions) {
        return Ok(false);
    }
    is_at_rest(alloc, system, compiled)
}

// Whether one of so many processes has not ended.
fn has_unended(count: usize, actions: &[Action]) -> bool
    ensures { IsTrue result ↔ HasUnended count actions.now }
{
    for place in 0..count {
        if !has_ended(place + 1, actions) {
            return true;
        }
    }
    false
}
