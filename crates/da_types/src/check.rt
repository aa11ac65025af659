//! The types of the slots of a program, and the earliest line that breaks a rule of types.
ghost use Rattle.da_lang.specs.Typing.{args_fit as args_fitting, breaks_in, call_breaks, class_breaks, filled as filled_program, filled_class, least as least_line};
ghost use Rattle.da_types.specs.Telling.{telling};
ghost use Rattle.std.specs.Prelude.{◌≡◌, IfOk, MatchOption, None, OnOk, Some, flat_map, map, slice_get};

use crate::earliest::Earliest;
use crate::flow::filled_slots;
use crate::lines::tell_class;
use crate::rules::fits_slot;
use da_lang::{Class, MessageDecl, ProcDecl, Program, RExpr};
use da_typing::Known;
use da_values::{List, NoMemory};
use std::alloc::Global;

/// The program in which each slot that had no type has the one that comes on the way.
#[tactic(auto, unfolding(da_lang::specs::Typing::filled))]
pub fn filled(alloc: Global, p: Program) -> Result<Program, NoMemory>
    ensures { IfOk result (λ program. program ≡ filled_program p) }
{
    let Program {
        kind,
        messages,
        classes,
        procs,
    } = p;
    let classes = filled_classes(alloc, messages.as_slice(), classes)?;
    Ok(Program {
        kind,
        messages,
        classes,
        procs,
    })
}

// Classes, with the types that come on the way. Taking the first out each time costs the square of the number of
// classes, of which a program has few.
fn filled_classes(
    alloc: Global,
    messages: &[MessageDecl],
    classes: List<Class>,
) -> Result<List<Class>, NoMemory>
    ensures { IfOk result (λ found. found ≡ map (filled_class messages.now) classes) }
{
    let mut left = classes;
    let mut found = List::new(alloc);
    'classes: while left.len() > 0 {
        let class = left.remove(0);
        found.push(fill_class(alloc, messages, class)?)?;
    }
    Ok(found)
}

// A class, with the types that come on the way.
fn fill_class(alloc: Global, messages: &[MessageDecl], class: Class) -> Result<Class, NoMemory>
    ensures { IfOk result (λ found. found ≡ filled_class messages.now class) }
{
    let slots = filled_slots(alloc, messages, &class)?;
    let mut class = class;
    class.slots = slots;
    Ok(class)
}

/// The earliest line that breaks a rule of types, where the slots have the types that are known.
#[tactic(auto, using(crate::proofs::CheckLaws::broken_rules), unfolding(da_lang::specs::Typing::breaks_in))]
pub fn broken_line(alloc: Global, p: &Program) -> Result<Option<u32>, NoMemory>
    ensures { IfOk result (λ line. line ≡ least_line (breaks_in p.now)) }
{
    let messages = p.messages.as_slice();
    let classes = p.classes.as_slice();
    let mut least = Earliest::new();
    tell_classes(alloc, messages, classes, &mut least)?;
    tell_procs(alloc, messages, classes, p.procs.as_slice(), &mut least)?;
    Ok(least.line())
}

// Tells the lines of classes.
fn tell_classes(
    alloc: Global,
    messages: &[MessageDecl],
    classes: &[Class],
    least: &mut Earliest,
) -> Result<(), NoMemory>
    ensures { OnOk result (least.new ≡ telling least.old (flat_map (class_breaks messages.now) classes.now)) }
{
    for class in classes {
        tell_class(alloc, messages, class, least)?;
    }
    Ok(())
}

// Tells the lines of `setup` of processes.
fn tell_procs(
    alloc: Global,
    messages: &[MessageDecl],
    classes: &[Class],
    procs: &[ProcDecl],
    least: &mut Earliest,
) -> Result<(), NoMemory>
    ensures { OnOk result (least.new ≡ telling least.old (flat_map (λ d. call_breaks messages.now (slice_get classes.now d.class) d.setup) procs.now)) }
{
    for process in procs {
        tell_call(alloc, messages, classes, process, least)?;
    }
    Ok(())
}

// Tells the line of `setup` of a process, unless its arguments fit the parameters of the class.
#[tactic(auto, using(crate::proofs::TellingLaws::telling_none))]
fn tell_call(
    alloc: Global,
    messages: &[MessageDecl],
    classes: &[Class],
    process: &ProcDecl,
    least: &mut Earliest,
) -> Result<(), NoMemory>
    ensures { OnOk result (least.new ≡ telling least.old (call_breaks messages.now (slice_get classes.now process.now.class) process.now.setup)) }
{
    let Some(class) = class_at(classes, process.class) else {
        return Ok(());
    };
    let Some(call) = &process.setup else {
        return Ok(());
    };
    let params = class.params.as_slice();
    let holds = args_fit(alloc, messages, class, params, call.args.as_slice())?;
    least.tell_unless(holds, call.line);
    Ok(())
}

// The class of this number, counted from 0.
fn class_at(classes: &[Class], number: u16) -> Option<&Class>
    ensures { MatchOption result (slice_get classes.now number ≡ None) (λ class. slice_get classes.now number ≡ Some class.now) }
{
    classes.get(usize::from(number))
}

// Whether arguments of `setup` fit the slots of the parameters.
fn args_fit(
    alloc: Global,
    messages: &[MessageDecl],
    class: &Class,
    params: &[u16],
    args: &[RExpr],
) -> Result<bool, NoMemory>
    ensures { IfOk result (λ holds. holds ≡ args_fitting messages.now class.now params.now args.now) }
{
    let known = Known::new(messages, class.slots.as_slice());
    let queries = class.queries.as_slice();
    let mut rest = args;
    for param in params {
        match rest {
            [] => return Ok(true),
            [x, others @ ..] => {
                if !fits_slot(alloc, &known, queries, *param, x)? {
                    return Ok(false);
                }
                rest = others;
            }
        }
    }
    Ok(true)
}
