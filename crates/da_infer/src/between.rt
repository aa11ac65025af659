//! Which line another one clashes with. It serves messages alone, so no contract speaks of the line that is found.
ghost use Rattle.std.specs.Prelude.{◌≡◌};
ghost use Rattle.std.specs.List.{list_all};
ghost use Rattle.da_infer.specs.Fills.{IsLoose};
ghost use Rattle.da_infer.specs.Known as spec;

use crate::known::{known_count, knows};
use crate::places::places;
use crate::solving::{count_types, marked_program};
use crate::top::InferFault;
use class_demands::{ClassDemands, Head, ProgramDemands, SetupDemands, program_demands};
use da_lang::Program;
use da_parse::LooseTree;
use da_values::{List, NoMemory};
use std::alloc::Global;
use type_demands::{Demand, LineDemand};
use type_fitting::fitting;

/// Halving a range of 32 bits takes no more turns.
const MOST_TURNS: u32 = 33;

/// The last line such that no types meet what the lines from it to this one demand, or `None` where some types meet all of
/// it, or where a name or a limit is refused.
pub fn clashing_line(alloc: Global, loose: &LooseTree, line: u32) -> Result<Option<u32>, NoMemory>
    requires loose { IsLoose loose.now }
{
    let untyped = places(alloc, loose.untyped.as_slice())?;
    let count = count_types(loose, alloc, untyped.as_slice())?;
    match marked_program(alloc, loose, untyped.as_slice(), count) {
        Ok(program) => last_clash(alloc, &program, count, line),
        Err(InferFault::Memory) => Err(NoMemory),
        Err(_) => Ok(None),
    }
}

// The last line from which on no types meet what is demanded up to this one. Fewer lines demand less, so it halves them.
fn last_clash(
    alloc: Global,
    program: &Program,
    count: usize,
    line: u32,
) -> Result<Option<u32>, NoMemory> {
    let demands = program_demands(alloc, program)?;
    let known = known_count(&demands, count)?;
    if fit_between(alloc, known, &demands, 0, line)? {
        return Ok(None);
    }
    let mut low = 0;
    let mut high = line.saturating_add(1);
    for _turn in 0..MOST_TURNS {
        let apart = high.saturating_sub(low);
        if apart > 1 {
            let middle = low.saturating_add(apart / 2);
            if fit_between(alloc, known, &demands, middle, line)? {
                high = middle;
            } else {
                low = middle;
            }
        }
    }
    Ok(Some(low))
}

// Whether some types meet what is demanded on the lines from one to another.
fn fit_between(
    alloc: Global,
    count: usize,
    demands: &ProgramDemands,
    from: u32,
    upto: u32,
) -> Result<bool, NoMemory> {
    let mut asked = List::new(alloc);
    put_classes(demands.classes.as_slice(), alloc, from, upto, &mut asked)?;
    put_setups(
        demands.setups.as_slice(),
        alloc,
        demands.classes.as_slice(),
        from,
        upto,
        &mut asked,
    )?;
    fit(alloc, count, asked.as_slice())
}

// Whether some types meet demands. A demand of another unknown type, which none has, is refused like memory.
fn fit(alloc: Global, count: usize, asked: &[&Demand]) -> Result<bool, NoMemory> {
    if are_known(asked, count) {
        let found = fitting(alloc, count, asked)?;
        Ok(found.is_some())
    } else {
        Err(NoMemory)
    }
}

fn are_known(asked: &[&Demand], count: usize) -> bool
    ensures { result ≡ list_all (λ x. spec.knows count x.now) asked.now }
{
    for demand in asked {
        if !knows(demand, count) {
            return false;
        }
    }
    true
}

fn put_classes<'d>(
    classes: &'d [ClassDemands],
    alloc: Global,
    from: u32,
    upto: u32,
    found: &mut List<&'d Demand>,
) -> Result<(), NoMemory> {
    for class in classes {
        put_part(
            class.heads.as_slice(),
            class.demands.as_slice(),
            alloc,
            from,
            upto,
            found,
        )?;
    }
    Ok(())
}

fn put_setups<'d>(
    setups: &'d [SetupDemands],
    alloc: Global,
    classes: &'d [ClassDemands],
    from: u32,
    upto: u32,
    found: &mut List<&'d Demand>,
) -> Result<(), NoMemory> {
    for setup in setups {
        let demands = setup.demands.as_slice();
        match classes.get(usize::from(setup.class)) {
            Some(class) => put_part(class.heads.as_slice(), demands, alloc, from, upto, found)?,
            None => put_part(&[], demands, alloc, from, upto, found)?,
        }
    }
    Ok(())
}

// What is listed on these lines, with what the headers demand whose slots are in use.
fn put_part<'d>(
    heads: &'d [Head],
    listed: &'d [LineDemand],
    alloc: Global,
    from: u32,
    upto: u32,
    found: &mut List<&'d Demand>,
) -> Result<(), NoMemory> {
    let mut used = List::new(alloc);
    for one in listed {
        if from <= one.line && one.line <= upto {
            put_demand(&one.demand, &mut used, found)?;
        }
    }
    put_heads(heads, &mut used, found)
}

// From the last header to the first, since a header uses the slots of those before it.
fn put_heads<'d>(
    heads: &'d [Head],
    used: &mut List<bool>,
    found: &mut List<&'d Demand>,
) -> Result<(), NoMemory> {
    let mut left = heads.len();
    'heads: while left > 0 {
        left -= 1;
        if let Some(head) = heads.get(left) {
            put_head(head, used, found)?;
        }
    }
    Ok(())
}

fn put_head<'d>(
    head: &'d Head,
    used: &mut List<bool>,
    found: &mut List<&'d Demand>,
) -> Result<(), NoMemory> {
    if is_used(head.binds.as_slice(), used.as_slice()) {
        for demand in head.demands.as_slice() {
            put_demand(demand, used, found)?;
        }
    }
    Ok(())
}

fn is_used(slots: &[u16], used: &[bool]) -> bool {
    for slot in slots {
        if let Some(true) = used.get(usize::from(*slot)) {
            return true;
        }
    }
    false
}

fn put_demand<'d>(
    demand: &'d Demand,
    used: &mut List<bool>,
    found: &mut List<&'d Demand>,
) -> Result<(), NoMemory> {
    if let Demand::Uses(slot) = demand {
        mark(usize::from(*slot), used)?;
    }
    found.push(demand)
}

fn mark(slot: usize, used: &mut List<bool>) -> Result<(), NoMemory> {
    for _turn in used.len()..slot.saturating_add(1) {
        used.push(false)?;
    }
    if slot < used.len() {
        used.set(slot, true);
    }
    Ok(())
}
