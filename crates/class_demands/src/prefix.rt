//! What is demanded up to a line.
ghost use Rattle.std.specs.List.{list_any};
ghost use Rattle.std.specs.Prelude.{◌≡◌, ℕ, ◌==◌, if◌then◌else◌, ◌||◌, ◌<◌, List, [], ◌∷◌, ◌++◌, IfOk, OnOk, flat_map, length};
ghost use Rattle.class_demands.specs.Marks.{Marks, Puts, is_marked as has_mark};
ghost use Rattle.class_demands.specs.Prefix.{class_upto, demands_upto as demanded_upto, needed, seen, setup_upto, upto, with_head};
ghost use Rattle.type_demands.specs.declared.demand.Demand.{Demand};

use crate::demands::{ClassDemands, Head, ProgramDemands, SetupDemands};
use da_values::{List, NoMemory};
use std::alloc::Global;
use type_demands::{Demand, LineDemand};

/// All that a program demands up to a line, with what the headers demand whose slots are in use: from the last header to the
/// first, since a header uses the slots of those before it.
#[tactic(auto, unfolding(crate::specs::Prefix::demands_upto), using(crate::proofs::MarkLaws::parts))]
pub fn demands_upto<'d>(
    alloc: Global,
    line: u32,
    program: &'d ProgramDemands,
) -> Result<List<&'d Demand>, NoMemory>
    ensures { IfOk result (λ found. seen found ≡ demanded_upto line program.now) }
{
    let classes = program.classes.as_slice();
    let mut found = List::new(alloc);
    put_classes(classes, alloc, line, &mut found)?;
    put_setups(program.setups.as_slice(), alloc, line, classes, &mut found)?;
    Ok(found)
}

// Puts what classes demand up to a line.
#[tactic(auto, using(crate::proofs::MarkLaws::parts))]
fn put_classes<'d>(
    classes: &'d [ClassDemands],
    alloc: Global,
    line: u32,
    found: &mut List<&'d Demand>,
) -> Result<(), NoMemory>
    ensures { OnOk result (seen found.new ≡ seen found.old ++ flat_map (class_upto line) classes.now) }
{
    for class in classes {
        put_part(
            class.heads.as_slice(),
            class.demands.as_slice(),
            alloc,
            line,
            found,
        )?;
    }
    Ok(())
}

// Puts what lines of `setup` demand up to a line.
#[tactic(auto, using(crate::proofs::MarkLaws::parts))]
fn put_setups<'d>(
    setups: &'d [SetupDemands],
    alloc: Global,
    line: u32,
    classes: &'d [ClassDemands],
    found: &mut List<&'d Demand>,
) -> Result<(), NoMemory>
    ensures { OnOk result (seen found.new ≡ seen found.old ++ flat_map (setup_upto line classes.now) setups.now) }
{
    for setup in setups {
        put_setup(setup, alloc, line, classes, found)?;
    }
    Ok(())
}

// Puts what a line of `setup` demands up to a line.
fn put_setup<'d>(
    setup: &'d SetupDemands,
    alloc: Global,
    line: u32,
    classes: &'d [ClassDemands],
    found: &mut List<&'d Demand>,
) -> Result<(), NoMemory>
    ensures { OnOk result (seen found.new ≡ seen found.old ++ setup_upto line classes.now setup.now) }
{
    let demands = setup.demands.as_slice();
    match classes.get(usize::from(setup.class)) {
        None => {
            put_part(&[], demands, alloc, line, found)?;
            Ok(())
        }
        Some(class) => {
            put_part(class.heads.as_slice(), demands, alloc, line, found)?;
            Ok(())
        }
    }
}

// Puts what is demanded up to a line, with what the headers demand whose slots are in use.
#[tactic(auto, using(crate::proofs::MarkLaws::part_done))]
fn put_part<'d>(
    heads: &'d [Head],
    listed: &'d [LineDemand],
    alloc: Global,
    line: u32,
    found: &mut List<&'d Demand>,
) -> Result<(), NoMemory>
    ensures { OnOk result (seen found.new ≡ seen found.old ++ needed heads.now (upto line listed.now)) }
{
    let mut used = List::new(alloc);
    let mut part = List::new(alloc);
    put_upto(listed, line, &mut used, &mut part)?;
    put_needed(heads, &mut used, &mut part)?;
    put_found(part.as_slice(), found)?;
    Ok(())
}

// Puts demands after those that were found.
#[tactic(auto, using(crate::proofs::MarkLaws::parts))]
fn put_found<'d>(part: &[&'d Demand], found: &mut List<&'d Demand>) -> Result<(), NoMemory>
    ensures { OnOk result (seen found.new ≡ seen found.old ++ seen part.now) }
{
    for demand in part {
        found.push(*demand)?;
    }
    Ok(())
}

// Puts the demands on the lines up to this one.
#[tactic(auto, using(crate::proofs::MarkLaws::line_rules))]
fn put_upto<'d>(
    listed: &'d [LineDemand],
    line: u32,
    used: &mut List<bool>,
    found: &mut List<&'d Demand>,
) -> Result<(), NoMemory>
    ensures { OnOk result (Puts used.old (seen found.old) used.new (seen found.new) (upto line listed.now)) }
{
    for one in listed {
        put_line(one, line, used, found)?;
    }
    Ok(())
}

// Puts a demand, if its line is at most this one.
#[tactic(auto, using(crate::proofs::MarkLaws::one_rules))]
fn put_line<'d>(
    one: &'d LineDemand,
    line: u32,
    used: &mut List<bool>,
    found: &mut List<&'d Demand>,
) -> Result<(), NoMemory>
    ensures { OnOk result (Puts used.old (seen found.old) used.new (seen found.new) (upto line (one.now ∷ []))) }
{
    if one.line <= line {
        put_demand(&one.demand, used, found)?;
        Ok(())
    } else {
        Ok(())
    }
}

// Puts what the headers demand whose slots are in use, from the last to the first.
fn put_needed<'d>(
    heads: &'d [Head],
    used: &mut List<bool>,
    found: &mut List<&'d Demand>,
) -> Result<(), NoMemory>
    ensures { OnOk result (Marks used.old (seen found.old) → seen found.new ≡ needed heads.now (seen found.old)) }
{
    let mut left = heads.len();
    while left > 0 {
        left -= 1;
        put_head(&heads[left], used, found)?;
    }
    Ok(())
}

// Puts what a header demands, if one of its slots is in use.
#[tactic(auto, using(crate::proofs::MarkLaws::head_put))]
fn put_head<'d>(
    head: &'d Head,
    used: &mut List<bool>,
    found: &mut List<&'d Demand>,
) -> Result<(), NoMemory>
    ensures { OnOk result (Marks used.old (seen found.old) → (seen found.new ≡ with_head head.now (seen found.old)) × Marks used.new (seen found.new)) }
{
    let is_used = any_marked(head.binds.as_slice(), used.as_slice());
    put_where(is_used, head.demands.as_slice(), used, found)?;
    Ok(())
}

// Puts demands, if so.
#[tactic(auto, using(crate::proofs::MarkLaws::puts_none))]
fn put_where<'d>(
    holds: bool,
    demands: &'d [Demand],
    used: &mut List<bool>,
    found: &mut List<&'d Demand>,
) -> Result<(), NoMemory>
    ensures { OnOk result (Puts used.old (seen found.old) used.new (seen found.new) (if holds then demands.now else [])) }
{
    if holds {
        put_demands(demands, used, found)?;
        Ok(())
    } else {
        Ok(())
    }
}

// Puts demands.
#[tactic(auto, using(crate::proofs::MarkLaws::list_rules))]
fn put_demands<'d>(
    demands: &'d [Demand],
    used: &mut List<bool>,
    found: &mut List<&'d Demand>,
) -> Result<(), NoMemory>
    ensures { OnOk result (Puts used.old (seen found.old) used.new (seen found.new) demands.now) }
{
    for demand in demands {
        put_demand(demand, used, found)?;
    }
    Ok(())
}

// Puts a demand, and marks the slot that it uses.
fn put_demand<'d>(
    demand: &'d Demand,
    used: &mut List<bool>,
    found: &mut List<&'d Demand>,
) -> Result<(), NoMemory>
    ensures { OnOk result (Puts used.old (seen found.old) used.new (seen found.new) (demand.now ∷ [])) }
{
    mark_use(demand, used)?;
    found.push(demand)?;
    Ok(())
}

// Marks the slot that a demand uses, if it is a use.
fn mark_use(demand: &Demand, used: &mut List<bool>) -> Result<(), NoMemory>
    ensures { OnOk result ((demands : List Demand) → Marks used.old demands → Marks used.new (demands ++ demand.now ∷ [])) }
{
    match demand {
        Demand::Uses(slot) => {
            mark(*slot, used)?;
            Ok(())
        }
        _ => Ok(()),
    }
}

// Marks a slot.
fn mark(slot: u16, used: &mut List<bool>) -> Result<(), NoMemory>
    ensures { OnOk result ((k : ℕ) → has_mark used.new k ≡ (has_mark used.old k || k == slot)) }
{
    set_mark(usize::from(slot), used)?;
    Ok(())
}

// Sets the mark at a place.
#[tactic(auto, using(crate::proofs::MarkLaws::mark_put))]
fn set_mark(at: usize, used: &mut List<bool>) -> Result<(), NoMemory>
    ensures { OnOk result ((k : ℕ) → has_mark used.new k ≡ (has_mark used.old k || k == at)) }
{
    make_room(at, used)?;
    used.set(at, true);
    Ok(())
}

// Makes room for the mark of a slot.
fn make_room(at: usize, used: &mut List<bool>) -> Result<(), NoMemory>
    ensures within { OnOk result (at < length used.new) }
    ensures marks { OnOk result ((k : ℕ) → has_mark used.new k ≡ has_mark used.old k) }
{
    'room: while used.len() <= at {
        used.push(false)?;
    }
    Ok(())
}

// Whether one of these slots has a mark.
fn any_marked(binds: &[u16], used: &[bool]) -> bool
    ensures { result ≡ list_any (has_mark used.now) binds.now }
{
    for bind in binds {
        if is_marked(*bind, used) {
            return true;
        }
    }
    false
}

// Whether a slot has a mark.
fn is_marked(slot: u16, used: &[bool]) -> bool
    ensures { result ≡ has_mark used.now slot }
{
    match used.get(usize::from(slot)) {
        None => false,
        Some(marked) => *marked,
    }
}
