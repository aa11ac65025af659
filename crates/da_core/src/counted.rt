//! Updates of kept answers, each with a counter of steps that nobody looks at. Those that are handed a counter take no more steps
//! than their work: no node of the plan names a slot into whose set an element comes, or from which one leaves.
ghost use Rattle.da_lang.specs.World.{Data};
ghost use Rattle.da_values.specs.Value.{val_of};
ghost use Rattle.delta_rules.specs.Counting.{NoneNames, Unnamed};
ghost use Rattle.delta_rules.specs.Entering.{coming};
ghost use Rattle.delta_rules.specs.Holding.{ids_of_answers};
ghost use Rattle.delta_rules.specs.Keeping.{Keeps};
ghost use Rattle.delta_rules.specs.Laid.{IsLaid};
ghost use Rattle.query_plan.specs.Nodes.{IsPlan};
ghost use Rattle.query_plan.specs.PlainNodes.{PlainNodes};
ghost use Rattle.query_plan.specs.Updates.{Assigns, Leaves, after};
ghost use Rattle.query_plan.specs.Work.{work};
ghost use Rattle.row_pool.specs.Pool.{HoldsAll};
ghost use Rattle.std.specs.Prelude.{◌≡◌, ◌+◌, ◌<◌, ◌≤◌, ℕ, OnOk};

use da_lang::Source;
use da_values::{NoMemory, Steps, Value};
use delta_rules::Answers;
use query_plan::Plan;
use row_pool::Pool;
use std::alloc::Global;
use std::marker::Brand;
use std::sync::ledger::{Blank, Ledger};

/// An element comes into a source. For a history the peer is the other process.
pub fn insert(
    alloc: Global,
    plan: &Plan,
    source: Source,
    v: &Value,
    peer: u16,
    answers: &mut Answers,
    pool: &mut Pool,
) -> Result<(), NoMemory>
    requires plan { IsPlan plan.now.nodes }
    requires plain { PlainNodes plan.now.nodes }
    requires laid { IsLaid answers.old pool.old plan.now.nodes }
    requires held { HoldsAll pool.old (ids_of_answers answers.old) }
    requires spared { Unnamed source plan.now.nodes }
    ensures kept { OnOk result ((d : Data) (time : ℕ) → Keeps answers.old pool.old plan.now.nodes d
        → Keeps answers.new pool.new plan.now.nodes (after (coming source (val_of v.now) peer time) d)) }
    ensures laid { OnOk result (IsLaid answers.new pool.new plan.now.nodes) }
    ensures held { OnOk result (HoldsAll pool.new (ids_of_answers answers.new)) }
{
    insert_by::<Brand>(alloc, plan, source, v, peer, answers, pool, Blank::new(1))?;
    Ok(())
}

// The same with the ledger of the counter.
fn insert_by<L: Ledger>(
    alloc: Global,
    plan: &Plan,
    source: Source,
    v: &Value,
    peer: u16,
    answers: &mut Answers,
    pool: &mut Pool,
    blank: Blank,
) -> Result<(), NoMemory>
    requires plan { IsPlan plan.now.nodes }
    requires plain { PlainNodes plan.now.nodes }
    requires laid { IsLaid answers.old pool.old plan.now.nodes }
    requires held { HoldsAll pool.old (ids_of_answers answers.old) }
    requires spared { Unnamed source plan.now.nodes }
    requires name { blank.name ≡ L.name }
    requires parts { blank.parts ≡ L.parts }
    requires some { 0 < blank.parts }
    ensures kept { OnOk result ((d : Data) (time : ℕ) → Keeps answers.old pool.old plan.now.nodes d
        → Keeps answers.new pool.new plan.now.nodes (after (coming source (val_of v.now) peer time) d)) }
    ensures laid { OnOk result (IsLaid answers.new pool.new plan.now.nodes) }
    ensures held { OnOk result (HoldsAll pool.new (ids_of_answers answers.new)) }
{
    let mut steps = Steps::<L>::new(blank);
    insert_counted(alloc, plan, source, v, peer, answers, pool, &mut steps)?;
    Ok(())
}

// The same with the counter.
fn insert_counted<L: Ledger>(
    alloc: Global,
    plan: &Plan,
    source: Source,
    v: &Value,
    peer: u16,
    answers: &mut Answers,
    pool: &mut Pool,
    steps: &mut Steps<L>,
) -> Result<(), NoMemory>
    requires plan { IsPlan plan.now.nodes }
    requires plain { PlainNodes plan.now.nodes }
    requires laid { IsLaid answers.old pool.old plan.now.nodes }
    requires held { HoldsAll pool.old (ids_of_answers answers.old) }
    requires spared { Unnamed source plan.now.nodes }
    ensures kept { OnOk result ((d : Data) (time : ℕ) → Keeps answers.old pool.old plan.now.nodes d
        → Keeps answers.new pool.new plan.now.nodes (after (coming source (val_of v.now) peer time) d)) }
    ensures steps { (d : Data) (time : ℕ) → Keeps answers.old pool.old plan.now.nodes d
        → steps.new ≤ steps.old + work (coming source (val_of v.now) peer time) d plan.now.nodes }
    ensures laid { OnOk result (IsLaid answers.new pool.new plan.now.nodes) }
    ensures held { OnOk result (HoldsAll pool.new (ids_of_answers answers.new)) }
{
    answers.insert_element(alloc, plan, source, v, peer, pool, steps)?;
    Ok(())
}

/// An element leaves the set of a slot.
pub fn remove(
    alloc: Global,
    plan: &Plan,
    slot: u16,
    v: &Value,
    answers: &mut Answers,
    pool: &mut Pool,
) -> Result<(), NoMemory>
    requires plan { IsPlan plan.now.nodes }
    requires plain { PlainNodes plan.now.nodes }
    requires laid { IsLaid answers.old pool.old plan.now.nodes }
    requires held { HoldsAll pool.old (ids_of_answers answers.old) }
    requires spared { NoneNames slot plan.now.nodes }
    ensures kept { OnOk result ((d : Data) → Keeps answers.old pool.old plan.now.nodes d
        → Keeps answers.new pool.new plan.now.nodes (after (Leaves slot (val_of v.now)) d)) }
    ensures laid { OnOk result (IsLaid answers.new pool.new plan.now.nodes) }
    ensures held { OnOk result (HoldsAll pool.new (ids_of_answers answers.new)) }
{
    remove_by::<Brand>(alloc, plan, slot, v, answers, pool, Blank::new(1))?;
    Ok(())
}

// The same with the ledger of the counter.
fn remove_by<L: Ledger>(
    alloc: Global,
    plan: &Plan,
    slot: u16,
    v: &Value,
    answers: &mut Answers,
    pool: &mut Pool,
    blank: Blank,
) -> Result<(), NoMemory>
    requires plan { IsPlan plan.now.nodes }
    requires plain { PlainNodes plan.now.nodes }
    requires laid { IsLaid answers.old pool.old plan.now.nodes }
    requires held { HoldsAll pool.old (ids_of_answers answers.old) }
    requires spared { NoneNames slot plan.now.nodes }
    requires name { blank.name ≡ L.name }
    requires parts { blank.parts ≡ L.parts }
    requires some { 0 < blank.parts }
    ensures kept { OnOk result ((d : Data) → Keeps answers.old pool.old plan.now.nodes d
        → Keeps answers.new pool.new plan.now.nodes (after (Leaves slot (val_of v.now)) d)) }
    ensures laid { OnOk result (IsLaid answers.new pool.new plan.now.nodes) }
    ensures held { OnOk result (HoldsAll pool.new (ids_of_answers answers.new)) }
{
    let mut steps = Steps::<L>::new(blank);
    remove_counted(alloc, plan, slot, v, answers, pool, &mut steps)?;
    Ok(())
}

// The same with the counter.
fn remove_counted<L: Ledger>(
    alloc: Global,
    plan: &Plan,
    slot: u16,
    v: &Value,
    answers: &mut Answers,
    pool: &mut Pool,
    steps: &mut Steps<L>,
) -> Result<(), NoMemory>
    requires plan { IsPlan plan.now.nodes }
    requires plain { PlainNodes plan.now.nodes }
    requires laid { IsLaid answers.old pool.old plan.now.nodes }
    requires held { HoldsAll pool.old (ids_of_answers answers.old) }
    requires spared { NoneNames slot plan.now.nodes }
    ensures kept { OnOk result ((d : Data) → Keeps answers.old pool.old plan.now.nodes d
        → Keeps answers.new pool.new plan.now.nodes (after (Leaves slot (val_of v.now)) d)) }
    ensures steps { (d : Data) → Keeps answers.old pool.old plan.now.nodes d
        → steps.new ≤ steps.old + work (Leaves slot (val_of v.now)) d plan.now.nodes }
    ensures laid { OnOk result (IsLaid answers.new pool.new plan.now.nodes) }
    ensures held { OnOk result (HoldsAll pool.new (ids_of_answers answers.new)) }
{
    answers.remove_element(alloc, plan, slot, v, pool, steps)?;
    Ok(())
}

/// A slot is assigned.
pub fn assign(
    alloc: Global,
    plan: &Plan,
    slot: u16,
    v: &Value,
    answers: &mut Answers,
    pool: &mut Pool,
) -> Result<(), NoMemory>
    requires plan { IsPlan plan.now.nodes }
    requires plain { PlainNodes plan.now.nodes }
    requires laid { IsLaid answers.old pool.old plan.now.nodes }
    requires held { HoldsAll pool.old (ids_of_answers answers.old) }
    ensures kept { OnOk result ((d : Data) → Keeps answers.old pool.old plan.now.nodes d
        → Keeps answers.new pool.new plan.now.nodes (after (Assigns slot (val_of v.now)) d)) }
    ensures laid { OnOk result (IsLaid answers.new pool.new plan.now.nodes) }
    ensures held { OnOk result (HoldsAll pool.new (ids_of_answers answers.new)) }
{
    assign_by::<Brand>(alloc, plan, slot, v, answers, pool, Blank::new(1))?;
    Ok(())
}

// The same with the ledger of the counter.
fn assign_by<L: Ledger>(
    alloc: Global,
    plan: &Plan,
    slot: u16,
    v: &Value,
    answers: &mut Answers,
    pool: &mut Pool,
    blank: Blank,
) -> Result<(), NoMemory>
    requires plan { IsPlan plan.now.nodes }
    requires plain { PlainNodes plan.now.nodes }
    requires laid { IsLaid answers.old pool.old plan.now.nodes }
    requires held { HoldsAll pool.old (ids_of_answers answers.old) }
    requires name { blank.name ≡ L.name }
    requires parts { blank.parts ≡ L.parts }
    requires some { 0 < blank.parts }
    ensures kept { OnOk result ((d : Data) → Keeps answers.old pool.old plan.now.nodes d
        → Keeps answers.new pool.new plan.now.nodes (after (Assigns slot (val_of v.now)) d)) }
    ensures laid { OnOk result (IsLaid answers.new pool.new plan.now.nodes) }
    ensures held { OnOk result (HoldsAll pool.new (ids_of_answers answers.new)) }
{
    let mut steps = Steps::<L>::new(blank);
    assign_counted(alloc, plan, slot, v, answers, pool, &mut steps)?;
    Ok(())
}

// The same with the counter.
fn assign_counted<L: Ledger>(
    alloc: Global,
    plan: &Plan,
    slot: u16,
    v: &Value,
    answers: &mut Answers,
    pool: &mut Pool,
    steps: &mut Steps<L>,
) -> Result<(), NoMemory>
    requires plan { IsPlan plan.now.nodes }
    requires plain { PlainNodes plan.now.nodes }
    requires laid { IsLaid answers.old pool.old plan.now.nodes }
    requires held { HoldsAll pool.old (ids_of_answers answers.old) }
    ensures kept { OnOk result ((d : Data) → Keeps answers.old pool.old plan.now.nodes d
        → Keeps answers.new pool.new plan.now.nodes (after (Assigns slot (val_of v.now)) d)) }
    ensures steps { (d : Data) → Keeps answers.old pool.old plan.now.nodes d
        → steps.new ≤ steps.old + work (Assigns slot (val_of v.now)) d plan.now.nodes }
    ensures laid { OnOk result (IsLaid answers.new pool.new plan.now.nodes) }
    ensures held { OnOk result (HoldsAll pool.new (ids_of_answers answers.new)) }
{
    answers.set_slot(alloc, plan, slot, v, pool, steps)?;
    Ok(())
}
