//! Which slots the nodes of a plan use. They are noted in a list, each once.
ghost use Rattle.da_lang.specs.Naming.{gen_names, names, pattern_names};
ghost use Rattle.delta_rules.specs.Naming.{cond_names, operand_names, part_names};
ghost use Rattle.delta_rules.specs.SlotUse.{Adds, AreNamed, ListsNamed, goes_over, is_listed as is_listed_def, is_set_of, is_used, uses};
ghost use Rattle.query_plan.specs.PlainNodes.{ArePlain, ArePlainSigned, PlainNodes, is_plain, is_plain_node, is_plain_operand};
ghost use Rattle.query_plan.specs.PlanTerms.{default_terms, named_in, node_names, term_if};
ghost use Rattle.std.specs.List.{list_any};
ghost use Rattle.std.specs.Prelude.{◌≡◌, ◌==◌, ◌∷◌, ◌||◌, ℕ, IfOk, OnOk, true};

use da_lang::{AggOp, Cond, Node, Operand, Pattern, RGen, SignedOperand, Source, Term};
use da_values::{List, NoMemory};
use std::alloc::Global;

/// Whether a slot is in a list of slots. It takes no memory.
pub fn is_listed(slots: &[u16], slot: u16) -> bool
    ensures { result ≡ is_listed_def slot slots.now }
{
    for other in slots {
        if *other == slot {
            return true;
        }
    }
    false
}

// Notes a slot.
fn note_slot(slots: &mut List<u16>, slot: u16) -> Result<(), NoMemory>
    ensures { OnOk result (Adds (λ s. slot == s) slots.old slots.new) }
{
    if is_listed(slots.as_slice(), slot) {
        return Ok(());
    }
    slots.push(slot)
}

// Notes the slots that stand in a term.
#[cycle(terms)]
fn note_term(term: &Term, slots: &mut List<u16>) -> Result<(), NoMemory>
    ensures { OnOk result (Adds (λ s. names s term.now) slots.old slots.new) }
{
    match term {
        Term::Const(_) => Ok(()),
        Term::Me => Ok(()),
        Term::Slot(slot) => note_slot(slots, *slot),
        Term::Part(_) => Ok(()),
        Term::Tuple(parts) => note_terms(parts.as_slice(), slots),
        Term::Foreign => Ok(()),
    }
}

// Those in some terms.
#[cycle(terms)]
fn note_terms(terms: &[Term], slots: &mut List<u16>) -> Result<(), NoMemory>
    ensures { OnOk result (Adds (λ s. list_any (names s) terms.now) slots.old slots.new) }
{
    for term in terms {
        note_term(term, slots)?;
    }
    Ok(())
}

// Those in a pattern.
#[cycle(patterns)]
fn note_pattern(pattern: &Pattern, slots: &mut List<u16>) -> Result<(), NoMemory>
    ensures { OnOk result (Adds (λ s. pattern_names s pattern.now) slots.old slots.new) }
{
    match pattern {
        Pattern::Any => Ok(()),
        Pattern::Bind => Ok(()),
        Pattern::Const(_) => Ok(()),
        Pattern::Me => Ok(()),
        Pattern::Equal(term) => note_term(term, slots),
        Pattern::Tuple(parts) => note_patterns(parts.as_slice(), slots),
    }
}

// Those in some patterns.
#[cycle(patterns)]
fn note_patterns(patterns: &[Pattern], slots: &mut List<u16>) -> Result<(), NoMemory>
    ensures { OnOk result (Adds (λ s. list_any (pattern_names s) patterns.now) slots.old slots.new) }
{
    for pattern in patterns {
        note_pattern(pattern, slots)?;
    }
    Ok(())
}

// The slot over whose set a generator goes, if it does.
fn note_source(source: Source, slots: &mut List<u16>) -> Result<(), NoMemory>
    ensures { OnOk result (Adds (λ s. is_set_of s source) slots.old slots.new) }
{
    match source {
        Source::Slot(slot) => note_slot(slots, slot),
        _ => Ok(()),
    }
}

// The slots in the patterns of a generator.
fn note_gen(gen_: &RGen, slots: &mut List<u16>) -> Result<(), NoMemory>
    ensures { OnOk result (Adds (λ s. gen_names s gen_.now) slots.old slots.new) }
{
    note_pattern(&gen_.message, slots)?;
    note_pattern(&gen_.peer, slots)?;
    Ok(())
}

// Those in a condition.
#[cycle(conditions)]
#[tactic(auto, using(crate::proofs::NamingAt::naming_rules))]
fn note_condition(condition: &Cond, slots: &mut List<u16>) -> Result<(), NoMemory>
    requires { is_plain condition.now ≡ true }
    ensures { OnOk result (Adds (λ s. cond_names s condition.now) slots.old slots.new) }
{
    match condition {
        Cond::Truth(term) => note_term(term, slots),
        Cond::Cmp(_, left, right) => note_sides(left.get(), right.get(), slots),
        Cond::Not(condition) => note_condition(condition.get(), slots),
        Cond::And(conditions) => note_conditions(conditions.as_slice(), slots),
        Cond::Or(conditions) => note_conditions(conditions.as_slice(), slots),
        Cond::Quant { .. } => unreachable!(),
    }
}

// Those in some conditions.
#[cycle(conditions)]
fn note_conditions(conditions: &[Cond], slots: &mut List<u16>) -> Result<(), NoMemory>
    requires { ArePlain conditions.now }
    ensures { OnOk result (Adds (λ s. list_any (cond_names s) conditions.now) slots.old slots.new) }
{
    for condition in conditions {
        note_condition(condition, slots)?;
    }
    Ok(())
}

// Those in the two sides of a comparison.
fn note_sides(left: &Operand, right: &Operand, slots: &mut List<u16>) -> Result<(), NoMemory>
    requires left { is_plain_operand left.now ≡ true }
    requires right { is_plain_operand right.now ≡ true }
    ensures { OnOk result (Adds (λ s. operand_names s left.now || operand_names s right.now) slots.old slots.new) }
{
    note_operand(left, slots)?;
    note_operand(right, slots)?;
    Ok(())
}

// Those in a side of a comparison.
#[cycle(operands)]
#[tactic(auto, using(crate::proofs::NamingAt::naming_rules))]
fn note_operand(operand: &Operand, slots: &mut List<u16>) -> Result<(), NoMemory>
    requires { is_plain_operand operand.now ≡ true }
    ensures { OnOk result (Adds (λ s. operand_names s operand.now) slots.old slots.new) }
{
    match operand {
        Operand::Term(term) => note_term(term, slots),
        Operand::Chain(first, more) => {
            note_operand(first.get(), slots)?;
            note_more(more.as_slice(), slots)
        }
        Operand::Agg(_) => unreachable!(),
    }
}

// Those in the further operands of a chain.
#[cycle(operands)]
fn note_more(more: &[SignedOperand], slots: &mut List<u16>) -> Result<(), NoMemory>
    requires { ArePlainSigned more.now }
    ensures { OnOk result (Adds (λ s. list_any (part_names s) more.now) slots.old slots.new) }
{
    for signed in more {
        note_operand(signed.operand.get(), slots)?;
    }
    Ok(())
}

// Those in a term that may be left out.
fn note_other(other: &Option<Term>, slots: &mut List<u16>) -> Result<(), NoMemory>
    ensures { OnOk result (Adds (λ s. named_in s (term_if other.now)) slots.old slots.new) }
{
    match other {
        Some(term) => note_term(term, slots),
        None => Ok(()),
    }
}

// Those in the default of an aggregate.
fn note_default(op: AggOp, other: &Option<Term>, slots: &mut List<u16>) -> Result<(), NoMemory>
    ensures { OnOk result (Adds (λ s. named_in s (default_terms op other.now)) slots.old slots.new) }
{
    match op {
        AggOp::Count => Ok(()),
        AggOp::Sum => Ok(()),
        AggOp::Min => note_other(other, slots),
        AggOp::Max => note_other(other, slots),
    }
}

// Those in the term and the default of an aggregate.
fn note_aggregate(
    op: AggOp,
    term: &Term,
    other: &Option<Term>,
    slots: &mut List<u16>,
) -> Result<(), NoMemory>
    ensures { OnOk result (Adds (λ s. named_in s (term.now ∷ default_terms op other.now)) slots.old slots.new) }
{
    note_term(term, slots)?;
    note_default(op, other, slots)?;
    Ok(())
}

// Those that a node names.
fn note_named(node: &Node, slots: &mut List<u16>) -> Result<(), NoMemory>
    requires { is_plain_node node.now ≡ true }
    ensures { OnOk result (Adds (λ s. node_names s node.now) slots.old slots.new) }
{
    match node {
        Node::Root => Ok(()),
        Node::Gen { gen_, .. } => note_gen(gen_, slots),
        Node::Filter { cond, .. } => note_condition(cond.get(), slots),
        Node::Semi { .. } => Ok(()),
        Node::Anti { .. } => Ok(()),
        Node::Union { .. } => Ok(()),
        Node::AggBind {
            op,
            term,
            other,
            ..
        } => note_aggregate(*op, term, other, slots),
    }
}

// The one over whose set a node goes, if it does.
fn note_over(node: &Node, slots: &mut List<u16>) -> Result<(), NoMemory>
    ensures { OnOk result (Adds (λ s. goes_over s node.now) slots.old slots.new) }
{
    match node {
        Node::Gen { gen_, .. } => note_source(gen_.source, slots),
        _ => Ok(()),
    }
}

// Those that a node uses.
fn note_node(node: &Node, slots: &mut List<u16>) -> Result<(), NoMemory>
    requires { is_plain_node node.now ≡ true }
    ensures { OnOk result (Adds (λ s. uses s node.now) slots.old slots.new) }
{
    note_named(node, slots)?;
    note_over(node, slots)?;
    Ok(())
}

// The slots that a node names, each once.
fn named_slots(alloc: Global, node: &Node) -> Result<List<u16>, NoMemory>
    requires { is_plain_node node.now ≡ true }
    ensures { IfOk result (λ slots. ListsNamed node.now slots) }
{
    let mut slots = List::new(alloc);
    note_named(node, &mut slots)?;
    Ok(slots)
}

/// For each node of a plan the slots that it names, each once.
pub fn all_named(alloc: Global, nodes: &[Node]) -> Result<List<List<u16>>, NoMemory>
    requires { PlainNodes nodes.now }
    ensures { IfOk result (λ lists. AreNamed nodes.now lists) }
{
    let mut lists = List::new(alloc);
    for node in nodes {
        lists.push(named_slots(alloc, node)?)?;
    }
    Ok(lists)
}

/// The slots that the nodes of a plan use, each once.
pub fn used_slots(alloc: Global, nodes: &[Node]) -> Result<List<u16>, NoMemory>
    requires { PlainNodes nodes.now }
    ensures { IfOk result (λ slots. (s : ℕ) → is_listed_def s slots ≡ is_used s nodes.now) }
{
    let mut slots = List::new(alloc);
    for node in nodes {
        note_node(node, &mut slots)?;
    }
    Ok(slots)
}
