//! The labels of a class by their names.
ghost use Rattle.da_scope.specs.LabelsView.{HasNumbers, names_in, names_of, names_of_branch, names_of_branches, names_of_member, names_within, number_among, number_in};
ghost use Rattle.da_scope.specs.NamesView.{texts};
ghost use Rattle.std.specs.Option.{option_or};
ghost use Rattle.std.specs.Prelude.{◌≡◌, ◌++◌, ℕ, suc, List, None, Some, IfOk, OnOk, bytes_eq, if◌then◌else◌};

use crate::bodies::whole_body;
use da_lang::{Branch, ClassTree, Member, Stmt};
use da_values::{List, NoMemory};
use std::alloc::Global;
use std::collections::BTreeMap;

/// The map from names to the number of the first label of each in a class. Labels are numbered from 1, in text order.
pub type Numbers<'t> = BTreeMap<&'t [u8], u32>;

/// The numbers of the labels of a class, those in methods that nothing calls among them, in time in step with its text.
pub fn numbers_of<'t>(alloc: Global, class: &'t ClassTree) -> Result<Numbers<'t>, NoMemory>
    ensures { IfOk result (λ numbers. HasNumbers numbers class.now) }
{
    let names = labels_in(alloc, class)?;
    let numbers = numbered(alloc, names.as_slice())?;
    Ok(numbers)
}

/// The number that a map has at a name.
pub fn number_at(numbers: &Numbers<'_>, name: &[u8]) -> Option<u32>
    ensures { result ≡ number_in numbers.now name.now }
{
    match numbers.get(name) {
        Some(number) => Some(*number),
        None => None,
    }
}

// The place of the first of each name among names, counted from 1.
fn numbered<'t>(alloc: Global, names: &[&'t [u8]]) -> Result<Numbers<'t>, NoMemory>
    ensures { IfOk result (λ numbers. (q : List ℕ) → number_in numbers q ≡ number_among (texts names.now) q) }
{
    let mut numbers = no_numbers(alloc);
    let mut number = 0u32;
    for name in names {
        number = next(number)?;
        put_number(*name, number, &mut numbers)?;
    }
    Ok(numbers)
}

// No label.
fn no_numbers<'t>(alloc: Global) -> Numbers<'t>
    ensures { (q : List ℕ) → number_in result q ≡ None }
{
    BTreeMap::new(alloc)
}

// The next number.
fn next(number: u32) -> Result<u32, NoMemory>
    ensures { IfOk result (λ following. following ≡ suc number) }
{
    match number.checked_add(1) {
        Some(following) => Ok(following),
        None => Err(NoMemory),
    }
}

// A name gets a number, where it has none.
fn put_number<'t>(name: &'t [u8], number: u32, numbers: &mut Numbers<'t>) -> Result<(), NoMemory>
    ensures { OnOk result ((q : List ℕ) → number_in numbers.new q ≡ option_or (number_in numbers.old q) (if bytes_eq name.now q then Some number else None)) }
{
    match number_at(numbers, name) {
        Some(_) => Ok(()),
        None => set_number(name, number, numbers),
    }
}

// A name has this number from now on.
fn set_number<'t>(name: &'t [u8], number: u32, numbers: &mut Numbers<'t>) -> Result<(), NoMemory>
    ensures { OnOk result ((q : List ℕ) → number_in numbers.new q ≡ (if bytes_eq name.now q then Some number else number_in numbers.old q)) }
{
    match numbers.insert(name, number) {
        Ok(_) => Ok(()),
        Err(_) => Err(NoMemory),
    }
}

// The names of the labels in a class.
#[tactic(auto, unfolding(crate::specs::LabelsView::names_within))]
fn labels_in<'t>(alloc: Global, class: &'t ClassTree) -> Result<List<&'t [u8]>, NoMemory>
    ensures { IfOk result (λ names. texts names ≡ names_within class.now.members) }
{
    let mut names = List::new(alloc);
    for member in class.members.as_slice() {
        put_labels_within(member, &mut names)?;
    }
    Ok(names)
}

// Adds the names of the labels in a member.
#[tactic(auto, unfolding(crate::specs::LabelsView::names_of_member))]
fn put_labels_within<'t>(member: &'t Member, names: &mut List<&'t [u8]>) -> Result<(), NoMemory>
    ensures { OnOk result (texts names.new ≡ texts names.old ++ names_of_member member.now) }
{
    put_labels(whole_body(member).stmts, names)
}

// Adds the names of the labels in statements.
#[cycle(labels)]
#[tactic(auto, using(crate::proofs::LabelsAt::list_rules), unfolding(crate::specs::LabelsView::names_in))]
fn put_labels<'t>(stmts: &'t [Stmt], names: &mut List<&'t [u8]>) -> Result<(), NoMemory>
    ensures { OnOk result (texts names.new ≡ texts names.old ++ names_in stmts.now) }
{
    for stmt in stmts {
        put_labels_of(stmt, names)?;
    }
    Ok(())
}

// The same for one statement.
#[cycle(labels)]
#[tactic(auto, using(crate::proofs::LabelsAt::stmt_rules))]
fn put_labels_of<'t>(stmt: &'t Stmt, names: &mut List<&'t [u8]>) -> Result<(), NoMemory>
    ensures { OnOk result (texts names.new ≡ texts names.old ++ names_of stmt.now) }
{
    match stmt {
        Stmt::Label { name, .. } => names.push(name.as_slice()),
        Stmt::If {
            branches,
            otherwise,
            ..
        } => {
            put_labels_of_branches(branches.as_slice(), names)?;
            match otherwise {
                None => Ok(()),
                Some(body) => put_labels(body.as_slice(), names),
            }
        }
        Stmt::While { body, .. } => put_labels(body.as_slice(), names),
        Stmt::For { body, .. } => put_labels(body.as_slice(), names),
        Stmt::Await { alts, timeout, .. } => {
            put_labels_of_branches(alts.as_slice(), names)?;
            match timeout {
                None => Ok(()),
                Some(late) => put_labels(late.body.as_slice(), names),
            }
        }
        Stmt::Assign { .. }
        | Stmt::Add { .. }
        | Stmt::Del { .. }
        | Stmt::Send { .. }
        | Stmt::Output { .. }
        | Stmt::Pass { .. }
        | Stmt::Call { .. }
        | Stmt::AwaitOne { .. } => Ok(()),
    }
}

// The same for conditions with their blocks.
#[cycle(labels)]
#[tactic(auto, using(crate::proofs::LabelsAt::list_rules), unfolding(crate::specs::LabelsView::names_of_branches))]
fn put_labels_of_branches<'t>(
    branches: &'t [Branch],
    names: &mut List<&'t [u8]>,
) -> Result<(), NoMemory>
    ensures { OnOk result (texts names.new ≡ texts names.old ++ names_of_branches branches.now) }
{
    for branch in branches {
        put_labels_of_branch(branch, names)?;
    }
    Ok(())
}

// The same for a condition with its block.
#[cycle(labels)]
#[tactic(auto, using(crate::proofs::LabelsAt::branch_rules))]
fn put_labels_of_branch<'t>(branch: &'t Branch, names: &mut List<&'t [u8]>) -> Result<(), NoMemory>
    ensures { OnOk result (texts names.new ≡ texts names.old ++ names_of_branch branch.now) }
{
    put_labels(branch.body.as_slice(), names)
}
