//! The names of the variables of classes.
ghost use Rattle.da_lang.specs.ClassParts.{variable_in};
ghost use Rattle.run_page.specs.RunRows.{names_by_process, names_for, names_in};
ghost use Rattle.std.specs.Prelude.{◌≡◌, ◌++◌, ◌∷◌, [], filter_map, map, IfOk, OnOk};

use crate::cells::add_copy;
use da_lang::{ClassTree, Member, ProcDecl, Program, Tree};
use da_values::{Buf, List, NoMemory};
use std::alloc::Global;

/// The variables of each process of a program, by the tree of its text.
pub(crate) fn names_of_processes(
    alloc: Global,
    program: &Program,
    tree: &Tree,
) -> Result<List<List<Buf>>, NoMemory>
    ensures { IfOk result (λ names. names ≡ names_by_process program.now tree.now) }
{
    let mut names = List::new(alloc);
    for decl in program.procs.as_slice() {
        let own = names_of_process(alloc, decl, tree)?;
        names.push(own)?;
    }
    Ok(names)
}

// The variables of one process.
fn names_of_process(alloc: Global, decl: &ProcDecl, tree: &Tree) -> Result<List<Buf>, NoMemory>
    ensures { IfOk result (λ names. names ≡ names_for tree.now decl.now) }
{
    match tree.classes.get(usize::from(decl.class)) {
        Some(class) => variables_of(alloc, class),
        None => Ok(List::new(alloc)),
    }
}

// The variables of a class, in the order of the text.
fn variables_of(alloc: Global, class: &ClassTree) -> Result<List<Buf>, NoMemory>
    ensures { IfOk result (λ names. names ≡ names_in class.now) }
{
    let mut names = List::new(alloc);
    for member in class.members.as_slice() {
        add_variable(alloc, member, &mut names)?;
    }
    Ok(names)
}

// Adds the variable that a member is, if it is one.
fn add_variable(alloc: Global, member: &Member, names: &mut List<Buf>) -> Result<(), NoMemory>
    ensures { OnOk result (names.new ≡ names.old ++ map (λ v. v.name) (filter_map variable_in (member.now ∷ []))) }
{
    match member {
        Member::Var { name, .. } => add_copy(alloc, name.as_slice(), names),
        Member::Setup { .. } => Ok(()),
        Member::Run { .. } => Ok(()),
        Member::Method { .. } => Ok(()),
        Member::Receive { .. } => Ok(()),
    }
}
