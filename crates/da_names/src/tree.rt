//! The refusal by names of a whole program.
ghost use Rattle.da_lang.specs.NameRules.{class_refusals, name_fault as name_fault_of};
ghost use Rattle.da_bodies.specs.Telling.{refusal_of, telling};
ghost use Rattle.std.specs.Prelude.{◌≡◌, IfOk, OnOk, flat_map, option_map};

use crate::classes::check_class;
use crate::main_lines::check_main;
use crate::top_names::tell_twice;
use da_bodies::{Earliest, NameFault};
use da_lang::{ClassTree, ScopeKind, Tree};
use da_values::NoMemory;
use std::alloc::Global;

/// The refusal by names that is reported of a program, if there is one.
pub fn name_fault(alloc: Global, tree: &Tree) -> Result<Option<NameFault>, NoMemory>
    ensures { IfOk result (λ fault. option_map refusal_of fault ≡ name_fault_of tree.now) }
{
    let mut least = Earliest::new();
    check_classes(alloc, tree.classes.as_slice(), &mut least)?;
    tell_twice(alloc, tree, &mut least)?;
    check_main(alloc, tree, &mut least)?;
    Ok(least.fault())
}

/// Checks the names of classes.
fn check_classes(
    alloc: Global,
    classes: &[ClassTree],
    least: &mut Earliest<ScopeKind>,
) -> Result<(), NoMemory>
    ensures { OnOk result (least.new ≡ telling least.old (flat_map class_refusals classes.now)) }
{
    for class in classes {
        check_class(alloc, class, least)?;
    }
    Ok(())
}
