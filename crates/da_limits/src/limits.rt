//! Limits: the refusal of a program that exceeds one.
ghost use Rattle.da_lang.specs.Limits.{limit_fault};
ghost use Rattle.da_lang.specs.NameRules.{name_refusals};
ghost use Rattle.da_bodies.specs.Telling.{refusal_of};
ghost use Rattle.da_limits.specs.LimitTree.{NoneLeadBack, classes_told};
ghost use Rattle.std.specs.Prelude.{◌≡◌, [], IfOk, OnOk, option_map};

use crate::tree::{tell_count, tell_main, tell_messages, tell_processes};
use crate::walk::tell_class;
use da_bodies::{Earliest, LimitFault};
use da_lang::{ClassTree, LimitKind, Tree};
use da_values::NoMemory;
use std::alloc::Global;

/// The limit that is reported of a program that names do not refuse: of all that it exceeds, the one on the earliest line, and
/// on one line the least one. Nothing is reported exactly where it exceeds none.
pub fn limit_fault(alloc: Global, tree: &Tree) -> Result<Option<LimitFault>, NoMemory>
    requires { name_refusals tree.now ≡ [] }
    ensures { IfOk result (λ fault. option_map refusal_of fault ≡ limit_fault tree.now) }
{
    let classes = tree.classes.as_slice();
    let main = tree.main.as_slice();
    let messages = tree.messages.as_slice();
    let mut least = Earliest::new();
    tell_count(classes, &mut least);
    tell_processes(main, &mut least);
    tell_messages(messages, &mut least);
    tell_main(main, &mut least);
    tell_classes(alloc, classes, &mut least)?;
    Ok(least.fault())
}

// The limits that classes exceed, in none of which a call leads back.
fn tell_classes(
    alloc: Global,
    classes: &[ClassTree],
    least: &mut Earliest<LimitKind>,
) -> Result<(), NoMemory>
    requires { NoneLeadBack classes.now }
    ensures { OnOk result (least.new ≡ classes_told classes.now least.old) }
{
    for class in classes {
        tell_class(alloc, class, least)?;
    }
    Ok(())
}
