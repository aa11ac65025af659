//! How many arguments the classes of a program take at `setup`.
ghost use Rattle.da_lang.specs.ClassParts.{params_if, setup_of};
ghost use Rattle.da_names.specs.MainView.{at_name, setup_arity};
ghost use Rattle.std.specs.Option.{option_or};
ghost use Rattle.std.specs.Prelude.{◌≡◌, ℕ, List, None, Some, IfOk, OnOk, bytes_eq, find, if◌then◌else◌, length, option_map};

use da_lang::{ClassTree, Member};
use da_values::NoMemory;
use std::alloc::Global;
use std::collections::BTreeMap;

/// The first class of each name, by the number of arguments that it takes.
pub type Arities<'t> = BTreeMap<&'t [u8], usize>;

/// No class is known.
fn no_class<'t>(alloc: Global) -> Arities<'t>
    ensures { (q : List ℕ) → at_name result q ≡ None }
{
    BTreeMap::new(alloc)
}

/// How many arguments each class takes, in time in step with their text.
pub fn arities_of<'t>(alloc: Global, classes: &'t [ClassTree]) -> Result<Arities<'t>, NoMemory>
    ensures { IfOk result (λ arities. (q : List ℕ) → at_name arities q ≡ option_map setup_arity (find (λ c. bytes_eq c.name q) classes.now)) }
{
    let mut arities = no_class(alloc);
    for class in classes {
        add_class(class, &mut arities)?;
    }
    Ok(arities)
}

/// Adds a class, unless there is one of its name.
fn add_class<'t>(class: &'t ClassTree, arities: &mut Arities<'t>) -> Result<(), NoMemory>
    ensures { OnOk result ((q : List ℕ) → at_name arities.new q ≡ option_or (at_name arities.old q) (if bytes_eq class.now.name q then Some (setup_arity class.now) else None)) }
{
    let name = class.name.as_slice();
    if arities.contains_key(name) {
        return Ok(());
    }
    match arities.insert(name, arity_of(class)) {
        Ok(_) => Ok(()),
        Err(_) => Err(NoMemory),
    }
}

/// How many parameters the first `setup` of a class has; none where it has no `setup`.
fn arity_of(class: &ClassTree) -> usize
    ensures { result ≡ length (params_if (setup_of class.now)) }
{
    for member in class.members.as_slice() {
        if let Member::Setup { params, .. } = member {
            return params.len();
        }
    }
    0
}
