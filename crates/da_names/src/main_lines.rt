//! Names in `main`.
ghost use Rattle.da_lang.specs.declared.refusal.ScopeKind.TheVariants.{Unknown};
ghost use Rattle.da_lang.specs.ExprNames.{Made};
ghost use Rattle.da_lang.specs.NameRules.{made_class, made_name, main_refusals};
ghost use Rattle.da_names.specs.MainView.{at_name, class_at, setup_kinds_by, told_line};
ghost use Rattle.da_bodies.specs.Telling.{telling};
ghost use Rattle.da_bodies.specs.Told.{entered_each, told_kinds};
ghost use Rattle.std.specs.List.{list_any};
ghost use Rattle.std.specs.Option.{option_and_then, option_or, option_to_list};
ghost use Rattle.std.specs.Prelude.{◌≡◌, ◌==◌, [], ℕ, List, None, Some, OnOk, bytes_eq, if◌then◌else◌, length, not};

use crate::arities::{Arities, arities_of};
use crate::early::some_asks_early;
use da_bodies::{Earliest, Names, Role, check_exprs, is_value, tell_unless};
use da_lang::{Expr, MainLine, ScopeKind, Tree};
use da_values::NoMemory;
use std::alloc::Global;
use std::collections::BTreeMap;

/// The first class that each name of `main` was made of.
type Classes<'t> = BTreeMap<&'t [u8], &'t [u8]>;

/// No name is made.
fn nothing_made<'t>(alloc: Global) -> Classes<'t>
    ensures { (q : List ℕ) → class_at result q ≡ None }
{
    BTreeMap::new(alloc)
}

/// Checks the lines of `main`, in time in step with their text.
pub fn check_main(
    alloc: Global,
    tree: &Tree,
    least: &mut Earliest<ScopeKind>,
) -> Result<(), NoMemory>
    ensures { OnOk result (least.new ≡ telling least.old (main_refusals tree.now [] tree.now.main)) }
{
    let arities = arities_of(alloc, tree.classes.as_slice())?;
    let mut names = Names::new(alloc);
    let mut classes = nothing_made(alloc);
    for line in tree.main.as_slice() {
        check_line(line, &arities, &classes, &mut names, least)?;
        make_name(line, &mut classes, &mut names)?;
    }
    Ok(())
}

/// Checks a line where these names are made.
fn check_line<'t>(
    line: &'t MainLine,
    arities: &Arities<'_>,
    classes: &Classes<'t>,
    names: &mut Names<'t>,
    least: &mut Earliest<ScopeKind>,
) -> Result<(), NoMemory>
    ensures told { OnOk result (least.new ≡ told_line (at_name arities.now) (class_at classes.now) names.old least.old line.now) }
    ensures same { OnOk result (names.new ≡ names.old) }
{
    match line {
        MainLine::New { class, line, .. } => {
            let known = arities.contains_key(class.as_slice());
            tell_unless(known, ScopeKind::Unknown, *line, least);
            Ok(())
        }
        MainLine::Setup { name, args, line } => {
            let arity = made_arity(name.as_slice(), arities, classes);
            check_setup(name.as_slice(), args.as_slice(), *line, arity, names, least)
        }
    }
}

/// How many arguments the first class that a name was made of takes.
fn made_arity(name: &[u8], arities: &Arities<'_>, classes: &Classes<'_>) -> Option<usize>
    ensures { result ≡ option_and_then (at_name arities.now) (class_at classes.now name.now) }
{
    match classes.get(name) {
        None => None,
        Some(class) => arities.get(*class).copied(),
    }
}

/// Checks a line of `setup` for a name whose class takes so many arguments.
fn check_setup<'t>(
    name: &[u8],
    args: &'t [Expr],
    line: u32,
    arity: Option<usize>,
    names: &mut Names<'t>,
    least: &mut Earliest<ScopeKind>,
) -> Result<(), NoMemory>
    ensures told { OnOk result (least.new ≡ told_kinds line least.old (setup_kinds_by names.old arity name.now args.now)) }
    ensures same { OnOk result (names.new ≡ names.old) }
{
    let known = is_value(names.look(name));
    tell_unless(known, ScopeKind::Unknown, line, least);
    check_exprs(args, line, names, least)?;
    let early = some_asks_early(true, args);
    tell_unless(!early, ScopeKind::Setup, line, least);
    let fits = takes(arity, args.len());
    tell_unless(fits, ScopeKind::Arity, line, least);
    Ok(())
}

/// Whether a class that takes so many arguments takes these, or there is no class.
fn takes(arity: Option<usize>, count: usize) -> bool
    ensures { result ≡ not (list_any (λ n. not (count == n)) (option_to_list arity)) }
{
    match arity {
        None => true,
        Some(wanted) => count == wanted,
    }
}

/// The name that a line makes comes into scope. Its class is the first one that it was made of.
fn make_name<'t>(
    line: &'t MainLine,
    classes: &mut Classes<'t>,
    names: &mut Names<'t>,
) -> Result<(), NoMemory>
    ensures names { OnOk result (names.new ≡ entered_each Made (option_to_list (made_name line.now)) names.old) }
    ensures classes { OnOk result ((q : List ℕ) → class_at classes.new q ≡ option_or (class_at classes.old q) (made_class q line.now)) }
{
    match line {
        MainLine::New { name, class, .. } => {
            put_class(name.as_slice(), class.as_slice(), classes)?;
            names.enter(name.as_slice(), Role::Made)
        }
        MainLine::Setup { .. } => Ok(()),
    }
}

/// A name is made of a class, unless it was made before.
fn put_class<'t>(name: &'t [u8], class: &'t [u8], classes: &mut Classes<'t>) -> Result<(), NoMemory>
    ensures { OnOk result ((q : List ℕ) → class_at classes.new q ≡ option_or (class_at classes.old q) (if bytes_eq name.now q then Some class.now else None)) }
{
    if classes.contains_key(name) {
        return Ok(());
    }
    match classes.insert(name, class) {
        Ok(_) => Ok(()),
        Err(_) => Err(NoMemory),
    }
}
