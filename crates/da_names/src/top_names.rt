//! The names that a program declares outside its classes, and those that it declares twice.
ghost use Rattle.da_lang.specs.declared.refusal.ScopeKind.TheVariants.{Twice};
ghost use Rattle.da_lang.specs.NameRules.{made_at as made_in, set_up_at as set_up_in, twice_of};
ghost use Rattle.da_lang.specs.Scopes.{at_lines};
ghost use Rattle.da_bodies.specs.Repeats.{declared_in, declared_of};
ghost use Rattle.da_bodies.specs.Telling.{telling};
ghost use Rattle.std.specs.Prelude.{◌≡◌, IfOk, OnOk, filter_map, map, option_map};

use da_bodies::{Declared, Earliest, tell_again};
use da_lang::{ClassTree, MainLine, MessageDecl, ScopeKind, Tree};
use da_values::{List, NoMemory};
use std::alloc::Global;

/// Tells the second declarations of classes and tags, and of names and lines of `setup` in `main`.
pub fn tell_twice(
    alloc: Global,
    tree: &Tree,
    least: &mut Earliest<ScopeKind>,
) -> Result<(), NoMemory>
    ensures { OnOk result (least.new ≡ telling least.old (at_lines Twice (twice_of tree.now))) }
{
    let classes = classes_declared(alloc, tree.classes.as_slice())?;
    tell_again(alloc, classes.as_slice(), ScopeKind::Twice, least)?;
    let tags = tags_declared(alloc, tree.messages.as_slice())?;
    tell_again(alloc, tags.as_slice(), ScopeKind::Twice, least)?;
    let made = names_made(alloc, tree.main.as_slice())?;
    tell_again(alloc, made.as_slice(), ScopeKind::Twice, least)?;
    let set_up = names_set_up(alloc, tree.main.as_slice())?;
    tell_again(alloc, set_up.as_slice(), ScopeKind::Twice, least)
}

/// The names of classes.
fn classes_declared<'t>(
    alloc: Global,
    classes: &'t [ClassTree],
) -> Result<List<Declared<'t>>, NoMemory>
    ensures { IfOk result (λ names. declared_in names ≡ map (λ c. (c.name, c.line)) classes.now) }
{
    let mut names = List::new(alloc);
    for class in classes {
        names.push(Declared {
            name: class.name.as_slice(),
            line: class.line,
        })?;
    }
    Ok(names)
}

/// The tags of messages.
fn tags_declared<'t>(
    alloc: Global,
    messages: &'t [MessageDecl],
) -> Result<List<Declared<'t>>, NoMemory>
    ensures { IfOk result (λ tags. declared_in tags ≡ map (λ x. (x.tag, x.line)) messages.now) }
{
    let mut tags = List::new(alloc);
    for message in messages {
        tags.push(Declared {
            name: message.tag.as_slice(),
            line: message.line,
        })?;
    }
    Ok(tags)
}

/// The names that lines of `main` make.
fn names_made<'t>(alloc: Global, lines: &'t [MainLine]) -> Result<List<Declared<'t>>, NoMemory>
    ensures { IfOk result (λ names. declared_in names ≡ filter_map made_in lines.now) }
{
    let mut names = List::new(alloc);
    for line in lines {
        if let Some(name) = made_at(line) {
            names.push(name)?;
        }
    }
    Ok(names)
}

/// The names that lines of `main` set up.
fn names_set_up<'t>(alloc: Global, lines: &'t [MainLine]) -> Result<List<Declared<'t>>, NoMemory>
    ensures { IfOk result (λ names. declared_in names ≡ filter_map set_up_in lines.now) }
{
    let mut names = List::new(alloc);
    for line in lines {
        if let Some(name) = set_up_at(line) {
            names.push(name)?;
        }
    }
    Ok(names)
}

/// The name that a line makes.
fn made_at(line: &MainLine) -> Option<Declared<'_>>
    ensures { option_map declared_of result ≡ made_in line.now }
{
    match line {
        MainLine::New { name, line, .. } => Some(Declared {
            name: name.as_slice(),
            line: *line,
        }),
        MainLine::Setup { .. } => None,
    }
}

/// The name that a line sets up.
fn set_up_at(line: &MainLine) -> Option<Declared<'_>>
    ensures { option_map declared_of result ≡ set_up_in line.now }
{
    match line {
        MainLine::New { .. } => None,
        MainLine::Setup { name, line, .. } => Some(Declared {
            name: name.as_slice(),
            line: *line,
        }),
    }
}
