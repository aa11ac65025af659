//! The variables of patterns.
ghost use Rattle.da_lang.specs.ExprNames.{Local, found_names};
ghost use Rattle.da_bodies.specs.Repeats.{declared_in};
ghost use Rattle.da_bodies.specs.ScopeView.{role_of};
ghost use Rattle.da_bodies.specs.Told.{entered_each};
ghost use Rattle.da_bodies.specs.Variables.{found_at, gen_variables_at, peer_variables_at, variables_at};
ghost use Rattle.std.specs.List.{flat_map};
ghost use Rattle.std.specs.Prelude.{◌≡◌, ◌++◌, map, OnOk};

use crate::repeats::Declared;
use crate::scope::{Names, Role};
use da_lang::{Expr, GenTree, PatternTree, PeerTree};
use da_values::{List, NoMemory};
use std::alloc::Global;

/// Appends the variables of a pattern.
#[cycle(variables)]
#[tactic(auto, using(crate::proofs::VariablesAt::variable_rules))]
pub fn put_variables<'t>(
    pattern: &'t PatternTree,
    line: u32,
    out: &mut List<Declared<'t>>,
) -> Result<(), NoMemory>
    ensures { OnOk result (declared_in out.new ≡ declared_in out.old ++ variables_at line pattern.now) }
{
    match pattern {
        PatternTree::Name(name) => out.push(Declared {
            name: name.as_slice(),
            line,
        }),
        PatternTree::Tuple(parts) => put_parts(parts.as_slice(), line, out),
        PatternTree::Equal(_) => Ok(()),
        PatternTree::Wild => Ok(()),
        PatternTree::Int(_) => Ok(()),
        PatternTree::Text(_) => Ok(()),
        PatternTree::Truth(_) => Ok(()),
        PatternTree::Me => Ok(()),
    }
}

/// Appends the variables of the parts of a tuple.
#[cycle(variables)]
fn put_parts<'t>(
    parts: &'t [PatternTree],
    line: u32,
    out: &mut List<Declared<'t>>,
) -> Result<(), NoMemory>
    ensures { OnOk result (declared_in out.new ≡ declared_in out.old ++ flat_map (variables_at line) parts.now) }
{
    for part in parts {
        put_variables(part, line, out)?;
    }
    Ok(())
}

/// Appends the variables of the pattern of the other process, where there is one.
#[tactic(auto, using(crate::proofs::VariablesAt::peer_variable_rules))]
fn put_peer<'t>(
    peer: &'t Option<PeerTree>,
    line: u32,
    out: &mut List<Declared<'t>>,
) -> Result<(), NoMemory>
    ensures { OnOk result (declared_in out.new ≡ declared_in out.old ++ peer_variables_at line peer.now) }
{
    match peer {
        None => Ok(()),
        Some(PeerTree::From(pattern)) => put_variables(pattern, line, out),
        Some(PeerTree::To(pattern)) => put_variables(pattern, line, out),
    }
}

/// Appends the variables of generators.
#[tactic(auto, using(crate::proofs::VariablesAt::gen_variables_of))]
fn put_gens<'t>(
    gens: &'t [GenTree],
    line: u32,
    out: &mut List<Declared<'t>>,
) -> Result<(), NoMemory>
    ensures { OnOk result (declared_in out.new ≡ declared_in out.old ++ flat_map (gen_variables_at line) gens.now) }
{
    for generator in gens {
        put_variables(&generator.message, line, out)?;
        put_peer(&generator.peer, line, out)?;
    }
    Ok(())
}

/// Appends the variables that a condition binds: those of a whole `some`.
fn put_found<'t>(cond: &'t Expr, line: u32, out: &mut List<Declared<'t>>) -> Result<(), NoMemory>
    ensures { OnOk result (declared_in out.new ≡ declared_in out.old ++ found_at line cond.now) }
{
    match cond {
        Expr::Quant {
            each,
            gens,
            cond: _,
        } => {
            if *each {
                Ok(())
            } else {
                put_gens(gens.as_slice(), line, out)
            }
        }
        _ => Ok(()),
    }
}

/// Names come into scope one after the other, each as the same.
pub fn enter_all<'t>(
    declared: &[Declared<'t>],
    role: Role,
    names: &mut Names<'t>,
) -> Result<(), NoMemory>
    ensures { OnOk result (names.new ≡ entered_each (role_of role) (map (λ d. d.name.now) declared.now) names.old) }
{
    for one in declared {
        names.enter(one.name, role)?;
    }
    Ok(())
}

/// The variables that a condition binds come into scope.
pub fn enter_found<'t>(
    alloc: Global,
    cond: &'t Expr,
    line: u32,
    names: &mut Names<'t>,
) -> Result<(), NoMemory>
    ensures { OnOk result (names.new ≡ entered_each Local (found_names cond.now) names.old) }
{
    let mut found = List::new(alloc);
    put_found(cond, line, &mut found)?;
    enter_all(found.as_slice(), Role::Local, names)
}
