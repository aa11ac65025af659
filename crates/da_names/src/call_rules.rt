//! Rules on what the calls of a class lead to.
ghost use Rattle.da_lang.specs.Calls.{deeds_in as deeds_of_method};
ghost use Rattle.da_lang.specs.ClassParts.{method_of};
ghost use Rattle.da_lang.specs.declared.refusal.ScopeKind.TheVariants.{Arity, Recursive, Unknown, Yield};
ghost use Rattle.da_lang.specs.NameRules.{calls_none as calls_none_of, fits_params, lines_where, method_names, misfits as misfits_of, recursive_in, yields_by};
ghost use Rattle.da_lang.specs.Scopes.{at_lines};
ghost use Rattle.da_calls.specs.CallGraph.{IsCallGraph, class_in};
ghost use Rattle.da_names.specs.ClassRules.{goes_round as goes_round_of};
ghost use Rattle.da_names.specs.DeedView.{deed_of, deeds_in, doing_of, said_of};
ghost use Rattle.da_bodies.specs.Telling.{telling};
ghost use Rattle.std.specs.List.{flat_map, list_any};
ghost use Rattle.std.specs.Option.{option_to_list};
ghost use Rattle.std.specs.Prelude.{◌≡◌, length, not, OnOk};

use crate::deeds::{Deed, Doing, Said, deeds_of_body};
use da_bodies::Earliest;
use da_calls::CallGraph;
use da_lang::ScopeKind;
use da_values::NoMemory;
use std::alloc::Global;

/// Tells the lines of the calls of no method.
pub fn tell_unknown(deeds: &[Deed<'_>], graph: &CallGraph<'_>, least: &mut Earliest<ScopeKind>)
    requires { IsCallGraph graph.now }
    ensures { least.new ≡ telling least.old (at_lines Unknown (lines_where (λ d. calls_none_of (class_in graph.now) d.does) (deeds_in deeds.now))) }
{
    for deed in deeds {
        if calls_none(deed.does, graph) {
            least.tell(ScopeKind::Unknown, deed.line);
        }
    }
}

/// Tells the lines of the calls with another number of arguments than their method has parameters.
pub fn tell_misfits(deeds: &[Deed<'_>], graph: &CallGraph<'_>, least: &mut Earliest<ScopeKind>)
    requires { IsCallGraph graph.now }
    ensures { least.new ≡ telling least.old (at_lines Arity (lines_where (λ d. misfits_of (class_in graph.now) d d.does) (deeds_in deeds.now))) }
{
    for deed in deeds {
        if misfits(*deed, graph) {
            least.tell(ScopeKind::Arity, deed.line);
        }
    }
}

/// Tells the lines of the yield points, and of the calls of methods that yield.
pub fn tell_yields(deeds: &[Deed<'_>], graph: &CallGraph<'_>, least: &mut Earliest<ScopeKind>)
    requires { IsCallGraph graph.now }
    ensures { least.new ≡ telling least.old (at_lines Yield (lines_where (λ d. yields_by (class_in graph.now) d.does) (deeds_in deeds.now))) }
{
    for deed in deeds {
        if yields(deed.does, graph) {
            least.tell(ScopeKind::Yield, deed.line);
        }
    }
}

/// Tells the lines of the calls that lead back to the method that holds them.
pub fn tell_recursive(
    alloc: Global,
    graph: &CallGraph<'_>,
    least: &mut Earliest<ScopeKind>,
) -> Result<(), NoMemory>
    requires { IsCallGraph graph.now }
    ensures { OnOk result (least.new ≡ telling least.old (at_lines Recursive (flat_map (recursive_in (class_in graph.now)) (method_names (class_in graph.now))))) }
{
    for method in graph.methods() {
        let deeds = deeds_of_body(alloc, method.body.as_slice())?;
        tell_round(method.name.as_slice(), deeds.as_slice(), graph, least);
    }
    Ok(())
}

/// Tells the lines of the calls of one method that lead back to it.
fn tell_round(
    holder: &[u8],
    deeds: &[Deed<'_>],
    graph: &CallGraph<'_>,
    least: &mut Earliest<ScopeKind>,
)
    requires graph { IsCallGraph graph.now }
    requires deeds { deeds_in deeds.now ≡ deeds_of_method (class_in graph.now) holder.now }
    ensures { least.new ≡ telling least.old (at_lines Recursive (recursive_in (class_in graph.now) holder.now)) }
{
    for deed in deeds {
        if goes_round(holder, deed.does, graph) {
            least.tell(ScopeKind::Recursive, deed.line);
        }
    }
}

/// Whether this is a call of no method.
fn calls_none(does: Doing<'_>, graph: &CallGraph<'_>) -> bool
    requires { IsCallGraph graph.now }
    ensures { result ≡ calls_none_of (class_in graph.now) (doing_of does.entry) }
{
    match does {
        Doing::Calls(name) => graph.method(name).is_none(),
        Doing::Sends
        | Doing::Outputs
        | Doing::Labels(_)
        | Doing::Loops
        | Doing::Awaits
        | Doing::TimesOut
        | Doing::Other => false,
    }
}

/// Whether this is a call with another number of arguments than its method has parameters.
fn misfits(deed: Deed<'_>, graph: &CallGraph<'_>) -> bool
    requires { IsCallGraph graph.now }
    ensures { result ≡ misfits_of (class_in graph.now) (deed_of deed.entry) (doing_of deed.entry.does) }
{
    match deed.does {
        Doing::Calls(name) => call_misfits(name, deed.says, graph),
        Doing::Sends
        | Doing::Outputs
        | Doing::Labels(_)
        | Doing::Loops
        | Doing::Awaits
        | Doing::TimesOut
        | Doing::Other => false,
    }
}

/// Whether the method of a name, if there is one, has another number of parameters than there are arguments.
fn call_misfits(name: &[u8], says: Said<'_>, graph: &CallGraph<'_>) -> bool
    requires { IsCallGraph graph.now }
    ensures { result ≡ list_any (λ b. not (fits_params (said_of says.entry) b)) (option_to_list (method_of (class_in graph.now) name.now)) }
{
    match graph.method(name) {
        None => false,
        Some(method) => count_of(says) != method.params.len(),
    }
}

/// How many expressions there are.
fn count_of(says: Said<'_>) -> usize
    ensures { result ≡ length (said_of says.entry) }
{
    match says {
        Said::Nothing => 0,
        Said::One(_) => 1,
        Said::Two(_, _) => 2,
        Said::Many(xs) => xs.len(),
    }
}

/// Whether this is a yield point, or a call of a method that yields.
fn yields(does: Doing<'_>, graph: &CallGraph<'_>) -> bool
    requires { IsCallGraph graph.now }
    ensures { result ≡ yields_by (class_in graph.now) (doing_of does.entry) }
{
    match does {
        Doing::Calls(name) => graph.yields(name),
        Doing::Labels(_) | Doing::Awaits => true,
        Doing::Sends | Doing::Outputs | Doing::Loops | Doing::TimesOut | Doing::Other => false,
    }
}

/// Whether this is a call of a method, and this method and its holder lead to each other.
fn goes_round(holder: &[u8], does: Doing<'_>, graph: &CallGraph<'_>) -> bool
    requires { IsCallGraph graph.now }
    ensures { result ≡ goes_round_of (class_in graph.now) holder.now (doing_of does.entry) }
{
    match does {
        Doing::Calls(name) => graph.leads_back(holder, name),
        Doing::Sends
        | Doing::Outputs
        | Doing::Labels(_)
        | Doing::Loops
        | Doing::Awaits
        | Doing::TimesOut
        | Doing::Other => false,
    }
}
