//! The refusals by names of a class.
ghost use Rattle.da_lang.specs.ClassParts.{bodies, is_handler as is_handler_of, is_run as is_run_of, is_setup as is_setup_of, variables as variables_in};
ghost use Rattle.da_lang.specs.declared.refusal.ScopeKind.TheVariants.{Setup, Twice, Yield};
ghost use Rattle.da_lang.specs.ExprNames.{ClassVariable};
ghost use Rattle.da_lang.specs.NameRules.{class_refusals, params_again, setup_in, variables_again, yield_in};
ghost use Rattle.da_lang.specs.Scopes.{at_lines};
ghost use Rattle.da_bodies.specs.BodyView.{body_view, place_view};
ghost use Rattle.da_calls.specs.CallGraph.{IsCallGraph, class_in};
ghost use Rattle.da_names.specs.ClassRules.{bodies_in, body_refusals, deed_refusals, deeds_by, has_some, is_once, lines_after, member_refusals};
ghost use Rattle.da_names.specs.DeedView.{deeds_in};
ghost use Rattle.da_bodies.specs.Telling.{telling};
ghost use Rattle.da_bodies.specs.Told.{entered_each};
ghost use Rattle.std.specs.List.{flat_map};
ghost use Rattle.std.specs.Prelude.{◌≡◌, IfOk, OnOk, map};

use crate::call_rules::{tell_misfits, tell_recursive, tell_unknown, tell_yields};
use crate::declared::{methods_of, params_of, variables_of};
use crate::deed_rules::tell_early;
use crate::deeds::{Deed, deeds_of_body, put_body};
use crate::labels::{tell_labels, tell_named};
use da_bodies::{Body, Earliest, Names, Place, Role, body_of, check_body, enter_all, tell_again};
use da_calls::CallGraph;
use da_lang::{ClassTree, ScopeKind};
use da_values::{List, NoMemory};
use std::alloc::Global;

/// Tells the refusals by names of a class, in time in step with its text.
pub fn check_class(
    alloc: Global,
    class: &ClassTree,
    least: &mut Earliest<ScopeKind>,
) -> Result<(), NoMemory>
    ensures { OnOk result (least.new ≡ telling least.old (class_refusals class.now)) }
{
    let graph = CallGraph::new(alloc, class)?;
    check_graph(alloc, &graph, least)
}

/// The same for the class of a graph of calls.
fn check_graph(
    alloc: Global,
    graph: &CallGraph<'_>,
    least: &mut Earliest<ScopeKind>,
) -> Result<(), NoMemory>
    requires { IsCallGraph graph.now }
    ensures { OnOk result (least.new ≡ telling least.old (class_refusals (class_in graph.now))) }
{
    let class = graph.class();
    let list = bodies_of(alloc, class)?;
    let mut names = Names::new(alloc);
    enter_variables(alloc, class, &mut names, least)?;
    check_bodies(alloc, list.as_slice(), graph, &mut names, least)?;
    check_deeds(alloc, list.as_slice(), graph, least)?;
    check_members(alloc, list.as_slice(), class.line, least)?;
    tell_recursive(alloc, graph, least)
}

/// The bodies of a class.
fn bodies_of<'t>(alloc: Global, class: &'t ClassTree) -> Result<List<Body<'t>>, NoMemory>
    ensures { IfOk result (λ list. bodies_in list ≡ bodies class.now) }
{
    let mut list = List::new(alloc);
    for member in class.members.as_slice() {
        if let Some(body) = body_of(member) {
            list.push(body)?;
        }
    }
    Ok(list)
}

/// The variables of a class come into scope; tells those that are declared again.
fn enter_variables<'t>(
    alloc: Global,
    class: &'t ClassTree,
    names: &mut Names<'t>,
    least: &mut Earliest<ScopeKind>,
) -> Result<(), NoMemory>
    ensures told { OnOk result (least.new ≡ telling least.old (at_lines Twice (variables_again class.now))) }
    ensures entered { OnOk result (names.new ≡ entered_each ClassVariable (map (λ v. v.name) (variables_in class.now)) names.old) }
{
    let variables = variables_of(alloc, class)?;
    tell_again(alloc, variables.as_slice(), ScopeKind::Twice, least)?;
    enter_all(variables.as_slice(), Role::ClassVariable, names)
}

/// Tells the refusals of bodies, where the variables of their class are in scope.
fn check_bodies<'t>(
    alloc: Global,
    bodies: &[Body<'t>],
    graph: &CallGraph<'_>,
    names: &mut Names<'t>,
    least: &mut Earliest<ScopeKind>,
) -> Result<(), NoMemory>
    requires { IsCallGraph graph.now }
    ensures told { OnOk result (least.new ≡ telling least.old (flat_map (body_refusals (class_in graph.now) names.old) (bodies_in bodies.now))) }
    ensures same { OnOk result (names.new ≡ names.old) }
{
    for body in bodies {
        check_one(alloc, *body, graph, names, least)?;
    }
    Ok(())
}

/// Tells the refusals of one body.
fn check_one<'t>(
    alloc: Global,
    body: Body<'t>,
    graph: &CallGraph<'_>,
    names: &mut Names<'t>,
    least: &mut Earliest<ScopeKind>,
) -> Result<(), NoMemory>
    requires { IsCallGraph graph.now }
    ensures told { OnOk result (least.new ≡ telling least.old (body_refusals (class_in graph.now) names.old (body_view body.entry))) }
    ensures same { OnOk result (names.new ≡ names.old) }
{
    check_body(alloc, body, names, least)?;
    tell_named(alloc, body, least)?;
    tell_params(alloc, body, least)?;
    tell_yields_in(alloc, body, graph, least)?;
    tell_early_in(alloc, body, least)
}

/// Tells the parameters of a body that are declared again.
fn tell_params(
    alloc: Global,
    body: Body<'_>,
    least: &mut Earliest<ScopeKind>,
) -> Result<(), NoMemory>
    ensures { OnOk result (least.new ≡ telling least.old (at_lines Twice (params_again (body_view body.entry)))) }
{
    let params = params_of(alloc, body.params, body.line)?;
    tell_again(alloc, params.as_slice(), ScopeKind::Twice, least)
}

/// Tells what yields in a handler or in `setup`.
fn tell_yields_in(
    alloc: Global,
    body: Body<'_>,
    graph: &CallGraph<'_>,
    least: &mut Earliest<ScopeKind>,
) -> Result<(), NoMemory>
    requires { IsCallGraph graph.now }
    ensures { OnOk result (least.new ≡ telling least.old (at_lines Yield (yield_in (class_in graph.now) (body_view body.entry)))) }
{
    if is_handler(body.place) || is_setup(body.place) {
        let deeds = deeds_of_body(alloc, body.stmts)?;
        tell_yields(deeds.as_slice(), graph, least);
    }
    Ok(())
}

/// Tells what sends, prints, loops, calls or asks in `setup`.
fn tell_early_in(
    alloc: Global,
    body: Body<'_>,
    least: &mut Earliest<ScopeKind>,
) -> Result<(), NoMemory>
    ensures { OnOk result (least.new ≡ telling least.old (at_lines Setup (setup_in (body_view body.entry)))) }
{
    if is_setup(body.place) {
        let deeds = deeds_of_body(alloc, body.stmts)?;
        tell_early(deeds.as_slice(), least);
    }
    Ok(())
}

/// Whether this is `setup`.
fn is_setup(place: Place<'_>) -> bool
    ensures { result ≡ is_setup_of (place_view place.entry) }
{
    match place {
        Place::Setup => true,
        Place::Run
        | Place::Method(_)
        | Place::Handler {
            message: _,
            from: _,
            at: _,
        } => false,
    }
}

/// Whether this is `run`.
fn is_run(place: Place<'_>) -> bool
    ensures { result ≡ is_run_of (place_view place.entry) }
{
    match place {
        Place::Run => true,
        Place::Setup
        | Place::Method(_)
        | Place::Handler {
            message: _,
            from: _,
            at: _,
        } => false,
    }
}

/// Whether this is a handler.
fn is_handler(place: Place<'_>) -> bool
    ensures { result ≡ is_handler_of (place_view place.entry) }
{
    match place {
        Place::Handler {
            message: _,
            from: _,
            at: _,
        } => true,
        Place::Setup | Place::Run | Place::Method(_) => false,
    }
}

/// Tells the refusals of the statements of all bodies that a scope does not matter for, and those of labels.
fn check_deeds(
    alloc: Global,
    bodies: &[Body<'_>],
    graph: &CallGraph<'_>,
    least: &mut Earliest<ScopeKind>,
) -> Result<(), NoMemory>
    requires { IsCallGraph graph.now }
    ensures { OnOk result (least.new ≡ telling least.old (deed_refusals (class_in graph.now) (deeds_by (bodies_in bodies.now)) (bodies_in bodies.now))) }
{
    let list = deeds_of_bodies(alloc, bodies)?;
    let deeds = list.as_slice();
    tell_unknown(deeds, graph, least);
    tell_misfits(deeds, graph, least);
    tell_labels(alloc, bodies, deeds, least)
}

/// The statements of all bodies.
fn deeds_of_bodies<'t>(alloc: Global, bodies: &[Body<'t>]) -> Result<List<Deed<'t>>, NoMemory>
    ensures { IfOk result (λ list. deeds_in list ≡ deeds_by (bodies_in bodies.now)) }
{
    let mut list = List::new(alloc);
    for body in bodies {
        put_body(body.stmts, &mut list)?;
    }
    Ok(list)
}

/// What a class has once.
#[derive(Clone, Copy)]
enum Once {
    Setup,
    Run,
}

/// Tells the methods that are declared again, each `setup` and `run` after the first, and a class with no `run`.
fn check_members(
    alloc: Global,
    bodies: &[Body<'_>],
    line: u32,
    least: &mut Earliest<ScopeKind>,
) -> Result<(), NoMemory>
    ensures { OnOk result (least.new ≡ telling least.old (member_refusals line (bodies_in bodies.now))) }
{
    let methods = methods_of(alloc, bodies)?;
    tell_again(alloc, methods.as_slice(), ScopeKind::Twice, least)?;
    tell_after(bodies, Once::Setup, least);
    if !tell_after(bodies, Once::Run, least) {
        least.tell(ScopeKind::NoRun, line);
    }
    Ok(())
}

/// Tells each `setup`, or each `run`, after the first, and answers whether there is one.
fn tell_after(bodies: &[Body<'_>], part: Once, least: &mut Earliest<ScopeKind>) -> bool
    ensures told { least.new ≡ telling least.old (at_lines Twice (lines_after (is_once part) (bodies_in bodies.now))) }
    ensures some { result ≡ has_some (is_once part) (bodies_in bodies.now) }
{
    let mut seen = false;
    for body in bodies {
        if is_part(body.place, part) {
            if seen {
                least.tell(ScopeKind::Twice, body.line);
            }
            seen = true;
        }
    }
    seen
}

/// Whether this is `setup`, or `run`.
fn is_part(place: Place<'_>, part: Once) -> bool
    ensures { result ≡ is_once part (place_view place.entry) }
{
    match part {
        Once::Setup => is_setup(place),
        Once::Run => is_run(place),
    }
}
