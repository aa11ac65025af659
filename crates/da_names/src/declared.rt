//! What a class declares: variables, methods and parameters.
ghost use Rattle.da_lang.specs.NameRules.{named_body};
ghost use Rattle.da_bodies.specs.BodyView.{body_view};
ghost use Rattle.da_names.specs.ClassRules.{bodies_in, param_names, variable_name, variable_names};
ghost use Rattle.da_bodies.specs.Repeats.{declared_in, declared_of};
ghost use Rattle.std.specs.Prelude.{◌≡◌, IfOk, filter_map, option_map};

use da_bodies::{Body, Declared, Place};
use da_lang::{ClassTree, Member, Param};
use da_values::{List, NoMemory};
use std::alloc::Global;

/// The variables of a class.
pub fn variables_of<'t>(alloc: Global, class: &'t ClassTree) -> Result<List<Declared<'t>>, NoMemory>
    ensures { IfOk result (λ list. declared_in list ≡ variable_names class.now) }
{
    let mut list = List::new(alloc);
    for member in class.members.as_slice() {
        if let Some(variable) = variable_in(member) {
            list.push(variable)?;
        }
    }
    Ok(list)
}

/// The variable that a member is, if it is one.
fn variable_in(member: &Member) -> Option<Declared<'_>>
    ensures { option_map declared_of result ≡ variable_name member.now }
{
    match member {
        Member::Var { name, ty: _, line } => Some(Declared {
            name: name.as_slice(),
            line: *line,
        }),
        Member::Setup { .. }
        | Member::Run { .. }
        | Member::Method { .. }
        | Member::Receive { .. } => None,
    }
}

/// The methods among bodies.
pub fn methods_of<'t>(alloc: Global, bodies: &[Body<'t>]) -> Result<List<Declared<'t>>, NoMemory>
    ensures { IfOk result (λ list. declared_in list ≡ filter_map named_body (bodies_in bodies.now)) }
{
    let mut list = List::new(alloc);
    for body in bodies {
        if let Some(method) = method_in(*body) {
            list.push(method)?;
        }
    }
    Ok(list)
}

/// The method that a body is of, if it is of one.
fn method_in(body: Body<'_>) -> Option<Declared<'_>>
    ensures { option_map declared_of result ≡ named_body (body_view body.entry) }
{
    match body.place {
        Place::Method(name) => Some(Declared {
            name,
            line: body.line,
        }),
        Place::Setup
        | Place::Run
        | Place::Handler {
            message: _,
            from: _,
            at: _,
        } => None,
    }
}

/// Parameters, each at the line of its list.
pub fn params_of<'t>(
    alloc: Global,
    params: &'t [Param],
    line: u32,
) -> Result<List<Declared<'t>>, NoMemory>
    ensures { IfOk result (λ list. declared_in list ≡ param_names line params.now) }
{
    let mut list = List::new(alloc);
    for param in params {
        list.push(Declared {
            name: param.name.as_slice(),
            line,
        })?;
    }
    Ok(list)
}
