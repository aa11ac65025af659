//! Names in the bodies of a class: of `setup`, `run`, methods and handlers.
ghost use Rattle.da_lang.specs.ClassParts.{body_in};
ghost use Rattle.da_bodies.specs.BodyView.{body_view, handler_variables_at, place_variables, place_view, sender_variables_at, told_body, told_params, told_place, told_sender};
ghost use Rattle.da_bodies.specs.Repeats.{declared_in};
ghost use Rattle.da_bodies.specs.Told.{entered_each};
ghost use Rattle.da_lang.specs.ExprNames.{Local};
ghost use Rattle.std.specs.Prelude.{◌≡◌, ◌++◌, IfOk, map, OnOk, option_map};

use crate::earliest::Earliest;
use crate::expressions::{check_new, check_pattern};
use crate::repeats::{Declared, tell_again};
use crate::scope::{Names, Role};
use crate::statements::check_block;
use crate::variables::{enter_all, put_variables};
use da_lang::{Member, Name, Param, PatternTree, ScopeKind, Stmt};
use da_values::{List, NoMemory};
use std::alloc::Global;

/// What has a body.
#[derive(Clone, Copy)]
pub enum Place<'t> {
    Setup,
    Run,
    Method(&'t [u8]),
    Handler {
        message: &'t PatternTree,
        from: &'t Option<PatternTree>,
        at: &'t [Name],
    },
}

/// A body, its parameters, and the line of its header.
#[derive(Clone, Copy)]
pub struct Body<'t> {
    pub place: Place<'t>,
    pub params: &'t [Param],
    pub stmts: &'t [Stmt],
    pub line: u32,
}

/// The body of a member, where it has one.
pub fn body_of(member: &Member) -> Option<Body<'_>>
    ensures { option_map body_view result ≡ body_in member.now }
{
    match member {
        Member::Var {
            name: _,
            ty: _,
            line: _,
        } => None,
        Member::Setup { params, body, line } => Some(Body {
            place: Place::Setup,
            params: params.as_slice(),
            stmts: body.as_slice(),
            line: *line,
        }),
        Member::Run { body, line } => Some(Body {
            place: Place::Run,
            params: &[],
            stmts: body.as_slice(),
            line: *line,
        }),
        Member::Method {
            name,
            params,
            body,
            line,
        } => Some(Body {
            place: Place::Method(name.as_slice()),
            params: params.as_slice(),
            stmts: body.as_slice(),
            line: *line,
        }),
        Member::Receive {
            message,
            from,
            at,
            body,
            line,
        } => Some(Body {
            place: Place::Handler {
                message,
                from,
                at: at.as_slice(),
            },
            params: &[],
            stmts: body.as_slice(),
            line: *line,
        }),
    }
}

/// Checks the names of a body where those of its class are in scope.
pub fn check_body<'t>(
    alloc: Global,
    body: Body<'t>,
    names: &mut Names<'t>,
    least: &mut Earliest<ScopeKind>,
) -> Result<(), NoMemory>
    ensures told { OnOk result (least.new ≡ told_body names.old least.old (body_view body.entry)) }
    ensures same { OnOk result (names.new ≡ names.old) }
{
    check_params(body.params, body.line, names, least);
    let variables = place_variables_of(alloc, body.place, body.line)?;
    tell_again(alloc, variables.as_slice(), ScopeKind::Shadow, least)?;
    check_place(body.place, body.line, names, least)?;
    let outside = names.len();
    enter_params(body.params, names)?;
    enter_all(variables.as_slice(), Role::Local, names)?;
    check_block(alloc, body.stmts, names, least)?;
    names.leave_to(outside);
    Ok(())
}

/// Checks that no parameter takes the name of one in scope.
fn check_params(params: &[Param], line: u32, names: &Names<'_>, least: &mut Earliest<ScopeKind>)
    ensures { least.new ≡ told_params line names.now least.old params.now }
{
    for param in params {
        check_new(param.name.as_slice(), line, names, least);
    }
}

/// Parameters come into scope.
fn enter_params<'t>(params: &'t [Param], names: &mut Names<'t>) -> Result<(), NoMemory>
    ensures { OnOk result (names.new ≡ entered_each Local (map (λ p. p.name) params.now) names.old) }
{
    for param in params {
        names.enter(param.name.as_slice(), Role::Local)?;
    }
    Ok(())
}

/// The variables that a body has by its place: those of a handler's patterns.
#[tactic(auto, using(crate::proofs::BodyLaws::place_rules))]
fn place_variables_of<'t>(
    alloc: Global,
    place: Place<'t>,
    line: u32,
) -> Result<List<Declared<'t>>, NoMemory>
    ensures { IfOk result (λ variables. declared_in variables ≡ place_variables line (place_view place.entry)) }
{
    match place {
        Place::Setup => Ok(List::new(alloc)),
        Place::Run => Ok(List::new(alloc)),
        Place::Method(_) => Ok(List::new(alloc)),
        Place::Handler {
            message,
            from,
            at: _,
        } => handler_variables(alloc, message, from, line),
    }
}

/// The variables of a handler's patterns.
fn handler_variables<'t>(
    alloc: Global,
    message: &'t PatternTree,
    from: &'t Option<PatternTree>,
    line: u32,
) -> Result<List<Declared<'t>>, NoMemory>
    ensures { IfOk result (λ variables. declared_in variables ≡ handler_variables_at line message.now from.now) }
{
    let mut variables = List::new(alloc);
    put_variables(message, line, &mut variables)?;
    put_sender(from, line, &mut variables)?;
    Ok(variables)
}

/// Appends the variables of the sender's pattern, where there is one.
#[tactic(auto, using(crate::proofs::BodyLaws::sender_rules))]
fn put_sender<'t>(
    from: &'t Option<PatternTree>,
    line: u32,
    out: &mut List<Declared<'t>>,
) -> Result<(), NoMemory>
    ensures { OnOk result (declared_in out.new ≡ declared_in out.old ++ sender_variables_at line from.now) }
{
    match from {
        None => Ok(()),
        Some(pattern) => put_variables(pattern, line, out),
    }
}

/// Checks the patterns of a handler.
#[tactic(auto, using(crate::proofs::BodyLaws::place_rules))]
fn check_place<'t>(
    place: Place<'t>,
    line: u32,
    names: &mut Names<'t>,
    least: &mut Earliest<ScopeKind>,
) -> Result<(), NoMemory>
    ensures told { OnOk result (least.new ≡ told_place line names.old least.old (place_view place.entry)) }
    ensures same { OnOk result (names.new ≡ names.old) }
{
    match place {
        Place::Setup => Ok(()),
        Place::Run => Ok(()),
        Place::Method(_) => Ok(()),
        Place::Handler {
            message,
            from,
            at: _,
        } => {
            check_pattern(message, line, names, least)?;
            check_sender(from, line, names, least)
        }
    }
}

/// Checks the sender's pattern, where there is one.
#[tactic(auto, using(crate::proofs::BodyLaws::sender_rules))]
fn check_sender<'t>(
    from: &'t Option<PatternTree>,
    line: u32,
    names: &mut Names<'t>,
    least: &mut Earliest<ScopeKind>,
) -> Result<(), NoMemory>
    ensures told { OnOk result (least.new ≡ told_sender line names.old least.old from.now) }
    ensures same { OnOk result (names.new ≡ names.old) }
{
    match from {
        None => Ok(()),
        Some(pattern) => check_pattern(pattern, line, names, least),
    }
}
