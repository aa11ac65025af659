//! The methods of a class, with numbers: the first one of each name.
ghost use Rattle.da_lang.specs.ClassParts.{bodies};
ghost use Rattle.da_calls.specs.CallMethods.{AddsMethod, Numbering, body_of, method_body, numbered};
ghost use Rattle.da_calls.specs.CallNames.{number_in};
ghost use Rattle.std.specs.Prelude.{◌≡◌, IfOk, OnOk, option_map};

use crate::names::Numbers;
use da_lang::{ClassTree, Member, Name, Param, Stmt};
use da_values::{List, NoMemory};
use std::alloc::Global;

/// A method of a class.
#[derive(Clone, Copy, Drop)]
pub struct Method<'t> {
    /// Its name.
    pub name: &'t Name,
    /// Its parameters.
    pub params: &'t List<Param>,
    /// Its statements.
    pub body: &'t List<Stmt>,
    /// The line of its declaration.
    pub line: u32,
}

/// Methods, of which each has its place as its number.
#[derive(Drop)]
pub struct Methods<'t> {
    pub list: Vec<Method<'t>>,
    pub numbers: Numbers,
}

/// The first methods of all names.
pub fn methods_of<'t>(alloc: Global, class: &'t ClassTree) -> Result<Methods<'t>, NoMemory>
    ensures { IfOk result (λ methods. Numbering (bodies class.now) (numbered methods) (number_in methods.numbers)) }
{
    let mut methods = Methods {
        list: Vec::new(alloc),
        numbers: Numbers::new(alloc),
    };
    for member in class.members.as_slice() {
        if let Some(method) = method_in(member) {
            add_method(alloc, method, &mut methods)?;
        }
    }
    Ok(methods)
}

/// The method that a member is, if it is one.
fn method_in<'t>(member: &'t Member) -> Option<Method<'t>>
    ensures { option_map body_of result ≡ method_body member.now }
{
    match member {
        Member::Method {
            name,
            params,
            body,
            line,
        } => Some(Method {
            name,
            params,
            body,
            line: *line,
        }),
        Member::Var { .. } | Member::Setup { .. } | Member::Run { .. } | Member::Receive { .. } =>
            None,
    }
}

/// Adds a method, if there is none of its name.
fn add_method<'t>(
    alloc: Global,
    method: Method<'t>,
    methods: &mut Methods<'t>,
) -> Result<(), NoMemory>
    ensures { OnOk result (AddsMethod (body_of method.entry) (numbered methods.old) (number_in methods.old.numbers) (numbered methods.new) (number_in methods.new.numbers)) }
{
    let name = method.name.as_slice();
    if methods.numbers.find(name).is_some() {
        return Ok(());
    }
    methods.numbers.put(alloc, name, methods.list.len())?;
    match methods.list.push(method) {
        Ok(()) => Ok(()),
        Err(_) => Err(NoMemory),
    }
}
