//! Whether two forms can be those of one type, and which numbers are then the same.
ghost use Rattle.std.specs.Prelude.{◌++◌, ◌≡◌, IfOk, OnOk, length, zip};
ghost use Rattle.type_table.specs.Joins.{is_open as says_nothing, joins, kind as kind_of, link as link_in, paired, parts as parts_of};

use crate::form::Form;
use da_values::{List, NoMemory};

/// Whether two forms can be those of one type. The numbers that are then the same are added.
pub fn join(first: &Form, second: &Form, todo: &mut List<(usize, usize)>) -> Result<bool, NoMemory>
    ensures joins { IfOk result (λ can. can ≡ joins first.now second.now) }
    ensures todo { OnOk result (todo.new ≡ todo.old ++ paired first.now second.now) }
{
    let one = parts(first);
    let other = parts(second);
    let agree = kind(first) == kind(second) && one.len() == other.len();
    if agree {
        push_pairs(one, other, todo)?;
    }
    Ok(is_open(first) || is_open(second) || agree)
}

// Adds the pairs of numbers at the same places.
fn push_pairs(
    first: &[usize],
    second: &[usize],
    todo: &mut List<(usize, usize)>,
) -> Result<(), NoMemory>
    requires { length first.now ≡ length second.now }
    ensures { OnOk result (todo.new ≡ todo.old ++ zip first.now second.now) }
{
    for i in 0..first.len() {
        todo.push((first[i], second[i]))?;
    }
    Ok(())
}

/// Whether nothing is told.
pub fn is_open(form: &Form) -> bool
    ensures { result ≡ says_nothing form.now }
{
    match form {
        Form::Open => true,
        Form::Same(_)
        | Form::Int
        | Form::Bool
        | Form::Text
        | Form::Proc
        | Form::Tuple(_)
        | Form::Set(_) => false,
    }
}

/// The smaller number that stands for the same type, where one is told.
pub fn link(form: &Form) -> Option<usize>
    ensures { result ≡ link_in form.now }
{
    match form {
        Form::Same(number) => Some(*number),
        Form::Open
        | Form::Int
        | Form::Bool
        | Form::Text
        | Form::Proc
        | Form::Tuple(_)
        | Form::Set(_) => None,
    }
}

// The kind of a form.
fn kind(form: &Form) -> u8
    ensures { result ≡ kind_of form.now }
{
    match form {
        Form::Open | Form::Same(_) => 0,
        Form::Int => 1,
        Form::Bool => 2,
        Form::Text => 3,
        Form::Proc => 4,
        Form::Set(_) => 5,
        Form::Tuple(_) => 6,
    }
}

// The numbers of the parts of a form.
fn parts(form: &Form) -> &[usize]
    ensures { result.now ≡ parts_of form.now }
{
    match form {
        Form::Tuple(parts) => parts.as_slice(),
        Form::Set(element) => std::slice::from_ref(element),
        Form::Open | Form::Same(_) | Form::Int | Form::Bool | Form::Text | Form::Proc => &[],
    }
}
