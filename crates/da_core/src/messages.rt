//! The messages that may be delivered.
ghost use Rattle.da_core.specs.Compiled.{program_of};
ghost use Rattle.da_lang.specs.Shaped as shaped;
ghost use Rattle.da_lang.specs.Types.{all_of as each_of, is_of};
ghost use Rattle.da_values.specs.Value.{val_of, vals};
ghost use Rattle.da_values.specs.declared.val.Val.TheVariants.{Tuple};
ghost use Rattle.std.specs.List.{list_all};
ghost use Rattle.std.specs.Option.{option_copied};
ghost use Rattle.std.specs.Prelude.{◌≡◌, bytes_eq, find, map};

use crate::compiled::Compiled;
use da_lang::{MessageDecl, Ty};
use da_values::{Str, Value, is_narrow};

/// Whether a value is a declared message of its types, all of whose integers lie in an i64, and in which each process
/// is one of the program. It takes no memory.
pub fn well_typed(c: &Compiled, m: &Value) -> bool
    ensures { result ≡ shaped.well_typed (program_of c.now) (val_of m.now) }
{
    let program = c.program();
    is_declared(program.messages.as_slice(), m)
        && is_narrow(m)
        && has_processes(program.procs.len(), m)
}

// Whether a value is a message of the types that are declared for its tag.
#[tactic(auto, using(crate::proofs::MessageForms::declared_as))]
fn is_declared(messages: &[MessageDecl], m: &Value) -> bool
    ensures { result ≡ shaped.is_declared messages.now (val_of m.now) }
{
    match m {
        Value::Tuple(parts) => are_declared_parts(messages, parts.as_slice()),
        Value::Int(_) | Value::Bool(_) | Value::Text(_) | Value::Proc(_) | Value::Set(_) => false,
    }
}

// Whether values are the parts of such a message.
#[tactic(auto, using(crate::proofs::MessageForms::message_of))]
fn are_declared_parts(messages: &[MessageDecl], parts: &[Value]) -> bool
    ensures { result ≡ shaped.is_declared messages.now (Tuple (vals parts.now)) }
{
    let [first, rest @ ..] = parts else {
        return false;
    };
    let Value::Text(tag) = first else {
        return false;
    };
    match declared(messages, tag) {
        None => false,
        Some(message) => are_of(message.parts.as_slice(), rest),
    }
}

// The first message that is declared with a tag.
fn declared<'p>(messages: &'p [MessageDecl], tag: &Str) -> Option<&'p MessageDecl>
    ensures { option_copied result ≡ find (λ m. bytes_eq m.tag tag.now) messages.now }
{
    for message in messages {
        if message.tag.as_slice() == tag.as_bytes() {
            return Some(message);
        }
    }
    None
}

// Whether a value is of a type.
#[cycle(typed)]
#[tactic(auto, using(crate::proofs::MessageForms::belonging, da_values::specs::Layer::weight_of))]
fn is_of(ty: &Ty, value: &Value) -> bool
    ensures { result ≡ is_of ty.now (val_of value.now) }
{
    match (ty, value) {
        (Ty::Int, Value::Int(_)) => true,
        (Ty::Bool, Value::Bool(_)) => true,
        (Ty::Text, Value::Text(_)) => true,
        (Ty::Proc, Value::Proc(_)) => true,
        (Ty::Tuple(types), Value::Tuple(parts)) => are_of(types.as_slice(), parts.as_slice()),
        (Ty::Set(element), Value::Set(elements)) => all_of(element.get(), elements.as_slice()),
        _ => false,
    }
}

// Whether values are as many as types, and each is of its type.
#[cycle(typed)]
#[tactic(auto, using(da_values::specs::Layer::weight_part))]
fn are_of(types: &[Ty], values: &[Value]) -> bool
    ensures { result ≡ each_of (map is_of types.now) (vals values.now) }
{
    let mut rest = types;
    for value in values {
        match rest {
            [] => return false,
            [ty, others @ ..] => {
                if !is_of(ty, value) {
                    return false;
                }
                rest = others;
            }
        }
    }
    rest.is_empty()
}

// Whether all values are of a type.
#[cycle(typed)]
#[tactic(auto, using(da_values::specs::Layer::weight_part))]
fn all_of(ty: &Ty, values: &[Value]) -> bool
    ensures { result ≡ list_all (is_of ty.now) (vals values.now) }
{
    for value in values {
        if !is_of(ty, value) {
            return false;
        }
    }
    true
}

// Whether the processes in a value are among the first so many.
#[cycle(processes)]
#[tactic(auto, using(crate::proofs::MessageForms::has_processes_of, da_values::specs::Layer::weight_of))]
fn has_processes(most: usize, value: &Value) -> bool
    ensures { result ≡ shaped.has_processes most (val_of value.now) }
{
    match value {
        Value::Int(_) => true,
        Value::Bool(_) => true,
        Value::Text(_) => true,
        Value::Proc(process) => *process > 0 && usize::from(*process) <= most,
        Value::Tuple(parts) => have_processes(most, parts.as_slice()),
        Value::Set(elements) => have_processes(most, elements.as_slice()),
    }
}

// Whether the processes in each value are among the first so many.
#[cycle(processes)]
#[tactic(auto, using(da_values::specs::Layer::weight_part))]
fn have_processes(most: usize, values: &[Value]) -> bool
    ensures { result ≡ list_all (shaped.has_processes most) (vals values.now) }
{
    for value in values {
        if !has_processes(most, value) {
            return false;
        }
    }
    true
}
