//! The values with which slots begin.
ghost use Rattle.da_lang.specs.World.{default as default_def, first_value as first_def};
ghost use Rattle.da_values.specs.Value.{val_of};
ghost use Rattle.std.specs.Prelude.{◌≡◌, [], IfOk, map};

use da_lang::Ty;
use da_values::{NoMemory, Row, SetVal, Str, Value};
use std::alloc::Global;

/// The values with which slots of these types begin in process `me`.
pub fn first_values(alloc: Global, me: u16, slots: &[Option<Ty>]) -> Result<Row, NoMemory>
    ensures { IfOk result (λ values. values ≡ map (first_def me) slots.now) }
{
    let mut values = Row::new(alloc);
    for slot in slots {
        values.push(first_value(alloc, me, slot)?)?;
    }
    Ok(values)
}

// The value with which a slot begins, of this type if it is known.
fn first_value(alloc: Global, me: u16, slot: &Option<Ty>) -> Result<Value, NoMemory>
    ensures { IfOk result (λ v. val_of v ≡ first_def me slot.now) }
{
    match slot {
        None => Ok(Value::Proc(0)),
        Some(ty) => default(alloc, me, ty),
    }
}

/// The default of a type in process `me`.
#[cycle(defaults)]
#[tactic(auto, using(crate::proofs::DefaultForms::default_rules))]
fn default(alloc: Global, me: u16, ty: &Ty) -> Result<Value, NoMemory>
    ensures { IfOk result (λ v. val_of v ≡ default_def me ty.now) }
{
    match ty {
        Ty::Int => Ok(Value::Int(0)),
        Ty::Bool => Ok(Value::Bool(false)),
        Ty::Text => Ok(Value::Text(empty_text(alloc)?)),
        Ty::Proc => Ok(Value::Proc(me)),
        Ty::Tuple(parts) => Ok(Value::Tuple(defaults(alloc, me, parts.as_slice())?)),
        Ty::Set(_) => Ok(Value::Set(SetVal::new(alloc))),
    }
}

/// The defaults of types.
#[cycle(defaults)]
fn defaults(alloc: Global, me: u16, types: &[Ty]) -> Result<Row, NoMemory>
    ensures { IfOk result (λ row. row ≡ map (default_def me) types.now) }
{
    let mut row = Row::new(alloc);
    for ty in types {
        row.push(default(alloc, me, ty)?)?;
    }
    Ok(row)
}

// The empty text.
fn empty_text(alloc: Global) -> Result<Str, NoMemory>
    ensures { IfOk result (λ text. text ≡ []) }
{
    match Str::from_bytes(alloc, b"") {
        Ok(text) => Ok(text),
        Err(_) => Err(NoMemory),
    }
}
