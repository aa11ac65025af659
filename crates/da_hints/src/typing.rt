//! The types that expressions have by their form, and the names that patterns bring into scope.
use crate::scope::{Role, Scope};
use da_lang::{Expr, GenTree, PatternTree, PeerTree, SourceTree, Ty};
use da_values::{Boxed, List};
use std::alloc::Global;

/// The type that an expression has by its form, where it is known.
#[cycle(typing)]
pub fn type_of<'t>(x: &'t Expr, scope: &mut Scope<'t>) -> Option<Ty> {
    match x {
        Expr::Name(name) => scope.type_of(name.as_slice()),
        Expr::Tuple(parts) => tuple_of(parts.as_slice(), scope),
        Expr::SetOf(parts) => set_of(parts.as_slice(), scope),
        Expr::Comp { term, gens, .. } => {
            let outside = scope.len();
            enter_gens(gens.as_slice(), Role::QueryVariable, scope);
            let ty = type_of(term.get(), scope);
            scope.leave_to(outside);
            set(scope.alloc, ty?)
        }
        Expr::Chain(first, _) => type_of(first.get(), scope),
        Expr::Min(argument, _) => element(type_of(argument.get(), scope)),
        Expr::Max(argument, _) => element(type_of(argument.get(), scope)),
        _ => plain_type(x, scope.alloc),
    }
}

// The type of an expression whose form alone gives it.
fn plain_type(x: &Expr, alloc: Global) -> Option<Ty> {
    match x {
        Expr::Int(_) | Expr::Clock | Expr::Count(_) | Expr::Sum(_) => Some(Ty::Int),
        Expr::Text(_) => Some(Ty::Text),
        Expr::Me => Some(Ty::Proc),
        Expr::Range(_, _) => set(alloc, Ty::Int),
        _ => Some(Ty::Bool),
    }
}

/// The type of sets with elements of a type.
pub fn set(alloc: Global, ty: Ty) -> Option<Ty> {
    match Boxed::new(alloc, ty) {
        Ok(element) => Some(Ty::Set(element)),
        Err(_) => None,
    }
}

/// The type of the elements of a type of sets.
pub fn element(ty: Option<Ty>) -> Option<Ty> {
    match ty {
        Some(Ty::Set(element)) => Some(element.into_inner()),
        _ => None,
    }
}

#[cycle(typing)]
fn tuple_of<'t>(parts: &'t [Expr], scope: &mut Scope<'t>) -> Option<Ty> {
    let mut types = List::new(scope.alloc);
    for part in parts {
        types.push(type_of(part, scope)?).ok()?;
    }
    Some(Ty::Tuple(types))
}

#[cycle(typing)]
fn set_of<'t>(parts: &'t [Expr], scope: &mut Scope<'t>) -> Option<Ty> {
    for part in parts {
        if let Some(ty) = type_of(part, scope) {
            return set(scope.alloc, ty);
        }
    }
    None
}

/// The names of the patterns of generators come into scope.
pub fn enter_gens<'t>(gens: &'t [GenTree], role: Role, scope: &mut Scope<'t>) {
    for generator in gens {
        enter_gen(generator, role, scope);
    }
}

/// The names of the patterns of a generator come into scope.
pub fn enter_gen<'t>(generator: &'t GenTree, role: Role, scope: &mut Scope<'t>) {
    match &generator.source {
        SourceTree::Received | SourceTree::Sent => enter_message(&generator.message, role, scope),
        SourceTree::Name(name) => {
            let ty = element(scope.type_of(name.as_slice()));
            enter_pattern(&generator.message, ty.as_ref(), role, scope);
        }
    }
    match &generator.peer {
        None => {}
        Some(PeerTree::From(pattern)) => enter_pattern(pattern, Some(&Ty::Proc), role, scope),
        Some(PeerTree::To(pattern)) => enter_pattern(pattern, Some(&Ty::Proc), role, scope),
    }
}

/// The names of a message pattern come into scope.
pub fn enter_message<'t>(pattern: &'t PatternTree, role: Role, scope: &mut Scope<'t>) {
    if let PatternTree::Tuple(parts) = pattern {
        if let [PatternTree::Text(tag), rest @ ..] = parts.as_slice() {
            if let Some(message) = scope.message(tag.as_bytes(), Some(rest.len())) {
                enter_parts(rest, message.parts.as_slice(), role, scope);
                return;
            }
        }
    }
    enter_pattern(pattern, None, role, scope);
}

/// The names of a pattern over a type come into scope.
#[cycle(entering)]
pub fn enter_pattern<'t>(
    pattern: &'t PatternTree,
    ty: Option<&Ty>,
    role: Role,
    scope: &mut Scope<'t>,
) {
    match pattern {
        PatternTree::Name(name) => {
            let ty = scope.copy(ty);
            scope.enter(name.as_slice(), role, ty);
        }
        PatternTree::Tuple(parts) => match ty {
            Some(Ty::Tuple(types)) => enter_parts(parts.as_slice(), types.as_slice(), role, scope),
            _ => enter_parts(parts.as_slice(), &[], role, scope),
        },
        _ => {}
    }
}

// The names of the parts of a tuple come into scope.
#[cycle(entering)]
fn enter_parts<'t>(parts: &'t [PatternTree], types: &[Ty], role: Role, scope: &mut Scope<'t>) {
    for (place, part) in parts.iter().enumerate() {
        enter_pattern(part, types.get(place), role, scope);
    }
}

/// The names that a condition binds for what comes after it come into scope: those of a whole `some`.
pub fn enter_found<'t>(cond: &'t Expr, scope: &mut Scope<'t>) {
    if let Expr::Quant { each, gens, .. } = cond {
        if !*each {
            enter_gens(gens.as_slice(), Role::BoundVariable, scope);
        }
    }
}
