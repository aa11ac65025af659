//! Which rule of types is broken on a line.
use crate::case::Case;
use crate::parts::blame_word;
use crate::patterns::{tell_message_pattern, tell_pattern, tell_recipient, tell_sent};
use crate::queries::tell_condition;
use crate::rules::{class_made, params_of};
use crate::site::Part;
use crate::values::{tell_misfit, tell_no_set, tell_truth, tell_untyped, tell_value};
use crate::walk::Step;
use da_bodies::Place;
use da_lang::{Expr, MainLine, Param, Stmt, Ty};

/// The levels that a type may have.
const MOST_LEVELS: usize = 32;

/// Tells which part of the line breaks a rule of types, and answers whether one does.
pub fn tell_types<'t>(case: &mut Case<'t>) -> bool {
    let part = case.site.part;
    match part {
        Part::Header => return tell_handler(case),
        Part::Wait(cond) => return tell_condition(cond, case),
        _ => {}
    }
    if let Part::Statement(Stmt::Send { message, .. }) = part {
        if matches!(message.get(), Expr::SetOf(_)) {
            return tell_sent(message.get(), case);
        }
    }
    for place in 0..case.steps.len() {
        if let Some(Step::Whole(part, 0, _)) = case.steps.get(place).copied() {
            if tell_value(part, case) {
                return true;
            }
        }
    }
    match part {
        Part::Statement(stmt) => tell_stmt(stmt, case),
        Part::Branch(cond) => tell_truth(cond, case),
        Part::Main(MainLine::Setup { name, args, .. }) => match class_made(name.as_slice(), case) {
            Some(class) => tell_args(args.as_slice(), params_of(class, None), case),
            None => false,
        },
        _ => false,
    }
}

// A statement whose expressions break no rule by themselves.
fn tell_stmt<'t>(stmt: &'t Stmt, case: &mut Case<'t>) -> bool {
    match stmt {
        Stmt::Assign { name, value, .. } => {
            tell_changed(name.as_slice(), value.get(), true, case) || tell_levels(value.get(), case)
        }
        Stmt::Add { name, value, .. } => tell_changed(name.as_slice(), value.get(), false, case),
        Stmt::Del { name, value, .. } => {
            tell_changed(name.as_slice(), value.get(), false, case)
                || tell_untyped(value.get(), case)
        }
        Stmt::Send { message, to, .. } => {
            tell_sent(message.get(), case) || tell_recipient(to.get(), case)
        }
        Stmt::Output { value, .. } => {
            tell_untyped(value.get(), case) || tell_levels(value.get(), case)
        }
        Stmt::Call { name, args, .. } => match case.site.class {
            Some(class) => tell_args(
                args.as_slice(),
                params_of(class, Some(name.as_slice())),
                case,
            ),
            None => false,
        },
        Stmt::While { cond, .. } => tell_truth(cond.get(), case),
        Stmt::For { over, .. } => tell_untyped(over.get(), case) || tell_no_set(over.get(), case),
        _ => false,
    }
}

// A value that is given to a variable, or an element that is put into its set or taken out.
fn tell_changed<'t>(name: &[u8], value: &'t Expr, assigned: bool, case: &mut Case<'t>) -> bool {
    let Some(ty) = case.scope.type_of(name) else {
        return false;
    };
    let shown = case.shown(&ty);
    let told = match &ty {
        Ty::Set(element) if !assigned => tell_misfit(value, element.get(), case),
        _ if assigned => tell_misfit(value, &ty, case),
        _ => {
            let form = b"@ is $, and add and del are of a set";
            case.tell(form, name, shown.as_slice());
            blame_word(name, case);
            return true;
        }
    };
    if told {
        case.note_of(b"the variable @ is $", name, shown.as_slice());
    }
    told
}

// Arguments, each of the type of its parameter.
fn tell_args<'t>(args: &'t [Expr], params: &'t [Param], case: &mut Case<'t>) -> bool {
    for (place, arg) in args.iter().enumerate() {
        if let Some(param) = params.get(place) {
            if tell_misfit(arg, &param.ty, case) {
                let shown = case.shown(&param.ty);
                let form = b"it is given to the parameter @: $";
                case.note_of(form, param.name.as_slice(), shown.as_slice());
                return true;
            }
        }
    }
    false
}

// The patterns of a handler.
fn tell_handler(case: &mut Case<'_>) -> bool {
    let Some(body) = case.site.body else {
        return false;
    };
    let Place::Handler { message, from, .. } = body.place else {
        return false;
    };
    if tell_message_pattern(message, case) {
        return true;
    }
    match from {
        Some(pattern) => tell_pattern(pattern, &Ty::Proc, case),
        None => false,
    }
}

// Tells that the type of an expression has too many levels.
fn tell_levels<'t>(x: &'t Expr, case: &mut Case<'t>) -> bool {
    let Some(ty) = case.type_of(x) else {
        return false;
    };
    let levels = levels_of(&ty);
    if levels <= MOST_LEVELS {
        return false;
    }
    let levels = case.digits(levels as u64);
    let form = b"a value here has a type of $ levels of tuples and sets; at most 32 are allowed";
    case.tell(form, levels.as_slice(), b"");
    true
}

// How many levels of tuples and sets a type has.
#[cycle(levels)]
fn levels_of(ty: &Ty) -> usize {
    match ty {
        Ty::Tuple(parts) => deepest(parts.as_slice()).saturating_add(1),
        Ty::Set(element) => levels_of(element.get()).saturating_add(1),
        _ => 0,
    }
}

#[cycle(levels)]
fn deepest(types: &[Ty]) -> usize {
    let mut most = 0usize;
    for ty in types {
        most = most.max(levels_of(ty));
    }
    most
}
