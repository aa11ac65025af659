//! Rules of types inside queries, and in conditions of `await`.
use crate::case::Case;
use crate::parts::blame_expr;
use crate::patterns::tell_gens;
use crate::scope::Role;
use crate::shown::operator_of;
use crate::told::{put_of_type, tell_form, tell_no, tell_other};
use crate::typing::element;
use crate::values::{is_ordered, note_sides, tell_no_order};
use da_lang::{ArithOp, ChainTree, CmpOp, Expr, Ty};
use da_typing::same_type;
use da_values::Boxed;

const OPERAND: &[u8] = b" may not stand in a condition of await or of a query";

const FIRST: &[u8] = b"work it out into a variable first, and compare with that";

const TERM: &[u8] =
    b" may not stand here: behind '=' in patterns, before the ':' of {..: ..}, and as the last part of min and max";

const TERMS: &[u8] =
    b"there stand literals, self, variables that hold no set, and tuples of these: put it into a variable first";

/// Tells the first breach of a quantification or a comprehension; other expressions have none.
#[cycle(queries)]
pub fn tell_query<'t>(x: &'t Expr, case: &mut Case<'t>) -> bool {
    let outside = case.scope.len();
    let told = match x {
        Expr::Quant { gens, cond, .. } => {
            tell_gens(gens.as_slice(), case) || tell_guard(cond, case)
        }
        Expr::Comp { term, gens, cond } => {
            tell_gens(gens.as_slice(), case)
                || tell_guard(cond, case)
                || tell_term(term.get(), case)
        }
        _ => false,
    };
    case.scope.leave_to(outside);
    told
}

#[cycle(queries)]
fn tell_guard<'t>(cond: &'t Option<Boxed<Expr>>, case: &mut Case<'t>) -> bool {
    match cond {
        None => false,
        Some(x) => tell_condition(x.get(), case),
    }
}

/// Tells the first breach of a condition.
#[cycle(queries)]
pub fn tell_condition<'t>(x: &'t Expr, case: &mut Case<'t>) -> bool {
    match x {
        Expr::Quant { .. } => tell_query(x, case),
        Expr::Or(parts) => tell_conditions(parts.as_slice(), case),
        Expr::And(parts) => tell_conditions(parts.as_slice(), case),
        Expr::Not(part) => tell_condition(part.get(), case),
        Expr::Cmp(op, first, second) => {
            tell_side(first.get(), true, case)
                || tell_side(second.get(), true, case)
                || tell_sides(*op, first.get(), second.get(), case)
        }
        _ => tell_plain_condition(x, case),
    }
}

#[cycle(queries)]
fn tell_conditions<'t>(parts: &'t [Expr], case: &mut Case<'t>) -> bool {
    for part in parts {
        if tell_condition(part, case) {
            return true;
        }
    }
    false
}

// A condition that has no conditions in it and compares nothing.
fn tell_plain_condition<'t>(x: &'t Expr, case: &mut Case<'t>) -> bool {
    if let Expr::Member(_, _) = x {
        let cure = b"write some =e in s in the place of e in s, with the set in a variable";
        return tell_form(x, OPERAND, cure, case);
    }
    let found = case.type_of(x);
    if matches!(found, Some(Ty::Bool)) {
        return false;
    }
    tell_no(x, b"a condition (bool)", case);
    if matches!(found, Some(Ty::Set(_))) {
        case.note(b"whether a set has elements: some _ in s");
    }
    true
}

// A side of a comparison. A `sum` is a whole side.
#[cycle(queries)]
fn tell_side<'t>(x: &'t Expr, whole: bool, case: &mut Case<'t>) -> bool {
    match x {
        Expr::Chain(first, links) => {
            tell_operator(x, links.as_slice(), case)
                || tell_operand(first.get(), case)
                || tell_operands(links.as_slice(), case)
        }
        Expr::Sum(_) if !whole => {
            let why = b" stands beside + or -: a sum is a whole side of a comparison";
            tell_form(x, why, FIRST, case)
        }
        Expr::Count(_) => tell_aggregate(x, case),
        Expr::Sum(_) => tell_aggregate(x, case),
        Expr::Min(_, _) => tell_aggregate(x, case),
        Expr::Max(_, _) => tell_aggregate(x, case),
        _ => tell_plain_side(x, case),
    }
}

// A sign that may not stand in a condition.
fn tell_operator(x: &Expr, links: &[ChainTree], case: &mut Case<'_>) -> bool {
    for link in links {
        if matches!(link.op, ArithOp::Times | ArithOp::Div | ArithOp::Mod) {
            case.tell(
                b"@ may not stand in a condition of await or of a query, where + and - alone may",
                operator_of(link.op),
                b"",
            );
            case.note(FIRST);
            blame_expr(x, case);
            return true;
        }
    }
    false
}

// An operand of a chain is an integer.
#[cycle(queries)]
fn tell_operand<'t>(x: &'t Expr, case: &mut Case<'t>) -> bool {
    if tell_side(x, false, case) {
        return true;
    }
    match case.type_of(x) {
        Some(Ty::Int) => false,
        _ => tell_other(x, &Ty::Int, case),
    }
}

#[cycle(queries)]
fn tell_operands<'t>(links: &'t [ChainTree], case: &mut Case<'t>) -> bool {
    for link in links {
        if tell_operand(link.operand.get(), case) {
            return true;
        }
    }
    false
}

// A side that is a term.
fn tell_plain_side<'t>(x: &'t Expr, case: &mut Case<'t>) -> bool {
    match no_term(x, case) {
        Some(found) if matches!(found, Expr::SetOf(_) | Expr::Name(_)) => tell_form(
            found,
            OPERAND,
            b"a set is asked about by queries: count(s) == 0, some x in s | .., each x in s | ..",
            case,
        ),
        Some(found) => tell_form(found, OPERAND, FIRST, case),
        None => false,
    }
}

// Both sides of a comparison are of one type, which has an order where one is asked for.
fn tell_sides<'t>(op: CmpOp, first: &'t Expr, second: &'t Expr, case: &mut Case<'t>) -> bool {
    let (Some(left), Some(right)) = (case.type_of(first), case.type_of(second)) else {
        return false;
    };
    if same_type(&left, &right) {
        return tell_no_order(op, first, &left, case);
    }
    tell_other(second, &left, case);
    note_sides(op, &left, case);
    true
}

/// Tells that an expression is no term, where it is none.
pub fn tell_term<'t>(x: &'t Expr, case: &mut Case<'t>) -> bool {
    match no_term(x, case) {
        Some(found) => tell_form(found, TERM, TERMS, case),
        None => false,
    }
}

// The first part of an expression that is no term: a literal, `self`, a variable that holds no set, or a tuple of these.
#[cycle(terms)]
fn no_term<'t>(x: &'t Expr, case: &Case<'t>) -> Option<&'t Expr> {
    match x {
        Expr::Int(_) | Expr::Text(_) | Expr::Truth(_) | Expr::Me => None,
        Expr::Name(name) => {
            let role = case.scope.look(name.as_slice())?.role;
            let is_set = matches!(case.scope.type_of(name.as_slice()), Some(Ty::Set(_)));
            if is_set && role != Role::QueryVariable {
                Some(x)
            } else {
                None
            }
        }
        Expr::Tuple(parts) => no_term_in(parts.as_slice(), case),
        _ => Some(x),
    }
}

#[cycle(terms)]
fn no_term_in<'t>(parts: &'t [Expr], case: &Case<'t>) -> Option<&'t Expr> {
    for part in parts {
        if let Some(found) = no_term(part, case) {
            return Some(found);
        }
    }
    None
}

/// Tells the first breach of an aggregate; other expressions have none.
#[cycle(queries)]
pub fn tell_aggregate<'t>(x: &'t Expr, case: &mut Case<'t>) -> bool {
    match x {
        Expr::Count(argument) => tell_argument(argument.get(), case),
        Expr::Sum(argument) => {
            tell_argument(argument.get(), case) || tell_summed(argument.get(), case)
        }
        Expr::Min(argument, other) => {
            tell_argument(argument.get(), case) || tell_extreme(argument.get(), other.get(), case)
        }
        Expr::Max(argument, other) => {
            tell_argument(argument.get(), case) || tell_extreme(argument.get(), other.get(), case)
        }
        _ => false,
    }
}

// The argument of an aggregate is a set.
#[cycle(queries)]
fn tell_argument<'t>(x: &'t Expr, case: &mut Case<'t>) -> bool {
    match x {
        Expr::Comp { .. } => tell_query(x, case),
        _ => match case.type_of(x) {
            Some(Ty::Set(_)) | None => false,
            Some(_) => {
                tell_no(x, b"a set", case);
                case.note(
                    b"the greater of two numbers: u = {x, y} for a variable u: set[int], then max(u, 0)",
                );
                true
            }
        },
    }
}

fn tell_summed<'t>(x: &'t Expr, case: &mut Case<'t>) -> bool {
    match element(case.type_of(x)) {
        Some(Ty::Int) | None => false,
        Some(_) => tell_no(x, b"set[int] for 'sum'", case),
    }
}

fn tell_extreme<'t>(x: &'t Expr, other: &'t Expr, case: &mut Case<'t>) -> bool {
    let Some(ty) = element(case.type_of(x)) else {
        return false;
    };
    if !is_ordered(&ty) {
        put_of_type(x, case);
        case.say(b", and its elements have no order for min and max");
        return true;
    }
    if tell_term(other, case) {
        return true;
    }
    match case.type_of(other) {
        Some(found) if !same_type(&found, &ty) => {
            tell_other(other, &ty, case);
            case.note(b"it is the answer for the empty set, and of the type of the elements");
            true
        }
        _ => false,
    }
}
