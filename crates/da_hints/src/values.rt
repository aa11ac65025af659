//! Rules of types outside of queries.
use crate::case::Case;
use crate::parts::blame_word;
use crate::queries::{tell_aggregate, tell_query};
use crate::shown::{operator_of, sign_of};
use crate::told::{put_of_type, tell_form, tell_no, tell_other};
use crate::typing::element;
use da_lang::{ArithOp, ChainTree, CmpOp, Expr, Ty};
use da_typing::same_type;

/// Tells that an expression whose parts break no rule of types breaks one, and answers whether it does. What its place asks for is
/// not looked at. Queries have rules of their own.
pub fn tell_value<'t>(x: &'t Expr, case: &mut Case<'t>) -> bool {
    match x {
        Expr::Or(parts) => tell_truths(parts.as_slice(), case),
        Expr::And(parts) => tell_truths(parts.as_slice(), case),
        Expr::Not(part) => tell_truth(part.get(), case),
        Expr::Cmp(op, first, second) => tell_comparison(*op, first.get(), second.get(), case),
        Expr::Member(first, second) => tell_member(first.get(), second.get(), case),
        Expr::Chain(first, links) => tell_chain(first.get(), links.as_slice(), case),
        Expr::Range(first, second) => {
            tell_misfit(first.get(), &Ty::Int, case) || tell_misfit(second.get(), &Ty::Int, case)
        }
        Expr::SetOf(parts) => tell_elements(parts.as_slice(), case),
        _ => tell_query(x, case) || tell_aggregate(x, case),
    }
}

fn tell_truths<'t>(parts: &'t [Expr], case: &mut Case<'t>) -> bool {
    for part in parts {
        if tell_truth(part, case) {
            return true;
        }
    }
    false
}

/// Tells that an expression is no truth value, where it is none.
pub fn tell_truth<'t>(x: &'t Expr, case: &mut Case<'t>) -> bool {
    match case.type_of(x) {
        Some(Ty::Bool) => false,
        found => {
            tell_no(x, b"bool", case);
            match found {
                Some(Ty::Set(_)) | None => case.note(b"whether a set has elements: s != {}"),
                Some(Ty::Int) => case.note(b"a number is compared: n != 0"),
                _ => {}
            }
            true
        }
    }
}

// The elements of a set that is written out are all of the type of the first.
fn tell_elements<'t>(parts: &'t [Expr], case: &mut Case<'t>) -> bool {
    let [first, others @ ..] = parts else {
        return false;
    };
    let Some(ty) = case.type_of(first) else {
        return false;
    };
    for other in others {
        if tell_misfit(other, &ty, case) {
            case.note(b"the elements of a set are all of one type");
            return true;
        }
    }
    false
}

// `a in s`
fn tell_member<'t>(first: &'t Expr, second: &'t Expr, case: &mut Case<'t>) -> bool {
    match element(case.type_of(second)) {
        Some(ty) => tell_misfit(first, &ty, case),
        None => tell_no(second, b"a set behind 'in'", case),
    }
}

// A comparison: two of one type, and for an order a type that has one.
fn tell_comparison<'t>(op: CmpOp, first: &'t Expr, second: &'t Expr, case: &mut Case<'t>) -> bool {
    let Some(ty) = case.type_of(first) else {
        put_of_type(first, case);
        case.say(b" left of a comparison");
        case.note(b"write {} on the right: s == {}");
        return true;
    };
    if tell_no_order(op, first, &ty, case) {
        return true;
    }
    if !tell_misfit(second, &ty, case) {
        return false;
    }
    note_sides(op, &ty, case);
    true
}

/// Tells that the left side of a comparison is of a type that has no order, where one is asked for.
pub fn tell_no_order<'t>(op: CmpOp, first: &'t Expr, ty: &Ty, case: &mut Case<'t>) -> bool {
    if is_ordered(ty) || matches!(op, CmpOp::Eq | CmpOp::Ne) {
        return false;
    }
    put_of_type(first, case);
    case.tell(b", which has no order for @", sign_of(op), b"");
    true
}

/// Tells of which type both sides of a comparison are.
pub fn note_sides(op: CmpOp, ty: &Ty, case: &mut Case<'_>) {
    let shown = case.shown(ty);
    let form = b"both sides of @ are of one type; the left one is $";
    case.note_of(form, sign_of(op), shown.as_slice());
}

/// Whether values of a type have an order for a program.
#[cycle(ordered)]
pub fn is_ordered(ty: &Ty) -> bool {
    match ty {
        Ty::Int | Ty::Text | Ty::Proc => true,
        Ty::Bool | Ty::Set(_) => false,
        Ty::Tuple(parts) => are_ordered(parts.as_slice()),
    }
}

#[cycle(ordered)]
fn are_ordered(parts: &[Ty]) -> bool {
    for part in parts {
        if !is_ordered(part) {
            return false;
        }
    }
    true
}

// Operands with `+`, `-`, `*`, `//` and `%` between.
fn tell_chain<'t>(first: &'t Expr, links: &'t [ChainTree], case: &mut Case<'t>) -> bool {
    let Some(ty) = case.type_of(first) else {
        put_of_type(first, case);
        case.say(b" as an operand");
        case.note(b"put it into a variable first, which has a type");
        return true;
    };
    let is_set = matches!(ty, Ty::Set(_));
    if !is_set && !matches!(ty, Ty::Int) {
        tell_operands(first, links, case);
        if matches!(ty, Ty::Text) {
            case.note(b"texts are not joined; a tuple holds values of several types: ('got', n)");
        } else if matches!(ty, Ty::Proc) {
            case.note(b"the set of one process is {p}, and sets are added: {p} + ps");
        }
        return true;
    }
    for link in links {
        if is_set && matches!(link.op, ArithOp::Div | ArithOp::Mod) {
            tell_operands(first, links, case);
            return true;
        }
        if tell_misfit(link.operand.get(), &ty, case) {
            let form = b"@ takes two integers (int), or two sets of one type";
            case.note_of(form, operator_of(link.op), b"");
            return true;
        }
    }
    false
}

// What the first operand of a chain is, and what its first sign takes.
fn tell_operands<'t>(first: &'t Expr, links: &[ChainTree], case: &mut Case<'t>) {
    put_of_type(first, case);
    if let [link, ..] = links {
        let form = match link.op {
            ArithOp::Div | ArithOp::Mod => b", and @ takes two integers (int)".as_slice(),
            _ => b", and @ takes two integers (int), or two sets of one type",
        };
        case.tell(form, operator_of(link.op), b"");
    }
}

/// Tells the first part of an expression that is not of the type which its place asks for, and answers whether there is one.
#[cycle(misfits)]
pub fn tell_misfit<'t>(x: &'t Expr, wanted: &Ty, case: &mut Case<'t>) -> bool {
    match x {
        Expr::SetOf(parts) => match wanted {
            Ty::Set(element) => tell_misfits(parts.as_slice(), element.get(), case),
            _ => tell_other(x, wanted, case),
        },
        Expr::Tuple(parts) => match wanted {
            Ty::Tuple(types) if types.len() == parts.len() => {
                tell_parts(parts.as_slice(), types.as_slice(), case)
            }
            _ => tell_other(x, wanted, case),
        },
        _ => match case.type_of(x) {
            Some(ty) if !same_type(&ty, wanted) => tell_other(x, wanted, case),
            _ => false,
        },
    }
}

#[cycle(misfits)]
fn tell_misfits<'t>(parts: &'t [Expr], wanted: &Ty, case: &mut Case<'t>) -> bool {
    for part in parts {
        if tell_misfit(part, wanted, case) {
            note_braces(part, wanted, case);
            return true;
        }
    }
    false
}

// That an element is itself the set which is wanted.
fn note_braces<'t>(part: &'t Expr, wanted: &Ty, case: &mut Case<'t>) {
    match element(case.type_of(part)) {
        Some(ty) if same_type(&ty, wanted) => case.note(
            b"it is such a set itself: write it without braces",
        ),
        _ => {}
    }
}

#[cycle(misfits)]
fn tell_parts<'t>(parts: &'t [Expr], types: &[Ty], case: &mut Case<'t>) -> bool {
    for (place, part) in parts.iter().enumerate() {
        if let Some(wanted) = types.get(place) {
            if tell_misfit(part, wanted, case) {
                return true;
            }
        }
    }
    false
}

/// Tells that an expression has no type of its own, where its place gives it none.
pub fn tell_untyped<'t>(x: &'t Expr, case: &mut Case<'t>) -> bool {
    if case.type_of(x).is_some() {
        return false;
    }
    case.say(b"nothing says here what the elements of the empty set are: {}");
    blame_word(b"{", case);
    case.note(b"put it into a variable of the class first, which has a type");
    true
}

/// Tells that an expression is no set, or what its elements are not. It answers whether that is so.
pub fn tell_no_set<'t>(x: &'t Expr, case: &mut Case<'t>) -> bool {
    if element(case.type_of(x)).is_some() {
        return false;
    }
    tell_form(
        x,
        b" is no set",
        b"a loop goes through the elements of a set, as range(0, n)",
        case,
    )
}
