//! Sentences on types.
use crate::case::Case;
use crate::parts::{blame_place, place_of, written};
use crate::walk::Span;
use da_lang::{Expr, Ty};
use da_typing::same_type;

/// Adds what stands at a place in quotes, as far as it is short, and blames it.
pub fn put_place(place: Span, case: &mut Case<'_>) {
    let written = written(place, case);
    case.hint.sentence.quote_front(written.as_slice());
    blame_place(place, case);
}

// The same of an expression.
fn put_part(x: &Expr, case: &mut Case<'_>) {
    let place = place_of(x, case);
    put_place(place, case);
}

/// Says of which type an expression is, and blames it.
pub fn put_of_type<'t>(x: &'t Expr, case: &mut Case<'t>) {
    put_part(x, case);
    match case.type_of(x) {
        Some(ty) => {
            let shown = case.shown(&ty);
            case.tell(b" is $", shown.as_slice(), b"");
        }
        None => case.say(b" has no type of its own"),
    }
}

/// Tells that an expression is of another type than is wanted. It answers `true`.
pub fn tell_other<'t>(x: &'t Expr, wanted: &Ty, case: &mut Case<'t>) -> bool {
    let shown = case.shown(wanted);
    tell_no(x, shown.as_slice(), case);
    if let Ty::Set(element) = wanted {
        if !note_element(x, element.get(), case) && matches!(x, Expr::Tuple(_)) {
            case.note(b"a set stands in braces, {1, 2}, and a tuple in brackets, (1, 2)");
        }
    }
    true
}

// That one element stands where a set of such elements is wanted. Whether it is so.
fn note_element<'t>(x: &'t Expr, element: &Ty, case: &mut Case<'t>) -> bool {
    match case.type_of(x) {
        Some(ty) if same_type(&ty, element) => {
            let place = place_of(x, case);
            let written = written(place, case);
            case.note_of(
                b"the set of this one element is {$}",
                written.as_slice(),
                b"",
            );
            true
        }
        _ => false,
    }
}

/// Tells that an expression is of another type than what is named. It answers `true`.
pub fn tell_no<'t>(x: &'t Expr, wanted: &[u8], case: &mut Case<'t>) -> bool {
    put_of_type(x, case);
    case.tell(b", and $ is wanted", wanted, b"");
    true
}

/// Tells that an expression may not stand at its place. It answers `true`.
pub fn tell_form(x: &Expr, why: &[u8], cure: &[u8], case: &mut Case<'_>) -> bool {
    put_part(x, case);
    case.say(why);
    case.note(cure);
    true
}
