//! Types and signs as a person would write them.
use da_lang::{ArithOp, CmpOp, Ty};
use text_hints::Phrase;

/// Adds a type.
#[cycle(types)]
pub fn put_type(ty: &Ty, out: &mut Phrase) {
    match ty {
        Ty::Int => out.put(b"int"),
        Ty::Bool => out.put(b"bool"),
        Ty::Text => out.put(b"str"),
        Ty::Proc => out.put(b"proc"),
        Ty::Tuple(parts) => {
            out.put(b"(");
            put_types(parts.as_slice(), out);
            out.put(closing(parts.len()));
        }
        Ty::Set(element) => {
            out.put(b"set[");
            put_type(element.get(), out);
            out.put(b"]");
        }
    }
}

// What closes a tuple of so many parts.
fn closing(count: usize) -> &'static [u8] {
    if count == 1 { b",)" } else { b")" }
}

/// Adds types, with commas between.
#[cycle(types)]
pub fn put_types(types: &[Ty], out: &mut Phrase) {
    for (place, ty) in types.iter().enumerate() {
        put_comma(place, out);
        put_type(ty, out);
    }
}

// Adds a comma before what is not the first.
fn put_comma(place: usize, out: &mut Phrase) {
    if place != 0 {
        out.put(b", ");
    }
}

/// The sign of a comparison.
pub fn sign_of(op: CmpOp) -> &'static [u8] {
    match op {
        CmpOp::Eq => b"==",
        CmpOp::Ne => b"!=",
        CmpOp::Lt => b"<",
        CmpOp::Le => b"<=",
        CmpOp::Gt => b">",
        CmpOp::Ge => b">=",
    }
}

/// The sign of an operation.
pub fn operator_of(op: ArithOp) -> &'static [u8] {
    match op {
        ArithOp::Plus => b"+",
        ArithOp::Minus => b"-",
        ArithOp::Times => b"*",
        ArithOp::Div => b"//",
        ArithOp::Mod => b"%",
    }
}

/// How many parts the widest tuple of a type has.
#[cycle(type_widths)]
pub fn width_of_type(ty: &Ty) -> usize {
    match ty {
        Ty::Tuple(parts) => parts.len().max(widest_type(parts.as_slice())),
        Ty::Set(element) => width_of_type(element.get()),
        _ => 0,
    }
}

/// The same of several types.
#[cycle(type_widths)]
pub fn widest_type(types: &[Ty]) -> usize {
    let mut most = 0usize;
    for ty in types {
        most = most.max(width_of_type(ty));
    }
    most
}
