//! The widest tuples of types.
ghost use Rattle.da_lang.specs.Written.{greatest, type_width};
ghost use Rattle.da_limits.specs.Capped.{capped};
ghost use Rattle.std.specs.Prelude.{◌≡◌, map};

use crate::numbers::capped;
use da_lang::Ty;

/// The number of parts of the widest tuple of a type.
#[cycle(widths)]
#[tactic(auto, using(crate::proofs::TypeWidths::width_rules))]
pub fn type_width(ty: &Ty) -> u16
    ensures { result ≡ capped (type_width ty.now) }
{
    match ty {
        Ty::Int => 0,
        Ty::Bool => 0,
        Ty::Text => 0,
        Ty::Proc => 0,
        Ty::Tuple(parts) => capped(parts.len()).max(widest_type(parts.as_slice())),
        Ty::Set(element) => type_width(element.get()),
    }
}

/// The number of parts of the widest tuple of some types.
#[cycle(widths)]
pub fn widest_type(types: &[Ty]) -> u16
    ensures { result ≡ capped (greatest (map type_width types.now)) }
{
    let mut widest = 0u16;
    for ty in types {
        widest = widest.max(type_width(ty));
    }
    widest
}
