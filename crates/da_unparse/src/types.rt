//! Types.
ghost use Rattle.da_unparse.specs.Texts.{separated, type_text};
ghost use Rattle.std.specs.Prelude.{◌≡◌, ◌++◌, codes, OnOk};

use crate::words::tuple_end_of;
use da_lang::Ty;
use da_values::{Buf, NoMemory};

/// Appends a type.
#[cycle(types)]
#[tactic(auto, using(crate::proofs::TextRules::type_rules))]
pub fn put_type(ty: &Ty, out: &mut Buf) -> Result<(), NoMemory>
    ensures { OnOk result (out.new ≡ out.old ++ type_text ty.now) }
{
    match ty {
        Ty::Int => out.append(b"int"),
        Ty::Bool => out.append(b"bool"),
        Ty::Text => out.append(b"str"),
        Ty::Proc => out.append(b"proc"),
        Ty::Tuple(parts) => {
            out.append(b"(")?;
            put_types(parts.as_slice(), out)?;
            out.append(tuple_end_of(parts.len()))
        }
        Ty::Set(element) => {
            out.append(b"set[")?;
            put_type(element.get(), out)?;
            out.append(b"]")
        }
    }
}

/// Appends types with commas between.
#[cycle(types)]
pub fn put_types(types: &[Ty], out: &mut Buf) -> Result<(), NoMemory>
    ensures { OnOk result (out.new ≡ out.old ++ separated (codes ", ") type_text types.now) }
{
    match types {
        [] => Ok(()),
        [first, rest @ ..] => {
            put_type(first, out)?;
            for ty in rest {
                out.append(b", ")?;
                put_type(ty, out)?;
            }
            Ok(())
        }
    }
}
