//! Copies of types that are made of unknown types.
ghost use Rattle.std.specs.Prelude.{◌≡◌, IfOk};

use da_values::{Boxed, List, NoMemory};
use std::alloc::Global;
use type_table::Scheme;

/// A copy.
#[cycle(copy)]
pub fn copy_scheme(scheme: &Scheme, alloc: Global) -> Result<Scheme, NoMemory>
    ensures { IfOk result (λ copy. copy ≡ scheme.now) }
{
    match scheme {
        Scheme::Unknown(number) => Ok(Scheme::Unknown(*number)),
        Scheme::Int => Ok(Scheme::Int),
        Scheme::Bool => Ok(Scheme::Bool),
        Scheme::Text => Ok(Scheme::Text),
        Scheme::Proc => Ok(Scheme::Proc),
        Scheme::Tuple(parts) => {
            let parts = copy_schemes(parts.as_slice(), alloc)?;
            Ok(Scheme::Tuple(parts))
        }
        Scheme::Set(element) => {
            let element = copy_boxed(element, alloc)?;
            Ok(Scheme::Set(element))
        }
        Scheme::Element(whole) => {
            let whole = copy_boxed(whole, alloc)?;
            Ok(Scheme::Element(whole))
        }
        Scheme::Part { whole, at, count } => {
            let whole = copy_boxed(whole, alloc)?;
            Ok(Scheme::Part {
                whole,
                at: *at,
                count: *count,
            })
        }
    }
}

/// A copy in a place of its own.
#[cycle(copy)]
fn copy_boxed(scheme: &Boxed<Scheme>, alloc: Global) -> Result<Boxed<Scheme>, NoMemory>
    ensures { IfOk result (λ copy. copy ≡ scheme.now) }
{
    let copy = copy_scheme(scheme.get(), alloc)?;
    Boxed::new(alloc, copy)
}

/// Copies.
#[cycle(copy)]
pub fn copy_schemes(schemes: &[Scheme], alloc: Global) -> Result<List<Scheme>, NoMemory>
    ensures { IfOk result (λ copy. copy ≡ schemes.now) }
{
    let mut copy = List::new(alloc);
    for scheme in schemes {
        let one = copy_scheme(scheme, alloc)?;
        copy.push(one)?;
    }
    Ok(copy)
}
