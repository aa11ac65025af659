//! All equations of a table.
ghost use Rattle.std.specs.Prelude.{◌≡◌, [], IfOk, false, length, true};
ghost use Rattle.type_table.specs.Fits.{AreWithin, IsTable};
ghost use Rattle.type_table.specs.Solves.{Alike, Clashes};

use da_values::{List, NoMemory};
use std::alloc::Global;
use type_table::{Form, unify};

/// Puts equations into a table. It answers whether some types can be so.
pub fn unify_all(
    alloc: Global,
    forms: &mut List<Form>,
    equations: &[(usize, usize)],
) -> Result<bool, NoMemory>
    requires table { IsTable forms.old }
    requires pairs { AreWithin (length forms.old) equations.now }
    ensures table { IsTable forms.new }
    ensures size { length forms.new ≡ length forms.old }
    ensures solved { IfOk result (λ can. can ≡ true → Alike forms.old equations.now forms.new []) }
    ensures clash { IfOk result (λ can. can ≡ false → Clashes forms.old equations.now) }
{
    for equation in equations {
        if !unify(alloc, forms, equation.0, equation.1)? {
            return Ok(false);
        }
    }
    Ok(true)
}
