//! The table of demands.
ghost use Rattle.std.specs.List.{AllByRecursion};
ghost use Rattle.std.specs.Prelude.{◌≡◌, IfOk, map, replicate};
ghost use Rattle.type_table.specs.declared.form.Form.TheVariants as form_of;
ghost use Rattle.type_fitting.specs.Fit.{Knows};
ghost use Rattle.type_fitting.specs.Listed.{Listed};

use crate::numbers::put_demand;
use crate::table::Table;
use da_values::{List, NoMemory};
use std::alloc::Global;
use type_demands::Demand;
use type_table::Form;

/// The table of what is demanded of so many unknown types.
pub fn table_of(alloc: Global, count: usize, demands: &[&Demand]) -> Result<Table, NoMemory>
    requires { AllByRecursion (Knows count) (map (λ x. x.now) demands.now) }
    ensures { IfOk result (Listed count (map (λ x. x.now) demands.now)) }
{
    let forms = open_forms(alloc, count)?;
    let equations = List::new(alloc);
    let notes = List::new(alloc);
    let mut table = Table {
        forms,
        equations,
        notes,
    };
    for demand in demands {
        put_demand(*demand, alloc, &mut table)?;
    }
    Ok(table)
}

// So many numbers of which nothing is told.
fn open_forms(alloc: Global, count: usize) -> Result<List<Form>, NoMemory>
    ensures { IfOk result (λ forms. forms ≡ replicate count form_of.Open) }
{
    let mut forms = List::new(alloc);
    for _i in 0..count {
        forms.push(Form::Open)?;
    }
    Ok(forms)
}
