//! What is asked of types that may refuse a program: order, sets, levels, tokens.
ghost use Rattle.std.specs.Prelude.{◌<◌, ◌≡◌, IfOk, List as ListOf, length};
ghost use Rattle.da_lang.specs.Types.{is_flat as is_flat_type, is_set as is_set_type, ordered as is_ordered_type};
ghost use Rattle.type_table.specs.Fits.{Fits, IsTable};
ghost use Rattle.type_table.specs.Values.{types_of};
ghost use Rattle.type_table.specs.declared.form.Form.{Form as FormOf};
ghost use Rattle.type_choice.specs.Looks.{AreLooks, is_short as is_short_type};

use crate::kinds::{ordered_marks, set_marks};
use crate::order::in_order;
use crate::sizes::{level_numbers, token_numbers};
use crate::values::{is_marked_in, number_at};
use da_values::{List, NoMemory};
use std::alloc::Global;
use type_table::Form;

// As many levels and tokens as a type may have.
const MOST_LEVELS: usize = 32;

const MOST_TOKENS: usize = 1024;

/// What is seen of the type of each number of a table.
#[derive(Drop)]
pub struct Looks {
    /// Whether it is ordered.
    pub ordered: List<bool>,
    /// Whether it is a set.
    pub sets: List<bool>,
    /// Its levels, counted to 33 at most.
    pub levels: List<usize>,
    /// The tokens that spell it, counted to 1,025 at most.
    pub tokens: List<usize>,
}

/// Looks at the types that a table gives. No type is built: each number is looked at a few times, and each part of a number.
pub fn look(alloc: Global, forms: &[Form]) -> Result<Looks, NoMemory>
    requires table { IsTable forms.now }
    requires fits { Fits (types_of forms.now) forms.now }
    ensures { IfOk result (λ looks. AreLooks forms.now looks) }
{
    let numbers = in_order(alloc, forms)?;
    let order = numbers.as_slice();
    Ok(Looks {
        ordered: ordered_marks(alloc, forms, order)?,
        sets: set_marks(alloc, forms, order)?,
        levels: level_numbers(alloc, forms, order)?,
        tokens: token_numbers(alloc, forms, order)?,
    })
}

impl Looks {
    /// Whether the type of a number is ordered.
    pub fn is_ordered(&self, number: usize) -> bool
        ensures { (forms : ListOf FormOf) → AreLooks forms self.now → number < length forms → result ≡ is_ordered_type (types_of forms number) }
    {
        is_marked_in(self.ordered.as_slice(), number)
    }

    /// Whether the type of a number is a set.
    pub fn is_set(&self, number: usize) -> bool
        ensures { (forms : ListOf FormOf) → AreLooks forms self.now → number < length forms → result ≡ is_set_type (types_of forms number) }
    {
        is_marked_in(self.sets.as_slice(), number)
    }

    /// Whether the type of a number has at most 32 levels.
    pub fn is_flat(&self, number: usize) -> bool
        ensures { (forms : ListOf FormOf) → AreLooks forms self.now → number < length forms → result ≡ is_flat_type (types_of forms number) }
    {
        number_at(self.levels.as_slice(), number) <= MOST_LEVELS
    }

    /// Whether the type of a number is spelled by at most 1,024 tokens.
    pub fn is_short(&self, number: usize) -> bool
        ensures { (forms : ListOf FormOf) → AreLooks forms self.now → number < length forms → result ≡ is_short_type (types_of forms number) }
    {
        number_at(self.tokens.as_slice(), number) <= MOST_TOKENS
    }
}
