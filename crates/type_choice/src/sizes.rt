//! How many levels and tokens types have, counted no further than one too many.
ghost use Rattle.std.specs.Prelude.{◌+◌, ◌≡◌, IfOk, map, suc};
ghost use Rattle.da_values.specs.Nesting.{deepest as deepest_of};
ghost use Rattle.type_table.specs.Fits.{Fits};
ghost use Rattle.type_table.specs.Values.{types_of};
ghost use Rattle.type_choice.specs.Looks.{IsLook, by_form, commas as commas_of, cut_levels, cut_tokens, few_levels, few_levels_step, few_tokens, few_tokens_step, number_at as number_in, total};
ghost use Rattle.type_choice.specs.Order.{IsOrder};

use crate::values::{form_in, number_at, zeros};
use da_values::{List, NoMemory};
use std::alloc::Global;
use type_table::Form;

// One level more than is ever asked for, and one token more.
const LEVELS: usize = 33;

const TOKENS: usize = 1025;

/// The levels of the type of each number.
pub fn level_numbers(
    alloc: Global,
    forms: &[Form],
    order: &[usize],
) -> Result<List<usize>, NoMemory>
    requires fits { Fits (types_of forms.now) forms.now }
    requires order { IsOrder forms.now order.now }
    ensures { IfOk result (λ levels. IsLook few_levels forms.now levels) }
{
    let mut levels = zeros(alloc, forms.len())?;
    for number in order {
        let count = form_levels(form_in(forms, *number), levels.as_slice());
        levels.set(*number, count);
    }
    Ok(levels)
}

/// The tokens of the type of each number.
pub fn token_numbers(
    alloc: Global,
    forms: &[Form],
    order: &[usize],
) -> Result<List<usize>, NoMemory>
    requires fits { Fits (types_of forms.now) forms.now }
    requires order { IsOrder forms.now order.now }
    ensures { IfOk result (λ tokens. IsLook few_tokens forms.now tokens) }
{
    let mut tokens = zeros(alloc, forms.len())?;
    for number in order {
        let count = form_tokens(form_in(forms, *number), tokens.as_slice());
        tokens.set(*number, count);
    }
    Ok(tokens)
}

// The levels of types of this form.
fn form_levels(form: &Form, levels: &[usize]) -> usize
    ensures { result ≡ by_form few_levels_step (number_in levels.now) form.now }
{
    match form {
        Form::Open | Form::Int | Form::Bool | Form::Text | Form::Proc => 0,
        Form::Same(number) => number_at(levels, *number),
        Form::Set(element) => deeper(number_at(levels, *element)),
        Form::Tuple(parts) => deeper(deepest(parts.as_slice(), levels)),
    }
}

// The greatest number of levels of these.
fn deepest(parts: &[usize], levels: &[usize]) -> usize
    ensures { result ≡ deepest_of (map (number_in levels.now) parts.now) }
{
    let mut most = 0;
    for part in parts {
        let count = number_at(levels, *part);
        most = count.max(most);
    }
    most
}

// A level more.
fn deeper(levels: usize) -> usize
    ensures { result ≡ cut_levels (suc levels) }
{
    levels.saturating_add(1).min(LEVELS)
}

// The tokens of types of this form.
fn form_tokens(form: &Form, tokens: &[usize]) -> usize
    ensures { result ≡ by_form few_tokens_step (number_in tokens.now) form.now }
{
    match form {
        Form::Open | Form::Int | Form::Bool | Form::Text | Form::Proc => 1,
        Form::Same(number) => number_at(tokens, *number),
        Form::Set(element) => more(3, number_at(tokens, *element)),
        Form::Tuple(parts) => {
            let inner = more(commas(parts.len()), total_tokens(parts.as_slice(), tokens));
            more(2, inner)
        }
    }
}

// The tokens of these together.
fn total_tokens(parts: &[usize], tokens: &[usize]) -> usize
    ensures { result ≡ cut_tokens (total (map (number_in tokens.now) parts.now)) }
{
    let mut count = 0;
    for part in parts {
        count = more(count, number_at(tokens, *part));
    }
    count
}

// The sum of two numbers of tokens.
fn more(first: usize, second: usize) -> usize
    ensures { result ≡ cut_tokens (first + second) }
{
    first.saturating_add(second).min(TOKENS)
}

// The commas of a tuple with so many parts.
fn commas(parts: usize) -> usize
    ensures { result ≡ commas_of parts }
{
    match parts {
        0 => 0,
        1 => 1,
        more => more - 1,
    }
}
