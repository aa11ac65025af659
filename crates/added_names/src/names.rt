//! Texts that could stand as names, and which names were seen.
ghost use Rattle.added_names.specs.Names as spec;
ghost use Rattle.da_values.specs.Piece as piece;
ghost use Rattle.std.specs.List.{list_all};
ghost use Rattle.std.specs.Prelude.{◌≡◌, ◌&&◌, not};

use da_values::word_mark;

fn begins_name(byte: u8) -> bool
    ensures { result ≡ piece.begins_name byte }
{
    byte.is_ascii_alphabetic() || byte == b'_'
}

fn is_in_name(byte: u8) -> bool
    ensures { result ≡ piece.in_name byte }
{
    byte.is_ascii_alphanumeric() || byte == b'_'
}

#[tactic(auto, unfolding(crate::specs::Names::is_reserved))]
fn is_reserved(text: &[u8]) -> bool
    ensures { result ≡ spec.is_reserved text.now }
{
    text == b"_".as_slice() || word_mark(text).is_some()
}

fn all_in_name(rest: &[u8]) -> bool
    ensures { result ≡ list_all piece.in_name rest.now }
{
    rest.iter().all(|byte| is_in_name(*byte))
}

fn goes_on(rest: &[u8], text: &[u8]) -> bool
    ensures { result ≡ (list_all piece.in_name rest.now && not (spec.is_reserved text.now)) }
{
    all_in_name(rest) && !is_reserved(text)
}

/// Whether bytes could be a name: they are not empty, have nothing but letters, digits and `_`, do not begin with a digit, and
/// are neither a reserved word nor `_` by itself.
#[tactic(auto, unfolding(crate::specs::Names::is_name))]
pub fn is_name(text: &[u8]) -> bool
    ensures { result ≡ spec.is_name text.now }
{
    match text {
        [] => false,
        [first, rest @ ..] => begins_name(*first) && goes_on(rest, text),
    }
}
