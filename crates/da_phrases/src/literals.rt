//! What stands between the quotes of text literals.
ghost use Rattle.std.specs.Prelude.{◌≡◌};
ghost use Rattle.da_lang.specs.Literals as spec;

/// The bytes between the quotes of a text literal.
#[tactic(auto, unfolding(da_lang::specs::Literals::unquoted))]
pub fn unquoted(bytes: &[u8]) -> &[u8]
    ensures { result.now ≡ spec.unquoted bytes.now }
{
    match bytes {
        [_, inner @ .., _] => inner,
        _ => &[],
    }
}
