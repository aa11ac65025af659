//! The tokens of a text.

ghost use Rattle.da_lex.specs.Scanning.{IsFaultOf};
ghost use Rattle.da_values.specs.Marks.{slice_of};
ghost use Rattle.da_values.specs.TokenFacts.{Rises, IsOnLine, StandsIn};
ghost use Rattle.da_values.specs.Tokens as spec;
ghost use Rattle.std.specs.Prelude.{◌≡◌, ◌≤◌, ◌+◌, All, IfErr, IfOk, Ok, length};

use crate::fault::LexFault;
use crate::scanner::Scanner;
use da_values::{List, Token};
use std::alloc::Global;

/// The tokens of a text, in order, and the text.
#[derive(Drop)]
pub struct Tokens<'a> {
    /// The text.
    pub text: &'a [u8],
    /// Its tokens.
    pub list: List<Token>,
}

impl<'a> Tokens<'a> {
    /// The bytes of a token of this text.
    pub fn slice(&self, token: &Token) -> &'a [u8]
        requires { token.now.first + token.now.length ≤ length self.now.text.now }
        ensures { result.now ≡ slice_of self.now.text.now token.now }
    {
        let (_, rest) = self.text.split_at(token.first as usize);
        let (bytes, _) = rest.split_at(token.length as usize);
        bytes
    }
}

/// The tokens of a text, of at most 1,048,576 bytes.
///
/// A text that is refused has the fault that comes first where it is read from its start; its line is that of the
/// fault. Every other text is cut whole. The tokens stand in order within the text, each on one of its lines, and
/// each that has bytes is the longest piece that stands at its place.
pub fn lex<'a>(alloc: Global, text: &'a [u8]) -> Result<Tokens<'a>, LexFault>
    requires { length text.now ≤ 1048576 }
    ensures ok { IfOk result (λ tokens. spec.tokens text.now ≡ Ok tokens.list) }
    ensures text { IfOk result (λ tokens. tokens.text.now ≡ text.now) }
    ensures refused { IfErr result (λ fault. IsFaultOf fault (spec.tokens text.now)) }
    ensures order { IfOk result (λ tokens. Rises 0 tokens.list (length text.now)) }
    ensures lines { IfOk result (λ tokens. All (IsOnLine text.now) tokens.list) }
    ensures pieces { IfOk result (λ tokens. All (StandsIn text.now) tokens.list) }
{
    let mut scanner = Scanner::new(alloc)?;
    let mut rest = text;
    while rest.len() > 0 {
        let length = scanner.advance(rest)?;
        let (_, after) = rest.split_at(length);
        rest = after;
    }
    let list = scanner.finish()?;
    Ok(Tokens { text, list })
}
