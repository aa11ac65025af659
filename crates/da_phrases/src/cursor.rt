//! The tokens that are left to read.
ghost use Rattle.std.specs.Prelude.{◌≡◌, ◌≤◌, length};
ghost use Rattle.da_values.specs.Marks.{slice_of, toks};
ghost use Rattle.da_phrases.specs.Reader as reader;
ghost use Rattle.da_phrases.specs.Reader.{Reads};

use crate::literals::unquoted;
use da_values::{Buf, Mark, NoMemory, Str, StrFault, Token, copy_bytes, mark_of, read_number};
use std::alloc::Global;
use std::marker::Model;

/// Why nothing was read. The number counts the tokens from the refused one on, so that it tells the place.
#[derive(Clone, Copy)]
pub enum Stop {
    /// Memory was refused.
    Memory,
    /// No program goes on with this token.
    Syntax(usize),
    /// This token opens one thing too many.
    Deep(usize),
}

impl From<NoMemory> for Stop {
    ghost use Rattle.std.specs.Prelude.{◌≡◌};
    ghost use Rattle.da_phrases.specs.declared.cursor.Stop.TheVariants.{Memory};

    ghost from_gives = { λ _ e. e ≡ Memory };

    fn from(_: NoMemory) -> Stop {
        Stop::Memory
    }
}

/// The tokens that are left of a text. Contracts see the list of their marks, bytes and lines.
#[derive(Drop)]
pub struct Cursor<'a> {
    text: &'a [u8],
    left: &'a [Token],
}

impl<'a> Model for Cursor<'a> {
    ghost use Rattle.std.specs.Prelude.{List};
    ghost use Rattle.da_values.specs.Marks.{Tok};
    ghost use Rattle.da_phrases.specs.View.{shown};

    ghost Value = { List Tok };

    ghost view = { shown };
}

impl<'a> Cursor<'a> {
    /// All of these tokens of the text.
    pub fn new(text: &'a [u8], tokens: &'a [Token]) -> Cursor<'a>
        ensures { result ≡ toks text.now tokens.now }
    {
        Cursor { text, left: tokens }
    }

    /// How many tokens are left.
    pub fn left(&self) -> usize
        ensures { result ≡ length self.now }
    {
        self.left.len()
    }

    /// The mark of the next token, or `None` at the end.
    pub fn mark(&self) -> Option<Mark>
        ensures { result ≡ reader.mark self.now }
    {
        match self.left {
            [] => None,
            [token, ..] => Some(mark_of(token.kind, slice_of(self.text, token))),
        }
    }

    /// The line of the next token, or 0 at the end.
    pub fn line(&self) -> u32
        ensures { result ≡ reader.line self.now }
    {
        match self.left {
            [] => 0,
            [token, ..] => token.line,
        }
    }

    /// The refusal of the next token.
    pub fn refuse(&self) -> Stop
        ensures { result ≡ reader.refusal self.now }
    {
        Stop::Syntax(self.left())
    }

    /// Passes the next token, and gives its bytes.
    pub fn take(&mut self) -> &'a [u8]
        ensures text { result.now ≡ reader.text self.old }
        ensures rest { self.new ≡ reader.rest self.old }
    {
        match self.left {
            [] => &[],
            [token, rest @ ..] => {
                self.left = rest;
                slice_of(self.text, token)
            }
        }
    }

    /// The bytes of the next token, or none at the end.
    pub fn bytes(&self) -> &'a [u8]
        ensures { result.now ≡ reader.text self.now }
    {
        match self.left {
            [] => &[],
            [token, ..] => slice_of(self.text, token),
        }
    }

    /// Whether the next token has this mark.
    #[tactic(auto, unfolding(crate::specs::Reader::sees))]
    pub fn sees(&self, mark: Mark) -> bool
        ensures { result ≡ reader.sees mark self.now }
    {
        match self.mark() {
            None => false,
            Some(next) => next == mark,
        }
    }

    /// Passes the next token where it has this mark, and says whether it had.
    pub fn eat(&mut self, mark: Mark) -> bool
        ensures found { result ≡ reader.sees mark self.old }
        ensures rest { self.new ≡ reader.rest_if result self.old }
    {
        let found = self.sees(mark);
        if found {
            self.take();
        }
        found
    }

    /// Passes a token that must have this mark.
    #[tactic(auto, unfolding(crate::specs::Reader::expect))]
    pub fn expect(&mut self, mark: Mark) -> Result<(), Stop>
        ensures { Reads (reader.expect mark self.old) result self.new }
    {
        if self.sees(mark) {
            self.take();
            Ok(())
        } else {
            Err(self.refuse())
        }
    }

    /// Passes a token that must have this mark, and copies its bytes.
    #[tactic(auto, unfolding(crate::specs::Reader::word))]
    pub fn word(&mut self, alloc: Global, mark: Mark) -> Result<Buf, Stop>
        ensures { Reads (reader.word mark self.old) result self.new }
    {
        if !self.sees(mark) {
            return Err(self.refuse());
        }
        Ok(copy_bytes(alloc, self.take())?)
    }

    /// Passes an integer, and gives it.
    #[tactic(auto, unfolding(crate::specs::Reader::number))]
    pub fn number(&mut self) -> Result<u64, Stop>
        ensures { Reads (reader.number self.old) result self.new }
    {
        if !self.sees(Mark::Number) {
            return Err(self.refuse());
        }
        match read_number(self.bytes()) {
            None => Err(self.refuse()),
            Some(number) => {
                self.take();
                Ok(number)
            }
        }
    }

    /// Passes a text literal, and gives its text.
    #[tactic(auto, unfolding(crate::specs::Reader::quoted, da_lang::specs::Literals::text_of), using(crate::proofs::Texts::are_text, crate::proofs::Texts::no_text))]
    pub fn quoted(&mut self, alloc: Global) -> Result<Str, Stop>
        ensures { Reads (reader.quoted self.old) result self.new }
    {
        if !self.sees(Mark::Quoted) {
            return Err(self.refuse());
        }
        match Str::from_bytes(alloc, unquoted(self.bytes())) {
            Err(StrFault::Memory) => Err(Stop::Memory),
            Err(StrFault::BadText) => Err(self.refuse()),
            Ok(text) => {
                self.take();
                Ok(text)
            }
        }
    }
}

/// The bytes of a token.
fn slice_of<'a>(text: &'a [u8], token: &Token) -> &'a [u8]
    ensures { result.now ≡ slice_of text.now token.now }
{
    let (_, rest) = text.split_at((token.first as usize).min(text.len()));
    let (slice, _) = rest.split_at((token.length as usize).min(rest.len()));
    slice
}
