//! Where a scan of a text stands, and its steps.

ghost use Rattle.da_lex.specs.Scanning.{scan_of, Steps, Ends, Fits};
ghost use Rattle.da_values.specs.Piece.{front, size};
ghost use Rattle.da_values.specs.Tokens as spec;
ghost use Rattle.std.specs.Prelude.{◌≡◌, ◌+◌, ◌<◌, ◌≤◌, ◌++◌, [], IfOk, OnOk, length};

use crate::fault::LexFault;
use crate::levels::{close, repeat, top};
use crate::pieces;
use crate::pieces::cut;
use da_values::{LexKind, List, NoMemory, Piece, Token, TokenKind};
use std::alloc::Global;

/// Where a scan of a text stands.
#[derive(Drop)]
pub struct Scanner {
    /// The byte that comes next, and its line.
    pub at: u32,
    pub line: u32,
    /// Whether the level of the line is still to come, and how many spaces the line has so far.
    pub is_fresh: bool,
    pub spaces: u32,
    /// The open levels, the innermost last.
    pub levels: List<u32>,
    /// How deep the scan is inside brackets, and the line on which it last went into an outermost one.
    pub brackets: u32,
    pub bracket_line: u32,
    /// Where the last token ended, and on which line; before any token, on line 1.
    pub past: u32,
    pub last_line: u32,
    /// The tokens so far.
    pub tokens: List<Token>,
}

// A token without bytes.
fn empty(kind: TokenKind, first: u32, line: u32) -> Token
    ensures { result ≡ spec.empty kind first line }
{
    Token {
        kind,
        first,
        length: 0,
        line,
    }
}

impl Scanner {
    /// A scan that stands at the first byte of a text.
    pub fn new(alloc: Global) -> Result<Scanner, NoMemory>
        ensures start { IfOk result (λ scanner. scan_of scanner ≡ spec.start) }
        ensures none { IfOk result (λ scanner. scanner.tokens ≡ []) }
    {
        let mut levels = List::new(alloc);
        levels.push(0)?;
        Ok(Scanner {
            at: 0,
            line: 1,
            is_fresh: true,
            spaces: 0,
            levels,
            brackets: 0,
            bracket_line: 1,
            past: 0,
            last_line: 1,
            tokens: List::new(alloc),
        })
    }

    // A first token has come: its line is indented as far as the line has spaces, and levels open or close by that.
    #[tactic(auto, unfolding(da_values::specs::Tokens::level))]
    fn level(&mut self) -> Result<(), LexFault>
        ensures steps { Steps (spec.level (scan_of self.old)) result self.old self.new }
        ensures at { self.new.at ≡ self.old.at }
        ensures brackets { self.new.brackets ≡ self.old.brackets }
    {
        if top(self.levels.as_slice()) < self.spaces {
            let indent = empty(TokenKind::Indent, self.at, self.line);
            self.tokens.push(indent)?;
            self.levels.push(self.spaces)?;
            self.is_fresh = false;
            return Ok(());
        }
        let dedent = empty(TokenKind::Dedent, self.at, self.line);
        let spaces = self.spaces;
        close(&mut self.levels, spaces, &mut self.tokens, dedent)?;
        if top(self.levels.as_slice()) != spaces {
            return Err(LexFault::Refused {
                kind: LexKind::BadIndent,
                line: self.line,
            });
        }
        self.is_fresh = false;
        Ok(())
    }

    // The level of the line, if it is still to come.
    fn level_if_fresh(&mut self) -> Result<(), LexFault>
        ensures steps { Steps (spec.levelled (scan_of self.old)) result self.old self.new }
        ensures at { self.new.at ≡ self.old.at }
        ensures brackets { self.new.brackets ≡ self.old.brackets }
    {
        if self.is_fresh {
            self.level()?;
        }
        Ok(())
    }

    // Counts a bracket.
    #[tactic(auto, unfolding(da_values::specs::Tokens::bracketed))]
    fn count_bracket(&mut self, first: u8)
        requires { self.old.brackets ≤ 1048576 }
        ensures scan { scan_of self.new ≡ spec.bracketed first (scan_of self.old) }
        ensures tokens { self.new.tokens ≡ self.old.tokens }
        ensures at { self.new.at ≡ self.old.at }
    {
        match first {
            b'(' | b'[' | b'{' => {
                if self.brackets == 0 {
                    self.bracket_line = self.line;
                }
                self.brackets += 1;
            }
            b')' | b']' | b'}' => self.brackets = self.brackets.saturating_sub(1),
            _ => {}
        }
    }

    // A token of this kind and length that begins with a byte.
    fn token(&mut self, kind: TokenKind, length: u32, first: u8) -> Result<(), LexFault>
        requires fits { self.old.at + length ≤ 1048576 }
        requires brackets { self.old.brackets ≤ 1048576 }
        ensures steps { Steps (spec.with_token kind length first (spec.levelled (scan_of self.old))) result self.old self.new }
        ensures at { self.new.at ≡ self.old.at }
    {
        self.level_if_fresh()?;
        self.tokens.push(Token {
            kind,
            first: self.at,
            length,
            line: self.line,
        })?;
        self.past = self.at + length;
        self.last_line = self.line;
        self.count_bracket(first);
        Ok(())
    }

    // The end of a line, if it has a token and no bracket is open.
    fn newline(&mut self) -> Result<(), NoMemory>
        ensures { OnOk result (self.new ≡ record self.old { tokens = self.old.tokens ++ spec.line_end (scan_of self.old) }) }
    {
        if !(self.is_fresh || self.brackets != 0) {
            let newline = empty(TokenKind::Newline, self.past, self.line);
            self.tokens.push(newline)?;
        }
        Ok(())
    }

    // The tokens of a piece that begins with a byte.
    #[tactic(auto, unfolding(da_values::specs::Tokens::step))]
    fn step(&mut self, first: u8, piece: Piece) -> Result<(), LexFault>
        requires fits { Fits (scan_of self.old) (size piece) }
        ensures steps { Steps (spec.step (scan_of self.old) first piece) result self.old self.new }
        ensures at { OnOk result (self.new.at ≡ self.old.at) }
    {
        match piece {
            Piece::Space => {
                self.spaces += 1;
                Ok(())
            }
            Piece::LineEnd => {
                self.newline()?;
                self.line += 1;
                self.is_fresh = self.is_fresh || self.brackets == 0;
                self.spaces = 0;
                Ok(())
            }
            Piece::Passed(_) => Ok(()),
            Piece::Token(kind, length) => self.token(kind, length as u32, first),
            Piece::Fault(kind) => Err(LexFault::Refused {
                kind,
                line: self.line,
            }),
        }
    }

    /// Takes the piece at the front of what is left of a text, and answers how many bytes it has.
    #[tactic(auto, using(crate::proofs::Facts::front_fits))]
    pub fn advance(&mut self, rest: &[u8]) -> Result<usize, LexFault>
        requires some { 0 < length rest.now }
        requires fits { Fits (scan_of self.old) (length rest.now) }
        ensures steps { Steps (spec.step_at (scan_of self.old) rest.now) result self.old self.new }
        ensures length { IfOk result (λ length. length ≡ size (front rest.now)) }
    {
        let piece = cut(rest);
        self.step(rest[0], piece)?;
        let length = pieces::size(piece);
        self.at += length as u32;
        Ok(length)
    }

    /// All tokens, once the text is used up: the last line ends there, and each level that is open.
    #[tactic(auto, unfolding(da_values::specs::Tokens::finish))]
    pub fn finish(mut self) -> Result<List<Token>, LexFault>
        ensures { Ends (spec.finish (scan_of self)) self.tokens result }
    {
        if self.brackets != 0 {
            return Err(LexFault::Refused {
                kind: LexKind::Unclosed,
                line: self.bracket_line,
            });
        }
        self.newline()?;
        let dedent = empty(TokenKind::Dedent, self.at, self.last_line);
        let count = self.levels.len().saturating_sub(1);
        let Scanner { mut tokens, .. } = self;
        repeat(&mut tokens, dedent, count)?;
        Ok(tokens)
    }
}
