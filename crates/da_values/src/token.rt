//! Tokens of a program's text, and what the grammar sees of them.

/// What a token is. Which word or symbol it is, its text says.
#[derive(Clone, Copy, PartialEq, Eq)]
pub enum TokenKind {
    /// An integer.
    Number,
    /// A text literal, with its two quotes.
    Quoted,
    /// A name, which is no reserved word.
    Name,
    /// `_` alone.
    Wild,
    /// A reserved word.
    Word,
    /// A symbol.
    Symbol,
    /// The end of a line with tokens, where no bracket is open.
    Newline,
    /// The level of a line is greater than that of the line before.
    Indent,
    /// One level ends.
    Dedent,
}

/// A token of a text. `Newline`, `Indent` and `Dedent` have no bytes.
#[derive(Clone, Copy)]
pub struct Token {
    /// What it is.
    pub kind: TokenKind,
    /// Its first byte, counted from 0.
    pub first: u32,
    /// How many bytes it has.
    pub length: u32,
    /// Its line, counted from 1.
    pub line: u32,
}

/// Why a text has no tokens.
#[derive(Clone, Copy, Debug)]
pub enum LexKind {
    /// A byte that may stand in comments alone.
    BadByte,
    /// A line that goes back to a level which is not open.
    BadIndent,
    /// No token begins so, or the number that does has a 0 before other digits or is greater than `NUMBER_MAX`.
    BadToken,
    /// A line ends inside a text literal, or the program inside a bracket.
    Unclosed,
}

/// What stands at the front of a text. A length counts all bytes of it.
#[derive(Clone, Copy)]
pub enum Piece {
    /// A space.
    Space,
    /// The end of a line.
    LineEnd,
    /// Bytes that belong to no token: a comment, or a carriage return before the end of a line.
    Passed(usize),
    /// A token that has bytes.
    Token(TokenKind, usize),
    /// None of these.
    Fault(LexKind),
}

/// What the grammar sees of a token: its kind, each reserved word and each symbol apart.
#[derive(Clone, Copy, PartialEq, Eq)]
pub enum Mark {
    Number,
    Quoted,
    Name,
    Wild,
    Newline,
    Indent,
    Dedent,
    /// `channel`
    Channel,
    /// `fifo`
    Fifo,
    /// `unordered`
    Unordered,
    /// `reliable`
    Reliable,
    /// `unreliable`
    Unreliable,
    /// `message`
    Message,
    /// `class`
    Class,
    /// `extends`
    Extends,
    /// `process`
    Process,
    /// `var`
    Var,
    /// `def`
    Def,
    /// `setup`
    Setup,
    /// `run`
    Run,
    /// `main`
    Main,
    /// `receive`
    Receive,
    /// `received`
    Received,
    /// `sent`
    Sent,
    /// `from`
    From,
    /// `at`
    At,
    /// `send`
    Send,
    /// `to`
    To,
    /// `output`
    Output,
    /// `pass`
    Pass,
    /// `if`
    If,
    /// `elif`
    Elif,
    /// `else`
    Else,
    /// `while`
    While,
    /// `for`
    For,
    /// `in`
    In,
    /// `await`
    Await,
    /// `or`
    Or,
    /// `and`
    And,
    /// `not`
    Not,
    /// `timeout`
    Timeout,
    /// `some`
    Some,
    /// `each`
    Each,
    /// `has`
    Has,
    /// `count`
    Count,
    /// `sum`
    Sum,
    /// `min`
    Min,
    /// `max`
    Max,
    /// `range`
    Range,
    /// `logical_time`
    LogicalTime,
    /// `self`
    SelfWord,
    /// `true`
    True,
    /// `false`
    False,
    /// `new`
    New,
    /// `int`
    Int,
    /// `bool`
    Bool,
    /// `str`
    Str,
    /// `proc`
    Proc,
    /// `set`
    Set,
    /// `add`
    Add,
    /// `del`
    Del,
    /// `==`
    Equal,
    /// `!=`
    NotEqual,
    /// `<=`
    LessEqual,
    /// `>=`
    GreaterEqual,
    /// `//`
    Slashes,
    /// `--`
    Dashes,
    /// `(`
    OpenParen,
    /// `)`
    CloseParen,
    /// `{`
    OpenBrace,
    /// `}`
    CloseBrace,
    /// `[`
    OpenBracket,
    /// `]`
    CloseBracket,
    /// `,`
    Comma,
    /// `:`
    Colon,
    /// `.`
    Dot,
    /// `|`
    Bar,
    /// `=`
    Assign,
    /// `<`
    Less,
    /// `>`
    Greater,
    /// `+`
    Plus,
    /// `-`
    Minus,
    /// `*`
    Star,
    /// `%`
    Percent,
}
