//! All kinds of tokens, each with a spelling.
use da_lex::TokenKind;
use da_values::Mark;

/// A kind of token: a spelling, the mark, and letters for what may begin with it: an expression (e), a pattern (p), a type (t), or
/// a statement (s). Operators have an o, and `in` has a c as it compares.
pub type Spelling = (&'static [u8], Mark, &'static [u8]);

/// All kinds of tokens, in the order in which they are named to a person.
const SPELLINGS: [Spelling; 84] = [
    (b"", Mark::Newline, b""),
    (b"", Mark::Indent, b""),
    (b"", Mark::Dedent, b""),
    (b":", Mark::Colon, b""),
    (b")", Mark::CloseParen, b""),
    (b"}", Mark::CloseBrace, b""),
    (b"]", Mark::CloseBracket, b""),
    (b",", Mark::Comma, b""),
    (b"=", Mark::Assign, b"p"),
    (b"(", Mark::OpenParen, b"ept"),
    (b"{", Mark::OpenBrace, b"e"),
    (b"[", Mark::OpenBracket, b""),
    (b".", Mark::Dot, b""),
    (b"|", Mark::Bar, b""),
    (b"has", Mark::Has, b"o"),
    (b"name", Mark::Name, b"eps"),
    (b"1", Mark::Number, b"ep"),
    (b"'text'", Mark::Quoted, b"ep"),
    (b"_", Mark::Wild, b"p"),
    (b"to", Mark::To, b""),
    (b"from", Mark::From, b""),
    (b"at", Mark::At, b""),
    (b"in", Mark::In, b"c"),
    (b"or", Mark::Or, b"o"),
    (b"and", Mark::And, b"o"),
    (b"not", Mark::Not, b"e"),
    (b"some", Mark::Some, b"e"),
    (b"each", Mark::Each, b"e"),
    (b"received", Mark::Received, b""),
    (b"sent", Mark::Sent, b""),
    (b"count", Mark::Count, b"e"),
    (b"sum", Mark::Sum, b"e"),
    (b"min", Mark::Min, b"e"),
    (b"max", Mark::Max, b"e"),
    (b"range", Mark::Range, b"e"),
    (b"logical_time", Mark::LogicalTime, b"e"),
    (b"self", Mark::SelfWord, b"ep"),
    (b"true", Mark::True, b"ep"),
    (b"false", Mark::False, b"ep"),
    (b"channel", Mark::Channel, b""),
    (b"fifo", Mark::Fifo, b""),
    (b"unordered", Mark::Unordered, b""),
    (b"reliable", Mark::Reliable, b""),
    (b"unreliable", Mark::Unreliable, b""),
    (b"message", Mark::Message, b""),
    (b"class", Mark::Class, b""),
    (b"extends", Mark::Extends, b""),
    (b"process", Mark::Process, b""),
    (b"var", Mark::Var, b""),
    (b"def", Mark::Def, b""),
    (b"setup", Mark::Setup, b""),
    (b"run", Mark::Run, b""),
    (b"main", Mark::Main, b""),
    (b"receive", Mark::Receive, b""),
    (b"new", Mark::New, b""),
    (b"send", Mark::Send, b"s"),
    (b"output", Mark::Output, b"s"),
    (b"pass", Mark::Pass, b"s"),
    (b"--", Mark::Dashes, b"s"),
    (b"if", Mark::If, b"s"),
    (b"elif", Mark::Elif, b""),
    (b"else", Mark::Else, b""),
    (b"while", Mark::While, b"s"),
    (b"for", Mark::For, b"s"),
    (b"await", Mark::Await, b"s"),
    (b"timeout", Mark::Timeout, b""),
    (b"add", Mark::Add, b""),
    (b"del", Mark::Del, b""),
    (b"int", Mark::Int, b"t"),
    (b"bool", Mark::Bool, b"t"),
    (b"str", Mark::Str, b"t"),
    (b"proc", Mark::Proc, b"t"),
    (b"set", Mark::Set, b"t"),
    (b"==", Mark::Equal, b"o"),
    (b"!=", Mark::NotEqual, b"o"),
    (b"<", Mark::Less, b"o"),
    (b"<=", Mark::LessEqual, b"o"),
    (b">", Mark::Greater, b"o"),
    (b">=", Mark::GreaterEqual, b"o"),
    (b"+", Mark::Plus, b"o"),
    (b"-", Mark::Minus, b"epo"),
    (b"*", Mark::Star, b"o"),
    (b"//", Mark::Slashes, b"o"),
    (b"%", Mark::Percent, b"o"),
];

/// All of them. Who goes through them asks for them here, since each place that names the table is checked with all its rows.
pub fn spellings() -> &'static [Spelling] {
    &SPELLINGS
}

/// The kind of a token with this mark.
pub fn kind_of(mark: Mark, spelling: &[u8]) -> TokenKind {
    match mark {
        Mark::Newline => TokenKind::Newline,
        Mark::Indent => TokenKind::Indent,
        Mark::Dedent => TokenKind::Dedent,
        Mark::Number => TokenKind::Number,
        Mark::Quoted => TokenKind::Quoted,
        Mark::Name => TokenKind::Name,
        Mark::Wild => TokenKind::Wild,
        _ => match spelling {
            [first, ..] if first.is_ascii_alphabetic() => TokenKind::Word,
            _ => TokenKind::Symbol,
        },
    }
}
