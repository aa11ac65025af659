//! The reserved words and the symbols, with their marks.
ghost use Rattle.da_values.specs.Marks as marks;
ghost use Rattle.da_values.specs.Words as spec;
ghost use Rattle.da_values.specs.Entries.{entries};
ghost use Rattle.da_values.specs.Marks.{mark_found};
ghost use Rattle.std.specs.Prelude.{◌≡◌, length, option_map};

use crate::token::{Mark, TokenKind};

/// A spelling and its mark.
pub type Entry = (&'static [u8], Mark);

/// The reserved words.
pub const WORDS: [Entry; 54] = [
    (b"channel", Mark::Channel),
    (b"fifo", Mark::Fifo),
    (b"unordered", Mark::Unordered),
    (b"reliable", Mark::Reliable),
    (b"unreliable", Mark::Unreliable),
    (b"message", Mark::Message),
    (b"class", Mark::Class),
    (b"extends", Mark::Extends),
    (b"process", Mark::Process),
    (b"var", Mark::Var),
    (b"def", Mark::Def),
    (b"setup", Mark::Setup),
    (b"run", Mark::Run),
    (b"main", Mark::Main),
    (b"receive", Mark::Receive),
    (b"received", Mark::Received),
    (b"sent", Mark::Sent),
    (b"from", Mark::From),
    (b"at", Mark::At),
    (b"send", Mark::Send),
    (b"to", Mark::To),
    (b"output", Mark::Output),
    (b"pass", Mark::Pass),
    (b"if", Mark::If),
    (b"elif", Mark::Elif),
    (b"else", Mark::Else),
    (b"while", Mark::While),
    (b"for", Mark::For),
    (b"in", Mark::In),
    (b"await", Mark::Await),
    (b"or", Mark::Or),
    (b"and", Mark::And),
    (b"not", Mark::Not),
    (b"timeout", Mark::Timeout),
    (b"some", Mark::Some),
    (b"each", Mark::Each),
    (b"has", Mark::Has),
    (b"count", Mark::Count),
    (b"sum", Mark::Sum),
    (b"min", Mark::Min),
    (b"max", Mark::Max),
    (b"range", Mark::Range),
    (b"logical_time", Mark::LogicalTime),
    (b"self", Mark::SelfWord),
    (b"true", Mark::True),
    (b"false", Mark::False),
    (b"new", Mark::New),
    (b"int", Mark::Int),
    (b"bool", Mark::Bool),
    (b"str", Mark::Str),
    (b"proc", Mark::Proc),
    (b"set", Mark::Set),
    (b"add", Mark::Add),
    (b"del", Mark::Del),
];

/// The symbols, each longer one before those that begin it.
pub const SYMBOLS: [Entry; 23] = [
    (b"==", Mark::Equal),
    (b"!=", Mark::NotEqual),
    (b"<=", Mark::LessEqual),
    (b">=", Mark::GreaterEqual),
    (b"//", Mark::Slashes),
    (b"--", Mark::Dashes),
    (b"(", Mark::OpenParen),
    (b")", Mark::CloseParen),
    (b"{", Mark::OpenBrace),
    (b"}", Mark::CloseBrace),
    (b"[", Mark::OpenBracket),
    (b"]", Mark::CloseBracket),
    (b",", Mark::Comma),
    (b":", Mark::Colon),
    (b".", Mark::Dot),
    (b"|", Mark::Bar),
    (b"=", Mark::Assign),
    (b"<", Mark::Less),
    (b">", Mark::Greater),
    (b"+", Mark::Plus),
    (b"-", Mark::Minus),
    (b"*", Mark::Star),
    (b"%", Mark::Percent),
];

// The mark of the first entry with this spelling.
fn spelled(mut table: &[Entry], text: &[u8]) -> Option<Mark>
    ensures { result ≡ mark_found (spec.spelled (entries table.entry.now) text.now) }
{
    while let [entry, rest @ ..] = table {
        if entry.0 == text {
            return Some(entry.1);
        }
        table = rest;
    }
    None
}

// The mark and the length of the first entry whose spelling a text begins with.
fn at_front(mut table: &[Entry], text: &[u8]) -> Option<(Mark, usize)>
    ensures { result ≡ option_map (λ entry. (entry.1, length entry.0)) (spec.at_front (entries table.entry.now) text.now) }
{
    while let [entry, rest @ ..] = table {
        if text.starts_with(entry.0) {
            return Some((entry.1, entry.0.len()));
        }
        table = rest;
    }
    None
}

/// The mark of a reserved word, or `None` exactly where the text is none.
#[tactic(auto, using(crate::proofs::WordLemmas::same_words))]
pub fn word_mark(text: &[u8]) -> Option<Mark>
    ensures { result ≡ mark_found (spec.spelled spec.words text.now) }
{
    spelled(&WORDS, text)
}

/// The mark and the length of the longest symbol that a text begins with, or `None` exactly where it begins with none.
#[tactic(auto, using(crate::proofs::WordLemmas::same_symbols))]
pub fn front_symbol(text: &[u8]) -> Option<(Mark, usize)>
    ensures { result ≡ option_map (λ entry. (entry.1, length entry.0)) (spec.front_symbol text.now) }
{
    at_front(&SYMBOLS, text)
}

/// The mark of a token of this kind with this text.
#[tactic(auto, using(crate::proofs::WordLemmas::same_words, crate::proofs::WordLemmas::same_symbols))]
pub fn mark_of(kind: TokenKind, text: &[u8]) -> Mark
    ensures { result ≡ marks.mark_of kind text.now }
{
    match kind {
        TokenKind::Number => Mark::Number,
        TokenKind::Quoted => Mark::Quoted,
        TokenKind::Name => Mark::Name,
        TokenKind::Wild => Mark::Wild,
        TokenKind::Word => spelled(&WORDS, text).unwrap_or(Mark::Name),
        TokenKind::Symbol => spelled(&SYMBOLS, text).unwrap_or(Mark::Wild),
        TokenKind::Newline => Mark::Newline,
        TokenKind::Indent => Mark::Indent,
        TokenKind::Dedent => Mark::Dedent,
    }
}
