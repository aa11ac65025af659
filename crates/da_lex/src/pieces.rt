//! What stands at the front of a text.

ghost use Rattle.da_values.specs.Piece as spec;
ghost use Rattle.da_values.specs.Words as words;
ghost use Rattle.std.specs.Char.{is_ascii_digit};
ghost use Rattle.std.specs.List.{prefix_len};
ghost use Rattle.std.specs.Prelude.{◌≡◌, ◌==◌, slice_index, take_while};

use da_values::{LexKind, Piece, TokenKind, front_symbol, read_number, word_mark};

fn is_plain(byte: u8) -> bool
    ensures { result ≡ spec.is_plain byte }
{
    byte >= 32 && byte <= 126
}

fn begins_name(byte: u8) -> bool
    ensures { result ≡ spec.begins_name byte }
{
    byte.is_ascii_alphabetic() || byte == b'_'
}

fn is_in_name(byte: u8) -> bool
    ensures { result ≡ spec.in_name byte }
{
    byte.is_ascii_alphanumeric() || byte == b'_'
}

fn is_in_quotes(byte: u8) -> bool
    ensures { result ≡ spec.in_quotes byte }
{
    is_plain(byte) && byte != b'\''
}

// How many bytes a comment has, from its `#` on.
#[tactic(auto, using(crate::proofs::Facts::prefixes))]
fn comment_length(text: &[u8]) -> usize
    ensures { result ≡ prefix_len spec.in_comment text.now }
{
    text.iter().take_while(|byte| **byte != b'\n').count()
}

// How many digits stand at the front.
#[tactic(auto, using(crate::proofs::Facts::prefixes))]
fn number_length(text: &[u8]) -> usize
    ensures { result ≡ prefix_len is_ascii_digit text.now }
{
    text.iter().take_while(|byte| byte.is_ascii_digit()).count()
}

// How many bytes at the front a name may have.
#[tactic(auto, using(crate::proofs::Facts::prefixes))]
fn name_length(text: &[u8]) -> usize
    ensures { result ≡ prefix_len spec.in_name text.now }
{
    text.iter().take_while(|byte| is_in_name(**byte)).count()
}

// How many bytes at the front a text literal may hold.
#[tactic(auto, using(crate::proofs::Facts::prefixes))]
fn quoted_length(text: &[u8]) -> usize
    ensures { result ≡ prefix_len spec.in_quotes text.now }
{
    text.iter().take_while(|byte| is_in_quotes(**byte)).count()
}

// Whether no more of the line is left, a dropped carriage return apart.
fn ends_line(text: &[u8]) -> bool
    ensures { result ≡ spec.ends_line text.now }
{
    match text {
        [] | [b'\n', ..] | [b'\r', b'\n', ..] => true,
        _ => false,
    }
}

// A text literal, from after its first quote on.
#[tactic(auto, using(crate::proofs::Facts::prefixes), unfolding(da_values::specs::Piece::quoted))]
fn quoted(text: &[u8]) -> Piece
    ensures { result ≡ spec.quoted text.now }
{
    let length = quoted_length(text);
    let (_, rest) = text.split_at(length);
    if let [b'\'', ..] = rest {
        Piece::Token(TokenKind::Quoted, length + 2)
    } else if ends_line(rest) {
        Piece::Fault(LexKind::Unclosed)
    } else {
        Piece::Fault(LexKind::BadByte)
    }
}

// The number that these digits are, if it has no leading zero and is not too large.
#[tactic(auto, unfolding(da_values::specs::Piece::number))]
fn number(digits: &[u8]) -> Piece
    ensures { result ≡ spec.number digits.now }
{
    if let [b'0', _, ..] = digits {
        Piece::Fault(LexKind::BadToken)
    } else if read_number(digits).is_none() {
        Piece::Fault(LexKind::BadToken)
    } else {
        Piece::Token(TokenKind::Number, digits.len())
    }
}

#[tactic(auto, unfolding(da_values::specs::Piece::name_kind))]
fn name_kind(name: &[u8]) -> TokenKind
    ensures { result ≡ spec.name_kind name.now }
{
    if name == b"_".as_slice() {
        TokenKind::Wild
    } else if word_mark(name).is_some() {
        TokenKind::Word
    } else {
        TokenKind::Name
    }
}

fn symbol(text: &[u8]) -> Piece
    ensures { result ≡ spec.symbol (words.front_symbol text.now) }
{
    match front_symbol(text) {
        Some((_, length)) => Piece::Token(TokenKind::Symbol, length),
        None => Piece::Fault(LexKind::BadToken),
    }
}

#[tactic(auto, using(crate::proofs::Facts::prefixes))]
fn number_at(text: &[u8]) -> Piece
    ensures { result ≡ spec.number (take_while is_ascii_digit text.now) }
{
    let (digits, _) = text.split_at(number_length(text));
    number(digits)
}

#[tactic(auto, using(crate::proofs::Facts::prefixes))]
fn name_at(text: &[u8]) -> Piece
    ensures { result ≡ spec.named (take_while spec.in_name text.now) }
{
    let (name, _) = text.split_at(name_length(text));
    Piece::Token(name_kind(name), name.len())
}

fn begins_with_lf(text: &[u8]) -> bool
    ensures { result ≡ (slice_index text.now 0 == 10) }
{
    match text {
        [b'\n', ..] => true,
        _ => false,
    }
}

/// The piece at the front of a text that is not empty.
#[tactic(auto, unfolding(da_values::specs::Piece::piece))]
pub fn cut(text: &[u8]) -> Piece
    ensures { result ≡ spec.front text.now }
{
    let [first, rest @ ..] = text else {
        return Piece::Fault(LexKind::BadToken);
    };
    match *first {
        b' ' => Piece::Space,
        b'\n' => Piece::LineEnd,
        b'\r' if begins_with_lf(rest) => Piece::Passed(1),
        b'#' => Piece::Passed(comment_length(text)),
        b'\'' => quoted(rest),
        byte if byte.is_ascii_digit() => number_at(text),
        byte if begins_name(byte) => name_at(text),
        byte if is_plain(byte) => symbol(text),
        _ => Piece::Fault(LexKind::BadByte),
    }
}

/// How many bytes a piece has.
pub fn size(piece: Piece) -> usize
    ensures { result ≡ spec.size piece }
{
    match piece {
        Piece::Space | Piece::LineEnd | Piece::Fault(_) => 1,
        Piece::Passed(length) | Piece::Token(_, length) => length,
    }
}
