//! Rules on what stands at a place among the tokens of a text.
//!
//! A rule is a row: the words of a form, ` ~ `, and a sentence, which is said where all words of the form hold. A row without a
//! sentence is a condition of the rows after it, up to the next such row.
//!
//! A word is a sign and names with bars between them, of which one is enough. Where `-` stands in front, the rest must not hold.
//! - `@`: the token at the spot is one of these; `<` and `<2`: the token before it, and the one before that; `>` and `>2`: those
//!   after it; `^` and `^2`: the first and the second token of the line; `[`: the innermost bracket that is open; `(`: the token
//!   before that bracket.
//! - `?`: one of these is expected.
//! - `=`: a condition of `is_true`, by its first letter.
//!
//! A name is the spelling of a token, with `..` as in `words`, or a group of tokens as in `group_of`. In a sentence `$` stands for
//! the token before the spot, `&` for that at the spot, and `@` for that at the spot in quotes.
use crate::expected::has;
use crate::hint::Hint;
use crate::spellings::{kind_of, spellings};
use crate::spot::Spot;
use crate::words::{is_one_of, parts_of};
use da_lex::TokenKind;
use da_values::Mark;

/// Tells what the first of the rules says whose form holds at the spot, where one of these marks is expected. Whether there is
/// one.
pub fn tell(rules: &[&'static [u8]], spot: Spot<'_>, marks: &[Mark], hint: &mut Hint) -> bool {
    let mut is_open = true;
    for rule in rules {
        let (form, said) = parts_of(*rule);
        if said.is_empty() {
            is_open = has_form(form, spot, marks);
        } else if is_open && has_form(form, spot, marks) {
            put_said(said, spot, hint);
            return true;
        }
    }
    false
}

// Adds a sentence.
fn put_said(said: &[u8], spot: Spot<'_>, hint: &mut Hint) {
    let here = spot.bytes(spot.place);
    for byte in said {
        match *byte {
            b'$' => hint.notes.put(spot.bytes_before()),
            b'&' => hint.notes.put(here),
            b'@' => hint.notes.quote(here),
            byte => hint.notes.push(byte),
        }
    }
    hint.note(b"");
}

// Whether all words of a form hold.
fn has_form(form: &[u8], spot: Spot<'_>, marks: &[Mark]) -> bool {
    for word in form.split(|byte| *byte == b' ') {
        let fits = match word {
            [b'-', word @ ..] => !holds(word, spot, marks),
            _ => holds(word, spot, marks),
        };
        if !fits {
            return false;
        }
    }
    true
}

// Whether a word holds, which begins with its sign.
fn holds(word: &[u8], spot: Spot<'_>, marks: &[Mark]) -> bool {
    let [sign, rest @ ..] = word else {
        return true;
    };
    match *sign {
        b'?' => expects(marks, rest),
        b'=' => is_true(rest, spot, marks),
        sign => {
            let (count, names) = counted(rest);
            is_at(place_of(sign, count, spot), spot, names)
        }
    }
}

// The number in front of names, or 1, and the names.
fn counted(rest: &[u8]) -> (usize, &[u8]) {
    match rest {
        [digit, names @ ..] if digit.is_ascii_digit() => {
            (usize::from(digit.saturating_sub(b'0')), names)
        }
        _ => (1, rest),
    }
}

// The place that a sign stands for, with the number behind it.
fn place_of(sign: u8, count: usize, spot: Spot<'_>) -> Option<usize> {
    match sign {
        b'<' => spot.place.checked_sub(count),
        b'>' => Some(spot.place.saturating_add(count)),
        b'^' => Some(spot.begin.saturating_add(count).saturating_sub(1)),
        b'[' => spot.opener,
        b'(' => spot.opener?.checked_sub(1),
        _ => Some(spot.place),
    }
}

// Whether a token stands at a place that has one of these names.
fn is_at(place: Option<usize>, spot: Spot<'_>, names: &[u8]) -> bool {
    let Some(place) = place else {
        return false;
    };
    match spot.tokens.get(place) {
        Some(token) => has_name(token.kind, spot.bytes(place), names),
        None => false,
    }
}

// Whether a token of this kind with these bytes has one of these names.
fn has_name(kind: TokenKind, bytes: &[u8], names: &[u8]) -> bool {
    is_one_of(bytes, names) || is_one_of(group_of(kind, bytes), names)
}

// The group of a token, or nothing where it has its spelling alone.
fn group_of(kind: TokenKind, bytes: &[u8]) -> &'static [u8] {
    match kind {
        TokenKind::Name => b"#name",
        TokenKind::Number => b"#number",
        TokenKind::Quoted => b"#text",
        TokenKind::Word => b"#word",
        TokenKind::Newline => b"#end",
        TokenKind::Indent => b"#indent",
        TokenKind::Dedent => b"#dedent",
        TokenKind::Symbol if bytes == b"|".as_slice() => b"#bar",
        _ => b"",
    }
}

// Whether a token of one of these names is expected.
fn expects(marks: &[Mark], names: &[u8]) -> bool {
    for entry in spellings() {
        if has(marks, entry.1) && has_name(kind_of(entry.1, entry.0), entry.0, names) {
            return true;
        }
    }
    false
}

// Whether a condition is true: the spot is the (f)irst or (s)econd token of its line, or (a)mong these two, or at the (t)op or
// (e)nd of the text; (n)othing is expected; a name is (j)oined to what stands before it; there is a (c)lass of this name, or a
// (m)ethod of that before the spot; or a text without tokens has carriage (r)eturns alone.
fn is_true(name: &[u8], spot: Spot<'_>, marks: &[Mark]) -> bool {
    match name.first().copied().unwrap_or(0) {
        b'f' => spot.place == spot.begin,
        b's' => spot.place == spot.begin.saturating_add(1),
        b'a' => spot.place <= spot.begin.saturating_add(1),
        b't' => spot.place == 0,
        b'e' => spot.is_end(),
        b'n' => marks.is_empty(),
        b'j' => spot.is_joined(),
        b'c' => spot.is_declared(Mark::Class, spot.bytes(spot.place)),
        b'm' => spot.is_declared(Mark::Def, spot.bytes_before()),
        _ => spot.has_returns_alone(),
    }
}
