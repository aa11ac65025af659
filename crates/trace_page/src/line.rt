//! The lines of a text.
ghost use Rattle.std.specs.List.{All};
ghost use Rattle.std.specs.Prelude.{◌≡◌, ◌≢◌, ◌∷◌, ◌++◌, ◌<◌, length, IfSome, MatchOption};
ghost use Rattle.std.specs.Str.Lines.{lines, strip_carriage_return};
ghost use Rattle.trace_page.specs.LastLine.{last_of};

/// The first line of a text without its end, and what follows it.
pub(crate) fn split_line(text: &[u8]) -> (&[u8], &[u8])
    requires { 0 < length text.now }
    ensures lines { lines text.now ≡ result.0.now ∷ lines result.1.now }
    ensures shorter { length result.1.now < length text.now }
{
    match split_end(text) {
        Some((line, rest)) => (without_return(line), rest),
        None => (text, b"".as_slice()),
    }
}

/// The last line of a text without its end, which is empty where there is no line.
pub fn last_line(text: &[u8]) -> &[u8]
    ensures { result.now ≡ last_of (lines text.now) }
{
    let mut last = b"".as_slice();
    let mut rest = text;
    'lines: while rest.len() > 0 {
        let (line, others) = split_line(rest);
        last = line;
        rest = others;
    }
    last
}

// The bytes before the first LF and those after it, or nothing exactly where there is no LF.
fn split_end(text: &[u8]) -> Option<(&[u8], &[u8])>
    ensures none { MatchOption result (All (λ byte. byte ≢ 10) text.now) (λ found. All (λ byte. byte ≢ 10) found.0.now) }
    ensures some { IfSome result (λ found. text.now ≡ found.0.now ++ 10 ∷ found.1.now) }
{
    let end = text.iter().position(|byte| *byte == b'\n')?;
    Some((&text[..end], &text[end + 1..]))
}

// A line without the one CR at its end, if it has one.
fn without_return(line: &[u8]) -> &[u8]
    ensures { result.now ≡ strip_carriage_return line.now }
{
    match line {
        [front @ .., b'\r'] => front,
        _ => line,
    }
}
