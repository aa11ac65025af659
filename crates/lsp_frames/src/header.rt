//! The header of a frame: its lines, up to the first empty one.
ghost use Rattle.lsp_frames.specs.Frames as spec;
ghost use Rattle.std.specs.Char.{is_ascii_digit};
ghost use Rattle.std.specs.List.{prefix_len};
ghost use Rattle.std.specs.Prelude.{◌≡◌, ◌≤◌, IfSome, length};

use da_values::read_number;

/// The name of the line that tells how many bytes a content has.
const LENGTH_NAME: &[u8] = b"content-length:";

/// How many bytes stand up to the end of the first empty line, with that line, or `None` where none ends. A line ends with LF;
/// one that has but CR is empty.
pub fn blank_end(mut bytes: &[u8]) -> Option<usize>
    ensures is { result ≡ spec.blank_end bytes.entry.now }
    ensures within { IfSome result (λ n. n ≤ length bytes.entry.now) }
{
    let mut count = 0usize;
    let mut fresh = true;
    while let [byte, rest @ ..] = bytes {
        count += 1;
        if *byte == b'\n' {
            if fresh {
                return Some(count);
            }
            fresh = true;
        } else if *byte != b'\r' {
            fresh = false;
        }
        bytes = rest;
    }
    None
}

/// The number that the last `Content-Length:` of a header is followed by, up to the end of its line, or `None` where there is no
/// such line, or no number stands after it. The letters of the name may be of either size, and other bytes before it on its line.
pub fn told_length(mut header: &[u8]) -> Option<u64>
    ensures { result ≡ spec.told_length header.entry.now }
{
    let mut found = None;
    while let [_, rest @ ..] = header {
        if is_length(header) {
            found = length_behind(header);
        }
        header = rest;
    }
    found
}

// Whether bytes begin with the name.
#[tactic(auto, using(crate::proofs::Facts::name_small))]
fn is_length(bytes: &[u8]) -> bool
    ensures { result ≡ spec.is_length bytes.now }
{
    if bytes.len() < LENGTH_NAME.len() {
        return false;
    }
    let (front, _) = bytes.split_at(LENGTH_NAME.len());
    front.eq_ignore_ascii_case(LENGTH_NAME)
}

// The number after a name that stands at the front.
#[tactic(auto, using(crate::proofs::Facts::parts))]
fn length_behind(bytes: &[u8]) -> Option<u64>
    ensures { result ≡ spec.length_behind bytes.now }
{
    let (_, behind) = bytes.split_at(LENGTH_NAME.len().min(bytes.len()));
    number_of_line(behind)
}

// The number that the rest of a line is, with spaces before it and spaces or CR behind it.
fn number_of_line(line: &[u8]) -> Option<u64>
    ensures { result ≡ spec.number_of_line line.now }
{
    number_front(skip_spaces(line))
}

// What stands after spaces.
fn skip_spaces(mut line: &[u8]) -> &[u8]
    ensures { result.now ≡ spec.skip_spaces line.entry.now }
{
    while let [byte, rest @ ..] = line {
        if *byte != b' ' {
            return line;
        }
        line = rest;
    }
    line
}

// The number at the front, where nothing stands behind it on its line.
#[tactic(auto, using(crate::proofs::Facts::prefixes))]
fn number_front(line: &[u8]) -> Option<u64>
    ensures { result ≡ spec.number_front line.now }
{
    let (digits, behind) = line.split_at(digit_count(line));
    if digits.is_empty() || !ends_line(behind) {
        return None;
    }
    read_number(digits)
}

// How many digits stand at the front.
#[tactic(auto, using(crate::proofs::Facts::prefixes))]
fn digit_count(line: &[u8]) -> usize
    ensures { result ≡ prefix_len is_ascii_digit line.now }
{
    line.iter().take_while(|byte| byte.is_ascii_digit()).count()
}

// Whether nothing but spaces and CR stands before the end of the line.
fn ends_line(mut rest: &[u8]) -> bool
    ensures { result ≡ spec.ends_line rest.entry.now }
{
    while let [byte, behind @ ..] = rest {
        if *byte == b'\n' {
            return true;
        }
        if *byte != b' ' && *byte != b'\r' {
            return false;
        }
        rest = behind;
    }
    true
}
