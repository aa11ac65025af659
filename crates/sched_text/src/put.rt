//! Parts of a line.
ghost use Rattle.std.specs.List.{flat_map};
ghost use Rattle.std.specs.Prelude.{◌≡◌, ◌++◌, codes, length, take, OnErr, OnOk};

use da_values::{Buf, NoMemory, write_number};
use itoa::Integer;

/// Takes back what was appended after this length, where memory was refused.
pub(crate) fn settle(
    written: Result<(), NoMemory>,
    length: usize,
    out: &mut Buf,
) -> Result<(), NoMemory>
    ensures same { result ≡ written }
    ensures ok { OnOk result (out.new ≡ out.old) }
    ensures err { OnErr result (out.new ≡ take length out.old) }
{
    if written.is_err() {
        out.truncate(length);
    }
    written
}

/// Appends a word, and numbers after it, or a part of this where memory is refused.
pub(crate) fn put_words<N: Integer>(
    word: &[u8],
    numbers: &[N],
    out: &mut Buf,
) -> Result<(), NoMemory>
    ensures ok { OnOk result (out.new ≡ out.old ++ word.now ++ flat_map (λ n. codes " " ++ N.text n) numbers.now) }
    ensures err { OnErr result (take (length out.old) out.new ≡ out.old) }
{
    out.append(word)?;
    for number in numbers {
        put_number(*number, out)?;
    }
    Ok(())
}

// Appends a number after a space.
fn put_number<N: Integer>(number: N, out: &mut Buf) -> Result<(), NoMemory>
    ensures ok { OnOk result (out.new ≡ out.old ++ codes " " ++ N.text number) }
    ensures err { OnErr result (take (length out.old) out.new ≡ out.old) }
{
    out.append(b" ")?;
    write_number(number, out)
}

/// Appends a line of a word and numbers, or a part of it where memory is refused.
pub(crate) fn put_line<N: Integer>(
    word: &[u8],
    numbers: &[N],
    out: &mut Buf,
) -> Result<(), NoMemory>
    ensures ok { OnOk result (out.new ≡ out.old ++ word.now ++ flat_map (λ n. codes " " ++ N.text n) numbers.now ++ codes "\n") }
    ensures err { OnErr result (take (length out.old) out.new ≡ out.old) }
{
    put_words(word, numbers, out)?;
    out.append(b"\n")
}
