//! The lines of actions.
ghost use Rattle.da_values.specs.Text.{separated, value_text};
ghost use Rattle.da_values.specs.Value.{val_of, vals};
ghost use Rattle.sched_text.specs.ActionText.{action_line, fault_word as fault_word_def};
ghost use Rattle.std.specs.List.{flat_map};
ghost use Rattle.std.specs.Prelude.{◌≡◌, ◌++◌, codes, length, map, take, OnErr, OnOk};

use crate::put::{put_line, put_words, settle};
use da_lang::{Action, FaultKind};
use da_values::{Buf, NoMemory, Value, write_value};
use itoa::Integer;

/// Appends the line of an action. Where memory is refused `out` is as it was.
pub fn write_action(a: &Action, out: &mut Buf) -> Result<(), NoMemory>
    ensures ok { OnOk result (out.new ≡ out.old ++ action_line a.now) }
    ensures err { OnErr result (out.new ≡ out.old) }
{
    let before = out.len();
    let written = put_action(a, out);
    settle(written, before, out)
}

// Appends the line of an action, or a part of it where memory is refused.
fn put_action(action: &Action, out: &mut Buf) -> Result<(), NoMemory>
    ensures ok { OnOk result (out.new ≡ out.old ++ action_line action.now) }
    ensures err { OnErr result (take (length out.old) out.new ≡ out.old) }
{
    match action {
        Action::Took { p, k } => put_line(b"took", &[u32::from(*p), *k], out),
        Action::Sent { p, q, t, v } => {
            put_value_line(b"sent", &[u64::from(*p), u64::from(*q), *t], v, out)
        }
        Action::Got { q, p, t, v } => {
            put_value_line(b"got", &[u64::from(*q), u64::from(*p), *t], v, out)
        }
        Action::Lost { p, q, t } => put_line(b"lost", &[u64::from(*p), u64::from(*q), *t], out),
        Action::Again { p, q, t } => put_line(b"again", &[u64::from(*p), u64::from(*q), *t], out),
        Action::Out { p, v } => put_value_line(b"out", &[*p], v, out),
        Action::End { p } => put_line(b"end", &[*p], out),
        Action::Fault { p, kind, line } => put_fault(*p, *kind, *line, out),
        Action::Answer { p, n, rows } => put_answer(*p, *n, rows.as_slice(), out),
        Action::Kept { p, n } => put_line(b"kept", &[u128::from(*p), *n], out),
        Action::Stop { i } => put_line(b"stop", &[*i], out),
    }
}

// Appends a line of a word, numbers and a value.
fn put_value_line<N: Integer>(
    word: &[u8],
    numbers: &[N],
    value: &Value,
    out: &mut Buf,
) -> Result<(), NoMemory>
    ensures ok { OnOk result (out.new ≡ out.old ++ word.now ++ flat_map (λ n. codes " " ++ N.text n) numbers.now ++ codes " " ++ value_text (val_of value.now) ++ codes "\n") }
    ensures err { OnErr result (take (length out.old) out.new ≡ out.old) }
{
    put_words(word, numbers, out)?;
    out.append(b" ")?;
    write_value(value, out)?;
    out.append(b"\n")
}

// Appends the line of a fault.
fn put_fault(p: u16, kind: FaultKind, line: u32, out: &mut Buf) -> Result<(), NoMemory>
    ensures ok { OnOk result (out.new ≡ out.old ++ action_line (Action.Fault p kind line)) }
    ensures err { OnErr result (take (length out.old) out.new ≡ out.old) }
{
    put_words(b"fault", &[p], out)?;
    out.append(b" ")?;
    put_line(fault_word(kind), &[line], out)
}

// The word for a kind of fault.
fn fault_word(kind: FaultKind) -> &'static [u8]
    ensures { result.now ≡ fault_word_def kind }
{
    match kind {
        FaultKind::Overflow => b"overflow",
        FaultKind::Divide => b"divide",
        FaultKind::Range => b"range",
        FaultKind::Message => b"message",
        FaultKind::TooLong => b"toolong",
    }
}

// Appends the line of an answer of these rows.
fn put_answer(p: u16, n: u32, rows: &[Value], out: &mut Buf) -> Result<(), NoMemory>
    ensures ok { OnOk result (out.new ≡ out.old ++ action_line (Action.Answer p n (vals rows.now))) }
    ensures err { OnErr result (take (length out.old) out.new ≡ out.old) }
{
    put_words(b"answer", &[u32::from(p), n], out)?;
    out.append(b" {")?;
    put_separated(rows, out)?;
    out.append(b"}\n")
}

// Appends the texts of some values, with a comma and a space between.
fn put_separated(values: &[Value], out: &mut Buf) -> Result<(), NoMemory>
    ensures ok { OnOk result (out.new ≡ out.old ++ separated (map value_text (vals values.now))) }
    ensures err { OnErr result (take (length out.old) out.new ≡ out.old) }
{
    for (place, value) in values.iter().enumerate() {
        if place > 0 {
            out.append(b", ")?;
        }
        write_value(value, out)?;
    }
    Ok(())
}
