//! Value text.
ghost use Rattle.da_values.specs.Text.{value_text, separated};
ghost use Rattle.da_values.specs.Value.{val_of, vals};
ghost use Rattle.std.specs.Prelude.{◌≡◌, ◌++◌, length, map, take, OnOk, OnErr};

use crate::list::{Buf, NoMemory};
use crate::number::write_number;
use crate::value::Value;

/// Appends the text of a value. Where memory is refused `out` is as it was.
pub fn write_value(v: &Value, out: &mut Buf) -> Result<(), NoMemory>
    ensures ok { OnOk result (out.new ≡ out.old ++ value_text (val_of v.now)) }
    ensures err { OnErr result (out.new ≡ out.old) }
{
    let before = out.len();
    match put_value(v, out) {
        Ok(()) => Ok(()),
        Err(refused) => {
            out.truncate(before);
            Err(refused)
        }
    }
}

// Appends the text of a value, or a part of it where memory is refused.
#[cycle(put)]
#[tactic(auto, using(crate::proofs::TextLemmas::value_text_of, crate::specs::Layer::weight_of))]
fn put_value(v: &Value, out: &mut Buf) -> Result<(), NoMemory>
    ensures ok { OnOk result (out.new ≡ out.old ++ value_text (val_of v.now)) }
    ensures err { OnErr result (take (length out.old) out.new ≡ out.old) }
{
    match v {
        Value::Int(number) => write_number(*number, out),
        Value::Bool(true) => out.append(b"true"),
        Value::Bool(false) => out.append(b"false"),
        Value::Text(text) => {
            out.append(b"'")?;
            out.append(text.as_bytes())?;
            out.append(b"'")
        }
        Value::Proc(process) => {
            out.append(b"p")?;
            write_number(*process, out)
        }
        Value::Tuple(parts) => {
            out.append(b"(")?;
            put_values(parts.as_slice(), out)?;
            if parts.len() == 1 {
                out.append(b",)")
            } else {
                out.append(b")")
            }
        }
        Value::Set(elements) => {
            out.append(b"{")?;
            put_values(elements.as_slice(), out)?;
            out.append(b"}")
        }
    }
}

// Appends the texts of some values, with a comma and a space between.
#[cycle(put)]
#[tactic(auto, using(crate::specs::Layer::weight_part))]
fn put_values(values: &[Value], out: &mut Buf) -> Result<(), NoMemory>
    ensures ok { OnOk result (out.new ≡ out.old ++ separated (map value_text (vals values.now))) }
    ensures err { OnErr result (take (length out.old) out.new ≡ out.old) }
{
    for (place, value) in values.iter().enumerate() {
        if place > 0 {
            out.append(b", ")?;
        }
        put_value(value, out)?;
    }
    Ok(())
}
