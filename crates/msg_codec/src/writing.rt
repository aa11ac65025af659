//! From a message to its packet.
ghost use Rattle.da_values.specs.Lengths.{encoded_len};
ghost use Rattle.da_values.specs.Narrow.{is_narrow};
ghost use Rattle.da_values.specs.Value.{val_of, vals};
ghost use Rattle.da_values.specs.declared.val.Val.TheVariants as val;
ghost use Rattle.msg_codec.specs.Packets.{has_few_parts, joined, packet_bytes, value_bytes};
ghost use Rattle.msg_codec.specs.Pieces.{HasRoom, HaveRoom};
ghost use Rattle.std.specs.Int.RustNames.{FitsSigned};
ghost use Rattle.std.specs.Int.{w64};
ghost use Rattle.std.specs.Prelude.{◌≡◌, ◌+◌, ◌^◌, ◌<◌, ◌≤◌, ◌++◌, ℕ, length, map, min, take, IsTrue, OnErr, OnOk};

use da_values::{Buf, NoMemory, Row, SetVal, Str, Value, encoded_len};

/// The bytes of a packet before its value.
const PACKET_HEAD: u64 = 13;

/// How many bytes the packet of a message takes, whoever sends it and when; from the greatest u64 on, that number. `encode`
/// asks for at most 60,000. It takes no memory.
pub fn packet_len(v: &Value) -> u64
    ensures { (sender clock : ℕ) → result ≡ min (length (packet_bytes sender clock (val_of v.now))) u64.MAX }
{
    encoded_len(v).saturating_add(PACKET_HEAD)
}

/// Appends the bytes of a message with its sender and its time: 13 bytes, and then those of the value. Its integers lie in
/// 64 bits, and its tuples have at most 255 parts. The time is at most 2^63 - 1, and there are at most 60,000 bytes. They
/// are a packet where the value is proper and at most 32 tuples and sets stand in one another in it. Where memory is
/// refused `out` is as it was.
pub fn encode(sender: u16, clock: u64, v: &Value, out: &mut Buf) -> Result<(), NoMemory>
    requires narrow { IsTrue (is_narrow (val_of v.now)) }
    requires few_parts { IsTrue (has_few_parts (val_of v.now)) }
    requires clock { clock < 2 ^ 63 }
    requires small { length (packet_bytes sender clock (val_of v.now)) ≤ 60000 }
    ensures ok { OnOk result (out.new ≡ out.old ++ packet_bytes sender clock (val_of v.now)) }
    ensures size { OnOk result (length out.new ≡ length out.old + 13 + encoded_len (val_of v.now)) }
    ensures err { OnErr result (out.new ≡ out.old) }
{
    let before = out.len();
    match put_packet(sender, clock, v, out) {
        Ok(()) => Ok(()),
        Err(refused) => {
            out.truncate(before);
            Err(refused)
        }
    }
}

// Appends the packet, or a part of it where memory is refused.
fn put_packet(sender: u16, clock: u64, v: &Value, out: &mut Buf) -> Result<(), NoMemory>
    requires room { HasRoom (val_of v.now) }
    requires small { length (value_bytes (val_of v.now)) ≤ 60000 }
    ensures ok { OnOk result (out.new ≡ out.old ++ packet_bytes sender clock (val_of v.now)) }
    ensures err { OnErr result (take (length out.old) out.new ≡ out.old) }
{
    out.append(b"DA\x01")?;
    out.append(&sender.to_be_bytes())?;
    out.append(&clock.to_be_bytes())?;
    put_value(v, out)
}

// Appends the bytes of a value, or a part of them where memory is refused.
#[cycle(put)]
#[tactic(auto, using(da_values::specs::Layer::weight_of))]
fn put_value(v: &Value, out: &mut Buf) -> Result<(), NoMemory>
    requires room { HasRoom (val_of v.now) }
    requires small { length (value_bytes (val_of v.now)) ≤ 60000 }
    ensures ok { OnOk result (out.new ≡ out.old ++ value_bytes (val_of v.now)) }
    ensures err { OnErr result (take (length out.old) out.new ≡ out.old) }
{
    match v {
        Value::Int(number) => put_integer(*number, out),
        Value::Bool(truth) => put_truth(*truth, out),
        Value::Text(text) => put_text(text, out),
        Value::Proc(process) => put_process(*process, out),
        Value::Tuple(parts) => put_tuple(parts, out),
        Value::Set(elements) => put_set(elements, out),
    }
}

#[tactic(auto, using(crate::proofs::BytesAt::bytes_of_integer))]
fn put_integer(number: i128, out: &mut Buf) -> Result<(), NoMemory>
    requires { FitsSigned w64 number }
    ensures ok { OnOk result (out.new ≡ out.old ++ value_bytes (val.Int number)) }
    ensures err { OnErr result (take (length out.old) out.new ≡ out.old) }
{
    out.push(b'i')?;
    out.append(&(number as i64).to_be_bytes())
}

#[tactic(auto, using(crate::proofs::BytesAt::bytes_of_truth))]
fn put_truth(truth: bool, out: &mut Buf) -> Result<(), NoMemory>
    ensures ok { OnOk result (out.new ≡ out.old ++ value_bytes (val.Bool truth)) }
    ensures err { OnErr result (take (length out.old) out.new ≡ out.old) }
{
    out.push(b'b')?;
    out.push(truth as u8)
}

#[tactic(auto, using(crate::proofs::BytesAt::bytes_of_text))]
fn put_text(text: &Str, out: &mut Buf) -> Result<(), NoMemory>
    requires { length (value_bytes (val.Text text.now)) ≤ 60000 }
    ensures ok { OnOk result (out.new ≡ out.old ++ value_bytes (val.Text text.now)) }
    ensures err { OnErr result (take (length out.old) out.new ≡ out.old) }
{
    let bytes = text.as_bytes();
    out.push(b's')?;
    out.append(&(bytes.len() as u16).to_be_bytes())?;
    out.append(bytes)
}

#[tactic(auto, using(crate::proofs::BytesAt::bytes_of_process))]
fn put_process(process: u16, out: &mut Buf) -> Result<(), NoMemory>
    ensures ok { OnOk result (out.new ≡ out.old ++ value_bytes (val.Proc process)) }
    ensures err { OnErr result (take (length out.old) out.new ≡ out.old) }
{
    out.push(b'p')?;
    out.append(&process.to_be_bytes())
}

#[cycle(put)]
fn put_tuple(parts: &Row, out: &mut Buf) -> Result<(), NoMemory>
    requires room { HasRoom (val.Tuple parts.now) }
    requires small { length (value_bytes (val.Tuple parts.now)) ≤ 60000 }
    ensures ok { OnOk result (out.new ≡ out.old ++ value_bytes (val.Tuple parts.now)) }
    ensures err { OnErr result (take (length out.old) out.new ≡ out.old) }
{
    out.push(b't')?;
    out.push(parts.len() as u8)?;
    put_values(parts.as_slice(), out)
}

#[cycle(put)]
fn put_set(elements: &SetVal, out: &mut Buf) -> Result<(), NoMemory>
    requires room { HasRoom (val.Set elements.now) }
    requires small { length (value_bytes (val.Set elements.now)) ≤ 60000 }
    ensures ok { OnOk result (out.new ≡ out.old ++ value_bytes (val.Set elements.now)) }
    ensures err { OnErr result (take (length out.old) out.new ≡ out.old) }
{
    out.push(b'S')?;
    out.append(&(elements.len() as u32).to_be_bytes())?;
    put_values(elements.as_slice(), out)
}

// Appends the bytes of some values, one after the other.
#[cycle(put)]
#[tactic(auto, using(da_values::specs::Layer::weight_part))]
fn put_values(values: &[Value], out: &mut Buf) -> Result<(), NoMemory>
    requires room { HaveRoom (vals values.now) }
    requires small { length (joined (map value_bytes (vals values.now))) ≤ 60000 }
    ensures ok { OnOk result (out.new ≡ out.old ++ joined (map value_bytes (vals values.now))) }
    ensures err { OnErr result (take (length out.old) out.new ≡ out.old) }
{
    for value in values {
        put_value(value, out)?;
    }
    Ok(())
}
