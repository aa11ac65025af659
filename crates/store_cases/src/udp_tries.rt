//! Two links over UDP, between which datagrams go.
ghost use Rattle.std.specs.Prelude.{◌≡◌, ◌≤◌, IfSome};

use anyhow::anyhow;
use da_outside::{DATAGRAM_MAX, Link, Taken, Trouble};
use std::net::Net;
use udp_link::UdpLink;

/// Prints whether each takes what the other gives, what comes after a datagram that UDP does not carry, and how a link ends that
/// is bound to its own port once more.
pub fn try_udp<R: Net + Print>(rt: &R) -> anyhow::Result<()> {
    let mut one = UdpLink::new(rt);
    let mut two = UdpLink::new(rt);
    let Some(port) = bind_both(&mut one, &mut two) else {
        return Err(anyhow!("no two ports in a row are free"));
    };
    show_passed(rt, &mut one, &mut two)?;
    show_lost(rt, &mut one, &mut two)?;
    let again = two.bind(port, 1, 2);
    println!(rt; "bound to a port of the other: {again:?}")?;
    Ok(())
}

// A port above which the two next ones were free, where one is found: the links are bound to these.
fn bind_both<L: Link>(one: &mut L, two: &mut L) -> Option<u16>
    ensures port { IfSome result (λ port. (1024 ≤ port) × (port ≤ 65000)) }
    ensures bound { IfSome result (λ _. (L.count one.new ≡ 2) × (L.count two.new ≡ 2)) }
{
    for step in 0..40u16 {
        let port = 20_000 + 1_000 * step;
        if one.bind(port, 1, 2).is_ok() && two.bind(port, 2, 2).is_ok() {
            return Some(port);
        }
    }
    None
}

// How many bytes the datagram has that comes within so many tries, where one comes.
fn await_one<L: Link>(link: &mut L, buf: &mut [u8; DATAGRAM_MAX]) -> Result<Option<usize>, Trouble>
    requires { 1 ≤ L.count link.old }
    ensures { L.count link.new ≡ L.count link.old }
{
    for _ in 0..1_000_000u32 {
        if let Taken::Datagram(count) = link.take(buf)? {
            return Ok(Some(count));
        }
    }
    Ok(None)
}

// Whether the other link takes what the one gives to it.
fn passes<L: Link>(one: &mut L, to: u16, other: &mut L, bytes: &[u8]) -> Result<bool, Trouble>
    requires to { (1 ≤ to) × (to ≤ 2) }
    requires one { L.count one.old ≡ 2 }
    requires other { L.count other.old ≡ 2 }
    ensures one { L.count one.new ≡ 2 }
    ensures other { L.count other.new ≡ 2 }
{
    let mut buf = [0u8; DATAGRAM_MAX];
    one.give(to, bytes)?;
    let count = await_one(other, &mut buf)?;
    Ok(count == Some(bytes.len()) && buf.starts_with(bytes))
}

// Prints whether each takes what the other gives, a short datagram and a long one.
fn show_passed<R: Print, L: Link>(rt: &R, one: &mut L, two: &mut L) -> anyhow::Result<()>
    requires one { L.count one.old ≡ 2 }
    requires two { L.count two.old ≡ 2 }
    ensures one { L.count one.new ≡ 2 }
    ensures two { L.count two.new ≡ 2 }
{
    let short = passes(one, 2, two, b"first")?;
    let long = passes(two, 1, one, &[7; 60_000])?;
    println!(rt; "passed: {short}, {long}")?;
    Ok(())
}

// Prints whether the next datagram is taken after one that is too long, and what is taken after that.
fn show_lost<R: Print, L: Link>(rt: &R, one: &mut L, two: &mut L) -> anyhow::Result<()>
    requires one { L.count one.old ≡ 2 }
    requires two { L.count two.old ≡ 2 }
{
    two.give(1, &[8; DATAGRAM_MAX])?;
    let next = passes(two, 1, one, b"")?;
    let rest = one.take(&mut [0; DATAGRAM_MAX])?;
    println!(rt; "after one that is too long: {next}, {rest:?}")?;
    Ok(())
}
