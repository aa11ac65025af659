//! Queries that keep the product of what they go through.
use crate::parts::{Part, put_pattern};
use crate::remark::{Kind, Remark};
use crate::text::Text;
use da_lang::{GenTree, PatternTree, PeerTree};
use da_values::List;

/// Remarks on the queries of a statement on this line, where this is what it holds, in which a generator behind the first names no
/// variable of an earlier one.
pub fn tell_products(text: Text<'_>, line: u32, parts: &[Part<'_>], out: &mut List<Remark>) {
    for part in parts {
        if let Part::Query(gens, word) = *part {
            if is_product(text, gens) {
                let mut told = text.phrase();
                told.put(
                    b"this query keeps a row for each pair of what it goes through: where a part is to be equal, write =a in the pattern in place of | a == b",
                );
                text.remark(Kind::Product, line, word, told, out);
            }
        }
    }
}

// Whether a generator behind the first compares no part with those before it.
fn is_product(text: Text<'_>, gens: &[GenTree]) -> bool {
    let mut bound = List::new(text.alloc);
    for (place, generator) in gens.iter().enumerate() {
        if place != 0 && !compares(text, generator, bound.as_slice()) {
            return true;
        }
        put_names(generator, &mut bound);
    }
    false
}

// Whether the patterns of a generator name one of these.
fn compares(text: Text<'_>, generator: &GenTree, bound: &[&[u8]]) -> bool {
    let mut parts = List::new(text.alloc);
    put_pattern(&generator.message, &mut parts);
    if let Some(pattern) = peer_of(generator) {
        put_pattern(pattern, &mut parts);
    }
    for part in parts.as_slice() {
        if let Part::Name(name) = *part {
            if (&*bound).contains(&name) {
                return true;
            }
        }
    }
    false
}

// The pattern of the other process.
fn peer_of(generator: &GenTree) -> Option<&PatternTree> {
    match &generator.peer {
        None => None,
        Some(PeerTree::From(pattern)) => Some(pattern),
        Some(PeerTree::To(pattern)) => Some(pattern),
    }
}

// Adds the names that the patterns of a generator bind.
fn put_names<'t>(generator: &'t GenTree, out: &mut List<&'t [u8]>) {
    put_within(&generator.message, out);
    if let Some(pattern) = peer_of(generator) {
        put_within(pattern, out);
    }
}

// The names of a pattern.
#[cycle(within)]
fn put_within<'t>(pattern: &'t PatternTree, out: &mut List<&'t [u8]>) {
    match pattern {
        PatternTree::Name(name) => put_name(name.as_slice(), out),
        PatternTree::Tuple(parts) => put_all_within(parts.as_slice(), out),
        _ => {}
    }
}

#[cycle(within)]
fn put_all_within<'t>(parts: &'t [PatternTree], out: &mut List<&'t [u8]>) {
    for part in parts {
        put_within(part, out);
    }
}

fn put_name<'t>(name: &'t [u8], out: &mut List<&'t [u8]>) {
    let _ = out.push(name);
}
