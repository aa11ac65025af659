//! The numbers of a label.

use da_front::read_resolved;
use name_places::{Kind, Named};
use query_places::Numbers;
use std::alloc::Global;
use text_hints::Phrase;

/// The yield points that are told at most.
const MOST_POINTS: usize = 8;

/// Tells the number that a label has among those of its class, and which yield points it is in `run`, where names are resolved.
pub fn tell_label(
    alloc: Global,
    text: &[u8],
    names: &[Named<'_>],
    label: &Named<'_>,
    out: &mut Phrase,
) {
    out.put(b"\nnumber ");
    out.number(number_of(names, label));
    out.put(b" of its class");
    if let Ok(program) = read_resolved(alloc, text) {
        if let Some(class) = program.classes.get(label.class) {
            let numbers = Numbers::new(alloc, class, label.row, 0);
            tell_points(numbers.waits.as_slice(), out);
        }
    }
}

// The number of a label, counted from 1 in the order of the text.
fn number_of(names: &[Named<'_>], label: &Named<'_>) -> u64 {
    let mut number = 0u64;
    for one in names {
        if one.declares && one.class == label.class && matches!(one.kind, Kind::Label) {
            number = number.saturating_add(1);
            if one.name == label.name {
                return number;
            }
        }
    }
    number
}

fn tell_points(points: &[u32], out: &mut Phrase) {
    if points.is_empty() {
        out.put(b", at no yield point of run");
        return;
    }
    out.put(b", yield point");
    if points.len() > 1 {
        out.put(b"s");
    }
    for (place, point) in points.iter().enumerate() {
        if place < MOST_POINTS {
            out.put(if place == 0 { b" " } else { b", " });
            out.number(u64::from(*point));
        }
    }
    if points.len() > MOST_POINTS {
        out.put(b", ..");
    }
    out.put(b" of run");
}
