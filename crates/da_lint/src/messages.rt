//! Messages that nothing receives or reads.
use crate::parts::Part;
use crate::remark::{Kind, Remark};
use crate::text::Text;
use da_bodies::{Place, body_of};
use da_lang::{GenTree, PatternTree, SourceTree, Tree};
use da_values::List;

/// Remarks on the messages of a program that no handler receives and no query reads, where this is what all classes hold.
pub fn tell_messages<'t>(
    text: Text<'_>,
    tree: &'t Tree,
    parts: &[Part<'t>],
    out: &mut List<Remark>,
) {
    let mut heard = List::new(text.alloc);
    put_received(tree, &mut heard);
    for part in parts {
        if let Part::Query(gens, _) = *part {
            put_read(gens, &mut heard);
        }
    }
    for message in tree.messages.as_slice() {
        let tag = message.tag.as_slice();
        if !heard.as_slice().contains(&tag) {
            let mut told = text.phrase();
            told.fill(
                b"nothing receives or reads the message @: write receive ('$', ..) from who:, or take it away",
                tag,
                tag,
            );
            text.remark(Kind::Unheard, message.line, tag, told, out);
        }
    }
}

// The tags of the messages that handlers receive.
fn put_received<'t>(tree: &'t Tree, out: &mut List<&'t [u8]>) {
    for class in tree.classes.as_slice() {
        for member in class.members.as_slice() {
            if let Some(body) = body_of(member) {
                if let Place::Handler { message, .. } = body.place {
                    put_tag(message, out);
                }
            }
        }
    }
}

// The tags of the messages that generators read.
fn put_read<'t>(gens: &'t [GenTree], out: &mut List<&'t [u8]>) {
    for generator in gens {
        if !matches!(generator.source, SourceTree::Name(_)) {
            put_tag(&generator.message, out);
        }
    }
}

fn put_tag<'t>(pattern: &'t PatternTree, out: &mut List<&'t [u8]>) {
    let PatternTree::Tuple(parts) = pattern else {
        return;
    };
    if let [PatternTree::Text(tag), ..] = parts.as_slice() {
        let _ = out.push(tag.as_bytes());
    }
}
