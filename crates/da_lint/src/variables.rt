//! Variables that nothing reads.
use crate::parts::Part;
use crate::remark::{Kind, Remark};
use crate::text::Text;
use da_lang::{ClassTree, Member};
use da_values::List;

/// Remarks on the variables of a class that nothing of it reads, where this is what the class holds.
pub fn tell_variables(
    text: Text<'_>,
    class: &ClassTree,
    parts: &[Part<'_>],
    out: &mut List<Remark>,
) {
    for member in class.members.as_slice() {
        if let Member::Var { name, line, .. } = member {
            if !reads(parts, name.as_slice()) {
                let mut told = text.phrase();
                told.fill(
                    b"nothing reads the variable @: take it away, or put it out",
                    name.as_slice(),
                    b"",
                );
                text.remark(Kind::Unread, *line, name.as_slice(), told, out);
            }
        }
    }
}

// Whether a name is read.
fn reads(parts: &[Part<'_>], name: &[u8]) -> bool {
    for part in parts {
        if let Part::Name(other) = *part {
            if other == name {
                return true;
            }
        }
    }
    false
}
