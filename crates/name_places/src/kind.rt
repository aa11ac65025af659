//! Names and what they name.

use da_hints::Role;

/// What a name names.
#[derive(Clone, Copy)]
pub enum Kind {
    /// A tag of messages.
    Tag,
    /// A class.
    Class,
    /// A method of a class.
    Method,
    /// A label of a class.
    Label,
    /// A variable.
    Variable(Role),
}

/// A name at a place of a text.
#[derive(Clone, Copy)]
pub struct Named<'t> {
    /// The name, without the quotes of a tag.
    pub name: &'t [u8],
    /// The byte at which it begins.
    pub first: usize,
    /// What it names.
    pub kind: Kind,
    /// The class that it stands in, counted from 0; outside of classes the number of these.
    pub class: usize,
    /// The line on which a variable comes into scope; 0 for what is none.
    pub line: u32,
    /// The line at which what it stands in begins: a header, a statement, a condition.
    pub row: u32,
    /// Whether this is where it is declared.
    pub declares: bool,
}

impl Named<'_> {
    /// Whether both name the same thing.
    pub fn is_same(&self, other: &Named<'_>) -> bool {
        if self.name != other.name {
            return false;
        }
        match self.kind {
            Kind::Tag => matches!(other.kind, Kind::Tag),
            Kind::Class => matches!(other.kind, Kind::Class),
            Kind::Method => matches!(other.kind, Kind::Method) && self.class == other.class,
            Kind::Label => matches!(other.kind, Kind::Label) && self.class == other.class,
            Kind::Variable(_) => {
                matches!(other.kind, Kind::Variable(_))
                    && self.class == other.class
                    && self.line == other.line
            }
        }
    }

    /// Whether a place of the text is at the name, or directly after it.
    pub fn is_at(&self, place: usize) -> bool {
        self.first <= place && place <= self.first.saturating_add(self.name.len())
    }
}
