//! Values as contracts see them.
use crate::list::{Buf, List};

/// A value as contracts see it: a plain recursive type, in which a set is the list of its elements. No code makes one.
pub enum Val {
    /// An integer.
    Int(i128),
    /// A truth value.
    Bool(bool),
    /// A text.
    Text(Buf),
    /// A process, by its number.
    Proc(u16),
    /// A tuple of these parts.
    Tuple(List<Val>),
    /// A set of these elements, ascending.
    Set(List<Val>),
}
