//! What a page shows.
use da_lang::Action;
use da_values::{Buf, List};

/// Whether the rows of a page are those of a trace, or the events of a run, of which the first row is the opening.
#[derive(Clone, Copy)]
pub enum Kind {
    Trace,
    Run,
}

/// What a page shows, but for the text of a program.
#[derive(Drop)]
pub struct Page {
    pub kind: Kind,
    /// What was remarked of the run, each on a line.
    pub remarks: List<Buf>,
    /// The columns, by the ascending numbers of their processes. There are at most 65,536.
    pub columns: List<Column>,
    pub rows: List<Row>,
}

/// A column: its process, and the name that stands before its number.
#[derive(Drop)]
pub struct Column {
    pub process: u16,
    pub name: Buf,
}

/// A row: the words of its event, if they are known, what it does, what it changes, and whether it is marked.
#[derive(Drop)]
pub struct Row {
    pub words: Buf,
    pub actions: List<Action>,
    pub changes: List<Change>,
    pub is_marked: bool,
}

/// The new value of a thing that belongs to a process, which is one of its things by its place, counted from 0.
#[derive(Drop)]
pub struct Change {
    pub process: u16,
    pub place: u32,
    pub name: Buf,
    pub value: Buf,
}
