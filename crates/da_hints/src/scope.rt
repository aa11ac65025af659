//! The names in scope at a place, with their types.
use da_lang::{MessageDecl, Ty, copy_type};
use da_values::List;
use std::alloc::Global;

/// What a name stands for.
#[derive(Clone, Copy, PartialEq, Eq)]
pub enum Role {
    ClassVariable,
    Parameter,
    LoopVariable,
    HandlerVariable,
    BoundVariable,
    QueryVariable,
    Made,
}

/// A name in scope, the line that declares it, how many blocks it is in, and its type, where it is known.
#[derive(Drop)]
pub struct Entry<'t> {
    pub name: &'t [u8],
    pub role: Role,
    pub line: u32,
    depth: usize,
    ty: Option<Ty>,
}

/// The names in scope, the innermost last, the line and the blocks that names come into scope at, and the messages of the program.
#[derive(Drop)]
pub struct Scope<'t> {
    pub alloc: Global,
    messages: &'t [MessageDecl],
    entries: List<Entry<'t>>,
    line: u32,
    depth: usize,
}

impl<'t> Scope<'t> {
    /// No name is in scope.
    pub fn new(alloc: Global, messages: &'t [MessageDecl]) -> Scope<'t> {
        Scope {
            alloc,
            messages,
            entries: List::new(alloc),
            line: 0,
            depth: 0,
        }
    }

    /// How many names are in scope.
    pub fn len(&self) -> usize {
        self.entries.len()
    }

    /// The names that come next do so on this line, in so many blocks.
    pub fn stand_at(&mut self, line: u32, depth: usize) {
        self.line = line;
        self.depth = depth;
    }

    /// A name comes into scope.
    pub fn enter(&mut self, name: &'t [u8], role: Role, ty: Option<Ty>) {
        let (line, depth) = (self.line, self.depth);
        let _ = self.entries.push(Entry {
            name,
            role,
            line,
            depth,
            ty,
        });
    }

    /// The names after the first so many leave the scope.
    pub fn leave_to(&mut self, len: usize) {
        self.entries.truncate(len);
    }

    /// The names that are in more blocks than so many leave the scope.
    pub fn leave_blocks(&mut self, depth: usize) {
        let entries = self.entries.as_slice();
        let len = entries
            .iter()
            .take_while(|entry| entry.depth <= depth)
            .count();
        self.entries.truncate(len);
    }

    /// What a name stands for.
    pub fn look(&self, name: &[u8]) -> Option<&Entry<'t>> {
        self.entries
            .as_slice()
            .iter()
            .rev()
            .find(|entry| entry.name == name)
    }

    /// The names.
    pub fn entries(&self) -> &[Entry<'t>] {
        self.entries.as_slice()
    }

    /// A copy of the type of a name.
    pub fn type_of(&self, name: &[u8]) -> Option<Ty> {
        self.copy(self.look(name)?.ty.as_ref())
    }

    /// A copy of a type.
    pub fn copy(&self, ty: Option<&Ty>) -> Option<Ty> {
        match ty {
            Some(ty) => copy_type(self.alloc, ty).ok(),
            None => None,
        }
    }

    /// The first message of this tag with so many parts after it, or with any where no number is given.
    pub fn message(&self, tag: &[u8], count: Option<usize>) -> Option<&'t MessageDecl> {
        let mut messages = self.messages.iter();
        messages.find(|message| {
            message.tag.as_slice() == tag
                && count.unwrap_or(message.parts.len()) == message.parts.len()
        })
    }
}

/// What a name stands for, in words.
pub fn role_name(role: Role) -> &'static [u8] {
    match role {
        Role::ClassVariable => b"a variable of the class",
        Role::Parameter => b"a parameter",
        Role::LoopVariable => b"the variable of a loop",
        Role::HandlerVariable => b"a name of the pattern of a handler",
        Role::BoundVariable => b"a variable that 'some' binds",
        Role::QueryVariable => b"a variable of a query",
        Role::Made => b"a name of main",
    }
}
