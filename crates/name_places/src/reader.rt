//! Names, one after the other, with what each names at its place.

use crate::kind::{Kind, Named};
use crate::line::Line;
use crate::messages::is_tag;
use da_hints::{Role, Scope};
use da_lex::Token;
use da_values::{List, Mark};
use text_hints::between;

/// How far the names of a text are read: the class and the row that the next ones stand in, how many names are in scope outside of
/// the member there, and whether the next ones are labels behind `at`.
#[derive(Drop)]
pub struct Reader<'t> {
    pub line: Line<'t>,
    pub scope: Scope<'t>,
    pub class: usize,
    pub row: u32,
    pub outside: usize,
    place: usize,
    behind_at: bool,
    found: List<Named<'t>>,
}

impl<'t> Reader<'t> {
    /// No name is read.
    pub fn new(line: Line<'t>, scope: Scope<'t>, found: List<Named<'t>>) -> Reader<'t> {
        Reader {
            line,
            scope,
            class: 0,
            row: 0,
            outside: 0,
            place: 0,
            behind_at: false,
            found,
        }
    }

    /// Reads the names before a line of the text.
    pub fn read_to(&mut self, number: u32) {
        let tokens = self.line.tokens;
        let (_, rest) = tokens.split_at(self.place.min(tokens.len()));
        for token in rest {
            if token.line >= number {
                return;
            }
            self.read(token);
            self.place = self.place.saturating_add(1);
        }
    }

    // Reads a token.
    fn read(&mut self, token: &Token) {
        match self.line.mark(self.place) {
            Some(Mark::At) => self.behind_at = true,
            Some(Mark::Newline) | Some(Mark::Colon) => self.behind_at = false,
            Some(Mark::Name) => self.read_name(token),
            Some(Mark::Quoted) => self.read_text(token),
            _ => {}
        }
    }

    // Reads a name.
    fn read_name(&mut self, token: &Token) {
        let name = self.line.bytes(self.place);
        let (kind, declares) = self.kind_of(name);
        let first = token.first as usize;
        if !matches!(kind, Kind::Variable(_)) {
            let row = if declares { token.line } else { self.row };
            self.put(name, first, kind, 0, row, declares);
            return;
        }
        let line = self.line_of(name);
        let declares = token.line == line && !self.is_known(name, line);
        let row = self.row;
        self.put(name, first, kind, line, row, declares);
    }

    // Reads a text, which may be a tag.
    fn read_text(&mut self, token: &Token) {
        if is_tag(self.line, self.place) {
            let quoted = self.line.bytes(self.place);
            let name = between(quoted, 1, quoted.len().saturating_sub(1));
            let first = (token.first as usize).saturating_add(1);
            let row = self.row;
            self.put(name, first, Kind::Tag, 0, row, false);
        }
    }

    // What a name names, and whether it is declared there, which is told apart for variables.
    fn kind_of(&self, name: &[u8]) -> (Kind, bool) {
        let place = self.place;
        if self.line.is_before(place, 1, Mark::Message) {
            (Kind::Tag, true)
        } else if self.line.is_before(place, 1, Mark::Class) {
            (Kind::Class, true)
        } else if self.line.is_before(place, 2, Mark::New) {
            (Kind::Class, false)
        } else if self.line.is_before(place, 1, Mark::Def) {
            (Kind::Method, true)
        } else if self.line.is_before(place, 1, Mark::Dashes)
            && self.line.begins(place.saturating_sub(1))
        {
            (Kind::Label, true)
        } else if self.behind_at {
            (Kind::Label, false)
        } else if self.line.is(place.saturating_add(1), Mark::OpenParen)
            && self.line.begins(place)
        {
            (Kind::Method, false)
        } else {
            (Kind::Variable(self.role_of(name)), false)
        }
    }

    // The role of a variable. One that is not in scope is of a query.
    fn role_of(&self, name: &[u8]) -> Role {
        match self.scope.look(name) {
            Some(entry) => entry.role,
            None => Role::QueryVariable,
        }
    }

    // The line on which a variable comes into scope; that of a query does so where it stands.
    fn line_of(&self, name: &[u8]) -> u32 {
        match self.scope.look(name) {
            Some(entry) => entry.line,
            None => self.row,
        }
    }

    // Whether the variable of this line is among the names that were read last.
    fn is_known(&self, name: &[u8], line: u32) -> bool {
        for one in self.found.as_slice().iter().rev() {
            if one.row < line {
                return false;
            }
            if one.name == name && one.line == line && one.class == self.class {
                return true;
            }
        }
        false
    }

    fn put(
        &mut self,
        name: &'t [u8],
        first: usize,
        kind: Kind,
        line: u32,
        row: u32,
        declares: bool,
    ) {
        let class = self.class;
        let _ = self.found.push(Named {
            name,
            first,
            kind,
            class,
            line,
            row,
            declares,
        });
    }

    /// The names.
    pub fn found(self) -> List<Named<'t>> {
        let Reader { found, .. } = self;
        found
    }
}
