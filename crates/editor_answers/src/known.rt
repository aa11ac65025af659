//! The names that are known at a place, of the kinds that may stand there.

use crate::columns::line_at;
use crate::completing::put_item;
use crate::cures::quoted;
use crate::objects::{Object, add};
use crate::question::Question;
use crate::renaming::edit;
use crate::uses::{tokens_of, tree_of};
use da_hints::{Case, Role};
use da_lang::{Member, Tree};
use da_lex::{Token, TokenKind};
use da_values::{Buf, Mark, copy_bytes};
use name_places::{Kind, names_of};
use serde_json::Value;
use std::alloc::Global;
use text_hints::{between, is_one_of, line_of, slice_at};

/// Kinds of completions of the protocol.
const METHOD: usize = 2;

const VARIABLE: usize = 6;

const CLASS: usize = 7;

const LABEL: usize = 18;

const TAG: usize = 23;

/// The words that a new name stands behind.
const FRESH: &[u8] = b"message|class|def|var|for|--";

/// What stands before the parenthesis of a tuple that is a message.
const MESSAGES: &[u8] = b"send|receive|some|each|,|:";

/// The tokens of a line that are looked through for names of its queries.
const NEAR: usize = 256;

/// Lines that stand for one that is half written. One of them fits almost everywhere.
const STAND_INS: [&[u8]; 5] = [
    b"pass",
    b"if true:",
    b"setup(other)",
    b"var other: int",
    b"def other():",
];

/// A place in a program: the text up to there, with a name at the place, the tokens before it, and the kinds of tokens with which the
/// reader of the grammar goes on. `open` is the end of the text that is open at the place, where one is.
#[derive(Clone, Copy)]
pub struct Here<'h> {
    pub text: &'h [u8],
    pub before: &'h [Token],
    pub marks: &'h [Mark],
    pub place: usize,
    pub open: Option<usize>,
}

impl<'h> Here<'h> {
    // The bytes of the token so many before the place. Ends of lines have none.
    fn word(&self, count: usize) -> &'h [u8] {
        match self.before.len().checked_sub(count) {
            Some(place) => match self.before.get(place) {
                Some(token) => slice_at(self.text, token),
                None => b"",
            },
            None => b"",
        }
    }

    // The tokens before the place on its line of tokens.
    fn line(&self) -> &'h [Token] {
        let count = self
            .before
            .iter()
            .rev()
            .take_while(|token| token.length != 0)
            .count();
        last_of(self.before, count)
    }

    // The first word of the line of tokens.
    fn first_word(&self) -> &'h [u8] {
        match self.line() {
            [first, ..] => slice_at(self.text, first),
            [] => b"",
        }
    }
}

// The last tokens of some, so many or all.
fn last_of(tokens: &[Token], count: usize) -> &[Token] {
    let place = tokens.len().saturating_sub(count);
    let (_, last) = tokens.split_at(place.min(tokens.len()));
    last
}

/// Which names may stand at a place.
#[derive(Clone, Copy)]
enum Wanted {
    /// None that is known.
    Nothing,
    /// Those with which a statement begins: variables of the class, and methods.
    Begins,
    /// Variables.
    Values,
    /// Classes.
    Classes,
    /// Labels.
    Labels,
}

// Which names may stand at a place. Patterns have new names, and `_` may stand in patterns alone.
fn wanted_at(here: Here<'_>) -> Wanted {
    let word = here.word(1);
    if here.open.is_some()
        || !here.marks.contains(&Mark::Name)
        || here.marks.contains(&Mark::Wild)
        || is_one_of(word, FRESH)
        || here.first_word() == b"def".as_slice()
    {
        Wanted::Nothing
    } else if word.is_empty() {
        Wanted::Begins
    } else if is_behind_at(here) {
        Wanted::Labels
    } else if word == b"(".as_slice() && here.word(2) == b"new".as_slice() {
        Wanted::Classes
    } else {
        Wanted::Values
    }
}

// Whether the place is behind `at`.
fn is_behind_at(here: Here<'_>) -> bool {
    let text = here.text;
    here.line()
        .iter()
        .any(|token| slice_at(text, token) == b"at".as_slice())
}

// Whether the first part of a message may stand at a place.
fn wants_tag(here: Here<'_>) -> bool {
    here.marks.contains(&Mark::Quoted)
        && here.word(1) == b"(".as_slice()
        && is_one_of(here.word(2), MESSAGES)
}

/// Adds the names that may stand at a place. Where the text is no program, or nothing is known of the line, another line stands for it.
pub fn put_known(question: &Question<'_>, here: Here<'_>, items: &mut Vec<Value>) {
    if matches!(wanted_at(here), Wanted::Nothing) && !wants_tag(here) {
        return;
    }
    let last = number_of_line(question.text, here.place);
    let first = match here.line() {
        [token, ..] => token.line,
        [] => last,
    };
    if put_from(question, question.text, first, here, items) {
        return;
    }
    for line in &STAND_INS {
        if let Some(other) = with_line(question.alloc, question.text, first, last, *line) {
            if put_from(question, other.as_slice(), first, here, items) {
                return;
            }
        }
    }
}

// The number of the line of a place, counted from 1.
fn number_of_line(text: &[u8], place: usize) -> u32 {
    u32::try_from(line_at(text, place).saturating_add(1)).unwrap_or(u32::MAX)
}

// A text with another line in the place of those from one up to another one.
fn with_line(alloc: Global, text: &[u8], first: u32, last: u32, line: &[u8]) -> Option<Buf> {
    let begin = line_of(text, first)?;
    let level = begin.bytes.iter().take_while(|byte| **byte == b' ').count();
    let old = line_of(text, last)?;
    let end = old.first.saturating_add(old.bytes.len());
    let mut other = copy_bytes(alloc, between(text, 0, begin.first.saturating_add(level))).ok()?;
    other.append(line).ok()?;
    other.append(between(text, end, text.len())).ok()?;
    Some(other)
}

// Adds the names that a text has on a line, and says whether it is a program of which something is known there.
fn put_from(
    question: &Question<'_>,
    text: &[u8],
    line: u32,
    here: Here<'_>,
    items: &mut Vec<Value>,
) -> bool {
    match tree_of(question.alloc, text) {
        Some(tree) => put_of_tree(question, text, &tree, line, here, items),
        None => false,
    }
}

fn put_of_tree(
    question: &Question<'_>,
    text: &[u8],
    tree: &Tree,
    line: u32,
    here: Here<'_>,
    items: &mut Vec<Value>,
) -> bool {
    match Case::new(question.alloc, text, tree, line, false) {
        Some(case) => {
            put_of_case(&case, here, items);
            if wants_tag(here) {
                put_tags(question, tree, here, items);
            }
            true
        }
        None => false,
    }
}

fn put_of_case(case: &Case<'_>, here: Here<'_>, items: &mut Vec<Value>) {
    match wanted_at(here) {
        Wanted::Nothing => {}
        Wanted::Begins => {
            put_targets(case, items);
            put_methods(case, items);
        }
        Wanted::Values => {
            put_variables(case, items);
            put_own(case, here, items);
        }
        Wanted::Classes => put_classes(case, items),
        Wanted::Labels => put_labels(case, items),
    }
}

// The variables of the class.
fn put_targets(case: &Case<'_>, items: &mut Vec<Value>) {
    for entry in case.scope.entries() {
        if entry.role == Role::ClassVariable {
            put_item(case.alloc, entry.name, VARIABLE, items);
        }
    }
}

// The methods of the class.
fn put_methods(case: &Case<'_>, items: &mut Vec<Value>) {
    let site = case.site;
    if let Some(class) = site.class {
        for member in class.members.as_slice() {
            if let Member::Method { name, .. } = member {
                put_item(case.alloc, name.as_slice(), METHOD, items);
            }
        }
    }
}

// The variables in scope before the line.
fn put_variables(case: &Case<'_>, items: &mut Vec<Value>) {
    for entry in case.scope.entries() {
        put_item(case.alloc, entry.name, VARIABLE, items);
    }
}

// The other names behind the first query of the line, each once.
fn put_own(case: &Case<'_>, here: Here<'_>, items: &mut Vec<Value>) {
    let text = here.text;
    let near = last_of(here.line(), NEAR);
    let mut within = false;
    for (place, token) in near.iter().enumerate() {
        let bytes = slice_at(text, token);
        if is_one_of(bytes, b"some|each|{") {
            within = true;
        } else if within && token.kind == TokenKind::Name && case.scope.look(bytes).is_none() {
            let (earlier, _) = near.split_at(place.min(near.len()));
            if !earlier.iter().any(|one| slice_at(text, one) == bytes) {
                put_item(case.alloc, bytes, VARIABLE, items);
            }
        }
    }
}

// The classes.
fn put_classes(case: &Case<'_>, items: &mut Vec<Value>) {
    for class in case.tree.classes.as_slice() {
        put_item(case.alloc, class.name.as_slice(), CLASS, items);
    }
}

// The labels of the class.
fn put_labels(case: &Case<'_>, items: &mut Vec<Value>) {
    let Some(tokens) = tokens_of(case.alloc, case.text) else {
        return;
    };
    let line = case.line;
    let classes = case.tree.classes.as_slice();
    let own = classes
        .iter()
        .take_while(|class| class.line <= line)
        .count()
        .saturating_sub(1);
    let names = names_of(case.alloc, case.text, tokens.list.as_slice(), case.tree);
    for one in names.as_slice() {
        if one.declares && one.class == own && matches!(one.kind, Kind::Label) {
            put_item(case.alloc, one.name, LABEL, items);
        }
    }
}

// The tags, in quotes.
fn put_tags(question: &Question<'_>, tree: &Tree, here: Here<'_>, items: &mut Vec<Value>) {
    for message in tree.messages.as_slice() {
        if let Some(tag) = quoted(question.alloc, message.tag.as_slice()) {
            add(item_of_tag(question, tag.as_slice(), here), items);
        }
    }
}

// A tag in its quotes. Where a text is open, it is written in the place of that.
fn item_of_tag(question: &Question<'_>, tag: &[u8], here: Here<'_>) -> Value {
    let mut object = Object::new(question.alloc);
    object.text("label", tag);
    object.number("kind", TAG);
    if let Some(end) = here.open {
        let length = end.saturating_sub(here.place);
        object.put("textEdit", edit(question, here.place, length, tag));
    }
    object.done()
}
