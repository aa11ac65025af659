//! The type of a variable where it stands.

use crate::kind::Named;
use da_hints::{Case, Part, Role, Row, Step, enter_gen, enter_head, enter_row, put_type};
use da_lang::Tree;
use std::alloc::Global;
use text_hints::Phrase;

/// The type of a variable of a program, as a person writes it, or `None` where it is not known.
pub fn type_text(alloc: Global, text: &[u8], tree: &Tree, named: &Named<'_>) -> Option<Phrase> {
    let mut case = Case::new(alloc, text, tree, named.row, false)?;
    enter_own(&mut case);
    let ty = case.scope.type_of(named.name)?;
    let mut shown = Phrase::new(alloc);
    put_type(&ty, &mut shown);
    Some(shown)
}

/// The names that a line brings into scope itself do so: those of a header, of a loop, of a condition, and those of its queries.
pub fn enter_own<'t>(case: &mut Case<'t>) {
    let site = case.site;
    let row = Row {
        part: site.part,
        line: case.line,
        depth: 0,
        inner: 0,
        begins: true,
    };
    enter_row(&row, &mut case.scope);
    if let (Part::Header, Some(body)) = (site.part, site.body) {
        enter_head(body, &mut case.scope);
    }
    for place in 0..case.steps.len() {
        if let Some(Step::Gen(generator)) = case.steps.get(place).copied() {
            enter_gen(generator, Role::QueryVariable, &mut case.scope);
        }
    }
}
