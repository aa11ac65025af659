//! The numbers of queries and of yield points. They are counted in the inlined text: `setup`, then `run`, then the handlers, with a
//! copy of its method in the place of each call.

use crate::counts::{asked_in, asked_in_args, asked_in_condition};
use da_lang::{Alt, Class, Item, ItemKind, RBranch};
use da_values::List;
use std::alloc::Global;

/// What the inlined text of a class has on a line. A line of a method comes once for each copy.
#[derive(Drop)]
pub struct Numbers {
    line: u32,
    before: u32,
    queries: u32,
    yields: u32,
    /// The numbers of the query, counted from 1.
    pub asked: List<u32>,
    /// The numbers of the label or of the `await`, counted from 0.
    pub waits: List<u32>,
}

impl Numbers {
    /// The numbers of the query that stands on a line of a class behind so many others, and of the yield point there.
    pub fn new(alloc: Global, class: &Class, line: u32, before: u32) -> Numbers {
        let mut numbers = Numbers {
            line,
            before,
            queries: 0,
            yields: 0,
            asked: List::new(alloc),
            waits: List::new(alloc),
        };
        pass_block(class.setup.as_slice(), &mut numbers);
        pass_block(class.run.as_slice(), &mut numbers);
        for handler in class.handlers.as_slice() {
            pass_block(handler.body.as_slice(), &mut numbers);
        }
        numbers
    }

    // Passes so many queries of a line.
    fn ask(&mut self, line: u32, count: u32) {
        if line == self.line && self.before < count {
            let number = self.queries.saturating_add(self.before);
            let _ = self.asked.push(number.saturating_add(1));
        }
        self.queries = self.queries.saturating_add(count);
    }

    // Passes a yield point of a line.
    fn wait(&mut self, line: u32) {
        if line == self.line {
            let _ = self.waits.push(self.yields);
        }
        self.yields = self.yields.saturating_add(1);
    }
}

#[cycle(passing)]
fn pass_block(items: &[Item], numbers: &mut Numbers) {
    for item in items {
        pass_item(item, numbers);
    }
}

#[cycle(passing)]
fn pass_item(item: &Item, numbers: &mut Numbers) {
    match &item.kind {
        ItemKind::If(branches, otherwise) => {
            pass_branches(branches.as_slice(), numbers);
            pass_block(otherwise.as_slice(), numbers);
        }
        ItemKind::While(cond, body) => {
            numbers.ask(item.line, asked_in(cond.get()));
            pass_block(body.as_slice(), numbers);
        }
        ItemKind::For(_, over, body) => {
            numbers.ask(item.line, asked_in(over.get()));
            pass_block(body.as_slice(), numbers);
        }
        ItemKind::Call(args, body) => {
            numbers.ask(item.line, asked_in_args(args.as_slice()));
            pass_block(body.as_slice(), numbers);
        }
        ItemKind::Await {
            alts,
            timeout,
            label: _,
        } => {
            numbers.wait(item.line);
            pass_alternatives(alts.as_slice(), numbers);
            match timeout {
                Some(body) => pass_block(body.as_slice(), numbers),
                None => {}
            }
        }
        ItemKind::Label(_) => numbers.wait(item.line),
        _ => pass_plain(item, numbers),
    }
}

#[cycle(passing)]
fn pass_branches(branches: &[RBranch], numbers: &mut Numbers) {
    for branch in branches {
        numbers.ask(branch.line, asked_in(branch.cond.get()));
        pass_block(branch.body.as_slice(), numbers);
    }
}

#[cycle(passing)]
fn pass_alternatives(alternatives: &[Alt], numbers: &mut Numbers) {
    for alternative in alternatives {
        numbers.ask(alternative.line, asked_in_condition(alternative.cond.get()));
        pass_block(alternative.body.as_slice(), numbers);
    }
}

// Passes a statement that has no block.
fn pass_plain(item: &Item, numbers: &mut Numbers) {
    let count = match &item.kind {
        ItemKind::Assign(_, value) => asked_in(value.get()),
        ItemKind::Add(_, value) => asked_in(value.get()),
        ItemKind::Del(_, value) => asked_in(value.get()),
        ItemKind::Send(message, to) => {
            asked_in(message.get()).saturating_add(asked_in(to.get()))
        }
        ItemKind::Output(value) => asked_in(value.get()),
        _ => 0,
    };
    numbers.ask(item.line, count);
}
