//! How large a class is with its calls inlined.
ghost use Rattle.da_calls.specs.CallGraph.{IsCallGraph};

use crate::rows::rows_of;
use crate::scope::Scope;
use crate::site::{Part, enter_head, enter_row};
use da_bodies::{Body, Place, body_of};
use da_calls::CallGraph;
use da_lang::{ClassTree, Member, Stmt};
use da_values::List;
use std::alloc::Global;

/// How many statements a text has, how many blocks are within each other, and how many slots it needs, with calls inlined.
#[derive(Clone, Copy)]
pub struct Extent {
    pub items: usize,
    pub blocks: usize,
    pub slots: usize,
}

/// The extent of no text.
pub const NOTHING: Extent = Extent {
    items: 0,
    blocks: 0,
    slots: 0,
};

impl Extent {
    // Two texts, one after the other, of which the second stands in so many blocks more.
    fn with(self, other: Extent, depth: usize) -> Extent {
        Extent {
            items: self.items.saturating_add(other.items),
            blocks: self.blocks.max(other.blocks.saturating_add(depth)),
            slots: self.slots.saturating_add(other.slots),
        }
    }
}

/// The extent of a class: of its `setup`, its `run` and its handlers, and its variables. It is nothing where memory is refused.
pub fn extent_of(alloc: Global, class: &ClassTree) -> Extent {
    match CallGraph::new(alloc, class) {
        Ok(graph) => of_class(alloc, &graph),
        Err(_) => NOTHING,
    }
}

fn of_class(alloc: Global, graph: &CallGraph<'_>) -> Extent
    requires { IsCallGraph graph.now }
{
    let copies = copies_of(alloc, graph);
    let mut whole = NOTHING;
    for member in graph.class().members.as_slice() {
        if let Member::Var { .. } = member {
            whole.slots = whole.slots.saturating_add(1);
        }
        if let Some(body) = body_of(member) {
            if !matches!(body.place, Place::Method(_)) {
                whole = whole.with(of_body(alloc, body, graph, copies.as_slice()), 0);
            }
        }
    }
    whole
}

// The extents of the copies of the methods, by the numbers of the methods. Each comes after those that it calls.
fn copies_of(alloc: Global, graph: &CallGraph<'_>) -> List<Extent>
    requires { IsCallGraph graph.now }
{
    let methods = graph.methods();
    let mut copies = List::new(alloc);
    for _method in methods {
        let _ = copies.push(NOTHING);
    }
    for number in graph.order() {
        let Some(method) = methods.get(*number) else {
            continue;
        };
        let body = Body {
            place: Place::Run,
            params: method.params.as_slice(),
            stmts: method.body.as_slice(),
            line: 0,
        };
        let own = of_body(alloc, body, graph, copies.as_slice());
        if *number < copies.len() {
            copies.set(*number, own);
        }
    }
    copies
}

// The extent of a body, where the extents of copies of methods are known.
fn of_body(alloc: Global, body: Body<'_>, graph: &CallGraph<'_>, copies: &[Extent]) -> Extent
    requires { IsCallGraph graph.now }
{
    let mut whole = NOTHING;
    let mut scope = Scope::new(alloc, &[]);
    enter_head(body, &mut scope);
    for row in rows_of(alloc, body.stmts).as_slice() {
        enter_row(row, &mut scope);
        let depth = row.depth.saturating_add(1);
        let own = Extent {
            items: usize::from(row.begins),
            blocks: 0,
            slots: 0,
        };
        whole = whole.with(own, depth);
        if let Part::Statement(Stmt::Call { name, .. }) = row.part {
            whole = whole.with(of_copy(name.as_slice(), graph, copies), depth);
        }
    }
    whole.slots = whole.slots.saturating_add(scope.len());
    whole
}

// The extent of the copy of a method.
fn of_copy(name: &[u8], graph: &CallGraph<'_>, copies: &[Extent]) -> Extent
    requires { IsCallGraph graph.now }
{
    match graph.number(name) {
        Some(number) => copies.get(number).copied().unwrap_or(NOTHING),
        None => NOTHING,
    }
}
