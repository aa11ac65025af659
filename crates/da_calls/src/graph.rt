//! The graph of the calls of a class.
ghost use Rattle.da_lang.specs.Calls.{leads, yields};
ghost use Rattle.da_lang.specs.ClassParts.{InMethod, method_of};
ghost use Rattle.da_lang.specs.Limits.{is_reached};
ghost use Rattle.da_calls.specs.CallGraph.{IsCallGraph, IsOrdered, methods_in, number_of};
ghost use Rattle.da_calls.specs.CallMethods.{body_of};
ghost use Rattle.da_calls.specs.CallPaths.{IsMarked, mark};
ghost use Rattle.std.specs.Prelude.{◌&&◌, ◌<◌, ◌↔◌, ◌≡◌, IfOk, IfSome, IsSome, IsTrue, length, map, option_and_then, option_map, slice_get};

use crate::cycles::{cycle_marks, turned};
use crate::methods::{Method, Methods, methods_of};
use crate::order::leaving_order;
use crate::rows::{outside_calls, rows_of, yield_points};
use crate::search::reach_marks;
use da_lang::ClassTree;
use da_values::{List, NoMemory};
use std::alloc::Global;

/// Which method of a class leads to which. The methods are the first ones of their names, and have numbers from 0.
#[derive(Drop)]
pub struct CallGraph<'t> {
    class: &'t ClassTree,
    methods: Methods<'t>,
    order: List<usize>,
    cycles: Vec<Option<usize>>,
    yielding: Vec<Option<usize>>,
    reached: Vec<Option<usize>>,
}

impl<'t> CallGraph<'t> {
    /// The graph of a class, in time in step with its text.
    pub fn new(alloc: Global, class: &'t ClassTree) -> Result<CallGraph<'t>, NoMemory>
        ensures class { IfOk result (λ graph. graph.class.now ≡ class.now) }
        ensures graph { IfOk result (λ graph. IsCallGraph graph) }
    {
        let methods = methods_of(alloc, class)?;
        let list = methods.list.as_slice();
        let rows = rows_of(alloc, list, &methods.numbers)?;
        let graph = rows.as_slice();
        let turned_rows = turned(alloc, graph)?;
        let back = turned_rows.as_slice();
        let order = leaving_order(alloc, graph)?;
        let cycles = cycle_marks(alloc, graph, back, order.as_slice())?;
        let points = yield_points(alloc, list)?;
        let yielding = reach_marks(alloc, back, points.as_slice())?;
        let starts = outside_calls(alloc, class, &methods.numbers)?;
        let reached = reach_marks(alloc, graph, starts.as_slice())?;
        Ok(CallGraph {
            class,
            methods,
            order,
            cycles,
            yielding,
            reached,
        })
    }

    /// The class.
    pub fn class(&self) -> &'t ClassTree
        ensures { result.now ≡ self.now.class.now }
    {
        self.class
    }

    /// The methods, by their numbers.
    pub fn methods(&self) -> &[Method<'t>]
        ensures { map body_of result.now ≡ methods_in self.now }
    {
        self.methods.list.as_slice()
    }

    /// The number of the first method of a name.
    pub fn number(&self, name: &[u8]) -> Option<usize>
        requires { IsCallGraph self.now }
        ensures method { method_of self.now.class.now name.now ≡ option_and_then (slice_get (methods_in self.now)) result }
        ensures number { result ≡ number_of self.now name.now }
        ensures within { IfSome result (λ k. k < length (methods_in self.now)) }
    {
        self.methods.numbers.find(name)
    }

    /// The first method of a name.
    pub fn method(&self, name: &[u8]) -> Option<Method<'t>>
        requires { IsCallGraph self.now }
        ensures { option_map body_of result ≡ method_of self.now.class.now name.now }
    {
        match self.number(name) {
            None => None,
            Some(number) => Some(self.methods.list[number]),
        }
    }

    /// All numbers of methods, each after those of the methods that it calls, where no call leads back.
    pub fn order(&self) -> &[usize]
        requires { IsCallGraph self.now }
        ensures { IsOrdered self.now.class.now (methods_in self.now) (number_of self.now) result.now }
    {
        self.order.as_slice()
    }

    /// Whether the methods of two names lead to each other: whether a call of `name` in `holder` leads back.
    pub fn leads_back(&self, holder: &[u8], name: &[u8]) -> bool
        requires { IsCallGraph self.now }
        ensures { result ≡ (leads self.now.class.now holder.now name.now && leads self.now.class.now name.now holder.now) }
    {
        match self.number(holder) {
            None => holder == name,
            Some(first) => match self.number(name) {
                None => false,
                Some(second) => has_same_mark(self.cycles.as_slice(), first, second),
            },
        }
    }

    /// Whether the method of a name, or one that it leads to, has a yield point.
    pub fn yields(&self, name: &[u8]) -> bool
        requires { IsCallGraph self.now }
        ensures { result ≡ yields self.now.class.now name.now }
    {
        match self.number(name) {
            None => false,
            Some(number) => has_mark(self.yielding.as_slice(), number),
        }
    }

    /// Whether some call outside of methods leads to the method of a name.
    pub fn is_reached(&self, name: &[u8]) -> bool
        requires graph { IsCallGraph self.now }
        requires known { IsSome (method_of self.now.class.now name.now) }
        ensures { result ≡ is_reached self.now.class.now (InMethod name.now) }
    {
        match self.number(name) {
            None => false,
            Some(number) => has_mark(self.reached.as_slice(), number),
        }
    }
}

/// Whether a node has a mark.
fn has_mark(marks: &[Option<usize>], node: usize) -> bool
    requires { node < length marks.now }
    ensures { IsTrue result ↔ IsMarked marks.now node }
{
    marks[node].is_some()
}

/// Whether two nodes have one mark, or both have none.
fn has_same_mark(marks: &[Option<usize>], first: usize, second: usize) -> bool
    requires first { first < length marks.now }
    requires second { second < length marks.now }
    ensures { IsTrue result ↔ (mark marks.now first ≡ mark marks.now second) }
{
    marks[first] == marks[second]
}
