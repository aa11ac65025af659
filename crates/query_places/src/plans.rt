//! The numbers of a query, and the nodes of the plan that keep its answer.
ghost use Rattle.da_core.specs.Compiled.{IsCompiled};

use crate::numbers::Numbers;
use crate::places::QueryPlace;
use da_core::Compiled;
use da_front::read_program;
use da_lang::Class;
use da_values::Buf;
use query_plan::{Plan, plan_lines, query_lines};
use std::alloc::Global;
use text_hints::Phrase;

/// The copies of a query that are told at most.
const MOST_COPIES: usize = 4;

/// Tells the numbers of a query, each with its text and that of its node. Of a text that `check` refuses nothing is told.
pub fn tell_query(alloc: Global, text: &[u8], place: QueryPlace, out: &mut Phrase) {
    if let Ok(compiled) = read_program(alloc, text) {
        tell_compiled(alloc, &compiled, place, out);
    }
}

fn tell_compiled(alloc: Global, compiled: &Compiled, place: QueryPlace, out: &mut Phrase)
    requires { IsCompiled compiled.now }
{
    let classes = compiled.program().classes.as_slice();
    for (number, class) in classes.iter().enumerate() {
        if number == place.class {
            tell_in_class(alloc, class, compiled.plan(number), place, out);
        }
    }
}

/// The plan of a class, and the texts of its nodes and of its queries.
#[derive(Clone, Copy)]
struct Plans<'p> {
    class: &'p [u8],
    plan: &'p Plan,
    nodes: &'p [Buf],
    queries: &'p [Buf],
}

fn tell_in_class(alloc: Global, class: &Class, plan: &Plan, place: QueryPlace, out: &mut Phrase) {
    let Ok(nodes) = plan_lines(alloc, plan) else {
        return;
    };
    let Ok(queries) = query_lines(alloc, plan) else {
        return;
    };
    let plans = Plans {
        class: class.name.as_slice(),
        plan,
        nodes: nodes.as_slice(),
        queries: queries.as_slice(),
    };
    let numbers = Numbers::new(alloc, class, place.line, place.before);
    tell_copies(plans, numbers.asked.as_slice(), out);
}

// The query of each of these numbers.
fn tell_copies(plans: Plans<'_>, numbers: &[u32], out: &mut Phrase) {
    if numbers.is_empty() {
        out.put(b"a query without a number: neither run nor a handler comes to this method");
        return;
    }
    for (place, number) in numbers.iter().enumerate() {
        if place < MOST_COPIES {
            if place != 0 {
                out.put(b"\n");
            }
            let _ = tell_copy(plans, *number, out);
        }
    }
    if numbers.len() > MOST_COPIES {
        out.put(b"\nand in ");
        let more = numbers.len().saturating_sub(MOST_COPIES);
        out.count(more, b"copy more", b"copies more");
    }
}

// The query of a number, counted from 1.
fn tell_copy(plans: Plans<'_>, number: u32, out: &mut Phrase) -> Option<()> {
    let place = (number as usize).checked_sub(1)?;
    let query = plans.queries.get(place)?;
    let node = plans.plan.queries.get(place)?.node;
    let text = plans.nodes.get(node as usize)?;
    out.put(b"query ");
    out.number(u64::from(number));
    out.fill(b" of class $: $\nnode ", plans.class, query.as_slice());
    out.number(u64::from(node));
    out.fill(b": $", text.as_slice(), b"");
    Some(())
}
