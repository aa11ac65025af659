//! The limits that a class exceeds.
ghost use Rattle.da_lang.specs.Limits.{line_if, most_blocks, most_items, most_variables};
ghost use Rattle.da_lang.specs.declared.refusal.LimitKind.TheVariants as limit;
ghost use Rattle.da_calls.specs.CallGraph.{IsCallGraph};
ghost use Rattle.da_limits.specs.LimitLines.{told_at};
ghost use Rattle.da_limits.specs.LimitWalk.{class_told, member_many, members_told};
ghost use Rattle.da_limits.specs.Loops.{NoneLeadsBack};
ghost use Rattle.std.specs.List.{list_any};
ghost use Rattle.std.specs.Prelude.{◌≡◌, ◌||◌, IfOk, OnOk, nat_lt};

use crate::classes::class_extent;
use crate::extent::Extent;
use crate::lines::tell_if;
use crate::members::tell_member;
use crate::methods::copies_of;
use da_bodies::Earliest;
use da_calls::CallGraph;
use da_lang::{ClassTree, LimitKind};
use da_values::NoMemory;
use std::alloc::Global;

/// The limits that a class exceeds. No call in it leads back.
pub fn tell_class(
    alloc: Global,
    class: &ClassTree,
    least: &mut Earliest<LimitKind>,
) -> Result<(), NoMemory>
    requires { NoneLeadsBack class.now }
    ensures { OnOk result (least.new ≡ class_told class.now least.old) }
{
    let graph = CallGraph::new(alloc, class)?;
    let copies = copies_of(alloc, &graph)?;
    let extent = class_extent(class, &copies);
    let many = tell_members(alloc, &graph, least)?;
    tell_extent(extent, many, class.line, least);
    Ok(())
}

// The limits that the extent of a class exceeds. Some query has too many variables, or none has.
fn tell_extent(extent: Extent, many: bool, line: u32, least: &mut Earliest<LimitKind>)
    ensures { least.new ≡ told_at limit.Variables (told_at limit.Blocks (told_at limit.Items least.old (line_if (nat_lt most_items extent.items) line)) (line_if (nat_lt most_blocks extent.blocks) line)) (line_if (nat_lt most_variables extent.slots || many) line) }
{
    tell_if(extent.has_many_items(), LimitKind::Items, line, least);
    tell_if(extent.has_many_blocks(), LimitKind::Blocks, line, least);
    tell_if(
        extent.has_many_slots() || many,
        LimitKind::Variables,
        line,
        least,
    );
}

// The limits that the members of a class exceed by themselves, and whether a query in one has too many variables.
fn tell_members(
    alloc: Global,
    graph: &CallGraph<'_>,
    least: &mut Earliest<LimitKind>,
) -> Result<bool, NoMemory>
    requires { IsCallGraph graph.now }
    ensures told { OnOk result (least.new ≡ members_told graph.now.class.now graph.now.class.now.members least.old) }
    ensures many { IfOk result (λ many. many ≡ list_any (member_many graph.now.class.now) graph.now.class.now.members) }
{
    let members = graph.class().members.as_slice();
    let mut many = false;
    for member in members {
        let here = tell_member(alloc, member, graph, least)?;
        many = many || here;
    }
    Ok(many)
}
