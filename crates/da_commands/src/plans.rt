//! The plans of classes.
ghost use Rattle.da_core.specs.Compiled.{IsCompiled, program_of};
ghost use Rattle.da_commands.specs.PlanJson.{class_data, named_plan as named_plan_def, plan_data, plan_text};
ghost use Rattle.query_plan.specs.PlanLive.{plan_live};
ghost use Rattle.query_plan.specs.PlanText.{live_text};
ghost use Rattle.serde_json.specs.View.{view};
ghost use Rattle.std.specs.Prelude.{◌≡◌, IfOk, map};

use crate::json::{numbers, put_member, put_texts, put_value, text};
use da_core::Compiled;
use da_values::{Buf, List, NoMemory, copy_bytes};
use history_live::live_patterns;
use query_plan::{Plan, live_line, plan_lines, query_lines};
use serde_json::{Map, Value};
use std::alloc::Global;

/// The plans of all classes of a program, in the order of the text, as one line of compact JSON with its line feed.
/// `NoMemory` comes where memory was refused, or where a text of a plan is not UTF-8; each one of an accepted program is
/// printable ASCII.
pub fn plan_line(alloc: Global, compiled: &Compiled) -> Result<Buf, NoMemory>
    requires { IsCompiled compiled.now }
    ensures { IfOk result (λ line. line ≡ plan_text (program_of compiled.now)) }
{
    let value = program_value(alloc, compiled)?;
    let Ok(text) = value.to_string(alloc) else {
        return Err(NoMemory);
    };
    let mut line = copy_bytes(alloc, text.as_bytes())?;
    line.append(b"\n")?;
    Ok(line)
}

// All classes, in order.
fn program_value(alloc: Global, compiled: &Compiled) -> Result<Value, NoMemory>
    requires { IsCompiled compiled.now }
    ensures { IfOk result (λ v. view v ≡ plan_data (program_of compiled.now)) }
{
    let mut values = Vec::new(alloc);
    let classes = compiled.program().classes.as_slice();
    for (place, class) in classes.iter().enumerate() {
        let value = named_plan(alloc, class.name.as_slice(), compiled.plan(place))?;
        put_value(value, &mut values)?;
    }
    Ok(Value::Array(values))
}

// A name, and the flags, the live patterns, the nodes and the queries of a plan.
fn named_plan(alloc: Global, name: &[u8], plan: &Plan) -> Result<Value, NoMemory>
    ensures { IfOk result (λ v. view v ≡ named_plan_def name.now plan.now) }
{
    let flags = numbers(alloc, plan.flags.as_slice())?;
    let live = live_lines(alloc, plan)?;
    let nodes = plan_lines(alloc, plan)?;
    let queries = query_lines(alloc, plan)?;
    let mut members = Map::new(alloc);
    put_member(alloc, "class", text(alloc, name)?, &mut members)?;
    put_member(alloc, "flags", flags, &mut members)?;
    put_texts(alloc, "live", live.as_slice(), &mut members)?;
    put_texts(alloc, "nodes", nodes.as_slice(), &mut members)?;
    put_texts(alloc, "queries", queries.as_slice(), &mut members)?;
    Ok(Value::Object(members))
}

// The texts of the live patterns of a plan.
fn live_lines(alloc: Global, plan: &Plan) -> Result<List<Buf>, NoMemory>
    ensures { IfOk result (λ lines. lines ≡ map live_text (plan_live plan.now.nodes)) }
{
    let live = live_patterns(alloc, plan)?;
    let mut lines = List::new(alloc);
    for pattern in live.patterns.as_slice() {
        lines.push(live_line(alloc, pattern)?)?;
    }
    Ok(lines)
}
