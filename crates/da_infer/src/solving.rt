//! Types for what has none in a program, from what it demands.
ghost use Rattle.std.specs.Prelude.{◌≡◌, ◌≢◌, IfErr, IfOk, map, take};
ghost use Rattle.da_infer.specs.Answers.{IsInferred, IsRefusedAs};
ghost use Rattle.da_infer.specs.Fills.{IsLoose, count_in, place_of};
ghost use Rattle.da_infer.specs.Marked.{IsMarked};
ghost use Rattle.da_infer.specs.declared.top.InferFault.TheVariants.{Memory};

use crate::counts::types_in;
use crate::known::known_count;
use crate::laws::{fills_agree, fills_are_demanded, fills_are_written};
use crate::search::{Found, last_line, search_types};
use crate::top::InferFault;
use crate::unknowns::unknown_types;
use added_names::{OpenPlace, declared};
use class_demands::program_demands;
use da_lang::{Program, Tree, Ty};
use da_parse::LooseTree;
use da_scope::{ScopeFault, resolve};
use da_values::NoMemory;
use std::alloc::Global;

/// How many types a program takes.
#[tactic(auto, using(crate::proofs::SolveLaws::count_by))]
pub fn count_types(
    loose: &LooseTree,
    alloc: Global,
    places: &[OpenPlace],
) -> Result<usize, NoMemory>
    requires { places.now ≡ map place_of loose.now.untyped }
    ensures { IfOk result (λ count. count ≡ count_in loose.now) }
{
    let count = types_in(&loose.tree, alloc, places)?;
    Ok(count)
}

/// The program in which a type stands for each unknown type, or what names and limits refuse, whatever the types.
pub fn marked_program(
    alloc: Global,
    loose: &LooseTree,
    places: &[OpenPlace],
    count: usize,
) -> Result<Program, InferFault>
    requires loose { IsLoose loose.now }
    requires places { places.now ≡ map place_of loose.now.untyped }
    requires count { count ≡ count_in loose.now }
    ensures marked { IfOk result (IsMarked loose.now) }
    ensures refused { IfErr result (λ fault. fault ≢ Memory → IsRefusedAs loose.now fault) }
{
    fills_are_written();
    let unknowns = unknown_types(alloc, count)?;
    let tree = declared(alloc, &loose.tree, places, unknowns.as_slice())?;
    match resolve(alloc, &tree) {
        Ok(program) => Ok(program),
        Err(ScopeFault::Refused { kind, line }) => Err(InferFault::Name { kind, line }),
        Err(ScopeFault::Limit { which, line }) => Err(InferFault::Limit { which, line }),
        Err(ScopeFault::Memory) => Err(InferFault::Memory),
    }
}

/// The first types of a list.
pub fn first_types(types: &[Ty], count: usize) -> &[Ty]
    ensures { result.now ≡ take count types.now }
{
    let (first, _) = types.split_at(count.min(types.len()));
    first
}

/// The program with types that keep the rules, or the least line up to which there are none.
pub fn solved(
    alloc: Global,
    loose: &LooseTree,
    places: &[OpenPlace],
    count: usize,
    program: &Program,
) -> Result<Tree, InferFault>
    requires loose { IsLoose loose.now }
    requires places { places.now ≡ map place_of loose.now.untyped }
    requires count { count ≡ count_in loose.now }
    requires marked { IsMarked loose.now program.now }
    ensures inferred { IfOk result (IsInferred loose.now) }
    ensures refused { IfErr result (λ fault. fault ≢ Memory → IsRefusedAs loose.now fault) }
{
    fills_agree();
    fills_are_demanded();
    fills_are_written();
    let demands = program_demands(alloc, program)?;
    let known = known_count(&demands, count)?;
    let last = last_line(&demands);
    let found = search_types(alloc, known, &demands, last)?;
    match found {
        Found::Types(types) => {
            let first = first_types(types.as_slice(), count);
            let tree = declared(alloc, &loose.tree, places, first)?;
            Ok(tree)
        }
        Found::Clash { line } => Err(InferFault::NoTypes { line }),
    }
}
