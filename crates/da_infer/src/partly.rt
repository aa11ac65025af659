//! Types that keep the rules on the first lines of a program.
ghost use Rattle.da_infer.specs.Fills.{IsLoose};

use crate::known::known_count;
use crate::places::places;
use crate::search::fitting_upto;
use crate::solving::{count_types, first_types, marked_program};
use crate::top::InferFault;
use added_names::{OpenPlace, declared};
use class_demands::program_demands;
use da_lang::{Program, Tree};
use da_parse::LooseTree;
use da_values::NoMemory;
use std::alloc::Global;

/// The program with types that keep the rules on all lines up to this one, or `None` where there are none, or where a name
/// or a limit is refused.
pub fn declared_upto(alloc: Global, loose: &LooseTree, line: u32) -> Result<Option<Tree>, NoMemory>
    requires loose { IsLoose loose.now }
{
    let untyped = places(alloc, loose.untyped.as_slice())?;
    let count = count_types(loose, alloc, untyped.as_slice())?;
    match marked_program(alloc, loose, untyped.as_slice(), count) {
        Ok(program) => typed_upto(alloc, loose, untyped.as_slice(), count, &program, line),
        Err(InferFault::Memory) => Err(NoMemory),
        Err(_) => Ok(None),
    }
}

/// The program with types that meet what is demanded up to a line, if there are any.
fn typed_upto(
    alloc: Global,
    loose: &LooseTree,
    places: &[OpenPlace],
    count: usize,
    program: &Program,
    line: u32,
) -> Result<Option<Tree>, NoMemory> {
    let demands = program_demands(alloc, program)?;
    let known = known_count(&demands, count)?;
    let found = fitting_upto(alloc, known, &demands, line)?;
    match found {
        Some(types) => {
            let first = first_types(types.as_slice(), count);
            let tree = declared(alloc, &loose.tree, places, first)?;
            Ok(Some(tree))
        }
        None => Ok(None),
    }
}
