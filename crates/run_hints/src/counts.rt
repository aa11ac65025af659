//! How many processes a program has.
use da_front::read_resolved;
use std::alloc::Global;

/// How many processes the program of a text has, or `None` where it is refused or memory is.
pub fn process_count(alloc: Global, text: &[u8]) -> Option<usize> {
    match read_resolved(alloc, text) {
        Ok(program) => Some(program.procs.len()),
        Err(_) => None,
    }
}
