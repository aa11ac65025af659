//! What is told of the places of a program that a hunt has reached.
use call_hints::shown_name;
use hunt_cover::{Place, Spot};
use std::io;
use std::io::Eprint;

/// Tells each place of the program of this name with how often it was reached.
pub fn tell_cover<R: AllocGlobal + Eprint>(
    rt: &R,
    program: &str,
    spots: Option<&[Spot]>,
) -> io::Result<()> {
    let named = shown_name(rt.alloc(), program)?;
    let Some(spots) = spots else {
        return eprintln!(rt; "{named}: what was reached cannot be told");
    };
    for spot in spots {
        let line = spot.line;
        let count = spot.count;
        match spot.place {
            Place::Alternative(k) => {
                eprintln!(rt; "{named}:{line}: {count} times: alternative {k} of await")?;
            }
            Place::Timeout => {
                eprintln!(rt; "{named}:{line}: {count} times: timeout of await")?;
            }
            Place::Handler => {
                eprintln!(rt; "{named}:{line}: {count} times: handler")?;
            }
            Place::Output => {
                eprintln!(rt; "{named}:{line}: {count} times: output")?;
            }
        }
    }
    Ok(())
}
