//! Why a file cannot be read.
use crate::terminal::shown_name;
use std::io::Eprint;
use std::{fs, io, rt};

/// Tells on standard error why the file of this name cannot be read, if the system says so once more. Whether it did.
pub fn tell_unread<R: rt::Files + AllocGlobal + Eprint>(rt: &R, name: &str) -> io::Result<bool> {
    match fs::metadata(rt, name) {
        Ok(found) if found.is_dir() => {
            let named = shown_name(rt.alloc(), name)?;
            eprintln!(rt; "{named}: this is a directory: name a file in it")?;
            Ok(true)
        }
        Ok(found) if !found.is_file() => Ok(false),
        Ok(_) => match fs::open(rt, name) {
            Ok(_) => Ok(false),
            Err(why) => tell_why(rt, name, why),
        },
        Err(why) => {
            tell_why(rt, name, why)?;
            tell_name(rt, name)
        }
    }
}

// Tells what the system says of a file. It answers `true`.
fn tell_why<R: AllocGlobal + Eprint>(rt: &R, name: &str, why: io::Error) -> io::Result<bool> {
    let named = shown_name(rt.alloc(), name)?;
    eprintln!(rt; "{named}: {why}")?;
    Ok(true)
}

// Tells what stands in the place of a name that is often none of a file. It answers `true`.
fn tell_name<R: Eprint>(rt: &R, name: &str) -> io::Result<bool> {
    let cure = match name {
        "" => "the name of the file is empty",
        "-" => "standard input is read by its name, /dev/stdin",
        "--help" | "-h" => "the script ./dalgo prints the help of a command",
        _ => return Ok(true),
    };
    eprintln!(rt; "{cure}")?;
    Ok(true)
}
