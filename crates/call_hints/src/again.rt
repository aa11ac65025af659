//! Texts that are read once more.
ghost use Rattle.std.specs.Prelude.{◌≤◌};

use da_outside::{RealFiles, read_all};
use da_values::Buf;
use std::{fs, rt};

/// The text of this name once more. What is no regular file cannot be read twice: a pipe is empty then, or never ends.
pub fn text_again<R: rt::Files + AllocGlobal>(rt: &R, name: &str, limit: usize) -> Option<Buf>
    requires { limit ≤ 16777216 }
{
    let found = fs::metadata(rt, name).ok()?;
    if found.is_file() {
        read_all(rt.alloc(), &mut RealFiles::new(rt), name, limit).ok()
    } else {
        None
    }
}
