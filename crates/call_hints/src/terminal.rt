//! Lines and names of files, as a terminal may show them.
use std::alloc::{AllocError, Global};

/// The characters of a line that are shown at most.
pub const SHOWN: usize = 160;

/// The characters of a sentence that are shown at most.
pub const TOLD: usize = 600;

/// The characters of the name of a file that are shown at most.
const NAMED: usize = 400;

/// Bytes for a terminal, so many characters at most: a control character is shown as a space.
pub fn shown(alloc: Global, line: &[u8], most: usize) -> Result<String, AllocError> {
    let whole = String::from_utf8_lossy(alloc, line)?;
    let mut shown = String::new(alloc);
    for c in whole.chars().take(most) {
        shown.push(if c.is_control() { ' ' } else { c })?;
    }
    Ok(shown)
}

/// The name of a file for a terminal: a control character is shown as a space.
pub fn shown_name(alloc: Global, name: &str) -> Result<String, AllocError> {
    shown(alloc, name.as_bytes(), NAMED)
}
