//! The frame of a content.
ghost use Rattle.lsp_frames.specs.Frames.{IsReadBack, frame};
ghost use Rattle.std.specs.Prelude.{ℕ, ◌≡◌, ◌++◌, ◌≤◌, List, OnOk, length};

use da_values::{Buf, NoMemory, write_number};

/// Adds the frame of a content: a header with its length, and the content.
#[tactic(auto, unfolding(crate::specs::Frames::frame))]
pub fn put_frame(content: &[u8], out: &mut Buf) -> Result<(), NoMemory>
    ensures { OnOk result (out.new ≡ out.old ++ frame content.now) }
{
    out.append(b"Content-Length: ")?;
    write_number(content.len() as u64, out)?;
    out.append(b"\r\n\r\n")?;
    out.append(content)
}

/// Does nothing. Its contract says that the frame of a content of at most 67,108,864 bytes is read as that content, whatever comes
/// after it.
pub fn frames_are_read()
    ensures { (content rest : List ℕ) → length content ≤ 67108864 → IsReadBack content rest }
{}
