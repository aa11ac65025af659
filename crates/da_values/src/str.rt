//! Texts of programs.
ghost use Rattle.da_values.specs.Str.{IsTextByte};
ghost use Rattle.std.specs.List.{All};
ghost use Rattle.std.specs.Prelude.{◌≡◌, IfOk, IsErrOf};

use crate::list::{Buf, List, NoMemory};
use std::alloc::Global;
use std::marker::Model;
use thiserror::Error;

/// A text of printable ASCII that has no quote `'` in it. Contracts see the list of its bytes.
#[derive(Debug, Drop)]
pub struct Str {
    bytes: Buf,
}

impl Model for Str {
    ghost use Rattle.da_values.specs.Str.{IsTextByte};
    ghost use Rattle.std.specs.List.{All};
    ghost use Rattle.std.specs.Prelude.{List, ℕ};

    ghost Value = { List ℕ };

    ghost view = { λ text. text.bytes };

    ghost invariant = { λ text. All IsTextByte text.bytes };
}

/// Why no text was made of some bytes.
#[derive(Clone, Copy, Debug, Error)]
pub enum StrFault {
    /// One of the bytes is a quote, or no printable ASCII.
    #[error("a byte that no text may hold")]
    BadText,
    /// Memory was refused.
    #[error("no memory is left")]
    Memory,
}

impl Str {
    /// The text of these bytes.
    pub fn from_bytes(alloc: Global, bytes: &[u8]) -> Result<Str, StrFault>
        ensures ok { IfOk result (λ text. text ≡ bytes.now) }
        ensures allowed { IfOk result (All IsTextByte) }
        ensures bad { IsErrOf result StrFault.BadText → All IsTextByte bytes.now → ⊥ }
        ensures refused { (All IsTextByte bytes.now → ⊥) → IsErrOf result StrFault.BadText }
    {
        if !bytes
            .iter()
            .all(|byte| *byte >= 32 && *byte <= 126 && *byte != b'\'')
        {
            return Err(StrFault::BadText);
        }
        let mut copy = List::new(alloc);
        match copy.append(bytes) {
            Ok(()) => Ok(Str { bytes: copy }),
            Err(_) => Err(StrFault::Memory),
        }
    }

    /// The bytes of the text.
    pub fn as_bytes(&self) -> &[u8]
        ensures text { result.now ≡ self.now }
        ensures allowed { All IsTextByte self.now }
    {
        self.bytes.as_slice()
    }

    /// A copy of the text.
    pub fn copy(&self, alloc: Global) -> Result<Str, NoMemory>
        ensures { IfOk result (λ text. text ≡ self.now) }
    {
        let mut bytes = List::new(alloc);
        bytes.append(self.bytes.as_slice())?;
        Ok(Str { bytes })
    }
}

impl PartialEq for Str {
    ghost use Rattle.std.specs.Cmp.{nat_eq_equiv, partial_equiv_from_equiv};
    ghost use Rattle.std.specs.Cmp.Lexicographic.{lists_per, pointwise};
    ghost use Rattle.std.specs.Prelude.{◌==◌};

    ghost eq = { pointwise (λ a b. a == b) };

    ghost laws = { lists_per (partial_equiv_from_equiv nat_eq_equiv) };

    fn eq(&self, other: &Self) -> bool {
        self.bytes == other.bytes
    }
}

impl Eq for Str {
    ghost use Rattle.std.specs.Cmp.{nat_eq_equiv};
    ghost use Rattle.std.specs.Cmp.Lexicographic.{lists_equiv};

    ghost laws = { lists_equiv nat_eq_equiv };
}
