//! The documents that are open.

use da_values::{Buf, NoMemory, copy_bytes};
use std::alloc::Global;
use std::collections::BTreeMap;

/// The documents that are open: the text of each by its URI.
#[derive(Drop)]
pub struct Documents {
    alloc: Global,
    texts: BTreeMap<String, Buf>,
}

impl Documents {
    /// None is open.
    pub fn new(alloc: Global) -> Documents {
        Documents {
            alloc,
            texts: BTreeMap::new(alloc),
        }
    }

    /// The text of a document that is open.
    pub fn text(&self, uri: &str) -> Option<&[u8]> {
        Some(self.texts.get(uri)?.as_slice())
    }

    /// A document has this text now. Where memory is refused, all is as it was.
    pub fn set(&mut self, uri: &str, text: &[u8]) -> Result<(), NoMemory> {
        let text = copy_bytes(self.alloc, text)?;
        let Ok(name) = String::from_str(self.alloc, uri) else {
            return Err(NoMemory);
        };
        match self.texts.insert(name, text) {
            Ok(_) => Ok(()),
            Err(_) => Err(NoMemory),
        }
    }

    /// A document is closed.
    pub fn close(&mut self, uri: &str) {
        drop(self.texts.remove(uri));
    }
}
