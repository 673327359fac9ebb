//! The files that are kept.
use crate::amiss::Amiss;
use std::alloc::{AllocError, Global};

/// A file that is kept under a name.
#[derive(Drop)]
struct Kept {
    name: String,
    bytes: Vec<u8>,
}

/// The files that are kept, in the order in which they came.
#[derive(Drop)]
pub(crate) struct Shelf {
    files: Vec<Kept>,
}

impl Shelf {
    /// A file of no bytes alone.
    pub(crate) fn new(alloc: Global) -> Result<Shelf, AllocError> {
        let mut shelf = Shelf {
            files: Vec::new(alloc),
        };
        shelf.keep(alloc, "nothing", Vec::new(alloc))?;
        Ok(shelf)
    }

    /// Keeps a file under a name.
    pub(crate) fn keep(
        &mut self,
        alloc: Global,
        name: &str,
        bytes: Vec<u8>,
    ) -> Result<(), AllocError> {
        let name = String::from_str(alloc, name)?;
        self.files.push(Kept { name, bytes })?;
        Ok(())
    }

    /// The bytes of the first file of this name.
    pub(crate) fn file(&self, name: &str) -> Result<&[u8], Amiss> {
        for file in &self.files {
            if file.name.as_str() == name {
                return Ok(file.bytes.as_slice());
            }
        }
        Err(Amiss::NotUnderstood)
    }

    /// The name of the first file of these bytes.
    pub(crate) fn name_of(&self, bytes: &[u8]) -> Option<&str> {
        for file in &self.files {
            if file.bytes.len() == bytes.len() && file.bytes.as_slice() == bytes {
                return Some(file.name.as_str());
            }
        }
        None
    }

    /// What these bytes are called: the name of the file, or what else they are.
    pub(crate) fn called(&self, bytes: &[u8]) -> &str {
        if let Some(name) = self.name_of(bytes) {
            name
        } else if bytes.starts_with(b"S") {
            "another file"
        } else {
            "no whole file"
        }
    }
}
