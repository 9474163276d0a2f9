//! The files that scripts load.

use anyhow::{Result, bail, ensure};
use std::alloc::Global;
use std::collections::HashMap;
use wh_script::{FileError, Source};

/// The path at which there is no memory for a file's bytes.
const TOO_GREAT: &str = "too/great";

/// Files by their paths.
pub struct Shelf {
    files: HashMap<String, Vec<u8>>,
}

impl Drop for Shelf {
    fn drop(self) {
        let Shelf { files: _ } = self;
    }
}

impl Shelf {
    /// Creates a shelf without files.
    pub fn new(alloc: Global) -> Shelf {
        Shelf {
            files: HashMap::new(alloc),
        }
    }

    /// Puts a file with these bytes there.
    pub fn put(&mut self, alloc: Global, path: &str, digits: &str) -> Result<()> {
        ensure!(!self.files.contains_key(path), "another file has this path");
        match hex::decode(alloc, digits) {
            Ok(bytes) => self.files.insert(String::from_str(alloc, path)?, bytes)?,
            Err(error) => bail!("the bytes aren't understood: {error}"),
        };
        Ok(())
    }
}

impl Source for Shelf {
    ghost use Rattle.std.specs.Prelude.{true};

    ghost files = { λ shelf path bytes. true };

    fn read(&self, _alloc: Global, path: &str) -> Result<Vec<u8>, FileError> {
        if path == TOO_GREAT {
            return Err(FileError::Memory);
        }
        let Some(bytes) = self.files.get(path) else {
            return Err(FileError::Unreadable);
        };
        match bytes.clone() {
            Ok(bytes) => Ok(bytes),
            Err(_) => Err(FileError::Memory),
        }
    }
}
