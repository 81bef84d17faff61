//! The files of a script, which its commands open.

use std::alloc::{AllocError, Global};

/// A file: where it is, and what is in it.
#[derive(Drop)]
struct File {
    path: String,
    text: Vec<u8>,
}

/// Files, each of which replaces those before it at its path.
#[derive(Drop)]
pub(crate) struct Files {
    files: Vec<File>,
}

impl Files {
    /// No files.
    pub(crate) fn new(alloc: Global) -> Files {
        Files {
            files: Vec::new(alloc),
        }
    }

    /// Adds a file. Fails if memory runs out.
    pub(crate) fn add(&mut self, path: String, text: Vec<u8>) -> Result<(), AllocError> {
        self.files.push(File { path, text })?;
        Ok(())
    }

    /// The text of the file at a path.
    pub(crate) fn text_at(&self, path: &str) -> Option<&[u8]> {
        for file in self.files.iter().rev() {
            if file.path.as_str() == path {
                return Some(file.text.as_slice());
            }
        }
        None
    }
}
