//! The words of a command line, as the system passes them.

use std::alloc::{AllocError, Global};
use std::env::{self, Env};
use std::io::{self, ErrorKind};

/// Reads the words of the command line, the program's name first. It fails if memory runs out, and if a word isn't UTF-8.
pub fn read_words<R: Env + Alloc>(rt: &R) -> io::Result<Vec<String<R::A>, R::A>> {
    let mut words = Vec::new(rt.alloc());
    for word in env::args(rt)? {
        if words.push(word).is_err() {
            return Err(io::Error::from(ErrorKind::OutOfMemory));
        }
    }
    Ok(words)
}

/// The texts of words, for `clap` to read. It fails only if memory runs out.
pub fn texts_of(alloc: Global, words: &[String]) -> Result<Vec<&str>, AllocError> {
    let mut texts = Vec::with_capacity(alloc, words.len())?;
    for word in words {
        texts.push(word.as_str())?;
    }
    Ok(texts)
}
