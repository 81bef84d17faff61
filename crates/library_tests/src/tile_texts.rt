//! Texts of cells and of stretches, kept in memory.

ghost use Rattle.std.specs.Prelude.{None};

use std::alloc::{AllocError, Global};
use streams::SinkFault;
use tiles::CellTexts;

/// The texts of cells. A cell after the last of them can't be written.
#[derive(Drop)]
pub(crate) struct Texts {
    texts: Vec<Vec<u8>>,
    pub(crate) failures: u64,
}

impl CellTexts for Texts {
    ghost texts = { λ _ _. None };

    ghost failures = { λ texts. texts.failures };

    fn put(&mut self, cell: usize, line: &[u8]) -> Result<(), SinkFault> {
        let is_put = match self.texts.get_mut(cell) {
            Some(text) => text.extend_from_slice(line).is_ok(),
            None => false,
        };
        if !is_put {
            self.failures = self.failures.saturating_add(1);
            return Err(SinkFault);
        }
        Ok(())
    }
}

impl Texts {
    /// Makes this many empty texts.
    pub(crate) fn empty(alloc: Global, count: usize) -> Result<Texts, AllocError> {
        let mut texts = Vec::new(alloc);
        for _ in 0..count {
            texts.push(Vec::new(alloc))?;
        }
        Ok(Texts { texts, failures: 0 })
    }

    /// Whether the texts are these.
    pub(crate) fn are(&self, wanted: &[&[u8]]) -> bool {
        for (text, wanted) in self.texts.iter().zip(wanted) {
            if text.as_slice() != *wanted {
                return false;
            }
        }
        self.texts.len() == wanted.len()
    }
}
