//! A sink over memory.

ghost use Rattle.std.specs.Prelude.{◌≡◌, [], Some};

use crate::sink::{Sink, SinkFault};
use std::alloc::Global;

/// A sink that keeps in memory what it accepted. It fails when memory runs out.
#[derive(Drop)]
pub struct MemorySink {
    bytes: Vec<u8>,
    failures: u64,
}

impl MemorySink {
    ghost use Rattle.streams.specs.MemorySinks.{memory_bytes, memory_failures};

    /// Makes an empty sink. It allocates nothing yet, and keeps the allocator for later.
    pub fn new(alloc: Global) -> MemorySink
        ensures empty { memory_bytes result ≡ [] }
        ensures fresh { memory_failures result ≡ 0 }
    {
        MemorySink {
            bytes: Vec::new(alloc),
            failures: 0,
        }
    }

    /// The bytes that were accepted, in their order.
    pub fn bytes(&self) -> &[u8]
        ensures { result.now ≡ memory_bytes self.now }
    {
        self.bytes.as_slice()
    }

    /// The number of calls of `put` that failed.
    pub fn failures(&self) -> u64
        ensures { result ≡ memory_failures self.now }
    {
        self.failures
    }
}

impl Sink for MemorySink {
    ghost use Rattle.streams.specs.MemorySinks.{memory_bytes, memory_failures};

    ghost taken = { λ s. Some (memory_bytes s) };

    ghost failures = { λ s. memory_failures s };

    fn put(&mut self, piece: &[u8]) -> Result<usize, SinkFault> {
        if self.bytes.extend_from_slice(piece).is_err() {
            self.failures = self.failures.saturating_add(1);
            return Err(SinkFault);
        }
        Ok(piece.len())
    }
}
