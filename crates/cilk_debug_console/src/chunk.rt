//! Bytes that were read and not used yet.

ghost use Rattle.std.specs.Prelude.{◌≡◌, ◌<◌, ◌≤◌, true, false, [], length, drop, IfOk, IfErr, OnErr};
ghost use Rattle.std.specs.Io.KnownBytes.{Keeps, IsAtEnd};
ghost use Rattle.cilk_debug_console.specs.Taking.{ahead};

use crate::fault::{InputFault, LineFault};
use std::alloc::Global;
use std::io::Read;
use std::marker::Model;

const SIZE: usize = 8_192;

/// As many bytes as one read gave, without those that were used. Contracts see the others.
#[derive(Drop)]
pub(crate) struct Chunk {
    bytes: Vec<u8>,
    start: usize,
    end: usize,
}

impl Model for Chunk {
    ghost use Rattle.std.specs.Prelude.{ℕ, ◌≤◌, ◌<◌, List, length, slice_range};

    ghost Value = { List ℕ };

    ghost view = { λ c. slice_range c.bytes.items c.start c.end };

    ghost invariant = { λ c. (c.start ≤ c.end) × (c.end ≤ length c.bytes.items) × (0 < length c.bytes.items) };
}

impl Chunk {
    /// Nothing was read.
    pub(crate) fn new(alloc: Global) -> Result<Chunk, LineFault>
        ensures none { IfOk result (λ chunk. chunk ≡ []) }
        ensures memory { IfErr result (λ why. why ≡ LineFault.Memory) }
    {
        let mut bytes = Vec::new(alloc);
        match bytes.resize(SIZE, 0) {
            Err(_) => Err(LineFault::Memory),
            Ok(()) => Ok(Chunk {
                bytes,
                start: 0,
                end: 0,
            }),
        }
    }

    /// What is not used yet.
    pub(crate) fn unread(&self) -> &[u8]
        ensures { result.now ≡ self.now }
    {
        &self.bytes[self.start..self.end]
    }

    /// The first bytes are used.
    pub(crate) fn skip(&mut self, count: usize)
        requires { count ≤ length self.old }
        ensures { self.new ≡ drop count self.old }
    {
        self.start += count;
    }

    /// Whether no byte is left. Where all were used, the reader is asked for the next chunk: nothing else reads it.
    pub(crate) fn is_at_end<R: Read>(&mut self, reader: &mut R) -> Result<bool, LineFault>
        ensures end { IfOk result (λ over. over ≡ true → IsAtEnd (ahead self.new (R.remaining reader.new))) }
        ensures none { IfOk result (λ over. over ≡ true → self.new ≡ []) }
        ensures some { IfOk result (λ over. over ≡ false → 0 < length self.new) }
        ensures kept { IfOk result (λ over. Keeps (ahead self.old (R.remaining reader.old)) (ahead self.new (R.remaining reader.new))) }
        ensures device { IfErr result (λ why. why ≡ LineFault.Read InputFault.Device) }
        ensures untaken { OnErr result (Keeps (ahead self.old (R.remaining reader.old)) (R.remaining reader.new)) }
    {
        if self.start < self.end {
            return Ok(false);
        }
        match reader.read(&mut self.bytes) {
            Err(_) => Err(LineFault::Read(InputFault::Device)),
            Ok(count) => {
                self.start = 0;
                self.end = count;
                Ok(count == 0)
            }
        }
    }
}
