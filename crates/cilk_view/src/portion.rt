//! A portion of a text that is told in portions.

ghost use Rattle.std.specs.Prelude.{◌≡◌, ◌≤◌, ◌+◌, ◌-◌, ◌++◌, [], codes, decimal, length, IfOk};

use cilk_load::Memory;
use itoa::Buffer;
use std::alloc::Global;
use std::marker::Model;

/// How long a portion is at most.
pub(crate) const SIZE: usize = 65_536;

/// At most 65,536 bytes, for which the memory was taken when it was new.
#[derive(Drop)]
pub struct Portion {
    bytes: Vec<u8>,
}

impl Model for Portion {
    ghost use Rattle.std.specs.Prelude.{ℕ, ◌≤◌, List, length, vec_capacity};

    ghost Value = { List ℕ };

    ghost view = { λ p. p.bytes.items };

    ghost invariant = { λ p. (length p.bytes.items ≤ 65536) × (65536 ≤ vec_capacity p.bytes) };
}

impl Portion {
    /// None yet.
    pub fn new(alloc: Global) -> Result<Portion, Memory>
        ensures { IfOk result (λ portion. portion ≡ []) }
    {
        Ok(Portion {
            bytes: Vec::with_capacity(alloc, SIZE)?,
        })
    }

    /// The bytes of the portion.
    pub fn as_slice(&self) -> &[u8]
        ensures bytes { result.now ≡ self.now }
        ensures size { length self.now ≤ 65536 }
    {
        self.bytes.as_slice()
    }

    /// How many bytes more it may have.
    pub(crate) fn room(&self) -> usize
        ensures { result + length self.now ≡ 65536 }
    {
        SIZE - self.bytes.len()
    }

    pub(crate) fn clear(&mut self)
        ensures { self.new ≡ [] }
    {
        self.bytes.clear();
    }

    pub(crate) fn put(&mut self, bytes: &[u8])
        requires { length self.old + length bytes.now ≤ 65536 }
        ensures { self.new ≡ self.old ++ bytes.now }
    {
        match self.bytes.extend_from_slice(bytes) {
            Ok(()) => {}
            Err(_) => unreachable!(),
        }
    }

    /// A number of a path.
    pub(crate) fn put_number(&mut self, number: u32)
        requires { length self.old + 41 ≤ 65536 }
        ensures { self.new ≡ self.old ++ (codes "/" ++ decimal number) }
    {
        let mut buffer = Buffer::new();
        let digits = buffer.format(number);
        self.put(b"/");
        self.put(digits.as_bytes());
    }
}
