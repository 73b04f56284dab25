//! The lists that a run tells: how many choices each worker made, and what the program printed.

ghost use Rattle.std.specs.Prelude.{◌≡◌};

use std::marker::Model;

/// The numbers of choices that the workers made, from worker 1 on.
#[derive(Debug, Drop)]
pub struct ChoiceCounts {
    counts: Vec<u64>,
}

impl Model for ChoiceCounts {
    ghost use Rattle.std.specs.Prelude.{ℕ, List};

    ghost Value = { List ℕ };

    ghost view = { λ t. t.counts.items };
}

impl ChoiceCounts {
    pub(crate) fn new(counts: Vec<u64>) -> ChoiceCounts
        ensures { result ≡ counts.items }
    {
        ChoiceCounts { counts }
    }

    pub fn as_slice(&self) -> &[u64]
        ensures { result.now ≡ self.now }
    {
        self.counts.as_slice()
    }
}

/// The bytes that a program printed.
#[derive(Debug, Drop)]
pub struct Output {
    bytes: Vec<u8>,
}

impl Model for Output {
    ghost use Rattle.std.specs.Prelude.{ℕ, List};

    ghost Value = { List ℕ };

    ghost view = { λ o. o.bytes.items };
}

impl Output {
    pub(crate) fn new(bytes: Vec<u8>) -> Output
        ensures { result ≡ bytes.items }
    {
        Output { bytes }
    }

    pub fn as_slice(&self) -> &[u8]
        ensures { result.now ≡ self.now }
    {
        self.bytes.as_slice()
    }
}
