//! What is kept of an instance that has ended, so that it may live again.

use crate::life::Live;
use std::marker::Model;

/// What is kept of an instance that has ended: what took its value, and what waited for it. No child of it lived, and it was parked
/// nowhere.
#[derive(Drop)]
pub struct Remains {
    pub(crate) live: Box<Live>,
}

impl Model for Remains {
    ghost use Rattle.std.specs.Prelude.{◌≡◌, ℕ, None};
    ghost use Rattle.std.specs.Ordering.{nat_cmp};
    ghost use Rattle.std.specs.BTreeMap.{get};
    ghost use Rattle.cilk_spawn.specs.Remains as seen;

    ghost Value = { seen.Remains };

    ghost view = { λ r. seen.remains_of r.live.value.receiver r.live.value.waiting.items };

    ghost invariant = { λ r. ((k : ℕ) → get nat_cmp r.live.value.living k ≡ None) × (r.live.value.parked ≡ None) };
}
