//! The generator of random numbers.

ghost use Rattle.std.specs.Prelude.{◌≡◌, ◌<◌};
ghost use Rattle.cilk_run.specs.Generator.{next_state, number_at, drawn_below};

use std::marker::Model;

/// SplitMix64 (Steele, Lea and Flood, 2014). It is for simulations, and for no secrets.
#[derive(Drop)]
pub struct SplitMix {
    state: u64,
}

impl Model for SplitMix {
    ghost use Rattle.std.specs.Prelude.{ℕ};

    ghost Value = { ℕ };

    ghost view = { λ g. g.state };
}

impl SplitMix {
    /// The generator whose first state is the seed.
    pub fn new(seed: u64) -> SplitMix
        ensures { result ≡ seed }
    {
        SplitMix { state: seed }
    }

    /// Goes on to the next state, and gives its number.
    #[tactic(auto, unfolding(crate::specs::Generator::next_state, crate::specs::Generator::number_at))]
    pub fn next(&mut self) -> u64
        ensures state { self.new ≡ next_state self.old }
        ensures number { result ≡ number_at (next_state self.old) }
    {
        self.state = self.state.wrapping_add(0x9e37_79b9_7f4a_7c15);
        let mut z = self.state;
        z = (z ^ (z >> 30)).wrapping_mul(0xbf58_476d_1ce4_e5b9);
        z = (z ^ (z >> 27)).wrapping_mul(0x94d0_49bb_1331_11eb);
        z ^ (z >> 31)
    }

    /// A number below `count`.
    pub fn below(&mut self, count: u32) -> u32
        requires { 0 < count }
        ensures state { self.new ≡ next_state self.old }
        ensures number { result ≡ drawn_below count self.old }
        ensures below { result < count }
    {
        let upper = self.next() >> 32;
        (upper * u64::from(count) >> 32) as u32
    }
}
