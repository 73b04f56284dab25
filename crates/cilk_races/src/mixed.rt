//! The hash of some numbers, one number more.

ghost use Rattle.std.specs.Prelude.{◌≡◌};
ghost use Rattle.cilk_races.specs.Mixed.{mixed};

// A prime number, so that few cells share a bucket.
const FACTOR: usize = 1_000_003;

/// The hash of one number more.
#[tactic(auto, unfolding(crate::specs::Mixed::mixed))]
pub(crate) fn mixed(hash: usize, number: usize) -> usize
    ensures { result ≡ mixed hash number }
{
    hash.wrapping_mul(FACTOR).wrapping_add(number)
}
