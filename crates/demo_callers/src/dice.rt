//! Numbers at random.
ghost use Rattle.std.specs.Prelude.{◌<◌};

use rand::{RngExt, SeedableRng};
use rand_xoshiro::SplitMix64;

/// Numbers at random, the same ones for the same seed.
#[derive(Drop)]
pub(crate) struct Dice {
    random: SplitMix64,
}

impl Dice {
    /// Of this seed.
    pub(crate) fn new(seed: u64) -> Self {
        Dice {
            random: SplitMix64::seed_from_u64(seed),
        }
    }

    /// A number below `bound`.
    pub(crate) fn below(&mut self, bound: u32) -> u32
        requires { 0 < bound }
        ensures { result < bound }
    {
        self.random.random_range(0..bound)
    }
}
