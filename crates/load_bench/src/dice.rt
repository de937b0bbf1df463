//! Numbers at random.
ghost use Rattle.std.specs.Prelude.{◌<◌};

use rand::{Rng, RngExt, SeedableRng};
use rand_xoshiro::SplitMix64;

/// Numbers at random, the same ones for the same seed.
#[derive(Drop)]
pub struct Dice {
    random: SplitMix64,
}

impl Dice {
    /// Of this seed, for the input of this index. They begin at a number that is drawn, far from those of every other input: states that
    /// stand a few steps apart would give the same numbers a few draws later.
    pub fn new(seed: u32, index: u64) -> Self {
        let mut begin = SplitMix64::seed_from_u64((u64::from(seed) << 32) ^ index);
        Dice {
            random: SplitMix64::seed_from_u64(begin.next_u64()),
        }
    }

    /// A number below `bound`.
    pub fn below(&mut self, bound: u32) -> u32
        requires { 0 < bound }
        ensures { result < bound }
    {
        self.random.random_range(0..bound)
    }
}
