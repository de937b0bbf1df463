//! How many moments a column holds: a power of 2, so that the column of a moment is found by a shift. A division takes as long as most moments do in
//! all.
ghost use Rattle.std.specs.Prelude.{◌≡◌, ◌+◌, ◌*◌, ◌/◌, ◌<◌, ◌^◌};

use std::marker::Model;

/// A power of 2: contracts see it as that number.
#[derive(Drop)]
pub(crate) struct Width {
    /// Which power it is.
    shift: u32,
}

impl Model for Width {
    ghost use Rattle.std.specs.Prelude.{◌<◌, ◌^◌, ℕ};

    ghost Value = { ℕ };

    ghost view = { λ w. 2 ^ w.shift };

    ghost invariant = { λ w. w.shift < 64 };
}

impl Width {
    /// One.
    pub(crate) fn one() -> Width
        ensures { result ≡ 1 }
    {
        Width { shift: 0 }
    }

    /// The number itself.
    #[inline]
    pub(crate) fn number(&self) -> u64
        ensures exact { result ≡ self.now }
        ensures some { 0 < result }
    {
        1 << self.shift
    }

    /// Makes it twice as much.
    pub(crate) fn double(&mut self)
        requires { self.old + self.old < 2 ^ 64 }
        ensures { self.new ≡ self.old + self.old }
    {
        self.shift += 1;
    }

    /// In which column a moment is, that so many come before.
    #[inline]
    pub(crate) fn place_of(&self, moments: u64) -> u64
        ensures exact { result ≡ moments / self.now }
        ensures some { 0 < self.now }
    {
        moments >> self.shift
    }

    /// How many moments come before a column.
    #[inline]
    pub(crate) fn moments_before(&self, place: u64) -> u64
        requires { place * self.now < 2 ^ 64 }
        ensures { result ≡ place * self.now }
    {
        place << self.shift
    }
}
