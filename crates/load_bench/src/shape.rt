//! The markets of the loads.
ghost use Rattle.std.specs.Prelude.{◌<◌, ◌≤◌};

use market_types::Opening;

/// A market, and how many arenas live in it all the time.
#[derive(Clone, Copy)]
pub struct Shape {
    /// Parallelism while no control lives.
    pub base: u32,
    /// How many seats give commands.
    pub seats: u8,
    /// Over how many levels the arenas are spread.
    pub levels: u32,
    /// How many arenas live all the time.
    pub arenas: u32,
    ghost some_base: { 0 < base },
    ghost low_base: { base ≤ 1000 },
    ghost some_seats: { 0 < seats },
    ghost few_seats: { seats ≤ 64 },
    ghost some_levels: { 0 < levels },
    ghost few_levels: { levels ≤ 8 },
    ghost some_arenas: { 0 < arenas },
    ghost few_arenas: { arenas ≤ 1000 },
}

/// From a small server to the largest market. In the last one many arenas at one level share few workers: the most rows of a level, and three
/// Stays in five are of a seat that was recalled before and is not placed. Next to no Join is in vain.
pub const SHAPES: [Shape; 6] = [
    Shape {
        base: 8,
        seats: 4,
        levels: 3,
        arenas: 10,
    },
    Shape {
        base: 17,
        seats: 16,
        levels: 3,
        arenas: 64,
    },
    Shape {
        base: 65,
        seats: 64,
        levels: 1,
        arenas: 256,
    },
    Shape {
        base: 65,
        seats: 64,
        levels: 3,
        arenas: 1000,
    },
    Shape {
        base: 33,
        seats: 32,
        levels: 8,
        arenas: 300,
    },
    Shape {
        base: 24,
        seats: 64,
        levels: 1,
        arenas: 1000,
    },
];

/// Those where arenas come and go: near the most that live, at one level, three and eight, and few. Their limits leave seats without work.
pub const CHURNS: [Shape; 4] = [
    Shape {
        base: 24,
        seats: 64,
        levels: 1,
        arenas: 1000,
    },
    Shape {
        base: 33,
        seats: 64,
        levels: 3,
        arenas: 1000,
    },
    Shape {
        base: 49,
        seats: 64,
        levels: 8,
        arenas: 1000,
    },
    Shape {
        base: 9,
        seats: 16,
        levels: 3,
        arenas: 60,
    },
];

/// A market whose numbers run out.
pub const WORN: Shape = Shape {
    base: 9,
    seats: 16,
    levels: 3,
    arenas: 60,
};

/// Its last number.
pub const WORN_LAST: u32 = 1_000;

impl Shape {
    /// What its market is opened with.
    pub fn opening(self) -> Opening {
        Opening::new(self.base, 65_535, self.seats, self.levels)
    }
}
