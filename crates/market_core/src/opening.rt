//! What a market keeps of what it was opened with.
ghost use Rattle.std.specs.Prelude.{◌≡◌};

use market_types::{LastNumber, Opening};

/// The numbers that a market was opened with, but for that of its seats: its roster has it, and it is not kept twice.
#[derive(Clone, Copy)]
pub struct Numbers {
    pub base: u32,
    pub hard: u32,
    pub levels: u32,
    pub last: LastNumber,
}

impl Numbers {
    /// Those of an opening.
    pub fn of(opening: &Opening) -> Self
        ensures { result ≡ record { base = opening.now.base; hard = opening.now.hard; levels = opening.now.levels; last = opening.now.last } }
    {
        Numbers {
            base: opening.base,
            hard: opening.hard,
            levels: opening.levels,
            last: opening.last,
        }
    }
}
