//! What a market is opened with.
ghost use Rattle.std.specs.Prelude.{◌≡◌, ◌≤◌, Ok, Err, IfOk, IfErr};
ghost use Rattle.market_types.specs.State.{usual_last};
ghost use Rattle.market_types.specs.Opening.{opened_with, opening_with};

use crate::number::LastNumber;
use crate::reply::OpenFault;

/// What a market is opened with.
#[derive(Clone, Copy, Debug, PartialEq, Eq)]
pub struct Opening {
    /// Parallelism while no control lives, 1 to 65,536: fewer workers than this are active.
    pub base: u32,
    /// How many workers there are at most, 1 to 65,535.
    pub hard: u32,
    /// How many seats give commands, 1 to 64.
    pub seats: u8,
    /// How many priority levels there are, 1 to 8.
    pub levels: u32,
    /// The last number that an arena, a stamp or a control gets.
    pub last: LastNumber,
}

impl Opening {
    /// An opening with these numbers, and the usual last number. Nothing is checked yet.
    pub const fn new(base: u32, hard: u32, seats: u8, levels: u32) -> Self
        ensures { result ≡ record { base = base; hard = hard; seats = seats; levels = levels; last = usual_last } }
    {
        Opening {
            base,
            hard,
            seats,
            levels,
            last: LastNumber::USUAL,
        }
    }

    /// Whether a market can be opened with these numbers; else the first fault of `BadBase`, `BadHard`, `BadSeats` and `BadLevels`.
    pub fn check(self) -> Result<(), OpenFault>
        ensures opened { IfOk result (λ _. opened_with self ≡ Ok (opening_with self)) }
        ensures base { IfOk result (λ _. (1 ≤ self.base) × (self.base ≤ 65536)) }
        ensures hard { IfOk result (λ _. (1 ≤ self.hard) × (self.hard ≤ 65535)) }
        ensures seats { IfOk result (λ _. (1 ≤ self.seats) × (self.seats ≤ 64)) }
        ensures levels { IfOk result (λ _. (1 ≤ self.levels) × (self.levels ≤ 8)) }
        ensures fault { IfErr result (λ fault. opened_with self ≡ Err fault) }
    {
        if self.base == 0 || self.base > 65536 {
            return Err(OpenFault::BadBase);
        }
        if self.hard == 0 || self.hard > 65535 {
            return Err(OpenFault::BadHard);
        }
        if self.seats == 0 || self.seats > 64 {
            return Err(OpenFault::BadSeats);
        }
        if self.levels == 0 || self.levels > 8 {
            return Err(OpenFault::BadLevels);
        }
        Ok(())
    }
}
