//! Priorities.
ghost use Rattle.std.specs.Prelude.{◌≡◌, ◌+◌, ◌<◌, ◌≤◌, ◌↔◌, IsSome, IfSome};

use std::marker::Model;

/// A priority, a number from 1 to 8. Level 1 is served first. In a market of three levels, 1, 2 and 3 are written
/// `high`, `normal` and `low`.
#[derive(Clone, Copy, Debug, PartialEq, Eq)]
pub struct Level {
    number: u32,
}

impl Model for Level {
    ghost use Rattle.std.specs.Prelude.{ℕ, ◌≤◌};

    ghost Value = { ℕ };

    ghost view = { λ l. l.number };

    ghost invariant = { λ l. (1 ≤ l.number) × (l.number ≤ 8) };

    ghost inverse = { λ n. record { number = n } };
}

impl Level {
    /// The level of this number, where it is 1 to 8.
    pub const fn new(number: u32) -> Option<Level>
        ensures some { IsSome result ↔ ((1 ≤ number) × (number ≤ 8)) }
        ensures exact { IfSome result (λ level. level ≡ number) }
    {
        if number < 1 {
            return None;
        }
        if number > 8 {
            return None;
        }
        Some(Level { number })
    }

    /// The level of this index, 0 to 7, in the order in which levels are served.
    pub const fn from_index(index: usize) -> Level
        requires { index < 8 }
        ensures { result ≡ index + 1 }
    {
        Level {
            number: index as u32 + 1,
        }
    }

    /// Its index, 0 to 7, in the order in which levels are served.
    pub const fn index(self) -> usize
        ensures exact { result + 1 ≡ self }
        ensures high { result < 8 }
    {
        (self.number - 1) as usize
    }

    /// The number, 1 to 8.
    pub const fn get(self) -> u32
        ensures exact { result ≡ self }
        ensures low { 1 ≤ result }
        ensures high { result ≤ 8 }
    {
        self.number
    }
}
