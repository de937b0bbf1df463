//! Numbers with names of their own.
ghost use Rattle.std.specs.Prelude.{◌≡◌, ◌≤◌, ◌↔◌, ℕ, IsSome, IfSome};
ghost use Rattle.market_types.specs.State.{usual_last};

use std::marker::Model;

/// The number of an arena, from 1, never used again. A number that no arena has can be written too: a command about
/// it is refused.
#[derive(Clone, Copy, Debug, PartialEq, Eq)]
pub struct ArenaId {
    number: u32,
}

impl Model for ArenaId {
    ghost Value = { ℕ };

    ghost view = { λ a. a.number };

    ghost inverse = { λ n. record { number = n } };
}

impl ArenaId {
    /// The arena of this number.
    pub const fn new(number: u32) -> Self
        ensures { result ≡ number }
    {
        ArenaId { number }
    }

    /// The number.
    pub const fn get(self) -> u32
        ensures { result ≡ self }
    {
        self.number
    }
}

/// The number of a control, from 1, never used again. A number that no control has can be written too: a command
/// about it is refused.
#[derive(Clone, Copy, Debug, PartialEq, Eq)]
pub struct ControlId {
    number: u32,
}

impl Model for ControlId {
    ghost Value = { ℕ };

    ghost view = { λ c. c.number };

    ghost inverse = { λ n. record { number = n } };
}

impl ControlId {
    /// The control of this number.
    pub const fn new(number: u32) -> Self
        ensures { result ≡ number }
    {
        ControlId { number }
    }

    /// The number.
    pub const fn get(self) -> u32
        ensures { result ≡ self }
    {
        self.number
    }
}

/// The number of a seat, from 0. A seat is one caller of the market, who may be placed at an arena as a worker.
#[derive(Clone, Copy, Debug, PartialEq, Eq)]
pub struct SeatNo {
    number: u8,
}

impl Model for SeatNo {
    ghost Value = { ℕ };

    ghost view = { λ s. s.number };

    ghost inverse = { λ n. record { number = n } };
}

impl SeatNo {
    /// The seat of this number.
    pub const fn new(number: u8) -> Self
        ensures { result ≡ number }
    {
        SeatNo { number }
    }

    /// The number.
    pub const fn get(self) -> u8
        ensures { result ≡ self }
    {
        self.number
    }
}

/// The last number that an arena, a stamp or a control of a market gets, 1 to 4,294,967,294. What would need a later one is
/// refused.
#[derive(Clone, Copy, Debug, PartialEq, Eq)]
pub struct LastNumber {
    number: u32,
}

impl Model for LastNumber {
    ghost Value = { ℕ };

    ghost view = { λ l. l.number };

    ghost invariant = { λ l. (1 ≤ l.number) × (l.number ≤ 4294967294) };

    ghost inverse = { λ n. record { number = n } };
}

impl LastNumber {
    /// The last number of a market that names none.
    pub const USUAL: LastNumber = LastNumber { number: 1_048_576 };

    /// This last number, where it is 1 to 4,294,967,294.
    pub const fn new(number: u32) -> Option<Self>
        ensures some { IsSome result ↔ ((1 ≤ number) × (number ≤ 4294967294)) }
        ensures exact { IfSome result (λ last. last ≡ number) }
    {
        if number < 1 {
            return None;
        }
        if number > 4_294_967_294 {
            return None;
        }
        Some(LastNumber { number })
    }

    /// The last number of a market that names none: 1,048,576.
    pub const fn usual() -> Self
        ensures { result ≡ usual_last }
    {
        LastNumber::USUAL
    }

    /// The number, 1 to 4,294,967,294.
    pub const fn get(self) -> u32
        ensures exact { result ≡ self }
        ensures low { 1 ≤ result }
        ensures high { result ≤ 4294967294 }
    {
        self.number
    }
}
