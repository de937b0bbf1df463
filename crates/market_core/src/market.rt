//! The market, and what can be read of it.
ghost use Rattle.std.specs.Prelude.{◌≡◌, ◌≤◌, ◌<◌, Some, is_some, length, slice_get, IfOk};
ghost use Rattle.std.specs.List.{count_by};
ghost use Rattle.market_types.specs.State.{Arena, opening};
ghost use Rattle.market_types.specs.Opening.{opened_market, opened_with, opening_with, numbers_of, MemoryAside};
ghost use Rattle.market_types.specs.Allotment.{limit_of, bound_of};
ghost use Rattle.market_types.specs.Step.{arena_at, limits_of};
ghost use Rattle.allotment.specs.Levels.{IsLeveled};
ghost use Rattle.market_core.specs.Allotted.{IsWithin, total_allotment};

mod allot;
mod apply;
mod order;

use crate::opening::Numbers;
use allotment::{bound_is_given_out, no_carry_to_keep};
use arena_store::Arenas;
use control_set::ControlSet;
use market_types::{ArenaId, LastNumber, LimitView, OpenFault, Opening, SeatNo};
use recall_hire::Roster;
use std::alloc::Global;
use std::marker::Model;

/// Arenas that share workers. Contracts see a market as its `State`: what it was opened with, its arenas, controls and
/// seats, and its last and next numbers.
pub struct Market {
    opening: Numbers,
    arenas: Arenas,
    controls: ControlSet,
    roster: Roster,
    next_arena: u32,
    next_stamp: u32,
    /// No arena needed a worker when a Join last looked, and nothing has changed since.
    nobody_needed: bool,
}

impl Model for Market {
    ghost use Rattle.market_types.specs.State.{State};
    ghost use Rattle.market_core.specs.Shown.{shown, IsSoundInside};

    ghost Value = { State };

    ghost view = { shown };

    ghost invariant = { IsSoundInside };
}

// By hand, so that whoever drops a market makes one call: a function that owns one is then proved in a fraction of the time.
impl Drop for Market {
    fn drop(self) {
        let Market {
            opening: _,
            arenas: _,
            controls: _,
            roster: _,
            next_arena: _,
            next_stamp: _,
            nobody_needed: _,
        } = self;
    }
}

impl Market {
    /// A market that nothing has happened to: with a base of 1 to 65,536, else `BadBase`; a hard limit of 1 to 65,535,
    /// else `BadHard`; 1 to 64 seats, else `BadSeats`; and 1 to 8 levels, else `BadLevels`. Running out of memory is then
    /// `Memory`.
    pub fn new(
        alloc: Global,
        base: u32,
        hard: u32,
        seats: u8,
        levels: u32,
    ) -> Result<Self, OpenFault>
        ensures exact { MemoryAside (opened_market base hard seats levels) result }
        ensures opened { IfOk result (λ market. market ≡ opening base hard seats levels) }
    {
        Market::with_opening(alloc, Opening::new(base, hard, seats, levels))
    }

    /// The same with these numbers, the last number of an arena, a stamp and a control among them, which is otherwise 1,048,576.
    pub fn with_opening(alloc: Global, numbers: Opening) -> Result<Self, OpenFault>
        ensures exact { MemoryAside (opened_with numbers) result }
        ensures opened { IfOk result (λ market. market ≡ opening_with numbers) }
    {
        numbers.check()?;
        let Ok(roster) = Roster::new(alloc, numbers.seats) else {
            return Err(OpenFault::Memory);
        };
        Ok(Market {
            opening: Numbers::of(&numbers),
            arenas: Arenas::new(alloc),
            controls: ControlSet::new(alloc),
            roster,
            next_arena: 1,
            next_stamp: 1,
            nobody_needed: false,
        })
    }

    /// What it was opened with.
    pub fn opening(&self) -> Opening
        ensures { result ≡ numbers_of self.now }
    {
        Opening {
            base: self.base(),
            hard: self.hard(),
            seats: self.seats(),
            levels: self.levels(),
            last: self.last(),
        }
    }

    /// The value where no control lives, 1 to 65,536: the market's own limit on parallelism.
    pub fn base(&self) -> u32
        ensures exact { result ≡ self.now.base }
        ensures low { 1 ≤ result }
        ensures high { result ≤ 65536 }
    {
        self.opening.base
    }

    /// How many workers may be active whatever the value is, 1 to 65,535.
    pub fn hard(&self) -> u32
        ensures exact { result ≡ self.now.hard }
        ensures low { 1 ≤ result }
        ensures high { result ≤ 65535 }
    {
        self.opening.hard
    }

    /// How many seats there are, 1 to 64, numbered from 0.
    pub fn seats(&self) -> u8
        ensures exact { result ≡ length self.now.seats }
        ensures low { 1 ≤ result }
        ensures high { result ≤ 64 }
    {
        self.roster.seats()
    }

    /// A market has a seat 0. This does nothing: what it ensures holds wherever it is called.
    #[inline(always)]
    pub fn has_a_seat(&self)
        ensures { 0 < length self.now.seats }
    {
        // The fact is the market's invariant, which a look at a field opens.
        let _ = &self.roster;
    }

    /// How many levels there are, 1 to 8. Each arena is at one of them.
    pub fn levels(&self) -> u32
        ensures exact { result ≡ self.now.levels }
        ensures low { 1 ≤ result }
        ensures high { result ≤ 8 }
        ensures leveled { IsLeveled self.now }
    {
        self.opening.levels
    }

    /// The last number that an arena, a stamp or a control gets.
    pub fn last(&self) -> LastNumber
        ensures exact { result ≡ self.now.last }
    {
        self.opening.last
    }

    /// How many seats are placed, 0 to 64. It takes no memory.
    pub fn placed(&self) -> u32
        ensures exact { result ≡ count_by is_some self.now.seats }
        ensures high { result ≤ 64 }
    {
        self.roster.placed()
    }

    /// The arena that a seat is placed at, or `None`. The seat is one that the market has. It takes no memory.
    pub fn arena_of(&self, seat: SeatNo) -> Option<ArenaId>
        requires seat { seat < length self.now.seats }
        ensures exact { slice_get self.now.seats seat ≡ Some result }
    {
        self.roster.at(seat)
    }

    /// Each living arena is allotted no more workers than it asks for, asks for no more than it can use, and can use no more
    /// than its slots: so does an arena that a Show tells. This does nothing: what it ensures holds wherever it is called.
    #[inline(always)]
    pub fn arenas_are_within(&self)
        ensures { (a : Arena) → arena_at a.number self.now.arenas ≡ Some a → IsWithin self.now a }
    {
        no_carry_to_keep();
        self.arenas.stand_once();
    }

    /// How many workers may be active, and why. Where some may be, all arenas together are allotted what they ask for and
    /// may have; where none may be, one at most.
    pub fn limits(&self) -> LimitView
        ensures exact { result ≡ limits_of self.now }
        ensures given_out { 0 < limit_of self.now → total_allotment self.now ≡ bound_of self.now }
        ensures one_at_most { limit_of self.now ≡ 0 → total_allotment self.now ≤ 1 }
    {
        bound_is_given_out();
        self.arenas.stand_once();
        let enqueued = self.arenas.has_mandatory();
        let limit = self.limit();
        let effective = if limit > 0 {
            limit
        } else if enqueued {
            1
        } else {
            0
        };
        LimitView {
            value: self.controls.active_value(self.opening.base),
            limit,
            effective,
        }
    }

    /// How many workers may be active.
    fn limit(&self) -> u32
        ensures exact { result ≡ limit_of self.now }
    {
        (self.controls.active_value(self.opening.base) - 1).min(self.opening.hard)
    }
}
