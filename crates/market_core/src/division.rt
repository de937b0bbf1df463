//! How workers are divided at a moment.
ghost use Rattle.std.specs.Prelude.{◌≡◌, ℕ, ◌-◌, ◌*◌, ◌≤◌, slice_index, sum, if◌then◌else◌};
ghost use Rattle.market_types.specs.Allotment.{is_just};

use crate::by_level::ByLevel;
use market_types::{ArenaId, Level};

/// How the workers of a market are divided at a moment: what the allotment of each arena follows from.
#[derive(Clone, Copy)]
pub struct Division {
    /// How many workers may be active.
    pub limit: u32,
    /// How many may be allotted in all; where some may be active, so many are.
    pub bound: u32,
    /// What each level asks for.
    pub demands: ByLevel<u64>,
    /// What each level is assigned.
    pub assigned: ByLevel<u64>,
    /// Where no worker may be active, the arena whose enqueued work is served.
    pub picked: Option<ArenaId>,
}

/// What a level is assigned of what it asks for.
#[derive(Clone, Copy)]
pub struct LevelShare {
    /// What it is assigned.
    pub assigned: u64,
    /// What it asks for.
    pub demand: u64,
}

/// What an arena is allotted, and what comes before it at its level.
#[derive(Clone, Copy)]
pub struct Portion {
    /// How many workers it is allotted.
    pub workers: u32,
    /// What the arenas before it at its level ask for together.
    pub before: u32,
}

impl Division {
    /// What a level is assigned of what it asks for.
    pub(crate) fn share_at(&self, level: Level) -> LevelShare
        ensures assigned { result.assigned ≡ slice_index self.now.assigned.values (level - 1) }
        ensures demand { result.demand ≡ slice_index self.now.demands.values (level - 1) }
    {
        LevelShare {
            assigned: self.assigned.at(level),
            demand: self.demands.at(level),
        }
    }

    /// How many workers an arena is allotted where no worker may be active: all that there are, if its enqueued work is
    /// served.
    pub(crate) fn mandatory_workers(&self, arena: ArenaId) -> u32
        ensures { result ≡ (if is_just arena self.now.picked then self.now.bound else 0) }
    {
        match self.picked {
            Some(picked) if picked == arena => self.bound,
            _ => 0,
        }
    }
}

/// What all levels ask for.
pub fn sum_of(demands: &[u64; 8]) -> u64
    requires small { (index : ℕ) → slice_index demands.now index ≤ 1024 * 65535 }
    ensures exact { result ≡ sum demands.now }
{
    let mut total = 0;
    for demand in demands {
        total += *demand;
    }
    total
}
