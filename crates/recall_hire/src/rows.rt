//! What arenas have of what they are allotted.
ghost use Rattle.std.specs.Prelude.{◌≡◌, ◌-◌};

use market_types::ArenaId;

/// What an arena is allotted, and what it has.
#[derive(Clone, Copy, Debug, PartialEq, Eq)]
pub struct Staffing {
    pub arena: ArenaId,
    /// How many workers it is allotted.
    pub allotted: u32,
    /// How many seats are placed at it.
    pub active: u32,
}

/// How many of `active` workers are too many.
pub fn recall(active: u32, allotted: u32) -> u32
    ensures exact { result ≡ active - allotted }
{
    active.saturating_sub(allotted)
}

/// How many workers are too few.
pub fn hire(active: u32, allotted: u32) -> u32
    ensures exact { result ≡ allotted - active }
{
    allotted.saturating_sub(active)
}
