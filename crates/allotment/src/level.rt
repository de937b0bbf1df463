//! Levels side by side: what each is given, and which comes first.
ghost use Rattle.std.specs.Prelude.{◌≡◌, ℕ, ◌-◌, ◌≤◌, slice_index};
ghost use Rattle.market_types.specs.State.{State};
ghost use Rattle.market_types.specs.Allotment.{assigned_to, assigned, bound_of, first_demand, top_level as top_level_of};
ghost use Rattle.allotment.specs.Levels.{AreDemandsOf, ArePicksOf, first_some, pick_of};

use market_types::{ArenaId, Level};

/// Gives `workers` to the levels in order, to each as many as it asks for and are left.
pub fn assign(demands: &[u64; 8], workers: u64) -> [u64; 8]
    ensures exact { result ≡ assigned_to demands.now workers }
    ensures no_more_than_asked { (i : ℕ) → slice_index result i ≤ slice_index demands.now i }
    ensures in_market { (s : State) → AreDemandsOf s demands.now → workers ≡ bound_of s → (level : ℕ) → 1 ≤ level
        → level ≤ s.levels → slice_index result (level - 1) ≡ assigned s level }
{
    let mut assigned = [0; 8];
    let mut left = workers;
    for i in 0..8 {
        let given = demands[i].min(left);
        assigned[i] = given;
        left -= given;
    }
    assigned
}

/// The first level that asks for workers: its arenas are top priority.
pub fn top_level(demands: &[u64; 8]) -> Option<Level>
    ensures exact { result ≡ first_demand demands.now }
    ensures in_market { (s : State) → AreDemandsOf s demands.now → result ≡ top_level_of s }
{
    for i in 0..8 {
        if demands[i] > 0 {
            return Some(Level::from_index(i));
        }
    }
    None
}

/// The arena whose enqueued work is served where no worker may be active: the first of the levels' own picks.
pub fn mandatory_pick(picks: &[Option<ArenaId>; 8]) -> Option<ArenaId>
    ensures exact { result ≡ first_some picks.now }
    ensures in_market { (s : State) → ArePicksOf s picks.now → result ≡ pick_of s }
{
    for pick in picks {
        if pick.is_some() {
            return *pick;
        }
    }
    None
}
