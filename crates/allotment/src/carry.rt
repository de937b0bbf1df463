//! The workers of an arena, by what its level is given.
ghost use Rattle.std.specs.Prelude.{◌≡◌, ℕ, ◌+◌, ◌-◌, ◌*◌, ◌/◌, ◌%◌, ◌^◌, ◌<◌, ◌≤◌, List};
ghost use Rattle.market_types.specs.State.{Arena};
ghost use Rattle.market_types.specs.Allotment.{share_of, carry_past, carry_after, at_level};
ghost use Rattle.allotment.specs.Levels.{Asks, AskBefore};

/// The workers of an arena that asks for `request` of the `demand` of a level which is assigned `assigned`, where the
/// arena before it left `carry`; and the carry that it leaves itself.
pub fn carry_share(assigned: u64, demand: u64, carry: u64, request: u64) -> (u64, u64)
    requires some_demand { 0 < demand }
    requires small_demand { demand < 2 ^ 32 }
    requires within_demand { assigned ≤ demand }
    requires carried { carry < demand }
    requires small_request { request ≤ 65535 }
    ensures workers { result.0 ≡ (request * assigned + carry) / demand }
    ensures carry { result.1 ≡ (request * assigned + carry) % demand }
    ensures no_more_than_asked { result.0 ≤ request }
    ensures carried_on { result.1 < demand }

    // It is the rule's step for an arena of such a level.
    ensures workers_of { (given asked : ℕ → ℕ) (a : Arena) → Asks given asked a assigned demand request
        → result.0 ≡ share_of given asked carry a }
    ensures carry_of { (given asked : ℕ → ℕ) (a : Arena) → Asks given asked a assigned demand request
        → result.1 ≡ carry_past given asked carry a }
{
    let total = request * assigned + carry;
    (total / demand, total % demand)
}

/// The workers of an arena that asks for `request`, where the arenas of its level before it ask for `before` together:
/// what `carry_share` gives it, but without a walk over these arenas. It divides only where the level is assigned fewer
/// workers than it asks for.
pub fn share(assigned: u64, demand: u64, before: u64, request: u64) -> u64
    requires some_demand { 0 < demand }
    requires small_demand { demand < 2 ^ 32 }
    requires within_demand { assigned ≤ demand }
    requires part_of_demand { before + request ≤ demand }
    ensures difference { result ≡ assigned * (before + request) / demand - assigned * before / demand }
    ensures carried { result ≡ (request * assigned + assigned * before % demand) / demand }
    ensures no_more_than_asked { result ≤ request }

    // It is what the rule gives an arena that comes after others.
    ensures workers_of { (given asked : ℕ → ℕ) (others : List Arena) (a : Arena)
        → Asks given asked a assigned demand request → AskBefore others a before
        → result ≡ share_of given asked (carry_after given asked 0 (at_level a.level others)) a }
{
    if assigned == demand {
        return request;
    }
    assigned * (before + request) / demand - assigned * before / demand
}
