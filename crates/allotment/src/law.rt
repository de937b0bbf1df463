//! Why the rule needs no carry to be kept, and that it gives out what there is. These functions do nothing: what they
//! ensure holds wherever they are called.
ghost use Rattle.std.specs.Prelude.{◌≡◌, ℕ, ◌+◌, ◌-◌, ◌*◌, ◌/◌, ◌%◌, ◌<◌, ◌≤◌, ◌++◌, ◌∷◌, List};
ghost use Rattle.std.specs.List.{flat_map, sum, sum_by};
ghost use Rattle.market_types.specs.State.{State, Arena};
ghost use Rattle.market_types.specs.Claims.{request_of};
ghost use Rattle.market_types.specs.Allotment.{total_request, at_level, levels_of, in_order, demand, assigned, bound_of, share_of, carry_after, carried};
ghost use Rattle.allotment.specs.Levels.{AreDemandsOf, IsLeveled, workers_of};

/// The carry before an arena is known from the requests before it in its level, and a level leaves none. So an arena's
/// workers follow from these requests alone, whatever the other levels are.
///
/// Here `given` and `asked` are what each level is assigned and asks for, and `before` is a list of arenas in order.
pub fn no_carry_to_keep()
    ensures before_an_arena { (given asked : ℕ → ℕ) (level : ℕ) (before : List Arena)
        → carry_after given asked 0 (at_level level before)
        ≡ given level * total_request (at_level level before) % asked level }
    ensures after_a_level { (s : State) (given : ℕ → ℕ) (level : ℕ)
        → carry_after given (demand s) 0 (at_level level s.arenas) ≡ 0 }
    ensures after_levels { (s : State) (given : ℕ → ℕ) (levels : List ℕ)
        → carry_after given (demand s) 0 (flat_map (λ level. at_level level s.arenas) levels) ≡ 0 }
    // The same in the order of all levels: the carry that the rule has before an arena.
    ensures in_order { (s : State) (given : ℕ → ℕ) (before after : List Arena) (a : Arena)
        → in_order s ≡ before ++ a ∷ after
        → carry_after given (demand s) 0 before
        ≡ given a.level * total_request (at_level a.level before) % demand s a.level }
    ensures share_in_order { (s : State) (given : ℕ → ℕ) (before after : List Arena) (a : Arena)
        → in_order s ≡ before ++ a ∷ after → 0 < demand s a.level
        → share_of given (demand s) (carry_after given (demand s) 0 before) a
        ≡ given a.level * (total_request (at_level a.level before) + request_of a.claim) / demand s a.level
        - given a.level * total_request (at_level a.level before) / demand s a.level }
    ensures share { (given asked : ℕ → ℕ) (before : List Arena) (a : Arena) → 0 < asked a.level
        → share_of given asked (carry_after given asked 0 (at_level a.level before)) a
        ≡ (request_of a.claim * given a.level
        + given a.level * total_request (at_level a.level before) % asked a.level) / asked a.level }
    ensures difference { (given asked : ℕ → ℕ) (before : List Arena) (a : Arena) → 0 < asked a.level
        → share_of given asked (carry_after given asked 0 (at_level a.level before)) a
        ≡ given a.level * (total_request (at_level a.level before) + request_of a.claim) / asked a.level
        - given a.level * total_request (at_level a.level before) / asked a.level }
    ensures no_more_than_asked { (given asked : ℕ → ℕ) (before : List Arena) (a : Arena)
        → given a.level ≤ asked a.level
        → share_of given asked (carry_after given asked 0 (at_level a.level before)) a ≤ request_of a.claim }
{}

/// What is given out is the bound: the levels are assigned it together, and so are the arenas allotted it. Each level's
/// arenas are allotted what the level is assigned.
pub fn bound_is_given_out()
    ensures asked { (s : State) (demands : List ℕ) → IsLeveled s → AreDemandsOf s demands
        → sum demands ≡ total_request s.arenas }
    ensures assigned { (s : State) → IsLeveled s → sum_by (assigned s) (levels_of s) ≡ bound_of s }
    ensures allotted { (s : State) → IsLeveled s
        → sum_by workers_of (carried (assigned s) (demand s) 0 (in_order s)) ≡ bound_of s }
    ensures in_a_level { (s : State) (level : ℕ) → 1 ≤ level
        → sum_by workers_of (carried (assigned s) (demand s) 0 (at_level level s.arenas)) ≡ assigned s level }
{}
