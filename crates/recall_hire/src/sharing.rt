//! How the workers of a level go to its arenas.
ghost use Rattle.std.specs.Prelude.{◌≡◌, ◌+◌, ◌*◌, ◌/◌, ◌%◌, ◌^◌, ◌<◌};

use market_types::ArenaId;

/// How the workers of a level are shared out among its arenas.
#[derive(Clone, Copy, Debug)]
pub enum Sharing {
    /// Each arena gets its part of `workers`, by what it asks for of the level's `demand`. One carry goes through all.
    Carried {
        workers: u64,
        demand: u64,
    },
    /// All `workers` go to one arena, whose enqueued work is served.
    Picked {
        arena: Option<ArenaId>,
        workers: u32,
    },
}

/// How many whole workers are `due`, a number of parts of which `demand` make a worker, and what is left, the carry. It
/// divides only where these are more than one, and neither the workers that there are, `active`, nor one more. Where they are one or none,
/// the carry waits for no look at who has workers.
#[inline(always)]
pub(crate) fn whole(due: u64, demand: u64, active: u32) -> (u32, u64)
    requires some { 0 < demand }
    requires small { demand < 2 ^ 32 }
    requires fits { due / demand < 2 ^ 32 }
    ensures whole { result.0 ≡ due / demand }
    ensures carry { result.1 ≡ due % demand }
{
    if due < demand {
        return (0, due);
    }
    let past_one = due - demand;
    if past_one < demand {
        return (1, past_one);
    }
    let kept = u64::from(active) * demand;
    if kept <= due {
        let rest = due - kept;
        if rest < demand {
            return (active, rest);
        }
        if rest - demand < demand {
            return (active + 1, rest - demand);
        }
    }
    ((due / demand) as u32, due % demand)
}
