//! How many jobs each arena of a plan has.
ghost use Rattle.std.specs.Prelude.{◌≡◌, ◌+◌, ◌<◌, ◌≤◌, ℕ, slice_index};
ghost use Rattle.std.specs.List.{All};
ghost use Rattle.drive_plan.specs.Plans.{FitsJob};
ghost use Rattle.market_drive.specs.Arenas.{count_of};

use drive_plan::MOST_ARENAS;
use market_types::ArenaId;
use plan_jobs::PlannedJob;

/// The place of an arena among all of them: that of arena 1 is 0.
pub(crate) fn place_of(arena: ArenaId) -> usize
    requires { 1 ≤ arena }
    ensures { result + 1 ≡ arena }
{
    arena.get() as usize - 1
}

/// How many of the jobs each arena has. It is one pass over the jobs for all arenas, not one for each, and takes no memory.
pub(crate) fn count_jobs(jobs: &[PlannedJob]) -> [usize; MOST_ARENAS]
    requires fit { All (FitsJob 64) jobs.now }
    ensures { (k : ℕ) → k < 64 → slice_index result k ≡ count_of jobs.now (k + 1) }
{
    let mut counts = [0; MOST_ARENAS];
    for job in jobs {
        counts[place_of(job.arena)] += 1;
    }
    counts
}
