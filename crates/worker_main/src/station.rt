//! Where the jobs of an arena are.
ghost use Rattle.std.specs.Prelude.{IfSome, IfNone};
ghost use Rattle.worker_main.specs.Stations.{IsStationAt, IsWithout};

use job_queue::JobQueue;
use market_types::ArenaId;
use plan_jobs::Job;

/// An arena's jobs, and what its market request was: that is given back when no job is left.
pub struct Station {
    /// The arena whose workers take the jobs.
    pub arena: ArenaId,
    /// How many workers it has asked for.
    pub wanted: u16,
    /// How much enqueued work it has told.
    pub mandatory: u16,
    /// Its jobs.
    pub queue: JobQueue<Job>,
}

/// An arena's station, with its place.
pub(crate) fn station_of(stations: &[Station], arena: ArenaId) -> Option<(usize, &Station)>
    ensures found { IfSome result (λ found. IsStationAt stations.now found.0 arena found.1.now) }
    ensures none { IfNone result (IsWithout stations.now arena) }
{
    for (place, station) in stations.iter().enumerate() {
        if station.arena == arena {
            return Some((place, station));
        }
    }
    None
}
