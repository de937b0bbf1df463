//! The queues of a plan.
ghost use Rattle.std.specs.Prelude.{◌≡◌, ◌+◌, ◌<◌, ◌≤◌, ◌++◌, ◌∷◌, [], ℕ, length, map, IfOk, AllPairs};
ghost use Rattle.std.specs.List.{All, sum_by};
ghost use Rattle.plan_jobs.specs.declared.task.Job.{Job};
ghost use Rattle.market_drive.specs.Jobs.{AreFed, HaveRequestsOf, IsUnfed, fed_weight, numbered, taken_weight};
ghost use Rattle.market_drive.specs.Racks.{AreAway, IsFor, unfed};
ghost use Rattle.market_drive.specs.Lines.{queues_at};
ghost use Rattle.market_drive.specs.Arenas.{AreNumbered, HasRoomFor};
ghost use Rattle.drive_plan.specs.Plans.{FitsJob};
ghost use Rattle.worker_main.specs.Stations.{HaveOwnArenas};

use crate::counting::{count_jobs, place_of};
use crate::ends::{Ends, open_queue};
use crate::racks::Racks;
use drive_plan::{MOST_ARENAS, Plan};
use market_types::ArenaId;
use plan_jobs::PlannedJob;
use std::alloc::{AllocError, Global};
use std::marker::Model;
use std::sync::Wait;
use worker_main::Station;

/// The stations at which workers work, and what stays of their queues while the takers of so many workers are away.
pub(crate) struct Lines {
    stations: Vec<Station>,
    ends: Vec<Ends>,
}

impl Model for Lines {
    ghost use Rattle.std.specs.Prelude.{◌≡◌, ◌≤◌, vec_capacity};
    ghost use Rattle.market_drive.specs.Lines.{OfLines, AreLines};
    ghost use Rattle.market_drive.specs.Arenas.{AreNumbered};

    ghost Value = { OfLines };

    ghost view = { λ l. record { stations = l.stations.items; ends = l.ends.items } };

    ghost invariant = { λ l. AreLines l.stations.items l.ends.items × (64 ≤ vec_capacity l.stations) × (64 ≤ vec_capacity l.ends) × AreNumbered l.stations.items };
}

impl Lines {
    /// None yet, with room for every queue.
    fn new(alloc: Global) -> Result<Lines, AllocError>
        ensures { IfOk result (λ lines. (lines.stations ≡ []) × (lines.ends ≡ [])) }
    {
        let stations = Vec::with_capacity(alloc, MOST_ARENAS)?;
        let Ok(ends) = Vec::with_capacity(alloc, MOST_ARENAS) else {
            stations.destroy_empty();
            return Err(AllocError);
        };
        Ok(Lines { stations, ends })
    }

    /// What workers share.
    pub(crate) fn stations(&self) -> &[Station]
        ensures exact { result.now ≡ self.now.stations }
        ensures apart { AllPairs HaveOwnArenas result.now }
        ensures numbered { AreNumbered result.now }
    {
        self.stations.as_slice()
    }

    /// With the station of the next arena.
    fn with(self, station: Station, ends: Ends) -> Lines
        requires next { station.arena ≡ length self.stations + 1 }
        requires room { length self.stations < 64 }
        requires queue { ends.queue ≡ station.queue.id }
        ensures stations { result.stations ≡ self.stations ++ station ∷ [] }
        ensures ends { result.ends ≡ self.ends ++ ends ∷ [] }
    {
        let Lines {
            mut stations,
            ends: mut all,
        } = self;
        stations.push_reserved(station);
        all.push_reserved(ends);
        Lines {
            stations,
            ends: all,
        }
    }

    /// With each job in the queue of its arena, in order of number. It is one pass over the slice of jobs for all queues, not one
    /// for each, and ends with the slice.
    fn feed<R: Wait>(self, rt: &R, jobs: &[PlannedJob]) -> Lines
        requires few { length jobs.now ≤ 65536 }
        requires fit { All (FitsJob (length self.stations)) jobs.now }
        requires room { All (HasRoomFor jobs.now) self.stations }
        requires unfed { All IsUnfed self.ends }
        ensures same { (result.stations ≡ self.stations) × (map unfed result.ends ≡ map unfed self.ends) }
        ensures fed { AreFed jobs.now result.stations result.ends }
        ensures all { (weigh : Job → ℕ) → fed_weight weigh result.ends ≡ sum_by weigh (numbered jobs.now) }
    {
        let Lines { stations, mut ends } = self;
        for (index, planned) in jobs.iter().enumerate() {
            let place = place_of(planned.arena);
            ends[place].feed(rt, &stations[place], index as u32 + 1, planned);
        }
        Lines { stations, ends }
    }

    /// The end of all queues, with the racks of all their workers: they took no job with which no queue was fed, and none twice.
    pub(crate) fn settle<R: Wait>(self, rt: &R, racks: Racks)
        requires racks { All (IsFor (queues_at self.stations)) racks }
        requires away { All (AreAway (length racks)) self.ends }
        ensures once { (weigh : Job → ℕ) → taken_weight weigh racks ≤ fed_weight weigh self.ends }
    {
        let Lines {
            mut stations,
            mut ends,
        } = self;
        let mut racks = racks;
        while let Some(station) = stations.pop() {
            let Some(away) = ends.pop() else {
                unreachable!()
            };
            let (left, here) = racks.collect(away);
            racks = left;
            let Station {
                arena: _,
                wanted: _,
                mandatory: _,
                queue,
            } = station;
            here.settle(rt, queue);
        }
        stations.destroy_empty();
        ends.destroy_empty();
        racks.destroy();
    }
}

/// A station with its queue and its jobs for each arena of a plan, and a rack for each of so many workers. It goes over the jobs
/// twice, however many arenas there are.
pub(crate) fn line_up<R: Wait>(
    rt: &R,
    alloc: Global,
    plan: &Plan,
    workers: usize,
) -> Result<(Lines, Racks), AllocError>
    requires { (0 < workers) × (workers ≤ 16) }
    ensures racks { IfOk result (λ l. All (IsFor (queues_at l.0.stations)) l.1) }
    ensures each { IfOk result (λ l. length l.1 ≡ workers) }
    ensures away { IfOk result (λ l. All (AreAway workers) l.0.ends) }
    ensures room { IfOk result (λ l. All (HasRoomFor plan.now.jobs) l.0.stations) }
    ensures requests { IfOk result (λ l. HaveRequestsOf plan.now.arenas l.0.stations) }
    ensures fed { IfOk result (λ l. AreFed plan.now.jobs l.0.stations l.0.ends) }
    ensures all { IfOk result (λ l. (weigh : Job → ℕ) → fed_weight weigh l.0.ends ≡ sum_by weigh (numbered plan.now.jobs)) }
    ensures unused { IfOk result (λ l. (weigh : Job → ℕ) → taken_weight weigh l.1 ≡ 0) }
{
    let mut racks = Racks::new(alloc, workers)?;
    let Ok(mut lines) = Lines::new(alloc) else {
        racks.destroy();
        return Err(AllocError);
    };
    let arenas = plan.arenas();
    let jobs = plan.jobs();
    let counts = count_jobs(jobs);
    for (place, arena) in arenas.iter().enumerate() {
        let number = ArenaId::new(place as u32 + 1);
        let Ok((queue, ends)) = open_queue(alloc, counts[place].max(1), workers) else {
            lines.settle(rt, racks);
            return Err(AllocError);
        };
        let (dealt, away) = racks.deal(ends);
        racks = dealt;
        let station = Station {
            arena: number,
            wanted: arena.wanted as u16,
            mandatory: arena.mandatory as u16,
            queue,
        };
        lines = lines.with(station, away);
    }
    Ok((lines.feed(rt, jobs), racks))
}
