//! The right to pop of each worker.
ghost use Rattle.std.specs.Prelude.{◌≡◌, ◌++◌, ◌∷◌, [], ◌+◌, ◌<◌, ◌≤◌, ℕ, List, length, vec_len, IfOk, IfSome, IfNone};
ghost use Rattle.std.specs.List.{All, sum_by};
ghost use Rattle.plan_jobs.specs.declared.task.Job.{Job as OfJob};
ghost use Rattle.market_drive.specs.Jobs.{taken_by, taken_weight};
ghost use Rattle.job_queue.specs.Seen.{QueueId};
ghost use Rattle.market_drive.specs.Racks.{IsFor, IsRoomy, OfRack, queues_of};

use crate::ends::Ends;
use drive_plan::MOST_ARENAS;
use job_queue::Taker;
use plan_jobs::Job;
use std::alloc::{AllocError, Global};
use std::marker::Model;

/// The most workers that a plan has.
const MOST_WORKERS: usize = 16;

/// What one worker may pop from: it holds a taker of each queue, in the order of the queues.
pub(crate) struct Rack {
    takers: Vec<Taker<Job>>,
}

impl Model for Rack {
    ghost use Rattle.std.specs.Prelude.{vec_capacity};
    ghost use Rattle.market_drive.specs.Racks.{OfRack, queues_of};

    ghost Value = { OfRack };

    ghost view = { λ r. record { queues = queues_of r.takers.items; room = vec_capacity r.takers; takers = r.takers.items } };
}

impl Rack {
    /// One that has room for a taker of every queue, and none yet.
    fn new(alloc: Global) -> Result<Rack, AllocError>
        ensures empty { IfOk result (IsFor []) }
        ensures takers { IfOk result (λ rack. rack.takers ≡ []) }
        ensures room { IfOk result IsRoomy }
    {
        Ok(Rack {
            takers: Vec::with_capacity(alloc, MOST_ARENAS)?,
        })
    }

    /// Of these takers.
    pub(crate) fn of(takers: Vec<Taker<Job>>) -> Rack
        ensures { (result.queues ≡ queues_of takers.items) × (result.takers ≡ takers.items) }
    {
        Rack { takers }
    }

    /// The takers.
    pub(crate) fn into_takers(self) -> Vec<Taker<Job>>
        ensures { (queues_of result.items ≡ self.queues) × (result.items ≡ self.takers) }
    {
        let Rack { takers } = self;
        takers
    }

    /// With a taker of the next queue.
    fn with(self, taker: Taker<Job>) -> Rack
        requires room { IsRoomy self × length self.queues < 64 }
        ensures next { result.queues ≡ self.queues ++ taker.queue ∷ [] }
        ensures takers { result.takers ≡ self.takers ++ taker ∷ [] }
        ensures room { IsRoomy result }
    {
        let Rack { mut takers } = self;
        takers.push_reserved(taker);
        Rack { takers }
    }

    /// Without the taker of the last queue, and this taker.
    fn without(self) -> (Rack, Taker<Job>)
        requires { 0 < length self.queues }
        ensures queues { self.queues ≡ result.0.queues ++ result.1.queue ∷ [] }
        ensures takers { self.takers ≡ result.0.takers ++ result.1 ∷ [] }
    {
        let Rack { mut takers } = self;
        let Some(taker) = takers.pop() else {
            unreachable!()
        };
        (Rack { takers }, taker)
    }

    fn destroy(self)
        requires { IsFor [] self }
        ensures { self.takers ≡ [] }
    {
        let Rack { takers } = self;
        takers.destroy_empty();
    }
}

/// The racks of all workers, at most 16.
pub(crate) struct Racks {
    full: Vec<Rack>,
    spare: Vec<Rack>,
}

impl Model for Racks {
    ghost use Rattle.std.specs.Prelude.{◌≡◌, ◌≤◌, List, vec_len, vec_capacity};
    ghost use Rattle.market_drive.specs.Racks.{OfRack};

    ghost Value = { List OfRack };

    ghost view = { λ r. r.full.items };

    ghost invariant = { λ r. (vec_len r.spare ≡ 0) × (vec_len r.full ≤ 16) × (16 ≤ vec_capacity r.full) × (16 ≤ vec_capacity r.spare) };
}

impl Racks {
    /// None yet, with room for every worker.
    pub(crate) fn empty(alloc: Global) -> Result<Racks, AllocError>
        ensures { IfOk result (λ racks. racks ≡ []) }
    {
        let full = Vec::with_capacity(alloc, MOST_WORKERS)?;
        let Ok(spare) = Vec::with_capacity(alloc, MOST_WORKERS) else {
            full.destroy_empty();
            return Err(AllocError);
        };
        Ok(Racks { full, spare })
    }

    /// An empty rack for each of so many workers.
    pub(crate) fn new(alloc: Global, workers: usize) -> Result<Racks, AllocError>
        requires { workers ≤ 16 }
        ensures each { IfOk result (λ racks. length racks ≡ workers) }
        ensures empty { IfOk result (All (IsFor [])) }
        ensures unused { IfOk result (λ racks. (weigh : OfJob → ℕ) → taken_weight weigh racks ≡ 0) }
        ensures room { IfOk result (All IsRoomy) }
    {
        let mut racks = Racks::empty(alloc)?;
        while racks.len() < workers {
            match Rack::new(alloc) {
                Ok(rack) => racks = racks.with(rack),
                Err(AllocError) => {
                    racks.destroy();
                    return Err(AllocError);
                }
            }
        }
        Ok(racks)
    }

    /// How many there are.
    pub(crate) fn len(&self) -> usize
        ensures exact { result ≡ length self.now }
        ensures few { result ≤ 16 }
    {
        self.full.len()
    }

    /// With one more.
    pub(crate) fn with(self, rack: Rack) -> Racks
        requires { length self < 16 }
        ensures { result ≡ self ++ rack ∷ [] }
    {
        let Racks { mut full, spare } = self;
        full.push_reserved(rack);
        Racks { full, spare }
    }

    /// Takes one out.
    pub(crate) fn pop(&mut self) -> Option<Rack>
        ensures some { IfSome result (λ rack. self.old ≡ self.new ++ rack ∷ []) }
        ensures none { IfNone result (self.old ≡ []) }
        ensures left { IfNone result (self.new ≡ []) }
    {
        self.full.pop()
    }

    /// Gives each worker a taker of one queue more.
    pub(crate) fn deal(self, ends: Ends) -> (Racks, Ends)
        requires each { ends.here ≡ length self }
        requires room { All IsRoomy self × All (λ (r : OfRack). length r.queues < 64) self }
        ensures next { (queues : List QueueId) → All (IsFor queues) self → All (IsFor (queues ++ ends.queue ∷ [])) result.0 }
        ensures room { All IsRoomy result.0 }
        ensures each { length result.0 ≡ length self }
        ensures away { (result.1.queue ≡ ends.queue) × (result.1.here ≡ 0) × (result.1.room ≡ ends.room) × (result.1.stored ≡ ends.stored) }
        ensures same { (weigh : OfJob → ℕ) → taken_weight weigh result.0 + sum_by weigh (taken_by result.1.takers) ≡ taken_weight weigh self + sum_by weigh (taken_by ends.takers) }
    {
        let Racks {
            full: mut left,
            spare: mut dealt,
        } = self;
        let mut ends = ends;
        while let Some(rack) = left.pop() {
            dealt.push_reserved(rack.with(ends.take()));
        }
        let racks = Racks {
            full: dealt,
            spare: left,
        };
        (racks, ends)
    }

    /// Takes the taker of the last queue back from each worker.
    pub(crate) fn collect(self, ends: Ends) -> (Racks, Ends)
        requires last { (queues : List QueueId) × All (IsFor (queues ++ ends.queue ∷ [])) self }
        requires room { (ends.here ≡ 0) × (length self ≤ ends.room) }
        ensures others { (queues : List QueueId) → All (IsFor (queues ++ ends.queue ∷ [])) self → All (IsFor queues) result.0 }
        ensures each { length result.0 ≡ length self }
        ensures here { (result.1.queue ≡ ends.queue) × (result.1.here ≡ length self) × (result.1.stored ≡ ends.stored) }
        ensures same { (weigh : OfJob → ℕ) → taken_weight weigh result.0 + sum_by weigh (taken_by result.1.takers) ≡ taken_weight weigh self + sum_by weigh (taken_by ends.takers) }
    {
        let Racks {
            full: mut left,
            spare: mut done,
        } = self;
        let mut ends = ends;
        while let Some(rack) = left.pop() {
            let (rack, taker) = rack.without();
            ends.put(taker);
            done.push_reserved(rack);
        }
        let racks = Racks {
            full: done,
            spare: left,
        };
        (racks, ends)
    }

    /// Puts racks away that have no taker any more.
    pub(crate) fn destroy(self)
        requires { All (IsFor []) self }
        ensures { (weigh : OfJob → ℕ) → taken_weight weigh self ≡ 0 }
    {
        let Racks {
            full: mut left,
            spare,
        } = self;
        while let Some(rack) = left.pop() {
            rack.destroy();
        }
        left.destroy_empty();
        spare.destroy_empty();
    }
}
