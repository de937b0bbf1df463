//! The queue.
ghost use Rattle.std.specs.Prelude.{◌≡◌, ◌<◌, ◌≤◌, [], map, length, IfOk, IfErr, OnOk, OnErr, IfSome, IfNone};
ghost use Rattle.std.specs.List.{range_with_len};
ghost use Rattle.job_queue.specs.Seen.{fresh_feeder, fresh_taker, stored_one, missed_one, WasFull, WasEmpty, HasTakenNext, AreAllOf, HaveOwnNumbers, AllTaken, Meet, IsLeft};

use crate::dealing::{deal_feeders, deal_takers, promise_feeders, promise_takers};
use crate::pass::{Feeder, Taker};
use crate::rule::{Close, Miss, Ring, Store, Take};
use crate::settling::absorb_all;
use crate::view::Fed;
use std::alloc::{AllocError, Global};
use std::marker::Model;
use std::sync::Wait;

/// Jobs that go from feeders to takers, first in, first out. Threads share it by `&`.
pub struct JobQueue<J> {
    ring: Ring<J>,
    feeders: u64,
    takers: u64,
}

impl<J> Model for JobQueue<J> {
    ghost use Rattle.std.specs.Prelude.{◌<◌};
    ghost use Rattle.crossbeam_queue.specs.Passes.{ruled_capacity};
    ghost use Rattle.job_queue.specs.Seen.{OfQueue, queue_id, queue_of};

    ghost Value = { OfQueue };

    ghost view = { λ q. queue_of (queue_id q.ring.table.shared.table_id q.feeders q.takers) (ruled_capacity q.ring) };

    ghost invariant = { λ q. (0 < q.feeders) × (0 < q.takers) };
}

impl<J: Drop> JobQueue<J> {
    /// An empty queue with room for so many jobs, and its feeders and takers, which did nothing yet. The feeders are numbered from
    /// 0 on, and the takers after them. It doesn't wait, and fails only where memory is wanting.
    pub fn new(
        alloc: Global,
        capacity: usize,
        feeders: usize,
        takers: usize,
    ) -> Result<(JobQueue<J>, Vec<Feeder<J>>, Vec<Taker<J>>), AllocError>
        requires capacity { (0 < capacity) × (capacity ≤ 65536) }
        requires feeders { (0 < feeders) × (feeders ≤ 16) }
        requires takers { (0 < takers) × (takers ≤ 16) }
        ensures queue { IfOk result (λ q. (q.0.capacity ≡ capacity) × (q.0.id.feeders ≡ feeders) × (q.0.id.takers ≡ takers)) }
        ensures all { IfOk result (λ q. AreAllOf q.0.id q.1.items q.2.items) }
        ensures feeders { IfOk result (λ q. q.1.items ≡ map (fresh_feeder q.0.id) (range_with_len 0 feeders)) }
        ensures takers { IfOk result (λ q. q.2.items ≡ map (fresh_taker q.0.id) (range_with_len feeders takers)) }
    {
        let (ring, mut maker) = Ring::ruled(alloc, capacity)?;
        let first = Vec::with_capacity(alloc, feeders)?;
        let Ok(second) = Vec::with_capacity(alloc, takers) else {
            first.destroy_empty();
            return Err(AllocError);
        };
        let feeders = feeders as u64;
        let takers = takers as u64;
        promise_feeders(&ring, &mut maker, feeders);
        promise_takers(&ring, &mut maker, feeders, takers);
        let first = deal_feeders(&ring, &mut maker, first, feeders, takers);
        let second = deal_takers(&ring, &mut maker, second, feeders, takers);
        let queue = JobQueue {
            ring,
            feeders,
            takers,
        };
        Ok((queue, first, second))
    }

    /// With all of its passes a queue ends. `Ok` where it holds no job: each job that was stored was then taken by exactly one pop.
    /// `Err` gives the oldest job that is left, which no pop took; the others that are left are dropped. It takes no memory.
    pub fn settle<R: Wait>(
        self,
        rt: &R,
        feeders: Vec<Feeder<J>>,
        takers: Vec<Taker<J>>,
    ) -> Result<(), J>
        requires all { AreAllOf self.id feeders.items takers.items }
        ensures numbers { HaveOwnNumbers feeders.items }
        ensures once { OnOk result (AllTaken feeders.items takers.items) }
        ensures order { OnOk result (Meet feeders.items takers.items []) }
        ensures left { IfErr result (λ job. IsLeft feeders.items takers.items job) }
    {
        let JobQueue {
            ring,
            feeders: _,
            takers: _,
        } = self;
        let mut all = absorb_all(&ring, feeders, takers);
        match ring.pop_as::<Close, R>(rt, &mut all) {
            Some(fed) => Err(fed.into_job()),
            None => Ok(()),
        }
    }
}

impl<J> JobQueue<J> {
    /// Stores a job at the back. It comes back where the queue was full at one moment of the call; the feeder is then as it was.
    /// The only feeder of a queue gets a job back only where it has stored as many as the queue has room for: so it stores that many
    /// whatever the takers do. It takes no memory, and takes as long for a full queue as for an empty one, other callers aside.
    pub fn push<R: Wait>(&self, rt: &R, feeder: &mut Feeder<J>, job: J) -> Result<(), J>
        requires queue { feeder.old.queue ≡ self.now.id }
        requires room { length feeder.old.stored < 1048576 }
        ensures stored { OnOk result (feeder.new ≡ stored_one feeder.old job) }
        ensures back { IfErr result (λ x. x ≡ job) }
        ensures same { OnErr result (feeder.new ≡ feeder.old) }
        ensures full { OnErr result (WasFull self.now feeder.old) }
        ensures only { OnErr result (self.now.id.feeders ≡ 1 → self.now.capacity ≤ length feeder.old.stored) }
    {
        let fed = Fed {
            feeder: feeder.number,
            place: feeder.stored,
            job,
        };
        match self.ring.push_as::<Store, R>(rt, &mut feeder.hand, fed) {
            Ok(()) => {
                feeder.stored += 1;
                Ok(())
            }
            Err(fed) => Err(fed.into_job()),
        }
    }

    /// The job at the front, which no other pop gives. `None` where the queue was empty at one moment of the call; the taker
    /// counts it. It takes no memory.
    pub fn pop<R: Wait>(&self, rt: &R, taker: &mut Taker<J>) -> Option<J>
        requires queue { taker.old.queue ≡ self.now.id }
        ensures taken { IfSome result (λ job. HasTakenNext taker.old job taker.new) }
        ensures missed { IfNone result (taker.new ≡ missed_one taker.old) }
        ensures empty { IfNone result (WasEmpty taker.old) }
    {
        match self.ring.pop_as::<Take, R>(rt, &mut taker.hand) {
            Some(fed) => Some(fed.into_job()),
            None => {
                let _none = self.ring.another::<Miss>(&mut taker.hand);
                None
            }
        }
    }
}
