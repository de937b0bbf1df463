//! Producers and consumers at a queue of their own.
ghost use Rattle.std.specs.Prelude.{◌≡◌, ◌<◌, ◌≤◌, ℕ, All, IfOk, vec_len, vec_capacity};
ghost use Rattle.job_queue.specs.Seen.{AreAllOf, OfFeeder, OfTaker};

use crate::ends::{Consumer, Producer, Room};
use job_queue::{Feeder, JobQueue, Taker};
use std::alloc::{AllocError, Global};
use std::marker::Brand;
use std::sync::Wait;
use std::thread;
use std::thread::Threads;

/// What an exchange leaves.
#[derive(Drop)]
pub struct Exchanged {
    /// The jobs that each taker took, in its order.
    pub got: Vec<Vec<u64>>,
    /// A job that nobody took, where there is one.
    pub settled: Result<(), u64>,
}

fn produce<B: Room, R: Wait>(rt: &R, queue: &JobQueue<u64>, producer: &mut Producer<B>)
    requires { queue.now.id ≡ B.id }
{
    producer.run(rt, queue)
}

fn consume<B: Room, R: Wait>(rt: &R, queue: &JobQueue<u64>, consumer: &mut Consumer<B>)
    requires { queue.now.id ≡ B.id }
{
    consumer.run(rt, queue)
}

/// Each works in a thread of its own, or in this one where none can be made.
fn run_all<B: Room + Send + Sync, R: Threads + Wait + Sync>(
    rt: &R,
    queue: &JobQueue<u64>,
    producers: Vec<Producer<B>>,
    consumers: Vec<Consumer<B>>,
) -> (Vec<Producer<B>>, Vec<Consumer<B>>)
    requires { queue.now.id ≡ B.id }
    ensures producers { vec_len result.0 ≡ vec_len producers }
    ensures consumers { vec_len result.1 ≡ vec_len consumers }
{
    let mut producers = producers;
    let mut consumers = consumers;
    let feeding = producers.as_mut_slice();
    let taking = consumers.as_mut_slice();
    thread::scope(
        thread::scope_env(),
        rt,
        |scope|
            requires { queue.now.id ≡ B.id }
        {
            for producer in feeding {
                let started = scope.spawn(
                    move ||
                        requires { queue.now.id ≡ B.id }
                    { produce(rt, queue, producer) },
                );
                match started {
                    Ok(_handle) => {}
                    Err(refused) => (refused.value)(),
                }
            }
            for consumer in taking {
                let started = scope.spawn(
                    move ||
                        requires { queue.now.id ≡ B.id }
                    { consume(rt, queue, consumer) },
                );
                match started {
                    Ok(_handle) => {}
                    Err(refused) => (refused.value)(),
                }
            }
        },
    );
    (producers, consumers)
}

/// The feeder at the end stores the first jobs.
fn producers_of<B: Room>(
    feeders: &mut Vec<Feeder<u64>>,
    empty: Vec<Producer<B>>,
    jobs: u64,
) -> Vec<Producer<B>>
    requires own { All (λ (f : OfFeeder ℕ). f.queue ≡ B.id) feeders.old.items }
    requires room { (vec_len empty ≡ 0) × (vec_len feeders.old ≤ vec_capacity empty) }
    ensures all { vec_len result ≡ vec_len feeders.old }
    ensures none { vec_len feeders.new ≡ 0 }
    ensures capacity { vec_capacity feeders.new ≡ vec_capacity feeders.old }
{
    let mut producers = empty;
    let mut from: u64 = 0;
    while let Some(feeder) = feeders.pop() {
        producers.push_reserved(Producer::new(feeder, from, jobs));
        from = from.wrapping_add(jobs);
    }
    producers
}

/// A consumer with each taker.
fn consumers_of<B: Room>(
    alloc: Global,
    takers: &mut Vec<Taker<u64>>,
    empty: Vec<Consumer<B>>,
    jobs: u64,
) -> Vec<Consumer<B>>
    requires own { All (λ (t : OfTaker ℕ). t.queue ≡ B.id) takers.old.items }
    requires room { (vec_len empty ≡ 0) × (vec_len takers.old ≤ vec_capacity empty) }
    ensures all { vec_len result ≡ vec_len takers.old }
    ensures none { vec_len takers.new ≡ 0 }
    ensures capacity { vec_capacity takers.new ≡ vec_capacity takers.old }
{
    let mut consumers = empty;
    while let Some(taker) = takers.pop() {
        consumers.push_reserved(Consumer::new(taker, Vec::new(alloc), jobs));
    }
    consumers
}

/// The feeders of all producers.
fn take_feeders_back<B: Room>(producers: Vec<Producer<B>>, feeders: &mut Vec<Feeder<u64>>)
    requires room { (vec_len feeders.old ≡ 0) × (vec_len producers ≤ vec_capacity feeders.old) }
    ensures own { All (λ (f : OfFeeder ℕ). f.queue ≡ B.id) feeders.new.items }
    ensures all { vec_len feeders.new ≡ vec_len producers }
{
    let mut producers = producers;
    while let Some(producer) = producers.pop() {
        feeders.push_reserved(producer.into_feeder());
    }
    producers.destroy_empty();
}

/// The takers of all consumers, and what each took.
fn take_takers_back<B: Room>(
    consumers: Vec<Consumer<B>>,
    takers: &mut Vec<Taker<u64>>,
    got: &mut Vec<Vec<u64>>,
)
    requires room { (vec_len takers.old ≡ 0) × (vec_len consumers ≤ vec_capacity takers.old) }
    requires got { (vec_len got.old ≡ 0) × (vec_len consumers ≤ vec_capacity got.old) }
    ensures own { All (λ (t : OfTaker ℕ). t.queue ≡ B.id) takers.new.items }
    ensures all { (vec_len takers.new ≡ vec_len consumers) × (vec_len got.new ≡ vec_len consumers) }
{
    let mut consumers = consumers;
    while let Some(consumer) = consumers.pop() {
        let (taker, jobs) = consumer.into_parts();
        takers.push_reserved(taker);
        got.push_reserved(jobs);
    }
    consumers.destroy_empty();
}

/// Ends a queue that nobody has used.
fn no_memory<R: Wait>(
    rt: &R,
    queue: JobQueue<u64>,
    feeders: Vec<Feeder<u64>>,
    takers: Vec<Taker<u64>>,
) -> AllocError
    requires { AreAllOf queue.id feeders.items takers.items }
{
    drop(queue.settle(rt, feeders, takers));
    AllocError
}

/// The producers and consumers of a queue work, and it is settled.
fn met<B: Room + Send + Sync, R: Threads + Wait + Sync>(
    rt: &R,
    alloc: Global,
    queue: JobQueue<u64>,
    feeders: Vec<Feeder<u64>>,
    takers: Vec<Taker<u64>>,
    jobs: u64,
) -> Result<Exchanged, AllocError>
    requires room { queue.id ≡ B.id }
    requires all { AreAllOf queue.id feeders.items takers.items }
    ensures each { IfOk result (λ exchanged. vec_len exchanged.got ≡ vec_len takers) }
{
    let mut feeders = feeders;
    let mut takers = takers;
    let Ok(mut got) = Vec::<Vec<u64>>::with_capacity(alloc, takers.len()) else {
        return Err(no_memory(rt, queue, feeders, takers));
    };
    let Ok(producers) = Vec::<Producer<B>>::with_capacity(alloc, feeders.len()) else {
        return Err(no_memory(rt, queue, feeders, takers));
    };
    let Ok(consumers) = Vec::<Consumer<B>>::with_capacity(alloc, takers.len()) else {
        producers.destroy_empty();
        return Err(no_memory(rt, queue, feeders, takers));
    };
    let producers = producers_of(&mut feeders, producers, jobs);
    let consumers = consumers_of(alloc, &mut takers, consumers, jobs);
    let (producers, consumers) = run_all(rt, &queue, producers, consumers);
    take_feeders_back(producers, &mut feeders);
    take_takers_back(consumers, &mut takers, &mut got);
    let settled = queue.settle(rt, feeders, takers);
    Ok(Exchanged { got, settled })
}

/// So many feeders, and as many takers, 1 to 16 of each, meet at a queue with room for so many jobs, 1 to 65,536, each in a thread of
/// its own, or in the calling one where none can be made. Each feeder stores so many jobs: the numbers from 0 on, those of a feeder
/// one after the other. Each taker takes as many, and waits for them: for ever, where no thread can be made for who would store them.
pub fn exchange<R: Threads + Wait + Sync>(
    rt: &R,
    alloc: Global,
    capacity: usize,
    pairs: usize,
    jobs: u64,
) -> Result<Exchanged, AllocError>
    requires room { (0 < capacity) × (capacity ≤ 65536) }
    requires pairs { (0 < pairs) × (pairs ≤ 16) }
    requires few { jobs ≤ 1048576 }
    ensures each { IfOk result (λ exchanged. vec_len exchanged.got ≡ pairs) }
{
    let (queue, feeders, takers) = JobQueue::<u64>::new(alloc, capacity, pairs, pairs)?;
    met::<Brand, R>(rt, alloc, queue, feeders, takers, jobs)
}
