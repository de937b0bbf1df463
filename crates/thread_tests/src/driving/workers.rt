//! One worker in the calling thread, at the two stations of a plan: 8 slots each; arena 1 wants two workers and has two jobs,
//! arena 2, of the level below, wants one worker and has one job.
ghost use Rattle.std.specs.Prelude.{◌≡◌, ◌≢◌, ◌≤◌, ◌∷◌, [], length, vec_capacity, false};
ghost use Rattle.job_queue.specs.Seen.{AreAllOf, fresh_feeder, fresh_taker};
ghost use Rattle.market_types.specs.Commands.{moves_seat};

use crate::asserts::{holds, same};
use edit_history::CallFault;
use job_queue::{Feeder, JobQueue, Taker};
use market_lock::{Closed, Office, Pass, Placed};
use market_types::{ArenaId, Cmd, Level, OpenFault};
use plan_jobs::{Done, Job, Task};
use std::alloc::Global;
use std::process::Abort;
use std::rt::HostRuntime;
use std::sync::Wait;
use std::sync::atomic::{AtomicU64, Ordering};
use worker_main::{Ended, Gate, OpenGate, Report, Station, work};

const FIRST: Job = Job {
    number: 1,
    task: Task::Sum(10),
};

const SECOND: Job = Job {
    number: 2,
    task: Task::Digits(9_081),
};

const THIRD: Job = Job {
    number: 3,
    task: Task::Sum(100),
};

/// A station with the passes of its queue.
struct Stocked {
    station: Station,
    feeders: Vec<Feeder<Job>>,
    taker: Taker<Job>,
}

/// What a worker left: also the oldest job that is left in each queue.
#[derive(Drop)]
struct Left {
    closed: Closed,
    done: Vec<Done>,
    ended: Ended,
    first: Result<(), Job>,
    second: Result<(), Job>,
}

/// Lets each job through whose number is less.
#[derive(Drop)]
struct UpTo(u32);

impl Gate for UpTo {
    fn before(&self, number: u32, earlier: u64) -> bool {
        let _ = earlier;
        number < self.0
    }

    fn after(&self, number: u32) {
        let _ = number;
    }
}

/// Lets each job through that is asked about a second time, and keeps what it was told: 1 for job 1, 10 for job 2, 100 for job 3.
#[derive(Drop)]
struct Second {
    asked: AtomicU64,
    told: AtomicU64,
}

impl Gate for Second {
    fn before(&self, number: u32, earlier: u64) -> bool {
        let _ = earlier;
        self.asked.swap(u64::from(number), Ordering::SeqCst) == u64::from(number)
    }

    fn after(&self, number: u32) {
        let worth = match number {
            1 => 1,
            2 => 10,
            3 => 100,
            _ => 1_000,
        };
        self.told.fetch_add(worth, Ordering::SeqCst);
    }
}

/// Lets a job through at the question of this number about it, and digests what it was asked and told, in order.
#[derive(Drop)]
struct Patient {
    opens_at: u64,
    asked: AtomicU64,
    events: AtomicU64,
}

impl Patient {
    fn new(opens_at: u64) -> Patient {
        Patient {
            opens_at,
            asked: AtomicU64::new(0),
            events: AtomicU64::new(0),
        }
    }

    fn note(&self, event: u64) {
        let events = self.events.load(Ordering::SeqCst);
        self.events
            .store(with_event(events, event), Ordering::SeqCst);
    }
}

impl Gate for Patient {
    fn before(&self, number: u32, earlier: u64) -> bool {
        self.note(question_about(number, earlier));
        let asked = self.asked.fetch_add(1, Ordering::SeqCst);
        let opens = asked.wrapping_add(1) == self.opens_at;
        if opens {
            self.asked.store(0, Ordering::SeqCst);
        }
        opens
    }

    fn after(&self, number: u32) {
        self.note(end_of(number));
    }
}

/// What is noted of a question about a job after so many earlier ones.
fn question_about(number: u32, earlier: u64) -> u64 {
    earlier
        .wrapping_mul(1_000)
        .wrapping_add(u64::from(number) * 2)
}

fn end_of(number: u32) -> u64 {
    u64::from(number) * 2 + 1
}

/// The digest with one event more.
fn with_event(events: u64, event: u64) -> u64 {
    events.wrapping_mul(65_599).wrapping_add(event)
}

/// A queue of eight places with one feeder and one taker, made again where a growth was refused.
fn new_queue(rt: &impl Abort, alloc: Global) -> (JobQueue<Job>, Vec<Feeder<Job>>, Vec<Taker<Job>>)
    ensures all { AreAllOf result.0.id result.1.items result.2.items }
    ensures feeders { result.1.items ≡ fresh_feeder result.0.id 0 ∷ [] }
    ensures takers { result.2.items ≡ fresh_taker result.0.id 1 ∷ [] }
{
    if let Ok(queue) = JobQueue::<Job>::new(alloc, 8, 1, 1) {
        return queue;
    }
    let Ok(queue) = JobQueue::<Job>::new(alloc, 8, 1, 1) else {
        panic!(rt; "no queue");
    };
    queue
}

/// A station whose queue has these jobs.
fn stock_of<R: Wait + Abort>(
    rt: &R,
    alloc: Global,
    arena: ArenaId,
    wanted: u16,
    jobs: &[Job],
) -> Stocked
    ensures arena { result.station.arena ≡ arena }
    ensures all { AreAllOf result.station.queue.id result.feeders.items (result.taker ∷ []) }
{
    let (queue, mut feeders, mut takers) = new_queue(rt, alloc);
    let Some(mut feeder) = feeders.pop() else {
        unreachable!()
    };
    let Some(taker) = takers.pop() else {
        unreachable!()
    };
    takers.destroy_empty();
    for job in jobs {
        holds(rt, feeder.room() > 0);
        holds(rt, queue.push(rt, &mut feeder, *job).is_ok());
    }
    feeders.push_reserved(feeder);
    Stocked {
        station: Station {
            arena,
            wanted,
            mandatory: 0,
            queue,
        },
        feeders,
        taker,
    }
}

/// Room for so many, asked for again where there was none.
fn with_room<T, R: Abort>(rt: &R, alloc: Global, count: usize) -> Vec<T>
    ensures empty { result.items ≡ [] }
    ensures room { count ≤ vec_capacity result }
{
    if let Ok(room) = Vec::with_capacity(alloc, count) {
        return room;
    }
    let Ok(room) = Vec::with_capacity(alloc, count) else {
        panic!(rt; "no memory");
    };
    room
}

/// The oldest job that is left at a station.
fn settled<R: Wait + Abort>(
    rt: &R,
    alloc: Global,
    station: Station,
    feeders: Vec<Feeder<Job>>,
    taker: Taker<Job>,
) -> Result<(), Job>
    requires all { AreAllOf station.queue.id feeders.items (taker ∷ []) }
{
    let mut takers = with_room::<Taker<Job>, R>(rt, alloc, 1);
    takers.push_reserved(taker);
    let Station {
        arena: _,
        wanted: _,
        mandatory: _,
        queue,
    } = station;
    queue.settle(rt, feeders, takers)
}

/// Two in a list.
fn pair<T, R: Abort>(rt: &R, alloc: Global, first: T, second: T) -> Vec<T>
    ensures { result.items ≡ first ∷ second ∷ [] }
{
    let mut both = with_room::<T, R>(rt, alloc, 2);
    both.push_reserved(first);
    both.push_reserved(second);
    both
}

/// The two of a list.
fn unpair<T>(both: Vec<T>) -> (T, T)
    requires { length both.items ≡ 2 }
    ensures { both.items ≡ result.0 ∷ result.1 ∷ [] }
{
    let mut both = both;
    let Some(second) = both.pop() else {
        unreachable!()
    };
    let Some(first) = both.pop() else {
        unreachable!()
    };
    both.destroy_empty();
    (first, second)
}

/// Gives a command, once more where a growth was refused.
fn tell<R: Wait + Abort>(rt: &R, alloc: Global, office: &Office, pass: &mut Pass, cmd: &Cmd)
    requires own { pass.old.table ≡ office.now.table }
    requires still { moves_seat cmd.now ≡ false }
    ensures own { pass.new.table ≡ office.now.table }
{
    if office.call(rt, alloc, pass, *cmd).is_ok() {
        return;
    }
    let again = office.call(rt, alloc, pass, *cmd);
    holds(rt, again.is_ok());
}

/// The arenas are opened, and ask for their workers.
fn set_up<R: Wait + Abort>(rt: &R, alloc: Global, office: &Office, pass: &mut Pass)
    requires { pass.old.table ≡ office.now.table }
    ensures { pass.new.table ≡ office.now.table }
{
    let first = Cmd::Open(8, 1, Level::from_index(1));
    tell(rt, alloc, office, pass, &first);
    let second = Cmd::Open(8, 1, Level::from_index(2));
    tell(rt, alloc, office, pass, &second);
    let of_first = Cmd::Request(ArenaId::new(1), 2, 0);
    tell(rt, alloc, office, pass, &of_first);
    let of_second = Cmd::Request(ArenaId::new(2), 1, 0);
    tell(rt, alloc, office, pass, &of_second);
}

/// The pass works at two stations, and all that it works with is taken back.
fn worked<G: Gate, R: Wait + Abort>(
    rt: &R,
    alloc: Global,
    office: &Office,
    pass: Pass,
    first: Stocked,
    second: Stocked,
    gate: &G,
) -> (Pass, Vec<Done>, Ended, Result<(), Job>, Result<(), Job>)
    requires own { pass.table ≡ office.now.table }
    requires first { AreAllOf first.station.queue.id first.feeders.items (first.taker ∷ []) }
    requires second { AreAllOf second.station.queue.id second.feeders.items (second.taker ∷ []) }
    requires arenas { first.station.arena ≢ second.station.arena }
    ensures own { result.0.table ≡ office.now.table }
{
    let Stocked {
        station: one,
        feeders: feeders_one,
        taker: taker_one,
    } = first;
    let Stocked {
        station: two,
        feeders: feeders_two,
        taker: taker_two,
    } = second;
    let takers = pair(rt, alloc, taker_one, taker_two);
    let stations = pair(rt, alloc, one, two);
    let Report {
        pass,
        takers,
        done,
        ended,
    } = work(
        rt,
        alloc,
        office,
        pass,
        stations.as_slice(),
        takers,
        gate,
        3,
    );
    let (one, two) = unpair(stations);
    let (taker_one, taker_two) = unpair(takers);
    let left_one = settled(rt, alloc, one, feeders_one, taker_one);
    let left_two = settled(rt, alloc, two, feeders_two, taker_two);
    (pass, done, ended, left_one, left_two)
}

/// An office of one seat with a history of so many places, whose one worker works; none where there was no memory to open it.
fn left_if_opened<G: Gate, R: Wait + Abort>(
    rt: &R,
    alloc: Global,
    places: u32,
    gate: &G,
) -> Option<Left> {
    let (office, mut passes) = match Office::open(alloc, 8, 64, 1, places, 3) {
        Ok(opened) => opened,
        Err(fault) => {
            same(rt, fault, OpenFault::Memory);
            return None;
        }
    };
    let Some(mut pass) = passes.pop() else {
        unreachable!()
    };
    set_up(rt, alloc, &office, &mut pass);
    let first = stock_of(rt, alloc, ArenaId::new(1), 2, &[FIRST, SECOND]);
    let second = stock_of(rt, alloc, ArenaId::new(2), 1, &[THIRD]);
    let (pass, done, ended, first, second) = worked(rt, alloc, &office, pass, first, second, gate);
    passes.push_reserved(pass);
    Some(Left {
        closed: office.close(passes, Vec::<Placed>::new(alloc)),
        done,
        ended,
        first,
        second,
    })
}

fn left_by<G: Gate, R: Wait + Abort>(rt: &R, alloc: Global, places: u32, gate: &G) -> Left {
    let Some(left) = left_if_opened(rt, alloc, places, gate) else {
        panic!(rt; "no office");
    };
    left
}

/// Whether no worker is at either arena.
fn are_empty(closed: &Closed) -> bool {
    let market = closed.chronicle.market();
    [1, 2].iter().all(
        |number| matches!(market.view(ArenaId::new(*number)), Some(arena) if arena.active == 0),
    )
}

/// The answers of the jobs are the first ones of these.
fn are_first(rt: &impl Abort, done: &[Done]) {
    let due = [(1, 55), (2, 18), (3, 5_050)];
    let told = done.iter().map(|done| (done.number, done.value));
    holds(rt, told.eq(due.into_iter().take(done.len())));
}

/// All jobs are done.
fn is_whole(rt: &impl Abort, left: &Left) {
    same(rt, left.ended, Ended::Idle);
    same(rt, left.done.len(), 3);
    are_first(rt, &left.done);
    // Four calls before, five at arena 1, four at arena 2, and the last Join.
    same(rt, (left.closed.calls, left.closed.workers), (14, 0));
    holds(rt, are_empty(&left.closed));
    same(rt, (left.first, left.second), (Ok(()), Ok(())));
}

#[test]
fn a_worker_does_all_jobs(rt: HostRuntime) {
    let left = left_by(&rt, rt.alloc(), 100, &OpenGate);
    is_whole(&rt, &left);
    drop(left);
}

/// A worker that wants memory in vain has left its arena, and has an answer for each job that it took.
fn wants_memory(rt: &impl Abort, left: &Left) {
    holds(
        rt,
        left.ended == Ended::Memory || left.ended == Ended::Call(CallFault::Memory),
    );
    same(rt, left.closed.workers, 0);
    holds(rt, are_empty(&left.closed));
    are_first(rt, &left.done);
    let oldest = match left.done.len() {
        0 => (Err(FIRST), Err(THIRD)),
        1 => (Err(SECOND), Err(THIRD)),
        2 => (Ok(()), Err(THIRD)),
        _ => (Ok(()), Ok(())),
    };
    same(rt, (left.first, left.second), oldest);
}

#[test]
fn a_refused_growth_ends_the_worker(rt: HostRuntime) {
    let Some(left) = left_if_opened(&rt, rt.alloc(), 100, &OpenGate) else {
        return;
    };
    if left.ended == Ended::Idle {
        is_whole(&rt, &left);
    } else {
        wants_memory(&rt, &left);
    }
    drop(left);
}

#[test]
fn each_job_is_told_once(rt: HostRuntime) {
    let gate = Second {
        asked: AtomicU64::new(0),
        told: AtomicU64::new(0),
    };
    let left = left_by(&rt, rt.alloc(), 100, &gate);
    same(&rt, left.ended, Ended::Idle);
    same(&rt, gate.told.load(Ordering::SeqCst), 111);
    drop(left);
}

/// A worker asks three times at most. This refuses one that asks once more or once less, about another job, or tells another's end.
#[test]
fn each_job_is_asked_about_until_it_may_run_and_then_told(rt: HostRuntime) {
    let gate = Patient::new(3);
    let left = left_by(&rt, rt.alloc(), 100, &gate);
    same(&rt, left.ended, Ended::Idle);
    let mut due = 0;
    for number in 1..=3 {
        for earlier in 0..3 {
            due = with_event(due, question_about(number, earlier));
        }
        due = with_event(due, end_of(number));
    }
    same(&rt, gate.events.load(Ordering::SeqCst), due);
    drop(left);
}

#[test]
fn a_gate_that_would_open_at_the_fourth_question_is_asked_three_times(rt: HostRuntime) {
    let gate = Patient::new(4);
    let left = left_by(&rt, rt.alloc(), 100, &gate);
    same(&rt, left.ended, Ended::GateShut(FIRST));
    same(&rt, gate.asked.load(Ordering::SeqCst), 3);
    let mut due = 0;
    for earlier in 0..3 {
        due = with_event(due, question_about(1, earlier));
    }
    same(&rt, gate.events.load(Ordering::SeqCst), due);
    drop(left);
}

#[test]
fn a_gate_that_stays_shut_ends_the_worker(rt: HostRuntime) {
    let left = left_by(&rt, rt.alloc(), 100, &UpTo(1));
    same(&rt, left.ended, Ended::GateShut(FIRST));
    holds(&rt, left.done.is_empty());
    same(&rt, (left.closed.calls, left.closed.workers), (6, 0));
    holds(&rt, are_empty(&left.closed));
    same(&rt, (left.first, left.second), (Err(SECOND), Err(THIRD)));
    drop(left);
}

#[test]
fn a_shut_gate_names_its_job(rt: HostRuntime) {
    let left = left_by(&rt, rt.alloc(), 100, &UpTo(2));
    same(&rt, left.ended, Ended::GateShut(SECOND));
    same(&rt, left.done.len(), 1);
    same(&rt, (left.closed.calls, left.closed.workers), (7, 0));
    same(&rt, (left.first, left.second), (Ok(()), Err(THIRD)));
    drop(left);
}

#[test]
fn a_full_history_ends_the_worker(rt: HostRuntime) {
    // The Join is the fifth entry, and the last place is for the Leave.
    let left = left_by(&rt, rt.alloc(), 6, &OpenGate);
    same(&rt, left.ended, Ended::Call(CallFault::HistoryFull));
    same(&rt, left.done.len(), 1);
    same(&rt, (left.closed.calls, left.closed.workers), (6, 0));
    same(&rt, (left.first, left.second), (Err(SECOND), Err(THIRD)));
    drop(left);
    let left = left_by(&rt, rt.alloc(), 5, &OpenGate);
    same(&rt, left.ended, Ended::Call(CallFault::HistoryFull));
    holds(&rt, left.done.is_empty());
    same(&rt, (left.closed.calls, left.closed.workers), (4, 0));
    drop(left);
}

/// The same without stations.
fn left_without_stations<R: Wait + Abort>(rt: &R, alloc: Global) -> (Closed, Ended) {
    let Ok((office, mut passes)) = Office::open(alloc, 8, 64, 1, 100, 3) else {
        panic!(rt; "no office");
    };
    let Some(mut pass) = passes.pop() else {
        unreachable!()
    };
    set_up(rt, alloc, &office, &mut pass);
    let Report {
        pass,
        takers,
        done,
        ended,
    } = work(rt, alloc, &office, pass, &[], Vec::new(alloc), &OpenGate, 3);
    takers.destroy_empty();
    holds(rt, done.is_empty());
    passes.push_reserved(pass);
    let closed = office.close(passes, Vec::<Placed>::new(alloc));
    (closed, ended)
}

#[test]
fn an_arena_without_a_station_ends_the_worker(rt: HostRuntime) {
    let (closed, ended) = left_without_stations(&rt, rt.alloc());
    same(&rt, ended, Ended::NoStation(ArenaId::new(1)));
    same(&rt, (closed.calls, closed.workers), (6, 0));
    holds(&rt, are_empty(&closed));
}
