//! One turn of a worker at an arena.
ghost use Rattle.std.specs.Prelude.{◌≡◌, ◌++◌, All, IfNone, IfSome, neg_ℤ, pos};
ghost use Rattle.worker_main.specs.Books.{HasLackedPlaces, HasRefused, IfFull, IfShut, results};
ghost use Rattle.worker_main.specs.Steps.{HasGivenBack, HasGoneOn, HasLooked, HasPopped, HasTurned, IfShutOut, IsBrokenOff, IsFault, still_held};
ghost use Rattle.plan_jobs.specs.declared.task.Done.{Done};

use crate::gate::{Gate, is_let_through};
use crate::report::Ended;
use crate::station::Station;
use job_queue::Taker;
use market_lock::{Office, Pass, Placed, Stayed};
use market_types::Cmd;
use plan_jobs::{Done, Job};
use std::alloc::Global;
use std::sync::Wait;

/// What came of looking for a job.
pub(crate) enum Looked {
    /// One was taken and run.
    Ran,
    /// There was none.
    Empty,
    /// This one was taken, and not let through.
    Shut(Job),
    /// There was no memory for a result.
    NoRoom,
}

/// Takes the station's next job, and runs it where the gate lets it through. There is room for the result before it is taken.
fn run_next<G: Gate, R: Wait>(
    rt: &R,
    station: &Station,
    taker: &mut Taker<Job>,
    gate: &G,
    turns: u64,
    done: &mut Vec<Done>,
) -> Looked
    requires queue { taker.old.queue ≡ station.now.queue.id }
    ensures exact { HasLooked taker.old (results done.old.items) result taker.new (results done.new.items) }
    ensures gate { All (λ (d : Done). G.passed gate.now d.number × G.told gate.now d.number) done.old.items → All (λ (d : Done). G.passed gate.now d.number × G.told gate.now d.number) done.new.items }
    ensures shut { IfShutOut result (λ job. HasRefused (G.refused gate.now) job.number turns) }
{
    let Ok(()) = done.reserve(1) else {
        return Looked::NoRoom;
    };
    let Some(job) = station.queue.pop(rt, taker) else {
        return Looked::Empty;
    };
    if !is_let_through(gate, job.number, turns) {
        return Looked::Shut(job);
    }
    done.push_reserved(job.run());
    gate.after(job.number);
    Looked::Ran
}

/// So much less.
fn less_by(number: u16) -> i32
    ensures { result ≡ neg_ℤ (pos number) }
{
    -i32::from(number)
}

/// Gives the station's request back, whatever the market says to that, and leaves its arena. `Some` tells that the office did
/// not answer.
fn give_back<R: Wait>(
    rt: &R,
    alloc: Global,
    office: &Office,
    placed: Placed,
    station: &Station,
) -> (Pass, Option<Ended>)
    requires office { placed.who.table ≡ office.now.table }
    requires arena { placed.arena ≡ station.now.arena }
    ensures same { HasGoneOn placed.who result.0 }
    ensures back { IfNone result.1 (HasGivenBack station.now placed.who result.0) }
    ensures fault { IfSome result.1 IsFault }
    ensures full { IfSome result.1 (λ ended. IfFull ended (HasLackedPlaces placed.who result.0)) }
{
    let mut placed = placed;
    let less = Cmd::Request(
        station.arena,
        less_by(station.wanted),
        less_by(station.mandatory),
    );
    if let Err(fault) = office.call_placed(rt, alloc, &mut placed, less) {
        return (office.leave(rt, placed), Some(Ended::Call(fault)));
    }
    (office.leave(rt, placed), None)
}

/// Takes the station's jobs and runs them, until the worker is recalled or there is none left: then its request is given back.
/// `Some` tells why the turn was broken off. The worker has left in every case.
pub(crate) fn take_turn<G: Gate, R: Wait>(
    rt: &R,
    alloc: Global,
    office: &Office,
    placed: Placed,
    station: &Station,
    taker: &mut Taker<Job>,
    gate: &G,
    turns: u64,
    done: &mut Vec<Done>,
) -> (Pass, Option<Ended>)
    requires office { placed.who.table ≡ office.now.table }
    requires arena { placed.arena ≡ station.now.arena }
    requires queue { taker.old.queue ≡ station.now.queue.id }
    ensures same { HasGoneOn placed.who result.0 }
    ensures jobs { HasPopped taker.old (results done.old.items) taker.new (results done.new.items ++ still_held result.1) }
    ensures turn { IfNone result.1 (HasTurned station.now taker.old taker.new placed.who result.0) }
    ensures ended { IfSome result.1 IsBrokenOff }
    ensures full { IfSome result.1 (λ ended. IfFull ended (HasLackedPlaces placed.who result.0)) }
    ensures gate { All (λ (d : Done). G.passed gate.now d.number × G.told gate.now d.number) done.old.items → All (λ (d : Done). G.passed gate.now d.number × G.told gate.now d.number) done.new.items }
    ensures shut { IfSome result.1 (λ ended. IfShut ended (λ job. HasRefused (G.refused gate.now) job.number turns)) }
{
    let mut placed = placed;
    for _ in rt.forever() {
        match run_next(rt, station, taker, gate, turns, done) {
            Looked::Ran => {}
            Looked::Empty => return give_back(rt, alloc, office, placed, station),
            Looked::Shut(job) => return (office.leave(rt, placed), Some(Ended::GateShut(job))),
            Looked::NoRoom => return (office.leave(rt, placed), Some(Ended::Memory)),
        }
        match office.stay(rt, alloc, placed) {
            Stayed::Stays(stays) => placed = stays,
            Stayed::Recalled(pass) => return (pass, None),
            Stayed::Failed(worker, fault) => {
                return (office.leave(rt, worker), Some(Ended::Call(fault)));
            }
        }
    }
    unreachable!()
}
