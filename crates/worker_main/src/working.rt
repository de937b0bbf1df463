//! The loop.
ghost use Rattle.std.specs.Prelude.{◌≡◌, ◌++◌, All, IfNone, IfSome, AllPairs, IsPermutation};
ghost use Rattle.std.specs.List.{AllZip};
ghost use mathlib.Core.List.{IsPrefix};
ghost use Rattle.job_queue.specs.Seen.{all_taken};
ghost use Rattle.market_lock.specs.Seen.{IsSamePass};
ghost use Rattle.worker_main.specs.Stations.{HaveOwnArenas, IsTakerOf, IsWithout};
ghost use Rattle.worker_main.specs.Turns.{AreTurnsOf, IsLastJoin, IsTurnOf};
ghost use Rattle.worker_main.specs.Books.{HasAdded, HasLackedPlaces, HasRefused, IfFull, IfIdle, IfNoStation, IfShut, IsTakerAfter, WasPlacedAt, jobs_of, kept_back, results};
ghost use Rattle.plan_jobs.specs.declared.task.Done.{Done};
ghost use Rattle.worker_main.specs.Steps.{HasEarned, HasGoneOn, still_held};

use crate::gate::Gate;
use crate::report::{Ended, Report};
use crate::station::{Station, station_of};
use crate::turn::take_turn;
use job_queue::Taker;
use market_lock::{Joined, Office, Pass};
use plan_jobs::{Done, Job};
use std::alloc::Global;
use std::sync::Wait;

/// One visit of the market: the worker joins, and where it is placed it takes a turn at that arena's station. `Some` tells why
/// there is to be no other.
fn visit<G: Gate, R: Wait>(
    rt: &R,
    alloc: Global,
    office: &Office,
    pass: Pass,
    stations: &[Station],
    takers: &mut Vec<Taker<Job>>,
    gate: &G,
    turns: u64,
    done: &mut Vec<Done>,
) -> (Pass, Option<Ended>)
    requires office { pass.table ≡ office.now.table }
    requires takers { AllZip IsTakerOf stations.now takers.old.items }
    requires arenas { AllPairs HaveOwnArenas stations.now }
    ensures same { HasGoneOn pass result.0 }
    ensures takers { AllZip IsTakerAfter takers.old.items takers.new.items }
    ensures jobs { HasEarned takers.old.items (results done.old.items) takers.new.items (results done.new.items ++ still_held result.1) }
    ensures station { IfSome result.1 (λ ended. IfNoStation ended (IsWithout stations.now)) }
    ensures placed { IfSome result.1 (λ ended. IfNoStation ended (WasPlacedAt pass result.0)) }
    ensures turn { IfNone result.1 (HasAdded (IsTurnOf stations.now) stations.now takers.old.items takers.new.items pass result.0) }
    ensures idle { IfSome result.1 (λ ended. IfIdle ended (HasAdded IsLastJoin stations.now takers.old.items takers.new.items pass result.0)) }
    ensures full { IfSome result.1 (λ ended. IfFull ended (HasLackedPlaces pass result.0)) }
    ensures gate { All (λ (d : Done). G.passed gate.now d.number × G.told gate.now d.number) done.old.items → All (λ (d : Done). G.passed gate.now d.number × G.told gate.now d.number) done.new.items }
    ensures shut { IfSome result.1 (λ ended. IfShut ended (λ job. HasRefused (G.refused gate.now) job.number turns)) }
{
    let placed = match office.join(rt, alloc, pass) {
        Joined::Placed(placed) => placed,
        Joined::Idle(pass) => return (pass, Some(Ended::Idle)),
        Joined::Failed(pass, fault) => return (pass, Some(Ended::Call(fault))),
    };
    let arena = placed.arena();
    let Some((place, station)) = station_of(stations, arena) else {
        return (office.leave(rt, placed), Some(Ended::NoStation(arena)));
    };
    take_turn(
        rt,
        alloc,
        office,
        placed,
        station,
        &mut takers[place],
        gate,
        turns,
        done,
    )
}

/// Works with a pass until there is nothing left to do at these stations: taker k is of station k's queue.
///
/// It ends where no arena is in need of a worker (`Idle`); where it took a job and the gate was asked about it so many `turns` and
/// refused it at each (`GateShut`); where it was placed at an arena without a station (`NoStation`); where the office did not answer a call
/// (`Call`): `HistoryFull` only where places were lacking in the history as the caller saw it then; and where there was no memory
/// for a result (`Memory`), before a job is taken for it. The worker has left then, and pass, takers and results come back. Each
/// job that it answered the gate had let through, and was told of.
///
/// Jobs run, and the gate is asked, while no lock is held. What the market says to a request that is given back makes no
/// difference. Finding an arena's station takes a step for each station.
pub fn work<G: Gate, R: Wait>(
    rt: &R,
    alloc: Global,
    office: &Office,
    pass: Pass,
    stations: &[Station],
    takers: Vec<Taker<Job>>,
    gate: &G,
    turns: u64,
) -> Report<Pass>
    requires office { pass.table ≡ office.now.table }
    requires takers { AllZip IsTakerOf stations.now takers.items }
    requires arenas { AllPairs HaveOwnArenas stations.now }
    ensures same { IsSamePass pass result.pass }
    ensures seen { IsPrefix pass.seen result.pass.seen }
    ensures takers { AllZip IsTakerAfter takers.items result.takers.items }
    ensures jobs { IsPermutation (jobs_of (all_taken result.takers.items)) (jobs_of (all_taken takers.items) ++ (results result.done.items ++ kept_back result.ended)) }
    ensures station { IfNoStation result.ended (IsWithout stations.now) }
    ensures placed { IfNoStation result.ended (WasPlacedAt pass result.pass) }
    ensures turns { IfIdle result.ended (HasAdded (AreTurnsOf stations.now) stations.now takers.items result.takers.items pass result.pass) }
    ensures full { IfFull result.ended (HasLackedPlaces pass result.pass) }
    ensures gate { All (λ (d : Done). G.passed gate.now d.number × G.told gate.now d.number) result.done.items }
    ensures shut { IfShut result.ended (λ job. HasRefused (G.refused gate.now) job.number turns) }
{
    let mut pass = pass;
    let mut takers = takers;
    let mut done = Vec::new(alloc);
    for _ in rt.forever() {
        let (next, ended) = visit(
            rt,
            alloc,
            office,
            pass,
            stations,
            &mut takers,
            gate,
            turns,
            &mut done,
        );
        match ended {
            None => pass = next,
            Some(ended) => {
                return Report {
                    pass: next,
                    takers,
                    done,
                    ended,
                };
            }
        }
    }
    unreachable!()
}
