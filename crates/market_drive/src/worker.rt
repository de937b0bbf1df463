//! A worker of a plan, in a place that a thread can borrow.
ghost use Rattle.std.specs.Prelude.{◌≡◌, ◌<◌, ℕ, List, [], None, IsSomeAnd, All, AllPairs};
ghost use Rattle.market_lock.specs.Seen.{IsSamePass};
ghost use Rattle.office_crew.specs.Callers.{who_is};
ghost use Rattle.market_drive.specs.Racks.{IsFor};
ghost use Rattle.market_drive.specs.Lines.{queues_at};
ghost use Rattle.market_drive.specs.Jobs.{HasShown, taken_by};
ghost use Rattle.market_drive.specs.Causes.{CanEndAt, HasEndedSo, WasLetThrough};
ghost use Rattle.market_drive.specs.Opening.{HasTakenTurns};
ghost use Rattle.market_types.specs.declared.reply.Entry.{Entry};
ghost use Rattle.plan_jobs.specs.declared.task.Done.{Done as AnAnswer};
ghost use Rattle.worker_main.specs.Stations.{HaveOwnArenas};
ghost use Rattle.worker_main.specs.Turns.{AreTurnsOf};
ghost use Rattle.worker_main.specs.declared.report.Ended.{Ended as AnEnd};

use crate::racks::Rack;
use market_lock::{Office, Pass, Placed};
use office_crew::{Caller, Task};
use plan_jobs::Done;
use std::alloc::Global;
use std::marker::{Brand, Model, PhantomData};
use std::mem;
use std::sync::Wait;
use worker_main::{Ended, Gate, Report, Station, work};

/// How often a worker asks a gate at most, before it gives up.
const TURNS: u64 = 1_000_000;

/// Names the queues of one plan, how its workers can end, which calls they made where they ended because no work was left, and
/// what is so of each of their answers.
pub(crate) trait Yard {
    ghost use Rattle.std.specs.Prelude.{ℕ, List};
    ghost use Rattle.market_types.specs.declared.reply.Entry.{Entry};
    ghost use Rattle.job_queue.specs.Seen.{QueueId};
    ghost use Rattle.worker_main.specs.declared.report.Ended.{Ended};
    ghost use Rattle.plan_jobs.specs.declared.task.Done.{Done};

    ghost queues: { List QueueId };

    ghost ends: { Ended → Type 0 };

    ghost turns: { ℕ → List Entry → Type 0 };

    ghost answers: { Done → Type 0 };
}

impl Yard for Brand {
    ghost use Rattle.std.specs.Prelude.{[]};

    ghost queues = { [] };

    ghost ends = { λ _. Unit {0} };

    ghost turns = { λ _ _. Unit {0} };

    ghost answers = { λ _. Unit {0} };
}

/// A worker of the yard's queues. Its rack is away only while it works.
pub(crate) struct Worker<'a, G: Gate, Y: Yard> {
    stations: &'a [Station],
    gate: &'a G,
    rack: Option<Rack>,
    done: Vec<Done>,
    /// How it ended. `None` before it has worked.
    ended: Option<Ended>,
    yard: PhantomData<Y>,
}

impl<'a, G: Gate, Y: Yard> Model for Worker<'a, G, Y> {
    ghost use Rattle.std.specs.Prelude.{◌≡◌, ℕ, List, Option, IsSomeAnd, All, AllPairs};
    ghost use Rattle.market_types.specs.declared.reply.Entry.{Entry};
    ghost use Rattle.plan_jobs.specs.declared.task.Done.{Done};
    ghost use Rattle.worker_main.specs.Stations.{HaveOwnArenas};
    ghost use Rattle.worker_main.specs.Turns.{AreTurnsOf};
    ghost use Rattle.worker_main.specs.declared.report.Ended.{Ended};
    ghost use Rattle.market_drive.specs.Racks.{OfRack, IsFor};
    ghost use Rattle.market_drive.specs.Lines.{queues_at};
    ghost use Rattle.market_drive.specs.Jobs.{HasShown};
    ghost use Rattle.market_drive.specs.Causes.{CanEndAt, WasLetThrough};

    ghost Value = { Option Ended };

    ghost view = { λ w. w.ended };

    ghost invariant = { λ w. IsSomeAnd w.rack (λ (r : OfRack). IsFor Y.queues r × HasShown r.takers w.done.items w.ended) × (queues_at w.stations.now ≡ Y.queues) × AllPairs HaveOwnArenas w.stations.now × ((e : Ended) → CanEndAt w.stations.now (G.refused w.gate.now) e → Y.ends e) × All Y.answers w.done.items × ((d : Done) → WasLetThrough (G.passed w.gate.now) (G.told w.gate.now) d → Y.answers d) × ((seat : ℕ) (calls : List Entry) → AreTurnsOf w.stations.now seat calls → Y.turns seat calls) };
}

/// What a worker leaves.
pub(crate) struct Shift {
    pub(crate) rack: Rack,
    pub(crate) done: Vec<Done>,
    /// `None` where it has not worked.
    pub(crate) ended: Option<Ended>,
}

impl<'a, G: Gate, Y: Yard> Worker<'a, G, Y> {
    /// With this rack.
    pub(crate) fn new(alloc: Global, stations: &'a [Station], gate: &'a G, rack: Rack) -> Self
        requires rack { IsFor Y.queues rack }
        requires unused { taken_by rack.takers ≡ [] }
        requires stations { queues_at stations.now ≡ Y.queues }
        requires apart { AllPairs HaveOwnArenas stations.now }
        requires ends { (e : AnEnd) → CanEndAt stations.now (G.refused gate.now) e → Y.ends e }
        requires answers { (d : AnAnswer) → WasLetThrough (G.passed gate.now) (G.told gate.now) d → Y.answers d }
        requires turns { (seat : ℕ) (calls : List Entry) → AreTurnsOf stations.now seat calls → Y.turns seat calls }
        ensures { result ≡ None }
    {
        Worker {
            stations,
            gate,
            rack: Some(rack),
            done: Vec::new(alloc),
            ended: None,
            yard: PhantomData,
        }
    }

    /// Works with this pass for the first time, and gives it back.
    fn work_with<R: Wait>(&mut self, rt: &R, alloc: Global, office: &Office, pass: Pass) -> Pass
        requires office { pass.table ≡ office.now.table }
        requires first { self.old ≡ None }
        ensures same { IsSamePass pass result }
        ensures ended { IsSomeAnd self.new (λ ended. Y.ends ended × HasEndedSo pass result ended) }
        ensures turns { IsSomeAnd self.new (HasTakenTurns Y.turns pass result) }
    {
        let taken = self.rack.take();
        let Some(rack) = taken else { unreachable!() };
        let Report {
            pass,
            takers,
            done,
            ended,
        } = work(
            rt,
            alloc,
            office,
            pass,
            self.stations,
            rack.into_takers(),
            self.gate,
            TURNS,
        );
        let away = mem::replace(&mut self.rack, Some(Rack::of(takers)));
        let None = away else { unreachable!() };
        self.done = done;
        self.ended = Some(ended);
        pass
    }

    /// What is left of it.
    pub(crate) fn into_shift(self) -> Shift
        ensures rack { IsFor Y.queues result.rack }
        ensures shown { HasShown result.rack.takers result.done.items result.ended }
        ensures answers { All Y.answers result.done.items }
        ensures ended { result.ended ≡ self.entry }
    {
        let Worker {
            stations: _,
            gate: _,
            rack,
            done,
            ended,
            yard: _,
        } = self;
        let Some(rack) = rack else { unreachable!() };
        Shift { rack, done, ended }
    }
}

impl<'a, G: Gate, Y: Yard> Task for Worker<'a, G, Y> {
    ghost use Rattle.std.specs.Prelude.{◌≡◌, true, [], None, IsSomeAnd};
    ghost use Rattle.market_drive.specs.Causes.{HasEndedSo};
    ghost use Rattle.market_drive.specs.Opening.{HasTakenTurns};

    ghost worked = { λ before p after q. before ≡ None → IsSomeAnd after (λ ended. Y.ends ended × HasEndedSo p q ended) × (p.seen ≡ [] → IsSomeAnd after (HasTakenTurns Y.turns p q)) };

    ghost lets = { λ worker lets. lets ≡ true };

    /// Where it has not worked before, it ends in one of the ways in which its yard's workers can end. With a caller that has seen
    /// nothing, which is not placed, it takes turns and makes no other call.
    fn work<R: Wait>(
        &mut self,
        rt: &R,
        alloc: Global,
        office: &Office,
        caller: Caller<Pass, Placed>,
    ) -> Caller<Pass, Placed> {
        // A worker works once: its answers are those of one pass of its takers.
        if self.ended.is_some() {
            return caller;
        }
        match caller {
            Caller::Free(pass) => Caller::Free(self.work_with(rt, alloc, office, pass)),
            Caller::Working(placed) => {
                // That a history places it tells that it has seen one.
                let _ = placed.arena();
                let pass = office.leave(rt, placed);
                Caller::Free(self.work_with(rt, alloc, office, pass))
            }
        }
    }

    fn lets_others_work(&self) -> bool {
        true
    }
}
