//! All workers of a plan work, each in a thread of its own.
ghost use Rattle.std.specs.Prelude.{◌≡◌, ◌+◌, ◌<◌, ◌≤◌, ◌++◌, [], ℕ, List, None, Option, false, length, map, reverse, vec_len, vec_capacity, AllPairs, IfOk, IfSome};
ghost use Rattle.std.specs.List.{All, sum_by};
ghost use Rattle.market_types.specs.declared.command.Cmd.{Cmd as OfCmd};
ghost use Rattle.market_types.specs.declared.reply.Entry.{Entry};
ghost use Rattle.market_types.specs.State.{opening_to};
ghost use Rattle.edit_history.specs.declared.keeping.Keeping.TheVariants.{Everything};
ghost use Rattle.market_lock.specs.Headline.{IsGivenBy};
ghost use Rattle.plan_jobs.specs.declared.task.Job.{Job};
ghost use Rattle.plan_jobs.specs.declared.task.Done.{Done};
ghost use Rattle.market_drive.specs.declared.opener.Opener.{Opener};
ghost use Rattle.market_drive.specs.Driving.{IsOfficeOf};
ghost use Rattle.market_drive.specs.Jobs.{taken_by, taken_weight};
ghost use Rattle.market_drive.specs.Racks.{IsFor, OfRack};
ghost use Rattle.market_drive.specs.Causes.{AreEnds, CanEndAt, WasLetThrough, terms_of_plan};
ghost use Rattle.market_drive.specs.Opening.{AreStill};
ghost use Rattle.market_drive.specs.Reports.{end_for, ends_of, shown, untold};
ghost use Rattle.office_crew.specs.Callers.{terms_of};
ghost use Rattle.market_drive.specs.Lines.{queues_at};
ghost use Rattle.worker_main.specs.Stations.{HaveOwnArenas};
ghost use Rattle.worker_main.specs.Turns.{AreTurnsOf};
ghost use Rattle.worker_main.specs.declared.report.Ended.{Ended};

use crate::opener::Opener;
use crate::racks::Racks;
use crate::reports::Reports;
use crate::worker::{Shift, Worker, Yard};
use drive_plan::Plan;
use edit_history::{Keeping, MOST_PLACES};
use market_lock::Closed;
use market_types::{Cmd, LastNumber};
use office_crew::{Meeting, MeetingTerms, Unmet, meet};
use std::alloc::{AllocError, Global};
use std::sync::Wait;
use std::thread::Threads;
use worker_main::{Gate, Station};

/// A worker for each rack.
fn man<'a, Y: Yard, G: Gate>(
    alloc: Global,
    stations: &'a [Station],
    gate: &'a G,
    racks: &mut Racks,
    workers: &mut Vec<Worker<'a, G, Y>>,
)
    requires stations { queues_at stations.now ≡ Y.queues }
    requires apart { AllPairs HaveOwnArenas stations.now }
    requires racks { All (IsFor Y.queues) racks.old }
    requires unused { All (λ (r : OfRack). taken_by r.takers ≡ []) racks.old }
    requires room { (vec_len workers.old ≡ 0) × (length racks.old ≤ vec_capacity workers.old) }
    requires empty { workers.old.items ≡ [] }
    requires ends { (e : Ended) → CanEndAt stations.now (G.refused gate.now) e → Y.ends e }
    requires answers { (d : Done) → WasLetThrough (G.passed gate.now) (G.told gate.now) d → Y.answers d }
    requires turns { (seat : ℕ) (calls : List Entry) → AreTurnsOf stations.now seat calls → Y.turns seat calls }
    ensures none { racks.new ≡ [] }
    ensures each { vec_len workers.new ≡ length racks.old }
    ensures fresh { All (λ (w : Option Ended). w ≡ None) workers.new.items }
{
    while let Some(rack) = racks.pop() {
        workers.push_reserved(Worker::new(alloc, stations, gate, rack));
    }
}

/// The racks of the workers, which leave their reports: where there was memory for them, they tell each end, in the order of the
/// workers, and of each job that was taken that it was answered or is kept back.
fn relieve<Y: Yard, G: Gate>(
    workers: Vec<Worker<'_, G, Y>>,
    racks: Racks,
    reports: &mut Reports,
) -> Racks
    requires racks { racks ≡ [] }
    requires few { vec_len workers ≤ 16 }
    ensures racks { All (IsFor Y.queues) result }
    ensures each { length result ≡ vec_len workers.entry }
    ensures whole { reports.new.torn ≡ false → reports.old.torn ≡ false }
    ensures ends { reports.new.torn ≡ false → reports.new.ended ≡ reports.old.ended ++ ends_of workers.entry.items }
    ensures answers { reports.new.torn ≡ false → All Y.answers reports.old.done → All Y.answers reports.new.done }
    ensures shown { reports.new.torn ≡ false → (weigh : Job → ℕ) → sum_by weigh (shown reports.new) ≡ sum_by weigh (shown reports.old) + taken_weight weigh result }
{
    let mut left = workers;
    left.reverse();
    let mut racks = racks;
    while let Some(worker) = left.pop() {
        let Shift { rack, done, ended } = worker.into_shift();
        racks = racks.with(rack);
        if let Some(ended) = ended {
            reports.add(done, ended);
        }
    }
    left.destroy_empty();
    racks
}

/// The openers tell the commands that were not answered.
fn hear(openers: Vec<Opener<'_>>, reports: &mut Reports)
    ensures whole { reports.new.torn ≡ false → reports.old.torn ≡ false }
    ensures ends { reports.new.torn ≡ false → reports.new.ended ≡ reports.old.ended ++ ends_of (map (λ (o : Opener). end_for o.fault) (reverse openers.entry.items)) }
    ensures answers { reports.new.torn ≡ false → reports.new.done ≡ reports.old.done }
    ensures shown { reports.new.torn ≡ false → (weigh : Job → ℕ) → sum_by weigh (shown reports.new) ≡ sum_by weigh (shown reports.old) }
{
    let mut left = openers;
    while let Some(opener) = left.pop() {
        if let Some(fault) = opener.fault {
            reports.add_fault(fault);
        }
    }
}

/// Who gives the commands.
fn openers<'a>(alloc: Global, cmds: &'a [Cmd]) -> Result<Vec<Opener<'a>>, AllocError>
    ensures one { IfOk result (λ openers. vec_len openers ≡ 1) }
    ensures fresh { IfOk result (λ openers. All (λ (o : Opener). o.fault ≡ None) openers.items) }
    ensures cmds { IfOk result (λ openers. All (λ (o : Opener). o.cmds.now ≡ cmds.now) openers.items) }
{
    let mut openers = Vec::with_capacity(alloc, 1)?;
    openers.push_reserved(Opener::new(cmds));
    Ok(openers)
}

/// The market is opened, all workers work, and the office is closed, which is `None` where there was no memory for it. They leave
/// their reports, and their racks.
fn work_together<Y: Yard + Send + Sync, G: Gate + Sync, R: Threads + Wait + Sync>(
    rt: &R,
    alloc: Global,
    terms: MeetingTerms,
    openers: Vec<Opener<'_>>,
    workers: Vec<Worker<'_, G, Y>>,
    racks: Racks,
    reports: &mut Reports,
) -> (Racks, Option<Closed>)
    requires few { (vec_len openers ≡ 1) × (vec_len workers ≤ 16) }
    requires fresh { All (λ (o : Opener). o.fault ≡ None) openers.items × All (λ (w : Option Ended). w ≡ None) workers.items }
    requires untold { reports.old ≡ untold }
    requires racks { racks ≡ [] }
    ensures racks { All (IsFor Y.queues) result.0 }
    ensures each { length result.0 ≡ vec_len workers.entry }
    ensures headline { IfSome result.1 (λ closed. IsGivenBy (opening_to terms.base terms.hard (vec_len openers.entry + vec_len workers.entry) terms.levels terms.last) closed.chronicle) }
    ensures calls { IfSome result.1 (λ closed. closed.calls ≡ length closed.chronicle.log) }
    ensures whole { terms.keeping ≡ Everything → IfSome result.1 (λ closed. closed.chronicle.from ≡ 0) }
    ensures places { IfSome result.1 (λ closed. closed.chronicle.places ≡ terms.places) }
    ensures ends { (cmds : List OfCmd) → All (λ (o : Opener). o.cmds.now ≡ cmds) openers.entry.items → AreStill cmds → reports.new.torn ≡ false → IfSome result.1 (λ closed. AreEnds Y.ends Y.turns (terms_of terms (1 + vec_len workers.entry)) cmds closed.chronicle.log (vec_len workers.entry) reports.new.ended) }
    ensures answers { reports.new.torn ≡ false → All Y.answers reports.new.done }
    ensures shown { reports.new.torn ≡ false → (weigh : Job → ℕ) → sum_by weigh (shown reports.new) ≡ sum_by weigh (shown reports.old) + taken_weight weigh result.0 }
{
    match meet(rt, alloc, terms, openers, workers) {
        Ok(meeting) => {
            let Meeting {
                closed,
                openers,
                tasks,
            } = meeting;
            hear(openers, reports);
            (relieve(tasks, racks, reports), Some(closed))
        }
        Err(unmet) => {
            let Unmet {
                fault: _,
                openers,
                tasks,
            } = unmet;
            drop(openers);
            (relieve(tasks, racks, reports), None)
        }
    }
}

/// What all have left of a plan.
pub(crate) struct Shifts {
    /// The racks of all workers.
    pub(crate) racks: Racks,
    /// What they and the opener reported.
    pub(crate) reports: Reports,
    /// The office. `None` where there was no memory to open it.
    pub(crate) closed: Option<Closed>,
}

/// A worker for each rack works at a plan, in the office that the commands open. Nobody has worked where there was no memory to
/// begin.
pub(crate) fn work_shifts<Y: Yard + Send + Sync, G: Gate + Sync, R: Threads + Wait + Sync>(
    rt: &R,
    alloc: Global,
    plan: &Plan,
    cmds: &[Cmd],
    stations: &[Station],
    racks: Racks,
    gate: &G,
) -> Shifts
    requires stations { queues_at stations.now ≡ Y.queues }
    requires apart { AllPairs HaveOwnArenas stations.now }
    requires racks { All (IsFor Y.queues) racks }
    requires unused { (weigh : Job → ℕ) → taken_weight weigh racks ≡ 0 }
    requires ends { (e : Ended) → CanEndAt stations.now (G.refused gate.now) e → Y.ends e }
    requires answers { (d : Done) → WasLetThrough (G.passed gate.now) (G.told gate.now) d → Y.answers d }
    requires turns { (seat : ℕ) (calls : List Entry) → AreTurnsOf stations.now seat calls → Y.turns seat calls }
    requires still { AreStill cmds.now }
    ensures racks { All (IsFor Y.queues) result.racks }
    ensures each { length result.racks ≡ length racks }
    ensures office { IfSome result.closed (IsOfficeOf plan.now (length racks)) }
    ensures ends { result.reports.torn ≡ false → IfSome result.closed (λ closed. AreEnds Y.ends Y.turns (terms_of_plan plan.now (length racks)) cmds.now closed.chronicle.log (length racks) result.reports.ended) }
    ensures answers { result.reports.torn ≡ false → All Y.answers result.reports.done }
    ensures shown { result.reports.torn ≡ false → (weigh : Job → ℕ) → sum_by weigh (shown result.reports) ≡ taken_weight weigh result.racks }
{
    let mut reports = Reports::new(alloc);
    let Ok(openers) = openers(alloc, cmds) else {
        return Shifts {
            racks,
            reports,
            closed: None,
        };
    };
    let Ok(mut workers) = Vec::with_capacity(alloc, racks.len()) else {
        return Shifts {
            racks,
            reports,
            closed: None,
        };
    };
    let mut racks = racks;
    man::<Y, G>(alloc, stations, gate, &mut racks, &mut workers);
    let terms = MeetingTerms {
        base: plan.base(),
        hard: plan.hard(),
        places: MOST_PLACES,
        levels: plan.levels(),
        last: LastNumber::USUAL,
        keeping: Keeping::Everything,
    };
    let (racks, closed) = work_together(rt, alloc, terms, openers, workers, racks, &mut reports);
    Shifts {
        racks,
        reports,
        closed,
    }
}
