//! What the workers of a plan tell in the end.
ghost use Rattle.std.specs.Prelude.{◌≡◌, [], false, true, None, Err, IfErr, IfOk, OnOk, IsPermutation};
ghost use Rattle.plan_jobs.specs.Outcome.{IsOutcome};
ghost use Rattle.market_drive.specs.Driving.{IsLate};
ghost use Rattle.market_drive.specs.Ending.{IsDueTo, end_fault};
ghost use Rattle.market_drive.specs.Reports.{told, untold};
ghost use Rattle.market_drive.specs.declared.fault.DriveFault.TheVariants.{Memory};
ghost use Rattle.worker_main.specs.declared.report.Ended.TheVariants.{Call};

use crate::fault::DriveFault;
use crate::gathering::gather_done;
use drive_plan::Plan;
use edit_history::CallFault;
use plan_jobs::Done;
use std::alloc::{AllocError, Global};
use std::marker::Model;
use worker_main::Ended;

/// The answers of all workers, and how each ended.
#[derive(Drop)]
pub(crate) struct Reports {
    done: Vec<Done>,
    ended: Vec<Ended>,
    /// There was no memory for what was reported.
    is_torn: bool,
}

impl Model for Reports {
    ghost use Rattle.market_drive.specs.Reports.{OfReports};

    ghost Value = { OfReports };

    ghost view = { λ r. record { done = r.done.items; ended = r.ended.items; torn = r.is_torn } };
}

impl Reports {
    /// None yet.
    pub(crate) fn new(alloc: Global) -> Reports
        ensures { result ≡ untold }
    {
        Reports {
            done: Vec::new(alloc),
            ended: Vec::new(alloc),
            is_torn: false,
        }
    }

    /// The first answers stay where they are, and others are put behind them at once.
    fn keep(&mut self, mut done: Vec<Done>, ended: Ended) -> Result<(), AllocError>
        ensures kept { OnOk result (self.old.torn ≡ false → self.new ≡ told self.old done.items ended) }
        ensures torn { self.new.torn ≡ self.old.torn }
    {
        self.ended.push(ended)?;
        if self.done.is_empty() {
            self.done = done;
            Ok(())
        } else {
            self.done.append(&mut done)
        }
    }

    /// With the answers of a worker that ended so.
    pub(crate) fn add(&mut self, done: Vec<Done>, ended: Ended)
        ensures kept { self.new.torn ≡ false → (self.old.torn ≡ false) × (self.new ≡ told self.old done.items ended) }
    {
        if self.keep(done, ended).is_err() {
            self.is_torn = true;
        }
    }

    /// An opener's command was not answered.
    pub(crate) fn add_fault(&mut self, fault: CallFault)
        ensures kept { self.new.torn ≡ false → (self.old.torn ≡ false) × (self.new ≡ told self.old [] (Call fault)) }
    {
        if self.ended.push(Ended::Call(fault)).is_err() {
            self.is_torn = true;
        }
    }

    /// What all of it comes to: `Memory` where something is missing, and else what the answers and the ends come to.
    pub(crate) fn gather(self, plan: &Plan) -> Result<Vec<Done>, DriveFault>
        ensures outcome { IfOk result (λ done. IsOutcome plan.now.jobs done.items) }
        ensures same { IfOk result (λ done. IsPermutation self.done done.items) }
        ensures ended { IfOk result (λ _. end_fault self.ended ≡ None) }
        ensures torn { self.torn ≡ true → result ≡ Err Memory }
        ensures fault { self.torn ≡ false → IfErr result (IsDueTo plan.now.jobs self.done self.ended) }
        ensures late { IfErr result IsLate }
    {
        if self.is_torn {
            return Err(DriveFault::Memory);
        }
        gather_done(plan, self.done, &self.ended)
    }
}
