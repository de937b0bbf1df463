//! Plans.
ghost use Rattle.std.specs.Prelude.{◌≡◌, ◌≤◌, None, Some, true, false, IfOk, OnErr, length};
ghost use Rattle.std.specs.List.{All};
ghost use Rattle.drive_plan.specs.Plans.{FitsArena, FitsControl, FitsJob, FitsLine, FitsMarket, after_market, with_arena, with_control, with_job, with_line};

use crate::line::PlanLine;
use market_types::Level;
use plan_jobs::PlannedJob;
use std::alloc::{AllocError, Global};
use std::marker::Model;

/// The most arenas of a plan.
pub const MOST_ARENAS: usize = 64;

/// The most controls of a plan.
const MOST_CONTROLS: usize = 256;

/// The most jobs of a plan.
const MOST_JOBS: usize = 65_536;

/// An arena of a plan: what it is opened with, and what it asks for.
#[derive(Clone, Copy, Debug, PartialEq, Eq)]
pub struct PlannedArena {
    /// Its slots, 1 to 65,535.
    pub slots: u32,
    /// How many of them are reserved, at most the slots.
    pub reserved: u32,
    /// Its priority, one of the market's levels.
    pub level: Level,
    /// How many workers it asks for, at most 65,535.
    pub wanted: u32,
    /// Its mandatory count, at most 65,535.
    pub mandatory: u32,
}

/// A plan of jobs: the market that they are run in, and the jobs. Arenas and jobs are numbered from 1 in order.
#[derive(Drop)]
pub struct Plan {
    base: u32,
    hard: u32,
    levels: u32,
    arenas: Vec<PlannedArena>,
    controls: Vec<u32>,
    jobs: Vec<PlannedJob>,
}

impl Model for Plan {
    ghost use Rattle.drive_plan.specs.Plans.{IsPlan, Planned};

    ghost Value = { Planned };

    ghost view = { λ p. record { base = p.base; hard = p.hard; levels = p.levels; arenas = p.arenas.items; controls = p.controls.items; jobs = p.jobs.items } };

    ghost invariant = { λ p. IsPlan (record { base = p.base; hard = p.hard; levels = p.levels; arenas = p.arenas.items; controls = p.controls.items; jobs = p.jobs.items }) };
}

impl Plan {
    /// The plan that has a `market` line alone.
    pub(crate) fn new(alloc: Global, base: u32, hard: u32, levels: u32) -> Self
        requires { FitsMarket base hard levels }
        ensures { result ≡ after_market base hard levels }
    {
        Plan {
            base,
            hard,
            levels,
            arenas: Vec::new(alloc),
            controls: Vec::new(alloc),
            jobs: Vec::new(alloc),
        }
    }

    /// The market's base, 1 to 65,536.
    pub fn base(&self) -> u32
        ensures exact { result ≡ self.now.base }
        ensures range { (1 ≤ result) × (result ≤ 65536) }
    {
        self.base
    }

    /// The market's hard limit, 1 to 65,535.
    pub fn hard(&self) -> u32
        ensures exact { result ≡ self.now.hard }
        ensures range { (1 ≤ result) × (result ≤ 65535) }
    {
        self.hard
    }

    /// How many levels the market has, 1 to 8.
    pub fn levels(&self) -> u32
        ensures exact { result ≡ self.now.levels }
        ensures range { (1 ≤ result) × (result ≤ 8) }
    {
        self.levels
    }

    /// The arenas: the first is arena 1.
    pub fn arenas(&self) -> &[PlannedArena]
        ensures exact { result.now ≡ self.now.arenas }
        ensures few { length result.now ≤ 64 }
        ensures fit { All (FitsArena self.now.levels) result.now }
    {
        self.arenas.as_slice()
    }

    /// The values of the controls.
    pub fn controls(&self) -> &[u32]
        ensures exact { result.now ≡ self.now.controls }
        ensures few { length result.now ≤ 256 }
        ensures fit { All FitsControl result.now }
    {
        self.controls.as_slice()
    }

    /// The jobs: the first is job 1.
    pub fn jobs(&self) -> &[PlannedJob]
        ensures exact { result.now ≡ self.now.jobs }
        ensures few { length result.now ≤ 65536 }
        ensures fit { All (FitsJob (length self.now.arenas)) result.now }
    {
        self.jobs.as_slice()
    }

    /// The plan with one arena more, where it may have one.
    fn with_arena(mut self, arena: PlannedArena) -> Result<Option<Plan>, AllocError>
        requires { FitsArena self.levels arena }
        ensures { IfOk result (λ plan. plan ≡ with_arena self arena) }
    {
        if !self.controls.is_empty() {
            return Ok(None);
        }
        if !self.jobs.is_empty() {
            return Ok(None);
        }
        if self.arenas.len() >= MOST_ARENAS {
            return Ok(None);
        }
        self.arenas.push(arena)?;
        Ok(Some(self))
    }

    /// The plan with one control more, where it may have one.
    fn with_control(mut self, value: u32) -> Result<Option<Plan>, AllocError>
        requires { FitsControl value }
        ensures { IfOk result (λ plan. plan ≡ with_control self value) }
    {
        if self.arenas.is_empty() {
            return Ok(None);
        }
        if !self.jobs.is_empty() {
            return Ok(None);
        }
        if self.controls.len() >= MOST_CONTROLS {
            return Ok(None);
        }
        self.controls.push(value)?;
        Ok(Some(self))
    }

    /// One job more, where the plan may have it: whether it may. Else nothing is changed.
    pub(crate) fn push_job(&mut self, job: PlannedJob) -> Result<bool, AllocError>
        requires { FitsJob (length self.old.arenas) job }
        ensures taken { IfOk result (λ taken. taken ≡ true → with_job self.old job ≡ Some self.new) }
        ensures full { IfOk result (λ taken. taken ≡ false → with_job self.old job ≡ None) }
        ensures left { IfOk result (λ taken. taken ≡ false → self.new ≡ self.old) }
        ensures unchanged { OnErr result (self.new ≡ self.old) }
    {
        if self.jobs.len() >= MOST_JOBS {
            return Ok(false);
        }
        self.jobs.push(job)?;
        Ok(true)
    }

    /// The plan with one job more, where it may have one.
    fn with_job(mut self, job: PlannedJob) -> Result<Option<Plan>, AllocError>
        requires { FitsJob (length self.arenas) job }
        ensures { IfOk result (λ plan. plan ≡ with_job self job) }
    {
        if !self.push_job(job)? {
            return Ok(None);
        }
        Ok(Some(self))
    }

    /// The plan with one line more, where it may come next.
    pub(crate) fn with_line(self, line: PlanLine) -> Result<Option<Plan>, AllocError>
        requires { FitsLine self.levels (length self.arenas) line }
        ensures { IfOk result (λ plan. plan ≡ with_line self line) }
    {
        match line {
            PlanLine::Market(_, _, _) => Ok(None),
            PlanLine::Arena(arena) => self.with_arena(arena),
            PlanLine::Control(value) => self.with_control(value),
            PlanLine::Job(job) => self.with_job(job),
        }
    }
}
