//! The jobs of a plan.
use crate::crowd::Crowd;
use crate::fault::BenchFault;
use market_drive::drive;
use std::alloc::{AllocError, Global};
use std::rt::Clock;
use std::sync::Wait;
use std::thread::Threads;
use worker_main::OpenGate;

/// What the jobs of a plan are.
#[derive(Clone, Copy)]
pub enum Work {
    /// 65,536 jobs with next to nothing to do.
    Digits,
    /// 1,024 jobs that each add up a million numbers.
    Sum,
}

impl Work {
    /// Each, as the table has them.
    pub const ALL: [Work; 2] = [Work::Digits, Work::Sum];

    /// What the table calls it.
    pub fn name(self) -> &'static str {
        match self {
            Work::Digits => "digits 1",
            Work::Sum => "sum 1000000",
        }
    }

    /// The line of each job.
    fn line(self) -> &'static [u8] {
        match self {
            Work::Digits => b"job 1 digits 1\n",
            Work::Sum => b"job 1 sum 1000000\n",
        }
    }

    /// How many jobs there are.
    fn jobs(self) -> u64 {
        match self {
            Work::Digits => 65_536,
            Work::Sum => 1_024,
        }
    }

    /// The plan: one arena that is in need of 16 workers.
    pub fn plan(self, alloc: Global) -> Result<Vec<u8>, AllocError> {
        let mut text = Vec::new(alloc);
        text.extend_from_slice(b"market 65 64\narena 64 0 normal 16 0\n")?;
        for _ in 0..self.jobs() {
            text.extend_from_slice(self.line())?;
        }
        Ok(text)
    }
}

/// A plan that so many workers drive.
#[derive(Clone, Copy)]
pub struct Shift<'a> {
    pub work: Work,
    pub text: &'a [u8],
    pub crowd: Crowd,
}

impl Shift<'_> {
    /// From the plan's text to the answers in order: how many there are.
    pub fn round<R: Clock + Threads + Wait + Sync>(
        self,
        rt: &R,
        alloc: Global,
    ) -> Result<u64, BenchFault> {
        let workers = usize::from(self.crowd.count());
        let done = drive(rt, alloc, self.text, workers, &OpenGate)?;
        Ok(done.len() as u64)
    }

    /// How many jobs a round has.
    pub fn turns(self) -> u64 {
        self.work.jobs()
    }
}
