//! Plans.
ghost use Rattle.std.specs.Prelude.{◌<◌, ◌≤◌};

use crate::dice::Dice;
use itoa::Buffer;
use std::alloc::{AllocError, Global};

/// About as many bytes as a job's line has.
const USUAL_LINE: usize = 24;

/// One job in so many adds numbers up.
const JOBS_A_SUM: u32 = 8;

/// So many numbers are added up at most.
const MOST_ADDED: u32 = 1_000;

/// At which arenas the jobs of a plan are, and how many workers drive it.
#[derive(Clone, Copy)]
pub struct Crew {
    /// How many arenas the plan has, 1 to 64.
    pub arenas: u32,
    /// Whether all jobs are of one arena.
    pub lopsided: bool,
    /// How many workers drive it, 1 to 16.
    pub workers: usize,
    ghost some_workers: { 0 < workers },
    ghost few_workers: { workers ≤ 16 },
}

/// One arena, some, all that a plan may have with jobs at each in turn, and all with every job at one of them.
pub const CREWS: [Crew; 6] = [
    Crew {
        arenas: 1,
        lopsided: false,
        workers: 1,
    },
    Crew {
        arenas: 8,
        lopsided: false,
        workers: 1,
    },
    Crew {
        arenas: 64,
        lopsided: false,
        workers: 1,
    },
    Crew {
        arenas: 64,
        lopsided: true,
        workers: 1,
    },
    Crew {
        arenas: 8,
        lopsided: false,
        workers: 2,
    },
    Crew {
        arenas: 64,
        lopsided: false,
        workers: 2,
    },
];

/// Puts a number behind the plan.
fn push_number(plan: &mut Vec<u8>, number: u32) -> Result<(), AllocError> {
    let mut digits = Buffer::new();
    plan.extend_from_slice(digits.format(number).as_bytes())
}

/// Puts the line of a job of this arena behind the plan: mostly one with next to nothing to do.
fn push_job(plan: &mut Vec<u8>, dice: &mut Dice, arena: u32) -> Result<(), AllocError> {
    plan.extend_from_slice(b"job ")?;
    push_number(plan, arena)?;
    let (task, bound) = match dice.below(JOBS_A_SUM) {
        0 => (b" sum ".as_slice(), MOST_ADDED),
        _ => (b" digits ".as_slice(), u32::MAX),
    };
    plan.extend_from_slice(task)?;
    push_number(plan, dice.below(bound))?;
    plan.extend_from_slice(b"\n")
}

/// Puts the market and so many arenas behind the plan.
fn push_arenas(plan: &mut Vec<u8>, arenas: u32) -> Result<(), AllocError> {
    plan.extend_from_slice(b"market 65 64\n")?;
    for _ in 0..arenas {
        plan.extend_from_slice(b"arena 8 1 normal 4 0\n")?;
    }
    Ok(())
}

/// Puts so many jobs behind the plan.
fn push_jobs(plan: &mut Vec<u8>, dice: &mut Dice, crew: Crew, jobs: u32) -> Result<(), AllocError> {
    let favourite = dice.below(crew.arenas.max(1));
    for index in 0..jobs {
        let arena = match crew.lopsided {
            true => favourite,
            false => index % crew.arenas.max(1),
        };
        push_job(plan, dice, arena.wrapping_add(1))?;
    }
    Ok(())
}

/// The text of a plan of so many jobs.
pub fn plan(alloc: Global, dice: &mut Dice, crew: Crew, jobs: u32) -> Result<Vec<u8>, AllocError> {
    let mut plan = Vec::with_capacity(alloc, (jobs as usize).saturating_mul(USUAL_LINE))?;
    push_arenas(&mut plan, crew.arenas)?;
    push_jobs(&mut plan, dice, crew, jobs)?;
    Ok(plan)
}
