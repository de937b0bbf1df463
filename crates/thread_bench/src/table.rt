//! The tables.
use crate::calls::Scene;
use crate::crowd::Crowd;
use crate::fault::BenchFault;
use crate::jobs::{Shift, Work};
use crate::measure::{ROUNDS, Subject, time_turn};
use crate::queues::Exchange;
use crate::repeater::Turn;
use std::io;
use std::rt::Clock;
use std::sync::Wait;
use std::thread::Threads;

/// The numbers of arenas, a column for each.
const ARENAS: [u32; 4] = [1, 16, 256, 1_024];

/// What a cell has.
#[derive(Clone, Copy, PartialEq, Eq)]
pub enum Content {
    /// The nanoseconds of a turn.
    Times,
    /// How many calls or jobs a round was.
    Counts,
}

/// Prints a cell.
fn print_cell<R: Clock + Threads + Wait + Sync + AllocGlobal + Print>(
    rt: &R,
    content: Content,
    subject: Subject<'_>,
) -> Result<(), BenchFault> {
    let cell = match content {
        Content::Times => time_turn(rt, rt.alloc(), subject)?,
        Content::Counts => subject.round(rt, rt.alloc())?,
    };
    print!(rt; "{cell:>10}")?;
    Ok(())
}

/// Prints what the table of calls is, and the heads of its columns.
fn print_head(rt: &impl Print, content: Content) -> io::Result<()> {
    match content {
        Content::Times => println!(rt;
            "nanoseconds a turn, the least of {ROUNDS} rounds, by the number of arenas"
        )?,
        Content::Counts => println!(rt; "calls of a round, by the number of arenas")?,
    }
    print!(rt; "threads  turn              ")?;
    for arenas in ARENAS {
        print!(rt; "{arenas:>10}")?;
    }
    println!(rt; "")
}

/// Prints the row of a turn.
fn print_row<R: Clock + Threads + Wait + Sync + AllocGlobal + Print>(
    rt: &R,
    content: Content,
    turn: Turn,
    crowd: Crowd,
) -> Result<(), BenchFault> {
    let (name, threads) = (turn.name(), crowd.count());
    print!(rt; "{threads:>7}  {name:<18}")?;
    for arenas in ARENAS {
        let scene = Scene {
            turn,
            crowd,
            arenas,
        };
        print_cell(rt, content, Subject::Calls(scene))?;
    }
    println!(rt; "")?;
    Ok(())
}

/// Prints the row of a market behind a mutex.
fn print_mutexed<R: Clock + Threads + Wait + Sync + AllocGlobal + Print>(
    rt: &R,
    content: Content,
) -> Result<(), BenchFault> {
    print!(rt; "{:>7}  {:<18}", 1, "request, mutex")?;
    for arenas in ARENAS {
        print_cell(rt, content, Subject::Mutexed(arenas))?;
    }
    println!(rt; "")?;
    Ok(())
}

/// Prints the rows of so many threads.
fn print_rows<R: Clock + Threads + Wait + Sync + AllocGlobal + Print>(
    rt: &R,
    content: Content,
    crowd: Crowd,
) -> Result<(), BenchFault> {
    for turn in Turn::ALL {
        print_row(rt, content, turn, crowd)?;
    }
    Ok(())
}

/// Prints the table of calls, that of a market behind a mutex first. Counts are those of one thread: of more threads they differ from run to run.
fn print_calls<R: Clock + Threads + Wait + Sync + AllocGlobal + Print>(
    rt: &R,
    content: Content,
) -> Result<(), BenchFault> {
    print_head(rt, content)?;
    print_mutexed(rt, content)?;
    for crowd in Crowd::ALL {
        if content == Content::Times || crowd == Crowd::One {
            print_rows(rt, content, crowd)?;
        }
    }
    Ok(())
}

/// Prints a row with one cell.
fn print_line<R: Clock + Threads + Wait + Sync + AllocGlobal + Print>(
    rt: &R,
    content: Content,
    threads: u8,
    name: &str,
    subject: Subject<'_>,
) -> Result<(), BenchFault> {
    print!(rt; "{threads:>7}  {name:<18}")?;
    print_cell(rt, content, subject)?;
    println!(rt; "")?;
    Ok(())
}

/// Prints the rows of a plan.
fn print_plan<R: Clock + Threads + Wait + Sync + AllocGlobal + Print>(
    rt: &R,
    content: Content,
    work: Work,
) -> Result<(), BenchFault> {
    let text = work.plan(rt.alloc())?;
    for crowd in Crowd::ALL {
        let shift = Shift {
            work,
            text: &text,
            crowd,
        };
        print_line(
            rt,
            content,
            crowd.count(),
            work.name(),
            Subject::Plan(shift),
        )?;
    }
    Ok(())
}

/// Prints the table of jobs.
fn print_jobs<R: Clock + Threads + Wait + Sync + AllocGlobal + Print>(
    rt: &R,
    content: Content,
) -> Result<(), BenchFault> {
    match content {
        Content::Times => {
            println!(rt; "nanoseconds a job, the least of {ROUNDS} rounds")?;
        }
        Content::Counts => println!(rt; "jobs of a round")?,
    }
    println!(rt; "threads  job")?;
    let (alone, crowded) = (Exchange::Alone, Exchange::TwoAndTwo);
    print_line(rt, content, 1, "push, pop", Subject::Queue(alone))?;
    print_line(rt, content, 4, "push, pop", Subject::Queue(crowded))?;
    for work in Work::ALL {
        print_plan(rt, content, work)?;
    }
    Ok(())
}

/// Prints the tables, cell by cell as they are measured.
pub fn print_tables<R: Clock + Threads + Wait + Sync + AllocGlobal + Print>(
    rt: &R,
    content: Content,
) -> Result<(), BenchFault> {
    print_calls(rt, content)?;
    println!(rt; "")?;
    print_jobs(rt, content)
}
