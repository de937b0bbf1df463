//! The program `office_demo`: threads share one market through an office, and the journal of what happened says who did what.
#![tactic(auto)]

ghost use Rattle.std.specs.Prelude.{◌≡◌, ◌≤◌};
ghost use Rattle.demo_callers.specs.Records.{most_callers};

mod choice;

use crate::choice::{Choice, USAGE};
use byte_devices::WriteSink;
use demo_callers::{DemoFault, Lasted, Outcome, Record, TERMS, last, work};
use journal_replay::write_journal;
use std::process::ExitCode;
use std::sync::Wait;
use std::thread::Threads;
use std::time::Duration;

/// The exit status where a caller does not find its own calls.
const DISAGREEMENT: u8 = 1;

/// The exit status of a bad command line.
const BAD_COMMAND_LINE: u8 = 2;

/// The exit status of any other fault.
const FAULT: u8 = 3;

/// Writes what happened.
fn show(rt: &HostRuntime, outcome: &Outcome) -> Result<u8, DemoFault>
    requires whole { outcome.now.closed.chronicle.from ≡ 0 }
{
    let Outcome {
        closed,
        callers,
        agreeing,
    } = outcome;
    let mut output = WriteSink::new(rt.stdout());
    write_journal(rt.alloc(), &closed.chronicle, &mut output)?;
    let (calls, workers) = (closed.calls, closed.workers);
    eprintln!(rt; "{calls} calls answered, {workers} workers placed")?;
    eprintln!(rt; "{agreeing} of {callers} callers find their own calls in the journal, in order")?;
    Ok(if agreeing == callers { 0 } else { DISAGREEMENT })
}

/// Tells so much memory, at these two times.
fn tell_memory(rt: &HostRuntime, quarter: Option<u64>, end: Option<u64>) -> Result<(), DemoFault> {
    match (quarter, end) {
        (Some(quarter), Some(end)) => {
            eprintln!(rt; "{quarter} kB of memory at a quarter of the time, {end} kB at its end")?
        }
        _ => eprintln!(rt; "the system does not tell how much memory it was")?,
    }
    Ok(())
}

/// Tells how an office lasted.
fn tell_lasted(rt: &HostRuntime, lasted: &Lasted) -> Result<u8, DemoFault> {
    let (calls, workers) = (lasted.closed.calls, lasted.closed.workers);
    let rate = lasted.rate();
    eprintln!(rt; "{calls} calls answered, {workers} workers placed, {rate} calls a second")?;
    tell_memory(rt, lasted.quarter, lasted.end)?;
    Ok(0)
}

/// Tells how the program is used, and ends with this status.
fn tell_usage(rt: &HostRuntime, status: u8) -> Result<u8, DemoFault> {
    if status == 0 {
        println!(rt; "{USAGE}")?;
    } else {
        eprintln!(rt; "{USAGE}")?;
    }
    Ok(status)
}

/// The status, where a fault ends the program reported first.
fn end(rt: &HostRuntime, status: Result<u8, DemoFault>) -> ExitCode {
    let status = match status {
        Ok(status) => status,
        Err(fault) => {
            // Where standard error takes nothing, the status tells it alone.
            let _ = eprintln!(rt; "{fault}");
            FAULT
        }
    };
    ExitCode::from(status)
}

/// So many callers make so many calls each, in threads of this handle: the exit status.
fn run_calls<T: Threads + Wait + Sync>(
    rt: &HostRuntime,
    threads: &T,
    callers: u8,
    calls: u32,
) -> Result<u8, DemoFault>
    requires { callers ≤ 64 }
{
    let outcome = work(threads, rt.alloc(), TERMS, callers, calls)?;
    let status = show(rt, &outcome);
    drop(outcome);
    status
}

/// So many callers call for so many seconds, in threads of this handle: the exit status.
fn run_for<T: Threads + Wait + Sync>(
    rt: &HostRuntime,
    threads: &T,
    callers: u8,
    seconds: u32,
    recorded: Record,
) -> Result<u8, DemoFault>
    requires { callers ≤ most_callers recorded }
{
    let time = Duration::from_secs(u64::from(seconds));
    let output = WriteSink::new(rt.stdout());
    let lasted = last(threads, rt, rt.alloc(), time, callers, recorded, output)?;
    let status = tell_lasted(rt, &lasted);
    drop(lasted);
    status
}

/// Does what the command line asks for, with threads of this handle: the exit status.
fn run<T: Threads + Wait + Sync>(rt: &HostRuntime, threads: &T) -> Result<u8, DemoFault> {
    match Choice::read(rt)? {
        Choice::Work { callers, calls } => run_calls(rt, threads, callers, calls),
        Choice::Forever {
            callers,
            seconds,
            recorded,
        } => run_for(rt, threads, callers, seconds, recorded),
        Choice::Help => tell_usage(rt, 0),
        Choice::Unknown => tell_usage(rt, BAD_COMMAND_LINE),
    }
}

fn main(rt: HostRuntime) -> ExitCode {
    let status = run(&rt, &rt);
    end(&rt, status)
}
