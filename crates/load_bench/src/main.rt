//! The program `load_bench`: jobs that users of the market wait for, on inputs of real shape that it makes itself, and a digest of all
//! that came out. It tells no time: whoever measures runs it by two builds in turn.
#![tactic(auto)]

mod author;
mod choice;
mod churn;
mod dice;
mod digest;
mod journals;
mod loads;
mod plans;
mod scripts;
mod shape;

use crate::choice::{Choice, USAGE};
use crate::loads::{Load, Size, work};
use anyhow::Result;
use std::process::ExitCode;
use std::sync::Wait;
use std::thread::Threads;

/// The exit status of a bad command line.
const BAD_COMMAND_LINE: u8 = 2;

/// The exit status of any other fault.
const FAULT: u8 = 3;

/// Works a load, and prints its digest.
fn tell_load<T: Threads + Wait + Sync>(
    rt: &HostRuntime,
    threads: &T,
    load: Load,
    size: Size,
) -> Result<()> {
    let digest = work(threads, rt.alloc(), load, size)?;
    println!(rt; "{} {digest:016x}", load.name())?;
    Ok(())
}

/// Does what the words choose: the exit status.
fn obey<T: Threads + Wait + Sync>(rt: &HostRuntime, threads: &T) -> Result<u8> {
    match Choice::read(rt)? {
        Choice::One(load, size) => tell_load(rt, threads, load, size)?,
        Choice::All(size) => {
            for load in Load::ALL {
                tell_load(rt, threads, load, size)?;
            }
        }
        Choice::Unknown => {
            eprintln!(rt; "{USAGE}")?;
            return Ok(BAD_COMMAND_LINE);
        }
    }
    Ok(0)
}

fn main(rt: HostRuntime) -> ExitCode {
    let status = match obey(&rt, &rt) {
        Ok(status) => status,
        Err(fault) => {
            // Where standard error takes nothing, the status tells it alone.
            let _ = eprintln!(rt; "{fault}");
            FAULT
        }
    };
    ExitCode::from(status)
}
