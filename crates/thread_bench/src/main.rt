//! The program `thread_bench`: how long calls through an office, queues of jobs and plans of jobs take, by one thread and by more.
#![tactic(auto)]

mod calls;
mod choice;
mod crowd;
mod fault;
mod jobs;
mod measure;
mod mutexed;
mod queues;
mod repeater;
mod table;

use crate::choice::{Choice, USAGE};
use crate::fault::BenchFault;
use crate::table::print_tables;
use std::process::ExitCode;

/// The exit status of a bad command line.
const BAD_COMMAND_LINE: u8 = 2;

/// The exit status of any other fault.
const FAULT: u8 = 3;

/// Tells how the program is used, and ends with this status.
fn tell_usage(rt: &HostRuntime, status: u8) -> Result<u8, BenchFault> {
    if status == 0 {
        println!(rt; "{USAGE}")?;
    } else {
        eprintln!(rt; "{USAGE}")?;
    }
    Ok(status)
}

/// The status, where a fault ends the program reported first.
fn end(rt: &HostRuntime, status: Result<u8, BenchFault>) -> ExitCode {
    let status = match status {
        Ok(status) => status,
        Err(fault) => {
            // Where standard error takes nothing, the status tells it alone.
            let _ = eprintln!(rt; "{fault}");
            FAULT
        }
    };
    ExitCode::from(status)
}

fn main(rt: HostRuntime) -> ExitCode {
    let status = match Choice::read(&rt) {
        Ok(Choice::Table(content)) => print_tables(&rt, content).map(|()| 0),
        Ok(Choice::Help) => tell_usage(&rt, 0),
        Ok(Choice::Unknown) => tell_usage(&rt, BAD_COMMAND_LINE),
        Err(fault) => Err(fault),
    };
    end(&rt, status)
}
