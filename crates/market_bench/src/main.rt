//! The program `market_bench`: how long the market's commands take.
#![tactic(auto)]

mod choice;
mod fault;
mod measure;
mod scenario;
mod stage;
mod table;

use crate::choice::{Choice, USAGE};
use crate::fault::BenchFault;
use crate::table::print_table;
use std::process::ExitCode;

/// The exit status of a bad command line.
const BAD_COMMAND_LINE: u8 = 2;

/// The exit status of any other fault.
const FAULT: u8 = 3;

/// Does what the words choose.
fn obey(rt: &HostRuntime) -> Result<u8, BenchFault> {
    match Choice::read(rt)? {
        Choice::Table(content) => print_table(rt, content)?,
        Choice::Help => println!(rt; "{USAGE}")?,
        Choice::Unknown => {
            eprintln!(rt; "{USAGE}")?;
            return Ok(BAD_COMMAND_LINE);
        }
    }
    Ok(0)
}

fn main(rt: HostRuntime) -> ExitCode {
    let status = match obey(&rt) {
        Ok(status) => status,
        Err(fault) => {
            // Where standard error takes nothing, the status tells it alone.
            let _ = eprintln!(rt; "{fault}");
            FAULT
        }
    };
    ExitCode::from(status)
}
