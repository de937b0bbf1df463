//! The program `market`: its words, its streams and its exit status.
#![tactic(auto)]

ghost use Rattle.std.specs.Prelude.{◌≤◌, length};

use byte_devices::{ReadSource, WriteSink};
use clap::Error;
use clap::error::ErrorKind;
use journal_replay::Verdict;
use market_drive::DriveFault;
use market_prog::{
    DriveEnd, Meter, MeteredSource, ProgressGate, RunFault, explain_script, run_chart, run_drive,
    run_drive_through, run_journal, run_replay, run_script, status_of_drive, status_of_replay,
    status_of_run,
};
use market_words::{
    ChartOptions, Choice, DriveOptions, ReplayOptions, ScriptOptions, ScriptTask, read_words,
};
use std::fmt::Display;
use std::io::IsTerminal;
use std::process::ExitCode;
use std::sync::Wait;
use std::thread::Threads;
use std::{env, io};

/// The exit status of a bad command line.
const BAD_COMMAND_LINE: u8 = 2;

/// The exit status of a fault of the system.
const SYSTEM_FAULT: u8 = 3;

/// Tells on standard error why the program ends with this status.
fn fail<T: Display + Drop>(rt: &HostRuntime, why: T, status: u8) -> u8 {
    // Where standard error takes nothing, the status tells it alone.
    let _ = eprintln!(rt; "{why}");
    status
}

/// Tells the fault, if there is one, of what ends with this status.
fn finish<T: Drop>(rt: &HostRuntime, outcome: Result<T, RunFault>, status: u8) -> u8 {
    match outcome {
        Ok(_) => status,
        Err(fault) => fail(rt, fault, status),
    }
}

/// What tells how much of standard input a command has read: where that is asked for, and where a person sees standard error
/// and doesn't type the lines.
fn meter_of<'a>(
    rt: &'a HostRuntime,
    command: &'static str,
    asked: bool,
) -> Option<Meter<'a, HostRuntime>> {
    let tells = asked || (rt.stderr().is_terminal() && !rt.stdin().is_terminal());
    if tells { Meter::new(rt, command) } else { None }
}

/// Writes what was chosen of the script on standard input.
fn work_script(rt: &HostRuntime, task: ScriptTask, options: ScriptOptions) -> u8 {
    let alloc = rt.alloc();
    let command = match task {
        ScriptTask::Answer | ScriptTask::Journal => "run",
        ScriptTask::Explain => "explain",
    };
    let meter = meter_of(rt, command, options.progress);
    let input = &mut MeteredSource::new(ReadSource::new(rt.stdin()), meter);
    let output = &mut WriteSink::new(rt.stdout());
    let outcome = match task {
        ScriptTask::Answer => run_script(alloc, options.market, input, output),
        ScriptTask::Journal => run_journal(alloc, options.market, input, output),
        ScriptTask::Explain => explain_script(alloc, options.market, input, output),
    };
    let status = status_of_run(&outcome);
    finish(rt, outcome, status)
}

/// Replays the journal on standard input.
fn replay(rt: &HostRuntime, options: ReplayOptions) -> u8 {
    let meter = meter_of(rt, "replay", options.progress);
    let mut input = MeteredSource::new(ReadSource::new(rt.stdin()), meter);
    let mut output = WriteSink::new(rt.stdout());
    let outcome = run_replay(rt.alloc(), &mut input, &mut output);
    let status = status_of_replay(&outcome);
    finish(rt, outcome, status)
}

/// Tells that the first entry to be drawn comes after the last.
fn refuse_range(rt: &HostRuntime, from: u32, to: u32) -> u8 {
    // Where standard error takes nothing, the status tells it alone.
    let _ = eprintln!(rt;
        "error: '--from {from}' is above '--to {to}'\n\nFor more information, try '--help'."
    );
    BAD_COMMAND_LINE
}

/// Draws the journal on standard input, and tells the verdict of one that is not legal. Where no entry can lie between the two that are
/// named, it is not read.
fn chart(rt: &HostRuntime, options: &ChartOptions) -> u8
    requires width { 1 ≤ options.now.width }
    requires from { 1 ≤ options.now.from }
    requires few { length options.now.arenas.items ≤ 16 }
{
    if options.from > options.to {
        return refuse_range(rt, options.from, options.to);
    }
    let meter = meter_of(rt, "chart", options.progress);
    let mut input = MeteredSource::new(ReadSource::new(rt.stdin()), meter);
    let mut output = WriteSink::new(rt.stdout());
    let outcome = run_chart(rt.alloc(), options, &mut input, &mut output);
    let status = status_of_replay(&outcome);
    match outcome {
        Ok(Verdict::Legal(_)) => status,
        Ok(verdict) => fail(rt, verdict, status),
        Err(fault) => fail(rt, fault, status),
    }
}

/// Whether the progress of a drive is reported: where standard error is a terminal, and where it is asked for.
fn tells_progress(rt: &HostRuntime, options: DriveOptions) -> bool {
    options.progress || rt.stderr().is_terminal()
}

/// Drives the plan on standard input, with workers in threads of this handle.
fn drive_plan<T: Threads + Wait + Sync>(
    rt: &HostRuntime,
    threads: &T,
    options: DriveOptions,
) -> Result<DriveEnd, RunFault>
    requires { (1 ≤ options.workers) × (options.workers ≤ 16) }
{
    let workers = options.workers as usize;
    let mut input = ReadSource::new(rt.stdin());
    let mut output = WriteSink::new(rt.stdout());
    if tells_progress(rt, options) {
        // Without a clock nothing is reported.
        if let Ok(gate) = ProgressGate::new(rt) {
            return run_drive_through(threads, rt.alloc(), workers, &gate, &mut input, &mut output);
        }
    }
    run_drive(threads, rt.alloc(), workers, &mut input, &mut output)
}

/// Drives the plan on standard input, and tells why where there was no memory for it.
fn drive<T: Threads + Wait + Sync>(rt: &HostRuntime, threads: &T, options: DriveOptions) -> u8
    requires { (1 ≤ options.workers) × (options.workers ≤ 16) }
{
    let outcome = drive_plan(rt, threads, options);
    let status = status_of_drive(&outcome);
    match outcome {
        Ok(DriveEnd::Refused(DriveFault::Memory)) => fail(rt, "G06 memory", status),
        outcome => finish(rt, outcome, status),
    }
}

/// Prints the help that was asked for, or what is wrong with the words.
fn print_help(rt: &HostRuntime, error: &Error) -> u8 {
    if error.kind() == ErrorKind::OutOfMemory {
        return fail(rt, "memory", SYSTEM_FAULT);
    }
    if error.print(rt).is_err() {
        return fail(rt, "write fault", SYSTEM_FAULT);
    }
    if error.use_stderr() {
        BAD_COMMAND_LINE
    } else {
        0
    }
}

/// Does what the words choose. Threads are made by the handle.
fn obey<T: Threads + Wait + Sync>(rt: &HostRuntime, threads: &T, words: &[String]) -> u8 {
    let texts: Result<Vec<&str>, _> = words.iter().map(|word| word.as_str()).collect(rt.alloc());
    let Ok(texts) = texts else {
        return fail(rt, "memory", SYSTEM_FAULT);
    };
    match read_words(rt.alloc(), &texts) {
        Ok(Choice::Script(task, options)) => work_script(rt, task, options),
        Ok(Choice::Replay(options)) => replay(rt, options),
        Ok(Choice::Drive(options)) => drive(rt, threads, options),
        Ok(Choice::Chart(options)) => chart(rt, &options),
        Err(error) => print_help(rt, &error),
    }
}

/// The words of the command line.
fn command_line(rt: &HostRuntime) -> io::Result<Vec<String>> {
    let words = env::args(rt)?.collect(rt.alloc())?;
    Ok(words)
}

fn main(rt: HostRuntime) -> ExitCode {
    let status = match command_line(&rt) {
        Ok(words) => obey(&rt, &rt, &words),
        Err(error) if error.kind() == io::ErrorKind::InvalidData => {
            fail(
                &rt,
                "error: the command line is not UTF-8",
                BAD_COMMAND_LINE,
            )
        }
        Err(_) => fail(&rt, "memory", SYSTEM_FAULT),
    };
    ExitCode::from(status)
}
