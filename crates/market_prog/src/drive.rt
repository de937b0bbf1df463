//! The engine that drives a plan.
ghost use Rattle.std.specs.Prelude.{◌≡◌, ◌≢◌, ◌<◌, ◌≤◌, true, false, IfOk, IfErr, OnOk};
ghost use Rattle.std.specs.Io.KnownBytes.{IsAtEnd};
ghost use Rattle.market_prog.specs.Drive.{Drives, Ends, StopsDriving, drive_status};

use crate::drive_text::{answer_text, fault_text};
use crate::fault::RunFault;
use byte_devices::{Sink, Source, put_all};
use line_engine::read_input;
use market_drive::{DriveFault, drive};
use std::alloc::{AllocError, Global};
use std::sync::Wait;
use std::thread::Threads;
use worker_main::{Gate, OpenGate};

/// How the driving of a plan ends.
#[derive(Clone, Copy, Debug, PartialEq, Eq)]
pub enum DriveEnd {
    /// All of its jobs are done.
    Finished,
    /// It has no outcome.
    Refused(DriveFault),
}

/// Drives a plan: how it ends, and what is to be written of it.
fn tell<G: Gate + Sync, T: Threads + Wait + Sync>(
    rt: &T,
    alloc: Global,
    plan: &[u8],
    workers: usize,
    gate: &G,
) -> Result<(DriveEnd, Vec<u8>), AllocError>
    requires workers { (0 < workers) × (workers ≤ 16) }
    ensures { IfOk result (λ told. Ends plan.now told.0 told.1.items) }
{
    match drive(rt, alloc, plan, workers, gate) {
        Ok(answers) => Ok((DriveEnd::Finished, answer_text(alloc, &answers)?)),
        Err(fault) => Ok((DriveEnd::Refused(fault), fault_text(alloc, fault)?)),
    }
}

/// Drives the plan that a source has left, as `run_drive` does, through a gate of the caller's, which is asked before each job and
/// told after it. What is written is the same for every gate with which the plan is finished.
pub fn run_drive_through<G: Gate + Sync, T: Threads + Wait + Sync, R: Source, W: Sink>(
    rt: &T,
    alloc: Global,
    workers: usize,
    gate: &G,
    source: &mut R,
    sink: &mut W,
) -> Result<DriveEnd, RunFault>
    requires workers { (0 < workers) × (workers ≤ 16) }
    requires source_working { R.failed source.old ≡ false }
    requires source_begins { R.ended source.old ≡ false }
    requires sink_working { W.failed sink.old ≡ false }

    // The whole plan is read, and the text of its end is written.
    ensures drives { IfOk result (λ end. Drives (R.left source.old) (R.left source.new) (W.taken sink.old) (W.taken sink.new) end) }
    ensures end { OnOk result (R.ended source.new ≡ true) }
    ensures whole { OnOk result (IsAtEnd (R.left source.new)) }
    ensures working { OnOk result ((R.failed source.new ≡ false) × (W.failed sink.new ≡ false)) }

    // After a write that failed a prefix of that text is written; after any other fault nothing is.
    ensures stops { IfErr result (λ fault. StopsDriving (R.left source.old) (R.left source.new) (W.taken sink.old) (W.taken sink.new) (R.failed source.new) (W.failed sink.new) fault) }
    ensures whole_before_write { IfErr result (λ fault. fault ≡ RunFault.Write → (R.ended source.new ≡ true) × IsAtEnd (R.left source.new)) }
    ensures untouched { IfErr result (λ fault. fault ≢ RunFault.Write → sink.new ≡ sink.old) }
{
    let plan = read_input::<R, AllocError>(alloc, source)?;
    let Ok((end, text)) = tell(rt, alloc, &plan, workers, gate) else {
        return Err(RunFault::Memory);
    };
    match put_all(sink, &text) {
        Ok(()) => Ok(end),
        Err(_) => Err(RunFault::Write),
    }
}

/// Drives the plan that a source has left, of at most 268,435,456 bytes, with so many workers, 1 to 16, each in a thread of its
/// own, and writes a line for each of its jobs, in order of number; or where it has no outcome the line of its fault. All drives of
/// a plan that are finished write the same, by any number of workers. Nothing is written before the plan was driven.
///
/// A plan that is refused because memory ran out, `Refused(Memory)`, leaves nothing written. Whichever other fault comes first stops
/// it: a read that fails is `Read`, a plan that is too long `TooLong`, running out of memory for the input or for the text
/// `Memory`, a write that fails or takes none `Write`; it answers no other.
pub fn run_drive<T: Threads + Wait + Sync, R: Source, W: Sink>(
    rt: &T,
    alloc: Global,
    workers: usize,
    source: &mut R,
    sink: &mut W,
) -> Result<DriveEnd, RunFault>
    requires workers { (0 < workers) × (workers ≤ 16) }
    requires source_working { R.failed source.old ≡ false }
    requires source_begins { R.ended source.old ≡ false }
    requires sink_working { W.failed sink.old ≡ false }

    // The whole plan is read, and the text of its end is written.
    ensures drives { IfOk result (λ end. Drives (R.left source.old) (R.left source.new) (W.taken sink.old) (W.taken sink.new) end) }
    ensures end { OnOk result (R.ended source.new ≡ true) }
    ensures whole { OnOk result (IsAtEnd (R.left source.new)) }
    ensures working { OnOk result ((R.failed source.new ≡ false) × (W.failed sink.new ≡ false)) }

    // After a write that failed a prefix of that text is written; after any other fault nothing is.
    ensures stops { IfErr result (λ fault. StopsDriving (R.left source.old) (R.left source.new) (W.taken sink.old) (W.taken sink.new) (R.failed source.new) (W.failed sink.new) fault) }
    ensures whole_before_write { IfErr result (λ fault. fault ≡ RunFault.Write → (R.ended source.new ≡ true) × IsAtEnd (R.left source.new)) }
    ensures untouched { IfErr result (λ fault. fault ≢ RunFault.Write → sink.new ≡ sink.old) }
{
    run_drive_through(rt, alloc, workers, &OpenGate, source, sink)
}

/// The exit status of `market drive`: 0 where all jobs are done, 1 where the plan is refused, and 3 where memory ran out and after
/// any other fault. A market that is not opened would be 2, as in every engine; `run_drive` never answers so. It takes no memory.
pub fn status_of_drive(driven: &Result<DriveEnd, RunFault>) -> u8
    ensures exact { result ≡ drive_status driven.now }
{
    match driven {
        Ok(DriveEnd::Finished) => 0,
        Ok(DriveEnd::Refused(DriveFault::Memory)) => 3,
        Ok(DriveEnd::Refused(_)) => 1,
        Err(RunFault::Open(_)) => 2,
        Err(_) => 3,
    }
}
