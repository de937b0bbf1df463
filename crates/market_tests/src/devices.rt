//! Devices that fail or never end, and what is asked before any byte is read.

use crate::asserts::{holds, same};
use crate::endless::Hashes;
use crate::work::{new_sink, work_script};
use byte_devices::TestSource;
use market_prog::{RunFault, run_replay, run_script, status_of_replay, status_of_run};
use market_types::{OpenFault, Opening};
use market_words::{ScriptTask, USUAL_MARKET};
use std::rt::HostRuntime;

const HIRED: &[u8] = b"0 open 8 1 normal\n0 request 1 3 0\n0 show 1\n";

const HIRED_REPLIES: &[u8] =
    b"arena 1\nrequest 3\narena 1 request 3 allot 3 top yes active 0 recall 0 hire 3\n";

/// The replies to the lines that end within the first bytes of the script.
fn replies_due(bytes: usize) -> &'static [u8] {
    match bytes {
        0..18 => b"",
        18..34 => b"arena 1\n",
        34..43 => b"arena 1\nrequest 3\n",
        _ => HIRED_REPLIES,
    }
}

#[test]
fn replies_that_are_due_are_written_before_each_read(rt: HostRuntime) {
    for size in [1, 7, 20, 43] {
        // The script takes so many reads, and one that finds its end.
        let reads = HIRED.len().div_ceil(size) + 1;
        for good in 0..=reads {
            let mut source = TestSource::new(HIRED)
                .in_pieces_of(size)
                .failing_after(good as u64);
            let mut sink = new_sink(&rt, rt.alloc());
            let told = run_script(rt.alloc(), USUAL_MARKET, &mut source, &mut sink);
            let wanted = if good < reads {
                Err(RunFault::Read)
            } else {
                Ok(0)
            };
            assert!(&rt; told == wanted, "{good} reads of {size} bytes");
            same(&rt, sink.taken(), replies_due(good * size));
            drop(sink);
        }
    }
}

#[test]
fn a_script_without_end_is_too_long(rt: HostRuntime) {
    for task in [ScriptTask::Answer, ScriptTask::Journal, ScriptTask::Explain] {
        let mut sink = new_sink(&rt, rt.alloc());
        let told = work_script(rt.alloc(), task, USUAL_MARKET, &mut Hashes, &mut sink);
        same(&rt, told, Err(RunFault::TooLong));
        same(&rt, status_of_run(&told), 3);
        holds(&rt, sink.taken().is_empty());
        drop(sink);
    }
}

#[test]
fn a_journal_without_end_is_too_long(rt: HostRuntime) {
    let mut sink = new_sink(&rt, rt.alloc());
    let told = run_replay(rt.alloc(), &mut Hashes, &mut sink);
    holds(&rt, matches!(&told, Err(RunFault::TooLong)));
    same(&rt, status_of_replay(&told), 3);
    holds(&rt, sink.taken().is_empty());
    drop(sink);
}

#[test]
fn a_market_that_cannot_be_opened_reads_nothing(rt: HostRuntime) {
    for task in [ScriptTask::Answer, ScriptTask::Journal, ScriptTask::Explain] {
        for levels in [0, 9] {
            let options = Opening {
                levels,
                ..USUAL_MARKET
            };
            let mut source = TestSource::new(HIRED);
            let mut sink = new_sink(&rt, rt.alloc());
            let told = work_script(rt.alloc(), task, options, &mut source, &mut sink);
            same(&rt, told, Err(RunFault::Open(OpenFault::BadLevels)));
            holds(&rt, sink.taken().is_empty());
            drop(sink);
        }
    }
}
