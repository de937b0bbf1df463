//! Journals of scripts, beside those of `example_scripts`.

use crate::asserts::{holds, same};
use crate::endless::{LineCount, Repeated};
use crate::work::new_sink;
use byte_devices::TestSource;
use market_prog::{RunFault, run_journal, status_of_run};
use market_types::{LastNumber, Opening};
use market_words::USUAL_MARKET;
use std::rt::HostRuntime;

/// The fourth control has no number.
const LAST_IS_THREE: &[u8] = b"\
{\"base\":8,\"hard\":64,\"journal\":3,\"last\":3,\"levels\":3,\"seats\":4}
{\"cmd\":\"control 9\",\"reply\":\"control 1\",\"seat\":0}
{\"cmd\":\"control 9\",\"reply\":\"control 2\",\"seat\":0}
{\"cmd\":\"control 9\",\"reply\":\"control 3\",\"seat\":0}
{\"cmd\":\"control 9\",\"reply\":\"F04 out of numbers\",\"seat\":0}
";

#[test]
fn a_journal_tells_another_last_number(rt: HostRuntime) {
    let Some(last) = LastNumber::new(3) else {
        panic!(&rt; "no last number");
    };
    let options = Opening {
        last,
        ..USUAL_MARKET
    };
    let mut source = TestSource::new(b"0 control 9\n0 control 9\n0 control 9\n0 control 9\n");
    let mut sink = new_sink(&rt, rt.alloc());
    let told = run_journal(rt.alloc(), options, &mut source, &mut sink);
    same(&rt, told, Ok(0));
    same(&rt, sink.taken(), LAST_IS_THREE);
    drop(sink);
}

#[test]
fn a_history_with_a_call_too_many_is_full(rt: HostRuntime) {
    let mut source = Repeated::new(b"0 limit\n", b"0 limit\n", 1_048_576);
    let mut sink = new_sink(&rt, rt.alloc());
    let told = run_journal(rt.alloc(), USUAL_MARKET, &mut source, &mut sink);
    same(&rt, told, Err(RunFault::HistoryFull));
    same(&rt, status_of_run(&told), 3);
    holds(&rt, sink.taken().is_empty());
    drop(sink);
}

#[test]
fn a_history_has_1_048_576_calls_at_most(rt: HostRuntime) {
    let mut source = Repeated::new(b"0 limit\n", b"0 limit\n", 1_048_575);
    let mut sink = LineCount::new();
    let told = run_journal(rt.alloc(), USUAL_MARKET, &mut source, &mut sink);
    same(&rt, told, Ok(0));
    same(&rt, sink.lines(), 1_048_577);
}
