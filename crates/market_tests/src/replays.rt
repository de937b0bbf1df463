//! Journals that are replayed, with their statuses, beside those of `example_scripts`.

use crate::asserts::{holds, same};
use crate::endless::Repeated;
use crate::work::new_sink;
use byte_devices::TestSource;
use journal_replay::Verdict;
use market_prog::{run_replay, status_of_replay};
use std::alloc::Global;
use std::process::Abort;
use std::rt::HostRuntime;

const JOURNAL: &[u8] = b"\
{\"base\":8,\"hard\":64,\"journal\":1,\"seats\":4}
{\"cmd\":\"open 8 1 normal\",\"reply\":\"arena 1\",\"seat\":0}
{\"cmd\":\"request 1 3 0\",\"reply\":\"request 3\",\"seat\":0}
{\"cmd\":\"show 1\",\"reply\":\"arena 1 request 3 allot 3 top yes active 0 recall 0 hire 3\",\"seat\":0}
";

/// The same without its second line.
const WITHOUT_ITS_OPEN: &[u8] = b"\
{\"base\":8,\"hard\":64,\"journal\":1,\"seats\":4}
{\"cmd\":\"request 1 3 0\",\"reply\":\"request 3\",\"seat\":0}
{\"cmd\":\"show 1\",\"reply\":\"arena 1 request 3 allot 3 top yes active 0 recall 0 hire 3\",\"seat\":0}
";

const LEGAL: &[u8] = b"legal 3\n";

const REFUSED: &[u8] = b"J4 wrong reply line 2 due F05 no arena\n";

#[test]
fn a_legal_journal_is_told_with_its_entries(rt: HostRuntime) {
    let mut source = TestSource::new(JOURNAL);
    let mut sink = new_sink(&rt, rt.alloc());
    let told = run_replay(rt.alloc(), &mut source, &mut sink);
    same(&rt, sink.taken(), LEGAL);
    holds(&rt, matches!(&told, Ok(Verdict::Legal(3))));
    same(&rt, status_of_replay(&told), 0);
    drop(sink);
}

#[test]
fn a_changed_journal_is_told_by_its_first_fault(rt: HostRuntime) {
    let mut source = TestSource::new(WITHOUT_ITS_OPEN);
    let mut sink = new_sink(&rt, rt.alloc());
    let told = run_replay(rt.alloc(), &mut source, &mut sink);
    same(&rt, sink.taken(), REFUSED);
    holds(&rt, matches!(&told, Ok(Verdict::WrongReply(2, _))));
    same(&rt, status_of_replay(&told), 1);
    drop(sink);
}

const LIMITED: &[u8] = b"{\"base\":8,\"hard\":64,\"journal\":2,\"levels\":3,\"seats\":4}\n";

const ENDLESS: &[u8] =
    b"{\"base\":8,\"hard\":64,\"journal\":3,\"last\":1048576,\"levels\":3,\"seats\":4}\n";

/// The journal of this header and so many calls for the limit is told by this line.
fn limits_are_told(rt: &impl Abort, alloc: Global, header: &'static [u8], calls: u32, line: &[u8]) {
    let call = b"{\"cmd\":\"limit\",\"reply\":\"value 8 limit 7 effective 7\",\"seat\":0}\n";
    let mut source = Repeated::new(header, call, calls);
    let mut sink = new_sink(rt, alloc);
    let told = run_replay(alloc, &mut source, &mut sink);
    holds(rt, told.is_ok());
    same(rt, sink.taken(), line);
    drop(sink);
}

#[test]
fn a_journal_of_version_2_has_1_048_576_entries_at_most(rt: HostRuntime) {
    limits_are_told(&rt, rt.alloc(), LIMITED, 1_048_576, b"legal 1048576\n");
    let more = b"J3 bad record line 1048578\n";
    limits_are_told(&rt, rt.alloc(), LIMITED, 1_048_577, more);
}

#[test]
fn a_journal_of_version_3_has_more_entries(rt: HostRuntime) {
    limits_are_told(&rt, rt.alloc(), ENDLESS, 1_048_577, b"legal 1048577\n");
}
