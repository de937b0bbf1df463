//! The engines.
ghost use Rattle.std.specs.Prelude.{◌≡◌, false};

use crate::asserts::{holds, same};
use crate::charts::draw;
use byte_devices::{TestSink, TestSource};
use journal_replay::Verdict;
use market_prog::{RunFault, explain_script, run_journal, run_replay, run_script};
use market_words::USUAL_MARKET;
use std::alloc::Global;
use std::process::Abort;
use std::rt::HostRuntime;

/// A line of 40 bytes, and the commands that take memory. A piece of 20 bytes ends within a line.
const SCRIPT: &[u8] =
    b"# open, ask, list, control, all at once.\n0 open 8 1 normal\n0 request 1 3 0\n0 lists\n0 control 4\n";

const REPLIES: &[u8] = b"arena 1\nrequest 3\nrecall - hire 1:3\ncontrol 1\n";

pub(crate) const JOURNAL: &[u8] = b"\
{\"base\":8,\"hard\":64,\"journal\":2,\"levels\":3,\"seats\":4}
{\"cmd\":\"open 8 1 normal\",\"reply\":\"arena 1\",\"seat\":0}
{\"cmd\":\"request 1 3 0\",\"reply\":\"request 3\",\"seat\":0}
{\"cmd\":\"lists\",\"reply\":\"recall - hire 1:3\",\"seat\":0}
{\"cmd\":\"control 4\",\"reply\":\"control 1\",\"seat\":0}
";

const EXPLANATION: &[u8] = b"\
value 4 limit 3 effective 3 demand 3 workers 3
level high   demand        0 assigned     0 left     3
level normal demand        3 assigned     3 left     0
arena       1 request     3 carry        0 product          9 allot     3 rest        0 top yes active     0 recall     0 hire     3
level low    demand        0 assigned     0 left     0
";

/// A journal of version 1 with another reply than the one that is due.
const WRONG: &[u8] = b"\
{\"base\":8,\"hard\":64,\"journal\":1,\"seats\":4}
{\"cmd\":\"open 8 1 normal\",\"reply\":\"arena 2\",\"seat\":0}
";

/// What a script is given to.
#[derive(Clone, Copy)]
pub(crate) enum Engine {
    Run,
    Journal,
    Explain,
}

impl Engine {
    /// What it writes of the script.
    fn due(self) -> &'static [u8] {
        match self {
            Engine::Run => REPLIES,
            Engine::Journal => JOURNAL,
            Engine::Explain => EXPLANATION,
        }
    }

    /// Gives it the script in pieces, and says what came of it with what was written.
    pub(crate) fn run(self, rt: &impl Abort, alloc: Global) -> (Result<u64, RunFault>, TestSink) {
        let mut source = TestSource::new(SCRIPT).in_pieces_of(20);
        let mut sink = new_sink(rt, alloc);
        let told = match self {
            Engine::Run => run_script(alloc, USUAL_MARKET, &mut source, &mut sink),
            Engine::Journal => run_journal(alloc, USUAL_MARKET, &mut source, &mut sink),
            Engine::Explain => explain_script(alloc, USUAL_MARKET, &mut source, &mut sink),
        };
        (told, sink)
    }

    /// It writes what is due. Where a growth is refused it says so and has written a prefix of that, and the next run is whole.
    fn is_told(self, rt: &impl Abort, alloc: Global) {
        let (told, sink) = self.run(rt, alloc);
        if told == Ok(0) {
            same(rt, sink.taken(), self.due());
            return;
        }
        same(rt, told, Err(RunFault::Memory));
        holds(rt, self.due().starts_with(sink.taken()));
        let (told, sink) = self.run(rt, alloc);
        same(rt, told, Ok(0));
        same(rt, sink.taken(), self.due());
    }
}

/// A sink with room for all that is written.
pub(crate) fn new_sink(rt: &impl Abort, alloc: Global) -> TestSink
    ensures { result.failed ≡ false }
{
    if let Ok(memory) = Vec::with_capacity(alloc, 4096) {
        return TestSink::new(memory);
    }
    let Ok(memory) = Vec::with_capacity(alloc, 4096) else {
        panic!(rt; "no memory");
    };
    TestSink::new(memory)
}

#[test]
fn a_refused_growth_is_told_and_leaves_a_prefix(rt: HostRuntime) {
    Engine::Run.is_told(&rt, rt.alloc());
}

#[test]
fn a_refused_growth_is_told_and_leaves_a_prefix_of_the_journal(rt: HostRuntime) {
    Engine::Journal.is_told(&rt, rt.alloc());
}

#[test]
fn a_refused_growth_is_told_and_leaves_a_prefix_of_the_explanation(rt: HostRuntime) {
    Engine::Explain.is_told(&rt, rt.alloc());
}

/// Replays a journal in pieces, and says what came of it with what was written.
pub(crate) fn replay(
    rt: &impl Abort,
    alloc: Global,
    journal: &[u8],
) -> (Result<Verdict, RunFault>, TestSink) {
    let mut source = TestSource::new(journal).in_pieces_of(20);
    let mut sink = new_sink(rt, alloc);
    let told = run_replay(alloc, &mut source, &mut sink);
    (told, sink)
}

/// The line of the journal's verdict is written. Where a growth is refused nothing is, and the next run is whole.
fn is_replayed(rt: &impl Abort, alloc: Global, journal: &[u8], line: &[u8]) {
    let (told, sink) = replay(rt, alloc, journal);
    if told.is_ok() {
        same(rt, sink.taken(), line);
        return;
    }
    holds(rt, matches!(&told, Err(RunFault::Memory)));
    holds(rt, sink.taken().is_empty());
    let (told, sink) = replay(rt, alloc, journal);
    holds(rt, told.is_ok());
    same(rt, sink.taken(), line);
}

#[test]
fn a_refused_growth_is_told_and_no_verdict(rt: HostRuntime) {
    is_replayed(&rt, rt.alloc(), JOURNAL, b"legal 4\n");
}

#[test]
fn a_refused_growth_is_told_and_no_due_reply(rt: HostRuntime) {
    let line = b"J4 wrong reply line 2 due arena 1\n";
    is_replayed(&rt, rt.alloc(), WRONG, line);
}

#[test]
fn a_refused_growth_is_told_and_no_picture(rt: HostRuntime) {
    let (told, sink) = draw(&rt, rt.alloc(), JOURNAL, 1, 9);
    if told.is_ok() {
        holds(&rt, sink.taken().ends_with(b"</svg>\n"));
        return;
    }
    holds(&rt, matches!(&told, Err(RunFault::Memory)));
    holds(&rt, sink.taken().is_empty());
    let (told, sink) = draw(&rt, rt.alloc(), JOURNAL, 1, 9);
    holds(&rt, told.is_ok());
    holds(&rt, sink.taken().ends_with(b"</svg>\n"));
}
