//! Journals that are drawn, with their statuses.
ghost use Rattle.std.specs.Prelude.{◌≡◌, ◌≤◌, false, length};

use crate::asserts::{holds, same};
use byte_devices::{Refusal, TestSink, TestSource};
use journal_replay::Verdict;
use market_prog::{RunFault, run_chart, status_of_replay};
use market_types::ArenaId;
use market_words::ChartOptions;
use std::alloc::Global;
use std::process::Abort;
use std::rt::HostRuntime;

const JOURNAL: &[u8] = b"\
{\"base\":8,\"hard\":64,\"journal\":1,\"seats\":4}
{\"cmd\":\"open 8 1 normal\",\"reply\":\"arena 1\",\"seat\":0}
{\"cmd\":\"request 1 3 0\",\"reply\":\"request 3\",\"seat\":0}
{\"cmd\":\"join\",\"reply\":\"placed 1\",\"seat\":1}
";

/// The same with another reply.
const WRONG: &[u8] = b"\
{\"base\":8,\"hard\":64,\"journal\":1,\"seats\":4}
{\"cmd\":\"open 8 1 normal\",\"reply\":\"arena 2\",\"seat\":0}
";

/// Arena 1 alone. A growth that is refused is asked for again.
fn first_arena(rt: &impl Abort, alloc: Global) -> Vec<ArenaId>
    ensures { length result.items ≤ 16 }
{
    let first = [ArenaId::new(1)];
    if let Ok(arenas) = Vec::from_slice(alloc, &first) {
        return arenas;
    }
    let Ok(arenas) = Vec::from_slice(alloc, &first) else {
        panic!(rt; "no memory");
    };
    arenas
}

/// A sink with room for a small picture. A growth that is refused is asked for again.
fn roomy_sink(rt: &impl Abort, alloc: Global) -> TestSink
    ensures { result.failed ≡ false }
{
    if let Ok(memory) = Vec::with_capacity(alloc, 16_384) {
        return TestSink::new(memory);
    }
    let Ok(memory) = Vec::with_capacity(alloc, 16_384) else {
        panic!(rt; "no memory");
    };
    TestSink::new(memory)
}

/// What comes of drawing arena 1 from one entry on to another, in four columns, and what is written of it.
pub(crate) fn draw(
    rt: &impl Abort,
    alloc: Global,
    journal: &'static [u8],
    from: u32,
    to: u32,
) -> (Result<Verdict, RunFault>, TestSink)
    requires { 1 ≤ from }
{
    draw_into(rt, alloc, roomy_sink(rt, alloc), journal, from, to)
}

/// The same, into this sink.
fn draw_into(
    rt: &impl Abort,
    alloc: Global,
    sink: TestSink,
    journal: &'static [u8],
    from: u32,
    to: u32,
) -> (Result<Verdict, RunFault>, TestSink)
    requires from { 1 ≤ from }
    requires working { sink.failed ≡ false }
{
    let options = ChartOptions {
        width: 4,
        from,
        to,
        arenas: first_arena(rt, alloc),
        progress: false,
    };
    let mut source = TestSource::new(journal);
    let mut sink = sink;
    let told = run_chart(alloc, &options, &mut source, &mut sink);
    drop(options);
    (told, sink)
}

/// Whether the picture that is written has this text.
fn has(rt: &impl Abort, alloc: Global, sink: &TestSink, text: &str) -> bool {
    let Ok(taken) = Vec::from_slice(alloc, sink.taken()) else {
        panic!(rt; "no memory");
    };
    let Ok(picture) = String::from_utf8(taken) else {
        panic!(rt; "no text");
    };
    picture.as_str().contains(text)
}

#[test]
fn a_legal_journal_is_drawn(rt: HostRuntime) {
    let (told, sink) = draw(&rt, rt.alloc(), JOURNAL, 1, 9);
    holds(&rt, matches!(&told, Ok(Verdict::Legal(3))));
    same(&rt, status_of_replay(&told), 0);
    holds(&rt, sink.taken().starts_with(b"<svg "));
    holds(&rt, sink.taken().ends_with(b"</svg>\n"));
    let last = "<title>entry 3: arena 1, level 2, request 3, allotment 3, active 1</title>";
    holds(&rt, has(&rt, rt.alloc(), &sink, last));
    drop(sink);
}

#[test]
fn entries_are_drawn_from_one_on_to_another(rt: HostRuntime) {
    let (told, sink) = draw(&rt, rt.alloc(), JOURNAL, 2, 2);
    holds(&rt, matches!(&told, Ok(Verdict::Legal(3))));
    let second = "<title>entry 2: arena 1, level 2, request 3, allotment 3, active 0</title>";
    holds(&rt, has(&rt, rt.alloc(), &sink, second));
    holds(&rt, !has(&rt, rt.alloc(), &sink, "entry 1: "));
    holds(&rt, !has(&rt, rt.alloc(), &sink, "entry 3: "));
    drop(sink);
}

#[test]
fn a_journal_that_is_not_legal_is_not_drawn(rt: HostRuntime) {
    let (told, sink) = draw(&rt, rt.alloc(), WRONG, 1, 9);
    holds(&rt, matches!(&told, Ok(Verdict::WrongReply(2, _))));
    same(&rt, status_of_replay(&told), 1);
    holds(&rt, sink.taken().is_empty());
    drop(sink);
}

/// A picture goes out in several writes: whichever of them is refused, and after how many bytes, what went out is a prefix of it.
#[test]
fn a_refused_write_leaves_a_prefix_of_the_picture(rt: HostRuntime) {
    let (told, whole) = draw(&rt, rt.alloc(), JOURNAL, 1, 9);
    holds(&rt, matches!(&told, Ok(Verdict::Legal(3))));
    let size = whole.taken().len();
    holds(&rt, size > 1_024);
    for step in 0..size / 61 {
        let room = step * 61;
        for refusal in [Refusal::Fault, Refusal::NoneTaken] {
            let sink = roomy_sink(&rt, rt.alloc()).refusing_after(room, refusal);
            let (told, sink) = draw_into(&rt, rt.alloc(), sink, JOURNAL, 1, 9);
            holds(&rt, matches!(&told, Err(RunFault::Write)));
            holds(&rt, sink.taken() == &whole.taken()[..room]);
            drop(sink);
        }
    }
    drop(whole);
}
