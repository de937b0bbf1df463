//! Every engine over inputs that come, and outputs that go, byte by byte, in pieces of uneven sizes, or whole: each read and each byte
//! written fails in turn.
ghost use Rattle.std.specs.Prelude.{◌≡◌, ◌<◌, ◌≤◌, false};

use crate::asserts::{holds, same};
use crate::work::new_sink;
use byte_devices::{DeviceFault, Refusal, Sink, Source, TestSink, TestSource};
use market_prog::{RunFault, explain_script, run_drive, run_journal, run_replay, run_script};
use market_words::USUAL_MARKET;
use std::alloc::Global;
use std::process::Abort;
use std::rt::HostRuntime;
use std::sync::Wait;
use std::thread::Threads;

const SCRIPT: &[u8] = b"0 open 8 1 normal\n0 request 1 3 0\n0 show 1\n";

const REPLIES: &[u8] =
    b"arena 1\nrequest 3\narena 1 request 3 allot 3 top yes active 0 recall 0 hire 3\n";

const JOURNAL: &[u8] = b"\
{\"base\":8,\"hard\":64,\"journal\":2,\"levels\":3,\"seats\":4}
{\"cmd\":\"open 8 1 normal\",\"reply\":\"arena 1\",\"seat\":0}
{\"cmd\":\"request 1 3 0\",\"reply\":\"request 3\",\"seat\":0}
{\"cmd\":\"show 1\",\"reply\":\"arena 1 request 3 allot 3 top yes active 0 recall 0 hire 3\",\"seat\":0}
";

/// Five workers for two arenas of three.
const FIVE: &[u8] = b"0 control 6\n0 open 8 1 normal\n0 open 8 1 normal\n0 open 8 1 normal\n\
    0 request 1 3\n0 request 3 4\n";

const FIVE_EXPLAINED: &[u8] = b"\
value 6 limit 5 effective 5 demand 7 workers 5
level high   demand        0 assigned     0 left     5
level normal demand        7 assigned     5 left     0
arena       3 request     4 carry        0 product         20 allot     2 rest        6 top yes active     0 recall     0 hire     2
arena       2 request     0 carry        - product          - allot     0 rest        - top no  active     0 recall     0 hire     0
arena       1 request     3 carry        6 product         21 allot     3 rest        0 top yes active     0 recall     0 hire     3
level low    demand        0 assigned     0 left     0
";

const PLAN: &[u8] = b"market 8 64\narena 8 1 normal 2 0\njob 1 sum 10\njob 1 digits 9081\n";

const OUTCOME: &[u8] = b"job 1 55\njob 2 18\n";

/// How many bytes each piece has.
#[derive(Clone, Copy)]
enum Sizes {
    /// One.
    Single,
    /// From 1 to 16, which look random, the same ones for the same seed.
    Uneven(u32),
    /// As many as there are.
    Whole,
}

impl Sizes {
    /// The next one.
    fn next(&mut self) -> usize
        ensures { 0 < result }
    {
        match self {
            Sizes::Single => 1,
            Sizes::Uneven(state) => {
                *state = state.wrapping_mul(1_664_525).wrapping_add(1_013_904_223);
                (*state >> 28) as usize + 1
            }
            Sizes::Whole => usize::MAX,
        }
    }
}

/// A source whose pieces have uneven sizes.
#[derive(Drop)]
struct UnevenSource {
    source: TestSource<'static>,
    sizes: Sizes,
}

impl Source for UnevenSource {
    ghost use Rattle.std.specs.Prelude.{None};

    ghost left = { λ _. None };

    ghost failed = { λ s. s.source.failed };

    ghost ended = { λ s. s.source.ended };

    fn read(&mut self, buffer: &mut [u8]) -> Result<usize, DeviceFault> {
        let count = self.sizes.next().min(buffer.len());
        self.source.read(&mut buffer[..count])
    }

    fn failed(&self) -> bool {
        self.source.failed()
    }

    fn ended(&self) -> bool {
        self.source.ended()
    }
}

/// A sink that takes pieces of uneven sizes.
#[derive(Drop)]
struct UnevenSink {
    sink: TestSink,
    sizes: Sizes,
}

impl Sink for UnevenSink {
    ghost use Rattle.std.specs.Prelude.{None};

    ghost taken = { λ _. None };

    ghost failed = { λ s. s.sink.failed };

    fn write(&mut self, bytes: &[u8]) -> Result<usize, DeviceFault> {
        let count = self.sizes.next().min(bytes.len());
        self.sink.write(&bytes[..count])
    }

    fn failed(&self) -> bool {
        self.sink.failed()
    }
}

/// What reads an input.
#[derive(Clone, Copy, PartialEq, Eq)]
enum Engine {
    Run,
    Journal,
    Explain,
    Replay,
    Drive,
}

const ENGINES: [Engine; 5] = [
    Engine::Run,
    Engine::Journal,
    Engine::Explain,
    Engine::Replay,
    Engine::Drive,
];

impl Engine {
    /// An input.
    fn text(self) -> &'static [u8] {
        match self {
            Engine::Run | Engine::Journal => SCRIPT,
            Engine::Explain => FIVE,
            Engine::Replay => JOURNAL,
            Engine::Drive => PLAN,
        }
    }

    /// What it writes of that.
    fn due(self) -> &'static [u8] {
        match self {
            Engine::Run => REPLIES,
            Engine::Journal => JOURNAL,
            Engine::Explain => FIVE_EXPLAINED,
            Engine::Replay => b"legal 3\n",
            Engine::Drive => OUTCOME,
        }
    }

    /// Works an input, and says what stopped it.
    fn stops<R: Threads + Wait + Sync>(
        self,
        rt: &R,
        alloc: Global,
        source: &mut UnevenSource,
        sink: &mut UnevenSink,
    ) -> Option<RunFault>
        requires source_working { source.old.source.failed ≡ false }
        requires source_begins { source.old.source.ended ≡ false }
        requires sink_working { sink.old.sink.failed ≡ false }
    {
        let usual = USUAL_MARKET;
        match self {
            Engine::Run => run_script(alloc, usual, source, sink).err(),
            Engine::Journal => run_journal(alloc, usual, source, sink).err(),
            Engine::Explain => explain_script(alloc, usual, source, sink).err(),
            Engine::Replay => run_replay(alloc, source, sink).err(),
            Engine::Drive => run_drive(rt, alloc, 2, source, sink).err(),
        }
    }
}

/// The engine's input, of which so many reads succeed.
fn source_of(engine: Engine, sizes: Sizes, reads: u64) -> UnevenSource
    ensures working { result.source.failed ≡ false }
    ensures begins { result.source.ended ≡ false }
{
    UnevenSource {
        source: TestSource::new(engine.text()).failing_after(reads),
        sizes,
    }
}

/// A sink with room for so many bytes.
fn sink_for(
    rt: &impl Abort,
    alloc: Global,
    sizes: Sizes,
    room: usize,
    refusal: Refusal,
) -> UnevenSink
    ensures working { result.sink.failed ≡ false }
{
    UnevenSink {
        sink: new_sink(rt, alloc).refusing_after(room, refusal),
        sizes,
    }
}

/// Each read fails in turn, until none does: so many succeeded. Nothing is written then, but for replies that were due before.
fn fails_at_each_read<R: Threads + Wait + Sync + Abort>(
    rt: &R,
    alloc: Global,
    engine: Engine,
    sizes: Sizes,
) {
    let due = engine.due();
    for reads in 0..1_000_u64 {
        let mut source = source_of(engine, sizes, reads);
        let mut sink = sink_for(rt, alloc, sizes, 4_096, Refusal::Fault);
        let fault = engine.stops(rt, alloc, &mut source, &mut sink);
        let taken = sink.sink.taken();
        if fault.is_none() {
            holds(rt, reads > 1 && taken == due);
            return;
        }
        same(rt, fault, Some(RunFault::Read));
        holds(
            rt,
            due.starts_with(taken) && (taken.is_empty() || engine == Engine::Run),
        );
        drop(sink);
    }
    panic!(rt; "an input without end");
}

#[test]
fn each_read_fails_in_turn(rt: HostRuntime) {
    for engine in ENGINES {
        fails_at_each_read(&rt, rt.alloc(), engine, Sizes::Single);
        fails_at_each_read(&rt, rt.alloc(), engine, Sizes::Uneven(0));
        fails_at_each_read(&rt, rt.alloc(), engine, Sizes::Uneven(1));
        fails_at_each_read(&rt, rt.alloc(), engine, Sizes::Whole);
    }
}

/// Each byte written fails in turn, until none does. Those before it are written.
fn fails_at_each_byte<R: Threads + Wait + Sync + Abort>(
    rt: &R,
    alloc: Global,
    engine: Engine,
    sizes: Sizes,
    refusal: Refusal,
) {
    let due = engine.due();
    for room in 0..=due.len() {
        let mut source = source_of(engine, sizes, 1_000);
        let mut sink = sink_for(rt, alloc, sizes, room, refusal);
        let fault = engine.stops(rt, alloc, &mut source, &mut sink);
        let wanted = if room < due.len() {
            Some(RunFault::Write)
        } else {
            None
        };
        same(rt, fault, wanted);
        same(rt, sink.sink.taken(), &due[..room]);
        drop(sink);
    }
}

#[test]
fn each_byte_fails_in_turn(rt: HostRuntime) {
    for engine in ENGINES {
        for refusal in [Refusal::Fault, Refusal::NoneTaken] {
            fails_at_each_byte(&rt, rt.alloc(), engine, Sizes::Single, refusal);
            fails_at_each_byte(&rt, rt.alloc(), engine, Sizes::Uneven(7), refusal);
            fails_at_each_byte(&rt, rt.alloc(), engine, Sizes::Whole, refusal);
        }
    }
}
