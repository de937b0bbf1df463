//! The longest inputs that are read, and lines as long as a piece of an input: where memory is ample they have their answers. Those of
//! one piece more are too long.
ghost use Rattle.std.specs.Prelude.{◌≡◌, ◌<◌, false};

use crate::asserts::{holds, same};
use crate::endless::Repeated;
use crate::work::{new_sink, work_script};
use byte_devices::{TestSink, TestSource};
use market_prog::{DriveEnd, RunFault, run_drive, run_replay};
use market_words::{ScriptTask, USUAL_MARKET};
use std::alloc::{AllocError, Global};
use std::process::Abort;
use std::rt::HostRuntime;
use std::sync::Wait;
use std::thread::Threads;

/// The most pieces of 64 bytes that an input has.
const MOST: u32 = 4_194_304;

/// A piece of a comment.
const HASHES: &[u8] = b"################################################################";

/// A text of one piece, and behind it a comment, of so many pieces together.
fn before_hashes(text: &'static [u8], pieces: u32) -> Repeated
    requires some { 0 < pieces }
    ensures { result.ended ≡ false }
{
    Repeated::new(text, HASHES, pieces - 1)
}

/// A script of 64 bytes.
const SCRIPT: &[u8] = b"\
0 open 8 1 normal
0 request 1 3 0
0 show 1
# twenty more bytes.
";

const REPLIES: &[u8] = b"\
arena 1
request 3
arena 1 request 3 allot 3 top yes active 0 recall 0 hire 3
";

const JOURNAL: &[u8] = b"\
{\"base\":8,\"hard\":64,\"journal\":2,\"levels\":3,\"seats\":4}
{\"cmd\":\"open 8 1 normal\",\"reply\":\"arena 1\",\"seat\":0}
{\"cmd\":\"request 1 3 0\",\"reply\":\"request 3\",\"seat\":0}
{\"cmd\":\"show 1\",\"reply\":\"arena 1 request 3 allot 3 top yes active 0 recall 0 hire 3\",\"seat\":0}
";

const EXPLANATION: &[u8] = b"\
value 8 limit 7 effective 7 demand 3 workers 3
level high   demand        0 assigned     0 left     3
level normal demand        3 assigned     3 left     0
arena       1 request     3 carry        0 product          9 allot     3 rest        0 top yes active     0 recall     0 hire     3
level low    demand        0 assigned     0 left     0
";

/// What is written of the script before a comment of so many pieces, which is told so.
fn written_of(
    rt: &impl Abort,
    alloc: Global,
    task: ScriptTask,
    pieces: u32,
    told: Result<u64, RunFault>,
) -> TestSink
    requires some { 0 < pieces }
{
    let mut source = before_hashes(SCRIPT, pieces);
    let mut sink = new_sink(rt, alloc);
    let options = USUAL_MARKET;
    same(
        rt,
        work_script(alloc, task, options, &mut source, &mut sink),
        told,
    );
    sink
}

#[test]
fn a_script_has_268_435_456_bytes_at_most(rt: HostRuntime) {
    let alloc = rt.alloc();
    for (task, due) in [
        (ScriptTask::Answer, REPLIES),
        (ScriptTask::Journal, JOURNAL),
        (ScriptTask::Explain, EXPLANATION),
    ] {
        let sink = written_of(&rt, alloc, task, MOST, Ok(0));
        same(&rt, sink.taken(), due);
        drop(written_of(&rt, alloc, task, MOST + 1, Err(RunFault::TooLong)));
    }
}

/// The header of a journal, of 64 bytes.
const HEADER: &[u8] = b"{\"base\":8,\"hard\":64,\"journal\":1,\"seats\":4}                     \n";

const ENDLESS: &[u8] =
    b"{\"base\":8,\"hard\":64,\"journal\":3,\"last\":1048576,\"levels\":3,\"seats\":4}\n";

/// A journal of this header and so many pieces is told by this line, or is too long where there is none.
fn is_replayed(
    rt: &impl Abort,
    alloc: Global,
    header: &'static [u8],
    pieces: u32,
    line: Option<&[u8]>,
)
    requires some { 0 < pieces }
{
    let mut source = before_hashes(header, pieces);
    let mut sink = new_sink(rt, alloc);
    match run_replay(alloc, &mut source, &mut sink) {
        Ok(_) => same(rt, Some(sink.taken()), line),
        Err(fault) => holds(rt, fault == RunFault::TooLong && line.is_none()),
    }
}

#[test]
fn a_journal_of_version_1_has_268_435_456_bytes_at_most(rt: HostRuntime) {
    let line = b"J2 bad json line 2\n".as_slice();
    is_replayed(&rt, rt.alloc(), HEADER, MOST, Some(line));
    is_replayed(&rt, rt.alloc(), HEADER, MOST + 1, None);
    is_replayed(&rt, rt.alloc(), ENDLESS, MOST + 1, Some(line));
}

/// A plan of 64 bytes.
const PLAN: &[u8] = b"\
market 8 64
arena 8 1 normal 2 0
arena 8 1 low 1 0
job 1 sum 10
";

/// The plan before a comment of so many pieces ends so, and this is written.
fn ends<R: Threads + Wait + Sync + Abort>(
    rt: &R,
    alloc: Global,
    pieces: u32,
    end: Result<DriveEnd, RunFault>,
    written: &[u8],
)
    requires some { 0 < pieces }
{
    let mut source = before_hashes(PLAN, pieces);
    let mut sink = new_sink(rt, alloc);
    same(rt, run_drive(rt, alloc, 2, &mut source, &mut sink), end);
    same(rt, sink.taken(), written);
    drop(sink);
}

/// All of it is read into memory before it is driven: some 270 MB.
#[test]
fn a_plan_has_268_435_456_bytes_at_most(rt: HostRuntime) {
    ends(&rt, rt.alloc(), MOST, Ok(DriveEnd::Finished), b"job 1 55\n");
    ends(&rt, rt.alloc(), MOST + 1, Err(RunFault::TooLong), b"");
}

/// Three lines that are no command: of 65,536 digits, of as many bytes that are not UTF-8, and of a few.
fn unread_lines(alloc: Global) -> Result<Vec<u8>, AllocError> {
    let mut text = Vec::new(alloc);
    for byte in [b'0', b'\xff'] {
        for _ in 0..65_536 {
            text.push(byte)?;
        }
        text.push(b'\n')?;
    }
    text.extend_from_slice(b"0 show \xff\n")?;
    Ok(text)
}

/// The explanation of a market without arenas.
const NO_ARENA: &[u8] = b"\
value 8 limit 7 effective 7 demand 0 workers 0
level high   demand        0 assigned     0 left     0
level normal demand        0 assigned     0 left     0
level low    demand        0 assigned     0 left     0
";

#[test]
fn a_long_line_and_one_that_is_not_utf8_are_unread(rt: HostRuntime) {
    let Ok(text) = unread_lines(rt.alloc()) else {
        panic!(&rt; "no memory");
    };
    let header = b"{\"base\":8,\"hard\":64,\"journal\":2,\"levels\":3,\"seats\":4}\n";
    for (task, due) in [
        (ScriptTask::Answer, b"unread\nunread\nunread\n".as_slice()),
        (ScriptTask::Journal, header.as_slice()),
        (ScriptTask::Explain, NO_ARENA),
    ] {
        let mut source = TestSource::new(&text);
        let mut sink = new_sink(&rt, rt.alloc());
        let options = USUAL_MARKET;
        same(
            &rt,
            work_script(rt.alloc(), task, options, &mut source, &mut sink),
            Ok(3),
        );
        same(&rt, sink.taken(), due);
        drop(sink);
    }
}
