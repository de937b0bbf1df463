//! A market whose calls are recorded, and its journal.
ghost use Rattle.std.specs.Prelude.{◌≡◌, false};

use crate::asserts::{holds, same};
use byte_devices::TestSink;
use edit_history::{CallFault, Chronicle};
use journal_replay::{OutFault, Verdict, check, write_journal};
use market_types::{ArenaId, Cmd, Level, OpenFault, Reply, SeatNo};
use std::alloc::Global;
use std::process::Abort;
use std::rt::HostRuntime;

const JOURNAL: &[u8] = b"\
{\"base\":8,\"hard\":64,\"journal\":2,\"levels\":3,\"seats\":4}
{\"cmd\":\"open 8 1 normal\",\"reply\":\"arena 1\",\"seat\":0}
{\"cmd\":\"request 1 3 0\",\"reply\":\"request 3\",\"seat\":0}
{\"cmd\":\"lists\",\"reply\":\"recall - hire 1:3\",\"seat\":0}
{\"cmd\":\"join\",\"reply\":\"placed 1\",\"seat\":0}
{\"cmd\":\"leave\",\"reply\":\"left 1\",\"seat\":0}
";

/// A journal as other tools spell it: with spaces, another order of keys and escapes, a longer line with one, and a key twice, at
/// first with a text where a number counts.
pub(crate) const FOREIGN: &[u8] = b"\
{\"base\": 8, \"hard\": 64, \"journal\": 2, \"levels\": 3, \"seats\": 4}
{\"seat\": 0, \"cmd\": \"open 8 1 norma\\u006c\", \"reply\": \"arena 1\"}
{\"seat\": 0, \"reply\": \"\\u0072\\u0065\\u0071\\u0075\\u0065\\u0073\\u0074 3\", \"cmd\": \"\\u0072equest 1 3 0\"}
{\"seat\": \"\", \"seat\": 0, \"cmd\": \"lists\", \"reply\": \"recall - hire 1:3\"}
";

/// A chronicle of four seats, opened again where the first growth was refused.
fn opened(rt: &impl Abort, alloc: Global) -> Chronicle
    ensures { result.from ≡ 0 }
{
    match Chronicle::new(alloc, 8, 64, 4, 100, 3) {
        Ok(chronicle) => return chronicle,
        Err(fault) => same(rt, fault, OpenFault::Memory),
    }
    let Ok(chronicle) = Chronicle::new(alloc, 8, 64, 4, 100, 3) else {
        panic!(rt; "no chronicle");
    };
    chronicle
}

/// What seat 0 is answered, asked for again where there was no memory: then nothing had changed.
fn answer(rt: &impl Abort, alloc: Global, chronicle: &mut Chronicle, cmd: &Cmd) -> Reply
    ensures { chronicle.new.from ≡ chronicle.old.from }
{
    let before = (chronicle.len(), chronicle.places(), chronicle.free());
    let last = chronicle.kept().last().map(|entry| entry.call);
    let placed = chronicle.market().placed();
    match chronicle.call(alloc, SeatNo::new(0), *cmd) {
        Ok(reply) => return reply,
        Err(fault) => same(rt, fault, CallFault::Memory),
    }
    same(
        rt,
        (chronicle.len(), chronicle.places(), chronicle.free()),
        before,
    );
    same(rt, chronicle.kept().last().map(|entry| entry.call), last);
    same(rt, chronicle.market().placed(), placed);
    let Ok(reply) = chronicle.call(alloc, SeatNo::new(0), *cmd) else {
        panic!(rt; "no memory");
    };
    reply
}

/// An arena is opened, asks for three workers, is listed, gets a worker, and loses it.
fn recorded(rt: &impl Abort, alloc: Global) -> Chronicle
    ensures { result.from ≡ 0 }
{
    let mut chronicle = opened(rt, alloc);
    let told = answer(
        rt,
        alloc,
        &mut chronicle,
        &Cmd::Open(8, 1, Level::from_index(1)),
    );
    holds(
        rt,
        matches!(&told, Reply::Opened(arena) if arena.get() == 1),
    );
    drop(told);
    let told = answer(
        rt,
        alloc,
        &mut chronicle,
        &Cmd::Request(ArenaId::new(1), 3, 0),
    );
    holds(rt, matches!(&told, Reply::Requested(3)));
    drop(told);
    let told = answer(rt, alloc, &mut chronicle, &Cmd::Lists);
    holds(
        rt,
        matches!(&told, Reply::Listed(lists) if lists.len() == 1),
    );
    drop(told);
    let told = answer(rt, alloc, &mut chronicle, &Cmd::Join);
    holds(
        rt,
        matches!(&told, Reply::Placed(arena) if arena.get() == 1),
    );
    drop(told);
    // The place and the memory of a Leave are taken already.
    chronicle.market().has_a_seat();
    let left = chronicle.call(alloc, SeatNo::new(0), Cmd::Leave);
    holds(
        rt,
        matches!(&left, Ok(Reply::Left(arena)) if arena.get() == 1),
    );
    drop(left);
    chronicle
}

#[test]
fn a_refused_growth_leaves_the_chronicle(rt: HostRuntime) {
    let chronicle = recorded(&rt, rt.alloc());
    same(&rt, chronicle.len(), 5);
    same(&rt, chronicle.free(), 95);
    drop(chronicle);
}

/// A sink with room for the journal.
fn new_sink(rt: &impl Abort, alloc: Global) -> TestSink
    ensures { result.failed ≡ false }
{
    if let Ok(memory) = Vec::with_capacity(alloc, 4096) {
        return TestSink::new(memory);
    }
    let Ok(memory) = Vec::with_capacity(alloc, 4096) else {
        panic!(rt; "no memory");
    };
    TestSink::new(memory)
}

/// The journal is written, once more where there was no memory: then a prefix of it was written.
fn is_written(rt: &impl Abort, alloc: Global, chronicle: &Chronicle)
    requires { chronicle.now.from ≡ 0 }
{
    let mut sink = new_sink(rt, alloc);
    if let Err(fault) = write_journal(alloc, chronicle, &mut sink) {
        same(rt, fault, OutFault::Memory);
        holds(rt, JOURNAL.starts_with(sink.taken()));
        sink = new_sink(rt, alloc);
        same(rt, write_journal(alloc, chronicle, &mut sink), Ok(()));
    }
    same(rt, sink.taken(), JOURNAL);
}

#[test]
fn a_refused_growth_leaves_a_prefix_of_the_journal(rt: HostRuntime) {
    let chronicle = recorded(&rt, rt.alloc());
    is_written(&rt, rt.alloc(), &chronicle);
    drop(chronicle);
}

#[test]
fn a_refused_growth_leaves_a_journal_to_be_checked(rt: HostRuntime) {
    if let Ok(verdict) = check(rt.alloc(), JOURNAL) {
        holds(&rt, matches!(&verdict, Verdict::Legal(5)));
        return;
    }
    let again = check(rt.alloc(), JOURNAL);
    holds(&rt, matches!(&again, Ok(Verdict::Legal(5))));
    drop(again);
}

#[test]
fn a_refused_growth_leaves_a_foreign_journal_to_be_checked(rt: HostRuntime) {
    if let Ok(verdict) = check(rt.alloc(), FOREIGN) {
        holds(&rt, matches!(&verdict, Verdict::Legal(3)));
        return;
    }
    let again = check(rt.alloc(), FOREIGN);
    holds(&rt, matches!(&again, Ok(Verdict::Legal(3))));
    drop(again);
}
