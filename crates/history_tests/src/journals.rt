//! The journal of a short history, what is found of it, and what a failing sink has of it.
ghost use Rattle.std.specs.Prelude.{◌≡◌, false, OnOk};

use crate::asserts::{holds, same};
use byte_devices::{Refusal, TestSink};
use edit_history::{Chronicle, Keeping, Terms};
use journal_replay::{
    Extent, Header, OutFault, Verdict, check, write_header, write_journal, write_part,
};
use market_types::{ArenaId, Cmd, LastNumber, Level, Opening, SeatNo};
use std::alloc::Global;
use std::process::Abort;
use std::rt::HostRuntime;

const JOURNAL: &[u8] = b"\
{\"base\":8,\"hard\":64,\"journal\":2,\"levels\":3,\"seats\":4}
{\"cmd\":\"open 8 1 normal\",\"reply\":\"arena 1\",\"seat\":0}
{\"cmd\":\"request 1 3 0\",\"reply\":\"request 3\",\"seat\":0}
{\"cmd\":\"show 1\",\"reply\":\"arena 1 request 3 allot 3 top yes active 0 recall 0 hire 3\",\"seat\":0}
";

/// The header of the same market, in a journal of any number of entries.
const ENDLESS: &[u8] = b"\
{\"base\":8,\"hard\":64,\"journal\":3,\"last\":1048576,\"levels\":3,\"seats\":4}
";

/// The journal of a market whose last number is 3.
const UP_TO_THREE: &[u8] = b"\
{\"base\":8,\"hard\":64,\"journal\":3,\"last\":3,\"levels\":3,\"seats\":4}
{\"cmd\":\"open 8 1 normal\",\"reply\":\"arena 1\",\"seat\":0}
{\"cmd\":\"open 8 1 normal\",\"reply\":\"arena 2\",\"seat\":0}
{\"cmd\":\"open 8 1 normal\",\"reply\":\"arena 3\",\"seat\":0}
{\"cmd\":\"open 8 1 normal\",\"reply\":\"F04 out of numbers\",\"seat\":0}
";

/// Records a call of seat 0.
fn record(rt: &impl Abort, alloc: Global, chronicle: &mut Chronicle, cmd: Cmd)
    ensures { chronicle.new.from ≡ chronicle.old.from }
{
    chronicle.market().has_a_seat();
    let answered = chronicle.call(alloc, SeatNo::new(0), cmd);
    holds(rt, answered.is_ok());
}

/// An arena is opened, asks for three workers, and is shown.
fn recorded(rt: &impl Abort, alloc: Global) -> Chronicle
    ensures { result.from ≡ 0 }
{
    let Ok(mut chronicle) = Chronicle::new(alloc, 8, 64, 4, 1000, 3) else {
        panic!(rt; "no chronicle");
    };
    let arena = ArenaId::new(1);
    record(
        rt,
        alloc,
        &mut chronicle,
        Cmd::Open(8, 1, Level::from_index(1)),
    );
    record(rt, alloc, &mut chronicle, Cmd::Request(arena, 3, 0));
    record(rt, alloc, &mut chronicle, Cmd::Show(arena));
    chronicle
}

/// A sink with room for a journal.
pub(crate) fn new_sink(rt: &impl Abort, alloc: Global) -> TestSink
    ensures { result.failed ≡ false }
{
    let Ok(memory) = Vec::with_capacity(alloc, 16_384) else {
        panic!(rt; "no memory");
    };
    TestSink::new(memory)
}

/// The text is found so.
pub(crate) fn finds(rt: &impl Abort, alloc: Global, text: &[u8], found: &str) {
    let Ok(verdict) = check(alloc, text) else {
        panic!(rt; "no memory");
    };
    let Ok(told) = verdict.to_string(alloc) else {
        panic!(rt; "no memory");
    };
    same(rt, told.as_str(), found);
    drop(verdict);
}

#[test]
fn a_journal_has_a_line_for_the_opening_and_one_for_each_call(rt: HostRuntime) {
    let chronicle = recorded(&rt, rt.alloc());
    let mut sink = new_sink(&rt, rt.alloc());
    let written = write_journal(rt.alloc(), &chronicle, &mut sink);
    same(&rt, written, Ok(()));
    same(&rt, sink.taken(), JOURNAL);
    let found = check(rt.alloc(), sink.taken());
    holds(&rt, matches!(&found, Ok(Verdict::Legal(3))));
    drop(found);
    drop(sink);
    drop(chronicle);
}

/// Records a call of seat 0, takes it out, and writes it behind the others.
fn write_next(
    rt: &impl Abort,
    alloc: Global,
    chronicle: &mut Chronicle,
    cmd: Cmd,
    sink: &mut TestSink,
) -> Result<(), OutFault>
    requires working { sink.old.failed ≡ false }
    ensures working { OnOk result (sink.new.failed ≡ false) }
{
    record(rt, alloc, chronicle, cmd);
    let Some(part) = chronicle.cut(Vec::new(alloc)) else {
        panic!(rt; "no part");
    };
    write_part(alloc, 3, &part, sink)
}

/// The header of the market, in a journal of so many entries.
fn header(extent: Extent) -> Header {
    Header {
        opening: Opening::new(8, 64, 4, 3),
        extent,
    }
}

/// The calls of the other history, each written as a part of one entry behind the header of a journal of so many entries.
fn write_calls(
    rt: &impl Abort,
    alloc: Global,
    chronicle: &mut Chronicle,
    extent: Extent,
    sink: &mut TestSink,
) -> Result<(), OutFault>
    requires working { sink.old.failed ≡ false }
{
    let open = Cmd::Open(8, 1, Level::from_index(1));
    let request = Cmd::Request(ArenaId::new(1), 3, 0);
    write_header(alloc, header(extent), sink)?;
    write_next(rt, alloc, chronicle, open, sink)?;
    write_next(rt, alloc, chronicle, request, sink)?;
    write_next(rt, alloc, chronicle, Cmd::Show(ArenaId::new(1)), sink)
}

/// The same history as the other, in parts of one entry each.
fn write_parts(
    rt: &impl Abort,
    alloc: Global,
    extent: Extent,
    sink: &mut TestSink,
) -> Result<(), OutFault>
    requires working { sink.old.failed ≡ false }
{
    let terms = Terms {
        opening: Opening::new(8, 64, 4, 3),
        places: 1,
        keeping: Keeping::InParts,
    };
    let Ok(mut chronicle) = Chronicle::on_terms(alloc, terms) else {
        panic!(rt; "no chronicle");
    };
    let written = write_calls(rt, alloc, &mut chronicle, extent, sink);
    drop(chronicle);
    written
}

#[test]
fn a_history_in_parts_has_the_same_journal(rt: HostRuntime) {
    let mut sink = new_sink(&rt, rt.alloc());
    same(
        &rt,
        write_parts(&rt, rt.alloc(), Extent::Limited, &mut sink),
        Ok(()),
    );
    same(&rt, sink.taken(), JOURNAL);
    drop(sink);
}

#[test]
fn an_endless_history_in_parts_has_a_journal_of_version_3(rt: HostRuntime) {
    let mut sink = new_sink(&rt, rt.alloc());
    same(
        &rt,
        write_parts(&rt, rt.alloc(), Extent::Endless, &mut sink),
        Ok(()),
    );
    let Some(entries) = sink.taken().strip_prefix(ENDLESS) else {
        panic!(&rt; "another header");
    };
    holds(&rt, JOURNAL.ends_with(entries));
    finds(&rt, rt.alloc(), sink.taken(), "legal 3");
    drop(sink);
}

/// Seat 0 opens an arena.
fn open_one(rt: &impl Abort, alloc: Global, chronicle: &mut Chronicle)
    ensures { chronicle.new.from ≡ chronicle.old.from }
{
    record(rt, alloc, chronicle, Cmd::Open(8, 1, Level::from_index(1)));
}

/// Four arenas are to be opened, and there are numbers for three.
fn opened_four(rt: &impl Abort, alloc: Global) -> Chronicle
    ensures { result.from ≡ 0 }
{
    let Some(last) = LastNumber::new(3) else {
        panic!(rt; "no number");
    };
    let opening = Opening {
        last,
        ..Opening::new(8, 64, 4, 3)
    };
    let terms = Terms {
        opening,
        places: 1000,
        keeping: Keeping::Everything,
    };
    let Ok(mut chronicle) = Chronicle::on_terms(alloc, terms) else {
        panic!(rt; "no chronicle");
    };
    open_one(rt, alloc, &mut chronicle);
    open_one(rt, alloc, &mut chronicle);
    open_one(rt, alloc, &mut chronicle);
    open_one(rt, alloc, &mut chronicle);
    chronicle
}

#[test]
fn the_journal_of_another_last_number_is_of_version_3(rt: HostRuntime) {
    let chronicle = opened_four(&rt, rt.alloc());
    let mut sink = new_sink(&rt, rt.alloc());
    same(
        &rt,
        write_journal(rt.alloc(), &chronicle, &mut sink),
        Ok(()),
    );
    same(&rt, sink.taken(), UP_TO_THREE);
    finds(&rt, rt.alloc(), sink.taken(), "legal 4");
    drop(sink);
    drop(chronicle);
}

#[test]
fn a_failing_sink_has_a_front_of_the_parts(rt: HostRuntime) {
    for most in [0, 1, 42, 100, 243] {
        let mut sink = new_sink(&rt, rt.alloc()).refusing_after(most, Refusal::Fault);
        same(
            &rt,
            write_parts(&rt, rt.alloc(), Extent::Limited, &mut sink),
            Err(OutFault::Write),
        );
        holds(&rt, JOURNAL.starts_with(sink.taken()));
        same(&rt, sink.taken().len(), most);
        drop(sink);
    }
}
