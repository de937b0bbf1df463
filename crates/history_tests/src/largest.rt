//! The longest history that a market can have, with the most arenas, seats and places: what is answered in its last places, and what is
//! written of it. A call that wants memory above some size, whatever is left, meets its contract, and fails here.
ghost use Rattle.std.specs.Prelude.{◌≡◌, false};

use crate::asserts::{holds, same};
use crate::desks::{answer, kept};
use crate::journals::finds;
use byte_devices::TestSink;
use edit_history::{Chronicle, Keeping, Part, Terms};
use explainer::explain;
use journal_replay::{Extent, Header, write_header, write_part};
use market_lock::Desk;
use market_types::{ArenaId, Cmd, Correction, LastNumber, Level, Opening, Reply, SeatNo};
use std::alloc::{AllocError, Global};
use std::process::Abort;
use std::rt::HostRuntime;

const ARENAS: u32 = 1_024;

const SEATS: u8 = 64;

const PLACES: u32 = 1_048_576;

/// A history of 1,048,576 places, of a market whose limit is 65,535.
const TERMS: Terms = Terms {
    opening: Opening {
        base: 65_536,
        hard: 65_535,
        seats: SEATS,
        levels: 3,
        last: LastNumber::USUAL,
    },
    places: PLACES,
    keeping: Keeping::InParts,
};

/// So many commands: 1,024 arenas are opened, each asks for one worker, and then the limits are asked for.
fn commands(alloc: Global, count: u32) -> Result<Vec<Cmd>, AllocError> {
    let mut commands = Vec::new(alloc);
    for _ in 0..ARENAS {
        commands.push(Cmd::Open(8, 1, Level::from_index(1)))?;
    }
    for number in 1..=ARENAS {
        commands.push(Cmd::Request(ArenaId::new(number), 1, 0))?;
    }
    for _ in 2 * ARENAS..count {
        commands.push(Cmd::Limit)?;
    }
    Ok(commands)
}

/// Each of the arenas is to hire a worker.
fn lists_all(reply: &Reply) -> bool {
    match reply {
        Reply::Listed(lists) => {
            lists.len() == 1_024
                && lists
                    .arenas
                    .iter()
                    .all(|arena| arena.correction == Correction::Hire)
        }
        _ => false,
    }
}

/// What a seat is answered.
fn reply_to(
    rt: &impl Abort,
    alloc: Global,
    chronicle: &mut Chronicle,
    seat: u8,
    cmd: Cmd,
) -> Reply {
    holds(rt, seat < chronicle.market().seats());
    let Ok(reply) = chronicle.call(alloc, SeatNo::new(seat), cmd) else {
        panic!(rt; "no memory");
    };
    reply
}

/// Seat 0 gives these commands.
fn give(rt: &impl Abort, alloc: Global, chronicle: &mut Chronicle, commands: &[Cmd]) {
    for cmd in commands {
        drop(reply_to(rt, alloc, chronicle, 0, *cmd));
    }
}

/// All seats join, each at an arena of its own, the newest first.
fn join_all(rt: &impl Abort, alloc: Global, chronicle: &mut Chronicle) {
    for seat in 0..SEATS {
        let reply = reply_to(rt, alloc, chronicle, seat, Cmd::Join);
        let due = ARENAS - u32::from(seat);
        holds(
            rt,
            matches!(&reply, Reply::Placed(arena) if arena.get() == due),
        );
    }
}

/// All seats leave.
fn leave_all(rt: &impl Abort, alloc: Global, chronicle: &mut Chronicle) {
    for seat in 0..SEATS {
        let reply = reply_to(rt, alloc, chronicle, seat, Cmd::Leave);
        let due = ARENAS - u32::from(seat);
        holds(
            rt,
            matches!(&reply, Reply::Left(arena) if arena.get() == due),
        );
    }
}

/// The longest history: all arenas are listed, and then all seats join in its last places.
fn recorded(rt: &impl Abort, alloc: Global) -> Chronicle {
    let Ok(mut chronicle) = Chronicle::on_terms(alloc, TERMS) else {
        panic!(rt; "no chronicle");
    };
    let Ok(commands) = commands(alloc, PLACES - 129) else {
        panic!(rt; "no memory");
    };
    give(rt, alloc, &mut chronicle, &commands);
    let lists = reply_to(rt, alloc, &mut chronicle, 0, Cmd::Lists);
    holds(rt, lists_all(&lists));
    drop(lists);
    join_all(rt, alloc, &mut chronicle);
    same(rt, chronicle.free(), 0);
    leave_all(rt, alloc, &mut chronicle);
    same(rt, chronicle.len(), u64::from(PLACES));
    chronicle
}

/// A sink with room for so many bytes.
fn sink_of(rt: &impl Abort, alloc: Global, bytes: usize) -> TestSink
    ensures { result.failed ≡ false }
{
    let Ok(memory) = Vec::with_capacity(alloc, bytes) else {
        panic!(rt; "no memory");
    };
    TestSink::new(memory)
}

/// The part is the whole history, and its journal is legal.
fn is_written(rt: &impl Abort, alloc: Global, part: &Part) {
    same(rt, (part.from, part.entries.len()), (0, 1_048_576));
    let header = Header {
        opening: TERMS.opening,
        extent: Extent::Limited,
    };
    let mut sink = sink_of(rt, alloc, 100_000_000);
    let Ok(()) = write_header(alloc, header, &mut sink) else {
        panic!(rt; "no header");
    };
    same(rt, write_part(alloc, 3, part, &mut sink), Ok(()));
    finds(rt, alloc, sink.taken(), "legal 1048576");
    drop(sink);
}

/// How many lines there are.
fn count_lines(text: &[u8]) -> usize {
    text.iter().filter(|byte| **byte == b'\n').count()
}

/// The explanation has a line of the limits, one for each level, and one for each arena.
fn is_explained(rt: &impl Abort, alloc: Global, chronicle: &Chronicle) {
    let mut sink = sink_of(rt, alloc, 200_000);
    same(rt, explain(alloc, chronicle.market(), &mut sink), Ok(()));
    same(rt, count_lines(sink.taken()), 1 + 3 + 1_024);
    drop(sink);
}

/// All entries are cut out, and written.
fn is_cut_and_written(rt: &impl Abort, alloc: Global, chronicle: &mut Chronicle) {
    let Some(part) = chronicle.cut(Vec::new(alloc)) else {
        panic!(rt; "no part");
    };
    is_written(rt, alloc, &part);
    drop(part);
}

/// It takes 140 MB: half of it is the journal.
#[test]
fn the_longest_history_is_cut_out_and_written(rt: HostRuntime) {
    let mut chronicle = recorded(&rt, rt.alloc());
    is_explained(&rt, rt.alloc(), &chronicle);
    is_cut_and_written(&rt, rt.alloc(), &mut chronicle);
    drop(chronicle);
}

/// Seat 0 of a desk gives these commands.
fn serve(rt: &impl Abort, desk: &mut Desk, alloc: Global, commands: &[Cmd]) {
    for cmd in commands {
        let reply = answer(desk, alloc, cmd);
        holds(rt, reply.is_ok());
        drop(reply);
    }
}

/// All arenas are listed, and then seat 0 joins in the last places, and leaves.
fn serve_last(rt: &impl Abort, desk: &mut Desk, alloc: Global) {
    let Ok(lists) = answer(desk, alloc, &Cmd::Lists) else {
        panic!(rt; "no lists");
    };
    holds(rt, lists_all(&lists));
    drop(lists);
    let joined = answer(desk, alloc, &Cmd::Join);
    holds(
        rt,
        matches!(&joined, Ok(Reply::Placed(arena)) if arena.get() == ARENAS),
    );
    drop(joined);
    same(rt, desk.chronicle().free(), 0);
    let left = answer(desk, alloc, &Cmd::Leave);
    holds(
        rt,
        matches!(&left, Ok(Reply::Left(arena)) if arena.get() == ARENAS),
    );
    drop(left);
}

/// What is kept by a desk of the longest history at its end.
fn served(rt: &impl Abort, alloc: Global) -> (u64, u32) {
    let Ok(chronicle) = Chronicle::on_terms(alloc, TERMS) else {
        panic!(rt; "no chronicle");
    };
    let Ok(commands) = commands(alloc, PLACES - 3) else {
        panic!(rt; "no memory");
    };
    let mut desk = Desk::new(chronicle);
    serve(rt, &mut desk, alloc, &commands);
    serve_last(rt, &mut desk, alloc);
    kept(desk)
}

#[test]
fn a_desk_serves_in_the_last_places(rt: HostRuntime) {
    same(&rt, served(&rt, rt.alloc()), (1_048_576, 0));
}
