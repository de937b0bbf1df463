//! Explanations worked out by hand, beside those of `example_scripts`.
ghost use Rattle.std.specs.Prelude.{◌≡◌, false};

use crate::asserts::{holds, same};
use byte_devices::{OutFault, TestSink};
use explainer::explain;
use market_core::Market;
use market_types::{ArenaId, Cmd, Level, SeatNo};
use std::alloc::{AllocError, Global};
use std::process::Abort;
use std::rt::HostRuntime;

/// Five workers for two arenas of three.
const FIVE: &[u8] = b"\
value 6 limit 5 effective 5 demand 7 workers 5
level high   demand        0 assigned     0 left     5
level normal demand        7 assigned     5 left     0
arena       3 request     4 carry        0 product         20 allot     2 rest        6 top yes active     0 recall     0 hire     2
arena       2 request     0 carry        - product          - allot     0 rest        - top no  active     0 recall     0 hire     0
arena       1 request     3 carry        6 product         21 allot     3 rest        0 top yes active     0 recall     0 hire     3
level low    demand        0 assigned     0 left     0
";

/// Seven workers for three arenas that ask for five each.
const SEVEN: &[u8] = b"\
value 8 limit 7 effective 7 demand 15 workers 7
level high   demand        0 assigned     0 left     7
level normal demand       15 assigned     7 left     0
arena       3 request     5 carry        0 product         35 allot     2 rest        5 top yes active     0 recall     0 hire     2
arena       2 request     5 carry        5 product         40 allot     2 rest       10 top yes active     0 recall     0 hire     2
arena       1 request     5 carry       10 product         45 allot     3 rest        0 top yes active     0 recall     0 hire     3
level low    demand        0 assigned     0 left     0
";

/// One level, which has no name.
const ONE_LEVEL: &[u8] = b"\
value 8 limit 7 effective 7 demand 3 workers 3
level 1      demand        3 assigned     3 left     0
arena       1 request     3 carry        0 product          9 allot     3 rest        0 top yes active     1 recall     0 hire     2
";

/// Eight levels, and arenas at the first and the last.
const EIGHT_LEVELS: &[u8] = b"\
value 8 limit 7 effective 7 demand 9 workers 7
level 1      demand        5 assigned     5 left     2
arena       2 request     5 carry        0 product         25 allot     5 rest        0 top yes active     0 recall     0 hire     5
level 2      demand        0 assigned     0 left     2
level 3      demand        0 assigned     0 left     2
level 4      demand        0 assigned     0 left     2
level 5      demand        0 assigned     0 left     2
level 6      demand        0 assigned     0 left     2
level 7      demand        0 assigned     0 left     2
level 8      demand        4 assigned     2 left     0
arena       1 request     4 carry        0 product          8 allot     2 rest        0 top no  active     0 recall     0 hire     2
";

/// A market that seat 0 has given these commands.
fn market_after(alloc: Global, levels: u32, cmds: &[Cmd]) -> Result<Market, AllocError> {
    let Ok(mut market) = Market::new(alloc, 8, 64, 4, levels) else {
        return Err(AllocError);
    };
    for cmd in cmds {
        market.has_a_seat();
        market.apply(alloc, SeatNo::new(0), *cmd)?;
    }
    Ok(market)
}

/// The commands of the first explanation.
fn for_five() -> [Cmd; 6] {
    let normal = Level::from_index(1);
    [
        Cmd::Control(6),
        Cmd::Open(8, 1, normal),
        Cmd::Open(8, 1, normal),
        Cmd::Open(8, 1, normal),
        Cmd::Request(ArenaId::new(1), 3, 0),
        Cmd::Request(ArenaId::new(3), 4, 0),
    ]
}

/// A sink with room for an explanation.
fn new_sink(rt: &impl Abort, alloc: Global) -> TestSink
    ensures { result.failed ≡ false }
{
    let Ok(memory) = Vec::with_capacity(alloc, 4096) else {
        panic!(rt; "no memory");
    };
    TestSink::new(memory)
}

/// The explanation of a market after these commands.
fn explains(rt: &impl Abort, alloc: Global, levels: u32, cmds: &[Cmd], text: &[u8]) {
    let Ok(market) = market_after(alloc, levels, cmds) else {
        panic!(rt; "no market");
    };
    let mut sink = new_sink(rt, alloc);
    let written = explain(alloc, &market, &mut sink);
    same(rt, written, Ok(()));
    same(rt, sink.taken(), text);
    drop(sink);
    drop(market);
}

#[test]
fn carries_are_shown(rt: HostRuntime) {
    explains(&rt, rt.alloc(), 3, &for_five(), FIVE);
    let normal = Level::from_index(1);
    let seven = [
        Cmd::Open(8, 1, normal),
        Cmd::Open(8, 1, normal),
        Cmd::Open(8, 1, normal),
        Cmd::Request(ArenaId::new(1), 5, 0),
        Cmd::Request(ArenaId::new(2), 5, 0),
        Cmd::Request(ArenaId::new(3), 5, 0),
    ];
    explains(&rt, rt.alloc(), 3, &seven, SEVEN);
}

#[test]
fn levels_without_names_have_numbers(rt: HostRuntime) {
    let first = Level::from_index(0);
    let one = [
        Cmd::Open(8, 1, first),
        Cmd::Request(ArenaId::new(1), 3, 0),
        Cmd::Join,
    ];
    explains(&rt, rt.alloc(), 1, &one, ONE_LEVEL);
    let eight = [
        Cmd::Open(8, 1, Level::from_index(7)),
        Cmd::Open(8, 1, first),
        Cmd::Request(ArenaId::new(1), 4, 0),
        Cmd::Request(ArenaId::new(2), 5, 0),
    ];
    explains(&rt, rt.alloc(), 8, &eight, EIGHT_LEVELS);
}

/// Where a growth is refused, the explanation is `Memory`, and the next one is whole.
#[test]
fn a_refused_growth_writes_nothing(rt: HostRuntime) {
    let market = match market_after(rt.alloc(), 3, &for_five()) {
        Ok(market) => market,
        Err(_) => return,
    };
    let Ok(memory) = Vec::with_capacity(rt.alloc(), 4096) else {
        return;
    };
    let mut sink = TestSink::new(memory);
    if let Err(fault) = explain(rt.alloc(), &market, &mut sink) {
        same(&rt, fault, OutFault::Memory);
        holds(&rt, sink.taken().is_empty());
        let written = explain(rt.alloc(), &market, &mut sink);
        same(&rt, written, Ok(()));
    }
    same(&rt, sink.taken(), FIVE);
    drop(sink);
    drop(market);
}
