//! The market at its limits.
ghost use Rattle.std.specs.Prelude.{◌≡◌, ◌<◌, length, IfOk};
ghost use Rattle.std.specs.List.{All};
ghost use Rattle.market_types.specs.declared.command.Call.{Call};

use crate::asserts::{holds, same};
use market_core::{Market, apply_all};
use market_texts::reply_text;
use market_types::{
    ArenaId, Call, Cmd, ControlId, Correction, Fault, Level, OpenFault, Reply, SeatNo,
};
use std::alloc::{AllocError, Global};
use std::process::Abort;
use std::rt::HostRuntime;

/// A market of three levels.
fn opened(rt: &impl Abort, alloc: Global, base: u32, hard: u32, seats: u8) -> Market
    ensures { length result.seats ≡ seats }
{
    let Ok(market) = Market::new(alloc, base, hard, seats, 3) else {
        panic!(rt; "no market");
    };
    market
}

/// The market's answer to seat 0.
fn answer(rt: &impl Abort, alloc: Global, market: &mut Market, cmd: Cmd) -> Reply {
    market.has_a_seat();
    let Ok(reply) = market.apply(alloc, SeatNo::new(0), cmd) else {
        panic!(rt; "no memory");
    };
    reply
}

/// Opens an arena, which has this number, and asks for so many workers.
fn open_asking(
    rt: &impl Abort,
    alloc: Global,
    market: &mut Market,
    open: Cmd,
    number: u32,
    workers: u16,
) {
    let opened = answer(rt, alloc, market, open);
    holds(
        rt,
        matches!(&opened, Reply::Opened(arena) if arena.get() == number),
    );
    let request = Cmd::Request(ArenaId::new(number), i32::from(workers), 0);
    let asked = answer(rt, alloc, market, request);
    holds(
        rt,
        matches!(&asked, Reply::Requested(total) if *total == u32::from(workers)),
    );
}

fn level(rt: &impl Abort, number: u32) -> Level {
    let Some(level) = Level::new(number) else {
        panic!(rt; "no level");
    };
    level
}

#[test]
fn a_thousand_arenas_share_all_workers(rt: HostRuntime) {
    let mut market = opened(&rt, rt.alloc(), 65536, 65535, 4);
    let normal = level(&rt, 2);
    for number in 1..1025 {
        open_asking(
            &rt,
            rt.alloc(),
            &mut market,
            Cmd::Open(65535, 0, normal),
            number,
            65535,
        );
    }
    for number in 1..1025 {
        let Some(view) = market.view(ArenaId::new(number)) else {
            panic!(&rt; "no arena");
        };
        let due = if number == 1024 { 63 } else { 64 };
        same(&rt, view.allot, due);
    }
    let refused = answer(&rt, rt.alloc(), &mut market, Cmd::Open(65535, 0, normal));
    holds(&rt, matches!(refused, Reply::Refused(Fault::TooManyArenas)));
    market.has_a_seat();
    let show = Cmd::Show(ArenaId::new(1));
    let Ok((_, visits)) = market.apply_counted(rt.alloc(), SeatNo::new(0), show) else {
        panic!(&rt; "no memory");
    };
    holds(&rt, visits >= 1 && visits <= 45);
    drop(refused);
    drop(market);
}

/// Of 1,024 arenas that ask for one worker each, 64 are allotted one: each sixteenth in order, newest first. A Join finds
/// the next of them past those that are filled, and makes at most six visits for each: it looks at no more than four arenas, and
/// passes over the others of their leaf by three sums, which are counted as the two digits of their number.
#[test]
fn joins_pass_over_idle_arenas(rt: HostRuntime) {
    let mut market = opened(&rt, rt.alloc(), 65, 64, 64);
    let normal = level(&rt, 2);
    for number in 1..1025 {
        open_asking(
            &rt,
            rt.alloc(),
            &mut market,
            Cmd::Open(8, 1, normal),
            number,
            1,
        );
    }
    for joined in 0..64_u8 {
        holds(&rt, joined < market.seats());
        let seat = SeatNo::new(joined);
        let Ok((reply, visits)) = market.apply_counted(rt.alloc(), seat, Cmd::Join) else {
            panic!(&rt; "no memory");
        };
        let due = 1009 - 16 * u32::from(joined);
        holds(
            &rt,
            matches!(&reply, Reply::Placed(arena) if arena.get() == due),
        );
        let passed = u64::from(joined) + 1;
        holds(&rt, visits >= passed && visits <= 6 * passed);
    }
    let lists = answer(&rt, rt.alloc(), &mut market, Cmd::Lists);
    holds(
        &rt,
        matches!(&lists, Reply::Listed(lists) if lists.arenas.is_empty()),
    );
    drop(lists);
    drop(market);
}

/// A Join that is placed at the last level has looked at every filled arena of the levels before it, and counts them all.
#[test]
fn joins_count_the_levels_before(rt: HostRuntime) {
    let mut market = opened(&rt, rt.alloc(), 65, 64, 64);
    for number in 1..7 {
        let level = level(&rt, (number + 1) / 2);
        open_asking(
            &rt,
            rt.alloc(),
            &mut market,
            Cmd::Open(8, 1, level),
            number,
            2,
        );
    }
    for joined in 0..12_u8 {
        holds(&rt, joined < market.seats());
        let seat = SeatNo::new(joined);
        let Ok((reply, visits)) = market.apply_counted(rt.alloc(), seat, Cmd::Join) else {
            panic!(&rt; "no memory");
        };
        let filled = joined / 2;
        let due = if filled % 2 == 0 { filled + 2 } else { filled };
        holds(
            &rt,
            matches!(&reply, Reply::Placed(arena) if arena.get() == u32::from(due)),
        );
        holds(&rt, visits >= u64::from(filled) + 1);
    }
    drop(market);
}

#[test]
fn numbers_run_out(rt: HostRuntime) {
    let mut market = opened(&rt, rt.alloc(), 8, 64, 4);
    let normal = level(&rt, 2);
    for number in 1..1_048_577 {
        let opened = answer(&rt, rt.alloc(), &mut market, Cmd::Open(8, 1, normal));
        holds(&rt, matches!(opened, Reply::Opened(_)));
        let closed = answer(
            &rt,
            rt.alloc(),
            &mut market,
            Cmd::Close(ArenaId::new(number)),
        );
        holds(&rt, matches!(closed, Reply::Closed));
        drop(closed);
    }
    let refused = answer(&rt, rt.alloc(), &mut market, Cmd::Open(8, 1, normal));
    holds(&rt, matches!(refused, Reply::Refused(Fault::OutOfNumbers)));
    drop(refused);
    drop(market);
}

#[test]
fn stamps_run_out(rt: HostRuntime) {
    let mut market = opened(&rt, rt.alloc(), 8, 64, 4);
    let normal = level(&rt, 2);
    let opened = answer(&rt, rt.alloc(), &mut market, Cmd::Open(8, 1, normal));
    holds(&rt, matches!(opened, Reply::Opened(_)));
    let priority = Cmd::Priority(ArenaId::new(1), normal);
    for _ in 0..1_048_575 {
        let moved = answer(&rt, rt.alloc(), &mut market, priority);
        holds(&rt, matches!(moved, Reply::Moved));
        drop(moved);
    }
    let refused = answer(&rt, rt.alloc(), &mut market, priority);
    holds(&rt, matches!(refused, Reply::Refused(Fault::OutOfNumbers)));
    drop(refused);
    drop(market);
}

#[test]
fn control_numbers_run_out(rt: HostRuntime) {
    let mut market = opened(&rt, rt.alloc(), 8, 64, 4);
    for number in 1..1_048_577 {
        let made = answer(&rt, rt.alloc(), &mut market, Cmd::Control(5));
        holds(
            &rt,
            matches!(made, Reply::Controlled(control) if control.get() == number),
        );
        let gone = Cmd::Uncontrol(ControlId::new(number));
        let removed = answer(&rt, rt.alloc(), &mut market, gone);
        holds(&rt, matches!(removed, Reply::Uncontrolled));
        drop(removed);
        drop(made);
    }
    let refused = answer(&rt, rt.alloc(), &mut market, Cmd::Control(5));
    holds(&rt, matches!(refused, Reply::Refused(Fault::OutOfNumbers)));
    drop(refused);
    drop(market);
}

/// Whether so many arenas are listed, and each needs this correction.
fn all_need(reply: &Reply, correction: Correction, arenas: usize) -> bool {
    match reply {
        Reply::Listed(lists) => {
            lists.len() == arenas
                && lists
                    .arenas
                    .iter()
                    .all(|arena| arena.correction == correction)
        }
        _ => false,
    }
}

/// Where each of 1,024 arenas is hired for, Lists names all of them, and then the 64 that have a worker too many: no market can
/// have more of either.
#[test]
fn a_thousand_arenas_are_listed(rt: HostRuntime) {
    let mut market = opened(&rt, rt.alloc(), 65536, 65535, 64);
    let normal = level(&rt, 2);
    for number in 1..1025 {
        open_asking(
            &rt,
            rt.alloc(),
            &mut market,
            Cmd::Open(8, 1, normal),
            number,
            1,
        );
    }
    let lists = answer(&rt, rt.alloc(), &mut market, Cmd::Lists);
    holds(&rt, all_need(&lists, Correction::Hire, 1024));
    let Ok(text) = reply_text(rt.alloc(), &lists) else {
        panic!(&rt; "no memory");
    };
    // The 1,024 numbers have 2,989 digits, and each but the last has a comma.
    same(&rt, text.len(), 14 + 2_989 + 2 * 1_024 + 1_023);
    holds(
        &rt,
        text.as_str().starts_with("recall - hire 1024:1,1023:1,"),
    );
    holds(&rt, text.as_str().ends_with(",2:1,1:1"));
    for joining in 0..64_u8 {
        holds(&rt, joining < market.seats());
        let seat = SeatNo::new(joining);
        let Ok(reply) = market.apply(rt.alloc(), seat, Cmd::Join) else {
            panic!(&rt; "no memory");
        };
        holds(&rt, matches!(reply, Reply::Placed(_)));
        drop(reply);
    }
    let _ = answer(&rt, rt.alloc(), &mut market, Cmd::Control(1));
    let lists = answer(&rt, rt.alloc(), &mut market, Cmd::Lists);
    holds(&rt, all_need(&lists, Correction::Recall, 64));
    drop(lists);
    drop(market);
}

#[test]
fn at_most_256_controls_live(rt: HostRuntime) {
    let mut market = opened(&rt, rt.alloc(), 8, 64, 4);
    for _ in 0..256 {
        let made = answer(&rt, rt.alloc(), &mut market, Cmd::Control(5));
        holds(&rt, matches!(made, Reply::Controlled(_)));
        drop(made);
    }
    let refused = answer(&rt, rt.alloc(), &mut market, Cmd::Control(5));
    holds(
        &rt,
        matches!(refused, Reply::Refused(Fault::TooManyControls)),
    );
    drop(refused);
    drop(market);
}

#[test]
fn an_opening_names_its_first_bad_number(rt: HostRuntime) {
    let bad = [
        (0, 0, 0, 0, OpenFault::BadBase),
        (65537, 64, 4, 3, OpenFault::BadBase),
        (8, 0, 0, 0, OpenFault::BadHard),
        (8, 65536, 4, 3, OpenFault::BadHard),
        (8, 64, 0, 0, OpenFault::BadSeats),
        (8, 64, 65, 3, OpenFault::BadSeats),
        (8, 64, 4, 0, OpenFault::BadLevels),
        (8, 64, 4, 9, OpenFault::BadLevels),
    ];
    for (base, hard, seats, levels, due) in bad {
        let opened = Market::new(rt.alloc(), base, hard, seats, levels);
        holds(&rt, matches!(opened, Err(fault) if fault == due));
    }
}

#[test]
fn a_market_tells_what_it_was_opened_with(rt: HostRuntime) {
    let Ok(market) = Market::new(rt.alloc(), 65536, 65535, 64, 8) else {
        panic!(&rt; "no market");
    };
    same(&rt, market.base(), 65536);
    same(&rt, market.hard(), 65535);
    same(&rt, market.seats(), 64);
    same(&rt, market.levels(), 8);
    same(&rt, market.limits().limit, 65535);
    drop(market);
}

#[test]
fn a_list_of_commands_is_answered_in_order(rt: HostRuntime) {
    let mut market = opened(&rt, rt.alloc(), 8, 64, 4);
    let seat = SeatNo::new(3);
    let arena = ArenaId::new(1);
    let calls = [
        Call {
            seat,
            cmd: Cmd::Open(8, 1, level(&rt, 2)),
        },
        Call {
            seat,
            cmd: Cmd::Request(arena, 3, 0),
        },
        Call {
            seat,
            cmd: Cmd::Show(arena),
        },
    ];
    let Ok(replies) = apply_all(rt.alloc(), &mut market, &calls) else {
        panic!(&rt; "no memory");
    };
    holds(
        &rt,
        matches!(&replies[2], Reply::Shown(view) if view.allot == 3 && view.hire == 3),
    );
    drop(replies);
    drop(market);
}

/// So many calls of seat 3, each for the limits.
fn limit_calls(alloc: Global, count: usize) -> Result<Vec<Call>, AllocError>
    ensures seats { IfOk result (λ calls. All (λ (call : Call). call.seat < 4) calls.items) }
{
    let call = Call {
        seat: SeatNo::new(3),
        cmd: Cmd::Limit,
    };
    vec![in alloc; call; count]
}

#[test]
fn a_long_list_of_commands_is_answered(rt: HostRuntime) {
    let mut market = opened(&rt, rt.alloc(), 8, 64, 4);
    let Ok(calls) = limit_calls(rt.alloc(), 1_048_576) else {
        panic!(&rt; "no memory");
    };
    let Ok(replies) = apply_all(rt.alloc(), &mut market, &calls) else {
        panic!(&rt; "no memory");
    };
    same(&rt, replies.len(), 1_048_576);
    let last = replies.last();
    holds(
        &rt,
        matches!(last, Some(Reply::Limits(limits)) if limits.limit == 7),
    );
    drop(replies);
    drop(market);
}
