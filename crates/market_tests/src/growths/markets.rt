//! Commands of a market, and lists of them.
use crate::asserts::{holds, same};
use market_core::{Market, apply_all};
use market_types::{
    ArenaId, ArenaView, Call, Cmd, ControlId, Level, LimitView, OpenFault, Reply, SeatNo,
};
use std::alloc::Global;
use std::process::Abort;
use std::rt::HostRuntime;

/// So many arenas are opened: the table of arenas grows twice on the way.
const ARENAS: u32 = 6;

/// A market of 4 seats and 3 levels.
fn opened(rt: &impl Abort, alloc: Global) -> Market {
    let fault = match Market::new(alloc, 64, 64, 4, 3) {
        Ok(market) => return market,
        Err(fault) => fault,
    };
    same(rt, fault, OpenFault::Memory);
    let Ok(market) = Market::new(alloc, 64, 64, 4, 3) else {
        panic!(rt; "no market");
    };
    market
}

/// What can be seen of a market.
#[derive(Clone, Copy, Debug, PartialEq, Eq)]
struct Seen {
    limits: LimitView,
    seats: u8,
    placed: u32,
    /// All arenas, and two that do not live.
    arenas: [Option<ArenaView>; 8],
    demand: u64,
    assigned: u64,
}

fn what_is_seen(market: &Market) -> Seen {
    let normal = Level::from_index(1);
    let numbers = [1, 2, 3, 4, 5, 6, 7, 8];
    Seen {
        limits: market.limits(),
        seats: market.seats(),
        placed: market.placed(),
        arenas: numbers.map(|number| market.view(ArenaId::new(number))),
        demand: market.demand(normal),
        assigned: market.assigned(normal),
    }
}

/// A seat's answer where there is memory.
fn granted(rt: &impl Abort, alloc: Global, market: &mut Market, cmd: Cmd) -> Reply {
    market.has_a_seat();
    let Ok(reply) = market.apply(alloc, SeatNo::new(0), cmd) else {
        panic!(rt; "no memory");
    };
    reply
}

/// A seat's answer, asked for again where there was no memory: then all was as before.
fn answer(rt: &impl Abort, alloc: Global, market: &mut Market, cmd: &Cmd) -> Reply {
    market.has_a_seat();
    let before = what_is_seen(market);
    match market.apply(alloc, SeatNo::new(0), *cmd) {
        Ok(reply) => reply,
        Err(_) => {
            let after = what_is_seen(market);
            same(rt, after, before);
            granted(rt, alloc, market, *cmd)
        }
    }
}

/// Arenas that ask for a worker each.
fn with_arenas(rt: &impl Abort, alloc: Global) -> Market {
    let mut market = opened(rt, alloc);
    for index in 0..ARENAS {
        let number = index + 1;
        let reply = answer(
            rt,
            alloc,
            &mut market,
            &Cmd::Open(8, 1, Level::from_index(1)),
        );
        holds(
            rt,
            matches!(&reply, Reply::Opened(arena) if arena.get() == number),
        );
        drop(reply);
        let asked = Cmd::Request(ArenaId::new(number), 1, 0);
        let reply = answer(rt, alloc, &mut market, &asked);
        holds(rt, matches!(&reply, Reply::Requested(1)));
        drop(reply);
    }
    market
}

#[test]
fn a_refused_growth_leaves_the_market(rt: HostRuntime) {
    let alloc = rt.alloc();
    let mut market = with_arenas(&rt, alloc);
    let lists = answer(&rt, alloc, &mut market, &Cmd::Lists);
    holds(
        &rt,
        matches!(&lists, Reply::Listed(lists) if lists.len() == 6),
    );
    for number in 1..6 {
        let made = answer(&rt, alloc, &mut market, &Cmd::Control(64 - number));
        holds(
            &rt,
            matches!(&made, Reply::Controlled(control) if control.get() == number),
        );
        same(&rt, market.limits().value, 64 - number);
        drop(made);
    }
    drop(lists);
    drop(market);
}

/// The arena is seen so, with one worker at it.
fn has_one_of_three(reply: &Reply, arena: ArenaId) -> bool {
    let due = ArenaView {
        arena,
        request: 3,
        allot: 3,
        top: true,
        active: 1,
        recall: 0,
        hire: 2,
    };
    matches!(reply, Reply::Shown(view) if *view == due)
}

/// The ten commands that take no memory: none of them is given a second time.
fn ten_are_granted(rt: &impl Abort, alloc: Global, market: &mut Market) {
    let made = answer(rt, alloc, market, &Cmd::Control(50));
    holds(
        rt,
        matches!(&made, Reply::Controlled(control) if control.get() == 1),
    );
    drop(made);
    let arena = ArenaId::new(2);
    let reply = granted(rt, alloc, market, Cmd::Request(arena, 3, 0));
    holds(rt, matches!(&reply, Reply::Requested(4)));
    drop(reply);
    let reply = granted(
        rt,
        alloc,
        market,
        Cmd::Priority(arena, Level::from_index(0)),
    );
    holds(rt, matches!(&reply, Reply::Moved));
    drop(reply);
    let reply = granted(rt, alloc, market, Cmd::Resize(arena, 4, 1));
    holds(rt, matches!(&reply, Reply::Resized(3)));
    drop(reply);
    let reply = granted(rt, alloc, market, Cmd::Join);
    holds(
        rt,
        matches!(&reply, Reply::Placed(placed) if *placed == arena),
    );
    drop(reply);
    let reply = granted(rt, alloc, market, Cmd::Stay);
    holds(rt, matches!(&reply, Reply::Stays(stays) if *stays == arena));
    drop(reply);
    let reply = granted(rt, alloc, market, Cmd::Show(arena));
    holds(rt, has_one_of_three(&reply, arena));
    drop(reply);
    let reply = granted(rt, alloc, market, Cmd::Limit);
    holds(
        rt,
        matches!(&reply, Reply::Limits(limits) if limits.limit == 49),
    );
    drop(reply);
    let reply = granted(rt, alloc, market, Cmd::Leave);
    holds(rt, matches!(&reply, Reply::Left(left) if *left == arena));
    drop(reply);
    let reply = granted(rt, alloc, market, Cmd::Uncontrol(ControlId::new(1)));
    holds(rt, matches!(&reply, Reply::Uncontrolled));
    drop(reply);
    let reply = granted(rt, alloc, market, Cmd::Close(arena));
    holds(rt, matches!(&reply, Reply::Closed));
    drop(reply);
}

#[test]
fn a_refused_growth_is_none_of_ten_commands(rt: HostRuntime) {
    let mut market = with_arenas(&rt, rt.alloc());
    ten_are_granted(&rt, rt.alloc(), &mut market);
    drop(market);
}

/// How many visits a seat's command makes, asked for again where there was no memory: then all was as before.
fn entered(rt: &impl Abort, alloc: Global, market: &mut Market, cmd: &Cmd) -> u64 {
    market.has_a_seat();
    let before = what_is_seen(market);
    if let Ok((_reply, visits)) = market.apply_counted(alloc, SeatNo::new(0), *cmd) {
        return visits;
    }
    let after = what_is_seen(market);
    same(rt, after, before);
    market.has_a_seat();
    let Ok((_reply, visits)) = market.apply_counted(alloc, SeatNo::new(0), *cmd) else {
        panic!(rt; "no memory");
    };
    visits
}

#[test]
fn a_refused_growth_leaves_the_market_that_counts(rt: HostRuntime) {
    let alloc = rt.alloc();
    let mut market = with_arenas(&rt, alloc);
    let open = Cmd::Open(8, 1, Level::from_index(1));
    let opening = entered(&rt, alloc, &mut market, &open);
    holds(&rt, (1..=13).contains(&opening));
    holds(&rt, market.view(ArenaId::new(ARENAS + 1)).is_some());
    same(&rt, entered(&rt, alloc, &mut market, &Cmd::Control(5)), 0);
    same(&rt, market.limits().value, 5);
    // Each of the arenas but the last one is to hire.
    let listing = entered(&rt, alloc, &mut market, &Cmd::Lists);
    holds(&rt, (4..=7).contains(&listing));
    drop(market);
}

/// The second of two calls opened one arena more.
fn have_opened(rt: &impl Abort, replies: &[Reply]) {
    same(rt, replies.len(), 2);
    holds(
        rt,
        matches!(&replies[1], Reply::Opened(arena) if arena.get() == ARENAS + 1),
    );
}

/// A list of two calls is answered, once more where there was no memory: then all was as before.
fn answers_a_list(rt: &impl Abort, alloc: Global, market: &mut Market) {
    let seat = SeatNo::new(0);
    let opening = Cmd::Open(8, 1, Level::from_index(1));
    let calls = [Cmd::Limit, opening].map(|cmd| Call { seat, cmd });
    let before = what_is_seen(market);
    market.has_a_seat();
    if let Ok(replies) = apply_all(alloc, market, &calls) {
        have_opened(rt, &replies);
        return;
    }
    let after = what_is_seen(market);
    same(rt, after, before);
    market.has_a_seat();
    let Ok(replies) = apply_all(alloc, market, &calls) else {
        panic!(rt; "no memory");
    };
    have_opened(rt, &replies);
}

#[test]
fn a_refused_growth_leaves_a_list_of_calls(rt: HostRuntime) {
    let mut market = with_arenas(&rt, rt.alloc());
    answers_a_list(&rt, rt.alloc(), &mut market);
    drop(market);
}

/// As long as this fails, a growth of the tests above was refused: all that they ask for and more, never asked for again.
#[test]
fn every_growth_is_granted(rt: HostRuntime) {
    let alloc = rt.alloc();
    let Ok(mut market) = Market::new(alloc, 64, 64, 4, 3) else {
        panic!(&rt; "no market");
    };
    for number in 1..8 {
        let open = Cmd::Open(8, 1, Level::from_index(1));
        granted(&rt, alloc, &mut market, open);
        granted(
            &rt,
            alloc,
            &mut market,
            Cmd::Request(ArenaId::new(number), 1, 0),
        );
        granted(&rt, alloc, &mut market, Cmd::Control(64));
    }
    granted(&rt, alloc, &mut market, Cmd::Lists);
    drop(market);
}
