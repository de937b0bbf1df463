//! What no clause says: that the market answers at all where memory is ample.
use crate::asserts::same;
use market_core::Market;
use market_texts::reply_text;
use market_types::{ArenaId, Cmd, Level, SeatNo};
use std::alloc::Global;
use std::process::Abort;
use std::rt::HostRuntime;

/// What the first three arenas are allotted.
fn allots(market: &Market) -> [u32; 3] {
    let mut allots = [0; 3];
    for i in 0..3 {
        if let Some(view) = market.view(ArenaId::new(i as u32 + 1)) {
            allots[i] = view.allot;
        }
    }
    allots
}

/// What each level is assigned, level 1 first.
fn assigned(market: &Market) -> [u64; 8] {
    let mut assigned = [0; 8];
    for i in 0..8 {
        if let Some(level) = Level::new(i as u32 + 1) {
            assigned[i] = market.assigned(level);
        }
    }
    assigned
}

/// A market with this base, a hard limit of 64, four seats, and so many levels.
fn opened(rt: &impl Abort, alloc: Global, base: u32, levels: u32) -> Market {
    let Ok(market) = Market::new(alloc, base, 64, 4, levels) else {
        panic!(rt; "no market");
    };
    market
}

/// Seat 3 of four gives these commands, and is answered so.
fn answers(rt: &impl Abort, alloc: Global, market: &mut Market, commands: &[(Cmd, &str)]) {
    for (cmd, due) in commands {
        same(rt, market.seats(), 4);
        let Ok(reply) = market.apply(alloc, SeatNo::new(3), *cmd) else {
            panic!(rt; "no reply");
        };
        let Ok(text) = reply_text(alloc, &reply) else {
            panic!(rt; "no text");
        };
        same(rt, text.as_str(), *due);
        drop(reply);
    }
}

#[test]
fn three_arenas_share_seven(rt: HostRuntime) {
    let mut market = opened(&rt, rt.alloc(), 8, 3);
    let level = Level::from_index(1);
    let commands = [
        (Cmd::Open(8, 1, level), "arena 1"),
        (Cmd::Open(8, 1, level), "arena 2"),
        (Cmd::Open(8, 1, level), "arena 3"),
        (Cmd::Request(ArenaId::new(1), 5, 0), "request 5"),
        (Cmd::Request(ArenaId::new(2), 5, 0), "request 5"),
        (Cmd::Request(ArenaId::new(3), 5, 0), "request 5"),
    ];
    answers(&rt, rt.alloc(), &mut market, &commands);
    same(&rt, allots(&market), [3, 2, 2]);
    same(&rt, assigned(&market), [0, 7, 0, 0, 0, 0, 0, 0]);
    drop(market);
}

#[test]
fn a_seat_is_placed_and_leaves(rt: HostRuntime) {
    let mut market = opened(&rt, rt.alloc(), 8, 3);
    let arena = ArenaId::new(1);
    let asked = [
        (Cmd::Open(8, 1, Level::from_index(1)), "arena 1"),
        (Cmd::Request(arena, 2, 0), "request 2"),
    ];
    answers(&rt, rt.alloc(), &mut market, &asked);
    let steps = [
        (Cmd::Join, "placed 1", Some(arena)),
        (Cmd::Stay, "stays 1", Some(arena)),
        (Cmd::Leave, "left 1", None),
    ];
    for (cmd, due, at) in &steps {
        answers(&rt, rt.alloc(), &mut market, &[(*cmd, *due)]);
        same(&rt, market.placed(), if at.is_some() { 1 } else { 0 });
        same(&rt, market.seats(), 4);
        same(&rt, market.arena_of(SeatNo::new(3)), *at);
    }
    drop(market);
}

#[test]
fn levels_are_served_in_order(rt: HostRuntime) {
    let mut market = opened(&rt, rt.alloc(), 8, 8);
    let commands = [
        (Cmd::Open(8, 1, Level::from_index(1)), "arena 1"),
        (Cmd::Request(ArenaId::new(1), 6, 0), "request 6"),
        (Cmd::Open(8, 1, Level::from_index(3)), "arena 2"),
        (Cmd::Request(ArenaId::new(2), 6, 0), "request 6"),
        (Cmd::Open(8, 1, Level::from_index(5)), "arena 3"),
        (Cmd::Request(ArenaId::new(3), 6, 0), "request 6"),
    ];
    answers(&rt, rt.alloc(), &mut market, &commands);
    same(&rt, allots(&market), [6, 1, 0]);
    same(&rt, assigned(&market), [0, 6, 0, 1, 0, 0, 0, 0]);
    drop(market);
}

/// Where none is named the last number is 1,048,576.
#[test]
fn the_usual_last_number_is_two_to_the_twentieth(rt: HostRuntime) {
    let Ok(market) = Market::new(rt.alloc(), 8, 64, 4, 3) else {
        panic!(&rt; "no market");
    };
    same(&rt, market.last().get(), 1_048_576);
    drop(market);
}
