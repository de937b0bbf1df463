//! What no clause says: that these plans are answered at all where memory is ample, and what.
use crate::asserts::same;
use drive_plan::{Plan, read_plan};
use market_drive::{plan_commands, unservable};
use market_types::{ArenaId, Cmd, Level};
use std::alloc::{AllocError, Global};
use std::process::Abort;
use std::rt::HostRuntime;

/// Two arenas at levels of their own, both of which workers come to.
const TWO_ARENAS: &str = "market 8 64\narena 8 1 normal 2 0\narena 8 1 low 1 0\n\
                          job 1 sum 10\njob 1 digits 9081\njob 2 sum 100\n";

/// The plan that a text is.
fn plan(rt: &impl Abort, alloc: Global, text: &str) -> Plan {
    let Ok(plan) = read_plan(alloc, text.as_bytes()) else {
        panic!(rt; "the text is no plan");
    };
    plan
}

/// The text is a plan whose market is made by these commands.
fn is_made_by(rt: &impl Abort, alloc: Global, text: &str, due: &[Cmd]) {
    let Ok(commands) = plan_commands(alloc, &plan(rt, alloc, text)) else {
        panic!(rt; "no memory for the commands");
    };
    same(rt, commands.as_slice(), due);
}

/// The first arena of the plan that a text is to which no worker would ever come.
fn first_unservable(rt: &impl Abort, alloc: Global, text: &str) -> Option<ArenaId> {
    let Ok(found) = unservable(alloc, &plan(rt, alloc, text)) else {
        panic!(rt; "no memory for the market");
    };
    found
}

#[test]
fn a_plan_is_made_by_its_arenas_and_then_their_requests(rt: HostRuntime) {
    let due = [
        Cmd::Open(8, 1, Level::from_index(1)),
        Cmd::Open(8, 1, Level::from_index(2)),
        Cmd::Request(ArenaId::new(1), 2, 0),
        Cmd::Request(ArenaId::new(2), 1, 0),
    ];
    is_made_by(&rt, rt.alloc(), TWO_ARENAS, &due);
}

#[test]
fn controls_come_first(rt: HostRuntime) {
    let text = "market 8 64 8\narena 6 0 8 65535 3\ncontrol 5\ncontrol 65536\n";
    let due = [
        Cmd::Control(5),
        Cmd::Control(65536),
        Cmd::Open(6, 0, Level::from_index(7)),
        Cmd::Request(ArenaId::new(1), 65535, 3),
    ];
    is_made_by(&rt, rt.alloc(), text, &due);
}

#[test]
fn the_first_arena_without_a_worker_to_come_is_told(rt: HostRuntime) {
    same(&rt, first_unservable(&rt, rt.alloc(), TWO_ARENAS), None);
    let reserved = "market 8 64\narena 8 1 low 1 0\narena 2 2 normal 5 0\njob 2 sum 10\n";
    let second = Some(ArenaId::new(2));
    same(&rt, first_unservable(&rt, rt.alloc(), reserved), second);
}

/// The text of a plan of 64 arenas and 256 controls, and a job for the last arena.
fn most_text(alloc: Global) -> Result<String, AllocError> {
    let mut text = String::new(alloc);
    text.push_str("market 8 64\n")?;
    for _ in 0..64 {
        text.push_str("arena 8 1 normal 2 1\n")?;
    }
    for _ in 0..256 {
        text.push_str("control 9\n")?;
    }
    text.push_str("job 64 sum 10\n")?;
    Ok(text)
}

#[test]
fn a_plan_has_384_commands_at_most(rt: HostRuntime) {
    let Ok(text) = most_text(rt.alloc()) else {
        panic!(&rt; "no memory");
    };
    let Ok(commands) = plan_commands(rt.alloc(), &plan(&rt, rt.alloc(), &text)) else {
        panic!(&rt; "no memory for the commands");
    };
    same(&rt, commands.len(), 256 + 64 + 64);
    let last = Cmd::Request(ArenaId::new(64), 2, 1);
    same(&rt, commands.last(), Some(&last));
    same(&rt, first_unservable(&rt, rt.alloc(), &text), None);
}
