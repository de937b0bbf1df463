//! Calls through an office.
use crate::asserts::{holds, same};
use edit_history::Keeping;
use market_types::{ArenaId, Cmd, LastNumber, Level, OpenFault};
use office_crew::{Meeting, MeetingTerms, Script, meet};
use std::alloc::Global;
use std::process::Abort;
use std::rt::HostRuntime;
use std::str;
use std::sync::Wait;
use std::thread::Threads;

const TERMS: MeetingTerms = MeetingTerms {
    base: 8,
    hard: 64,
    places: 100,
    levels: 3,
    last: LastNumber::USUAL,
    keeping: Keeping::Everything,
};

const ANSWERS: [&str; 7] = [
    "arena 1",
    "request 1",
    "placed 1",
    "arena 1 request 1 allot 1 top yes active 1 recall 0 hire 0",
    "stays 1",
    "recall - hire -",
    "left 1",
];

/// One script for one caller, made again where the first growth was refused.
fn scripts<'a>(rt: &impl Abort, alloc: Global, cmds: &'a [Cmd]) -> Vec<Script<'a>> {
    for _ in 0..2 {
        if let Ok(mut scripts) = Vec::with_capacity(alloc, 1) {
            if let Ok(script) = Script::new(alloc, cmds) {
                holds(rt, scripts.push(script).is_ok());
                return scripts;
            }
        }
    }
    panic!(rt; "no memory")
}

/// The answers are these in turn, but for the lines that say that memory ran out.
fn are_told(rt: &impl Abort, told: &[u8]) {
    let Ok(text) = str::from_utf8(told) else {
        panic!(rt; "no text");
    };
    let mut due = ANSWERS.iter();
    for line in text.lines() {
        if line != "C1 memory" {
            same(rt, due.next(), Some(&line));
        }
    }
    holds(rt, due.next().is_none());
}

/// A caller follows its script alone, in an office that is opened again where the first growth was refused.
fn met<'a, R: Threads + Wait + Sync + Abort>(
    rt: &R,
    alloc: Global,
    cmds: &'a [Cmd],
) -> Meeting<Script<'a>, Script<'a>> {
    for _ in 0..2 {
        let scripts = scripts(rt, alloc, cmds);
        same(rt, scripts.len(), 1);
        match meet(rt, alloc, TERMS, Vec::<Script>::new(alloc), scripts) {
            Ok(meeting) => return meeting,
            Err(unmet) => same(rt, unmet.fault, OpenFault::Memory),
        }
    }
    panic!(rt; "no memory")
}

fn is_visited<R: Threads + Wait + Sync + Abort>(rt: &R, alloc: Global, cmds: &[Cmd]) {
    let Meeting {
        closed,
        openers,
        tasks,
    } = met(rt, alloc, cmds);
    drop(openers);
    same(rt, tasks.len(), 1);
    are_told(rt, tasks[0].told());
    drop(tasks);
    same(
        rt,
        (closed.calls, closed.workers, closed.chronicle.len()),
        (7, 0, 7),
    );
    drop(closed);
}

/// A worker visits an arena.
fn visit() -> [Cmd; 7] {
    let arena = ArenaId::new(1);
    [
        Cmd::Open(8, 1, Level::from_index(1)),
        Cmd::Request(arena, 1, 0),
        Cmd::Join,
        Cmd::Show(arena),
        Cmd::Stay,
        Cmd::Lists,
        Cmd::Leave,
    ]
}

#[test]
fn a_refused_growth_leaves_the_pass_and_the_worker(rt: HostRuntime) {
    is_visited(&rt, rt.alloc(), &visit());
}

/// Whatever the office asks for, once, and never again.
fn is_granted<R: Threads + Wait + Sync + Abort>(rt: &R, alloc: Global, cmds: &[Cmd]) {
    let Ok(mut scripts) = Vec::with_capacity(alloc, 1) else {
        panic!(rt; "no memory");
    };
    let Ok(script) = Script::new(alloc, cmds) else {
        panic!(rt; "no memory");
    };
    holds(rt, scripts.push(script).is_ok());
    same(rt, scripts.len(), 1);
    let Ok(meeting) = meet(rt, alloc, TERMS, Vec::<Script>::new(alloc), scripts) else {
        panic!(rt; "no memory");
    };
    let Meeting {
        closed,
        openers,
        tasks,
    } = meeting;
    drop(closed);
    drop(openers);
    same(rt, tasks.len(), 1);
    let Ok(text) = str::from_utf8(tasks[0].told()) else {
        panic!(rt; "no text");
    };
    holds(rt, text.lines().all(|line| line != "C1 memory"));
    drop(tasks);
}

#[test]
fn what_an_office_asks_for_is_granted(rt: HostRuntime) {
    is_granted(&rt, rt.alloc(), &visit());
}
