//! Texts of commands and replies.
use crate::asserts::{holds, same};
use market_prog::RunFault;
use market_texts::{cmd_text, open_fault_text, push_reply, read_cmd, read_line, reply_text};
use market_types::{
    ArenaId, ArenaView, Correction, Fault, Imbalance, LimitView, Lists, OpenFault, Reply,
};
use std::alloc::Global;
use std::process::Abort;
use std::rt::HostRuntime;

/// The canonical text of each command.
const TEXTS: [&str; 13] = [
    "open 8 1 normal",
    "close 1",
    "priority 1 high",
    "resize 1 4 1",
    "request 1 3 0",
    "control 4",
    "uncontrol 1",
    "join",
    "stay",
    "leave",
    "show 1",
    "lists",
    "limit",
];

#[test]
fn commands_are_read_and_written(rt: HostRuntime) {
    for text in TEXTS {
        let Some(cmd) = read_cmd(text.as_bytes(), 3) else {
            panic!(&rt; "unread");
        };
        let Ok(written) = cmd_text(rt.alloc(), &cmd, 3) else {
            panic!(&rt; "no memory");
        };
        same(&rt, written.as_str(), text);
    }
}

#[test]
fn a_line_names_its_seat(rt: HostRuntime) {
    let Some((seat, _cmd)) = read_line(b"3 limit", 4, 3) else {
        panic!(&rt; "unread");
    };
    same(&rt, seat.get(), 3);
    holds(&rt, read_line(b"4 limit", 4, 3).is_none());
}

/// The reply has that text.
fn is_written(rt: &impl Abort, alloc: Global, reply: &Reply, due: &str) {
    let Ok(text) = reply_text(alloc, reply) else {
        panic!(rt; "no memory");
    };
    same(rt, text.as_str(), due);
    let mut out = Vec::new(alloc);
    holds(rt, push_reply(&mut out, reply).is_ok());
    same(rt, out.as_slice(), due.as_bytes());
}

#[test]
fn views_are_written(rt: HostRuntime) {
    let view = ArenaView {
        arena: ArenaId::new(1),
        request: 3,
        allot: 3,
        top: true,
        active: 0,
        recall: 0,
        hire: 3,
    };
    let due = "arena 1 request 3 allot 3 top yes active 0 recall 0 hire 3";
    is_written(&rt, rt.alloc(), &Reply::Shown(view), due);
    let limits = LimitView {
        value: 8,
        limit: 7,
        effective: 7,
    };
    let due = "value 8 limit 7 effective 7";
    is_written(&rt, rt.alloc(), &Reply::Limits(limits), due);
}

#[test]
fn lists_are_written(rt: HostRuntime) {
    let mut lists = Lists {
        arenas: Vec::new(rt.alloc()),
    };
    for (arena, count) in [(3, 1), (1, 2)] {
        let imbalance = Imbalance {
            arena: ArenaId::new(arena),
            correction: Correction::Recall,
            count,
        };
        holds(&rt, lists.push(imbalance).is_ok());
    }
    let due = "recall 3:1,1:2 hire -";
    is_written(&rt, rt.alloc(), &Reply::Listed(lists), due);
}

#[test]
fn faults_are_written(rt: HostRuntime) {
    let busy = Reply::Refused(Fault::Busy(1));
    is_written(&rt, rt.alloc(), &busy, "F06 busy 1");
    same(&rt, open_fault_text(OpenFault::BadLevels), "O5 bad levels");
}

#[test]
fn faults_of_a_run_have_texts(rt: HostRuntime) {
    for (fault, text) in [
        (RunFault::Open(OpenFault::BadSeats), "O3 bad seats"),
        (RunFault::Read, "read fault"),
        (RunFault::TooLong, "input too long"),
        (RunFault::Write, "write fault"),
        (RunFault::Memory, "memory"),
        (RunFault::HistoryFull, "history full"),
    ] {
        let Ok(told) = format!(in rt.alloc(); "{fault}") else {
            panic!(&rt; "no memory");
        };
        same(&rt, told.as_str(), text);
    }
}
