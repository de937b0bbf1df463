//! What one caller is answered, what is kept of it, and a history that fills up.

use crate::asserts::{holds, same};
use edit_history::{CallFault, Chronicle};
use market_lock::Desk;
use market_types::{ArenaId, Cmd, Level, OpenFault, Reply, SeatNo};
use std::alloc::Global;
use std::process::Abort;
use std::rt::HostRuntime;

/// What seat 0 is answered.
pub(crate) fn answer(desk: &mut Desk, alloc: Global, cmd: &Cmd) -> Result<Reply, CallFault> {
    desk.chronicle().market().has_a_seat();
    desk.serve(alloc, SeatNo::new(0), *cmd)
}

/// How many calls are recorded, and how many places are free.
fn standing(desk: &Desk) -> (u64, u32) {
    let chronicle = desk.chronicle();
    (chronicle.len(), chronicle.free())
}

/// The call is refused because places are lacking, and not recorded.
fn lacks_places(rt: &impl Abort, desk: &mut Desk, alloc: Global, cmd: &Cmd) {
    let before = standing(desk);
    let refused = answer(desk, alloc, cmd);
    holds(rt, matches!(&refused, Err(CallFault::HistoryFull)));
    same(rt, standing(desk), before);
    drop(refused);
}

/// An arena that asks for one worker is opened.
fn open_one(rt: &impl Abort, desk: &mut Desk, alloc: Global) {
    let told = answer(desk, alloc, &Cmd::Open(8, 1, Level::from_index(1)));
    holds(
        rt,
        matches!(&told, Ok(Reply::Opened(arena)) if arena.get() == 1),
    );
    drop(told);
    let told = answer(desk, alloc, &Cmd::Request(ArenaId::new(1), 1, 0));
    holds(rt, matches!(&told, Ok(Reply::Requested(1))));
    drop(told);
}

/// An arena that asks for one worker is opened, and seat 0 joins it.
fn join(rt: &impl Abort, desk: &mut Desk, alloc: Global) {
    open_one(rt, desk, alloc);
    let told = answer(desk, alloc, &Cmd::Join);
    holds(
        rt,
        matches!(&told, Ok(Reply::Placed(arena)) if arena.get() == 1),
    );
    same(rt, desk.chronicle().len(), 3);
    drop(told);
}

/// How many calls the desk's history has, and how many seats its market has placed.
pub(crate) fn kept(desk: Desk) -> (u64, u32) {
    let chronicle = desk.into_chronicle();
    (chronicle.len(), chronicle.market().placed())
}

/// A desk of one seat and four places, whose caller joins, is told that the history is full, and leaves unless it stays: what
/// is kept at the end.
fn full_history(rt: &impl Abort, alloc: Global, stays: bool) -> (u64, u32) {
    let Ok(chronicle) = Chronicle::new(alloc, 8, 64, 1, 4, 3) else {
        panic!(rt; "no chronicle");
    };
    let mut desk = Desk::new(chronicle);
    join(rt, &mut desk, alloc);
    lacks_places(rt, &mut desk, alloc, &Cmd::Show(ArenaId::new(1)));
    lacks_places(rt, &mut desk, alloc, &Cmd::Stay);
    if !stays {
        let left = answer(&mut desk, alloc, &Cmd::Leave);
        holds(
            rt,
            matches!(&left, Ok(Reply::Left(arena)) if arena.get() == 1),
        );
        lacks_places(rt, &mut desk, alloc, &Cmd::Limit);
        drop(left);
    }
    kept(desk)
}

#[test]
fn a_placed_worker_leaves_a_full_history(rt: HostRuntime) {
    same(&rt, full_history(&rt, rt.alloc(), false), (4, 0));
}

#[test]
fn a_worker_that_stays_is_counted(rt: HostRuntime) {
    same(&rt, full_history(&rt, rt.alloc(), true), (3, 1));
}

/// What seat 0 is answered, asked for again where there was no memory: then nothing had changed.
fn answer_at_last(
    rt: &impl Abort,
    desk: &mut Desk,
    alloc: Global,
    cmd: &Cmd,
    granted: bool,
) -> Reply {
    let before = standing(desk);
    match answer(desk, alloc, cmd) {
        Ok(reply) => return reply,
        Err(fault) => holds(rt, fault == CallFault::Memory && !granted),
    }
    same(rt, standing(desk), before);
    let Ok(reply) = answer(desk, alloc, cmd) else {
        panic!(rt; "no memory");
    };
    reply
}

/// An arena and a control are opened.
fn opens_both(rt: &impl Abort, desk: &mut Desk, alloc: Global, granted: bool) {
    let open = Cmd::Open(8, 1, Level::from_index(1));
    let told = answer_at_last(rt, desk, alloc, &open, granted);
    holds(
        rt,
        matches!(&told, Reply::Opened(arena) if arena.get() == 1),
    );
    drop(told);
    let told = answer_at_last(rt, desk, alloc, &Cmd::Control(5), granted);
    holds(
        rt,
        matches!(&told, Reply::Controlled(control) if control.get() == 1),
    );
    drop(told);
}

/// The arena asks for workers, and is listed.
fn asks_and_is_listed(rt: &impl Abort, desk: &mut Desk, alloc: Global, granted: bool) {
    let request = Cmd::Request(ArenaId::new(1), 3, 0);
    let told = answer_at_last(rt, desk, alloc, &request, granted);
    holds(rt, matches!(&told, Reply::Requested(3)));
    drop(told);
    let told = answer_at_last(rt, desk, alloc, &Cmd::Lists, granted);
    holds(
        rt,
        matches!(&told, Reply::Listed(lists) if lists.len() == 1),
    );
    drop(told);
}

/// A worker comes and goes.
fn joins_and_leaves(rt: &impl Abort, desk: &mut Desk, alloc: Global, granted: bool) {
    let told = answer_at_last(rt, desk, alloc, &Cmd::Join, granted);
    holds(
        rt,
        matches!(&told, Reply::Placed(arena) if arena.get() == 1),
    );
    drop(told);
    let told = answer(desk, alloc, &Cmd::Leave);
    holds(
        rt,
        matches!(&told, Ok(Reply::Left(arena)) if arena.get() == 1),
    );
    drop(told);
}

/// An arena and a control are opened, lists are told, and a worker comes and goes. Where every growth is granted, no call is refused.
fn comes_and_goes(rt: &impl Abort, desk: &mut Desk, alloc: Global, granted: bool) {
    opens_both(rt, desk, alloc, granted);
    asks_and_is_listed(rt, desk, alloc, granted);
    joins_and_leaves(rt, desk, alloc, granted);
}

/// What was kept then, unless there was no memory for the desk itself.
fn grown(rt: &impl Abort, alloc: Global, granted: bool) -> Option<(u64, u32)> {
    let chronicle = match Chronicle::new(alloc, 8, 64, 1, 100, 3) {
        Ok(chronicle) => chronicle,
        Err(fault) => {
            same(rt, fault, OpenFault::Memory);
            return None;
        }
    };
    let mut desk = Desk::new(chronicle);
    comes_and_goes(rt, &mut desk, alloc, granted);
    Some(kept(desk))
}

#[test]
fn a_refused_growth_leaves_the_desk(rt: HostRuntime) {
    if let Some(counted) = grown(&rt, rt.alloc(), false) {
        same(&rt, counted, (6, 0));
    }
}

#[test]
fn a_granted_growth_is_counted(rt: HostRuntime) {
    same(&rt, grown(&rt, rt.alloc(), true), Some((6, 0)));
}
