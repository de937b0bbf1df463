//! Three callers of one office, one after another: two come to work, and one of them stays. An office that
//! keeps no entry answers more calls than a history has places.
ghost use Rattle.std.specs.Prelude.{◌≡◌, ◌<◌, ◌+◌, vec_len, vec_capacity, All, IfOk, IfErr, false};
ghost use Rattle.market_types.specs.Commands.{moves_seat};
ghost use Rattle.market_lock.specs.Seen.{OfPass, OfPlaced};

use crate::asserts::{holds, same};
use market_lock::{Closed, Joined, Office, Pass, Placed, Stayed};
use market_types::{ArenaId, Cmd, Level, OpenFault};
use std::alloc::Global;
use std::process::Abort;
use std::rt::HostRuntime;
use std::sync::Wait;

/// The worker stays where it may, and leaves then.
fn stay_and_leave<R: Wait>(rt: &R, alloc: Global, office: &Office, placed: Placed) -> Pass
    requires { placed.who.table ≡ office.now.table }
    ensures { result.table ≡ office.now.table }
{
    match office.stay(rt, alloc, placed) {
        Stayed::Stays(placed) => office.leave(rt, placed),
        Stayed::Recalled(pass) => pass,
        Stayed::Failed(placed, _) => office.leave(rt, placed),
    }
}

/// A pass comes back.
fn put(office: &Office, passes: &mut Vec<Pass>, pass: Pass)
    requires room { vec_len passes.old < vec_capacity passes.old }
    requires own { pass.table ≡ office.now.table }
    requires all { All (λ (p : OfPass). p.table ≡ office.now.table) passes.old.items }
    ensures all { All (λ (p : OfPass). p.table ≡ office.now.table) passes.new.items }
    ensures more { vec_len passes.new ≡ vec_len passes.old + 1 }
    ensures capacity { vec_capacity passes.new ≡ vec_capacity passes.old }
{
    passes.push_reserved(pass);
}

/// The one worker is the only one.
fn put_placed(office: &Office, placed: &mut Vec<Placed>, worker: Placed)
    requires room { (vec_len placed.old ≡ 0) × (0 < vec_capacity placed.old) }
    requires own { worker.who.table ≡ office.now.table }
    ensures all { All (λ (p : OfPlaced). p.who.table ≡ office.now.table) placed.new.items }
    ensures one { vec_len placed.new ≡ 1 }
{
    placed.push_reserved(worker);
}

/// Seat 0 opens an arena that asks for two workers; seat 1 joins, stays and leaves; seat 2 joins.
fn worked<R: Wait>(
    rt: &R,
    alloc: Global,
    office: Office,
    passes: Vec<Pass>,
    placed: Vec<Placed>,
) -> Closed
    requires own { All (λ (p : OfPass). p.table ≡ office.table) passes.items }
    requires three { (vec_len passes ≡ 3) × (office.terms.opening.seats ≡ 3) }
    requires room { (vec_len placed ≡ 0) × (0 < vec_capacity placed) }
{
    let mut passes = passes;
    let mut placed = placed;
    let Some(third) = passes.pop() else {
        unreachable!()
    };
    let Some(second) = passes.pop() else {
        unreachable!()
    };
    let Some(first) = passes.pop() else {
        unreachable!()
    };
    let mut first = first;
    drop(office.call(rt, alloc, &mut first, Cmd::Open(8, 1, Level::from_index(1))));
    drop(office.call(rt, alloc, &mut first, Cmd::Request(ArenaId::new(1), 2, 0)));
    let second = match office.join(rt, alloc, second) {
        Joined::Placed(worker) => stay_and_leave(rt, alloc, &office, worker),
        Joined::Idle(pass) => pass,
        Joined::Failed(pass, _) => pass,
    };
    put(&office, &mut passes, first);
    put(&office, &mut passes, second);
    match office.join(rt, alloc, third) {
        Joined::Placed(worker) => {
            put_placed(&office, &mut placed, worker);
            office.close(passes, placed)
        }
        Joined::Idle(pass) => {
            put(&office, &mut passes, pass);
            office.close(passes, placed)
        }
        Joined::Failed(pass, _) => {
            put(&office, &mut passes, pass);
            office.close(passes, placed)
        }
    }
}

fn opened<R: Wait>(rt: &R, alloc: Global) -> Result<Closed, OpenFault> {
    let Ok(placed) = Vec::<Placed>::with_capacity(alloc, 1) else {
        return Err(OpenFault::Memory);
    };
    match Office::open(alloc, 8, 64, 3, 100, 3) {
        Ok((office, passes)) => Ok(worked(rt, alloc, office, passes, placed)),
        Err(fault) => {
            placed.destroy_empty();
            Err(fault)
        }
    }
}

#[test]
fn three_callers_meet(rt: HostRuntime) {
    let alloc = rt.alloc();
    let answer = opened(&rt, alloc);
    let Ok(closed) = answer else {
        panic!(&rt; "no office");
    };
    same(&rt, closed.calls, 6);
    same(&rt, closed.workers, 1);
    same(&rt, closed.chronicle.len(), 6);
    let view = closed.chronicle.market().view(ArenaId::new(1));
    holds(
        &rt,
        matches!(view, Some(arena) if arena.active == 1 && arena.hire == 1),
    );
    drop(closed);
}

/// The caller joins, stays and leaves so many times.
fn visit_often<R: Wait>(rt: &R, alloc: Global, office: &Office, pass: Pass, times: u32) -> Pass
    requires { pass.table ≡ office.now.table }
    ensures { result.table ≡ office.now.table }
{
    let mut pass = pass;
    for _ in 0..times {
        pass = match office.join(rt, alloc, pass) {
            Joined::Placed(worker) => stay_and_leave(rt, alloc, office, worker),
            Joined::Idle(pass) => pass,
            Joined::Failed(pass, _) => pass,
        };
    }
    pass
}

/// Seat 0 opens an arena that asks for one worker, and seat 1 visits it a million times.
fn visited<R: Wait>(
    rt: &R,
    alloc: Global,
    office: Office,
    passes: Vec<Pass>,
    placed: Vec<Placed>,
) -> Closed
    requires own { All (λ (p : OfPass). p.table ≡ office.table) passes.items }
    requires two { (vec_len passes ≡ 2) × (office.terms.opening.seats ≡ 2) }
    requires nobody { vec_len placed ≡ 0 }
{
    let mut passes = passes;
    let Some(second) = passes.pop() else {
        unreachable!()
    };
    let Some(first) = passes.pop() else {
        unreachable!()
    };
    let mut first = first;
    drop(office.call(rt, alloc, &mut first, Cmd::Open(8, 1, Level::from_index(1))));
    drop(office.call(rt, alloc, &mut first, Cmd::Request(ArenaId::new(1), 1, 0)));
    let second = visit_often(rt, alloc, &office, second, 1_000_000);
    put(&office, &mut passes, first);
    put(&office, &mut passes, second);
    office.close(passes, placed)
}

fn unrecorded<R: Wait>(rt: &R, alloc: Global) -> Result<Closed, OpenFault> {
    let Ok(placed) = Vec::<Placed>::with_capacity(alloc, 1) else {
        return Err(OpenFault::Memory);
    };
    match Office::open_unrecorded(alloc, 8, 64, 2, 3) {
        Ok((office, passes)) => Ok(visited(rt, alloc, office, passes, placed)),
        Err(fault) => {
            placed.destroy_empty();
            Err(fault)
        }
    }
}

#[test]
fn an_unrecorded_office_answers_more_calls_than_a_history_has_places(rt: HostRuntime) {
    let alloc = rt.alloc();
    let answer = unrecorded(&rt, alloc);
    let Ok(closed) = answer else {
        panic!(&rt; "no office");
    };
    // Each visit is three calls: it joins, stays and leaves.
    same(&rt, closed.calls, 3_000_002);
    same(&rt, closed.workers, 0);
    same(&rt, closed.chronicle.len(), 3_000_002);
    let view = closed.chronicle.market().view(ArenaId::new(1));
    holds(
        &rt,
        matches!(view, Some(arena) if arena.active == 0 && arena.hire == 1),
    );
    drop(closed);
}

/// Gives a command, once more where a growth was refused.
fn tell<R: Wait>(rt: &R, alloc: Global, office: &Office, pass: &mut Pass, cmd: &Cmd)
    requires own { pass.old.table ≡ office.now.table }
    requires still { moves_seat cmd.now ≡ false }
    ensures own { pass.new.table ≡ office.now.table }
{
    if office.call(rt, alloc, pass, *cmd).is_err() {
        drop(office.call(rt, alloc, pass, *cmd));
    }
}

/// The pass joins, once more where a growth was refused. An office whose arena wants no worker gives it back.
fn placed_of<R: Wait>(rt: &R, alloc: Global, office: &Office, pass: Pass) -> Result<Placed, Pass>
    requires own { pass.table ≡ office.now.table }
    ensures placed { IfOk result (λ placed. placed.who.table ≡ office.now.table) }
    ensures back { IfErr result (λ pass. pass.table ≡ office.now.table) }
{
    let pass = match office.join(rt, alloc, pass) {
        Joined::Placed(worker) => return Ok(worker),
        Joined::Idle(pass) => return Err(pass),
        Joined::Failed(pass, _) => pass,
    };
    match office.join(rt, alloc, pass) {
        Joined::Placed(worker) => Ok(worker),
        Joined::Idle(pass) => Err(pass),
        Joined::Failed(pass, _) => Err(pass),
    }
}

/// Whoever is placed leaves.
fn freed<R: Wait>(rt: &R, office: &Office, caller: Result<Placed, Pass>) -> Pass
    requires placed { IfOk caller (λ placed. placed.who.table ≡ office.now.table) }
    requires free { IfErr caller (λ pass. pass.table ≡ office.now.table) }
    ensures own { result.table ≡ office.now.table }
{
    match caller {
        Ok(worker) => office.leave(rt, worker),
        Err(pass) => pass,
    }
}

/// Two workers come to an arena, the entries are cut out, and both leave.
fn cut_between<R: Wait>(rt: &R, alloc: Global, office: Office, passes: Vec<Pass>) -> Closed
    requires own { All (λ (p : OfPass). p.table ≡ office.table) passes.items }
    requires three { (vec_len passes ≡ 3) × (office.terms.opening.seats ≡ 3) }
{
    let mut passes = passes;
    let Some(third) = passes.pop() else {
        unreachable!()
    };
    let Some(second) = passes.pop() else {
        unreachable!()
    };
    let Some(mut clerk) = passes.pop() else {
        unreachable!()
    };
    let open = Cmd::Open(8, 1, Level::from_index(1));
    tell(rt, alloc, &office, &mut clerk, &open);
    let request = Cmd::Request(ArenaId::new(1), 2, 0);
    tell(rt, alloc, &office, &mut clerk, &request);
    let second = placed_of(rt, alloc, &office, second);
    let third = placed_of(rt, alloc, &office, third);
    let spare = Vec::with_capacity(alloc, 3).unwrap_or(Vec::new(alloc));
    drop(office.cut(rt, &mut clerk, spare));
    let second = freed(rt, &office, second);
    let third = freed(rt, &office, third);
    put(&office, &mut passes, clerk);
    put(&office, &mut passes, second);
    put(&office, &mut passes, third);
    office.close(passes, Vec::<Placed>::new(alloc))
}

/// What such an office leaves, if there was memory to open it.
fn cut_once<R: Wait>(rt: &R, alloc: Global) -> Result<Closed, OpenFault> {
    let (office, passes) = Office::open_in_parts(alloc, 8, 64, 3, 100, 3)?;
    Ok(cut_between(rt, alloc, office, passes))
}

/// Where all memory was refused that a cut, or a Leave behind it, might have asked for, both workers have left all the same.
#[test]
fn a_refused_growth_spares_the_leaves_after_a_cut(rt: HostRuntime) {
    let alloc = rt.alloc();
    let answer = cut_once(&rt, alloc);
    let closed = match answer {
        Ok(closed) => closed,
        Err(fault) => {
            same(&rt, fault, OpenFault::Memory);
            return;
        }
    };
    same(&rt, (closed.calls, closed.workers), (6, 0));
    // The entries before the cut are out, unless the spare vector had no room.
    let kept = closed.chronicle.kept().len();
    holds(&rt, kept == 2 || kept == 6);
    let view = closed.chronicle.market().view(ArenaId::new(1));
    holds(
        &rt,
        matches!(view, Some(arena) if arena.active == 0 && arena.hire == 2),
    );
    drop(closed);
}
