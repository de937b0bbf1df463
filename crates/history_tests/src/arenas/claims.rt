//! What an arena asks for.
use crate::asserts::{holds, same};
use arena_record::ArenaRecord;
use market_types::Fault;
use std::process::Abort;
use std::rt::HostRuntime;

/// What was asked for is kept where less than none is asked for.
fn totals_are_kept(rt: &impl Abort, arena: &mut ArenaRecord) {
    let mut requests = [0; 3];
    let workers = [-3, 2, 4];
    for i in 0..3 {
        same(rt, arena.add(workers[i], 0), Ok(()));
        requests[i] = arena.request();
    }
    same(rt, requests, [0, 0, 3]);
}

/// Totals beyond their ranges are refused.
fn totals_are_bounded(rt: &impl Abort, arena: &mut ArenaRecord) {
    same(rt, arena.add(i32::MAX, 0), Err(Fault::WantedRange));
    same(rt, arena.add(0, -1), Err(Fault::MandatoryRange));
    same(rt, arena.request(), 3);
}

/// The arena gets fewer slots.
fn slots_are_fewer(rt: &impl Abort, arena: &mut ArenaRecord) {
    same(rt, arena.resize(2, 0), Ok(()));
    same(rt, arena.request(), 2);
    same(rt, arena.resize(2, 3), Err(Fault::BadReserve));
    same(rt, arena.cap(), 2);
}

#[test]
fn signed_totals_are_not_forgotten(rt: HostRuntime) {
    let Ok(mut arena) = ArenaRecord::new(8, 1) else {
        panic!(&rt; "no arena");
    };
    totals_are_kept(&rt, &mut arena);
    totals_are_bounded(&rt, &mut arena);
    slots_are_fewer(&rt, &mut arena);
}

#[test]
fn one_reserved_slot_serves_enqueued_work(rt: HostRuntime) {
    let Ok(mut arena) = ArenaRecord::new(1, 1) else {
        panic!(&rt; "no arena");
    };
    same(&rt, arena.add(5, 0), Ok(()));
    same(&rt, arena.request(), 0);
    holds(&rt, !arena.mandated());
    same(&rt, arena.add(0, 1), Ok(()));
    same(&rt, arena.mandatory(), 1);
    same(&rt, arena.request(), 1);
    holds(&rt, arena.mandated());
}
