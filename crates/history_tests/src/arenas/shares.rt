//! Workers that arenas and levels share.
use crate::asserts::{holds, same};
use allotment::{assign, carry_share, mandatory_pick, share, top_level};
use market_types::{ArenaId, Level};

#[test]
fn three_arenas_share_seven_workers(rt: HostRuntime) {
    same(&rt, carry_share(7, 15, 0, 5), (2, 5));
    same(&rt, carry_share(7, 15, 5, 5), (2, 10));
    same(&rt, carry_share(7, 15, 10, 5), (3, 0));
    same(&rt, share(7, 15, 0, 5), 2);
    same(&rt, share(7, 15, 5, 5), 2);
    same(&rt, share(7, 15, 10, 5), 3);
}

#[test]
fn levels_are_served_in_order(rt: HostRuntime) {
    let demands = [6, 5, 4, 0, 0, 0, 0, 0];
    let assigned = assign(&demands, 7);
    same(&rt, assigned, [6, 1, 0, 0, 0, 0, 0, 0]);
    same(&rt, top_level(&demands), Level::new(1));
    same(&rt, top_level(&[0, 0, 4, 0, 0, 0, 0, 0]), Level::new(3));
    same(&rt, top_level(&[0; 8]), None);
    let first = Some(ArenaId::new(1));
    let second = Some(ArenaId::new(2));
    let picked = mandatory_pick(&[None, second, first, None, None, None, None, None]);
    holds(&rt, picked == second);
}
