//! What no clause says: that the calls succeed where memory is ample, and values worked out by the rule.
ghost use Rattle.std.specs.Prelude.{◌≡◌, ◌<◌};

use super::looked::{promoted, pushed, updated};
use crate::asserts::{holds, same};
use market_types::{ArenaId, Row};
use std::alloc::Global;
use std::process::Abort;
use std::rt::HostRuntime;
use wide_rows::{Levels, Quad};

/// The row of an arena with the number of its stamp.
fn row(stamp: u32, request: u32, mandated: bool) -> Row
    ensures stamp { result.stamp ≡ stamp }
    ensures request { result.request ≡ request }
{
    Row {
        stamp,
        arena: ArenaId::new(stamp),
        request,
        mandated,
    }
}

/// A full store: 128 rows at each level, stamp after stamp level by level. A row at level L, counted from 0, asks for L + 1, and
/// the rows of rounds 3 and 63, counted from 0, are mandated.
fn fill(rt: &impl Abort, alloc: Global, levels: &mut Levels) {
    for round in 0..128u32 {
        for level in 0..8u32 {
            let row = row(8 * round + level + 1, level + 1, round == 3 || round == 63);
            pushed(rt, alloc, levels, level as usize, row);
        }
    }
}

/// The row of a full store that has so many newer ones at its level is found there, with the sum before it.
fn shows_row_of_full_level(rt: &impl Abort, levels: &Levels, level: u32, newer: u32)
    requires level { level < 8 }
    requires newer { newer < 128 }
{
    let stamp = 8 * (127 - newer) + level + 1;
    same(
        rt,
        levels.before(level as usize, stamp, &mut 0),
        u64::from(newer * (level + 1)),
    );
    same(
        rt,
        levels.walk(level as usize, newer as usize, &mut 0),
        Some(row(stamp, level + 1, newer == 124 || newer == 64)),
    );
}

/// Each row of a full store is found at its level, with the sum before it.
fn shows_full_level(rt: &impl Abort, levels: &Levels, level: u32)
    requires { level < 8 }
{
    same(
        rt,
        levels.demand(level as usize),
        128 * u64::from(level + 1),
    );
    same(
        rt,
        levels.first_mandated(level as usize, &mut 0),
        Some(row(8 * 63 + level + 1, level + 1, true)),
    );
    for newer in 0..128u32 {
        shows_row_of_full_level(rt, levels, level, newer);
    }
    same(rt, levels.walk(level as usize, 128, &mut 0), None);
}

/// The row of round 63 at level 2 asks for 100 more, and is no longer mandated.
fn changes_a_row(rt: &impl Abort, levels: &mut Levels) {
    updated(rt, levels, 2, 64, 103, false);
    same(rt, levels.demand(2), 484);
    same(rt, levels.before(2, 0, &mut 0), 484);
    same(rt, levels.before(2, u32::MAX, &mut 0), 0);
    same(rt, levels.walk(2, 64, &mut 0), Some(row(507, 103, false)));
    same(rt, levels.first_mandated(2, &mut 0), Some(row(27, 3, true)));
}

/// The newest row of level 7 goes.
fn takes_the_newest(rt: &impl Abort, levels: &mut Levels) {
    same(rt, levels.take(7, 1024, &mut 0), Some(row(1024, 8, false)));
    same(rt, levels.take(7, 1024, &mut 0), None);
    same(rt, levels.len(), 1023);
    same(rt, levels.walk(7, 0, &mut 0), Some(row(1016, 8, false)));
    same(rt, levels.demand(7), 1016);
}

/// The oldest row of level 0 comes first at level 7.
fn promotes_to_another_level(rt: &impl Abort, levels: &mut Levels) {
    promoted(rt, levels, 0, 127, 7, 2000);
    same(rt, levels.demand(0), 127);
    same(rt, levels.demand(7), 1017);
    same(rt, levels.walk(0, 127, &mut 0), None);
    same(rt, levels.walk(0, 126, &mut 0), Some(row(9, 1, false)));
}

/// The next one comes first at its own.
fn promotes_within_a_level(rt: &impl Abort, levels: &mut Levels) {
    promoted(rt, levels, 0, 126, 0, 2001);
    same(rt, levels.demand(0), 127);
    same(rt, levels.before(0, 2000, &mut 0), 1);
    same(rt, levels.before(0, 17, &mut 0), 126);
    same(rt, levels.len(), 1023);
    holds(rt, levels.walk(0, 0, &mut 0).is_some());
}

/// A full store shows its rows, and rows of it are changed, taken out and moved.
#[test]
fn keeps_rows_at_eight_levels(rt: HostRuntime) {
    let mut levels = Levels::new(rt.alloc());
    fill(&rt, rt.alloc(), &mut levels);
    same(&rt, levels.len(), 1024);
    for level in 0..8u32 {
        shows_full_level(&rt, &levels, level);
    }
    changes_a_row(&rt, &mut levels);
    takes_the_newest(&rt, &mut levels);
    promotes_to_another_level(&rt, &mut levels);
    promotes_within_a_level(&rt, &mut levels);
    drop(levels);
}

/// A level with the most rows, each with the largest request.
fn fill_one_level(rt: &impl Abort, alloc: Global, levels: &mut Levels) {
    for stamp in 1..=1024u32 {
        pushed(rt, alloc, levels, 4, row(stamp, 65535, false));
    }
    same(rt, levels.len(), 1024);
    same(rt, levels.demand(4), 1024 * 65535);
    same(rt, levels.demand(3), 0);
}

/// Each of them is found.
fn finds_each(rt: &impl Abort, levels: &Levels) {
    for stamp in 1..=1024u32 {
        let mut visits = 0;
        let before = levels.before(4, stamp, &mut visits);
        same(rt, before, u64::from(1024 - stamp) * 65535);
        holds(rt, 1 <= visits && visits <= 22);
    }
}

/// They go from the oldest on.
fn takes_each(rt: &impl Abort, levels: &mut Levels) {
    for stamp in 1..=1024u32 {
        same(
            rt,
            levels.take(4, stamp, &mut 0),
            Some(row(stamp, 65535, false)),
        );
        same(rt, levels.demand(4), u64::from(1024 - stamp) * 65535);
    }
    same(rt, levels.len(), 0);
    same(rt, levels.walk(4, 0, &mut 0), None);
}

/// All rows at one level, each with the largest request: they come, are found, and go from the oldest on.
#[test]
fn keeps_all_rows_at_one_level(rt: HostRuntime) {
    let mut levels = Levels::new(rt.alloc());
    fill_one_level(&rt, rt.alloc(), &mut levels);
    finds_each(&rt, &levels);
    takes_each(&rt, &mut levels);
    drop(levels);
}

/// The rows of a quad are those of these stamps and less, each of which asks for 1: the stamp of the next one.
fn walks_through_quad(rt: &impl Abort, quad: Quad<'_>, due: u32) -> u32 {
    let mut quad = quad;
    let mut due = due;
    for _ in 0..4 {
        let mut visits = 0;
        let Some(next) = quad.next(&mut visits) else {
            break;
        };
        same(rt, next, row(due, 1, false));
        due = due.wrapping_sub(1);
    }
    due
}

/// The 300 rows of the level are walked one after the other.
fn walks_in_order(rt: &impl Abort, levels: &Levels) {
    let span = levels.whole(2);
    same(rt, span.requests(), 300);
    let Some(mut walk) = span.walk() else {
        panic!(rt; "no rows");
    };
    let mut due = 300u32;
    for _ in 0..300 {
        let Some(quad) = walk.next() else { break };
        due = walks_through_quad(rt, quad, due);
    }
    same(rt, due, 0);
}

/// Where 100 are due, the first quad with the 100th of them is next.
fn comes_to_the_due(rt: &impl Abort, levels: &Levels) {
    let Some(mut walk) = levels.whole(2).walk() else {
        panic!(rt; "no rows");
    };
    let mut carry = 0;
    let mut passed = 0;
    let Some(mut quad) = walk.next_due(1, 100, &mut carry, &mut passed) else {
        panic!(rt; "nobody is due");
    };
    holds(rt, 96 <= carry && carry < 100);
    // three leaves of the newest block, three of the one before it, and a quad: 2, 2 and 1 binary digits
    same(rt, passed, 5);
    let mut visits = 0;
    let next = quad.next(&mut visits);
    same(
        rt,
        next,
        Some(row(300u32.wrapping_sub(carry as u32), 1, false)),
    );
    same(rt, visits, 1);
}

/// The 300 rows of a level, each of which asks for 1, are walked one after the other; and where 100 are due, the first quad with
/// the 100th of them is next.
#[test]
fn walks_through_a_level_in_order(rt: HostRuntime) {
    let mut levels = Levels::new(rt.alloc());
    for stamp in 1..301u32 {
        pushed(&rt, rt.alloc(), &mut levels, 2, row(stamp, 1, false));
    }
    walks_in_order(&rt, &levels);
    comes_to_the_due(&rt, &levels);
    drop(levels);
}
