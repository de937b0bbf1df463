//! Random calls on the rows in wide nodes and on a tree for each level, side by side: every answer of one is the other's.
ghost use Rattle.std.specs.Prelude.{◌≡◌, ◌^◌, ◌<◌, ◌≤◌, Some, IfSome, IsTrue};
ghost use Rattle.market_types.specs.Rows.{IsAbsent, row_at};

use super::looked::{promoted, pushed, updated};
use crate::asserts::{holds, same};
use market_types::{ArenaId, Row};
use prefix_tree::{Taken, Tree};
use std::alloc::Global;
use std::process::Abort;
use std::rt::HostRuntime;
use wide_rows::{Levels, Quad};

/// Numbers that look random, the same ones each time.
#[derive(Drop)]
struct Dice {
    state: u64,
}

impl Dice {
    /// A number below a bound.
    fn below(&mut self, bound: u32) -> u32
        requires { 0 < bound }
        ensures { result < bound }
    {
        self.state = self
            .state
            .wrapping_mul(6364136223846793005)
            .wrapping_add(1442695040888963407);
        ((self.state >> 33) % u64::from(bound)) as u32
    }
}

/// A stamp is newer than all of a tree, so no row has it.
fn is_new(tree: &Tree, stamp: u32) -> bool
    ensures { IsTrue result → IsAbsent stamp tree.now }
{
    let _rows = tree.len();
    let (first, _visits) = tree.walk(0);
    let Some(newest) = first else {
        return true;
    };
    newest.stamp < stamp
}

/// The row at an index of a tree, which is the row of its stamp.
fn row_in(tree: &Tree, index: usize) -> Option<Row>
    ensures { IfSome result (λ row. row_at row.stamp tree.now ≡ Some row) }
{
    let _rows = tree.len();
    tree.walk(index).0
}

/// Inserts a row that is the newest of its tree, where there is room and memory.
fn inserted(rt: &impl Abort, alloc: Global, tree: &mut Tree, row: Row)
    requires { row.request ≤ 65535 }
{
    holds(rt, tree.len() < 1024);
    holds(rt, is_new(tree, row.stamp));
    holds(rt, tree.insert(alloc, row).is_ok());
}

/// Pushes a row at a level and inserts it into the level's tree.
fn push_both(
    rt: &impl Abort,
    alloc: Global,
    wide: &mut Levels,
    tree: &mut Tree,
    level: usize,
    row: Row,
)
    requires level { level < 8 }
    requires request { row.request ≤ 65535 }
{
    let twin = row;
    pushed(rt, alloc, wide, level, row);
    inserted(rt, alloc, tree, twin);
}

/// The row that was taken out of a tree.
fn taken_row(tree: &mut Tree, stamp: u32) -> Option<Row> {
    let (taken, _visits) = tree.take_node(stamp);
    let Some(taken) = taken else {
        return None;
    };
    Some(taken.row())
}

/// Takes the row of a stamp out, if one has it.
fn take_both(rt: &impl Abort, wide: &mut Levels, tree: &mut Tree, level: usize, stamp: u32)
    requires level { level < 8 }
{
    same(rt, wide.take(level, stamp, &mut 0), taken_row(tree, stamp));
}

/// Sets the row at an index.
fn update_both(
    rt: &impl Abort,
    wide: &mut Levels,
    tree: &mut Tree,
    level: usize,
    index: usize,
    request: u32,
    mandated: bool,
)
    requires level { level < 8 }
    requires request { request ≤ 65535 }
{
    updated(rt, wide, level, index, request, mandated);
    let Some(row) = row_in(tree, index) else {
        panic!(rt; "no row there");
    };
    tree.update(row, request, mandated);
}

/// Puts a row that was taken out of a tree into one, as its newest.
fn put_newest(rt: &impl Abort, tree: &mut Tree, taken: Taken, stamp: u32) {
    holds(rt, tree.len() < 1024);
    holds(rt, is_new(tree, stamp));
    tree.put_node(taken, stamp);
}

/// Promotes the row at an index of a level to another level, or to its own.
fn promote_both(
    rt: &impl Abort,
    wide: &mut Levels,
    trees: &mut [Tree; 8],
    from: usize,
    index: usize,
    to: usize,
    newest: u32,
)
    requires from { from < 8 }
    requires to { to < 8 }
{
    promoted(rt, wide, from, index, to, newest);
    let Some(row) = trees[from].walk(index).0 else {
        panic!(rt; "no row there");
    };
    let (taken, _visits) = trees[from].take_node(row.stamp);
    let Some(taken) = taken else {
        panic!(rt; "no row of this stamp");
    };
    put_newest(rt, &mut trees[to], taken, newest);
}

/// Asks both for all that a level is asked.
fn ask_both(rt: &impl Abort, wide: &Levels, tree: &Tree, level: usize, stamp: u32, index: usize)
    requires level { level < 8 }
{
    same(
        rt,
        wide.before(level, stamp, &mut 0),
        tree.sum_before(stamp).0,
    );
    same(rt, wide.demand(level), tree.total());
    same(
        rt,
        wide.first_mandated(level, &mut 0),
        tree.first_mandated().0,
    );
    same(rt, wide.walk(level, index, &mut 0), tree.walk(index).0);
}

/// Walks through all rows of a level four by four: they are those of its tree, in order.
fn walk_both(rt: &impl Abort, wide: &Levels, tree: &Tree, level: usize)
    requires level { level < 8 }
{
    let span = wide.whole(level);
    same(rt, span.requests(), tree.total());
    let mut index = 0usize;
    if let Some(walk) = span.walk() {
        let mut rest = walk;
        for _ in 0..1024 {
            let Some(quad) = rest.next() else { break };
            let (next, _asked) = rows_both(rt, quad, tree, index);
            index = next;
        }
    }
    same(rt, index, tree.len());
}

/// The rows of a quad are those of a tree from an index on; gives the index behind them and what they ask for.
fn rows_both(rt: &impl Abort, quad: Quad<'_>, tree: &Tree, index: usize) -> (usize, u64) {
    let mut rest = quad;
    let mut index = index;
    let mut asked = 0u64;
    for _ in 0..4 {
        let mut visits = 0;
        let Some(row) = rest.next(&mut visits) else {
            break;
        };
        same(rt, visits, 1);
        asked = asked.wrapping_add(u64::from(row.request));
        same(rt, Some(row), tree.walk(index).0);
        index = index.wrapping_add(1);
    }
    (index, asked)
}

/// The index of the row with a stamp, from one on, and what the rows before it ask for.
fn come_to(rt: &impl Abort, tree: &Tree, index: usize, stamp: u32) -> (usize, u64) {
    let mut index = index;
    let mut asked = 0u64;
    for _ in 0..1024 {
        let Some(row) = tree.walk(index).0 else {
            panic!(rt; "no row of this stamp");
        };
        if row.stamp == stamp {
            break;
        }
        asked = asked.wrapping_add(u64::from(row.request));
        index = index.wrapping_add(1);
    }
    (index, asked)
}

/// A quad comes next, behind rows to none of whom a worker is due: the index behind its rows, and what is due with them.
fn serve_quad(
    rt: &impl Abort,
    tree: &Tree,
    quad: Quad<'_>,
    index: usize,
    workers: u64,
    before: u64,
    carry: u64,
    demand: u64,
) -> (usize, u64) {
    let mut quad = quad;
    let mut visits = 0;
    let Some(row) = quad.next(&mut visits) else {
        panic!(rt; "no rows come next");
    };
    let (first, passed) = come_to(rt, tree, index, row.stamp);
    same(rt, carry, before.wrapping_add(workers.wrapping_mul(passed)));
    holds(rt, passed == 0 || carry < demand);
    let asks = u64::from(row.request);
    same(rt, tree.walk(first).0, Some(row));
    let (next, others) = rows_both(rt, quad, tree, first.wrapping_add(1));
    (
        next,
        carry.wrapping_add(workers.wrapping_mul(asks.wrapping_add(others))),
    )
}

/// Serves the rows of a level, which share so many workers, by a walk to those to whom one is due: to all that is passed over less
/// than a worker is, and with the rows that come next there is one.
fn serve_both(rt: &impl Abort, wide: &Levels, tree: &Tree, level: usize, workers: u64)
    requires level { level < 8 }
    requires few { workers < 2 ^ 31 }
{
    let demand = tree.total();
    holds(rt, demand < 1 << 32);
    let Some(walk) = wide.whole(level).walk() else {
        return;
    };
    let mut rest = walk;
    let mut index = 0usize;
    let mut carry = 0u64;
    for _ in 0..1024 {
        holds(rt, carry < 1 << 32);
        let before = carry;
        let mut visits = 0;
        let Some(quad) = rest.next_due(workers, demand, &mut carry, &mut visits) else {
            break;
        };
        // A run of quads counts at most 2, one of leaves 4, of blocks 4, then again of leaves and of quads.
        holds(rt, visits <= 16);
        let (next, due) = serve_quad(rt, tree, quad, index, workers, before, carry, demand);
        holds(rt, due >= demand);
        index = next;
        if demand > 0 {
            carry = due % demand;
        }
    }
    // nobody of those that are left is due a worker
    holds(rt, index == tree.len() || carry < demand);
}

/// A stamp to ask about: none so low, none so high, or one that a row may have.
fn any_stamp(dice: &mut Dice, newest: u32) -> u32
    requires { newest ≤ 1000000 }
{
    match dice.below(8) {
        0 => 0,
        1 => u32::MAX,
        _ => dice.below(newest + 2),
    }
}

/// Takes the row at an index out.
fn take_at(rt: &impl Abort, wide: &mut Levels, tree: &mut Tree, level: usize, index: usize)
    requires level { level < 8 }
{
    let Some(row) = tree.walk(index).0 else {
        panic!(rt; "no row there");
    };
    take_both(rt, wide, tree, level, row.stamp);
}

/// Changes a row that a level has: the row goes, moves to a level, or asks for another number.
fn change_row(
    rt: &impl Abort,
    dice: &mut Dice,
    wide: &mut Levels,
    trees: &mut [Tree; 8],
    level: usize,
    kind: u32,
    to: usize,
    stamp: u32,
)
    requires level { level < 8 }
    requires to { to < 8 }
{
    let rows = trees[level].len() as u32;
    if rows == 0 {
        return;
    }
    let index = dice.below(rows) as usize;
    if kind < 4 {
        take_at(rt, wide, &mut trees[level], level, index);
        return;
    }
    if kind < 6 {
        promote_both(rt, wide, trees, level, index, to, stamp);
        return;
    }
    let request = dice.below(65536);
    let mandated = dice.below(6) == 0;
    update_both(rt, wide, &mut trees[level], level, index, request, mandated);
}

/// A new row of a stamp.
fn new_row(dice: &mut Dice, stamp: u32) -> Row
    ensures { result.request ≤ 65535 }
{
    let request = dice.below(65536);
    let mandated = dice.below(8) == 0;
    Row {
        stamp,
        arena: ArenaId::new(stamp),
        request,
        mandated,
    }
}

/// Asks both about a level, and takes out of it what it does not have. After each 32nd turn the level is walked through and served.
fn ask_of_level(
    rt: &impl Abort,
    dice: &mut Dice,
    wide: &mut Levels,
    tree: &mut Tree,
    level: usize,
    stamp: u32,
)
    requires level { level < 8 }
    requires stamp { stamp ≤ 40000 }
{
    let asked = any_stamp(dice, stamp);
    let index = dice.below(tree.len() as u32 + 2) as usize;
    ask_both(rt, wide, tree, level, asked, index);
    if stamp % 32 == 0 {
        walk_both(rt, wide, tree, level);
        serve_both(rt, wide, tree, level, u64::from(dice.below(300)));
    }
    // no row has this stamp
    take_both(rt, wide, tree, level, 0);
}

/// A turn at so many levels of up to six calls that must be answered alike: so many of eight push a row, unless there are the most.
fn take_turn(
    rt: &impl Abort,
    alloc: Global,
    dice: &mut Dice,
    wide: &mut Levels,
    trees: &mut [Tree; 8],
    levels: u32,
    most: usize,
    pushes: u32,
    stamp: u32,
)
    requires some { 0 < levels }
    requires levels { levels ≤ 8 }
    requires stamp { stamp ≤ 40000 }
{
    let level = dice.below(levels) as usize;
    let to = dice.below(levels) as usize;
    let kind = dice.below(8);
    if kind >= pushes {
        change_row(rt, dice, wide, trees, level, kind, to, stamp);
    } else if wide.len() < most {
        let row = new_row(dice, stamp);
        push_both(rt, alloc, wide, &mut trees[level], level, row);
    }
    ask_of_level(rt, dice, wide, &mut trees[to], to, stamp);
}

/// 40,000 turns at so many levels, while the rows grow to their most and fall to an eighth of it, again and again.
fn compare(rt: &impl Abort, alloc: Global, seed: u64, levels: u32, most: usize)
    requires some { 0 < levels }
    requires levels { levels ≤ 8 }
    requires most { most ≤ 1024 }
{
    let mut dice = Dice { state: seed };
    let mut wide = Levels::new(alloc);
    let mut trees = [
        Tree::new(),
        Tree::new(),
        Tree::new(),
        Tree::new(),
        Tree::new(),
        Tree::new(),
        Tree::new(),
        Tree::new(),
    ];
    let mut pushes = 3;
    let mut was_full = false;
    for stamp in 1..=40000u32 {
        if wide.len() >= most {
            pushes = 1;
            was_full = true;
        }
        if wide.len() <= most / 8 {
            pushes = 3;
        }
        take_turn(
            rt, alloc, &mut dice, &mut wide, &mut trees, levels, most, pushes, stamp,
        );
    }
    holds(rt, was_full);
    drop(wide);
    drop(trees);
}

#[test]
fn answers_as_a_tree_for_each_level(rt: HostRuntime) {
    for (seed, levels, most) in [
        (1, 1, 1),
        (2, 2, 3),
        (3, 1, 17),
        (4, 3, 60),
        (5, 8, 300),
        (6, 2, 600),
        (7, 1, 1024),
        (8, 8, 1024),
    ] {
        compare(&rt, rt.alloc(), seed, levels, most);
    }
}
