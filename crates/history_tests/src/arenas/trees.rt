//! What no clause says: worked rows, and bounds at a full tree.
ghost use Rattle.std.specs.Prelude.{◌≡◌, ◌≤◌, ◌<◌};

use crate::asserts::{holds, same};
use market_types::{ArenaId, Row};
use prefix_tree::Tree;
use std::alloc::Global;
use std::process::Abort;
use std::rt::HostRuntime;

/// The row of an arena with the number of its stamp.
fn row(stamp: u32, request: u32, mandated: bool) -> Row
    ensures stamp { result.stamp ≡ stamp }
    ensures request { result.request ≡ request }
{
    Row {
        stamp,
        arena: ArenaId::new(stamp),
        request,
        mandated,
    }
}

/// Inserts a row where its stamp is new and there is room, and says whether it did.
fn insert(rt: &impl Abort, tree: &mut Tree, alloc: Global, row: Row) -> bool
    requires { row.request ≤ 65535 }
{
    let (taken, _visits) = tree.take_node(row.stamp);
    if let Some(taken) = taken {
        tree.put_node(taken, row.stamp);
        return false;
    }
    if tree.len() >= Tree::MOST_ROWS {
        return false;
    }
    holds(rt, tree.insert(alloc, row).is_ok());
    true
}

/// There is nothing to be found, set or taken.
fn shows_nothing(rt: &impl Abort, tree: &mut Tree) {
    same(rt, tree.sum_before(2), (0, 0));
    same(rt, tree.set(2, 1, true), 0);
    same(rt, tree.walk(0), (None, 0));
    same(rt, tree.first_mandated(), (None, 0));
    same(rt, tree.take_node(2).1, 0);
}

/// The second of three rows stands between the others.
fn enters_three(rt: &impl Abort, tree: &Tree) {
    let mut visits = 0;
    let whole = tree.whole();
    same(rt, whole.requests(), 15);
    if let Some(parts) = whole.enter(&mut visits) {
        same(rt, parts.newer.requests(), 5);
        same(rt, parts.row.stamp, 2);
        same(rt, parts.older.requests(), 5);
    }
    same(rt, visits, 1);
}

/// Three rows, newest first, of which the two older ones are mandated.
fn shows_three(rt: &impl Abort, tree: &Tree) {
    for (place, stamp) in [(0, 3), (1, 2), (2, 1)] {
        same(rt, tree.walk(place).0, Some(row(stamp, 5, stamp < 3)));
    }
    same(rt, tree.walk(3).0, None);
    enters_three(rt, tree);
    same(rt, tree.sum_before(2).0, 5);
    same(rt, tree.total(), 15);
    same(rt, tree.len(), 3);
    same(rt, tree.first_mandated().0, Some(row(2, 5, true)));
}

#[test]
fn walks_newest_first(rt: HostRuntime) {
    let mut tree = Tree::new();
    shows_nothing(&rt, &mut tree);
    for stamp in [1, 2, 3] {
        holds(
            &rt,
            insert(&rt, &mut tree, rt.alloc(), row(stamp, 5, stamp < 3)),
        );
    }
    shows_three(&rt, &tree);
    drop(tree);
}

/// A tree with the most rows.
fn fill(rt: &impl Abort, alloc: Global, tree: &mut Tree) {
    for stamp in 2..=1024u32 {
        holds(rt, insert(rt, tree, alloc, row(stamp, 65535, false)));
    }
    same(rt, tree.len(), Tree::MOST_ROWS);
    same(rt, tree.total(), 1024 * 65535);
}

/// Each row is found and set by few visits.
fn visits_few(rt: &impl Abort, tree: &mut Tree) {
    for stamp in 1..=1024u32 {
        let (before, visits) = tree.sum_before(stamp);
        same(rt, before, u64::from(1024 - stamp) * 65535);
        holds(rt, 1 <= visits && visits <= 22);
        holds(rt, tree.set(stamp, 65535, true) <= 22);
    }
}

#[test]
fn visits_few_nodes_of_a_full_tree(rt: HostRuntime) {
    let mut tree = Tree::new();
    same(&rt, tree.insert(rt.alloc(), row(1, 65535, false)), Ok(1));
    fill(&rt, rt.alloc(), &mut tree);
    visits_few(&rt, &mut tree);
    drop(tree);
}
